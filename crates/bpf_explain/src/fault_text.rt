//! The first fault of a program, as text: what is known there, and what is wanted.

use crate::access_text::{write_address, write_bytes};
use crate::range_text::RangeWords;
use crate::ways::{Ways, is_unset, target_of};
use bpf_decode::{Code, Op, Operand, Program, Register};
use bpf_helpers::{Range, Sigs};
use bpf_regstate::{Reg, State};
use bpf_verifier::SlotFault;
use std::io::{self, Write};

/// The helpers that are told of are those with a number below this one.
const MOST_TOLD: u32 = 64;

/// Writes the first fault of a program with its reason, and the verdict.
pub(crate) fn write_fault<'a, W: Write>(
    ways: Ways<'a>,
    fault: SlotFault,
    slot: usize,
    writer: &mut W,
) -> io::Result<()> {
    let code = fault.code();
    writeln!(writer, "fault {code} at slot {slot}: {fault}")?;
    if let Some(op) = ways.program.ops().get(slot) {
        write_flow(ways.program, ways.sigs, fault, slot, op, writer)?;
        if let Some(Some(state)) = ways.states.get(slot) {
            write_value(ways, state, fault, slot, op, writer)?;
        }
    }
    writeln!(writer, "refused {code} {slot}")
}

/// Writes the reason of a fault that a slot has whatever is known there.
fn write_flow<W: Write>(
    program: &Program,
    sigs: &Sigs,
    fault: SlotFault,
    slot: usize,
    op: &Op,
    writer: &mut W,
) -> io::Result<()> {
    match fault {
        SlotFault::Jump => write_target(program, slot, op, writer),
        SlotFault::FallsOff => writeln!(
            writer,
            "    next: known no slot, wanted an exit as the last instruction"
        ),
        SlotFault::Helper => write_helpers(sigs, op, writer),
        SlotFault::WritesEnd => writeln!(writer, "    destination: known r10, wanted r0 to r9"),
        _ => Ok(()),
    }
}

fn write_target<W: Write>(
    program: &Program,
    slot: usize,
    op: &Op,
    writer: &mut W,
) -> io::Result<()> {
    let Some(target) = target_of(slot, op) else {
        return Ok(());
    };
    let reason = match usize::try_from(target) {
        Ok(place) if slot < place && place < program.slot_count() => "the second of a wide load",
        Ok(place) if slot < place => "behind the last",
        _ => "not later",
    };
    writeln!(
        writer,
        "    target: known slot {target} ({reason}), wanted the slot of a later instruction"
    )
}

fn write_helpers<W: Write>(sigs: &Sigs, op: &Op, writer: &mut W) -> io::Result<()> {
    let Op::Call { helper } = op else {
        return Ok(());
    };
    write!(writer, "    helper: known {helper}, wanted")?;
    let mut before = " one of ";
    for number in 0..MOST_TOLD {
        if sigs.get(number).is_some() {
            write!(writer, "{before}{number}")?;
            before = ", ";
        }
    }
    writeln!(writer)
}

/// Writes the reason of a fault that a slot has by what is known there.
fn write_value<'a, W: Write>(
    ways: Ways<'a>,
    state: &State,
    fault: SlotFault,
    slot: usize,
    op: &Op,
    writer: &mut W,
) -> io::Result<()> {
    match fault {
        SlotFault::Uninitialised | SlotFault::Argument => match op {
            Op::Call { helper } => write_argument(ways, state, fault, slot, *helper, writer),
            _ => write_unset(ways, state, slot, op, writer),
        },
        SlotFault::Address | SlotFault::WritesRecord => {
            write_address(ways.length, state, fault, op, writer)
        }
        SlotFault::StackByte => write_bytes(ways.length, state, op, writer),
        _ => Ok(()),
    }
}

/// Whether this is what the fault says of an argument that is to lie in a range.
fn is_at_fault(fault: SlotFault, known: Reg, wanted: Range) -> bool {
    match known {
        Reg::Uninit => fault == SlotFault::Uninitialised,
        Reg::Known(range) => {
            fault == SlotFault::Argument && (range.lo < wanted.lo || wanted.hi < range.hi)
        }
    }
}

fn write_argument<'a, W: Write>(
    ways: Ways<'a>,
    state: &State,
    fault: SlotFault,
    slot: usize,
    helper: u32,
    writer: &mut W,
) -> io::Result<()> {
    let Some(signature) = ways.sigs.get(helper) else {
        return Ok(());
    };
    for (index, wanted) in signature.args().iter().enumerate() {
        let number = index as u8 + 1;
        let register = Register::new(number);
        let known = state.register(register);
        if is_at_fault(fault, known, *wanted) {
            write!(
                writer,
                "    argument {number} of helper {helper}, {register}: "
            )?;
            let wanted = RangeWords(*wanted);
            return match known {
                Reg::Known(range) => write_ranges(range, wanted, writer),
                Reg::Uninit => {
                    let loss = ways.loss(slot, register);
                    writeln!(writer, "known {loss}, wanted {wanted}")
                }
            };
        }
    }
    Ok(())
}

/// Writes what is known of an argument, and what is wanted.
fn write_ranges<W: Write>(known: Range, wanted: RangeWords, writer: &mut W) -> io::Result<()> {
    let known = RangeWords(known);
    writeln!(writer, "known {known}, wanted {wanted}")
}

/// The register of an operand.
fn source(operand: &Operand) -> Option<Register> {
    match operand {
        Operand::From(register) => Some(*register),
        Operand::Immediate(_) => None,
    }
}

/// The registers that an instruction reads, of those that are no calls. MOV does not read its
/// destination.
fn registers_read(op: &Op) -> (Option<Register>, Option<Register>) {
    match op {
        Op::Arith {
            code: Code::Mov,
            operand,
            ..
        } => (None, source(operand)),
        Op::Arith { dst, operand, .. } => (Some(*dst), source(operand)),
        Op::Negate { dst, .. } => (Some(*dst), None),
        Op::Extend { src, .. } => (Some(*src), None),
        Op::End { dst, .. } => (Some(*dst), None),
        Op::Jump { dst, operand, .. } => (Some(*dst), source(operand)),
        Op::Exit => (Some(Register::new(0)), None),
        Op::Load { base, .. } => (Some(*base), None),
        Op::LoadSigned { base, .. } => (Some(*base), None),
        Op::Store { base, value, .. } => (Some(*base), source(value)),
        _ => (None, None),
    }
}

fn write_unset<'a, W: Write>(
    ways: Ways<'a>,
    state: &State,
    slot: usize,
    op: &Op,
    writer: &mut W,
) -> io::Result<()> {
    let (first, second) = registers_read(op);
    let register = match first {
        Some(register) if is_unset(state, register) => Some(register),
        _ => second,
    };
    let Some(register) = register else {
        return Ok(());
    };
    let loss = ways.loss(slot, register);
    writeln!(
        writer,
        "    {register}: known {loss}, wanted a value on every way here"
    )
}
