//! From bytes to a program.

ghost use Rattle.std.specs.Prelude.{◌≡◌, ◌*◌, ◌%◌, ◌<◌, ◌≤◌, ◌++◌, ℕ, List, length, IfOk, IfErr};
ghost use Rattle.std.specs.Prelude.{MatchResult, OnOk};
ghost use Rattle.std.specs.Int.{cast_unsigned, w32};
ghost use Rattle.bpf_decode.specs.Slots.{fields};
ghost use Rattle.bpf_decode.specs.Encoding.{Encodes, FirstFault, AreSlots, slot_of};
ghost use Rattle.bpf_decode.specs.Decoding.{AnswersFault, AnswersProgram, Begins, Grows, IsStop};
ghost use Rattle.bpf_decode.specs.Decoding.{Refuses, Stops, parts_of};
ghost use Rattle.bpf_decode.specs.declared.op.Op.{Op};

use crate::fault::{DecodeError, EncodingFault};
use crate::insn::Insn;
use crate::op::{Op, Register};
use crate::program::{MOST_SLOTS, Program};
use crate::row::op_of;
use std::alloc::{AllocError, Global};

/// How many bytes a program has at most.
const MOST_BYTES: usize = 8 * MOST_SLOTS;

/// The program that the bytes encode, of 1 to `MOST_SLOTS` slots. A refusal holds the first fault and its
/// slot: more bytes than that, no whole slots, or else the least slot that no row of RFC 9669's
/// instructions fits, with the least number of its faults.
pub fn decode(alloc: Global, bytes: &[u8]) -> Result<Program, DecodeError>
    // What is answered is encoded by the bytes, or is their first fault, unless memory runs out.
    ensures program { IfOk result (λ p. Encodes bytes.now p) }
    ensures refused { IfErr result (λ e. Refuses bytes.now e) }

    // There is no other program and no other first fault.
    ensures only_program { (ops : List Op) → Encodes bytes.now ops → AnswersProgram ops result }
    ensures only_fault { (code slot : ℕ) → FirstFault bytes.now code slot
        → AnswersFault code slot result }
{
    program_of(alloc, bytes)
}

/// A program that the bytes encode, or a first fault of theirs.
fn program_of(alloc: Global, bytes: &[u8]) -> Result<Program, DecodeError>
    ensures program { IfOk result (λ p. Encodes bytes.now p) }
    ensures refused { IfErr result (λ e. Refuses bytes.now e) }
{
    if bytes.len() > MOST_BYTES {
        return Err(DecodeError::Refused {
            fault: EncodingFault::TooLong,
            slot: 0,
        });
    }
    if bytes.is_empty() || bytes.len() % 8 != 0 {
        return Err(DecodeError::Refused {
            fault: EncodingFault::Length,
            slot: 0,
        });
    }
    let ops = instructions(alloc, bytes)?;
    Ok(Program::new(ops))
}

/// The instructions of some slots, with the tails of wide loads.
fn instructions(alloc: Global, bytes: &[u8]) -> Result<Vec<Op>, DecodeError>
    requires few { length bytes.now ≤ MOST_BYTES }
    requires slots { AreSlots bytes.now }
    ensures program { IfOk result (λ ops. Encodes bytes.now ops.items) }
    ensures refused { IfErr result (λ e. Refuses bytes.now e) }
{
    let mut ops = Vec::with_capacity(alloc, bytes.len() / 8)?;
    let mut rest = bytes;
    while !rest.is_empty() {
        let len = push_first(&mut ops, rest)?;
        rest = &rest[len..];
    }
    Ok(ops)
}

/// Adds the instruction at the front of some slots, and answers the number of its bytes.
fn push_first(ops: &mut Vec<Op>, rest: &[u8]) -> Result<usize, DecodeError>
    requires long { 8 ≤ length rest.now }
    requires slots { length rest.now % 8 ≡ 0 }
    requires few { length ops.old.items < MOST_SLOTS }
    ensures { MatchResult result (λ len. Grows ops.old.items ops.new.items rest.now len)
        (λ e. IsStop rest.now (length ops.old.items) e) }
{
    match first_op(rest, ops.len()) {
        Ok(op) => {
            let len = push_parts(ops, op)?;
            Ok(len)
        }
        Err(error) => Err(error),
    }
}

/// Adds an instruction, and its tail if it is a wide load; answers the number of its bytes.
fn push_parts(ops: &mut Vec<Op>, op: Op) -> Result<usize, AllocError>
    ensures ops { OnOk result (ops.new.items ≡ ops.old.items ++ parts_of op) }
    ensures len { IfOk result (λ len. len ≡ 8 * length (parts_of op)) }
{
    match op {
        Op::Wide { .. } => {
            ops.extend_from_slice(&[op, Op::Tail])?;
            Ok(16)
        }
        _ => {
            ops.extend_from_slice(&[op])?;
            Ok(8)
        }
    }
}

/// The instruction at the front of some slots, the first of which has this number.
fn first_op(rest: &[u8], slot: usize) -> Result<Op, DecodeError>
    requires long { 8 ≤ length rest.now }
    requires slots { length rest.now % 8 ≡ 0 }
    requires few { slot < MOST_SLOTS }
    ensures { MatchResult result (λ op. Begins rest.now op) (λ e. Stops rest.now slot e) }
{
    let insn = Insn::from_bytes(rest);
    let op = match op_of(insn) {
        Ok(op) => op,
        Err(fault) => return Err(DecodeError::Refused { fault, slot }),
    };
    match op {
        Op::Wide { dst, .. } => whole_wide(rest, slot, insn, dst),
        _ => Ok(op),
    }
}

/// A wide load with the value of both of its slots.
fn whole_wide(rest: &[u8], slot: usize, first: Insn, dst: Register) -> Result<Op, DecodeError>
    requires long { 8 ≤ length rest.now }
    requires slots { length rest.now % 8 ≡ 0 }
    requires few { slot < MOST_SLOTS }
    requires first { first ≡ fields rest.now }
    requires wide { (dst < 11) × (slot_of (Op.Wide dst (cast_unsigned w32 first.imm)) ≡ first) }
    ensures { MatchResult result (λ op. Begins rest.now op) (λ e. Stops rest.now slot e) }
{
    if rest.len() == 8 {
        return Err(DecodeError::Refused {
            fault: EncodingFault::CutWide,
            slot,
        });
    }
    let tail = Insn::from_bytes(&rest[8..]);
    if tail.opc != 0 || tail.dst != 0 || tail.src != 0 || tail.off != 0 {
        return Err(DecodeError::Refused {
            fault: EncodingFault::Field,
            slot: slot + 1,
        });
    }
    let low = first.imm.cast_unsigned() as u64;
    let high = tail.imm.cast_unsigned() as u64;
    Ok(Op::Wide {
        dst,
        value: high * 0x1_0000_0000 + low,
    })
}
