//! What is wrong with a slot that encodes no instruction, as text.

use bpf_decode::{EncodingFault, Insn};
use std::fmt;
use std::io::{self, Write};

/// The numbers that a field may have.
#[derive(Clone, Copy)]
enum Among {
    Any,
    Zero,
    ZeroOrOne,
    Parts32,
    Parts64,
    Widths,
    Registers,
}

impl Among {
    fn has(self, number: i32) -> bool {
        match self {
            Among::Any => true,
            Among::Zero => number == 0,
            Among::ZeroOrOne => matches!(number, 0 | 1),
            Among::Parts32 => matches!(number, 0 | 8 | 16),
            Among::Parts64 => matches!(number, 0 | 8 | 16 | 32),
            Among::Widths => matches!(number, 16 | 32 | 64),
            Among::Registers => matches!(number, 0..=10),
        }
    }

    fn text(self) -> &'static str {
        match self {
            Among::Any => "any",
            Among::Zero => "0",
            Among::ZeroOrOne => "0 or 1",
            Among::Parts32 => "0, 8 or 16",
            Among::Parts64 => "0, 8, 16 or 32",
            Among::Widths => "16, 32 or 64",
            Among::Registers => "0 to 10",
        }
    }
}

/// What an opcode that programs may have asks of the other fields. A register that it does not have
/// is 0.
#[derive(Clone, Copy)]
struct OpcodeFields {
    name: &'static str,
    has_destination: bool,
    has_source: bool,
    offsets: Among,
    immediates: Among,
}

fn fields_of(opcode: u8) -> OpcodeFields {
    let second = opcode / 8 % 2 == 1;
    let rest = if second { Among::Zero } else { Among::Any };
    let (name, has_destination, has_source, offsets, immediates) = match opcode {
        0x18 => ("a wide load", true, false, Among::Zero, Among::Any),
        0x05 => ("a jump", false, false, Among::Any, Among::Zero),
        0x06 => ("a jump", false, false, Among::Zero, Among::Any),
        0x85 => ("a call", false, false, Among::Zero, Among::Any),
        0x95 => ("an exit", false, false, Among::Zero, Among::Zero),
        0x84 | 0x87 => ("arithmetic", true, false, Among::Zero, Among::Zero),
        0xd4 | 0xd7 | 0xdc => (
            "a change of byte order",
            true,
            false,
            Among::Zero,
            Among::Widths,
        ),
        0x34 | 0x37 | 0x3c | 0x3f | 0x94 | 0x97 | 0x9c | 0x9f => {
            ("arithmetic", true, second, Among::ZeroOrOne, rest)
        }
        0xbc => ("arithmetic", true, true, Among::Parts32, Among::Zero),
        0xbf => ("arithmetic", true, true, Among::Parts64, Among::Zero),
        _ => match opcode % 8 {
            1 => ("a load", true, true, Among::Any, Among::Zero),
            2 => ("a store", true, false, Among::Any, Among::Any),
            3 => ("a store", true, true, Among::Any, Among::Zero),
            5 | 6 => ("a conditional jump", true, second, Among::Any, rest),
            _ => ("arithmetic", true, second, Among::Zero, rest),
        },
    };
    OpcodeFields {
        name,
        has_destination,
        has_source,
        offsets,
        immediates,
    }
}

/// What a slot has in a field.
#[derive(Clone, Copy)]
enum FieldValue {
    Number(i32),
    Opcode(u8),
    Nothing,
}

impl fmt::Display for FieldValue {
    fn fmt<W: fmt::Write>(&self, f: &mut fmt::Formatter<W>) -> fmt::Result {
        match *self {
            FieldValue::Number(number) => write!(f, "{number}"),
            FieldValue::Opcode(opcode) => write!(f, "{opcode:02x}"),
            FieldValue::Nothing => write!(f, "none"),
        }
    }
}

/// A field of a slot that is at fault.
#[derive(Clone, Copy)]
struct Misfit {
    field: &'static str,
    known: FieldValue,
    wanted: &'static str,
}

/// A field that is to have one of these numbers.
fn misfit_in(field: &'static str, number: i32, among: Among) -> Misfit {
    Misfit {
        field,
        known: FieldValue::Number(number),
        wanted: among.text(),
    }
}

/// The first field that its opcode does not allow, where one is.
fn field_at_fault(insn: Insn) -> Misfit {
    let fields = fields_of(insn.opc);
    let offset = insn.off as i32;
    if !fields.has_source && insn.src != 0 {
        misfit_in("source", insn.src as i32, Among::Zero)
    } else if !fields.has_destination && insn.dst != 0 {
        misfit_in("destination", insn.dst as i32, Among::Zero)
    } else if !fields.offsets.has(offset) {
        misfit_in("offset", offset, fields.offsets)
    } else {
        misfit_in("immediate", insn.imm, fields.immediates)
    }
}

/// The first field of the second slot of a wide load that is not 0, where one is.
fn tail_at_fault(insn: Insn) -> Misfit {
    if insn.opc != 0 {
        Misfit {
            field: "opcode",
            known: FieldValue::Opcode(insn.opc),
            wanted: "00",
        }
    } else if insn.dst != 0 {
        misfit_in("destination", insn.dst as i32, Among::Zero)
    } else if insn.src != 0 {
        misfit_in("source", insn.src as i32, Among::Zero)
    } else {
        misfit_in("offset", insn.off as i32, Among::Zero)
    }
}

/// The register that is over 10, where one is.
fn register_at_fault(insn: Insn) -> Misfit {
    if insn.dst > 10 {
        misfit_in("destination", insn.dst as i32, Among::Registers)
    } else {
        misfit_in("source", insn.src as i32, Among::Registers)
    }
}

/// What compilers write that no program may have, by its opcode, or nothing.
fn foreign(opcode: u8) -> &'static str {
    match opcode {
        0xc3 | 0xcb | 0xd3 | 0xdb => "an atomic operation",
        0x8d => "a call by a register",
        0x0d => "a jump by a register",
        0x20 | 0x28 | 0x30 | 0x40 | 0x48 | 0x50 => "a load of a packet",
        _ => "",
    }
}

/// What an instruction seems to be whose opcode programs may have.
fn name_of(insn: Insn) -> &'static str {
    match (insn.opc, insn.src, insn.off) {
        (0x85, 1, _) => "a call of a function of the program",
        (0x85, 2, _) => "a call of a function of the kernel",
        (0x18, 1..=6, _) => "the address of a map, a variable or a function",
        (0xbf, _, 1) => "a move between address spaces",
        _ => fields_of(insn.opc).name,
    }
}

/// Whether a slot is the second of a wide load, in bytes without a fault before it.
fn is_tail(bytes: &[u8], slot: usize) -> bool {
    let mut is_tail = false;
    for slot in bytes.chunks(8).take(slot) {
        is_tail = !is_tail && slot.first() == Some(&0x18);
    }
    is_tail
}

/// What a slot seems to be, or nothing, and which field of it is at fault.
fn at_fault(fault: EncodingFault, insn: Insn, is_tail: bool) -> Option<(&'static str, Misfit)> {
    let (name, misfit) = match fault {
        EncodingFault::Opcode => {
            let misfit = Misfit {
                field: "opcode",
                known: FieldValue::Opcode(insn.opc),
                wanted: "one that programs may have",
            };
            (foreign(insn.opc), misfit)
        }
        EncodingFault::Field if is_tail => ("the second slot of a wide load", tail_at_fault(insn)),
        EncodingFault::Field => (name_of(insn), field_at_fault(insn)),
        EncodingFault::Register => (name_of(insn), register_at_fault(insn)),
        EncodingFault::CutWide => {
            let misfit = Misfit {
                field: "second slot",
                known: FieldValue::Nothing,
                wanted: "one behind it",
            };
            (name_of(insn), misfit)
        }
        _ => return None,
    };
    Some((name, misfit))
}

/// Writes which field of a slot is at fault, what it is and what is wanted.
pub(crate) fn write_slot<W: Write>(
    fault: EncodingFault,
    slot: usize,
    bytes: &[u8],
    writer: &mut W,
) -> io::Result<()> {
    let Some(rest) = bytes.get(slot.saturating_mul(8)..) else {
        return Ok(());
    };
    if rest.len() < 8 {
        return Ok(());
    }
    let insn = Insn::from_bytes(rest);
    let Some((name, misfit)) = at_fault(fault, insn, is_tail(bytes, slot)) else {
        return Ok(());
    };
    let Misfit {
        field,
        known,
        wanted,
    } = misfit;
    write!(writer, "    {field} of")?;
    for byte in rest.iter().take(8) {
        let byte = *byte;
        write!(writer, " {byte:02x}")?;
    }
    if !name.is_empty() {
        write!(writer, ", {name}")?;
    }
    writeln!(writer, ": known {known}, wanted {wanted}")
}
