//! What is told of the bytes of a program.

ghost use Rattle.std.specs.Prelude.{◌≡◌, IfOk};
ghost use Rattle.bpf_explain.specs.Told.{Tells, is_accepted};

use crate::bytes_text::write_unreadable;
use crate::fault_text::write_fault;
use crate::state_text::write_known;
use crate::ways::Ways;
use bpf_decode::{DecodeError, EncodingFault, Program, decode, line};
use bpf_helpers::Sigs;
use bpf_regstate::Length;
use bpf_verifier::{Explanation, explain};
use std::alloc::{AllocError, Global};
use std::io::{self, Write};

/// What is told of the bytes of a program.
#[derive(Drop)]
pub enum Told {
    /// They encode this program; what is known before its slots beside a record of this length, up
    /// to its first fault.
    Encoded {
        program: Program,
        length: Length,
        explanation: Explanation,
    },
    /// They encode none: their first fault and its slot, counted from 0.
    Unreadable {
        fault: EncodingFault,
        slot: usize,
    },
}

/// What there is to tell of these bytes under these signatures, beside a record of this length: the
/// program that they encode with what `verify` knows before its slots and its verdict, or their
/// first fault. `Err` only where there is no memory.
pub fn read(alloc: Global, bytes: &[u8], sigs: &Sigs, length: Length) -> Result<Told, AllocError>
    ensures { IfOk result (Tells sigs.now length bytes.now) }
{
    let program = match decode(alloc, bytes) {
        Ok(program) => program,
        Err(DecodeError::Refused { fault, slot }) => return Ok(Told::Unreadable { fault, slot }),
        Err(DecodeError::Memory) => return Err(AllocError),
    };
    let explanation = explain(alloc, &program, sigs, length)?;
    Ok(Told::Encoded {
        program,
        length,
        explanation,
    })
}

impl Told {
    /// Whether it is a program that is accepted.
    pub fn is_accepted(&self) -> bool
        ensures { result ≡ is_accepted self.now }
    {
        match self {
            Told::Encoded { explanation, .. } => explanation.fault.is_none(),
            Told::Unreadable { .. } => false,
        }
    }

    /// Writes the listing of the program with what is known before each slot, up to its first fault
    /// and why it is one, or what is wrong with the bytes. The last line is that of the verdict:
    /// `accepted SLOTS`, or `refused CODE SLOT`.
    pub fn write<W: Write>(&self, bytes: &[u8], sigs: &Sigs, writer: &mut W) -> io::Result<()> {
        match self {
            Told::Encoded {
                program,
                length,
                explanation,
            } => write_program(program, *length, explanation, sigs, writer),
            Told::Unreadable { fault, slot } => write_unreadable(*fault, *slot, bytes, writer),
        }
    }
}

fn write_program<W: Write>(
    program: &Program,
    length: Length,
    explanation: &Explanation,
    sigs: &Sigs,
    writer: &mut W,
) -> io::Result<()> {
    let slots = program.slot_count();
    for slot in 0..slots {
        let Some(state) = explanation.states.get(slot) else {
            break;
        };
        line(program, slot, writer)?;
        writeln!(writer)?;
        write_known(program.op(slot), state, writer)?;
    }
    match &explanation.fault {
        Some((fault, slot)) => {
            let ways = Ways {
                program,
                length,
                states: explanation.states.as_slice(),
                sigs,
            };
            write_fault(ways, *fault, *slot, writer)
        },
        None => writeln!(writer, "accepted {slots}"),
    }
}
