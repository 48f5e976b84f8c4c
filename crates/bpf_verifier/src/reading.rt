//! The bytes of a program, and what they mean.
ghost use Rattle.std.specs.Prelude.{◌≡◌, Err, IfSome, IfNone};
ghost use Rattle.bpf_decode.specs.Encoding.{FirstFault};
ghost use Rattle.bpf_decode.specs.Faults.{code_of};
ghost use Rattle.bpf_verifier.specs.Reading.{Reading, HasSlots, IsReading, GivesReading};
ghost use Rattle.bpf_verifier.specs.Reading.{AnswersReading};

use crate::checked::Checked;
use crate::fault::VerifyError;
use crate::verifier::verify;
use bpf_decode::{DecodeError, EncodingFault, MOST_SLOTS, decode};
use bpf_helpers::Sigs;
use bpf_regstate::Length;
use std::alloc::Global;

/// Why bytes give no program that may be loaded.
#[derive(Clone, Copy, Debug, PartialEq, Eq)]
pub enum ProgramError {
    /// There was no memory to read them.
    Memory,
    /// They encode no program (RFC 9669), or one that is not accepted: the number of their first
    /// fault, 301 to 315, and its slot, counted from 0.
    Refused { code: u16, slot: usize },
}

/// The program that the bytes encode, if no slot of it has a fault under these signatures and beside
/// a record of this length, or else the first fault. `Memory` comes only for some slots, and not too
/// many: others are refused before any is asked for.
pub fn read_program(
    alloc: Global,
    bytes: &[u8],
    sigs: &Sigs,
    record_length: Length,
) -> Result<Checked, ProgramError>
    ensures reads { GivesReading sigs.now record_length bytes.now result }

    // There is no other reading.
    ensures only { (reading : Reading) → IsReading sigs.now record_length bytes.now reading
        → AnswersReading reading result }
    ensures memory { result ≡ Err ProgramError.Memory → HasSlots bytes.now }
{
    if let Some(fault) = length_fault(bytes) {
        return Err(ProgramError::Refused {
            code: fault.code(),
            slot: 0,
        });
    }
    program_of(alloc, bytes, sigs, record_length)
}

// What is wrong with the number of the bytes, for which nobody asks for memory.
fn length_fault(bytes: &[u8]) -> Option<EncodingFault>
    ensures some { IfSome result (λ fault. FirstFault bytes.now (code_of fault) 0) }
    ensures none { IfNone result (HasSlots bytes.now) }
{
    if bytes.len() > 8 * MOST_SLOTS {
        return Some(EncodingFault::TooLong);
    }
    if bytes.is_empty() || bytes.len() % 8 != 0 {
        return Some(EncodingFault::Length);
    }
    None
}

fn program_of(
    alloc: Global,
    bytes: &[u8],
    sigs: &Sigs,
    record_length: Length,
) -> Result<Checked, ProgramError>
    ensures { GivesReading sigs.now record_length bytes.now result }
{
    let program = match decode(alloc, bytes) {
        Ok(program) => program,
        Err(DecodeError::Refused { fault, slot }) => {
            return Err(ProgramError::Refused {
                code: fault.code(),
                slot,
            });
        }
        Err(DecodeError::Memory) => return Err(ProgramError::Memory),
    };
    match verify(alloc, program, sigs, record_length) {
        Ok(checked) => Ok(checked),
        Err(VerifyError::Refused { fault, slot }) => Err(ProgramError::Refused {
            code: fault.code(),
            slot,
        }),
        Err(VerifyError::Memory) => Err(ProgramError::Memory),
    }
}
