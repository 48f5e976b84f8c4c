//! Why a program may not run.

ghost use Rattle.std.specs.Prelude.{◌≡◌};
ghost use Rattle.bpf_verifier.specs.Verdict.{code_of, error_code, error_slot};

use std::alloc::{AllocError, AllocFailed};
use thiserror::Error;

/// What is wrong at a slot (this project's profile).
#[derive(Clone, Copy, PartialEq, Eq, Debug, Error)]
pub enum SlotFault {
    /// A jump whose target is not later, outside the program, or the second slot of a wide load.
    #[error("jump backward, outside or into a wide load")]
    Jump,
    /// The next instruction may be reached, and there is none.
    #[error("end of the program without an exit")]
    FallsOff,
    /// A register is read that may be uninitialised.
    #[error("uninitialised register")]
    Uninitialised,
    /// A load or a store may go outside the record and the stack, or its addresses do not all lie
    /// in one of them.
    #[error("address outside the record and the stack")]
    Address,
    /// A byte of the stack is loaded that may be uninitialised.
    #[error("uninitialised byte of the stack")]
    StackByte,
    /// A store goes to the record.
    #[error("store to the record")]
    WritesRecord,
    /// No helper has the number that is called.
    #[error("unknown helper")]
    Helper,
    /// An argument of a call may lie outside the range of the helper's signature.
    #[error("argument outside the helper's range")]
    Argument,
    /// The end of the stack, r10, is written.
    #[error("write to r10")]
    WritesEnd,
}

impl SlotFault {
    /// The number of the fault, 306 to 314. Of several faults of a slot the least number is told.
    pub fn code(self) -> u16
        ensures { result ≡ code_of self }
    {
        match self {
            SlotFault::Jump => 306,
            SlotFault::FallsOff => 307,
            SlotFault::Uninitialised => 308,
            SlotFault::Address => 309,
            SlotFault::StackByte => 310,
            SlotFault::WritesRecord => 311,
            SlotFault::Helper => 312,
            SlotFault::Argument => 313,
            SlotFault::WritesEnd => 314,
        }
    }
}

/// Why a program is not accepted.
#[derive(Clone, Copy, PartialEq, Eq, Debug, Error)]
pub enum VerifyError {
    /// A slot has a fault: the least such slot, and its fault of the least number.
    #[error("slot {slot}: {fault}")]
    Refused { fault: SlotFault, slot: usize },
    /// No memory was left.
    #[error("no memory")]
    Memory,
}

impl VerifyError {
    /// The number of the fault, or 501 for want of memory.
    pub fn code(self) -> u16
        ensures { result ≡ error_code self }
    {
        match self {
            VerifyError::Refused { fault, slot: _ } => fault.code(),
            VerifyError::Memory => 501,
        }
    }

    /// The slot of the fault, counted from 0; 0 for want of memory.
    pub fn slot(self) -> usize
        ensures { result ≡ error_slot self }
    {
        match self {
            VerifyError::Refused { fault: _, slot } => slot,
            VerifyError::Memory => 0,
        }
    }
}

impl From<AllocError> for VerifyError {
    ghost use Rattle.bpf_verifier.specs.declared.fault.VerifyError.TheVariants.{Memory};

    ghost from_gives = { λ _ e. e ≡ Memory };

    fn from(_e: AllocError) -> VerifyError {
        Self::Memory
    }
}

impl<T: Drop> From<AllocFailed<T>> for VerifyError {
    ghost use Rattle.bpf_verifier.specs.declared.fault.VerifyError.TheVariants.{Memory};

    ghost from_gives = { λ _ e. e ≡ Memory };

    fn from(failed: AllocFailed<T>) -> VerifyError {
        VerifyError::from(AllocError::from(failed))
    }
}
