//! Why an embeddable machine refuses a call.

ghost use Rattle.std.specs.Prelude.{◌≡◌};
ghost use Rattle.bpf_machine.specs.Refusals.{execute_code, register_code, set_code, set_slot};

use bpf_decode::DecodeError;
use bpf_verifier::VerifyError;
use thiserror::Error;

/// Why a helper is not registered (this project's profile).
#[derive(Clone, Copy, PartialEq, Eq, Debug)]
pub enum RegisterFault {
    /// A helper of that number is registered.
    NumberTaken,
    /// 32 helpers are registered.
    Full,
    /// A program is set, and was accepted with the helpers as they are.
    ProgramIsSet,
}

impl RegisterFault {
    /// The number of this refusal: 331 to 333.
    pub fn code(self) -> u16
        ensures { result ≡ register_code self }
    {
        match self {
            RegisterFault::NumberTaken => 331,
            RegisterFault::Full => 332,
            RegisterFault::ProgramIsSet => 333,
        }
    }
}

/// Why a program is not set.
#[derive(Clone, Copy, PartialEq, Eq, Debug, Error)]
pub enum SetError {
    /// The bytes encode no program.
    #[error("{0}")]
    Decode(DecodeError),
    /// The program may not run with the helpers that are registered.
    #[error("{0}")]
    Verify(VerifyError),
    /// No memory was left.
    #[error("no memory")]
    Memory,
}

impl SetError {
    /// The number of the fault, 301 to 315, or 501 for want of memory.
    pub fn code(self) -> u16
        ensures { result ≡ set_code self }
    {
        match self {
            SetError::Decode(e) => e.code(),
            SetError::Verify(e) => e.code(),
            SetError::Memory => 501,
        }
    }

    /// The slot of the fault, counted from 0; 0 for want of memory.
    pub fn slot(self) -> usize
        ensures { result ≡ set_slot self }
    {
        match self {
            SetError::Decode(e) => e.slot(),
            SetError::Verify(e) => e.slot(),
            SetError::Memory => 0,
        }
    }
}

/// Why no program ran.
#[derive(Clone, Copy, PartialEq, Eq, Debug, Error)]
pub enum ExecuteError {
    /// None is set.
    #[error("no program is set")]
    NoProgram,
    /// The record is longer or shorter than that beside which the program was accepted.
    #[error("the record has another length")]
    OtherLength,
    /// No memory was left.
    #[error("no memory")]
    Memory,
}

impl ExecuteError {
    /// The number of this refusal: 334, 335, or 501 for want of memory.
    pub fn code(self) -> u16
        ensures { result ≡ execute_code self }
    {
        match self {
            ExecuteError::NoProgram => 334,
            ExecuteError::OtherLength => 335,
            ExecuteError::Memory => 501,
        }
    }
}
