//! Why bytes encode no program.

ghost use Rattle.std.specs.Prelude.{◌≡◌};
ghost use Rattle.bpf_decode.specs.Faults.{code_of, error_code, error_slot};

use std::alloc::{AllocError, AllocFailed};
use thiserror::Error;

/// No memory was left.
pub type NoMemory = AllocError;

/// What is wrong with the bytes of a program.
#[derive(Clone, Copy, PartialEq, Eq, Debug, Error)]
pub enum EncodingFault {
    /// Their number is 0 or no multiple of 8.
    #[error("no whole slots of 8 bytes")]
    Length,
    /// They are more than 32,768, which is 4,096 slots.
    #[error("more than 4096 slots")]
    TooLong,
    /// No instruction has the opcode.
    #[error("unknown opcode")]
    Opcode,
    /// A field has a value that the opcode does not allow.
    #[error("field value that the opcode does not allow")]
    Field,
    /// A register is over 10.
    #[error("register over 10")]
    Register,
    /// A wide load has no second slot.
    #[error("wide load without its second slot")]
    CutWide,
}

impl EncodingFault {
    /// The number of the fault: 301 to 305, or 315.
    pub fn code(self) -> u16
        ensures { result ≡ code_of self }
    {
        match self {
            EncodingFault::Length => 301,
            EncodingFault::TooLong => 302,
            EncodingFault::Opcode => 303,
            EncodingFault::Field => 304,
            EncodingFault::Register => 305,
            EncodingFault::CutWide => 315,
        }
    }
}

/// Why there is no program.
#[derive(Clone, Copy, PartialEq, Eq, Debug, Error)]
pub enum DecodeError {
    /// The bytes encode none: their first fault, and its slot.
    #[error("slot {slot}: {fault}")]
    Refused { fault: EncodingFault, slot: usize },
    /// No memory was left.
    #[error("no memory")]
    Memory,
}

impl DecodeError {
    /// The number of the fault, or 501 for want of memory.
    pub fn code(self) -> u16
        ensures { result ≡ error_code self }
    {
        match self {
            DecodeError::Refused { fault, slot: _ } => fault.code(),
            DecodeError::Memory => 501,
        }
    }

    /// The slot of the fault, counted from 0; 0 for want of memory.
    pub fn slot(self) -> usize
        ensures { result ≡ error_slot self }
    {
        match self {
            DecodeError::Refused { fault: _, slot } => slot,
            DecodeError::Memory => 0,
        }
    }
}

impl From<AllocError> for DecodeError {
    ghost use Rattle.bpf_decode.specs.declared.fault.DecodeError.TheVariants.{Memory};

    ghost from_gives = { λ _ e. e ≡ Memory };

    fn from(_e: AllocError) -> DecodeError {
        Self::Memory
    }
}

impl<T: Drop> From<AllocFailed<T>> for DecodeError {
    ghost use Rattle.bpf_decode.specs.declared.fault.DecodeError.TheVariants.{Memory};

    ghost from_gives = { λ _ e. e ≡ Memory };

    fn from(failed: AllocFailed<T>) -> DecodeError {
        DecodeError::from(AllocError::from(failed))
    }
}
