//! What can be wrong with a line.
ghost use Rattle.std.specs.Prelude.{◌≡◌};
ghost use Rattle.acdm_wire.specs.Codes.{fault_code, bad_code};

use bpf_verifier::ProgramError;
use thiserror::Error;

/// Why a line asks for nothing: the first reason that applies, in the order of their tests, which
/// is too long, prefix, JSON, command, and then the fields (this project's profile).
#[derive(Clone, Copy, Debug, PartialEq, Eq, Error)]
pub enum RequestFault {
    /// 100: the line does not begin with a session, a minute and a role, each before one space.
    #[error("no session, minute and role")]
    Prefix,
    /// 101: what follows is no JSON.
    #[error("no JSON")]
    NoJson,
    /// 102: it is no object with a known `cmd`.
    #[error("no known command")]
    UnknownCommand,
    /// 103: a field is missing or not of its kind.
    #[error("a field is missing or of another kind")]
    Kind,
    /// 104: a field is out of range.
    #[error("a field is out of range")]
    Range,
    /// 105: the line has more than 70,000 bytes.
    #[error("more than 70000 bytes")]
    TooLong,
}

impl RequestFault {
    /// The number of the fault in a reply.
    pub fn code(self) -> u16
        ensures { result ≡ fault_code self }
    {
        match self {
            RequestFault::Prefix => 100,
            RequestFault::NoJson => 101,
            RequestFault::UnknownCommand => 102,
            RequestFault::Kind => 103,
            RequestFault::Range => 104,
            RequestFault::TooLong => 105,
        }
    }
}

/// Why a line makes no entry.
#[derive(Clone, Copy, Debug, PartialEq, Eq, Error)]
pub enum Bad {
    /// The line asks for nothing.
    #[error("{0}")]
    Faulty(RequestFault),
    /// It asks to load a program, and its bytes encode none (RFC 9669) or one that is not accepted:
    /// the number of their first fault, 301 to 315, and its slot, counted from 0.
    #[error("fault {code} at slot {slot}")]
    Program { code: u16, slot: usize },
    /// 106: the clock gave no minute.
    #[error("the clock gave no minute")]
    NoMinute,
    /// 501: there was no memory for the line that was read, or for its entry.
    #[error("no memory")]
    NoMemory,
    /// 502: the journal is full.
    #[error("the journal is full")]
    FullJournal,
}

impl Bad {
    /// The number after `bad` in a reply.
    pub fn code(self) -> u16
        ensures { result ≡ bad_code self }
    {
        match self {
            Bad::Faulty(fault) => fault.code(),
            Bad::Program { code, slot: _ } => code,
            Bad::NoMinute => 106,
            Bad::NoMemory => 501,
            Bad::FullJournal => 502,
        }
    }
}

impl From<ProgramError> for Bad {
    ghost use Rattle.acdm_wire.specs.Codes.{bad_of};

    ghost from_gives = { λ error bad. bad ≡ bad_of error };

    fn from(error: ProgramError) -> Bad {
        match error {
            ProgramError::Memory => Bad::NoMemory,
            ProgramError::Refused { code, slot } => Bad::Program { code, slot },
        }
    }
}
