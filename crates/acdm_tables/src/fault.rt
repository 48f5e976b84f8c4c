//! What is wrong with a file of tables.

ghost use Rattle.std.specs.Prelude.{◌≡◌};
ghost use Rattle.acdm_tables.specs.Reading.{why_text};

use std::alloc::AllocError;
use thiserror::Error;

/// Why what stands at a key of a file of tables is refused.
#[derive(Clone, Copy, Debug, PartialEq, Eq, Error)]
pub enum Why {
    /// There is no such key.
    #[error("no such key")]
    Unknown,
    /// It is no table.
    #[error("not a table")]
    NoTable,
    /// It is no list.
    #[error("not a list of tables")]
    NoList,
    /// It is no whole number of minutes from 1 to 1,440.
    #[error("not minutes from 1 to 1440")]
    NoTurnRound,
    /// It is no whole number of minutes from 1 to 60, or there is none.
    #[error("not minutes from 1 to 60")]
    NoTaxi,
    /// It is no stand from 0 to 999, or there is none.
    #[error("not a stand from 0 to 999")]
    NoStand,
    /// It is no aircraft type, which has one to four printable bytes other than the space.
    #[error("not a type of 1 to 4 printable characters")]
    NoType,
    /// There are more than 1,000 before it.
    #[error("more than 1000")]
    Many,
    /// The steps do not begin at stand 0, or do not rise.
    #[error("the steps do not begin at stand 0 or do not rise")]
    NoOrder,
}

impl Why {
    /// What is told of it.
    pub fn text(self) -> &'static str
        ensures { result.now ≡ why_text self }
    {
        match self {
            Why::Unknown => "no such key",
            Why::NoTable => "not a table",
            Why::NoList => "not a list of tables",
            Why::NoTurnRound => "not minutes from 1 to 1440",
            Why::NoTaxi => "not minutes from 1 to 60",
            Why::NoStand => "not a stand from 0 to 999",
            Why::NoType => "not a type of 1 to 4 printable characters",
            Why::Many => "more than 1000",
            Why::NoOrder => "the steps do not begin at stand 0 or do not rise",
        }
    }
}

/// Why a text gives no tables.
#[derive(Debug, Drop, Error)]
pub enum TablesError {
    /// It has more than 1,000,000 bytes.
    #[error("more than 1000000 bytes")]
    TooLong,
    /// It is no TOML, as is found in this line, from 1.
    #[error("line {0}: not TOML")]
    NoToml(usize),
    /// What stands at this key is wrong.
    #[error("{why}")]
    Wrong { key: Vec<u8>, why: Why },
    /// There was no memory.
    #[error("no memory")]
    Memory,
}

impl From<AllocError> for TablesError {
    ghost use Rattle.std.specs.Prelude.{◌≡◌};
    ghost use Rattle.acdm_tables.specs.declared.fault.TablesError.TheVariants.{Memory};

    ghost from_gives = { λ _ error. error ≡ Memory };

    fn from(_error: AllocError) -> TablesError {
        TablesError::Memory
    }
}
