//! Why programs stay as they are.

ghost use Rattle.std.specs.Prelude.{◌≡◌};
ghost use Rattle.acdm_slots.specs.Codes.{error_code};

use thiserror::Error;

/// Why a program is not loaded or unloaded (this project's profile).
#[derive(Clone, Copy, Debug, PartialEq, Eq, Error)]
pub enum SlotError {
    /// 321: no program is loaded there.
    #[error("no program is loaded there")]
    EmptySlot,
    /// 322: the program was checked under signatures that are not the board's.
    #[error("checked under other signatures")]
    OtherSignatures,
    /// 323: the program was checked beside records of another length than the board's.
    #[error("checked for another length")]
    OtherLength,
}

impl SlotError {
    /// The number of the error in a reply: 321 to 323.
    pub fn code(self) -> u16
        ensures { result ≡ error_code self }
    {
        match self {
            SlotError::EmptySlot => 321,
            SlotError::OtherSignatures => 322,
            SlotError::OtherLength => 323,
        }
    }
}
