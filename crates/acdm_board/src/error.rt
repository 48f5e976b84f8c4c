//! Why a desk takes no command.
ghost use Rattle.std.specs.Prelude.{◌≡◌};
ghost use Rattle.acdm_board.specs.Codes.{error_code};

use std::alloc::AllocError;
use thiserror::Error;

/// Why a desk took no command. Nothing has changed then.
#[derive(Clone, Copy, Debug, PartialEq, Eq, Error)]
pub enum DeskError {
    /// 502: the journal has as many entries as it takes.
    #[error("the journal is full")]
    Full,
    /// 322: the program of a load was checked against other signatures than those of the desk's
    /// helpers.
    #[error("checked under other signatures")]
    OtherSignatures,
    /// 501: memory was refused.
    #[error("no memory")]
    Memory,
}

impl DeskError {
    /// The number of this error in replies.
    pub fn code(self) -> u16
        ensures { result ≡ error_code self }
    {
        match self {
            DeskError::Full => 502,
            DeskError::OtherSignatures => 322,
            DeskError::Memory => 501,
        }
    }
}

impl From<AllocError> for DeskError {
    ghost use Rattle.acdm_board.specs.declared.error.DeskError.TheVariants.{Memory};

    ghost from_gives = { λ _ e. e ≡ Memory };

    fn from(_error: AllocError) -> DeskError {
        DeskError::Memory
    }
}
