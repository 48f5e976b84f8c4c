//! What is wrong with a file of settings.

ghost use Rattle.std.specs.Prelude.{◌≡◌};
ghost use Rattle.acdm_settings.specs.Settings.{why_text};

use std::alloc::AllocError;
use thiserror::Error;

/// Why what stands at a key of a file of settings is refused.
#[derive(Clone, Copy, Debug, PartialEq, Eq, Error)]
pub enum SettingFault {
    /// There is no such key.
    #[error("no such key")]
    Unknown,
    /// It is neither true nor false.
    #[error("not true or false")]
    NoFlag,
    /// It is no whole number from 0.
    #[error("not a whole number")]
    NoNumber,
    /// It is no text.
    #[error("not a text")]
    NoText,
    /// It is no list of texts, or one of them is empty or begins with a hyphen.
    #[error("not a list of texts as APT=127.0.0.1:4001")]
    NoPartners,
}

impl SettingFault {
    /// What is told of it.
    pub fn text(self) -> &'static str
        ensures { result.now ≡ why_text self }
    {
        match self {
            SettingFault::Unknown => "no such key",
            SettingFault::NoFlag => "not true or false",
            SettingFault::NoNumber => "not a whole number",
            SettingFault::NoText => "not a text",
            SettingFault::NoPartners => "not a list of texts as APT=127.0.0.1:4001",
        }
    }
}

/// Why a text gives no words.
#[derive(Debug, Drop, Error)]
pub enum SettingsError {
    /// It has more than 65,536 bytes.
    #[error("more than 65536 bytes")]
    TooLong,
    /// It is no TOML, as is found in this line, from 1.
    #[error("line {0}: not TOML")]
    NoToml(usize),
    /// What stands at this key is wrong.
    #[error("{why}")]
    Wrong { key: Vec<u8>, why: SettingFault },
    /// There was no memory.
    #[error("no memory")]
    Memory,
}

impl From<AllocError> for SettingsError {
    ghost use Rattle.std.specs.Prelude.{◌≡◌};
    ghost use Rattle.acdm_settings.specs.declared.fault.SettingsError.TheVariants.{Memory};

    ghost from_gives = { λ _ error. error ≡ Memory };

    fn from(_error: AllocError) -> SettingsError {
        SettingsError::Memory
    }
}
