//! The words of a command line that a file of settings stands for.
#![tactic(auto)]

mod fault;
mod place;
mod reading;

pub use fault::{SettingFault, SettingsError};
pub use place::{ConfigPlace, place_in, with_settings};
pub use reading::{MOST_TEXT, words_in};
