//! The alerts that the board computes of a flight's record.
#![tactic(auto)]

mod alert_set;
mod conditions;
mod names;

pub use alert_set::AlertSet;
pub use conditions::builtin;
pub use names::{name_of, names_of, push_names, write_names};
