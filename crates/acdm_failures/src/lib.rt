//! What keeps a command of the program `acdm` from its work, as a line on the errors' writer and a status.
#![tactic(auto)]

mod failure;

pub use failure::{Failure, ServeError, ended};
