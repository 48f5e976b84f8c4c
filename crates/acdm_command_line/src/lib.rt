//! The command line of `acdm`. It is a crate of its own since what `clap` makes of words is dear to
//! prove, and stands on nothing else of this repository.
#![tactic(auto)]

mod command_line;
mod options;
mod subcommands;

pub use command_line::{Line, Subcommand, asked, parse};
