//! The headline of this project, as the contract of one function. It is a crate of its own so that a
//! reader checks one file.
#![tactic(auto)]

mod headline;

pub use headline::{serve_sessions, the_written_step_is_kept};
