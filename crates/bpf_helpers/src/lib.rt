//! Helpers that answer the calls of programs, and what they promise of their answers.
#![tactic(auto)]

mod bank;
mod helper;
mod helpers;
mod live;
mod logged;
mod oracle;
mod range;
mod signature;
mod sigs;

pub use bank::{Bank, BankFault, MAX_HELPERS, NotAdded};
pub use helper::{Helper, HelperCode};
pub use helpers::Helpers;
pub use live::Live;
pub use logged::Logged;
pub use oracle::Oracle;
pub use range::Range;
pub use signature::{MAX_ARGUMENTS, Signature};
pub use sigs::Sigs;

/// There is no memory for what a call would keep.
pub use std::alloc::AllocError as NoMemory;
