//! A desk that goes on from a saved journal.
#![tactic(auto)]

mod restoring;

pub use restoring::{RestoreError, restore, restore_behind};
