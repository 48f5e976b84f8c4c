//! The helpers that programs may call, and the tables of an airport that they answer by.
#![tactic(auto)]

mod fault;
mod helpers;
mod reading;
mod tables;

pub use fault::{TablesError, Why};
pub use helpers::{KnownHelpers, known_sigs};
pub use reading::{MOST_TEXT, line_at, read_tables};
pub use tables::Tables;
