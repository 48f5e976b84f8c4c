//! A reader and a writer that fail at a place of the caller's choice. They are for tests.
#![tactic(auto)]

mod faulty;
mod narrow;

pub use faulty::Faulty;
pub use narrow::{Fault, Narrow};
