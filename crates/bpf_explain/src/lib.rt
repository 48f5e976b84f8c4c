//! What the verifier knows before each slot of a program, and its first fault, as text.
#![tactic(auto)]

mod access_text;
mod bytes_text;
mod fault_text;
mod range_text;
mod slot_text;
mod state_text;
mod told;
mod ways;

pub use told::{Told, read};
