//! What is known of registers and of the stack before each instruction of a program: the abstract
//! states by which programs are accepted.
#![tactic(auto)]

mod arith;
pub mod laws;
mod length;
mod marks;
mod narrowing;
mod places;
mod reg;
mod single;
mod state;
mod words;

pub use bpf_helpers::Range;
pub use length::Length;
pub use places::{RECORD_LENGTH, place_of_access};
pub use reg::Reg;
pub use state::State;
