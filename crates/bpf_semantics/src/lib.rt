//! What programs do: states of the machine, its steps, and whole runs, as definitions in `specs/` and
//! laws of them; word arithmetic (RFC 9669, sections 4.1 to 4.3) with Rust's operations; and the two
//! regions of memory, the record and the stack, with the places of loads and stores in them.
#![tactic(auto)]

pub mod law;
mod place;
mod size;
mod words;

pub use place::{MemoryPlace, RECORD_BASE, STACK_BASE, STACK_LENGTH, place_at};
pub use size::{byte_count, part_byte_count};
pub use words::{compare, extend, negate, operate, order_bytes};
