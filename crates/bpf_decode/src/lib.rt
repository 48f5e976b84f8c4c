//! BPF instructions (RFC 9669): their encoding as bytes, and their listing.
#![tactic(auto)]

mod decoder;
mod encoder;
pub mod fault;
mod form;
pub mod insn;
pub mod law;
mod listing;
pub mod op;
pub mod program;
mod row;

pub use decoder::decode;
pub use encoder::{encode, encode_op};
pub use fault::{DecodeError, EncodingFault, NoMemory};
pub use insn::Insn;
pub use listing::line;
pub use op::{ByteOrder, Bytes, Code, Condition, Op, Operand, Part, Register, Size, Width};
pub use program::{MOST_SLOTS, Program};
