//! The programs of a board: for each milestone one of each kind, checked under the board's
//! signatures.
#![tactic(auto)]

mod error;
mod kind;
pub mod law;
mod migration;
mod program_bytes;
mod slots;

pub use error::SlotError;
pub use kind::Kind;
pub use migration::{Migrated, Unloaded};
pub use program_bytes::ProgramBytes;
pub use slots::Slots;
