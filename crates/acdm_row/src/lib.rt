//! The journal as a row of cells that are set once, over the real entries.
#![tactic(auto)]

mod front;
mod pass;
mod published;
mod publisher;
mod row;

pub use front::Front;
pub use pass::Pass;
pub use published::{EntryPlace, Past, Published};
pub use publisher::Publisher;
pub use row::Row;
