//! A journal that is kept in a file as it grows.
#![tactic(auto)]

mod backed;
mod copying;
mod disk;
mod file;
mod held;
mod keeper;
mod knowledge;
mod lasting;
mod named;
mod progress;
mod reach;
mod replacement;
mod replies;
mod settling;
mod shared;
mod synced;
mod term;
mod writing;

pub use copying::copy_bytes;
pub use disk::Disk;
pub use file::{open, renew};
pub use keeper::{Keeper, Receipt};
pub use lasting::{KeptCount, LastingReceipt, later};
pub use named::{Found, Named, Paths};
pub use reach::{Extent, Reach};
pub use replacement::{Replacement, is_same, is_special, leads_to, put_text, sync_folder};
pub use replies::{EntryKeeper, Replies};
pub use shared::{SharedKeeper, Waiter};
pub use synced::Synced;
pub use term::{BoardTerm, FIRST_TERM, is_replaced, term_after, term_named, term_path, term_text};
pub use writing::Opening;
