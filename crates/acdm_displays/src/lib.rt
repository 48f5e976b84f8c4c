//! Displays, which are sent the entries of a row as text while it grows, and browsers.
#![tactic(auto)]

mod asked;
mod beginning;
mod browsing;
mod confirming;
mod displays;
mod entries;
mod following;
mod leaving;
mod places;
mod resuming;
mod sharing;
mod telling;
mod viewers;

pub use asked::{FollowerStart, Start, follower_named, start_named};
pub use browsing::{answer, follow_events};
pub use confirming::kept_named;
pub use displays::{DisplayKind, DisplayListener, Displays};
pub use entries::Entries;
pub use following::{Shown, follow, follow_changes};
pub use resuming::follow_from;
