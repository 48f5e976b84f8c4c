//! The milestones of a turn-round: who reports each, what it sets, and what it needs.
#![tactic(auto)]

mod admission;
mod deicing;
mod milestone;
mod reached;
mod refusal;
mod role;

pub use admission::{admit, set_time};
pub use deicing::{DeicingTime, admit_deicing, set_deicing_time};
pub use milestone::Milestone;
pub use reached::{has_reached, mark_reached};
pub use refusal::Refusal;
pub use role::{Action, Role, owns};
