//! Which entries other boards have said that they keep, and whether a reply may go out: as a value that changes by
//! events, and behind a lock at which replies wait.
#![tactic(auto)]

mod confirmations;
mod confirmed;

pub use confirmations::{
    Confirmation, ConfirmationTerms, Confirmations, ConfirmedState, MOST_FOLLOWERS,
};
pub use confirmed::Confirmed;
