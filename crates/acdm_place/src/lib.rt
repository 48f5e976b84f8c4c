//! Who is served at an address, how many lines are taken in a minute, and when it is told how full a room is. These
//! are values that change by events, with no thread, no lock and no clock. A lock holds such a value; each thread
//! takes the lock, has one event happen, and does what it is told.
#![tactic(auto)]

mod events;
mod fullness;
mod kept;
mod law;
mod pacing;
mod places;

pub use events::{Actions, Event};
pub use fullness::Level;
pub use kept::KeptPlace;
pub use law::{
    a_level_is_told_once, a_newcomer_is_judged_by_its_first_line, a_pace_is_kept,
    a_reply_goes_to_who_asked, a_session_ends_for_good, closing_answers_the_line_in_hand,
    connections_are_heard_one_after_the_other, lines_of_who_is_heard_are_admitted,
    one_is_served_at_most, who_is_gone_is_cut_off, who_is_replaced_is_cut_off_once,
    who_is_served_is_told,
};
pub use pacing::Pace;
pub use places::Place;
