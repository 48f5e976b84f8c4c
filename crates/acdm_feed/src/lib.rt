//! The feed: what each entry of a journal says and changes, as a line of JSON.
#![tactic(auto)]

mod command;
mod day;
mod known;
mod line;
mod minute;
mod name;
mod record;
mod room;
mod standing;
mod telling;
mod tokens;
mod told;

pub use known::Known;
pub use name::{journal_name, name_of_line};
pub use standing::{push_board, push_journal, push_journal_named};
pub use telling::{pass_next, tell_next};
pub use told::push_line;
