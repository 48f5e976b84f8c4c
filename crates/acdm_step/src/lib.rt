//! The step of the platform: commands, entries, and the core that an entry changes.
#![tactic(auto)]

mod by_flight;
mod change;
mod command;
mod entry;
pub mod law;
mod marks;
mod outcome;
mod planning;
mod prepare;
mod programs;
mod state;
mod stated;
mod verdicts;

pub use command::{
    Command, Deice, Durations, FlightNumber, FlightPlan, Load, MINUTES_OF_DAY, Report, Schedule,
    Unload,
};
pub use entry::{Answers, Entry, Verdict};
pub use outcome::{AlertList, Alerted, Outcome, UnloadedList};
pub use planning::plan_with;
pub use prepare::{Change, Plan};
pub use state::Core;
pub use stated::{LoadRequest, StatedCommand};
