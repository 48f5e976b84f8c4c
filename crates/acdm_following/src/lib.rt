//! A board that follows another one: it judges each line of that board's journal, and enters it into its own.
#![tactic(auto)]

mod connection;
mod course;
mod entering;
mod first_board;
mod following;
mod head;
mod hearing;
mod pending;

pub use course::Course;
pub use first_board::{FirstBoard, Parting};
pub use following::follow;
