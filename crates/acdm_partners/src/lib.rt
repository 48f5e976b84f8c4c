//! Partners that come and go: one reader and one writer over all connections at an address.
#![tactic(auto)]

mod acceptor;
mod arrivals;
mod arriving;
mod connection;
mod control;
mod counts;
mod doors;
mod first_line;
mod hearing;
mod held_lines;
mod held_place;
mod line_queue;
mod log_file;
mod newcomers;
mod outlet;
mod patient;
mod places;
mod reader;
mod replies;
mod reporter;
mod request;
mod stamp;
mod stopwatch;
mod times;

pub use acceptor::{Acceptor, Reception};
pub use arrivals::Arrivals;
pub use arriving::Arriving;
pub use connection::Connection;
pub use control::{Control, FollowedBoard, Followers, Standing};
pub use counts::LineOutcome;
pub use doors::Door;
pub use first_line::{FirstLine, judge_first};
pub use line_queue::LineQueue;
pub use log_file::Appends;
pub use patient::Patient;
pub use places::{PartnerPlace, Terms};
pub use reader::WholeLines;
pub use replies::PartnerReplies;
pub use reporter::Reporter;
pub use request::{ControlRequest, control_request};
pub use times::PATIENCE;
