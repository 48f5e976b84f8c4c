//! Readers and writers that count their faults and keep a log for proofs, and the lines of a reader.
#![tactic(auto)]

mod announced;
mod faults;
mod kept_line;
mod lines;
mod log;
mod number;
mod passing;
mod reply_writer;
mod run_error;
mod sink;
mod source;
mod window;
mod write_error;
mod writing;

pub use kept_line::KeptLine;
pub use lines::{Ending, Lines};
pub use number::number_in;
pub use passing::is_passing;
pub use reply_writer::ReplyWriter;
pub use run_error::RunError;
pub use sink::Sink;
pub use source::Source;
pub use window::Window;
pub use write_error::WriteError;
pub use writing::write_whole;
