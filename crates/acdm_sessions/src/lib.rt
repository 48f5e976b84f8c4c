//! Partners' lines in, replies out: the run from a reader to a writer, and sessions on threads.
#![tactic(auto)]

mod announcer;
mod answer;
mod answerer;
mod at_desk;
mod clock;
mod loading;
mod locked;
mod next;
mod order;
mod reply;
mod session;
mod sessions;
mod stream;

pub use acdm_lines::{ReplyWriter, RunError, Sink, Source};
pub use acdm_step::{LoadRequest, StatedCommand};
pub use acdm_wire::{Bad, LineError, ProgramBytes, Request, RequestFault, request_of};
pub use answer::Answer;
pub use clock::{Clock, Gate};
pub use session::{Closed, End, EndedSession, Session};
pub use sessions::run_sessions;
pub use stream::{run, run_announced};
