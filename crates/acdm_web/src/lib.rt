//! What a browser asks for by a request of HTTP/1.1, and what it is answered.
#![tactic(auto)]

mod answer;
mod event;
mod hearing;
mod page;
mod request;

pub use answer::push_answer;
pub use event::push_event;
pub use hearing::{TimeLimit, first_wanted};
pub use page::PAGE;
pub use request::{BrowserRequest, Wanted, wanted_in};
