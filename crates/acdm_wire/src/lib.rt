//! The wire of partners: what a line asks for, and the text of a reply.
#![tactic(auto)]

mod asked;
mod fault;
mod field;
mod head;
mod line_json;
mod list_item;
mod plain;
mod reply;
mod reply_text;
mod request;
mod text;

pub use acdm_slots::ProgramBytes;
pub use asked::asked_of;
pub use fault::{Bad, RequestFault};
pub use head::request_of;
pub use reply::{write_entered, write_out, write_rejected, write_whole};
pub use request::{LONGEST_REQUEST, LineError, Request};
pub use text::TextBuffer;
