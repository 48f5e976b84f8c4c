//! The commands that judge what is in a file, a program or a journal. It is a crate of its own so that it is proved
//! while the sessions are, which `acdm_commands` waits for.
#![tactic(auto)]

mod auditing;
mod bytes;
mod explaining;
mod verifying;

pub use auditing::{Finding, audit_on};
pub use bytes::{BytesError, bytes_of};
pub use explaining::{ProgramFile, explain_on, unread};
pub use verifying::{ProgramVerdict, verify_on};
