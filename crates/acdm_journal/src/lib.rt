//! The journal as text: the line of an entry, the reading of lines, the judging of one after those
//! before it, and the audit of all of them.
#![tactic(auto)]

mod appended;
mod auditing;
mod entry_text;
mod journal_reader;
mod journal_use;
mod judge;
pub mod law;
mod reading;
mod stated;
mod words;

pub use acdm_slots::ProgramBytes;
pub use acdm_step::{LoadRequest, StatedCommand};
pub use auditing::{Fault, audit};
pub use entry_text::{push_entry, write_entry, write_entry_by};
pub use journal_reader::{JournalEnd, MOST_KEPT, read_behind, read_journal};
pub use journal_use::JournalUse;
pub use judge::{AuditError, Clause, PlannedEntry, judge_line, plan_line};
pub use reading::read_line;
pub use stated::{ReadError, Stated};
