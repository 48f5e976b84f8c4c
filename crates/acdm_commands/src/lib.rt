//! The commands of the program `acdm`, over the words, files, readers and writers that they are
//! handed.
#![tactic(auto)]

mod addresses;
mod beside;
mod cause;
mod clock_reading;
mod commands;
mod context;
mod law;
mod outlets;
mod request;
mod resuming;
mod run_command;
mod saving;
mod serve_command;
mod serve_options;
mod settings;
mod standard_streams;
mod system_clock;
mod tables;
mod term;

pub use acdm_failures::{Failure, ServeError};
pub use acdm_judging::{ProgramFile, audit_on, explain_on, verify_on};
pub use acdm_keeping::Paths;
pub use acdm_partners::Appends;
pub use acdm_serving::{serve_on, serve_partners};
pub use cause::{Cause, Noting};
pub use commands::complete;
pub use context::Context;
pub use law::what_was_kept_is_resumed;
pub use request::Setup;
pub use run_command::run_on;
pub use settings::{WordsGiven, words_given};
pub use standard_streams::is_error_file;
