//! Machines for programs: one that tests each step, and one for other programs.
#![tactic(auto)]

mod execution;
mod memory;
mod outcome;
mod refusal;
mod registry;
mod state;
mod tested;
mod vm;

pub use bpf_run::{BadAnswer, Ended, run};
pub use outcome::Trap;
pub use refusal::{ExecuteError, RegisterFault, SetError};
pub use tested::run_tested;
pub use vm::{EbpfVmRaw, NotRegistered};
