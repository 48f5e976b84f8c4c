//! Which programs may run: those of which no slot has a fault.
#![tactic(auto)]

mod checked;
mod explanation;
mod fault;
mod flow;
mod kind;
pub mod laws;
mod memory;
mod reading;
mod reads;
mod slot;
mod table;
mod verifier;
mod waiting;

pub use checked::Checked;
pub use explanation::{Explanation, explain};
pub use fault::{SlotFault, VerifyError};
pub use kind::OpKind;
pub use reading::{ProgramError, read_program};
pub use verifier::verify;
