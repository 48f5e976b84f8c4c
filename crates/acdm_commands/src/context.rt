//! What each step of a command works with.

use crate::cause::Cause;
use std::alloc::Global;

/// The system, the memory, and where it is noted why a file or an address could not be used.
#[derive(Drop)]
pub struct Context<'a, Rt> {
    pub rt: &'a Rt,
    pub alloc: Global,
    pub why: Cause,
}
