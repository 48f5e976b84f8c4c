//! What a line gives.
use crate::fault::RequestFault;
use acdm_milestones::Role;
use acdm_step::StatedCommand;
use thiserror::Error;

/// How many bytes a line has at most (this project's profile).
pub const LONGEST_REQUEST: usize = 70_000;

/// Why a line gave no request.
#[derive(Clone, Copy, Debug, PartialEq, Eq, Error)]
pub enum LineError {
    /// There was no memory to read it.
    #[error("no memory")]
    Memory,
    /// It asks for nothing.
    #[error("{0}")]
    Fault(RequestFault),
}

/// What a line asks for, and who asks.
#[derive(Drop)]
pub struct Request {
    /// The session, from 1 to 64.
    pub session: u8,
    /// The minute since 1970-01-01T00:00Z, from 1.
    pub moment: u32,
    /// The role that asks.
    pub role: Role,
    /// What it asks for.
    pub asked: StatedCommand,
}
