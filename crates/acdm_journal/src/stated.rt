//! What a line of a journal states.
use acdm_milestones::Role;
use acdm_step::{Answers, StatedCommand};
use thiserror::Error;

/// What a line states of an entry, before it is judged.
#[derive(Drop)]
pub struct Stated {
    /// Its number.
    pub number: u64,
    /// The session, from 1 to 64.
    pub session: u8,
    /// The minute since 1970-01-01T00:00Z, from 1.
    pub moment: u32,
    /// The role that asked.
    pub role: Role,
    /// 0 where it was accepted, else the number of the refusal.
    pub outcome: u64,
    /// The answers of helpers that its programs used.
    pub answers: Answers,
    /// What was asked for.
    pub asked: StatedCommand,
}

/// Why a line states nothing.
#[derive(Clone, Copy, Debug, PartialEq, Eq, Error)]
pub enum ReadError {
    /// There was no memory to read it.
    #[error("no memory")]
    Memory,
    /// It is the line of no entry.
    #[error("the line of no entry")]
    Unreadable,
}
