//! What a line asks for, before the bytes of its program are read.
use crate::command::Command;
use acdm_milestones::Milestone;
use acdm_slots::{Kind, ProgramBytes};
use bpf_regstate::Length;

/// To load the program of these bytes into a slot, in place of what stands there.
#[derive(Drop)]
pub struct LoadRequest {
    pub milestone: Milestone,
    pub kind: Kind,
    pub program: ProgramBytes,
    /// How long the records are beside which it is checked.
    pub record_length: Length,
}

/// What a line asks for: one of a partner, or of a journal.
#[derive(Drop)]
pub enum StatedCommand {
    /// This command, which is no load.
    Plain(Command),
    /// To load a program.
    Load(LoadRequest),
}
