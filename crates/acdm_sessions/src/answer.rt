//! The answer to one line.
ghost use Rattle.acdm_sessions.specs.Output.{Answers};

use crate::answerer::Answerer;
use crate::loading::command_for;
use acdm_board::{Desk, DeskError, Reply};
use acdm_wire::{Bad, LineError, request_of};
use bpf_helpers::Helpers;
use std::alloc::Global;

/// What is answered to a line.
#[derive(Drop)]
pub enum Answer {
    /// The line made an entry.
    Entered(Reply),
    /// It made none.
    Rejected(Bad),
}

/// Takes one line: the answer to it, and the desk after it.
fn answer_line<H: Helpers + Drop>(alloc: Global, line: &[u8], desk: &mut Desk<H>) -> Answer
    ensures { Answers desk.old desk.new line.now result }
{
    let request = match request_of(alloc, line) {
        Ok(request) => request,
        Err(LineError::Memory) => return Answer::Rejected(Bad::NoMemory),
        Err(LineError::Fault(fault)) => return Answer::Rejected(Bad::Faulty(fault)),
    };
    let command = match command_for(alloc, request.asked, desk.sigs()) {
        Ok(command) => command,
        Err(error) => return Answer::Rejected(Bad::from(error)),
    };
    match desk.call_for(request.session, request.role, request.moment, command) {
        Ok(reply) => Answer::Entered(reply),
        Err(DeskError::Memory) => Answer::Rejected(Bad::NoMemory),
        Err(DeskError::Full) => Answer::Rejected(Bad::FullJournal),
        Err(DeskError::OtherSignatures) => unreachable!(),
    }
}

impl<H: Helpers + Drop> Answerer for Desk<H> {
    ghost use Rattle.std.specs.Prelude.{length};
    ghost use Rattle.acdm_sessions.specs.Announced.{numbers_to};
    ghost use Rattle.acdm_sessions.specs.Output.{Answers};

    ghost may = { λ before after line answer. Answers before after line answer };

    ghost made = { λ desk. numbers_to (length desk.history) };

    fn answer(&mut self, alloc: Global, line: &[u8]) -> Answer {
        answer_line(alloc, line, self)
    }

    fn replied(&self) {}
}
