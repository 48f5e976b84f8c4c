//! One session, from its first line to its last reply.
ghost use Rattle.std.specs.Prelude.{◌≡◌, ◌-◌, ◌≤◌, ◌<◌, ◌^◌, false, Err, IfOk};
ghost use Rattle.acdm_board.specs.Desk.{is_foreign};
ghost use Rattle.acdm_sessions.specs.Announced.{TellsMade};
ghost use Rattle.acdm_sessions.specs.Orders.{Orders};
ghost use Rattle.acdm_sessions.specs.Sessions.{CallAnswers, EndsAs, HasServed, SessionAnswers};
ghost use Rattle.acdm_sessions.specs.Sessions.{end_for, session_end, session_left, session_start};
ghost use Rattle.acdm_sessions.specs.Stream.{AnswersLines, serving_by};

use crate::announcer::Aloud;
use crate::answer::Answer;
use crate::answerer::Answerer;
use crate::clock::{Clock, Gate};
use crate::locked::{Locked, Naming};
use crate::order::{Order, order_in};
use crate::session::{Caller, End, Seat, Served};
use crate::stream::serve_lines;
use acdm_board::DeskError;
use acdm_jobs::Job;
use acdm_lines::{ReplyWriter, RunError, Sink, Source};
use acdm_wire::Bad;
use bpf_helpers::Helpers;
use std::alloc::Global;
use std::io::Read;
use std::sync::{Mutex, Wait};

impl<C: Clock + Drop, J: Naming> Caller<C, J> {
    // What a line asks to be done, at the minute that the session's clock tells.
    fn order(&mut self, alloc: Global, line: &[u8]) -> Result<Order, Bad>
        ensures orders { Orders (C.gives self.old.clock) J.desk_row.sigs line.now result }
        ensures from_one { IfOk result (λ order. 1 ≤ order.moment) }
        ensures checked { IfOk result (λ order. is_foreign J.desk_row.sigs order.command ≡ false) }
        ensures pass { self.new.pass ≡ self.old.pass }
        ensures number { self.new.number ≡ self.old.number }
        ensures role { self.new.role ≡ self.old.role }
        ensures clock { C.gives self.new.clock ≡ C.gives self.old.clock }
    {
        order_in(alloc, line, &self.sigs, &mut self.clock)
    }

    // Calls the desk under the lock.
    fn call<H: Helpers + Drop, Rt: Wait>(
        &mut self,
        rt: &Rt,
        shared: &Mutex<Locked<H, J>>,
        order: Order,
    ) -> Answer
        requires moment_given { 1 ≤ order.moment }
        requires checked { is_foreign J.desk_row.sigs order.command ≡ false }
        ensures answers { CallAnswers J.desk_row.sigs order self.old.pass self.new.pass result }
        ensures number { self.new.number ≡ self.old.number }
        ensures role { self.new.role ≡ self.old.role }
        ensures clock { C.gives self.new.clock ≡ C.gives self.old.clock }
    {
        let Caller {
            share,
            calls,
            pass,
            ..
        } = self;
        match shared.lock(rt).call(pass, order, share) {
            Ok(reply) => {
                *calls += 1;
                Answer::Entered(reply)
            }
            Err(DeskError::Memory) => Answer::Rejected(Bad::NoMemory),
            Err(DeskError::Full) => Answer::Rejected(Bad::FullJournal),
            Err(DeskError::OtherSignatures) => unreachable!(),
        }
    }
}

// A session at the desk, which lies behind its lock.
#[derive(Drop)]
struct AtDesk<'s, C: Drop, H: Helpers + Drop, J: Naming, G, Rt> {
    rt: &'s Rt,
    shared: &'s Mutex<Locked<H, J>>,
    gate: &'s G,
    caller: Caller<C, J>,
    // Its calls of the desk, also those that made no entry.
    turn: u64,
    // Whether the last line was one.
    called: bool,
}

impl<'s, C: Clock + Drop, H: Helpers + Drop, J: Naming, G: Gate, Rt: Wait> Answerer
    for AtDesk<'s, C, H, J, G, Rt> {
    ghost use Rattle.acdm_sessions.specs.Sessions.{SessionAnswers, StaysItself};

    ghost may = { λ before after line answer. SessionAnswers (C.gives before.caller.clock)
        J.desk_row.sigs before.caller.pass after.caller.pass line answer
        × StaysItself (C.gives before.caller.clock) (C.gives after.caller.clock)
        before.caller.number after.caller.number before.caller.role after.caller.role };

    ghost made = { λ session. session.caller.pass.numbers };

    fn answer(&mut self, alloc: Global, line: &[u8]) -> Answer {
        self.called = false;
        let answer = match self.caller.order(alloc, line) {
            Ok(order) => {
                self.called = true;
                self.turn = self.turn.saturating_add(1);
                self.gate.enter(self.caller.number, self.turn);
                self.caller.call(self.rt, self.shared, order)
            }
            Err(bad) => Answer::Rejected(bad),
        };
        self.gate.told(self.caller.number, line, &answer);
        answer
    }

    fn replied(&self) {
        if self.called {
            self.gate.answered(self.caller.number, self.turn);
        }
    }
}

// How a session ends whose lines were answered so.
fn end_of(answered: Result<(), RunError>) -> End
    ensures { result ≡ end_for answered }
{
    match answered {
        Ok(()) => End::End,
        Err(RunError::Read) => End::Read,
        Err(RunError::Write) => End::Write,
        Err(RunError::Memory) => End::Memory,
    }
}

// A session that waits for its thread, and what it is served with.
#[derive(Drop)]
pub(crate) struct Work<
    's,
    R: Read + Drop,
    W: ReplyWriter + Drop,
    C: Drop,
    H: Helpers + Drop,
    J: Naming,
    G,
    Rt,
> {
    pub(crate) rt: &'s Rt,
    pub(crate) alloc: Global,
    pub(crate) shared: &'s Mutex<Locked<H, J>>,
    pub(crate) gate: &'s G,
    pub(crate) seat: Seat<R, W, C, J>,
}

impl<
    's,
    R: Read + Drop + Send,
    W: ReplyWriter + Drop + Send,
    C: Clock + Drop + Send,
    H: Helpers + Drop + Send,
    J: Naming + Send + Sync,
    G: Gate + Sync,
    Rt: Wait + Sync,
> Job<Served<R, W, C, J>> for Work<'s, R, W, C, H, J, G, Rt> {
    ghost use Rattle.acdm_sessions.specs.Sessions.{EndsAs, HasServed, session_end, session_left};
    ghost use Rattle.acdm_sessions.specs.Sessions.{session_start};

    ghost gives = { λ work served. EndsAs work.seat.number work.seat.role
        (session_end served.number served.role served.caller.calls served.end)
        × HasServed J.desk_row work.seat.number
        (session_start work.seat.role work.seat.reader work.seat.writer (C.gives work.seat.caller.clock))
        (session_left served.end served.reader served.writer served.caller.pass) };

    // From its first line to its last reply. With no leave to begin it ends at once.
    fn run(self, begins: bool) -> Served<R, W, C, J> {
        let Work {
            rt,
            alloc,
            shared,
            gate,
            seat,
        } = self;
        let Seat {
            number,
            role,
            caller,
            mut reader,
            mut writer,
        } = seat;
        if !begins {
            gate.ended(number);
            return Served {
                number,
                role,
                caller,
                reader,
                writer,
                end: End::Start,
            };
        }
        let mut who = AtDesk {
            rt,
            shared,
            gate,
            caller,
            turn: 0,
            called: false,
        };
        let answered = serve_lines::<R, W, AtDesk<'s, C, H, J, G, Rt>, Aloud>(
            alloc,
            &mut reader,
            &mut writer,
            &mut who,
        );
        let AtDesk { caller, .. } = who;
        gate.ended(number);
        Served {
            number,
            role,
            caller,
            reader,
            writer,
            end: end_of(answered),
        }
    }
}
