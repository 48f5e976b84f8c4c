//! All sessions at once, each on a thread of its own.
ghost use Rattle.std.specs.Prelude.{◌≡◌, ◌+◌, ◌<◌, ◌≤◌, [], length, map, IfOk, IfErr, OnOk};
ghost use Rattle.std.specs.Prelude.{vec_len, vec_capacity, sum_by, take, reverse};
ghost use Rattle.acdm_jobs.specs.Each.{Each};
ghost use Rattle.std.specs.List.{All};
ghost use Rattle.acdm_board.specs.Desk.{row_of};
ghost use Rattle.acdm_sessions.specs.Passes.{IsShown};
ghost use Rattle.acdm_sessions.specs.Sessions.{ServesSessions, numbered, session_end, session_left};
ghost use Rattle.acdm_sessions.specs.Sessions.{session_start, session_told};

use crate::at_desk::Work;
use crate::clock::{Clock, Gate};
use crate::locked::{Locked, Naming};
use crate::session::{Caller, Closed, EndedSession, Seat, Served, Session};
use acdm_board::Desk;
use acdm_jobs::Crew;
use acdm_lines::ReplyWriter;
use acdm_milestones::Role;
use acdm_row::Pass;
use bpf_helpers::{Helpers, Sigs};
use std::alloc::{AllocError, Global};
use std::io::Read;
use std::marker::Brand;
use std::sync::ledger::{Blank, Share};
use std::sync::{Mutex, Wait};
use std::thread::Threads;

// Work for each seat, in order.
fn filled<
    's,
    R: Read + Drop + Send,
    W: ReplyWriter + Drop + Send,
    C: Clock + Drop + Send,
    H: Helpers + Drop + Send,
    J: Naming + Send + Sync,
    G: Gate + Sync,
    Rt: Wait + Sync,
>(
    rt: &'s Rt,
    alloc: Global,
    shared: &'s Mutex<Locked<H, J>>,
    gate: &'s G,
    seats: Vec<Seat<R, W, C, J>>,
    mut crew: Crew<Work<'s, R, W, C, H, J, G, Rt>, Served<R, W, C, J>>,
) -> Crew<Work<'s, R, W, C, H, J, G, Rt>, Served<R, W, C, J>>
    requires { (crew.jobs ≡ []) × (vec_len seats ≤ crew.room) }
    ensures seats { map (λ work. work.seat) result.jobs ≡ seats.items }
    ensures len { length result.jobs ≡ vec_len seats }
{
    for seat in seats {
        crew.add(Work {
            rt,
            alloc,
            shared,
            gate,
            seat,
        });
    }
    crew
}

// A seat for each session, in order, with a part of the ledger each.
fn seated<R: Read + Drop, W: ReplyWriter + Drop, C: Clock + Drop, H: Helpers + Drop, J: Naming>(
    sessions: Vec<Session<R, W, C>>,
    desk: &Desk<H>,
    all: &mut Share<J>,
    mut seats: Vec<Seat<R, W, C, J>>,
) -> Result<Vec<Seat<R, W, C, J>>, AllocError>
    requires row { row_of desk.now ≡ J.desk_row }
    requires few { vec_len sessions ≤ 64 }
    requires parts { vec_len sessions < all.old.parts }
    requires room { (vec_len seats ≡ 0) × (vec_len sessions ≤ vec_capacity seats) }
    ensures len { IfOk result (λ v. vec_len v ≡ vec_len sessions) }
    ensures seats { IfOk result (λ v. map (λ s. (s.number, s.role)) v.items
        ≡ numbered 1 (map (λ s. s.role) sessions.items)) }
    ensures starts { IfOk result (λ v. map (λ s. (
      s.number,
      session_start s.role
          s.reader s.writer
          (C.gives s.caller.clock),
    )) v.items ≡ numbered 1 (map (λ s. session_start s.role
        s.reader s.writer
        (C.gives s.clock)) sessions.items)) }
    ensures parts { OnOk result (all.new.parts + vec_len sessions ≡ all.old.parts) }
    ensures amount { OnOk result (all.new.amount ≡ all.old.amount) }
{
    let mut number = 0u8;
    for session in sessions {
        number += 1;
        let seat = seat_for(number, session, desk, all)?;
        seats.push_reserved(seat);
    }
    Ok(seats)
}

// The seat of a session at the desk, with a part of the ledger.
fn seat_for<R: Read + Drop, W: ReplyWriter + Drop, C: Clock + Drop, H: Helpers + Drop, J: Naming>(
    number: u8,
    session: Session<R, W, C>,
    desk: &Desk<H>,
    all: &mut Share<J>,
) -> Result<Seat<R, W, C, J>, AllocError>
    requires row { row_of desk.now ≡ J.desk_row }
    requires number { (1 ≤ number) × (number ≤ 64) }
    requires parts { 1 < all.old.parts }
    ensures place { IfOk result (λ s. (s.number ≡ number) × (s.role ≡ session.role)) }
    ensures start { IfOk result (λ s. session_start s.role s.reader s.writer (C.gives s.caller.clock)
        ≡ session_start session.role session.reader session.writer (C.gives session.clock)) }
    ensures share { OnOk result ((all.new.parts + 1 ≡ all.old.parts)
        × (all.new.amount ≡ all.old.amount)) }
{
    let sigs = desk.sigs().copy()?;
    let pass = desk.pass(number, session.role)?;
    let share = all.split_off(1, 0);
    Ok(seat_of(number, session, sigs, share, pass))
}

// The seat of a session.
fn seat_of<R: Read + Drop, W: ReplyWriter + Drop, C: Clock + Drop, J: Naming>(
    number: u8,
    session: Session<R, W, C>,
    sigs: Sigs,
    share: Share<J>,
    pass: Pass,
) -> Seat<R, W, C, J>
    requires sigs { sigs ≡ J.desk_row.sigs }
    requires part { (share.parts ≡ 1) × (share.amount ≡ 0) }
    requires row { pass.row ≡ J.desk_row }
    requires caller { (pass.session ≡ number) × (pass.role ≡ session.role) }
    requires empty { (pass.seen ≡ []) × (pass.numbers ≡ []) × (pass.own ≡ []) }
    ensures number { result.number ≡ number }
    ensures role { result.role ≡ session.role }
    ensures start { session_start result.role result.reader result.writer (C.gives result.caller.clock)
        ≡ session_start session.role session.reader session.writer (C.gives session.clock) }
{
    let Session {
        role,
        reader,
        writer,
        clock,
    } = session;
    let caller = Caller {
        number,
        role,
        clock,
        sigs,
        calls: 0,
        share,
        pass,
    };
    Seat {
        number,
        role,
        caller,
        reader,
        writer,
    }
}

// Gathers the share of a session that has ended, and holds its pass against the journal.
fn left_by<R: Read + Drop, W: ReplyWriter + Drop, C: Drop, H: Helpers + Drop, J: Naming>(
    one: Served<R, W, C, J>,
    desk: &mut Desk<H>,
    all: &mut Share<J>,
) -> EndedSession<R, W, C>
    requires row { row_of desk.old ≡ J.desk_row }
    ensures desk { desk.new ≡ desk.old }
    ensures shown { IsShown J.start desk.old result.number result.role result.calls result.torn
        result.pass }
    ensures session_end { session_end result.number result.role result.calls result.end
        ≡ session_end one.number one.role one.caller.calls one.end }
    ensures left { session_left result.end result.reader result.writer result.pass
        ≡ session_left one.end one.reader one.writer one.caller.pass }
    ensures parts { all.new.parts ≡ all.old.parts + 1 }
    ensures amount { all.new.amount ≡ all.old.amount + result.calls }
{
    let Served {
        number,
        role,
        caller,
        reader,
        writer,
        end,
    } = one;
    let Caller {
        clock,
        calls,
        share,
        mut pass,
        ..
    } = caller;
    all.merge(share);
    let torn = !desk.holds(&mut pass);
    // (its contract says which its own entries are: `shown`)
    let _own = pass.own_len();
    EndedSession {
        number,
        role,
        reader,
        writer,
        clock,
        calls,
        end,
        pass,
        torn,
    }
}

// Gathers the shares of all, and what else the sessions left.
fn gathered<R: Read + Drop, W: ReplyWriter + Drop, C: Drop, H: Helpers + Drop, J: Naming>(
    served: Vec<Served<R, W, C, J>>,
    desk: &mut Desk<H>,
    all: &mut Share<J>,
    mut ended: Vec<EndedSession<R, W, C>>,
) -> Vec<EndedSession<R, W, C>>
    requires room { (vec_len ended ≡ 0) × (vec_len served ≤ vec_capacity ended) }
    requires row { row_of desk.old ≡ J.desk_row }
    ensures desk { desk.new ≡ desk.old }
    ensures shown { All (λ e. IsShown J.start desk.old e.number e.role e.calls e.torn e.pass)
        result.items }
    ensures len { vec_len result ≡ vec_len served }
    ensures session_end { map (λ e. session_end e.number e.role e.calls e.end) result.items
        ≡ map (λ s. session_end s.number s.role s.caller.calls s.end) served.items }
    ensures left { map (λ e. session_left e.end e.reader e.writer e.pass) result.items
        ≡ map (λ s. session_left s.end s.reader s.writer s.caller.pass) served.items }
    ensures parts { all.new.parts ≡ all.old.parts + vec_len served }
    ensures amount { all.new.amount
        ≡ all.old.amount + sum_by (λ e. e.calls) result.items }
{
    for one in served {
        ended.push_reserved(left_by(one, desk, all));
    }
    ended
}

// Holds the journal against what was seen of it at first.
fn hold<H: Helpers + Drop>(desk: &mut Desk<H>, first: &mut Pass)
    requires row { first.old.row ≡ row_of desk.old }
    requires shorter { length first.old.seen ≤ length desk.old.history }
    ensures same { desk.new ≡ desk.old }
    ensures begins { first.old.seen ≡ take (length first.old.seen) (reverse desk.old.history) }
{
    if !desk.holds(first) {
        unreachable!();
    }
}

// Takes the desk from under the lock, and holds the ledger's book against all shares.
fn close<R: Read + Drop, W: ReplyWriter + Drop, C: Drop, H: Helpers + Drop, J: Naming>(
    locked: Locked<H, J>,
    mut first: Pass,
    mut all: Share<J>,
    served: Vec<Served<R, W, C, J>>,
    ended: Vec<EndedSession<R, W, C>>,
) -> Closed<H, R, W, C>
    requires parts { all.parts + vec_len served ≡ J.parts }
    requires room { (vec_len ended ≡ 0) × (vec_len served ≤ vec_capacity ended) }
    requires first { (first.row ≡ J.desk_row) × (length first.seen ≡ all.amount) }
    ensures sum { length result.desk.history
        ≡ all.amount + sum_by (λ e. e.calls) result.sessions.items }
    ensures session_end { map (λ e. session_end e.number e.role e.calls e.end) result.sessions.items
        ≡ map (λ s. session_end s.number s.role s.caller.calls s.end) served.items }
    ensures left { map (λ e. session_left e.end e.reader e.writer e.pass) result.sessions.items
        ≡ map (λ s. session_left s.end s.reader s.writer s.caller.pass) served.items }
    ensures begins { first.seen ≡ take (length first.seen) (reverse result.desk.history) }
    ensures shown { All (λ e. IsShown J.start result.desk e.number e.role e.calls e.torn e.pass)
        result.sessions.items }
{
    let Locked { mut desk, mut book } = locked;
    let sessions = gathered(served, &mut desk, &mut all, ended);
    book.audit(&mut all);
    hold(&mut desk, &mut first);
    Closed { desk, sessions }
}

// All that a run has before its threads begin.
#[derive(Drop)]
struct Opened<R: Read + Drop, W: ReplyWriter + Drop, C: Drop, H: Helpers + Drop, J: Naming> {
    locked: Locked<H, J>,
    // It has seen what the desk had before.
    first: Pass,
    all: Share<J>,
    seats: Vec<Seat<R, W, C, J>>,
    ended: Vec<EndedSession<R, W, C>>,
}

// Opens the ledger over the desk, and seats the sessions.
fn open<R: Read + Drop, W: ReplyWriter + Drop, C: Clock + Drop, H: Helpers + Drop, J: Naming>(
    alloc: Global,
    blank: Blank,
    mut desk: Desk<H>,
    sessions: Vec<Session<R, W, C>>,
) -> Result<Opened<R, W, C, H, J>, Desk<H>>
    requires name { blank.name ≡ J.name }
    requires parts { blank.parts ≡ J.parts }
    requires row { row_of desk ≡ J.desk_row }
    requires start { length desk.history ≡ J.start }
    requires all { blank.parts ≡ vec_len sessions + 1 }
    requires few { vec_len sessions ≤ 64 }
    ensures len { IfOk result (λ o. vec_len o.seats ≡ vec_len sessions) }
    ensures seats { IfOk result (λ o. map (λ s. (s.number, s.role)) o.seats.items
        ≡ numbered 1 (map (λ s. s.role) sessions.items)) }
    ensures starts { IfOk result (λ o. map (λ s. (
      s.number,
      session_start s.role
          s.reader s.writer
          (C.gives s.caller.clock),
    )) o.seats.items ≡ numbered 1 (map (λ s. session_start s.role
        s.reader s.writer
        (C.gives s.clock)) sessions.items)) }
    ensures parts { IfOk result (λ o. o.all.parts + vec_len sessions ≡ J.parts) }
    ensures amount { IfOk result (λ o. o.all.amount ≡ length desk.history) }
    ensures first { IfOk result (λ o. (o.first.row ≡ J.desk_row)
        × (o.first.seen ≡ reverse desk.history)) }
    ensures room { IfOk result (λ o. (vec_len o.ended ≡ 0)
        × (vec_len sessions ≤ vec_capacity o.ended)) }
    ensures err { IfErr result (λ d. d ≡ desk) }
{
    let count = sessions.len();
    let Ok(seats) = Vec::with_capacity(alloc, count) else {
        return Err(desk);
    };
    let Ok(ended) = Vec::with_capacity(alloc, count) else {
        return Err(desk);
    };
    let Ok(mut first) = desk.pass(1, Role::AirportOperator) else {
        return Err(desk);
    };
    let Ok(()) = desk.show(&mut first) else {
        return Err(desk);
    };
    let (mut book, mut all) = blank.open::<J>();
    book.add(&mut all, desk.len());
    let Ok(seats) = seated(sessions, &desk, &mut all, seats) else {
        return Err(desk);
    };
    Ok(Opened {
        locked: Locked { desk, book },
        first,
        all,
        seats,
        ended,
    })
}

// Serves the sessions under a ledger of this run's own.
fn run_named<
    J: Naming + Send + Sync,
    R: Read + Drop + Send,
    W: ReplyWriter + Drop + Send,
    C: Clock + Drop + Send,
    H: Helpers + Drop + Send,
    G: Gate + Sync,
    Rt: Threads + Wait + Sync,
>(
    rt: &Rt,
    alloc: Global,
    blank: Blank,
    desk: Desk<H>,
    sessions: Vec<Session<R, W, C>>,
    gate: &G,
) -> Result<Closed<H, R, W, C>, Desk<H>>
    requires name { blank.name ≡ J.name }
    requires parts { blank.parts ≡ J.parts }
    requires row { row_of desk ≡ J.desk_row }
    requires start { length desk.history ≡ J.start }
    requires all { blank.parts ≡ vec_len sessions + 1 }
    requires few { vec_len sessions ≤ 64 }
    ensures serves { IfOk result (λ c. ServesSessions desk c.desk
        (map (λ s. session_start s.role s.reader s.writer (C.gives s.clock)) sessions.items)
        (map (λ e. session_told e.number e.role e.calls e.end e.torn e.reader e.writer e.pass)
        c.sessions.items)) }
    ensures err { IfErr result (λ d. d ≡ desk) }
{
    let Ok(crew) = Crew::new(alloc, sessions.len()) else {
        return Err(desk);
    };
    let Opened {
        locked,
        first,
        all,
        seats,
        ended,
    } = open::<R, W, C, H, J>(alloc, blank, desk, sessions)?;
    let shared = Mutex::new(locked);
    let crew = filled(rt, alloc, &shared, gate, seats, crew);
    let served = crew.run(rt);
    Ok(close(shared.into_inner(), first, all, served, ended))
}

/// Serves all sessions at once, each on a thread of its own, and waits for all. Session k, from 1,
/// is the k-th, at most 64. All call one desk, behind one lock; lines are read, decoded and
/// verified outside of it, and replies are written outside of it too.
///
/// A line of a session is JSON (RFC 8259); the moment of its command is the minute that the
/// session's clock tells when the line was read, and `bad 106` is answered where it tells none.
/// Replies are those of `run`. A session whose reader or writer fails ends alone; one that no
/// thread can be started for ends as `Start`, and the others run.
///
/// `Err` only where memory was refused before any session started: the desk is as it was.
pub fn run_sessions<
    R: Read + Drop + Send,
    W: ReplyWriter + Drop + Send,
    C: Clock + Drop + Send,
    H: Helpers + Drop + Send,
    G: Gate + Sync,
    Rt: Threads + Wait + Sync,
>(
    rt: &Rt,
    alloc: Global,
    desk: Desk<H>,
    sessions: Vec<Session<R, W, C>>,
    gate: &G,
) -> Result<Closed<H, R, W, C>, Desk<H>>
    requires few { vec_len sessions ≤ 64 }
    ensures serves { IfOk result (λ c. ServesSessions desk c.desk
        (map (λ s. session_start s.role s.reader s.writer (C.gives s.clock)) sessions.items)
        (map (λ e. session_told e.number e.role e.calls e.end e.torn e.reader e.writer e.pass)
        c.sessions.items)) }
    ensures err { IfErr result (λ d. d ≡ desk) }
{
    let parts = sessions.len() as u64 + 1;
    run_named::<Brand, R, W, C, H, G, Rt>(rt, alloc, Blank::new(parts), desk, sessions, gate)
}
