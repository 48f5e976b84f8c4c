//! Sessions: before they begin, and when they have ended.
ghost use Rattle.std.specs.Prelude.{◌≡◌, ◌<◌, ◌-◌, ◌^◌, true, length, if◌then◌else◌};
ghost use Rattle.acdm_sessions.specs.Passes.{are_from};
ghost use Rattle.acdm_sessions.specs.Sessions.{new_pass};

use crate::locked::Naming;
use acdm_board::Desk;
use acdm_lines::{ReplyWriter, Sink, Source};
use acdm_milestones::Role;
use acdm_row::Pass;
use bpf_helpers::{Helpers, Sigs};
use std::io::Read;
use std::sync::ledger::Share;

/// What a session is opened with.
#[derive(Drop)]
pub struct Session<R: Read + Drop, W: ReplyWriter + Drop, C: Drop> {
    /// The role of who is at the other end.
    pub role: Role,
    /// Where its lines come from.
    pub reader: Source<R>,
    /// Where its replies go.
    pub writer: Sink<W>,
    /// Which tells the moment of each of its commands.
    pub clock: C,
    // The counts of faults are below their last value.
    ghost reads: { reader.faults < 2 ^ 64 - 1 },
    ghost writes: { writer.faults < 2 ^ 64 - 1 },
}

/// How a session ended.
#[derive(Clone, Copy, Debug, PartialEq, Eq)]
pub enum End {
    /// Its input ended.
    End,
    /// Its reader failed, or gave 2^40 reads and no end.
    Read,
    /// Its writer failed.
    Write,
    /// There was no memory for its buffers, and nothing was read.
    Memory,
    /// No thread could be started for it, and nothing was read.
    Start,
    /// Its pass has seen more than the journal of the desk has, as `EndedSession::end` tells. No
    /// contract of a cell excludes it, and no test meets it.
    Torn,
}

/// A session, once it has ended.
#[derive(Drop)]
pub struct EndedSession<R: Read + Drop, W: ReplyWriter + Drop, C: Drop> {
    /// Its number, from 1.
    pub number: u8,
    /// Its role.
    pub role: Role,
    /// Its reader, after all that was read.
    pub reader: Source<R>,
    /// Its writer, after all that was written.
    pub writer: Sink<W>,
    /// Its clock.
    pub clock: C,
    /// How many of its calls of the desk made an entry.
    pub calls: u64,
    /// How it ended, but for a torn one.
    pub end: End,
    /// What it has seen of the journal, and which entries its calls made.
    pub pass: Pass,
    /// Whether it is torn. What the pass has seen and made is not told of then.
    pub torn: bool,
}

impl<R: Read + Drop, W: ReplyWriter + Drop, C: Drop> EndedSession<R, W, C> {
    /// How it ended; of a torn one that alone is told.
    pub fn end(&self) -> End
        ensures { result ≡ (if self.now.torn then End.Torn else self.now.end) }
    {
        if self.torn { End::Torn } else { self.end }
    }
}

/// A desk whose sessions have ended.
#[derive(Drop)]
pub struct Closed<H: Helpers + Drop, R: Read + Drop, W: ReplyWriter + Drop, C: Drop> {
    /// The desk, with the entries that the sessions made.
    pub desk: Desk<H>,
    /// The sessions, in the order of their numbers.
    pub sessions: Vec<EndedSession<R, W, C>>,
}

/// Who calls: a session with its clock, and its part of the ledger.
#[derive(Drop)]
pub(crate) struct Caller<C: Drop, J: Naming> {
    pub(crate) number: u8,
    pub(crate) role: Role,
    pub(crate) clock: C,
    pub(crate) sigs: Sigs,
    /// Its calls that made an entry.
    pub(crate) calls: u64,
    pub(crate) share: Share<J>,
    pub(crate) pass: Pass,
    ghost one_part: { share.parts ≡ 1 },
    ghost counted: { share.amount ≡ calls },
    ghost of_run: { sigs ≡ J.desk_row.sigs },
    ghost of_row: { pass.row ≡ J.desk_row },
    ghost of_session: { pass.session ≡ number },
    ghost of_role: { pass.role ≡ role },
    ghost own: { length pass.own ≡ calls },
    ghost since: { are_from J.start pass.numbers ≡ true },
}

/// A session that has not begun.
#[derive(Drop)]
pub(crate) struct Seat<R: Read + Drop, W: ReplyWriter + Drop, C: Drop, J: Naming> {
    pub(crate) number: u8,
    pub(crate) role: Role,
    pub(crate) caller: Caller<C, J>,
    pub(crate) reader: Source<R>,
    pub(crate) writer: Sink<W>,
    ghost same_number: { caller.number ≡ number },
    ghost same_role: { caller.role ≡ role },
    ghost none_yet: { caller.calls ≡ 0 },
    ghost new: { caller.pass ≡ new_pass J.desk_row number role },
    ghost reads: { reader.faults < 2 ^ 64 - 1 },
    ghost writes: { writer.faults < 2 ^ 64 - 1 },
}

/// A session that has ended, with its part of the ledger.
#[derive(Drop)]
pub(crate) struct Served<R: Read + Drop, W: ReplyWriter + Drop, C: Drop, J: Naming> {
    pub(crate) number: u8,
    pub(crate) role: Role,
    pub(crate) caller: Caller<C, J>,
    pub(crate) reader: Source<R>,
    pub(crate) writer: Sink<W>,
    pub(crate) end: End,
    ghost same_number: { caller.number ≡ number },
    ghost same_role: { caller.role ≡ role },
}
