//! Sessions on threads of their own, whose replies wait for the keeping of their entries.
ghost use Rattle.std.specs.Prelude.{◌≡◌, ◌<◌, ◌≤◌, [], length, vec_len};
ghost use Rattle.acdm_board.specs.Desk.{row_of};

use crate::crash::entries_left;
use acdm_board::Desk;
use acdm_journal::audit;
use acdm_keeping::{
    Keeper, KeptCount, LastingReceipt, Opening, Replies, SharedKeeper, Waiter, later,
};
use acdm_milestones::Role;
use acdm_row::Row;
use acdm_sessions::{
    Clock, Closed, EndedSession, Gate, ReplyWriter, Session, Sink, Source, run_sessions,
};
use bpf_helpers::{Bank, Helpers};
use std::alloc::Global;
use std::io::{self, Cursor, ErrorKind, Write};
use std::marker::Brand;
use std::process::Abort;
use std::sync::atomic::{AtomicBool, AtomicU64, Ordering};
use std::sync::{Arc, Wait};
use std::thread::{Threads, yield_now};
use std::time::Clock as SystemClock;

const TICK: &str = "{\"cmd\":\"tick\"}\n";

/// How many bytes of replies are held back at most: a reply and a part of the next.
const HELD: usize = 8;

/// Tells 2025-02-20T07:00Z.
#[derive(Drop)]
struct Fixed;

impl Clock for Fixed {
    ghost use Rattle.std.specs.Prelude.{true};

    ghost gives = { λ _ _. true };

    fn minute(&mut self) -> Option<u32> {
        Some(29_000_580)
    }
}

/// Holds nobody up.
#[derive(Drop)]
struct Open;

impl Gate for Open {
    fn enter(&self, _session: u8, _call: u64) {}

    fn answered(&self, _session: u8, _call: u64) {}
}

/// What is known of a kept journal beside the writer that it is kept by.
#[derive(Drop)]
struct Shelf {
    // How many lines were flushed, and how many flushes there were.
    lines: AtomicU64,
    flushes: AtomicU64,
    // How many replies there were, and how many of them before their line was flushed.
    replies: AtomicU64,
    early: AtomicU64,
    // One more than the greatest number of an entry that was replied.
    told: AtomicU64,
}

impl Shelf {
    fn new(rt: &impl Abort, alloc: Global) -> Arc<Shelf> {
        let shelf = Shelf {
            lines: AtomicU64::new(0),
            flushes: AtomicU64::new(0),
            replies: AtomicU64::new(0),
            early: AtomicU64::new(0),
            told: AtomicU64::new(0),
        };
        Arc::new(alloc, shelf).expect(rt, "a shelf")
    }

    fn lines(&self) -> u64 {
        self.lines.load(Ordering::SeqCst)
    }

    fn replies(&self) -> u64 {
        self.replies.load(Ordering::SeqCst)
    }
}

fn same<T>(rt: &impl Abort, shared: &Arc<T>) -> Arc<T> {
    Arc::try_clone(shared).expect(rt, "one more owner")
}

/// Where a text stops.
#[derive(Clone, Copy)]
struct Stop {
    // How many writes are left, and how many bytes of the next one are taken.
    writes: u64,
    part: usize,
    // How many flushes are left.
    flushes: u64,
}

impl Stop {
    // Nowhere.
    const NEVER: Stop = Stop {
        writes: u64::MAX,
        part: 0,
        flushes: u64::MAX,
    };

    // Behind so many writes.
    fn behind(writes: u64) -> Stop {
        Stop {
            writes,
            part: 0,
            flushes: u64::MAX,
        }
    }
}

/// Keeps a text until it stops. A flush waits until so many entries are in sight, for so many
/// turns at most.
#[derive(Drop)]
struct Paper {
    shelf: Arc<Shelf>,
    row: Arc<Row>,
    awaited: usize,
    stop: Stop,
    lines: u64,
    // How many bytes stood there at the last flush.
    settled: usize,
    text: Vec<u8>,
}

impl Paper {
    // Whether as many entries are in sight as are waited for.
    fn is_awaited(&self) -> bool {
        match self.awaited.checked_sub(1) {
            Some(last) if last < self.row.len() => {
                let mut note = self.row.note(last);
                self.row.look(last, &mut note).is_some()
            }
            _ => true,
        }
    }

    // Takes these bytes, and counts the lines that end among them.
    fn take(&mut self, bytes: &[u8]) -> io::Result<()> {
        self.text.extend_from_slice(bytes)?;
        let lines = bytes.iter().filter(|byte| **byte == b'\n').count() as u64;
        self.lines = self.lines.saturating_add(lines);
        Ok(())
    }
}

impl Write for Paper {
    fn write(&mut self, buf: &[u8]) -> io::Result<usize> {
        let Some(left) = self.stop.writes.checked_sub(1) else {
            let count = buf.len().min(self.stop.part);
            self.stop.part = 0;
            if count == 0 {
                return Err(io::Error::from(ErrorKind::StorageFull));
            }
            self.take(&buf[..count])?;
            return Ok(count);
        };
        self.stop.writes = left;
        self.take(buf)?;
        Ok(buf.len())
    }

    fn flush(&mut self) -> io::Result<()> {
        for _ in 0..10_000_000u64 {
            if self.is_awaited() {
                break;
            }
            yield_now();
        }
        let Some(left) = self.stop.flushes.checked_sub(1) else {
            return Err(io::Error::from(ErrorKind::Other));
        };
        self.stop.flushes = left;
        self.settled = self.text.len();
        self.shelf.lines.store(self.lines, Ordering::SeqCst);
        self.shelf.flushes.fetch_add(1, Ordering::SeqCst);
        Ok(())
    }
}

/// Takes replies, and sees of each whether its line was flushed before. The second word of a reply is
/// the number of its entry, from 0; but `bad` tells of none.
#[derive(Drop)]
struct Reader {
    shelf: Arc<Shelf>,
    words: u64,
    number: u64,
    is_begun: bool,
    is_bad: bool,
}

impl Reader {
    // The reply that was taken has ended.
    fn end(&mut self) {
        if !self.is_bad {
            self.shelf.replies.fetch_add(1, Ordering::SeqCst);
            let next = self.number.saturating_add(1);
            self.shelf.told.fetch_max(next, Ordering::SeqCst);
            if self.number >= self.shelf.lines() {
                self.shelf.early.fetch_add(1, Ordering::SeqCst);
            }
        }
        self.words = 0;
        self.number = 0;
        self.is_begun = false;
    }

    fn take(&mut self, byte: u8) {
        if !self.is_begun {
            self.is_begun = true;
            self.is_bad = byte == b'b';
        }
        if byte == b'\n' {
            self.end();
        } else if byte == b' ' {
            self.words = self.words.saturating_add(1);
        } else if self.words == 1 && byte.is_ascii_digit() {
            let digit = u64::from(byte.saturating_sub(b'0'));
            self.number = self.number.saturating_mul(10).saturating_add(digit);
        }
    }
}

impl Write for Reader {
    fn write(&mut self, buf: &[u8]) -> io::Result<usize> {
        for byte in buf {
            self.take(*byte);
        }
        Ok(buf.len())
    }

    fn flush(&mut self) -> io::Result<()> {
        Ok(())
    }
}

type Answered<'r, J, Rt> = Replies<Waiter<'r, Paper, J, Rt>, Reader>;

type Opened<'r, J, Rt> = Session<Cursor<Vec<u8>>, Answered<'r, J, Rt>, Fixed>;

/// What sessions send.
#[derive(Clone, Copy)]
enum Sent {
    /// Each so many ticks, of the airport.
    Ticks(usize),
    /// The day of four partners: each what it has to say of so many flights.
    Day(usize),
}

// The role of a session that sends its part of a day.
fn role_of(session: u8) -> Role {
    match session {
        0 => Role::AirportOperator,
        1 => Role::NetworkManager,
        2 => Role::AirTrafficControl,
        _ => Role::AircraftOperator,
    }
}

// What a session has to say of a flight: each part has a line that is refused, one of another's milestone, and one that
// says nothing.
fn add_flight(text: &mut Vec<u8>, session: u8, flight: usize) -> io::Result<()> {
    match session {
        0 => {
            writeln!(
                text,
                "{{\"cmd\":\"schedule\",\"flight\":{flight},\"callsign\":\"DLH{flight}\",\"type\":\"A320\",\"reg\":\"DAIBC\",\"dest\":\"EDDM\",\"sobt\":\"2025-02-20T10:00:00Z\",\"mttt\":40,\"exit\":5,\"exot\":10,\"stand\":12}}"
            )?;
            writeln!(text, "{{\"cmd\":\"show\",\"flight\":{flight}}}")?;
            writeln!(text, "{{\"cmd\":\"alerts\"}}")?;
            writeln!(text, "{{\"cmd\":\"tick\"}}")?;
            writeln!(text, "{{\"cmd\":\"show\",\"flight\":\"{flight}\"}}")?;
        }
        1 => {
            writeln!(
                text,
                "{{\"cmd\":\"report\",\"flight\":{flight},\"milestone\":1,\"time\":\"2025-02-20T10:00:00Z\",\"callsign\":\"DLH{flight}\",\"type\":\"A320\",\"reg\":\"DAIBC\",\"dest\":\"EDDM\"}}"
            )?;
            writeln!(text, "{{\"cmd\":\"tick\"}}")?;
            writeln!(text, "{{\"cmd\":\"show\",\"flight\":{flight}}}")?;
            writeln!(text, "no command")?;
            writeln!(text, "{{\"cmd\":\"alerts\"}}")?;
        }
        2 => {
            for milestone in 5..8u8 {
                writeln!(
                    text,
                    "{{\"cmd\":\"report\",\"flight\":{flight},\"milestone\":{milestone},\"time\":\"2025-02-20T07:00:00Z\"}}"
                )?;
            }
            writeln!(text, "{{\"cmd\":\"show\",\"flight\":{flight}}}")?;
            writeln!(text, "")?;
        }
        _ => {
            writeln!(
                text,
                "{{\"cmd\":\"report\",\"flight\":{flight},\"milestone\":9,\"time\":\"2025-02-20T09:40:00Z\"}}"
            )?;
            writeln!(
                text,
                "{{\"cmd\":\"report\",\"flight\":{flight},\"milestone\":9,\"time\":null}}"
            )?;
            writeln!(text, "{{\"cmd\":\"show\",\"flight\":{flight}}}")?;
            writeln!(text, "{{\"cmd\":\"alerts\"}}")?;
            writeln!(
                text,
                "{{\"cmd\":\"report\",\"flight\":{flight},\"milestone\":17}}"
            )?;
        }
    }
    Ok(())
}

// The role of a session, and the lines that it sends.
fn part_of(rt: &impl Abort, alloc: Global, sent: Sent, session: u8) -> (Role, Vec<u8>) {
    match sent {
        Sent::Ticks(count) => (Role::AirportOperator, ticks(rt, alloc, count)),
        Sent::Day(flights) => {
            let mut text = Vec::new(alloc);
            for flight in 1..=flights {
                add_flight(&mut text, session, flight)
                    .ok()
                    .expect(rt, "room");
            }
            (role_of(session), text)
        }
    }
}

// So many ticks.
fn ticks(rt: &impl Abort, alloc: Global, count: usize) -> Vec<u8> {
    let mut text = Vec::new(alloc);
    for _ in 0..count {
        text.extend_from_slice(TICK.as_bytes()).expect(rt, "room");
    }
    text
}

// A session that sends its part.
fn opened<'r, J: Opening, Rt: Wait + SystemClock + Abort>(
    rt: &'r Rt,
    alloc: Global,
    keeper: &'r SharedKeeper<Paper, J>,
    shelf: &Arc<Shelf>,
    sent: Sent,
    session: u8,
) -> Opened<'r, J, Rt> {
    let reader = Reader {
        shelf: same(rt, shelf),
        words: 0,
        number: 0,
        is_begun: false,
        is_bad: false,
    };
    let (role, lines) = part_of(rt, alloc, sent, session);
    let waiting = Waiter::new(rt, Some(keeper), None);
    let replies = Replies::new(alloc, waiting, reader, HELD).expect(rt, "room for replies");
    Session {
        role,
        reader: Source::new(Cursor::new(lines)),
        writer: Sink::new(replies),
        clock: Fixed,
    }
}

// So many of them, at most 64.
fn sessions_of<'r, J: Opening, Rt: Wait + SystemClock + Abort>(
    rt: &'r Rt,
    alloc: Global,
    keeper: &'r SharedKeeper<Paper, J>,
    shelf: &Arc<Shelf>,
    sessions: u8,
    sent: Sent,
) -> Vec<Opened<'r, J, Rt>> {
    let mut all = Vec::new(alloc);
    for number in 0..sessions {
        let session = opened(rt, alloc, keeper, shelf, sent, number);
        let is_pushed = all.push(session).is_ok();
        assert!(rt; is_pushed);
    }
    all
}

// How many entries there are once these sessions have ended, and what is left of them.
fn entries_after<
    H: Helpers + Drop + Send,
    W: ReplyWriter + Drop + Send,
    Rt: Threads + Wait + SystemClock + Abort + Sync,
>(
    rt: &Rt,
    alloc: Global,
    desk: Desk<H>,
    sessions: Vec<Session<Cursor<Vec<u8>>, W, Fixed>>,
) -> (u64, Vec<EndedSession<Cursor<Vec<u8>>, W, Fixed>>) {
    assert!(rt; sessions.len() <= 64);
    let closed = run_sessions(rt, alloc, desk, sessions, &Open)
        .ok()
        .expect(rt, "memory for the sessions");
    let Closed { desk, sessions } = closed;
    (desk.len(), sessions)
}

// The latest receipt behind which these sessions handed on replies.
fn latest_of<J: Opening, Rt: Wait + SystemClock>(
    sessions: Vec<EndedSession<Cursor<Vec<u8>>, Answered<'_, J, Rt>, Fixed>>,
) -> Option<LastingReceipt<J>> {
    let mut latest = None;
    for session in sessions {
        let (waiter, _) = session.writer.into_inner().into_keeper();
        latest = later(latest, waiter.into_receipt());
    }
    latest
}

// How many entries there are once so many sessions have sent their parts, and the latest receipt behind which they handed
// on replies.
fn entries_kept<
    'r,
    J: Opening + Send + Sync,
    H: Helpers + Drop + Send,
    Rt: Threads + Wait + SystemClock + Abort + Sync,
>(
    rt: &'r Rt,
    alloc: Global,
    desk: Desk<H>,
    keeper: &'r SharedKeeper<Paper, J>,
    shelf: &Arc<Shelf>,
    sessions: u8,
    sent: Sent,
) -> (u64, Option<LastingReceipt<J>>) {
    let all = sessions_of(rt, alloc, keeper, shelf, sessions, sent);
    let (entries, ended) = entries_after(rt, alloc, desk, all);
    (entries, latest_of(ended))
}

// What was kept, where all was.
#[derive(Drop)]
struct Outcome {
    // How many entries the latest receipt was for behind which replies were handed on.
    covered: u64,
    entries: u64,
    has_failed: bool,
    // Whether all was kept, what was written, and how many bytes of it stood there at the last flush.
    is_whole: bool,
    text: Vec<u8>,
    settled: usize,
}

// What comes of sessions whose replies wait for a keeper.
fn served<
    J: Opening + Send + Sync,
    H: Helpers + Drop + Send,
    Rt: Threads + Wait + SystemClock + Abort + Sync,
>(
    rt: &Rt,
    alloc: Global,
    desk: Desk<H>,
    keeper: Keeper<Paper>,
    kept: KeptCount,
    shelf: &Arc<Shelf>,
    sessions: u8,
    sent: Sent,
) -> Outcome
    requires desk { row_of desk ≡ J.desk_row }
    requires row { keeper.row ≡ J.desk_row }
    requires opening { keeper.seen ≡ J.opening }
    requires fresh { keeper.writer.log ≡ [] }
    requires table { kept ≡ J.table }
{
    let failed = Arc::new(alloc, AtomicBool::new(false)).expect(rt, "a word");
    let shared: SharedKeeper<Paper, J> = SharedKeeper::new(rt, alloc, keeper, kept, &failed)
        .ok()
        .expect(rt, "a keeper");
    let (entries, latest) = entries_kept(rt, alloc, desk, &shared, shelf, sessions, sent);
    let has_failed = failed.load(Ordering::SeqCst);
    let covered = match &latest {
        Some(receipt) => receipt.count() as u64,
        None => 0,
    };
    let (keeper, ended) = shared.end(rt, latest);
    let Paper { text, settled, .. } = keeper.into_writer().into_inner();
    Outcome {
        covered,
        entries,
        has_failed,
        is_whole: ended.is_ok(),
        text,
        settled,
    }
}

// The same, by a desk of its own and a keeper whose writer stops so, and waits for so many entries before it flushes.
fn outcome_of<H: Helpers + Drop + Send, Rt: Threads + Wait + SystemClock + Abort + Sync>(
    rt: &Rt,
    alloc: Global,
    helpers: H,
    shelf: &Arc<Shelf>,
    sessions: u8,
    sent: Sent,
    stop: Stop,
    awaited: usize,
) -> Outcome {
    let desk = Desk::new(alloc, helpers, 1_000).expect(rt, "a desk");
    let paper = Paper {
        shelf: same(rt, shelf),
        row: same(rt, desk.row()),
        awaited,
        stop,
        lines: 0,
        settled: 0,
        text: Vec::new(alloc),
    };
    let keeper = Keeper::new(alloc, desk.row(), paper)
        .ok()
        .expect(rt, "a keeper");
    let kept = KeptCount::new(alloc).expect(rt, "a count");
    served::<Brand, H, Rt>(rt, alloc, desk, keeper, kept, shelf, sessions, sent)
}

// A text is a legal journal of so many entries.
fn is_journal<H: Helpers + Drop>(
    rt: &impl Abort,
    alloc: Global,
    helpers: H,
    text: &[u8],
    entries: u64,
) {
    let desk = Desk::new(alloc, helpers, 0).expect(rt, "a desk");
    let mut reader = Source::new(text);
    let found = audit(alloc, &mut reader, desk.row().sigs()).ok();
    assert!(rt; found == Some(entries));
}

// No reply comes before its line is kept, and all that is entered is kept.
#[test]
fn replies_come_behind_their_entries(rt: HostRuntime) {
    let alloc = rt.alloc();
    let bank = Bank::new(alloc).expect(&rt, "a bank");
    let shelf = Shelf::new(&rt, alloc);
    let outcome = outcome_of(&rt, alloc, bank, &shelf, 8, Sent::Ticks(60), Stop::NEVER, 0);
    assert!(rt; outcome.entries == 480 && !outcome.has_failed);
    assert!(rt; shelf.replies() == 480 && shelf.lines() == 480);
    assert!(rt; outcome.covered > 0 && outcome.covered <= shelf.lines());
    assert!(rt; shelf.early.load(Ordering::SeqCst) == 0);
    assert!(rt; outcome.is_whole);
    let bank = Bank::new(alloc).expect(&rt, "a bank");
    is_journal(&rt, alloc, bank, outcome.text.as_slice(), 480);
}

// The first flush waits until the entries of all eight are in sight: one more keeps the others.
#[test]
fn one_flush_keeps_the_entries_of_many(rt: HostRuntime) {
    let alloc = rt.alloc();
    let bank = Bank::new(alloc).expect(&rt, "a bank");
    let shelf = Shelf::new(&rt, alloc);
    let outcome = outcome_of(&rt, alloc, bank, &shelf, 8, Sent::Ticks(1), Stop::NEVER, 8);
    assert!(rt; outcome.entries == 8 && !outcome.has_failed);
    assert!(rt; shelf.replies() == 8 && shelf.lines() == 8);
    assert!(rt; shelf.early.load(Ordering::SeqCst) == 0);
    // (the last is that of the keeper when it is given back)
    assert!(rt; shelf.flushes.load(Ordering::SeqCst) <= 3);
}

// Once the file takes nothing more, no further reply is sent, and the word is set.
#[test]
fn nothing_is_replied_once_keeping_has_failed(rt: HostRuntime) {
    let alloc = rt.alloc();
    let bank = Bank::new(alloc).expect(&rt, "a bank");
    let shelf = Shelf::new(&rt, alloc);
    let outcome = outcome_of(
        &rt,
        alloc,
        bank,
        &shelf,
        8,
        Sent::Ticks(60),
        Stop::behind(5),
        0,
    );
    assert!(rt; outcome.has_failed && !outcome.is_whole);
    assert!(rt; outcome.entries > shelf.lines());
    assert!(rt; shelf.replies() > 0 && shelf.replies() <= shelf.lines());
    assert!(rt; outcome.covered > 0 && outcome.covered <= shelf.lines());
    assert!(rt; shelf.early.load(Ordering::SeqCst) == 0);
}

// A keeper whose writer fails at once tells nobody that anything is kept, now and later.
#[test]
fn a_keeper_that_has_failed_goes_on_failing(rt: HostRuntime) {
    let alloc = rt.alloc();
    let bank = Bank::new(alloc).expect(&rt, "a bank");
    let shelf = Shelf::new(&rt, alloc);
    let outcome = outcome_of(
        &rt,
        alloc,
        bank,
        &shelf,
        8,
        Sent::Ticks(3),
        Stop::behind(0),
        0,
    );
    assert!(rt; outcome.has_failed && !outcome.is_whole);
    assert!(rt; shelf.replies() == 0 && shelf.lines() == 0 && outcome.covered == 0);
}

// Four sessions over a file that stops: whatever a crash may leave of it has all entries of which they were told, and
// those that the receipts are for that they hold.
fn keeps_what_was_told<Rt: Threads + Wait + SystemClock + Abort + Sync>(
    rt: &Rt,
    alloc: Global,
    sent: Sent,
    stop: Stop,
    step: usize,
) -> Outcome
    requires { 0 < step }
{
    let bank = Bank::new(alloc).expect(rt, "a bank");
    let shelf = Shelf::new(rt, alloc);
    let outcome = outcome_of(rt, alloc, bank, &shelf, 4, sent, stop, 0);
    let told = shelf.told.load(Ordering::SeqCst);
    assert!(rt; shelf.early.load(Ordering::SeqCst) == 0);
    assert!(rt; told <= outcome.covered && outcome.settled <= outcome.text.len());
    for cut in (outcome.settled..=outcome.text.len()).step_by(step) {
        let bank = Bank::new(alloc).expect(rt, "a bank");
        let text = outcome.text.as_slice().get(..cut).expect(rt, "a part");
        let left = entries_left(rt, alloc, bank, text);
        assert!(rt; left >= outcome.covered);
    }
    outcome
}

// A file that stops at each of its writes, with nothing and with a part of it taken.
#[test]
fn sessions_resume_behind_each_write(rt: HostRuntime) {
    let alloc = rt.alloc();
    for writes in 0..26u64 {
        for part in 0..3usize {
            let stop = Stop {
                writes,
                part: part * 11,
                flushes: u64::MAX,
            };
            let _ = keeps_what_was_told(&rt, alloc, Sent::Ticks(6), stop, 1);
        }
    }
}

// A file that stops at each of its flushes.
#[test]
fn sessions_resume_behind_each_flush(rt: HostRuntime) {
    let alloc = rt.alloc();
    for flushes in 0..26u64 {
        let stop = Stop {
            writes: u64::MAX,
            part: 0,
            flushes,
        };
        let _ = keeps_what_was_told(&rt, alloc, Sent::Ticks(6), stop, 1);
    }
}

// A day of 200 lines, of schedules, reports, requests and lines that are refused or bad, over a file that stops at each of
// its writes and flushes until there are no more of them: 160 of the lines make an entry.
#[test]
fn a_day_is_resumed_behind_each_write(rt: HostRuntime) {
    let alloc = rt.alloc();
    let mut is_whole = false;
    for writes in 0..200u64 {
        let stop = Stop {
            writes,
            part: 100,
            flushes: u64::MAX,
        };
        let outcome = keeps_what_was_told(&rt, alloc, Sent::Day(10), stop, 7);
        assert!(rt; outcome.entries <= 160);
        if outcome.is_whole {
            assert!(rt; outcome.entries == 160);
            let bank = Bank::new(alloc).expect(&rt, "a bank");
            is_journal(&rt, alloc, bank, outcome.text.as_slice(), 160);
            is_whole = true;
            break;
        }
    }
    assert!(rt; is_whole);
}

#[test]
fn a_day_is_resumed_behind_each_flush(rt: HostRuntime) {
    let alloc = rt.alloc();
    let mut is_whole = false;
    for flushes in 0..200u64 {
        let stop = Stop {
            writes: u64::MAX,
            part: 0,
            flushes,
        };
        let outcome = keeps_what_was_told(&rt, alloc, Sent::Day(10), stop, 7);
        if outcome.is_whole {
            assert!(rt; outcome.entries == 160);
            is_whole = true;
            break;
        }
    }
    assert!(rt; is_whole);
}
