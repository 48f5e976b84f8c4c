//! Readers and writers that fail, at each place in turn.
use crate::sessions::replies_of;
use acdm_board::Desk;
use acdm_lines::Lines;
use acdm_milestones::Role;
use acdm_sessions::{
    Clock, Closed, End, EndedSession, Gate, ReplyWriter, RunError, Session, Sink, Source, run,
    run_sessions,
};
use bpf_helpers::{Bank, Helpers};
use faulty_streams::{Fault, Faulty, Narrow};
use std::alloc::Global;
use std::io::{self, Read, Write};
use std::process::Abort;
use std::sync::atomic::{AtomicU64, Ordering};
use std::sync::{Arc, Wait};
use std::thread::{Threads, yield_now};

// Minute 29000580 is 2025-02-20T07:00Z. The first line has 175 bytes with its line feed, the second
// has 146.
const START: &str =
    r#"1 29000580 APT {"cmd":"schedule","flight":7,"callsign":"DLH7","type":"A320","reg":"DAIBC","dest":"EDDM","sobt":"2025-02-20T10:00:00Z","mttt":40,"exit":5,"exot":10,"stand":12}
2 29000580 NM {"cmd":"report","flight":7,"milestone":1,"time":"2025-02-20T10:00:00Z","callsign":"DLH7","type":"A320","reg":"DAIBC","dest":"EDDM"}
"#;

/// How a run ended, the faults of both its ends, what was written, and how many entries there are.
#[derive(Drop)]
struct Came {
    ended: Result<(), RunError>,
    faults: (u64, u64),
    written: Vec<u8>,
    entries: u64,
}

fn came_of<H: Helpers + Drop>(
    alloc: Global,
    reader: Faulty<'_>,
    writer: Narrow,
    desk: &mut Desk<H>,
) -> Came {
    let mut reader = Source::new(reader);
    let mut writer = Sink::new(writer);
    let ended = run(alloc, &mut reader, &mut writer, desk);
    Came {
        ended,
        faults: (reader.faults(), writer.faults()),
        written: writer.into_inner().taken,
        entries: desk.len(),
    }
}

// What comes of a run at an empty desk without helpers.
fn run_at<H: Helpers + Drop>(
    rt: &impl Abort,
    alloc: Global,
    helpers: H,
    reader: Faulty<'_>,
    writer: Narrow,
) -> Came {
    let mut desk = Desk::new(alloc, helpers, 10).expect(rt, "a desk");
    let came = came_of(alloc, reader, writer, &mut desk);
    drop(desk);
    came
}

const READ: Result<(), RunError> = Err(RunError::Read);

const WRITE: Result<(), RunError> = Err(RunError::Write);

/// How many reads of so many bytes succeed, how many bytes there are in all, how the run ends, what was
/// written, and how many entries there are.
type ReadsRow = (u64, usize, usize, Result<(), RunError>, &'static str, u64);

static READS: [ReadsRow; 15] = [
    // The first line, and 20 bytes of the second, then a fault, or the end.
    (1, 195, 321, READ, "ok 0\n", 1),
    (2, 195, 195, Ok(()), "ok 0\nbad 101\n", 1),
    // A fault at each read of 60 bytes, and at the one that tells the end.
    (0, 60, 321, READ, "", 0),
    (1, 60, 321, READ, "", 0),
    (2, 60, 321, READ, "", 0),
    (3, 60, 321, READ, "ok 0\n", 1),
    (4, 60, 321, READ, "ok 0\n", 1),
    (5, 60, 321, READ, "ok 0\n", 1),
    (6, 60, 321, READ, "ok 0\nok 1\n", 2),
    (7, 60, 321, Ok(()), "ok 0\nok 1\n", 2),
    // The last line has no line feed.
    (6, 60, 320, READ, "ok 0\n", 1),
    (7, 60, 320, Ok(()), "ok 0\nok 1\n", 2),
    // One byte a read.
    (174, 1, 321, READ, "", 0),
    (175, 1, 321, READ, "ok 0\n", 1),
    (322, 1, 321, Ok(()), "ok 0\nok 1\n", 2),
];

// The run came so.
fn is_so(
    rt: &impl Abort,
    came: &Came,
    ended: Result<(), RunError>,
    written: &str,
    entries: u64,
    place: u64,
) {
    let read = ended == READ;
    let write = ended == WRITE;
    assert!(rt; came.ended == ended, "{place}: {written}");
    assert!(rt;
        came.faults == (u64::from(read), u64::from(write)),
        "{place}: {written}"
    );
    assert!(rt;
        came.written.as_slice() == written.as_bytes(),
        "{place}: {written}"
    );
    assert!(rt; came.entries == entries, "{place}: {written}");
}

fn reads_so(rt: &impl Abort, alloc: Global, row: &ReadsRow) {
    let (left, piece, bytes, ended, written, entries) = *row;
    let text = START.as_bytes();
    let reader = Faulty {
        text: &text[..bytes.min(text.len())],
        piece,
        left,
    };
    let writer = Narrow::new(alloc, 100, u64::MAX, Fault::Fails);
    let bank = Bank::new(alloc).expect(rt, "a bank");
    let came = run_at(rt, alloc, bank, reader, writer);
    is_so(rt, &came, ended, written, entries, left);
    drop(came);
}

#[test]
fn a_reader_may_fail_at_each_read(rt: HostRuntime) {
    for row in &READS {
        reads_so(&rt, rt.alloc(), row);
    }
}

/// How many writes of so many bytes succeed, what becomes of the next, how the run ends, what was
/// written, and how many entries there are.
type WritesRow = (u64, usize, Fault, Result<(), RunError>, &'static str, u64);

static WRITES: [WritesRow; 16] = [
    (1, 3, Fault::Fails, WRITE, "ok ", 1),
    (1, 3, Fault::TakesNone, WRITE, "ok ", 1),
    // At each write of two bytes.
    (0, 2, Fault::Fails, WRITE, "", 1),
    (1, 2, Fault::Fails, WRITE, "ok", 1),
    (2, 2, Fault::Fails, WRITE, "ok 0", 1),
    (3, 2, Fault::Fails, WRITE, "ok 0\n", 2),
    (4, 2, Fault::Fails, WRITE, "ok 0\nok", 2),
    (5, 2, Fault::Fails, WRITE, "ok 0\nok 1", 2),
    (6, 2, Fault::Fails, Ok(()), "ok 0\nok 1\n", 2),
    (0, 2, Fault::TakesNone, WRITE, "", 1),
    (3, 2, Fault::TakesNone, WRITE, "ok 0\n", 2),
    (5, 2, Fault::TakesNone, WRITE, "ok 0\nok 1", 2),
    (10, 1, Fault::Fails, Ok(()), "ok 0\nok 1\n", 2),
    // A flush of both replies, before the end is read.
    (1, 9, Fault::CannotFlush, WRITE, "ok 0\nok 1\n", 2),
    (2, 9, Fault::CannotFlush, WRITE, "ok 0\nok 1\n", 2),
    (3, 9, Fault::CannotFlush, Ok(()), "ok 0\nok 1\n", 2),
];

fn writes_so(rt: &impl Abort, alloc: Global, row: &WritesRow) {
    let (left, piece, fault, ended, written, entries) = *row;
    let reader = Faulty {
        text: START.as_bytes(),
        piece: 500,
        left: u64::MAX,
    };
    let writer = Narrow::new(alloc, piece, left, fault);
    let bank = Bank::new(alloc).expect(rt, "a bank");
    let came = run_at(rt, alloc, bank, reader, writer);
    is_so(rt, &came, ended, written, entries, left);
    drop(came);
}

#[test]
fn a_writer_may_fail_at_each_write(rt: HostRuntime) {
    for row in &WRITES {
        writes_so(&rt, rt.alloc(), row);
    }
}

// Three ticks of 15 bytes.
const TICKS: &str = "{\"cmd\":\"tick\"}\n{\"cmd\":\"tick\"}\n{\"cmd\":\"tick\"}\n";

/// Tells one minute, always.
#[derive(Drop)]
struct Fixed;

impl Clock for Fixed {
    ghost use Rattle.std.specs.Prelude.{true};

    ghost gives = { λ _ _. true };

    fn minute(&mut self) -> Option<u32> {
        Some(29_000_590)
    }
}

/// Holds nobody up.
#[derive(Drop)]
struct Open;

impl Gate for Open {
    fn enter(&self, _session: u8, _call: u64) {}

    fn answered(&self, _session: u8, _call: u64) {}
}

// A session that reads by this and writes by that.
fn session<R: Read + Drop, W: ReplyWriter + Drop>(
    role: Role,
    reader: R,
    writer: W,
) -> Session<R, W, Fixed> {
    Session {
        role,
        reader: Source::new(reader),
        writer: Sink::new(writer),
        clock: Fixed,
    }
}

// Two sessions.
fn both<R: Read + Drop, W: ReplyWriter + Drop>(
    rt: &impl Abort,
    alloc: Global,
    first: Session<R, W, Fixed>,
    second: Session<R, W, Fixed>,
) -> Vec<Session<R, W, Fixed>> {
    let mut sessions = Vec::new(alloc);
    assert!(rt; sessions.push(first).is_ok());
    assert!(rt; sessions.push(second).is_ok());
    sessions
}

// What stands after these sessions.
fn closed_by<
    H: Helpers + Drop + Send,
    R: Read + Drop + Send,
    W: ReplyWriter + Drop + Send,
    G: Gate + Sync,
    Rt: Threads + Wait + Abort + Sync,
>(
    rt: &Rt,
    alloc: Global,
    desk: Desk<H>,
    sessions: Vec<Session<R, W, Fixed>>,
    gate: &G,
) -> Closed<H, R, W, Fixed> {
    assert!(rt; sessions.len() <= 64);
    run_sessions(rt, alloc, desk, sessions, gate)
        .ok()
        .expect(rt, "memory for the sessions")
}

// How the session of this place ended, and its calls.
fn end_at<R: Read + Drop, W: ReplyWriter + Drop>(
    rt: &impl Abort,
    ended: &[EndedSession<R, W, Fixed>],
    place: usize,
) -> (End, u64) {
    let left = ended.get(place).expect(rt, "a session");
    (left.end, left.calls)
}

/// How many reads of ten bytes and how many writes of two succeed, what becomes of the next write, how the
/// session ends, and how many entries it made.
type SessionRow = (u64, u64, Fault, End, u64);

static SESSIONS: [SessionRow; 17] = [
    (0, 99, Fault::Fails, End::Read, 0),
    (1, 99, Fault::Fails, End::Read, 0),
    (2, 99, Fault::Fails, End::Read, 1),
    (3, 99, Fault::Fails, End::Read, 2),
    (4, 99, Fault::Fails, End::Read, 2),
    (5, 99, Fault::Fails, End::Read, 3),
    (6, 99, Fault::Fails, End::End, 3),
    (99, 0, Fault::Fails, End::Write, 1),
    (99, 1, Fault::Fails, End::Write, 1),
    (99, 2, Fault::TakesNone, End::Write, 1),
    (99, 3, Fault::TakesNone, End::Write, 2),
    (99, 5, Fault::Fails, End::Write, 2),
    (99, 6, Fault::Fails, End::Write, 3),
    (99, 8, Fault::Fails, End::Write, 3),
    (99, 9, Fault::Fails, End::End, 3),
    (99, 3, Fault::CannotFlush, End::Write, 1),
    (99, 6, Fault::CannotFlush, End::Write, 2),
];

// Ticks in reads of ten bytes.
fn ticking(left: u64) -> Faulty<'static> {
    Faulty {
        text: TICKS.as_bytes(),
        piece: 10,
        left,
    }
}

// The first session came so, and the second made its three entries.
fn ends_alone<H: Helpers + Drop + Send, Rt: Threads + Wait + Abort + Sync>(
    rt: &Rt,
    alloc: Global,
    helpers: H,
    row: &SessionRow,
) {
    let (reads, writes, fault, end, calls) = *row;
    let role = Role::AirportOperator;
    let first = session(role, ticking(reads), Narrow::new(alloc, 2, writes, fault));
    let second = session(role, ticking(99), Narrow::new(alloc, 2, 99, Fault::Fails));
    let sessions = both(rt, alloc, first, second);
    let desk = Desk::new(alloc, helpers, 10).expect(rt, "a desk");
    let closed = closed_by(rt, alloc, desk, sessions, &Open);
    assert!(rt;
        end_at(rt, closed.sessions.as_slice(), 0) == (end, calls),
        "{reads} {writes}"
    );
    assert!(rt;
        end_at(rt, closed.sessions.as_slice(), 1) == (End::End, 3),
        "{reads} {writes}"
    );
    assert!(rt;
        closed.desk.len() == calls.saturating_add(3),
        "{reads} {writes}"
    );
    drop(closed);
}

#[test]
fn a_session_with_a_fault_ends_alone(rt: HostRuntime) {
    let alloc = rt.alloc();
    for row in &SESSIONS {
        ends_alone(&rt, alloc, Bank::new(alloc).expect(&rt, "a bank"), row);
    }
}

/// Takes all, or fails at each write and tells of it.
#[derive(Drop)]
struct Telling {
    taken: Vec<u8>,
    told: Option<Arc<AtomicU64>>,
}

impl Write for Telling {
    fn write(&mut self, buf: &[u8]) -> io::Result<usize> {
        match &self.told {
            Some(told) => {
                told.fetch_add(1, Ordering::SeqCst);
                Err(io::Error::from(io::ErrorKind::BrokenPipe))
            }
            None => {
                self.taken.extend_from_slice(buf)?;
                Ok(buf.len())
            }
        }
    }

    fn flush(&mut self) -> io::Result<()> {
        Ok(())
    }
}

impl ReplyWriter for Telling {
    ghost tells = { λ _ _. Unit {0} };

    fn announce(&mut self, _number: u64) {}
}

/// Holds the first calls of two sessions until both are there, and that of session 1 until session
/// 2's writer has failed.
#[derive(Drop)]
struct Meeting {
    first: AtomicU64,
    second: AtomicU64,
    failed: Arc<AtomicU64>,
    late: AtomicU64,
}

impl Meeting {
    // Waits until the number is no more 0, for so many turns at most.
    fn wait_for(&self, number: &AtomicU64) {
        for _ in 0..10_000_000u64 {
            if number.load(Ordering::SeqCst) > 0 {
                return;
            }
            yield_now();
        }
        self.late.fetch_add(1, Ordering::SeqCst);
    }
}

impl Gate for Meeting {
    fn enter(&self, session: u8, _call: u64) {
        if session == 1 {
            self.first.fetch_add(1, Ordering::SeqCst);
            self.wait_for(&self.second);
            self.wait_for(&self.failed);
        } else {
            self.second.fetch_add(1, Ordering::SeqCst);
            self.wait_for(&self.first);
        }
    }

    fn answered(&self, _session: u8, _call: u64) {}
}

const TARGET_AT_FIVE_PAST: &str =
    "{\"cmd\":\"report\",\"flight\":7,\"milestone\":9,\"time\":\"2025-02-20T10:05:00Z\"}\n";

const TARGET_AT_QUARTER_PAST: &str =
    "{\"cmd\":\"report\",\"flight\":7,\"milestone\":9,\"time\":\"2025-02-20T10:15:00Z\"}\n";

// The two sessions that meet, of which the second can't be written to.
fn both_meeting(
    rt: &impl Abort,
    alloc: Global,
    failed: Arc<AtomicU64>,
) -> Vec<Session<&'static [u8], Telling, Fixed>> {
    let takes = Telling {
        taken: Vec::new(alloc),
        told: None,
    };
    let fails = Telling {
        taken: Vec::new(alloc),
        told: Some(failed),
    };
    let first = TARGET_AT_FIVE_PAST.as_bytes();
    let second = TARGET_AT_QUARTER_PAST.as_bytes();
    both(
        rt,
        alloc,
        session(Role::AircraftOperator, first, takes),
        session(Role::GroundHandler, second, fails),
    )
}

// The gate, at which nobody is yet.
fn gate(rt: &impl Abort, failed: &Arc<AtomicU64>) -> Meeting {
    Meeting {
        first: AtomicU64::new(0),
        second: AtomicU64::new(0),
        failed: Arc::try_clone(failed).expect(rt, "the word"),
        late: AtomicU64::new(0),
    }
}

// What the first session was told.
fn first_told<R: Read + Drop>(
    rt: &impl Abort,
    sessions: Vec<EndedSession<R, Telling, Fixed>>,
) -> Vec<u8> {
    for ended in sessions {
        let EndedSession { writer, .. } = ended;
        return writer.into_inner().taken;
    }
    panic!(rt; "no session");
}

// Each session came once, the second ended by its writer, and all that was entered stands.
fn meet<H: Helpers + Drop + Send, Rt: Threads + Wait + Abort + Sync>(
    rt: &Rt,
    alloc: Global,
    helpers: H,
) {
    let mut desk = Desk::new(alloc, helpers, 10).expect(rt, "a desk");
    let begun = replies_of(rt, alloc, &[START], &mut desk);
    assert!(rt; begun.as_str() == "ok 0\nok 1\n");
    let failed = Arc::new(alloc, AtomicU64::new(0)).ok().expect(rt, "a word");
    let gate = gate(rt, &failed);
    let sessions = both_meeting(rt, alloc, failed);
    let closed = closed_by(rt, alloc, desk, sessions, &gate);
    assert!(rt; gate.first.load(Ordering::SeqCst) == 1 && gate.second.load(Ordering::SeqCst) == 1);
    assert!(rt; gate.late.load(Ordering::SeqCst) == 0);
    assert!(rt; end_at(rt, closed.sessions.as_slice(), 0) == (End::End, 1));
    assert!(rt; end_at(rt, closed.sessions.as_slice(), 1) == (End::Write, 1));
    assert!(rt; closed.desk.len() == 4);
    assert!(rt; first_told(rt, closed.sessions).as_slice() == b"ok 3\n".as_slice());
}

#[test]
fn a_write_that_fails_lets_the_other_session_go_on(rt: HostRuntime) {
    let alloc = rt.alloc();
    meet(&rt, alloc, Bank::new(alloc).expect(&rt, "a bank"));
}

/// Gives one byte a read, for ever.
#[derive(Drop)]
struct Endless {
    reads: u64,
}

impl Read for Endless {
    fn read(&mut self, buf: &mut [u8]) -> io::Result<usize> {
        self.reads = self.reads.wrapping_add(1);
        if buf.is_empty() {
            return Ok(0);
        }
        buf[0] = b'x';
        Ok(1)
    }
}

#[test]
fn a_reader_without_end_stops_after_the_reads_that_are_left(rt: HostRuntime) {
    let mut lines = Lines::<10>::new(rt.alloc()).expect(&rt, "memory");
    assert!(rt; lines.reads_left == 1 << 40);
    lines.reads_left = 1_000;
    let mut reader = Source::new(Endless { reads: 0 });
    assert!(rt; lines.next(&mut reader) == Err(RunError::Read));
    assert!(rt; reader.faults() == 0 && lines.reads_left == 0);
    assert!(rt; lines.line.as_slice() == b"xxxxxxxxxx".as_slice());
    let Endless { reads } = reader.into_inner();
    assert!(rt; reads == 1_000);
}

#[test]
fn a_line_that_is_held_takes_no_read(rt: HostRuntime) {
    let mut lines = Lines::<10>::new(rt.alloc()).expect(&rt, "memory");
    lines.reads_left = 1;
    let mut reader = Source::new(b"a\nb\nc".as_slice());
    assert!(rt; lines.next(&mut reader).is_ok());
    assert!(rt; lines.next(&mut reader).is_ok());
    assert!(rt; lines.next(&mut reader) == Err(RunError::Read));
    assert!(rt; reader.faults() == 0);
}
