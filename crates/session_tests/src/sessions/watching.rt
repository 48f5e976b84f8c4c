//! Watches that look at the row of a desk while two sessions call it, held against the replay of
//! what they have seen.
ghost use Rattle.std.specs.Prelude.{◌≡◌};
ghost use Rattle.std.specs.Arc.{arc_value};

use crate::sessions::replies_of;
use acdm_board::Desk;
use acdm_milestones::Role;
use acdm_row::Row;
use acdm_sessions::{Clock, Closed, End, EndedSession, Gate, Session, Sink, Source, run_sessions};
use acdm_step::{Core, Entry};
use acdm_watch::Watch;
use bpf_helpers::{Bank, Helpers, Logged};
use std::alloc::Global;
use std::io::Cursor;
use std::process::Abort;
use std::sync::atomic::{AtomicU64, Ordering};
use std::sync::{Arc, Wait};
use std::thread::{Threads, yield_now};

// Minute 29000580 is 2025-02-20T07:00Z. Flight 8 is not planned.
const START: &str =
    r#"1 29000580 APT {"cmd":"schedule","flight":7,"callsign":"DLH7","type":"A320","reg":"DAIBC","dest":"EDDM","sobt":"2025-02-20T10:00:00Z","mttt":40,"exit":5,"exot":10,"stand":12}
2 29000580 NM {"cmd":"report","flight":7,"milestone":1,"time":"2025-02-20T10:00:00Z","callsign":"DLH7","type":"A320","reg":"DAIBC","dest":"EDDM"}
1 29000580 APT {"cmd":"schedule","flight":8,"callsign":"DLH8","type":"A320","reg":"DAIBD","dest":"EDDF","sobt":"2025-02-20T11:00:00Z","mttt":40,"exit":5,"exot":10,"stand":14}
"#;

// A target is set, and taken back.
const TARGETS: &str =
    "{\"cmd\":\"report\",\"flight\":7,\"milestone\":9,\"time\":\"2025-02-20T10:05:00Z\"}\n{\"cmd\":\"report\",\"flight\":7,\"milestone\":9,\"time\":null}\n";

// The program of a target is taken out, which is refused the first time, and put back. It sets an
// alert.
const PROGRAMS: &str =
    "{\"cmd\":\"unload\",\"milestone\":9,\"kind\":\"alert\"}\n{\"cmd\":\"tick\"}\n{\"cmd\":\"load\",\"milestone\":9,\"kind\":\"alert\",\"program\":\"b7000000020000009500000000000000\"}\n";

// How many entries the desk has before the sessions begin.
const OPENING: u64 = 3;

// How often each session sends its lines.
const ROUNDS: u64 = 60;

/// Tells 2025-02-20T10:00Z, after its watch has taken what is in sight.
#[derive(Drop)]
struct Looking {
    watch: Watch,
    row: Arc<Row>,
    looks: u64,
    // How many entries the second look took.
    second: u64,
    ghost of_row: { watch.row ≡ arc_value row },
}

impl Looking {
    // Takes what is in sight, and says how many entries that were.
    fn look(&mut self) -> u64 {
        let mut count = 0u64;
        for _ in 0..1_000 {
            match self.watch.advance(&self.row, None) {
                Ok(true) => count = count.saturating_add(1),
                _ => break,
            }
        }
        count
    }
}

impl Clock for Looking {
    ghost use Rattle.std.specs.Prelude.{true};

    ghost gives = { λ _ _. true };

    fn minute(&mut self) -> Option<u32> {
        let taken = self.look();
        self.looks = self.looks.saturating_add(1);
        if self.looks == 2 {
            self.second = taken;
        }
        Some(29_000_760)
    }
}

/// Holds the first call of session 1 until session 2 is at its own, and that one until session 1
/// is at its second, before which its watch has looked.
#[derive(Drop)]
struct Beside {
    // At which call each session is.
    first: AtomicU64,
    second: AtomicU64,
    // What was waited for in vain.
    missed: AtomicU64,
}

impl Beside {
    fn new() -> Beside {
        Beside {
            first: AtomicU64::new(0),
            second: AtomicU64::new(0),
            missed: AtomicU64::new(0),
        }
    }

    // Waits until a session is at this call, for so many turns at most.
    fn wait_for(&self, session: &AtomicU64, call: u64) {
        for _ in 0..10_000_000u64 {
            if session.load(Ordering::SeqCst) >= call {
                return;
            }
            yield_now();
        }
        self.missed.fetch_add(1, Ordering::SeqCst);
    }
}

impl Gate for Beside {
    fn enter(&self, session: u8, call: u64) {
        if session == 1 {
            self.first.store(call, Ordering::SeqCst);
            if call == 1 {
                self.wait_for(&self.second, 1);
            }
        } else {
            self.second.store(call, Ordering::SeqCst);
            if call == 1 {
                self.wait_for(&self.first, 2);
            }
        }
    }

    fn answered(&self, _session: u8, _call: u64) {}
}

type Opened = Session<Cursor<Vec<u8>>, Vec<u8>, Looking>;

type Left = EndedSession<Cursor<Vec<u8>>, Vec<u8>, Looking>;

type Stands<H> = Closed<H, Cursor<Vec<u8>>, Vec<u8>, Looking>;

// A clock with a watch that has seen nothing.
fn clock_for<H: Helpers + Drop>(rt: &impl Abort, alloc: Global, desk: &Desk<H>) -> Looking {
    let row = Arc::try_clone(desk.row()).expect(rt, "the row");
    let watch = Watch::new(alloc, &row).expect(rt, "a watch");
    Looking {
        watch,
        row,
        looks: 0,
        second: 0,
    }
}

// A session that reads these lines in each round.
fn opened(rt: &impl Abort, alloc: Global, role: Role, lines: &str, clock: Looking) -> Opened {
    let mut bytes = Vec::new(alloc);
    for _ in 0..ROUNDS {
        bytes
            .extend_from_slice(lines.as_bytes())
            .expect(rt, "room for lines");
    }
    Session {
        role,
        reader: Source::new(Cursor::new(bytes)),
        writer: Sink::new(Vec::new(alloc)),
        clock,
    }
}

fn push(rt: &impl Abort, sessions: &mut Vec<Opened>, session: Opened) {
    let is_pushed = sessions.push(session).is_ok();
    assert!(rt; is_pushed);
}

// A session that sets and takes back a target, and one that takes out and puts back a program.
fn both<H: Helpers + Drop>(rt: &impl Abort, alloc: Global, desk: &Desk<H>) -> Vec<Opened> {
    let mut sessions = Vec::new(alloc);
    let clock = clock_for(rt, alloc, desk);
    let first = opened(rt, alloc, Role::GroundHandler, TARGETS, clock);
    push(rt, &mut sessions, first);
    let clock = clock_for(rt, alloc, desk);
    let second = opened(rt, alloc, Role::AirportOperator, PROGRAMS, clock);
    push(rt, &mut sessions, second);
    sessions
}

// A desk with two flights.
fn begun<H: Helpers + Drop>(rt: &impl Abort, alloc: Global, helpers: H) -> Desk<H> {
    let mut desk = Desk::new(alloc, helpers, 400).expect(rt, "a desk");
    let replies = replies_of(rt, alloc, &[START], &mut desk);
    assert!(rt; replies.as_str() == "ok 0\nok 1\nok 2\n");
    desk
}

fn closed_by<H: Helpers + Drop + Send, Rt: Threads + Wait + Abort + Sync>(
    rt: &Rt,
    alloc: Global,
    desk: Desk<H>,
    sessions: Vec<Opened>,
    gate: &Beside,
) -> Stands<H> {
    assert!(rt; sessions.len() <= 64);
    run_sessions(rt, alloc, desk, sessions, gate)
        .ok()
        .expect(rt, "memory for the sessions")
}

// What stands after both.
fn served<H: Helpers + Drop + Send, Rt: Threads + Wait + Abort + Sync>(
    rt: &Rt,
    alloc: Global,
    helpers: H,
    gate: &Beside,
) -> Stands<H> {
    let desk = begun(rt, alloc, helpers);
    let sessions = both(rt, alloc, &desk);
    closed_by(rt, alloc, desk, sessions, gate)
}

// Does to a board what an entry says. What comes of it is what the entry tells.
fn repeat(rt: &impl Abort, core: &mut Core, entry: &Entry) {
    let sigs = core.sigs().copy().expect(rt, "signatures");
    let mut oracle = Logged::new(&sigs, entry.answers.as_slice());
    let outcome = core
        .apply(&mut oracle, entry.role, entry.moment, &entry.command)
        .expect(rt, "an outcome");
    assert!(rt; outcome.verdict() == entry.verdict);
}

// The same of the entry of a number.
fn repeat_at<H: Helpers + Drop>(rt: &impl Abort, desk: &mut Desk<H>, core: &mut Core, number: u64) {
    let row = Arc::try_clone(desk.row()).expect(rt, "the row");
    let entry = desk.entry(&row, number).expect(rt, "an entry");
    repeat(rt, core, entry);
}

// The board of no entry.
fn fresh<H: Helpers + Drop>(rt: &impl Abort, alloc: Global, desk: &Desk<H>) -> Core {
    let sigs = desk.sigs().copy().expect(rt, "signatures");
    Core::new(alloc, sigs).expect(rt, "a board")
}

// The board of the first so many entries.
fn replayed<H: Helpers + Drop>(
    rt: &impl Abort,
    alloc: Global,
    desk: &mut Desk<H>,
    entries: u64,
) -> Core {
    let mut core = fresh(rt, alloc, desk);
    for number in 0..entries {
        repeat_at(rt, desk, &mut core, number);
    }
    core
}

// Both boards have this flight, with the same record.
fn have_same(rt: &impl Abort, one: &Core, other: &Core, flight: u64) {
    let record = one.record_of(flight).expect(rt, "a flight");
    let same = other.record_of(flight).expect(rt, "the same flight");
    assert!(rt; record.bytes() == same.bytes(), "{flight}");
}

// Both boards have the two flights and no third, with the same records.
fn are_same(rt: &impl Abort, one: &Core, other: &Core) {
    have_same(rt, one, other, 7);
    have_same(rt, one, other, 8);
    assert!(rt; one.record_of(9).is_none() && other.record_of(9).is_none());
}

// The board of a watch is that of the entries that it has seen.
fn is_replay<H: Helpers + Drop>(rt: &impl Abort, alloc: Global, desk: &mut Desk<H>, watch: &Watch) {
    let core = replayed(rt, alloc, desk, watch.len() as u64);
    are_same(rt, watch.board(), &core);
    drop(core);
}

// A watch that looks on until nothing is in sight has the board of the desk.
fn catches_up<H: Helpers + Drop>(rt: &impl Abort, desk: &Desk<H>, clock: &mut Looking) {
    let before = clock.watch.len() as u64;
    let taken = clock.look();
    assert!(rt; taken > 0 && before.checked_add(taken) == Some(desk.len()));
    assert!(rt; clock.look() == 0 && clock.watch.len() as u64 == desk.len());
    are_same(rt, clock.watch.board(), desk.core());
}

// A session sent so many lines. Its watch looked before each, and had seen the entry of the last
// but one when it looked before the last.
fn has_looked(rt: &impl Abort, left: &Left, lines: u64) {
    assert!(rt; left.end == End::End && left.calls == lines);
    assert!(rt; left.clock.looks == lines);
    let least = lines.saturating_add(OPENING).saturating_sub(1);
    assert!(rt; left.clock.watch.len() as u64 >= least);
}

// The last of the sessions has sent so many lines, and its watch is held against the replay.
fn last_is_held<H: Helpers + Drop>(
    rt: &impl Abort,
    alloc: Global,
    closed: &mut Stands<H>,
    lines: u64,
) {
    let mut left = closed.sessions.pop().expect(rt, "a session");
    has_looked(rt, &left, lines);
    is_replay(rt, alloc, &mut closed.desk, &left.clock.watch);
    catches_up(rt, &closed.desk, &mut left.clock);
    drop(left);
}

// The second look of session 1 took the entry of its first call, while session 2 was held in its
// own.
fn looked_beside<H: Helpers + Drop>(rt: &impl Abort, closed: &Stands<H>, gate: &Beside) {
    assert!(rt; gate.missed.load(Ordering::SeqCst) == 0);
    let first = closed.sessions.get(0).expect(rt, "session 1");
    assert!(rt; first.number == 1 && first.clock.second == 1);
}

fn look_on<H: Helpers + Drop + Send, Rt: Threads + Wait + Abort + Sync>(
    rt: &Rt,
    alloc: Global,
    helpers: H,
) {
    let gate = Beside::new();
    let mut closed = served(rt, alloc, helpers, &gate);
    assert!(rt; closed.desk.len() == OPENING + 5 * ROUNDS);
    looked_beside(rt, &closed, &gate);
    last_is_held(rt, alloc, &mut closed, 3 * ROUNDS);
    last_is_held(rt, alloc, &mut closed, 2 * ROUNDS);
    drop(closed);
}

#[test]
fn watches_look_on_while_sessions_run(rt: HostRuntime) {
    let alloc = rt.alloc();
    look_on(&rt, alloc, Bank::new(alloc).expect(&rt, "a bank"));
}
