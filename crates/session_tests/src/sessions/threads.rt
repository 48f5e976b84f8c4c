//! Sessions on threads of their own, over one desk.
mod alone;

ghost use Rattle.std.specs.Prelude.{◌≡◌};
ghost use Rattle.std.specs.List.{All};
ghost use Rattle.acdm_board.specs.Desk.{row_of};

use crate::sessions::replies_of;
use acdm_board::Desk;
use acdm_milestones::Role;
use acdm_record::Field;
use acdm_row::{Pass, Row};
use acdm_sessions::{
    Answer, Clock, Closed, End, EndedSession, Gate, ReplyWriter, Session, Sink, Source,
    run_sessions,
};
use acdm_step::Outcome;
use acdm_watch::{Meet, Watch, Watched};
use bpf_helpers::{Bank, Helpers};
use std::alloc::Global;
use std::io::{self, Cursor, Read, Write};
use std::process::Abort;
use std::sync::atomic::{AtomicU64, Ordering};
use std::sync::{Arc, Wait};
use std::thread::{Threads, yield_now};

// Minute 29000580 is 2025-02-20T07:00Z.
const START: &str =
    r#"1 29000580 APT {"cmd":"schedule","flight":7,"callsign":"DLH7","type":"A320","reg":"DAIBC","dest":"EDDM","sobt":"2025-02-20T10:00:00Z","mttt":40,"exit":5,"exot":10,"stand":12}
2 29000580 NM {"cmd":"report","flight":7,"milestone":1,"time":"2025-02-20T10:00:00Z","callsign":"DLH7","type":"A320","reg":"DAIBC","dest":"EDDM"}
"#;

const TARGET_AT_FIVE_PAST: &str =
    "{\"cmd\":\"report\",\"flight\":7,\"milestone\":9,\"time\":\"2025-02-20T10:05:00Z\"}\n";

const TARGET_AT_QUARTER_PAST: &str =
    "{\"cmd\":\"report\",\"flight\":7,\"milestone\":9,\"time\":\"2025-02-20T10:15:00Z\"}\n";

const TICK: &str = "{\"cmd\":\"tick\"}\n";

/// Tells one minute, always, or none.
#[derive(Drop)]
struct Fixed(Option<u32>);

impl Clock for Fixed {
    ghost use Rattle.std.specs.Prelude.{true};

    ghost gives = { λ _ _. true };

    fn minute(&mut self) -> Option<u32> {
        match self.0 {
            Some(minute) if minute > 0 => Some(minute),
            _ => None,
        }
    }
}

/// Holds nobody up.
#[derive(Drop)]
struct Open;

impl Gate for Open {
    fn enter(&self, _session: u8, _call: u64) {}

    fn answered(&self, _session: u8, _call: u64) {}
}

/// Holds nobody up. Counts the calls of one session and those that were answered, which are
/// numbered from 1 on; and the lines of which it is told, their bytes, and the codes of their answers together.
#[derive(Drop)]
struct Count {
    calls: AtomicU64,
    answers: AtomicU64,
    faults: AtomicU64,
    lines: AtomicU64,
    bytes: AtomicU64,
    codes: AtomicU64,
}

impl Count {
    fn new() -> Count {
        Count {
            calls: AtomicU64::new(0),
            answers: AtomicU64::new(0),
            faults: AtomicU64::new(0),
            lines: AtomicU64::new(0),
            bytes: AtomicU64::new(0),
            codes: AtomicU64::new(0),
        }
    }

    // Whether it was told of just these lines, whose answers have codes of this sum.
    fn was_told(&self, text: &str, codes: u64) -> bool {
        let mut lines = 0u64;
        let mut bytes = 0u64;
        for line in text.lines() {
            lines = lines.saturating_add(1);
            bytes = bytes.saturating_add(line.len() as u64);
        }
        self.lines.load(Ordering::SeqCst) == lines
            && self.bytes.load(Ordering::SeqCst) == bytes
            && self.codes.load(Ordering::SeqCst) == codes
    }

    // Whether there were so many calls, of which so many were answered.
    fn is(&self, calls: u64, answers: u64) -> bool {
        self.calls.load(Ordering::SeqCst) == calls
            && self.answers.load(Ordering::SeqCst) == answers
            && self.faults.load(Ordering::SeqCst) == 0
    }
}

// Adds one, and whether it is this number then.
fn counts_to(count: &AtomicU64, number: u64) -> bool {
    count.fetch_add(1, Ordering::SeqCst).wrapping_add(1) == number
}

// The code of an answer; 0 of an entry that was not refused.
fn code_of(answer: &Answer) -> u16 {
    match answer {
        Answer::Entered(reply) => match &reply.outcome {
            Outcome::Refused(refusal) => refusal.code(),
            _ => 0,
        },
        Answer::Rejected(bad) => bad.code(),
    }
}

impl Gate for Count {
    fn told(&self, _session: u8, line: &[u8], answer: &Answer) {
        self.lines.fetch_add(1, Ordering::SeqCst);
        self.bytes.fetch_add(line.len() as u64, Ordering::SeqCst);
        self.codes
            .fetch_add(u64::from(code_of(answer)), Ordering::SeqCst);
    }

    fn enter(&self, _session: u8, call: u64) {
        if !counts_to(&self.calls, call) {
            self.faults.fetch_add(1, Ordering::SeqCst);
        }
    }

    fn answered(&self, _session: u8, call: u64) {
        if self.calls.load(Ordering::SeqCst) != call {
            self.faults.fetch_add(1, Ordering::SeqCst);
        }
        if !counts_to(&self.answers, call) {
            self.faults.fetch_add(1, Ordering::SeqCst);
        }
    }
}

/// Holds the first calls of two sessions until both are there, and that of session 1 until session
/// 2 was answered.
#[derive(Drop)]
struct Meeting {
    first: Count,
    second: Count,
    // Whether session 1 may go on.
    freed: AtomicU64,
    // What was waited for in vain.
    missed: AtomicU64,
}

impl Meeting {
    fn new() -> Meeting {
        Meeting {
            first: Count::new(),
            second: Count::new(),
            freed: AtomicU64::new(0),
            missed: AtomicU64::new(0),
        }
    }

    fn free(&self) {
        self.freed.store(1, Ordering::SeqCst);
    }

    // Waits until the number is no more 0, for so many turns at most.
    fn wait_for(&self, number: &AtomicU64) {
        for _ in 0..10_000_000u64 {
            if number.load(Ordering::SeqCst) > 0 {
                return;
            }
            yield_now();
        }
        self.missed.fetch_add(1, Ordering::SeqCst);
    }

    // Whether each session made one call, of which so many of session 2 were answered, and nobody
    // waited in vain.
    fn was_met(&self, second_answers: u64) -> bool {
        self.first.is(1, 1)
            && self.second.is(1, second_answers)
            && self.missed.load(Ordering::SeqCst) == 0
    }
}

impl Gate for Meeting {
    fn enter(&self, session: u8, call: u64) {
        if session == 1 {
            self.first.enter(session, call);
            self.wait_for(&self.second.calls);
            self.wait_for(&self.freed);
        } else {
            self.second.enter(session, call);
            self.wait_for(&self.first.calls);
        }
    }

    fn answered(&self, session: u8, call: u64) {
        if session == 1 {
            self.first.answered(session, call);
        } else {
            self.second.answered(session, call);
            self.free();
        }
    }
}

/// Takes what is written. With a meeting, it takes nothing, and frees session 1 of it.
#[derive(Drop)]
struct Freeing<'a>(Option<&'a Meeting>);

impl Write for Freeing<'_> {
    fn write(&mut self, buf: &[u8]) -> io::Result<usize> {
        match self.0 {
            Some(meeting) => {
                meeting.free();
                Err(io::Error::from(io::ErrorKind::BrokenPipe))
            }
            None => Ok(buf.len()),
        }
    }

    fn flush(&mut self) -> io::Result<()> {
        Ok(())
    }
}

impl ReplyWriter for Freeing<'_> {
    ghost tells = { λ _ _. Unit {0} };

    fn announce(&mut self, _number: u64) {}
}

type Opened<W> = Session<Cursor<Vec<u8>>, W, Fixed>;

type Left = EndedSession<Cursor<Vec<u8>>, Vec<u8>, Fixed>;

type Stands<H, W> = Closed<H, Cursor<Vec<u8>>, W, Fixed>;

// A session that reads this text and writes to this writer, with a clock that tells this minute.
fn opened<W: ReplyWriter + Drop>(
    rt: &impl Abort,
    alloc: Global,
    role: Role,
    text: &str,
    minute: Option<u32>,
    writer: W,
) -> Opened<W> {
    let mut bytes = Vec::new(alloc);
    bytes
        .extend_from_slice(text.as_bytes())
        .expect(rt, "room for a text");
    Session {
        role,
        reader: Source::new(Cursor::new(bytes)),
        writer: Sink::new(writer),
        clock: Fixed(minute),
    }
}

// What a session was answered, after its number, calls and end.
fn told_of(rt: &impl Abort, alloc: Global, left: Left) -> String {
    let EndedSession {
        number,
        writer,
        calls,
        end,
        ..
    } = left;
    let replies = String::from_utf8(writer.into_inner())
        .ok()
        .expect(rt, "replies");
    format!(in alloc; "{number} {calls} {end:?}: {replies}").expect(rt, "a text")
}

// A flight is scheduled and planned.
fn begin<H: Helpers + Drop>(rt: &impl Abort, alloc: Global, desk: &mut Desk<H>) {
    let replies = replies_of(rt, alloc, &[START], desk);
    assert!(rt; replies.as_str() == "ok 0\nok 1\n");
}

// A desk for so many entries, on which a flight was scheduled and planned.
fn begun<H: Helpers + Drop>(
    rt: &impl Abort,
    alloc: Global,
    helpers: H,
    capacity: usize,
) -> Desk<H> {
    let mut desk = Desk::new(alloc, helpers, capacity).expect(rt, "a desk");
    begin(rt, alloc, &mut desk);
    desk
}

// What stands after these sessions.
fn closed_by<H: Helpers + Drop + Send, R, W, G: Gate + Sync, Rt: Threads + Wait + Abort + Sync>(
    rt: &Rt,
    alloc: Global,
    desk: Desk<H>,
    sessions: Vec<Session<R, W, Fixed>>,
    gate: &G,
) -> Closed<H, R, W, Fixed>
where
    R: Read + Drop + Send,
    W: ReplyWriter + Drop + Send,
    ensures { All (λ e. e.pass.row ≡ row_of result.desk) result.sessions.items }
{
    assert!(rt; sessions.len() <= 64);
    let Ok(closed) = run_sessions(rt, alloc, desk, sessions, gate) else {
        panic!(rt; "no memory for the sessions");
    };
    closed
}

// The session and the minute of an entry.
fn stamp_of<H: Helpers + Drop>(rt: &impl Abort, desk: &mut Desk<H>, number: u64) -> (u8, u32) {
    let row = Arc::try_clone(desk.row()).expect(rt, "the row");
    let entry = desk.entry(&row, number).expect(rt, "an entry");
    (entry.session, entry.moment)
}

// The TOBT of the flight.
fn target_of<H: Helpers + Drop>(rt: &impl Abort, desk: &Desk<H>) -> u64 {
    let flight = desk.core().record_of(7).expect(rt, "the flight");
    flight.get(Field::Tobt)
}

fn push<W: ReplyWriter + Drop>(rt: &impl Abort, sessions: &mut Vec<Opened<W>>, session: Opened<W>) {
    let is_pushed = sessions.push(session).is_ok();
    assert!(rt; is_pushed);
}

// Two sessions that set a target each.
fn both<W: ReplyWriter + Drop>(
    rt: &impl Abort,
    alloc: Global,
    writer: W,
    other_writer: W,
) -> Vec<Opened<W>> {
    let mut sessions = Vec::new(alloc);
    let role = Role::AircraftOperator;
    let minute = Some(29_000_590);
    let first = opened(rt, alloc, role, TARGET_AT_FIVE_PAST, minute, writer);
    push(rt, &mut sessions, first);
    let role = Role::GroundHandler;
    let minute = Some(29_000_585);
    let second = opened(
        rt,
        alloc,
        role,
        TARGET_AT_QUARTER_PAST,
        minute,
        other_writer,
    );
    push(rt, &mut sessions, second);
    sessions
}

// What the last of them was told.
fn last_of(rt: &impl Abort, alloc: Global, sessions: &mut Vec<Left>) -> String {
    let last = sessions.pop().expect(rt, "a session");
    told_of(rt, alloc, last)
}

// What stands after two sessions that meet.
fn both_meet<
    H: Helpers + Drop + Send,
    W: ReplyWriter + Drop + Send,
    Rt: Threads + Wait + Abort + Sync,
>(rt: &Rt, alloc: Global, helpers: H, gate: &Meeting, sessions: Vec<Opened<W>>) -> Stands<H, W>
    ensures { All (λ e. e.pass.row ≡ row_of result.desk) result.sessions.items }
{
    let desk = begun(rt, alloc, helpers, 10);
    closed_by(rt, alloc, desk, sessions, gate)
}

// Session 2 was answered first, and session 1 after it.
fn in_their_order<H: Helpers + Drop>(rt: &impl Abort, desk: &mut Desk<H>) -> bool {
    let third = stamp_of(rt, desk, 2);
    let fourth = stamp_of(rt, desk, 3);
    third == (2, 29_000_585) && fourth == (1, 29_000_590)
}

// Each was told of its entry.
fn are_told(rt: &impl Abort, alloc: Global, sessions: &mut Vec<Left>) {
    let second = last_of(rt, alloc, sessions);
    assert!(rt; second.as_str() == "2 1 End: ok 2\n");
    let first = last_of(rt, alloc, sessions);
    assert!(rt; first.as_str() == "1 1 End: ok 3\n");
}

// Both entries stand in the journal, and the later target on the board.
fn have_set<H: Helpers + Drop>(rt: &impl Abort, desk: &mut Desk<H>) {
    assert!(rt; desk.len() == 4);
    assert!(rt; in_their_order(rt, desk));
    assert!(rt; target_of(rt, desk) == 29_000_765);
}

fn meet<H: Helpers + Drop + Send, Rt: Threads + Wait + Abort + Sync>(
    rt: &Rt,
    alloc: Global,
    helpers: H,
) {
    let gate = Meeting::new();
    let sessions = both(rt, alloc, Vec::new(alloc), Vec::new(alloc));
    let mut closed = both_meet(rt, alloc, helpers, &gate, sessions);
    assert!(rt; gate.was_met(1));
    are_told(rt, alloc, &mut closed.sessions);
    have_set(rt, &mut closed.desk);
    drop(closed);
}

#[test]
fn two_sessions_call_one_desk(rt: HostRuntime) {
    let alloc = rt.alloc();
    meet(&rt, alloc, Bank::new(alloc).expect(&rt, "a bank"));
}

// One look of a watch without a pass, and whether it took an entry.
fn looks(rt: &impl Abort, watch: &mut Watch, row: &Row, wanted: bool)
    requires { row.now ≡ watch.old.row }
    ensures { watch.new.row ≡ watch.old.row }
{
    let took = watch.advance(row, None).expect(rt, "memory");
    assert!(rt; took == wanted);
}

// One look of a watch with a pass that has seen more.
fn follows(rt: &impl Abort, watch: &mut Watch, row: &Row, pass: &mut Pass)
    requires row { row.now ≡ watch.old.row }
    requires same { pass.old.row ≡ watch.old.row }
    ensures row { watch.new.row ≡ watch.old.row }
    ensures pass { pass.new ≡ pass.old }
{
    let took = watch.advance(row, Some(pass)).expect(rt, "memory");
    assert!(rt; took);
}

// A watch that looks until nothing is in sight shows all four entries, and has seen as much as the pass
// of session 2, which is three.
fn shows_all<H: Helpers + Drop>(rt: &impl Abort, desk: &Desk<H>, pass: &mut Pass)
    requires { pass.old.row ≡ row_of desk.now }
    ensures { pass.new ≡ pass.old }
{
    let row = Arc::try_clone(desk.row()).expect(rt, "the row");
    let mut watch = desk.row().watch().expect(rt, "a watch");
    looks(rt, &mut watch, &row, true);
    looks(rt, &mut watch, &row, true);
    looks(rt, &mut watch, &row, true);
    looks(rt, &mut watch, &row, true);
    looks(rt, &mut watch, &row, false);
    assert!(rt; watch.len() == 4);
    let flight = watch.board().record_of(7).expect(rt, "the flight");
    assert!(rt; flight.get(Field::Tobt) == 29_000_765);
    assert!(rt; watch.meet(pass) == 3);
}

// A new watch takes three entries by the pass of session 2.
fn shows_those<H: Helpers + Drop>(rt: &impl Abort, desk: &Desk<H>, pass: &mut Pass)
    requires { pass.old.row ≡ row_of desk.now }
{
    let row = Arc::try_clone(desk.row()).expect(rt, "the row");
    let mut watch = desk.row().watch().expect(rt, "a watch");
    follows(rt, &mut watch, &row, pass);
    follows(rt, &mut watch, &row, pass);
    follows(rt, &mut watch, &row, pass);
    assert!(rt; watch.len() == 3 && watch.meet(pass) == 3);
}

// The session that has ended last, with its pass.
fn last_pass<H: Helpers + Drop>(
    rt: &impl Abort,
    closed: &mut Stands<H, Vec<u8>>,
    number: u8,
) -> Pass
    requires { All (λ e. e.pass.row ≡ row_of closed.old.desk) closed.old.sessions.items }
    ensures { result.row ≡ row_of closed.new.desk }
{
    let Some(left) = closed.sessions.pop() else {
        panic!(rt; "no session");
    };
    assert!(rt; left.number == number && left.end() == End::End);
    let EndedSession { pass, .. } = left;
    pass
}

fn watches_meet<H: Helpers + Drop + Send, Rt: Threads + Wait + Abort + Sync>(
    rt: &Rt,
    alloc: Global,
    helpers: H,
) {
    let gate = Meeting::new();
    let sessions = both(rt, alloc, Vec::new(alloc), Vec::new(alloc));
    let mut closed = both_meet(rt, alloc, helpers, &gate, sessions);
    let mut pass = last_pass(rt, &mut closed, 2);
    shows_all(rt, &closed.desk, &mut pass);
    shows_those(rt, &closed.desk, &mut pass);
    drop(closed);
}

#[test]
fn watches_meet_the_pass_of_a_session(rt: HostRuntime) {
    let alloc = rt.alloc();
    watches_meet(&rt, alloc, Bank::new(alloc).expect(&rt, "a bank"));
}

// The writer of session 2 fails at its first write, and its entry stands all the same.
fn meet_in_part<H: Helpers + Drop + Send, Rt: Threads + Wait + Abort + Sync>(
    rt: &Rt,
    alloc: Global,
    helpers: H,
) {
    let gate = Meeting::new();
    let sessions = both(rt, alloc, Freeing(None), Freeing(Some(&gate)));
    let mut closed = both_meet(rt, alloc, helpers, &gate, sessions);
    assert!(rt; gate.was_met(0));
    assert!(rt; end_of(rt, &closed, 0) == (End::End, 1, 4));
    assert!(rt; end_of(rt, &closed, 1) == (End::Write, 1, 4));
    have_set(rt, &mut closed.desk);
    drop(closed);
}

#[test]
fn a_session_goes_on_where_another_one_fails(rt: HostRuntime) {
    let alloc = rt.alloc();
    meet_in_part(&rt, alloc, Bank::new(alloc).expect(&rt, "a bank"));
}

/// Fails at each read and write.
#[derive(Drop)]
struct Broken;

impl Read for Broken {
    fn read(&mut self, _buf: &mut [u8]) -> io::Result<usize> {
        Err(io::Error::from(io::ErrorKind::BrokenPipe))
    }
}

impl Write for Broken {
    fn write(&mut self, _buf: &[u8]) -> io::Result<usize> {
        Err(io::Error::from(io::ErrorKind::BrokenPipe))
    }

    fn flush(&mut self) -> io::Result<()> {
        Ok(())
    }
}

impl ReplyWriter for Broken {
    ghost tells = { λ _ _. Unit {0} };

    fn announce(&mut self, _number: u64) {}
}

// A session with this reader and writer.
fn session_over<R: Read + Drop, W: ReplyWriter + Drop>(
    rt: &impl Abort,
    alloc: Global,
    reader: R,
    writer: W,
) -> Vec<Session<R, W, Fixed>> {
    let mut sessions = Vec::new(alloc);
    let session = Session {
        role: Role::AirportOperator,
        reader: Source::new(reader),
        writer: Sink::new(writer),
        clock: Fixed(Some(29_000_590)),
    };
    let is_pushed = sessions.push(session).is_ok();
    assert!(rt; is_pushed);
    sessions
}

// What stands after sessions at an empty desk.
fn served<
    H: Helpers + Drop + Send,
    R: Read + Drop + Send,
    W: ReplyWriter + Drop + Send,
    Rt: Threads + Wait + Abort + Sync,
>(
    rt: &Rt,
    alloc: Global,
    helpers: H,
    sessions: Vec<Session<R, W, Fixed>>,
) -> Closed<H, R, W, Fixed> {
    let desk = Desk::new(alloc, helpers, 20_000).expect(rt, "a desk");
    closed_by(rt, alloc, desk, sessions, &Open)
}

// How the session at a place ended, its calls, and the journal's length.
fn end_of<H: Helpers + Drop, R: Read + Drop, W: ReplyWriter + Drop>(
    rt: &impl Abort,
    closed: &Closed<H, R, W, Fixed>,
    place: usize,
) -> (End, u64, u64) {
    let left = closed.sessions.get(place).expect(rt, "a session");
    (left.end, left.calls, closed.desk.len())
}

// How a session with this reader and writer ends, its calls, and the journal's length then.
fn ends_as<
    H: Helpers + Drop + Send,
    R: Read + Drop + Send,
    W: ReplyWriter + Drop + Send,
    Rt: Threads + Wait + Abort + Sync,
>(rt: &Rt, alloc: Global, helpers: H, reader: R, writer: W) -> (End, u64, u64) {
    let sessions = session_over(rt, alloc, reader, writer);
    let closed = served(rt, alloc, helpers, sessions);
    let end = end_of(rt, &closed, 0);
    drop(closed);
    end
}

#[test]
fn a_session_ends_with_its_reader_or_writer(rt: HostRuntime) {
    let alloc = rt.alloc();
    let bank = Bank::new(alloc).expect(&rt, "a bank");
    let read = ends_as(&rt, alloc, bank, Broken, Vec::new(alloc));
    assert!(rt; read == (End::Read, 0, 0));
    let bank = Bank::new(alloc).expect(&rt, "a bank");
    let write = ends_as(&rt, alloc, bank, TICK.as_bytes(), Broken);
    assert!(rt; write == (End::Write, 1, 1));
}

// So many ticks.
fn ticks(rt: &impl Abort, alloc: Global, count: usize) -> String {
    let mut text = String::new(alloc);
    for _ in 0..count {
        text.push_str(TICK).expect(rt, "room for a tick");
    }
    text
}

static ROLES: [Role; 6] = [
    Role::AirportOperator,
    Role::NetworkManager,
    Role::AirTrafficControl,
    Role::AircraftOperator,
    Role::GroundHandler,
    Role::DeicingCompany,
];

// The sessions of a full house, of each role in turn, with so many lines each. A tick that is
// refused is an entry too.
fn full_house(rt: &impl Abort, alloc: Global, lines: usize) -> Vec<Opened<Vec<u8>>> {
    let text = ticks(rt, alloc, lines);
    let mut sessions = Vec::new(alloc);
    for number in 0..64 {
        let role = ROLES[number % 6];
        let minute = Some(29_000_590);
        let session = opened(rt, alloc, role, text.as_str(), minute, Vec::new(alloc));
        push(rt, &mut sessions, session);
    }
    sessions
}

// Whether the entry of a number is a session's.
fn is_of<H: Helpers + Drop>(desk: &mut Desk<H>, number: u64, session: u8) -> bool {
    let Ok(row) = Arc::try_clone(desk.row()) else {
        return false;
    };
    match desk.entry(&row, number) {
        Some(entry) => entry.session == session,
        None => false,
    }
}

// How many entries a session made.
fn entries_of<H: Helpers + Drop>(desk: &mut Desk<H>, session: u8) -> usize {
    let mut count = 0usize;
    for number in 0..desk.len() {
        if is_of(desk, number, session) {
            count = count.saturating_add(1);
        }
    }
    count
}

// The session and the role of a pass, how many entries it made and how many it has seen.
fn told_by(pass: &Pass) -> (u8, Role, u64, u64) {
    let made = pass.own_len() as u64;
    let seen = pass.len() as u64;
    (pass.session(), pass.role(), made, seen)
}

// Whether a session is told by its pass as it is by its calls.
fn is_shown(left: &Left) -> bool {
    let (session, role, made, seen) = told_by(&left.pass);
    let is_same = session == left.number && role == left.role && made == left.calls;
    is_same && !left.torn && seen >= left.calls
}

// A session made 200 entries, and each of these stands in the journal.
fn stands<H: Helpers + Drop>(rt: &impl Abort, desk: &mut Desk<H>, left: &Left) {
    assert!(rt; left.end == End::End);
    assert!(rt; left.calls == 200);
    assert!(rt; entries_of(desk, left.number) == 200);
    assert!(rt; is_shown(left));
}

// Each of 64 sessions did.
fn all_stand<H: Helpers + Drop>(rt: &impl Abort, closed: &mut Stands<H, Vec<u8>>) {
    assert!(rt; closed.desk.len() == 12_800 && closed.sessions.len() == 64);
    for left in &closed.sessions {
        stands(rt, &mut closed.desk, left);
    }
}

fn serves_all<H: Helpers + Drop + Send, Rt: Threads + Wait + Abort + Sync>(
    rt: &Rt,
    alloc: Global,
    helpers: H,
) {
    let sessions = full_house(rt, alloc, 200);
    let mut closed = served(rt, alloc, helpers, sessions);
    all_stand(rt, &mut closed);
    drop(closed);
}

#[test]
fn as_many_sessions_as_there_may_be(rt: HostRuntime) {
    let alloc = rt.alloc();
    serves_all(&rt, alloc, Bank::new(alloc).expect(&rt, "a bank"));
}
