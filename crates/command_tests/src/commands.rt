//! Command lines, and the statuses and lines of the commands.
mod audit;
mod causes;
mod displays;
mod explain;
mod files;
mod serve;
mod tables;
mod tell;
mod unreliable;

use acdm_board::Desk;
use acdm_commands::{Appends, Cause, Context, Failure, Paths, Setup, complete, run_on, verify_on};
use acdm_sessions::{Sink, Source, run};
use acdm_tables::Tables;
use bpf_helpers::{Bank, Helpers};
use bpf_regstate::Length;
use std::alloc::Global;
use std::fs::{File, Files};
use std::io::{self, Eprint, Read, Write};
use std::net::{Net, TcpListener, TcpStream};
use std::process::Abort;
use std::sync::Wait;
use std::thread::Threads;
use std::time::Clock;

// At 2025-02-20T07:00Z the airport schedules flight 7, and the network manager activates its flight
// plan.
const SCHEDULE: &str =
    r#"1 29000580 APT {"cmd":"schedule","flight":7,"callsign":"DLH7","type":"A320","reg":"DAIBC","dest":"EDDM","sobt":"2025-02-20T10:00:00Z","mttt":40,"exit":5,"exot":10,"stand":12}
"#;

const FLIGHT_PLAN: &str =
    r#"2 29000580 NM {"cmd":"report","flight":7,"milestone":1,"time":"2025-02-20T10:00:00Z","callsign":"DLH7","type":"A320","reg":"DAIBC","dest":"EDDM"}
"#;

/// Fails at each read and write.
#[derive(Drop)]
pub(crate) struct Broken;

impl Read for Broken {
    fn read(&mut self, _buf: &mut [u8]) -> io::Result<usize> {
        Err(io::Error::from(io::ErrorKind::BrokenPipe))
    }
}

impl Write for Broken {
    fn write(&mut self, _buf: &[u8]) -> io::Result<usize> {
        Err(io::Error::from(io::ErrorKind::BrokenPipe))
    }

    fn flush(&mut self) -> io::Result<()> {
        Ok(())
    }
}

// The tables that are built in.
pub(crate) fn built_in(rt: &impl Abort, alloc: Global) -> Tables {
    Tables::built_in(alloc).expect(rt, "tables")
}

// A board with room for ten entries, by those tables.
pub(crate) fn ten_entries(rt: &impl Abort, alloc: Global) -> Setup {
    Setup {
        tables: built_in(rt, alloc),
        capacity: 10,
    }
}

// A run from this reader to this writer, with room for ten entries, ends with this status and
// complaint.
fn run_ends<R: Read + Drop, W: Write + Drop>(
    rt: &impl Abort,
    alloc: Global,
    reader: R,
    writer: W,
    expected: (u8, &str),
) {
    let mut errors = Sink::new(Vec::new(alloc));
    let mut reader = Source::new(reader);
    let mut writer = Sink::new(writer);
    let status = run_on(
        alloc,
        ten_entries(rt, alloc),
        &mut reader,
        &mut writer,
        &mut no_file(),
        &mut errors,
    );
    let (wanted, complaint) = expected;
    assert!(rt; status == wanted);
    assert!(rt; errors.into_inner().as_slice() == complaint.as_bytes());
}

#[test]
fn a_run_ends_with_its_status(rt: HostRuntime) {
    let alloc = rt.alloc();
    runs_to(&rt, alloc, SCHEDULE, "ok 0\n");
    let replies = Vec::new(alloc);
    run_ends(&rt, alloc, Broken, replies, (2, "acdm: read failed\n"));
    let lines = SCHEDULE.as_bytes();
    run_ends(&rt, alloc, lines, Broken, (2, "acdm: write failed\n"));
}

// Each failure, and the line that tells it.
static FAILURES: [(Failure, &str); 17] = [
    (Failure::Read, "acdm: read failed\n"),
    (Failure::Write, "acdm: write failed\n"),
    (Failure::Untold, "acdm: write failed\n"),
    (Failure::Save, "acdm: save failed\n"),
    (Failure::Memory, "acdm: no memory\n"),
    (Failure::Role(1), "acdm: role 1\n"),
    (Failure::Address(64), "acdm: address 64\n"),
    (Failure::Accept(12), "acdm: accept 12\n"),
    (Failure::Watch, "acdm: watch address\n"),
    (Failure::Control, "acdm: control address\n"),
    (Failure::Follow, "acdm: follow address\n"),
    (Failure::Peer, "acdm: peer address\n"),
    (Failure::Log, "acdm: log file\n"),
    (Failure::Keep, "acdm: keep failed\n"),
    (Failure::InUse, "acdm: the kept journal is in use\n"),
    (
        Failure::Room,
        "acdm: the kept journal needs a larger --journal\n",
    ),
    (Failure::Replaced, "acdm: another board has taken over\n"),
];

fn complains(rt: &impl Abort, alloc: Global, failure: Failure, line: &str) {
    let mut errors = Sink::new(Vec::new(alloc));
    assert!(rt; failure.complain(&mut errors) == 2, "{line}");
    assert!(rt; errors.into_inner().as_slice() == line.as_bytes(), "{line}");
}

#[test]
fn each_failure_has_its_line(rt: HostRuntime) {
    for (failure, line) in &FAILURES {
        complains(&rt, rt.alloc(), *failure, *line);
    }
}

// No journal is to be saved.
fn no_file() -> Option<Sink<Broken>> {
    None
}

// The status of a command line over this reader and these writers.
fn status_of<
    Rt: Files<File = File>
        + Paths
        + Appends
        + Net<Listener = TcpListener, Stream = TcpStream>
        + Clock
        + Eprint
        + Threads
        + Wait
        + Clone
        + Drop
        + Send
        + Sync
        + 'static,
    R: Read + Drop,
    W: Write + Drop,
    E: Write + Drop,
>(alloc: Global, rt: &Rt, words: &[&str], input: R, output: W, errors: E) -> u8 {
    let mut input = Source::new(input);
    let mut output = Sink::new(output);
    let mut errors = Sink::new(errors);
    let why = Cause::new();
    let context = Context { rt, alloc, why };
    complete(&context, words, &mut input, &mut output, &mut errors)
}

const TICK: &str = "1 29000580 APT {\"cmd\":\"tick\"}\n";

// What the program writes and answers for these words and this input.
pub(crate) fn completes<
    Rt: Files<File = File>
        + Paths
        + Appends
        + Net<Listener = TcpListener, Stream = TcpStream>
        + Clock
        + Eprint
        + Threads
        + Wait
        + Abort
        + Clone
        + Drop
        + Send
        + Sync
        + 'static,
>(rt: &Rt, alloc: Global, words: &[&str], input: &str, expected: (u8, &str, &str)) {
    let mut output = Vec::new(alloc);
    let mut errors = Vec::new(alloc);
    let status = status_of(alloc, rt, words, input.as_bytes(), &mut output, &mut errors);
    let (wanted, replies, complaint) = expected;
    assert!(rt; status == wanted);
    assert!(rt; output.as_slice() == replies.as_bytes());
    assert!(rt; errors.as_slice() == complaint.as_bytes());
}

// So many ticks.
fn ticks(rt: &impl Abort, alloc: Global, count: usize) -> String {
    let mut text = String::new(alloc);
    for _ in 0..count {
        text.push_str(TICK).expect(rt, "room for a tick");
    }
    text
}

#[test]
fn a_journal_takes_just_as_many_entries_as_it_says(rt: HostRuntime) {
    let lines = ticks(&rt, rt.alloc(), 5);
    let full = (0, "ok 0\nok 1\nok 2\nok 3\nbad 502\n", "");
    let words = ["acdm", "run", "--journal", "4"];
    completes(&rt, rt.alloc(), &words, lines.as_str(), full);
    let all = (0, "ok 0\nok 1\nok 2\nok 3\nok 4\n", "");
    completes(&rt, rt.alloc(), &["acdm", "run"], lines.as_str(), all);
}

#[test]
fn words_and_files_that_fail_are_told_as_errors(rt: HostRuntime) {
    let alloc = rt.alloc();
    let words = ["acdm", "verify", "no-such-folder/no-such-file"];
    completes(&rt, alloc, &words, TICK, (2, "", "acdm: read failed\n"));
    let mut output = Vec::new(alloc);
    let mut errors = Vec::new(alloc);
    let words = ["acdm", "walk"];
    let lines = TICK.as_bytes();
    let status = status_of(alloc, &rt, &words, lines, &mut output, &mut errors);
    assert!(rt; status == 2 && output.is_empty() && !errors.is_empty());
    assert!(rt; status_of(alloc, &rt, &words, Broken, Broken, Broken) == 2);
}

// Whether these lines are answered so.
fn is_answered<H: Helpers + Drop>(
    alloc: Global,
    lines: &str,
    desk: &mut Desk<H>,
    expected: &str,
) -> bool {
    let mut replies = Sink::new(Vec::new(alloc));
    let mut reader = Source::new(lines.as_bytes());
    if run(alloc, &mut reader, &mut replies, desk).is_err() {
        return false;
    }
    replies.into_inner().as_slice() == expected.as_bytes()
}

// Whether flight 7 is the same on both.
fn has_same_flight<H: Helpers + Drop>(one: &Desk<H>, other: &Desk<H>) -> bool {
    let Some(kept) = one.core().record_of(7) else {
        return false;
    };
    match other.core().record_of(7) {
        Some(made) => kept.bytes() == made.bytes(),
        None => false,
    }
}

// A desk for one entry takes a schedule, and not the flight plan after it.
fn takes_the_schedule_alone<H: Helpers + Drop>(
    rt: &impl Abort,
    alloc: Global,
    one: &mut Desk<H>,
    other: &mut Desk<H>,
) {
    assert!(rt; is_answered(alloc, SCHEDULE, one, "ok 0\n"));
    assert!(rt; is_answered(alloc, FLIGHT_PLAN, one, "bad 502\n"));
    assert!(rt; is_answered(alloc, SCHEDULE, other, "ok 0\n"));
    assert!(rt; has_same_flight(one, other));
}

// The first desk has room for one entry, and the second for both.
fn room_is_for_one<H: Helpers + Drop>(rt: &impl Abort, alloc: Global, some: H, others: H) {
    let mut one = Desk::new(alloc, some, 1).expect(rt, "a desk");
    let mut other = Desk::new(alloc, others, 10).expect(rt, "a desk");
    takes_the_schedule_alone(rt, alloc, &mut one, &mut other);
    drop(one);
    drop(other);
}

#[test]
fn a_full_journal_leaves_the_flight_as_it_was(rt: HostRuntime) {
    let alloc = rt.alloc();
    let some = Bank::new(alloc).expect(&rt, "a bank");
    let others = Bank::new(alloc).expect(&rt, "a bank");
    room_is_for_one(&rt, alloc, some, others);
}

// Flight 7 comes in-block at 09:00, and its TOBT is five minutes later, as helper 3 says it.
const SUMMED_TARGET: &str =
    r#"1 29000700 APT {"cmd":"load","milestone":7,"kind":"tobt","program":"bf31000000000000b70200000500000085000000030000009500000000000000"}
1 29000700 APT {"cmd":"schedule","flight":7,"callsign":"DLH7","type":"A320","reg":"DAIBC","dest":"EDDM","sobt":"2025-02-20T10:00:00Z","mttt":40,"exit":5,"exot":10,"stand":12}
2 29000700 NM {"cmd":"report","flight":7,"milestone":1,"time":"2025-02-20T10:00:00Z","callsign":"DLH7","type":"A320","reg":"DAIBC","dest":"EDDM"}
3 29000700 ATC {"cmd":"report","flight":7,"milestone":6,"time":"2025-02-20T09:00:00Z"}
1 29000700 APT {"cmd":"report","flight":7,"milestone":7,"time":"2025-02-20T09:00:00Z"}
1 29000700 APT {"cmd":"alerts"}
"#;

// Its local alerts are the taxi time from stand 12, as helper 2 says it.
pub(crate) const TAXI_TIME: &str =
    r#"1 29000580 APT {"cmd":"load","milestone":9,"kind":"alert","program":"69113c000000000057010000ff01000085000000020000009500000000000000"}
1 29000580 APT {"cmd":"schedule","flight":7,"callsign":"DLH7","type":"A320","reg":"DAIBC","dest":"EDDM","sobt":"2025-02-20T10:00:00Z","mttt":40,"exit":5,"exot":10,"stand":12}
2 29000580 NM {"cmd":"report","flight":7,"milestone":1,"time":"2025-02-20T10:00:00Z","callsign":"DLH7","type":"A320","reg":"DAIBC","dest":"EDDM"}
5 29000580 GH {"cmd":"report","flight":7,"milestone":9,"time":"2025-02-20T10:00:00Z"}
1 29000580 APT {"cmd":"alerts"}
1 29000580 APT {"cmd":"load","milestone":9,"kind":"alert","program":"9500000000000000"}
"#;

// A run over these lines writes these replies, and no complaint.
fn runs_to(rt: &impl Abort, alloc: Global, lines: &str, expected: &str) {
    let mut replies = Vec::new(alloc);
    run_ends(rt, alloc, lines.as_bytes(), &mut replies, (0, ""));
    assert!(rt; replies.as_slice() == expected.as_bytes());
}

#[test]
fn programs_ask_the_known_helpers(rt: HostRuntime) {
    let alloc = rt.alloc();
    let summed = "ok 0\nok 1\nok 2\nok 3\nok 4\nalerts 5 7:CDM08,CDM09,CDM07a\n";
    runs_to(&rt, alloc, SUMMED_TARGET, summed);
    let taxi = "ok 0\nok 1\nok 2\nok 3\nalerts 4 7:LOC01,LOC03\nbad 308 0\n";
    runs_to(&rt, alloc, TAXI_TIME, taxi);
}

// Of these bytes `verify` writes this, with this status, and no complaint.
fn is_judged(rt: &impl Abort, alloc: Global, bytes: &[u8], status: u8, text: &str) {
    is_judged_beside(rt, alloc, Length::L128, bytes, status, text);
}

// The same beside records of this length.
fn is_judged_beside(
    rt: &impl Abort,
    alloc: Global,
    length: Length,
    bytes: &[u8],
    status: u8,
    text: &str,
) {
    let mut reader = Source::new(bytes);
    let mut written = Sink::new(Vec::new(alloc));
    let mut errors = Sink::new(Vec::new(alloc));
    let tables = built_in(rt, alloc);
    let ended = verify_on(
        alloc,
        &tables,
        length,
        &mut reader,
        &mut written,
        &mut errors,
    );
    assert!(rt; ended == status, "{text}");
    assert!(rt;
        written.into_inner().as_slice() == text.as_bytes(),
        "{text}"
    );
    assert!(rt; errors.into_inner().is_empty(), "{text}");
}

#[test]
fn a_program_is_listed(rt: HostRuntime) {
    let bytes = [0xb7, 0, 0, 0, 0, 0, 0, 0, 0x95, 0, 0, 0, 0, 0, 0, 0];
    let listing = "0: mov64 r0, 0\n1: exit\naccepted 2\n";
    is_judged(&rt, rt.alloc(), &bytes, 0, listing);
}

// The last four bytes of a record of 160, and four of which the last is behind it.
static LAST_BYTES: [u8; 16] = [0x61, 0x10, 0x9c, 0, 0, 0, 0, 0, 0x95, 0, 0, 0, 0, 0, 0, 0];

static BEHIND_IT: [u8; 16] = [0x61, 0x10, 0x9d, 0, 0, 0, 0, 0, 0x95, 0, 0, 0, 0, 0, 0, 0];

#[test]
fn programs_are_judged_beside_records_of_either_length(rt: HostRuntime) {
    let alloc = rt.alloc();
    let listing = "0: ldxw r0, [r1+156]\n1: exit\naccepted 2\n";
    is_judged_beside(&rt, alloc, Length::L160, &LAST_BYTES, 0, listing);
    is_judged_beside(&rt, alloc, Length::L128, &LAST_BYTES, 1, "refused 309 0\n");
    is_judged_beside(&rt, alloc, Length::L160, &BEHIND_IT, 1, "refused 309 0\n");
    is_judged_beside(&rt, alloc, Length::L128, &BEHIND_IT, 1, "refused 309 0\n");
}

// Faulty programs, and what `verify` tells of them.
static FAULTY_PROGRAMS: [(&[u8], &str); 6] = [
    (&[0x95, 0, 1, 0, 0, 0, 0, 0], "refused 304 0\n"),
    (&[0x18, 0, 0, 0, 1, 0, 0, 0], "refused 315 0\n"),
    (&[0, 0, 0, 0, 0, 0, 0, 0, 0, 0, 0, 0], "refused 301 0\n"),
    (&[], "refused 301 0\n"),
    (&[0x95, 0, 0, 0, 0, 0, 0, 0], "refused 308 0\n"),
    (&[0xb7, 0, 0, 0, 0, 0, 0, 0], "refused 307 0\n"),
];

#[test]
fn a_faulty_program_is_refused(rt: HostRuntime) {
    for (bytes, text) in &FAULTY_PROGRAMS {
        is_judged(&rt, rt.alloc(), *bytes, 1, *text);
    }
}

fn zeros_are_refused(rt: &impl Abort, alloc: Global, count: usize) {
    let zeros = vec![in alloc; 0u8; count].expect(rt, "zeros");
    is_judged(rt, alloc, zeros.as_slice(), 1, "refused 302 0\n");
}

#[test]
fn a_program_of_too_many_slots_is_refused(rt: HostRuntime) {
    zeros_are_refused(&rt, rt.alloc(), 65_536);
    zeros_are_refused(&rt, rt.alloc(), 100_000);
}

const EXIT: u64 = 0x9500_0000_0000_0000;

const HELPER_1: u64 = 0x8500_0000_0100_0000;

const HELPER_2: u64 = 0x8500_0000_0200_0000;

const HELPER_3: u64 = 0x8500_0000_0300_0000;

const HELPER_4: u64 = 0x8500_0000_0400_0000;

// Words of the record: the scheduled type, of four bytes, and the stand, of two.
const TYPE_IN_R1: u64 = 0x6111_1000_0000_0000;

const STAND_IN_R1: u64 = 0x6911_3c00_0000_0000;

const LOW_NINE_BITS: u64 = 0x5701_0000_ff01_0000;

const NOW_IN_R1: u64 = 0xbf31_0000_0000_0000;

const R2_IS_10000: u64 = 0xb702_0000_1027_0000;

const R2_IS_10001: u64 = 0xb702_0000_1127_0000;

/// The slots of a program, and what `verify` writes of it, with which status.
struct Calling {
    slots: [u64; 4],
    count: usize,
    status: u8,
    text: &'static str,
}

static CALLS: [Calling; 8] = [
    Calling {
        slots: [TYPE_IN_R1, HELPER_1, EXIT, 0],
        count: 3,
        status: 0,
        text: "0: ldxw r1, [r1+16]\n1: call 1\n2: exit\naccepted 3\n",
    },
    Calling {
        slots: [HELPER_1, EXIT, 0, 0],
        count: 2,
        status: 1,
        text: "refused 313 0\n",
    },
    Calling {
        slots: [STAND_IN_R1, LOW_NINE_BITS, HELPER_2, EXIT],
        count: 4,
        status: 0,
        text: "0: ldxh r1, [r1+60]\n1: and64 r1, 511\n2: call 2\n3: exit\naccepted 4\n",
    },
    Calling {
        slots: [STAND_IN_R1, HELPER_2, EXIT, 0],
        count: 3,
        status: 1,
        text: "refused 313 1\n",
    },
    Calling {
        slots: [NOW_IN_R1, R2_IS_10000, HELPER_3, EXIT],
        count: 4,
        status: 0,
        text: "0: mov64 r1, r3\n1: mov64 r2, 10000\n2: call 3\n3: exit\naccepted 4\n",
    },
    Calling {
        slots: [NOW_IN_R1, R2_IS_10001, HELPER_3, EXIT],
        count: 4,
        status: 1,
        text: "refused 313 2\n",
    },
    Calling {
        slots: [HELPER_3, EXIT, 0, 0],
        count: 2,
        status: 1,
        text: "refused 313 0\n",
    },
    Calling {
        slots: [HELPER_4, EXIT, 0, 0],
        count: 2,
        status: 1,
        text: "refused 312 0\n",
    },
];

fn says(rt: &impl Abort, alloc: Global, calling: &Calling) {
    let mut bytes = Vec::new(alloc);
    for slot in calling.slots.iter().take(calling.count) {
        bytes
            .extend_from_slice(&slot.to_be_bytes())
            .expect(rt, "room for a slot");
    }
    is_judged(rt, alloc, bytes.as_slice(), calling.status, calling.text);
}

#[test]
fn calls_keep_within_the_helpers_signatures(rt: HostRuntime) {
    for calling in &CALLS {
        says(&rt, rt.alloc(), calling);
    }
}

// `verify` from this reader to this writer ends with the status 2 and this complaint.
fn verify_fails<R: Read + Drop, W: Write + Drop>(
    rt: &impl Abort,
    alloc: Global,
    reader: R,
    writer: W,
    complaint: &str,
) {
    let mut errors = Sink::new(Vec::new(alloc));
    let mut reader = Source::new(reader);
    let mut writer = Sink::new(writer);
    let tables = built_in(rt, alloc);
    let length = Length::L128;
    let status = verify_on(
        alloc,
        &tables,
        length,
        &mut reader,
        &mut writer,
        &mut errors,
    );
    assert!(rt; status == 2);
    assert!(rt; errors.into_inner().as_slice() == complaint.as_bytes());
}

#[test]
fn verify_tells_what_failed(rt: HostRuntime) {
    let alloc = rt.alloc();
    verify_fails(&rt, alloc, Broken, Vec::new(alloc), "acdm: read failed\n");
    let exit = [0x95, 0, 0, 0, 0, 0, 0, 0];
    verify_fails(&rt, alloc, exit.as_slice(), Broken, "acdm: write failed\n");
}

/// Has no memory at each read.
#[derive(Drop)]
pub(crate) struct Short;

impl Read for Short {
    fn read(&mut self, _buf: &mut [u8]) -> io::Result<usize> {
        Err(io::Error::from(io::ErrorKind::OutOfMemory))
    }
}

#[test]
fn want_of_memory_is_no_verdict(rt: HostRuntime) {
    let alloc = rt.alloc();
    let mut text = Vec::new(alloc);
    verify_fails(&rt, alloc, Short, &mut text, "acdm: no memory\n");
    assert!(rt; text.is_empty());
}
