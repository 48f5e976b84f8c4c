//! One session alone at a desk.
use super::{Count, Opened, Stands, TICK, begun, closed_by, last_of, opened, push};
use acdm_milestones::Role;
use bpf_helpers::{Bank, Helpers};
use std::alloc::Global;
use std::process::Abort;
use std::sync::Wait;
use std::thread::Threads;

// What stands after one session at a desk for so many entries, on which a flight was scheduled and
// planned.
fn one_served<H: Helpers + Drop + Send, Rt: Threads + Wait + Abort + Sync>(
    rt: &Rt,
    alloc: Global,
    helpers: H,
    capacity: usize,
    session: Opened<Vec<u8>>,
    gate: &Count,
) -> Stands<H, Vec<u8>> {
    let mut sessions = Vec::new(alloc);
    push(rt, &mut sessions, session);
    let desk = begun(rt, alloc, helpers, capacity);
    closed_by(rt, alloc, desk, sessions, gate)
}

// What one session is told at such a desk, and the journal's length then.
fn serves_one<H: Helpers + Drop + Send, Rt: Threads + Wait + Abort + Sync>(
    rt: &Rt,
    alloc: Global,
    helpers: H,
    capacity: usize,
    session: Opened<Vec<u8>>,
    gate: &Count,
) -> (String, u64) {
    let mut closed = one_served(rt, alloc, helpers, capacity, session, gate);
    let told = last_of(rt, alloc, &mut closed.sessions);
    let length = closed.desk.len();
    drop(closed);
    (told, length)
}

/// What one session sends to a desk with room for so many entries, what it is told, the sum of its codes, how many
/// calls of the desk it made, and the journal's length then.
struct Alone {
    shows: &'static str,
    role: Role,
    text: &'static str,
    minute: Option<u32>,
    capacity: usize,
    told: &'static str,
    codes: u64,
    calls: u64,
    length: u64,
}

const FAULTY_LINES: &str =
    "tick\n{\"cmd\":\"tack\"}\n{\"cmd\":\"show\"}\n{\"cmd\":\"show\",\"flight\":0}\n{\"cmd\":\"load\",\"milestone\":7,\"kind\":\"tobt\",\"program\":\"95\"}\n{\"cmd\":\"ti";

const DEICING_LINES: &str =
    "{\"cmd\":\"deice\",\"flight\":7,\"field\":\"eczt\",\"time\":null}\n{\"cmd\":\"migrate\"}\n{\"cmd\":\"deice\",\"flight\":7,\"field\":\"aobt\",\"time\":null}\n";

static ALONE: [Alone; 5] = [
    Alone {
        shows: "a clock without a minute makes no entry",
        role: Role::AirportOperator,
        text: TICK,
        minute: None,
        capacity: 10,
        told: "1 0 End: bad 106\n",
        codes: 106,
        calls: 0,
        length: 2,
    },
    Alone {
        shows: "faults come in their order without a minute",
        role: Role::AirportOperator,
        text: FAULTY_LINES,
        minute: None,
        capacity: 10,
        told: "1 0 End: bad 101\nbad 102\nbad 103\nbad 104\nbad 106\nbad 101\n",
        codes: 617,
        calls: 0,
        length: 2,
    },
    Alone {
        shows: "faults come in their order",
        role: Role::AirportOperator,
        text: FAULTY_LINES,
        minute: Some(29_000_590),
        capacity: 10,
        told: "1 0 End: bad 101\nbad 102\nbad 103\nbad 104\nbad 301 0\nbad 101\n",
        codes: 812,
        calls: 0,
        length: 2,
    },
    Alone {
        shows: "a call that makes no entry is not counted",
        role: Role::NetworkManager,
        text: "{\"cmd\":\"tick\"}\n{}\n{\"cmd\":\"show\",\"flight\":8}\n{\"cmd\":\"tick\"}",
        minute: Some(29_000_590),
        capacity: 4,
        told: "1 2 End: no 2 201\nbad 102\nno 3 202\nbad 502\n",
        codes: 1007,
        calls: 3,
        length: 4,
    },
    Alone {
        shows: "the de-icing company before a migrate",
        role: Role::DeicingCompany,
        text: DEICING_LINES,
        minute: Some(29_000_590),
        capacity: 10,
        told: "1 2 End: no 2 325\nno 3 201\nbad 104\n",
        codes: 630,
        calls: 2,
        length: 4,
    },
];

fn is_served<Rt: Threads + Wait + Abort + Sync>(rt: &Rt, alloc: Global, alone: &Alone) {
    let replies = Vec::new(alloc);
    let session = opened(rt, alloc, alone.role, alone.text, alone.minute, replies);
    let bank = Bank::new(alloc).expect(rt, "a bank");
    let gate = Count::new();
    let (told, length) = serves_one(rt, alloc, bank, alone.capacity, session, &gate);
    assert_eq!(rt; told.as_str(), alone.told, "{}", alone.shows);
    assert!(rt; length == alone.length, "{}", alone.shows);
    assert!(rt; gate.is(alone.calls, alone.calls), "{}", alone.shows);
    assert!(rt; gate.was_told(alone.text, alone.codes), "{}", alone.shows);
}

#[test]
fn a_session_alone_is_told_what_came_of_its_lines(rt: HostRuntime) {
    for alone in &ALONE {
        is_served(&rt, rt.alloc(), alone);
    }
}
