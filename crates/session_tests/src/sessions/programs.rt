//! Programs on the board, by the profile's worked examples.
//!
//! Minute 29000580 is 2025-02-20T07:00Z, 29000700 is 09:00Z, and 29000760 is 10:00Z of that day.
ghost use Rattle.std.specs.Prelude.{◌≡◌, ◌+◌, ◌^◌, ◌<◌};
ghost use Rattle.bpf_helpers.specs.Known.{sum, taxi, taxi_from};

use crate::sessions::{are_answered, replies_of};
use acdm_board::Desk;
use acdm_record::Field;
use bpf_helpers::{Bank, Helper, HelperCode, Helpers, Range, Signature};
use std::alloc::Global;
use std::process::Abort;
use std::sync::Arc;

// Suggests the minute before the moment.
const PAST_TARGET: &str =
    r#"1 29000700 APT {"cmd":"load","milestone":7,"kind":"tobt","program":"bf3000000000000007000000ffffffff9500000000000000"}
"#;

// Suggests the moment.
const PRESENT_TARGET: &str =
    r#"1 29000700 APT {"cmd":"load","milestone":7,"kind":"tobt","program":"bf300000000000009500000000000000"}
"#;

// Suggests a time one day after the moment, the latest that is usable.
const LATEST_TARGET: &str =
    r#"1 29000700 APT {"cmd":"load","milestone":7,"kind":"tobt","program":"bf3000000000000007000000a00500009500000000000000"}
"#;

// Suggests the minute after that.
const LATER_TARGET: &str =
    r#"1 29000700 APT {"cmd":"load","milestone":7,"kind":"tobt","program":"bf3000000000000007000000a10500009500000000000000"}
"#;

// Suggests five minutes after the moment, which helper 3 adds up.
const SUMMED_TARGET: &str =
    r#"1 29000700 APT {"cmd":"load","milestone":7,"kind":"tobt","program":"bf31000000000000b70200000500000085000000030000009500000000000000"}
"#;

// Flight 7 is scheduled, planned, lands and comes on the block.
const ARRIVAL: &str =
    r#"1 29000700 APT {"cmd":"schedule","flight":7,"callsign":"DLH7","type":"A320","reg":"DAIBC","dest":"EDDM","sobt":"2025-02-20T10:00:00Z","mttt":40,"exit":5,"exot":10,"stand":12}
2 29000700 NM {"cmd":"report","flight":7,"milestone":1,"time":"2025-02-20T10:00:00Z","callsign":"DLH7","type":"A320","reg":"DAIBC","dest":"EDDM"}
3 29000700 ATC {"cmd":"report","flight":7,"milestone":6,"time":"2025-02-20T09:00:00Z"}
"#;

const IN_BLOCK: &str =
    r#"1 29000700 APT {"cmd":"report","flight":7,"milestone":7,"time":"2025-02-20T09:00:00Z"}
1 29000700 APT {"cmd":"alerts"}
"#;

/// What a stream leads to: its replies, the TOBT of flight 7, and the answers of helpers in an
/// entry.
struct Expected<'a> {
    replies: &'a str,
    tobt: u64,
    entry: u64,
    answers: &'a [u64],
}

fn tobt_on<H: Helpers + Drop>(rt: &impl Abort, desk: &Desk<H>) -> u64 {
    let record = desk.core().record_of(7).expect(rt, "flight 7");
    record.get(Field::Tobt)
}

fn has_answers<H: Helpers + Drop>(desk: &mut Desk<H>, number: u64, answers: &[u64]) -> bool {
    let Ok(row) = Arc::try_clone(desk.row()) else {
        return false;
    };
    match desk.entry(&row, number) {
        Some(entry) => entry.answers.as_slice() == answers,
        None => false,
    }
}

fn is_led_to<H: Helpers + Drop>(
    rt: &impl Abort,
    alloc: Global,
    desk: &mut Desk<H>,
    parts: &[&str],
    expected: &Expected<'_>,
) {
    let replies = replies_of(rt, alloc, parts, desk);
    assert_eq!(rt; replies.as_str(), expected.replies);
    assert_eq!(rt; tobt_on(rt, desk), expected.tobt);
    assert!(rt; has_answers(desk, expected.entry, expected.answers));
}

fn leads_to<H: Helpers + Drop>(
    rt: &impl Abort,
    alloc: Global,
    helpers: H,
    parts: &[&str],
    expected: &Expected<'_>,
) {
    let mut desk = Desk::new(alloc, helpers, 100).expect(rt, "a desk");
    is_led_to(rt, alloc, &mut desk, parts, expected);
    drop(desk);
}

/// Lines, and what they lead to.
struct Target {
    lines: [&'static str; 5],
    expected: Expected<'static>,
}

// A past target is rejected, a present one taken; the latest is a day ahead, and a later one
// rejected.
static TARGETS: [Target; 4] = [
    Target {
        lines: [PAST_TARGET, ARRIVAL, IN_BLOCK, "", ""],
        expected: Expected {
            replies: "ok 0\nok 1\nok 2\nok 3\nok 4\nalerts 5 7:CDM14\n",
            tobt: 0,
            entry: 4,
            answers: &[],
        },
    },
    Target {
        lines: [PAST_TARGET, ARRIVAL, IN_BLOCK, PRESENT_TARGET, IN_BLOCK],
        expected: Expected {
            replies: "ok 0\nok 1\nok 2\nok 3\nok 4\nalerts 5 7:CDM14\nok 6\nok 7\nalerts 8 7:CDM08,CDM09,CDM07a\n",
            tobt: 29_000_700,
            entry: 7,
            answers: &[],
        },
    },
    Target {
        lines: [LATEST_TARGET, ARRIVAL, IN_BLOCK, "", ""],
        expected: Expected {
            replies: "ok 0\nok 1\nok 2\nok 3\nok 4\nalerts 5 7:CDM08\n",
            tobt: 29_002_140,
            entry: 4,
            answers: &[],
        },
    },
    Target {
        lines: [LATER_TARGET, ARRIVAL, IN_BLOCK, "", ""],
        expected: Expected {
            replies: "ok 0\nok 1\nok 2\nok 3\nok 4\nalerts 5 7:CDM14\n",
            tobt: 0,
            entry: 4,
            answers: &[],
        },
    },
];

#[test]
fn targets_are_taken_up_to_a_day_ahead(rt: HostRuntime) {
    let alloc = rt.alloc();
    for target in &TARGETS {
        let bank = Bank::new(alloc).expect(&rt, "a bank");
        leads_to(&rt, alloc, bank, &target.lines, &target.expected);
    }
}

fn sum_signature(rt: &impl Abort, alloc: Global) -> Signature
    ensures { result ≡ sum }
{
    let args = vec![in alloc;
        Range {
            lo: 0,
            hi: 4_294_967_295
        },
        Range { lo: 0, hi: 10_000 },
    ]
    .expect(rt, "ranges");
    let answer = Range {
        lo: 0,
        hi: 4_294_977_295,
    };
    Signature::new(args, answer, Vec::new(alloc)).expect(rt, "helper 3")
}

#[test]
fn a_helper_adds_up_a_target(rt: HostRuntime) {
    let alloc = rt.alloc();
    let code: HelperCode = Box::new(
        alloc,
        |a: u64, b: u64, _c: u64, _d: u64, _e: u64| -> u64
            requires { a + b < 2 ^ 64 }
            ensures { result ≡ a + b }
        { a + b },
    )
    .expect(&rt, "code");
    let mut bank = Bank::new(alloc).expect(&rt, "a bank");
    bank.add(Helper::new(3, sum_signature(&rt, alloc), code))
        .map_err(|refused| refused.fault)
        .expect(&rt, "a place for helper 3");
    leads_to(
        &rt,
        alloc,
        bank,
        &[SUMMED_TARGET, ARRIVAL, IN_BLOCK],
        &Expected {
            replies: "ok 0\nok 1\nok 2\nok 3\nok 4\nalerts 5 7:CDM08,CDM09,CDM07a\n",
            tobt: 29_000_705,
            entry: 4,
            answers: &[29_000_705],
        },
    );
}

fn taxi_signature(rt: &impl Abort, alloc: Global) -> Signature
    ensures { result ≡ taxi }
{
    let args = vec![in alloc; Range { lo: 0, hi: 999 }].expect(rt, "a range");
    let table = vec![in alloc; (12, 10), (120, 15), (900, 20)].expect(rt, "a table");
    Signature::new(args, Range { lo: 1, hi: 60 }, table).expect(rt, "helper 2")
}

// The local alerts of a target are the taxi time from the stand, which helper 2 knows.
const TAXI_ALERTS: &str =
    r#"1 29000580 APT {"cmd":"load","milestone":9,"kind":"alert","program":"69113c000000000057010000ff01000085000000020000009500000000000000"}
1 29000580 APT {"cmd":"schedule","flight":7,"callsign":"DLH7","type":"A320","reg":"DAIBC","dest":"EDDM","sobt":"2025-02-20T10:00:00Z","mttt":40,"exit":5,"exot":10,"stand":12}
2 29000580 NM {"cmd":"report","flight":7,"milestone":1,"time":"2025-02-20T10:00:00Z","callsign":"DLH7","type":"A320","reg":"DAIBC","dest":"EDDM"}
5 29000580 GH {"cmd":"report","flight":7,"milestone":9,"time":"2025-02-20T10:00:00Z"}
1 29000580 APT {"cmd":"alerts"}
1 29000580 APT {"cmd":"unload","milestone":9,"kind":"alert"}
5 29000580 GH {"cmd":"report","flight":7,"milestone":9,"time":"2025-02-20T10:00:00Z"}
1 29000580 APT {"cmd":"alerts"}
"#;

#[test]
fn local_alerts_stay_when_their_program_is_gone(rt: HostRuntime) {
    let alloc = rt.alloc();
    let code: HelperCode = Box::new(
        alloc,
        |stand: u64, _b: u64, _c: u64, _d: u64, _e: u64| -> u64
            ensures { result ≡ taxi_from stand }
        {
            if stand < 100 {
                10
            } else if stand < 500 {
                15
            } else {
                20
            }
        },
    )
    .expect(&rt, "code");
    let mut bank = Bank::new(alloc).expect(&rt, "a bank");
    bank.add(Helper::new(2, taxi_signature(&rt, alloc), code))
        .map_err(|refused| refused.fault)
        .expect(&rt, "a place for helper 2");
    leads_to(
        &rt,
        alloc,
        bank,
        &[TAXI_ALERTS],
        &Expected {
            replies: "ok 0\nok 1\nok 2\nok 3\nalerts 4 7:LOC01,LOC03\nok 5\nok 6\nalerts 7 7:LOC01,LOC03\n",
            tobt: 29_000_760,
            entry: 3,
            answers: &[10],
        },
    );
}

#[test]
fn an_empty_slot_is_told(rt: HostRuntime) {
    let unload = r#"1 29000580 APT {"cmd":"unload","milestone":9,"kind":"alert"}
"#;
    are_answered(
        &rt,
        rt.alloc(),
        "an empty slot",
        &[unload],
        10,
        "no 0 321\n",
    );
}

// Programs that are refused, as JSON, and what their load is answered.
static REFUSED_PROGRAMS: [(&str, &str); 11] = [
    ("\"9500000000000000\"", "bad 308 0\n"),
    ("\"\"", "bad 301 0\n"),
    ("\"950000000000000095000000\"", "bad 301 0\n"),
    ("\"0500FFFF000000009500000000000000\"", "bad 306 0\n"),
    (
        "\"1504010001000000b7000000050000009500000000000000\"",
        "bad 308 2\n",
    ),
    ("\"1800000001000000\"", "bad 315 0\n"),
    ("\"9500010000000000\"", "bad 304 0\n"),
    ("\"85000000020000009500000000000000\"", "bad 312 0\n"),
    ("\"zz\"", "bad 104\n"),
    ("\"950\"", "bad 104\n"),
    ("95", "bad 103\n"),
];

#[test]
fn programs_that_are_refused_make_no_entry(rt: HostRuntime) {
    for (program, reply) in &REFUSED_PROGRAMS {
        let parts = [
            "1 29000580 APT {\"cmd\":\"load\",\"milestone\":7,\"kind\":\"tobt\",\"program\":",
            *program,
            "}\n",
        ];
        are_answered(&rt, rt.alloc(), *program, &parts, 1, *reply);
    }
}
