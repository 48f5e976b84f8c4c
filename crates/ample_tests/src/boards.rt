//! Boards of some and of many flights, each with an alert: the list of alerts, and its copy.
//!
//! Minute 29000580 is 2025-02-20T07:00Z, and 29000760 is 10:00Z of that day.
use acdm_board::Desk;
use acdm_milestones::Role;
use acdm_record::Text;
use acdm_step::{Alerted, Command, Durations, FlightPlan, Outcome, Schedule};
use bpf_helpers::{Bank, Helpers};
use std::alloc::Global;
use std::process::Abort;

const SEVEN: u32 = 29_000_580;

const TEN: u32 = 29_000_760;

// The minutes of a turn-round.
const DURATIONS: Durations = Durations {
    mttt: 40,
    exit: 5,
    exot: 10,
};

fn text<const N: usize>(rt: &impl Abort, letters: &str) -> Text<N> {
    Text::from_bytes(letters.as_bytes()).expect(rt, "a text")
}

// A flight without a flight plan three hours before its SOBT, which is CDM13.
fn scheduled(rt: &impl Abort, flight: u64) -> Command {
    assert!(rt; flight >= 1);
    let plan = FlightPlan {
        callsign: text(rt, "DLH7"),
        aircraft: text(rt, "A320"),
        registration: text(rt, "DAIBC"),
        destination: text(rt, "EDDM"),
    };
    let schedule = Schedule::new(flight, plan, TEN, DURATIONS, 12);
    Command::Schedule(schedule)
}

fn outcome_of<H: Helpers + Drop>(rt: &impl Abort, desk: &mut Desk<H>, command: Command) -> Outcome {
    desk.call_for(1, Role::AirportOperator, SEVEN, command)
        .expect(rt, "a reply")
        .outcome
}

fn schedules<H: Helpers + Drop>(rt: &impl Abort, desk: &mut Desk<H>, flights: u64) {
    for flight in 1..=flights {
        let outcome = outcome_of(rt, desk, scheduled(rt, flight));
        assert!(rt; outcome.verdict().is_accepted(), "{flight}");
    }
}

// The flights from 1 on, each with CDM13 alone.
fn are_all(list: &[Alerted], flights: u64) -> bool {
    let mut rest = list;
    for flight in 1..=flights {
        let Some((first, more)) = rest.split_first() else {
            return false;
        };
        if first.flight != flight || first.alerts.word() != 1 << 13 {
            return false;
        }
        rest = more;
    }
    rest.is_empty()
}

fn lists(rt: &impl Abort, outcome: &Outcome, flights: u64) {
    let Outcome::Listed(list) = outcome else {
        panic!(rt; "no list");
    };
    assert!(rt; are_all(list.as_slice(), flights), "{flights} flights");
}

fn lists_twice(rt: &impl Abort, outcome: Outcome, flights: u64) {
    lists(rt, &outcome, flights);
    let copy = outcome.copy().expect(rt, "a copy");
    drop(outcome);
    lists(rt, &copy, flights);
}

fn holds<H: Helpers + Drop>(rt: &impl Abort, desk: &mut Desk<H>, flights: u64) {
    schedules(rt, desk, flights);
    let outcome = outcome_of(rt, desk, Command::Alerts);
    lists_twice(rt, outcome, flights);
}

fn holds_with<H: Helpers + Drop>(rt: &impl Abort, alloc: Global, helpers: H, flights: u64) {
    let mut desk = Desk::new(alloc, helpers, 5_000).expect(rt, "a desk");
    holds(rt, &mut desk, flights);
    drop(desk);
}

static FLIGHTS: [u64; 7] = [1, 2, 63, 64, 65, 2_048, 4_096];

#[test]
fn alerts_are_listed_and_copied(rt: HostRuntime) {
    for flights in &FLIGHTS {
        let bank = Bank::new(rt.alloc()).expect(&rt, "a bank");
        holds_with(&rt, rt.alloc(), bank, *flights);
    }
}
