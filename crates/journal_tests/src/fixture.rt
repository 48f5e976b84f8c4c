//! Commands on flight 7, and what tests compare by.
//!
//! Minute 29000580 is 2025-02-20T07:00Z, and 29000760 is 10:00Z of that day.
use acdm_milestones::{DeicingTime, Milestone};
use acdm_record::Text;
use acdm_step::{Command, Deice, Durations, FlightNumber, FlightPlan, Report, Schedule};
use std::process::Abort;

pub(crate) const SEVEN: u32 = 29_000_580;

pub(crate) const TEN: u32 = 29_000_760;

// The minutes of a turn-round.
const DURATIONS: Durations = Durations {
    mttt: 40,
    exit: 5,
    exot: 10,
};

pub(crate) fn same_number(rt: &impl Abort, found: u64, wanted: u64) {
    assert_eq!(rt; found, wanted);
}

fn text<const N: usize>(rt: &impl Abort, letters: &str) -> Text<N> {
    Text::from_bytes(letters.as_bytes()).expect(rt, "a text")
}

pub(crate) fn plan(rt: &impl Abort) -> FlightPlan {
    FlightPlan {
        callsign: text(rt, "DLH7"),
        aircraft: text(rt, "A320"),
        registration: text(rt, "DAIBC"),
        destination: text(rt, "EDDM"),
    }
}

pub(crate) fn scheduled(rt: &impl Abort) -> Command {
    let schedule = Schedule::new(7, plan(rt), TEN, DURATIONS, 12);
    Command::Schedule(schedule)
}

pub(crate) fn planned(rt: &impl Abort) -> Command {
    let report = Report::new(7, Milestone::FlightPlanActivated, TEN, Some(plan(rt)));
    Command::Report(report)
}

/// A time of de-icing.
pub(crate) fn deiced(which: DeicingTime, time: u32) -> Command {
    let flight = FlightNumber::new(7);
    Command::Deice(Deice {
        flight,
        which,
        time,
    })
}

/// A report of a milestone after the flight plan.
pub(crate) fn reported(rt: &impl Abort, milestone: Milestone, time: u32) -> Command {
    assert!(rt; milestone != Milestone::FlightPlanActivated && time > 0);
    Command::Report(Report::new(7, milestone, time, None))
}
