//! The board beside a plain walk over a list of records, and what it does at its ends.

ghost use Rattle.std.specs.Prelude.{◌≤◌};

use crate::fixture::{same_at, same_number};
use crate::step::{DURATIONS, done, empty_board, listed, plan, show, verdict_on};
use acdm_alerts::{AlertSet, builtin};
use acdm_milestones::{
    Action, DeicingTime, Milestone, Refusal, Role, admit, has_reached, mark_reached, owns, set_time,
};
use acdm_record::{Field, Record, TextField};
use acdm_step::{
    Alerted, Command, Core, Deice, FlightNumber, FlightPlan, Report, Schedule, Verdict,
};
use std::alloc::Global;
use std::process::Abort;

// 2025-02-20T07:00Z and 10:00Z.
const SEVEN: u32 = 29_000_580;

const TEN: u32 = 29_000_760;

// Flights whose numbers have the same hash, all 32 bits of it.
const ALIKE: [u64; 4] = [3_613_369, 20_823_727, 34_948_670, 36_576_179];

// What is done to a board of its own. One function makes these boards, since each that owns one is
// dear to prove.
#[derive(Clone, Copy)]
enum Case {
    Walked,
    Filled,
    OneHash,
}

fn tells_of(rt: &impl Abort, alloc: Global, core: &mut Core, case: Case) {
    match case {
        Case::Walked => walks(rt, alloc, core),
        Case::Filled => fills(rt, core),
        Case::OneHash => keeps_apart(rt, core),
    }
}

fn goes_well(rt: &impl Abort, alloc: Global, case: Case) {
    let mut core = empty_board(rt, alloc);
    tells_of(rt, alloc, &mut core, case);
}

fn activated(rt: &impl Abort, flight: u64) -> Command {
    if flight == 0 {
        panic!(rt; "no flight");
    }
    let report = Report::new(flight, Milestone::FlightPlanActivated, TEN, Some(plan(rt)));
    Command::Report(report)
}

fn scheduled_at(rt: &impl Abort, flight: u64, stand: u16) -> Command {
    if flight == 0 {
        panic!(rt; "no flight");
    }
    let schedule = Schedule::new(flight, plan(rt), TEN, DURATIONS, stand);
    Command::Schedule(schedule)
}

// A TOBT, or none, which is told as CDM10.
fn with_tobt(rt: &impl Abort, flight: u64, tobt: u32) -> Command {
    if flight == 0 {
        panic!(rt; "no flight");
    }
    let report = Report::new(flight, Milestone::TobtUpdate, tobt, None);
    Command::Report(report)
}

// A time of de-icing.
fn deiced(rt: &impl Abort, flight: u64) -> Command {
    if flight == 0 {
        panic!(rt; "no flight");
    }
    Command::Deice(Deice {
        flight: FlightNumber::new(flight),
        which: DeicingTime::ActualEnd,
        time: TEN,
    })
}

// The place of a flight's record, or how many there are.
fn place_in(records: &[Record], flight: u64) -> usize {
    for (i, record) in records.iter().enumerate() {
        if record.get(Field::Flight) == flight {
            return i;
        }
    }
    records.len()
}

// The flight that a command changes. Only those that change one come here.
fn flight_of(rt: &impl Abort, command: &Command) -> u64 {
    match command {
        Command::Schedule(schedule) => schedule.flight(),
        Command::Report(report) => report.flight(),
        Command::Deice(deice) => deice.flight.get(),
        _ => panic!(rt; "a change of no flight"),
    }
}

// Why a schedule is refused, if it is. It makes a new record where none is there.
fn refusal_of_schedule(record: &Record, is_new: bool, count: usize, role: Role) -> Option<Refusal> {
    if !owns(role, Action::Schedule) {
        return Some(Refusal::NotOwner);
    }
    if has_reached(record, 0) && has_reached(record, 1) {
        return Some(Refusal::AlreadyPlanned);
    }
    if is_new && count >= 4096 {
        return Some(Refusal::FullBoard);
    }
    None
}

// Why a report is refused, if it is. Only one of milestone 1 makes a new record.
fn refusal_of_report(
    record: &Record,
    is_new: bool,
    count: usize,
    role: Role,
    report: &Report,
) -> Option<Refusal> {
    let milestone = report.milestone();
    if !owns(role, Action::Report(milestone)) {
        return Some(Refusal::NotOwner);
    }
    if is_new && milestone != Milestone::FlightPlanActivated {
        return Some(Refusal::UnknownFlight);
    }
    if is_new && count >= 4096 {
        return Some(Refusal::FullBoard);
    }
    admit(record, role, milestone, report.time()).err()
}

// Why a time of de-icing is refused: no board here is migrated.
fn refusal_of_deice(role: Role) -> Refusal {
    if owns(role, Action::Deice) {
        Refusal::FirstLayout
    } else {
        Refusal::NotOwner
    }
}

// Why a command is refused, if it is.
fn refusal_of(
    rt: &impl Abort,
    record: &Record,
    is_new: bool,
    count: usize,
    role: Role,
    command: &Command,
) -> Option<Refusal> {
    match command {
        Command::Schedule(_) => refusal_of_schedule(record, is_new, count, role),
        Command::Report(report) => refusal_of_report(record, is_new, count, role, report),
        Command::Deice(_) => Some(refusal_of_deice(role)),
        _ => panic!(rt; "a change of no flight"),
    }
}

// The texts that a schedule sets.
fn set_scheduled(record: &mut Record, plan: &FlightPlan) {
    record.set_text(TextField::Callsign, plan.callsign.as_bytes());
    record.set_text(TextField::ScheduledType, plan.aircraft.as_bytes());
    record.set_text(
        TextField::ScheduledRegistration,
        plan.registration.as_bytes(),
    );
    record.set_text(TextField::ScheduledDestination, plan.destination.as_bytes());
}

// The numbers that it sets.
fn set_numbers(record: &mut Record, schedule: &Schedule) {
    record.set(Field::Sobt, u64::from(schedule.sobt()));
    record.set(Field::Mttt, u64::from(schedule.mttt()));
    record.set(Field::Exit, u64::from(schedule.exit()));
    record.set(Field::Exot, u64::from(schedule.exot()));
    record.set(Field::Stand, u64::from(schedule.stand()));
    mark_reached(record, 0);
}

// The texts that a flight plan sets.
fn set_planned(record: &mut Record, plan: &FlightPlan) {
    record.set_text(TextField::Callsign, plan.callsign.as_bytes());
    record.set_text(TextField::PlanType, plan.aircraft.as_bytes());
    record.set_text(TextField::PlanRegistration, plan.registration.as_bytes());
    record.set_text(TextField::PlanDestination, plan.destination.as_bytes());
}

fn set_reported(record: &mut Record, report: &Report) {
    set_time(record, report.milestone(), report.time());
    if let Some(plan) = report.plan() {
        set_planned(record, plan);
    }
    mark_reached(record, report.milestone().number());
}

// Computes the alerts of a record anew.
fn touch(record: &mut Record, moment: u32) {
    builtin(record, moment).store(record);
}

// What an accepted schedule or report does to a record, where no program is loaded. No time of
// de-icing is accepted.
fn change(record: &mut Record, moment: u32, command: &Command) {
    match command {
        Command::Schedule(schedule) => {
            set_scheduled(record, schedule.plan());
            set_numbers(record, schedule);
        }
        Command::Report(report) => set_reported(record, report),
        _ => (),
    }
    touch(record, moment);
}

// The record at a place, or the one that a flight begins with.
fn record_at(records: &[Record], place: usize, flight: u64) -> Record {
    match records.get(place) {
        Some(record) => record.copy(),
        None => Record::new(flight),
    }
}

// Puts a record into its place, or behind all.
fn keep(rt: &impl Abort, records: &mut Vec<Record>, place: usize, record: Record) {
    if place < records.len() {
        records[place] = record;
    } else {
        records.push(record).expect(rt, "a longer list");
    }
}

// A command on a list of records.
fn walked(
    rt: &impl Abort,
    records: &mut Vec<Record>,
    role: Role,
    moment: u32,
    command: &Command,
) -> Verdict {
    let flight = flight_of(rt, command);
    let place = place_in(records.as_slice(), flight);
    let count = records.len();
    let mut record = record_at(records.as_slice(), place, flight);
    if let Some(refusal) = refusal_of(rt, &record, place == count, count, role, command) {
        return Verdict::Refused(refusal);
    }
    change(&mut record, moment, command);
    keep(rt, records, place, record);
    Verdict::Accepted
}

// A command of a flight on both, and whether the verdicts are the same.
fn both(
    rt: &impl Abort,
    core: &mut Core,
    records: &mut Vec<Record>,
    role: Role,
    moment: u32,
    command: &Command,
) -> bool {
    let verdict = done(rt, core, role, moment, command).verdict();
    verdict == walked(rt, records, role, moment, command)
}

// A tick on both.
fn tick_both(rt: &impl Abort, core: &mut Core, records: &mut [Record], moment: u32) -> bool {
    let verdict = verdict_on(rt, core, Role::AirportOperator, moment, Command::Tick);
    for record in records.iter_mut() {
        touch(record, moment);
    }
    verdict.is_accepted()
}

// A command by chance of a flight, but no tick, and who sends it.
fn command_by_chance(rt: &impl Abort, chance: u32, flight: u64, moment: u32) -> (Role, Command) {
    match chance % 5 {
        0 => (Role::NetworkManager, activated(rt, flight)),
        1 => (Role::AirportOperator, scheduled_at(rt, flight, 12)),
        2 => (Role::AircraftOperator, with_tobt(rt, flight, moment)),
        3 if chance / 5 % 4 == 0 => (Role::DeicingCompany, deiced(rt, flight)),
        _ => (Role::GroundHandler, with_tobt(rt, flight, 0)),
    }
}

// One command by chance on both, and whether the verdicts are the same.
fn step_both(rt: &impl Abort, core: &mut Core, records: &mut Vec<Record>, chance: u32) -> bool {
    let flight = if chance / 8 % 2 == 0 {
        ALIKE[(chance / 16 % 4) as usize]
    } else {
        u64::from(chance / 16 % 30) + 1
    };
    let moment = SEVEN + chance / 512 % 400;
    if chance % 5 == 4 {
        return tick_both(rt, core, records.as_mut_slice(), moment);
    }
    let (role, command) = command_by_chance(rt, chance, flight, moment);
    both(rt, core, records, role, moment, &command)
}

// Whether these are the flights with an alert among some records, in their order.
fn are_alerted(list: &[Alerted], records: &[Record]) -> bool {
    let mut rest = list;
    for record in records {
        let alerts = AlertSet::of(record);
        if alerts.is_empty() {
            continue;
        }
        let Some((first, more)) = rest.split_first() else {
            return false;
        };
        if first.flight != record.get(Field::Flight) || first.alerts.word() != alerts.word() {
            return false;
        }
        rest = more;
    }
    rest.is_empty()
}

// Whether the board lists what a walk over the records lists.
fn lists_as_walked(rt: &impl Abort, core: &mut Core, records: &[Record]) -> bool {
    let list = listed(rt, core, SEVEN);
    are_alerted(list.as_slice(), records)
}

// One command by chance on both, and whether the verdicts and the lists are the same.
fn next_alike(rt: &impl Abort, core: &mut Core, records: &mut Vec<Record>, chance: u32) {
    assert!(rt; step_both(rt, core, records, chance));
    assert!(rt; lists_as_walked(rt, core, records.as_slice()));
}

fn all_alike(rt: &impl Abort, core: &mut Core, records: &mut Vec<Record>) {
    let mut state = 7u64;
    for _ in 0..600 {
        state = state
            .wrapping_mul(6_364_136_223_846_793_005)
            .wrapping_add(1_442_695_040_888_963_407);
        next_alike(rt, core, records, (state >> 33) as u32);
    }
    same_number(rt, records.len() as u64, 34);
}

fn walks(rt: &impl Abort, alloc: Global, core: &mut Core) {
    let mut records = Vec::new(alloc);
    all_alike(rt, core, &mut records);
}

#[test]
fn the_board_is_what_a_walk_over_its_records_makes_it(rt: HostRuntime) {
    goes_well(&rt, rt.alloc(), Case::Walked);
}

// The flight that is created as number i, in an order that is not that of the numbers.
fn created(i: u64) -> u64
    requires { i ≤ 4095 }
{
    i * 2049 % 4096 + 1
}

fn create_all(rt: &impl Abort, core: &mut Core) -> bool {
    for i in 0..4096 {
        if !verdict_on_plan(rt, core, created(i)).is_accepted() {
            return false;
        }
    }
    true
}

// Whether these are all flights in order of creation.
fn are_all(list: &[Alerted]) -> bool {
    let mut rest = list;
    for i in 0..4096 {
        let Some((first, more)) = rest.split_first() else {
            return false;
        };
        if first.flight != created(i) {
            return false;
        }
        rest = more;
    }
    rest.is_empty()
}

// Whether the board lists all flights in order of creation.
fn lists_all(rt: &impl Abort, core: &mut Core) -> bool {
    let list = listed(rt, core, SEVEN);
    are_all(list.as_slice())
}

// The verdict on the plan of a flight.
fn verdict_on_plan(rt: &impl Abort, core: &mut Core, flight: u64) -> Verdict {
    verdict_on(rt, core, Role::NetworkManager, SEVEN, activated(rt, flight))
}

// The verdict on the schedule of a flight, with its stand.
fn verdict_on_schedule(rt: &impl Abort, core: &mut Core, flight: u64, stand: u16) -> Verdict {
    let schedule = scheduled_at(rt, flight, stand);
    verdict_on(rt, core, Role::AirportOperator, SEVEN, schedule)
}

fn takes_all(rt: &impl Abort, core: &mut Core) {
    assert!(rt; create_all(rt, core));
    assert!(rt; lists_all(rt, core));
}

fn judges(rt: &impl Abort, verdict: Verdict, wanted: Verdict) {
    assert_eq!(rt; verdict, wanted);
}

fn takes_no_more(rt: &impl Abort, core: &mut Core) {
    let full = Verdict::Refused(Refusal::FullBoard);
    judges(rt, verdict_on_plan(rt, core, 4097), full);
    judges(rt, verdict_on_schedule(rt, core, 4097, 1), full);
    judges(rt, verdict_on_plan(rt, core, 1), Verdict::Accepted);
}

fn fills(rt: &impl Abort, core: &mut Core) {
    takes_all(rt, core);
    takes_no_more(rt, core);
}

#[test]
fn a_board_takes_4096_flights(rt: HostRuntime) {
    goes_well(&rt, rt.alloc(), Case::Filled);
}

fn stand_of(core: &Core, flight: u64) -> u64 {
    match core.record_of(flight) {
        Some(record) => record.get(Field::Stand),
        None => 0,
    }
}

// Three flights come onto the board, each with a stand of its own.
fn schedule_three(rt: &impl Abort, core: &mut Core) {
    for i in 0..3 {
        verdict_on_schedule(rt, core, ALIKE[i], i as u16 + 10);
    }
}

// The verdict where a flight is to be shown.
fn verdict_on_show(rt: &impl Abort, core: &mut Core, flight: u64) -> Verdict {
    verdict_on(rt, core, Role::GroundHandler, SEVEN, show(rt, flight))
}

fn keeps_apart(rt: &impl Abort, core: &mut Core) {
    schedule_three(rt, core);
    let stands = [10, 11, 12, 0];
    for i in 0..4 {
        same_at(rt, i as u64, stand_of(core, ALIKE[i]), stands[i]);
    }
    let unknown = Verdict::Refused(Refusal::UnknownFlight);
    judges(rt, verdict_on_show(rt, core, ALIKE[3]), unknown);
}

#[test]
fn flights_whose_numbers_have_one_hash_are_kept_apart(rt: HostRuntime) {
    goes_well(&rt, rt.alloc(), Case::OneHash);
}
