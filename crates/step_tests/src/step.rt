//! Alerts and local programs of the board, by the profile's worked examples.
use crate::fixture::{TAXI, checked, no_sigs, same_bytes, same_number, taxi_sigs};
use acdm_milestones::{Milestone, Role};
use acdm_record::{Field, Record, Text};
use acdm_slots::Kind;
use acdm_step::{
    AlertList, Alerted, Answers, Command, Core, Durations, Entry, FlightNumber, FlightPlan, Load,
    Outcome, Report, Schedule, Unload, Verdict,
};
use bpf_helpers::{Logged, Sigs};
use std::alloc::Global;
use std::mem::size_of;
use std::process::Abort;

// 2025-02-20T07:00Z, 09:00Z and 10:00Z.
const SEVEN: u32 = 29_000_580;

const NINE: u32 = 29_000_700;

const TEN: u32 = 29_000_760;

// The minutes of a turn-round.
pub(crate) const DURATIONS: Durations = Durations {
    mttt: 40,
    exit: 5,
    exot: 10,
};

pub(crate) fn plan(rt: &impl Abort) -> FlightPlan {
    FlightPlan {
        callsign: Text::from_bytes(b"DLH7").expect(rt, "a callsign"),
        aircraft: Text::from_bytes(b"A320").expect(rt, "a type"),
        registration: Text::from_bytes(b"DAIBC").expect(rt, "a registration"),
        destination: Text::from_bytes(b"EDDM").expect(rt, "a destination"),
    }
}

// Flight 7, at 2025-02-20T10:00Z.
fn scheduled(rt: &impl Abort) -> Command {
    let schedule = Schedule::new(7, plan(rt), TEN, DURATIONS, 12);
    Command::Schedule(schedule)
}

fn planned(rt: &impl Abort) -> Command {
    let report = Report::new(7, Milestone::FlightPlanActivated, TEN, Some(plan(rt)));
    Command::Report(report)
}

// A report of flight 7 without a plan.
fn reported(rt: &impl Abort, milestone: Milestone, time: u32) -> Command {
    if matches!(milestone, Milestone::FlightPlanActivated) || time == 0 {
        panic!(rt; "a plan or no time");
    }
    Command::Report(Report::new(7, milestone, time, None))
}

// A load of these bytes, checked against these signatures.
fn loaded(
    rt: &impl Abort,
    alloc: Global,
    milestone: Milestone,
    kind: Kind,
    text: &str,
    sigs: &Sigs,
) -> Command {
    let program = checked(rt, alloc, sigs, text);
    Command::Load(Load {
        milestone,
        kind,
        program,
    })
}

// A command whose programs are answered from a list.
fn answered(
    rt: &impl Abort,
    core: &mut Core,
    answers: &[u64],
    role: Role,
    moment: u32,
    command: &Command,
) -> Outcome {
    let sigs = core.sigs().copy().expect(rt, "signatures");
    let mut oracle = Logged::new(&sigs, answers);
    core.apply(&mut oracle, role, moment, command)
        .expect(rt, "an outcome")
}

// A command whose programs call no helper.
pub(crate) fn done(
    rt: &impl Abort,
    core: &mut Core,
    role: Role,
    moment: u32,
    command: &Command,
) -> Outcome {
    answered(rt, core, &[], role, moment, command)
}

// What comes of one that is of no use afterwards.
pub(crate) fn entered(
    rt: &impl Abort,
    core: &mut Core,
    role: Role,
    moment: u32,
    command: Command,
) -> Outcome {
    done(rt, core, role, moment, &command)
}

// The verdict on one.
pub(crate) fn verdict_on(
    rt: &impl Abort,
    core: &mut Core,
    role: Role,
    moment: u32,
    command: Command,
) -> Verdict {
    entered(rt, core, role, moment, command).verdict()
}

// The number of a verdict, from 0 for an accepted one.
fn code_of(verdict: Verdict) -> u64 {
    match verdict {
        Verdict::Accepted => 0,
        Verdict::Refused(refusal) => u64::from(refusal.code()),
    }
}

// What a field of the flight holds.
fn field_of(rt: &impl Abort, core: &Core, field: Field) -> u64 {
    core.record_of(7).expect(rt, "no flight").get(field)
}

// A field of the flight holds this value.
fn holds(rt: &impl Abort, core: &Core, field: Field, value: u64) {
    same_number(rt, field_of(rt, core, field), value);
}

// A command is refused by this number, or accepted for 0.
fn judges(rt: &impl Abort, core: &mut Core, role: Role, moment: u32, command: Command, code: u64) {
    let verdict = verdict_on(rt, core, role, moment, command);
    same_number(rt, code_of(verdict), code);
}

// The flight gets its schedule, at a moment.
fn schedule(rt: &impl Abort, core: &mut Core, moment: u32) {
    verdict_on(rt, core, Role::AirportOperator, moment, scheduled(rt));
}

// It gets its plan.
fn activate(rt: &impl Abort, core: &mut Core, moment: u32) {
    verdict_on(rt, core, Role::NetworkManager, moment, planned(rt));
}

// A board without flights, for programs that call no helper.
pub(crate) fn empty_board(rt: &impl Abort, alloc: Global) -> Core {
    Core::new(alloc, no_sigs(rt, alloc)).expect(rt, "a board")
}

// A board for programs that call helper 2.
fn asking_board(rt: &impl Abort, alloc: Global) -> Core {
    Core::new(alloc, taxi_sigs(rt, alloc)).expect(rt, "a board")
}

// What is done to a board of its own, and what is told of it. One function makes all of these
// boards, since each that owns one is dear to prove.
#[derive(Clone, Copy)]
enum Case {
    UntilTheSchedule,
    Tick,
    Shown,
    Listed,
    EmptySlot,
    OwnPrograms,
    Copied,
    NoAnswer,
    OtherHelpers,
    Room(&'static str, u64),
}

fn board_for(rt: &impl Abort, alloc: Global, case: Case) -> Core {
    match case {
        Case::Copied | Case::NoAnswer | Case::OtherHelpers | Case::Room(_, _) => {
            asking_board(rt, alloc)
        }
        _ => empty_board(rt, alloc),
    }
}

fn tells_of(rt: &impl Abort, alloc: Global, core: &mut Core, case: Case) {
    match case {
        Case::UntilTheSchedule => tells_until_the_schedule(rt, core),
        Case::Tick => tells_on_a_tick(rt, core),
        Case::Shown => shows(rt, core),
        Case::Listed => lists(rt, core),
        Case::EmptySlot => tells_of_an_empty_slot(rt, core),
        Case::OwnPrograms => runs_three(rt, alloc, core),
        Case::Copied => copies(rt, alloc, core),
        Case::NoAnswer => asks(rt, alloc, core),
        Case::OtherHelpers => refuses_other(rt, alloc, core),
        Case::Room(text, room) => needs_room(rt, alloc, core, text, room),
    }
}

fn goes_well(rt: &impl Abort, alloc: Global, case: Case) {
    let mut core = board_for(rt, alloc, case);
    tells_of(rt, alloc, &mut core, case);
}

fn tells_until_the_schedule(rt: &impl Abort, core: &mut Core) {
    activate(rt, core, SEVEN);
    holds(rt, core, Field::Alerts, 2);
    schedule(rt, core, SEVEN);
    holds(rt, core, Field::Alerts, 0);
}

#[test]
fn a_flight_plan_without_a_slot_is_told_until_the_schedule(rt: HostRuntime) {
    goes_well(&rt, rt.alloc(), Case::UntilTheSchedule);
}

fn tells_on_a_tick(rt: &impl Abort, core: &mut Core) {
    schedule(rt, core, SEVEN - 1);
    let rows = [
        (Role::NetworkManager, 201, 0),
        (Role::AirportOperator, 0, 1 << 13),
    ];
    holds(rt, core, Field::Alerts, 0);
    for (role, code, alerts) in rows {
        judges(rt, core, role, SEVEN, Command::Tick, code);
        holds(rt, core, Field::Alerts, alerts);
    }
}

#[test]
fn a_tick_tells_a_missing_flight_plan(rt: HostRuntime) {
    goes_well(&rt, rt.alloc(), Case::Tick);
}

// A question for the record of a flight.
pub(crate) fn show(rt: &impl Abort, flight: u64) -> Command {
    if flight == 0 {
        panic!(rt; "no flight");
    }
    Command::Show(FlightNumber::new(flight))
}

// What a field of a shown flight holds.
fn shown(rt: &impl Abort, core: &mut Core, flight: u64, field: Field) -> u64 {
    match entered(rt, core, Role::GroundHandler, 1, show(rt, flight)) {
        Outcome::Shown(record) => record.get(field),
        _ => panic!(rt; "no record"),
    }
}

fn shows(rt: &impl Abort, core: &mut Core) {
    schedule(rt, core, SEVEN);
    for (field, value) in [(Field::Sobt, 29_000_760), (Field::Stand, 12)] {
        same_number(rt, shown(rt, core, 7, field), value);
    }
    judges(rt, core, Role::GroundHandler, 1, show(rt, 8), 202);
}

#[test]
fn a_record_is_shown_of_a_flight_that_is_there(rt: HostRuntime) {
    goes_well(&rt, rt.alloc(), Case::Shown);
}

pub(crate) fn listed(rt: &impl Abort, core: &mut Core, moment: u32) -> AlertList {
    match entered(rt, core, Role::GroundHandler, moment, Command::Alerts) {
        Outcome::Listed(list) => list,
        _ => panic!(rt; "no list"),
    }
}

// Whether flight 7 alone is listed, with these alerts.
fn is_of_flight_7(list: &[Alerted], word: u32) -> bool {
    match list.first() {
        Some(first) => list.len() == 1 && first.flight == 7 && first.alerts.word() == word,
        None => false,
    }
}

// Whether the list of alerts has that flight alone, with CDM01, and whether it is empty.
fn list_of(rt: &impl Abort, core: &mut Core) -> (bool, bool) {
    let list = listed(rt, core, 1);
    (
        is_of_flight_7(list.as_slice(), 2),
        list.as_slice().is_empty(),
    )
}

fn lists(rt: &impl Abort, core: &mut Core) {
    activate(rt, core, SEVEN);
    assert!(rt; list_of(rt, core).0);
    schedule(rt, core, SEVEN);
    assert!(rt; list_of(rt, core).1);
}

#[test]
fn flights_with_alerts_are_listed(rt: HostRuntime) {
    goes_well(&rt, rt.alloc(), Case::Listed);
}

// r0 = TOBT of the record.
const TOBT_OF_RECORD: &str = "61106000000000009500000000000000";

// r0 = 0.
const NOTHING: &str = "b7000000000000009500000000000000";

// r0 = the milestone.
const MILESTONE: &str = "bf400000000000009500000000000000";

// r0 = the moment and 10 minutes.
const TEN_LATER: &str = "bf30000000000000070000000a0000009500000000000000";

// Loads a program into a slot.
fn load(
    rt: &impl Abort,
    alloc: Global,
    core: &mut Core,
    moment: u32,
    milestone: Milestone,
    kind: Kind,
    text: &str,
) {
    let load = loaded(rt, alloc, milestone, kind, text, core.sigs());
    verdict_on(rt, core, Role::AirportOperator, moment, load);
}

// Loads a program that may call helper 2 for the alerts of milestone 9.
fn load_asking(rt: &impl Abort, alloc: Global, core: &mut Core, text: &str) {
    load(
        rt,
        alloc,
        core,
        SEVEN,
        Milestone::TobtUpdate,
        Kind::Alert,
        text,
    );
}

// The flight is scheduled and planned.
fn begin(rt: &impl Abort, core: &mut Core, moment: u32) {
    schedule(rt, core, moment);
    activate(rt, core, moment);
}

// Milestone 9 gets two programs: one of three instructions sets the target, and one of four asks
// helper 2.
fn load_both(rt: &impl Abort, alloc: Global, core: &mut Core) {
    let at = Milestone::TobtUpdate;
    load(rt, alloc, core, SEVEN, at, Kind::Tobt, TEN_LATER);
    load_asking(rt, alloc, core, TAXI);
    begin(rt, core, SEVEN);
    has_both(rt, core);
}

// Both are still there.
fn has_both(rt: &impl Abort, core: &Core) {
    same_number(rt, core.room(&target(rt)), 7);
}

// A report of milestone 9.
fn target(rt: &impl Abort) -> Command {
    reported(rt, Milestone::TobtUpdate, TEN)
}

fn record_of(rt: &impl Abort, core: &Core) -> Record {
    core.record_of(7).expect(rt, "no flight").copy()
}

// The flight's record has the bytes of this one.
fn stays(rt: &impl Abort, core: &Core, before: &Record) {
    let now = record_of(rt, core);
    same_bytes(rt, now.bytes(), before.bytes());
}

// A report of milestone 9 whose second program gets no answer.
fn refuses(rt: &impl Abort, core: &mut Core, report: &Command) {
    let before = record_of(rt, core);
    let verdict = done(rt, core, Role::GroundHandler, SEVEN, report).verdict();
    same_number(rt, code_of(verdict), 599);
    stays(rt, core, &before);
    has_both(rt, core);
}

// With its answer both run: the target is ten minutes later, which is CDM08 and CDM09, and 10 is
// LOC01 and LOC03.
fn accepts(rt: &impl Abort, core: &mut Core, report: &Command) {
    answered(rt, core, &[10], Role::GroundHandler, SEVEN, report);
    holds(rt, core, Field::Alerts, 655_360 + 768);
    holds(rt, core, Field::Tobt, 29_000_590);
}

fn refuses_and_accepts(rt: &impl Abort, core: &mut Core, report: &Command) {
    refuses(rt, core, report);
    accepts(rt, core, report);
}

fn asks(rt: &impl Abort, alloc: Global, core: &mut Core) {
    load_both(rt, alloc, core);
    refuses_and_accepts(rt, core, &target(rt));
}

#[test]
fn a_program_that_gets_no_answer_refuses_its_report(rt: HostRuntime) {
    goes_well(&rt, rt.alloc(), Case::NoAnswer);
}

// For how many answers a report of milestone 9 needs room.
fn room_on(rt: &impl Abort, core: &Core) -> u64 {
    core.answers_room(&reported(rt, Milestone::TobtUpdate, TEN))
}

// The same, where this program judges its alerts.
fn room_with(rt: &impl Abort, alloc: Global, core: &mut Core, text: &str) -> u64 {
    load_asking(rt, alloc, core, text);
    room_on(rt, core)
}

// So much where this program judges its alerts.
fn needs_room(rt: &impl Abort, alloc: Global, core: &mut Core, text: &str, room: u64) {
    same_number(rt, room_with(rt, alloc, core, text), room);
}

#[test]
fn answers_get_room_where_a_helper_is_called(rt: HostRuntime) {
    goes_well(&rt, rt.alloc(), Case::Room(TAXI, 4));
    goes_well(&rt, rt.alloc(), Case::Room(MILESTONE, 0));
}

// A load of a program that was checked for no helper.
fn load_of_other(rt: &impl Abort, alloc: Global, kind: Kind) -> Command {
    let others = no_sigs(rt, alloc);
    let at = Milestone::TobtUpdate;
    loaded(rt, alloc, at, kind, NOTHING, &others)
}

// It comes into neither slot of milestone 9.
fn refuses_load(rt: &impl Abort, alloc: Global, core: &mut Core, kind: Kind) {
    let load = load_of_other(rt, alloc, kind);
    judges(rt, core, Role::AirportOperator, SEVEN, load, 322);
    has_both(rt, core);
}

fn refuses_other(rt: &impl Abort, alloc: Global, core: &mut Core) {
    load_both(rt, alloc, core);
    let before = record_of(rt, core);
    refuses_load(rt, alloc, core, Kind::Tobt);
    refuses_load(rt, alloc, core, Kind::Alert);
    stays(rt, core, &before);
    accepts(rt, core, &target(rt));
}

#[test]
fn a_program_for_other_helpers_is_not_loaded(rt: HostRuntime) {
    goes_well(&rt, rt.alloc(), Case::OtherHelpers);
}

fn tells_of_an_empty_slot(rt: &impl Abort, core: &mut Core) {
    let unload = Command::Unload(Unload {
        milestone: Milestone::TobtUpdate,
        kind: Kind::Alert,
    });
    judges(rt, core, Role::AirportOperator, SEVEN, unload, 321);
}

#[test]
fn an_empty_slot_is_told_first_on_a_new_board(rt: HostRuntime) {
    goes_well(&rt, rt.alloc(), Case::EmptySlot);
}

// Programs come into three slots: both of milestone 7, and the alert slot of milestone 8.
fn load_three(rt: &impl Abort, alloc: Global, core: &mut Core) {
    let rows = [
        (Milestone::InBlock, Kind::Tobt, TEN_LATER),
        (Milestone::InBlock, Kind::Alert, TOBT_OF_RECORD),
        (Milestone::GroundHandlingStarts, Kind::Alert, MILESTONE),
    ];
    for (milestone, kind, text) in rows {
        load(rt, alloc, core, NINE, milestone, kind, text);
    }
}

// A report is done. The room that it needed.
fn room_of_report(rt: &impl Abort, core: &mut Core, role: Role, milestone: Milestone) -> u64 {
    let report = reported(rt, milestone, NINE);
    let room = core.room(&report);
    done(rt, core, role, NINE, &report);
    room
}

// The room that a report needs, and TOBT and the local alerts after it.
fn after_report(
    rt: &impl Abort,
    core: &mut Core,
    role: Role,
    milestone: Milestone,
) -> (u64, u64, u64) {
    let room = room_of_report(rt, core, role, milestone);
    let locals = field_of(rt, core, Field::Alerts) / 65536;
    (room, field_of(rt, core, Field::Tobt), locals)
}

// The room that a report needs, and TOBT and the local alerts after it, are these.
fn tells_after(
    rt: &impl Abort,
    core: &mut Core,
    role: Role,
    milestone: Milestone,
    told: (u64, u64, u64),
) {
    assert!(rt; after_report(rt, core, role, milestone) == told);
}

fn runs_its_own(rt: &impl Abort, core: &mut Core) {
    tells_after(
        rt,
        core,
        Role::AirTrafficControl,
        Milestone::Landed,
        (0, 0, 0),
    );
    // The alert program reads the TOBT that the other one gave, of which the low 16 bits are 33798.
    let in_block = (5, 29_000_710, 33_798);
    tells_after(
        rt,
        core,
        Role::AirportOperator,
        Milestone::InBlock,
        in_block,
    );
    let handled = (2, 29_000_710, 8);
    tells_after(
        rt,
        core,
        Role::GroundHandler,
        Milestone::GroundHandlingStarts,
        handled,
    );
}

fn runs_three(rt: &impl Abort, alloc: Global, core: &mut Core) {
    load_three(rt, alloc, core);
    begin(rt, core, NINE);
    runs_its_own(rt, core);
}

#[test]
fn each_milestone_runs_its_own_programs(rt: HostRuntime) {
    goes_well(&rt, rt.alloc(), Case::OwnPrograms);
}

fn copied(rt: &impl Abort, outcome: &Outcome) -> AlertList {
    match outcome.copy().expect(rt, "a copy") {
        Outcome::Listed(list) => list,
        _ => panic!(rt; "no list"),
    }
}

// Whether a copy of the list of alerts has that flight alone, with LOC01 and LOC03.
fn is_copied(rt: &impl Abort, core: &mut Core) -> bool {
    let listed = entered(rt, core, Role::GroundHandler, 1, Command::Alerts);
    is_of_flight_7(copied(rt, &listed).as_slice(), 655_360)
}

fn copies(rt: &impl Abort, alloc: Global, core: &mut Core) {
    load_asking(rt, alloc, core, TAXI);
    begin(rt, core, SEVEN);
    let report = target(rt);
    answered(rt, core, &[10], Role::GroundHandler, SEVEN, &report);
    assert!(rt; is_copied(rt, core));
}

#[test]
fn a_copy_of_an_outcome_equals_it(rt: HostRuntime) {
    goes_well(&rt, rt.alloc(), Case::Copied);
}

// The answers are 10 and 45.
fn are_in_order(rt: &impl Abort, answers: &[u64]) {
    assert!(rt; answers == [10, 45].as_slice());
}

#[test]
fn answers_are_kept_in_order(rt: HostRuntime) {
    let items = vec![in rt.alloc(); 10u64, 45].expect(&rt, "a list");
    let answers = Answers::new(rt.alloc(), items).expect(&rt, "answers");
    are_in_order(&rt, answers.as_slice());
    assert!(rt; Answers::none().as_slice().is_empty());
}

// With its cell and what malloc adds, it takes 104 bytes of a journal.
#[test]
fn an_entry_takes_80_bytes(rt: HostRuntime) {
    let command = size_of::<Command>();
    assert!(rt; command == 48, "a command takes {command}");
    let entry = size_of::<Entry>();
    assert!(rt; entry == 80, "an entry takes {entry}");
}
