//! Each milestone, admitted once and refused once for each reason, by the published table.
use crate::fixture::{holds, same_at, same_number};
use acdm_milestones::{
    Action, Milestone, Refusal, Role, admit, has_reached, mark_reached, owns, set_time,
};
use acdm_record::{Field, Record};
use std::process::Abort;

const NM: Role = Role::NetworkManager;

const ATC: Role = Role::AirTrafficControl;

const APT: Role = Role::AirportOperator;

const AO: Role = Role::AircraftOperator;

const GH: Role = Role::GroundHandler;

const DIC: Role = Role::DeicingCompany;

const ROLES: [Role; 6] = [NM, ATC, APT, AO, GH, DIC];

// The milestone of a number of the table.
fn numbered(rt: &impl Abort, number: u64) -> Milestone {
    Milestone::from_number(number).expect(rt, "a number of the table")
}

// A report of a milestone at a time is answered so.
fn answers(
    rt: &impl Abort,
    record: &Record,
    role: Role,
    milestone: Milestone,
    time: u32,
    answer: Result<(), Refusal>,
) {
    let number = milestone.number();
    assert_eq!(rt; admit(record, role, milestone, time), answer, "{number}");
}

// One row of the table: number, an owner, a role that is none, the milestones needed, whether TOBT
// or TSAT is needed, and the milestone that bars it.
#[derive(Clone, Copy)]
struct Row {
    number: u64,
    owner: Role,
    other: Role,
    needs: [u32; 3],
    set: Option<Field>,
    bar: u32,
}

const fn make_row(
    number: u64,
    owner: Role,
    other: Role,
    needs: [u32; 3],
    set: Option<Field>,
    bar: u32,
) -> Row {
    Row {
        number,
        owner,
        other,
        needs,
        set,
        bar,
    }
}

// A record with these milestones reached (0 for none) and this time set.
fn record_with(reached: &[u32], set: Option<Field>) -> Record {
    let mut record = Record::new(7);
    for bit in reached {
        if 1 <= *bit && *bit <= 16 {
            mark_reached(&mut record, *bit);
        }
    }
    match set {
        Some(Field::Tobt) => record.set(Field::Tobt, 29_000_760),
        Some(Field::Tsat) => record.set(Field::Tsat, 29_000_760),
        _ => {}
    }
    record
}

fn rows() -> [Row; 16] {
    let tobt = Some(Field::Tobt);
    let tsat = Some(Field::Tsat);
    [
        make_row(1, NM, ATC, [0, 0, 0], None, 15),
        make_row(2, NM, APT, [0, 0, 1], None, 16),
        make_row(3, NM, GH, [0, 0, 1], None, 6),
        make_row(4, ATC, NM, [0, 0, 1], None, 6),
        make_row(5, ATC, AO, [0, 0, 1], None, 6),
        make_row(6, ATC, APT, [0, 0, 1], None, 7),
        make_row(7, APT, ATC, [1, 0, 6], None, 15),
        make_row(8, GH, AO, [1, 0, 7], None, 15),
        make_row(9, GH, ATC, [0, 0, 1], None, 14),
        make_row(10, ATC, GH, [0, 0, 1], tobt, 15),
        make_row(11, AO, APT, [0, 0, 1], tobt, 15),
        make_row(12, GH, NM, [0, 0, 1], tobt, 15),
        make_row(13, ATC, AO, [1, 0, 10], tsat, 15),
        make_row(14, ATC, APT, [1, 10, 13], tsat, 15),
        make_row(15, APT, GH, [1, 0, 14], None, 16),
        make_row(16, ATC, APT, [1, 0, 15], None, 16),
    ]
}

const TIME: u32 = 29_000_700;

// It is refused before what it needs last was reached, and where the time that it needs is not set.
fn refuses_early(rt: &impl Abort, row: &Row, milestone: Milestone) {
    let [first, second, last] = row.needs;
    if last != 0 {
        let early = record_with([first, second].as_slice(), row.set);
        let missing = Err(Refusal::MissingMilestone);
        answers(rt, &early, row.owner, milestone, TIME, missing);
    }
    if row.set.is_some() {
        let unset = record_with([first, second, last].as_slice(), None);
        let not_set = Err(Refusal::NotSet);
        answers(rt, &unset, row.owner, milestone, TIME, not_set);
    }
}

// It is refused once the milestone that bars it was reached.
fn refuses_late(rt: &impl Abort, row: &Row, milestone: Milestone, record: &mut Record) {
    if row.bar <= 16 {
        mark_reached(record, row.bar);
    }
    let barred = Err(Refusal::Barred);
    answers(rt, record, row.owner, milestone, TIME, barred);
}

fn admits_and_refuses(rt: &impl Abort, row: &Row) {
    let milestone = numbered(rt, row.number);
    same_number(rt, u64::from(milestone.number()), row.number);
    let mut record = record_with(row.needs.as_slice(), row.set);
    answers(rt, &record, row.owner, milestone, TIME, Ok(()));
    let not_owner = Err(Refusal::NotOwner);
    answers(rt, &record, row.other, milestone, TIME, not_owner);
    refuses_early(rt, row, milestone);
    refuses_late(rt, row, milestone, &mut record);
}

#[test]
fn each_milestone_is_admitted_and_refused(rt: HostRuntime) {
    for row in rows() {
        admits_and_refuses(&rt, &row);
    }
}

// The milestone that a time of its neighbor bounds, that neighbor, and whether the neighbor is the
// earlier.
#[test]
fn times_stay_in_order(rt: HostRuntime) {
    let cases = [
        (Milestone::InBlock, APT, [1, 6, 0], Field::Aldt, true),
        (
            Milestone::GroundHandlingStarts,
            GH,
            [1, 7, 0],
            Field::Aibt,
            true,
        ),
        (
            Milestone::StartUpApproved,
            ATC,
            [1, 10, 13],
            Field::Asrt,
            true,
        ),
        (Milestone::TakeOff, ATC, [1, 15, 0], Field::Aobt, true),
        (Milestone::Landed, ATC, [1, 0, 0], Field::Aibt, false),
        (
            Milestone::StartUpRequest,
            ATC,
            [1, 10, 0],
            Field::Asat,
            false,
        ),
        (Milestone::OffBlock, ATC, [1, 14, 0], Field::Atot, false),
    ];
    for (milestone, role, needs, neighbor, is_earlier) in cases {
        let mut record = record_with(needs.as_slice(), Some(Field::Tsat));
        set_neighbor(&mut record, neighbor);
        let wrong = if is_earlier { TIME - 1 } else { TIME + 1 };
        let order = Err(Refusal::TimeOrder);
        answers(&rt, &record, role, milestone, wrong, order);
        answers(&rt, &record, role, milestone, TIME, Ok(()));
    }
}

fn set_neighbor(record: &mut Record, field: Field) {
    match field {
        Field::Aldt => record.set(Field::Aldt, 29_000_700),
        Field::Aibt => record.set(Field::Aibt, 29_000_700),
        Field::Asrt => record.set(Field::Asrt, 29_000_700),
        Field::Aobt => record.set(Field::Aobt, 29_000_700),
        Field::Asat => record.set(Field::Asat, 29_000_700),
        Field::Atot => record.set(Field::Atot, 29_000_700),
        _ => {}
    }
}

#[test]
fn the_first_refusal_is_answered(rt: HostRuntime) {
    let at = Milestone::StartUpRequest;
    let mut record = record_with([15].as_slice(), None);
    answers(&rt, &record, APT, at, 1, Err(Refusal::NotOwner));
    answers(&rt, &record, ATC, at, 1, Err(Refusal::MissingMilestone));
    mark_reached(&mut record, 1);
    mark_reached(&mut record, 10);
    answers(&rt, &record, ATC, at, 1, Err(Refusal::Barred));
}

#[test]
fn a_deleted_tobt_clears_tsat(rt: HostRuntime) {
    let mut record = record_with([1].as_slice(), Some(Field::Tsat));
    set_time(&mut record, Milestone::TobtUpdate, 29_000_700);
    holds(&rt, &record, Field::Tobt, 29_000_700);
    holds(&rt, &record, Field::Tsat, 29_000_760);
    set_time(&mut record, Milestone::TobtUpdate, 0);
    holds(&rt, &record, Field::Tobt, 0);
    holds(&rt, &record, Field::Tsat, 0);
}

// A role may do this, or may not.
fn may(rt: &impl Abort, role: Role, action: Action, expected: bool) {
    assert!(rt; owns(role, action) == expected);
}

#[test]
fn questions_are_everyones_and_commands_the_airports(rt: HostRuntime) {
    for role in ROLES {
        let is_airport = role == APT;
        for action in [Action::Schedule, Action::Load, Action::Unload, Action::Tick] {
            may(&rt, role, action, is_airport);
        }
        may(&rt, role, Action::Show, true);
        may(&rt, role, Action::Alerts, true);
    }
    may(&rt, AO, Action::Report(Milestone::BoardingStarts), true);
    may(&rt, ATC, Action::Report(Milestone::OffBlock), true);
}

#[test]
fn numbers_outside_the_table_are_no_milestones(rt: HostRuntime) {
    for number in [0, 17] {
        assert!(rt; Milestone::from_number(number).is_none());
    }
    assert!(rt; !has_reached(&Record::new(7), 0));
    same_number(&rt, u64::from(Refusal::FullBoard.code()), 503);
}

// Whether NM, ATC, APT, AO, GH and DIC report each milestone, from 1 on.
const REPORTERS: [[bool; 6]; 16] = [
    [true, false, false, false, false, false],
    [true, false, false, false, false, false],
    [true, false, false, false, false, false],
    [false, true, false, false, false, false],
    [false, true, false, false, false, false],
    [false, true, false, false, false, false],
    [false, false, true, false, false, false],
    [false, false, false, false, true, false],
    [false, false, false, true, true, false],
    [false, true, false, false, false, false],
    [false, false, false, true, true, false],
    [false, false, false, true, true, false],
    [false, true, false, false, false, false],
    [false, true, false, false, false, false],
    [false, true, true, false, false, false],
    [false, true, false, false, false, false],
];

// The roles report the milestone of this number, or do not, in the order of ROLES.
fn has_reporters(rt: &impl Abort, number: u64, reporters: &[bool; 6]) {
    let milestone = numbered(rt, number);
    for i in 0..6 {
        let reports = owns(ROLES[i], Action::Report(milestone));
        same_at(rt, number, u64::from(reports), u64::from(reporters[i]));
    }
}

#[test]
fn each_milestone_has_its_reporters_and_no_others(rt: HostRuntime) {
    for (place, reporters) in REPORTERS.iter().enumerate() {
        has_reporters(&rt, place as u64 + 1, reporters);
    }
}

// An action belongs to one role alone.
fn belongs_to(rt: &impl Abort, action: Action, owner: Role) {
    for role in &ROLES {
        assert!(rt; owns(*role, action) == (*role == owner), "{role:?}");
    }
}

#[test]
fn a_migrate_is_the_airports_and_a_time_of_deicing_the_companys(rt: HostRuntime) {
    belongs_to(&rt, Action::Migrate, APT);
    belongs_to(&rt, Action::Deice, DIC);
    belongs_to(&rt, Action::Tick, APT);
    assert!(rt; owns(DIC, Action::Show) && owns(DIC, Action::Alerts));
}

// The time of the milestone of this number is set in this field.
fn sets(rt: &impl Abort, number: u64, field: Field) {
    let milestone = numbered(rt, number);
    let mut record = Record::new(7);
    set_time(&mut record, milestone, 29_000_700);
    same_at(rt, number, record.get(field), 29_000_700);
}

#[test]
fn each_time_is_set_in_its_field(rt: HostRuntime) {
    let fields = [
        Field::Eobt,
        Field::Ctot,
        Field::Otot,
        Field::Eldt,
        Field::Eldt,
        Field::Aldt,
        Field::Aibt,
        Field::Acgt,
        Field::Tobt,
        Field::Tsat,
        Field::Asbt,
        Field::Ardt,
        Field::Asrt,
        Field::Asat,
        Field::Aobt,
        Field::Atot,
    ];
    for (place, field) in fields.iter().enumerate() {
        sets(&rt, place as u64 + 1, *field);
    }
}
