//! Alerts of single records, by the published conditions.
use crate::fixture::{holds, same_bytes, same_number};
use acdm_alerts::{AlertSet, builtin, push_names, write_names};
use acdm_milestones::mark_reached;
use acdm_record::{Field, Record, TextField};
use arrayvec::ArrayVec;
use std::alloc::Global;
use std::process::Abort;

// 2025-02-20T10:00Z.
const TEN: u32 = 29_000_760;

fn names_of(rt: &impl Abort, alloc: Global, alerts: AlertSet) -> Vec<u8> {
    let mut text = Vec::new(alloc);
    write_names(alerts, &mut text).expect(rt, "written names");
    text
}

fn scheduled_and_planned() -> Record {
    let mut record = Record::new(7);
    mark_reached(&mut record, 0);
    mark_reached(&mut record, 1);
    record.set(Field::Sobt, u64::from(TEN));
    record.set(Field::Eobt, u64::from(TEN));
    record.set(Field::Mttt, 40);
    record.set(Field::Exit, 5);
    record
}

// The alerts of a record at a moment have these names.
fn tells(rt: &impl Abort, alloc: Global, record: &Record, moment: u32, names: &str) {
    let alerts = builtin(record, moment);
    assert!(rt; alerts.is_empty() == names.is_empty());
    same_bytes(rt, names_of(rt, alloc, alerts).as_slice(), names.as_bytes());
}

// A time of the record is set, or at a moment its alerts have these names.
#[derive(Clone, Copy)]
enum Step {
    Set(Field, u32),
    Told(u32, &'static str),
}

fn set(record: &mut Record, field: Field, time: u32) {
    let time = u64::from(time);
    match field {
        Field::Sobt => record.set(Field::Sobt, time),
        Field::Eobt => record.set(Field::Eobt, time),
        Field::Eldt => record.set(Field::Eldt, time),
        Field::Aldt => record.set(Field::Aldt, time),
        Field::Aibt => record.set(Field::Aibt, time),
        Field::Tobt => record.set(Field::Tobt, time),
        Field::Tsat => record.set(Field::Tsat, time),
        Field::Asbt => record.set(Field::Asbt, time),
        Field::Asat => record.set(Field::Asat, time),
        _ => {}
    }
}

fn follows(rt: &impl Abort, alloc: Global, record: &mut Record, steps: &[Step]) {
    for step in steps {
        match *step {
            Step::Set(field, time) => set(record, field, time),
            Step::Told(moment, names) => tells(rt, alloc, record, moment, names),
        }
    }
}

#[test]
fn a_flight_as_planned_has_no_alert(rt: HostRuntime) {
    tells(&rt, rt.alloc(), &scheduled_and_planned(), TEN - 180, "");
}

#[test]
fn sums_do_not_wrap_at_the_last_minute(rt: HostRuntime) {
    let mut record = Record::new(0);
    mark_reached(&mut record, 1);
    set(&mut record, Field::Tobt, 4_294_967_295);
    tells(&rt, rt.alloc(), &record, 4_294_967_290, "CDM01,CDM09");
}

#[test]
fn plans_that_differ_are_told(rt: HostRuntime) {
    let mut record = scheduled_and_planned();
    record.set(Field::Eobt, u64::from(TEN) + 1);
    record.set_text(TextField::ScheduledType, b"A320");
    record.set_text(TextField::PlanType, b"A321");
    record.set_text(TextField::ScheduledRegistration, b"DAIBC");
    record.set_text(TextField::PlanRegistration, b"DAIBD");
    record.set_text(TextField::ScheduledDestination, b"EDDM");
    record.set_text(TextField::PlanDestination, b"EDDF");
    tells(&rt, rt.alloc(), &record, 1, "CDM02,CDM03,CDM04,CDM05");
}

#[test]
fn a_flight_without_a_plan_is_told_three_hours_before(rt: HostRuntime) {
    let mut record = Record::new(7);
    mark_reached(&mut record, 0);
    let steps = [
        Step::Set(Field::Sobt, TEN),
        Step::Told(TEN - 181, ""),
        Step::Told(TEN - 180, "CDM13"),
    ];
    follows(&rt, rt.alloc(), &mut record, &steps);
}

#[test]
fn a_late_turn_round_is_told(rt: HostRuntime) {
    let steps = [
        Step::Set(Field::Eldt, TEN - 45),
        Step::Told(1, ""),
        Step::Set(Field::Eldt, TEN - 44),
        Step::Set(Field::Tobt, TEN),
        Step::Told(1, "CDM07,CDM07a"),
        Step::Set(Field::Aldt, TEN - 45),
        Step::Told(1, ""),
        Step::Set(Field::Aldt, TEN - 44),
        Step::Told(1, "CDM07,CDM07a"),
        Step::Set(Field::Aibt, TEN - 40),
        Step::Told(1, ""),
        Step::Set(Field::Aibt, TEN - 39),
        Step::Told(1, "CDM07,CDM07a"),
    ];
    follows(&rt, rt.alloc(), &mut scheduled_and_planned(), &steps);
}

#[test]
fn times_may_be_early_by_so_many_minutes(rt: HostRuntime) {
    let steps = [
        Step::Set(Field::Eobt, TEN - 1),
        Step::Told(1, "CDM02"),
        Step::Set(Field::Eobt, TEN),
        Step::Set(Field::Tobt, TEN - 15),
        Step::Told(1, ""),
        Step::Set(Field::Tobt, TEN - 16),
        Step::Told(1, "CDM08"),
        Step::Set(Field::Tobt, TEN),
        Step::Set(Field::Tsat, TEN + 5),
        Step::Set(Field::Asat, TEN),
        Step::Told(1, ""),
        Step::Set(Field::Asat, TEN - 1),
        Step::Told(1, "CDM12"),
    ];
    follows(&rt, rt.alloc(), &mut scheduled_and_planned(), &steps);
}

#[test]
fn times_that_drift_apart_are_told(rt: HostRuntime) {
    let steps = [
        Step::Told(1, "CDM10"),
        Step::Set(Field::Tobt, TEN + 15),
        Step::Told(TEN + 4, ""),
        Step::Told(TEN + 5, "CDM09"),
        Step::Set(Field::Tobt, TEN + 16),
        Step::Set(Field::Asbt, TEN),
        Step::Told(TEN + 6, "CDM08"),
        Step::Set(Field::Tsat, TEN + 20),
        Step::Told(TEN + 25, "CDM08"),
        Step::Told(TEN + 26, "CDM08,CDM11"),
        Step::Set(Field::Asat, TEN + 25),
        Step::Told(TEN + 26, "CDM08"),
        Step::Set(Field::Asat, TEN + 26),
        Step::Told(TEN + 26, "CDM08,CDM12"),
    ];
    let mut record = scheduled_and_planned();
    mark_reached(&mut record, 9);
    follows(&rt, rt.alloc(), &mut record, &steps);
}

// The computed alerts are this word, and the record has it once they are stored.
fn are_stored(rt: &impl Abort, record: &mut Record, word: u64) {
    let alerts = builtin(record, 1);
    same_number(rt, u64::from(alerts.word()), word);
    alerts.store(record);
    holds(rt, record, Field::Alerts, word);
    same_number(rt, u64::from(AlertSet::of(record).word()), word);
}

#[test]
fn local_alerts_stay_and_have_names(rt: HostRuntime) {
    let mut record = scheduled_and_planned();
    record.set(Field::Alerts, 0x8001_4002);
    tells(&rt, rt.alloc(), &record, 1, "CDM14,LOC00,LOC15");
    are_stored(&rt, &mut record, 0x8001_4000);
}

// The names of all that is built in, and of the last local alert, behind a colon.
const NAMES: &str =
    ":CDM01,CDM02,CDM03,CDM04,CDM05,CDM07,CDM08,CDM09,CDM10,CDM11,CDM12,CDM13,CDM14,CDM07a,LOC15";

#[test]
fn names_stand_behind_a_text(rt: HostRuntime) {
    let mut text = ArrayVec::<u8, 224>::new();
    text.push(b':');
    push_names(AlertSet::from_word(0x8000_ffbe), &mut text);
    same_bytes(&rt, text.as_slice(), NAMES.as_bytes());
}
