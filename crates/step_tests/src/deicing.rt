//! Times of de-icing, admitted and refused.
use crate::fixture::{holds, same_number};
use acdm_milestones::{
    DeicingTime, Refusal, admit_deicing, has_reached, mark_reached, set_deicing_time,
};
use acdm_record::{Field, Record};
use std::process::Abort;

// 2025-02-20T10:00Z.
const TEN: u32 = 29_000_760;

// What an answer is: 0, or the number of the refusal.
fn code_of(answer: Result<(), Refusal>) -> u64 {
    match answer {
        Ok(()) => 0,
        Err(refusal) => u64::from(refusal.code()),
    }
}

#[test]
fn a_time_of_deicing_needs_a_flight_plan_and_a_flight_that_has_not_left(rt: HostRuntime) {
    let mut record = Record::new(7);
    record.migrate();
    mark_reached(&mut record, 0);
    let answer = admit_deicing(&record, DeicingTime::ActualEnd, TEN);
    same_number(&rt, code_of(answer), 203);
    mark_reached(&mut record, 1);
    let answer = admit_deicing(&record, DeicingTime::ActualEnd, TEN);
    same_number(&rt, code_of(answer), 0);
    mark_reached(&mut record, 15);
    let answer = admit_deicing(&record, DeicingTime::ActualEnd, TEN);
    same_number(&rt, code_of(answer), 0);
    mark_reached(&mut record, 16);
    let answer = admit_deicing(&record, DeicingTime::ActualEnd, TEN);
    same_number(&rt, code_of(answer), 204);
    assert!(rt; !has_reached(&record, 9));
}

#[test]
fn estimated_times_stand_in_their_order(rt: HostRuntime) {
    let mut record = Record::new(7);
    record.migrate();
    mark_reached(&mut record, 1);
    set_deicing_time(&mut record, DeicingTime::EstimatedCommencement, TEN);
    let answer = admit_deicing(&record, DeicingTime::EstimatedEnd, TEN - 1);
    same_number(&rt, code_of(answer), 206);
    let answer = admit_deicing(&record, DeicingTime::EstimatedEnd, TEN);
    same_number(&rt, code_of(answer), 0);
    let answer = admit_deicing(&record, DeicingTime::ActualEnd, TEN - 1);
    same_number(&rt, code_of(answer), 0);
    let answer = admit_deicing(&record, DeicingTime::EstimatedEnd, 0);
    same_number(&rt, code_of(answer), 0);
    holds(&rt, &record, Field::Eczt, u64::from(TEN));
    holds(&rt, &record, Field::Eezt, 0);
}

#[test]
fn actual_times_stand_in_their_order(rt: HostRuntime) {
    let mut record = Record::new(7);
    record.migrate();
    mark_reached(&mut record, 1);
    set_deicing_time(&mut record, DeicingTime::ActualEnd, TEN);
    let answer = admit_deicing(&record, DeicingTime::ActualCommencement, TEN + 1);
    same_number(&rt, code_of(answer), 206);
    let answer = admit_deicing(&record, DeicingTime::ActualCommencement, TEN);
    same_number(&rt, code_of(answer), 0);
    let answer = admit_deicing(&record, DeicingTime::EstimatedCommencement, TEN + 1);
    same_number(&rt, code_of(answer), 0);
    holds(&rt, &record, Field::Aezt, u64::from(TEN));
    holds(&rt, &record, Field::Aczt, 0);
}

// A time and its name, both ways.
fn is_named(rt: &impl Abort, time: DeicingTime, name: &str) {
    assert!(rt; time.name() == name, "{name}");
    let found = DeicingTime::from_name(name.as_bytes());
    assert!(rt; found == Some(time), "{name}");
}

#[test]
fn times_of_deicing_have_their_names(rt: HostRuntime) {
    is_named(&rt, DeicingTime::EstimatedCommencement, "eczt");
    is_named(&rt, DeicingTime::EstimatedEnd, "eezt");
    is_named(&rt, DeicingTime::ActualCommencement, "aczt");
    is_named(&rt, DeicingTime::ActualEnd, "aezt");
    assert!(rt; DeicingTime::from_name("ECZT".as_bytes()).is_none());
    assert!(rt; DeicingTime::from_name("aobt".as_bytes()).is_none());
}
