//! The local programs of a report (this project's profile).
ghost use Rattle.std.specs.Prelude.{◌≡◌, ◌||◌, ◌+◌, ◌<◌, ◌≤◌, ◌^◌, OnOk, OnErr, IfOk};
ghost use Rattle.std.specs.Prelude.{if◌then◌else◌, option_map};
ghost use Rattle.bpf_decode.specs.declared.program.TheConstants.{MOST_SLOTS};
ghost use Rattle.acdm_milestones.specs.Tables.{number};
ghost use Rattle.acdm_slots.specs.Loaded.{program_in};
ghost use Rattle.bpf_helpers.specs.Oracles.{MayBeAsked, SameRule};
ghost use Rattle.acdm_step.specs.Board.{programs_at};
ghost use Rattle.acdm_step.specs.Programs.{is_usable, rejecting};
ghost use Rattle.acdm_step.specs.Programs.{suggestion, with_suggestion, local_alerts};
ghost use Rattle.acdm_step.specs.Programs.{with_local_alerts};
ghost use Rattle.acdm_step.specs.InSlots.{may_ask, size_of};
ghost use Rattle.acdm_step.specs.Running.{EndsAt, AsksAt, EndsIn, AsksIn};
ghost use Rattle.acdm_record.specs.Fields.{length_of};
ghost use Rattle.bpf_regstate.specs.Lengths.{bytes_in};

use crate::command::MINUTES_OF_DAY;
use acdm_alerts::AlertSet;
use acdm_milestones::{Milestone, mark_reached};
use acdm_record::{Field, Record};
use acdm_slots::{Kind, Slots};
use bpf_helpers::Oracle;
use bpf_run::{BadAnswer, run};

// Runs the program in a slot, if there is one.
fn run_slot<O: Oracle>(
    slots: &Slots,
    milestone: Milestone,
    kind: Kind,
    record: &Record,
    moment: u32,
    oracle: &mut O,
) -> Result<Option<u64>, BadAnswer>
    requires oracle { MayBeAsked slots.now.sigs (O.view oracle.old) }
    requires long { length_of «record».now ≡ bytes_in slots.now.record_length }
    ensures ended { IfOk result (EndsAt (program_in slots.now milestone kind) «record».now moment
        (number milestone) (O.view oracle.old) (O.view oracle.new)) }
    ensures unanswered { OnErr result
        (AsksAt (program_in slots.now milestone kind) «record».now moment (number milestone)
        (O.view oracle.old) (O.view oracle.new)) }
    ensures counted { OnOk result ((O.view oracle.new).refusals ≡ (O.view oracle.old).refusals) }
    ensures same_rule { SameRule (O.view oracle.old) (O.view oracle.new) }
{
    let Some(checked) = slots.get(milestone, kind) else {
        return Ok(None);
    };
    let ended = run(checked, record.bytes(), moment, milestone, oracle)?;
    Ok(Some(ended.r0))
}

// Sets or clears CDM14, no automatic TOBT.
fn set_rejected(record: &mut Record, rejected: bool)
    ensures { «record».new ≡ rejecting rejected «record».old }
{
    AlertSet::of(record).with_rejection(rejected).store(record);
}

// Whether a time is a TOBT that a program may set.
fn is_usable(record: &Record, moment: u32, time: u64) -> bool
    ensures { result ≡ is_usable «record».now moment time }
{
    let moment = u64::from(moment);
    moment <= time
        && time <= moment + MINUTES_OF_DAY
        && time <= u64::from(u32::MAX)
        && record.get(Field::Asat) == 0
}

// Does to a record what r0 of its TOBT program means.
fn suggest(record: &mut Record, moment: u32, r0: Option<u64>)
    ensures { «record».new ≡ with_suggestion (suggestion «record».old moment r0) «record».old }
{
    let Some(time) = r0 else {
        return;
    };
    if time == 0 {
        return;
    }
    if !is_usable(record, moment, time) {
        set_rejected(record, true);
        return;
    }
    record.set(Field::Tobt, time);
    mark_reached(record, Milestone::TobtUpdate.number());
    set_rejected(record, false);
}

// Does to a record what r0 of its alert program means.
fn decide_locals(record: &mut Record, r0: Option<u64>)
    ensures { «record».new ≡ with_local_alerts (local_alerts r0) «record».old }
{
    let Some(word) = r0 else {
        return;
    };
    AlertSet::of(record)
        .with_locals((word % 65536) as u16)
        .store(record);
}

/// Runs the two programs of a reported milestone on the record of its flight: the TOBT program, and
/// the alert program on what came of it. Where one of them is left without an answer the record is
/// of no use.
pub(crate) fn run_programs<O: Oracle>(
    slots: &Slots,
    milestone: Milestone,
    record: &mut Record,
    moment: u32,
    oracle: &mut O,
) -> Result<(), BadAnswer>
    requires oracle { MayBeAsked slots.now.sigs (O.view oracle.old) }
    requires long { length_of «record».old ≡ bytes_in slots.now.record_length }
    ensures ended { OnOk result (EndsIn (programs_at slots.now milestone)
        «record».old moment (number milestone) (O.view oracle.old) (O.view oracle.new) «record».new) }
    ensures unanswered { OnErr result
        (AsksIn (programs_at slots.now milestone) «record».old moment (number milestone) (O.view oracle.old) (O.view oracle.new)) }
    ensures same_rule { SameRule (O.view oracle.old) (O.view oracle.new) }
{
    let tobt = run_slot(slots, milestone, Kind::Tobt, record, moment, oracle)?;
    suggest(record, moment, tobt);
    let locals = run_slot(slots, milestone, Kind::Alert, record, moment, oracle)?;
    decide_locals(record, locals);
    Ok(())
}

// Whether there is a program in a slot that calls a helper.
fn may_ask(slots: &Slots, milestone: Milestone, kind: Kind) -> bool
    ensures { result ≡ may_ask (program_in slots.now milestone kind) }
{
    match slots.get(milestone, kind) {
        Some(checked) => checked.asks(),
        None => false,
    }
}

/// Whether a program of a reported milestone calls a helper.
pub(crate) fn either_asks(slots: &Slots, milestone: Milestone) -> bool
    ensures { result ≡ (may_ask (program_in slots.now milestone Kind.Tobt)
        || may_ask (program_in slots.now milestone Kind.Alert)) }
{
    may_ask(slots, milestone, Kind::Tobt) || may_ask(slots, milestone, Kind::Alert)
}

/// How many instructions the program in a slot has, 0 where there is none.
pub(crate) fn size_in(slots: &Slots, milestone: Milestone, kind: Kind) -> u64
    ensures value { result ≡ size_of (program_in slots.now milestone kind) }
    ensures few { result ≤ MOST_SLOTS }
{
    match slots.get(milestone, kind) {
        Some(checked) => checked.instructions(),
        None => 0,
    }
}
