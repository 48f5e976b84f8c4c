//! The conditions of the alerts.
ghost use Rattle.std.specs.Prelude.{◌≡◌, ◌<◌, ◌≤◌, ◌^◌, IfSome, IsTrue};
ghost use Rattle.acdm_record.specs.declared.field.Field.TheVariants.{Alerts};
ghost use Rattle.acdm_record.specs.Place.{width_of};
ghost use Rattle.acdm_record.specs.Fields.{number_of, is_alert_word};
ghost use Rattle.acdm_milestones.specs.Tables.{is_set};
ghost use Rattle.acdm_alerts.specs.Conditions.{eibt, turns_after, differ_by, texts_differ};
ghost use Rattle.acdm_alerts.specs.Conditions.{no_airport_slot, boarding_not_started, tobt_deleted};
ghost use Rattle.acdm_alerts.specs.Conditions.{tsat_passed, no_flight_plan, bit_if, conditions};
ghost use Rattle.acdm_alerts.specs.Conditions.{kept_bits, alert_word};

use crate::alert_set::AlertSet;
use acdm_milestones::{Milestone, has_reached};
use acdm_record::{Field, Record, TextField};

// The bits of the alerts that are computed.
const CDM01: u32 = 1;

const CDM02: u32 = 2;

const CDM03: u32 = 3;

const CDM04: u32 = 4;

const CDM05: u32 = 5;

const CDM07: u32 = 7;

const CDM08: u32 = 8;

const CDM09: u32 = 9;

const CDM10: u32 = 10;

const CDM11: u32 = 11;

const CDM12: u32 = 12;

const CDM13: u32 = 13;

const CDM07A: u32 = 15;

fn is_set(record: &Record, field: Field) -> bool
    ensures { result ≡ is_set «record».now field }
{
    record.get(field) != 0
}

// The estimated in-block time: AIBT, else ALDT or else ELDT with the taxi-in time.
fn eibt(record: &Record) -> Option<u64>
    ensures value { result ≡ eibt «record».now }
    ensures small { IfSome result (λ n. n < 2 ^ 33) }
{
    let exit = record.get(Field::Exit);
    let landed = record.get(Field::Aldt);
    let landing = record.get(Field::Eldt);
    if is_set(record, Field::Aibt) {
        return Some(record.get(Field::Aibt));
    }
    if is_set(record, Field::Aldt) {
        return Some(landed + exit);
    }
    if is_set(record, Field::Eldt) {
        return Some(landing + exit);
    }
    None
}

// CDM07 for EOBT, CDM07a for TOBT: the turn-round ends after a time that is set.
fn turns_after(record: &Record, field: Field) -> bool
    ensures { result ≡ turns_after «record».now field }
{
    let limit = record.get(field);
    let turn_round = record.get(Field::Mttt);
    match eibt(record) {
        Some(start) => is_set(record, field) && start + turn_round > limit,
        None => false,
    }
}

// CDM02, CDM08, CDM12: two times that are set differ by more than so many minutes.
fn differ_by(minutes: u64, record: &Record, one: Field, other: Field) -> bool
    requires small { minutes ≤ 15 }
    requires one_fits { width_of one ≤ 4 }
    requires other_fits { width_of other ≤ 4 }
    ensures { result ≡ differ_by minutes «record».now one other }
{
    let first = record.get(one);
    let second = record.get(other);
    first != 0 && second != 0 && (first + minutes < second || second + minutes < first)
}

// CDM03, CDM04, CDM05: the flight is scheduled and planned, and two texts differ.
fn texts_differ(record: &Record, one: TextField, other: TextField) -> bool
    ensures { result ≡ texts_differ «record».now one other }
{
    has_reached(record, 0) && has_reached(record, 1) && !record.has_same_text(one, other)
}

// CDM01: no airport slot.
fn no_airport_slot(record: &Record) -> bool
    ensures { result ≡ no_airport_slot «record».now }
{
    has_reached(record, 1) && !has_reached(record, 0)
}

// CDM09: boarding not started.
fn boarding_not_started(record: &Record, moment: u32) -> bool
    ensures { result ≡ boarding_not_started «record».now moment }
{
    let tobt = record.get(Field::Tobt);
    tobt != 0
        && !is_set(record, Field::Asbt)
        && !is_set(record, Field::Aobt)
        && u64::from(moment) + 10 >= tobt
}

// CDM10: TOBT rejected or deleted.
fn tobt_deleted(record: &Record) -> bool
    ensures { result ≡ tobt_deleted «record».now }
{
    has_reached(record, Milestone::TobtUpdate.number()) && !is_set(record, Field::Tobt)
}

// CDM11: not compliant with TOBT or TSAT.
fn tsat_passed(record: &Record, moment: u32) -> bool
    ensures { result ≡ tsat_passed «record».now moment }
{
    let tsat = record.get(Field::Tsat);
    tsat != 0 && !is_set(record, Field::Asat) && u64::from(moment) > tsat + 5
}

// CDM13: no flight plan.
fn no_flight_plan(record: &Record, moment: u32) -> bool
    ensures { result ≡ no_flight_plan «record».now moment }
{
    let sobt = record.get(Field::Sobt);
    has_reached(record, 0) && !has_reached(record, 1) && u64::from(moment) + 180 >= sobt
}

// The bit of an alert, where it holds.
fn bit_if(holds: bool, bit: u32) -> u32
    requires { bit ≤ 15 }
    ensures value { result ≡ bit_if holds bit }
    ensures small { result ≤ 2 ^ bit }
{
    if holds { 1 << bit } else { 0 }
}

// The alerts that are computed, as a word.
fn computed(record: &Record, moment: u32) -> u32
    ensures { result ≡ conditions «record».now moment }
{
    let types = texts_differ(record, TextField::ScheduledType, TextField::PlanType);
    let registrations = texts_differ(
        record,
        TextField::ScheduledRegistration,
        TextField::PlanRegistration,
    );
    let destinations = texts_differ(
        record,
        TextField::ScheduledDestination,
        TextField::PlanDestination,
    );
    bit_if(no_airport_slot(record), CDM01)
        + bit_if(differ_by(0, record, Field::Sobt, Field::Eobt), CDM02)
        + bit_if(types, CDM03)
        + bit_if(registrations, CDM04)
        + bit_if(destinations, CDM05)
        + bit_if(turns_after(record, Field::Eobt), CDM07)
        + bit_if(differ_by(15, record, Field::Tobt, Field::Eobt), CDM08)
        + bit_if(boarding_not_started(record, moment), CDM09)
        + bit_if(tobt_deleted(record), CDM10)
        + bit_if(tsat_passed(record, moment), CDM11)
        + bit_if(differ_by(5, record, Field::Asat, Field::Tsat), CDM12)
        + bit_if(no_flight_plan(record, moment), CDM13)
        + bit_if(turns_after(record, Field::Tobt), CDM07A)
}

// What only local programs set and clear: bit 14 and the bits from 16 on.
fn kept_bits(word: u32) -> u32
    ensures { result ≡ kept_bits word }
{
    word / 65536 * 65536 + word / 16384 % 2 * 16384
}

/// The alerts of a record at a moment, in minutes since 1970-01-01T00:00Z: the built-in alerts
/// anew, while CDM14 and the local alerts stay as they are in the record. Sums never wrap.
pub fn builtin(record: &Record, moment: u32) -> AlertSet
    ensures { result ≡ alert_word «record».now moment }
{
    let word = kept_bits(AlertSet::of(record).word());
    AlertSet::from_word(word + computed(record, moment))
}
