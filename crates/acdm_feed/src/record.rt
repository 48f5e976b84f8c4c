//! The record of a flight as an object.
ghost use Rattle.std.specs.Prelude.{◌≡◌, ◌++◌, ◌<◌, ◌≤◌, IsTrue, OnOk, nat_le, nat_lt};
ghost use Rattle.std.specs.List.{flat_map, list_all};
ghost use Rattle.acdm_record.specs.Fields.{number_of, text_of};
ghost use Rattle.acdm_record.specs.Place.{width_of};
ghost use Rattle.acdm_feed.specs.Records.{alert_bits, alert_token, alerts_member, all_times, arrival_times};
ghost use Rattle.acdm_feed.specs.Records.{bound_members, deicing_members, deicing_times, destinations};
ghost use Rattle.acdm_feed.specs.Records.{registrations};
ghost use Rattle.acdm_feed.specs.Records.{departure_times, named_members, reached_member};
ghost use Rattle.acdm_feed.specs.Records.{reached_token, record_members, record_tokens};
ghost use Rattle.acdm_feed.specs.Records.{scheduled_times, stand_members, stood_members};
ghost use Rattle.acdm_feed.specs.Records.{target_times};
ghost use Rattle.acdm_feed.specs.Lineviews.{is_key, name_in};
ghost use Rattle.acdm_feed.specs.Names.{list_member, number_member, text_member, time_member};

use crate::line::FeedLine;
use crate::tokens::{key, push_number, push_printable, push_text, push_time};
use acdm_alerts::name_of;
use acdm_milestones::has_reached;
use acdm_record::{Field, Record, TextField};
use std::alloc::AllocError;

// A number of the record.
#[inline(always)]
fn push_number_of(
    line: &mut FeedLine,
    key: &str,
    record: &Record,
    field: Field,
) -> Result<(), AllocError>
    requires { IsTrue (is_key key.now) }
    ensures before { line.new.before ≡ line.old.before }
    ensures adds { OnOk result (line.new.tokens ≡ line.old.tokens ++ number_member (name_in key.now) (number_of «record».now field)) }
{
    push_number(line, key, record.get(field))
}

// A text of the record.
#[inline(always)]
fn push_text_of(
    line: &mut FeedLine,
    key: &str,
    record: &Record,
    field: TextField,
) -> Result<(), AllocError>
    requires { IsTrue (is_key key.now) }
    ensures before { line.new.before ≡ line.old.before }
    ensures adds { OnOk result (line.new.tokens ≡ line.old.tokens ++ text_member (name_in key.now) (text_of «record».now field)) }
{
    push_printable(line, key, record.text(field))
}

// A time of the record.
#[inline(always)]
fn push_time_of(
    line: &mut FeedLine,
    key: &str,
    record: &Record,
    field: Field,
) -> Result<(), AllocError>
    requires key { IsTrue (is_key key.now) }
    requires width { width_of field ≡ 4 }
    ensures before { line.new.before ≡ line.old.before }
    ensures adds { OnOk result (line.new.tokens ≡ line.old.tokens ++ time_member (name_in key.now) (number_of «record».now field)) }
{
    push_time(line, key, record.get(field) as u32)
}

// The flight, its call sign and its aircraft types.
#[tactic(auto, unfolding(crate::specs::Records::named_members))]
fn push_named(line: &mut FeedLine, record: &Record) -> Result<(), AllocError>
    ensures before { line.new.before ≡ line.old.before }
    ensures adds { OnOk result (line.new.tokens ≡ line.old.tokens ++ named_members «record».now) }
{
    push_number_of(line, key!("flight"), record, Field::Flight)?;
    push_text_of(line, key!("callsign"), record, TextField::Callsign)?;
    push_text_of(
        line,
        key!("scheduled_type"),
        record,
        TextField::ScheduledType,
    )?;
    push_text_of(line, key!("plan_type"), record, TextField::PlanType)?;
    Ok(())
}

// Its registrations.
#[tactic(auto, unfolding(crate::specs::Records::registrations))]
fn push_registrations(line: &mut FeedLine, record: &Record) -> Result<(), AllocError>
    ensures before { line.new.before ≡ line.old.before }
    ensures adds { OnOk result (line.new.tokens ≡ line.old.tokens ++ registrations «record».now) }
{
    push_text_of(
        line,
        key!("scheduled_reg"),
        record,
        TextField::ScheduledRegistration,
    )?;
    push_text_of(line, key!("plan_reg"), record, TextField::PlanRegistration)?;
    Ok(())
}

// Its destinations.
#[tactic(auto, unfolding(crate::specs::Records::destinations))]
fn push_destinations(line: &mut FeedLine, record: &Record) -> Result<(), AllocError>
    ensures before { line.new.before ≡ line.old.before }
    ensures adds { OnOk result (line.new.tokens ≡ line.old.tokens ++ destinations «record».now) }
{
    push_text_of(
        line,
        key!("scheduled_dest"),
        record,
        TextField::ScheduledDestination,
    )?;
    push_text_of(line, key!("plan_dest"), record, TextField::PlanDestination)?;
    Ok(())
}

// Its registrations and destinations.
fn push_bound(line: &mut FeedLine, record: &Record) -> Result<(), AllocError>
    ensures before { line.new.before ≡ line.old.before }
    ensures adds { OnOk result (line.new.tokens ≡ line.old.tokens ++ bound_members «record».now) }
{
    push_registrations(line, record)?;
    push_destinations(line, record)
}

// What is scheduled, estimated and calculated of its departure.
#[tactic(auto, unfolding(crate::specs::Records::scheduled_times))]
fn push_scheduled(line: &mut FeedLine, record: &Record) -> Result<(), AllocError>
    ensures before { line.new.before ≡ line.old.before }
    ensures adds { OnOk result (line.new.tokens ≡ line.old.tokens ++ scheduled_times «record».now) }
{
    push_time_of(line, key!("sobt"), record, Field::Sobt)?;
    push_time_of(line, key!("eobt"), record, Field::Eobt)?;
    push_time_of(line, key!("ctot"), record, Field::Ctot)?;
    push_time_of(line, key!("otot"), record, Field::Otot)?;
    Ok(())
}

// Its arrival, and the begin of its handling.
#[tactic(auto, unfolding(crate::specs::Records::arrival_times))]
fn push_arrival(line: &mut FeedLine, record: &Record) -> Result<(), AllocError>
    ensures before { line.new.before ≡ line.old.before }
    ensures adds { OnOk result (line.new.tokens ≡ line.old.tokens ++ arrival_times «record».now) }
{
    push_time_of(line, key!("eldt"), record, Field::Eldt)?;
    push_time_of(line, key!("aldt"), record, Field::Aldt)?;
    push_time_of(line, key!("aibt"), record, Field::Aibt)?;
    push_time_of(line, key!("acgt"), record, Field::Acgt)?;
    Ok(())
}

// Its targets, and the begin of boarding.
#[tactic(auto, unfolding(crate::specs::Records::target_times))]
fn push_target(line: &mut FeedLine, record: &Record) -> Result<(), AllocError>
    ensures before { line.new.before ≡ line.old.before }
    ensures adds { OnOk result (line.new.tokens ≡ line.old.tokens ++ target_times «record».now) }
{
    push_time_of(line, key!("tobt"), record, Field::Tobt)?;
    push_time_of(line, key!("tsat"), record, Field::Tsat)?;
    push_time_of(line, key!("asbt"), record, Field::Asbt)?;
    push_time_of(line, key!("ardt"), record, Field::Ardt)?;
    Ok(())
}

// Its start-up and departure.
#[tactic(auto, unfolding(crate::specs::Records::departure_times))]
fn push_departure(line: &mut FeedLine, record: &Record) -> Result<(), AllocError>
    ensures before { line.new.before ≡ line.old.before }
    ensures adds { OnOk result (line.new.tokens ≡ line.old.tokens ++ departure_times «record».now) }
{
    push_time_of(line, key!("asrt"), record, Field::Asrt)?;
    push_time_of(line, key!("asat"), record, Field::Asat)?;
    push_time_of(line, key!("aobt"), record, Field::Aobt)?;
    push_time_of(line, key!("atot"), record, Field::Atot)?;
    Ok(())
}

// All times of layout 1.
#[tactic(auto, unfolding(crate::specs::Records::all_times))]
fn push_times(line: &mut FeedLine, record: &Record) -> Result<(), AllocError>
    ensures before { line.new.before ≡ line.old.before }
    ensures adds { OnOk result (line.new.tokens ≡ line.old.tokens ++ all_times «record».now) }
{
    push_scheduled(line, record)?;
    push_arrival(line, record)?;
    push_target(line, record)?;
    push_departure(line, record)?;
    Ok(())
}

// Its minutes and its stand.
#[tactic(auto, unfolding(crate::specs::Records::stand_members))]
fn push_stand(line: &mut FeedLine, record: &Record) -> Result<(), AllocError>
    ensures before { line.new.before ≡ line.old.before }
    ensures adds { OnOk result (line.new.tokens ≡ line.old.tokens ++ stand_members «record».now) }
{
    push_number_of(line, key!("mttt"), record, Field::Mttt)?;
    push_number_of(line, key!("exit"), record, Field::Exit)?;
    push_number_of(line, key!("exot"), record, Field::Exot)?;
    push_number_of(line, key!("stand"), record, Field::Stand)?;
    Ok(())
}

// The times of de-icing.
fn push_deicing_times(line: &mut FeedLine, record: &Record) -> Result<(), AllocError>
    ensures before { line.new.before ≡ line.old.before }
    ensures adds { OnOk result (line.new.tokens ≡ line.old.tokens ++ deicing_times «record».now) }
{
    push_time_of(line, key!("eczt"), record, Field::Eczt)?;
    push_time_of(line, key!("eezt"), record, Field::Eezt)?;
    push_time_of(line, key!("aczt"), record, Field::Aczt)?;
    push_time_of(line, key!("aezt"), record, Field::Aezt)?;
    Ok(())
}

// The times of de-icing, where the record has them.
#[tactic(auto, unfolding(crate::specs::Records::deicing_members))]
fn push_deicing(line: &mut FeedLine, record: &Record) -> Result<(), AllocError>
    ensures before { line.new.before ≡ line.old.before }
    ensures adds { OnOk result (line.new.tokens ≡ line.old.tokens ++ deicing_members «record».now) }
{
    if record.get(Field::Layout) == 2 {
        return push_deicing_times(line, record);
    }
    Ok(())
}

// The number of a milestone, where it was reached.
fn push_bit(line: &mut FeedLine, record: &Record, bit: u32) -> Result<(), AllocError>
    requires { bit ≤ 16 }
    ensures before { line.new.before ≡ line.old.before }
    ensures adds { OnOk result (line.new.tokens ≡ line.old.tokens ++ reached_token «record».now bit) }
{
    if has_reached(record, bit) {
        return line.u64(u64::from(bit));
    }
    Ok(())
}

// The numbers of those milestones that were reached.
fn push_bits(line: &mut FeedLine, record: &Record, bits: &[u32]) -> Result<(), AllocError>
    requires { IsTrue (list_all (λ b. nat_le b 16) bits.now) }
    ensures before { line.new.before ≡ line.old.before }
    ensures adds { OnOk result (line.new.tokens
        ≡ line.old.tokens ++ flat_map (reached_token «record».now) bits.now) }
{
    let mut rest = bits;
    while let Some((bit, more)) = rest.split_first() {
        push_bit(line, record, *bit)?;
        rest = more;
    }
    Ok(())
}

// The milestones that were reached, 0 for the schedule.
#[tactic(auto, unfolding(crate::specs::Records::reached_member))]
fn push_reached(line: &mut FeedLine, record: &Record) -> Result<(), AllocError>
    ensures before { line.new.before ≡ line.old.before }
    ensures adds { OnOk result (line.new.tokens ≡ line.old.tokens ++ reached_member «record».now) }
{
    line.key(key!("reached"))?;
    line.begin_array()?;
    push_bits(
        line,
        record,
        &[0, 1, 2, 3, 4, 5, 6, 7, 8, 9, 10, 11, 12, 13, 14, 15, 16],
    )?;
    line.end_array()
}

// The name of an alert, where it is set.
fn push_alert(line: &mut FeedLine, word: u64, bit: u32) -> Result<(), AllocError>
    requires { bit < 32 }
    ensures before { line.new.before ≡ line.old.before }
    ensures adds { OnOk result (line.new.tokens ≡ line.old.tokens ++ alert_token word bit) }
{
    if (word >> bit) % 2 == 1 {
        return line.string(name_of(bit));
    }
    Ok(())
}

// The names of those alerts that are set.
fn push_alert_names(line: &mut FeedLine, word: u64, bits: &[u32]) -> Result<(), AllocError>
    requires { IsTrue (list_all (λ b. nat_lt b 32) bits.now) }
    ensures before { line.new.before ≡ line.old.before }
    ensures adds { OnOk result (line.new.tokens
        ≡ line.old.tokens ++ flat_map (alert_token word) bits.now) }
{
    let mut rest = bits;
    while let Some((bit, more)) = rest.split_first() {
        push_alert(line, word, *bit)?;
        rest = more;
    }
    Ok(())
}

// The names of all alerts that are set, of which most records have none.
fn push_set_alerts(line: &mut FeedLine, word: u64) -> Result<(), AllocError>
    ensures before { line.new.before ≡ line.old.before }
    ensures adds { OnOk result (line.new.tokens
        ≡ line.old.tokens ++ flat_map (alert_token word) alert_bits) }
{
    if word == 0 {
        return Ok(());
    }
    push_alert_names(
        line,
        word,
        &[
            1, 2, 3, 4, 5, 7, 8, 9, 10, 11, 12, 13, 14, 15, 16, 17, 18, 19, 20, 21, 22, 23, 24, 25,
            26, 27, 28, 29, 30, 31,
        ],
    )
}

// The alerts by their names.
#[tactic(auto, unfolding(crate::specs::Records::alerts_member))]
fn push_alerts(line: &mut FeedLine, record: &Record) -> Result<(), AllocError>
    ensures before { line.new.before ≡ line.old.before }
    ensures adds { OnOk result (line.new.tokens ≡ line.old.tokens ++ alerts_member «record».now) }
{
    line.key(key!("alerts"))?;
    line.begin_array()?;
    push_set_alerts(line, record.get(Field::Alerts))?;
    line.end_array()
}

// Its minutes, its stand, its milestones and its alerts.
#[tactic(auto, unfolding(crate::specs::Records::stood_members))]
fn push_stood(line: &mut FeedLine, record: &Record) -> Result<(), AllocError>
    ensures before { line.new.before ≡ line.old.before }
    ensures adds { OnOk result (line.new.tokens ≡ line.old.tokens ++ stood_members «record».now) }
{
    push_stand(line, record)?;
    push_reached(line, record)?;
    push_alerts(line, record)?;
    Ok(())
}

// All members of the object.
#[tactic(auto, unfolding(crate::specs::Records::record_members))]
fn push_members(line: &mut FeedLine, record: &Record) -> Result<(), AllocError>
    ensures before { line.new.before ≡ line.old.before }
    ensures adds { OnOk result (line.new.tokens ≡ line.old.tokens ++ record_members «record».now) }
{
    push_named(line, record)?;
    push_bound(line, record)?;
    push_times(line, record)?;
    push_stood(line, record)?;
    push_deicing(line, record)?;
    Ok(())
}

/// Adds the record of a flight.
pub(crate) fn push_record(line: &mut FeedLine, record: &Record) -> Result<(), AllocError>
    ensures before { line.new.before ≡ line.old.before }
    ensures adds { OnOk result (line.new.tokens ≡ line.old.tokens ++ record_tokens «record».now) }
{
    line.begin_object()?;
    push_members(line, record)?;
    line.end_object()
}
