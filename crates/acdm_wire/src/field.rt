//! The fields of a command.
ghost use Rattle.std.specs.Prelude.{◌≡◌, ◌≤◌, true, false, IfOk, IsTrue, Err};
ghost use Rattle.acdm_step.specs.Facts.{has_its_plan, has_its_time};
ghost use Rattle.acdm_step.specs.Commands.{is_load};
ghost use Rattle.acdm_wire.specs.Meant.{Gives, number_field, text_field, minute_of};
ghost use Rattle.acdm_wire.specs.Meant.{time_field, time_or_null, time_for, plan_field};
ghost use Rattle.acdm_wire.specs.Meant.{plan_for, milestone_of, milestone_field};
ghost use Rattle.acdm_wire.specs.Meant.{schedule_field, report_field, show_field};
ghost use Rattle.acdm_wire.specs.Meant.{deicing_field, deice_field, kind_field, slot_field};
ghost use Rattle.acdm_wire.specs.Meant.{program_field, length_of, length_field, load_field};
ghost use Rattle.acdm_wire.specs.Meant.{unload_field, plain_named, command_of, is_plain};
ghost use Rattle.acdm_wire.specs.Meant.{or_fault};
ghost use Rattle.acdm_wire.specs.Memory.{program_needs_memory};
ghost use Rattle.acdm_wire.specs.Plain.{data_of};
ghost use Rattle.acdm_wire.specs.Memory.{load_needs_memory, command_needs_memory};

use crate::fault::RequestFault;
use crate::line_json::LineJson;
use crate::request::LineError;
use acdm_milestones::{DeicingTime, Milestone};
use acdm_record::Text;
use acdm_slots::{Kind, ProgramBytes};
use acdm_step::{
    Command, Deice, Durations, FlightNumber, FlightPlan, LoadRequest, MINUTES_OF_DAY, Report,
    Schedule, StatedCommand, Unload,
};
use bpf_regstate::Length;
use hex::FromHexError;
use jiff::Timestamp;
use std::alloc::Global;

#[tactic(auto, unfolding(crate::specs::Meant::number_field))]
fn number_in(value: &LineJson<'_, '_>, key: &str, low: u64, high: u64) -> Result<u64, RequestFault>
    ensures reads { result ≡ number_field key.now low high (data_of value.now) }
    ensures within { IfOk result (λ n. (low ≤ n) × (n ≤ high)) }
{
    let Some(number) = value.number(key) else {
        return Err(RequestFault::Kind);
    };
    if low <= number && number <= high {
        Ok(number)
    } else {
        Err(RequestFault::Range)
    }
}

// The minute of a text that is an instant.
#[tactic(auto, unfolding(crate::specs::Meant::time_field))]
fn time_in(value: &LineJson<'_, '_>, key: &str) -> Result<u32, RequestFault>
    ensures reads { result ≡ time_field key.now (data_of value.now) }
    ensures given { IfOk result (λ t. 1 ≤ t) }
{
    let Some(text) = value.text(key) else {
        return Err(RequestFault::Kind);
    };
    let Ok(instant) = text.parse::<Timestamp>() else {
        return Err(RequestFault::Range);
    };
    minute_at(instant)
}

fn minute_at(instant: Timestamp) -> Result<u32, RequestFault>
    ensures reads { result ≡ minute_of instant.nanosecond }
    ensures given { IfOk result (λ t. 1 ≤ t) }
{
    let minute = instant.as_second() / 60;
    if 1 <= minute && minute <= 4_294_967_295 {
        Ok(minute as u32)
    } else {
        Err(RequestFault::Range)
    }
}

#[tactic(auto, unfolding(crate::specs::Meant::text_field))]
fn text_in<const N: usize>(value: &LineJson<'_, '_>, key: &str) -> Result<Text<N>, RequestFault>
    ensures { result ≡ text_field key.now N (data_of value.now) }
{
    let Some(text) = value.text(key) else {
        return Err(RequestFault::Kind);
    };
    let Some(kept) = Text::from_bytes(text.as_bytes()) else {
        return Err(RequestFault::Range);
    };
    Ok(kept)
}

#[tactic(auto, unfolding(crate::specs::Meant::plan_field))]
fn plan_in(value: &LineJson<'_, '_>) -> Result<FlightPlan, RequestFault>
    ensures { result ≡ plan_field (data_of value.now) }
{
    let callsign = text_in(value, "callsign")?;
    let aircraft = text_in(value, "type")?;
    let registration = text_in(value, "reg")?;
    let destination = text_in(value, "dest")?;
    Ok(FlightPlan {
        callsign,
        aircraft,
        registration,
        destination,
    })
}

fn milestone_at(number: u64) -> Result<Milestone, RequestFault>
    ensures { result ≡ milestone_of number }
{
    let Some(milestone) = Milestone::from_number(number) else {
        return Err(RequestFault::Range);
    };
    Ok(milestone)
}

#[tactic(auto, unfolding(crate::specs::Meant::milestone_field))]
fn milestone_in(value: &LineJson<'_, '_>) -> Result<Milestone, RequestFault>
    ensures { result ≡ milestone_field (data_of value.now) }
{
    let number = number_in(value, "milestone", 0, u64::MAX)?;
    milestone_at(number)
}

// A time, or 0 for null.
#[tactic(auto, unfolding(crate::specs::Meant::time_or_null))]
fn time_or_null_in(value: &LineJson<'_, '_>, key: &str) -> Result<u32, RequestFault>
    ensures { result ≡ time_or_null key.now (data_of value.now) }
{
    if value.has_null(key) {
        return Ok(0);
    }
    time_in(value, key)
}

// The time of a report.
fn time_of(value: &LineJson<'_, '_>, milestone: Milestone) -> Result<u32, RequestFault>
    ensures reads { result ≡ time_for milestone (data_of value.now) }
    ensures timed { IfOk result (λ t. IsTrue (has_its_time milestone t)) }
{
    match milestone {
        Milestone::TwoHoursBeforeEobt | Milestone::TobtUpdate => time_or_null_in(value, "time"),
        _ => time_in(value, "time"),
    }
}

#[tactic(auto, unfolding(crate::specs::Meant::schedule_field, crate::specs::Meant::number_field))]
fn schedule_in(value: &LineJson<'_, '_>) -> Result<Command, RequestFault>
    ensures reads { result ≡ schedule_field (data_of value.now) }
    ensures plain { IfOk result (λ command. is_load command ≡ false) }
{
    let flight = number_in(value, "flight", 1, u64::MAX)?;
    let plan = plan_in(value)?;
    let sobt = time_in(value, "sobt")?;
    let mttt = number_in(value, "mttt", 0, MINUTES_OF_DAY)?;
    let exit = number_in(value, "exit", 0, 255)?;
    let exot = number_in(value, "exot", 0, MINUTES_OF_DAY)?;
    let stand = number_in(value, "stand", 0, 65535)?;
    Ok(Command::Schedule(Schedule::new(
        flight,
        plan,
        sobt,
        Durations {
            mttt: mttt as u16,
            exit: exit as u8,
            exot: exot as u16,
        },
        stand as u16,
    )))
}

fn plan_of(
    value: &LineJson<'_, '_>,
    milestone: Milestone,
) -> Result<Option<FlightPlan>, RequestFault>
    ensures reads { result ≡ plan_for milestone (data_of value.now) }
    ensures with_first { IfOk result (λ p. IsTrue (has_its_plan milestone p)) }
{
    match milestone {
        Milestone::FlightPlanActivated => Ok(Some(plan_in(value)?)),
        _ => Ok(None),
    }
}

#[tactic(auto, unfolding(crate::specs::Meant::report_field))]
fn report_in(value: &LineJson<'_, '_>) -> Result<Command, RequestFault>
    ensures reads { result ≡ report_field (data_of value.now) }
    ensures plain { IfOk result (λ command. is_load command ≡ false) }
{
    let flight = number_in(value, "flight", 1, u64::MAX)?;
    let milestone = milestone_in(value)?;
    let time = time_of(value, milestone)?;
    let plan = plan_of(value, milestone)?;
    Ok(Command::Report(Report::new(flight, milestone, time, plan)))
}

#[tactic(auto, unfolding(crate::specs::Meant::deicing_field))]
fn deicing_time_in(value: &LineJson<'_, '_>) -> Result<DeicingTime, RequestFault>
    ensures { result ≡ deicing_field (data_of value.now) }
{
    let Some(name) = value.text("field") else {
        return Err(RequestFault::Kind);
    };
    let Some(which) = DeicingTime::from_name(name.as_bytes()) else {
        return Err(RequestFault::Range);
    };
    Ok(which)
}

#[tactic(auto, unfolding(crate::specs::Meant::deice_field))]
fn deice_in(value: &LineJson<'_, '_>) -> Result<Command, RequestFault>
    ensures reads { result ≡ deice_field (data_of value.now) }
    ensures plain { IfOk result (λ command. is_load command ≡ false) }
{
    let flight = number_in(value, "flight", 1, u64::MAX)?;
    let which = deicing_time_in(value)?;
    let time = time_or_null_in(value, "time")?;
    let flight = FlightNumber::new(flight);
    Ok(Command::Deice(Deice {
        flight,
        which,
        time,
    }))
}

#[tactic(auto, unfolding(crate::specs::Meant::show_field))]
fn show_in(value: &LineJson<'_, '_>) -> Result<Command, RequestFault>
    ensures reads { result ≡ show_field (data_of value.now) }
    ensures plain { IfOk result (λ command. is_load command ≡ false) }
{
    let flight = number_in(value, "flight", 1, u64::MAX)?;
    Ok(Command::Show(FlightNumber::new(flight)))
}

#[tactic(auto, unfolding(crate::specs::Meant::kind_field))]
fn kind_in(value: &LineJson<'_, '_>) -> Result<Kind, RequestFault>
    ensures { result ≡ kind_field (data_of value.now) }
{
    let Some(name) = value.text("kind") else {
        return Err(RequestFault::Kind);
    };
    let Some(kind) = Kind::from_name(name.as_bytes()) else {
        return Err(RequestFault::Range);
    };
    Ok(kind)
}

// The slot of a program: its milestone and its kind.
fn slot_in(value: &LineJson<'_, '_>) -> Result<(Milestone, Kind), RequestFault>
    ensures { result ≡ slot_field (data_of value.now) }
{
    let milestone = milestone_in(value)?;
    let kind = kind_in(value)?;
    Ok((milestone, kind))
}

// The bytes of hexadecimal text.
#[tactic(auto, unfolding(crate::specs::Meant::program_field, crate::specs::Memory::program_needs_memory))]
fn program_in(alloc: Global, value: &LineJson<'_, '_>) -> Result<ProgramBytes, LineError>
    ensures reads { Gives result (program_field (data_of value.now)) }
    ensures memory { result ≡ Err LineError.Memory
        → IsTrue (program_needs_memory (data_of value.now)) }
{
    let Some(digits) = value.text("program") else {
        return Err(LineError::Fault(RequestFault::Kind));
    };
    match hex::decode(alloc, digits) {
        Ok(bytes) => Ok(ProgramBytes::from(bytes)),
        Err(FromHexError::OutOfMemory) => Err(LineError::Memory),
        Err(_) => Err(LineError::Fault(RequestFault::Range)),
    }
}

fn length_at(number: u64) -> Result<Length, RequestFault>
    ensures { result ≡ or_fault RequestFault.Range (length_of number) }
{
    match number {
        128 => Ok(Length::L128),
        160 => Ok(Length::L160),
        _ => Err(RequestFault::Range),
    }
}

// The length of the records beside which a program is to run.
#[tactic(auto, unfolding(crate::specs::Meant::length_field))]
fn length_in(value: &LineJson<'_, '_>) -> Result<Length, RequestFault>
    ensures { result ≡ length_field (data_of value.now) }
{
    if !value.has("length") {
        return Ok(Length::L128);
    }
    let Some(number) = value.number("length") else {
        return Err(RequestFault::Kind);
    };
    length_at(number)
}

#[tactic(auto, unfolding(crate::specs::Meant::load_field, crate::specs::Memory::load_needs_memory))]
fn load_in(alloc: Global, value: &LineJson<'_, '_>) -> Result<StatedCommand, LineError>
    ensures reads { Gives result (load_field (data_of value.now)) }
    ensures memory { result ≡ Err LineError.Memory → IsTrue (load_needs_memory (data_of value.now)) }
    ensures plain { IfOk result (λ asked. is_plain asked ≡ true) }
{
    let (milestone, kind) = match slot_in(value) {
        Ok(slot) => slot,
        Err(fault) => return Err(LineError::Fault(fault)),
    };
    let program = program_in(alloc, value)?;
    let record_length = match length_in(value) {
        Ok(length) => length,
        Err(fault) => return Err(LineError::Fault(fault)),
    };
    Ok(StatedCommand::Load(LoadRequest {
        milestone,
        kind,
        program,
        record_length,
    }))
}

#[tactic(auto, unfolding(crate::specs::Meant::unload_field))]
fn unload_in(value: &LineJson<'_, '_>) -> Result<Command, RequestFault>
    ensures reads { result ≡ unload_field (data_of value.now) }
    ensures plain { IfOk result (λ command. is_load command ≡ false) }
{
    let (milestone, kind) = slot_in(value)?;
    Ok(Command::Unload(Unload { milestone, kind }))
}

// The command of this name, where it is not a load.
#[tactic(auto, unfolding(crate::specs::Meant::plain_named))]
fn plain_in(value: &LineJson<'_, '_>, name: &str) -> Result<Command, RequestFault>
    ensures reads { result ≡ plain_named name.now (data_of value.now) }
    ensures plain { IfOk result (λ command. is_load command ≡ false) }
{
    if name == "schedule" {
        schedule_in(value)
    } else if name == "report" {
        report_in(value)
    } else if name == "deice" {
        deice_in(value)
    } else if name == "unload" {
        unload_in(value)
    } else if name == "tick" {
        Ok(Command::Tick)
    } else if name == "migrate" {
        Ok(Command::Migrate)
    } else if name == "show" {
        show_in(value)
    } else if name == "alerts" {
        Ok(Command::Alerts)
    } else {
        Err(RequestFault::UnknownCommand)
    }
}

#[tactic(auto, unfolding(crate::specs::Meant::command_of, crate::specs::Meant::command_named, crate::specs::Memory::command_needs_memory))]
pub(crate) fn command_in(
    alloc: Global,
    value: &LineJson<'_, '_>,
) -> Result<StatedCommand, LineError>
    ensures reads { Gives result (command_of (data_of value.now)) }
    ensures memory { result ≡ Err LineError.Memory
        → IsTrue (command_needs_memory (data_of value.now)) }
    ensures plain { IfOk result (λ asked. is_plain asked ≡ true) }
{
    let Some(name) = value.text("cmd") else {
        return Err(LineError::Fault(RequestFault::UnknownCommand));
    };
    if name == "load" {
        return load_in(alloc, value);
    }
    match plain_in(value, name) {
        Ok(command) => Ok(StatedCommand::Plain(command)),
        Err(fault) => Err(LineError::Fault(fault)),
    }
}
