//! What a command does to the record of its flight.
ghost use Rattle.std.specs.Prelude.{◌≡◌, IsTrue, OnOk, OnErr, true};
ghost use Rattle.acdm_record.specs.Assign.{with_all};
ghost use Rattle.acdm_milestones.specs.Tables.{number};
ghost use Rattle.bpf_helpers.specs.Oracles.{MayBeAsked, SameRule};
ghost use Rattle.acdm_step.specs.Commands.{changes_flight, told_milestone, plan_assignments};
ghost use Rattle.acdm_step.specs.Commands.{is_deice};
ghost use Rattle.acdm_step.specs.Board.{assigned_to, programs_on, touched};
ghost use Rattle.acdm_step.specs.Running.{ChangesTo, AsksIn};
ghost use Rattle.acdm_record.specs.Fields.{length_of};
ghost use Rattle.bpf_regstate.specs.declared.length.Length.TheVariants.{L160};
ghost use Rattle.bpf_regstate.specs.Lengths.{bytes_in};

use crate::command::{Command, Deice, FlightPlan, Report, Schedule};
use crate::programs::run_programs;
use acdm_alerts::builtin;
use acdm_milestones::{mark_reached, set_deicing_time, set_time};
use acdm_record::{Field, Record, TextField};
use acdm_slots::Slots;
use bpf_helpers::Oracle;
use bpf_run::BadAnswer;

/// Computes the alerts of a record anew.
pub(crate) fn touch(record: &mut Record, moment: u32)
    ensures { «record».new ≡ touched moment «record».old }
{
    builtin(record, moment).store(record);
}

fn set_scheduled(record: &mut Record, schedule: &Schedule)
    ensures { «record».new ≡ assigned_to «record».old
        (Command.Schedule schedule.now) }
{
    record.set_text(TextField::Callsign, schedule.plan.callsign.as_bytes());
    record.set_text(TextField::ScheduledType, schedule.plan.aircraft.as_bytes());
    record.set_text(
        TextField::ScheduledRegistration,
        schedule.plan.registration.as_bytes(),
    );
    record.set_text(
        TextField::ScheduledDestination,
        schedule.plan.destination.as_bytes(),
    );
    record.set(Field::Sobt, u64::from(schedule.sobt));
    record.set(Field::Mttt, u64::from(schedule.mttt));
    record.set(Field::Exit, u64::from(schedule.exit));
    record.set(Field::Exot, u64::from(schedule.exot));
    record.set(Field::Stand, u64::from(schedule.stand));
    mark_reached(record, 0);
}

fn set_deiced(record: &mut Record, deice: &Deice)
    requires { length_of «record».old ≡ 160 }
    ensures { «record».new ≡ assigned_to «record».old
        (Command.Deice deice.now) }
{
    set_deicing_time(record, deice.which, deice.time);
}

fn set_planned(record: &mut Record, plan: &Option<FlightPlan>)
    ensures { «record».new ≡ with_all «record».old (plan_assignments plan.now) }
{
    if let Some(plan) = plan {
        record.set_text(TextField::Callsign, plan.callsign.as_bytes());
        record.set_text(TextField::PlanType, plan.aircraft.as_bytes());
        record.set_text(TextField::PlanRegistration, plan.registration.as_bytes());
        record.set_text(TextField::PlanDestination, plan.destination.as_bytes());
    }
}

fn set_reported(record: &mut Record, report: &Report)
    ensures { «record».new ≡ assigned_to «record».old
        (Command.Report report.now) }
{
    set_time(record, report.milestone, report.time);
    set_planned(record, &report.plan);
    mark_reached(record, report.milestone.number());
}

// What an accepted report does to the record of its flight.
fn change_reported<O: Oracle>(
    record: &mut Record,
    slots: &Slots,
    moment: u32,
    report: &Report,
    oracle: &mut O,
) -> Result<(), BadAnswer>
    requires oracle { MayBeAsked slots.now.sigs (O.view oracle.old) }
    requires long { length_of «record».old ≡ bytes_in slots.now.record_length }
    ensures changed { OnOk result (ChangesTo
        (programs_on slots.now (Command.Report report.now)) «record».old moment
        (Command.Report report.now) (O.view oracle.old) (O.view oracle.new)
        «record».new) }
    ensures unanswered { OnErr result
        (AsksIn (programs_on slots.now (Command.Report report.now))
        (assigned_to «record».old (Command.Report report.now)) moment
        (number report.now.milestone) (O.view oracle.old) (O.view oracle.new)) }
    ensures same_rule { SameRule (O.view oracle.old) (O.view oracle.new) }
{
    set_reported(record, report);
    run_programs(slots, report.milestone, record, moment, oracle)?;
    touch(record, moment);
    Ok(())
}

/// What an accepted command does to the record of its flight, at a moment. Where a program of it is
/// left without an answer the record is of no use.
pub(crate) fn change<O: Oracle>(
    record: &mut Record,
    slots: &Slots,
    moment: u32,
    command: &Command,
    oracle: &mut O,
) -> Result<(), BadAnswer>
    requires changes { changes_flight command.now ≡ true }
    requires oracle { MayBeAsked slots.now.sigs (O.view oracle.old) }
    requires long { length_of «record».old ≡ bytes_in slots.now.record_length }
    requires second { IsTrue (is_deice command.now)
        → slots.now.record_length ≡ L160 }
    ensures changed { OnOk result (ChangesTo (programs_on slots.now command.now)
        «record».old moment command.now (O.view oracle.old) (O.view oracle.new)
        «record».new) }
    ensures unanswered { OnErr result
        (AsksIn (programs_on slots.now command.now)
        (assigned_to «record».old command.now) moment
        (told_milestone command.now) (O.view oracle.old) (O.view oracle.new)) }
    ensures same_rule { SameRule (O.view oracle.old) (O.view oracle.new) }
{
    match command {
        Command::Report(report) => change_reported(record, slots, moment, report, oracle),
        Command::Schedule(schedule) => {
            set_scheduled(record, schedule);
            touch(record, moment);
            Ok(())
        }
        Command::Deice(deice) => {
            set_deiced(record, deice);
            touch(record, moment);
            Ok(())
        }
        _ => unreachable!(),
    }
}
