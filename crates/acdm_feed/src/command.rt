//! Commands and outcomes as objects.
ghost use Rattle.std.specs.Prelude.{◌≡◌, ◌++◌, OnOk};
ghost use Rattle.acdm_feed.specs.Names.{object_of, outcome_tokens, refusal_name};
ghost use Rattle.acdm_feed.specs.Commands.{command_members, deice_members, load_members};
ghost use Rattle.acdm_feed.specs.Commands.{plan_members, planned_members, report_members};
ghost use Rattle.acdm_feed.specs.Commands.{schedule_members, unload_members};

use crate::line::FeedLine;
use crate::tokens::{key, push_number, push_printable, push_text, push_time, push_word};
use acdm_milestones::Refusal;
use acdm_step::{Command, Deice, FlightPlan, Load, Report, Schedule, Unload, Verdict};
use std::alloc::AllocError;

fn push_plan(line: &mut FeedLine, plan: &FlightPlan) -> Result<(), AllocError>
    ensures before { line.new.before ≡ line.old.before }
    ensures adds { OnOk result (line.new.tokens ≡ line.old.tokens ++ plan_members plan.now) }
{
    push_printable(line, key!("callsign"), plan.callsign.as_bytes())?;
    push_printable(line, key!("type"), plan.aircraft.as_bytes())?;
    push_printable(line, key!("reg"), plan.registration.as_bytes())?;
    push_printable(line, key!("dest"), plan.destination.as_bytes())?;
    Ok(())
}

// SOBT, MTTT, EXIT, EXOT and the stand.
fn push_planned(line: &mut FeedLine, schedule: &Schedule) -> Result<(), AllocError>
    ensures before { line.new.before ≡ line.old.before }
    ensures adds { OnOk result (line.new.tokens
        ≡ line.old.tokens ++ planned_members schedule.now) }
{
    push_time(line, key!("sobt"), schedule.sobt())?;
    push_number(line, key!("mttt"), u64::from(schedule.mttt()))?;
    push_number(line, key!("exit"), u64::from(schedule.exit()))?;
    push_number(line, key!("exot"), u64::from(schedule.exot()))?;
    push_number(line, key!("stand"), u64::from(schedule.stand()))?;
    Ok(())
}

fn push_schedule(line: &mut FeedLine, schedule: &Schedule) -> Result<(), AllocError>
    ensures before { line.new.before ≡ line.old.before }
    ensures adds { OnOk result (line.new.tokens
        ≡ line.old.tokens ++ schedule_members schedule.now) }
{
    push_word(line, key!("cmd"), "schedule")?;
    push_number(line, key!("flight"), schedule.flight())?;
    push_plan(line, schedule.plan())?;
    push_planned(line, schedule)?;
    Ok(())
}

fn push_report(line: &mut FeedLine, report: &Report) -> Result<(), AllocError>
    ensures before { line.new.before ≡ line.old.before }
    ensures adds { OnOk result (line.new.tokens ≡ line.old.tokens ++ report_members report.now) }
{
    push_word(line, key!("cmd"), "report")?;
    push_number(line, key!("flight"), report.flight())?;
    push_number(
        line,
        key!("milestone"),
        u64::from(report.milestone().number()),
    )?;
    push_time(line, key!("time"), report.time())?;
    let Some(plan) = report.plan() else {
        return Ok(());
    };
    push_plan(line, plan)
}

fn push_deice(line: &mut FeedLine, deice: &Deice) -> Result<(), AllocError>
    ensures before { line.new.before ≡ line.old.before }
    ensures adds { OnOk result (line.new.tokens ≡ line.old.tokens ++ deice_members deice.now) }
{
    push_word(line, key!("cmd"), "deice")?;
    push_number(line, key!("flight"), deice.flight.get())?;
    push_text(line, key!("field"), deice.which.name())?;
    push_time(line, key!("time"), deice.time)?;
    Ok(())
}

fn push_load(line: &mut FeedLine, load: &Load) -> Result<(), AllocError>
    ensures before { line.new.before ≡ line.old.before }
    ensures adds { OnOk result (line.new.tokens ≡ line.old.tokens ++ load_members load.now) }
{
    push_word(line, key!("cmd"), "load")?;
    push_number(line, key!("milestone"), u64::from(load.milestone.number()))?;
    push_text(line, key!("kind"), load.kind.name())?;
    push_number(line, key!("instructions"), load.program.instructions())?;
    let record_length = load.program.record_length();
    push_number(line, key!("length"), record_length.bytes() as u64)?;
    Ok(())
}

fn push_unload(line: &mut FeedLine, unload: &Unload) -> Result<(), AllocError>
    ensures before { line.new.before ≡ line.old.before }
    ensures adds { OnOk result (line.new.tokens ≡ line.old.tokens ++ unload_members unload.now) }
{
    push_word(line, key!("cmd"), "unload")?;
    push_number(
        line,
        key!("milestone"),
        u64::from(unload.milestone.number()),
    )?;
    push_text(line, key!("kind"), unload.kind.name())?;
    Ok(())
}

fn push_members(line: &mut FeedLine, command: &Command) -> Result<(), AllocError>
    ensures before { line.new.before ≡ line.old.before }
    ensures adds { OnOk result (line.new.tokens
        ≡ line.old.tokens ++ command_members command.now) }
{
    match command {
        Command::Schedule(schedule) => push_schedule(line, schedule),
        Command::Report(report) => push_report(line, report),
        Command::Deice(deice) => push_deice(line, deice),
        Command::Load(load) => push_load(line, load),
        Command::Unload(unload) => push_unload(line, unload),
        Command::Tick => push_word(line, key!("cmd"), "tick"),
        Command::Migrate => {
            push_word(line, key!("cmd"), "migrate")?;
            push_number(line, key!("layout"), 2)
        }
        Command::Show(flight) => {
            push_word(line, key!("cmd"), "show")?;
            push_number(line, key!("flight"), flight.get())
        }
        Command::Alerts => push_word(line, key!("cmd"), "alerts"),
    }
}

/// Adds a command.
pub(crate) fn push_command(line: &mut FeedLine, command: &Command) -> Result<(), AllocError>
    ensures before { line.new.before ≡ line.old.before }
    ensures adds { OnOk result (line.new.tokens
        ≡ line.old.tokens ++ object_of (command_members command.now)) }
{
    line.begin_object()?;
    push_members(line, command)?;
    line.end_object()
}

fn refusal_name(refusal: Refusal) -> &'static str
    ensures { result.now ≡ refusal_name refusal }
{
    match refusal {
        Refusal::NotOwner => "not_owner",
        Refusal::UnknownFlight => "unknown_flight",
        Refusal::MissingMilestone => "missing_milestone",
        Refusal::Barred => "barred",
        Refusal::NotSet => "not_set",
        Refusal::TimeOrder => "time_order",
        Refusal::AlreadyPlanned => "already_planned",
        Refusal::FullBoard => "full_board",
        Refusal::EmptySlot => "empty_slot",
        Refusal::OtherSignatures => "other_signatures",
        Refusal::OtherLength => "other_length",
        Refusal::AlreadyMigrated => "already_migrated",
        Refusal::FirstLayout => "first_layout",
        Refusal::Unanswered => "unanswered",
    }
}

// Adds a refusal.
fn push_refusal(line: &mut FeedLine, refusal: Refusal) -> Result<(), AllocError>
    ensures before { line.new.before ≡ line.old.before }
    ensures adds { OnOk result (line.new.tokens
        ≡ line.old.tokens ++ outcome_tokens (Verdict.Refused refusal)) }
{
    line.begin_object()?;
    push_number(line, key!("code"), u64::from(refusal.code()))?;
    push_text(line, key!("name"), refusal_name(refusal))?;
    line.end_object()
}

/// Adds what came of a command.
pub(crate) fn push_outcome(line: &mut FeedLine, verdict: Verdict) -> Result<(), AllocError>
    ensures before { line.new.before ≡ line.old.before }
    ensures adds { OnOk result (line.new.tokens ≡ line.old.tokens ++ outcome_tokens verdict) }
{
    match verdict {
        Verdict::Accepted => line.plain(b"ok"),
        Verdict::Refused(refusal) => push_refusal(line, refusal),
    }
}
