//! The verdict on each command: the first refusal that applies.
ghost use Rattle.std.specs.Prelude.{◌≡◌, ◌↔◌, IsTrue, true};
ghost use Rattle.acdm_slots.specs.Loaded.{program_in};
ghost use Rattle.acdm_step.specs.Commands.{changes_flight, flight_of, is_accepted, is_deice};
ghost use Rattle.acdm_step.specs.Verdicts.{schedule_verdict, report_verdict, load_verdict};
ghost use Rattle.acdm_step.specs.Verdicts.{unload_verdict, tick_verdict, show_verdict, verdict_for};
ghost use Rattle.acdm_step.specs.Verdicts.{load_obstacle, unload_obstacle, migrate_obstacle};
ghost use Rattle.acdm_step.specs.Verdicts.{migrate_verdict, deice_obstacle, deice_verdict};
ghost use Rattle.acdm_step.specs.Board.{obstacle_on};
ghost use Rattle.acdm_record.specs.Fields.{length_of};
ghost use Rattle.bpf_regstate.specs.declared.length.Length.TheVariants.{L128, L160};
ghost use Rattle.bpf_regstate.specs.Lengths.{bytes_in};
ghost use Rattle.acdm_step.specs.Prepared.{owns_change};

use crate::command::{Command, Deice, Load, Unload};
use crate::entry::Verdict;
use acdm_milestones::{Action, Milestone, Refusal, Role, admit, admit_deicing, has_reached, owns};
use acdm_record::Record;
use acdm_slots::Slots;
use bpf_regstate::Length;

/// How many flights a board has at most.
pub const MOST_FLIGHTS: usize = 4096;

fn verdict_on_schedule(record: &Record, is_there: bool, count: usize, role: Role) -> Verdict
    ensures { result ≡ schedule_verdict is_there count «record».now role }
{
    if !owns(role, Action::Schedule) {
        return Verdict::Refused(Refusal::NotOwner);
    }
    if has_reached(record, 0) && has_reached(record, 1) {
        return Verdict::Refused(Refusal::AlreadyPlanned);
    }
    if !is_there && count >= MOST_FLIGHTS {
        return Verdict::Refused(Refusal::FullBoard);
    }
    Verdict::Accepted
}

fn verdict_on_report(
    record: &Record,
    is_there: bool,
    count: usize,
    role: Role,
    milestone: Milestone,
    time: u32,
) -> Verdict
    ensures { result ≡ report_verdict is_there count «record».now role milestone time }
{
    if !owns(role, Action::Report(milestone)) {
        return Verdict::Refused(Refusal::NotOwner);
    }
    if !is_there && !matches!(milestone, Milestone::FlightPlanActivated) {
        return Verdict::Refused(Refusal::UnknownFlight);
    }
    if !is_there && count >= MOST_FLIGHTS {
        return Verdict::Refused(Refusal::FullBoard);
    }
    match admit(record, role, milestone, time) {
        Ok(()) => Verdict::Accepted,
        Err(refusal) => Verdict::Refused(refusal),
    }
}

/// The verdict on a tick.
pub(crate) fn verdict_on_tick(role: Role) -> Verdict
    ensures { result ≡ tick_verdict role }
{
    if owns(role, Action::Tick) {
        Verdict::Accepted
    } else {
        Verdict::Refused(Refusal::NotOwner)
    }
}

/// The verdict on a load. Length and signatures are those of the board where it is accepted.
pub(crate) fn verdict_on_load(slots: &Slots, role: Role, load: &Load) -> Verdict
    ensures value { result
        ≡ load_verdict (load_obstacle slots.now.sigs slots.now.record_length load.now.program) role }
    ensures long { result ≡ Verdict.Accepted
        → load.now.program.record_length ≡ slots.now.record_length }
    ensures same { result ≡ Verdict.Accepted → load.now.program.sigs ≡ slots.now.sigs }
{
    if !owns(role, Action::Load) {
        return Verdict::Refused(Refusal::NotOwner);
    }
    if !load.program.record_length().is(slots.record_length()) {
        return Verdict::Refused(Refusal::OtherLength);
    }
    if !load.program.sigs().is_same(slots.sigs()) {
        return Verdict::Refused(Refusal::OtherSignatures);
    }
    Verdict::Accepted
}

/// The verdict on an unload.
pub(crate) fn verdict_on_unload(slots: &Slots, role: Role, unload: &Unload) -> Verdict
    ensures { result ≡ unload_verdict
        (unload_obstacle (program_in slots.now unload.now.milestone unload.now.kind)) role }
{
    if !owns(role, Action::Unload) {
        return Verdict::Refused(Refusal::NotOwner);
    }
    if slots.get(unload.milestone, unload.kind).is_none() {
        return Verdict::Refused(Refusal::EmptySlot);
    }
    Verdict::Accepted
}

/// The verdict on a migrate.
pub(crate) fn verdict_on_migrate(slots: &Slots, role: Role) -> Verdict
    ensures value { result ≡ migrate_verdict (migrate_obstacle slots.now.record_length) role }
    ensures first { result ≡ Verdict.Accepted → slots.now.record_length ≡ L128 }
{
    if !owns(role, Action::Migrate) {
        return Verdict::Refused(Refusal::NotOwner);
    }
    if slots.record_length().is(Length::L160) {
        return Verdict::Refused(Refusal::AlreadyMigrated);
    }
    Verdict::Accepted
}

// The verdict on a time of de-icing of a flight that is there or not, with this record.
fn verdict_on_deice(
    record: &Record,
    is_there: bool,
    record_length: Length,
    role: Role,
    deice: &Deice,
) -> Verdict
    requires long { length_of «record».now ≡ bytes_in record_length }
    ensures value { result ≡ deice_verdict is_there «record».now (deice_obstacle record_length) role
        deice.now.which deice.now.time }
    ensures second { result ≡ Verdict.Accepted → record_length ≡ L160 }
{
    if !owns(role, Action::Deice) {
        return Verdict::Refused(Refusal::NotOwner);
    }
    if record_length.is(Length::L128) {
        return Verdict::Refused(Refusal::FirstLayout);
    }
    if !is_there {
        return Verdict::Refused(Refusal::UnknownFlight);
    }
    match admit_deicing(record, deice.which, deice.time) {
        Ok(()) => Verdict::Accepted,
        Err(refusal) => Verdict::Refused(refusal),
    }
}

/// The verdict on showing the record of a flight that is there or not.
pub(crate) fn verdict_on_show(is_there: bool) -> Verdict
    ensures { result ≡ show_verdict is_there }
{
    if is_there {
        Verdict::Accepted
    } else {
        Verdict::Refused(Refusal::UnknownFlight)
    }
}

/// The verdict on a command that changes a flight, by that flight's record.
pub(crate) fn verdict(
    record: &Record,
    is_there: bool,
    count: usize,
    slots: &Slots,
    role: Role,
    command: &Command,
) -> Verdict
    requires changes { changes_flight command.now ≡ true }
    requires long { length_of «record».now ≡ bytes_in slots.now.record_length }
    ensures value { result ≡ verdict_for is_there count «record».now
        (obstacle_on slots.now command.now) role command.now }
    ensures second { IsTrue (is_accepted result) → IsTrue (is_deice command.now)
        → slots.now.record_length ≡ L160 }
{
    match command {
        Command::Deice(deice) => {
            verdict_on_deice(record, is_there, slots.record_length(), role, deice)
        }
        Command::Schedule(_) => verdict_on_schedule(record, is_there, count, role),
        Command::Report(report) => {
            verdict_on_report(record, is_there, count, role, report.milestone, report.time)
        }
        _ => unreachable!(),
    }
}

/// Whether the role owns a command that changes a flight.
pub(crate) fn is_owner(role: Role, command: &Command) -> bool
    requires { changes_flight command.now ≡ true }
    ensures { result ≡ owns_change role command.now }
{
    match command {
        Command::Schedule(_) => owns(role, Action::Schedule),
        Command::Report(report) => owns(role, Action::Report(report.milestone)),
        Command::Deice(_) => owns(role, Action::Deice),
        _ => unreachable!(),
    }
}

/// The flight that a command changes.
pub(crate) fn flight_of_command(command: &Command) -> u64
    requires { changes_flight command.now ≡ true }
    ensures { result ≡ flight_of command.now }
{
    match command {
        Command::Schedule(schedule) => schedule.flight(),
        Command::Report(report) => report.flight(),
        Command::Deice(deice) => deice.flight.get(),
        _ => unreachable!(),
    }
}
