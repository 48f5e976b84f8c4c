//! What a command would do to the board, found out before anything changes.
ghost use Rattle.std.specs.Prelude.{◌≡◌, ◌↔◌, IsTrue, IfOk, OnErr, if◌then◌else◌, true};
ghost use Rattle.bpf_helpers.specs.Oracles.{MayBeAsked, SameRule};
ghost use Rattle.bpf_regstate.specs.declared.length.Length.TheVariants.{L128, L160};
ghost use Rattle.acdm_slots.specs.Loaded.{program_in};
ghost use Rattle.acdm_step.specs.Commands.{changes_flight, is_accepted};
ghost use Rattle.acdm_step.specs.Verdicts.{load_verdict, outcome_with, show_verdict, tick_verdict};
ghost use Rattle.acdm_step.specs.Verdicts.{load_obstacle, unload_obstacle, unload_verdict};
ghost use Rattle.acdm_slots.specs.Migration.{migrated_slots, unloaded};
ghost use Rattle.acdm_step.specs.Verdicts.{migrate_obstacle, migrate_verdict};
ghost use Rattle.acdm_step.specs.Board.{AreLong, begun, board_of, is_there, place_of, record_on};
ghost use Rattle.acdm_step.specs.Running.{Comes};
ghost use Rattle.acdm_step.specs.Prepared.{Fits, after_change};

use crate::by_flight::Flights;
use crate::change::change;
use crate::command::{Command, Load, Unload};
use crate::entry::Verdict;
use crate::outcome::{Outcome, UnloadedList};
use crate::verdicts::{
    flight_of_command, is_owner, verdict, verdict_on_load, verdict_on_migrate, verdict_on_show,
    verdict_on_tick, verdict_on_unload,
};
use acdm_milestones::{Milestone, Refusal, Role};
use acdm_record::Record;
use acdm_slots::{Kind, Slots};
use bpf_helpers::Oracle;
use bpf_regstate::Length;
use bpf_verifier::Checked;
use std::alloc::AllocError;

/// What a command does to the board. `Core::commit` asks that it fits the board that it is done to,
/// as what `Core::plan` answers fits the board that it was planned on.
#[derive(Drop)]
pub enum Change {
    /// The board stays.
    Nothing,
    /// The record at a place becomes this one, of the same flight.
    Put(usize, Record),
    /// A new flight has this record.
    Add(Record),
    /// Each record is touched at this moment (minutes since 1970-01-01T00:00Z).
    Touch(u32),
    /// Each record comes to layout 2, and these are the slots then.
    Migrate(Slots),
    /// A program comes into a slot.
    Load(Milestone, Kind, Checked),
    /// A slot becomes empty.
    Unload(Milestone, Kind),
}

/// What comes of a command, and what it does to the board.
#[derive(Drop)]
pub struct Plan {
    pub outcome: Outcome,
    pub change: Change,
}

// What comes of a refused command.
fn refused(refusal: Refusal) -> Plan
    ensures outcome { result.outcome ≡ Outcome.Refused refusal }
    ensures change { result.change ≡ Change.Nothing }
{
    Plan {
        outcome: Outcome::Refused(refusal),
        change: Change::Nothing,
    }
}

// The record that a flight begins with, on a board whose records are so long.
fn begun_record(record_length: Length, flight: u64) -> Record
    ensures { result ≡ begun record_length flight }
{
    let mut record = Record::new(flight);
    if record_length.is(Length::L160) {
        record.migrate();
    }
    record
}

/// The record at a flight's place, or the one that it begins with.
pub(crate) fn record_at(flights: &Flights, slots: &Slots, place: usize, flight: u64) -> Record
    requires { place ≡ place_of flights.now flight }
    ensures { result ≡ record_on (board_of flights.now slots.now) flight }
{
    if place < flights.len() {
        flights.at(place).copy()
    } else {
        begun_record(slots.record_length(), flight)
    }
}

/// What a schedule, a report or a time of de-icing does. It takes no memory, and looks for the flight only where the
/// role owns the command.
pub(crate) fn prepare_flight<O: Oracle>(
    flights: &Flights,
    slots: &Slots,
    oracle: &mut O,
    role: Role,
    moment: u32,
    command: &Command,
) -> Plan
    requires changes { changes_flight command.now ≡ true }
    requires oracle { MayBeAsked slots.now.sigs (O.view oracle.old) }
    requires as_long { AreLong (board_of flights.now slots.now) }
    ensures comes { Comes (board_of flights.now slots.now) role moment command.now
        (O.view oracle.old) (O.view oracle.new)
        result.outcome (after_change (board_of flights.now slots.now) result.change) }
    ensures fits { Fits (board_of flights.now slots.now) result.change }
    ensures same_rule { SameRule (O.view oracle.old) (O.view oracle.new) }
{
    if !is_owner(role, command) {
        return refused(Refusal::NotOwner);
    }
    let flight = flight_of_command(command);
    let place = flights.place(flight);
    let count = flights.len();
    let mut record = record_at(flights, slots, place, flight);
    let verdict = verdict(&record, place < count, count, slots, role, command);
    if !verdict.is_accepted() {
        return Plan {
            outcome: Outcome::of(verdict),
            change: Change::Nothing,
        };
    }
    if change(&mut record, slots, moment, command, oracle).is_err() {
        return refused(Refusal::Unanswered);
    }
    if place < count {
        Plan {
            outcome: Outcome::Done,
            change: Change::Put(place, record),
        }
    } else {
        Plan {
            outcome: Outcome::Done,
            change: Change::Add(record),
        }
    }
}

/// A load: a copy of its program comes into its slot. `Err` only where memory was refused.
pub(crate) fn prepare_load(slots: &Slots, role: Role, load: &Load) -> Result<Plan, AllocError>
    ensures outcome { IfOk result (λ p. p.outcome ≡ outcome_with Outcome.Done
        (load_verdict (load_obstacle slots.now.sigs slots.now.record_length load.now.program) role)) }
    ensures change { IfOk result (λ p. p.change ≡ (if is_accepted
        (load_verdict (load_obstacle slots.now.sigs slots.now.record_length load.now.program) role)
        then Change.Load load.now.milestone load.now.kind load.now.program else Change.Nothing)) }
    ensures long { IfOk result (λ p. IsTrue (is_accepted
        (load_verdict (load_obstacle slots.now.sigs slots.now.record_length load.now.program) role))
        → load.now.program.record_length ≡ slots.now.record_length) }
    ensures same { IfOk result (λ p. IsTrue (is_accepted
        (load_verdict (load_obstacle slots.now.sigs slots.now.record_length load.now.program) role))
        → load.now.program.sigs ≡ slots.now.sigs) }
    ensures loading { OnErr result (IsTrue (is_accepted
        (load_verdict (load_obstacle slots.now.sigs slots.now.record_length load.now.program)
        role))) }
{
    match verdict_on_load(slots, role, load) {
        Verdict::Refused(refusal) => Ok(refused(refusal)),
        Verdict::Accepted => {
            let program = load.program.copy()?;
            Ok(Plan {
                outcome: Outcome::Done,
                change: Change::Load(load.milestone, load.kind, program),
            })
        }
    }
}

/// An unload: its slot becomes empty.
pub(crate) fn prepare_unload(slots: &Slots, role: Role, unload: &Unload) -> Plan
    ensures outcome { result.outcome
        ≡ outcome_with Outcome.Done (unload_verdict
        (unload_obstacle (program_in slots.now unload.now.milestone unload.now.kind)) role) }
    ensures change { result.change ≡
        (if is_accepted (unload_verdict
        (unload_obstacle (program_in slots.now unload.now.milestone unload.now.kind)) role)
        then Change.Unload unload.now.milestone unload.now.kind else Change.Nothing) }
{
    match verdict_on_unload(slots, role, unload) {
        Verdict::Refused(refusal) => refused(refusal),
        Verdict::Accepted => Plan {
            outcome: Outcome::Done,
            change: Change::Unload(unload.milestone, unload.kind),
        },
    }
}

/// A tick: each record is touched.
pub(crate) fn prepare_tick(role: Role, moment: u32) -> Plan
    ensures outcome { result.outcome ≡ outcome_with Outcome.Done (tick_verdict role) }
    ensures change { result.change
        ≡ (if is_accepted (tick_verdict role) then Change.Touch moment else Change.Nothing) }
{
    match verdict_on_tick(role) {
        Verdict::Accepted => Plan {
            outcome: Outcome::Done,
            change: Change::Touch(moment),
        },
        Verdict::Refused(refusal) => refused(refusal),
    }
}

/// A migrate: each record comes to layout 2, and the programs are judged again beside it. `Err` only
/// where memory was refused.
pub(crate) fn prepare_migrate(slots: &Slots, role: Role) -> Result<Plan, AllocError>
    ensures outcome { IfOk result (λ p. p.outcome ≡ outcome_with
        (Outcome.Migrated (unloaded L160 (program_in slots.now)))
        (migrate_verdict (migrate_obstacle slots.now.record_length) role)) }
    ensures change { IfOk result (λ p. p.change ≡ (if is_accepted
        (migrate_verdict (migrate_obstacle slots.now.record_length) role)
        then Change.Migrate (migrated_slots L160 slots.now) else Change.Nothing)) }
    ensures first { IfOk result (λ p. IsTrue (is_accepted
        (migrate_verdict (migrate_obstacle slots.now.record_length) role))
        → slots.now.record_length ≡ L128) }
    ensures migrating { OnErr result (IsTrue (is_accepted
        (migrate_verdict (migrate_obstacle slots.now.record_length) role))) }
{
    match verdict_on_migrate(slots, role) {
        Verdict::Refused(refusal) => Ok(refused(refusal)),
        Verdict::Accepted => {
            let migrated = slots.migrated(Length::L160)?;
            Ok(Plan {
                outcome: Outcome::Migrated(UnloadedList::of(migrated.unloaded)),
                change: Change::Migrate(migrated.slots),
            })
        }
    }
}

/// The record of a flight, as it is answered.
pub(crate) fn show(flights: &Flights, slots: &Slots, flight: u64) -> Outcome
    ensures { result ≡ outcome_with
        (Outcome.Shown (record_on (board_of flights.now slots.now) flight))
        (show_verdict (is_there flights.now flight)) }
{
    let place = flights.place(flight);
    match verdict_on_show(place < flights.len()) {
        Verdict::Accepted => Outcome::Shown(flights.at(place).copy()),
        Verdict::Refused(refusal) => Outcome::Refused(refusal),
    }
}
