//! The core: the records of the flights in order of creation, and the programs in the slots.
ghost use Rattle.std.specs.Prelude.{◌≡◌, ◌||◌, ℕ, List, [], IsTrue, IfOk, OnErr, IfSome, true};
ghost use Rattle.std.specs.Prelude.{if◌then◌else◌, Some, None};
ghost use Rattle.std.specs.Option.{option_copied};
ghost use Rattle.acdm_milestones.specs.Tables.{has_reached};
ghost use Rattle.bpf_helpers.specs.Promise.{Promise};
ghost use Rattle.bpf_helpers.specs.Oracles.{Gained, MayBeAsked, SameRule, Unasked};
ghost use Rattle.acdm_step.specs.Commands.{History, is_accepted, is_alerts, is_migrate};
ghost use Rattle.acdm_step.specs.InSlots.{answers_room, asks_in, room_of};
ghost use Rattle.acdm_step.specs.Summaries.{exists, record_of, has_come_to};
ghost use Rattle.acdm_step.specs.Verdicts.{verdict_in};
ghost use Rattle.acdm_step.specs.History.{IsLegal, replay, after, needs_memory};
ghost use Rattle.acdm_step.specs.Board.{board_answer, board_loads};
ghost use Rattle.acdm_step.specs.Running.{Comes, ComesOf};
ghost use Rattle.acdm_step.specs.Prepared.{Fits, after_change};

use crate::by_flight::Flights;
use crate::command::Command;
use crate::outcome::{Outcome, UnloadedList};
use crate::prepare::{
    Change, Plan, prepare_flight, prepare_load, prepare_migrate, prepare_tick, prepare_unload,
    record_at, show,
};
use crate::programs::{either_asks, size_in};
use acdm_milestones::Role;
use acdm_record::Record;
use acdm_slots::{Kind, Slots};
use bpf_helpers::{Oracle, Sigs};
use bpf_regstate::Length;
use std::alloc::{AllocError, Global};
use std::marker::Model;

/// The board of a history: the record of each flight, in order of creation, and the programs in the
/// slots.
pub struct Core {
    flights: Flights,
    slots: Slots,
}

impl Drop for Core {
    fn drop(self) {
        let Core {
            flights: _,
            slots: _,
        } = self;
    }
}

impl Model for Core {
    ghost use Rattle.acdm_step.specs.History.{Board};
    ghost use Rattle.acdm_step.specs.Board.{AreLong};

    ghost Value = { Board };

    ghost view = { λ c. record { records = c.flights; slots = c.slots } };

    // The programs run beside the records.
    ghost invariant = { λ c. AreLong record { records = c.flights; slots = c.slots } };
}

impl Core {
    /// The board of the empty history, for programs that were checked against these signatures. It
    /// has room for all flights that a board may have. `Err` only where memory was refused.
    pub fn new(alloc: Global, sigs: Sigs) -> Result<Core, AllocError>
        ensures { IfOk result (λ core. core ≡ replay sigs []) }
    {
        let flights = Flights::new(alloc)?;
        let slots = Slots::new(alloc, sigs, Length::L128)?;
        Ok(Core { flights, slots })
    }

    /// The signatures against which programs must have been checked.
    pub fn sigs(&self) -> &Sigs
        ensures { result.now ≡ self.now.slots.sigs }
    {
        self.slots.sigs()
    }

    /// The record of a flight, `None` where it is not on the board.
    pub fn record_of(&self, flight: u64) -> Option<&Record>
        ensures record { (sigs : List (ℕ × Promise)) (J : History) → self.now ≡ replay sigs J →
            option_copied result ≡ (if exists J flight then Some (record_of J flight) else None) }
        // A bit of the reached word is set exactly where an accepted entry reached it.
        ensures reached { (sigs : List (ℕ × Promise)) (J : History) → self.now ≡ replay sigs J →
            IfSome result (λ r. (bit : ℕ) → has_reached r.now bit ≡ has_come_to J flight bit) }
    {
        let place = self.flights.place(flight);
        if place < self.flights.len() {
            Some(self.flights.at(place))
        } else {
            None
        }
    }

    /// How many answers of helpers the programs of a command use at most: for a report the
    /// instructions of both of its milestone's programs, else 0.
    pub fn room(&self, command: &Command) -> u64
        ensures { (sigs : List (ℕ × Promise)) (J : History) → self.now ≡ replay sigs J
            → result ≡ room_of J command.now }
    {
        match command {
            Command::Report(report) => {
                size_in(&self.slots, report.milestone, Kind::Tobt)
                    + size_in(&self.slots, report.milestone, Kind::Alert)
            }
            _ => 0,
        }
    }

    /// Whether a program of a command calls a helper.
    fn asks(&self, command: &Command) -> bool
        ensures { (sigs : List (ℕ × Promise)) (J : History) → self.now ≡ replay sigs J
            → result ≡ asks_in J command.now }
    {
        match command {
            Command::Report(report) => either_asks(&self.slots, report.milestone),
            _ => false,
        }
    }

    /// For how many answers there has to be room so that none is missing: for `room` where a
    /// program of the command calls a helper, else for none.
    pub fn answers_room(&self, command: &Command) -> u64
        ensures { (sigs : List (ℕ × Promise)) (J : History) → self.now ≡ replay sigs J
            → result ≡ answers_room J command.now }
    {
        if self.asks(command) {
            self.room(command)
        } else {
            0
        }
    }

    /// What an accepted command is answered on this board. `Err` only where memory was refused,
    /// which a list is asked for.
    pub(crate) fn answer(&self, command: &Command) -> Result<Outcome, AllocError>
        ensures value { IfOk result (λ outcome. outcome ≡ board_answer self.now command.now) }
        ensures memory { OnErr result (IsTrue (is_alerts command.now || is_migrate command.now)) }
    {
        match command {
            Command::Show(flight) => {
                let flight = flight.get();
                let at = self.flights.place(flight);
                let record = record_at(&self.flights, &self.slots, at, flight);
                Ok(Outcome::Shown(record))
            }
            Command::Alerts => {
                let list = self.flights.alerted()?;
                Ok(Outcome::Listed(list))
            }
            Command::Migrate => {
                let migrated = self.slots.migrated(Length::L160)?;
                Ok(Outcome::Migrated(UnloadedList::of(migrated.unloaded)))
            }
            _ => Ok(Outcome::Done),
        }
    }

    /// What would come of a command at a moment, and what it would do to the board, as it is said
    /// of a board alone.
    fn prepare<O: Oracle>(
        &self,
        oracle: &mut O,
        role: Role,
        moment: u32,
        command: &Command,
    ) -> Result<Plan, AllocError>
        requires oracle { MayBeAsked self.now.slots.sigs (O.view oracle.old) }
        ensures comes { IfOk result (λ p. Comes self.now role moment command.now (O.view oracle.old)
            (O.view oracle.new)
            p.outcome (after_change self.now p.change)) }
        ensures fits { IfOk result (λ p. Fits self.now p.change) }
        ensures unasked { OnErr result (Unasked (O.view oracle.old) (O.view oracle.new)) }
        ensures same_rule { SameRule (O.view oracle.old) (O.view oracle.new) }
        ensures memory { OnErr result (IsTrue (is_alerts command.now
            || board_loads self.now role command.now)) }
    {
        match command {
            Command::Schedule(_) | Command::Report(_) | Command::Deice(_) => Ok(prepare_flight(
                &self.flights,
                &self.slots,
                oracle,
                role,
                moment,
                command,
            )),
            Command::Load(load) => {
                let prepared = prepare_load(&self.slots, role, load)?;
                Ok(prepared)
            }
            Command::Unload(unload) => Ok(prepare_unload(&self.slots, role, unload)),
            Command::Tick => Ok(prepare_tick(role, moment)),
            Command::Migrate => {
                let prepared = prepare_migrate(&self.slots, role)?;
                Ok(prepared)
            }
            Command::Show(flight) => Ok(Plan {
                outcome: show(&self.flights, &self.slots, flight.get()),
                change: Change::Nothing,
            }),
            Command::Alerts => {
                let list = self.flights.alerted()?;
                Ok(Plan {
                    outcome: Outcome::Listed(list),
                    change: Change::Nothing,
                })
            }
        }
    }

    /// What would come of a command at a moment (minutes since 1970-01-01T00:00Z), and what it
    /// would do to the board, which stays as it is. All memory is taken here, and the programs of a
    /// report run here: helpers that they call are answered by the oracle.
    ///
    /// Where the oracle leaves a program without an answer, the report is refused as `Unanswered`,
    /// which changes nothing. `Err` only where memory was refused, which is asked for for a load,
    /// a migrate and a list of alerts; no program has run then.
    pub fn plan<O: Oracle>(
        &self,
        oracle: &mut O,
        role: Role,
        moment: u32,
        command: &Command,
    ) -> Result<Plan, AllocError>
        // The oracle answers by the signatures of the board, and may still count one more call
        // without an answer.
        requires oracle { MayBeAsked self.now.slots.sigs (O.view oracle.old) }

        // The answers meant are those that the oracle gave in the call, by which its log has grown.
        ensures outcome { IfOk result (λ p. (sigs : List (ℕ × Promise)) (J : History)
            → IsLegal sigs J → self.now ≡ replay sigs J →
            ComesOf sigs J role moment command.now (O.view oracle.old) (O.view oracle.new)
            p.outcome) }
        ensures board { IfOk result (λ p. (sigs : List (ℕ × Promise)) (J : History)
            (session : ℕ) (answers : List ℕ) →
            IsLegal sigs J → self.now ≡ replay sigs J →
            (is_accepted (verdict_in p.outcome) ≡ true
            → Gained (O.view oracle.old) (O.view oracle.new) answers) →
            after_change self.now p.change ≡ replay sigs
            (after J session role moment command.now (verdict_in p.outcome) answers)) }
        ensures sigs { IfOk result (λ p.
            (after_change self.now p.change).slots.sigs ≡ self.now.slots.sigs) }
        ensures fits { IfOk result (λ p. Fits self.now p.change) }
        ensures unasked { OnErr result (Unasked (O.view oracle.old) (O.view oracle.new)) }
        // What the oracle answers from stays the same.
        ensures same_rule { SameRule (O.view oracle.old) (O.view oracle.new) }
        ensures memory { OnErr result ((sigs : List (ℕ × Promise)) (J : History) → IsLegal sigs J
            → self.now ≡ replay sigs J →
            IsTrue (needs_memory sigs J role command.now)) }
    {
        let prepared = self.prepare(oracle, role, moment, command)?;
        Ok(prepared)
    }

    /// Does what was planned on this board. It takes no memory and is never refused.
    pub fn commit(&mut self, plan: Plan) -> Outcome
        requires { Fits self.old plan.change }
        ensures board { self.new ≡ after_change self.old plan.change }
        ensures outcome { result ≡ plan.outcome }
    {
        let Plan { outcome, change } = plan;
        match change {
            Change::Nothing => (),
            Change::Put(place, record) => self.flights.put(place, record),
            Change::Add(record) => self.flights.add(record),
            Change::Touch(moment) => self.flights.touch_all(moment),
            Change::Migrate(slots) => {
                self.flights.migrate_all();
                self.slots = slots;
            }
            Change::Load(milestone, kind, program) => self.slots.put(milestone, kind, program),
            Change::Unload(milestone, kind) => {
                if self.slots.unload(milestone, kind).is_err() {
                    unreachable!();
                }
            }
        }
        outcome
    }

    /// Plans a command and commits the plan: what comes of it at a moment (minutes since
    /// 1970-01-01T00:00Z), and the board after it. Helpers that its programs call are answered by
    /// the oracle.
    ///
    /// Where the oracle leaves a program without an answer, the report is refused as `Unanswered`
    /// and nothing has changed. `Err` only where memory was refused, which is asked for for a load,
    /// a migrate and a list of alerts, before anything changes.
    pub fn apply<O: Oracle>(
        &mut self,
        oracle: &mut O,
        role: Role,
        moment: u32,
        command: &Command,
    ) -> Result<Outcome, AllocError>
        // The oracle answers by the signatures of the board, and may still count one more call
        // without an answer.
        requires oracle { MayBeAsked self.old.slots.sigs (O.view oracle.old) }

        // The answers meant are those that the oracle gave in the call, by which its log has grown.
        ensures outcome { IfOk result (λ outcome. (sigs : List (ℕ × Promise)) (J : History)
            → IsLegal sigs J → self.old ≡ replay sigs J →
            ComesOf sigs J role moment command.now (O.view oracle.old) (O.view oracle.new)
            outcome) }
        ensures board { IfOk result (λ outcome. (sigs : List (ℕ × Promise)) (J : History)
            (session : ℕ) (answers : List ℕ) →
            IsLegal sigs J → self.old ≡ replay sigs J →
            (is_accepted (verdict_in outcome) ≡ true
            → Gained (O.view oracle.old) (O.view oracle.new) answers) →
            self.new ≡ replay sigs
            (after J session role moment command.now (verdict_in outcome) answers)) }
        ensures sigs { self.new.slots.sigs ≡ self.old.slots.sigs }
        ensures err { OnErr result (self.new ≡ self.old) }
        ensures unasked { OnErr result (Unasked (O.view oracle.old) (O.view oracle.new)) }
        // What the oracle answers from stays the same.
        ensures same_rule { SameRule (O.view oracle.old) (O.view oracle.new) }
        ensures memory { OnErr result ((sigs : List (ℕ × Promise)) (J : History) → IsLegal sigs J
            → self.old ≡ replay sigs J →
            IsTrue (needs_memory sigs J role command.now)) }
    {
        let plan = self.plan(oracle, role, moment, command)?;
        Ok(self.commit(plan))
    }
}
