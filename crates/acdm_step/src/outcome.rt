//! What comes of a command.
ghost use Rattle.std.specs.Prelude.{◌≡◌, ◌++◌, IfOk, IsTrue, OnErr};
ghost use Rattle.acdm_step.specs.Verdicts.{verdict_in, outcome_with, is_list};

use crate::entry::Verdict;
use acdm_alerts::AlertSet;
use acdm_milestones::Refusal;
use acdm_record::Record;
use acdm_slots::Unloaded;
use std::alloc::AllocError;
use std::marker::Model;

/// A flight and its alerts.
#[derive(Clone, Copy)]
pub struct Alerted {
    pub flight: u64,
    pub alerts: AlertSet,
}

/// Flights with their alerts, in order of creation.
pub struct AlertList {
    items: Vec<Alerted>,
}

impl Drop for AlertList {
    fn drop(self) {
        let AlertList { items: _ } = self;
    }
}

impl Model for AlertList {
    ghost use Rattle.std.specs.Prelude.{List};
    ghost use Rattle.acdm_step.specs.declared.outcome.Alerted.{Alerted};

    ghost Value = { List Alerted };

    ghost view = { λ l. l.items.items };
}

impl AlertList {
    /// These flights.
    pub(crate) fn of(items: Vec<Alerted>) -> AlertList
        ensures { result ≡ items.items }
    {
        AlertList { items }
    }

    /// A list that equals this one. `Err` only where memory was refused.
    fn copy(&self) -> Result<AlertList, AllocError>
        ensures { IfOk result (λ list. list ≡ self.now) }
    {
        let items = self.items.clone()?;
        Ok(AlertList { items })
    }

    /// The flights, each with its alerts.
    pub fn as_slice(&self) -> &[Alerted]
        ensures { result.now ≡ self.now }
    {
        self.items.as_slice()
    }
}

/// Programs that a migrate has taken out of their slots, by milestone, and of one milestone the
/// program for TOBT first.
pub struct UnloadedList {
    items: Vec<Unloaded>,
}

impl Drop for UnloadedList {
    fn drop(self) {
        let UnloadedList { items: _ } = self;
    }
}

impl Model for UnloadedList {
    ghost use Rattle.std.specs.Prelude.{List};
    ghost use Rattle.acdm_slots.specs.declared.migration.Unloaded.{Unloaded};

    ghost Value = { List Unloaded };

    ghost view = { λ l. l.items.items };
}

impl UnloadedList {
    /// These programs.
    pub(crate) fn of(items: Vec<Unloaded>) -> UnloadedList
        ensures { result ≡ items.items }
    {
        UnloadedList { items }
    }

    /// A list that equals this one. `Err` only where memory was refused.
    fn copy(&self) -> Result<UnloadedList, AllocError>
        ensures { IfOk result (λ list. list ≡ self.now) }
    {
        let items = self.items.clone()?;
        Ok(UnloadedList { items })
    }

    /// The programs, each with its slot and its first fault.
    pub fn as_slice(&self) -> &[Unloaded]
        ensures { result.now ≡ self.now }
    {
        &self.items[..]
    }
}

/// What comes of a command.
#[derive(Drop)]
pub enum Outcome {
    /// It was accepted, and asks nothing.
    Done,
    /// The record that was asked for.
    Shown(Record),
    /// The flights with alerts.
    Listed(AlertList),
    /// All records have layout 2 now, and these programs were unloaded.
    Migrated(UnloadedList),
    /// It was refused, and changed nothing.
    Refused(Refusal),
}

impl Outcome {
    /// Whether the command was accepted, which is what an entry keeps.
    pub fn verdict(&self) -> Verdict
        ensures { result ≡ verdict_in self.now }
    {
        match self {
            Outcome::Refused(refusal) => Verdict::Refused(*refusal),
            Outcome::Done | Outcome::Shown(_) | Outcome::Listed(_) | Outcome::Migrated(_) => {
                Verdict::Accepted
            }
        }
    }

    /// An outcome that equals this one. `Err` only where memory was refused, which a list needs.
    pub fn copy(&self) -> Result<Outcome, AllocError>
        ensures copied { IfOk result (λ outcome. outcome ≡ self.now) }
        ensures memory { OnErr result (IsTrue (is_list self.now)) }
    {
        match self {
            Outcome::Done => Ok(Outcome::Done),
            Outcome::Shown(record) => Ok(Outcome::Shown(record.copy())),
            Outcome::Listed(list) => Ok(Outcome::Listed(list.copy()?)),
            Outcome::Migrated(list) => Ok(Outcome::Migrated(list.copy()?)),
            Outcome::Refused(refusal) => Ok(Outcome::Refused(*refusal)),
        }
    }

    /// The outcome of a command that asks nothing.
    pub(crate) fn of(verdict: Verdict) -> Outcome
        ensures { result ≡ outcome_with Outcome.Done verdict }
    {
        match verdict {
            Verdict::Accepted => Outcome::Done,
            Verdict::Refused(refusal) => Outcome::Refused(refusal),
        }
    }
}
