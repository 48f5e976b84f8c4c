//! The journal's entries.
ghost use Rattle.std.specs.Prelude.{◌≡◌, ◌||◌, ℕ, List, [], ◌∷◌, IfOk, IsOk, IsTrue, OnErr};
ghost use Rattle.bpf_helpers.specs.Promise.{Promise};
ghost use Rattle.acdm_step.specs.Commands.{History, is_alerts, is_migrate};
ghost use Rattle.acdm_step.specs.Commands.{is_accepted};
ghost use Rattle.acdm_step.specs.History.{IsLegal, replay};
ghost use Rattle.acdm_step.specs.Verdicts.{outcome_of};

use crate::command::Command;
use crate::outcome::Outcome;
use crate::state::Core;
use acdm_milestones::{Refusal, Role};
use std::alloc::{AllocError, Global};
use std::marker::Model;

/// Whether a command was accepted.
#[derive(Clone, Copy, Debug, PartialEq, Eq)]
pub enum Verdict {
    /// It was accepted.
    Accepted,
    /// It was refused, and changed nothing.
    Refused(Refusal),
}

impl Verdict {
    /// Whether the command was accepted.
    pub fn is_accepted(&self) -> bool
        ensures { result ≡ is_accepted self.now }
    {
        matches!(self, Verdict::Accepted)
    }
}

/// The answers of helpers that the programs of one command used, the first one first. It takes memory
/// only where there are any.
pub struct Answers {
    items: Option<Box<Vec<u64>>>,
}

impl Drop for Answers {
    fn drop(self) {
        let Answers { items: _ } = self;
    }
}

impl Model for Answers {
    ghost use Rattle.std.specs.Prelude.{ℕ, List, [], option_map, unwrap_or};

    ghost Value = { List ℕ };

    ghost view = { λ a. unwrap_or (option_map (λ b. b.value.items) a.items) [] };
}

impl Answers {
    /// No answer.
    pub fn none() -> Answers
        ensures { result ≡ [] }
    {
        Answers { items: None }
    }

    /// No answer, with a place for a list of them where so many may come. `Err` only where some may,
    /// and there is no memory for the place.
    pub fn with_place(alloc: Global, most: u64) -> Result<Answers, AllocError>
        ensures value { IfOk result (λ answers. answers ≡ []) }
        ensures none { most ≡ 0 → IsOk result }
    {
        if most == 0 {
            return Ok(Answers::none());
        }
        let place = Box::new(alloc, Vec::new(alloc))?;
        Ok(Answers { items: Some(place) })
    }

    /// These answers, in the place that was taken for them. `Err` only where there are some, and no
    /// place was taken. It takes no memory.
    pub fn placed(self, items: Vec<u64>) -> Result<Answers, AllocError>
        ensures value { IfOk result (λ answers. answers ≡ items.items) }
        ensures none { items.items ≡ [] → IsOk result }
    {
        if items.is_empty() {
            return Ok(Answers::none());
        }
        let Answers { items: place } = self;
        let Some(place) = place else {
            return Err(AllocError);
        };
        let mut place = place;
        *place = items;
        Ok(Answers { items: Some(place) })
    }

    /// These answers. `Err` only where there are some, and no memory for them.
    pub fn new(alloc: Global, items: Vec<u64>) -> Result<Answers, AllocError>
        ensures value { IfOk result (λ answers. answers ≡ items.items) }
        ensures none { items.items ≡ [] → IsOk result }
    {
        if items.is_empty() {
            return Ok(Answers::none());
        }
        let items = Box::new(alloc, items)?;
        Ok(Answers { items: Some(items) })
    }

    /// The answers.
    pub fn as_slice(&self) -> &[u64]
        ensures { result.now ≡ self.now }
    {
        match &self.items {
            Some(items) => items.as_ref().as_slice(),
            None => &[],
        }
    }
}

/// One command, with the verdict on it and the answers that its programs used. What came of it is
/// told by `outcome`, from the board before it.
///
/// The moment is in minutes since 1970-01-01T00:00Z.
pub struct Entry {
    pub number: u64,
    pub session: u8,
    pub role: Role,
    pub verdict: Verdict,
    pub moment: u32,
    pub command: Command,
    pub answers: Answers,
}

impl Drop for Entry {
    fn drop(self) {
        let Entry {
            number: _,
            session: _,
            role: _,
            verdict: _,
            moment: _,
            command: _,
            answers: _,
        } = self;
    }
}

impl Entry {
    /// What came of its command, as it was replied, told from the board before it. `Err` only where
    /// memory was refused, which a list of alerts or of unloaded programs is asked for.
    pub fn outcome(&self, before: &Core) -> Result<Outcome, AllocError>
        ensures value { IfOk result (λ outcome. (sigs : List (ℕ × Promise)) (J : History)
            → IsLegal sigs (self.now ∷ J) → before.now ≡ replay sigs J
            → outcome ≡ outcome_of sigs J self.now.role self.now.command) }
        ensures memory { OnErr result
            (IsTrue (is_alerts self.now.command || is_migrate self.now.command)) }
    {
        match self.verdict {
            Verdict::Accepted => before.answer(&self.command),
            Verdict::Refused(refusal) => Ok(Outcome::Refused(refusal)),
        }
    }
}
