//! What would come of a command with given answers of helpers.
ghost use Rattle.std.specs.Prelude.{◌≡◌, ℕ, List, Ok, None, IfOk, IfSome, OnErr, IsTrue};
ghost use Rattle.bpf_helpers.specs.Promise.{Promise};
ghost use Rattle.acdm_step.specs.Commands.{History};
ghost use Rattle.acdm_step.specs.History.{IsLegal, replay, needs_memory};
ghost use Rattle.acdm_step.specs.Planning.{PlansWith, UsesAnswers, lacks_answer};
ghost use Rattle.acdm_step.specs.Prepared.{Fits, after_change};

use crate::command::Command;
use crate::entry::Verdict;
use crate::prepare::Plan;
use crate::state::Core;
use acdm_milestones::{Refusal, Role};
use bpf_helpers::Logged;
use std::alloc::AllocError;

// Whether a helper left a question without an answer.
fn is_unanswered(verdict: Verdict) -> bool
    ensures { result ≡ lacks_answer verdict }
{
    matches!(verdict, Verdict::Refused(Refusal::Unanswered))
}

/// What would come of a command with these answers of helpers, as `Core::plan` answers it, and
/// `None` where its programs use others. The answers of a helper that it may not give, answers left
/// over and a missing one are others; a refused command uses none. The moment is in minutes since
/// 1970-01-01T00:00Z. `Err` only where memory was refused, which is asked for for a load, for a
/// migrate and for a list of alerts.
pub fn plan_with(
    core: &Core,
    role: Role,
    moment: u32,
    command: &Command,
    answers: &[u64],
) -> Result<Option<Plan>, AllocError>
    ensures plans { IfOk result (λ o. IfSome o (λ p. (sigs : List (ℕ × Promise)) (J : History) →
        IsLegal sigs J → core.now ≡ replay sigs J →
        PlansWith sigs J role moment command.now answers.now p.outcome
        (after_change core.now p.change))) }
    ensures fits { IfOk result (λ o. IfSome o (λ p. Fits core.now p.change)) }
    ensures sigs { IfOk result (λ o. IfSome o (λ p.
        (after_change core.now p.change).slots.sigs ≡ core.now.slots.sigs)) }
    ensures misses { result ≡ Ok None → (sigs : List (ℕ × Promise)) (J : History) →
        IsLegal sigs J → core.now ≡ replay sigs J →
        UsesAnswers sigs J role moment command.now answers.now → ⊥ }
    ensures memory { OnErr result ((sigs : List (ℕ × Promise)) (J : History) → IsLegal sigs J
        → core.now ≡ replay sigs J → IsTrue (needs_memory sigs J role command.now)) }
{
    let mut logged = Logged::new(core.sigs(), answers);
    let plan = core.plan(&mut logged, role, moment, command)?;
    let left = logged.left();
    if is_unanswered(plan.outcome.verdict()) {
        return Ok(None);
    }
    if !left.is_empty() {
        return Ok(None);
    }
    Ok(Some(plan))
}
