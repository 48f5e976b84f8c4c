//! Whether an entry may come next.
ghost use Rattle.std.specs.Prelude.{◌≡◌, ◌≢◌, ◌↔◌, ℕ, List, ◌∷◌, length, IsTrue, IfOk, IfSome};
ghost use Rattle.bpf_helpers.specs.Promise.{Promise};
ghost use Rattle.acdm_step.specs.Commands.{History};
ghost use Rattle.acdm_step.specs.History.{IsLegal, replay};
ghost use Rattle.acdm_step.specs.Prepared.{Fits, after_change};
ghost use Rattle.acdm_watch.specs.Watching.{IsNumbered};

use acdm_step::{Core, Entry, Plan, plan_with};
use bpf_helpers::Sigs;
use std::alloc::AllocError;

// Whether an entry has this number, its ranges, and no program that was checked against other
// signatures.
fn is_numbered(entry: &Entry, number: u64, sigs: &Sigs) -> bool
    ensures { IsTrue result ↔ IsNumbered sigs.now number entry.now }
{
    if entry.number != number {
        return false;
    }
    if entry.session < 1 || entry.session > 64 {
        return false;
    }
    if entry.moment < 1 {
        return false;
    }
    entry.command.was_checked(sigs)
}

/// What an entry does to the board of the entries before it, of which there are so many, where it
/// may come next: the journal with it is then legal. `Err` only where memory was refused.
pub(crate) fn plan_of(core: &Core, number: u64, entry: &Entry) -> Result<Option<Plan>, AllocError>
    ensures next { IfOk result (λ o. IfSome o (λ p. (sigs : List (ℕ × Promise)) (J : History) →
        IsLegal sigs J → core.now ≡ replay sigs J → number ≡ length J →
        IsLegal sigs (entry.now ∷ J)
        × (after_change core.now p.change ≡ replay sigs (entry.now ∷ J)))) }
    ensures fits { IfOk result (λ o. IfSome o (λ p. Fits core.now p.change)) }
    ensures must { (sigs : List (ℕ × Promise)) (J : History) → IsLegal sigs (entry.now ∷ J)
        → core.now ≡ replay sigs J → number ≡ length J → result ≢ Ok None }
{
    if !is_numbered(entry, number, core.sigs()) {
        return Ok(None);
    }
    let plan = plan_with(
        core,
        entry.role,
        entry.moment,
        &entry.command,
        entry.answers.as_slice(),
    )?;
    let Some(plan) = plan else {
        return Ok(None);
    };
    if plan.outcome.verdict() != entry.verdict {
        return Ok(None);
    }
    Ok(Some(plan))
}
