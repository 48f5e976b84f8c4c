//! The feed of a watch, entry by entry.
ghost use Rattle.std.specs.Prelude.{◌≡◌, ◌++◌, ◌∷◌, ℕ, List, [], true, false, OnOk, IfOk, if◌then◌else◌};
ghost use Rattle.std.specs.Prelude.{nat_lt};
ghost use Rattle.bpf_helpers.specs.Promise.{Promise};
ghost use Rattle.acdm_step.specs.declared.entry.Entry.{Entry};
ghost use Rattle.acdm_step.specs.Commands.{History};
ghost use Rattle.acdm_step.specs.History.{replay};
ghost use Rattle.acdm_feed.specs.Knowing.{Knows};
ghost use Rattle.acdm_feed.specs.Telling.{Passes, Tells};
ghost use Rattle.acdm_feed.specs.Told.{told};

use crate::known::Known;
use crate::told::push_line;
use acdm_row::Row;
use acdm_step::{Core, Entry};
use acdm_watch::Watch;
use std::alloc::AllocError;

// Adds the line of the entry of this number, where it is none of those before that one.
fn push_from(
    text: &mut Vec<u8>,
    known: &Known,
    board: &Core,
    entry: &Entry,
    number: u64,
    from: u64,
) -> Result<(), AllocError>
    ensures { OnOk result ((sigs : List (ℕ × Promise)) (J : History)
        → board.now ≡ replay sigs (entry.now ∷ J) → Knows J known.now
        → text.new.items ≡ text.old.items
        ++ (if nat_lt number from then [] else told J entry.now)) }
{
    if number < from {
        return Ok(());
    }
    push_line(text, known, board, entry)?;
    Ok(())
}

/// Takes the next entry, where a legal one is in sight, adds its line where it is the entry of the
/// number `from` or a later one, and says whether there was one. It takes no lock, and never waits.
/// `Err` only where memory was refused; what is known is of no use then.
pub fn tell_next(
    watch: &mut Watch,
    known: &mut Known,
    row: &Row,
    from: u64,
    text: &mut Vec<u8>,
) -> Result<bool, AllocError>
    requires { row.now ≡ watch.old.row }
    ensures row { watch.new.row ≡ watch.old.row }
    ensures tells { OnOk result (Tells from watch.old watch.new known.old known.new text.old.items
        text.new.items) }
    ensures took { IfOk result (λ took. took ≡ true
        → (e : Entry) × (watch.new.seen ≡ watch.old.seen ++ e ∷ [])) }
    ensures left { IfOk result (λ took. took ≡ false → watch.new ≡ watch.old) }
{
    let number = watch.len() as u64;
    let Some(entry) = watch.take_next(row)? else {
        return Ok(false);
    };
    push_from(text, known, watch.board(), entry, number, from)?;
    known.follow(watch.board(), entry)?;
    Ok(true)
}

/// Takes the next entry, where a legal one is in sight, and says whether there was one: nothing is
/// told of it. `Err` only where memory was refused; what is known is of no use then.
pub fn pass_next(watch: &mut Watch, known: &mut Known, row: &Row) -> Result<bool, AllocError>
    requires { row.now ≡ watch.old.row }
    ensures row { watch.new.row ≡ watch.old.row }
    ensures passes { OnOk result (Passes watch.old watch.new known.old known.new) }
    ensures took { IfOk result (λ took. took ≡ true
        → (e : Entry) × (watch.new.seen ≡ watch.old.seen ++ e ∷ [])) }
    ensures left { IfOk result (λ took. took ≡ false → watch.new ≡ watch.old) }
{
    let Some(entry) = watch.take_next(row)? else {
        return Ok(false);
    };
    known.follow(watch.board(), entry)?;
    Ok(true)
}
