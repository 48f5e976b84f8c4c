//! A watch: what was seen of a row, and the board of it.
ghost use Rattle.std.specs.Prelude.{◌≡◌, ◌<◌, ◌+◌, ◌++◌, ◌∷◌, [], true, false, length, take};
ghost use Rattle.std.specs.Prelude.{reverse, min, IfOk, IfSome, OnErr, Ok, None};
ghost use Rattle.std.specs.Arc.{arc_value};
ghost use Rattle.acdm_step.specs.declared.entry.Entry.{Entry};
ghost use Rattle.acdm_step.specs.History.{IsLegal, replay};
ghost use Rattle.acdm_watch.specs.Watching.{IsUnchanged};

use crate::checks::plan_of;
use crate::sight::Sight;
use acdm_row::{Pass, Row};
use acdm_step::{Core, Entry};
use std::alloc::{AllocError, Global};
use std::marker::Model;
use std::sync::Arc;

/// What was seen of a row, and the board of it.
pub struct Watch {
    sight: Sight,
    core: Core,
}

impl Drop for Watch {
    fn drop(self) {
        let Watch { sight: _, core: _ } = self;
    }
}

impl Model for Watch {
    ghost use Rattle.acdm_watch.specs.Watching.{IsWatch, WatchView};

    ghost Value = { WatchView };

    ghost view = { λ w. record { row = w.sight.row; seen = w.sight.entries } };

    ghost invariant = { λ w. IsWatch w.sight.row w.sight.entries w.core };
}

impl Watch {
    /// A watch that has seen nothing. `Err` only where memory was refused.
    pub fn new(alloc: Global, row: &Arc<Row>) -> Result<Watch, AllocError>
        ensures row { IfOk result (λ w. w.row ≡ arc_value row.now) }
        ensures empty { IfOk result (λ w. w.seen ≡ []) }
    {
        let core = Core::new(alloc, row.sigs().copy()?)?;
        let sight = Sight::new(alloc, Arc::try_clone(row)?);
        Ok(Watch { sight, core })
    }

    /// How many entries were seen.
    pub fn len(&self) -> usize
        ensures { result ≡ length self.now.seen }
    {
        self.sight.len()
    }

    /// The board of what was seen, which is legal.
    pub fn board(&self) -> &Core
        ensures replays { result.now ≡ replay self.now.row.sigs (reverse self.now.seen) }
        ensures legal { IsLegal self.now.row.sigs (reverse self.now.seen) }
    {
        &self.core
    }

    /// The length of the shorter of what was seen and what a pass has seen, which are the same as
    /// far as that.
    pub fn meet_pass(&mut self, pass: &mut Pass) -> usize
        requires { pass.old.row ≡ self.old.row }
        ensures ours { self.new ≡ self.old }
        ensures theirs { pass.new ≡ pass.old }
        ensures length { result ≡ min (length self.old.seen) (length pass.old.seen) }
        ensures same { take result self.old.seen ≡ take result pass.old.seen }
    {
        self.sight.meet(pass)
    }

    /// The same of two watches.
    pub fn meet_watch(&mut self, other: &mut Watch) -> usize
        requires { other.old.row ≡ self.old.row }
        ensures ours { self.new ≡ self.old }
        ensures theirs { other.new ≡ other.old }
        ensures length { result ≡ min (length self.old.seen) (length other.old.seen) }
        ensures same { take result self.old.seen ≡ take result other.old.seen }
    {
        self.sight.meet_sight(&mut other.sight)
    }

    /// Takes one more entry, where a legal one is in sight, and says whether it did. Where a pass
    /// is handed in that has seen more, there is one. It takes no lock, and never waits. `Err` only
    /// where memory was refused; nothing has changed then.
    pub fn advance(&mut self, row: &Row, pass: Option<&mut Pass>) -> Result<bool, AllocError>
        requires row { row.now ≡ self.old.row }
        requires same { IfSome pass (λ p. p.now.row ≡ self.old.row) }
        ensures row { self.new.row ≡ self.old.row }
        ensures pass { IsUnchanged pass.entry pass.exit }
        ensures must { IfSome pass.entry (λ p. length self.old.seen < length p.now.seen
            → IfOk result (λ took. took ≡ true)) }
        ensures took { IfOk result (λ took. took ≡ true
            → (e : Entry) × (self.new.seen ≡ self.old.seen ++ e ∷ [])) }
        ensures left { IfOk result (λ took. took ≡ false → self.new ≡ self.old) }
        ensures err { OnErr result (self.new ≡ self.old) }
    {
        if let Some(pass) = pass {
            if self.sight.len() < pass.len() {
                return self.advance_with(row, pass);
            }
        }
        self.advance_alone(row)
    }

    /// Takes one more entry, where a legal one is in sight.
    pub fn advance_alone(&mut self, row: &Row) -> Result<bool, AllocError>
        requires { row.now ≡ self.old.row }
        ensures row { self.new.row ≡ self.old.row }
        ensures took { IfOk result (λ took. took ≡ true
            → (e : Entry) × (self.new.seen ≡ self.old.seen ++ e ∷ [])) }
        ensures left { IfOk result (λ took. took ≡ false → self.new ≡ self.old) }
        ensures err { OnErr result (self.new ≡ self.old) }
    {
        Ok(self.take_next(row)?.is_some())
    }

    /// Takes the next entry, where a legal one is in sight, and shows it. It takes no lock, and
    /// never waits. `Err` only where memory was refused; nothing has changed then.
    pub fn take_next<'a>(&mut self, row: &'a Row) -> Result<Option<&'a Entry>, AllocError>
        requires { row.now ≡ self.old.row }
        ensures row { self.new.row ≡ self.old.row }
        ensures took { IfOk result (λ o. IfSome o (λ e.
            self.new.seen ≡ self.old.seen ++ e.now ∷ [])) }
        ensures left { result ≡ Ok None → self.new ≡ self.old }
        ensures err { OnErr result (self.new ≡ self.old) }
    {
        let Some((found, note)) = self.sight.look(row) else {
            return Ok(None);
        };
        self.sight.reserve()?;
        let number = self.sight.len() as u64;
        let Some(plan) = plan_of(&self.core, number, &found.entry)? else {
            return Ok(None);
        };
        self.core.commit(plan);
        self.sight.take(note);
        Ok(Some(&found.entry))
    }

    /// Takes one more entry, which is the pass's.
    pub fn advance_with(&mut self, row: &Row, pass: &mut Pass) -> Result<bool, AllocError>
        requires row { row.now ≡ self.old.row }
        requires same { pass.old.row ≡ self.old.row }
        requires longer { length self.old.seen < length pass.old.seen }
        ensures row { self.new.row ≡ self.old.row }
        ensures pass { pass.new ≡ pass.old }
        ensures took { IfOk result (λ took. took ≡ true) }
        ensures seen { IfOk result (λ took.
            self.new.seen ≡ take (length self.old.seen + 1) pass.old.seen) }
        ensures grew { IfOk result (λ took.
            (e : Entry) × (self.new.seen ≡ self.old.seen ++ e ∷ [])) }
        ensures err { OnErr result (self.new ≡ self.old) }
    {
        self.sight.reserve()?;
        let (found, note) = self.sight.look_with(row, pass);
        let number = self.sight.len() as u64;
        let Some(plan) = plan_of(&self.core, number, &found.entry)? else {
            unreachable!();
        };
        self.core.commit(plan);
        self.sight.take(note);
        Ok(true)
    }
}
