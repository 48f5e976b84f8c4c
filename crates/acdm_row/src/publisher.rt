//! The publishing of entries in a row of cells.
ghost use Rattle.std.specs.Prelude.{◌≡◌, ◌<◌, ◌≤◌, ◌++◌, ◌∷◌, [], true, false, length, take};
ghost use Rattle.std.specs.Prelude.{reverse, IfOk, OnOk, OnErr, vec_len, vec_capacity};
ghost use Rattle.std.specs.Prelude.{slice_get};
ghost use Rattle.std.specs.Option.{option_copied};
ghost use Rattle.std.specs.Arc.{arc_value};
ghost use Rattle.acdm_step.specs.History.{IsLegal};
ghost use Rattle.acdm_row.specs.Views.{IsSameCaller};

use crate::front::Front;
use crate::pass::Pass;
use crate::published::{EntryPlace, Past};
use crate::row::Row;
use acdm_step::Entry;
use bpf_helpers::Sigs;
use std::alloc::{AllocError, Global};
use std::marker::Model;
use std::snapshot::Snapshot;
use std::sync::Arc;

/// Publishes entries, each in the next cell of a row, and knows those that it published.
pub struct Publisher {
    row: Arc<Row>,
    front: Front,
    past: Past,
    alloc: Global,
}

impl Drop for Publisher {
    fn drop(self) {
        let Publisher {
            row: _,
            front: _,
            past: _,
            alloc: _,
        } = self;
    }
}

impl Model for Publisher {
    ghost use Rattle.std.specs.Prelude.{◌≡◌, map, reverse};
    ghost use Rattle.std.specs.Arc.{arc_value};
    ghost use Rattle.acdm_step.specs.History.{IsLegal};
    ghost use Rattle.acdm_row.specs.Views.{PublisherView};

    ghost Value = { PublisherView };

    ghost view = { λ j. record { row = j.front.row; entries = j.front.entries } };

    ghost invariant = { λ j. (arc_value j.row ≡ j.front.row)
        × (map (λ s. s.value) j.past.items ≡ j.front.entries)
        × IsLegal j.front.row.sigs (reverse j.front.entries) };
}

impl Publisher {
    /// No entry, with a cell for each of so many. `Err` only where memory was refused.
    pub fn new(alloc: Global, sigs: Sigs, capacity: usize) -> Result<Publisher, AllocError>
        ensures empty { IfOk result (λ j. j.entries ≡ []) }
        ensures cells { IfOk result (λ j. length j.row.cells ≡ capacity) }
        ensures sigs { IfOk result (λ j. j.row.sigs ≡ sigs) }
    {
        let row = Arc::new(alloc, Row::new(alloc, sigs, capacity)?)?;
        let front = Front::new(alloc, Arc::try_clone(&row)?);
        Ok(Publisher {
            row,
            front,
            past: Vec::new(alloc),
            alloc,
        })
    }

    /// How many entries there are. They are a legal journal.
    pub fn len(&self) -> usize
        ensures value { result ≡ length self.now.entries }
        ensures legal { IsLegal self.now.row.sigs (reverse self.now.entries) }
    {
        self.front.len()
    }

    /// The row, for those that look.
    pub fn row(&self) -> &Arc<Row>
        ensures { arc_value result.now ≡ self.now.row }
    {
        &self.row
    }

    /// Where its memory comes from.
    pub fn alloc(&self) -> Global {
        self.alloc
    }

    /// The entry of this number, the first being 0, as it stands in the row.
    pub fn entry<'a>(&mut self, row: &'a Row, number: u64) -> Option<&'a Entry>
        requires { row.now ≡ self.old.row }
        ensures same { self.new ≡ self.old }
        ensures value { option_copied result ≡ slice_get self.old.entries number }
    {
        let at = number as usize;
        if at >= self.front.len() {
            return None;
        }
        let mut note = self.front.recall(at);
        let Some(found) = row.look(at, &mut note) else {
            unreachable!();
        };
        Some(&found.entry)
    }

    /// Takes memory for the next entry, and for what is known of it. `Err` only where memory was
    /// refused.
    pub fn place(&mut self) -> Result<EntryPlace, AllocError>
        ensures { self.new ≡ self.old }
    {
        self.front.reserve(1)?;
        self.past.reserve(1)?;
        EntryPlace::new(self.alloc, &self.past)
    }

    /// Takes all memory that the next entry needs which a call of a pass makes: for the entry, and for
    /// what journal and pass know then. `Err` where memory was refused, and where the journal is
    /// shorter than what the pass has seen.
    pub fn place_for(&mut self, pass: &mut Pass) -> Result<EntryPlace, AllocError>
        requires { pass.old.row ≡ self.old.row }
        ensures { (self.new ≡ self.old) × (pass.new ≡ pass.old) }
    {
        let number = self.front.len();
        if pass.front.len() > number {
            return Err(AllocError);
        }
        make_room(&mut pass.front, &mut pass.own, number)?;
        self.place()
    }

    /// Publishes the next entry, in memory that was taken for it. `Err` where memory was refused which
    /// `place` did not take, where there is no cell for it, or where its cell was set. Nothing has
    /// changed then.
    pub fn publish(&mut self, entry: Entry, place: EntryPlace) -> Result<(), AllocError>
        requires legal { IsLegal self.old.row.sigs (reverse (self.old.entries ++ entry ∷ [])) }
        ensures row { self.new.row ≡ self.old.row }
        ensures entry { OnOk result (self.new.entries ≡ self.old.entries ++ entry ∷ []) }
        ensures err { OnErr result (self.new ≡ self.old) }
    {
        if self.front.len() >= self.row.len() {
            return Err(AllocError);
        }
        self.front.reserve(1)?;
        self.past.reserve(1)?;
        let kept = Snapshot::of(&entry);
        let before = Snapshot::of(&self.past);
        let value = place.put(entry, before);
        if !self.front.publish(&*self.row, value) {
            return Err(AllocError);
        }
        self.past.push_reserved(kept);
        Ok(())
    }

    /// Publishes the next entry, which a call of a pass made, in memory that `place_for` took. The
    /// pass has then seen the journal up to it. `Err` where `publish` answers it, and where the
    /// journal is shorter than what the pass has seen. Nothing has changed then.
    pub fn enter(
        &mut self,
        pass: &mut Pass,
        entry: Entry,
        place: EntryPlace,
    ) -> Result<(), AllocError>
        requires same_row { pass.old.row ≡ self.old.row }
        requires session { entry.session ≡ pass.old.session }
        requires role { entry.role ≡ pass.old.role }
        requires legal { IsLegal self.old.row.sigs (reverse (self.old.entries ++ entry ∷ [])) }
        ensures row { self.new.row ≡ self.old.row }
        ensures entry { OnOk result (self.new.entries ≡ self.old.entries ++ entry ∷ []) }
        ensures begins { OnOk result
            (pass.old.seen ≡ take (length pass.old.seen) self.old.entries) }
        ensures seen { OnOk result (pass.new.seen ≡ self.new.entries) }
        ensures numbers { OnOk result
            (pass.new.numbers ≡ pass.old.numbers ++ length self.old.entries ∷ []) }
        ensures own { OnOk result (pass.new.own ≡ pass.old.own ++ entry ∷ []) }
        ensures caller { IsSameCaller pass.old pass.new }
        ensures err { OnErr result ((self.new ≡ self.old) × (pass.new ≡ pass.old)) }
    {
        let number = self.front.len();
        if pass.front.len() > number {
            return Err(AllocError);
        }
        make_room(&mut pass.front, &mut pass.own, number)?;
        self.publish(entry, place)?;
        pass.front.learn(&mut self.front);
        pass.own.push_reserved(number as u64);
        Ok(())
    }

    /// Shows all of the journal to a pass. `Err` where memory was refused, and where the journal is
    /// shorter than what the pass has seen. Nothing has changed then.
    pub fn show(&mut self, pass: &mut Pass) -> Result<(), AllocError>
        requires { pass.old.row ≡ self.old.row }
        ensures same { self.new ≡ self.old }
        ensures seen { OnOk result (pass.new.seen ≡ self.old.entries) }
        ensures own { (pass.new.numbers ≡ pass.old.numbers) × (pass.new.own ≡ pass.old.own) }
        ensures caller { IsSameCaller pass.old pass.new }
        ensures err { OnErr result (pass.new ≡ pass.old) }
    {
        let number = self.front.len();
        if pass.front.len() > number {
            return Err(AllocError);
        }
        pass.front.reserve(number - pass.front.len())?;
        pass.front.learn(&mut self.front);
        Ok(())
    }

    /// Whether a pass has seen no more than the journal. What it has seen is then its beginning.
    pub fn holds(&mut self, pass: &mut Pass) -> bool
        requires { pass.old.row ≡ self.old.row }
        ensures same { (self.new ≡ self.old) × (pass.new ≡ pass.old) }
        ensures begins { result ≡ true → pass.old.seen ≡ take (length pass.old.seen)
            self.old.entries }
        ensures longer { result ≡ false → length self.old.entries < length pass.old.seen }
        ensures room { length pass.old.seen ≤ length self.old.row.cells }
    {
        if pass.front.len() > self.front.len() {
            return false;
        }
        self.front.meet(&mut pass.front);
        true
    }
}

// Makes room in what a pass knows for a journal of so many entries and one more.
fn make_room(seen: &mut Front, own: &mut Vec<u64>, number: usize) -> Result<(), AllocError>
    requires { length seen.old.entries ≤ number }
    ensures seen { (seen.new.row ≡ seen.old.row) × (seen.new.entries ≡ seen.old.entries) }
    ensures own { own.new.items ≡ own.old.items }
    ensures room { OnOk result ((number < seen.new.room)
        × (vec_len own.old < vec_capacity own.new)) }
{
    let more = (number - seen.len()).checked_add(1).ok_or(AllocError)?;
    seen.reserve(more)?;
    own.reserve(1)?;
    Ok(())
}
