ghost use Rattle.std.specs.Prelude.{◌≡◌, ◌<◌, true, length, IfOk, MatchOption, slice_index};
ghost use Rattle.once_cell.specs.Once.{Agrees};

use crate::published::Published;
use bpf_helpers::Sigs;
use once_cell::race::{Note, OnceBox};
use std::alloc::{AllocError, Global};
use std::marker::Model;

/// Cells that are set once, in order, and the signatures against which the programs of their
/// entries were checked.
pub struct Row {
    cells: Vec<OnceBox<Published>>,
    sigs: Sigs,
}

impl Drop for Row {
    fn drop(self) {
        let Row { cells: _, sigs: _ } = self;
    }
}

impl Model for Row {
    ghost use Rattle.std.specs.Prelude.{map};
    ghost use Rattle.once_cell.specs.Once.{cell_name};
    ghost use Rattle.acdm_row.specs.Views.{RowView};

    ghost Value = { RowView };

    ghost view = { λ r. record { cells = map cell_name r.cells.items; sigs = r.sigs } };
}

impl Row {
    /// A row of as many empty cells as the capacity. `Err` only where memory was refused.
    pub(crate) fn new(alloc: Global, sigs: Sigs, capacity: usize) -> Result<Row, AllocError>
        ensures length { IfOk result (λ r. length r.cells ≡ capacity) }
        ensures sigs { IfOk result (λ r. r.sigs ≡ sigs) }
    {
        let mut cells = Vec::with_capacity(alloc, capacity)?;
        for _ in 0..capacity {
            cells.push(OnceBox::new(alloc))?;
        }
        Ok(Row { cells, sigs })
    }

    /// Where its memory comes from.
    pub fn alloc(&self) -> Global {
        *self.cells.allocator()
    }

    /// The signatures against which the programs of its entries were checked.
    pub fn sigs(&self) -> &Sigs
        ensures { result.now ≡ self.now.sigs }
    {
        &self.sigs
    }

    /// How many cells there are.
    pub fn len(&self) -> usize
        ensures { result ≡ length self.now.cells }
    {
        self.cells.len()
    }

    /// A note of a cell, which knows nothing yet.
    pub fn note(&self, at: usize) -> Note<Published>
        requires { at < length self.now.cells }
        ensures { (result.cell ≡ slice_index self.now.cells at) × (result.known ≡ None) }
    {
        self.cells[at].note()
    }

    /// Looks at a cell.
    pub fn look<'a>(&'a self, at: usize, note: &mut Note<Published>) -> Option<&'a Published>
        requires at { at < length self.now.cells }
        requires cell { note.old.cell ≡ slice_index self.now.cells at }
        ensures cell { note.new.cell ≡ note.old.cell }
        ensures value { MatchOption result ((note.old.known ≡ None) × (note.new.known
            ≡ None)) (λ r. (note.new.known ≡ Some r.now) × Agrees note.old.known r.now) }
    {
        self.cells[at].get_as(note)
    }

    // Sets a cell, and says whether it did.
    pub(crate) fn publish(
        &self,
        at: usize,
        value: Box<Published>,
        note: &mut Note<Published>,
    ) -> bool
        requires at { at < length self.now.cells }
        requires cell { note.old.cell ≡ slice_index self.now.cells at }
        ensures cell { note.new.cell ≡ note.old.cell }
        ensures known { result ≡ true → note.new.known ≡ Some value.value }
    {
        self.cells[at].set_as(value, note).is_ok()
    }
}
