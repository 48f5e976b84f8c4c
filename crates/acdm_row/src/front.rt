//! What is known of the first cells of a row.
ghost use Rattle.std.specs.Prelude.{◌≡◌, ◌<◌, ◌++◌, ◌∷◌, [], length, IfSome, vec_len};
ghost use Rattle.std.specs.Prelude.{slice_index_or, vec_capacity, min, take, drop, ℕ, ◌≤◌, ◌+◌};
ghost use Rattle.std.specs.Prelude.{OnOk, slice_index, IsSome, if◌then◌else◌};
ghost use Rattle.std.specs.Arc.{arc_value};
ghost use Rattle.acdm_row.specs.Notes.{before_of, entry_in, IsKnownAt};
ghost use Rattle.acdm_row.specs.Views.{FrontView};
ghost use Rattle.once_cell.specs.Once.{Agrees};

use crate::published::Published;
use crate::row::Row;
use once_cell::race::Note;
use std::alloc::{AllocError, Global};
use std::marker::Model;
use std::sync::Arc;

/// What is known of the first cells of a row.
pub struct Front {
    of: Arc<Row>,
    notes: Vec<Note<Published>>,
}

impl Drop for Front {
    fn drop(self) {
        let Front { of: _, notes: _ } = self;
    }
}

impl Model for Front {
    ghost use Rattle.acdm_row.specs.Views.{FrontView};
    ghost use Rattle.std.specs.Prelude.{vec_capacity, []};
    ghost use Rattle.std.specs.Arc.{arc_value};
    ghost use Rattle.acdm_row.specs.Notes.{entries_of, AreKnown};

    ghost Value = { FrontView };

    ghost view = { λ f. record {
      row = arc_value f.of;
      entries = entries_of f.notes.items;
      room =
          vec_capacity f.notes;
    } };

    ghost invariant = { λ f. AreKnown (arc_value f.of).cells [] f.notes.items };
}

impl Front {
    /// Nothing is known of the row.
    pub fn new(alloc: Global, row: Arc<Row>) -> Front
        ensures { (result.row ≡ arc_value row) × (result.entries ≡ []) }
    {
        Front {
            of: row,
            notes: Vec::new(alloc),
        }
    }

    /// How many cells are known, no more than there are.
    pub fn len(&self) -> usize
        ensures value { result ≡ length self.now.entries }
        ensures room { length self.now.entries ≤ length self.now.row.cells }
    {
        self.notes.len()
    }

    /// The length of the shorter of two. Their entries are the same as far as that. One pair of
    /// notes is compared.
    pub fn meet(&mut self, other: &mut Front) -> usize
        requires { other.old.row ≡ self.old.row }
        ensures ours { self.new ≡ self.old }
        ensures theirs { other.new ≡ other.old }
        ensures length { result ≡ min (length self.old.entries) (length other.old.entries) }
        ensures same { take result self.old.entries ≡ take result other.old.entries }
    {
        let count = self.notes.len().min(other.notes.len());
        if count > 0 {
            agree(&mut self.notes, &mut other.notes, count - 1);
        }
        count
    }

    /// Makes room for so many more.
    pub fn reserve(&mut self, more: usize) -> Result<(), AllocError>
        ensures row { self.new.row ≡ self.old.row }
        ensures entries { self.new.entries ≡ self.old.entries }
        ensures room { OnOk result (length self.old.entries + more ≤ self.new.room) }
        ensures kept { self.old.room ≤ self.new.room }
    {
        self.notes.reserve(more)?;
        Ok(())
    }

    /// A second note of a cell that is known, with what stood before it.
    pub fn recall(&mut self, at: usize) -> Note<Published>
        requires { at < length self.old.entries }
        ensures same { self.new ≡ self.old }
        ensures row { at < length self.old.row.cells }
        ensures cell { result.cell ≡ slice_index self.old.row.cells at }
        ensures known { IsKnownAt result.known self.old.entries at }
    {
        let note = &mut self.notes[at];
        note.again()
    }

    /// Takes what a note knows.
    pub fn take(&mut self, note: Note<Published>)
        requires cell { note.cell ≡ slice_index self.old.row.cells (length self.old.entries) }
        requires known { IfSome note.known (λ p. before_of p ≡ self.old.entries) }
        requires some { IsSome note.known }
        requires row { length self.old.entries < length self.old.row.cells }
        requires room { length self.old.entries < self.old.room }
        ensures row { self.new.row ≡ self.old.row }
        ensures room { self.new.room ≡ self.old.room }
        ensures entries { self.new.entries ≡ self.old.entries ++ entry_in note.known }
    {
        self.notes.push_reserved(note);
    }

    /// Sets the next cell, and says whether it did.
    pub fn publish(&mut self, row: &Row, value: Box<Published>) -> bool
        requires same { row.now ≡ self.old.row }
        requires before { before_of value.value ≡ self.old.entries }
        requires row { length self.old.entries < length self.old.row.cells }
        requires room { length self.old.entries < self.old.room }
        ensures row { self.new.row ≡ self.old.row }
        ensures room { self.new.room ≡ self.old.room }
        ensures entries { self.new.entries ≡ (if result then self.old.entries
            ++ value.value.entry ∷ [] else self.old.entries) }
    {
        let at = self.len();
        let mut note = row.note(at);
        if !row.publish(at, value, &mut note) {
            return false;
        }
        self.take(note);
        true
    }

    /// Learns what a longer one knows. One pair of notes is compared, and those that are missing
    /// are copied.
    pub fn learn(&mut self, other: &mut Front)
        requires same { other.old.row ≡ self.old.row }
        requires shorter { length self.old.entries ≤ length other.old.entries }
        requires room { length other.old.entries ≤ self.old.room }
        ensures theirs { other.new ≡ other.old }
        ensures row { self.new.row ≡ self.old.row }
        ensures room { self.new.room ≡ self.old.room }
        ensures entries { self.new.entries ≡ other.old.entries }
        ensures prefix { self.old.entries ≡ take (length self.old.entries) other.old.entries }
    {
        self.meet(other);
        copy_rest(&mut self.notes, &mut other.notes);
    }
}

// Two notes of one cell know one value.
fn agree(ours: &mut Vec<Note<Published>>, theirs: &mut Vec<Note<Published>>, at: usize)
    requires ours { at < vec_len ours.old }
    requires theirs { at < vec_len theirs.old }
    requires cell { (d : _) → (slice_index_or theirs.old.items at d).cell
        ≡ (slice_index_or ours.old.items at d).cell }
    ensures ours { (ours.new.items ≡ ours.old.items) × (vec_capacity ours.new
        ≡ vec_capacity ours.old) }
    ensures theirs { (theirs.new.items ≡ theirs.old.items) × (vec_capacity theirs.new
        ≡ vec_capacity theirs.old) }
    ensures same { (d : _) → IfSome (slice_index_or theirs.old.items at d).known (Agrees
        (slice_index_or ours.old.items at d).known) }
{
    let their = &mut theirs[at];
    let other = their.again();
    let our = &mut ours[at];
    our.compare(other);
}

// Copies the notes that are missing.
fn copy_rest(ours: &mut Vec<Note<Published>>, theirs: &mut Vec<Note<Published>>)
    requires shorter { vec_len ours.old ≤ vec_len theirs.old }
    requires room { vec_len theirs.old ≤ vec_capacity ours.old }
    ensures ours { ours.new.items ≡ ours.old.items ++ drop (vec_len ours.old) theirs.old.items }
    ensures room { vec_capacity ours.new ≡ vec_capacity ours.old }
    ensures theirs { (theirs.new.items ≡ theirs.old.items) × (vec_capacity theirs.new
        ≡ vec_capacity theirs.old) }
{
    for at in ours.len()..theirs.len() {
        let their = &mut theirs[at];
        ours.push_reserved(their.again());
    }
}
