//! What a watch has seen of a row.
ghost use Rattle.std.specs.Prelude.{◌≡◌, ◌<◌, ◌≤◌, ◌++◌, ◌∷◌, ◌+◌, [], length, take, min, reverse};
ghost use Rattle.std.specs.Prelude.{IfSome, OnOk, vec_len, vec_capacity, slice_index};
ghost use Rattle.std.specs.Prelude.{slice_index_or, IsSome, Some};
ghost use Rattle.std.specs.Arc.{arc_value};
ghost use Rattle.acdm_step.specs.History.{IsLegal};
ghost use Rattle.once_cell.specs.Once.{Agrees};
ghost use Rattle.acdm_row.specs.Notes.{AreNotes, IsKnownAt, entries_of, entry_in};

use acdm_row::{Front, Pass, Published, Row};
use acdm_step::Entry;
use once_cell::race::Note;
use std::alloc::{AllocError, Global};
use std::marker::Model;
use std::sync::Arc;

/// Notes of the first cells of a row, and a front that knows the first of them to go on from each
/// other.
pub struct Sight {
    front: Front,
    notes: Vec<Note<Published>>,
}

impl Drop for Sight {
    fn drop(self) {
        let Sight { front: _, notes: _ } = self;
    }
}

impl Model for Sight {
    ghost use Rattle.std.specs.Prelude.{vec_capacity, min};
    ghost use Rattle.acdm_row.specs.Views.{FrontView};
    ghost use Rattle.acdm_row.specs.Notes.{entries_of};
    ghost use Rattle.acdm_watch.specs.Sights.{IsSight};

    ghost Value = { FrontView };

    ghost view = { λ s. record {
      row = s.front.row;
      entries = entries_of s.notes.items;
      room = min
          s.front.room (vec_capacity s.notes);
    } };

    ghost invariant = { λ s. IsSight s.front s.notes.items };
}

impl Sight {
    /// Nothing was seen.
    pub fn new(alloc: Global, row: Arc<Row>) -> Sight
        ensures { (result.row ≡ arc_value row) × (result.entries ≡ []) }
    {
        Sight {
            front: Front::new(alloc, row),
            notes: Vec::new(alloc),
        }
    }

    /// How many entries were seen.
    pub fn len(&self) -> usize
        ensures { result ≡ length self.now.entries }
    {
        self.notes.len()
    }

    /// Makes room for one more.
    pub fn reserve(&mut self) -> Result<(), AllocError>
        ensures row { self.new.row ≡ self.old.row }
        ensures entries { self.new.entries ≡ self.old.entries }
        ensures room { OnOk result (length self.old.entries < self.new.room) }
    {
        self.notes.reserve(1)?;
        let more = (self.notes.len() - self.front.len())
            .checked_add(1)
            .ok_or(AllocError)?;
        self.front.reserve(more)?;
        Ok(())
    }

    /// The length of the shorter of what was seen and what a pass has seen, which are the same as
    /// far as that. Each note is compared once
    /// in all.
    pub fn meet(&mut self, pass: &mut Pass) -> usize
        requires { pass.old.row ≡ self.old.row }
        ensures ours { self.new ≡ self.old }
        ensures theirs { pass.new ≡ pass.old }
        ensures length { result ≡ min (length self.old.entries) (length pass.old.seen) }
        ensures same { take result self.old.entries ≡ take result pass.old.seen }
    {
        let to = self.notes.len().min(pass.len());
        agree(&mut self.front, &mut self.notes, pass, to);
        to
    }

    /// Looks at the next cell.
    pub fn look<'a>(&self, row: &'a Row) -> Option<(&'a Published, Note<Published>)>
        requires { row.now ≡ self.now.row }
        ensures place { IfSome result (λ r. length self.now.entries < length self.now.row.cells) }
        ensures cell { IfSome result (λ r. r.1.cell ≡ slice_index self.now.row.cells (length
            self.now.entries)) }
        ensures known { IfSome result (λ r. r.1.known ≡ Some r.0.now) }
    {
        let at = self.len();
        if at >= row.len() {
            return None;
        }
        let mut note = row.note(at);
        let found = row.look(at, &mut note)?;
        Some((found, note))
    }

    /// Looks at the next cell, of which a pass knows. What was seen is the beginning of what the
    /// pass has seen.
    pub fn look_with<'a>(
        &mut self,
        row: &'a Row,
        pass: &mut Pass,
    ) -> (&'a Published, Note<Published>)
        requires row { row.now ≡ self.old.row }
        requires same { pass.old.row ≡ self.old.row }
        requires longer { length self.old.entries < length pass.old.seen }
        ensures ours { self.new ≡ self.old }
        ensures theirs { pass.new ≡ pass.old }
        ensures place { length self.old.entries < length self.old.row.cells }
        ensures cell { result.1.cell ≡ slice_index self.old.row.cells (length self.old.entries) }
        ensures known { result.1.known ≡ Some result.0.now }
        ensures seen { take (length self.old.entries + 1) pass.old.seen
            ≡ self.old.entries ++ result.0.now.entry ∷ [] }
        ensures legal { IsLegal self.old.row.sigs (reverse pass.old.seen) }
    {
        let at = self.meet(pass);
        let mut note = pass.recall(at);
        let Some(found) = row.look(at, &mut note) else {
            unreachable!();
        };
        (found, note)
    }

    /// The same of two sights. What both fronts know is compared by one pair of notes, and the
    /// rest note by note.
    pub fn meet_sight(&mut self, other: &mut Sight) -> usize
        requires { other.old.row ≡ self.old.row }
        ensures ours { self.new ≡ self.old }
        ensures theirs { other.new ≡ other.old }
        ensures length { result ≡ min (length self.old.entries) (length other.old.entries) }
        ensures same { take result self.old.entries ≡ take result other.old.entries }
    {
        let from = self.front.meet(&mut other.front);
        let to = self.notes.len().min(other.notes.len());
        pairs(&self.front, &mut self.notes, &mut other.notes, from, to);
        to
    }

    /// Takes what a note of the next cell knows.
    pub fn take(&mut self, note: Note<Published>)
        requires row { length self.old.entries < length self.old.row.cells }
        requires room { length self.old.entries < self.old.room }
        requires cell { note.cell ≡ slice_index self.old.row.cells (length self.old.entries) }
        requires some { IsSome note.known }
        ensures row { self.new.row ≡ self.old.row }
        ensures room { self.new.room ≡ self.old.room }
        ensures entries { self.new.entries ≡ self.old.entries ++ entry_in note.known }
    {
        self.notes.push_reserved(note);
    }
}

// The first notes are what the pass knows of their cells.
fn agree(front: &mut Front, notes: &mut Vec<Note<Published>>, pass: &mut Pass, to: usize)
    requires row { pass.old.row ≡ front.old.row }
    requires are { AreNotes front.old.row.cells notes.old.items }
    requires begins { front.old.entries ≡ take (length front.old.entries) (entries_of
        notes.old.items) }
    requires pass { to ≤ length pass.old.seen }
    requires notes { to ≤ vec_len notes.old }
    requires room { to ≤ front.old.room }
    requires shorter { length front.old.entries ≤ vec_len notes.old }
    ensures row { front.new.row ≡ front.old.row }
    ensures room { front.new.room ≡ front.old.room }
    ensures begins { front.new.entries ≡ take (length front.new.entries) (entries_of
        notes.old.items) }
    ensures shorter { length front.new.entries ≤ vec_len notes.old }
    ensures notes { (notes.new.items ≡ notes.old.items) × (vec_capacity notes.new
        ≡ vec_capacity notes.old) }
    ensures pass { pass.new ≡ pass.old }
    ensures same { take to (entries_of notes.old.items) ≡ take to pass.old.seen }
{
    pass.meet_front(front);
    if front.len() < to {
        raise(front, notes, pass, to);
    }
}

// A front that knows less learns it from the pass.
fn raise(front: &mut Front, notes: &mut Vec<Note<Published>>, pass: &mut Pass, to: usize)
    requires row { pass.old.row ≡ front.old.row }
    requires are { AreNotes front.old.row.cells notes.old.items }
    requires begins { front.old.entries ≡ take (length front.old.entries) (entries_of
        notes.old.items) }
    requires seen { front.old.entries ≡ take (length front.old.entries) pass.old.seen }
    requires less { length front.old.entries ≤ to }
    requires pass { to ≤ length pass.old.seen }
    requires notes { to ≤ vec_len notes.old }
    requires room { to ≤ front.old.room }
    ensures row { front.new.row ≡ front.old.row }
    ensures room { front.new.room ≡ front.old.room }
    ensures length { length front.new.entries ≡ to }
    ensures begins { front.new.entries ≡ take to (entries_of notes.old.items) }
    ensures notes { (notes.new.items ≡ notes.old.items) × (vec_capacity notes.new
        ≡ vec_capacity notes.old) }
    ensures pass { pass.new ≡ pass.old }
    ensures seen { front.new.entries ≡ take to pass.old.seen }
{
    for at in front.len()..to {
        compare_at(notes, pass, at);
        front.take(pass.recall(at));
    }
}

// A note is compared with what a pass knows of its cell.
fn compare_at(notes: &mut Vec<Note<Published>>, pass: &mut Pass, at: usize)
    requires notes { at < vec_len notes.old }
    requires pass { at < length pass.old.seen }
    requires cells { AreNotes pass.old.row.cells notes.old.items }
    ensures notes { (notes.new.items ≡ notes.old.items) × (vec_capacity notes.new
        ≡ vec_capacity notes.old) }
    ensures pass { pass.new ≡ pass.old }
    ensures same { take at (entries_of notes.old.items) ≡ take at pass.old.seen
        → take (at + 1) (entries_of notes.old.items) ≡ take (at + 1) pass.old.seen }
{
    let other = pass.recall(at);
    let note = &mut notes[at];
    note.compare(other);
}

// Notes of two sights are the same from one place to another.
fn pairs(
    front: &Front,
    ours: &mut Vec<Note<Published>>,
    theirs: &mut Vec<Note<Published>>,
    from: usize,
    to: usize,
)
    requires ours { AreNotes front.now.row.cells ours.old.items }
    requires theirs { AreNotes front.now.row.cells theirs.old.items }
    requires from { from ≤ to }
    requires first { to ≤ vec_len ours.old }
    requires second { to ≤ vec_len theirs.old }
    requires start { take from (entries_of ours.old.items)
        ≡ take from (entries_of theirs.old.items) }
    ensures ours { (ours.new.items ≡ ours.old.items) × (vec_capacity ours.new
        ≡ vec_capacity ours.old) }
    ensures theirs { (theirs.new.items ≡ theirs.old.items) × (vec_capacity theirs.new
        ≡ vec_capacity theirs.old) }
    ensures same { take to (entries_of ours.old.items) ≡ take to (entries_of theirs.old.items) }
{
    for at in from..to {
        pair_at(front, ours, theirs, at);
    }
}

// One pair of notes.
fn pair_at(
    front: &Front,
    ours: &mut Vec<Note<Published>>,
    theirs: &mut Vec<Note<Published>>,
    at: usize,
)
    requires ours { AreNotes front.now.row.cells ours.old.items }
    requires theirs { AreNotes front.now.row.cells theirs.old.items }
    requires first { at < vec_len ours.old }
    requires second { at < vec_len theirs.old }
    requires start { take at (entries_of ours.old.items) ≡ take at (entries_of theirs.old.items) }
    ensures ours { (ours.new.items ≡ ours.old.items) × (vec_capacity ours.new
        ≡ vec_capacity ours.old) }
    ensures theirs { (theirs.new.items ≡ theirs.old.items) × (vec_capacity theirs.new
        ≡ vec_capacity theirs.old) }
    ensures same { take (at + 1) (entries_of ours.old.items)
        ≡ take (at + 1) (entries_of theirs.old.items) }
{
    agree_at(ours, theirs, at);
}

// Two notes of one cell know one value.
fn agree_at(ours: &mut Vec<Note<Published>>, theirs: &mut Vec<Note<Published>>, at: usize)
    requires ours { at < vec_len ours.old }
    requires theirs { at < vec_len theirs.old }
    requires cell { (d : _) → (slice_index_or theirs.old.items at d).cell
        ≡ (slice_index_or ours.old.items at d).cell }
    ensures ours { (ours.new.items ≡ ours.old.items) × (vec_capacity ours.new
        ≡ vec_capacity ours.old) }
    ensures theirs { (theirs.new.items ≡ theirs.old.items) × (vec_capacity theirs.new
        ≡ vec_capacity theirs.old) }
    ensures same { (d : _) → IfSome (slice_index_or theirs.old.items at d).known (Agrees
        (slice_index_or ours.old.items at d).known) }
{
    let their = &mut theirs[at];
    let other = their.again();
    let our = &mut ours[at];
    our.compare(other);
}
