//! Passes: whose calls are made, and what was seen by them.
ghost use Rattle.std.specs.Prelude.{◌≡◌, ◌<◌, ◌≤◌, ◌++◌, ◌+◌, ◌∷◌, [], length, take, min, reverse};
ghost use Rattle.std.specs.Prelude.{slice_index, vec_len, vec_capacity, IfOk, OnOk};
ghost use Rattle.std.specs.Arc.{arc_value};
ghost use Rattle.acdm_step.specs.History.{IsLegal};
ghost use Rattle.acdm_row.specs.Notes.{IsKnownAt};
ghost use Rattle.acdm_row.specs.Views.{PassView, AreBelow, AreOf, AreRising, entries_at};

use crate::front::Front;
use crate::published::Published;
use crate::row::Row;
use acdm_milestones::Role;
use once_cell::race::Note;
use std::alloc::{AllocError, Global};
use std::marker::Model;
use std::sync::Arc;

/// Whose calls are made, what was seen by them of the journal, and which of its entries they made.
pub struct Pass {
    session: u8,
    role: Role,
    pub(crate) front: Front,
    pub(crate) own: Vec<u64>,
}

impl Drop for Pass {
    fn drop(self) {
        let Pass {
            session: _,
            role: _,
            front: _,
            own: _,
        } = self;
    }
}

impl Model for Pass {
    ghost use Rattle.std.specs.Prelude.{length, reverse};
    ghost use Rattle.acdm_step.specs.History.{IsLegal};
    ghost use Rattle.acdm_row.specs.Views.{PassView, entries_at, AreBelow, IsPass};

    ghost Value = { PassView };

    ghost view = { λ p. record {
      row = p.front.row;
      session = p.session;
      role = p.role;
      seen = p.front.entries;
      numbers = p.own.items;
      own = entries_at p.front.entries p.own.items;
    } };

    ghost invariant = { λ p. IsPass p.front p.session p.role p.own.items };
}

impl Row {
    /// A pass of a session, from 1 to 64, that has seen nothing. `Err` only where the row can't be
    /// shared once more.
    pub fn pass(self: &Arc<Row>, session: u8, role: Role) -> Result<Pass, AllocError>
        requires session_given { 1 ≤ session }
        requires few_sessions { session ≤ 64 }
        ensures row { IfOk result (λ p. p.row ≡ arc_value self.now) }
        ensures session { IfOk result (λ p. (p.session ≡ session) × (p.role ≡ role)) }
        ensures empty { IfOk result (λ p. (p.seen ≡ []) × (p.numbers ≡ []) × (p.own ≡ [])) }
    {
        let alloc = self.alloc();
        let front = Front::new(alloc, Arc::try_clone(self)?);
        Ok(Pass {
            session,
            role,
            front,
            own: Vec::new(alloc),
        })
    }
}

impl Pass {
    /// The session, from 1 to 64.
    pub fn session(&self) -> u8
        ensures value { result ≡ self.now.session }
        ensures some { 1 ≤ result }
        ensures few { result ≤ 64 }
    {
        self.session
    }

    /// The role in which its calls are made.
    pub fn role(&self) -> Role
        ensures { result ≡ self.now.role }
    {
        self.role
    }

    /// How many entries it has seen. They are the beginning of a legal journal.
    pub fn len(&self) -> usize
        ensures value { result ≡ length self.now.seen }
        ensures legal { IsLegal self.now.row.sigs (reverse self.now.seen) }
    {
        self.front.len()
    }

    /// How many of them its own calls made. Each is of its session and role, and stands in what it
    /// has seen at its number.
    pub fn own_len(&self) -> usize
        ensures value { result ≡ length self.now.numbers }
        ensures rising { AreRising self.now.numbers }
        ensures below { AreBelow (length self.now.seen) self.now.numbers }
        ensures own { self.now.own ≡ entries_at self.now.seen self.now.numbers }
        ensures of_caller { AreOf self.now.session self.now.role self.now.own }
    {
        self.own.len()
    }

    /// The length of the shorter of what two passes of one row have seen, which are the same as far
    /// as that.
    pub fn meet_pass(&mut self, other: &mut Pass) -> usize
        requires { other.old.row ≡ self.old.row }
        ensures ours { self.new ≡ self.old }
        ensures theirs { other.new ≡ other.old }
        ensures length { result ≡ min (length self.old.seen) (length other.old.seen) }
        ensures same { take result self.old.seen ≡ take result other.old.seen }
    {
        self.front.meet(&mut other.front)
    }

    /// The same of a pass and what is known of its row.
    pub fn meet_front(&mut self, other: &mut Front) -> usize
        requires { other.old.row ≡ self.old.row }
        ensures ours { self.new ≡ self.old }
        ensures theirs { other.new ≡ other.old }
        ensures length { result ≡ min (length self.old.seen) (length other.old.entries) }
        ensures same { take result self.old.seen ≡ take result other.old.entries }
    {
        self.front.meet(other)
    }

    /// A second note of a cell that it has seen, with what stood before it. What it has seen is
    /// the beginning of a legal journal.
    pub fn recall(&mut self, at: usize) -> Note<Published>
        requires { at < length self.old.seen }
        ensures same { self.new ≡ self.old }
        ensures legal { IsLegal self.old.row.sigs (reverse self.old.seen) }
        ensures row { at < length self.old.row.cells }
        ensures cell { result.cell ≡ slice_index self.old.row.cells at }
        ensures known { IsKnownAt result.known self.old.seen at }
    {
        self.front.recall(at)
    }
}
