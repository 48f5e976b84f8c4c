//! The states that wait at the slots ahead of a forward pass.

ghost use Rattle.std.specs.Prelude.{◌≡◌, Some, IfOk};
ghost use Rattle.bpf_regstate.specs.Pass.{with_edge};
ghost use Rattle.bpf_verifier.specs.Rows.{contents};

use bpf_regstate::{Length, State};
use std::alloc::{AllocError, Global};
use std::marker::Model;

/// For each slot what the edges so far have brought to it, until that is taken. It has memory for
/// the states alone that wait. Contracts see the list of what waits.
pub struct Waiting {
    rows: Vec<Option<Box<State>>>,
}

impl Drop for Waiting {
    fn drop(self) {
        let Waiting { rows: _ } = self;
    }
}

impl Model for Waiting {
    ghost use Rattle.std.specs.Prelude.{List, Option};
    ghost use Rattle.bpf_regstate.specs.Shape.{Shape};
    ghost use Rattle.bpf_verifier.specs.Rows.{rows_of};

    ghost Value = { List (Option Shape) };

    ghost view = { λ w. rows_of w.rows.items };
}

/// What a slot has after one more edge to it.
fn join_into(known: Option<Box<State>>, state: Box<State>) -> Box<State>
    ensures { Some result.value ≡ with_edge (contents known) state.value }
{
    match known {
        Some(mut both) => {
            both.join(&state);
            both
        }
        None => state,
    }
}

/// A copy of what is known, if anything is. `Err` only where there is no memory.
fn copy_of(known: &Option<Box<State>>) -> Result<Option<State>, AllocError>
    ensures { IfOk result (λ copy. copy ≡ contents known.now) }
{
    match known {
        Some(state) => Ok(Some(state.copy()?)),
        None => Ok(None),
    }
}

impl Waiting {
    ghost use Rattle.std.specs.Prelude.{◌≡◌, ◌<◌, ◌-◌, ◌∷◌, Some, None, length, replicate, IfOk};
    ghost use Rattle.std.specs.Prelude.{slice_index_or, slice_set};
    ghost use Rattle.bpf_regstate.specs.Lengths.{bytes_in};
    ghost use Rattle.bpf_regstate.specs.States.{start_shape};
    ghost use Rattle.bpf_verifier.specs.Rows.{contents};
    ghost use Rattle.bpf_verifier.specs.Table.{put_edge};

    /// So many slots before the first: the start waits at slot 0, and nothing elsewhere.
    pub fn new(alloc: Global, record_length: Length, slots: usize) -> Result<Waiting, AllocError>
        requires { 0 < slots }
        ensures { IfOk result (λ waiting. waiting
            ≡ Some (start_shape (bytes_in record_length)) ∷ replicate (slots - 1) None) }
    {
        let mut rows = Vec::with_capacity(alloc, slots)?;
        rows.push(Some(Box::new(alloc, State::start(alloc, record_length))?))?;
        for _ in 0..slots - 1 {
            rows.push(None)?;
        }
        Ok(Waiting { rows })
    }

    /// A copy of what waits at a slot. `Err` only where there is no memory.
    pub fn copy(&self, slot: usize) -> Result<Option<State>, AllocError>
        requires { slot < length self.now }
        ensures { IfOk result (λ state. state ≡ slice_index_or self.now slot None) }
    {
        copy_of(&self.rows[slot])
    }

    /// Takes what waits at a slot.
    pub fn take(&mut self, slot: usize) -> Option<Box<State>>
        requires { slot < length self.old }
        ensures taken { contents result ≡ slice_index_or self.old slot None }
        ensures gone { self.new ≡ slice_set self.old slot None }
    {
        self.rows[slot].take()
    }

    /// Joins one edge into what waits at its end.
    pub fn put(&mut self, to: usize, state: Box<State>)
        requires { to < length self.old }
        ensures { self.new ≡ put_edge self.old (to, state.value) }
    {
        let known = self.take(to);
        self.rows[to] = Some(join_into(known, state));
    }
}
