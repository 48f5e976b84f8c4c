//! The programs that are loaded, by milestone and kind.

ghost use Rattle.std.specs.Prelude.{◌≡◌, ◌↔◌, ◌<◌, Some, None, IfOk, IfErr, IsOk, IsErr, OnOk};
ghost use Rattle.std.specs.Prelude.{OnErr, MatchOption};
ghost use Rattle.acdm_slots.specs.Loaded.{AreFit, IsBoard, load_error, nothing_loaded, place, program_in};
ghost use Rattle.acdm_slots.specs.Loaded.{with_program};

use crate::error::SlotError;
use crate::kind::Kind;
use acdm_milestones::Milestone;
use bpf_helpers::Sigs;
use bpf_regstate::Length;
use bpf_verifier::Checked;
use std::alloc::{AllocError, Global};
use std::marker::Model;

/// The number of places: one for each of sixteen milestones and each of two kinds.
pub(crate) const PLACES: usize = 32;

/// The programs of a board, at most one for each milestone and kind, the signatures of the board's
/// helpers, and the length of its records. Each program was checked under exactly these signatures
/// and beside records of this length. Contracts see a map from milestone and kind by the words of
/// `specs/Loaded.antt`.
pub struct Slots {
    sigs: Sigs,
    record_length: Length,
    programs: Vec<Option<Checked>>,
}

impl Drop for Slots {
    fn drop(self) {
        let Slots {
            sigs: _,
            record_length: _,
            programs: _,
        } = self;
    }
}

impl Model for Slots {
    ghost use Rattle.acdm_slots.specs.Loaded.{IsBoard, Loaded};

    ghost Value = { Loaded };

    ghost view = { λ s. record {
      sigs = s.sigs;
      record_length = s.record_length;
      programs = s.programs.items;
    } };

    ghost invariant = { λ s. IsBoard (record {
      sigs = s.sigs;
      record_length = s.record_length;
      programs = s.programs.items;
    }) };
}

/// The place of a milestone's program of a kind, below 32.
fn place_of(milestone: Milestone, kind: Kind) -> usize
    ensures value { result ≡ place milestone kind }
    ensures within { result < 32 }
{
    let first = 2 * (milestone.number() as usize - 1);
    match kind {
        Kind::Tobt => first,
        Kind::Alert => first + 1,
    }
}

impl Slots {
    /// No program is loaded yet, beside records of this length; there is room for all. `Err` only
    /// where there is no memory.
    #[tactic(auto, unfolding(crate::specs::Loaded::table))]
    pub fn new(alloc: Global, sigs: Sigs, record_length: Length) -> Result<Slots, AllocError>
        ensures { IfOk result (λ slots. slots ≡ nothing_loaded sigs record_length) }
    {
        let mut programs = Vec::with_capacity(alloc, PLACES)?;
        for _ in 0..PLACES {
            programs.push(None)?;
        }
        Ok(Slots {
            sigs,
            record_length,
            programs,
        })
    }

    // The programs of a board, each at its place.
    pub(crate) fn of(sigs: Sigs, record_length: Length, programs: Vec<Option<Checked>>) -> Slots
        requires { IsBoard (record {
          sigs = sigs;
          record_length = record_length;
          programs = programs.items;
        }) }
        ensures { result ≡ record {
          sigs = sigs;
          record_length = record_length;
          programs = programs.items;
        } }
    {
        Slots {
            sigs,
            record_length,
            programs,
        }
    }

    // Where its memory comes from.
    pub(crate) fn allocator(&self) -> Global {
        *self.programs.allocator()
    }

    /// The signatures under which programs are checked before they are loaded.
    pub fn sigs(&self) -> &Sigs
        ensures value { result.now ≡ self.now.sigs }
        ensures fit { AreFit self.now }
    {
        &self.sigs
    }

    /// The length of the records beside which programs are checked before they are loaded.
    pub fn record_length(&self) -> Length
        ensures { result ≡ self.now.record_length }
    {
        self.record_length
    }

    /// The program of a kind at a milestone.
    pub fn get(&self, milestone: Milestone, kind: Kind) -> Option<&Checked>
        ensures value { MatchOption result (program_in self.now milestone kind ≡ None)
            (λ checked. program_in self.now milestone kind ≡ Some checked.now) }
        ensures fit { AreFit self.now }
    {
        self.programs[place_of(milestone, kind)].as_ref()
    }

    /// Loads a program in place of what stands there. It takes no memory. A program that was
    /// checked beside records of another length, or else under other signatures, is dropped.
    pub fn load(
        &mut self,
        milestone: Milestone,
        kind: Kind,
        program: Checked,
    ) -> Result<(), SlotError>
        ensures same { IsOk result
            ↔ (program.record_length ≡ self.old.record_length) × (program.sigs ≡ self.old.sigs) }
        ensures loaded { OnOk result (self.new
            ≡ with_program self.old milestone kind (Some program)) }
        ensures told { IfErr result (λ e. load_error self.old program ≡ Some e) }
        ensures kept { OnErr result (self.new ≡ self.old) }
    {
        if !program.record_length().is(self.record_length) {
            return Err(SlotError::OtherLength);
        }
        if !program.sigs().is_same(&self.sigs) {
            return Err(SlotError::OtherSignatures);
        }
        self.put(milestone, kind, program);
        Ok(())
    }

    /// Loads a program in place of what stands there, as `load`, where its length and signatures are
    /// known to be those of the board, and compares neither. It takes no memory.
    pub fn put(&mut self, milestone: Milestone, kind: Kind, program: Checked)
        requires long { program.record_length ≡ self.old.record_length }
        requires same { program.sigs ≡ self.old.sigs }
        ensures { self.new ≡ with_program self.old milestone kind (Some program) }
    {
        // (its contract says that the program may run with them: the invariant)
        let _own = program.sigs();
        self.programs[place_of(milestone, kind)] = Some(program);
    }

    /// Takes a program out and drops it. It takes no memory.
    pub fn unload(&mut self, milestone: Milestone, kind: Kind) -> Result<(), SlotError>
        ensures empty { IsErr result ↔ (program_in self.old milestone kind ≡ None) }
        ensures unloaded { OnOk result (self.new ≡ with_program self.old milestone kind None) }
        ensures told { IfErr result (λ e. e ≡ SlotError.EmptySlot) }
        ensures kept { OnErr result (self.new ≡ self.old) }
    {
        let place = place_of(milestone, kind);
        if self.programs[place].is_none() {
            return Err(SlotError::EmptySlot);
        }
        self.programs[place] = None;
        Ok(())
    }
}
