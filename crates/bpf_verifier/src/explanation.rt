//! The states by which a program is accepted or refused.

ghost use Rattle.std.specs.Prelude.{◌≡◌, ◌^◌, ◌∷◌, ◌<◌, ◌≤◌, ◌-◌, [], Some, None, length, replicate};
ghost use Rattle.std.specs.Prelude.{IfOk, MatchOption};
ghost use Rattle.bpf_decode.specs.declared.program.TheConstants.{MOST_SLOTS};
ghost use Rattle.bpf_regstate.specs.Lengths.{bytes_in};
ghost use Rattle.bpf_regstate.specs.States.{Accepts, IsFirstFault, start_shape, states};
ghost use Rattle.bpf_verifier.specs.Explained.{Explains, slots_told};
ghost use Rattle.bpf_verifier.specs.Verdict.{code_of};

use crate::fault::SlotFault;
use crate::table::pass_slot;
use crate::waiting::Waiting;
use bpf_decode::{Op, Program};
use bpf_helpers::Sigs;
use bpf_regstate::laws::one_pass_is_enough;
use bpf_regstate::{Length, State};
use std::alloc::{AllocError, Global};

/// What is known before each slot of a program, as far as its first fault.
#[derive(Drop)]
pub struct Explanation {
    /// For each slot, from the first up to the one with the fault or else to the last, what is
    /// known before it runs; nothing where no edge leads.
    pub states: Vec<Option<State>>,
    /// The first fault and its slot, if the program is not accepted.
    pub fault: Option<(SlotFault, usize)>,
}

/// The first fault of these slots with its slot, and what waited at each slot when its turn came.
fn walk(
    ops: &[Op],
    sigs: &Sigs,
    record_length: usize,
    waiting: &mut Waiting,
    known: &mut Vec<Option<State>>,
) -> Result<Option<(SlotFault, usize)>, AllocError>
    requires short { record_length < 2 ^ 16 }
    requires some { 0 < length ops.now }
    requires few { length ops.now ≤ MOST_SLOTS }
    requires table { waiting.old ≡ Some (start_shape record_length) ∷ replicate (length ops.now - 1) None }
    requires none { known.old.items ≡ [] }
    ensures verdict { IfOk result (λ first. MatchOption first (Accepts record_length ops.now sigs.now)
        (λ found. IsFirstFault record_length ops.now sigs.now found.1 (code_of found.0))) }
    ensures states { IfOk result (λ first. known.new.items
        ≡ states record_length ops.now sigs.now (slots_told first (length ops.now))) }
{
    one_pass_is_enough();
    for slot in 0..ops.len() {
        known.push(waiting.copy(slot)?)?;
        if let Some(fault) = pass_slot(waiting, ops, sigs, record_length, slot)? {
            return Ok(Some((fault, slot)));
        }
    }
    Ok(None)
}

/// What `verify` knows before each slot of the program, and its verdict. A state is kept for each
/// slot, so this takes more memory than `verify`. `Err` only where there is no memory.
pub fn explain(
    alloc: Global,
    program: &Program,
    sigs: &Sigs,
    record_length: Length,
) -> Result<Explanation, AllocError>
    ensures { IfOk result (Explains (bytes_in record_length) program.now sigs.now) }
{
    let ops = program.ops();
    let bytes = record_length.bytes();
    let mut waiting = Waiting::new(alloc, record_length, ops.len())?;
    let mut states = Vec::new(alloc);
    let fault = walk(ops, sigs, bytes, &mut waiting, &mut states)?;
    Ok(Explanation { states, fault })
}
