//! The verifier.

ghost use Rattle.std.specs.Prelude.{◌≡◌, ◌^◌, ◌∷◌, ◌<◌, ◌≤◌, ◌-◌, ℕ, Some, None, length, replicate};
ghost use Rattle.std.specs.Prelude.{IfOk, IfErr, IsOkUnless, MatchOption};
ghost use Rattle.bpf_decode.specs.declared.program.TheConstants.{MOST_SLOTS};
ghost use Rattle.bpf_regstate.specs.Lengths.{bytes_in};
ghost use Rattle.bpf_regstate.specs.States.{Accepts, IsFirstFault, start_shape};
ghost use Rattle.bpf_verifier.specs.Runs.{MayRun};
ghost use Rattle.bpf_verifier.specs.Verdict.{AnswersFault, Refuses, code_of};

use crate::checked::Checked;
use crate::fault::{SlotFault, VerifyError};
use crate::table::pass_slot;
use crate::waiting::Waiting;
use bpf_decode::{Op, Program};
use bpf_helpers::Sigs;
use bpf_regstate::Length;
use bpf_regstate::laws::one_pass_is_enough;
use std::alloc::{AllocError, Global};

/// The first fault of these slots with its slot, found in one pass forward from where the start
/// alone waits. `Err` only where there is no memory.
fn first_fault(
    ops: &[Op],
    sigs: &Sigs,
    record_length: usize,
    waiting: &mut Waiting,
) -> Result<Option<(SlotFault, usize)>, AllocError>
    requires short { record_length < 2 ^ 16 }
    requires some { 0 < length ops.now }
    requires few { length ops.now ≤ MOST_SLOTS }
    requires table { waiting.old ≡ Some (start_shape record_length) ∷ replicate (length ops.now - 1) None }
    ensures { IfOk result (λ first. MatchOption first (Accepts record_length ops.now sigs.now)
        (λ found. IsFirstFault record_length ops.now sigs.now found.1 (code_of found.0))) }
{
    one_pass_is_enough();
    for slot in 0..ops.len() {
        if let Some(fault) = pass_slot(waiting, ops, sigs, record_length, slot)? {
            return Ok(Some((fault, slot)));
        }
    }
    Ok(None)
}

/// Whether the program may run with these helpers: whether no slot has a fault. It is answered with
/// a copy of the signatures, or dropped. A refusal holds the least faulty slot with its fault of
/// the least number. Its time is linear in the slots.
pub fn verify(
    alloc: Global,
    program: Program,
    sigs: &Sigs,
    record_length: Length,
) -> Result<Checked, VerifyError>
    // What is answered is accepted, or the first fault, unless memory runs out.
    ensures accepted { IfOk result (λ checked. Accepts (bytes_in record_length) program sigs.now) }
    ensures may_run { IfOk result MayRun }
    ensures checked { IfOk result (λ checked. checked ≡ record {
      record_length = record_length;
      ops = program;
      sigs = sigs.now;
    }) }
    ensures refused { IfErr result (λ e. Refuses (bytes_in record_length) program sigs.now e) }

    // No accepted program is refused, and no other fault is the first.
    ensures only_accepted { Accepts (bytes_in record_length) program sigs.now → IsOkUnless result VerifyError.Memory }
    ensures only_fault { (slot code : ℕ) → IsFirstFault (bytes_in record_length) program sigs.now slot code
        → AnswersFault slot code result }
{
    let bytes = record_length.bytes();
    let mut waiting = Waiting::new(alloc, record_length, program.slot_count())?;
    if let Some((fault, slot)) = first_fault(program.ops(), sigs, bytes, &mut waiting)? {
        return Err(VerifyError::Refused { fault, slot });
    }
    let sigs = sigs.copy()?;
    Ok(Checked::new(alloc, program, sigs, record_length)?)
}
