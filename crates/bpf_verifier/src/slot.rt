//! The fault of a slot.

ghost use Rattle.std.specs.Prelude.{◌≡◌, ◌<◌, ◌^◌, ℕ, List, option_map};
ghost use Rattle.bpf_helpers.specs.Promise.{Promise};
ghost use Rattle.bpf_decode.specs.declared.op.Width.{Width};
ghost use Rattle.bpf_decode.specs.declared.op.Op.TheVariants.{Arith};
ghost use Rattle.bpf_regstate.specs.Faults.{faults, least};
ghost use Rattle.bpf_verifier.specs.Rows.{contents};
ghost use Rattle.bpf_verifier.specs.Verdict.{code_of};

use crate::fault::SlotFault;
use crate::flow::{calls_unknown, falls_off, is_end, is_entry_at, jumps_badly, writes_end};
use crate::memory::access_faults;
use crate::reads::{destination_uninit, operand_uninit, passes_badly, reads_uninit};
use bpf_decode::{Code, Op, Operand, Register};
use bpf_helpers::Sigs;
use bpf_regstate::State;

/// The fault of a slot of arithmetic: it leads on to the next one alone, and neither calls nor goes to memory.
#[inline(always)]
fn arith_fault(
    ops: &[Op],
    slot: usize,
    code: Code,
    dst: Register,
    operand: Operand,
    state: &Option<Box<State>>,
) -> Option<SlotFault>
    requires few { slot < 2 ^ 32 }
    ensures { (record_length : ℕ) → (sigs : List (ℕ × Promise)) → (width : Width) → option_map code_of result
        ≡ least (faults record_length ops.now sigs slot (Arith width code dst operand) (contents state.now)) }
{
    if !is_entry_at(ops, slot + 1) {
        return Some(SlotFault::FallsOff);
    }
    if let Some(state) = state {
        if destination_uninit(code, state, dst) || operand_uninit(state, operand) {
            return Some(SlotFault::Uninitialised);
        }
    }
    if is_end(dst) {
        return Some(SlotFault::WritesEnd);
    }
    None
}

/// The fault of the least number that a slot has, by what is known there; nothing is known where no
/// edge leads.
#[inline(always)]
pub fn least_fault(
    record_length: usize,
    ops: &[Op],
    sigs: &Sigs,
    slot: usize,
    op: Op,
    state: &Option<Box<State>>,
) -> Option<SlotFault>
    requires short { record_length < 2 ^ 16 }
    requires few { slot < 2 ^ 32 }
    ensures { option_map code_of result
        ≡ least (faults record_length ops.now sigs.now slot op (contents state.now)) }
{
    if let Op::Arith {
        code,
        dst,
        operand,
        ..
    } = op
    {
        return arith_fault(ops, slot, code, dst, operand, state);
    }
    if op == Op::Tail {
        return None;
    }
    if jumps_badly(ops, slot, op) {
        return Some(SlotFault::Jump);
    }
    if falls_off(ops, slot, op) {
        return Some(SlotFault::FallsOff);
    }
    if let Some(state) = state {
        if reads_uninit(sigs, state, op) {
            return Some(SlotFault::Uninitialised);
        }
        let access = access_faults(record_length, state, op);
        if access.misses {
            return Some(SlotFault::Address);
        }
        if access.unmarked {
            return Some(SlotFault::StackByte);
        }
        if access.in_record {
            return Some(SlotFault::WritesRecord);
        }
        if calls_unknown(sigs, op) {
            return Some(SlotFault::Helper);
        }
        if passes_badly(sigs, state, op) {
            return Some(SlotFault::Argument);
        }
    } else if calls_unknown(sigs, op) {
        return Some(SlotFault::Helper);
    }
    if writes_end(op) {
        return Some(SlotFault::WritesEnd);
    }
    None
}
