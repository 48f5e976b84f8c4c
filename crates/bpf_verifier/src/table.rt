//! One slot of a forward pass.

ghost use Rattle.std.specs.Prelude.{◌≡◌, ◌≢◌, ◌<◌, ◌≤◌, ◌^◌, false, length, option_map, IfOk, OnOk};
ghost use Rattle.std.specs.Option.{ForSome};
ghost use Rattle.bpf_decode.specs.declared.program.TheConstants.{MOST_SLOTS};
ghost use Rattle.bpf_regstate.specs.Edges.{edge, edges};
ghost use Rattle.bpf_regstate.specs.Faults.{falls_off, jumps_badly};
ghost use Rattle.bpf_regstate.specs.Narrowing.{refined};
ghost use Rattle.bpf_verifier.specs.Rows.{contents};
ghost use Rattle.bpf_verifier.specs.Table.{Passes, sent};
ghost use Rattle.bpf_verifier.specs.Verdict.{code_of};

use crate::fault::SlotFault;
use crate::flow::{next_slot, target};
use crate::slot::least_fault;
use crate::waiting::Waiting;
use bpf_decode::{Condition, Op, Operand, Register, Width};
use bpf_helpers::Sigs;
use bpf_regstate::State;
use std::alloc::AllocError;

/// Puts an edge that there may not be: a jump may have no target, or no words that lead there.
fn put_edge(waiting: &mut Waiting, to: Option<usize>, state: Option<Box<State>>)
    requires { ForSome to (λ slot. slot < length waiting.old) }
    ensures { waiting.new ≡ sent waiting.old (edge to (contents state)) }
{
    if let Some(to) = to {
        if let Some(state) = state {
            waiting.put(to, state);
        }
    }
}

/// The state along one edge of a conditional jump, in the place of the one before the jump.
fn along(
    state: Box<State>,
    width: Width,
    condition: Condition,
    dst: Register,
    operand: Operand,
    taken: bool,
) -> Option<Box<State>>
    ensures { contents result ≡ refined width condition dst operand taken state.value }
{
    let mut after = state;
    if after.follow(width, condition, dst, operand, taken) {
        Some(after)
    } else {
        None
    }
}

impl Waiting {
    // Sends the edges of a slot without a fault, by what is known there. What is known moves on to the
    // end of the edge; only the target of a conditional jump gets a copy.
    #[inline(always)]
    fn send(
        &mut self,
        ops: &[Op],
        sigs: &Sigs,
        record_length: usize,
        slot: usize,
        op: &Op,
        state: Box<State>,
    ) -> Result<(), AllocError>
        requires short { record_length < 2 ^ 16 }
        requires same { length self.old ≡ length ops.now }
        requires few { slot < 2 ^ 32 }
        requires jumps { jumps_badly ops.now slot op.now ≡ false }
        requires falls { op.now ≢ Op.Tail → falls_off ops.now slot op.now ≡ false }
        ensures { OnOk result
            (self.new ≡ sent self.old (edges record_length sigs.now slot op.now state.value)) }
    {
        match op {
            Op::Ja { offset } => put_edge(self, target(slot, *offset as i32), Some(state)),
            Op::Ja32 { offset } => put_edge(self, target(slot, *offset), Some(state)),
            Op::Jump {
                width,
                condition,
                dst,
                operand,
                offset,
            } => {
                let copy = Box::new(*Box::allocator(&state), state.copy()?)?;
                let taken = along(copy, *width, *condition, *dst, *operand, true);
                let other = along(state, *width, *condition, *dst, *operand, false);
                put_edge(self, target(slot, *offset as i32), taken);
                put_edge(self, Some(slot + 1), other);
            }
            Op::Exit => {}
            Op::Tail => {}
            _ => {
                let mut after = state;
                after.advance(record_length, *op, sigs)?;
                self.put(next_slot(slot, *op), after);
            }
        }
        Ok(())
    }
}

/// The fault of a slot, by what the edges of earlier slots have brought to it; where it has none,
/// its own edges are sent. What was known at the slot is given up. `Err` only where there is no
/// memory.
#[inline(always)]
pub fn pass_slot(
    waiting: &mut Waiting,
    ops: &[Op],
    sigs: &Sigs,
    record_length: usize,
    slot: usize,
) -> Result<Option<SlotFault>, AllocError>
    requires short { record_length < 2 ^ 16 }
    requires same { length waiting.old ≡ length ops.now }
    requires inside { slot < length ops.now }
    requires few { length ops.now ≤ MOST_SLOTS }
    ensures { IfOk result (λ fault.
        Passes record_length ops.now sigs.now slot waiting.old waiting.new (option_map code_of fault)) }
{
    let op = &ops[slot];
    let state = waiting.take(slot);
    if let Some(fault) = least_fault(record_length, ops, sigs, slot, *op, &state) {
        return Ok(Some(fault));
    }
    if let Some(state) = state {
        waiting.send(ops, sigs, record_length, slot, op, state)?;
    }
    Ok(None)
}
