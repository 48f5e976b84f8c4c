//! Faults that a slot has whatever is known there: of jumps, of the end, of unknown helpers and of
//! r10.

ghost use Rattle.std.specs.Prelude.{◌≡◌, ◌==◌, ◌<◌, ◌^◌, slice_get};
ghost use Rattle.bpf_semantics.specs.Machine.{is_entry, next_slot, target};
ghost use Rattle.bpf_regstate.specs.Faults.{calls_unknown, falls_off, is_target, jumps_badly};
ghost use Rattle.bpf_regstate.specs.Faults.{writes_end};

use bpf_decode::{Op, Register};
use bpf_helpers::Sigs;

/// Whether an instruction begins at a slot.
pub fn is_entry_at(ops: &[Op], slot: usize) -> bool
    ensures { result ≡ is_entry (slice_get ops.now slot) }
{
    if slot < ops.len() {
        !matches!(ops[slot], Op::Tail)
    } else {
        false
    }
}

/// The slot to which a jump at a slot leads, if that is a later one (RFC 9669, section 4.3).
pub fn target(slot: usize, offset: i32) -> Option<usize>
    requires { slot < 2 ^ 32 }
    ensures { result ≡ target slot offset }
{
    if offset < 0 {
        None
    } else {
        Some(slot + 1 + offset as usize)
    }
}

/// Whether an instruction begins at the target.
fn is_target(ops: &[Op], target: Option<usize>) -> bool
    ensures { result ≡ is_target ops.now target }
{
    match target {
        Some(to) => is_entry_at(ops, to),
        None => false,
    }
}

/// Whether the slot jumps to where no later instruction begins.
pub fn jumps_badly(ops: &[Op], slot: usize, op: Op) -> bool
    requires { slot < 2 ^ 32 }
    ensures { result ≡ jumps_badly ops.now slot op }
{
    match op {
        Op::Ja { offset } => !is_target(ops, target(slot, offset as i32)),
        Op::Ja32 { offset } => !is_target(ops, target(slot, offset)),
        Op::Jump { offset, .. } => !is_target(ops, target(slot, offset as i32)),
        _ => false,
    }
}

/// The slot of the next instruction: a wide load takes two slots.
pub fn next_slot(slot: usize, op: Op) -> usize
    requires { slot < 2 ^ 32 }
    ensures { result ≡ next_slot slot op }
{
    match op {
        Op::Wide { .. } => slot + 2,
        _ => slot + 1,
    }
}

/// Whether the slot may go on to a next instruction that is not there.
pub fn falls_off(ops: &[Op], slot: usize, op: Op) -> bool
    requires { slot < 2 ^ 32 }
    ensures { result ≡ falls_off ops.now slot op }
{
    match op {
        Op::Ja { .. } => false,
        Op::Ja32 { .. } => false,
        Op::Exit => false,
        _ => !is_entry_at(ops, next_slot(slot, op)),
    }
}

/// Whether the slot calls a helper that has no signature.
pub fn calls_unknown(sigs: &Sigs, op: Op) -> bool
    ensures { result ≡ calls_unknown sigs.now op }
{
    match op {
        Op::Call { helper } => sigs.get(helper).is_none(),
        _ => false,
    }
}

/// Whether this is r10, the end of the stack.
pub fn is_end(register: Register) -> bool
    ensures { result ≡ (register == 10) }
{
    register.index() == 10
}

/// Whether the slot writes r10.
pub fn writes_end(op: Op) -> bool
    ensures { result ≡ writes_end op }
{
    match op {
        Op::Arith { dst, .. } => is_end(dst),
        Op::Negate { dst, .. } => is_end(dst),
        Op::Extend { dst, .. } => is_end(dst),
        Op::End { dst, .. } => is_end(dst),
        Op::Load { dst, .. } => is_end(dst),
        Op::LoadSigned { dst, .. } => is_end(dst),
        Op::Wide { dst, .. } => is_end(dst),
        _ => false,
    }
}
