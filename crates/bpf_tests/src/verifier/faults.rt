//! The faults of a slot, written down plainly for programs that call no helper.

ghost use Rattle.std.specs.Prelude.{◌≤◌};

use bpf_decode::{Code, Op, Operand, Register};
use bpf_regstate::{Reg, State, place_of_access};
use bpf_semantics::{MemoryPlace, byte_count, part_byte_count};

/// Whether an instruction begins at a slot.
fn is_entry(ops: &[Op], slot: Option<usize>) -> bool {
    match slot {
        Some(slot) => match ops.get(slot) {
            Some(op) => !matches!(op, Op::Tail),
            None => false,
        },
        None => false,
    }
}

/// How far a jump goes.
fn distance(op: &Op) -> Option<i32> {
    match op {
        Op::Ja { offset } => Some(*offset as i32),
        Op::Ja32 { offset } => Some(*offset),
        Op::Jump { offset, .. } => Some(*offset as i32),
        _ => None,
    }
}

/// The slot to which a jump leads, if that is a later one.
pub(crate) fn target(slot: usize, op: &Op) -> Option<usize> {
    match distance(op) {
        Some(distance) if 0 <= distance => {
            Some(slot.saturating_add(1).saturating_add(distance as usize))
        }
        _ => None,
    }
}

/// The slot of the next instruction, where a slot may go on to it.
pub(crate) fn next_slot(slot: usize, op: &Op) -> Option<usize> {
    match op {
        Op::Ja { .. } => None,
        Op::Ja32 { .. } => None,
        Op::Exit => None,
        Op::Wide { .. } => Some(slot.saturating_add(2)),
        _ => Some(slot.saturating_add(1)),
    }
}

/// The fault of where a slot leads.
fn fault_of_ways(ops: &[Op], slot: usize, op: &Op) -> Option<u16> {
    if distance(op).is_some() && !is_entry(ops, target(slot, op)) {
        return Some(306);
    }
    let next = next_slot(slot, op);
    if next.is_some() && !is_entry(ops, next) {
        return Some(307);
    }
    None
}

/// Whether a register may be uninitialised.
fn is_unset(state: &State, register: Register) -> bool {
    state.register(register) == Reg::Uninit
}

/// Whether a second operand may be.
fn is_operand_unset(state: &State, operand: &Operand) -> bool {
    match operand {
        Operand::From(register) => is_unset(state, *register),
        Operand::Immediate(_) => false,
    }
}

/// Whether a slot reads a register that may be uninitialised.
fn reads_unset(state: &State, op: &Op) -> bool {
    match op {
        Op::Arith {
            code,
            dst,
            operand,
            ..
        } => (*code != Code::Mov && is_unset(state, *dst)) || is_operand_unset(state, operand),
        Op::Negate { dst, .. } => is_unset(state, *dst),
        Op::Extend { src, .. } => is_unset(state, *src),
        Op::End { dst, .. } => is_unset(state, *dst),
        Op::Jump { dst, operand, .. } => is_unset(state, *dst) || is_operand_unset(state, operand),
        Op::Exit => is_unset(state, Register::new(0)),
        Op::Load { base, .. } => is_unset(state, *base),
        Op::LoadSigned { base, .. } => is_unset(state, *base),
        Op::Store { base, value, .. } => is_unset(state, *base) || is_operand_unset(state, value),
        _ => false,
    }
}

/// Where so many bytes lie at a register plus an offset, and how many bytes they may be in all.
fn access(state: &State, base: Register, offset: i16, count: usize) -> (MemoryPlace, usize)
    requires { count ≤ 8 }
{
    match state.register(base) {
        Reg::Known(range) if range.lo <= range.hi => {
            let more = (range.hi - range.lo) as usize;
            let place = place_of_access(128, range, offset as i32, count);
            (place, more.saturating_add(count))
        }
        _ => (MemoryPlace::Nowhere, count),
    }
}

/// The fault of a load from there.
fn fault_of_load(state: &State, access: (MemoryPlace, usize)) -> Option<u16> {
    match access.0 {
        MemoryPlace::Nowhere => Some(309),
        MemoryPlace::Stack(at) if !state.all_marked(at, access.1) => Some(310),
        _ => None,
    }
}

/// The fault of a load or a store.
fn fault_of_memory(state: &State, op: &Op) -> Option<u16> {
    match op {
        Op::Load {
            size,
            base,
            offset,
            ..
        } => fault_of_load(state, access(state, *base, *offset, byte_count(*size))),
        Op::LoadSigned {
            part,
            base,
            offset,
            ..
        } => fault_of_load(state, access(state, *base, *offset, part_byte_count(*part))),
        Op::Store {
            size,
            base,
            offset,
            ..
        } => match access(state, *base, *offset, byte_count(*size)).0 {
            MemoryPlace::Nowhere => Some(309),
            MemoryPlace::Record(_) => Some(311),
            MemoryPlace::Stack(_) => None,
        },
        _ => None,
    }
}

/// The register that a slot changes.
fn changed(op: &Op) -> Option<Register> {
    match op {
        Op::Arith { dst, .. } => Some(*dst),
        Op::Negate { dst, .. } => Some(*dst),
        Op::Extend { dst, .. } => Some(*dst),
        Op::End { dst, .. } => Some(*dst),
        Op::Load { dst, .. } => Some(*dst),
        Op::LoadSigned { dst, .. } => Some(*dst),
        Op::Wide { dst, .. } => Some(*dst),
        _ => None,
    }
}

/// The fault that a slot has by what is known there.
fn fault_of_values(state: &State, op: &Op) -> Option<u16> {
    if reads_unset(state, op) {
        return Some(308);
    }
    fault_of_memory(state, op)
}

/// The fault that a slot has whatever is known there.
fn fault_of_slot(op: &Op) -> Option<u16> {
    if matches!(op, Op::Call { .. }) {
        return Some(312);
    }
    match changed(op) {
        Some(register) if register.index() == 10 => Some(314),
        _ => None,
    }
}

/// The number of the first fault of a slot, by what is known there; nothing is known where no edge
/// leads.
pub(crate) fn fault_at(ops: &[Op], slot: usize, op: &Op, state: Option<&State>) -> Option<u16> {
    if matches!(op, Op::Tail) {
        return None;
    }
    let ways = fault_of_ways(ops, slot, op);
    if ways.is_some() {
        return ways;
    }
    let values = match state {
        Some(state) => fault_of_values(state, op),
        None => None,
    };
    if values.is_some() {
        return values;
    }
    fault_of_slot(op)
}
