//! On which way to a slot a register is left without a word.

use bpf_decode::{Op, Program, Register};
use bpf_helpers::Sigs;
use bpf_regstate::{Length, Reg, State};
use std::fmt;

/// Where a register that may be uninitialised is left without a word.
#[derive(Clone, Copy)]
pub(crate) enum Loss {
    /// It was not set before.
    Never,
    /// The call at this slot makes it unknown.
    Call(usize),
    /// It is unset on this edge, while it is set on another one to the same slot.
    Edge { from: usize, to: usize },
}

impl fmt::Display for Loss {
    fn fmt<W: fmt::Write>(&self, f: &mut fmt::Formatter<W>) -> fmt::Result {
        match *self {
            Loss::Never => write!(f, "nothing"),
            Loss::Call(slot) => write!(f, "nothing since the call at slot {slot}"),
            Loss::Edge { from, to } => {
                write!(f, "nothing on the way from slot {from} to slot {to}")
            }
        }
    }
}

/// Whether a register may be uninitialised.
pub(crate) fn is_unset(state: &State, register: Register) -> bool {
    match state.register(register) {
        Reg::Uninit => true,
        Reg::Known(_) => false,
    }
}

/// The slot to which a jump leads, also where there is none of this number.
pub(crate) fn target_of(slot: usize, op: &Op) -> Option<i64> {
    let offset = match op {
        Op::Ja { offset } => *offset as i32,
        Op::Ja32 { offset } => *offset,
        Op::Jump { offset, .. } => *offset as i32,
        _ => return None,
    };
    i64::try_from(slot).ok()?.checked_add(offset as i64 + 1)
}

/// The slot to which an instruction goes on that does not jump.
fn next_of(slot: usize, op: &Op) -> Option<usize> {
    match op {
        Op::Ja { .. } | Op::Ja32 { .. } | Op::Exit | Op::Tail => None,
        Op::Wide { .. } => slot.checked_add(2),
        _ => slot.checked_add(1),
    }
}

/// Whether some words lead along the edge of a conditional jump. Every edge of another instruction
/// is one.
fn is_open(state: &State, op: &Op, is_taken: bool) -> bool {
    let Op::Jump {
        width,
        condition,
        dst,
        operand,
        ..
    } = op
    else {
        return true;
    };
    matches!(
        state.refine(*width, *condition, *dst, *operand, is_taken),
        Ok(Some(_))
    )
}

/// Whether an edge leads from one slot to another, by what is known before the first.
fn leads(state: &State, from: usize, op: &Op, to: usize) -> bool {
    let jumps = match target_of(from, op) {
        Some(target) => usize::try_from(target).ok() == Some(to),
        None => false,
    };
    let falls = next_of(from, op) == Some(to);
    jumps && is_open(state, op, true) || falls && is_open(state, op, false)
}

/// The edges between the slots of a program beside a record of this length, as far as it was told.
#[derive(Clone, Copy)]
pub(crate) struct Ways<'a> {
    pub program: &'a Program,
    pub length: Length,
    pub states: &'a [Option<State>],
    pub sigs: &'a Sigs,
}

impl<'a> Ways<'a> {
    /// Whether a register is set along the edge from one slot to another, if there is one.
    fn is_set_along(self, from: usize, to: usize, register: Register) -> Option<bool> {
        let op = self.program.ops().get(from)?;
        let state = self.states.get(from)?.as_ref()?;
        if !leads(state, from, op, to) {
            return None;
        }
        let after = state.transfer(self.length, *op, self.sigs).ok()?;
        Some(!is_unset(&after, register))
    }

    /// The last slot from which an edge leads to this one along which a register is set, or unset.
    fn last_to(self, to: usize, register: Register, is_set: bool) -> Option<usize> {
        let mut last = None;
        for from in 0..to {
            if self.is_set_along(from, to, register) == Some(is_set) {
                last = Some(from);
            }
        }
        last
    }

    /// Whether a register is set before a slot.
    fn is_set_before(self, slot: usize, register: Register) -> bool {
        match self.states.get(slot) {
            Some(Some(state)) => !is_unset(state, register),
            _ => false,
        }
    }

    /// Where a register that may be uninitialised before a slot is left without a word.
    pub(crate) fn loss(self, slot: usize, register: Register) -> Loss {
        let mut to = slot;
        for _ in 0..slot {
            let Some(from) = self.last_to(to, register, false) else {
                return Loss::Never;
            };
            if self.is_set_before(from, register) {
                return Loss::Call(from);
            }
            if self.last_to(to, register, true).is_some() {
                return Loss::Edge { from, to };
            }
            to = from;
        }
        Loss::Never
    }
}
