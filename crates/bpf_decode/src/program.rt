//! A program: its slots in order.

use crate::fault::NoMemory;
use crate::op::Op;
use std::marker::Model;

/// How many slots a program has at most (this project's profile).
pub const MOST_SLOTS: usize = 4_096;

/// A program of 1 to `MOST_SLOTS` slots, each of them an instruction but the second slot of a wide load.
pub struct Program {
    ops: Vec<Op>,
}

impl Drop for Program {
    fn drop(self) {
        let Program { ops: _ } = self;
    }
}

impl Model for Program {
    ghost use Rattle.std.specs.Prelude.{List};
    ghost use Rattle.bpf_decode.specs.declared.op.Op.{Op};

    ghost Value = { List Op };

    ghost use Rattle.bpf_decode.specs.Encoding.{IsProgram};

    ghost view = { λ p. p.ops.items };

    ghost invariant = { λ p. IsProgram p.ops.items };
}

impl Program {
    ghost use Rattle.std.specs.Prelude.{◌≡◌, ◌<◌, length, slice_get, IfOk, Some};
    ghost use Rattle.bpf_decode.specs.Encoding.{IsProgram};

    /// The program of these slots.
    pub(crate) fn new(ops: Vec<Op>) -> Program
        requires { IsProgram ops.items }
        ensures { result ≡ ops.items }
    {
        Program { ops }
    }

    /// The slots in order.
    pub fn ops(&self) -> &[Op]
        ensures slots { result.now ≡ self.now }
        ensures program { IsProgram self.now }
    {
        self.ops.as_slice()
    }

    /// The number of slots, 1 to 4,096; a wide load counts two.
    pub fn slot_count(&self) -> usize
        ensures { result ≡ length self.now }
    {
        self.ops.len()
    }

    /// What one slot says.
    pub fn op(&self, slot: usize) -> Op
        requires { slot < length self.now }
        ensures { slice_get self.now slot ≡ Some result }
    {
        self.ops[slot]
    }

    /// A program that equals this one. `Err` only where there is no memory.
    pub fn copy(&self) -> Result<Program, NoMemory>
        ensures { IfOk result (λ program. program ≡ self.now) }
    {
        let mut ops = Vec::new(*self.ops.allocator());
        ops.extend_from_slice(&self.ops)?;
        Ok(Program { ops })
    }
}
