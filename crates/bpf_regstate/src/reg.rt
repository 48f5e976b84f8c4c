//! What is known of a register, or of an aligned word of the stack.

ghost use Rattle.std.specs.Prelude.{◌≡◌, length};
ghost use Rattle.bpf_regstate.specs.Joins.{join_reg, join_registers};

use bpf_helpers::Range;

/// What is known of a register, or of an aligned word of the stack, before an instruction.
#[derive(Clone, Copy, PartialEq, Eq, Debug)]
pub enum Reg {
    /// Nothing: it may be uninitialised.
    Uninit,
    /// It holds a word of the range.
    Known(Range),
}

/// What two edges have in common.
fn join_one(x: Reg, y: Reg) -> Reg
    ensures { result ≡ join_reg x y }
{
    match (x, y) {
        (Reg::Known(a), Reg::Known(b)) => Reg::Known(Range {
            lo: a.lo.min(b.lo),
            hi: a.hi.max(b.hi),
        }),
        _ => Reg::Uninit,
    }
}

/// Joins each with the one at its place.
pub fn join_each(xs: &mut [Reg], ys: &[Reg])
    requires { length xs.old ≡ length ys.now }
    ensures { xs.new ≡ join_registers xs.old ys.now }
{
    for i in 0..xs.len() {
        xs[i] = join_one(xs[i], ys[i]);
    }
}
