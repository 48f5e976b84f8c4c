//! Faults of the registers that a slot reads: uninitialised ones, and arguments of calls outside
//! their ranges.

ghost use Rattle.std.specs.Prelude.{◌≡◌, ◌≤◌, length};
ghost use Rattle.bpf_regstate.specs.Effect.{range_of};
ghost use Rattle.bpf_regstate.specs.Shape.{IsRange, known};
ghost use Rattle.bpf_regstate.specs.Faults.{argument_uninit, arguments_within, destination_uninit};
ghost use Rattle.bpf_regstate.specs.Faults.{is_uninit, lies_within, operand_uninit, passes_badly};
ghost use Rattle.bpf_regstate.specs.Faults.{reads_uninit, call_uninit, call_within};
ghost use Rattle.bpf_helpers.specs.Promise.{signature_of};

use bpf_decode::{Code, Op, Operand, Register};
use bpf_helpers::{Range, Sigs};
use bpf_regstate::{Reg, State};

/// Whether a register may be uninitialised.
fn is_uninit(state: &State, register: Register) -> bool
    ensures { result ≡ is_uninit (known state.now register) }
{
    match state.register(register) {
        Reg::Uninit => true,
        Reg::Known(_) => false,
    }
}

/// Whether a second operand may be uninitialised.
pub fn operand_uninit(state: &State, operand: Operand) -> bool
    ensures { result ≡ operand_uninit state.now operand }
{
    match operand {
        Operand::From(register) => is_uninit(state, register),
        Operand::Immediate(_) => false,
    }
}

/// Whether an operation reads its destination and that may be uninitialised; MOV does not read it.
pub fn destination_uninit(code: Code, state: &State, dst: Register) -> bool
    ensures { result ≡ destination_uninit code state.now dst }
{
    match code {
        Code::Mov => false,
        _ => is_uninit(state, dst),
    }
}

/// Whether one of the registers from r1 on, as many as a helper takes, may be uninitialised.
fn argument_uninit(state: &State, args: &[Range]) -> bool
    requires { length args.now ≤ 5 }
    ensures { result ≡ argument_uninit state.now args.now 1 }
{
    let mut rest = args;
    let mut number = 1u8;
    while let Some((_, more)) = rest.split_first() {
        if is_uninit(state, Register::new(number)) {
            return true;
        }
        rest = more;
        number += 1;
    }
    false
}

/// Whether a call of this helper reads a register that may be uninitialised.
fn call_uninit(sigs: &Sigs, state: &State, helper: u32) -> bool
    ensures { result ≡ call_uninit state.now (signature_of sigs.now helper) }
{
    match sigs.get(helper) {
        Some(signature) => argument_uninit(state, signature.args()),
        None => false,
    }
}

/// Whether the slot reads a register that may be uninitialised.
pub fn reads_uninit(sigs: &Sigs, state: &State, op: Op) -> bool
    ensures { result ≡ reads_uninit sigs.now state.now op }
{
    match op {
        Op::Arith {
            code,
            dst,
            operand,
            ..
        } => destination_uninit(code, state, dst) || operand_uninit(state, operand),
        Op::Negate { dst, .. } => is_uninit(state, dst),
        Op::Extend { src, .. } => is_uninit(state, src),
        Op::End { dst, .. } => is_uninit(state, dst),
        Op::Jump { dst, operand, .. } => is_uninit(state, dst) || operand_uninit(state, operand),
        Op::Call { helper } => call_uninit(sigs, state, helper),
        Op::Exit => is_uninit(state, Register::new(0)),
        Op::Load { base, .. } => is_uninit(state, base),
        Op::LoadSigned { base, .. } => is_uninit(state, base),
        Op::Store { base, value, .. } => is_uninit(state, base) || operand_uninit(state, value),
        _ => false,
    }
}

/// The words that a register may hold.
pub fn range_of(state: &State, register: Register) -> Range
    ensures value { result ≡ range_of (known state.now register) }
    ensures range { IsRange result }
{
    match state.register(register) {
        Reg::Known(range) => range,
        Reg::Uninit => Range {
            lo: 0,
            hi: u64::MAX,
        },
    }
}

/// Whether each word of a range lies in another one.
fn lies_within(inner: Range, outer: Range) -> bool
    ensures { result ≡ lies_within inner outer }
{
    outer.lo <= inner.lo && inner.hi <= outer.hi
}

/// Whether the registers from r1 on lie in these ranges.
fn arguments_within(state: &State, args: &[Range]) -> bool
    requires { length args.now ≤ 5 }
    ensures { result ≡ arguments_within state.now args.now 1 }
{
    let mut rest = args;
    let mut number = 1u8;
    while let Some((range, more)) = rest.split_first() {
        if !lies_within(range_of(state, Register::new(number)), *range) {
            return false;
        }
        rest = more;
        number += 1;
    }
    true
}

/// Whether a call of this helper passes only what its signature takes.
fn call_within(sigs: &Sigs, state: &State, helper: u32) -> bool
    ensures { result ≡ call_within state.now (signature_of sigs.now helper) }
{
    match sigs.get(helper) {
        Some(signature) => arguments_within(state, signature.args()),
        None => true,
    }
}

/// Whether the slot calls a helper with an argument that may lie outside its range.
pub fn passes_badly(sigs: &Sigs, state: &State, op: Op) -> bool
    ensures { result ≡ passes_badly sigs.now state.now op }
{
    match op {
        Op::Call { helper } => !call_within(sigs, state, helper),
        _ => false,
    }
}
