//! What is known before a slot, as text.

use crate::range_text::{Bound, RangeWords, Span, in_stack};
use bpf_decode::{Op, Register};
use bpf_regstate::{Reg, State};
use bpf_semantics::STACK_LENGTH;
use std::io::{self, Write};

/// Writes what is known before a slot, in lines of their own, and nothing of a second slot.
pub(crate) fn write_known<W: Write>(
    op: Op,
    state: &Option<State>,
    writer: &mut W,
) -> io::Result<()> {
    match state {
        Some(state) => write_state(state, writer),
        None if matches!(op, Op::Tail) => Ok(()),
        None => writeln!(writer, "    no way leads here"),
    }
}

fn write_state<W: Write>(state: &State, writer: &mut W) -> io::Result<()> {
    write_registers(state, writer)?;
    if write_stored(state, 0, STACK_LENGTH, "    stored: ", writer)? {
        writeln!(writer)?;
    }
    write_kept(state, writer)
}

/// Writes the registers that hold a word. Of r10 it is always known.
fn write_registers<W: Write>(state: &State, writer: &mut W) -> io::Result<()> {
    let mut before = "    ";
    for number in 0..11u8 {
        let register = Register::new(number);
        if let Reg::Known(range) = state.register(register) {
            let words = RangeWords(range);
            write!(writer, "{before}{register} = {words}")?;
            before = ", ";
        }
    }
    writeln!(writer)
}

/// Writes which bytes of the stack are marked as stored, from one place up to another; whether
/// there are any.
pub(crate) fn write_stored<W: Write>(
    state: &State,
    from: usize,
    to: usize,
    before: &str,
    writer: &mut W,
) -> io::Result<bool> {
    let mut before = before;
    let mut any = false;
    let mut begun = None;
    for place in from..to {
        if state.all_marked(place, 1) {
            begun = begun.or(Some(place));
        } else if let Some(first) = begun {
            let run = run_of(first, place);
            write!(writer, "{before}{run}")?;
            before = ", ";
            any = true;
            begun = None;
        }
    }
    if let Some(first) = begun {
        let run = run_of(first, to);
        write!(writer, "{before}{run}")?;
        any = true;
    }
    Ok(any)
}

/// From a byte of the stack up to another, which is not among them.
pub(crate) fn run_of(first: usize, end: usize) -> Span {
    Span {
        first: in_stack(first),
        last: in_stack(end.saturating_sub(1)),
    }
}

/// Writes what is kept of aligned words of the stack, each by its first byte.
fn write_kept<W: Write>(state: &State, writer: &mut W) -> io::Result<()> {
    let mut before = "    kept: ";
    let mut any = false;
    for word in 0..64usize {
        if let Reg::Known(range) = state.word(word) {
            let place = Bound::Stack(-8 * (word as i64 + 1));
            let words = RangeWords(range);
            write!(writer, "{before}{place} = {words}")?;
            before = ", ";
            any = true;
        }
    }
    if any {
        writeln!(writer)?;
    }
    Ok(())
}
