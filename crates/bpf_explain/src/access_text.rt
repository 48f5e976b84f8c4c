//! What is wrong with the address of a load or a store, as text.

ghost use Rattle.std.specs.Prelude.{◌≤◌, IfSome};

use crate::range_text::{Bound, RangeWords, Reached, Signed, Span};
use crate::state_text::{run_of, write_stored};
use bpf_decode::{Op, Register};
use bpf_helpers::Range;
use bpf_regstate::{Length, Reg, State, place_of_access};
use bpf_semantics::{
    MemoryPlace, RECORD_BASE, STACK_BASE, STACK_LENGTH, byte_count, part_byte_count,
};
use bpf_verifier::SlotFault;
use std::fmt;
use std::io::{self, Write};

/// The bytes that a load or a store touches.
#[derive(Clone, Copy)]
struct Access {
    base: Register,
    offset: i16,
    count: usize,
}

fn access_of(op: &Op) -> Option<Access>
    ensures { IfSome result (λ access. access.count ≤ 8) }
{
    match op {
        Op::Load {
            size,
            base,
            offset,
            ..
        } => Some(Access {
            base: *base,
            offset: *offset,
            count: byte_count(*size),
        }),
        Op::LoadSigned {
            part,
            base,
            offset,
            ..
        } => Some(Access {
            base: *base,
            offset: *offset,
            count: part_byte_count(*part),
        }),
        Op::Store {
            size,
            base,
            offset,
            ..
        } => Some(Access {
            base: *base,
            offset: *offset,
            count: byte_count(*size),
        }),
        _ => None,
    }
}

/// Where an address is wanted.
#[derive(Clone, Copy)]
struct WantedSpans {
    record: Option<Span>,
    stack: Span,
}

impl fmt::Display for WantedSpans {
    fn fmt<W: fmt::Write>(&self, f: &mut fmt::Formatter<W>) -> fmt::Result {
        let stack = self.stack;
        match self.record {
            Some(record) => write!(f, "{record} or {stack}"),
            None => write!(f, "{stack}"),
        }
    }
}

/// Where a word is wanted that reaches so many bytes with this offset, beside a record of this
/// length.
fn wanted_at(length: Length, in_record: bool, offset: i16, count: usize) -> WantedSpans
    requires { count ≤ 8 }
{
    let offset = offset as i64;
    let count = count as i64;
    let record = Span {
        first: Bound::Record(-offset),
        last: Bound::Record(length.bytes() as i64 - count - offset),
    };
    let stack = Span {
        first: Bound::Stack(-(STACK_LENGTH as i64) - offset),
        last: Bound::Stack(-count - offset),
    };
    WantedSpans {
        record: if in_record { Some(record) } else { None },
        stack,
    }
}

/// Whether bytes of the record and bytes of the stack are among those that are reached.
fn is_over_both(length: Length, range: Range, access: Access) -> bool {
    let offset = access.offset as i128;
    let first = range.lo as i128 + offset;
    let end = range.hi as i128 + offset + access.count as i128;
    let record_end = RECORD_BASE as i128 + length.bytes() as i128;
    let stack = STACK_BASE as i128;
    first < record_end && stack < end
}

/// Writes what is known of the address that is reached and of the register that it comes from, and
/// where they are wanted: in the stack, and for a load in the record too.
pub(crate) fn write_address<W: Write>(
    length: Length,
    state: &State,
    fault: SlotFault,
    op: &Op,
    writer: &mut W,
) -> io::Result<()> {
    let Some(access) = access_of(op) else {
        return Ok(());
    };
    let Access {
        base,
        offset,
        count,
    } = access;
    let Reg::Known(range) = state.register(base) else {
        return Ok(());
    };
    let in_record = fault == SlotFault::Address && !matches!(op, Op::Store { .. });
    let distance = Signed(offset as i64);
    let reached = Reached {
        base: range,
        offset,
    };
    write!(
        writer,
        "    address [{base}{distance}], size {count}: known {reached}"
    )?;
    let region = match (is_over_both(length, range, access), in_record) {
        (false, _) => "",
        (true, true) => "all of it in one: ",
        (true, false) => "all of it in the stack: ",
    };
    if !region.is_empty() {
        write!(writer, ", as a whole in neither region")?;
    }
    let here = wanted_at(length, in_record, 0, count);
    writeln!(writer, ", wanted {region}{here}")?;
    if offset == 0 {
        return Ok(());
    }
    let known = RangeWords(range);
    let there = wanted_at(length, in_record, offset, count);
    writeln!(writer, "    {base}: known {known}, wanted {there}")
}

/// Writes which bytes of the stack a load may touch, and which of them are stored.
pub(crate) fn write_bytes<W: Write>(
    length: Length,
    state: &State,
    op: &Op,
    writer: &mut W,
) -> io::Result<()> {
    let Some(
        Access {
            base,
            offset,
            count,
        },
    ) = access_of(op)
    else {
        return Ok(());
    };
    let Reg::Known(range) = state.register(base) else {
        return Ok(());
    };
    let place = place_of_access(length.bytes(), range, offset as i32, count);
    let MemoryPlace::Stack(first) = place else {
        return Ok(());
    };
    let end = first + (range.hi - range.lo) as usize + count;
    let distance = Signed(offset as i64);
    write!(writer, "    bytes at [{base}{distance}]: known as stored ")?;
    if !write_stored(state, first, end, "", writer)? {
        write!(writer, "none")?;
    }
    let wanted = run_of(first, end);
    writeln!(writer, ", wanted {wanted}")
}
