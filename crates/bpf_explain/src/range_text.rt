//! Ranges as text: numbers, addresses and times.

use bpf_helpers::Range;
use bpf_semantics::{RECORD_BASE, STACK_BASE, STACK_LENGTH};
use jiff::Timestamp;
use std::fmt;

/// How far from the stack an address is still told by its distance.
const NEAR: u64 = 0x8000_0000;

/// The least word that is below 0 as a number of 64 bits with a sign.
const LEAST_NEGATIVE: u64 = 0x8000_0000_0000_0000;

/// The minute of 2000-01-01T00:00Z, and that of 2100-01-01T00:00Z.
const YEAR_2000: u64 = 15_778_080;

const YEAR_2100: u64 = 68_374_080;

/// A number with its sign.
#[derive(Clone, Copy)]
pub(crate) struct Signed(pub i64);

impl fmt::Display for Signed {
    fn fmt<W: fmt::Write>(&self, f: &mut fmt::Formatter<W>) -> fmt::Result {
        let number = self.0;
        if number < 0 {
            write!(f, "{number}")
        } else {
            write!(f, "+{number}")
        }
    }
}

/// A number, or an address by the region that it is told from.
#[derive(Clone, Copy, PartialEq, Eq)]
pub(crate) enum Bound {
    Number(i128),
    /// So many bytes behind the first address of the record.
    Record(i64),
    /// So many bytes behind the end of the stack, so before it where it is negative.
    Stack(i64),
}

impl fmt::Display for Bound {
    fn fmt<W: fmt::Write>(&self, f: &mut fmt::Formatter<W>) -> fmt::Result {
        match *self {
            Bound::Number(number) => write!(f, "{number}"),
            Bound::Record(distance) => {
                let distance = Signed(distance);
                write!(f, "record{distance}")
            }
            Bound::Stack(distance) => {
                let distance = Signed(distance);
                write!(f, "stack{distance}")
            }
        }
    }
}

impl Bound {
    /// So many bytes further on.
    fn moved(self, offset: i16) -> Bound {
        match self {
            Bound::Number(number) => Bound::Number(number.wrapping_add(offset as i128)),
            Bound::Record(distance) => Bound::Record(distance.wrapping_add(offset as i64)),
            Bound::Stack(distance) => Bound::Stack(distance.wrapping_add(offset as i64)),
        }
    }
}

/// From the first to the last.
#[derive(Clone, Copy)]
pub(crate) struct Span {
    pub first: Bound,
    pub last: Bound,
}

impl fmt::Display for Span {
    fn fmt<W: fmt::Write>(&self, f: &mut fmt::Formatter<W>) -> fmt::Result {
        let first = self.first;
        let last = self.last;
        if first == last {
            write!(f, "{first}")
        } else {
            write!(f, "{first} to {last}")
        }
    }
}

/// The place of a byte of the stack, of which the first is 0, or of the byte behind the last.
pub(crate) fn in_stack(place: usize) -> Bound {
    let place = place as u64;
    Bound::Stack(place.wrapping_sub(STACK_LENGTH as u64).cast_signed())
}

fn from_record(address: u64) -> Bound {
    Bound::Record(address.wrapping_sub(RECORD_BASE).cast_signed())
}

fn from_stack(address: u64) -> Bound {
    let end = STACK_BASE + STACK_LENGTH as u64;
    Bound::Stack(address.wrapping_sub(end).cast_signed())
}

/// A word as a number, with the sign of 64 bits where it has one.
fn number(word: u64, is_signed: bool) -> Bound {
    if is_signed {
        Bound::Number(word.cast_signed() as i128)
    } else {
        Bound::Number(word as i128)
    }
}

/// A range of which both ends are addresses is told by them, one that lies below 0 in 64 bits with
/// its sign, and any other by its numbers.
fn span_of(range: Range) -> Span {
    let Range { lo, hi } = range;
    if lo < RECORD_BASE || hi >= STACK_BASE + NEAR {
        let is_signed = lo >= LEAST_NEGATIVE;
        Span {
            first: number(lo, is_signed),
            last: number(hi, is_signed),
        }
    } else if lo >= STACK_BASE - NEAR {
        Span {
            first: from_stack(lo),
            last: from_stack(hi),
        }
    } else if hi >= STACK_BASE {
        Span {
            first: from_record(lo),
            last: from_stack(hi),
        }
    } else {
        Span {
            first: from_record(lo),
            last: from_record(hi),
        }
    }
}

/// Whether it has every word.
fn is_full(range: Range) -> bool {
    range.lo == 0 && range.hi == u64::MAX
}

/// The addresses that a register of this range reaches with an offset.
#[derive(Clone, Copy)]
pub(crate) struct Reached {
    pub base: Range,
    pub offset: i16,
}

impl fmt::Display for Reached {
    fn fmt<W: fmt::Write>(&self, f: &mut fmt::Formatter<W>) -> fmt::Result {
        if is_full(self.base) {
            return write!(f, "any number");
        }
        let span = span_of(self.base);
        let reached = Span {
            first: span.first.moved(self.offset),
            last: span.last.moved(self.offset),
        };
        write!(f, "{reached}")
    }
}

/// A minute since 1970-01-01T00:00Z as an instant.
#[derive(Clone, Copy, PartialEq, Eq)]
struct Minute(u64);

impl Minute {
    fn instant(self) -> Option<Timestamp> {
        let Minute(minutes) = self;
        let minutes = i64::try_from(minutes).ok()?;
        let seconds = minutes.checked_mul(60)?;
        Timestamp::from_second(seconds).ok()
    }
}

impl fmt::Display for Minute {
    fn fmt<W: fmt::Write>(&self, f: &mut fmt::Formatter<W>) -> fmt::Result {
        match self.instant() {
            Some(instant) => write!(f, "{instant}"),
            None => write!(f, "no time"),
        }
    }
}

/// The words of a range. Where all of them are minutes of the years 2000 to 2099, they are also
/// told as times.
#[derive(Clone, Copy)]
pub(crate) struct RangeWords(pub Range);

impl fmt::Display for RangeWords {
    fn fmt<W: fmt::Write>(&self, f: &mut fmt::Formatter<W>) -> fmt::Result {
        let range = self.0;
        if is_full(range) {
            return write!(f, "any number");
        }
        let span = span_of(range);
        if range.lo < YEAR_2000 || YEAR_2100 <= range.hi {
            return write!(f, "{span}");
        }
        let first = Minute(range.lo);
        let last = Minute(range.hi);
        if first == last {
            write!(f, "{span} ({first})")
        } else {
            write!(f, "{span} ({first} to {last})")
        }
    }
}
