//! Ranges of the results of operations with one operand.

ghost use Rattle.std.specs.Prelude.{◌≡◌, ◌-◌, ◌*◌, ◌^◌};
ghost use Rattle.bpf_regstate.specs.Effect.{extend_range, negate_range, order_range, order_result};
ghost use Rattle.bpf_regstate.specs.Shape.{IsRange};
ghost use Rattle.bpf_decode.specs.Words.{count_of, part_bits};

use crate::arith::{all_of, reduce};
use bpf_decode::{ByteOrder, Bytes, Part, Width};
use bpf_helpers::Range;
use bpf_semantics::{extend, negate, order_bytes};

/// The range that has this word alone.
pub fn single(word: u64) -> Range
    ensures value { result ≡ record { lo = word; hi = word } }
    ensures range { IsRange result }
{
    Range { lo: word, hi: word }
}

/// The range of the negations of the words of a range.
pub fn negate_words(width: Width, a: Range) -> Range
    requires { IsRange a }
    ensures value { result ≡ negate_range width a }
    ensures range { IsRange result }
{
    if a.lo == a.hi {
        single(negate(width, a.lo))
    } else {
        all_of(width)
    }
}

/// The greatest number of a part that has no sign.
fn greatest(part: Part) -> u64
    ensures { result ≡ 2 ^ (part_bits part - 1) - 1 }
{
    match part {
        Part::Low8 => 0x7f,
        Part::Low16 => 0x7fff,
        Part::Low32 => 0x7fff_ffff,
    }
}

/// The range of the sign-extended parts of the words of a range.
pub fn extend_words(width: Width, part: Part, b: Range) -> Range
    requires { IsRange b }
    ensures value { result ≡ extend_range width part b }
    ensures range { IsRange result }
{
    if b.lo == b.hi {
        return single(extend(width, part, b.lo));
    }
    let reduced = reduce(width, b);
    if reduced.hi <= greatest(part) {
        reduced
    } else {
        all_of(width)
    }
}

/// The greatest number of so many bytes.
fn greatest_of(bytes: Bytes) -> u64
    ensures { result ≡ 2 ^ (8 * count_of bytes) - 1 }
{
    match bytes {
        Bytes::Two => 0xffff,
        Bytes::Four => 0xffff_ffff,
        Bytes::Eight => u64::MAX,
    }
}

/// The range of the words of a range with their bytes in another order.
pub fn order_words(order: ByteOrder, bytes: Bytes, a: Range) -> Range
    requires { IsRange a }
    ensures value { result ≡ order_result order bytes a }
    ensures range { IsRange result }
{
    if a.lo == a.hi {
        return single(order_bytes(order, bytes, a.lo));
    }
    let all = Range {
        lo: 0,
        hi: greatest_of(bytes),
    };
    match order {
        ByteOrder::Little => { if a.hi <= all.hi { a } else { all } }
        ByteOrder::Big => all,
        ByteOrder::Swap => all,
    }
}
