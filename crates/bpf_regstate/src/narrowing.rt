//! What a comparison tells of the ranges of its operands.

ghost use Rattle.std.specs.Prelude.{◌≡◌, ◌==◌, ◌&&◌, ◌≤◌, true, false, IfSome};
ghost use Rattle.bpf_helpers.specs.declared.range.Range.{Range};
ghost use Rattle.bpf_regstate.specs.Shape.{IsRange};
ghost use Rattle.bpf_regstate.specs.Ranges.{is_single};
ghost use Rattle.bpf_regstate.specs.Narrowing.{both_of, narrow_at_most, narrow_below};
ghost use Rattle.bpf_regstate.specs.Narrowing.{narrow_different, narrow_equal, narrowed, narrows};
ghost use Rattle.bpf_regstate.specs.Narrowing.{swapped, without};

use bpf_decode::Condition;
use bpf_helpers::Range;

/// Both ranges, unless one of them has no word.
fn both_of(a: Range, b: Range) -> Option<(Range, Range)>
    ensures { result ≡ both_of a b }
{
    if a.lo <= a.hi && b.lo <= b.hi {
        Some((a, b))
    } else {
        None
    }
}

/// What is left where the words are equal.
fn narrow_equal(a: Range, b: Range) -> Option<(Range, Range)>
    ensures { result ≡ narrow_equal a b }
{
    let common = Range {
        lo: a.lo.max(b.lo),
        hi: a.hi.min(b.hi),
    };
    both_of(common, common)
}

/// A range without the one word of another, where that is one of its ends.
fn without(a: Range, b: Range) -> Range
    requires ordered { a.lo ≤ a.hi }
    requires more { (is_single a && is_single b && (a.lo == b.lo)) ≡ false }
    ensures { result ≡ without a b }
{
    if b.lo != b.hi {
        return a;
    }
    if a.lo == b.lo {
        return Range {
            lo: a.lo + 1,
            hi: a.hi,
        };
    }
    if a.hi == b.lo {
        return Range {
            lo: a.lo,
            hi: a.hi - 1,
        };
    }
    a
}

/// What is left where the words differ.
fn narrow_different(a: Range, b: Range) -> Option<(Range, Range)>
    requires first { a.lo ≤ a.hi }
    requires second { b.lo ≤ b.hi }
    ensures { result ≡ narrow_different a b }
{
    if a.lo == a.hi && b.lo == b.hi && a.lo == b.lo {
        return None;
    }
    both_of(without(a, b), without(b, a))
}

/// What is left where the first word is below the second.
fn narrow_below(a: Range, b: Range) -> Option<(Range, Range)>
    requires first { a.lo ≤ a.hi }
    requires second { b.lo ≤ b.hi }
    ensures { result ≡ narrow_below a b }
{
    if a.lo >= b.hi {
        return None;
    }
    let left = Range {
        lo: a.lo,
        hi: a.hi.min(b.hi - 1),
    };
    let right = Range {
        lo: b.lo.max(a.lo + 1),
        hi: b.hi,
    };
    Some((left, right))
}

/// What is left where the first word is at most the second.
fn narrow_at_most(a: Range, b: Range) -> Option<(Range, Range)>
    ensures { result ≡ narrow_at_most a b }
{
    let left = Range {
        lo: a.lo,
        hi: a.hi.min(b.hi),
    };
    let right = Range {
        lo: b.lo.max(a.lo),
        hi: b.hi,
    };
    both_of(left, right)
}

/// The same with the sides exchanged.
fn swap(ranges: Option<(Range, Range)>) -> Option<(Range, Range)>
    ensures { result ≡ swapped ranges }
{
    match ranges {
        Some((a, b)) => Some((b, a)),
        None => None,
    }
}

/// Whether a condition tells anything of ranges: the unsigned comparisons do.
pub fn narrows(condition: Condition) -> bool
    ensures { result ≡ narrows condition }
{
    match condition {
        Condition::Equal => true,
        Condition::NotEqual => true,
        Condition::Above => true,
        Condition::AtLeast => true,
        Condition::Below => true,
        Condition::AtMost => true,
        Condition::Meets => false,
        Condition::SignedAbove => false,
        Condition::SignedAtLeast => false,
        Condition::SignedBelow => false,
        Condition::SignedAtMost => false,
    }
}

/// What is left of two ranges where a condition holds.
fn narrow_holding(condition: Condition, a: Range, b: Range) -> Option<(Range, Range)>
    requires first { IsRange a }
    requires second { IsRange b }
    ensures { result ≡ narrowed condition true a b }
{
    match condition {
        Condition::Equal => narrow_equal(a, b),
        Condition::NotEqual => narrow_different(a, b),
        Condition::Above => swap(narrow_below(b, a)),
        Condition::AtLeast => swap(narrow_at_most(b, a)),
        Condition::Below => narrow_below(a, b),
        Condition::AtMost => narrow_at_most(a, b),
        Condition::Meets => Some((a, b)),
        Condition::SignedAbove => Some((a, b)),
        Condition::SignedAtLeast => Some((a, b)),
        Condition::SignedBelow => Some((a, b)),
        Condition::SignedAtMost => Some((a, b)),
    }
}

/// The condition that leaves where it holds what this one leaves where it doesn't hold.
fn opposite(condition: Condition) -> Condition
    ensures { (a b : Range) → narrowed result true a b ≡ narrowed condition false a b }
{
    match condition {
        Condition::Equal => Condition::NotEqual,
        Condition::NotEqual => Condition::Equal,
        Condition::Above => Condition::AtMost,
        Condition::AtLeast => Condition::Below,
        Condition::Below => Condition::AtLeast,
        Condition::AtMost => Condition::Above,
        Condition::Meets => Condition::Meets,
        Condition::SignedAbove => Condition::SignedAbove,
        Condition::SignedAtLeast => Condition::SignedAtLeast,
        Condition::SignedBelow => Condition::SignedBelow,
        Condition::SignedAtMost => Condition::SignedAtMost,
    }
}

/// What is left of two ranges where a condition holds, or where it doesn't; `None` where no words
/// of them lead there.
pub fn narrow(condition: Condition, taken: bool, a: Range, b: Range) -> Option<(Range, Range)>
    requires first { IsRange a }
    requires second { IsRange b }
    ensures value { result ≡ narrowed condition taken a b }
    ensures ranges { IfSome result (λ p. IsRange p.0 × IsRange p.1) }
{
    if taken {
        narrow_holding(condition, a, b)
    } else {
        narrow_holding(opposite(condition), a, b)
    }
}
