//! Ranges of the results of arithmetic.

ghost use Rattle.std.specs.Prelude.{◌≡◌, ◌<◌, ◌≤◌, ◌^◌, pos};
ghost use Rattle.bpf_regstate.specs.Effect.{arith_result};
ghost use Rattle.bpf_regstate.specs.Shape.{IsRange};
ghost use Rattle.bpf_regstate.specs.Ranges.{arith_range, ranged, full, reduced, wrapped, filled};
ghost use Rattle.bpf_regstate.specs.Ranges.{modulus};
ghost use Rattle.bpf_decode.specs.declared.op.Code.TheVariants.{Sub, Mul, Div, Mod, LeftShift};
ghost use Rattle.bpf_decode.specs.declared.op.Code.TheVariants.{RightShift};
ghost use Rattle.bpf_decode.specs.Words.{bits_of};
ghost use Rattle.bpf_decode.specs.declared.op.Width.TheVariants.{W32, W64};

use crate::single::single;
use bpf_decode::{Code, Width};
use bpf_helpers::Range;
use bpf_semantics::operate;

/// Every word of the width.
pub fn all_of(width: Width) -> Range
    ensures { result ≡ full width }
{
    match width {
        Width::W32 => Range {
            lo: 0,
            hi: 0xffff_ffff,
        },
        Width::W64 => Range {
            lo: 0,
            hi: u64::MAX,
        },
    }
}

/// The range of the low halves of words where the width is 32, and the range itself where it is 64.
pub fn reduce(width: Width, range: Range) -> Range
    requires { range.lo ≤ range.hi }
    ensures value { result ≡ reduced width range }
    ensures ordered { result.lo ≤ result.hi }
    ensures width { result.hi < modulus width }
{
    match width {
        Width::W64 => range,
        Width::W32 => {
            if range.lo >> 32 == range.hi >> 32 {
                Range {
                    lo: range.lo & 0xffff_ffff,
                    hi: range.hi & 0xffff_ffff,
                }
            } else {
                all_of(Width::W32)
            }
        }
    }
}

/// The numbers from one to another, modulo the width, where they have one quotient.
fn wrap(width: Width, lo: u128, hi: u128) -> Range
    ensures { result ≡ wrapped width (pos lo) (pos hi) }
{
    match width {
        Width::W32 => {
            if lo >> 32 == hi >> 32 {
                Range {
                    lo: (lo % 0x1_0000_0000) as u64,
                    hi: (hi % 0x1_0000_0000) as u64,
                }
            } else {
                all_of(width)
            }
        }
        Width::W64 => {
            if lo >> 64 == hi >> 64 {
                Range {
                    lo: (lo % 0x1_0000_0000_0000_0000) as u64,
                    hi: (hi % 0x1_0000_0000_0000_0000) as u64,
                }
            } else {
                all_of(width)
            }
        }
    }
}

/// How many words the width has.
fn size_of_width(width: Width) -> u128
    ensures { result ≡ modulus width }
{
    match width {
        Width::W32 => 0x1_0000_0000,
        Width::W64 => 0x1_0000_0000_0000_0000,
    }
}

/// How many bits the width has.
fn bits(width: Width) -> u64
    ensures value { result ≡ bits_of width }
    ensures positive { 0 < result }
    ensures bound { result ≤ 64 }
{
    match width {
        Width::W32 => 32,
        Width::W64 => 64,
    }
}

/// The least number of ones in a row that is not below a number.
fn fill(n: u64) -> u64
    ensures { result ≡ filled n }
{
    let zeros = n.leading_zeros();
    if zeros == 64 { 0 } else { u64::MAX >> zeros }
}

/// The range of a difference. The size of the width is added to both ends, so that none is below 0.
fn subtract(width: Width, a: Range, b: Range) -> Range
    requires ordered { b.lo ≤ b.hi }
    requires width { b.hi < modulus width }
    ensures { result ≡ ranged Sub width a b }
{
    let size = size_of_width(width);
    wrap(
        width,
        a.lo as u128 + (size - b.hi as u128),
        a.hi as u128 + (size - b.lo as u128),
    )
}

/// The range of a product.
fn multiply(width: Width, a: Range, b: Range) -> Range
    requires first { a.lo ≤ a.hi }
    requires second { b.lo ≤ b.hi }
    ensures { result ≡ ranged Mul width a b }
{
    let most = a.hi as u128 * b.hi as u128;
    if most < size_of_width(width) {
        Range {
            lo: (a.lo as u128 * b.lo as u128) as u64,
            hi: most as u64,
        }
    } else {
        all_of(width)
    }
}

/// The range of a quotient.
fn divide(width: Width, a: Range, b: Range) -> Range
    requires { b.lo ≤ b.hi }
    ensures { result ≡ ranged Div width a b }
{
    if b.lo >= 1 {
        Range {
            lo: a.lo / b.hi,
            hi: a.hi / b.lo,
        }
    } else {
        Range { lo: 0, hi: a.hi }
    }
}

/// The range of a remainder.
fn remainder(width: Width, a: Range, b: Range) -> Range
    requires { b.lo ≤ b.hi }
    ensures { result ≡ ranged Mod width a b }
{
    if b.lo >= 1 {
        if a.hi < b.lo {
            a
        } else {
            Range {
                lo: 0,
                hi: a.hi.min(b.hi - 1),
            }
        }
    } else {
        Range { lo: 0, hi: a.hi }
    }
}

/// The range after a shift to the left.
fn shift_left(width: Width, a: Range, b: Range) -> Range
    requires { a.lo ≤ a.hi }
    ensures { result ≡ ranged LeftShift width a b }
{
    if b.lo == b.hi {
        let count = b.lo % bits(width);
        let high = (a.hi as u128) << count;
        if high < size_of_width(width) {
            return Range {
                lo: ((a.lo as u128) << count) as u64,
                hi: high as u64,
            };
        }
    }
    all_of(width)
}

/// The range after a shift to the right.
fn shift_right(width: Width, a: Range, b: Range) -> Range
    ensures { result ≡ ranged RightShift width a b }
{
    if b.lo == b.hi {
        let count = b.lo % bits(width);
        Range {
            lo: a.lo >> count,
            hi: a.hi >> count,
        }
    } else {
        Range { lo: 0, hi: a.hi }
    }
}

/// The range of the results of an operation on words of the width, by the operation alone.
#[inline(always)]
fn results_of_ranges(code: Code, width: Width, a: Range, b: Range) -> Range
    requires first { a.lo ≤ a.hi }
    requires second { b.lo ≤ b.hi }
    requires width { b.hi < modulus width }
    ensures { result ≡ ranged code width a b }
{
    match code {
        Code::Add => wrap(
            width,
            a.lo as u128 + b.lo as u128,
            a.hi as u128 + b.hi as u128,
        ),
        Code::Sub => subtract(width, a, b),
        Code::Mul => multiply(width, a, b),
        Code::Div => divide(width, a, b),
        Code::Mod => remainder(width, a, b),
        Code::And => Range {
            lo: 0,
            hi: a.hi.min(b.hi),
        },
        Code::Or => Range {
            lo: a.lo.max(b.lo),
            hi: fill(a.hi.max(b.hi)),
        },
        Code::Xor => Range {
            lo: 0,
            hi: fill(a.hi.max(b.hi)),
        },
        Code::LeftShift => shift_left(width, a, b),
        Code::RightShift => shift_right(width, a, b),
        Code::Mov => b,
        Code::SignedDiv => all_of(width),
        Code::SignedMod => all_of(width),
        Code::ArithmeticShift => all_of(width),
    }
}

/// The range of the results of an operation on whole words.
#[inline(always)]
fn results(code: Code, width: Width, a: Range, b: Range) -> Range
    requires first { a.lo ≤ a.hi }
    requires second { b.lo ≤ b.hi }
    ensures { result ≡ arith_range code width a b }
{
    if a.lo == a.hi && b.lo == b.hi {
        return single(operate(code, width, a.lo, b.lo));
    }
    results_of_ranges(code, width, reduce(width, a), reduce(width, b))
}

/// The range of the results of an operation on the words of a destination and an operand; MOV reads
/// the operand alone.
#[inline(always)]
pub fn operate_on_ranges(code: Code, width: Width, a: Range, b: Range) -> Range
    requires first { IsRange a }
    requires second { IsRange b }
    ensures value { result ≡ arith_result code width a b }
    ensures range { IsRange result }
{
    if code == Code::Mov {
        return results(code, width, b, b);
    }
    results(code, width, a, b)
}
