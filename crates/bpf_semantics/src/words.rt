//! Arithmetic on words, with Rust's operations.

ghost use Rattle.std.specs.Prelude.{◌≡◌, ◌<◌, ◌≤◌, ◌^◌};
ghost use Rattle.bpf_decode.specs.Words.{operation, arith_word, negated, extended, ordered, turned};
ghost use Rattle.bpf_decode.specs.Words.{comparison, holds};
ghost use Rattle.bpf_decode.specs.declared.op.Width.TheVariants.{W32, W64};

use bpf_decode::{ByteOrder, Bytes, Code, Condition, Part, Width};

/// The result of an operation on 64 bits.
#[inline(always)]
fn operate64(code: Code, a: u64, b: u64) -> u64
    ensures { result ≡ operation code W64 a b }
{
    match code {
        Code::Add => a.wrapping_add(b),
        Code::Sub => a.wrapping_sub(b),
        Code::Mul => a.wrapping_mul(b),
        Code::Div => { if b == 0 { 0 } else { a / b } }
        Code::SignedDiv => signed_div64(a, b),
        Code::Mod => { if b == 0 { a } else { a % b } }
        Code::SignedMod => signed_mod64(a, b),
        Code::Or => a | b,
        Code::And => a & b,
        Code::Xor => a ^ b,
        Code::LeftShift => a << (b % 64),
        Code::RightShift => a >> (b % 64),
        Code::ArithmeticShift => (a.cast_signed() >> (b % 64)).cast_unsigned(),
        Code::Mov => b,
    }
}

#[inline(never)]
fn signed_div64(a: u64, b: u64) -> u64
    ensures { result ≡ operation Code.SignedDiv W64 a b }
{
    if b == 0 {
        0
    } else if b == u64::MAX {
        0u64.wrapping_sub(a)
    } else {
        (a.cast_signed() / b.cast_signed()).cast_unsigned()
    }
}

#[inline(never)]
fn signed_mod64(a: u64, b: u64) -> u64
    ensures { result ≡ operation Code.SignedMod W64 a b }
{
    if b == 0 {
        a
    } else if b == u64::MAX {
        0
    } else {
        (a.cast_signed() % b.cast_signed()).cast_unsigned()
    }
}

/// Whether a condition holds of 64 bits.
fn compare64(condition: Condition, a: u64, b: u64) -> bool
    ensures { result ≡ comparison condition W64 a b }
{
    match condition {
        Condition::Equal => a == b,
        Condition::NotEqual => a != b,
        Condition::Above => b < a,
        Condition::AtLeast => b <= a,
        Condition::Below => a < b,
        Condition::AtMost => a <= b,
        Condition::Meets => a & b != 0,
        Condition::SignedAbove => b.cast_signed() < a.cast_signed(),
        Condition::SignedAtLeast => b.cast_signed() <= a.cast_signed(),
        Condition::SignedBelow => a.cast_signed() < b.cast_signed(),
        Condition::SignedAtMost => a.cast_signed() <= b.cast_signed(),
    }
}

/// The byte order operations.
pub fn order_bytes(order: ByteOrder, bytes: Bytes, a: u64) -> u64
    ensures { result ≡ ordered order bytes a }
{
    match order {
        ByteOrder::Little => match bytes {
            Bytes::Two => a % 0x1_0000,
            Bytes::Four => a % 0x1_0000_0000,
            Bytes::Eight => a,
        },
        ByteOrder::Big => turn(bytes, a),
        ByteOrder::Swap => turn(bytes, a),
    }
}

/// The low bytes, turned round.
fn turn(bytes: Bytes, a: u64) -> u64
    ensures { result ≡ turned bytes a }
{
    match bytes {
        Bytes::Two => ((a % 0x1_0000) as u16).swap_bytes() as u64,
        Bytes::Four => ((a % 0x1_0000_0000) as u32).swap_bytes() as u64,
        Bytes::Eight => a.swap_bytes(),
    }
}

/// The low part of a word, read as a signed number of 64 bits.
fn extend64(part: Part, a: u64) -> u64
    ensures { result ≡ extended W64 part a }
{
    match part {
        Part::Low8 => (((a % 0x100) as u8).cast_signed() as i64).cast_unsigned(),
        Part::Low16 => (((a % 0x1_0000) as u16).cast_signed() as i64).cast_unsigned(),
        Part::Low32 => (((a % 0x1_0000_0000) as u32).cast_signed() as i64).cast_unsigned(),
    }
}

/// The result of an operation on 32 bits.
#[inline(always)]
fn operate32(code: Code, a: u32, b: u32) -> u32
    ensures { result ≡ operation code W32 a b }
{
    match code {
        Code::Add => a.wrapping_add(b),
        Code::Sub => a.wrapping_sub(b),
        Code::Mul => a.wrapping_mul(b),
        Code::Div => { if b == 0 { 0 } else { a / b } }
        Code::SignedDiv => signed_div32(a, b),
        Code::Mod => { if b == 0 { a } else { a % b } }
        Code::SignedMod => signed_mod32(a, b),
        Code::Or => a | b,
        Code::And => a & b,
        Code::Xor => a ^ b,
        Code::LeftShift => a << (b % 32),
        Code::RightShift => a >> (b % 32),
        Code::ArithmeticShift => (a.cast_signed() >> (b % 32)).cast_unsigned(),
        Code::Mov => b,
    }
}

#[inline(never)]
fn signed_div32(a: u32, b: u32) -> u32
    ensures { result ≡ operation Code.SignedDiv W32 a b }
{
    if b == 0 {
        0
    } else if b == u32::MAX {
        0u32.wrapping_sub(a)
    } else {
        (a.cast_signed() / b.cast_signed()).cast_unsigned()
    }
}

#[inline(never)]
fn signed_mod32(a: u32, b: u32) -> u32
    ensures { result ≡ operation Code.SignedMod W32 a b }
{
    if b == 0 {
        a
    } else if b == u32::MAX {
        0
    } else {
        (a.cast_signed() % b.cast_signed()).cast_unsigned()
    }
}

/// The result of an operation on two words.
#[inline(always)]
pub fn operate(code: Code, width: Width, a: u64, b: u64) -> u64
    ensures value { result ≡ arith_word code width a b }
{
    match width {
        Width::W64 => operate64(code, a, b),
        Width::W32 => operate32(
            code,
            (a % 0x1_0000_0000) as u32,
            (b % 0x1_0000_0000) as u32,
        ) as u64,
    }
}

/// The low part of a word, read as a signed number of 32 bits.
fn extend32(part: Part, a: u64) -> u32
    ensures { result ≡ extended W32 part a }
{
    match part {
        Part::Low8 => (((a % 0x100) as u8).cast_signed() as i32).cast_unsigned(),
        Part::Low16 => (((a % 0x1_0000) as u16).cast_signed() as i32).cast_unsigned(),
        Part::Low32 => (a % 0x1_0000_0000) as u32,
    }
}

/// The low part of a word, read as a signed number of the width.
pub fn extend(width: Width, part: Part, a: u64) -> u64
    ensures { result ≡ extended width part a }
{
    match width {
        Width::W64 => extend64(part, a),
        Width::W32 => extend32(part, a) as u64,
    }
}

/// The negation of a word, modulo 2 to the width.
pub fn negate(width: Width, a: u64) -> u64
    ensures { result ≡ negated width a }
{
    match width {
        Width::W64 => 0u64.wrapping_sub(a),
        Width::W32 => 0u32.wrapping_sub((a % 0x1_0000_0000) as u32) as u64,
    }
}

/// Whether a condition holds of 32 bits.
fn compare32(condition: Condition, a: u32, b: u32) -> bool
    ensures { result ≡ comparison condition W32 a b }
{
    match condition {
        Condition::Equal => a == b,
        Condition::NotEqual => a != b,
        Condition::Above => b < a,
        Condition::AtLeast => b <= a,
        Condition::Below => a < b,
        Condition::AtMost => a <= b,
        Condition::Meets => a & b != 0,
        Condition::SignedAbove => b.cast_signed() < a.cast_signed(),
        Condition::SignedAtLeast => b.cast_signed() <= a.cast_signed(),
        Condition::SignedBelow => a.cast_signed() < b.cast_signed(),
        Condition::SignedAtMost => a.cast_signed() <= b.cast_signed(),
    }
}

/// Whether a condition holds of two words.
pub fn compare(condition: Condition, width: Width, a: u64, b: u64) -> bool
    ensures { result ≡ holds condition width a b }
{
    match width {
        Width::W64 => compare64(condition, a, b),
        Width::W32 => compare32(
            condition,
            (a % 0x1_0000_0000) as u32,
            (b % 0x1_0000_0000) as u32,
        ),
    }
}
