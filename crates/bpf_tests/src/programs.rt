//! The bytes of programs, and what the tests of several crates assert.

use bpf_decode::{Program, decode, encode};
use std::alloc::Global;
use std::fmt::Display;
use std::process::Abort;

/// The exit.
pub(crate) const EXIT: [u8; 8] = [0x95, 0, 0, 0, 0, 0, 0, 0];

/// A slot: opcode, both registers, offset and immediate.
pub(crate) fn slot(opcode: u8, registers: u8, offset: i16, immediate: i32) -> [u8; 8] {
    let [o0, o1] = offset.to_le_bytes();
    let [i0, i1, i2, i3] = immediate.to_le_bytes();
    [opcode, registers, o0, o1, i0, i1, i2, i3]
}

/// The two slots of a wide load.
pub(crate) fn wide(register: u8, value: u64) -> [u8; 16] {
    let [b0, b1, b2, b3, b4, b5, b6, b7] = value.to_le_bytes();
    [
        0x18, register, 0, 0, b0, b1, b2, b3, 0, 0, 0, 0, b4, b5, b6, b7,
    ]
}

/// These bytes, one after the other.
pub(crate) fn joined(rt: &impl Abort, alloc: Global, parts: &[&[u8]]) -> Vec<u8> {
    let mut bytes = Vec::new(alloc);
    for part in parts {
        bytes.extend_from_slice(part).expect(rt, "bytes");
    }
    bytes
}

/// A slot so many times.
pub(crate) fn repeated(rt: &impl Abort, alloc: Global, slot: &[u8; 8], times: u16) -> Vec<u8> {
    let mut bytes = Vec::new(alloc);
    for _ in 0..times {
        bytes.extend_from_slice(slot).expect(rt, "bytes");
    }
    bytes
}

/// A slot so many times, and an exit.
pub(crate) fn exited(rt: &impl Abort, alloc: Global, slot: &[u8; 8], times: u16) -> Vec<u8> {
    let mut bytes = repeated(rt, alloc, slot, times);
    bytes.extend_from_slice(&EXIT).expect(rt, "bytes");
    bytes
}

/// The bytes of these digits.
pub(crate) fn bytes_of(rt: &impl Abort, alloc: Global, text: &str) -> Vec<u8> {
    hex::decode(alloc, text).expect(rt, "bytes")
}

/// The program of these bytes.
pub(crate) fn program_of(rt: &impl Abort, alloc: Global, bytes: &[u8]) -> Program {
    decode(alloc, bytes).expect(rt, "a program")
}

/// There are so many.
pub(crate) fn same_count(rt: &impl Abort, found: usize, wanted: usize, text: &str) {
    assert_eq!(rt; found, wanted, "{text}");
}

/// A text is this one.
pub(crate) fn same_text(rt: &impl Abort, found: &str, wanted: &str) {
    assert_eq!(rt; found, wanted);
}

/// The program has these bytes.
pub(crate) fn encodes_to(
    rt: &impl Abort,
    alloc: Global,
    program: &Program,
    bytes: &[u8],
    text: &str,
) {
    let again = encode(alloc, program).expect(rt, "an encoded program");
    assert!(rt; again.as_slice() == bytes, "{text}");
}

/// A fault has this number and this slot.
pub(crate) fn is_fault(
    rt: &impl Abort,
    came: Option<(u16, usize)>,
    code: u16,
    slot: usize,
    text: &str,
) {
    let (came_code, came_slot) = came.expect(rt, text);
    assert!(rt;
        came_code == code && came_slot == slot,
        "{came_code} {came_slot}: {text}"
    );
}

/// A value is shown by this text.
pub(crate) fn is_shown<T: Display>(rt: &impl Abort, alloc: Global, value: &T, text: &str) {
    let shown = format!(in alloc; "{value}").expect(rt, "a text");
    same_text(rt, shown.as_str(), text);
}

/// The value of a hexadecimal digit.
fn digit(byte: u8) -> u64 {
    if byte < b'a' {
        byte.saturating_sub(b'0') as u64
    } else {
        byte.saturating_sub(b'a' - 10) as u64
    }
}

/// The number of these hexadecimal digits.
fn number(text: &str) -> u64 {
    let mut number = 0u64;
    for byte in text.as_bytes() {
        number = number << 4 | digit(*byte);
    }
    number
}

/// Adds a slot, of whose digits the zeros at the end may be left out.
pub(crate) fn add_slot(rt: &impl Abort, program: &mut Vec<u8>, text: &str) {
    let missing = 16usize.saturating_sub(text.len()) as u32;
    let slot = number(text).wrapping_shl(missing.saturating_mul(4));
    program
        .extend_from_slice(&slot.to_be_bytes())
        .expect(rt, text);
}
