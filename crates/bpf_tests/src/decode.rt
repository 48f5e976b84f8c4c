//! Worked rows of the encoding and of the listing.

use crate::programs::{
    EXIT, bytes_of, encodes_to, is_fault, is_shown, program_of, repeated, same_count,
};
use bpf_decode::{DecodeError, EncodingFault, Program, decode, line};
use std::alloc::Global;
use std::process::Abort;

/// The program has these lines.
fn has_lines(rt: &impl Abort, alloc: Global, program: &Program, text: &str, lines: &[&str]) {
    same_count(rt, program.slot_count(), lines.len(), text);
    for (slot, line) in lines.iter().enumerate() {
        has_line(rt, alloc, program, slot, line);
    }
}

/// The slot has this line.
fn has_line(rt: &impl Abort, alloc: Global, program: &Program, slot: usize, text: &str) {
    assert!(rt; slot < program.slot_count());
    let mut out = Vec::new(alloc);
    line(program, slot, &mut out).expect(rt, text);
    assert!(rt; out.as_slice() == text.as_bytes(), "{text}");
}

/// The bytes are a program with these lines, which encodes to them again.
fn lists(rt: &impl Abort, alloc: Global, text: &str, lines: &[&str]) {
    let bytes = bytes_of(rt, alloc, text);
    let program = program_of(rt, alloc, bytes.as_slice());
    encodes_to(rt, alloc, &program, bytes.as_slice(), text);
    has_lines(rt, alloc, &program, text, lines);
    drop(program);
}

/// The bytes are programs with these lines.
fn list(rt: &impl Abort, alloc: Global, rows: &[(&str, &[&str])]) {
    for row in rows {
        let (text, lines) = *row;
        lists(rt, alloc, text, lines);
    }
}

/// The number and the slot of the fault of these bytes, if they are no program.
fn refusal(alloc: Global, bytes: &[u8]) -> Option<(u16, usize)> {
    match decode(alloc, bytes) {
        Ok(_) => None,
        Err(error) => Some((error.code(), error.slot())),
    }
}

/// Operations, each with its line.
static ARITHMETIC: [(&str, &[&str]); 25] = [
    ("0701000005000000", &["0: add64 r1, 5"]),
    ("0c21000000000000", &["0: add32 r1, r2"]),
    ("1701000005000000", &["0: sub64 r1, 5"]),
    ("2f21000000000000", &["0: mul64 r1, r2"]),
    ("3401000003000000", &["0: div32 r1, 3"]),
    ("3f21010000000000", &["0: sdiv64 r1, r2"]),
    ("3401010003000000", &["0: sdiv32 r1, 3"]),
    ("4f21000000000000", &["0: or64 r1, r2"]),
    ("57010000ff010000", &["0: and64 r1, 511"]),
    ("67010000ffffffff", &["0: lsh64 r1, -1"]),
    ("7c21000000000000", &["0: rsh32 r1, r2"]),
    ("8700000000000000", &["0: neg64 r0"]),
    ("8405000000000000", &["0: neg32 r5"]),
    ("9c20000000000000", &["0: mod32 r0, r2"]),
    ("9700010000000000", &["0: smod64 r0, 0"]),
    ("af21000000000000", &["0: xor64 r1, r2"]),
    ("b700000000000080", &["0: mov64 r0, -2147483648"]),
    ("bfa1000000000000", &["0: mov64 r1, r10"]),
    ("c701000003000000", &["0: arsh64 r1, 3"]),
    ("bf21080000000000", &["0: movsx8_64 r1, r2"]),
    ("bc21100000000000", &["0: movsx16_32 r1, r2"]),
    ("bf21200000000000", &["0: movsx32_64 r1, r2"]),
    ("d401000010000000", &["0: le16 r1"]),
    ("dc01000020000000", &["0: be32 r1"]),
    ("d700000040000000", &["0: swap64 r0"]),
];

#[test]
fn arithmetic(rt: HostRuntime) {
    list(&rt, rt.alloc(), &ARITHMETIC);
}

/// Jumps, calls and the exit, each with its line.
static JUMPS_AND_CALLS: [(&str, &[&str]); 19] = [
    ("0500030000000000", &["0: ja +3"]),
    ("0500ffff00000000", &["0: ja -1"]),
    ("0600000003000000", &["0: ja32 +3"]),
    ("0600000000000080", &["0: ja32 -2147483648"]),
    ("1501020005000000", &["0: jeq r1, 5, +2"]),
    ("1e21ffff00000000", &["0: jeq32 r1, r2, -1"]),
    ("250503007c000000", &["0: jgt r5, 124, +3"]),
    ("3d21000000000000", &["0: jge r1, r2, +0"]),
    ("4501010008000000", &["0: jset r1, 8, +1"]),
    ("5502010080000000", &["0: jne r2, 128, +1"]),
    ("66010100ffffffff", &["0: jsgt32 r1, -1, +1"]),
    ("7d21008000000000", &["0: jsge r1, r2, -32768"]),
    ("a501ff7f01000000", &["0: jlt r1, 1, +32767"]),
    ("be21010000000000", &["0: jle32 r1, r2, +1"]),
    ("c501010001000000", &["0: jslt r1, 1, +1"]),
    ("dd21010000000000", &["0: jsle r1, r2, +1"]),
    ("8500000002000000", &["0: call 2"]),
    ("85000000ffffffff", &["0: call 4294967295"]),
    ("9500000000000000", &["0: exit"]),
];

#[test]
fn jumps_and_calls(rt: HostRuntime) {
    list(&rt, rt.alloc(), &JUMPS_AND_CALLS);
}

/// Loads and stores, each with its line.
static MEMORY: [(&str, &[&str]); 15] = [
    ("61107c0000000000", &["0: ldxw r0, [r1+124]"]),
    ("69113c0000000000", &["0: ldxh r1, [r1+60]"]),
    ("71153f0000000000", &["0: ldxb r5, [r1+63]"]),
    ("79a0f8ff00000000", &["0: ldxdw r0, [r10-8]"]),
    ("8110000000000000", &["0: ldxsw r0, [r1+0]"]),
    ("8910020000000000", &["0: ldxsh r0, [r1+2]"]),
    ("9110ffff00000000", &["0: ldxsb r0, [r1-1]"]),
    ("620af8ff05000000", &["0: stw [r10-8], 5"]),
    ("6a0afeffffffffff", &["0: sth [r10-2], -1"]),
    ("720affff05000000", &["0: stb [r10-1], 5"]),
    ("7a0a000000000000", &["0: stdw [r10+0], 0"]),
    ("631afcff00000000", &["0: stxw [r10-4], r1"]),
    ("6b1afeff00000000", &["0: stxh [r10-2], r1"]),
    ("731affff00000000", &["0: stxb [r10-1], r1"]),
    ("7b1af8ff00000000", &["0: stxdw [r10-8], r1"]),
];

#[test]
fn memory(rt: HostRuntime) {
    list(&rt, rt.alloc(), &MEMORY);
}

/// Programs of several slots, with their lines.
static PROGRAMS: [(&str, &[&str]); 4] = [
    (
        "b7000000000000009500000000000000",
        &["0: mov64 r0, 0", "1: exit"],
    ),
    (
        "18010000010000000000000002000000",
        &["0: lddw r1, 0x0000000200000001", "1: -"],
    ),
    (
        "1800000000000000000000000000008037000100ffffffff9500000000000000",
        &[
            "0: lddw r0, 0x8000000000000000",
            "1: -",
            "2: sdiv64 r0, -1",
            "3: exit",
        ],
    ),
    (
        "71153f0000000000250503007c0000000f510000000000007110000000000000\
         9500000000000000b7000000000000009500000000000000",
        &[
            "0: ldxb r5, [r1+63]",
            "1: jgt r5, 124, +3",
            "2: add64 r1, r5",
            "3: ldxb r0, [r1+0]",
            "4: exit",
            "5: mov64 r0, 0",
            "6: exit",
        ],
    ),
];

#[test]
fn programs(rt: HostRuntime) {
    list(&rt, rt.alloc(), &PROGRAMS);
}

/// Bytes that are no program, each with the number and the slot of its fault.
static FAULTS: [(&str, u16, usize); 18] = [
    ("", 301, 0),
    ("950000000000000095000000", 301, 0),
    ("ff00000000000000", 303, 0),
    ("9500010000000000", 304, 0),
    ("b70b000000000000", 305, 0),
    ("18000000010000000100000000000000", 304, 1),
    ("1800000001000000", 315, 0),
    // A cut wide load with a field or a register at fault has the lesser number.
    ("1810000001000000", 304, 0),
    ("180b000001000000", 305, 0),
    // A source of 11 where the row has none is a field at fault.
    ("b7b0000000000000", 304, 0),
    ("0fb1000000000000", 305, 0),
    ("bc21200000000000", 304, 0),
    ("d401000018000000", 304, 0),
    ("8c00000000000000", 303, 0),
    ("0000000000000000", 303, 0),
    // The first faulty slot decides, then its least number.
    ("9500000000000000b70b000000000000ff00000000000000", 305, 1),
    ("ff0b010000000000", 303, 0),
    ("b70b010000000000", 304, 0),
];

/// The bytes are no program, by this number at this slot.
fn refuses(rt: &impl Abort, alloc: Global, text: &str, code: u16, slot: usize) {
    let bytes = bytes_of(rt, alloc, text);
    is_fault(rt, refusal(alloc, bytes.as_slice()), code, slot, text);
}

#[test]
fn faults(rt: HostRuntime) {
    for row in &FAULTS {
        let (text, code, slot) = *row;
        refuses(&rt, rt.alloc(), text, code, slot);
    }
}

/// So many exits are a program, which is encoded and copied.
fn has_length(rt: &impl Abort, alloc: Global, bytes: &[u8], slots: u16) {
    let program = program_of(rt, alloc, bytes);
    same_count(rt, program.slot_count(), slots as usize, "exits");
    encodes_to(rt, alloc, &program, bytes, "exits");
    let copy = program.copy().expect(rt, "a copy");
    same_count(rt, copy.slot_count(), slots as usize, "a copy");
    drop(copy);
    drop(program);
}

/// So many exits are a program; with one more opcode of 255 they are none, by its last slot.
fn is_as_long(rt: &impl Abort, alloc: Global, slots: u16) {
    let mut bytes = repeated(rt, alloc, &EXIT, slots);
    has_length(rt, alloc, bytes.as_slice(), slots);
    bytes
        .extend_from_slice(&[0xff, 0, 0, 0, 0, 0, 0, 0])
        .expect(rt, "bytes");
    let (code, slot) = if slots < 4096 {
        (303, slots as usize)
    } else {
        (302, 0)
    };
    is_fault(rt, refusal(alloc, bytes.as_slice()), code, slot, "exits");
}

static LENGTHS: [u16; 12] = [1, 2, 3, 7, 64, 255, 256, 257, 1_000, 2_048, 4_095, 4_096];

#[test]
fn lengths(rt: HostRuntime) {
    for slots in &LENGTHS {
        is_as_long(&rt, rt.alloc(), *slots);
    }
}

/// The text of a fault, and of its refusal at slot 2.
fn has_text(rt: &impl Abort, alloc: Global, fault: EncodingFault, text: &str) {
    is_shown(rt, alloc, &fault, text);
    let refused = DecodeError::Refused { fault, slot: 2 };
    let whole = format!(in alloc; "slot 2: {text}").expect(rt, text);
    is_shown(rt, alloc, &refused, whole.as_str());
}

/// Each fault with its text.
static TEXTS: [(EncodingFault, &str); 6] = [
    (EncodingFault::Length, "no whole slots of 8 bytes"),
    (EncodingFault::TooLong, "more than 4096 slots"),
    (EncodingFault::Opcode, "unknown opcode"),
    (
        EncodingFault::Field,
        "field value that the opcode does not allow",
    ),
    (EncodingFault::Register, "register over 10"),
    (EncodingFault::CutWide, "wide load without its second slot"),
];

#[test]
fn errors_have_texts(rt: HostRuntime) {
    for row in &TEXTS {
        let (fault, text) = *row;
        has_text(&rt, rt.alloc(), fault, text);
    }
    is_shown(&rt, rt.alloc(), &DecodeError::Memory, "no memory");
}

/// The compiled rules of `examples/rules`, with their lines.
static RULES: [(&str, &[&str]); 2] = [
    (
        "b700000000000000611258000000000016020500000000006911380000000000\
         0f21000000000000ad31010000000000bf13000000000000bf30000000000000\
         9500000000000000",
        &[
            "0: mov64 r0, 0",
            "1: ldxw r2, [r1+88]",
            "2: jeq32 r2, 0, +5",
            "3: ldxh r1, [r1+56]",
            "4: add64 r1, r2",
            "5: jlt r1, r3, +1",
            "6: mov64 r3, r1",
            "7: mov64 r0, r3",
            "8: exit",
        ],
    ),
    (
        "61103400000000007400000010000000540000007ffe00006112440000000000\
         1602040000000000070200001e00000061136000000000003d32010000000000\
         4700000080000000611230000000000054020000400000001602030000000000\
         69113c0000000000560101000000000047000000000100009500000000000000",
        &[
            "0: ldxw r0, [r1+52]",
            "1: rsh32 r0, 16",
            "2: and32 r0, 65151",
            "3: ldxw r2, [r1+68]",
            "4: jeq32 r2, 0, +4",
            "5: add64 r2, 30",
            "6: ldxw r3, [r1+96]",
            "7: jge r2, r3, +1",
            "8: or64 r0, 128",
            "9: ldxw r2, [r1+48]",
            "10: and32 r2, 64",
            "11: jeq32 r2, 0, +3",
            "12: ldxh r1, [r1+60]",
            "13: jne32 r1, 0, +1",
            "14: or64 r0, 256",
            "15: exit",
        ],
    ),
];

#[test]
fn compiled_rules(rt: HostRuntime) {
    list(&rt, rt.alloc(), &RULES);
}

/// Four slots of a program.
const FOUR: &str = "69113c000000000057010000ff01000085000000020000009500000000000000";

#[test]
fn a_copy_has_the_same_slots(rt: HostRuntime) {
    let bytes = bytes_of(&rt, rt.alloc(), FOUR);
    let program = program_of(&rt, rt.alloc(), bytes.as_slice());
    let copy = program.copy().expect(&rt, "a copy");
    same_count(&rt, copy.slot_count(), 4, "a copy");
    assert!(rt; copy.ops() == program.ops());
    encodes_to(&rt, rt.alloc(), &copy, bytes.as_slice(), "a copy");
    drop(copy);
    drop(program);
}
