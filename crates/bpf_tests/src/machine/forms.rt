//! Each form of instruction against results from outside, by bench/forms/generate.py, which says of
//! what programs the rows are.
use crate::fixtures::no_sigs;
use crate::machine::ended;
use crate::machine::form_vectors::{ARITHMETIC, JUMPS, LOADS, STORES};
use crate::programs::{EXIT, joined, slot, wide};
use bpf_helpers::Sigs;
use std::alloc::Global;
use std::process::Abort;

/// A record of which byte k is 37 k + 129 modulo 256.
fn counted() -> [u8; 128] {
    let mut record_bytes = [0u8; 128];
    let mut byte = 129u8;
    for place in &mut record_bytes {
        *place = byte;
        byte = byte.wrapping_add(37);
    }
    record_bytes
}

/// The program ends with r0 on that record.
fn ends(rt: &impl Abort, alloc: Global, sigs: &Sigs, bytes: &[u8], r0: u64) {
    let ended = ended(rt, alloc, sigs, &counted(), bytes);
    assert!(rt; ended.r0 == r0, "{r0}: {bytes:?}");
}

/// An operation on r0, with r1 or an immediate.
fn arithmetic(rt: &impl Abort, alloc: Global, row: (u8, i16, i32, u64, u64, u64)) -> Vec<u8> {
    let (opcode, offset, immediate, a, b, _) = row;
    // Only operations with a register on two words have a second one.
    let registers = if opcode & 8 == 0 || matches!(opcode >> 4, 0x8 | 0xd) {
        0
    } else {
        0x10
    };
    joined(
        rt,
        alloc,
        &[
            &wide(0, a),
            &wide(1, b),
            &slot(opcode, registers, offset, immediate),
            &EXIT,
        ],
    )
}

/// r0 is 1 where the jump of r1, with r2 or an immediate, is taken, and else 0.
fn compare(rt: &impl Abort, alloc: Global, row: (u8, i32, u64, u64, u64)) -> Vec<u8> {
    let (opcode, immediate, a, b, _) = row;
    let registers = if opcode & 8 == 0 { 1 } else { 0x21 };
    joined(
        rt,
        alloc,
        &[
            &wide(1, a),
            &wide(2, b),
            &slot(0xb7, 0, 0, 1),
            &slot(opcode, registers, 1, immediate),
            &slot(0xb7, 0, 0, 0),
            &EXIT,
        ],
    )
}

/// A load from the record.
fn load(rt: &impl Abort, alloc: Global, row: (u8, i16, u64)) -> Vec<u8> {
    let (opcode, offset, _) = row;
    joined(rt, alloc, &[&slot(opcode, 0x10, offset, 0), &EXIT])
}

/// A store to the stack, of r6 or an immediate, and a load from there; the last 16 bytes were all
/// ones.
fn keep(rt: &impl Abort, alloc: Global, row: (u8, u8, i16, i32, u64, u64)) -> Vec<u8> {
    let (store, read, offset, immediate, value, _) = row;
    let registers = if store & 7 == 3 { 0x6a } else { 0x0a };
    joined(
        rt,
        alloc,
        &[
            &slot(0x7a, 0x0a, -8, -1),
            &slot(0x7a, 0x0a, -16, -1),
            &wide(6, value),
            &slot(store, registers, offset, immediate),
            &slot(read, 0xa0, offset, 0),
            &EXIT,
        ],
    )
}

#[test]
fn arithmetic_agrees_with_c(rt: HostRuntime) {
    let sigs = no_sigs(&rt, rt.alloc());
    for row in &ARITHMETIC {
        let bytes = arithmetic(&rt, rt.alloc(), *row);
        ends(&rt, rt.alloc(), &sigs, bytes.as_slice(), row.5);
    }
    drop(sigs);
}

#[test]
fn jumps_agree_with_c(rt: HostRuntime) {
    let sigs = no_sigs(&rt, rt.alloc());
    for row in &JUMPS {
        let bytes = compare(&rt, rt.alloc(), *row);
        ends(&rt, rt.alloc(), &sigs, bytes.as_slice(), row.4);
    }
    drop(sigs);
}

#[test]
fn loads_agree_with_c(rt: HostRuntime) {
    let sigs = no_sigs(&rt, rt.alloc());
    for row in &LOADS {
        let bytes = load(&rt, rt.alloc(), *row);
        ends(&rt, rt.alloc(), &sigs, bytes.as_slice(), row.2);
    }
    drop(sigs);
}

#[test]
fn stores_agree_with_c(rt: HostRuntime) {
    let sigs = no_sigs(&rt, rt.alloc());
    for row in &STORES {
        let bytes = keep(&rt, rt.alloc(), *row);
        ends(&rt, rt.alloc(), &sigs, bytes.as_slice(), row.5);
    }
    drop(sigs);
}

/// A slot that sets r0 to 2, and a wide load that does.
const SETS_2: [u8; 8] = [0xb7, 0, 0, 0, 2, 0, 0, 0];

const WIDE_2: [u8; 16] = [0x18, 0, 0, 0, 2, 0, 0, 0, 0, 0, 0, 0, 0, 0, 0, 0];

/// Opcode, offset and immediate of a jump without a condition, what comes behind it, and r0 at the
/// end, which is 1 where it jumps over that.
static JUMPS_ALWAYS: [(u8, i16, i32, &[u8], u64); 6] = [
    (0x05, 0, 0, &SETS_2, 2),
    (0x06, 0, 0, &SETS_2, 2),
    (0x05, 1, 0, &SETS_2, 1),
    (0x06, 0, 1, &SETS_2, 1),
    (0x05, 2, 0, &WIDE_2, 1),
    (0x06, 0, 2, &WIDE_2, 1),
];

/// A slot that sets r0 to 1, the jump, and what comes behind it.
fn jump(rt: &impl Abort, alloc: Global, row: (u8, i16, i32, &[u8], u64)) -> Vec<u8> {
    let (opcode, offset, immediate, behind, _) = row;
    joined(
        rt,
        alloc,
        &[
            &slot(0xb7, 0, 0, 1),
            &slot(opcode, 0, offset, immediate),
            behind,
            &EXIT,
        ],
    )
}

/// Words of wide loads.
static WORDS: [u64; 5] = [
    0,
    0x8000_0000,
    0xffff_ffff,
    0x8000_0000_0000_0000,
    0x0123_4567_89ab_cdef,
];

/// Programs without a condition: jumps of both forms over nothing, an instruction and a wide load,
/// and a wide load alone.
#[test]
fn ways_without_a_condition(rt: HostRuntime) {
    let sigs = no_sigs(&rt, rt.alloc());
    for row in &JUMPS_ALWAYS {
        let bytes = jump(&rt, rt.alloc(), *row);
        ends(&rt, rt.alloc(), &sigs, bytes.as_slice(), row.4);
    }
    for word in &WORDS {
        let bytes = joined(&rt, rt.alloc(), &[&wide(0, *word), &EXIT]);
        ends(&rt, rt.alloc(), &sigs, bytes.as_slice(), *word);
    }
    drop(sigs);
}
