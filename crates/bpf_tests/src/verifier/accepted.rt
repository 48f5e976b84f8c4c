//! Programs at the limits of each rule of ranges and of memory, accepted just inside and refused just
//! outside. bench/forms/accepted.py says of what rows.

use crate::fixtures::{sum_signature, taxi_signature, turn_round_signature};
use crate::programs::{EXIT, add_slot, joined, slot};
use crate::verifier::accepted_accesses::{BASES, FOUND, MARKS, OVERLAPS, REGIONS};
use crate::verifier::accepted_edges::{EDGES, NO_EDGES};
use crate::verifier::accepted_limits::LIMITS;
use crate::verifier::accepted_programs::PROGRAMS;
use crate::verifier::accepted_ranges::RANGES;
use crate::verifier::accepted_words::WORDS;
use crate::verifier::refusal;
use bpf_helpers::{Range, Signature, Sigs};
use std::alloc::Global;
use std::process::Abort;

/// The ranges of r6 and r7.
type Pair = (Range, Range);

/// The range at a place of LIMITS.
fn limit(rt: &impl Abort, place: u16) -> Range {
    let (lo, hi) = *LIMITS.get(place as usize).expect(rt, "a range");
    Range { lo, hi }
}

/// Those at two places.
fn pair(rt: &impl Abort, first: u16, second: u16) -> Pair {
    (limit(rt, first), limit(rt, second))
}

/// Adds a helper that takes and answers these ranges.
pub(crate) fn add_helper(
    rt: &impl Abort,
    alloc: Global,
    sigs: &mut Sigs,
    number: u32,
    args: &[Range],
    answer: Range,
) {
    let args = args.to_vec(alloc).expect(rt, "arguments");
    let signature = Signature::new(args, answer, Vec::new(alloc)).expect(rt, "a signature");
    sigs.push(number, signature).expect(rt, "signatures");
}

/// Helpers 1 and 2 answer the ranges before, helper 3 takes those after.
fn signatures(rt: &impl Abort, alloc: Global, before: Pair, after: Pair) -> Sigs {
    let mut sigs = Sigs::new(alloc);
    add_helper(rt, alloc, &mut sigs, 1, &[], before.0);
    add_helper(rt, alloc, &mut sigs, 2, &[], before.1);
    add_helper(
        rt,
        alloc,
        &mut sigs,
        3,
        &[after.0, after.1],
        Range { lo: 0, hi: 0 },
    );
    sigs
}

/// The verdict where r6 and r7 have the ranges before, and are to lie in those after.
fn verdict(
    rt: &impl Abort,
    alloc: Global,
    bytes: &[u8],
    before: Pair,
    after: Pair,
) -> Option<(u16, usize)> {
    let sigs = signatures(rt, alloc, before, after);
    let came = refusal(rt, alloc, &sigs, bytes);
    drop(sigs);
    came
}

/// They lie there.
fn is_within(rt: &impl Abort, alloc: Global, bytes: &[u8], before: Pair, after: Pair) {
    let came = verdict(rt, alloc, bytes, before, after);
    assert!(rt; came.is_none(), "{bytes:?}");
}

/// One of them does not.
fn is_outside(rt: &impl Abort, alloc: Global, bytes: &[u8], before: Pair, after: Pair) {
    let (code, at) = verdict(rt, alloc, bytes, before, after).unwrap_or((0, 0));
    assert!(rt; code == 313 && at == 8, "{code} {at}: {bytes:?}");
}

/// The greatest range that lacks the least number of a range.
fn above(range: Range) -> Option<Range> {
    let lo = range.lo.checked_add(1)?;
    Some(Range { lo, hi: u64::MAX })
}

/// The greatest range that lacks its greatest number.
fn below(range: Range) -> Option<Range> {
    let hi = range.hi.checked_sub(1)?;
    Some(Range { lo: 0, hi })
}

/// r6 is not in this range.
fn first_is_outside(
    rt: &impl Abort,
    alloc: Global,
    bytes: &[u8],
    before: Pair,
    less: Option<Range>,
    second: Range,
) {
    if let Some(less) = less {
        is_outside(rt, alloc, bytes, before, (less, second));
    }
}

/// r7 is not in this range.
fn second_is_outside(
    rt: &impl Abort,
    alloc: Global,
    bytes: &[u8],
    before: Pair,
    first: Range,
    less: Option<Range>,
) {
    if let Some(less) = less {
        is_outside(rt, alloc, bytes, before, (first, less));
    }
}

/// r6 and r7 have exactly these ranges.
fn is_exactly(rt: &impl Abort, alloc: Global, bytes: &[u8], before: Pair, after: Pair) {
    let (first, second) = after;
    is_within(rt, alloc, bytes, before, after);
    first_is_outside(rt, alloc, bytes, before, above(first), second);
    first_is_outside(rt, alloc, bytes, before, below(first), second);
    second_is_outside(rt, alloc, bytes, before, first, above(second));
    second_is_outside(rt, alloc, bytes, before, first, below(second));
}

/// What sets r6 and r7 to the answers of helpers 1 and 2.
static BEFORE: [u64; 4] = [
    0x8500_0000_0100_0000,
    0xbf06_0000_0000_0000,
    0x8500_0000_0200_0000,
    0xbf07_0000_0000_0000,
];

/// What hands both to helper 3.
static AFTER: [u64; 4] = [
    0xbf61_0000_0000_0000,
    0xbf72_0000_0000_0000,
    0x8500_0000_0300_0000,
    ENDS,
];

const ENDS: u64 = 0x9500_0000_0000_0000;

/// A jump to the next slot.
const GOES_ON: u64 = 0x0500_0000_0000_0000;

fn add_slots(rt: &impl Abort, bytes: &mut Vec<u8>, slots: &[u64]) {
    for slot in slots {
        bytes
            .extend_from_slice(&slot.to_be_bytes())
            .expect(rt, "a slot");
    }
}

/// The program of two slots between those.
fn bytes_between(rt: &impl Abort, alloc: Global, first: u64, second: u64) -> Vec<u8> {
    let mut bytes = Vec::new(alloc);
    add_slots(rt, &mut bytes, &BEFORE);
    add_slots(rt, &mut bytes, &[first, second]);
    add_slots(rt, &mut bytes, &AFTER);
    bytes
}

/// Two slots make exactly these ranges of those before.
fn is_made(rt: &impl Abort, alloc: Global, slots: (u64, u64), before: Pair, after: Pair) {
    let bytes = bytes_between(rt, alloc, slots.0, slots.1);
    is_exactly(rt, alloc, bytes.as_slice(), before, after);
}

#[test]
fn operations_make_these_ranges(rt: HostRuntime) {
    for (slot, a, b, c, d) in &RANGES {
        let before = pair(&rt, *a, *b);
        let after = pair(&rt, *c, *d);
        is_made(&rt, rt.alloc(), (*slot, GOES_ON), before, after);
    }
}

#[test]
fn words_and_joins_make_these_ranges(rt: HostRuntime) {
    for (first, second, a, b, c, d) in &WORDS {
        let before = pair(&rt, *a, *b);
        let after = pair(&rt, *c, *d);
        is_made(&rt, rt.alloc(), (*first, *second), before, after);
    }
}

/// What stands behind a jump: the exit where the way that is looked at is the jump's, which is
/// over one slot.
fn behind(jump: u64) -> u64 {
    let [_, _, distance, ..] = jump.to_be_bytes();
    if distance == 1 { ENDS } else { GOES_ON }
}

#[test]
fn comparisons_leave_these_ranges(rt: HostRuntime) {
    for (jump, a, b, c, d) in &EDGES {
        let before = pair(&rt, *a, *b);
        let after = pair(&rt, *c, *d);
        is_made(&rt, rt.alloc(), (*jump, behind(*jump)), before, after);
    }
}

/// No way leads behind a jump, so r6 and r7 lie in any range.
fn is_unreached(rt: &impl Abort, alloc: Global, jump: u64, before: Pair) {
    let bytes = bytes_between(rt, alloc, jump, behind(jump));
    let zero = Range { lo: 0, hi: 0 };
    let one = Range { lo: 1, hi: 1 };
    is_within(rt, alloc, bytes.as_slice(), before, (zero, zero));
    is_within(rt, alloc, bytes.as_slice(), before, (one, one));
}

#[test]
fn comparisons_that_never_hold_have_no_edge(rt: HostRuntime) {
    for (jump, a, b) in &NO_EDGES {
        let before = pair(&rt, *a, *b);
        is_unreached(&rt, rt.alloc(), *jump, before);
    }
}

/// A program has this fault at this slot, or none if that is 0, where helper 1 answers this range.
fn has_fault(
    rt: &impl Abort,
    alloc: Global,
    answer: Range,
    parts: &[&[u8]],
    fault: u16,
    slot: usize,
) {
    let bytes = joined(rt, alloc, parts);
    let mut sigs = Sigs::new(alloc);
    add_helper(rt, alloc, &mut sigs, 1, &[], answer);
    let (code, at) = refusal(rt, alloc, &sigs, bytes.as_slice()).unwrap_or((0, slot));
    drop(sigs);
    assert!(rt; code == fault && at == slot, "{code} {at}: {bytes:?}");
}

/// Helper 1 is asked.
static ASKS: [u8; 8] = [0x85, 0, 0, 0, 1, 0, 0, 0];

/// r6 is the end of the stack.
static COPIES: [u8; 8] = [0xbf, 0xa6, 0, 0, 0, 0, 0, 0];

/// The answer is added to it.
static MOVES: [u8; 8] = [0x0f, 0x06, 0, 0, 0, 0, 0, 0];

/// The end of the stack is stored as a word, 24 bytes below it.
static KEEPS: [u8; 8] = [0x7b, 0xaa, 0xe8, 0xff, 0, 0, 0, 0];

/// A byte is stored below the address in r5.
static USES: [u8; 8] = [0x72, 0x05, 0xff, 0xff, 0, 0, 0, 0];

/// A load or a store, where the first and the last 16 bytes of the stack are stored.
fn region(rt: &impl Abort, alloc: Global, row: (u8, i16, u64, u64, u16)) {
    let (opcode, offset, lo, hi, fault) = row;
    let parts: [&[u8]; 7] = [
        &slot(0x7a, 0x0a, -512, 0),
        &slot(0x7a, 0x0a, -504, 0),
        &slot(0x7a, 0x0a, -16, 0),
        &slot(0x7a, 0x0a, -8, 0),
        &ASKS,
        &slot(opcode, 0, offset, 0),
        &EXIT,
    ];
    has_fault(rt, alloc, Range { lo, hi }, &parts, fault, 5);
}

#[test]
fn regions_have_ends(rt: HostRuntime) {
    for row in &REGIONS {
        region(&rt, rt.alloc(), *row);
    }
}

/// A store near a word, which is used then.
fn overlap(rt: &impl Abort, alloc: Global, row: (u8, i16, u64, u16)) {
    let (opcode, offset, hi, fault) = row;
    let parts: [&[u8]; 8] = [
        &ASKS,
        &COPIES,
        &MOVES,
        &KEEPS,
        &slot(opcode, 0x06, offset, 0),
        &slot(0x79, 0xa5, -24, 0),
        &USES,
        &EXIT,
    ];
    has_fault(rt, alloc, Range { lo: 0, hi }, &parts, fault, 6);
}

#[test]
fn stores_forget_words_that_they_touch(rt: HostRuntime) {
    for row in &OVERLAPS {
        overlap(&rt, rt.alloc(), *row);
    }
}

/// A store, and a load of what it may have stored.
fn mark(rt: &impl Abort, alloc: Global, row: (u8, u64, u8, i16, u16)) {
    let (opcode, hi, load, offset, fault) = row;
    let parts: [&[u8]; 6] = [
        &ASKS,
        &COPIES,
        &MOVES,
        &slot(opcode, 0x06, -24, 0),
        &slot(load, 0xa0, offset, 0),
        &EXIT,
    ];
    has_fault(rt, alloc, Range { lo: 0, hi }, &parts, fault, 4);
}

#[test]
fn stores_mark_their_bytes(rt: HostRuntime) {
    for row in &MARKS {
        mark(&rt, rt.alloc(), *row);
    }
}

/// A load near a word, which is used then.
fn found(rt: &impl Abort, alloc: Global, row: (u8, i16, u64, u16)) {
    let (load, offset, hi, fault) = row;
    let parts: [&[u8]; 9] = [
        &ASKS,
        &COPIES,
        &MOVES,
        &KEEPS,
        &slot(0x7a, 0x0a, -16, 0),
        &slot(0x7a, 0x0a, -32, 0),
        &slot(load, 0x65, offset, 0),
        &USES,
        &EXIT,
    ];
    has_fault(rt, alloc, Range { lo: 0, hi }, &parts, fault, 7);
}

#[test]
fn loads_find_a_word_alone(rt: HostRuntime) {
    for row in &FOUND {
        found(&rt, rt.alloc(), *row);
    }
}

/// A word by a base that is not r10.
fn based(rt: &impl Abort, alloc: Global, row: (i32, i16, u8, i16, u16)) {
    let (more, offset, registers, at, fault) = row;
    let parts: [&[u8]; 7] = [
        &COPIES,
        &slot(0x07, 0x06, 0, more),
        &slot(0x7b, 0xa6, offset, 0),
        &slot(0xb7, 0, 0, 0),
        &slot(0x79, registers, at, 0),
        &USES,
        &EXIT,
    ];
    has_fault(rt, alloc, Range { lo: 0, hi: 0 }, &parts, fault, 5);
}

#[test]
fn words_are_found_by_any_base(rt: HostRuntime) {
    for row in &BASES {
        based(&rt, rt.alloc(), *row);
    }
}

/// The signatures of the three helpers.
fn known_signatures(rt: &impl Abort, alloc: Global) -> Sigs {
    let mut sigs = Sigs::new(alloc);
    sigs.push(1, turn_round_signature(rt, alloc))
        .expect(rt, "1");
    sigs.push(2, taxi_signature(rt, alloc)).expect(rt, "2");
    sigs.push(3, sum_signature(rt, alloc)).expect(rt, "3");
    sigs
}

/// The program of the slots behind the fault and its slot.
fn bytes_behind(rt: &impl Abort, alloc: Global, row: &str) -> Vec<u8> {
    let mut bytes = Vec::new(alloc);
    for word in row.split_whitespace().skip(2) {
        add_slot(rt, &mut bytes, word);
    }
    bytes
}

/// A whole program has the fault that its row begins with, or none if that is 0.
fn is_judged(rt: &impl Abort, alloc: Global, sigs: &Sigs, row: &str) {
    let bytes = bytes_behind(rt, alloc, row);
    let (code, at) = refusal(rt, alloc, sigs, bytes.as_slice()).unwrap_or((0, 0));
    let told = format!(in alloc; "{code} {at} ").expect(rt, row);
    assert!(rt; row.starts_with(told.as_str()), "{told}: {row}");
}

#[test]
fn whole_programs_are_judged(rt: HostRuntime) {
    let sigs = known_signatures(&rt, rt.alloc());
    for row in &PROGRAMS {
        is_judged(&rt, rt.alloc(), &sigs, row);
    }
    drop(sigs);
}
