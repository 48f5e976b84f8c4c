//! Worked values of the words of the stack that are kept.

ghost use Rattle.std.specs.Prelude.{◌<◌};

use crate::fixtures::{no_sigs, taxi_sigs};
use crate::states::{ALL, LOW, W64, arith, common, from, has, imm, reg, store};
use bpf_decode::{Code, Condition, Op, Size};
use bpf_helpers::Sigs;
use bpf_regstate::{Length, State};
use std::alloc::Global;
use std::process::Abort;

/// A store of a register to a word.
fn spill(offset: i16, register: u8) -> Op
    requires { register < 11 }
{
    Op::Store {
        size: Size::Double,
        base: reg(10),
        offset,
        value: from(register),
    }
}

/// A load from the stack to r0 gives this range.
fn reads(rt: &impl Abort, sigs: &Sigs, state: &State, size: Size, offset: i16, lo: u64, hi: u64) {
    let load = Op::Load {
        size,
        dst: reg(0),
        base: reg(10),
        offset,
    };
    let loaded = state
        .transfer(Length::L128, load, sigs)
        .expect(rt, "a state");
    has(rt, &loaded, 0, lo, hi);
    drop(loaded);
}

/// Loads from the stack to r0 give these ranges.
fn read(rt: &impl Abort, sigs: &Sigs, state: &State, rows: &[(Size, i16, u64, u64)]) {
    for row in rows {
        let (size, offset, lo, hi) = *row;
        reads(rt, sigs, state, size, offset, lo, hi);
    }
}

/// What is known after these instructions from the start.
fn after(rt: &impl Abort, alloc: Global, sigs: &Sigs, ops: &[Op]) -> State {
    let mut state = State::start(alloc, Length::L128);
    for op in ops {
        state.advance(128, *op, sigs).expect(rt, "a state");
    }
    state
}

/// Loads where r4 is at the last word, r1 at the first, and r2 four bytes off a word.
static KEPT: [(Size, i16, u64, u64); 7] = [
    (Size::Double, -8, 1, 16),
    (Size::Double, -512, 0x1_0000_0000, 0x1_0000_0000),
    (Size::Double, -16, 0, ALL),
    (Size::Double, -504, 0, ALL),
    (Size::Double, -28, 0, ALL),
    (Size::Word, -8, 0, LOW),
    (Size::Byte, -8, 0, 255),
];

#[test]
fn a_word_keeps_its_range(rt: HostRuntime) {
    let sigs = no_sigs(&rt, rt.alloc());
    let ops = [spill(-8, 4), spill(-512, 1), spill(-28, 2)];
    let kept = after(&rt, rt.alloc(), &sigs, &ops);
    read(&rt, &sigs, &kept, &KEPT);
    drop(kept);
    drop(sigs);
}

/// After these instructions a word of the stack has this range.
fn keeps(rt: &impl Abort, alloc: Global, ops: &[Op], word: i16, lo: u64, hi: u64) {
    let sigs = no_sigs(rt, alloc);
    let kept = after(rt, alloc, &sigs, ops);
    reads(rt, &sigs, &kept, Size::Double, word, lo, hi);
    drop(kept);
    drop(sigs);
}

/// Immediates, and the words that they are when they are stored.
static IMMEDIATES: [(i32, u64); 3] = [(5, 5), (-1, ALL), (-8, ALL - 7)];

#[test]
fn a_stored_immediate_is_sign_extended(rt: HostRuntime) {
    for row in &IMMEDIATES {
        let (value, word) = *row;
        let store = Op::Store {
            size: Size::Double,
            base: reg(10),
            offset: -8,
            value: imm(value),
        };
        keeps(&rt, rt.alloc(), &[spill(-8, 4), store], -8, word, word);
    }
}

/// Stores, and whether they keep the word at -16, which has the bytes from -16 to -9.
static TOUCHES: [(Size, i16, bool); 12] = [
    (Size::Byte, -17, true),
    (Size::Byte, -16, false),
    (Size::Byte, -9, false),
    (Size::Byte, -8, true),
    (Size::Half, -18, true),
    (Size::Half, -17, false),
    (Size::Word, -20, true),
    (Size::Word, -12, false),
    (Size::Double, -24, true),
    (Size::Double, -20, false),
    (Size::Double, -12, false),
    (Size::Double, -8, true),
];

#[test]
fn a_store_forgets_what_it_touches(rt: HostRuntime) {
    for row in &TOUCHES {
        let (size, offset, is_kept) = *row;
        let ops = [spill(-16, 4), store(size, reg(10), offset)];
        let (lo, hi) = if is_kept { (1, 16) } else { (0, ALL) };
        keeps(&rt, rt.alloc(), &ops, -16, lo, hi);
    }
}

/// Stores to one of the sixteen addresses from an offset on, and whether they keep the word at -48,
/// which has the bytes from -48 to -41.
static MAY_TOUCH: [(Size, i16, bool); 6] = [
    (Size::Byte, -64, true),
    (Size::Byte, -63, false),
    (Size::Byte, -41, false),
    (Size::Byte, -40, true),
    (Size::Double, -71, true),
    (Size::Double, -70, false),
];

#[test]
fn a_store_to_a_range_forgets_all_that_it_may_touch(rt: HostRuntime) {
    for row in &MAY_TOUCH {
        let (size, offset, is_kept) = *row;
        let ops = [
            spill(-48, 2),
            arith(Code::Add, reg(4), from(10)),
            arith(Code::Sub, reg(4), imm(1)),
            store(size, reg(4), offset),
        ];
        let (lo, hi) = if is_kept { (128, 128) } else { (0, ALL) };
        keeps(&rt, rt.alloc(), &ops, -48, lo, hi);
    }
}

/// Loads of what a state with two words and one with three have in common.
static BOTH: [(Size, i16, u64, u64); 4] = [
    (Size::Double, -8, 0, ALL),
    (Size::Double, -16, 0, ALL),
    (Size::Double, -24, 1, 128),
    (Size::Double, -32, 0, ALL),
];

/// What both keep of their words is kept.
fn keeps_words_of_both(rt: &impl Abort, sigs: &Sigs, one: &State, two: &State) {
    let joined = common(rt, one, two);
    read(rt, sigs, &joined, &BOTH);
    drop(joined);
}

#[test]
fn joins_keep_words_that_both_keep(rt: HostRuntime) {
    let sigs = no_sigs(&rt, rt.alloc());
    let one = after(&rt, rt.alloc(), &sigs, &[spill(-8, 4), spill(-24, 4)]);
    // One of these is in the place of one of those.
    let ops = [spill(-16, 4), spill(-24, 2), spill(-32, 2)];
    let two = after(&rt, rt.alloc(), &sigs, &ops);
    keeps_words_of_both(&rt, &sigs, &one, &two);
    keeps_words_of_both(&rt, &sigs, &two, &one);
    drop(two);
    drop(one);
    drop(sigs);
}

/// A jump and a call keep the last word.
fn keeps_the_last_word(rt: &impl Abort, sigs: &Sigs, kept: &mut State) {
    assert!(rt; kept.follow(W64, Condition::Above, reg(4), imm(7), true));
    kept.advance(128, Op::Call { helper: 2 }, sigs)
        .expect(rt, "a state");
    reads(rt, sigs, kept, Size::Double, -8, 1, 16);
}

#[test]
fn calls_and_jumps_keep_words(rt: HostRuntime) {
    let sigs = taxi_sigs(&rt, rt.alloc());
    let mut kept = after(&rt, rt.alloc(), &sigs, &[spill(-8, 4)]);
    keeps_the_last_word(&rt, &sigs, &mut kept);
    drop(kept);
    drop(sigs);
}
