//! Worked values of states, along instructions, jumps and joins.

ghost use Rattle.std.specs.Prelude.{◌≡◌, ◌<◌, ◌≤◌};

mod words;

use self::Second::{Number, Of};
use crate::fixtures::{no_sigs, range, taxi_sigs};
use bpf_decode::{ByteOrder, Bytes, Code, Condition, Op, Operand, Part, Register, Size, Width};
use bpf_helpers::{Range, Sigs};
use bpf_regstate::{Length, Reg, State, place_of_access};
use bpf_semantics::MemoryPlace;
use std::alloc::Global;
use std::process::Abort;

pub(crate) const ALL: u64 = 0xffff_ffff_ffff_ffff;

pub(crate) const LOW: u64 = 0xffff_ffff;

pub(crate) const W64: Width = Width::W64;

const W32: Width = Width::W32;

/// A second operand in a row: an immediate, or a register by its number.
enum Second {
    Number(i32),
    Of(u8),
}

/// The register of a number in a row.
fn register(rt: &impl Abort, number: u8) -> Register {
    assert!(rt; number < 11, "r{number}");
    Register::new(number)
}

/// The second operand of a row.
fn operand(rt: &impl Abort, second: &Second) -> Operand {
    match second {
        Number(value) => Operand::Immediate(*value),
        Of(number) => Operand::From(register(rt, *number)),
    }
}

pub(crate) fn reg(number: u8) -> Register
    requires { number < 11 }
    ensures { result ≡ number }
{
    Register::new(number)
}

pub(crate) fn imm(value: i32) -> Operand {
    Operand::Immediate(value)
}

pub(crate) fn from(number: u8) -> Operand
    requires { number < 11 }
{
    Operand::From(reg(number))
}

pub(crate) fn arith(code: Code, dst: Register, operand: Operand) -> Op {
    Op::Arith {
        width: W64,
        code,
        dst,
        operand,
    }
}

/// The state has this range of the register of this number.
pub(crate) fn has(rt: &impl Abort, state: &State, number: u8, lo: u64, hi: u64) {
    let found = state.register(register(rt, number));
    assert_eq!(rt; found, Reg::Known(Range { lo, hi }), "r{number}");
}

/// The state has nothing of the register of this number.
fn lacks(rt: &impl Abort, state: &State, number: u8) {
    assert!(rt;
        state.register(register(rt, number)) == Reg::Uninit,
        "r{number}"
    );
}

/// Of the stack the bytes from `first` up to `end` are marked, and no others.
fn marks(rt: &impl Abort, state: &State, first: usize, end: usize) {
    for at in 0..512 {
        assert!(rt;
            state.all_marked(at, 1) == (first <= at && at < end),
            "{at}"
        );
    }
}

#[test]
fn the_start_is_known(rt: HostRuntime) {
    let start = State::start(rt.alloc(), Length::L128);
    lacks(&rt, &start, 0);
    has(&rt, &start, 1, 0x1_0000_0000, 0x1_0000_0000);
    has(&rt, &start, 2, 128, 128);
    has(&rt, &start, 3, 0, LOW);
    has(&rt, &start, 4, 1, 16);
    lacks(&rt, &start, 5);
    lacks(&rt, &start, 9);
    has(&rt, &start, 10, 0x2_0000_0200, 0x2_0000_0200);
    marks(&rt, &start, 0, 0);
    drop(start);
}

/// What is known after one instruction from the start.
fn after_one(rt: &impl Abort, alloc: Global, sigs: &Sigs, op: Op) -> State {
    let start = State::start(alloc, Length::L128);
    let after = start.transfer(Length::L128, op, sigs).expect(rt, "a state");
    drop(start);
    after
}

/// After an instruction at the start a register has this range.
fn gives(rt: &impl Abort, alloc: Global, op: Op, number: u8, lo: u64, hi: u64) {
    let sigs = no_sigs(rt, alloc);
    let after = after_one(rt, alloc, &sigs, op);
    has(rt, &after, number, lo, hi);
    drop(after);
    drop(sigs);
}

/// An operation at the start, and the range that its first register then has.
type Computed = (Width, Code, u8, Second, u64, u64);

/// The operations give these ranges.
fn compute(rt: &impl Abort, alloc: Global, rows: &[Computed]) {
    for row in rows {
        let (width, code, number, second, lo, hi) = row;
        let op = Op::Arith {
            width: *width,
            code: *code,
            dst: register(rt, *number),
            operand: operand(rt, second),
        };
        gives(rt, alloc, op, *number, *lo, *hi);
    }
}

/// Sums and differences.
static SUMS: [Computed; 10] = [
    (W64, Code::Add, 4, Number(5), 6, 21),
    (W64, Code::Add, 3, Of(4), 1, LOW + 16),
    (W32, Code::Add, 3, Of(4), 0, LOW),
    (W32, Code::Add, 1, Of(4), 1, 16),
    (W64, Code::Add, 4, Number(-1), 0, 15),
    (W64, Code::Add, 4, Number(-2), 0, ALL),
    (W64, Code::Sub, 4, Number(1), 0, 15),
    (W64, Code::Sub, 4, Number(2), 0, ALL),
    (W64, Code::Sub, 4, Of(2), ALL - 126, ALL - 111),
    (W64, Code::Sub, 2, Number(129), ALL, ALL),
];

#[test]
fn sums_and_differences(rt: HostRuntime) {
    compute(&rt, rt.alloc(), &SUMS);
}

/// Products, quotients and remainders.
static PRODUCTS: [Computed; 12] = [
    (W64, Code::Mul, 4, Number(3), 3, 48),
    (W64, Code::Mul, 3, Of(3), 0, 18_446_744_065_119_617_025),
    (W64, Code::Mul, 4, Number(-1), 0, ALL),
    (W32, Code::Mul, 3, Of(4), 0, LOW),
    (W64, Code::Div, 2, Of(4), 8, 128),
    (W64, Code::Div, 2, Of(3), 0, 128),
    (W64, Code::Mod, 4, Of(2), 1, 16),
    (W64, Code::Mod, 2, Of(4), 0, 15),
    (W64, Code::Mod, 4, Of(3), 0, 16),
    (W64, Code::SignedDiv, 4, Number(2), 0, ALL),
    (W64, Code::SignedMod, 4, Number(2), 0, ALL),
    (W64, Code::SignedDiv, 2, Number(-2), ALL - 63, ALL - 63),
];

#[test]
fn products_and_quotients(rt: HostRuntime) {
    compute(&rt, rt.alloc(), &PRODUCTS);
}

/// Operations on bits, shifts and copies.
static BITS: [Computed; 14] = [
    (W64, Code::And, 3, Number(511), 0, 511),
    (W64, Code::Or, 4, Of(2), 128, 255),
    (W64, Code::Xor, 4, Of(2), 0, 255),
    (W64, Code::LeftShift, 4, Number(4), 16, 256),
    (W64, Code::LeftShift, 4, Number(68), 16, 256),
    (W64, Code::LeftShift, 4, Number(60), 0, ALL),
    (W32, Code::LeftShift, 4, Number(28), 0, LOW),
    (W64, Code::LeftShift, 2, Of(4), 0, ALL),
    (W64, Code::RightShift, 3, Number(4), 0, 268_435_455),
    (W64, Code::RightShift, 2, Of(4), 0, 128),
    (W64, Code::ArithmeticShift, 4, Number(1), 0, ALL),
    (W64, Code::ArithmeticShift, 2, Number(1), 64, 64),
    (W64, Code::Mov, 0, Of(4), 1, 16),
    (W32, Code::Mov, 0, Of(1), 0, 0),
];

#[test]
fn bits_and_shifts(rt: HostRuntime) {
    compute(&rt, rt.alloc(), &BITS);
}

/// Negations of a register, and the range that it then has.
static NEGATIONS: [(Width, u8, u64, u64); 3] = [
    (W64, 4, 0, ALL),
    (W64, 2, ALL - 127, ALL - 127),
    (W32, 2, LOW - 127, LOW - 127),
];

/// Sign extensions of a register to r0, and the range that this then has.
static EXTENSIONS: [(Width, Part, u8, u64, u64); 3] = [
    (W64, Part::Low8, 4, 1, 16),
    (W32, Part::Low16, 3, 0, LOW),
    (W64, Part::Low8, 2, ALL - 127, ALL - 127),
];

#[test]
fn negation_and_sign_extension(rt: HostRuntime) {
    for row in &NEGATIONS {
        let (width, number, lo, hi) = *row;
        let dst = register(&rt, number);
        gives(&rt, rt.alloc(), Op::Negate { width, dst }, number, lo, hi);
    }
    for row in &EXTENSIONS {
        let (width, part, number, lo, hi) = *row;
        let op = Op::Extend {
            width,
            part,
            dst: reg(0),
            src: register(&rt, number),
        };
        gives(&rt, rt.alloc(), op, 0, lo, hi);
    }
}

/// Orders of the bytes of a register, and the range that it then has.
static BYTE_ORDERS: [(ByteOrder, Bytes, u8, u64, u64); 6] = [
    (ByteOrder::Little, Bytes::Two, 4, 1, 16),
    (ByteOrder::Little, Bytes::Two, 3, 0, 65535),
    (ByteOrder::Little, Bytes::Four, 1, 0, 0),
    (ByteOrder::Big, Bytes::Two, 4, 0, 65535),
    (ByteOrder::Big, Bytes::Two, 2, 0x8000, 0x8000),
    (ByteOrder::Swap, Bytes::Eight, 4, 0, ALL),
];

#[test]
fn byte_order(rt: HostRuntime) {
    for row in &BYTE_ORDERS {
        let (order, bytes, number, lo, hi) = *row;
        let dst = register(&rt, number);
        gives(
            &rt,
            rt.alloc(),
            Op::End { order, bytes, dst },
            number,
            lo,
            hi,
        );
    }
}

#[test]
fn loads(rt: HostRuntime) {
    let load = Op::Load {
        size: Size::Half,
        dst: reg(0),
        base: reg(1),
        offset: 60,
    };
    gives(&rt, rt.alloc(), load, 0, 0, 65535);
    let signed = Op::LoadSigned {
        part: Part::Low8,
        dst: reg(0),
        base: reg(1),
        offset: 60,
    };
    gives(&rt, rt.alloc(), signed, 0, 0, ALL);
    let wide = Op::Wide {
        dst: reg(6),
        value: ALL,
    };
    gives(&rt, rt.alloc(), wide, 6, ALL, ALL);
}

pub(crate) fn store(size: Size, base: Register, offset: i16) -> Op {
    Op::Store {
        size,
        base,
        offset,
        value: imm(1),
    }
}

#[test]
fn a_store_marks_its_bytes(rt: HostRuntime) {
    let sigs = no_sigs(&rt, rt.alloc());
    let stored = after_one(&rt, rt.alloc(), &sigs, store(Size::Word, reg(10), -8));
    marks(&rt, &stored, 504, 508);
    assert!(rt; stored.all_marked(504, 4));
    drop(stored);
    drop(sigs);
}

/// r4 has one of several places, and a store there marks none.
fn marks_none(rt: &impl Abort, sigs: &Sigs, somewhere: &State) {
    has(rt, somewhere, 4, 0x2_0000_0201, 0x2_0000_0210);
    let op = store(Size::Byte, reg(4), -17);
    let stored = somewhere
        .transfer(Length::L128, op, sigs)
        .expect(rt, "a state");
    marks(rt, &stored, 0, 0);
    drop(stored);
}

#[test]
fn a_store_to_one_of_several_places_marks_none(rt: HostRuntime) {
    let sigs = no_sigs(&rt, rt.alloc());
    let op = arith(Code::Add, reg(4), from(10));
    let somewhere = after_one(&rt, rt.alloc(), &sigs, op);
    marks_none(&rt, &sigs, &somewhere);
    drop(somewhere);
    drop(sigs);
}

/// What is known after the call of helper 2.
fn is_called(rt: &impl Abort, called: &State) {
    has(rt, called, 0, 1, 60);
    for number in 1..6 {
        lacks(rt, called, number);
    }
    has(rt, called, 10, 0x2_0000_0200, 0x2_0000_0200);
}

#[test]
fn a_call_leaves_its_answer_alone(rt: HostRuntime) {
    let sigs = taxi_sigs(&rt, rt.alloc());
    let called = after_one(&rt, rt.alloc(), &sigs, Op::Call { helper: 2 });
    is_called(&rt, &called);
    let unknown = after_one(&rt, rt.alloc(), &sigs, Op::Call { helper: 3 });
    lacks(&rt, &unknown, 0);
    drop(unknown);
    drop(called);
    drop(sigs);
}

/// An edge of a jump: where its condition holds of a register and an operand, or does not.
type Edge = (Width, Condition, u8, Second, bool);

/// What is known along an edge from the start.
fn along(rt: &impl Abort, alloc: Global, edge: &Edge) -> Option<State> {
    let (width, condition, number, second, taken) = edge;
    let dst = register(rt, *number);
    let operand = operand(rt, second);
    let start = State::start(alloc, Length::L128);
    let refined = start.refine(*width, *condition, dst, operand, *taken);
    drop(start);
    refined.expect(rt, "a state")
}

/// Along this edge from the start a register has this range.
fn narrows(rt: &impl Abort, alloc: Global, edge: &Edge, number: u8, lo: u64, hi: u64) {
    let refined = along(rt, alloc, edge).expect(rt, "an edge");
    has(rt, &refined, number, lo, hi);
    drop(refined);
}

/// Edges, and the range that a register has along each.
static NARROWING: [(Edge, u8, u64, u64); 11] = [
    ((W64, Condition::Above, 4, Number(7), true), 4, 8, 16),
    ((W64, Condition::Above, 4, Number(7), false), 4, 1, 7),
    ((W64, Condition::AtLeast, 4, Number(7), true), 4, 7, 16),
    ((W64, Condition::AtMost, 4, Number(7), true), 4, 1, 7),
    ((W64, Condition::Below, 3, Of(4), true), 3, 0, 15),
    ((W64, Condition::Below, 3, Of(4), true), 4, 1, 16),
    ((W64, Condition::Below, 3, Of(4), false), 3, 1, LOW),
    ((W64, Condition::Equal, 3, Of(4), true), 3, 1, 16),
    ((W64, Condition::NotEqual, 4, Number(16), true), 4, 1, 15),
    ((W64, Condition::Equal, 4, Number(1), false), 4, 2, 16),
    ((W32, Condition::Equal, 3, Number(-1), true), 3, LOW, LOW),
];

#[test]
fn jumps_narrow_both_sides(rt: HostRuntime) {
    for row in &NARROWING {
        let (edge, number, lo, hi) = row;
        narrows(&rt, rt.alloc(), edge, *number, *lo, *hi);
    }
}

/// Edges along which a register has the range that it had.
static TELLING_NOTHING: [(Edge, u8, u64, u64); 5] = [
    ((W64, Condition::Equal, 4, Number(5), false), 4, 1, 16),
    ((W64, Condition::Above, 4, Of(4), true), 4, 1, 16),
    ((W64, Condition::SignedAbove, 4, Number(7), true), 4, 1, 16),
    ((W64, Condition::Meets, 4, Number(0), true), 4, 1, 16),
    (
        (W32, Condition::Equal, 1, Number(5), true),
        1,
        0x1_0000_0000,
        0x1_0000_0000,
    ),
];

#[test]
fn some_comparisons_tell_nothing(rt: HostRuntime) {
    for row in &TELLING_NOTHING {
        let (edge, number, lo, hi) = row;
        narrows(&rt, rt.alloc(), edge, *number, *lo, *hi);
    }
}

/// Edges along which no words go from the start.
static WITHOUT_WORDS: [Edge; 6] = [
    (W64, Condition::Equal, 2, Number(129), true),
    (W64, Condition::NotEqual, 2, Number(128), true),
    (W64, Condition::Below, 4, Number(1), true),
    (W64, Condition::AtMost, 4, Number(16), false),
    (W64, Condition::Above, 4, Number(-1), true),
    (W32, Condition::Below, 4, Number(-1), false),
];

#[test]
fn edges_without_words_are_none(rt: HostRuntime) {
    for edge in &WITHOUT_WORDS {
        assert!(rt; along(&rt, rt.alloc(), edge).is_none());
    }
}

/// What is known after these instructions from the start, each by a copy.
fn transferred(rt: &impl Abort, alloc: Global, sigs: &Sigs, ops: &[Op]) -> State {
    let mut state = State::start(alloc, Length::L128);
    for op in ops {
        state = state
            .transfer(Length::L128, *op, sigs)
            .expect(rt, "a state");
    }
    state
}

/// What is common to both.
pub(crate) fn common(rt: &impl Abort, one: &State, two: &State) -> State {
    let mut joined = one.copy().expect(rt, "a state");
    joined.join(two);
    joined
}

/// What both have in common is kept, and in either order.
fn keeps_what_is_common(rt: &impl Abort, one: &State, two: &State) {
    let joined = common(rt, one, two);
    has(rt, &joined, 0, 5, 9);
    lacks(rt, &joined, 6);
    has(rt, &joined, 4, 1, 16);
    assert!(rt; !joined.all_marked(510, 1));
    drop(joined);
    let turned = common(rt, two, one);
    has(rt, &turned, 0, 5, 9);
    drop(turned);
    let same = common(rt, one, one);
    assert!(rt; same.all_marked(510, 2));
    drop(same);
}

#[test]
fn joins_keep_what_is_common(rt: HostRuntime) {
    let sigs = no_sigs(&rt, rt.alloc());
    let ops = [
        arith(Code::Mov, reg(0), imm(5)),
        arith(Code::Mov, reg(6), imm(1)),
        store(Size::Half, reg(10), -2),
    ];
    let one = transferred(&rt, rt.alloc(), &sigs, &ops);
    let two = after_one(&rt, rt.alloc(), &sigs, arith(Code::Mov, reg(0), imm(9)));
    keeps_what_is_common(&rt, &one, &two);
    drop(two);
    drop(one);
    drop(sigs);
}

/// From places of the stack on so many bytes are all marked, or are not.
static MARKED: [(usize, usize, bool); 4] = [
    (60, 8, true),
    (59, 9, false),
    (60, 9, false),
    (63, 2, true),
];

#[test]
fn marks_cross_from_word_to_word(rt: HostRuntime) {
    let sigs = no_sigs(&rt, rt.alloc());
    // The bytes 60 to 67 of the stack, of which 64 is the first of another word.
    let stored = after_one(&rt, rt.alloc(), &sigs, store(Size::Double, reg(10), -452));
    marks(&rt, &stored, 60, 68);
    for row in &MARKED {
        let (at, count, marked) = *row;
        assert!(rt; stored.all_marked(at, count) == marked, "{at} {count}");
    }
    drop(stored);
    drop(sigs);
}

/// An access of four bytes somewhere in this range, at this offset, has this place.
fn lies(rt: &impl Abort, range: Range, offset: i32, place: MemoryPlace)
    requires { range.lo ≤ range.hi }
{
    assert!(rt; place_of_access(128, range, offset, 4) == place, "{offset}");
}

#[test]
fn accesses_have_places(rt: HostRuntime) {
    let first = range(0x1_0000_0000, 0x1_0000_0000);
    lies(&rt, first, 124, MemoryPlace::Record(124));
    lies(&rt, first, 125, MemoryPlace::Nowhere);
    lies(&rt, first, -1, MemoryPlace::Nowhere);
    let end = range(0x2_0000_01f8, 0x2_0000_0200);
    lies(&rt, end, -4, MemoryPlace::Stack(500));
    lies(&rt, end, -3, MemoryPlace::Nowhere);
    lies(
        &rt,
        range(0x1_0000_0000, 0x2_0000_01f8),
        0,
        MemoryPlace::Nowhere,
    );
    lies(&rt, range(0, ALL), 0, MemoryPlace::Nowhere);
}
