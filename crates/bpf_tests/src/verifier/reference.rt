//! `verify` beside a pass over a table that keeps a state for every slot to its end, on programs by
//! chance.

use crate::fixtures::no_sigs;
use crate::programs::{EXIT, program_of};
use crate::verifier::faults::{fault_at, next_slot, target};
use crate::verifier::refusal;
use bpf_decode::Op;
use bpf_helpers::Sigs;
use bpf_regstate::{Length, State};
use std::alloc::Global;
use std::process::Abort;

/// For each slot the state that all edges so far bring to it.
type Table = Vec<Option<Box<State>>>;

/// Joins a state into what a row has.
fn meet(rt: &impl Abort, alloc: Global, row: &mut Option<Box<State>>, state: State) {
    match row {
        Some(both) => both.join(&state),
        None => *row = Some(Box::new(alloc, state).expect(rt, "a state")),
    }
}

/// Joins an edge into what the table has at its end.
fn arrive(
    rt: &impl Abort,
    alloc: Global,
    table: &mut Table,
    to: Option<usize>,
    state: Option<State>,
) {
    if let (Some(to), Some(state)) = (to, state) {
        let row = table.get_mut(to).expect(rt, "an edge out of the program");
        meet(rt, alloc, row, state);
    }
}

/// Sends the edges of a slot.
fn depart(
    rt: &impl Abort,
    alloc: Global,
    table: &mut Table,
    sigs: &Sigs,
    slot: usize,
    op: &Op,
    state: &State,
) {
    match op {
        Op::Ja { .. } | Op::Ja32 { .. } => {
            let taken = state.copy().expect(rt, "a state");
            arrive(rt, alloc, table, target(slot, op), Some(taken));
        }
        Op::Jump {
            width,
            condition,
            dst,
            operand,
            ..
        } => {
            let other = state
                .refine(*width, *condition, *dst, *operand, false)
                .expect(rt, "a state");
            arrive(rt, alloc, table, next_slot(slot, op), other);
            let taken = state
                .refine(*width, *condition, *dst, *operand, true)
                .expect(rt, "a state");
            arrive(rt, alloc, table, target(slot, op), taken);
        }
        Op::Exit | Op::Tail => {}
        _ => {
            let after = state
                .transfer(Length::L128, *op, sigs)
                .expect(rt, "a state");
            arrive(rt, alloc, table, next_slot(slot, op), Some(after));
        }
    }
}

/// The table before the first slot: the start, and nothing for each other slot.
fn start(rt: &impl Abort, alloc: Global, slots: usize) -> Table {
    let mut table = Vec::new(alloc);
    for _ in 0..slots {
        table.push(None).expect(rt, "rows");
    }
    arrive(
        rt,
        alloc,
        &mut table,
        Some(0),
        Some(State::start(alloc, Length::L128)),
    );
    table
}

/// What the table has at a slot.
fn state_at(rt: &impl Abort, table: &Table, slot: usize) -> Option<State> {
    match table.get(slot) {
        Some(Some(state)) => Some(state.copy().expect(rt, "a state")),
        _ => None,
    }
}

/// The number of the fault of a slot; its edges are sent where it has none.
fn pass(
    rt: &impl Abort,
    alloc: Global,
    table: &mut Table,
    sigs: &Sigs,
    ops: &[Op],
    slot: usize,
    op: &Op,
) -> Option<u16> {
    let state = state_at(rt, table, slot);
    let fault = fault_at(ops, slot, op, state.as_ref());
    if let (None, Some(state)) = (fault, &state) {
        depart(rt, alloc, table, sigs, slot, op, state);
    }
    drop(state);
    fault
}

/// The number and the slot of the first fault, by a table.
fn first_fault(
    rt: &impl Abort,
    alloc: Global,
    table: &mut Table,
    sigs: &Sigs,
    ops: &[Op],
) -> Option<(u16, usize)> {
    for (slot, op) in ops.iter().enumerate() {
        if let Some(code) = pass(rt, alloc, table, sigs, ops, slot, op) {
            return Some((code, slot));
        }
    }
    None
}

/// The verdict on a program by a table.
fn verdict(rt: &impl Abort, alloc: Global, sigs: &Sigs, bytes: &[u8]) -> Option<(u16, usize)> {
    let program = program_of(rt, alloc, bytes);
    let mut table = start(rt, alloc, program.slot_count());
    first_fault(rt, alloc, &mut table, sigs, program.ops())
}

/// Numbers by chance, always the same.
#[derive(Drop)]
struct Draws {
    seed: u64,
}

impl Draws {
    /// Some bits of the next number.
    fn next(&mut self, mask: u8) -> u8 {
        self.seed = self
            .seed
            .wrapping_mul(6_364_136_223_846_793_005)
            .wrapping_add(1_442_695_040_888_963_407);
        (self.seed >> 40 & 0xff) as u8 & mask
    }

    /// A register that mostly has a word.
    fn register(&mut self) -> u8 {
        match self.next(15) {
            number @ 0..=4 => number,
            5 => 5,
            6 | 7 | 8 => 1,
            9 | 10 => 4,
            11 => 2,
            _ => 0,
        }
    }

    /// The low byte of an offset from the end of the stack, mostly of an aligned word.
    fn place(&mut self) -> u8 {
        match self.next(15) {
            0..=5 => 0xf8,
            6..=9 => 0xf0,
            10 | 11 => 0xe8,
            12 => 0xf4,
            13 => 0xef,
            _ => 0xf1,
        }
    }

    /// The bytes of an instruction.
    fn instruction(&mut self) -> [u8; 8] {
        let dst = self.register();
        let src = self.register().min(10) * 16;
        let place = self.place();
        let small = self.next(127);
        match self.next(31) {
            0..=2 => [0xb7, dst, 0, 0, small, 0, 0, 0],
            3..=5 => [0xbf, src | dst, 0, 0, 0, 0, 0, 0],
            6 => [0x0f, src | dst, 0, 0, 0, 0, 0, 0],
            7 => [0x57, dst, 0, 0, small, 0, 0, 0],
            8..=14 => [0x7b, src | 10, place, 0xff, 0, 0, 0, 0],
            15 | 16 => [0x7a, 10, place, 0xff, small, 0, 0, 0],
            17 => [0x72, 10, place, 0xff, small, 0, 0, 0],
            18 => [0x62, 10, place, 0xff, small, 0, 0, 0],
            19..=24 => [0x79, 0xa0 | dst, place, 0xff, 0, 0, 0, 0],
            25 => [0x61, 0xa0 | dst, place, 0xff, 0, 0, 0, 0],
            26 => [0x71, 0x10 | dst, small, 0, 0, 0, 0, 0],
            27 => [0x71, src | dst, small, 0, 0, 0, 0, 0],
            28 => [0x25, dst, small & 3, 0, 63, 0, 0, 0],
            29 => [0x15, 4, small & 3, 0, 7, 0, 0, 0],
            30 => [0x65, dst, small & 3, 0, small, 0, 0, 0],
            _ => [0x05, 0, small & 1, 0, 0, 0, 0, 0],
        }
    }

    /// The bytes of a program of so many instructions and an exit.
    fn program(&mut self, rt: &impl Abort, alloc: Global, instructions: u8) -> Vec<u8> {
        let mut bytes = Vec::new(alloc);
        bytes
            .extend_from_slice(&[0xb7, 0, 0, 0, 0, 0, 0, 0])
            .expect(rt, "bytes");
        for _ in 0..instructions {
            bytes
                .extend_from_slice(&self.instruction())
                .expect(rt, "bytes");
        }
        bytes.extend_from_slice(&EXIT).expect(rt, "bytes");
        bytes
    }
}

/// The verdict of `verify` is that of the table; whether it is that the program is accepted.
fn agrees(rt: &impl Abort, alloc: Global, sigs: &Sigs, bytes: &[u8]) -> bool {
    let owed = verdict(rt, alloc, sigs, bytes);
    let told = refusal(rt, alloc, sigs, bytes);
    assert!(rt; told == owed, "{bytes:?}");
    told.is_none()
}

/// How many of these programs by chance are accepted.
fn count_accepted(rt: &impl Abort, alloc: Global, sigs: &Sigs, programs: u32) -> u32 {
    let mut draws = Draws { seed: 18 };
    let mut accepted = 0u32;
    for turn in 0..programs {
        let bytes = draws.program(rt, alloc, (turn % 12) as u8 + 1);
        if agrees(rt, alloc, sigs, bytes.as_slice()) {
            accepted = accepted.saturating_add(1);
        }
    }
    accepted
}

#[test]
fn programs_by_chance_have_the_verdict_of_a_whole_table(rt: HostRuntime) {
    let sigs = no_sigs(&rt, rt.alloc());
    let accepted = count_accepted(&rt, rt.alloc(), &sigs, 600);
    assert!(rt; 100 < accepted && accepted < 500, "{accepted}");
    drop(sigs);
}
