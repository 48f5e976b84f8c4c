//! Programs that are loaded, replaced and taken out.

use crate::fixture::{TAXI, checked, no_sigs, same_bytes, same_number, taxi_sigs};
use acdm_milestones::Milestone;
use acdm_slots::{Kind, SlotError, Slots};
use bpf_decode::encode;
use bpf_helpers::Sigs;
use bpf_regstate::Length;
use bpf_verifier::Checked;
use std::alloc::Global;
use std::process::Abort;

/// Programs whose r0 is the moment, and 0.
const MOMENT: &str = "bf300000000000009500000000000000";

const NOTHING: &str = "b7000000000000009500000000000000";

/// The program of a kind at a milestone has these bytes; an empty text is no program.
fn has(
    rt: &impl Abort,
    alloc: Global,
    slots: &Slots,
    milestone: Milestone,
    kind: Kind,
    text: &str,
) {
    match slots.get(milestone, kind) {
        Some(program) => has_bytes(rt, alloc, program, text),
        None => assert!(rt; text.is_empty()),
    }
}

fn has_bytes(rt: &impl Abort, alloc: Global, program: &Checked, text: &str) {
    let bytes = hex::decode(alloc, text).expect(rt, "bytes");
    let found = encode(alloc, program.program()).expect(rt, "an encoded program");
    same_bytes(rt, found.as_slice(), bytes.as_slice());
}

/// Slots without programs, for programs that were checked under these signatures.
fn slots_under(rt: &impl Abort, alloc: Global, sigs: &Sigs) -> Slots {
    Slots::new(alloc, sigs.copy().expect(rt, "signatures"), Length::L128).expect(rt, "slots")
}

#[test]
fn errors_have_numbers(rt: HostRuntime) {
    same_number(&rt, u64::from(SlotError::EmptySlot.code()), 321);
    same_number(&rt, u64::from(SlotError::OtherSignatures.code()), 322);
    same_number(&rt, u64::from(SlotError::OtherLength.code()), 323);
}

/// The answer to a load of the program of these bytes at milestone 7, as `code_of` tells it.
fn loaded(
    rt: &impl Abort,
    alloc: Global,
    slots: &mut Slots,
    sigs: &Sigs,
    kind: Kind,
    text: &str,
) -> u64 {
    code_of(slots.load(Milestone::InBlock, kind, checked(rt, alloc, sigs, text)))
}

/// The number of a refusal, or 0 where it is none.
fn code_of(answer: Result<(), SlotError>) -> u64 {
    match answer {
        Ok(()) => 0,
        Err(error) => u64::from(error.code()),
    }
}

/// A slot has no program.
fn is_empty(rt: &impl Abort, slots: &mut Slots, milestone: Milestone, kind: Kind) {
    assert!(rt; slots.get(milestone, kind).is_none());
    same_number(rt, code_of(slots.unload(milestone, kind)), 321);
}

/// No slot has a program.
fn nothing_is_loaded(rt: &impl Abort, slots: &mut Slots) {
    for number in 1..17 {
        let milestone = Milestone::from_number(number).expect(rt, "a milestone");
        for kind in [Kind::Tobt, Kind::Alert] {
            is_empty(rt, slots, milestone, kind);
        }
    }
}

#[test]
fn nothing_is_loaded_at_first(rt: HostRuntime) {
    let alloc = rt.alloc();
    let mut slots = slots_under(&rt, alloc, &no_sigs(&rt, alloc));
    nothing_is_loaded(&rt, &mut slots);
}

/// A program comes into a slot, and nothing is refused.
fn comes(rt: &impl Abort, slots: &mut Slots, milestone: Milestone, kind: Kind, program: &Checked) {
    let program = program.copy().expect(rt, "a copy");
    same_number(rt, code_of(slots.load(milestone, kind, program)), 0);
}

/// A program comes into each slot, and goes from each by itself.
fn all_come_and_go(rt: &impl Abort, slots: &mut Slots, program: &Checked) {
    for number in 1..17 {
        let milestone = Milestone::from_number(number).expect(rt, "a milestone");
        comes(rt, slots, milestone, Kind::Tobt, program);
        comes(rt, slots, milestone, Kind::Alert, program);
    }
    for number in 1..17 {
        let milestone = Milestone::from_number(number).expect(rt, "a milestone");
        same_number(rt, code_of(slots.unload(milestone, Kind::Tobt)), 0);
        same_number(rt, code_of(slots.unload(milestone, Kind::Alert)), 0);
    }
}

#[test]
fn each_program_has_a_slot_of_its_own(rt: HostRuntime) {
    let sigs = no_sigs(&rt, rt.alloc());
    let mut slots = slots_under(&rt, rt.alloc(), &sigs);
    let program = checked(&rt, rt.alloc(), &sigs, NOTHING);
    all_come_and_go(&rt, &mut slots, &program);
    nothing_is_loaded(&rt, &mut slots);
}

/// A program is loaded at milestone 7, or unloaded with this answer, or a slot has a program.
#[derive(Clone, Copy)]
enum Step {
    Loads(Kind, &'static str),
    Unloads(Kind, u64),
    Has(Milestone, Kind, &'static str),
}

fn follow(rt: &impl Abort, alloc: Global, slots: &mut Slots, sigs: &Sigs, step: Step) {
    match step {
        Step::Loads(kind, text) => {
            same_number(rt, loaded(rt, alloc, slots, sigs, kind, text), 0);
        }
        Step::Unloads(kind, code) => {
            same_number(rt, code_of(slots.unload(Milestone::InBlock, kind)), code);
        }
        Step::Has(milestone, kind, text) => has(rt, alloc, slots, milestone, kind, text),
    }
}

/// A load replaces what stands there, and nothing else, and so does an unload.
fn come_and_go(rt: &impl Abort, alloc: Global, slots: &mut Slots, sigs: &Sigs) {
    assert!(rt; slots.sigs().is_same(sigs));
    let at = Milestone::InBlock;
    let steps = [
        Step::Loads(Kind::Tobt, NOTHING),
        Step::Has(at, Kind::Tobt, NOTHING),
        Step::Has(at, Kind::Alert, ""),
        Step::Has(Milestone::Landed, Kind::Tobt, ""),
        Step::Loads(Kind::Alert, NOTHING),
        Step::Loads(Kind::Tobt, MOMENT),
        Step::Has(at, Kind::Tobt, MOMENT),
        Step::Has(at, Kind::Alert, NOTHING),
        Step::Unloads(Kind::Tobt, 0),
        Step::Has(at, Kind::Tobt, ""),
        Step::Has(at, Kind::Alert, NOTHING),
        Step::Unloads(Kind::Tobt, 321),
    ];
    for step in steps {
        follow(rt, alloc, slots, sigs, step);
    }
}

#[test]
fn programs_come_and_go(rt: HostRuntime) {
    let alloc = rt.alloc();
    let sigs = no_sigs(&rt, alloc);
    let mut slots = slots_under(&rt, alloc, &sigs);
    come_and_go(&rt, alloc, &mut slots, &sigs);
}

/// A program that was checked under other signatures is refused, and changes nothing.
fn keeps_its_signatures(
    rt: &impl Abort,
    alloc: Global,
    slots: &mut Slots,
    sigs: &Sigs,
    others: &Sigs,
) {
    let at = Milestone::InBlock;
    same_number(rt, loaded(rt, alloc, slots, sigs, Kind::Alert, TAXI), 0);
    same_number(
        rt,
        loaded(rt, alloc, slots, others, Kind::Alert, NOTHING),
        322,
    );
    has(rt, alloc, slots, at, Kind::Alert, TAXI);
}

#[test]
fn signatures_have_to_be_the_same(rt: HostRuntime) {
    let alloc = rt.alloc();
    let sigs = taxi_sigs(&rt, alloc);
    let others = no_sigs(&rt, alloc);
    let mut slots = slots_under(&rt, alloc, &sigs);
    keeps_its_signatures(&rt, alloc, &mut slots, &sigs, &others);
}
