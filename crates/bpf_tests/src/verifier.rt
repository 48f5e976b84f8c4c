//! Worked verdicts.

mod accepted;
mod accepted_accesses;
mod accepted_edges;
mod accepted_limits;
mod accepted_programs;
mod accepted_ranges;
mod accepted_words;
mod calls;
mod faults;
mod form_verdicts;
mod forms;
mod reference;

use crate::fixtures::{no_sigs, taxi_sigs};
use crate::programs::{
    bytes_of, encodes_to, exited, is_fault, is_shown, program_of, repeated, same_count,
};
use bpf_helpers::Sigs;
use bpf_regstate::Length;
use bpf_verifier::{Checked, Explanation, SlotFault, VerifyError, explain, verify};
use std::alloc::{AllocError, Global};
use std::process::Abort;

/// A slot that sets r0.
const SETS: [u8; 8] = [0xb7, 0, 0, 0, 0, 0, 0, 0];

/// The program with these bytes, accepted under these signatures.
fn judged(rt: &impl Abort, alloc: Global, sigs: &Sigs, bytes: &[u8]) -> Checked {
    let program = program_of(rt, alloc, bytes);
    verify(alloc, program, sigs, Length::L128).expect(rt, "an accepted program")
}

/// The number and the slot of the fault of a program, if it is refused.
pub(crate) fn refusal(
    rt: &impl Abort,
    alloc: Global,
    sigs: &Sigs,
    bytes: &[u8],
) -> Option<(u16, usize)> {
    match verify(alloc, program_of(rt, alloc, bytes), sigs, Length::L128) {
        Ok(_) => None,
        Err(error) => Some((error.code(), error.slot())),
    }
}

/// The program has these bytes, and these signatures.
fn is_given_back(
    rt: &impl Abort,
    alloc: Global,
    checked: &Checked,
    sigs: &Sigs,
    bytes: &[u8],
    text: &str,
) {
    encodes_to(rt, alloc, checked.program(), bytes, text);
    assert!(rt; checked.sigs().is_same(sigs), "{text}");
}

/// The program is accepted under these signatures, and given back with them, as its copy is.
fn accepts(rt: &impl Abort, alloc: Global, sigs: &Sigs, text: &str) {
    let bytes = bytes_of(rt, alloc, text);
    let checked = judged(rt, alloc, sigs, bytes.as_slice());
    let copy = checked.copy().expect(rt, "a copy");
    is_given_back(rt, alloc, &checked, sigs, bytes.as_slice(), text);
    is_given_back(rt, alloc, &copy, sigs, bytes.as_slice(), text);
    drop(copy);
    drop(checked);
}

/// The program is refused by this number at this slot.
fn refuses(rt: &impl Abort, alloc: Global, sigs: &Sigs, text: &str, code: u16, slot: usize) {
    let bytes = bytes_of(rt, alloc, text);
    let came = refusal(rt, alloc, sigs, bytes.as_slice());
    is_fault(rt, came, code, slot, text);
}

/// The programs are refused, each by its number at its slot.
fn are_refused(rt: &impl Abort, alloc: Global, sigs: &Sigs, rows: &[(&str, u16, usize)]) {
    for row in rows {
        let (text, code, slot) = *row;
        refuses(rt, alloc, sigs, text, code, slot);
    }
}

/// Programs that are accepted, each beside one that is refused.
fn are_beside(rt: &impl Abort, alloc: Global, sigs: &Sigs, rows: &[(&str, &str, u16, usize)]) {
    for row in rows {
        let (accepted, refused, code, slot) = *row;
        accepts(rt, alloc, sigs, accepted);
        refuses(rt, alloc, sigs, refused, code, slot);
    }
}

/// Programs that are accepted.
static ACCEPTED: [&str; 11] = [
    "b7000000000000009500000000000000",
    "61107c00000000009500000000000000",
    "b7000000090000001504010001000000b7000000050000009500000000000000",
    // From the record at an index of which a jump says that it is in bounds.
    "71153f0000000000250503007c0000000f5100000000000071100000000000009500000000000000b7000000000000009500000000000000",
    "71153f0000000000250503007f0000000f5100000000000071100000000000009500000000000000b7000000000000009500000000000000",
    "bfa100000000000007010000f8ffffff7a01000000000000b7000000000000009500000000000000",
    "720affff0500000071a0ffff000000009500000000000000",
    "5502010080000000b7000000070000009500000000000000",
    // Two rules in C, as clang 14 made them.
    "b70000000000000061124400000000001602040000000000070200001e00000061136000000000003d32010000000000b70000000100000061123000000000005402000040000000160203000000000069113c0000000000560101000000000047000000020000009500000000000000",
    "b7000000000000006112580000000000160205000000000069113800000000000f21000000000000ad31010000000000bf13000000000000bf300000000000009500000000000000",
    // What is not reached may read what is not there.
    "b7000000000000000500010000000000bf600000000000009500000000000000",
];

#[test]
fn programs_are_accepted(rt: HostRuntime) {
    let sigs = no_sigs(&rt, rt.alloc());
    for text in &ACCEPTED {
        accepts(&rt, rt.alloc(), &sigs, text);
    }
    drop(sigs);
}

/// Programs that are refused, each with its number and its slot.
static REFUSED: [(&str, u16, usize); 15] = [
    ("9500000000000000", 308, 0),
    ("61107d00000000009500000000000000", 309, 0),
    ("0500ffff000000009500000000000000", 306, 0),
    ("1504010001000000b7000000050000009500000000000000", 308, 2),
    (
        "71153f000000000025050300800000000f5100000000000071100000000000009500000000000000b7000000000000009500000000000000",
        309,
        3,
    ),
    (
        "71153f000000000025050300ff0000000f5100000000000071100000000000009500000000000000b7000000000000009500000000000000",
        309,
        3,
    ),
    ("070a0000f8ffffff9500000000000000", 314, 0),
    ("79a0f8ff000000009500000000000000", 310, 0),
    ("7a010000000000009500000000000000", 311, 0),
    (
        "79154000000000000f5100000000000071100000000000009500000000000000",
        309,
        2,
    ),
    // The byte is stored on one way alone.
    (
        "1504010001000000720affff0500000071a0ffff000000009500000000000000",
        310,
        2,
    ),
    // One register against itself tells nothing.
    ("2d22010000000000b7000000070000009500000000000000", 308, 2),
    // The address lies in one of two regions.
    (
        "1504020001000000bfa100000000000007010000f8ffffff71100000000000009500000000000000",
        309,
        3,
    ),
    // A wide load of r10.
    (
        "180a0000000000000000000000000000b7000000000000009500000000000000",
        314,
        0,
    ),
    // What is not reached may not write r10.
    (
        "b7000000000000000500010000000000b70a0000000000009500000000000000",
        314,
        2,
    ),
];

#[test]
fn programs_are_refused(rt: HostRuntime) {
    let sigs = no_sigs(&rt, rt.alloc());
    are_refused(&rt, rt.alloc(), &sigs, &REFUSED);
    drop(sigs);
}

/// Programs that find a word of the stack again, each beside one that does not.
static WORDS: [(&str, &str, u16, usize); 9] = [
    // The record's address, stored and loaded as a word, and four bytes off a word.
    (
        "7b1af8ff00000000b70100000000000079a1f8ff0000000071103f00000000009500000000000000",
        "7b1af4ff00000000b70100000000000079a1f4ff0000000071103f00000000009500000000000000",
        309,
        3,
    ),
    // A byte is stored just below it, and into it.
    (
        "7b1af8ff00000000720af7ff00000000b70100000000000079a1f8ff0000000071103f00000000009500000000000000",
        "7b1af8ff00000000720affff00000000b70100000000000079a1f8ff0000000071103f00000000009500000000000000",
        309,
        4,
    ),
    // One of two ways stores it again, and something else.
    (
        "7b1af8ff0000000015040100010000007b1af8ff0000000079a1f8ff0000000071103f00000000009500000000000000",
        "7b1af8ff0000000015040100010000007b2af8ff0000000079a1f8ff0000000071103f00000000009500000000000000",
        309,
        4,
    ),
    // A store to one of sixteen addresses, of which none is in the word, and the least its last
    // byte.
    (
        "7b1ae0ff000000000fa40000000000007204e7ff0000000079a1e0ff0000000071103f00000000009500000000000000",
        "7b1ae0ff000000000fa40000000000007204e6ff0000000079a1e0ff0000000071103f00000000009500000000000000",
        309,
        4,
    ),
    // An immediate is stored to another word, and to this one.
    (
        "7b1af8ff000000007a0af0ff0500000079a1f8ff0000000071103f00000000009500000000000000",
        "7b1af8ff000000007a0af8ff0500000079a1f8ff0000000071103f00000000009500000000000000",
        309,
        3,
    ),
    // An index of 5 in a word, and one of which four bytes were stored again.
    (
        "7a0af8ff0500000079a5f8ff000000000f1500000000000071500000000000009500000000000000",
        "7a0af8ff05000000620af8ff0500000079a5f8ff000000000f1500000000000071500000000000009500000000000000",
        309,
        4,
    ),
    // -1, with which no jump is taken, and its 32 bits, with which one is.
    (
        "7a0af8ffffffffff79a5f8ff0000000055050100ffffffff71103f00000000009500000000000000",
        "7a0af8ffffffffff61a5f8ff0000000055050100ffffffff71103f00000000009500000000000000",
        308,
        4,
    ),
    // A milestone is loaded whole, and four bytes of it.
    (
        "7b4af8ff0000000079a5f8ff000000000f1500000000000071500000000000009500000000000000",
        "7b4af8ff0000000061a5f8ff000000000f1500000000000071500000000000009500000000000000",
        309,
        3,
    ),
    // Both ways keep the word, and one of them.
    (
        "620af8ff00000000620afcff000000007b1af8ff0000000015040100010000007b1af8ff0000000079a1f8ff0000000071103f00000000009500000000000000",
        "620af8ff00000000620afcff0000000015040100010000007b1af8ff0000000079a1f8ff0000000071103f00000000009500000000000000",
        309,
        5,
    ),
];

#[test]
fn a_word_of_the_stack_is_known_again(rt: HostRuntime) {
    let sigs = no_sigs(&rt, rt.alloc());
    are_beside(&rt, rt.alloc(), &sigs, &WORDS);
    drop(sigs);
}

/// Programs without a fault, each beside one with it.
static NEIGHBOURS: [(&str, &str, u16, usize); 14] = [
    // A jump over a wide load, and one into it.
    (
        "b7000000000000000500020000000000180100000000000000000000000000009500000000000000",
        "b7000000000000000500010000000000180100000000000000000000000000009500000000000000",
        306,
        1,
    ),
    // A jump to the exit, and one past the end.
    (
        "b7000000000000000500000000000000180100000000000000000000000000009500000000000000",
        "b7000000000000000500030000000000180100000000000000000000000000009500000000000000",
        306,
        1,
    ),
    (
        "b7000000000000009500000000000000",
        "b700000000000000",
        307,
        0,
    ),
    (
        "18000000000000000000000000000000b7000000000000009500000000000000",
        "18000000000000000000000000000000",
        307,
        0,
    ),
    // After a call, r0 is read, and r1.
    (
        "b70100000500000085000000020000009500000000000000",
        "b7010000050000008500000002000000bf100000000000009500000000000000",
        308,
        2,
    ),
    (
        "61107c00000000009500000000000000",
        "61107d00000000009500000000000000",
        309,
        0,
    ),
    // Eight bytes are stored, and four, of eight that are loaded.
    (
        "7a0af8ff0100000079a0f8ff000000009500000000000000",
        "620af8ff0100000079a0f8ff000000009500000000000000",
        310,
        1,
    ),
    // A store to the stack, and one to the record.
    (
        "bfa100000000000007010000f8ffffff7a01000000000000b7000000000000009500000000000000",
        "7a01000000000000b7000000000000009500000000000000",
        311,
        0,
    ),
    (
        "b70100000500000085000000020000009500000000000000",
        "b70100000500000085000000040000009500000000000000",
        312,
        1,
    ),
    // The stand of the record, with its low nine bits, and as it is.
    (
        "69113c000000000057010000ff01000085000000020000009500000000000000",
        "69113c000000000085000000020000009500000000000000",
        313,
        1,
    ),
    (
        "69113c000000000057010000ff01000085000000020000009500000000000000",
        "69113c000000000057010000ff03000085000000020000009500000000000000",
        313,
        2,
    ),
    // That number comes back from the stack, and four bytes of it.
    (
        "69113c000000000057010000ff0100007b1af8ff0000000079a1f8ff0000000085000000020000009500000000000000",
        "69113c000000000057010000ff0100007b1af8ff0000000061a1f8ff0000000085000000020000009500000000000000",
        313,
        4,
    ),
    // A rule in C, as clang 14 made it: with a test of the stand, and without.
    (
        "bf16000000000000b700000000000000616148000000000016010c0000000000616760000000000016070a000000000069613c000000000026010800e70300008500000002000000bf010000000000000f710000000000006162480000000000b4000000010000002d21010000000000b40000000000000067000000020000009500000000000000",
        "bf16000000000000b700000000000000616148000000000016010b00000000006167600000000000160709000000000069613c00000000008500000002000000bf010000000000000f710000000000006162480000000000b4000000010000002d21010000000000b40000000000000067000000020000009500000000000000",
        313,
        7,
    ),
    // A change of r1, and one of r10.
    (
        "07010000f8ffffffb7000000000000009500000000000000",
        "070a0000f8ffffffb7000000000000009500000000000000",
        314,
        0,
    ),
];

#[test]
fn each_fault_has_a_neighbour(rt: HostRuntime) {
    let sigs = taxi_sigs(&rt, rt.alloc());
    are_beside(&rt, rt.alloc(), &sigs, &NEIGHBOURS);
    drop(sigs);
}

/// Programs with several faults, each with the number and the slot that are told.
static SEVERAL_FAULTS: [(&str, u16, usize); 4] = [
    // The end of the program, and an unknown helper.
    ("8500000004000000", 307, 0),
    // An unknown helper, and an exit without r0.
    ("85000000040000009500000000000000", 312, 0),
    // A register that is not there, and a write of r10.
    ("bf5a0000000000009500000000000000", 308, 0),
    // A slot without r0, and a later write of r10.
    ("bf50000000000000b70a0000000000009500000000000000", 308, 0),
];

#[test]
fn the_least_slot_and_its_least_number_are_told(rt: HostRuntime) {
    let sigs = no_sigs(&rt, rt.alloc());
    are_refused(&rt, rt.alloc(), &sigs, &SEVERAL_FAULTS);
    drop(sigs);
}

/// The text of a fault, and of its refusal at slot 2.
fn has_text(rt: &impl Abort, alloc: Global, fault: SlotFault, text: &str) {
    is_shown(rt, alloc, &fault, text);
    let refused = VerifyError::Refused { fault, slot: 2 };
    let whole = format!(in alloc; "slot 2: {text}").expect(rt, text);
    is_shown(rt, alloc, &refused, whole.as_str());
}

/// Each fault with its text.
static TEXTS: [(SlotFault, &str); 9] = [
    (
        SlotFault::Jump,
        "jump backward, outside or into a wide load",
    ),
    (SlotFault::FallsOff, "end of the program without an exit"),
    (SlotFault::Uninitialised, "uninitialised register"),
    (
        SlotFault::Address,
        "address outside the record and the stack",
    ),
    (SlotFault::StackByte, "uninitialised byte of the stack"),
    (SlotFault::WritesRecord, "store to the record"),
    (SlotFault::Helper, "unknown helper"),
    (SlotFault::Argument, "argument outside the helper's range"),
    (SlotFault::WritesEnd, "write to r10"),
];

#[test]
fn errors_have_texts(rt: HostRuntime) {
    for row in &TEXTS {
        let (fault, text) = *row;
        has_text(&rt, rt.alloc(), fault, text);
    }
    let memory = VerifyError::from(AllocError);
    same_count(&rt, memory.code() as usize, 501, "no memory");
    is_shown(&rt, rt.alloc(), &memory, "no memory");
}

/// The program and its copy have so many slots.
fn has_length(rt: &impl Abort, checked: &Checked, slots: u16) {
    same_count(rt, checked.program().slot_count(), slots as usize, "slots");
    let copy = checked.copy().expect(rt, "a copy");
    same_count(rt, copy.program().slot_count(), slots as usize, "a copy");
    drop(copy);
}

/// A program of so many slots is accepted, of which the last is the exit, and refused without it.
fn is_as_long(rt: &impl Abort, alloc: Global, sigs: &Sigs, slots: u16) {
    let others = slots.saturating_sub(1);
    let bytes = repeated(rt, alloc, &SETS, others);
    let came = refusal(rt, alloc, sigs, bytes.as_slice());
    is_fault(
        rt,
        came,
        307,
        (others as usize).saturating_sub(1),
        "no exit",
    );
    let bytes = exited(rt, alloc, &SETS, others);
    let checked = judged(rt, alloc, sigs, bytes.as_slice());
    has_length(rt, &checked, slots);
    drop(checked);
}

static LENGTHS: [u16; 11] = [2, 3, 7, 64, 255, 256, 257, 1_000, 2_048, 4_095, 4_096];

#[test]
fn programs_of_several_lengths_are_judged(rt: HostRuntime) {
    let sigs = no_sigs(&rt, rt.alloc());
    for slots in &LENGTHS {
        is_as_long(&rt, rt.alloc(), &sigs, *slots);
    }
    drop(sigs);
}

/// 4,095 times this jump, and an exit, to which nothing brings r0.
fn comes_to_an_exit(rt: &impl Abort, alloc: Global, sigs: &Sigs, jump: &[u8; 8]) {
    let bytes = exited(rt, alloc, jump, 4_095);
    let came = refusal(rt, alloc, sigs, bytes.as_slice());
    is_fault(rt, came, 308, 4_095, "jumps");
}

#[test]
fn what_is_known_goes_along_many_jumps(rt: HostRuntime) {
    let sigs = no_sigs(&rt, rt.alloc());
    // Always, and where the moment is 1 or is not: both edges go to the next slot.
    comes_to_an_exit(&rt, rt.alloc(), &sigs, &[0x05, 0, 0, 0, 0, 0, 0, 0]);
    comes_to_an_exit(&rt, rt.alloc(), &sigs, &[0x15, 3, 0, 0, 1, 0, 0, 0]);
    drop(sigs);
}

/// A program whose slot 1 is jumped over, and whose slot 2 loads a byte of the stack that is not
/// stored.
const JUMPS_OVER: &str = "0500010000000000b70000000100000071a0ffff000000009500000000000000";

/// Whether something is known before a slot.
fn is_known(told: &Explanation, slot: usize) -> bool {
    matches!(told.states.get(slot), Some(Some(_)))
}

/// Slot 2 is faulty, and slot 1 has no state.
fn is_told(rt: &impl Abort, told: &Explanation) {
    assert!(rt; told.fault == Some((SlotFault::StackByte, 2)));
    same_count(rt, told.states.len(), 3, "states");
    assert!(rt; is_known(told, 0) && !is_known(told, 1) && is_known(told, 2));
}

#[test]
fn states_are_told_up_to_the_first_fault(rt: HostRuntime) {
    let sigs = no_sigs(&rt, rt.alloc());
    let bytes = bytes_of(&rt, rt.alloc(), JUMPS_OVER);
    let program = program_of(&rt, rt.alloc(), bytes.as_slice());
    let told = explain(rt.alloc(), &program, &sigs, Length::L128).expect(&rt, "what is known");
    is_told(&rt, &told);
    drop(told);
    drop(program);
    drop(sigs);
}
