//! Worked runs.

mod cross_check;
mod embedding;
mod form_vectors;
mod forms;
mod vectors;
mod vm;

use crate::fixtures::{no_sigs, taxi_sigs};
use crate::programs::{bytes_of, program_of};
use acdm_milestones::Milestone;
use bpf_decode::Program;
use bpf_helpers::{Logged, Sigs};
use bpf_machine::{Ended, Trap, run, run_tested};
use bpf_regstate::Length;
use bpf_verifier::{Checked, verify};
use std::alloc::Global;
use std::process::Abort;

/// The record of flight 7 from stand 12, scheduled and with a flight plan, both for 10:00, but for
/// 56 zeros at its end.
const PLANNED: &str =
    "0700000000000000444c4837000000004133323041333230444149424300000044414942430000004544444d4544444d030000000000000028000a000c0001053884ba013884ba01";

/// That record.
pub(crate) fn planned(rt: &impl Abort) -> [u8; 128] {
    let mut record_bytes = [0u8; 128];
    hex::decode_to_slice(PLANNED, &mut record_bytes[..72]).expect(rt, "a record");
    record_bytes
}

/// How a program that asks no helper ends on a record.
pub(crate) fn ended(
    rt: &impl Abort,
    alloc: Global,
    sigs: &Sigs,
    record_bytes: &[u8; 128],
    bytes: &[u8],
) -> Ended {
    let program = program_of(rt, alloc, bytes);
    let mut oracle = Logged::new(sigs, &[]);
    let milestone = Milestone::Landed;
    run_tested(&program, sigs, record_bytes, 1, milestone, &mut oracle).expect(rt, "an end")
}

/// What a program comes to on a record in the machine with tests.
fn tested(
    sigs: &Sigs,
    program: &Program,
    record_bytes: &[u8; 128],
    milestone: Milestone,
    answers: &[u64],
) -> Result<Ended, Trap> {
    let mut oracle = Logged::new(sigs, answers);
    run_tested(
        program,
        sigs,
        record_bytes,
        29_000_580,
        milestone,
        &mut oracle,
    )
}

/// What it comes to in the machine without tests.
fn untested(
    checked: &Checked,
    record_bytes: &[u8; 128],
    milestone: Milestone,
    answers: &[u64],
) -> Result<Ended, Trap> {
    if record_bytes.len() != checked.record_length().bytes() {
        return Err(Trap::Stuck);
    }
    let mut oracle = Logged::new(checked.sigs(), answers);
    match run(checked, record_bytes, 29_000_580, milestone, &mut oracle) {
        Ok(ended) => Ok(ended),
        Err(_) => Err(Trap::Unanswered),
    }
}

/// Whether an accepted program comes to the same in the machine without tests; a program that is
/// not accepted does not come there.
fn is_agreed(
    alloc: Global,
    sigs: &Sigs,
    program: Program,
    record_bytes: &[u8; 128],
    milestone: Milestone,
    answers: &[u64],
    came: &Result<Ended, Trap>,
) -> bool {
    match verify(alloc, program, sigs, Length::L128) {
        Ok(checked) => untested(&checked, record_bytes, milestone, answers) == *came,
        Err(_) => true,
    }
}

/// A program comes to this on that record, at 07:00 and with these answers. Where it is accepted, the
/// machine without tests comes to the same.
fn comes_to(
    rt: &impl Abort,
    alloc: Global,
    sigs: &Sigs,
    text: &str,
    milestone: Milestone,
    answers: &[u64],
    wanted: Result<Ended, Trap>,
) {
    let record_bytes = planned(rt);
    let bytes = bytes_of(rt, alloc, text);
    let program = program_of(rt, alloc, bytes.as_slice());
    let came = tested(sigs, &program, &record_bytes, milestone, answers);
    assert!(rt; came == wanted, "{text}");
    let is_agreed = is_agreed(
        alloc,
        sigs,
        program,
        &record_bytes,
        milestone,
        answers,
        &came,
    );
    assert!(rt; is_agreed, "without tests: {text}");
}

/// Each program ends with this r0 in so many steps.
fn end(
    rt: &impl Abort,
    alloc: Global,
    sigs: &Sigs,
    milestone: Milestone,
    rows: &[(&str, u64, u64)],
) {
    for row in rows {
        let (text, r0, steps) = *row;
        comes_to(
            rt,
            alloc,
            sigs,
            text,
            milestone,
            &[],
            Ok(Ended { r0, steps }),
        );
    }
}

/// Programs with r0 at their end and their steps, at milestone 7.
static ENDS: [(&str, u64, u64); 19] = [
    ("b7000000000000009500000000000000", 0, 2),
    // A jump over a wide load, which is one step, and to it.
    (
        "b7000000000000000500020000000000180100000100000000000000000000009500000000000000",
        0,
        3,
    ),
    (
        "b7000000000000000500000000000000180100000100000000000000000000009500000000000000",
        0,
        4,
    ),
    (
        "b7000000090000001504010001000000b7000000050000009500000000000000",
        5,
        4,
    ),
    (
        "71153f0000000000250503007c0000000f5100000000000071100000000000009500000000000000b7000000000000009500000000000000",
        0,
        5,
    ),
    (
        "71153f0000000000250503007f0000000f5100000000000071100000000000009500000000000000b7000000000000009500000000000000",
        0,
        5,
    ),
    (
        "b700000007000000b7020000000000003f200000000000009500000000000000",
        0,
        4,
    ),
    (
        "18000000070000000000000001000000b7020000000000009c200000000000009500000000000000",
        7,
        4,
    ),
    (
        "1800000000000000000000000000008037000100ffffffff9500000000000000",
        9_223_372_036_854_775_808,
        3,
    ),
    (
        "bfa100000000000007010000f8ffffff7a01000000000000b7000000000000009500000000000000",
        0,
        5,
    ),
    ("720affff0500000071a0ffff000000009500000000000000", 5, 3),
    ("5502010080000000b7000000070000009500000000000000", 7, 3),
    (
        "b7000000000000000500010000000000bf600000000000009500000000000000",
        0,
        3,
    ),
    ("2d22010000000000b7000000070000009500000000000000", 7, 3),
    ("61107c00000000009500000000000000", 0, 2),
    ("7a0af8ff0100000079a0f8ff000000009500000000000000", 1, 3),
    // The record's address comes back from the stack, in the last also with a byte stored below
    // it.
    (
        "7b1af8ff00000000b70100000000000079a1f8ff0000000071103f00000000009500000000000000",
        5,
        5,
    ),
    (
        "7b1af8ff0000000015040100010000007b1af8ff0000000079a1f8ff0000000071103f00000000009500000000000000",
        5,
        6,
    ),
    (
        "7b1af8ff00000000720af7ff00000000b70100000000000079a1f8ff0000000071103f00000000009500000000000000",
        5,
        6,
    ),
];

/// The same at milestone 1.
static FIRST_ENDS: [(&str, u64, u64); 3] = [
    (
        "b7000000090000001504010001000000b7000000050000009500000000000000",
        9,
        3,
    ),
    (
        "7b1af8ff0000000015040100010000007b1af8ff0000000079a1f8ff0000000071103f00000000009500000000000000",
        5,
        5,
    ),
    // From the record, where milestone 1 jumps over the change of r1.
    (
        "1504020001000000bfa100000000000007010000f8ffffff71100000000000009500000000000000",
        7,
        3,
    ),
];

#[test]
fn programs_end(rt: HostRuntime) {
    let sigs = no_sigs(&rt, rt.alloc());
    end(&rt, rt.alloc(), &sigs, Milestone::InBlock, &ENDS);
    end(
        &rt,
        rt.alloc(),
        &sigs,
        Milestone::FlightPlanActivated,
        &FIRST_ENDS,
    );
    drop(sigs);
}

/// Each program comes to a state without a step.
fn are_stuck(rt: &impl Abort, alloc: Global, sigs: &Sigs, milestone: Milestone, texts: &[&str]) {
    for text in texts {
        comes_to(rt, alloc, sigs, text, milestone, &[], Err(Trap::Stuck));
    }
}

/// Programs that come to a state without a step, at milestone 7.
static STUCK: [&str; 12] = [
    "0500ffff000000009500000000000000",
    "9500000000000000",
    "61107d00000000009500000000000000",
    "070a0000f8ffffff9500000000000000",
    "79a0f8ff000000009500000000000000",
    "7a010000000000009500000000000000",
    "79154000000000000f5100000000000071100000000000009500000000000000",
    "1504020001000000bfa100000000000007010000f8ffffff71100000000000009500000000000000",
    "620af8ff0100000079a0f8ff000000009500000000000000",
    "b700000000000000",
    "85000000020000009500000000000000",
    "b7000000000000000500010000000000180100000000000000000000000000009500000000000000",
];

/// The same at milestone 1.
static FIRST_STUCK: [&str; 1] = [
    "1504010001000000720affff0500000071a0ffff000000009500000000000000",
];

#[test]
fn programs_trap(rt: HostRuntime) {
    let sigs = no_sigs(&rt, rt.alloc());
    are_stuck(&rt, rt.alloc(), &sigs, Milestone::InBlock, &STUCK);
    are_stuck(
        &rt,
        rt.alloc(),
        &sigs,
        Milestone::FlightPlanActivated,
        &FIRST_STUCK,
    );
    drop(sigs);
}

/// Helper 2 is asked of stand 5, of stand 12, and of the stand of the record.
const STAND_5: &str = "b70100000500000085000000020000009500000000000000";

const STAND_12: &str = "b70100000c00000085000000020000009500000000000000";

const OF_RECORD: &str = "69113c000000000057010000ff01000085000000020000009500000000000000";

/// Programs that ask helper 2, its answers, and what they come to.
static ANSWERED: [(&str, &[u64], Result<Ended, Trap>); 11] = [
    // Behind the call r1 is read, and r5, which both were set before.
    (
        "b7010000050000008500000002000000bf100000000000009500000000000000",
        &[20],
        Err(Trap::Stuck),
    ),
    (
        "b705000005000000b7010000050000008500000002000000bf500000000000009500000000000000",
        &[20],
        Err(Trap::Stuck),
    ),
    (STAND_5, &[20], Ok(Ended { r0: 20, steps: 3 })),
    (STAND_5, &[61], Err(Trap::Unanswered)),
    (STAND_5, &[], Err(Trap::Unanswered)),
    (STAND_12, &[20], Err(Trap::Unanswered)),
    (STAND_12, &[10], Ok(Ended { r0: 10, steps: 3 })),
    (OF_RECORD, &[10], Ok(Ended { r0: 10, steps: 4 })),
    (
        "69113c000000000085000000020000009500000000000000",
        &[10],
        Ok(Ended { r0: 10, steps: 3 }),
    ),
    (
        "b7010000e803000085000000020000009500000000000000",
        &[10],
        Err(Trap::Stuck),
    ),
    ("b7010000050000008500000002000000", &[10], Err(Trap::Stuck)),
];

#[test]
fn helpers_answer_within_their_promise(rt: HostRuntime) {
    let sigs = taxi_sigs(&rt, rt.alloc());
    for row in &ANSWERED {
        let (text, answers, wanted) = *row;
        comes_to(
            &rt,
            rt.alloc(),
            &sigs,
            text,
            Milestone::InBlock,
            answers,
            wanted,
        );
    }
    drop(sigs);
}
