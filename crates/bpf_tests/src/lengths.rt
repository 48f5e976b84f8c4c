//! Programs beside records of 128 and of 160 bytes.
use crate::fixtures::no_sigs;
use crate::programs::{EXIT, program_of, slot};
use acdm_milestones::Milestone;
use bpf_helpers::{Logged, Sigs};
use bpf_machine::{EbpfVmRaw, Ended, run_tested};
use bpf_regstate::Length;
use bpf_verifier::{ProgramError, read_program};
use std::alloc::Global;
use std::process::Abort;

/// One slot before an exit, and the number of its fault at slot 0 beside 128 and beside 160 bytes,
/// 0 where it is accepted.
type Row = (u8, u8, i16, u16, u16);

static ROWS: [Row; 8] = [
    // ldxb r0, [r1+127], [r1+128], [r1+159], [r1+160]
    (0x71, 0x10, 127, 0, 0),
    (0x71, 0x10, 128, 309, 0),
    (0x71, 0x10, 159, 309, 0),
    (0x71, 0x10, 160, 309, 309),
    // ldxw r0, [r1+156], [r1+157]
    (0x61, 0x10, 156, 309, 0),
    (0x61, 0x10, 157, 309, 309),
    // mov64 r0, r2
    (0xbf, 0x20, 0, 0, 0),
    // stw [r1+128], 0
    (0x62, 0x01, 128, 309, 311),
];

/// The number of the program's fault at slot 0, 0 where it is accepted.
fn code_of(alloc: Global, bytes: &[u8], sigs: &Sigs, length: Length) -> Option<u16> {
    match read_program(alloc, bytes, sigs, length) {
        Ok(_) => Some(0),
        Err(ProgramError::Refused { code, slot: 0 }) => Some(code),
        Err(_) => None,
    }
}

fn is_judged(rt: &impl Abort, alloc: Global, sigs: &Sigs, row: &Row) {
    let (opcode, registers, offset, short, long) = *row;
    let mut bytes = Vec::new(alloc);
    let first = slot(opcode, registers, offset, 0);
    bytes.extend_from_slice(&first).expect(rt, "a slot");
    bytes.extend_from_slice(&EXIT).expect(rt, "an exit");
    let found = code_of(alloc, bytes.as_slice(), sigs, Length::L128);
    assert!(rt; found == Some(short), "{opcode} {offset}, 128 bytes");
    let found = code_of(alloc, bytes.as_slice(), sigs, Length::L160);
    assert!(rt; found == Some(long), "{opcode} {offset}, 160 bytes");
}

#[test]
fn programs_are_judged_by_the_length_of_a_record(rt: HostRuntime) {
    let sigs = no_sigs(&rt, rt.alloc());
    for row in &ROWS {
        is_judged(&rt, rt.alloc(), &sigs, row);
    }
}

/// r0 becomes r2, and then its byte 159 is added: ldxb r3, [r1+159]; mov64 r0, r2; add64 r0, r3.
const SUM: &str = "71139f0000000000bf200000000000000f300000000000009500000000000000";

/// So many bytes, of which that at place 159 is 7.
fn record(rt: &impl Abort, alloc: Global, length: usize) -> Vec<u8> {
    let mut bytes = Vec::new(alloc);
    for place in 0..length {
        let byte = if place == 159 { 7 } else { 0 };
        bytes.push(byte).expect(rt, "a byte");
    }
    bytes
}

fn set(rt: &impl Abort, alloc: Global, vm: &mut EbpfVmRaw, length: Length) -> Option<u16> {
    let bytes = hex::decode(alloc, SUM).expect(rt, "bytes");
    vm.set_program(bytes.as_slice(), length)
        .err()
        .map(|e| e.code())
}

/// A record of so many bytes is refused by this number, or r0 is this one.
fn comes_to(
    rt: &impl Abort,
    alloc: Global,
    vm: &mut EbpfVmRaw,
    length: usize,
    wanted: Result<u64, u16>,
) {
    let bytes = record(rt, alloc, length);
    let found = match vm.execute_program(bytes.as_slice(), 1, Milestone::Landed) {
        Ok(ended) => Ok(ended.r0),
        Err(e) => Err(e.code()),
    };
    assert!(rt; found == wanted, "{length} bytes");
}

fn wants_its_length(rt: &impl Abort, alloc: Global, vm: &mut EbpfVmRaw) {
    comes_to(rt, alloc, vm, 127, Err(334));
    assert!(rt; set(rt, alloc, vm, Length::L128) == Some(309));
    assert!(rt; set(rt, alloc, vm, Length::L160).is_none());
    comes_to(rt, alloc, vm, 128, Err(335));
    comes_to(rt, alloc, vm, 159, Err(335));
    comes_to(rt, alloc, vm, 160, Ok(167));
}

#[test]
fn a_program_runs_beside_records_of_its_length(rt: HostRuntime) {
    let mut vm = EbpfVmRaw::new(rt.alloc()).expect(&rt, "a machine");
    wants_its_length(&rt, rt.alloc(), &mut vm);
    drop(vm);
}

fn tested(rt: &impl Abort, alloc: Global, sigs: &Sigs, length: usize) -> Option<Ended> {
    let record_bytes = record(rt, alloc, length);
    if record_bytes.len() > 160 {
        return None;
    }
    let bytes = hex::decode(alloc, SUM).expect(rt, "bytes");
    let program = program_of(rt, alloc, bytes.as_slice());
    let mut oracle = Logged::new(sigs, &[]);
    run_tested(
        &program,
        sigs,
        record_bytes.as_slice(),
        1,
        Milestone::Landed,
        &mut oracle,
    )
    .ok()
}

#[test]
fn the_machine_with_tests_takes_any_length(rt: HostRuntime) {
    let sigs = no_sigs(&rt, rt.alloc());
    let ended = tested(&rt, rt.alloc(), &sigs, 160);
    assert!(rt; ended == Some(Ended { r0: 167, steps: 4 }));
    assert!(rt; tested(&rt, rt.alloc(), &sigs, 159).is_none());
}
