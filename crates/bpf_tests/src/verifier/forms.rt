//! Each form of instruction in programs that are accepted and refused. bench/forms/verdicts.py says
//! of what rows and why.

use crate::fixtures::no_sigs;
use crate::programs::{EXIT, joined, slot};
use crate::verifier::form_verdicts::VERDICTS;
use crate::verifier::refusal;
use bpf_helpers::Sigs;
use std::alloc::Global;
use std::process::Abort;

/// The bytes of a program of this slot behind three others, of which r0 and r6 are set and eight
/// bytes stored.
fn bytes_of(rt: &impl Abort, alloc: Global, row: (u8, u8, i16, i32, u16)) -> Vec<u8> {
    let (opcode, registers, offset, immediate, _) = row;
    joined(
        rt,
        alloc,
        &[
            &slot(0xb7, 0, 0, 0),
            &slot(0xb7, 6, 0, 1),
            &slot(0x7a, 0x0a, -8, 0),
            &slot(opcode, registers, offset, immediate),
            &slot(0xb7, 0, 0, 0),
            &EXIT,
        ],
    )
}

/// The program has this fault at slot 3, or none if that is 0.
fn has_fault(rt: &impl Abort, alloc: Global, sigs: &Sigs, bytes: &[u8], fault: u16) {
    let (code, slot) = refusal(rt, alloc, sigs, bytes).unwrap_or((0, 3));
    assert!(rt; code == fault && slot == 3, "{code} {slot}: {bytes:?}");
}

#[test]
fn each_form_has_its_fault(rt: HostRuntime) {
    let sigs = no_sigs(&rt, rt.alloc());
    for row in &VERDICTS {
        let bytes = bytes_of(&rt, rt.alloc(), *row);
        has_fault(&rt, rt.alloc(), &sigs, bytes.as_slice(), row.4);
    }
    drop(sigs);
}
