//! Arithmetic of the machine against results that were computed outside it, by vectors/vectors.py.
use crate::fixtures::no_sigs;
use crate::machine::ended;
use crate::machine::vectors::{VECTORS, Vector};
use crate::programs::{EXIT, exited, joined, slot, wide};
use bpf_helpers::Sigs;
use bpf_machine::Ended;
use std::alloc::Global;
use std::process::Abort;

/// Two wide loads of r0 and r1, the instruction on them, and an exit.
fn bytes_of(rt: &impl Abort, alloc: Global, vector: Vector) -> Vec<u8> {
    let (opcode, offset, immediate, destination, source, _) = vector;
    // Negation and byte order have no second register.
    let registers = if matches!(opcode >> 4, 0x8 | 0xd) {
        0
    } else {
        0x10
    };
    joined(
        rt,
        alloc,
        &[
            &wide(0, destination),
            &wide(1, source),
            &slot(opcode, registers, offset as i16, immediate as i32),
            &EXIT,
        ],
    )
}

/// The program ends with r0 on a record of zeros, in so many steps.
fn ends(rt: &impl Abort, alloc: Global, sigs: &Sigs, bytes: &[u8], r0: u64, steps: u64) {
    let ended = ended(rt, alloc, sigs, &[0; 128], bytes);
    assert!(rt; ended == (Ended { r0, steps }), "{r0}: {bytes:?}");
}

#[test]
fn arithmetic_agrees_with_outside_results(rt: HostRuntime) {
    let sigs = no_sigs(&rt, rt.alloc());
    for vector in &VECTORS {
        let bytes = bytes_of(&rt, rt.alloc(), *vector);
        ends(&rt, rt.alloc(), &sigs, bytes.as_slice(), vector.5, 4);
    }
    drop(sigs);
}

#[test]
fn the_longest_program_ends(rt: HostRuntime) {
    let sigs = no_sigs(&rt, rt.alloc());
    let bytes = exited(&rt, rt.alloc(), &slot(0xb7, 0, 0, 0), 4_095);
    ends(&rt, rt.alloc(), &sigs, bytes.as_slice(), 0, 4_096);
    drop(sigs);
}
