//! Calls of a helper with as many arguments as there may be.

use crate::programs::{EXIT, joined, slot};
use crate::verifier::accepted::add_helper;
use crate::verifier::refusal;
use bpf_helpers::{Range, Sigs};
use std::alloc::Global;
use std::process::Abort;

const ANSWER: Range = Range { lo: 0, hi: 0 };

const ARGUMENT: Range = Range { lo: 3, hi: 9 };

/// Helper 1 takes nothing, and helper 2 five numbers from 3 to 9.
fn signatures(rt: &impl Abort, alloc: Global) -> Sigs {
    let mut sigs = Sigs::new(alloc);
    add_helper(rt, alloc, &mut sigs, 1, &[], ANSWER);
    add_helper(rt, alloc, &mut sigs, 2, &[ARGUMENT; 5], ANSWER);
    sigs
}

/// r5 is set, and helper 1 called, which unsets r1 to r5; then helper 2 is called on 3, but for one
/// register, which has this value, or none.
fn calling(rt: &impl Abort, alloc: Global, other: u8, value: Option<i32>) -> Vec<u8> {
    let mut bytes = joined(rt, alloc, &[&slot(0xb7, 5, 0, 3), &slot(0x85, 0, 0, 1)]);
    for register in 1..6u8 {
        let passed = if register == other { value } else { Some(3) };
        if let Some(passed) = passed {
            bytes
                .extend_from_slice(&slot(0xb7, register, 0, passed))
                .expect(rt, "bytes");
        }
    }
    bytes
        .extend_from_slice(&slot(0x85, 0, 0, 2))
        .expect(rt, "bytes");
    bytes.extend_from_slice(&EXIT).expect(rt, "bytes");
    bytes
}

/// Values of one argument, and the fault of the call with its slot, or zeros.
static VALUES: [(Option<i32>, u16, usize); 5] = [
    (Some(3), 0, 0),
    (Some(9), 0, 0),
    (Some(2), 313, 7),
    (Some(10), 313, 7),
    (None, 308, 6),
];

fn is_judged(
    rt: &impl Abort,
    alloc: Global,
    sigs: &Sigs,
    register: u8,
    row: (Option<i32>, u16, usize),
) {
    let (value, code, at) = row;
    let bytes = calling(rt, alloc, register, value);
    let came = refusal(rt, alloc, sigs, bytes.as_slice()).unwrap_or((0, 0));
    assert!(rt; came == (code, at), "r{register}: {value:?}");
}

#[test]
fn each_argument_is_judged(rt: HostRuntime) {
    let sigs = signatures(&rt, rt.alloc());
    for register in 1..6u8 {
        for row in &VALUES {
            is_judged(&rt, rt.alloc(), &sigs, register, *row);
        }
    }
    drop(sigs);
}
