//! The embeddable machine with the three helpers of this project.

ghost use Rattle.std.specs.Prelude.{◌≡◌};

use crate::fixtures::{
    minutes_later, range, sum_signature, taxi_helper, turn_round_minutes, turn_round_signature,
};
use crate::machine::planned;
use crate::programs::{EXIT, bytes_of, exited, is_fault, slot};
use acdm_milestones::Milestone;
use bpf_helpers::{Helper, HelperCode, Signature};
use bpf_machine::{EbpfVmRaw, Ended};
use bpf_regstate::Length;
use std::alloc::Global;
use std::process::Abort;

/// The aircraft category, and 0 where it is over 124.
const CATEGORY: &str =
    "71153f0000000000250503007c0000000f5100000000000071100000000000009500000000000000b7000000000000009500000000000000";

/// The milestone of the run.
const MILESTONE: &str = "bf400000000000009500000000000000";

/// The moment of the run, five minutes later.
const FIVE_LATER: &str = "bf31000000000000b70200000500000085000000030000009500000000000000";

/// Helper 1.
fn turn_round_helper(rt: &impl Abort, alloc: Global) -> Helper {
    let code: HelperCode = Box::new(alloc, turn_round_minutes).expect(rt, "code");
    Helper::new(1, turn_round_signature(rt, alloc), code)
}

/// Helper 3.
pub(crate) fn sum_helper(rt: &impl Abort, alloc: Global) -> Helper {
    let code: HelperCode = Box::new(alloc, minutes_later).expect(rt, "code");
    Helper::new(3, sum_signature(rt, alloc), code)
}

/// Helper 4 takes a number up to 9, and answers the second that it is passed, which is 0.
fn second_helper(rt: &impl Abort, alloc: Global) -> Helper {
    let args = vec![in alloc; range(0, 9)].expect(rt, "an argument");
    let signature = Signature::new(args, range(0, 0), Vec::new(alloc));
    let code: HelperCode = Box::new(
        alloc,
        |_a: u64, b: u64, _c: u64, _d: u64, _e: u64| -> u64
            ensures { result ≡ b }
        { b },
    )
    .expect(rt, "code");
    Helper::new(4, signature.expect(rt, "a signature"), code)
}

/// Registers a helper. Where it is refused: the fault's number, and that of the helper that came
/// back.
fn refusal(vm: &mut EbpfVmRaw, helper: Helper) -> Option<(u16, u32)> {
    vm.register_helper(helper)
        .err()
        .map(|refused| (refused.fault.code(), refused.helper.number()))
}

/// A helper is registered.
fn adds(rt: &impl Abort, vm: &mut EbpfVmRaw, helper: Helper) {
    assert!(rt; refusal(vm, helper).is_none(), "a helper is refused");
}

/// A helper is refused by this number, and comes back.
fn refuses(rt: &impl Abort, vm: &mut EbpfVmRaw, helper: Helper, code: u16, number: u32) {
    let (found, returned) = refusal(vm, helper).expect(rt, "a refusal");
    assert!(rt; found == code && returned == number, "{found} {returned}");
}

/// Sets a program of these digits. Where it is refused: the fault's number and slot.
fn fault(rt: &impl Abort, alloc: Global, vm: &mut EbpfVmRaw, text: &str) -> Option<(u16, usize)> {
    let bytes = bytes_of(rt, alloc, text);
    match vm.set_program(bytes.as_slice(), Length::L128) {
        Ok(()) => None,
        Err(e) => Some((e.code(), e.slot())),
    }
}

/// Such a program is set.
fn sets(rt: &impl Abort, alloc: Global, vm: &mut EbpfVmRaw, text: &str) {
    assert!(rt; fault(rt, alloc, vm, text).is_none(), "{text}");
}

/// Such a program is refused by this number at this slot.
fn refuses_program(
    rt: &impl Abort,
    alloc: Global,
    vm: &mut EbpfVmRaw,
    text: &str,
    code: u16,
    slot: usize,
) {
    is_fault(rt, fault(rt, alloc, vm, text), code, slot, text);
}

/// What the machine's program comes to on the record of the worked runs, or the error's number.
fn outcome(rt: &impl Abort, vm: &mut EbpfVmRaw, moment: u32) -> Result<Ended, u16> {
    match vm.execute_program(&planned(rt), moment, Milestone::InBlock) {
        Ok(ended) => Ok(ended),
        Err(e) => Err(e.code()),
    }
}

/// The machine's program ends with r0 in so many steps.
fn ends(rt: &impl Abort, vm: &mut EbpfVmRaw, moment: u32, r0: u64, steps: u64) {
    assert!(rt;
        outcome(rt, vm, moment) == Ok(Ended { r0, steps }),
        "{moment}"
    );
}

/// A machine without a program runs none.
fn runs_none(rt: &impl Abort, vm: &mut EbpfVmRaw) {
    assert!(rt; outcome(rt, vm, 29_000_580) == Err(334), "no program");
}

/// A program stays until another is accepted.
fn stays(rt: &impl Abort, alloc: Global, vm: &mut EbpfVmRaw) {
    sets(rt, alloc, vm, CATEGORY);
    ends(rt, vm, 29_000_580, 0, 5);
    refuses_program(rt, alloc, vm, "9500000000000000", 308, 0);
    refuses_program(rt, alloc, vm, "1800000001000000", 315, 0);
    ends(rt, vm, 29_000_580, 0, 5);
    sets(rt, alloc, vm, MILESTONE);
    ends(rt, vm, 29_000_580, 7, 2);
}

#[test]
fn a_program_stays_until_another_is_accepted(rt: HostRuntime) {
    let mut vm = EbpfVmRaw::new(rt.alloc()).expect(&rt, "a machine");
    adds(&rt, &mut vm, turn_round_helper(&rt, rt.alloc()));
    adds(&rt, &mut vm, taxi_helper(&rt, rt.alloc()));
    adds(&rt, &mut vm, sum_helper(&rt, rt.alloc()));
    runs_none(&rt, &mut vm);
    stays(&rt, rt.alloc(), &mut vm);
    refuses(&rt, &mut vm, taxi_helper(&rt, rt.alloc()), 333, 2);
    drop(vm);
}

/// Helper 3 is called once it is registered.
fn calls_sum(rt: &impl Abort, alloc: Global, vm: &mut EbpfVmRaw) {
    refuses_program(rt, alloc, vm, FIVE_LATER, 312, 2);
    adds(rt, vm, sum_helper(rt, alloc));
    refuses(rt, vm, sum_helper(rt, alloc), 331, 3);
    sets(rt, alloc, vm, FIVE_LATER);
    ends(rt, vm, 7, 12, 4);
}

/// Helper 4 is passed 5 alone, though r2 is the record's length.
fn calls_second(rt: &impl Abort, alloc: Global, vm: &mut EbpfVmRaw) {
    sets(
        rt,
        alloc,
        vm,
        "b70100000500000085000000040000009500000000000000",
    );
    ends(rt, vm, 7, 0, 3);
}

#[test]
fn helpers_are_called(rt: HostRuntime) {
    let mut vm = EbpfVmRaw::new(rt.alloc()).expect(&rt, "a machine");
    adds(&rt, &mut vm, second_helper(&rt, rt.alloc()));
    calls_sum(&rt, rt.alloc(), &mut vm);
    calls_second(&rt, rt.alloc(), &mut vm);
    drop(vm);
}

/// A program of these bytes is set, and ends with r0 in so many steps.
fn runs(rt: &impl Abort, vm: &mut EbpfVmRaw, bytes: &[u8], r0: u64, steps: u64) {
    let is_set = vm.set_program(bytes, Length::L128).is_ok();
    assert!(rt; is_set, "{steps} slots");
    ends(rt, vm, 7, r0, steps);
}

/// r1 = 0 and helper 2, so often, and an exit.
fn asking(rt: &impl Abort, alloc: Global, times: u16) -> Vec<u8> {
    let mut bytes = Vec::new(alloc);
    for _ in 0..times {
        bytes
            .extend_from_slice(&slot(0xb7, 1, 0, 0))
            .expect(rt, "bytes");
        bytes
            .extend_from_slice(&slot(0x85, 0, 0, 2))
            .expect(rt, "bytes");
    }
    bytes.extend_from_slice(&EXIT).expect(rt, "bytes");
    bytes
}

/// Those of 4,096 slots, and of 2,047 questions.
fn runs_longest(rt: &impl Abort, alloc: Global, vm: &mut EbpfVmRaw) {
    let zeros = exited(rt, alloc, &slot(0xb7, 0, 0, 0), 4_095);
    runs(rt, vm, zeros.as_slice(), 0, 4_096);
    let asks = asking(rt, alloc, 2_047);
    runs(rt, vm, asks.as_slice(), 10, 4_095);
}

#[test]
fn the_longest_programs_are_run(rt: HostRuntime) {
    let mut vm = EbpfVmRaw::new(rt.alloc()).expect(&rt, "a machine");
    adds(&rt, &mut vm, taxi_helper(&rt, rt.alloc()));
    runs_longest(&rt, rt.alloc(), &mut vm);
    drop(vm);
}
