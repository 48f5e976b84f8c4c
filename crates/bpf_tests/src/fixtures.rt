//! What several of the tests use.

ghost use Rattle.std.specs.Prelude.{◌≡◌, ◌+◌, ◌<◌, ◌^◌};
ghost use Rattle.bpf_helpers.specs.Known.{sum, taxi, taxi_from, turn_round, turn_round_of};

use bpf_helpers::{Bank, Helper, HelperCode, Range, Signature, Sigs};
use std::alloc::Global;
use std::process::Abort;

pub(crate) const A320: u64 = 808_596_289;

pub(crate) const B738: u64 = 942_880_578;

pub(crate) const A388: u64 = 943_207_233;

/// The signatures of no helper.
pub(crate) fn no_sigs(rt: &impl Abort, alloc: Global) -> Sigs {
    let bank = Bank::new(alloc).expect(rt, "a bank");
    bank.sigs().expect(rt, "signatures")
}

pub(crate) fn range(lo: u64, hi: u64) -> Range
    ensures { result ≡ record { lo = lo; hi = hi } }
{
    Range { lo, hi }
}

/// The signature of helper 1, the time on the ground of an aircraft of this type.
pub(crate) fn turn_round_signature(rt: &impl Abort, alloc: Global) -> Signature
    ensures { result ≡ turn_round }
{
    let args = vec![in alloc; range(0, 4_294_967_295)].expect(rt, "arguments");
    let table = vec![in alloc; (A320, 45), (B738, 45), (A388, 120)].expect(rt, "a table");
    Signature::new(args, range(1, 1440), table).expect(rt, "a signature")
}

/// The signature of helper 2, the taxi time from a stand.
pub(crate) fn taxi_signature(rt: &impl Abort, alloc: Global) -> Signature
    ensures { result ≡ taxi }
{
    let args = vec![in alloc; range(0, 999)].expect(rt, "arguments");
    let table = vec![in alloc; (12, 10), (120, 15), (900, 20)].expect(rt, "a table");
    Signature::new(args, range(1, 60), table).expect(rt, "a signature")
}

/// The signature of helper 3, the sum of two numbers.
pub(crate) fn sum_signature(rt: &impl Abort, alloc: Global) -> Signature
    ensures { result ≡ sum }
{
    let args = vec![in alloc; range(0, 4_294_967_295), range(0, 10_000)].expect(rt, "arguments");
    Signature::new(args, range(0, 4_294_977_295), Vec::new(alloc)).expect(rt, "a signature")
}

/// The minutes that helper 1 answers.
pub(crate) fn turn_round_minutes(kind: u64, _b: u64, _c: u64, _d: u64, _e: u64) -> u64
    ensures { result ≡ turn_round_of kind }
{
    match kind {
        A320 | B738 => 45,
        A388 => 120,
        _ => 60,
    }
}

/// The minutes that helper 2 answers.
pub(crate) fn taxi_minutes(stand: u64, _b: u64, _c: u64, _d: u64, _e: u64) -> u64
    ensures { result ≡ taxi_from stand }
{
    if stand < 100 {
        10
    } else if stand < 500 {
        15
    } else {
        20
    }
}

/// The moment that helper 3 answers.
pub(crate) fn minutes_later(moment: u64, minutes: u64, _c: u64, _d: u64, _e: u64) -> u64
    requires { moment + minutes < 2 ^ 64 }
    ensures { result ≡ moment + minutes }
{
    moment + minutes
}

/// Helper 2.
pub(crate) fn taxi_helper(rt: &impl Abort, alloc: Global) -> Helper {
    let code: HelperCode = Box::new(alloc, taxi_minutes).expect(rt, "code");
    Helper::new(2, taxi_signature(rt, alloc), code)
}

/// The signatures of helper 2 alone.
pub(crate) fn taxi_sigs(rt: &impl Abort, alloc: Global) -> Sigs {
    let mut bank = Bank::new(alloc).expect(rt, "a bank");
    if bank.add(taxi_helper(rt, alloc)).is_err() {
        panic!(rt; "helper 2 is not added");
    }
    bank.sigs().expect(rt, "signatures")
}
