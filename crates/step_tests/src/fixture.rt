//! The signatures of the tests' boards, and programs that were checked under them.

ghost use Rattle.std.specs.Prelude.{◌≡◌};
ghost use Rattle.bpf_helpers.specs.Known.{taxi, taxi_from};

use acdm_record::{Field, Record};
use bpf_decode::{Program, decode};
use bpf_helpers::{Bank, Helper, HelperCode, Range, Signature, Sigs};
use bpf_regstate::Length;
use bpf_verifier::{Checked, verify};
use std::alloc::Global;
use std::process::Abort;

pub(crate) fn same_number(rt: &impl Abort, found: u64, wanted: u64) {
    assert_eq!(rt; found, wanted);
}

/// The same, in a row of a table.
pub(crate) fn same_at(rt: &impl Abort, row: u64, found: u64, wanted: u64) {
    assert_eq!(rt; found, wanted, "{row}");
}

pub(crate) fn same_bytes(rt: &impl Abort, found: &[u8], wanted: &[u8]) {
    assert_eq!(rt; found, wanted);
}

/// A field of a record holds this value.
pub(crate) fn holds(rt: &impl Abort, record: &Record, field: Field, value: u64) {
    same_number(rt, record.get(field), value);
}

/// AND of the stand with 511, helper 2, exit.
pub(crate) const TAXI: &str = "69113c000000000057010000ff01000085000000020000009500000000000000";

pub(crate) fn no_sigs(rt: &impl Abort, alloc: Global) -> Sigs {
    let bank = Bank::new(alloc).expect(rt, "a bank");
    bank.sigs().expect(rt, "signatures")
}

/// The signature of helper 2, the taxi time from a stand.
fn taxi_signature(rt: &impl Abort, alloc: Global) -> Signature
    ensures { result ≡ taxi }
{
    let args = vec![in alloc; Range { lo: 0, hi: 999 }].expect(rt, "an argument");
    let table = vec![in alloc; (12, 10), (120, 15), (900, 20)].expect(rt, "a table");
    Signature::new(args, Range { lo: 1, hi: 60 }, table).expect(rt, "a signature")
}

fn taxi_minutes(stand: u64, _b: u64, _c: u64, _d: u64, _e: u64) -> u64
    ensures { result ≡ taxi_from stand }
{
    if stand < 100 {
        10
    } else if stand < 500 {
        15
    } else {
        20
    }
}

/// The signatures of helper 2 alone: the taxi time from a stand, which is 10 minutes from stand 12.
pub(crate) fn taxi_sigs(rt: &impl Abort, alloc: Global) -> Sigs {
    let stands: HelperCode = Box::new(alloc, taxi_minutes).expect(rt, "code");
    let helper = Helper::new(2, taxi_signature(rt, alloc), stands);
    let mut bank = Bank::new(alloc).expect(rt, "a bank");
    if bank.add(helper).is_err() {
        panic!(rt; "not added");
    }
    bank.sigs().expect(rt, "signatures")
}

fn decoded(rt: &impl Abort, alloc: Global, text: &str) -> Program {
    let bytes = hex::decode(alloc, text).expect(rt, "bytes");
    decode(alloc, &bytes).expect(rt, "a program")
}

/// The program of these bytes, checked under these signatures.
pub(crate) fn checked(rt: &impl Abort, alloc: Global, sigs: &Sigs, text: &str) -> Checked {
    verify(alloc, decoded(rt, alloc, text), sigs, Length::L128).expect(rt, "an accepted program")
}
