//! Faults of loads and stores: where they may go, and what they may find there.

ghost use Rattle.std.specs.Prelude.{◌≡◌, ◌<◌, ◌≤◌, ◌^◌, ◌+◌, ◌-◌, Some, false};
ghost use Rattle.bpf_semantics.specs.Places.{PlaceIs};
ghost use Rattle.bpf_regstate.specs.Shape.{known};
ghost use Rattle.bpf_regstate.specs.Effect.{access, range_of};
ghost use Rattle.bpf_regstate.specs.Faults.{access_of, is_nowhere, is_unmarked, loads_unmarked};
ghost use Rattle.bpf_regstate.specs.Faults.{is_in_record, stores_in_record};

use crate::reads::range_of;
use bpf_decode::{Op, Register};
use bpf_regstate::{State, place_of_access};
use bpf_semantics::{MemoryPlace, byte_count, part_byte_count};

/// Where all addresses lie that so many bytes at a register plus the offset may have.
fn place_at(
    record_length: usize,
    state: &State,
    base: Register,
    offset: i32,
    count: usize,
) -> MemoryPlace
    requires short { record_length < 2 ^ 16 }
    requires few { count ≤ 8 }
    ensures { let range = range_of (known state.now base) in
        PlaceIs result record_length (range.hi - range.lo + count) (access record_length range offset count) }
{
    place_of_access(record_length, range_of(state, base), offset, count)
}

/// The faults of a slot's load or store.
#[derive(Clone, Copy)]
pub(crate) struct AccessFaults {
    /// Some address lies in no region, or not in that of the others.
    pub(crate) misses: bool,
    /// A byte of the stack is loaded that may be uninitialised.
    pub(crate) unmarked: bool,
    /// A store goes to the record.
    pub(crate) in_record: bool,
}

/// The faults of a load of so many bytes.
#[inline(always)]
fn load_faults(
    record_length: usize,
    state: &State,
    base: Register,
    offset: i32,
    count: usize,
) -> AccessFaults
    requires short { record_length < 2 ^ 16 }
    requires few { count ≤ 8 }
    ensures misses { result.misses
        ≡ is_nowhere (Some (access record_length (range_of (known state.now base)) offset count)) }
    ensures unmarked { let range = range_of (known state.now base) in
        result.unmarked ≡ is_unmarked state.now range count (access record_length range offset count) }
    ensures in_record { result.in_record ≡ false }
{
    match place_at(record_length, state, base, offset, count) {
        MemoryPlace::Stack(at) => {
            let range = range_of(state, base);
            AccessFaults {
                misses: false,
                unmarked: !state.all_marked(at, (range.hi - range.lo) as usize + count),
                in_record: false,
            }
        }
        MemoryPlace::Record(_) => AccessFaults {
            misses: false,
            unmarked: false,
            in_record: false,
        },
        MemoryPlace::Nowhere => AccessFaults {
            misses: true,
            unmarked: false,
            in_record: false,
        },
    }
}

/// The faults of a store of so many bytes.
#[inline(always)]
fn store_faults(
    record_length: usize,
    state: &State,
    base: Register,
    offset: i32,
    count: usize,
) -> AccessFaults
    requires short { record_length < 2 ^ 16 }
    requires few { count ≤ 8 }
    ensures misses { result.misses
        ≡ is_nowhere (Some (access record_length (range_of (known state.now base)) offset count)) }
    ensures unmarked { result.unmarked ≡ false }
    ensures in_record { result.in_record
        ≡ is_in_record (access record_length (range_of (known state.now base)) offset count) }
{
    match place_at(record_length, state, base, offset, count) {
        MemoryPlace::Stack(_) => AccessFaults {
            misses: false,
            unmarked: false,
            in_record: false,
        },
        MemoryPlace::Record(_) => AccessFaults {
            misses: false,
            unmarked: false,
            in_record: true,
        },
        MemoryPlace::Nowhere => AccessFaults {
            misses: true,
            unmarked: false,
            in_record: false,
        },
    }
}

/// Of a slot's load or store: whether some address lies in no region, or not in that of the others, whether it loads a byte of
/// the stack that may be uninitialised, and whether it stores to the record. Where it goes is found once for all three.
#[inline(always)]
pub(crate) fn access_faults(record_length: usize, state: &State, op: Op) -> AccessFaults
    requires { record_length < 2 ^ 16 }
    ensures misses { result.misses ≡ is_nowhere (access_of record_length state.now op) }
    ensures unmarked { result.unmarked ≡ loads_unmarked record_length state.now op }
    ensures in_record { result.in_record ≡ stores_in_record record_length state.now op }
{
    match op {
        Op::Load {
            size,
            base,
            offset,
            ..
        } => load_faults(record_length, state, base, offset as i32, byte_count(size)),
        Op::LoadSigned {
            part,
            base,
            offset,
            ..
        } => load_faults(
            record_length,
            state,
            base,
            offset as i32,
            part_byte_count(part),
        ),
        Op::Store {
            size,
            base,
            offset,
            ..
        } => store_faults(record_length, state, base, offset as i32, byte_count(size)),
        _ => AccessFaults {
            misses: false,
            unmarked: false,
            in_record: false,
        },
    }
}
