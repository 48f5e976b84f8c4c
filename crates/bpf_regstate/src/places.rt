//! Where loads and stores at a range of addresses go.

ghost use Rattle.std.specs.Prelude.{◌≤◌, ◌<◌, ◌^◌, ◌+◌, ◌-◌};
ghost use Rattle.bpf_semantics.specs.Places.{PlaceIs};
ghost use Rattle.bpf_regstate.specs.Effect.{access};

use bpf_helpers::Range;
use bpf_semantics::{MemoryPlace, STACK_LENGTH, place_at};

/// How many bytes a record has.
pub const RECORD_LENGTH: usize = 128;

/// Where all bytes lie that an access of `count` bytes may touch, of a word of the range plus the
/// offset, beside a record of `record_length` bytes (this project's profile): from the least
/// address to the last byte at the greatest one, as whole numbers.
pub fn place_of_access(record_length: usize, range: Range, offset: i32, count: usize) -> MemoryPlace
    requires short { record_length < 2 ^ 16 }
    requires ordered { range.lo ≤ range.hi }
    requires few { count ≤ 8 }
    ensures { PlaceIs result record_length (range.hi - range.lo + count)
        (access record_length range offset count) }
{
    let more = range.hi - range.lo;
    if more > (STACK_LENGTH + record_length) as u64 {
        return MemoryPlace::Nowhere;
    }
    place_at(record_length, range.lo, offset, more as usize + count)
}
