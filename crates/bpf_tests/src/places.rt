//! Places by hand: the record has the addresses from 0x100000000, 128 of them here, and the stack
//! 512 from 0x200000000.

use crate::programs::same_count;
use bpf_decode::{Part, Size};
use bpf_semantics::{
    MemoryPlace, RECORD_BASE, STACK_BASE, STACK_LENGTH, byte_count, part_byte_count, place_at,
};
use std::process::Abort;

/// So many bytes at an address and an offset lie at this place, where the record has this length.
fn lies(rt: &impl Abort, length: u16, base: u64, offset: i32, count: u32, place: MemoryPlace) {
    let came = place_at(length as usize, base, offset, count as usize);
    assert!(rt; came == place, "{base} {offset} {count}");
}

/// Addresses, offsets and counts of bytes, and their places beside a record of 128 bytes.
static PLACES: [(u64, i32, u32, MemoryPlace); 23] = [
    (0x1_0000_0000, 0, 1, MemoryPlace::Record(0)),
    (0x1_0000_0000, -1, 1, MemoryPlace::Nowhere),
    (0x1_0000_0000, 127, 1, MemoryPlace::Record(127)),
    (0x1_0000_0000, 127, 2, MemoryPlace::Nowhere),
    (0x1_0000_0000, 126, 2, MemoryPlace::Record(126)),
    (0x1_0000_0000, 125, 4, MemoryPlace::Nowhere),
    (0x1_0000_0000, 124, 4, MemoryPlace::Record(124)),
    (0x1_0000_0000, 121, 8, MemoryPlace::Nowhere),
    (0x1_0000_0000, 120, 8, MemoryPlace::Record(120)),
    (0x1_0000_0000, 0, 128, MemoryPlace::Record(0)),
    (0x1_0000_0000, 0, 129, MemoryPlace::Nowhere),
    (0x2_0000_0200, -512, 1, MemoryPlace::Stack(0)),
    (0x2_0000_0200, -513, 8, MemoryPlace::Nowhere),
    (0x2_0000_0200, -512, 8, MemoryPlace::Stack(0)),
    (0x2_0000_0200, -8, 8, MemoryPlace::Stack(504)),
    (0x2_0000_0200, -7, 8, MemoryPlace::Nowhere),
    (0x2_0000_0200, -1, 1, MemoryPlace::Stack(511)),
    (0x2_0000_0200, 0, 1, MemoryPlace::Nowhere),
    (0x2_0000_0000, 0, 512, MemoryPlace::Stack(0)),
    (0x2_0000_0000, 0, 513, MemoryPlace::Nowhere),
    // From below 0, and to 2^64 and beyond.
    (0, -1, 1, MemoryPlace::Nowhere),
    (u64::MAX, 0, 1, MemoryPlace::Nowhere),
    (u64::MAX, 1, 1, MemoryPlace::Nowhere),
];

#[test]
fn places_of_accesses(rt: HostRuntime) {
    for row in &PLACES {
        let (base, offset, count, place) = *row;
        lies(&rt, 128, base, offset, count, place);
    }
    lies(&rt, 4, RECORD_BASE, 4, 1, MemoryPlace::Nowhere);
    lies(&rt, 5, RECORD_BASE, 4, 1, MemoryPlace::Record(4));
    lies(
        &rt,
        128,
        STACK_BASE,
        0,
        STACK_LENGTH as u32,
        MemoryPlace::Stack(0),
    );
}

#[test]
fn sizes_have_byte_counts(rt: HostRuntime) {
    same_count(&rt, byte_count(Size::Byte), 1, "a byte");
    same_count(&rt, byte_count(Size::Half), 2, "a half");
    same_count(&rt, byte_count(Size::Word), 4, "a word");
    same_count(&rt, byte_count(Size::Double), 8, "a double");
    same_count(&rt, part_byte_count(Part::Low8), 1, "8 bits");
    same_count(&rt, part_byte_count(Part::Low16), 2, "16 bits");
    same_count(&rt, part_byte_count(Part::Low32), 4, "32 bits");
}
