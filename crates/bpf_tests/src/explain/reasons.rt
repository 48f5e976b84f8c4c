//! The reasons of refusals, by hand: each number's with each of its parts.

use crate::explain::{EXIT, bytes_of, signatures};
use crate::programs::same_text;
use bpf_explain::read;
use bpf_regstate::Length;
use std::alloc::Global;
use std::process::Abort;

/// The number of a fault and its slot, the slots of a program with their bytes in their order, and
/// the lines between those of the fault and of the verdict.
pub(crate) type Row = (u16, usize, &'static [u64], &'static str);

/// What is written of these bytes.
pub(crate) fn text_of(rt: &impl Abort, alloc: Global, bytes: &[u8]) -> String {
    let sigs = signatures(rt, alloc);
    let told = read(alloc, bytes, &sigs, Length::L128).expect(rt, "memory");
    let mut text = Vec::new(alloc);
    told.write(bytes, &sigs, &mut text).expect(rt, "room");
    drop(told);
    drop(sigs);
    String::from_utf8(text).ok().expect(rt, "a text")
}

/// What is written of the bytes of these slots.
pub(crate) fn written(rt: &impl Abort, alloc: Global, slots: &[u64]) -> String {
    let bytes = bytes_of(rt, alloc, slots);
    text_of(rt, alloc, bytes.as_slice())
}

/// The text ends with the reason and the verdict of this fault.
pub(crate) fn ends_with(
    rt: &impl Abort,
    alloc: Global,
    text: &str,
    code: u16,
    slot: usize,
    reason: &str,
) {
    let (_, end) = text.split_once("fault ").expect(rt, reason);
    let (fault, end) = end.split_once('\n').expect(rt, reason);
    let wanted = format!(in alloc; "{code} at slot {slot}: ").expect(rt, reason);
    assert!(rt; fault.starts_with(wanted.as_str()), "{reason}");
    let wanted = format!(in alloc; "{reason}refused {code} {slot}\n").expect(rt, reason);
    same_text(rt, end, wanted.as_str());
}

fn has_reason(rt: &impl Abort, alloc: Global, row: &Row) {
    let (code, slot, slots, reason) = row;
    let text = written(rt, alloc, slots);
    ends_with(rt, alloc, text.as_str(), *code, *slot, reason);
}

pub(crate) fn have_reasons(rt: &impl Abort, alloc: Global, rows: &[Row]) {
    for row in rows {
        has_reason(rt, alloc, row);
    }
}

#[test]
fn registers_without_a_word_are_told(rt: HostRuntime) {
    have_reasons(&rt, rt.alloc(), &UNSET);
    have_reasons(&rt, rt.alloc(), &WAYS);
}

#[test]
fn jumps_helpers_and_arguments_are_told(rt: HostRuntime) {
    have_reasons(&rt, rt.alloc(), &OTHERS);
}

/// Which register of those that are read is unset.
static UNSET: [Row; 20] = [
    (
        308,
        0,
        &[0x0f51_0000_0000_0000, EXIT],
        "    r5: known nothing, wanted a value on every way here\n",
    ),
    (
        308,
        0,
        &[0x0c15_0000_0000_0000, EXIT],
        "    r5: known nothing, wanted a value on every way here\n",
    ),
    (
        308,
        0,
        &[0x0f76_0000_0000_0000, EXIT],
        "    r6: known nothing, wanted a value on every way here\n",
    ),
    (
        308,
        0,
        &[0xbf98_0000_0000_0000, EXIT],
        "    r9: known nothing, wanted a value on every way here\n",
    ),
    (
        308,
        0,
        &[0x0709_0000_0100_0000, EXIT],
        "    r9: known nothing, wanted a value on every way here\n",
    ),
    (
        308,
        0,
        &[0x8708_0000_0000_0000, EXIT],
        "    r8: known nothing, wanted a value on every way here\n",
    ),
    (
        308,
        0,
        &[0xbf61_0800_0000_0000, EXIT],
        "    r6: known nothing, wanted a value on every way here\n",
    ),
    (
        308,
        0,
        &[0xd407_0000_1000_0000, EXIT],
        "    r7: known nothing, wanted a value on every way here\n",
    ),
    (
        308,
        0,
        &[0x1506_0000_0000_0000, EXIT],
        "    r6: known nothing, wanted a value on every way here\n",
    ),
    (
        308,
        0,
        &[0x2d71_0000_0000_0000, EXIT],
        "    r7: known nothing, wanted a value on every way here\n",
    ),
    (
        308,
        0,
        &[0xae17_0000_0000_0000, EXIT],
        "    r7: known nothing, wanted a value on every way here\n",
    ),
    (
        308,
        0,
        &[EXIT],
        "    r0: known nothing, wanted a value on every way here\n",
    ),
    (
        308,
        0,
        &[0x7160_0000_0000_0000, EXIT],
        "    r6: known nothing, wanted a value on every way here\n",
    ),
    (
        308,
        0,
        &[0x9180_0000_0000_0000, EXIT],
        "    r8: known nothing, wanted a value on every way here\n",
    ),
    (
        308,
        0,
        &[0x7206_0000_0100_0000, EXIT],
        "    r6: known nothing, wanted a value on every way here\n",
    ),
    (
        308,
        0,
        &[0x737a_ffff_0000_0000, EXIT],
        "    r7: known nothing, wanted a value on every way here\n",
    ),
    (
        308,
        0,
        &[0x7ba8_f8ff_0000_0000, EXIT],
        "    r8: known nothing, wanted a value on every way here\n",
    ),
    (
        308,
        1,
        &[0xb701_0000_0100_0000, 0x8500_0000_3f00_0000, EXIT],
        "    argument 5 of helper 63, r5: known nothing, wanted 5 to 9\n",
    ),
    (
        308,
        3,
        &[
            0xb701_0000_0500_0000,
            0x8500_0000_0200_0000,
            0xbf01_0000_0000_0000,
            0x8500_0000_0300_0000,
            EXIT,
        ],
        "    argument 2 of helper 3, r2: known nothing since the call at slot 1, wanted 0 to 10000\n",
    ),
    (
        308,
        2,
        &[
            0xb701_0000_0500_0000,
            0x8500_0000_0200_0000,
            0xbf50_0000_0000_0000,
            EXIT,
        ],
        "    r5: known nothing, wanted a value on every way here\n",
    ),
];

/// On which way a register is left without a word. `jeq r4, 1` leads both ways.
static WAYS: [Row; 11] = [
    // By the jump past the slot that sets it.
    (
        308,
        2,
        &[0x1504_0100_0100_0000, 0xb700_0000_0000_0000, EXIT],
        "    r0: known nothing on the way from slot 0 to slot 2, wanted a value on every way here\n",
    ),
    // By the next slot, where the jump goes past a call.
    (
        308,
        3,
        &[
            0xb701_0000_0500_0000,
            0x1504_0100_0100_0000,
            0x8500_0000_0200_0000,
            0xbf10_0000_0000_0000,
            EXIT,
        ],
        "    r1: known nothing since the call at slot 2, wanted a value on every way here\n",
    ),
    // The ways meet two slots before it is read.
    (
        308,
        4,
        &[
            0x1504_0100_0100_0000,
            0xb706_0000_0000_0000,
            0xb700_0000_0000_0000,
            0xb701_0000_0000_0000,
            0x0f60_0000_0000_0000,
            EXIT,
        ],
        "    r6: known nothing on the way from slot 0 to slot 2, wanted a value on every way here\n",
    ),
    // They meet before a wide load.
    (
        308,
        4,
        &[
            0x1504_0100_0100_0000,
            0xb706_0000_0000_0000,
            0x1800_0000_0100_0000,
            0,
            0xbf61_0000_0000_0000,
            EXIT,
        ],
        "    r6: known nothing on the way from slot 0 to slot 2, wanted a value on every way here\n",
    ),
    // A jump without a condition leads past the way without it, in JMP and in JMP32.
    (
        308,
        4,
        &[
            0x1504_0200_0100_0000,
            0xb706_0000_0100_0000,
            0x0500_0100_0000_0000,
            0xb700_0000_0000_0000,
            0xbf61_0000_0000_0000,
            EXIT,
        ],
        "    r6: known nothing on the way from slot 3 to slot 4, wanted a value on every way here\n",
    ),
    (
        308,
        4,
        &[
            0x1504_0200_0100_0000,
            0xb700_0000_0100_0000,
            0x0600_0000_0100_0000,
            0xb706_0000_0000_0000,
            0xbf61_0000_0000_0000,
            EXIT,
        ],
        "    r6: known nothing on the way from slot 2 to slot 4, wanted a value on every way here\n",
    ),
    // Of two such ways the one from the later slot is told.
    (
        308,
        4,
        &[
            0x1504_0300_0100_0000,
            0x1504_0200_0200_0000,
            0xb706_0000_0000_0000,
            0xb700_0000_0000_0000,
            0xbf61_0000_0000_0000,
            EXIT,
        ],
        "    r6: known nothing on the way from slot 1 to slot 4, wanted a value on every way here\n",
    ),
    // A jump that is never taken is no way: r2 is 128.
    (
        308,
        4,
        &[
            0x1504_0300_0100_0000,
            0x1502_0200_0500_0000,
            0xb706_0000_0000_0000,
            0xb700_0000_0000_0000,
            0xbf61_0000_0000_0000,
            EXIT,
        ],
        "    r6: known nothing on the way from slot 0 to slot 4, wanted a value on every way here\n",
    ),
    // Nor is the next slot, where the jump is always taken.
    (
        308,
        5,
        &[
            0x1504_0400_0100_0000,
            0x1504_0200_0200_0000,
            0xb706_0000_0000_0000,
            0x0500_0100_0000_0000,
            0x5502_0100_0500_0000,
            0xbf61_0000_0000_0000,
            EXIT,
        ],
        "    r6: known nothing on the way from slot 0 to slot 5, wanted a value on every way here\n",
    ),
    // It is set on neither way.
    (
        308,
        2,
        &[
            0x1504_0100_0100_0000,
            0xb700_0000_0000_0000,
            0xbf61_0000_0000_0000,
            EXIT,
        ],
        "    r6: known nothing, wanted a value on every way here\n",
    ),
    // An argument of a call.
    (
        308,
        4,
        &[
            0xbf16_0000_0000_0000,
            0xb701_0000_0500_0000,
            0x1504_0100_0100_0000,
            0x8500_0000_0200_0000,
            0x8500_0000_0200_0000,
            EXIT,
        ],
        "    argument 1 of helper 2, r1: known nothing since the call at slot 3, wanted 0 to 999\n",
    ),
];

/// Jumps, helpers, arguments and r10.
static OTHERS: [Row; 12] = [
    (
        306,
        1,
        &[0xb700_0000_0000_0000, 0x0500_0100_0000_0000, EXIT],
        "    target: known slot 3 (behind the last), wanted the slot of a later instruction\n",
    ),
    (
        306,
        1,
        &[0xb700_0000_0000_0000, 0x5e21_ffff_0000_0000, EXIT],
        "    target: known slot 1 (not later), wanted the slot of a later instruction\n",
    ),
    (
        307,
        1,
        &[0xb700_0000_0000_0000, 0x1801_0000_0000_0000, 0],
        "    next: known no slot, wanted an exit as the last instruction\n",
    ),
    (
        312,
        0,
        &[0x8500_0000_ffff_ffff, EXIT],
        "    helper: known 4294967295, wanted one of 2, 3, 63\n",
    ),
    (
        313,
        1,
        &[0xb701_0000_ffff_ffff, 0x8500_0000_0200_0000, EXIT],
        "    argument 1 of helper 2, r1: known -1, wanted 0 to 999\n",
    ),
    (
        313,
        3,
        &[
            0x6914_3c00_0000_0000,
            0x1504_0100_0100_0000,
            0xbf41_0000_0000_0000,
            0x8500_0000_0200_0000,
            EXIT,
        ],
        "    argument 1 of helper 2, r1: known 0 to 4294967296, wanted 0 to 999\n",
    ),
    (
        313,
        2,
        &[
            0xb705_0000_0400_0000,
            0xb703_0000_0900_0000,
            0x8500_0000_3f00_0000,
            EXIT,
        ],
        "    argument 4 of helper 63, r4: known 1 to 16, wanted 2 to 16\n",
    ),
    (
        313,
        2,
        &[
            0xb705_0000_0400_0000,
            0xb704_0000_0200_0000,
            0x8500_0000_3f00_0000,
            EXIT,
        ],
        "    argument 5 of helper 63, r5: known 4, wanted 5 to 9\n",
    ),
    (
        313,
        2,
        &[
            0xb705_0000_0a00_0000,
            0xb704_0000_1000_0000,
            0x8500_0000_3f00_0000,
            EXIT,
        ],
        "    argument 5 of helper 63, r5: known 10, wanted 5 to 9\n",
    ),
    (
        314,
        0,
        &[0xbf1a_0000_0000_0000, EXIT],
        "    destination: known r10, wanted r0 to r9\n",
    ),
    (
        314,
        0,
        &[0x711a_0000_0000_0000, EXIT],
        "    destination: known r10, wanted r0 to r9\n",
    ),
    (
        314,
        0,
        &[0x180a_0000_0000_0000, 0, EXIT],
        "    destination: known r10, wanted r0 to r9\n",
    ),
];
