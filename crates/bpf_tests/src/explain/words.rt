//! What is known of registers and words of the stack, by hand.

use crate::explain::EXIT;
use crate::explain::reasons::written;
use std::alloc::Global;
use std::process::Abort;

/// The slots of a program with their bytes in their order, and a part of what is written.
type Row = (&'static [u64], &'static str);

fn has_part(rt: &impl Abort, alloc: Global, row: &Row) {
    let (slots, part) = row;
    let text = written(rt, alloc, slots);
    assert!(rt; text.contains(*part), "{part}");
}

#[test]
fn words_are_told(rt: HostRuntime) {
    for row in &ROWS {
        has_part(&rt, rt.alloc(), row);
    }
}

static ROWS: [Row; 21] = [
    // Numbers below 0 in 64 bits, and their neighbours.
    (&[0xb700_0000_ffff_ffff, EXIT], "\n    r0 = -1, r1"),
    (
        &[0xb709_0000_0000_0080, EXIT],
        ", r9 = -2147483648, r10 = stack+0\n",
    ),
    (
        &[0x1805_0000_0000_0000, 0x0000_0080, EXIT],
        ", r5 = -9223372036854775808, r10",
    ),
    (
        &[0x1805_0000_ffff_ffff, 0xffff_ff7f, EXIT],
        ", r5 = 9223372036854775807, r10",
    ),
    (&[0xb406_0000_ffff_ffff, EXIT], ", r6 = 4294967295, r10"),
    (
        &[
            0xb705_0000_f8ff_ffff,
            0x1504_0100_0100_0000,
            0xb705_0000_feff_ffff,
            EXIT,
        ],
        ", r5 = -8 to -2, r10",
    ),
    (
        &[
            0xb705_0000_0000_0000,
            0x1504_0100_0100_0000,
            0xb705_0000_feff_ffff,
            EXIT,
        ],
        ", r5 = 0 to 18446744073709551614, r10",
    ),
    (
        &[
            0xb705_0000_0000_0000,
            0x1504_0100_0100_0000,
            0xb705_0000_ffff_ffff,
            EXIT,
        ],
        ", r5 = any number, r10",
    ),
    (
        &[
            0xb705_0000_0100_0000,
            0x1504_0100_0100_0000,
            0xb705_0000_ffff_ffff,
            EXIT,
        ],
        ", r5 = 1 to 18446744073709551615, r10",
    ),
    // The first and the last minute that is told as a time, and those beside them.
    (
        &[0xb700_0000_20c1_f000, EXIT],
        "r0 = 15778080 (2000-01-01T00:00:00Z), r1",
    ),
    (&[0xb700_0000_1fc1_f000, EXIT], "r0 = 15778079, r1"),
    (
        &[0xb700_0000_3f4e_1304, EXIT],
        "r0 = 68374079 (2099-12-31T23:59:00Z), r1",
    ),
    (&[0xb700_0000_404e_1304, EXIT], "r0 = 68374080, r1"),
    (
        &[
            0xa503_0200_20c1_f000,
            0x2503_0100_3f4e_1304,
            0xbf35_0000_0000_0000,
            EXIT,
        ],
        "r3 = 15778080 to 68374079 (2000-01-01T00:00:00Z to 2099-12-31T23:59:00Z), r4",
    ),
    // The first and the last addresses that are told from a region.
    (
        &[0x1805_0000_ffff_ffff, 0x0000_0000, EXIT],
        ", r5 = 4294967295, r10",
    ),
    (
        &[0x1805_0000_ffff_ff7f, 0x0100_0000, EXIT],
        ", r5 = record+2147483647, r10",
    ),
    (
        &[0x1805_0000_0000_0080, 0x0100_0000, EXIT],
        ", r5 = stack-2147484160, r10",
    ),
    (
        &[0x1805_0000_ffff_ff7f, 0x0200_0000, EXIT],
        ", r5 = stack+2147483135, r10",
    ),
    (
        &[0x1805_0000_0000_0080, 0x0200_0000, EXIT],
        ", r5 = 10737418240, r10",
    ),
    // The lowest word of the stack.
    (
        &[0x7b4a_00fe_0000_0000, EXIT],
        "\n    stored: stack-512 to stack-505\n    kept: stack-512 = 1 to 16\n",
    ),
    // All registers.
    (
        &[
            0xb700_0000_0000_0000,
            0xb705_0000_0500_0000,
            0xb706_0000_0600_0000,
            0xb707_0000_0700_0000,
            0xb708_0000_0800_0000,
            0xb709_0000_0900_0000,
            EXIT,
        ],
        "    r0 = 0, r1 = record+0, r2 = 128, r3 = 0 to 4294967295, r4 = 1 to 16, r5 = 5, r6 = 6, r7 = 7, r8 = 8, r9 = 9, r10 = stack+0\naccepted 7\n",
    ),
];
