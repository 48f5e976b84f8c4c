//! The reasons of loads and stores that are refused, by hand.

use crate::explain::EXIT;
use crate::explain::reasons::{Row, have_reasons};

#[test]
fn addresses_are_told(rt: HostRuntime) {
    have_reasons(&rt, rt.alloc(), &ADDRESSES);
    have_reasons(&rt, rt.alloc(), &OVER_BOTH);
    have_reasons(&rt, rt.alloc(), &STORED);
}

/// Addresses by each size, at the ends of both regions and elsewhere.
static ADDRESSES: [Row; 16] = [
    (
        309,
        0,
        &[0x7910_7900_0000_0000, EXIT],
        "    address [r1+121], size 8: known record+121, wanted record+0 to record+120 or stack-512 to stack-8
    r1: known record+0, wanted record-121 to record-1 or stack-633 to stack-129\n",
    ),
    (
        309,
        0,
        &[0x6110_7d00_0000_0000, EXIT],
        "    address [r1+125], size 4: known record+125, wanted record+0 to record+124 or stack-512 to stack-4
    r1: known record+0, wanted record-125 to record-1 or stack-637 to stack-129\n",
    ),
    (
        309,
        0,
        &[0x6910_ffff_0000_0000, EXIT],
        "    address [r1-1], size 2: known record-1, wanted record+0 to record+126 or stack-512 to stack-2
    r1: known record+0, wanted record+1 to record+127 or stack-511 to stack-1\n",
    ),
    (
        309,
        0,
        &[0x71a0_0000_0000_0000, EXIT],
        "    address [r10+0], size 1: known stack+0, wanted record+0 to record+127 or stack-512 to stack-1\n",
    ),
    (
        309,
        0,
        &[0x81a0_fdff_0000_0000, EXIT],
        "    address [r10-3], size 4: known stack-3, wanted record+0 to record+124 or stack-512 to stack-4
    r10: known stack+0, wanted record+3 to record+127 or stack-509 to stack-1\n",
    ),
    (
        309,
        0,
        &[0x8910_7f00_0000_0000, EXIT],
        "    address [r1+127], size 2: known record+127, wanted record+0 to record+126 or stack-512 to stack-2
    r1: known record+0, wanted record-127 to record-1 or stack-639 to stack-129\n",
    ),
    (
        309,
        0,
        &[0x9110_8000_0000_0000, EXIT],
        "    address [r1+128], size 1: known record+128, wanted record+0 to record+127 or stack-512 to stack-1
    r1: known record+0, wanted record-128 to record-1 or stack-640 to stack-129\n",
    ),
    (
        309,
        0,
        &[0x620a_feff_0500_0000, EXIT],
        "    address [r10-2], size 4: known stack-2, wanted stack-512 to stack-4
    r10: known stack+0, wanted stack-510 to stack-2\n",
    ),
    (
        309,
        0,
        &[0x7342_0000_0000_0000, EXIT],
        "    address [r2+0], size 1: known 128, wanted stack-512 to stack-1\n",
    ),
    (
        309,
        0,
        &[0x7120_7fff_0000_0000, EXIT],
        "    address [r2-129], size 1: known -1, wanted record+0 to record+127 or stack-512 to stack-1
    r2: known 128, wanted record+129 to record+256 or stack-383 to stack+128\n",
    ),
    (
        309,
        1,
        &[0xb705_0000_f8ff_ffff, 0x7150_0300_0000_0000, EXIT],
        "    address [r5+3], size 1: known -5, wanted record+0 to record+127 or stack-512 to stack-1
    r5: known -8, wanted record-3 to record+124 or stack-515 to stack-4\n",
    ),
    (
        309,
        2,
        &[
            0x6915_3c00_0000_0000,
            0x0f15_0000_0000_0000,
            0x6950_0400_0000_0000,
            EXIT,
        ],
        "    address [r5+4], size 2: known record+4 to record+65539, wanted record+0 to record+126 or stack-512 to stack-2
    r5: known record+0 to record+65535, wanted record-4 to record+122 or stack-516 to stack-6\n",
    ),
    // Stores to the record.
    (
        311,
        0,
        &[0x7201_0000_0000_0000, EXIT],
        "    address [r1+0], size 1: known record+0, wanted stack-512 to stack-1\n",
    ),
    (
        311,
        0,
        &[0x6b21_7e00_0000_0000, EXIT],
        "    address [r1+126], size 2: known record+126, wanted stack-512 to stack-2
    r1: known record+0, wanted stack-638 to stack-128\n",
    ),
    (
        311,
        1,
        &[0x0701_0000_0a00_0000, 0x6321_f6ff_0000_0000, EXIT],
        "    address [r1-10], size 4: known record+0, wanted stack-512 to stack-4
    r1: known record+10, wanted stack-502 to stack+6\n",
    ),
    (
        311,
        0,
        &[0x7a01_7800_0000_0000, EXIT],
        "    address [r1+120], size 8: known record+120, wanted stack-512 to stack-8
    r1: known record+0, wanted stack-632 to stack-128\n",
    ),
];

/// Addresses of both regions, with those that end just before the second or begin just behind the
/// first. r1 is the record or, behind `jeq r4, 1`, on the stack.
static OVER_BOTH: [Row; 8] = [
    (
        309,
        3,
        &[
            0x1504_0200_0100_0000,
            0xbfa1_0000_0000_0000,
            0x0701_0000_00fe_ffff,
            0x7110_0000_0000_0000,
            EXIT,
        ],
        "    address [r1+0], size 1: known record+0 to stack-512, as a whole in neither region, wanted all of it in one: record+0 to record+127 or stack-512 to stack-1\n",
    ),
    (
        309,
        3,
        &[
            0x1504_0200_0100_0000,
            0xbfa1_0000_0000_0000,
            0x0701_0000_fffd_ffff,
            0x7110_0000_0000_0000,
            EXIT,
        ],
        "    address [r1+0], size 1: known record+0 to record+4294967295, wanted record+0 to record+127 or stack-512 to stack-1\n",
    ),
    (
        309,
        3,
        &[
            0x1504_0200_0100_0000,
            0xbfa1_0000_0000_0000,
            0x0701_0000_fffd_ffff,
            0x6910_0000_0000_0000,
            EXIT,
        ],
        "    address [r1+0], size 2: known record+0 to record+4294967295, as a whole in neither region, wanted all of it in one: record+0 to record+126 or stack-512 to stack-2\n",
    ),
    (
        309,
        2,
        &[
            0x1504_0100_0100_0000,
            0xbfa1_0000_0000_0000,
            0x7110_8000_0000_0000,
            EXIT,
        ],
        "    address [r1+128], size 1: known record+128 to stack+128, wanted record+0 to record+127 or stack-512 to stack-1
    r1: known record+0 to stack+0, wanted record-128 to record-1 or stack-640 to stack-129\n",
    ),
    (
        309,
        2,
        &[
            0x1504_0100_0100_0000,
            0xbfa1_0000_0000_0000,
            0x9110_7f00_0000_0000,
            EXIT,
        ],
        "    address [r1+127], size 1: known record+127 to stack+127, as a whole in neither region, wanted all of it in one: record+0 to record+127 or stack-512 to stack-1
    r1: known record+0 to stack+0, wanted record-127 to record+0 or stack-639 to stack-128\n",
    ),
    (
        309,
        2,
        &[
            0x1504_0100_0100_0000,
            0xbfa1_0000_0000_0000,
            0x7201_f8ff_0100_0000,
            EXIT,
        ],
        "    address [r1-8], size 1: known record-8 to stack-8, as a whole in neither region, wanted all of it in the stack: stack-512 to stack-1
    r1: known record+0 to stack+0, wanted stack-504 to stack+7\n",
    ),
    (
        309,
        1,
        &[0x7915_0000_0000_0000, 0x7150_0400_0000_0000, EXIT],
        "    address [r5+4], size 1: known any number, as a whole in neither region, wanted all of it in one: record+0 to record+127 or stack-512 to stack-1
    r5: known any number, wanted record-4 to record+123 or stack-516 to stack-5\n",
    ),
    (
        309,
        2,
        &[
            0x7915_0000_0000_0000,
            0x1505_0100_0000_0000,
            0x7150_0100_0000_0000,
            EXIT,
        ],
        "    address [r5+1], size 1: known 2 to 18446744073709551616, as a whole in neither region, wanted all of it in one: record+0 to record+127 or stack-512 to stack-1
    r5: known 1 to 18446744073709551615, wanted record-1 to record+126 or stack-513 to stack-2\n",
    ),
];

/// Which bytes of the stack are stored, of those that are loaded.
static STORED: [Row; 5] = [
    (
        310,
        0,
        &[0x79a0_f8ff_0000_0000, EXIT],
        "    bytes at [r10-8]: known as stored none, wanted stack-8 to stack-1\n",
    ),
    (
        310,
        0,
        &[0x91a0_ffff_0000_0000, EXIT],
        "    bytes at [r10-1]: known as stored none, wanted stack-1\n",
    ),
    (
        310,
        2,
        &[
            0x720a_f8ff_0100_0000,
            0x6a0a_faff_0100_0000,
            0x61a0_f7ff_0000_0000,
            EXIT,
        ],
        "    bytes at [r10-9]: known as stored stack-8, stack-6, wanted stack-9 to stack-6\n",
    ),
    (
        310,
        2,
        &[
            0xbfa5_0000_0000_0000,
            0x0f45_0000_0000_0000,
            0x7150_efff_0000_0000,
            EXIT,
        ],
        "    bytes at [r5-17]: known as stored none, wanted stack-16 to stack-1\n",
    ),
    (
        310,
        0,
        &[0x89a0_00fe_0000_0000, EXIT],
        "    bytes at [r10-512]: known as stored none, wanted stack-512 to stack-511\n",
    ),
];
