//! What is told of slots that encode no instruction, and of files of text, by hand.

use crate::explain::EXIT;
use crate::explain::reasons::{Row, ends_with, have_reasons, text_of};
use std::alloc::Global;
use std::process::Abort;

#[test]
fn slots_that_encode_no_instruction_are_told(rt: HostRuntime) {
    have_reasons(&rt, rt.alloc(), &SLOTS);
}

/// What is told of a file of text, at slot 0.
fn is_file(rt: &impl Abort, alloc: Global, text: &str, code: u16, reason: &str) {
    let written = text_of(rt, alloc, text.as_bytes());
    ends_with(rt, alloc, written.as_str(), code, 0, reason);
}

#[test]
fn files_of_text_are_told(rt: HostRuntime) {
    for (text, code, reason) in &FILES {
        is_file(&rt, rt.alloc(), text, *code, reason);
    }
    let digits = "9500000000000000"
        .repeat(rt.alloc(), 2_500)
        .expect(&rt, "digits");
    is_file(&rt, rt.alloc(), digits.as_str(), 302, DIGITS);
}

/// What is told of hexadecimal text.
const DIGITS: &str =
    "    file: known hexadecimal text, wanted the bytes that it tells (xxd -r -p)\n";

/// What is told of a line that loads a program.
const LINE: &str =
    "    file: known a line that loads a program, wanted the bytes that its program tells (xxd -r -p)\n";

/// Files of text, and near them, each with its fault at slot 0.
static FILES: [(&str, u16, &str); 11] = [
    ("0x9500000000000000\n", 301, DIGITS),
    ("0X95 0xaf\n\tb7 0C\r\n", 301, DIGITS),
    ("9500000000000000", 303, DIGITS),
    ("bF00000000000000", 304, DIGITS),
    (
        "{\"cmd\":\"load\",\"milestone\":7,\"kind\":\"tobt\",\"program\":\"9500000000000000\"}\n",
        304,
        LINE,
    ),
    ("1 29000700 APT { \"program\" : \"95\" }     ", 303, LINE),
    ("0x", 301, "    bytes: known 2, wanted 8 for each slot\n"),
    ("95 0x", 301, "    bytes: known 5, wanted 8 for each slot\n"),
    ("95g0", 301, "    bytes: known 4, wanted 8 for each slot\n"),
    (" \n\n", 301, "    bytes: known 3, wanted 8 for each slot\n"),
    (
        "{\"cmd\":\"tick\"}\r\n",
        304,
        "    immediate of 7b 22 63 6d 64 22 3a 22, a store: known 574235236, wanted 0\n",
    ),
];

/// Slots that encode no instruction, each by the field that is at fault.
static SLOTS: [Row; 54] = [
    // Digits, and an exit behind them.
    (
        303,
        0,
        &[0x3939_3939_3939_3939, EXIT],
        "    opcode of 39 39 39 39 39 39 39 39: known 39, wanted one that programs may have\n",
    ),
    (
        303,
        0,
        &[0xffab_cdef_9a5b_0c1d, EXIT],
        "    opcode of ff ab cd ef 9a 5b 0c 1d: known ff, wanted one that programs may have\n",
    ),
    (
        303,
        0,
        &[0xdb12_0000_0000_0000, EXIT],
        "    opcode of db 12 00 00 00 00 00 00, an atomic operation: known db, wanted one that programs may have\n",
    ),
    (
        303,
        1,
        &[0xb700_0000_0000_0000, 0xc3a1_fcff_0100_0000, EXIT],
        "    opcode of c3 a1 fc ff 01 00 00 00, an atomic operation: known c3, wanted one that programs may have\n",
    ),
    (
        303,
        0,
        &[0xcb12_0000_0001_0000, EXIT],
        "    opcode of cb 12 00 00 00 01 00 00, an atomic operation: known cb, wanted one that programs may have\n",
    ),
    (
        303,
        0,
        &[0xd312_0000_1001_0000, EXIT],
        "    opcode of d3 12 00 00 10 01 00 00, an atomic operation: known d3, wanted one that programs may have\n",
    ),
    (
        303,
        0,
        &[0x8d00_0000_0100_0000, EXIT],
        "    opcode of 8d 00 00 00 01 00 00 00, a call by a register: known 8d, wanted one that programs may have\n",
    ),
    (
        303,
        0,
        &[0x0d01_0000_0000_0000, EXIT],
        "    opcode of 0d 01 00 00 00 00 00 00, a jump by a register: known 0d, wanted one that programs may have\n",
    ),
    (
        303,
        0,
        &[0x3000_0000_0c00_0000, EXIT],
        "    opcode of 30 00 00 00 0c 00 00 00, a load of a packet: known 30, wanted one that programs may have\n",
    ),
    (
        303,
        0,
        &[0x4010_0000_0000_0000, EXIT],
        "    opcode of 40 10 00 00 00 00 00 00, a load of a packet: known 40, wanted one that programs may have\n",
    ),
    (
        303,
        0,
        &[0x0000_0000_0000_0000, EXIT],
        "    opcode of 00 00 00 00 00 00 00 00: known 00, wanted one that programs may have\n",
    ),
    (
        304,
        0,
        &[0x8510_0000_0500_0000, EXIT],
        "    source of 85 10 00 00 05 00 00 00, a call of a function of the program: known 1, wanted 0\n",
    ),
    (
        304,
        1,
        &[0xb700_0000_0000_0000, 0x8510_0000_ffff_ffff, EXIT],
        "    source of 85 10 00 00 ff ff ff ff, a call of a function of the program: known 1, wanted 0\n",
    ),
    (
        304,
        0,
        &[0x8520_0000_0500_0000, EXIT],
        "    source of 85 20 00 00 05 00 00 00, a call of a function of the kernel: known 2, wanted 0\n",
    ),
    (
        304,
        0,
        &[0x8530_0000_0500_0000, EXIT],
        "    source of 85 30 00 00 05 00 00 00, a call: known 3, wanted 0\n",
    ),
    (
        304,
        0,
        &[0x8501_0000_0500_0000, EXIT],
        "    destination of 85 01 00 00 05 00 00 00, a call: known 1, wanted 0\n",
    ),
    (
        304,
        0,
        &[0x8500_0100_0500_0000, EXIT],
        "    offset of 85 00 01 00 05 00 00 00, a call: known 1, wanted 0\n",
    ),
    (
        304,
        0,
        &[0x9500_0000_0100_0000, EXIT],
        "    immediate of 95 00 00 00 01 00 00 00, an exit: known 1, wanted 0\n",
    ),
    (
        304,
        0,
        &[0x9500_ffff_0000_0000, EXIT],
        "    offset of 95 00 ff ff 00 00 00 00, an exit: known -1, wanted 0\n",
    ),
    (
        304,
        0,
        &[0x1810_0000_0500_0000, EXIT],
        "    source of 18 10 00 00 05 00 00 00, the address of a map, a variable or a function: known 1, wanted 0\n",
    ),
    (
        304,
        0,
        &[0x1863_0000_0500_0000, EXIT],
        "    source of 18 63 00 00 05 00 00 00, the address of a map, a variable or a function: known 6, wanted 0\n",
    ),
    (
        304,
        0,
        &[0x1870_0000_0500_0000, EXIT],
        "    source of 18 70 00 00 05 00 00 00, a wide load: known 7, wanted 0\n",
    ),
    (
        304,
        0,
        &[0x1800_0800_0500_0000, EXIT],
        "    offset of 18 00 08 00 05 00 00 00, a wide load: known 8, wanted 0\n",
    ),
    (
        304,
        0,
        &[0xbf21_0100_0000_0000, EXIT],
        "    offset of bf 21 01 00 00 00 00 00, a move between address spaces: known 1, wanted 0, 8, 16 or 32\n",
    ),
    (
        304,
        0,
        &[0xbf21_4000_0000_0000, EXIT],
        "    offset of bf 21 40 00 00 00 00 00, arithmetic: known 64, wanted 0, 8, 16 or 32\n",
    ),
    (
        304,
        0,
        &[0xbc21_2000_0000_0000, EXIT],
        "    offset of bc 21 20 00 00 00 00 00, arithmetic: known 32, wanted 0, 8 or 16\n",
    ),
    (
        304,
        0,
        &[0xb701_0800_0000_0000, EXIT],
        "    offset of b7 01 08 00 00 00 00 00, arithmetic: known 8, wanted 0\n",
    ),
    (
        304,
        0,
        &[0x0f21_0000_0100_0000, EXIT],
        "    immediate of 0f 21 00 00 01 00 00 00, arithmetic: known 1, wanted 0\n",
    ),
    (
        304,
        0,
        &[0x0721_0000_0100_0000, EXIT],
        "    source of 07 21 00 00 01 00 00 00, arithmetic: known 2, wanted 0\n",
    ),
    (
        304,
        0,
        &[0x3701_0200_0100_0000, EXIT],
        "    offset of 37 01 02 00 01 00 00 00, arithmetic: known 2, wanted 0 or 1\n",
    ),
    (
        304,
        0,
        &[0x9c21_0300_0000_0000, EXIT],
        "    offset of 9c 21 03 00 00 00 00 00, arithmetic: known 3, wanted 0 or 1\n",
    ),
    (
        304,
        0,
        &[0x8701_0000_0100_0000, EXIT],
        "    immediate of 87 01 00 00 01 00 00 00, arithmetic: known 1, wanted 0\n",
    ),
    (
        304,
        0,
        &[0x8421_0000_0000_0000, EXIT],
        "    source of 84 21 00 00 00 00 00 00, arithmetic: known 2, wanted 0\n",
    ),
    (
        304,
        0,
        &[0xd401_0000_0800_0000, EXIT],
        "    immediate of d4 01 00 00 08 00 00 00, a change of byte order: known 8, wanted 16, 32 or 64\n",
    ),
    (
        304,
        0,
        &[0xdc21_0000_1000_0000, EXIT],
        "    source of dc 21 00 00 10 00 00 00, a change of byte order: known 2, wanted 0\n",
    ),
    (
        304,
        0,
        &[0x0500_0000_0100_0000, EXIT],
        "    immediate of 05 00 00 00 01 00 00 00, a jump: known 1, wanted 0\n",
    ),
    (
        304,
        0,
        &[0x0501_0000_0000_0000, EXIT],
        "    destination of 05 01 00 00 00 00 00 00, a jump: known 1, wanted 0\n",
    ),
    (
        304,
        0,
        &[0x0600_0100_0000_0000, EXIT],
        "    offset of 06 00 01 00 00 00 00 00, a jump: known 1, wanted 0\n",
    ),
    (
        304,
        0,
        &[0x1521_0000_0100_0000, EXIT],
        "    source of 15 21 00 00 01 00 00 00, a conditional jump: known 2, wanted 0\n",
    ),
    (
        304,
        0,
        &[0x1d21_0000_0100_0000, EXIT],
        "    immediate of 1d 21 00 00 01 00 00 00, a conditional jump: known 1, wanted 0\n",
    ),
    (
        304,
        0,
        &[0x6110_0000_0100_0000, EXIT],
        "    immediate of 61 10 00 00 01 00 00 00, a load: known 1, wanted 0\n",
    ),
    (
        304,
        0,
        &[0x9110_0000_0100_0000, EXIT],
        "    immediate of 91 10 00 00 01 00 00 00, a load: known 1, wanted 0\n",
    ),
    (
        304,
        0,
        &[0x622a_0000_0100_0000, EXIT],
        "    source of 62 2a 00 00 01 00 00 00, a store: known 2, wanted 0\n",
    ),
    (
        304,
        0,
        &[0x6b2a_0000_0100_0000, EXIT],
        "    immediate of 6b 2a 00 00 01 00 00 00, a store: known 1, wanted 0\n",
    ),
    (
        304,
        1,
        &[0x1801_0000_0700_0000, 0x9500_0000_0000_0000, EXIT],
        "    opcode of 95 00 00 00 00 00 00 00, the second slot of a wide load: known 95, wanted 00\n",
    ),
    (
        304,
        1,
        &[0x1801_0000_0700_0000, 0x0001_0000_0000_0000, EXIT],
        "    destination of 00 01 00 00 00 00 00 00, the second slot of a wide load: known 1, wanted 0\n",
    ),
    (
        304,
        1,
        &[0x1801_0000_0700_0000, 0x0010_0000_0000_0000, EXIT],
        "    source of 00 10 00 00 00 00 00 00, the second slot of a wide load: known 1, wanted 0\n",
    ),
    (
        304,
        1,
        &[0x1801_0000_0700_0000, 0x0000_feff_0000_0000, EXIT],
        "    offset of 00 00 fe ff 00 00 00 00, the second slot of a wide load: known -2, wanted 0\n",
    ),
    (
        304,
        3,
        &[
            0x1801_0000_0700_0000,
            0x0000_0000_1800_0000,
            0x1801_0000_0700_0000,
            0x8510_0000_0000_0000,
            EXIT,
        ],
        "    opcode of 85 10 00 00 00 00 00 00, the second slot of a wide load: known 85, wanted 00\n",
    ),
    (
        305,
        0,
        &[0xb70b_0000_0000_0000, EXIT],
        "    destination of b7 0b 00 00 00 00 00 00, arithmetic: known 11, wanted 0 to 10\n",
    ),
    (
        305,
        0,
        &[0xbfc1_0000_0000_0000, EXIT],
        "    source of bf c1 00 00 00 00 00 00, arithmetic: known 12, wanted 0 to 10\n",
    ),
    (
        305,
        0,
        &[0x7bfb_0000_0000_0000, EXIT],
        "    destination of 7b fb 00 00 00 00 00 00, a store: known 11, wanted 0 to 10\n",
    ),
    (
        305,
        0,
        &[0x71f0_0000_0000_0000, EXIT],
        "    source of 71 f0 00 00 00 00 00 00, a load: known 15, wanted 0 to 10\n",
    ),
    (
        315,
        1,
        &[EXIT, 0x1801_0000_abcd_ef00],
        "    second slot of 18 01 00 00 ab cd ef 00, a wide load: known none, wanted one behind it\n",
    ),
];
