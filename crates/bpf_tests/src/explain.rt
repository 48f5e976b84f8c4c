//! The words, by hand: first programs that are accepted, then one for each fault.

mod addresses;
mod reasons;
mod slots;
mod words;

use crate::programs::{exited, same_text, slot};
use bpf_explain::{Told, read};
use bpf_helpers::{Range, Signature, Sigs};
use bpf_regstate::Length;
use std::alloc::Global;
use std::process::Abort;

const EXIT: u64 = 0x9500_0000_0000_0000;

/// Adds a helper that takes and answers these ranges.
fn add(
    rt: &impl Abort,
    alloc: Global,
    sigs: &mut Sigs,
    number: u32,
    args: &[Range],
    answer: Range,
) {
    let args = args.to_vec(alloc).expect(rt, "arguments");
    let signature = Signature::new(args, answer, Vec::new(alloc)).expect(rt, "a signature");
    sigs.push(number, signature).expect(rt, "signatures");
}

/// What helper 2 takes, a stand.
static STAND: [Range; 1] = [Range { lo: 0, hi: 999 }];

/// What helper 3 takes, a moment and minutes.
static LATER: [Range; 2] = [
    Range {
        lo: 0,
        hi: 4_294_967_295,
    },
    Range { lo: 0, hi: 10_000 },
];

/// What helper 63 takes.
static FIVE: [Range; 5] = [
    Range {
        lo: 0,
        hi: u64::MAX,
    },
    Range {
        lo: 0,
        hi: u64::MAX,
    },
    Range {
        lo: 0,
        hi: u64::MAX,
    },
    Range { lo: 2, hi: 16 },
    Range { lo: 5, hi: 9 },
];

/// The signatures of these helpers.
fn signatures(rt: &impl Abort, alloc: Global) -> Sigs {
    let mut sigs = Sigs::new(alloc);
    add(rt, alloc, &mut sigs, 2, &STAND, Range { lo: 1, hi: 60 });
    let answer = Range {
        lo: 0,
        hi: 4_294_977_295,
    };
    add(rt, alloc, &mut sigs, 3, &LATER, answer);
    add(rt, alloc, &mut sigs, 63, &FIVE, Range { lo: 0, hi: 0 });
    sigs
}

/// What is written of the bytes is this text.
fn is_written(
    rt: &impl Abort,
    alloc: Global,
    shows: &str,
    told: &Told,
    sigs: &Sigs,
    bytes: &[u8],
    text: &str,
) {
    let mut written = Vec::new(alloc);
    told.write(bytes, sigs, &mut written).expect(rt, shows);
    let written = String::from_utf8(written).ok().expect(rt, shows);
    same_text(rt, written.as_str(), text);
}

/// This is written of the bytes, and whether they are a program that is accepted.
fn tells(rt: &impl Abort, alloc: Global, shows: &str, bytes: &[u8], is_accepted: bool, text: &str) {
    tells_beside(rt, alloc, Length::L128, shows, bytes, is_accepted, text);
}

/// The same beside records of this length.
fn tells_beside(
    rt: &impl Abort,
    alloc: Global,
    length: Length,
    shows: &str,
    bytes: &[u8],
    is_accepted: bool,
    text: &str,
) {
    let sigs = signatures(rt, alloc);
    let told = read(alloc, bytes, &sigs, length).expect(rt, shows);
    assert!(rt; told.is_accepted() == is_accepted, "{shows}");
    is_written(rt, alloc, shows, &told, &sigs, bytes, text);
    drop(told);
    drop(sigs);
}

/// A load of four bytes of which the last is behind a record of 160.
static BEHIND_IT: [u8; 16] = [0x61, 0x10, 0x9d, 0, 0, 0, 0, 0, 0x95, 0, 0, 0, 0, 0, 0, 0];

static TOLD_OF_IT: &str = r#"0: ldxw r0, [r1+157]
    r1 = record+0, r2 = 160, r3 = 0 to 4294967295, r4 = 1 to 16, r10 = stack+0
fault 309 at slot 0: address outside the record and the stack
    address [r1+157], size 4: known record+157, wanted record+0 to record+156 or stack-512 to stack-4
    r1: known record+0, wanted record-157 to record-1 or stack-669 to stack-161
refused 309 0
"#;

#[test]
fn longer_records_are_told(rt: HostRuntime) {
    let shows = "a longer record";
    tells_beside(
        &rt,
        rt.alloc(),
        Length::L160,
        shows,
        &BEHIND_IT,
        false,
        TOLD_OF_IT,
    );
}

/// What is told of a program of these slots, each with its bytes in their order.
struct Listing {
    shows: &'static str,
    slots: &'static [u64],
    is_accepted: bool,
    text: &'static str,
}

static LISTINGS: [Listing; 16] = [
    Listing {
        shows: "each slot has its state",
        slots: &[0xb700_0000_0000_0000, EXIT],
        is_accepted: true,
        text: r#"0: mov64 r0, 0
    r1 = record+0, r2 = 128, r3 = 0 to 4294967295, r4 = 1 to 16, r10 = stack+0
1: exit
    r0 = 0, r1 = record+0, r2 = 128, r3 = 0 to 4294967295, r4 = 1 to 16, r10 = stack+0
accepted 2
"#,
    },
    Listing {
        shows: "a slot to which nothing leads has none",
        slots: &[
            0x1800_0000_0700_0000,
            0,
            0x0500_0100_0000_0000,
            0xb700_0000_0100_0000,
            EXIT,
        ],
        is_accepted: true,
        text: r#"0: lddw r0, 0x0000000000000007
    r1 = record+0, r2 = 128, r3 = 0 to 4294967295, r4 = 1 to 16, r10 = stack+0
1: -
2: ja +1
    r0 = 7, r1 = record+0, r2 = 128, r3 = 0 to 4294967295, r4 = 1 to 16, r10 = stack+0
3: mov64 r0, 1
    no way leads here
4: exit
    r0 = 7, r1 = record+0, r2 = 128, r3 = 0 to 4294967295, r4 = 1 to 16, r10 = stack+0
accepted 5
"#,
    },
    // A moment from 2025-02-20T09:00Z to 24 hours later goes to the stack and comes back, beside the
    // address of the record.
    Listing {
        shows: "times and words of the stack are told",
        slots: &[
            0xb700_0000_0000_0000,
            0xa503_0400_fc83_ba01,
            0x2503_0300_9c89_ba01,
            0x7b3a_f8ff_0000_0000,
            0x7b1a_e8ff_0000_0000,
            0x79a0_f8ff_0000_0000,
            EXIT,
        ],
        is_accepted: true,
        text: r#"0: mov64 r0, 0
    r1 = record+0, r2 = 128, r3 = 0 to 4294967295, r4 = 1 to 16, r10 = stack+0
1: jlt r3, 29000700, +4
    r0 = 0, r1 = record+0, r2 = 128, r3 = 0 to 4294967295, r4 = 1 to 16, r10 = stack+0
2: jgt r3, 29002140, +3
    r0 = 0, r1 = record+0, r2 = 128, r3 = 29000700 to 4294967295, r4 = 1 to 16, r10 = stack+0
3: stxdw [r10-8], r3
    r0 = 0, r1 = record+0, r2 = 128, r3 = 29000700 to 29002140 (2025-02-20T09:00:00Z to 2025-02-21T09:00:00Z), r4 = 1 to 16, r10 = stack+0
4: stxdw [r10-24], r1
    r0 = 0, r1 = record+0, r2 = 128, r3 = 29000700 to 29002140 (2025-02-20T09:00:00Z to 2025-02-21T09:00:00Z), r4 = 1 to 16, r10 = stack+0
    stored: stack-8 to stack-1
    kept: stack-8 = 29000700 to 29002140 (2025-02-20T09:00:00Z to 2025-02-21T09:00:00Z)
5: ldxdw r0, [r10-8]
    r0 = 0, r1 = record+0, r2 = 128, r3 = 29000700 to 29002140 (2025-02-20T09:00:00Z to 2025-02-21T09:00:00Z), r4 = 1 to 16, r10 = stack+0
    stored: stack-24 to stack-17, stack-8 to stack-1
    kept: stack-8 = 29000700 to 29002140 (2025-02-20T09:00:00Z to 2025-02-21T09:00:00Z), stack-24 = record+0
6: exit
    r0 = 0 to 29002140, r1 = record+0, r2 = 128, r3 = 0 to 4294967295, r4 = 1 to 16, r10 = stack+0
accepted 7
"#,
    },
    Listing {
        shows: "a jump backward has its target",
        slots: &[0x0500_feff_0000_0000, EXIT],
        is_accepted: false,
        text: r#"0: ja -2
    r1 = record+0, r2 = 128, r3 = 0 to 4294967295, r4 = 1 to 16, r10 = stack+0
fault 306 at slot 0: jump backward, outside or into a wide load
    target: known slot -1 (not later), wanted the slot of a later instruction
refused 306 0
"#,
    },
    Listing {
        shows: "a jump outside has its target",
        slots: &[0x1504_0100_0100_0000, EXIT],
        is_accepted: false,
        text: r#"0: jeq r4, 1, +1
    r1 = record+0, r2 = 128, r3 = 0 to 4294967295, r4 = 1 to 16, r10 = stack+0
fault 306 at slot 0: jump backward, outside or into a wide load
    target: known slot 2 (behind the last), wanted the slot of a later instruction
refused 306 0
"#,
    },
    Listing {
        shows: "a jump into a wide load has its target",
        slots: &[0x0600_0000_0100_0000, 0x1800_0000_0000_0000, 0, EXIT],
        is_accepted: false,
        text: r#"0: ja32 +1
    r1 = record+0, r2 = 128, r3 = 0 to 4294967295, r4 = 1 to 16, r10 = stack+0
fault 306 at slot 0: jump backward, outside or into a wide load
    target: known slot 2 (the second of a wide load), wanted the slot of a later instruction
refused 306 0
"#,
    },
    Listing {
        shows: "a missing exit is told",
        slots: &[0xb700_0000_0000_0000],
        is_accepted: false,
        text: r#"0: mov64 r0, 0
    r1 = record+0, r2 = 128, r3 = 0 to 4294967295, r4 = 1 to 16, r10 = stack+0
fault 307 at slot 0: end of the program without an exit
    next: known no slot, wanted an exit as the last instruction
refused 307 0
"#,
    },
    Listing {
        shows: "an uninitialised register is told",
        slots: &[0x0f51_0000_0000_0000, EXIT],
        is_accepted: false,
        text: r#"0: add64 r1, r5
    r1 = record+0, r2 = 128, r3 = 0 to 4294967295, r4 = 1 to 16, r10 = stack+0
fault 308 at slot 0: uninitialised register
    r5: known nothing, wanted a value on every way here
refused 308 0
"#,
    },
    Listing {
        shows: "an uninitialised argument is told",
        slots: &[
            0xb701_0000_0500_0000,
            0x8500_0000_0200_0000,
            0x8500_0000_0200_0000,
            EXIT,
        ],
        is_accepted: false,
        text: r#"0: mov64 r1, 5
    r1 = record+0, r2 = 128, r3 = 0 to 4294967295, r4 = 1 to 16, r10 = stack+0
1: call 2
    r1 = 5, r2 = 128, r3 = 0 to 4294967295, r4 = 1 to 16, r10 = stack+0
2: call 2
    r0 = 1 to 60, r10 = stack+0
fault 308 at slot 2: uninitialised register
    argument 1 of helper 2, r1: known nothing since the call at slot 1, wanted 0 to 999
refused 308 2
"#,
    },
    Listing {
        shows: "an address is told with its regions",
        slots: &[
            0x6915_3c00_0000_0000,
            0x0f15_0000_0000_0000,
            0x6950_0400_0000_0000,
            EXIT,
        ],
        is_accepted: false,
        text: r#"0: ldxh r5, [r1+60]
    r1 = record+0, r2 = 128, r3 = 0 to 4294967295, r4 = 1 to 16, r10 = stack+0
1: add64 r5, r1
    r1 = record+0, r2 = 128, r3 = 0 to 4294967295, r4 = 1 to 16, r5 = 0 to 65535, r10 = stack+0
2: ldxh r0, [r5+4]
    r1 = record+0, r2 = 128, r3 = 0 to 4294967295, r4 = 1 to 16, r5 = record+0 to record+65535, r10 = stack+0
fault 309 at slot 2: address outside the record and the stack
    address [r5+4], size 2: known record+4 to record+65539, wanted record+0 to record+126 or stack-512 to stack-2
    r5: known record+0 to record+65535, wanted record-4 to record+122 or stack-516 to stack-6
refused 309 2
"#,
    },
    Listing {
        shows: "an address in either region is told",
        slots: &[
            0x1504_0200_0100_0000,
            0xbfa1_0000_0000_0000,
            0x0701_0000_f8ff_ffff,
            0x7110_0000_0000_0000,
            EXIT,
        ],
        is_accepted: false,
        text: r#"0: jeq r4, 1, +2
    r1 = record+0, r2 = 128, r3 = 0 to 4294967295, r4 = 1 to 16, r10 = stack+0
1: mov64 r1, r10
    r1 = record+0, r2 = 128, r3 = 0 to 4294967295, r4 = 2 to 16, r10 = stack+0
2: add64 r1, -8
    r1 = stack+0, r2 = 128, r3 = 0 to 4294967295, r4 = 2 to 16, r10 = stack+0
3: ldxb r0, [r1+0]
    r1 = record+0 to stack-8, r2 = 128, r3 = 0 to 4294967295, r4 = 1 to 16, r10 = stack+0
fault 309 at slot 3: address outside the record and the stack
    address [r1+0], size 1: known record+0 to stack-8, as a whole in neither region, wanted all of it in one: record+0 to record+127 or stack-512 to stack-1
refused 309 3
"#,
    },
    Listing {
        shows: "uninitialised bytes are told",
        slots: &[0x620a_f8ff_0500_0000, 0x79a0_f8ff_0000_0000, EXIT],
        is_accepted: false,
        text: r#"0: stw [r10-8], 5
    r1 = record+0, r2 = 128, r3 = 0 to 4294967295, r4 = 1 to 16, r10 = stack+0
1: ldxdw r0, [r10-8]
    r1 = record+0, r2 = 128, r3 = 0 to 4294967295, r4 = 1 to 16, r10 = stack+0
    stored: stack-8 to stack-5
fault 310 at slot 1: uninitialised byte of the stack
    bytes at [r10-8]: known as stored stack-8 to stack-5, wanted stack-8 to stack-1
refused 310 1
"#,
    },
    Listing {
        shows: "a store to the record is told",
        slots: &[0x6201_6000_0000_0000, EXIT],
        is_accepted: false,
        text: r#"0: stw [r1+96], 0
    r1 = record+0, r2 = 128, r3 = 0 to 4294967295, r4 = 1 to 16, r10 = stack+0
fault 311 at slot 0: store to the record
    address [r1+96], size 4: known record+96, wanted stack-512 to stack-4
    r1: known record+0, wanted stack-608 to stack-100
refused 311 0
"#,
    },
    Listing {
        shows: "an unknown helper is told",
        slots: &[0x8500_0000_0900_0000, EXIT],
        is_accepted: false,
        text: r#"0: call 9
    r1 = record+0, r2 = 128, r3 = 0 to 4294967295, r4 = 1 to 16, r10 = stack+0
fault 312 at slot 0: unknown helper
    helper: known 9, wanted one of 2, 3, 63
refused 312 0
"#,
    },
    Listing {
        shows: "an argument out of range is told",
        slots: &[
            0xbf31_0000_0000_0000,
            0xb702_0000_1127_0000,
            0x8500_0000_0300_0000,
            EXIT,
        ],
        is_accepted: false,
        text: r#"0: mov64 r1, r3
    r1 = record+0, r2 = 128, r3 = 0 to 4294967295, r4 = 1 to 16, r10 = stack+0
1: mov64 r2, 10001
    r1 = 0 to 4294967295, r2 = 128, r3 = 0 to 4294967295, r4 = 1 to 16, r10 = stack+0
2: call 3
    r1 = 0 to 4294967295, r2 = 10001, r3 = 0 to 4294967295, r4 = 1 to 16, r10 = stack+0
fault 313 at slot 2: argument outside the helper's range
    argument 2 of helper 3, r2: known 10001, wanted 0 to 10000
refused 313 2
"#,
    },
    Listing {
        shows: "a write to r10 is told",
        slots: &[0x070a_0000_f8ff_ffff, EXIT],
        is_accepted: false,
        text: r#"0: add64 r10, -8
    r1 = record+0, r2 = 128, r3 = 0 to 4294967295, r4 = 1 to 16, r10 = stack+0
fault 314 at slot 0: write to r10
    destination: known r10, wanted r0 to r9
refused 314 0
"#,
    },
];

/// The bytes of these slots.
fn bytes_of(rt: &impl Abort, alloc: Global, slots: &[u64]) -> Vec<u8> {
    let mut bytes = Vec::new(alloc);
    for slot in slots {
        bytes
            .extend_from_slice(&slot.to_be_bytes())
            .expect(rt, "bytes");
    }
    bytes
}

/// That is told of the program.
fn is_listed(rt: &impl Abort, alloc: Global, listing: &Listing) {
    let Listing {
        shows,
        slots,
        is_accepted,
        text,
    } = listing;
    let bytes = bytes_of(rt, alloc, slots);
    tells(rt, alloc, shows, bytes.as_slice(), *is_accepted, text);
}

#[test]
fn programs_are_told(rt: HostRuntime) {
    for listing in &LISTINGS {
        is_listed(&rt, rt.alloc(), listing);
    }
}

/// What is known at each slot of a program that only sets r0.
const KNOWN: &str = "r1 = record+0, r2 = 128, r3 = 0 to 4294967295, r4 = 1 to 16, r10 = stack+0\n";

/// What is told of a slot of the longest program.
fn slot_text(rt: &impl Abort, alloc: Global, slot: u64) -> String {
    let name = if slot == 4_095 { "exit" } else { "mov64 r0, 0" };
    let known = if slot == 0 { "" } else { "r0 = 0, " };
    format!(in alloc; "{slot}: {name}\n    {known}{KNOWN}").expect(rt, "a slot")
}

/// What is told of 4,095 slots that set r0 to 0, and of an exit.
fn longest_text(rt: &impl Abort, alloc: Global) -> String {
    let mut text = String::new(alloc);
    for slot in 0..4_096 {
        let part = slot_text(rt, alloc, slot);
        text.push_str(part.as_str()).expect(rt, "room");
    }
    text.push_str("accepted 4096\n").expect(rt, "room");
    text
}

#[test]
fn the_longest_program_is_told(rt: HostRuntime) {
    let bytes = exited(&rt, rt.alloc(), &slot(0xb7, 0, 0, 0), 4_095);
    let text = longest_text(&rt, rt.alloc());
    tells(
        &rt,
        rt.alloc(),
        "4,096 slots",
        bytes.as_slice(),
        true,
        text.as_str(),
    );
}

/// Bytes that encode no program, and what is told of them.
static NO_PROGRAMS: [(&str, &[u8], &str); 5] = [
    (
        "no bytes",
        &[],
        r#"fault 301 at slot 0: no whole slots of 8 bytes
    bytes: known 0, wanted 8 for each slot
refused 301 0
"#,
    ),
    (
        "an unknown opcode",
        &[0xff, 1, 2, 3, 4, 5, 6, 7],
        r#"fault 303 at slot 0: unknown opcode
    opcode of ff 01 02 03 04 05 06 07: known ff, wanted one that programs may have
refused 303 0
"#,
    ),
    (
        "a field that is not 0",
        &[0x95, 0, 1, 0, 0, 0, 0, 0],
        r#"fault 304 at slot 0: field value that the opcode does not allow
    offset of 95 00 01 00 00 00 00 00, an exit: known 1, wanted 0
refused 304 0
"#,
    ),
    (
        "a register over 10",
        &[0xb7, 11, 0, 0, 0, 0, 0, 0],
        r#"fault 305 at slot 0: register over 10
    destination of b7 0b 00 00 00 00 00 00, arithmetic: known 11, wanted 0 to 10
refused 305 0
"#,
    ),
    (
        "a cut wide load",
        &[0x18, 0, 0, 0, 1, 0, 0, 0],
        r#"fault 315 at slot 0: wide load without its second slot
    second slot of 18 00 00 00 01 00 00 00, a wide load: known none, wanted one behind it
refused 315 0
"#,
    ),
];

/// What is told of more bytes than a program may have.
const TOO_LONG: &str = r#"fault 302 at slot 0: more than 4096 slots
    bytes: known over 32768, wanted 32768 at most
refused 302 0
"#;

#[test]
fn bytes_that_encode_no_program_are_told(rt: HostRuntime) {
    for row in &NO_PROGRAMS {
        let (shows, bytes, text) = *row;
        tells(&rt, rt.alloc(), shows, bytes, false, text);
    }
    let over = vec![in rt.alloc(); 0u8; 32_769].expect(&rt, "bytes");
    tells(
        &rt,
        rt.alloc(),
        "too many bytes",
        over.as_slice(),
        false,
        TOO_LONG,
    );
}

/// What is told of an object file.
const ELF: &str = r#"fault 304 at slot 0: field value that the opcode does not allow
    file: known an object file (ELF), wanted one section (llvm-objcopy -O binary)
refused 304 0
"#;

/// What is told of a program in digits.
const DIGITS: &str = r#"fault 301 at slot 0: no whole slots of 8 bytes
    file: known hexadecimal text, wanted the bytes that it tells (xxd -r -p)
refused 301 0
"#;

#[test]
fn files_of_other_kinds_are_told(rt: HostRuntime) {
    let elf = [0x7f, 0x45, 0x4c, 0x46, 2, 1, 1, 0];
    tells(&rt, rt.alloc(), "an object file", &elf, false, ELF);
    let digits = "9500000000000000\n".as_bytes();
    tells(&rt, rt.alloc(), "digits", digits, false, DIGITS);
}
