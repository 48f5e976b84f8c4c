//! What `explain` tells of files, and its statuses.
use crate::commands::{Broken, Short, built_in, completes};
use acdm_commands::{ProgramFile, explain_on, verify_on};
use acdm_sessions::{Sink, Source};
use bpf_regstate::Length;
use std::alloc::Global;
use std::io::{Read, Write};
use std::process::Abort;

// `explain` from this reader to this writer ends with this status and complaint.
fn explain_ends<R: Read + Drop, W: Write + Drop>(
    rt: &impl Abort,
    alloc: Global,
    reader: R,
    writer: W,
    expected: (u8, &str),
) {
    let mut errors = Sink::new(Vec::new(alloc));
    let mut reader = Source::new(reader);
    let mut writer = Sink::new(writer);
    let file = ProgramFile {
        path: "rules/slot.bin",
        length: Length::L128,
    };
    let tables = built_in(rt, alloc);
    let status = explain_on(alloc, &tables, file, &mut reader, &mut writer, &mut errors);
    let (wanted, complaint) = expected;
    assert!(rt; status == wanted);
    assert!(rt; errors.into_inner().as_slice() == complaint.as_bytes());
}

// It writes this text.
fn explains<R: Read + Drop>(rt: &impl Abort, alloc: Global, reader: R, expected: (u8, &str, &str)) {
    let (status, written, complaint) = expected;
    let mut text = Vec::new(alloc);
    explain_ends(rt, alloc, reader, &mut text, (status, complaint));
    assert!(rt; text.as_slice() == written.as_bytes());
}

#[test]
fn a_program_is_explained(rt: HostRuntime) {
    let bytes = [0xb7, 0, 0, 0, 0, 0, 0, 0, 0x95, 0, 0, 0, 0, 0, 0, 0];
    let text = r#"0: mov64 r0, 0
    r1 = record+0, r2 = 128, r3 = 0 to 4294967295, r4 = 1 to 16, r10 = stack+0
1: exit
    r0 = 0, r1 = record+0, r2 = 128, r3 = 0 to 4294967295, r4 = 1 to 16, r10 = stack+0
accepted 2
"#;
    explains(&rt, rt.alloc(), bytes.as_slice(), (0, text, ""));
}

// A stand is passed to helper 2 as it was read.
#[test]
fn a_refusal_is_explained(rt: HostRuntime) {
    let bytes = [
        0x69, 0x11, 0x3c, 0, 0, 0, 0, 0, 0x85, 0, 0, 0, 2, 0, 0, 0, 0x95, 0, 0, 0, 0, 0, 0, 0,
    ];
    let text = r#"0: ldxh r1, [r1+60]
    r1 = record+0, r2 = 128, r3 = 0 to 4294967295, r4 = 1 to 16, r10 = stack+0
1: call 2
    r1 = 0 to 65535, r2 = 128, r3 = 0 to 4294967295, r4 = 1 to 16, r10 = stack+0
fault 313 at slot 1: argument outside the helper's range
    argument 1 of helper 2, r1: known 0 to 65535, wanted 0 to 999
refused 313 1
"#;
    explains(&rt, rt.alloc(), bytes.as_slice(), (1, text, ""));
}

// Both commands have one status and one last line.
fn both_end_with(rt: &impl Abort, alloc: Global, bytes: &[u8], line: &str) {
    let mut verdict = Sink::new(Vec::new(alloc));
    let mut text = Sink::new(Vec::new(alloc));
    let mut errors = Sink::new(Vec::new(alloc));
    let mut reader = Source::new(bytes);
    let wanted = verify_on(
        alloc,
        &built_in(rt, alloc),
        Length::L128,
        &mut reader,
        &mut verdict,
        &mut errors,
    );
    let mut reader = Source::new(bytes);
    let file = ProgramFile {
        path: "rules/slot.bin",
        length: Length::L128,
    };
    let tables = built_in(rt, alloc);
    let status = explain_on(alloc, &tables, file, &mut reader, &mut text, &mut errors);
    assert!(rt; status == wanted, "{line}");
    assert!(rt;
        verdict.into_inner().as_slice().ends_with(line.as_bytes()),
        "{line}"
    );
    assert!(rt;
        text.into_inner().as_slice().ends_with(line.as_bytes()),
        "{line}"
    );
    assert!(rt; errors.into_inner().is_empty(), "{line}");
}

// Programs, and the last line on each.
static LAST_LINES: [(&[u8], &str); 5] = [
    (&[0x95, 0, 1, 0, 0, 0, 0, 0], "refused 304 0\n"),
    (&[0, 0, 0, 0, 0, 0, 0, 0, 0, 0, 0, 0], "refused 301 0\n"),
    (&[0x95, 0, 0, 0, 0, 0, 0, 0], "refused 308 0\n"),
    (&[0xb7, 0, 0, 0, 0, 0, 0, 0], "refused 307 0\n"),
    (
        &[0xb7, 0, 0, 0, 0, 0, 0, 0, 0x95, 0, 0, 0, 0, 0, 0, 0],
        "accepted 2\n",
    ),
];

#[test]
fn the_last_line_is_that_of_verify(rt: HostRuntime) {
    let alloc = rt.alloc();
    for (bytes, line) in &LAST_LINES {
        both_end_with(&rt, alloc, *bytes, *line);
    }
    let many = vec![in alloc; 0u8; 65_536].expect(&rt, "zeros");
    both_end_with(&rt, alloc, many.as_slice(), "refused 302 0\n");
}

#[test]
fn a_file_that_cannot_be_opened_is_named(rt: HostRuntime) {
    completes(
        &rt,
        rt.alloc(),
        &["acdm", "explain", "no-such-folder/no-such-file"],
        "",
        (
            2,
            "",
            "acdm: read failed\nacdm: no-such-folder/no-such-file: No such file or directory (os error 2)\n",
        ),
    );
}

#[test]
fn explain_tells_what_failed(rt: HostRuntime) {
    let alloc = rt.alloc();
    let complaint = "acdm: read failed\nacdm: rules/slot.bin: broken pipe\n";
    explains(&rt, alloc, Broken, (2, "", complaint));
    explains(&rt, alloc, Short, (2, "", "acdm: no memory\n"));
    let exit = [0x95, 0, 0, 0, 0, 0, 0, 0];
    let complaint = "acdm: write failed\n";
    explain_ends(&rt, alloc, exit.as_slice(), Broken, (2, complaint));
}
