//! Commands over readers and writers that fail, at each place in turn.
use crate::commands::{FLIGHT_PLAN, SCHEDULE, built_in, ten_entries};
use acdm_commands::{audit_on, run_on, verify_on};
use acdm_sessions::{Sink, Source};
use bpf_regstate::Length;
use faulty_streams::{Fault, Faulty, Narrow};
use std::alloc::Global;
use std::process::Abort;

/// A status, what was written, and the line on the errors' writer.
#[derive(Drop)]
struct Came {
    status: u8,
    written: Vec<u8>,
    complaint: Vec<u8>,
}

// It came so.
fn is_so(rt: &impl Abort, came: &Came, status: u8, written: &[u8], complaint: &str, place: u64) {
    assert!(rt; came.status == status, "{place} {complaint}");
    assert!(rt; came.written.as_slice() == written, "{place} {complaint}");
    assert!(rt;
        came.complaint.as_slice() == complaint.as_bytes(),
        "{place} {complaint}"
    );
}

const READ: &str = "acdm: read failed\n";

const WRITE: &str = "acdm: write failed\n";

const SAVE: &str = "acdm: save failed\n";

// The entries of the two lines, of 73 and 61 bytes.
const ENTRIES: &[u8] =
    b"0 1 29000580 APT 0 0 schedule 7 DLH7 A320 DAIBC EDDM 29000760 40 5 10 12\n1 2 29000580 NM 0 0 report 7 1 29000760 DLH7 A320 DAIBC EDDM\n";

/// How many reads of 60 bytes, writes of two and saving writes of 20 succeed, what becomes of the next,
/// and the status, the replies, how many bytes are saved, and the complaint.
type RunRow = (u64, u64, u64, Fault, u8, &'static str, usize, &'static str);

static RUNS: [RunRow; 14] = [
    (99, 99, 99, Fault::Fails, 0, "ok 0\nok 1\n", 134, ""),
    (0, 99, 99, Fault::Fails, 2, "", 0, READ),
    (3, 99, 99, Fault::Fails, 2, "ok 0\n", 0, READ),
    (6, 99, 99, Fault::Fails, 2, "ok 0\nok 1\n", 0, READ),
    (99, 0, 99, Fault::Fails, 2, "", 0, WRITE),
    (99, 1, 99, Fault::TakesNone, 2, "ok", 0, WRITE),
    (99, 4, 99, Fault::Fails, 2, "ok 0\nok", 0, WRITE),
    (99, 3, 99, Fault::CannotFlush, 2, "ok 0\n", 0, WRITE),
    (99, 99, 0, Fault::Fails, 2, "ok 0\nok 1\n", 0, SAVE),
    (99, 99, 1, Fault::TakesNone, 2, "ok 0\nok 1\n", 20, SAVE),
    (99, 99, 3, Fault::Fails, 2, "ok 0\nok 1\n", 60, SAVE),
    (99, 99, 4, Fault::Fails, 2, "ok 0\nok 1\n", 73, SAVE),
    (99, 99, 7, Fault::TakesNone, 2, "ok 0\nok 1\n", 133, SAVE),
    (99, 99, 8, Fault::CannotFlush, 2, "ok 0\nok 1\n", 134, SAVE),
];

// What came of a run over this text, and what was saved.
fn run_over(rt: &impl Abort, alloc: Global, text: &[u8], row: &RunRow) -> (Came, Vec<u8>) {
    let (reads, writes, saves, fault, ..) = *row;
    let mut reader = Source::new(Faulty {
        text,
        piece: 60,
        left: reads,
    });
    let mut writer = Sink::new(Narrow::new(alloc, 2, writes, fault));
    let mut saved = Some(Sink::new(Narrow::new(alloc, 20, saves, fault)));
    let mut errors = Sink::new(Vec::new(alloc));
    let setup = ten_entries(rt, alloc);
    let status = run_on(
        alloc,
        setup,
        &mut reader,
        &mut writer,
        &mut saved,
        &mut errors,
    );
    let came = Came {
        status,
        written: writer.into_inner().taken,
        complaint: errors.into_inner(),
    };
    match saved {
        Some(file) => (came, file.into_inner().taken),
        None => (came, Vec::new(alloc)),
    }
}

fn runs_so(rt: &impl Abort, alloc: Global, text: &[u8], row: &RunRow) {
    let (reads, _, saves, _, status, replies, bytes, complaint) = *row;
    let (came, saved) = run_over(rt, alloc, text, row);
    is_so(rt, &came, status, replies.as_bytes(), complaint, reads);
    assert!(rt;
        saved.as_slice() == &ENTRIES[..bytes.min(ENTRIES.len())],
        "{saves} {complaint}"
    );
    drop(came);
}

#[test]
fn a_run_tells_which_end_failed(rt: HostRuntime) {
    let mut text = Vec::new(rt.alloc());
    text.extend_from_slice(SCHEDULE.as_bytes())
        .expect(&rt, "room");
    text.extend_from_slice(FLIGHT_PLAN.as_bytes())
        .expect(&rt, "room");
    for row in &RUNS {
        runs_so(&rt, rt.alloc(), text.as_slice(), row);
    }
}

/// How many reads of 30 bytes and writes of three succeed, what becomes of the next write, and the
/// status, what is written, and the complaint.
type FileRow = (u64, u64, Fault, u8, &'static str, &'static str);

// Of the two entries.
static AUDITS: [FileRow; 12] = [
    (0, 99, Fault::Fails, 2, "", READ),
    (1, 99, Fault::Fails, 2, "", READ),
    (2, 99, Fault::Fails, 2, "", READ),
    (3, 99, Fault::Fails, 2, "", READ),
    (4, 99, Fault::Fails, 2, "", READ),
    (5, 99, Fault::Fails, 2, "", READ),
    (6, 99, Fault::Fails, 0, "legal 2\n", ""),
    (99, 0, Fault::Fails, 2, "", WRITE),
    (99, 1, Fault::TakesNone, 2, "leg", WRITE),
    (99, 2, Fault::Fails, 2, "legal ", WRITE),
    (99, 3, Fault::Fails, 0, "legal 2\n", ""),
    (99, 3, Fault::CannotFlush, 2, "legal 2\n", WRITE),
];

// Of an exit, by which the verdict is a refusal.
static VERDICTS: [FileRow; 7] = [
    (0, 99, Fault::Fails, 2, "", READ),
    (1, 99, Fault::Fails, 2, "", READ),
    (2, 99, Fault::Fails, 1, "refused 308 0\n", ""),
    (99, 0, Fault::TakesNone, 2, "", WRITE),
    (99, 4, Fault::Fails, 2, "refused 308 ", WRITE),
    (99, 5, Fault::Fails, 1, "refused 308 0\n", ""),
    (99, 5, Fault::CannotFlush, 2, "refused 308 0\n", WRITE),
];

// What came of `audit`, or of `verify`, of these bytes.
fn file_judged(
    rt: &impl Abort,
    alloc: Global,
    bytes: &[u8],
    row: &FileRow,
    is_audit: bool,
) -> Came {
    let (left, writes, fault, ..) = *row;
    let mut reader = Source::new(Faulty {
        text: bytes,
        piece: 30,
        left,
    });
    let mut writer = Sink::new(Narrow::new(alloc, 3, writes, fault));
    let mut errors = Sink::new(Vec::new(alloc));
    let tables = built_in(rt, alloc);
    let status = if is_audit {
        audit_on(alloc, &tables, &mut reader, &mut writer, &mut errors)
    } else {
        verify_on(
            alloc,
            &tables,
            Length::L128,
            &mut reader,
            &mut writer,
            &mut errors,
        )
    };
    Came {
        status,
        written: writer.into_inner().taken,
        complaint: errors.into_inner(),
    }
}

fn judged_so(rt: &impl Abort, alloc: Global, bytes: &[u8], row: &FileRow, is_audit: bool) {
    let (left, _, _, status, written, complaint) = *row;
    let came = file_judged(rt, alloc, bytes, row, is_audit);
    is_so(rt, &came, status, written.as_bytes(), complaint, left);
    drop(came);
}

#[test]
fn an_audit_and_a_verdict_tell_which_end_failed(rt: HostRuntime) {
    for row in &AUDITS {
        judged_so(&rt, rt.alloc(), ENTRIES, row, true);
    }
    for row in &VERDICTS {
        judged_so(&rt, rt.alloc(), &[0x95, 0, 0, 0, 0, 0, 0, 0], row, false);
    }
}
