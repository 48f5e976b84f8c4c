//! Journals that are saved, and the audit of them.
use crate::commands::{built_in, ten_entries};
use acdm_commands::{audit_on, run_on};
use acdm_sessions::{Sink, Source};
use std::alloc::Global;
use std::io::{self, Read, Write};
use std::process::Abort;

// A program for milestone 9 asks for the taxi time from the stand, and its answer is the local
// alerts.
const LINES: &str =
    r#"1 29000580 APT {"cmd":"load","milestone":9,"kind":"alert","program":"69113c000000000057010000ff01000085000000020000009500000000000000"}
1 29000580 APT {"cmd":"schedule","flight":7,"callsign":"DLH7","type":"A320","reg":"DAIBC","dest":"EDDM","sobt":"2025-02-20T10:00:00Z","mttt":40,"exit":5,"exot":10,"stand":12}
2 29000580 NM {"cmd":"report","flight":7,"milestone":1,"time":"2025-02-20T10:00:00Z","callsign":"DLH7","type":"A320","reg":"DAIBC","dest":"EDDM"}
5 29000580 GH {"cmd":"report","flight":7,"milestone":9,"time":"2025-02-20T10:00:00Z"}
1 29000580 APT {"cmd":"alerts"}
"#;

const LOADED: &str =
    "0 1 29000580 APT 0 0 load 9 alert 69113c000000000057010000ff01000085000000020000009500000000000000\n";

const ENTERED: &str =
    "1 1 29000580 APT 0 0 schedule 7 DLH7 A320 DAIBC EDDM 29000760 40 5 10 12\n2 2 29000580 NM 0 0 report 7 1 29000760 DLH7 A320 DAIBC EDDM\n";

const REPORTED: &str = "3 5 29000580 GH 0 1 10 report 7 9 29000760\n";

const LISTED: &str = "4 1 29000580 APT 0 0 alerts\n";

// Flight 7 is scheduled and planned, and has no TOBT when a TSAT is reported.
const PLANNED: &str =
    "0 1 29000580 APT 0 0 schedule 7 DLH7 A320 DAIBC EDDM 29000760 40 5 10 12\n1 2 29000580 NM 0 0 report 7 1 29000760 DLH7 A320 DAIBC EDDM\n";

fn joined(rt: &impl Abort, alloc: Global, parts: &[&str]) -> String {
    let mut text = String::new(alloc);
    for part in parts {
        text.push_str(part).expect(rt, "room for a part");
    }
    text
}

// The status of an audit of this text, what it tells, and whether it complains of nothing.
fn audited(rt: &impl Abort, alloc: Global, parts: &[&str]) -> (u8, Vec<u8>, bool) {
    let journal = joined(rt, alloc, parts);
    let mut reader = Source::new(journal.as_bytes());
    let mut output = Sink::new(Vec::new(alloc));
    let mut errors = Sink::new(Vec::new(alloc));
    let tables = built_in(rt, alloc);
    let ended = audit_on(alloc, &tables, &mut reader, &mut output, &mut errors);
    let is_quiet = errors.into_inner().is_empty();
    (ended, output.into_inner(), is_quiet)
}

fn audits_to(rt: &impl Abort, alloc: Global, parts: &[&str], status: u8, told: &str) {
    let (ended, output, is_quiet) = audited(rt, alloc, parts);
    assert!(rt; ended == status && is_quiet, "{told}");
    assert!(rt; output.as_slice() == told.as_bytes(), "{told}");
}

// The status of a run over the lines, and what it saved.
fn day_saved(rt: &impl Abort, alloc: Global) -> (u8, Vec<u8>) {
    let mut reader = Source::new(LINES.as_bytes());
    let mut writer = Sink::new(Vec::new(alloc));
    let mut saved = Some(Sink::new(Vec::new(alloc)));
    let mut errors = Sink::new(Vec::new(alloc));
    let setup = ten_entries(rt, alloc);
    let status = run_on(
        alloc,
        setup,
        &mut reader,
        &mut writer,
        &mut saved,
        &mut errors,
    );
    match saved {
        Some(file) => (status, file.into_inner()),
        None => (status, Vec::new(alloc)),
    }
}

#[test]
fn a_day_is_saved_as_text(rt: HostRuntime) {
    let alloc = rt.alloc();
    let expected = joined(&rt, alloc, &[LOADED, ENTERED, REPORTED, LISTED]);
    let (status, saved) = day_saved(&rt, alloc);
    assert!(rt; status == 0);
    assert!(rt; saved.as_slice() == expected.as_bytes());
    audits_to(&rt, alloc, &[expected.as_str()], 0, "legal 5\n");
}

// Other entries in the place of the fourth.
static OTHER_ANSWERS: [&str; 4] = [
    "3 5 29000580 GH 0 1 11 report 7 9 29000760\n",
    "3 5 29000580 GH 0 0 report 7 9 29000760\n",
    "3 5 29000580 GH 0 2 10 10 report 7 9 29000760\n",
    "3 5 29000580 GH 599 0 report 7 9 29000760\n",
];

#[test]
fn an_entry_with_other_answers_is_told(rt: HostRuntime) {
    for fourth in &OTHER_ANSWERS {
        let parts = [LOADED, ENTERED, *fourth, LISTED];
        audits_to(&rt, rt.alloc(), &parts, 1, "entry 3 404\n");
    }
}

#[test]
fn an_entry_that_is_none_is_told(rt: HostRuntime) {
    let alloc = rt.alloc();
    let zero = "3 5 29000580 GH 0 1 10 report 07 9 29000760\n";
    audits_to(&rt, alloc, &[LOADED, ENTERED, zero], 1, "entry 3 401\n");
    let exit = "0 1 29000580 APT 0 0 load 9 alert 9500000000000000\n";
    audits_to(&rt, alloc, &[exit, ENTERED], 1, "entry 0 403\n");
    let cut = "4 1 29000580 APT 0 0 alerts";
    let parts = [LOADED, ENTERED, REPORTED, cut];
    audits_to(&rt, alloc, &parts, 1, "entry 4 401\n");
    audits_to(&rt, alloc, &["\n"], 1, "entry 0 401\n");
    audits_to(&rt, alloc, &[], 0, "legal 0\n");
}

// First entries of a journal, and the clause that each breaks, or 0: each part at the ends of its
// range and just outside, numbers below 2^64 that a later clause judges, and which of two clauses
// comes first.
static FIRST_ENTRIES: [(&str, u16); 52] = [
    ("0 64 4294967295 APT 0 0 tick", 0),
    ("0 65 9 APT 0 0 tick", 401),
    ("0 0 9 APT 0 0 tick", 401),
    ("0 1 1 APT 0 0 tick", 0),
    ("0 1 0 APT 0 0 tick", 401),
    ("0 1 4294967296 APT 0 0 tick", 401),
    ("0 1 9 apt 0 0 tick", 401),
    (
        "0 1 9 APT 0 0 schedule 18446744073709551615 DLH45678 A320 DAIBCDEF EDDM 4294967295 1440 255 1440 65535",
        0,
    ),
    ("0 1 9 APT 0 0 schedule 1 C A R D 1 0 0 0 0", 0),
    ("0 1 9 APT 0 0 schedule 0 C A R D 9 40 5 10 12", 401),
    (
        "0 1 9 APT 0 0 schedule 18446744073709551616 C A R D 9 40 5 10 12",
        401,
    ),
    ("0 1 9 APT 0 0 schedule 7 DLH456789 A R D 9 40 5 10 12", 401),
    ("0 1 9 APT 0 0 schedule 7 C A3200 R D 9 40 5 10 12", 401),
    ("0 1 9 APT 0 0 schedule 7 C A DAIBCDEFG D 9 40 5 10 12", 401),
    ("0 1 9 APT 0 0 schedule 7 C A R EDDMM 9 40 5 10 12", 401),
    ("0 1 9 APT 0 0 schedule 7 D\x7f A R D 9 40 5 10 12", 401),
    ("0 1 9 APT 0 0 schedule 7 C A R D 0 40 5 10 12", 401),
    (
        "0 1 9 APT 0 0 schedule 7 C A R D 4294967296 40 5 10 12",
        401,
    ),
    ("0 1 9 APT 0 0 schedule 7 C A R D 9 1441 5 10 12", 401),
    ("0 1 9 APT 0 0 schedule 7 C A R D 9 40 256 10 12", 401),
    ("0 1 9 APT 0 0 schedule 7 C A R D 9 40 5 1441 12", 401),
    ("0 1 9 APT 0 0 schedule 7 C A R D 9 40 5 10 65536", 401),
    ("0 3 9 ATC 202 0 report 7 16 4294967295", 0),
    ("0 3 9 ATC 202 0 report 7 17 9", 401),
    ("0 3 9 ATC 202 0 report 7 0 9", 401),
    ("0 3 9 ATC 202 0 report 7 6 0", 401),
    ("0 3 9 ATC 202 0 report 7 6 4294967296", 401),
    ("0 2 9 NM 202 0 report 7 2 0", 0),
    ("0 5 9 GH 202 0 report 7 9 0", 0),
    ("0 2 9 NM 0 0 report 7 1 9", 401),
    ("0 2 9 NM 0 0 report 7 1 0 C A R D", 401),
    ("0 5 9 GH 202 0 report 7 9 9 C A R D", 401),
    ("0 1 9 APT 202 0 show 18446744073709551615", 0),
    ("0 1 9 APT 202 0 show 0", 401),
    ("0 1 9 APT 321 0 unload 16 alert", 0),
    ("0 1 9 APT 321 0 unload 16 Alert", 401),
    (
        "0 1 9 APT 0 0 load 9 alert b7000000000000009500000000000000",
        0,
    ),
    (
        "0 1 9 APT 0 0 load 9 alert B7000000000000009500000000000000",
        401,
    ),
    ("0 1 9 APT 0 0 load 9 alert b70", 401),
    ("18446744073709551615 1 9 APT 0 0 tick", 402),
    ("18446744073709551616 1 9 APT 0 0 tick", 401),
    ("0 1 9 APT 0 1 18446744073709551615 tick", 404),
    ("0 1 9 APT 0 1 18446744073709551616 tick", 401),
    ("0 1 9 APT 18446744073709551615 0 tick", 405),
    ("0 1 9 APT 18446744073709551616 0 tick", 401),
    ("1 65 9 APT 0 0 tick", 401),
    ("1 1 9 APT 0 0 load 9 alert 95", 402),
    ("0 1 9 APT 0 1 5 load 9 alert 95", 403),
    ("0 2 9 NM 0 0 load 9 alert 95", 403),
    ("0 1 9 APT 201 1 5 tick", 404),
    ("0 2 9 NM 201 1 5 tick", 404),
    ("0 2 9 NM 202 0 tick", 405),
];

// The same of migrates, times of de-icing and loads for longer records, as first entries.
static FIRST_WINTER_ENTRIES: [(&str, u16); 26] = [
    ("0 1 9 APT 0 0 migrate", 0),
    ("0 1 9 APT 324 0 migrate", 405),
    ("0 6 9 DIC 201 0 migrate", 0),
    ("0 6 9 DIC 0 0 migrate", 405),
    ("0 1 9 APT 0 1 5 migrate", 404),
    ("0 1 9 APT 0 0 migrate ", 401),
    ("0 1 9 APT 0 0 Migrate", 401),
    ("0 6 9 DIC 325 0 deice 7 eczt 9", 0),
    ("0 6 9 DIC 325 0 deice 7 eezt 0", 0),
    (
        "0 6 9 DIC 325 0 deice 18446744073709551615 aczt 4294967295",
        0,
    ),
    ("0 1 9 APT 201 0 deice 7 aezt 9", 0),
    ("0 6 9 DIC 202 0 deice 7 eczt 9", 405),
    ("0 6 9 DIC 325 1 5 deice 7 eczt 9", 404),
    ("0 6 9 DIC 325 0 deice 0 eczt 9", 401),
    ("0 6 9 DIC 325 0 deice 7 eczt 4294967296", 401),
    ("0 6 9 DIC 325 0 deice 7 aobt 9", 401),
    ("0 6 9 DIC 325 0 deice 7 ECZT 9", 401),
    ("0 6 9 DIC 325 0 deice 7 eczt", 401),
    ("0 6 9 dic 325 0 deice 7 eczt 9", 401),
    (
        "0 1 9 APT 323 0 load 9 alert b7000000000000009500000000000000 160",
        0,
    ),
    (
        "0 1 9 APT 0 0 load 9 alert b7000000000000009500000000000000 160",
        405,
    ),
    (
        "0 1 9 APT 0 0 load 9 alert b7000000000000009500000000000000 128",
        401,
    ),
    (
        "0 1 9 APT 323 0 load 9 alert b7000000000000009500000000000000 0160",
        401,
    ),
    (
        "0 1 9 APT 323 0 load 9 alert 61109c00000000009500000000000000 160",
        0,
    ),
    (
        "0 1 9 APT 323 0 load 9 alert 61109d00000000009500000000000000 160",
        403,
    ),
    (
        "0 1 9 APT 0 0 load 9 alert 61109c00000000009500000000000000",
        403,
    ),
];

fn is_judged(rt: &impl Abort, alloc: Global, line: &str, clause: u16) {
    let told = match clause {
        0 => "legal 1\n",
        401 => "entry 0 401\n",
        402 => "entry 0 402\n",
        403 => "entry 0 403\n",
        404 => "entry 0 404\n",
        _ => "entry 0 405\n",
    };
    let (ended, output, is_quiet) = audited(rt, alloc, &[line, "\n"]);
    assert!(rt; ended == u8::from(clause != 0) && is_quiet, "{line}");
    assert!(rt; output.as_slice() == told.as_bytes(), "{line}");
}

#[test]
fn the_first_clause_that_is_broken_is_told(rt: HostRuntime) {
    for (line, clause) in &FIRST_ENTRIES {
        is_judged(&rt, rt.alloc(), *line, *clause);
    }
}

#[test]
fn the_first_clause_that_a_winter_breaks_is_told(rt: HostRuntime) {
    for (line, clause) in &FIRST_WINTER_ENTRIES {
        is_judged(&rt, rt.alloc(), *line, *clause);
    }
}

const MIGRATED: &str = "2 1 29000580 APT 0 0 migrate\n";

const DEICED: &str = "3 6 29000580 DIC 0 0 deice 7 eczt 29000760\n";

const LOADED_LONG: &str = "4 1 29000580 APT 0 0 load 7 tobt b7000000000000009500000000000000 160\n";

#[test]
fn a_migrated_board_is_judged_by_its_entries(rt: HostRuntime) {
    let alloc = rt.alloc();
    let parts = [PLANNED, MIGRATED, DEICED, LOADED_LONG];
    audits_to(&rt, alloc, &parts, 0, "legal 5\n");
    let ticked = "2 1 29000580 APT 0 0 tick\n";
    let parts = [PLANNED, ticked, DEICED];
    audits_to(&rt, alloc, &parts, 1, "entry 3 405\n");
    let again = "3 1 29000580 APT 0 0 migrate\n";
    let parts = [PLANNED, MIGRATED, again];
    audits_to(&rt, alloc, &parts, 1, "entry 3 405\n");
    let short = "4 1 29000580 APT 0 0 load 7 tobt b7000000000000009500000000000000\n";
    let parts = [PLANNED, MIGRATED, DEICED, short];
    audits_to(&rt, alloc, &parts, 1, "entry 4 405\n");
    let skipped = "4 6 29000580 DIC 0 0 deice 7 eczt 29000760\n";
    let parts = [PLANNED, MIGRATED, skipped];
    audits_to(&rt, alloc, &parts, 1, "entry 3 402\n");
}

// A helper, its first argument, an answer, and whether it is promised.
static PROMISES: [(u32, u32, u64, bool); 23] = [
    (1, 808_596_289, 45, true),
    (1, 808_596_289, 46, false),
    (1, 942_880_578, 45, true),
    (1, 942_880_578, 44, false),
    (1, 943_207_233, 120, true),
    (1, 943_207_233, 119, false),
    (1, 7, 0, false),
    (1, 7, 1, true),
    (1, 7, 1_440, true),
    (1, 7, 1_441, false),
    (2, 12, 10, true),
    (2, 12, 11, false),
    (2, 120, 15, true),
    (2, 120, 16, false),
    (2, 900, 20, true),
    (2, 900, 21, false),
    (2, 7, 0, false),
    (2, 7, 1, true),
    (2, 7, 60, true),
    (2, 7, 61, false),
    (3, 7, 0, true),
    (3, 7, 4_294_977_295, true),
    (3, 7, 4_294_977_296, false),
];

// A program for milestone 1 that calls a helper is loaded, and its entry has this answer.
fn asked(rt: &impl Abort, alloc: Global, helper: u32, argument: u32, answer: u64) -> String {
    let helper = helper.swap_bytes();
    let argument = argument.swap_bytes();
    format!(in alloc;
        "0 1 9 APT 0 0 load 1 alert b7010000{argument:08x}85000000{helper:08x}9500000000000000\n1 2 9 NM 0 1 {answer} report 7 1 9 C A R D\n"
    ).expect(rt, "two lines")
}

fn is_promised(rt: &impl Abort, alloc: Global, row: (u32, u32, u64, bool)) {
    let (helper, argument, answer, is_promised) = row;
    let lines = asked(rt, alloc, helper, argument, answer);
    let told = if is_promised {
        "legal 2\n"
    } else {
        "entry 1 404\n"
    };
    let (ended, output, _) = audited(rt, alloc, &[lines.as_str()]);
    assert!(rt; ended == u8::from(!is_promised), "{lines}");
    assert!(rt; output.as_slice() == told.as_bytes(), "{lines}");
}

#[test]
fn answers_that_are_not_promised_are_told(rt: HostRuntime) {
    for row in &PROMISES {
        is_promised(&rt, rt.alloc(), *row);
    }
}

// A load with so many digits 0 for its program, which encode none.
fn is_long_judged(rt: &impl Abort, alloc: Global, head: &str, digits: usize, told: &str) {
    let mut line = String::new(alloc);
    line.push_str(head).expect(rt, "room for a head");
    for _ in 0..digits {
        line.push_str("0").expect(rt, "room for a digit");
    }
    assert!(rt; line.len() == head.len().saturating_add(digits));
    audits_to(rt, alloc, &[line.as_str(), "\n"], 1, told);
}

// Loads of 200,000 bytes, of one less and of one more.
#[test]
fn a_line_of_more_than_200_000_bytes_is_told(rt: HostRuntime) {
    let alloc = rt.alloc();
    let head = "0 1 29000580 APT 0 0 load 9 alert ";
    is_long_judged(&rt, alloc, head, 199_966, "entry 0 403\n");
    let head = "0 10 29000580 APT 0 0 load 9 alert ";
    is_long_judged(&rt, alloc, head, 199_964, "entry 0 403\n");
    is_long_judged(&rt, alloc, head, 199_966, "entry 0 401\n");
}

// Third entries of a journal, with the status and what is told of each.
static OUTCOMES: [(&str, u8, &str); 3] = [
    (
        "2 3 29000580 ATC 205 0 report 7 10 29000760\n",
        0,
        "legal 3\n",
    ),
    (
        "2 3 29000580 ATC 0 0 report 7 10 29000760\n",
        1,
        "entry 2 405\n",
    ),
    (
        "3 3 29000580 ATC 205 0 report 7 10 29000760\n",
        1,
        "entry 2 402\n",
    ),
];

#[test]
fn an_entry_with_another_outcome_is_told(rt: HostRuntime) {
    for (third, status, told) in &OUTCOMES {
        audits_to(&rt, rt.alloc(), &[PLANNED, *third], *status, *told);
    }
}

/// Fails at each read and write.
#[derive(Drop)]
struct Broken;

impl Read for Broken {
    fn read(&mut self, _buf: &mut [u8]) -> io::Result<usize> {
        Err(io::Error::from(io::ErrorKind::BrokenPipe))
    }
}

impl Write for Broken {
    fn write(&mut self, _buf: &[u8]) -> io::Result<usize> {
        Err(io::Error::from(io::ErrorKind::BrokenPipe))
    }

    fn flush(&mut self) -> io::Result<()> {
        Ok(())
    }
}

// An audit from this reader to this writer ends with the status 2 and this complaint.
fn audit_fails<R: Read + Drop, W: Write + Drop>(
    rt: &impl Abort,
    alloc: Global,
    reader: R,
    writer: W,
    complaint: &str,
) {
    let mut errors = Sink::new(Vec::new(alloc));
    let mut reader = Source::new(reader);
    let mut writer = Sink::new(writer);
    let tables = built_in(rt, alloc);
    let status = audit_on(alloc, &tables, &mut reader, &mut writer, &mut errors);
    assert!(rt; status == 2);
    assert!(rt; errors.into_inner().as_slice() == complaint.as_bytes());
}

// So does a run over the lines whose journal can't be saved.
fn saving_fails(rt: &impl Abort, alloc: Global, complaint: &str) {
    let mut reader = Source::new(LINES.as_bytes());
    let mut writer = Sink::new(Vec::new(alloc));
    let mut errors = Sink::new(Vec::new(alloc));
    let mut file = Some(Sink::new(Broken));
    let setup = ten_entries(rt, alloc);
    let status = run_on(
        alloc,
        setup,
        &mut reader,
        &mut writer,
        &mut file,
        &mut errors,
    );
    assert!(rt; status == 2);
    assert!(rt; errors.into_inner().as_slice() == complaint.as_bytes());
}

/// Gives the same digit without an end, and knows how many it gave.
#[derive(Drop)]
struct Endless {
    given: usize,
}

impl Read for Endless {
    fn read(&mut self, buf: &mut [u8]) -> io::Result<usize> {
        buf.fill(b'0');
        self.given = self.given.saturating_add(buf.len());
        Ok(buf.len())
    }
}

#[test]
fn a_line_without_an_end_is_told(rt: HostRuntime) {
    let alloc = rt.alloc();
    let mut reader = Source::new(Endless { given: 0 });
    let mut writer = Sink::new(Vec::new(alloc));
    let mut errors = Sink::new(Vec::new(alloc));
    let tables = built_in(&rt, alloc);
    let status = audit_on(alloc, &tables, &mut reader, &mut writer, &mut errors);
    assert!(rt; status == 1);
    assert!(rt; writer.into_inner().as_slice() == b"entry 0 401\n".as_slice());
    assert!(rt; errors.into_inner().is_empty());
    // Four reads of 65,536 bytes are the first that have more than 200,000.
    assert!(rt; reader.into_inner().given == 262_144);
}

#[test]
fn what_fails_is_told(rt: HostRuntime) {
    let alloc = rt.alloc();
    saving_fails(&rt, alloc, "acdm: save failed\n");
    audit_fails(&rt, alloc, Broken, Vec::new(alloc), "acdm: read failed\n");
    audit_fails(&rt, alloc, b"".as_slice(), Broken, "acdm: write failed\n");
}
