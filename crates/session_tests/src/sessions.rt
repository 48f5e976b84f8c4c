//! Streams of lines, with the replies that the profile's worked examples give.
mod ample;
mod board;
mod codes;
mod deicing;
mod keys;
mod programs;
mod threads;
mod unreliable;
mod watching;
mod wire;

use acdm_board::Desk;
use acdm_sessions::{RunError, Sink, Source, run};
use bpf_helpers::{Bank, Helpers};
use std::alloc::Global;
use std::cell::Cell;
use std::io::{self, Read, Write};
use std::process::Abort;

// Minute 29000700 is 2025-02-20T09:00Z.
const TURN_ROUND: &str =
    r#"1 29000700 APT {"cmd":"schedule","flight":7,"callsign":"DLH7","type":"A320","reg":"DAIBC","dest":"EDDM","sobt":"2025-02-20T10:00:00Z","mttt":40,"exit":5,"exot":10,"stand":12}
2 29000700 NM {"cmd":"report","flight":7,"milestone":1,"time":"2025-02-20T10:00:00Z","callsign":"DLH7","type":"A320","reg":"DAIBC","dest":"EDDM"}
3 29000700 ATC {"cmd":"report","flight":7,"milestone":6,"time":"2025-02-20T09:00:00Z"}
1 29000700 APT {"cmd":"report","flight":7,"milestone":7,"time":"2025-02-20T08:59:00Z"}
"#;

// The first line of the turn-round, and a part of its second.
const CUT: &str =
    r#"1 29000700 APT {"cmd":"schedule","flight":7,"callsign":"DLH7","type":"A320","reg":"DAIBC","dest":"EDDM","sobt":"2025-02-20T10:00:00Z","mttt":40,"exit":5,"exot":10,"stand":12}
2 29000700 NM {"cmd""#;

const IN_BLOCK: &str =
    r#"1 29000700 APT {"cmd":"report","flight":7,"milestone":7,"time":"2025-02-20T09:00:00Z"}
"#;

const LANDED: &str =
    r#"3 29000700 ATC {"cmd":"report","flight":7,"milestone":6,"time":"2025-02-20T09:00:00Z"}
"#;

/// These parts, one after the other.
fn joined(rt: &impl Abort, alloc: Global, parts: &[&str]) -> Vec<u8> {
    let mut text = Vec::new(alloc);
    for part in parts {
        text.extend_from_slice(part.as_bytes())
            .expect(rt, "room for a part");
    }
    text
}

/// The replies of a desk to these lines.
pub(crate) fn replies_of<H: Helpers + Drop>(
    rt: &impl Abort,
    alloc: Global,
    parts: &[&str],
    desk: &mut Desk<H>,
) -> String {
    let text = joined(rt, alloc, parts);
    let mut reader = Source::new(text.as_slice());
    let mut writer = Sink::new(Vec::new(alloc));
    run(alloc, &mut reader, &mut writer, desk).expect(rt, "a run");
    String::from_utf8(writer.into_inner())
        .ok()
        .expect(rt, "replies")
}

// How many of these replies tell of an entry.
fn entries_in(replies: &str) -> u64 {
    replies
        .lines()
        .filter(|reply| !reply.starts_with("bad "))
        .count() as u64
}

fn replies_with<H: Helpers + Drop>(
    rt: &impl Abort,
    alloc: Global,
    helpers: H,
    parts: &[&str],
    capacity: usize,
) -> String {
    let mut desk = Desk::new(alloc, helpers, capacity).expect(rt, "a desk");
    let replies = replies_of(rt, alloc, parts, &mut desk);
    assert!(rt; desk.len() == entries_in(replies.as_str()));
    drop(desk);
    replies
}

/// A desk without helpers answers these lines so, and has the entries that the replies tell of;
/// what that shows is told where it does not.
pub(crate) fn are_answered(
    rt: &impl Abort,
    alloc: Global,
    shows: &str,
    parts: &[&str],
    capacity: usize,
    replies: &str,
) {
    let bank = Bank::new(alloc).expect(rt, "a bank");
    let found = replies_with(rt, alloc, bank, parts, capacity);
    assert_eq!(rt; found.as_str(), replies, "for {shows}");
}

#[test]
fn empty_input_gives_no_reply(rt: HostRuntime) {
    are_answered(&rt, rt.alloc(), "no line", &[], 10, "");
}

#[test]
fn lines_are_answered_in_order(rt: HostRuntime) {
    are_answered(
        &rt,
        rt.alloc(),
        "a turn-round",
        &[TURN_ROUND, IN_BLOCK],
        10,
        "ok 0\nok 1\nok 2\nno 3 206\nok 4\n",
    );
    are_answered(
        &rt,
        rt.alloc(),
        "a landing after the block",
        &[TURN_ROUND, IN_BLOCK, LANDED],
        10,
        "ok 0\nok 1\nok 2\nno 3 206\nok 4\nno 5 204\n",
    );
    are_answered(
        &rt,
        rt.alloc(),
        "a second landing",
        &[TURN_ROUND, LANDED],
        10,
        "ok 0\nok 1\nok 2\nno 3 206\nok 4\n",
    );
    are_answered(
        &rt,
        rt.alloc(),
        "a line that is cut",
        &[CUT],
        10,
        "ok 0\nbad 101\n",
    );
}

// The fronts of a tick without its last brace.
static CUTS: [&str; 14] = [
    "",
    "{",
    "{\"",
    "{\"c",
    "{\"cm",
    "{\"cmd",
    "{\"cmd\"",
    "{\"cmd\":",
    "{\"cmd\":\"",
    "{\"cmd\":\"t",
    "{\"cmd\":\"ti",
    "{\"cmd\":\"tic",
    "{\"cmd\":\"tick",
    "{\"cmd\":\"tick\"",
];

#[test]
fn a_tick_that_is_cut_is_no_json(rt: HostRuntime) {
    for cut in &CUTS {
        let line = ["1 29000580 APT ", *cut, "\n"];
        are_answered(&rt, rt.alloc(), *cut, &line, 10, "bad 101\n");
    }
}

#[test]
fn a_full_journal_is_told(rt: HostRuntime) {
    let start =
        r#"1 29000580 APT {"cmd":"schedule","flight":7,"callsign":"DLH7","type":"A320","reg":"DAIBC","dest":"EDDM","sobt":"2025-02-20T10:00:00Z","mttt":40,"exit":5,"exot":10,"stand":12}
2 29000580 NM {"cmd":"report","flight":7,"milestone":1,"time":"2025-02-20T10:00:00Z","callsign":"DLH7","type":"A320","reg":"DAIBC","dest":"EDDM"}
"#;
    are_answered(&rt, rt.alloc(), "one entry", &[start], 1, "ok 0\nbad 502\n");
}

// Lines that make no entry, and what they are answered.
static FAULTY_LINES: [(&str, &str); 23] = [
    ("\n", "bad 100\n"),
    ("65 29000580 APT {\"cmd\":\"alerts\"}\n", "bad 100\n"),
    ("1  29000580 APT {}\n", "bad 100\n"),
    ("1 029000580 APT {}\n", "bad 100\n"),
    ("1 4294967296 APT {}\n", "bad 100\n"),
    ("1 29000580 APT", "bad 100\n"),
    ("1 29000580 APT ", "bad 101\n"),
    ("1 29000580 APT {\"cmd\":\"tick\"", "bad 101\n"),
    ("1 29000580 APT {\"cmd\":\"tack\"}\r\n", "bad 102\n"),
    ("1 29000580 APT []\n", "bad 102\n"),
    ("1 29000580 APT  {\"cmd\":6}\n", "bad 102\n"),
    ("1 29000580 APT {\"cmd\":\"report\"}\n", "bad 103\n"),
    (
        "1 29000580 APT {\"cmd\":\"report\",\"flight\":\"7\"}\n",
        "bad 103\n",
    ),
    (
        "1 29000580 APT {\"cmd\":\"report\",\"flight\":-7}\n",
        "bad 103\n",
    ),
    (
        "1 29000580 APT {\"cmd\":\"report\",\"flight\":0}\n",
        "bad 104\n",
    ),
    (
        "1 29000580 ATC {\"cmd\":\"report\",\"flight\":7,\"milestone\":17,\"time\":\"2025-02-20T10:00:00Z\"}\n",
        "bad 104\n",
    ),
    (
        "1 29000580 ATC {\"cmd\":\"report\",\"flight\":7,\"milestone\":6,\"time\":null}\n",
        "bad 103\n",
    ),
    (
        "1 29000580 ATC {\"cmd\":\"report\",\"flight\":7,\"milestone\":9}\n",
        "bad 103\n",
    ),
    (
        "1 29000580 APT {\"cmd\":\"show\",\"flight\":\"7\"}\n",
        "bad 103\n",
    ),
    (
        "1 29000580 APT {\"cmd\":\"show\",\"flight\":-7}\n",
        "bad 103\n",
    ),
    (
        "1 29000580 APT {\"cmd\":\"show\",\"flight\":0}\n",
        "bad 104\n",
    ),
    ("1 29000580 APT {\"cmd\":\"unload\"}\n", "bad 103\n"),
    (
        "1 29000580 ATC {\"cmd\":\"report\",\"flight\":7,\"milestone\":6,\"time\":\"10:00\"}\n",
        "bad 104\n",
    ),
];

#[test]
fn faulty_lines_make_no_entry(rt: HostRuntime) {
    for (line, reply) in &FAULTY_LINES {
        are_answered(&rt, rt.alloc(), *line, &[*line], 1, *reply);
    }
}

// The line, and spaces up to so many bytes.
fn padded(rt: &impl Abort, alloc: Global, line: &str, length: usize) -> String {
    let mut text = joined(rt, alloc, &[line]);
    text.resize(length, b' ').expect(rt, "room for spaces");
    String::from_utf8(text).ok().expect(rt, "a line")
}

fn are_answered_padded(rt: &impl Abort, alloc: Global, length: usize, replies: &str) {
    let line = padded(rt, alloc, "1 29000580 APT {\"cmd\":\"tack\"}", length);
    let parts = [line.as_str(), "\n", IN_BLOCK];
    are_answered(rt, alloc, "a padded line", &parts, 10, replies);
}

#[test]
fn lines_of_up_to_70000_bytes_are_read(rt: HostRuntime) {
    are_answered_padded(&rt, rt.alloc(), 70_000, "bad 102\nno 0 202\n");
    are_answered_padded(&rt, rt.alloc(), 70_001, "bad 105\nno 0 202\n");
    are_answered_padded(&rt, rt.alloc(), 300_000, "bad 105\nno 0 202\n");
    let endless = padded(&rt, rt.alloc(), "{", 10_000_000);
    let parts = [endless.as_str()];
    are_answered(&rt, rt.alloc(), "no line feed", &parts, 10, "bad 105\n");
}

/// Gives one line in pieces of seven bytes, and then fails.
#[derive(Drop)]
struct Failing<'a> {
    text: &'a [u8],
}

impl Read for Failing<'_> {
    fn read(&mut self, buf: &mut [u8]) -> io::Result<usize> {
        if self.text.is_empty() {
            return Err(io::Error::from(io::ErrorKind::BrokenPipe));
        }
        let count = self.text.len().min(7).min(buf.len());
        buf[..count].copy_from_slice(&self.text[..count]);
        self.text = &self.text[count..];
        Ok(count)
    }
}

// What a run reads before its reader fails, its replies, and how many entries it makes.
static READ: [(&str, &str, u64); 2] = [
    (CUT, "ok 0\n", 1),
    (TURN_ROUND, "ok 0\nok 1\nok 2\nno 3 206\n", 4),
];

fn ends_by_the_reader<H: Helpers + Drop>(
    rt: &impl Abort,
    alloc: Global,
    helpers: H,
    row: (&str, &str, u64),
) {
    let (text, replies, entries) = row;
    let mut reader = Source::new(Failing {
        text: text.as_bytes(),
    });
    let mut writer = Sink::new(Vec::new(alloc));
    let mut desk = Desk::new(alloc, helpers, 10).expect(rt, "a desk");
    let ended = run(alloc, &mut reader, &mut writer, &mut desk);
    let length = desk.len();
    drop(desk);
    assert!(rt; ended == Err(RunError::Read) && length == entries);
    assert!(rt; reader.faults() == 1 && writer.faults() == 0);
    let written = writer.into_inner();
    assert!(rt; written.as_slice() == replies.as_bytes());
}

#[test]
fn a_reader_that_fails_ends_the_run(rt: HostRuntime) {
    for row in &READ {
        let bank = Bank::new(rt.alloc()).expect(&rt, "a bank");
        ends_by_the_reader(&rt, rt.alloc(), bank, *row);
    }
}

/// Takes so many bytes, and then fails.
#[derive(Drop)]
struct Narrow {
    taken: Vec<u8>,
    room: usize,
}

impl Write for Narrow {
    fn write(&mut self, buf: &[u8]) -> io::Result<usize> {
        let count = buf.len().min(self.room);
        self.taken.extend_from_slice(&buf[..count])?;
        self.room -= count;
        Ok(count)
    }

    fn flush(&mut self) -> io::Result<()> {
        Ok(())
    }
}

// How many bytes a writer takes of the replies, these, and how many entries the run makes.
static WRITTEN: [(usize, &str, u64); 2] = [(3, "ok ", 1), (8, "ok 0\nok ", 2)];

fn ends_by_the_writer<H: Helpers + Drop>(
    rt: &impl Abort,
    alloc: Global,
    helpers: H,
    row: (usize, &str, u64),
) {
    let (room, replies, entries) = row;
    let mut reader = Source::new(TURN_ROUND.as_bytes());
    let mut writer = Sink::new(Narrow {
        taken: Vec::new(alloc),
        room,
    });
    let mut desk = Desk::new(alloc, helpers, 10).expect(rt, "a desk");
    let ended = run(alloc, &mut reader, &mut writer, &mut desk);
    let length = desk.len();
    drop(desk);
    assert!(rt; ended == Err(RunError::Write) && length == entries);
    assert!(rt; writer.faults() == 1 && reader.faults() == 0);
    let narrow = writer.into_inner();
    assert!(rt; narrow.taken.as_slice() == replies.as_bytes());
}

#[test]
fn a_writer_that_fails_ends_the_run(rt: HostRuntime) {
    for row in &WRITTEN {
        let bank = Bank::new(rt.alloc()).expect(&rt, "a bank");
        ends_by_the_writer(&rt, rt.alloc(), bank, *row);
    }
}

/// Gives a line for each read, and asks that the earlier ones were answered by then.
#[derive(Drop)]
struct Patient<'a> {
    lines: &'a [&'a str],
    asked: u64,
    answered: &'a Cell<u64>,
    waits: bool,
}

impl Read for Patient<'_> {
    fn read(&mut self, buf: &mut [u8]) -> io::Result<usize> {
        self.waits = self.waits && self.answered.get() == self.asked;
        let [line, rest @ ..] = self.lines else {
            return Ok(0);
        };
        let count = line.len().min(buf.len());
        buf[..count].copy_from_slice(&line.as_bytes()[..count]);
        self.lines = rest;
        self.asked = self.asked.saturating_add(1);
        Ok(count)
    }
}

/// Counts the replies that were let go.
#[derive(Drop)]
struct Prompt<'a> {
    answered: &'a Cell<u64>,
}

impl Write for Prompt<'_> {
    fn write(&mut self, buf: &[u8]) -> io::Result<usize> {
        Ok(buf.len())
    }

    fn flush(&mut self) -> io::Result<()> {
        self.answered.set(self.answered.get().saturating_add(1));
        Ok(())
    }
}

fn answers_promptly<H: Helpers + Drop>(rt: &impl Abort, alloc: Global, helpers: H) {
    let answered = Cell::new(0);
    let lines = [LANDED, "1 1 APT {}\n", LANDED, "\n", IN_BLOCK];
    let mut reader = Source::new(Patient {
        lines: &lines,
        asked: 0,
        answered: &answered,
        waits: true,
    });
    let mut writer = Sink::new(Prompt {
        answered: &answered,
    });
    let mut desk = Desk::new(alloc, helpers, 10).expect(rt, "a desk");
    run(alloc, &mut reader, &mut writer, &mut desk).expect(rt, "a run");
    drop(desk);
    assert!(rt; answered.get() == 5);
    assert!(rt; !writer.waits());
    assert!(rt; reader.into_inner().waits);
}

#[test]
fn each_reply_comes_before_the_next_line_is_waited_for(rt: HostRuntime) {
    let alloc = rt.alloc();
    answers_promptly(&rt, alloc, Bank::new(alloc).expect(&rt, "a bank"));
}
