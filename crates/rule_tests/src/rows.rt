//! Each row is sent to an empty board by `run`, and its whole output is compared. `bench/rows/rows.py`
//! writes the tables with their tests, and `bench/rows/check.py` says which rule no row meets.
mod alerts;
mod bars;
mod codes;
mod fields;
mod helpers;
mod later;
mod layouts;
mod limits;
mod local;
mod marks;
mod moments;
mod needs;
mod order;
mod owners;
mod programs;
mod targets;
mod touches;
mod unscheduled;
mod winter;

use crate::rows::marks::MARKS;
use acdm_board::Desk;
use acdm_sessions::{Sink, Source, run};
use acdm_tables::{KnownHelpers, Tables};
use bpf_helpers::Helpers;
use std::alloc::Global;
use std::process::Abort;

// Flight 7 with a schedule and a flight plan at 9:00, both with 10:00.
const START: &str =
    r#"1 29000700 APT {"cmd":"schedule","flight":7,"callsign":"DLH7","type":"A320","reg":"DAIBC","dest":"EDDM","sobt":"2025-02-20T10:00:00Z","mttt":40,"exit":5,"exot":10,"stand":12}
2 29000700 NM {"cmd":"report","flight":7,"milestone":1,"time":"2025-02-20T10:00:00Z","callsign":"DLH7","type":"A320","reg":"DAIBC","dest":"EDDM"}
"#;

/// What partners send to an empty board, and are replied, both in marks.
pub(crate) struct Row {
    pub(crate) shows: &'static str,
    pub(crate) capacity: usize,
    /// Whether `START` comes before its lines.
    pub(crate) starts: bool,
    pub(crate) lines: &'static str,
    pub(crate) replies: &'static str,
}

/// One line, a part of which is repeated, and lines after it.
pub(crate) struct Long {
    pub(crate) shows: &'static str,
    pub(crate) head: &'static str,
    pub(crate) part: &'static str,
    pub(crate) times: usize,
    pub(crate) tail: &'static str,
    pub(crate) more: &'static str,
    pub(crate) replies: &'static str,
}

/// One line for each flight from 1 on, each accepted, then the alerts, one for each flight, and
/// lines after that.
pub(crate) struct Crowd {
    pub(crate) shows: &'static str,
    pub(crate) flights: u64,
    pub(crate) capacity: usize,
    pub(crate) before: &'static str,
    pub(crate) behind: &'static str,
    pub(crate) alert: &'static str,
    pub(crate) more: &'static str,
    pub(crate) replies: &'static str,
}

fn push(rt: &impl Abort, text: &mut Vec<u8>, part: &str) {
    text.extend_from_slice(part.as_bytes())
        .expect(rt, "room for a part");
}

fn push_number(rt: &impl Abort, alloc: Global, text: &mut Vec<u8>, number: u64) {
    let digits = format!(in alloc; "{number}").expect(rt, "a number");
    push(rt, text, digits.as_str());
}

// What a byte of a table stands for, if it is a mark.
fn meant_by(mark: u8) -> Option<&'static str> {
    for (own, meant) in &MARKS {
        if *own == mark {
            return Some(*meant);
        }
    }
    None
}

// Adds what a table says: each mark by what it stands for, and each # by the number of the next entry.
fn push_marked(rt: &impl Abort, alloc: Global, text: &mut Vec<u8>, marked: &str) {
    let mut entry: u64 = 0;
    for byte in marked.as_bytes() {
        let Some(meant) = meant_by(*byte) else {
            text.push(*byte).expect(rt, "room for a byte");
            continue;
        };
        match meant.split_once('#') {
            None => push(rt, text, meant),
            Some((before, behind)) => {
                push(rt, text, before);
                push_number(rt, alloc, text, entry);
                push(rt, text, behind);
                entry = entry.saturating_add(1);
            }
        }
    }
}

fn text_of(rt: &impl Abort, alloc: Global, row: &Row) -> Vec<u8> {
    let mut text = Vec::new(alloc);
    if row.starts {
        push(rt, &mut text, START);
    }
    push_marked(rt, alloc, &mut text, row.lines);
    text
}

fn long_text(rt: &impl Abort, alloc: Global, row: &Long) -> Vec<u8> {
    let mut text = Vec::new(alloc);
    push(rt, &mut text, row.head);
    for _ in 0..row.times {
        push(rt, &mut text, row.part);
    }
    push(rt, &mut text, row.tail);
    push(rt, &mut text, "\n");
    push(rt, &mut text, row.more);
    text
}

fn crowd_text(rt: &impl Abort, alloc: Global, row: &Crowd) -> Vec<u8> {
    let mut text = Vec::new(alloc);
    for flight in 1..=row.flights {
        push(rt, &mut text, row.before);
        push_number(rt, alloc, &mut text, flight);
        push(rt, &mut text, row.behind);
        push(rt, &mut text, "\n");
    }
    push(rt, &mut text, "1 29000580 APT {\"cmd\":\"alerts\"}\n");
    push(rt, &mut text, row.more);
    text
}

fn crowd_replies(rt: &impl Abort, alloc: Global, row: &Crowd) -> Vec<u8> {
    let mut text = Vec::new(alloc);
    for entry in 0..row.flights {
        push(rt, &mut text, "ok ");
        push_number(rt, alloc, &mut text, entry);
        push(rt, &mut text, "\n");
    }
    push(rt, &mut text, "alerts ");
    push_number(rt, alloc, &mut text, row.flights);
    for flight in 1..=row.flights {
        push(rt, &mut text, if flight == 1 { " " } else { ";" });
        push_number(rt, alloc, &mut text, flight);
        push(rt, &mut text, row.alert);
    }
    push(rt, &mut text, "\n");
    push(rt, &mut text, row.replies);
    text
}

fn replies_of<H: Helpers + Drop>(
    rt: &impl Abort,
    alloc: Global,
    lines: &[u8],
    desk: &mut Desk<H>,
) -> String {
    let mut reader = Source::new(lines);
    let mut writer = Sink::new(Vec::new(alloc));
    run(alloc, &mut reader, &mut writer, desk).expect(rt, "a run");
    String::from_utf8(writer.into_inner())
        .ok()
        .expect(rt, "replies")
}

// How many of these replies tell of an entry.
fn entries_in(replies: &str) -> u64 {
    replies
        .lines()
        .filter(|reply| !reply.starts_with("bad "))
        .count() as u64
}

// The replies of a desk of its own, which has the entries that they tell of.
fn replies_with<H: Helpers + Drop>(
    rt: &impl Abort,
    alloc: Global,
    helpers: H,
    capacity: usize,
    lines: &[u8],
) -> String {
    assert!(rt; capacity >= 1 && capacity <= 1_000_000);
    let mut desk = Desk::new(alloc, helpers, capacity).expect(rt, "a desk");
    let replies = replies_of(rt, alloc, lines, &mut desk);
    assert!(rt; desk.len() == entries_in(replies.as_str()));
    drop(desk);
    replies
}

fn replies_in(rt: &impl Abort, alloc: Global, marked: &str) -> String {
    let mut text = Vec::new(alloc);
    push_marked(rt, alloc, &mut text, marked);
    String::from_utf8(text)
        .ok()
        .expect(rt, "replies of a table")
}

// The helpers with the tables that are built in.
fn known(rt: &impl Abort, alloc: Global) -> KnownHelpers {
    let tables = Tables::built_in(alloc).expect(rt, "tables");
    KnownHelpers::new(alloc, tables)
}

pub(crate) fn is_answered(rt: &impl Abort, alloc: Global, row: &Row) {
    let text = text_of(rt, alloc, row);
    let replies = replies_in(rt, alloc, row.replies);
    let helpers = known(rt, alloc);
    let found = replies_with(rt, alloc, helpers, row.capacity, text.as_slice());
    assert_eq!(rt; found.as_str(), replies.as_str(), "for {}", row.shows);
}

pub(crate) fn is_long_answered(rt: &impl Abort, alloc: Global, row: &Long) {
    let text = long_text(rt, alloc, row);
    let helpers = known(rt, alloc);
    let found = replies_with(rt, alloc, helpers, 10, text.as_slice());
    assert_eq!(rt; found.as_str(), row.replies, "for {}", row.shows);
}

pub(crate) fn is_crowd_answered(rt: &impl Abort, alloc: Global, row: &Crowd) {
    let text = crowd_text(rt, alloc, row);
    let wanted = crowd_replies(rt, alloc, row);
    let helpers = known(rt, alloc);
    let found = replies_with(rt, alloc, helpers, row.capacity, text.as_slice());
    assert!(rt; found.as_bytes() == wanted.as_slice(), "for {}", row.shows);
}
