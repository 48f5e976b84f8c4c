//! Journals with many entries, and with many answers in one.
use crate::texts::{EXIT, push, push_number, push_times, replies_of};
use acdm_board::Desk;
use acdm_journal::{audit, write_entry};
use acdm_sessions::{Sink, Source};
use acdm_tables::{KnownHelpers, Tables, known_sigs};
use bpf_helpers::{Helpers, Sigs};
use std::alloc::Global;
use std::process::Abort;
use std::sync::Arc;

// Such a text is the journal of so many entries.
fn is_legal(rt: &impl Abort, alloc: Global, text: &[u8], entries: u64) {
    let tables = Tables::built_in(alloc).expect(rt, "tables");
    let sigs = known_sigs(alloc, &tables).expect(rt, "signatures");
    is_legal_by(rt, alloc, text, &sigs, entries);
    drop(sigs);
}

fn is_legal_by(rt: &impl Abort, alloc: Global, text: &[u8], sigs: &Sigs, entries: u64) {
    let mut reader = Source::new(text);
    let found = audit(alloc, &mut reader, sigs).ok();
    assert!(rt; found == Some(entries), "{entries} entries");
}

fn ticks(rt: &impl Abort, alloc: Global, count: u64) -> Vec<u8> {
    let mut text = Vec::new(alloc);
    for number in 0..count {
        push_number(rt, alloc, &mut text, number);
        push(rt, &mut text, " 64 29000700 APT 0 0 tick\n");
    }
    text
}

#[test]
fn ten_thousand_entries_are_audited(rt: HostRuntime) {
    let text = ticks(&rt, rt.alloc(), 10_000);
    is_legal(&rt, rt.alloc(), text.as_slice(), 10_000);
}

const START: &str =
    r#"1 29000700 APT {"cmd":"schedule","flight":7,"callsign":"DLH7","type":"A320","reg":"DAIBC","dest":"EDDM","sobt":"2025-02-20T10:00:00Z","mttt":40,"exit":5,"exot":10,"stand":12}
2 29000700 NM {"cmd":"report","flight":7,"milestone":1,"time":"2025-02-20T10:00:00Z","callsign":"DLH7","type":"A320","reg":"DAIBC","dest":"EDDM"}
"#;

// r1 = 0 and helper 2, so often: each answer is 10 minutes.
fn push_asking(rt: &impl Abort, text: &mut Vec<u8>, kind: &str) {
    push(
        rt,
        text,
        "1 29000700 APT {\"cmd\":\"load\",\"milestone\":9,\"kind\":\"",
    );
    push(rt, text, kind);
    push(rt, text, "\",\"program\":\"");
    push_times(rt, text, "b7010000000000008500000002000000", 2_000);
    push(rt, text, EXIT);
    push(rt, text, "\"}\n");
}

fn asking_lines(rt: &impl Abort, alloc: Global) -> Vec<u8> {
    let mut text = Vec::new(alloc);
    push(rt, &mut text, START);
    push_asking(rt, &mut text, "tobt");
    push_asking(rt, &mut text, "alert");
    push(
        rt,
        &mut text,
        "5 29000700 GH {\"cmd\":\"report\",\"flight\":7,\"milestone\":9,\"time\":\"2025-02-20T10:00:00Z\"}\n1 29000700 APT {\"cmd\":\"alerts\"}\n",
    );
    text
}

// 10 is no usable target, and the bits 1 and 3 are LOC01 and LOC03.
const REPLIES: &str = "ok 0\nok 1\nok 2\nok 3\nok 4\nalerts 5 7:CDM14,LOC01,LOC03\n";

// Adds the text of an entry of a desk.
fn push_entry<H: Helpers + Drop>(
    rt: &impl Abort,
    alloc: Global,
    text: &mut Sink<Vec<u8>>,
    desk: &mut Desk<H>,
    number: u64,
) {
    let row = Arc::try_clone(desk.row()).expect(rt, "the row");
    let entry = desk.entry(&row, number).expect(rt, "an entry");
    let is_written = write_entry(alloc, entry, text).is_ok();
    assert!(rt; is_written, "entry {number}");
}

// The entries of a desk as text.
fn saved<H: Helpers + Drop>(rt: &impl Abort, alloc: Global, desk: &mut Desk<H>) -> Vec<u8> {
    let mut text = Sink::new(Vec::new(alloc));
    for number in 0..desk.len() {
        push_entry(rt, alloc, &mut text, desk, number);
    }
    text.into_inner()
}

// How many answers stand in an entry.
fn answers_of<H: Helpers + Drop>(rt: &impl Abort, desk: &mut Desk<H>, number: u64) -> usize {
    let row = Arc::try_clone(desk.row()).expect(rt, "the row");
    let entry = desk.entry(&row, number).expect(rt, "an entry");
    entry.answers.as_slice().len()
}

fn asks<H: Helpers + Drop>(rt: &impl Abort, alloc: Global, desk: &mut Desk<H>) {
    let lines = asking_lines(rt, alloc);
    let replies = replies_of(rt, alloc, lines.as_slice(), desk);
    assert!(rt; replies.as_slice() == REPLIES.as_bytes());
    assert!(rt; answers_of(rt, desk, 4) == 4_000);
    let text = saved(rt, alloc, desk);
    is_legal(rt, alloc, text.as_slice(), 6);
}

fn asks_with<H: Helpers + Drop>(rt: &impl Abort, alloc: Global, helpers: H) {
    let mut desk = Desk::new(alloc, helpers, 10).expect(rt, "a desk");
    asks(rt, alloc, &mut desk);
    drop(desk);
}

#[test]
fn four_thousand_answers_are_saved_and_audited(rt: HostRuntime) {
    let tables = Tables::built_in(rt.alloc()).expect(&rt, "tables");
    let helpers = KnownHelpers::new(rt.alloc(), tables);
    asks_with(&rt, rt.alloc(), helpers);
}
