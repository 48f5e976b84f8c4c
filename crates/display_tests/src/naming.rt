//! The name of a journal, told where its first entry comes.
use crate::browsing::told;
use crate::feeding::{FIRST, NAMED};
use crate::following::{Failing, entries_of, row_of, tick};
use acdm_board::Desk;
use acdm_displays::{Shown, Start, follow_changes, follow_events};
use acdm_lines::Sink;
use acdm_row::Row;
use bpf_helpers::{Bank, Helpers};
use std::alloc::Global;
use std::io::{self, ErrorKind, Write};
use std::process::Abort;
use std::sync::Arc;
use std::sync::atomic::{AtomicBool, Ordering};

/// The line of a board with no entry, and with room for ten.
const EMPTY: &str = "{\"journal\":\"\",\"next\":0,\"room\":10,\"flights\":[]}\n";

/// Keeps what it takes. Behind so many flushes, at the next one, the first entry is made, a tick of minute 7, which
/// is the last one.
#[derive(Drop)]
struct Growing<H: Helpers + Drop> {
    desk: Desk<H>,
    flushes: u64,
    closing: Arc<AtomicBool>,
    text: Vec<u8>,
}

impl<H: Helpers + Drop> Write for Growing<H> {
    fn write(&mut self, buf: &[u8]) -> io::Result<usize> {
        self.text.extend_from_slice(buf)?;
        Ok(buf.len())
    }

    fn flush(&mut self) -> io::Result<()> {
        if self.flushes > 0 {
            self.flushes -= 1;
        } else if self.desk.len() == 0 {
            tick(&mut self.desk, 7);
            self.closing.store(true, Ordering::SeqCst);
        }
        Ok(())
    }
}

// The row of an empty desk, and what writes to a display while its first entry comes.
fn opened<H: Helpers + Drop>(
    rt: &impl Abort,
    alloc: Global,
    helpers: H,
    flushes: u64,
    closing: &Arc<AtomicBool>,
) -> (Arc<Row>, Sink<Growing<H>>) {
    let desk = Desk::new(alloc, helpers, 10).expect(rt, "a desk");
    let row = row_of(rt, &desk);
    let writer = Sink::new(Growing {
        desk,
        flushes,
        closing: Arc::try_clone(closing).expect(rt, "a word"),
        text: Vec::new(alloc),
    });
    (row, writer)
}

// A reader that stays.
fn staying() -> Failing {
    Failing {
        kind: ErrorKind::WouldBlock,
        times: 1_000,
    }
}

// What was written of what was shown.
fn written<H: Helpers + Drop>(shown: Shown<Growing<H>>) -> Vec<u8> {
    let Shown { watch, writer, .. } = shown;
    drop(watch);
    let Growing { desk, text, .. } = writer.into_inner();
    drop(desk);
    text
}

// What a display of the feed is sent.
fn sent<H: Helpers + Drop>(rt: &impl Abort, alloc: Global, helpers: H, start: Start) -> Vec<u8> {
    let closing = Arc::new(alloc, AtomicBool::new(false)).expect(rt, "a word");
    let (row, writer) = opened(rt, alloc, helpers, 0, &closing);
    let entries = entries_of(&row, &closing);
    let shown = follow_changes(alloc, &entries, start, &mut staying(), writer)
        .ok()
        .expect(rt, "a display");
    written(shown)
}

// What a browser is sent, whose first flush is behind the head of the answer.
fn sent_events<H: Helpers + Drop>(
    rt: &impl Abort,
    alloc: Global,
    helpers: H,
    last: Option<u64>,
) -> Vec<u8> {
    let closing = Arc::new(alloc, AtomicBool::new(false)).expect(rt, "a word");
    let (row, writer) = opened(rt, alloc, helpers, 1, &closing);
    let entries = entries_of(&row, &closing);
    let shown = follow_events(alloc, &entries, last, &mut staying(), writer)
        .ok()
        .expect(rt, "a browser");
    written(shown)
}

// Where a display begins, and what it is sent of an empty board whose first entry comes.
static STARTS: [(Start, &[&str]); 4] = [
    (Start::Entry(0), &[NAMED, FIRST]),
    (Start::Entry(1), &[EMPTY, NAMED, FIRST]),
    (Start::Entry(u64::MAX), &[EMPTY, NAMED, FIRST]),
    (Start::Board, &[EMPTY, NAMED, FIRST]),
];

#[test]
fn a_display_is_told_the_name_before_the_first_entry(rt: HostRuntime) {
    let alloc = rt.alloc();
    for (start, lines) in &STARTS {
        let bank = Bank::new(alloc).expect(&rt, "a bank");
        let mut wanted = String::new(alloc);
        for line in *lines {
            wanted.push_str(line).expect(&rt, "room for a line");
        }
        assert!(rt; sent(&rt, alloc, bank, *start).as_slice() == wanted.as_bytes());
    }
}

// The same for browsers: the id and the data of each event.
static LASTS: [(Option<u64>, &[(&str, &str)]); 3] = [
    (Some(0), &[("0", NAMED), ("1", FIRST)]),
    (Some(1), &[("0", EMPTY), ("0", NAMED), ("1", FIRST)]),
    (None, &[("0", EMPTY), ("0", NAMED), ("1", FIRST)]),
];

#[test]
fn a_browser_is_told_the_name_before_the_first_entry(rt: HostRuntime) {
    let alloc = rt.alloc();
    for (last, events) in &LASTS {
        let bank = Bank::new(alloc).expect(&rt, "a bank");
        assert!(rt; sent_events(&rt, alloc, bank, *last) == told(&rt, alloc, events));
    }
}
