//! What displays are sent of a journal whose first entries they have.
use crate::feeding::{NAMED, NAMED_BEHIND_BOTH, NAMED_BEHIND_ONE};
use crate::following::{Failing, entries_of, row_of, tick, ticked};
use acdm_board::Desk;
use acdm_displays::{Shown, follow_from};
use acdm_lines::Sink;
use acdm_row::Row;
use bpf_helpers::{Bank, Helpers};
use std::alloc::Global;
use std::io::{self, ErrorKind, Write};
use std::process::Abort;
use std::sync::Arc;
use std::sync::atomic::{AtomicBool, Ordering};

/// The text of a tick of minute 7, which is the first entry.
pub(crate) const FIRST: &str = "0 1 7 APT 0 0 tick\n";

/// The text of one of minute 9 behind it.
const SECOND: &str = "1 1 9 APT 0 0 tick\n";

// What these lines are together.
fn text_of(rt: &impl Abort, alloc: Global, lines: &[&str]) -> String {
    let mut text = String::new(alloc);
    for line in lines {
        text.push_str(line).expect(rt, "room for a line");
    }
    text
}

// What a display that has so many entries is sent of two ticks.
fn sent<H: Helpers + Drop>(rt: &impl Abort, alloc: Global, helpers: H, number: u64) -> Vec<u8> {
    let mut desk = ticked(rt, alloc, helpers, 10);
    assert!(rt; tick(&mut desk, 9));
    let closing = AtomicBool::new(true);
    let writer = Sink::new(Vec::new(alloc));
    let entries = entries_of(desk.row(), &closing);
    let shown = follow_from(alloc, &entries, number, &mut "".as_bytes(), writer);
    drop(desk);
    let Shown { watch, writer, .. } = shown.ok().expect(rt, "a display");
    drop(watch);
    writer.into_inner()
}

// How many entries a display has, and what it is sent.
static NUMBERS: [(u64, &[&str]); 5] = [
    (0, &[NAMED, FIRST, SECOND]),
    (1, &[NAMED_BEHIND_ONE, SECOND]),
    (2, &[NAMED_BEHIND_BOTH]),
    (3, &[NAMED_BEHIND_BOTH]),
    (u64::MAX, &[NAMED_BEHIND_BOTH]),
];

#[test]
fn a_display_is_sent_the_entries_behind_those_that_it_has(rt: HostRuntime) {
    let alloc = rt.alloc();
    for (number, lines) in &NUMBERS {
        let bank = Bank::new(alloc).expect(&rt, "a bank");
        let wanted = text_of(&rt, alloc, lines);
        assert!(rt; sent(&rt, alloc, bank, *number).as_slice() == wanted.as_bytes());
    }
}

/// Keeps what it takes. At its first flush one more tick is entered, of minute 7 where it is the first entry, else of
/// minute 9, which is the last one.
#[derive(Drop)]
struct Growing<H: Helpers + Drop> {
    desk: Desk<H>,
    closing: Arc<AtomicBool>,
    text: Vec<u8>,
}

impl<H: Helpers + Drop> Write for Growing<H> {
    fn write(&mut self, buf: &[u8]) -> io::Result<usize> {
        self.text.extend_from_slice(buf)?;
        Ok(buf.len())
    }

    fn flush(&mut self) -> io::Result<()> {
        if !self.closing.load(Ordering::SeqCst) {
            let minute = if self.desk.len() == 0 { 7 } else { 9 };
            tick(&mut self.desk, minute);
            self.closing.store(true, Ordering::SeqCst);
        }
        Ok(())
    }
}

// The row of a desk with one entry or none, and what writes to a display while one more comes.
fn opened<H: Helpers + Drop>(
    rt: &impl Abort,
    alloc: Global,
    helpers: H,
    has_first: bool,
    closing: &Arc<AtomicBool>,
) -> (Arc<Row>, Sink<Growing<H>>) {
    let mut desk = Desk::new(alloc, helpers, 10).expect(rt, "a desk");
    if has_first {
        assert!(rt; tick(&mut desk, 7));
    }
    let row = row_of(rt, &desk);
    let writer = Sink::new(Growing {
        desk,
        closing: Arc::try_clone(closing).expect(rt, "a word"),
        text: Vec::new(alloc),
    });
    (row, writer)
}

// What a display that has so many entries is sent while one more comes.
fn sent_growing<H: Helpers + Drop>(
    rt: &impl Abort,
    alloc: Global,
    helpers: H,
    has_first: bool,
    number: u64,
) -> Vec<u8> {
    let closing = Arc::new(alloc, AtomicBool::new(false)).expect(rt, "a word");
    let (row, writer) = opened(rt, alloc, helpers, has_first, &closing);
    let entries = entries_of(&row, &closing);
    let mut reader = Failing {
        kind: ErrorKind::WouldBlock,
        times: 1_000,
    };
    let shown = follow_from(alloc, &entries, number, &mut reader, writer)
        .ok()
        .expect(rt, "a display");
    let Shown { watch, writer, .. } = shown;
    drop(watch);
    let Growing { desk, text, .. } = writer.into_inner();
    drop(desk);
    text
}

// Whether there is an entry, how many entries a display has, and what it is sent while one more comes.
static GROWING: [(bool, u64, &[&str]); 7] = [
    (false, 0, &[NAMED, FIRST]),
    (false, 1, &[NAMED, FIRST]),
    (false, u64::MAX, &[NAMED, FIRST]),
    (true, 0, &[NAMED, FIRST, SECOND]),
    (true, 1, &[NAMED_BEHIND_ONE, SECOND]),
    (true, 2, &[NAMED_BEHIND_ONE, SECOND]),
    (true, u64::MAX, &[NAMED_BEHIND_ONE, SECOND]),
];

#[test]
fn it_goes_on_with_the_entry_that_comes_next(rt: HostRuntime) {
    let alloc = rt.alloc();
    for (has_first, number, lines) in &GROWING {
        let bank = Bank::new(alloc).expect(&rt, "a bank");
        let wanted = text_of(&rt, alloc, lines);
        let text = sent_growing(&rt, alloc, bank, *has_first, *number);
        assert!(rt; text.as_slice() == wanted.as_bytes());
    }
}
