//! What is written of a journal that grows, with readers and writers of any temper.
use acdm_board::Desk;
use acdm_displays::{Entries, Shown, follow};
use acdm_lines::Sink;
use acdm_milestones::Role;
use acdm_row::Row;
use acdm_step::Command;
use bpf_helpers::{Bank, Helpers};
use std::alloc::Global;
use std::io::{self, ErrorKind, Read, Write};
use std::process::Abort;
use std::sync::Arc;
use std::sync::atomic::{AtomicBool, Ordering};

/// The text of two ticks.
pub(crate) const TICKS: &str = "0 1 7 APT 0 0 tick\n1 1 9 APT 0 0 tick\n";

/// A tick of session 1, and whether it was entered.
pub(crate) fn tick<H: Helpers + Drop>(desk: &mut Desk<H>, moment: u32) -> bool {
    let role = Role::AirportOperator;
    moment >= 1 && desk.call_for(1, role, moment, Command::Tick).is_ok()
}

/// A desk with room for so many entries, and a tick of minute 7.
pub(crate) fn ticked<H: Helpers + Drop>(
    rt: &impl Abort,
    alloc: Global,
    helpers: H,
    room: usize,
) -> Desk<H> {
    let mut desk = Desk::new(alloc, helpers, room).expect(rt, "a desk");
    assert!(rt; tick(&mut desk, 7));
    desk
}

/// The row of a desk.
pub(crate) fn row_of<H: Helpers + Drop>(rt: &impl Abort, desk: &Desk<H>) -> Arc<Row> {
    Arc::try_clone(desk.row()).expect(rt, "a row")
}

/// The entries of a row that is not kept.
pub(crate) fn entries_of<'a>(row: &'a Arc<Row>, closing: &'a AtomicBool) -> Entries<'a> {
    Entries {
        row,
        reach: None,
        closing,
    }
}

/// Keeps what it takes. At its first flush a tick of minute 9 is entered, which is the last entry
/// where it is to end then.
#[derive(Drop)]
struct Growing<H: Helpers + Drop> {
    desk: Desk<H>,
    ends: bool,
    closing: Arc<AtomicBool>,
    text: Vec<u8>,
}

impl<H: Helpers + Drop> Write for Growing<H> {
    fn write(&mut self, buf: &[u8]) -> io::Result<usize> {
        self.text.extend_from_slice(buf)?;
        Ok(buf.len())
    }

    fn flush(&mut self) -> io::Result<()> {
        if self.desk.len() == 1 {
            tick(&mut self.desk, 9);
            self.closing.store(self.ends, Ordering::SeqCst);
        }
        Ok(())
    }
}

/// Fails so at each of so many reads, and ends then.
#[derive(Drop)]
pub(crate) struct Failing {
    pub(crate) kind: ErrorKind,
    pub(crate) times: u64,
}

impl Read for Failing {
    fn read(&mut self, _buf: &mut [u8]) -> io::Result<usize> {
        if self.times == 0 {
            return Ok(0);
        }
        self.times -= 1;
        Err(io::Error::from(self.kind))
    }
}

// What a display is sent while one more entry comes, which is the last one where it ends then.
fn sent_growing<H: Helpers + Drop>(
    rt: &impl Abort,
    alloc: Global,
    helpers: H,
    ends: bool,
    mut reader: Failing,
) -> String {
    let desk = ticked(rt, alloc, helpers, 2);
    let row = row_of(rt, &desk);
    let closing = Arc::new(alloc, AtomicBool::new(false)).expect(rt, "a word");
    let writer = Sink::new(Growing {
        desk,
        ends,
        closing: Arc::try_clone(&closing).expect(rt, "a word"),
        text: Vec::new(alloc),
    });
    let entries = entries_of(&row, &closing);
    let shown = follow(alloc, &entries, &mut reader, writer)
        .ok()
        .expect(rt, "a display");
    let Shown { watch, writer, .. } = shown;
    drop(watch);
    let Growing { desk, text, .. } = writer.into_inner();
    drop(desk);
    String::from_utf8(text).ok().expect(rt, "a text")
}

// The last entry may come after the last one in sight was sent. The row is full then.
#[test]
fn an_entry_that_comes_before_the_end_is_sent(rt: HostRuntime) {
    let alloc = rt.alloc();
    let reader = Failing {
        kind: ErrorKind::WouldBlock,
        times: 1_000,
    };
    let bank = Bank::new(alloc).expect(&rt, "a bank");
    assert!(rt; sent_growing(&rt, alloc, bank, true, reader).as_str() == TICKS);
}

// How a read fails, and whether the display was there for one more entry.
static READS: [(ErrorKind, bool); 4] = [
    (ErrorKind::WouldBlock, true),
    (ErrorKind::Interrupted, true),
    (ErrorKind::ConnectionReset, false),
    (ErrorKind::TimedOut, false),
];

#[test]
fn a_signal_or_silence_is_no_end(rt: HostRuntime) {
    let alloc = rt.alloc();
    for (kind, stays) in &READS {
        let bank = Bank::new(alloc).expect(&rt, "a bank");
        let reader = Failing {
            kind: *kind,
            times: 3,
        };
        let sent = sent_growing(&rt, alloc, bank, false, reader);
        let wanted = if *stays { TICKS } else { &TICKS[..19] };
        assert!(rt; sent.as_str() == wanted);
    }
}

/// Takes five bytes at a time at most, and fails so before each time so often.
#[derive(Drop)]
struct Slow {
    kind: ErrorKind,
    times: u64,
    left: u64,
    text: Vec<u8>,
}

impl Write for Slow {
    fn write(&mut self, buf: &[u8]) -> io::Result<usize> {
        if self.left > 0 {
            self.left -= 1;
            return Err(io::Error::from(self.kind));
        }
        self.left = self.times;
        let count = buf.len().min(5);
        self.text.extend_from_slice(&buf[..count])?;
        Ok(count)
    }

    fn flush(&mut self) -> io::Result<()> {
        Ok(())
    }
}

// Whether a writer that fails so, so often before each time, is sent all of two entries.
fn is_sent_slowly<H: Helpers + Drop>(
    rt: &impl Abort,
    alloc: Global,
    helpers: H,
    kind: ErrorKind,
    times: u64,
) -> bool {
    let mut desk = ticked(rt, alloc, helpers, 10);
    assert!(rt; tick(&mut desk, 9));
    let closing = AtomicBool::new(true);
    let writer = Sink::new(Slow {
        kind,
        times,
        left: times,
        text: Vec::new(alloc),
    });
    let entries = entries_of(desk.row(), &closing);
    let shown = follow(alloc, &entries, &mut "".as_bytes(), writer);
    drop(desk);
    let Ok(Shown { watch, writer, .. }) = shown else {
        return false;
    };
    drop(watch);
    writer.into_inner().text.as_slice() == TICKS.as_bytes()
}

// How a write fails, how often before each that takes something, and whether all is sent.
static WRITES: [(ErrorKind, u64, bool); 7] = [
    (ErrorKind::WouldBlock, 0, true),
    (ErrorKind::WouldBlock, 1, true),
    (ErrorKind::WouldBlock, 119, true),
    (ErrorKind::WouldBlock, 120, false),
    (ErrorKind::Interrupted, 1, true),
    (ErrorKind::Interrupted, 500, true),
    (ErrorKind::BrokenPipe, 1, false),
];

#[test]
fn a_slow_display_is_sent_all(rt: HostRuntime) {
    let alloc = rt.alloc();
    for (kind, times, is_sent) in &WRITES {
        let bank = Bank::new(alloc).expect(&rt, "a bank");
        assert!(rt;
            is_sent_slowly(&rt, alloc, bank, *kind, *times) == *is_sent,
            "{times}"
        );
    }
}
