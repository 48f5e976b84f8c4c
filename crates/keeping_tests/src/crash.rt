//! What was replied stands in what a crash may leave of the file, and a board goes on from it.
ghost use Rattle.std.specs.Prelude.{◌≡◌, []};

use acdm_board::Desk;
use acdm_keeping::{Keeper, Replies};
use acdm_restoring::restore;
use acdm_sessions::{Sink, Source, run_announced};
use bpf_helpers::{Bank, Helpers};
use std::alloc::Global;
use std::io::{self, ErrorKind, Write};
use std::process::Abort;

/// A line of each of four sessions.
const LINES: &str =
    "1 29000580 APT {\"cmd\":\"tick\"}\n2 29000580 GH {\"cmd\":\"show\",\"flight\":7}\n\
    3 29000580 ATC {\"cmd\":\"alerts\"}\n4 29000580 NM {\"cmd\":\"schedule\"}\n";

/// How often each session sends its line.
const ROUNDS: usize = 50;

/// A file that has room for so many bytes. It knows how many stood there at its last flush.
#[derive(Drop)]
pub(crate) struct FullDisk {
    room: usize,
    settled: usize,
    text: Vec<u8>,
}

impl FullDisk {
    /// An empty one.
    pub(crate) fn new(alloc: Global, room: usize) -> FullDisk {
        FullDisk {
            room,
            settled: 0,
            text: Vec::new(alloc),
        }
    }

    /// What stands there.
    pub(crate) fn into_text(self) -> Vec<u8> {
        let FullDisk { text, .. } = self;
        text
    }
}

impl Write for FullDisk {
    fn write(&mut self, buf: &[u8]) -> io::Result<usize> {
        let count = buf.len().min(self.room.saturating_sub(self.text.len()));
        if count == 0 && !buf.is_empty() {
            return Err(io::Error::from(ErrorKind::StorageFull));
        }
        self.text.extend_from_slice(&buf[..count])?;
        Ok(count)
    }

    fn flush(&mut self) -> io::Result<()> {
        self.settled = self.text.len();
        Ok(())
    }
}

// How many entries some whole replies tell of: one more than the greatest number behind a first word, but for `bad`.
fn entries_told(replies: &[u8]) -> u64 {
    let mut told = 0u64;
    let mut is_bad = false;
    let mut words = 0u64;
    let mut number = 0u64;
    for byte in replies {
        if *byte == b'\n' {
            if !is_bad && number >= told {
                told = number.saturating_add(1);
            }
            is_bad = false;
            words = 0;
            number = 0;
        } else if *byte == b' ' {
            words = words.saturating_add(1);
        } else if words == 0 && *byte == b'b' {
            is_bad = true;
        } else if words == 1 && byte.is_ascii_digit() {
            let digit = u64::from(byte.saturating_sub(b'0'));
            number = number.saturating_mul(10).saturating_add(digit);
        }
    }
    told
}

/// How many entries a board has that goes on from a text.
pub(crate) fn entries_left<H: Helpers + Drop>(
    rt: &impl Abort,
    alloc: Global,
    helpers: H,
    text: &[u8],
) -> u64 {
    let mut desk = Desk::new(alloc, helpers, 1_000).expect(rt, "a desk");
    assert!(rt; restore(alloc, &mut Source::new(text), &mut desk).is_ok());
    let count = desk.len();
    drop(desk);
    count
}

// The file and the replies, once all lines were answered, or the file was full.
fn answered<H: Helpers + Drop>(
    rt: &impl Abort,
    alloc: Global,
    helpers: H,
    lines: &[u8],
    room: usize,
    held: usize,
) -> (FullDisk, Vec<u8>) {
    let mut desk = Desk::new(alloc, helpers, 1_000).expect(rt, "a desk");
    let disk = FullDisk::new(alloc, room);
    let mut keeper = Keeper::new(alloc, desk.row(), disk)
        .ok()
        .expect(rt, "a keeper");
    let mut output = Sink::new(Vec::new(alloc));
    let replies = Replies::new(alloc, &mut keeper, &mut output, held).expect(rt, "room");
    let mut writer = Sink::new(replies);
    let _ended = run_announced(alloc, &mut Source::new(lines), &mut writer, &mut desk);
    drop(writer);
    drop(desk);
    (keeper.into_writer().into_inner(), output.into_inner())
}

// The lines of all rounds.
fn all_lines(rt: &impl Abort, alloc: Global) -> Vec<u8> {
    let mut lines = Vec::new(alloc);
    for _ in 0..ROUNDS {
        lines
            .extend_from_slice(LINES.as_bytes())
            .expect(rt, "room for lines");
    }
    lines
}

// Whatever a crash may leave of a file with so much room has the entries of all that was replied.
fn keeps_what_was_replied(rt: &impl Abort, alloc: Global, lines: &[u8], room: usize, held: usize) {
    let bank = Bank::new(alloc).expect(rt, "a bank");
    let (disk, replies) = answered(rt, alloc, bank, lines, room, held);
    let told = entries_told(replies.as_slice());
    let FullDisk { settled, text, .. } = disk;
    assert!(rt; settled <= text.len());
    for cut in settled..=text.len() {
        let bank = Bank::new(alloc).expect(rt, "a bank");
        assert!(rt; entries_left(rt, alloc, bank, &text.as_slice()[..cut]) >= told);
    }
}

// A disk that is full at many places, with replies that are held back in small pieces and in large ones.
#[test]
fn what_was_replied_is_gone_on_from(rt: HostRuntime) {
    let alloc = rt.alloc();
    let lines = all_lines(&rt, alloc);
    for step in 0..20usize {
        keeps_what_was_replied(&rt, alloc, lines.as_slice(), step * 211, 16);
    }
    for step in 0..4usize {
        keeps_what_was_replied(&rt, alloc, lines.as_slice(), step * 997, 256);
    }
}

// With room for all, each line is replied to, and its entry stands in the file.
#[test]
fn all_is_replied_where_there_is_room(rt: HostRuntime) {
    let alloc = rt.alloc();
    let lines = all_lines(&rt, alloc);
    let bank = Bank::new(alloc).expect(&rt, "a bank");
    let (disk, replies) = answered(&rt, alloc, bank, lines.as_slice(), usize::MAX, 64);
    // (a schedule without a flight is no entry)
    assert!(rt; entries_told(replies.as_slice()) == 150);
    let FullDisk { settled, text, .. } = disk;
    assert!(rt; settled == text.len());
    let bank = Bank::new(alloc).expect(&rt, "a bank");
    assert!(rt; entries_left(&rt, alloc, bank, text.as_slice()) == 150);
}
