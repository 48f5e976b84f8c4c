//! What displays are told of changes, from where they asked to be.
use crate::following::{entries_of, tick, ticked};
use acdm_displays::{Shown, Start, follow_changes, follower_named, kept_named, start_named};
use acdm_lines::Sink;
use bpf_helpers::{Bank, Helpers};
use std::alloc::Global;
use std::process::Abort;
use std::sync::atomic::AtomicBool;

/// The line of a tick of the airport at minute 7.
pub(crate) const FIRST: &str =
    r#"{"entry":0,"minute":"1970-01-01T00:07:00Z","session":1,"role":"APT","command":{"cmd":"tick"},"outcome":"ok","answers":[],"changed":[]}
"#;

/// The line of one at minute 9, behind it.
pub(crate) const SECOND: &str =
    r#"{"entry":1,"minute":"1970-01-01T00:09:00Z","session":1,"role":"APT","command":{"cmd":"tick"},"outcome":"ok","answers":[],"changed":[]}
"#;

/// The line of the journal that begins with the first of them, with room for ten, for who is sent all: the name
/// is by `printf '0 1 7 APT 0 0 tick' | sha256sum`.
pub(crate) const NAMED: &str =
    "{\"journal\":\"c0b427712fc5e9818a1f171ebf555ecb\",\"next\":0,\"room\":10}\n";

/// The same for who has the first entry.
pub(crate) const NAMED_BEHIND_ONE: &str =
    "{\"journal\":\"c0b427712fc5e9818a1f171ebf555ecb\",\"next\":1,\"room\":10}\n";

/// The same for who has both.
pub(crate) const NAMED_BEHIND_BOTH: &str =
    "{\"journal\":\"c0b427712fc5e9818a1f171ebf555ecb\",\"next\":2,\"room\":10}\n";

/// The line of the board after both.
pub(crate) const BOARD: &str =
    "{\"journal\":\"c0b427712fc5e9818a1f171ebf555ecb\",\"next\":2,\"room\":10,\"flights\":[]}\n";

// What a display is told of two ticks.
fn told<H: Helpers + Drop>(rt: &impl Abort, alloc: Global, helpers: H, start: Start) -> Vec<u8> {
    let mut desk = ticked(rt, alloc, helpers, 10);
    assert!(rt; tick(&mut desk, 9));
    let closing = AtomicBool::new(true);
    let writer = Sink::new(Vec::new(alloc));
    let entries = entries_of(desk.row(), &closing);
    let shown = follow_changes(alloc, &entries, start, &mut "".as_bytes(), writer);
    drop(desk);
    let Shown { watch, writer, .. } = shown.ok().expect(rt, "a display");
    drop(watch);
    writer.into_inner()
}

// Where a display begins, and what it is told.
static STARTS: [(Start, &[&str]); 6] = [
    (Start::Entry(0), &[NAMED, FIRST, SECOND]),
    (Start::Entry(1), &[NAMED_BEHIND_ONE, SECOND]),
    (Start::Entry(2), &[NAMED_BEHIND_BOTH]),
    (Start::Entry(3), &[BOARD]),
    (Start::Entry(u64::MAX), &[BOARD]),
    (Start::Board, &[BOARD]),
];

#[test]
fn a_display_is_told_what_it_asked_for(rt: HostRuntime) {
    let alloc = rt.alloc();
    for (start, lines) in &STARTS {
        let bank = Bank::new(alloc).expect(&rt, "a bank");
        let mut wanted = String::new(alloc);
        for line in *lines {
            wanted.push_str(line).expect(&rt, "room for a line");
        }
        assert!(rt; told(&rt, alloc, bank, *start).as_slice() == wanted.as_bytes());
    }
}

// First lines, and what they ask for.
static LINES: [(&[u8], Option<Start>); 16] = [
    (b"board", Some(Start::Board)),
    (b"from 0", Some(Start::Entry(0))),
    (b"from 7", Some(Start::Entry(7))),
    (
        b"from 18446744073709551615",
        Some(Start::Entry(18_446_744_073_709_551_615)),
    ),
    (b"from 18446744073709551616", None),
    (b"", None),
    (b"from", None),
    (b"from ", None),
    (b"from -1", None),
    (b"from +7", None),
    (b"from 07", None),
    (b"from 00", None),
    (b"from 7 ", None),
    (b"FROM 7", None),
    (b"boards", None),
    (b"from \xff", None),
];

#[test]
fn a_first_line_asks_for_a_start_or_for_nothing(rt: HostRuntime) {
    for (line, start) in &LINES {
        assert!(rt; start_named(*line) == *start);
    }
}

// First lines, and from where and by what name a board follows that sends them.
static FOLLOWERS: [(&[u8], Option<(u64, u64)>); 16] = [
    (b"from 0 as 0", Some((0, 0))),
    (b"from 7 as 12", Some((7, 12))),
    (
        b"from 18446744073709551615 as 18446744073709551615",
        Some((18_446_744_073_709_551_615, 18_446_744_073_709_551_615)),
    ),
    (b"from 18446744073709551616 as 1", None),
    (b"from 1 as 18446744073709551616", None),
    (b"from 1", None),
    (b"from 1 as", None),
    (b"from 1 as ", None),
    (b"from 1 as 01", None),
    (b"from 01 as 1", None),
    (b"from 1 as +1", None),
    (b"from 1  as 1", None),
    (b"from 1 as  1", None),
    (b"from 1 as 1 ", None),
    (b"from as 1", None),
    (b"board", None),
];

#[test]
fn a_board_that_follows_gives_its_name(rt: HostRuntime) {
    for (line, wanted) in &FOLLOWERS {
        let named = match follower_named(*line) {
            Some(start) => Some((start.from, start.name)),
            None => None,
        };
        assert!(rt; named == *wanted);
    }
}

// Lines of a board that follows, and how many entries it keeps by them.
static KEPT: [(&[u8], Option<u64>); 12] = [
    (b"kept 0", Some(0)),
    (b"kept 7", Some(7)),
    (
        b"kept 18446744073709551615",
        Some(18_446_744_073_709_551_615),
    ),
    (b"kept 18446744073709551616", None),
    (b"kept", None),
    (b"kept ", None),
    (b"kept 01", None),
    (b"kept +1", None),
    (b"kept 1 ", None),
    (b"kept  1", None),
    (b" kept 1", None),
    (b"Kept 1", None),
];

#[test]
fn a_board_that_follows_says_what_it_keeps(rt: HostRuntime) {
    for (line, kept) in &KEPT {
        assert!(rt; kept_named(*line) == *kept);
    }
}
