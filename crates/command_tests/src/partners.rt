//! Partners that come and go: the words for them, and the reader over their connections.
use acdm_command_line::{Line, Subcommand, parse};
use acdm_partners::{
    Arrivals, ControlRequest, FirstLine, WholeLines, control_request, judge_first,
};
use std::alloc::Global;
use std::io::Read;

// Connections that give these texts, one after the other, until no line is admitted any more. None is before the one
// before it was answered.
#[derive(Drop)]
struct Visits {
    texts: [&'static [u8]; 4],
    next: usize,
    admitted: u32,
    is_answered: bool,
}

impl Arrivals<&'static [u8]> for Visits {
    fn answered(&mut self) {
        self.is_answered = true;
    }

    fn admits(&mut self) -> bool {
        match self.admitted.checked_sub(1) {
            Some(left) if self.is_answered => {
                self.admitted = left;
                self.is_answered = false;
                true
            }
            _ => false,
        }
    }

    fn next(&mut self) -> Option<&'static [u8]> {
        let text = self.texts.get(self.next).copied();
        self.next = self.next.saturating_add(1);
        text
    }
}

// Some whole lines and a cut one; nothing; a cut one; and one behind it.
static TEXTS: [&[u8]; 4] = [b"one\n\ntwo\nthr", b"", b"fo", b"five\nsix\n"];

// What a reader gives over these connections, by reads of so many bytes, where so many lines are admitted.
fn whole_lines<const MOST: usize>(alloc: Global, size: usize, admitted: u32) -> Option<Vec<u8>> {
    let arrivals = Visits {
        texts: TEXTS,
        next: 0,
        admitted,
        is_answered: false,
    };
    let mut reader = WholeLines::<Visits, &'static [u8], MOST>::new(alloc, arrivals).ok()?;
    let mut buf = [0u8; 16];
    let mut all = Vec::new(alloc);
    for _ in 0..100 {
        let part = buf.get_mut(..size)?;
        let count = reader.read(part).ok()?;
        if count == 0 {
            return Some(all);
        }
        all.extend_from_slice(part.get(..count)?).ok()?;
    }
    None
}

fn gives<const MOST: usize>(alloc: Global, size: usize, admitted: u32, wanted: &[u8]) -> bool {
    match whole_lines::<MOST>(alloc, size, admitted) {
        Some(all) => all.as_slice() == wanted,
        None => false,
    }
}

#[test]
fn whole_lines_of_connections_are_given_and_nothing_else(rt: HostRuntime) {
    let alloc = rt.alloc();
    assert!(rt; gives::<10>(alloc, 16, 100, b"one\n\ntwo\nfive\nsix\n"));
    assert!(rt; gives::<10>(alloc, 1, 100, b"one\n\ntwo\nfive\nsix\n"));
    assert!(rt; gives::<3>(alloc, 2, 100, b"one\n\ntwo\nfiv\nsix\n"));
    // (each line is asked for once, and no connection is)
    assert!(rt; gives::<10>(alloc, 16, 0, b""));
    assert!(rt; gives::<10>(alloc, 16, 1, b"one\n"));
    assert!(rt; gives::<10>(alloc, 3, 3, b"one\n\ntwo\n"));
    assert!(rt; gives::<10>(alloc, 16, 4, b"one\n\ntwo\nfive\n"));
}

// What came of a connection, whether that is all, and what it says of it where a line has at most 8 bytes.
static FIRST: [(&[u8], bool, FirstLine); 16] = [
    (b"", false, FirstLine::Waits),
    (b"{", false, FirstLine::Waits),
    (b"GET", false, FirstLine::Waits),
    (b"{\n", false, FirstLine::Command),
    (b" \t\r{}\n", false, FirstLine::Command),
    (b"{}\nGET", false, FirstLine::Command),
    (b"\n{}\n", false, FirstLine::Foreign),
    (b" \r\n", false, FirstLine::Foreign),
    (b"[1]\n", false, FirstLine::Foreign),
    (b"GET / \n", false, FirstLine::Foreign),
    (b"{234567", false, FirstLine::Waits),
    (b"{2345678", false, FirstLine::Command),
    (b"x2345678", false, FirstLine::Foreign),
    (b"{}", true, FirstLine::Command),
    (b"x", true, FirstLine::Foreign),
    (b"  ", true, FirstLine::Foreign),
];

#[test]
fn a_newcomer_is_judged_by_its_first_line(rt: HostRuntime) {
    for (text, is_all, wanted) in &FIRST {
        assert!(rt; judge_first(8, *is_all, *text) == *wanted);
    }
}

static REQUESTS: [(&[u8], ControlRequest); 10] = [
    (b"close", ControlRequest::Close),
    (b"status", ControlRequest::Status),
    (b"promote", ControlRequest::Promote),
    (b"promote ", ControlRequest::Nothing),
    (b"promot", ControlRequest::Nothing),
    (b"close ", ControlRequest::Nothing),
    (b"CLOSE", ControlRequest::Nothing),
    (b"clos", ControlRequest::Nothing),
    (b"", ControlRequest::Nothing),
    (b"POST / HTTP/1.1", ControlRequest::Nothing),
];

#[test]
fn a_line_at_the_control_address_is_a_request_or_none(rt: HostRuntime) {
    for (line, wanted) in &REQUESTS {
        assert!(rt; control_request(*line) == *wanted);
    }
}

// Whether these words ask to serve so.
fn asks_to_serve(
    alloc: Global,
    words: &[&str],
    wanted_again: bool,
    wanted_control: Option<&str>,
    wanted_pace: Option<u32>,
) -> bool {
    match parse(alloc, words) {
        Ok(
            Line {
                subcommand: Subcommand::Serve {
                    again,
                    control,
                    pace,
                    ..
                },
                ..
            },
        ) => again == wanted_again && control == wanted_control && pace == wanted_pace,
        _ => false,
    }
}

static REFUSED: [&[&str]; 14] = [
    &["acdm", "run", "--again"],
    &["acdm", "serve", "--again=yes", "NM=[::1]:1"],
    &["acdm", "serve", "--control"],
    &["acdm", "serve", "--pace", "0", "NM=[::1]:1"],
    &["acdm", "serve", "--pace", "many", "NM=[::1]:1"],
    &["acdm", "serve", "--pace", "4294967296", "NM=[::1]:1"],
    &["acdm", "run", "--tick", "60"],
    &["acdm", "serve", "--tick", "0", "NM=[::1]:1"],
    &["acdm", "serve", "--tick", "86401", "NM=[::1]:1"],
    &["acdm", "serve", "--tick", "-60", "NM=[::1]:1"],
    &["acdm", "serve", "--tick", "1.5", "NM=[::1]:1"],
    &["acdm", "serve", "--tick", "NM=[::1]:1"],
    &["acdm", "run", "--log", "board.log"],
    &["acdm", "serve", "NM=[::1]:1", "--log"],
];

#[test]
fn partners_come_again_where_it_is_said(rt: HostRuntime) {
    let alloc = rt.alloc();
    let plain = ["acdm", "serve", "NM=[::1]:1"];
    assert!(rt; asks_to_serve(alloc, &plain, false, None, None));
    let again = ["acdm", "serve", "--again", "NM=[::1]:1"];
    assert!(rt; asks_to_serve(alloc, &again, true, None, None));
    let control = [
        "acdm",
        "serve",
        "--control=4199",
        "--pace",
        "1",
        "NM=[::1]:1",
    ];
    assert!(rt; asks_to_serve(alloc, &control, false, Some("4199"), Some(1)));
    let most = ["acdm", "serve", "NM=[::1]:1", "--pace", "4294967295"];
    assert!(rt; asks_to_serve(alloc, &most, false, None, Some(4_294_967_295)));
    for words in &REFUSED {
        assert!(rt; parse(alloc, *words).is_err(), "{words:?}");
    }
}

// Whether these words ask to serve with ticks each so many seconds.
fn asks_to_tick(alloc: Global, words: &[&str], wanted: Option<u32>) -> bool {
    match parse(alloc, words) {
        Ok(
            Line {
                subcommand: Subcommand::Serve { tick, .. },
                ..
            },
        ) => tick == wanted,
        _ => false,
    }
}

#[test]
fn a_board_ticks_where_it_is_said(rt: HostRuntime) {
    let alloc = rt.alloc();
    let none = ["acdm", "serve", "NM=[::1]:1"];
    assert!(rt; asks_to_tick(alloc, &none, None));
    let least = ["acdm", "serve", "--tick", "1", "NM=[::1]:1"];
    assert!(rt; asks_to_tick(alloc, &least, Some(1)));
    let most = ["acdm", "serve", "--tick=86400", "NM=[::1]:1"];
    assert!(rt; asks_to_tick(alloc, &most, Some(86_400)));
}

// Whether these words ask to serve with what an operator is told logged there.
fn asks_to_log(alloc: Global, words: &[&str], wanted: Option<&str>) -> bool {
    match parse(alloc, words) {
        Ok(
            Line {
                subcommand: Subcommand::Serve { log, control, .. },
                ..
            },
        ) => log == wanted && control.is_none(),
        _ => false,
    }
}

#[test]
fn a_board_logs_where_it_is_said(rt: HostRuntime) {
    let alloc = rt.alloc();
    let none = ["acdm", "serve", "NM=[::1]:1"];
    assert!(rt; asks_to_log(alloc, &none, None));
    let one = ["acdm", "serve", "NM=[::1]:1", "--log", "board.log"];
    assert!(rt; asks_to_log(alloc, &one, Some("board.log")));
    let bound = ["acdm", "serve", "--log=a=b", "NM=[::1]:1"];
    assert!(rt; asks_to_log(alloc, &bound, Some("a=b")));
}
