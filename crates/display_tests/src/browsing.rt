//! What browsers ask for, and what they are sent.
use crate::feeding::{BOARD, FIRST, NAMED, NAMED_BEHIND_BOTH, NAMED_BEHIND_ONE, SECOND};
use crate::following::{entries_of, tick, ticked};
use acdm_displays::{Shown, answer, follow_events};
use acdm_lines::{Sink, Source};
use acdm_web::{BrowserRequest, PAGE, TimeLimit, Wanted, first_wanted, wanted_in};
use bpf_helpers::{Bank, Helpers};
use httpdate::HttpDate;
use std::alloc::Global;
use std::fmt::Write;
use std::io::Read;
use std::process::Abort;
use std::sync::atomic::AtomicBool;

// What is asked for by `GET`, by `HEAD`, or by no method that is answered.
fn got(wanted: Wanted) -> BrowserRequest {
    BrowserRequest {
        wanted,
        is_head: false,
    }
}

fn head(wanted: Wanted) -> BrowserRequest {
    BrowserRequest {
        wanted,
        is_head: true,
    }
}

// The bytes of a request's head, and what they ask for of a board that is named `board`.
static REQUESTS: [(&str, Option<Wanted>); 22] = [
    ("GET / HTTP/1.1\r\nHost: board\r\n\r\n", Some(Wanted::Page)),
    ("GET / HTTP/1.0\r\n\r\n", Some(Wanted::Page)),
    ("GET /?x HTTP/1.1\r\n\r\n", Some(Wanted::Page)),
    ("GET /? HTTP/1.1\r\n\r\n", Some(Wanted::Page)),
    ("GET /events HTTP/1.1\r\n\r\n", Some(Wanted::Events(None))),
    (
        "GET /events HTTP/1.1\r\nLast-Event-ID: 7\r\n\r\n",
        Some(Wanted::Events(Some(7))),
    ),
    (
        "GET /events?a=/b?c HTTP/1.1\r\nA: 1\r\nlast-event-id:\t8 \r\n\r\n",
        Some(Wanted::Events(Some(8))),
    ),
    (
        "GET /events HTTP/1.1\r\nLast-Event-ID: 18446744073709551615\r\n\r\n",
        Some(Wanted::Events(Some(u64::MAX))),
    ),
    (
        "GET /events HTTP/1.1\r\nLast-Event-ID: 18446744073709551616\r\n\r\n",
        Some(Wanted::Events(None)),
    ),
    (
        "GET /events HTTP/1.1\r\nLast-Event-ID: x\r\n\r\n",
        Some(Wanted::Events(None)),
    ),
    (
        "GET /events HTTP/1.1\r\nLast-Event-ID: +1\r\n\r\n",
        Some(Wanted::Events(None)),
    ),
    (
        "GET /events HTTP/1.1\r\nLast-Event-ID: 01\r\n\r\n",
        Some(Wanted::Events(None)),
    ),
    ("GET /events/?x HTTP/1.1\r\n\r\n", Some(Wanted::Nothing)),
    ("GET ?/ HTTP/1.1\r\n\r\n", Some(Wanted::Nothing)),
    ("GET /favicon.ico HTTP/1.1\r\n\r\n", Some(Wanted::Nothing)),
    ("POST / HTTP/1.1\r\n\r\n", Some(Wanted::OtherMethod)),
    ("head / HTTP/1.1\r\n\r\n", Some(Wanted::OtherMethod)),
    ("HEADS / HTTP/1.1\r\n\r\n", Some(Wanted::OtherMethod)),
    ("GET / HTTP/2.0\r\n\r\n", Some(Wanted::NoRequest)),
    ("\u{16}\u{3}\u{1}", Some(Wanted::NoRequest)),
    ("GET / HTTP/1.1\r\nHost: board\r\n", None),
    ("", None),
];

// The same of requests for a head alone.
static HEADS: [(&str, Wanted); 5] = [
    ("HEAD / HTTP/1.1\r\n\r\n", Wanted::Page),
    (
        "HEAD /events HTTP/1.1\r\nLast-Event-ID: 7\r\n\r\n",
        Wanted::Events(Some(7)),
    ),
    ("HEAD /?x HTTP/1.1\r\n\r\n", Wanted::Page),
    ("HEAD /x HTTP/1.1\r\n\r\n", Wanted::Nothing),
    (
        "HEAD / HTTP/1.1\r\nHost: other.example\r\n\r\n",
        Wanted::Misdirected,
    ),
];

#[test]
fn requests_are_told_apart(rt: HostRuntime) {
    for (bytes, wanted) in &REQUESTS {
        let asked = wanted_in(bytes.as_bytes(), Some("board"));
        assert!(rt; asked == wanted.map(got));
    }
    for (bytes, wanted) in &HEADS {
        let asked = wanted_in(bytes.as_bytes(), Some("board"));
        assert!(rt; asked == Some(head(*wanted)));
    }
}

// The fields of a request for the page, and whether a board that is named `board.example` is meant by them.
static FIELDS: [(&str, bool); 22] = [
    ("Host: 127.0.0.1:8080\r\n", true),
    ("Host: 10.0.0.1\r\n", true),
    ("Host: [::1]:8080\r\n", true),
    ("Host: localhost:8080\r\n", true),
    ("HOST: LocalHost\r\n", true),
    ("Host: board.example\r\n", true),
    ("Host: BOARD.example:8443\r\n", true),
    ("Host:\r\n", true),
    ("", true),
    ("Host: rebind.example:8080\r\n", false),
    ("Host: localhost.example\r\n", false),
    ("Host: 127.0.0.1.example\r\n", false),
    ("Host: board.example.\r\n", false),
    ("Host: rebind.example\r\nHost: localhost\r\n", false),
    (
        "Host: localhost:8080\r\nOrigin: http://localhost:8080\r\n",
        true,
    ),
    (
        "Host: board.example\r\nOrigin: https://Board.example\r\n",
        true,
    ),
    (
        "Host: localhost:8080\r\nOrigin: http://localhost:8081\r\n",
        false,
    ),
    (
        "Host: localhost:8080\r\nOrigin: http://evil.example\r\n",
        false,
    ),
    ("Host: localhost:8080\r\nOrigin: null\r\n", false),
    (
        "Host: localhost:8080\r\nOrigin: ftp://localhost:8080\r\n",
        false,
    ),
    (
        "Host: localhost\r\nOrigin: http://localhost.example\r\n",
        false,
    ),
    ("Origin: http://localhost\r\n", false),
];

// What a request for the page with these fields asks for.
fn asked_with(alloc: Global, fields: &str, name: Option<&str>) -> Option<BrowserRequest> {
    let mut head = String::new(alloc);
    if write!(head, "GET / HTTP/1.1\r\n{fields}\r\n").is_err() {
        return None;
    }
    wanted_in(head.as_bytes(), name)
}

#[test]
fn a_board_is_asked_by_its_own_names_alone(rt: HostRuntime) {
    let alloc = rt.alloc();
    for (fields, is_meant) in &FIELDS {
        let wanted = if *is_meant {
            Wanted::Page
        } else {
            Wanted::Misdirected
        };
        assert!(rt; asked_with(alloc, fields, Some("board.example")) == Some(got(wanted)));
    }
    let named = "Host: board.example\r\n";
    assert!(rt; asked_with(alloc, named, None) == Some(got(Wanted::Misdirected)));
}

// A time that is never over.
struct Never;

impl TimeLimit for Never {
    fn is_over(&self) -> bool {
        false
    }
}

// A time that is over.
struct Over;

impl TimeLimit for Over {
    fn is_over(&self) -> bool {
        true
    }
}

// What is heard of these bytes.
fn heard(alloc: Global, mut bytes: &[u8]) -> Option<BrowserRequest> {
    let mut reader = Source::new(&mut bytes);
    first_wanted(alloc, &mut reader, None, &Never)
}

#[test]
fn a_browser_is_heard(rt: HostRuntime) {
    let alloc = rt.alloc();
    assert!(rt; heard(alloc, b"GET / HTTP/1.1\r\n\r\n") == Some(got(Wanted::Page)));
    assert!(rt; heard(alloc, b"GET / HTTP/1.1\r\n").is_none());
    assert!(rt; heard(alloc, &[b'x'; 9_000]).is_none());
}

// What is heard where the end of a request comes by a second read, of a time that is over or never is.
fn heard_in_two<L: TimeLimit>(alloc: Global, limit: &L) -> Option<BrowserRequest> {
    let (first, second): (&[u8], &[u8]) = (b"GET / HTTP/1.1\r\n", b"\r\n");
    let mut reader = Source::new(first.chain(second));
    first_wanted(alloc, &mut reader, None, limit)
}

#[test]
fn what_has_come_is_heard_once_the_time_is_over(rt: HostRuntime) {
    let alloc = rt.alloc();
    let mut whole: &[u8] = b"GET / HTTP/1.1\r\n\r\n";
    let mut reader = Source::new(&mut whole);
    assert!(rt; first_wanted(alloc, &mut reader, None, &Over) == Some(got(Wanted::Page)));
    assert!(rt; heard_in_two(alloc, &Never) == Some(got(Wanted::Page)));
    assert!(rt; heard_in_two(alloc, &Over).is_none());
}

// A date that RFC 9110 (section 5.6.7) writes out, in seconds since 1970-01-01T00:00:00Z.
const DATE: u64 = 784_111_777;

// What is answered, at this moment where it is known.
fn answered(
    rt: &impl Abort,
    alloc: Global,
    request: BrowserRequest,
    seconds: Option<u64>,
) -> Vec<u8> {
    let date = match seconds {
        Some(seconds) => HttpDate::from_unix_secs(seconds).ok(),
        None => None,
    };
    let mut writer = Sink::new(Vec::new(alloc));
    assert!(rt; answer(alloc, request, "page", date, &mut writer).is_ok());
    writer.into_inner()
}

// How an answer begins and ends.
static ANSWERS: [(Wanted, &str, &str); 6] = [
    (
        Wanted::Page,
        "HTTP/1.1 200 OK\r\nContent-Type: text/html; charset=utf-8\r\nContent-Length: 4\r\nDate: Sun, 06 Nov 1994 08:49:37 GMT\r\nCache-Control: no-store\r\n",
        "\r\n\r\npage",
    ),
    (
        Wanted::Nothing,
        "HTTP/1.1 404 Not Found\r\nContent-Type: text/plain; charset=utf-8\r\nContent-Length: 59\r\nDate: ",
        "\r\n\r\nNothing is here. The board is at /, its events at /events.\n",
    ),
    (
        Wanted::OtherMethod,
        "HTTP/1.1 405 Method Not Allowed\r\nContent-Type: text/plain; charset=utf-8\r\nAllow: GET, HEAD\r\nContent-Length: 20\r\n",
        "\r\n\r\nAsk by GET or HEAD.\n",
    ),
    (
        Wanted::Misdirected,
        "HTTP/1.1 421 Misdirected Request\r\nContent-Type: text/plain; charset=utf-8\r\nContent-Length: 69\r\n",
        "\r\n\r\nThis board has no such name. Its operator gives names by --web-name.\n",
    ),
    (
        Wanted::NoRequest,
        "HTTP/1.1 400 Bad Request\r\nContent-Type: text/plain; charset=utf-8\r\nContent-Length: 55\r\n",
        "\r\n\r\nThis is no request of HTTP/1.1 with at most 64 fields.\n",
    ),
    (
        Wanted::Busy,
        "HTTP/1.1 503 Service Unavailable\r\nContent-Type: text/plain; charset=utf-8\r\nRetry-After: 60\r\nContent-Length: 58\r\n",
        "\r\n\r\nAll places for browsers are taken. Try again in a minute.\n",
    ),
];

#[test]
fn browsers_are_answered(rt: HostRuntime) {
    let alloc = rt.alloc();
    for (wanted, begins, ends) in &ANSWERS {
        let said = answered(&rt, alloc, got(*wanted), Some(DATE));
        assert!(rt; said.starts_with(begins.as_bytes()));
        assert!(rt; said.ends_with(ends.as_bytes()));
        let alone = answered(&rt, alloc, head(*wanted), Some(DATE));
        assert!(rt; said.starts_with(alone.as_slice()) && alone.ends_with(b"\r\n\r\n"));
        assert!(rt; said.len() == alone.len() + (ends.len() - 4));
    }
    assert!(rt; PAGE.starts_with("<!DOCTYPE html>"));
}

#[test]
fn a_date_stands_where_it_is_known(rt: HostRuntime) {
    let alloc = rt.alloc();
    let undated = answered(&rt, alloc, got(Wanted::Page), None);
    let begins =
        "HTTP/1.1 200 OK\r\nContent-Type: text/html; charset=utf-8\r\nContent-Length: 4\r\nCache-Control: no-store\r\n";
    assert!(rt; undated.starts_with(begins.as_bytes()));
    let events = answered(&rt, alloc, got(Wanted::Events(None)), Some(DATE));
    let begins =
        "HTTP/1.1 200 OK\r\nContent-Type: text/event-stream; charset=utf-8\r\nCache-Control: no-store\r\n";
    assert!(rt; events.starts_with(begins.as_bytes()) && events.ends_with(b"\r\n\r\n"));
    assert!(rt; answered(&rt, alloc, head(Wanted::Events(Some(3))), None) == events);
}

// What a browser is sent of two ticks, behind the head.
fn sent<H: Helpers + Drop>(
    rt: &impl Abort,
    alloc: Global,
    helpers: H,
    last: Option<u64>,
) -> Vec<u8> {
    let mut desk = ticked(rt, alloc, helpers, 10);
    assert!(rt; tick(&mut desk, 9));
    let closing = AtomicBool::new(true);
    let writer = Sink::new(Vec::new(alloc));
    let entries = entries_of(desk.row(), &closing);
    let shown = follow_events(alloc, &entries, last, &mut "".as_bytes(), writer);
    drop(desk);
    let Shown { watch, writer, .. } = shown.ok().expect(rt, "a browser");
    drop(watch);
    writer.into_inner()
}

// The number of the entry that comes next for a browser, and the events that it is sent: the id and the
// data of each.
static LASTS: [(Option<u64>, &[(&str, &str)]); 6] = [
    (None, &[("2", BOARD)]),
    (Some(0), &[("0", NAMED), ("1", FIRST), ("2", SECOND)]),
    (Some(1), &[("1", NAMED_BEHIND_ONE), ("2", SECOND)]),
    (Some(2), &[("2", NAMED_BEHIND_BOTH)]),
    (Some(3), &[("2", BOARD)]),
    (Some(u64::MAX), &[("2", BOARD)]),
];

/// The head of the events, and these.
pub(crate) fn told(rt: &impl Abort, alloc: Global, events: &[(&str, &str)]) -> Vec<u8> {
    let mut wanted = String::new(alloc);
    for (id, data) in events {
        write!(wanted, "id: {id}\ndata: {data}\n").expect(rt, "room for an event");
    }
    let mut text = answered(rt, alloc, got(Wanted::Events(None)), None);
    text.extend_from_slice(wanted.as_bytes())
        .expect(rt, "room for events");
    text
}

#[test]
fn a_browser_goes_on_where_it_was(rt: HostRuntime) {
    let alloc = rt.alloc();
    for (last, events) in &LASTS {
        let bank = Bank::new(alloc).expect(&rt, "a bank");
        assert!(rt; sent(&rt, alloc, bank, *last) == told(&rt, alloc, events));
    }
}
