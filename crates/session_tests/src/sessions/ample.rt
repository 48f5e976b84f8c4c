//! Streams with ample memory, at the limits of the board: no reply says that memory was refused.
//!
//! Minute 29000580 is 2025-02-20T07:00Z.
use crate::sessions::are_answered;
use std::alloc::Global;
use std::process::Abort;

// The text of a stream, as it is put together.
fn push(rt: &impl Abort, text: &mut String, part: &str) {
    text.push_str(part).expect(rt, "room for a part");
}

// Adds a line: a session and role before the minute and JSON.
fn push_line(
    rt: &impl Abort,
    alloc: Global,
    text: &mut String,
    session: u64,
    role: &str,
    json: &str,
) {
    let line = format!(in alloc; "{session} 29000580 {role} {json}\n").expect(rt, "a line");
    push(rt, text, line.as_str());
}

// Adds the replies to accepted lines: `ok N` for each number from the first to before the end.
fn push_accepted(rt: &impl Abort, alloc: Global, text: &mut String, first: u64, end: u64) {
    for number in first..end {
        let line = format!(in alloc; "ok {number}\n").expect(rt, "a reply");
        push(rt, text, line.as_str());
    }
}

fn push_ticks(rt: &impl Abort, alloc: Global, text: &mut String) {
    for session in 1..65 {
        push_line(rt, alloc, text, session, "APT", "{\"cmd\":\"tick\"}");
    }
}

// A program whose answer is 0, into a slot.
fn push_load(rt: &impl Abort, alloc: Global, text: &mut String, milestone: u64, kind: &str) {
    let json = format!(in alloc;
        "{{\"cmd\":\"load\",\"milestone\":{milestone},\"kind\":\"{kind}\",\"program\":\"b7000000000000009500000000000000\"}}"
    ).expect(rt, "a load");
    push_line(rt, alloc, text, 1, "APT", json.as_str());
}

// Such a program into each slot.
fn push_loads(rt: &impl Abort, alloc: Global, text: &mut String) {
    for milestone in 1..17 {
        push_load(rt, alloc, text, milestone, "tobt");
        push_load(rt, alloc, text, milestone, "alert");
    }
}

// Text that no quote ends.
fn push_long_fault(rt: &impl Abort, text: &mut String) {
    push(rt, text, "1 29000580 APT \"");
    for _ in 0..300 {
        push(rt, text, "DLH7");
    }
    push(rt, text, "\n");
}

// A program of 4,096 slots: the last of them can't go on to a next one.
fn push_late_fault(rt: &impl Abort, text: &mut String) {
    push(
        rt,
        text,
        "1 29000580 APT {\"cmd\":\"load\",\"milestone\":7,\"kind\":\"tobt\",\"program\":\"",
    );
    for _ in 0..4096 {
        push(rt, text, "b700000000000000");
    }
    push(rt, text, "\"}\n");
}

// A flight plan of each flight from 1 to 4,097.
fn push_flights(rt: &impl Abort, alloc: Global, text: &mut String) {
    for flight in 1..4098 {
        let json = format!(in alloc;
            "{{\"cmd\":\"report\",\"flight\":{flight},\"milestone\":1,\"time\":\"2025-02-20T10:00:00Z\",\"callsign\":\"DLH7\",\"type\":\"A320\",\"reg\":\"DAIBC\",\"dest\":\"EDDM\"}}"
        ).expect(rt, "a report");
        push_line(rt, alloc, text, 2, "NM", json.as_str());
    }
}

fn lines_at_the_limits(rt: &impl Abort, alloc: Global) -> String {
    let mut text = String::new(alloc);
    push_line(rt, alloc, &mut text, 1, "APT", "{\"cmd\":\"alerts\"}");
    push_ticks(rt, alloc, &mut text);
    push_loads(rt, alloc, &mut text);
    push_long_fault(rt, &mut text);
    push_late_fault(rt, &mut text);
    push_flights(rt, alloc, &mut text);
    text
}

fn replies_at_the_limits(rt: &impl Abort, alloc: Global) -> String {
    let mut text = String::new(alloc);
    push(rt, &mut text, "alerts 0 -\n");
    push_accepted(rt, alloc, &mut text, 1, 97);
    push(rt, &mut text, "bad 101\nbad 307 4095\n");
    push_accepted(rt, alloc, &mut text, 97, 4193);
    push(rt, &mut text, "no 4193 503\n");
    text
}

#[test]
fn memory_is_there_at_the_limits(rt: HostRuntime) {
    let lines = lines_at_the_limits(&rt, rt.alloc());
    let replies = replies_at_the_limits(&rt, rt.alloc());
    let parts = [lines.as_str()];
    are_answered(
        &rt,
        rt.alloc(),
        "the limits",
        &parts,
        5000,
        replies.as_str(),
    );
}
