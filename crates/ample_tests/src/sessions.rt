//! A session that sends the longest lines and programs.
use crate::texts::{EXIT, ZERO, push, push_times};
use acdm_board::Desk;
use acdm_milestones::Role;
use acdm_sessions::{Clock, Closed, EndedSession, Gate, Session, Sink, Source, run_sessions};
use bpf_helpers::{Bank, Helpers};
use std::alloc::Global;
use std::io::Cursor;
use std::process::Abort;
use std::sync::Wait;
use std::thread::Threads;

/// Tells 2025-02-20T09:00Z, always.
#[derive(Drop)]
struct Nine;

impl Clock for Nine {
    ghost use Rattle.std.specs.Prelude.{true};

    ghost gives = { λ _ _. true };

    fn minute(&mut self) -> Option<u32> {
        Some(29_000_700)
    }
}

/// Holds nobody up.
#[derive(Drop)]
struct Open;

impl Gate for Open {
    fn enter(&self, _session: u8, _call: u64) {}

    fn answered(&self, _session: u8, _call: u64) {}
}

type Left = EndedSession<Cursor<Vec<u8>>, Vec<u8>, Nine>;

// A tick with spaces behind it, so many bytes in all.
fn push_tick(rt: &impl Abort, text: &mut Vec<u8>, length: usize) {
    push(rt, text, "{\"cmd\":\"tick\"}");
    push_times(rt, text, " ", length.saturating_sub(14));
    push(rt, text, "\n");
}

// A load of slots that set r0 to 0, and of one more.
fn push_load(rt: &impl Abort, text: &mut Vec<u8>, slots: usize, last: &str) {
    push(
        rt,
        text,
        "{\"cmd\":\"load\",\"milestone\":7,\"kind\":\"tobt\",\"program\":\"",
    );
    push_times(rt, text, ZERO, slots);
    push(rt, text, last);
    push(rt, text, "\"}\n");
}

fn longest_lines(rt: &impl Abort, alloc: Global) -> Vec<u8> {
    let mut text = Vec::new(alloc);
    push_tick(rt, &mut text, 70_000);
    push_tick(rt, &mut text, 70_001);
    push_load(rt, &mut text, 4_095, EXIT);
    push_load(rt, &mut text, 4_096, EXIT);
    push_load(rt, &mut text, 4_095, "ffffffffffffffff");
    push_load(rt, &mut text, 4_096, "");
    push_tick(rt, &mut text, 14);
    text
}

const REPLIES: &str = "ok 0\nbad 105\nok 1\nbad 302 0\nbad 303 4095\nbad 307 4095\nok 2\n";

fn is_told(rt: &impl Abort, alloc: Global, left: Left) {
    let EndedSession {
        writer,
        calls,
        end,
        ..
    } = left;
    let replies = String::from_utf8(writer.into_inner())
        .ok()
        .expect(rt, "replies");
    let told = format!(in alloc; "{calls} {end:?}").expect(rt, "a text");
    assert!(rt; told.as_str() == "3 End");
    assert!(rt; replies.as_str() == REPLIES);
}

fn closed_by<H: Helpers + Drop + Send, Rt: Threads + Wait + Abort + Sync>(
    rt: &Rt,
    alloc: Global,
    helpers: H,
) -> Closed<H, Cursor<Vec<u8>>, Vec<u8>, Nine> {
    let session = Session {
        role: Role::AirportOperator,
        reader: Source::new(Cursor::new(longest_lines(rt, alloc))),
        writer: Sink::new(Vec::new(alloc)),
        clock: Nine,
    };
    let mut sessions = Vec::new(alloc);
    let is_pushed = sessions.push(session).is_ok();
    assert!(rt; is_pushed && sessions.len() <= 64);
    let desk = Desk::new(alloc, helpers, 10).expect(rt, "a desk");
    run_sessions(rt, alloc, desk, sessions, &Open)
        .ok()
        .expect(rt, "memory for the session")
}

fn serves<H: Helpers + Drop + Send, Rt: Threads + Wait + Abort + Sync>(
    rt: &Rt,
    alloc: Global,
    helpers: H,
) {
    let mut closed = closed_by(rt, alloc, helpers);
    let left = closed.sessions.pop().expect(rt, "a session");
    is_told(rt, alloc, left);
    drop(closed);
}

#[test]
fn a_session_sends_the_longest_lines(rt: HostRuntime) {
    let alloc = rt.alloc();
    serves(&rt, alloc, Bank::new(alloc).expect(&rt, "a bank"));
}
