//! Displays, which are sent the journal while partners are served.
use crate::commands::serve::{Morning, Partner, listening, served_at, talk};
use acdm_board::Desk;
use acdm_displays::{DisplayKind, DisplayListener, Displays, Entries, Shown, follow};
use acdm_keeping::BoardTerm;
use acdm_lines::Sink;
use acdm_milestones::Role;
use acdm_row::Row;
use acdm_step::Command;
use bpf_helpers::{Bank, Helpers};
use std::alloc::Global;
use std::io::Read;
use std::net::{TcpListener, TcpStream};
use std::process::Abort;
use std::sync::atomic::AtomicBool;
use std::sync::{Arc, Wait};
use std::thread;
use std::thread::Threads;
use std::time::Clock as SystemClock;

// What the two partners of `talk` make of the journal.
const JOURNAL: &str =
    "0 1 29000580 NM 0 0 report 7 1 29000760 DLH7 A320 DAIBC EDDM\n1 2 29000580 ATC 202 0 show 8\n";

// Whether this is all that a display is sent.
fn is_sent(stream: TcpStream, wanted: &str) -> bool {
    let mut stream = stream;
    let mut heard = [0u8; 128];
    if wanted.len() > heard.len() {
        return false;
    }
    let heard = &mut heard[..wanted.len()];
    if stream.read_exact(heard).is_err() || &*heard != wanted.as_bytes() {
        return false;
    }
    let mut more = [0u8; 1];
    match stream.read(&mut more) {
        Ok(count) => count == 0,
        Err(_) => false,
    }
}

fn started<Rt: SystemClock + Threads + Wait + Abort + Clone + Drop + Send + 'static>(
    rt: &Rt,
    alloc: Global,
    socket: TcpListener,
    row: &Arc<Row>,
) -> Displays {
    let listener = DisplayListener {
        kind: DisplayKind::Journal,
        socket,
        name: None,
        confirmed: None,
        term: BoardTerm::first(alloc).expect(rt, "a term"),
    };
    Displays::start(rt, alloc, listener, row, None)
        .ok()
        .expect(rt, "displays")
}

// Serves two partners, while displays that a listener accepts are sent the journal.
fn serve_and_show<
    H: Helpers + Drop + Send,
    Rt: SystemClock + Threads + Wait + Abort + Clone + Drop + Send + Sync + 'static,
>(rt: &Rt, alloc: Global, helpers: H, first: Partner, second: Partner, displays: TcpListener) {
    let desk = Desk::new(alloc, helpers, 10).expect(rt, "a desk");
    let displays = started(rt, alloc, displays, desk.row());
    let told = served_at(rt, alloc, desk, first, second);
    displays.close(rt);
    drop(told);
}

#[test]
fn a_display_is_sent_the_journal(rt: HostRuntime) {
    let alloc = rt.alloc();
    let (manager, to_manager) = listening(&rt);
    let (tower, to_tower) = listening(&rt);
    let (displays, to_displays) = listening(&rt);
    let shown = thread::spawn(&rt, move || is_sent(to_displays, JOURNAL))
        .ok()
        .expect(&rt, "a thread");
    let talking = thread::spawn(&rt, move || talk(to_manager, to_tower))
        .ok()
        .expect(&rt, "a thread");
    let manager = (Role::NetworkManager, manager, Morning);
    let tower = (Role::AirTrafficControl, tower, Morning);
    let bank = Bank::new(alloc).expect(&rt, "a bank");
    serve_and_show(&rt, alloc, bank, manager, tower, displays);
    assert!(rt; talking.join(&rt));
    assert!(rt; shown.join(&rt));
}

// A tick of this minute, by session 1.
fn tick<H: Helpers + Drop>(rt: &impl Abort, desk: &mut Desk<H>, moment: u32) {
    assert!(rt; moment >= 1);
    let role = Role::AirportOperator;
    let is_entered = desk.call_for(1, role, moment, Command::Tick).is_ok();
    assert!(rt; is_entered);
}

// The entries of a row that is not kept.
fn entries_of<'a>(row: &'a Arc<Row>, closing: &'a AtomicBool) -> Entries<'a> {
    Entries {
        row,
        reach: None,
        closing,
    }
}

// What is sent of the journal to one who has left.
fn followed<H: Helpers + Drop>(rt: &impl Abort, alloc: Global, desk: &Desk<H>) -> String {
    let closing = AtomicBool::new(false);
    let output = Sink::new(Vec::new(alloc));
    let mut nobody = "".as_bytes();
    let entries = entries_of(desk.row(), &closing);
    let shown = follow(alloc, &entries, &mut nobody, output)
        .ok()
        .expect(rt, "a display");
    let Shown { watch, writer, .. } = shown;
    assert!(rt; watch.len() as u64 == desk.len());
    String::from_utf8(writer.into_inner())
        .ok()
        .expect(rt, "a text")
}

// What is sent of a journal with these ticks to one who has left.
fn sent<H: Helpers + Drop>(rt: &impl Abort, alloc: Global, helpers: H, ticks: &[u32]) -> String {
    let mut desk = Desk::new(alloc, helpers, 10).expect(rt, "a desk");
    for moment in ticks {
        tick(rt, &mut desk, *moment);
    }
    let text = followed(rt, alloc, &desk);
    drop(desk);
    text
}

#[test]
fn who_has_left_was_sent_what_there_was(rt: HostRuntime) {
    let alloc = rt.alloc();
    let bank = Bank::new(alloc).expect(&rt, "a bank");
    let nothing = sent(&rt, alloc, bank, &[]);
    assert!(rt; nothing.as_str() == "");
    let bank = Bank::new(alloc).expect(&rt, "a bank");
    let all = sent(&rt, alloc, bank, &[7, 9, 9]);
    let ticks = "0 1 7 APT 0 0 tick\n1 1 9 APT 0 0 tick\n2 1 9 APT 0 0 tick\n";
    assert!(rt; all.as_str() == ticks);
}
