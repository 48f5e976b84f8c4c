//! Command lines whose files are there, with each stream and each file compared.
use super::completes;
use crate::commands::serve::talk;
use acdm_commands::{Appends, Paths};
use std::alloc::Global;
use std::fs::{self, File, Files};
use std::io::{Eprint, Read, Write};
use std::net::{Net, SocketAddr, TcpListener, TcpStream};
use std::process::Abort;
use std::sync::Wait;
use std::thread::{self, Threads};
use std::time::{Clock, Duration};

const TICK: &str = "1 29000580 APT {\"cmd\":\"tick\"}\n";

// The files are in the folder that tests run in. Each test has one of its own.
const SAVED_BY_RUN: &str = "saved-by-run.txt";

const SAVED_BY_SERVE: &str = "saved-by-serve.txt";

const BROKEN_JOURNAL: &str = "broken-journal.txt";

const KEPT: &str = "kept-by-run.txt";

const PROGRAM: &str = "program.bin";

// A file has this text.
fn has_text<Rt: Files + Alloc + Abort>(rt: &Rt, path: &str, wanted: &str) {
    let text = fs::read_to_string(rt, path).ok().expect(rt, "a saved file");
    assert!(rt; text.as_str() == wanted);
}

// Each number below the count, between these texts.
fn numbered(rt: &impl Abort, alloc: Global, before: &str, count: usize, after: &str) -> String {
    let mut text = String::new(alloc);
    for number in 0..count {
        let line = format!(in alloc; "{before}{number}{after}").expect(rt, "a line");
        text.push_str(line.as_str()).expect(rt, "room for a line");
    }
    text
}

fn ticks(rt: &impl Abort, alloc: Global, count: usize) -> String {
    let mut text = String::new(alloc);
    for _ in 0..count {
        text.push_str(TICK).expect(rt, "room for a tick");
    }
    text
}

// More entries than a small journal has room for, by the usual one.
#[test]
fn a_run_saves_150_entries(rt: HostRuntime) {
    let alloc = rt.alloc();
    let lines = ticks(&rt, alloc, 150);
    let replies = numbered(&rt, alloc, "ok ", 150, "\n");
    let words = ["acdm", "run", "--save", SAVED_BY_RUN];
    completes(
        &rt,
        alloc,
        &words,
        lines.as_str(),
        (0, replies.as_str(), ""),
    );
    let journal = numbered(&rt, alloc, "", 150, " 1 29000580 APT 0 0 tick\n");
    has_text(&rt, SAVED_BY_RUN, journal.as_str());
    let words = ["acdm", "audit", SAVED_BY_RUN];
    completes(&rt, alloc, &words, "", (0, "legal 150\n", ""));
    assert!(rt; fs::remove_file(&rt, SAVED_BY_RUN).is_ok());
}

#[test]
fn a_run_goes_on_from_what_was_kept(rt: HostRuntime) {
    let alloc = rt.alloc();
    let words = ["acdm", "run", "--keep", KEPT];
    completes(&rt, alloc, &words, TICK, (0, "ok 0\n", ""));
    completes(&rt, alloc, &words, TICK, (0, "ok 1\n", ""));
    let journal = numbered(&rt, alloc, "", 2, " 1 29000580 APT 0 0 tick\n");
    has_text(&rt, KEPT, journal.as_str());
    assert!(rt; fs::remove_file(&rt, KEPT).is_ok());
}

#[test]
fn a_kept_journal_that_is_none_is_told(rt: HostRuntime) {
    let alloc = rt.alloc();
    let kept = "none-by-run.txt";
    assert!(rt; fs::write(&rt, kept, "1 1 29000580 APT 0 0 tick\n").is_ok());
    let words = ["acdm", "run", "--keep", kept];
    completes(&rt, alloc, &words, TICK, (1, "entry 0 402\n", ""));
    has_text(&rt, kept, "1 1 29000580 APT 0 0 tick\n");
    assert!(rt; fs::remove_file(&rt, kept).is_ok());
}

#[test]
fn a_journal_that_is_none_is_told(rt: HostRuntime) {
    let alloc = rt.alloc();
    let text = "0 1 29000580 APT 0 0 tick\n2 1 29000580 APT 0 0 tick\n";
    assert!(rt; fs::write(&rt, BROKEN_JOURNAL, text).is_ok());
    let words = ["acdm", "audit", BROKEN_JOURNAL];
    completes(&rt, alloc, &words, "", (1, "entry 1 402\n", ""));
    assert!(rt; fs::remove_file(&rt, BROKEN_JOURNAL).is_ok());
    completes(&rt, alloc, &words, "", (2, "", "acdm: read failed\n"));
}

#[test]
fn a_program_in_a_file_is_judged(rt: HostRuntime) {
    let alloc = rt.alloc();
    let bytes = [0xb7, 0, 0, 0, 0, 0, 0, 0, 0x95, 0, 0, 0, 0, 0, 0, 0];
    assert!(rt; fs::write(&rt, PROGRAM, bytes.as_slice()).is_ok());
    let words = ["acdm", "verify", PROGRAM];
    let listing = "0: mov64 r0, 0\n1: exit\naccepted 2\n";
    completes(&rt, alloc, &words, "", (0, listing, ""));
    let words = ["acdm", "explain", PROGRAM];
    let text = r#"0: mov64 r0, 0
    r1 = record+0, r2 = 128, r3 = 0 to 4294967295, r4 = 1 to 16, r10 = stack+0
1: exit
    r0 = 0, r1 = record+0, r2 = 128, r3 = 0 to 4294967295, r4 = 1 to 16, r10 = stack+0
accepted 2
"#;
    completes(&rt, alloc, &words, "", (0, text, ""));
    assert!(rt; fs::remove_file(&rt, PROGRAM).is_ok());
}

// A file of a journal can't be made in a folder that is not there, and nothing is answered then.
#[test]
fn a_file_that_can_not_be_made_is_told(rt: HostRuntime) {
    let words = ["acdm", "run", "--save", "no-such-folder/no-such-file"];
    let told = (2, "", "acdm: save failed\n");
    completes(&rt, rt.alloc(), &words, TICK, told);
}

// A port of this machine that was free just now.
fn free_port<Rt: Net<Listener = TcpListener, Stream = TcpStream> + Abort>(rt: &Rt) -> SocketAddr {
    let listener = TcpListener::bind(rt, "127.0.0.1:0")
        .ok()
        .expect(rt, "a port");
    listener.local_addr().ok().expect(rt, "an address")
}

// A connection to an address as soon as somebody listens there, for ten seconds at most.
fn connected<Rt: Net<Listener = TcpListener, Stream = TcpStream> + Clock>(
    rt: &Rt,
    address: SocketAddr,
) -> Option<TcpStream> {
    for _ in 0..2_000 {
        if let Ok(stream) = TcpStream::connect(rt, address) {
            return Some(stream);
        }
        thread::sleep(rt, Duration::from_millis(5));
    }
    None
}

// Two partners connect, and talk.
fn partners_talk<Rt: Net<Listener = TcpListener, Stream = TcpStream> + Clock>(
    rt: &Rt,
    first: SocketAddr,
    second: SocketAddr,
) -> bool {
    match (connected(rt, first), connected(rt, second)) {
        (Some(manager), Some(tower)) => talk(manager, tower),
        _ => false,
    }
}

// What is told of two partners at these addresses.
fn told(rt: &impl Abort, alloc: Global, first: SocketAddr, second: SocketAddr) -> String {
    format!(in alloc;
        "listen 1 NM {first}\nlisten 2 ATC {second}\nsession 1 1 end\nsession 2 1 end\nclosed 2\n"
    ).expect(rt, "a text")
}

// The saved journal has the entries of both, with their roles, and is legal.
fn is_saved<
    Rt: Files<File = File>
        + Paths
        + Appends
        + Alloc
        + Net<Listener = TcpListener, Stream = TcpStream>
        + Clock
        + Eprint
        + Threads
        + Wait
        + Abort
        + Clone
        + Drop
        + Send
        + Sync
        + 'static,
>(rt: &Rt, alloc: Global) {
    let text = fs::read_to_string(rt, SAVED_BY_SERVE)
        .ok()
        .expect(rt, "a saved file");
    let plan = " NM 0 0 report 7 1 29000760 DLH7 A320 DAIBC EDDM\n1 2 ";
    assert!(rt; text.starts_with("0 1 ") && text.contains(plan));
    assert!(rt; text.ends_with(" ATC 202 0 show 8\n"));
    let words = ["acdm", "audit", SAVED_BY_SERVE];
    completes(rt, alloc, &words, "", (0, "legal 2\n", ""));
}

#[test]
fn partners_of_the_words_are_served_and_saved(rt: HostRuntime) {
    let alloc = rt.alloc();
    let first = free_port(&rt);
    let second = free_port(&rt);
    let manager = format!(in alloc; "NM={first}").expect(&rt, "a word");
    let tower = format!(in alloc; "ATC={second}").expect(&rt, "a word");
    let there = rt.clone().expect(&rt, "a clone");
    let talking = thread::spawn(&rt, move || partners_talk(&there, first, second))
        .ok()
        .expect(&rt, "a thread");
    let words = [
        "acdm",
        "serve",
        "--save",
        SAVED_BY_SERVE,
        manager.as_str(),
        tower.as_str(),
    ];
    let all = told(&rt, alloc, first, second);
    completes(&rt, alloc, &words, "", (0, all.as_str(), ""));
    assert!(rt; talking.join(&rt));
    is_saved(&rt, alloc);
    assert!(rt; fs::remove_file(&rt, SAVED_BY_SERVE).is_ok());
}
