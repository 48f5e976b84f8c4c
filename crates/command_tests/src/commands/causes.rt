//! Why what a word of the command line names could not be used, as it is told behind the failure.
use crate::commands::Broken;
use acdm_commands::{Appends, Cause, Context, Noting, Paths, complete};
use acdm_sessions::{Sink, Source};
use std::alloc::Global;
use std::fs::{File, Files};
use std::io::{self, Eprint, Read, Write};
use std::net::{Net, TcpListener, TcpStream};
use std::process::Abort;
use std::sync::Wait;
use std::thread::Threads;
use std::time::Clock;

// What is told of the cause that was noted.
fn told(rt: &impl Abort, alloc: Global, why: &Cause) -> Vec<u8> {
    let mut errors = Sink::new(Vec::new(alloc));
    let is_told = why.tell(&mut errors);
    let text = errors.into_inner();
    assert!(rt; is_told != text.is_empty());
    text
}

// Errors of the system's by their numbers (Linux: ENOENT, ENOSPC) have its texts.
#[test]
fn the_first_cause_is_told(rt: HostRuntime) {
    let alloc = rt.alloc();
    let why = Cause::new();
    assert!(rt; told(&rt, alloc, &why).is_empty());
    why.note(alloc, "--keep ", "day", &io::Error::from_raw_os_error(28));
    why.note(alloc, "--save ", "text", &io::Error::from_raw_os_error(2));
    let line = b"acdm: --keep day: No space left on device (os error 28)\n";
    assert!(rt; told(&rt, alloc, &why).as_slice() == line.as_slice());
}

// A stream that fails is named, whatever was asked of it.
fn names_a_stream(rt: &impl Abort, alloc: Global, is_read: bool) {
    let why = Cause::new();
    let mut stream = Noting::new(alloc, Broken, "standard output", "", &why);
    let has_failed = if is_read {
        stream.read(&mut [0; 4]).is_err()
    } else {
        stream.write(b"a line").is_err()
    };
    assert!(rt; has_failed);
    drop(stream);
    let line = b"acdm: standard output: broken pipe\n";
    assert!(rt; told(rt, alloc, &why).as_slice() == line.as_slice());
}

#[test]
fn a_stream_that_fails_is_named(rt: HostRuntime) {
    let alloc = rt.alloc();
    names_a_stream(&rt, alloc, true);
    names_a_stream(&rt, alloc, false);
    let why = Cause::new();
    let mut stream = Noting::new(alloc, Vec::new(alloc), "standard output", "", &why);
    assert!(rt; stream.write(b"a line").is_ok() && stream.flush().is_ok());
    drop(stream);
    assert!(rt; told(&rt, alloc, &why).is_empty());
}

// The command line fails with status 2, and this is told behind its line.
fn fails_by<
    Rt: Files<File = File>
        + Paths
        + Appends
        + Net<Listener = TcpListener, Stream = TcpStream>
        + Clock
        + Eprint
        + Threads
        + Wait
        + Abort
        + Clone
        + Drop
        + Send
        + Sync
        + 'static,
>(rt: &Rt, alloc: Global, words: &[&str], line: &str) {
    let why = Cause::new();
    let mut input = Source::new(b"".as_slice());
    let mut output = Sink::new(Vec::new(alloc));
    let mut errors = Sink::new(Vec::new(alloc));
    let context = Context { rt, alloc, why };
    let status = complete(&context, words, &mut input, &mut output, &mut errors);
    assert!(rt; status == 2, "{line}");
    assert!(rt;
        told(rt, alloc, &context.why).as_slice() == line.as_bytes(),
        "{line}"
    );
}

#[test]
fn a_word_that_can_not_be_used_is_named(rt: HostRuntime) {
    let alloc = rt.alloc();
    let missing = "No such file or directory (os error 2)";
    for command in ["audit", "tell"] {
        let line = format!(in alloc; "acdm: no-folder/day: {missing}\n").expect(&rt, "a line");
        fails_by(
            &rt,
            alloc,
            &["acdm", command, "no-folder/day"],
            line.as_str(),
        );
    }
    for option in ["--keep", "--save"] {
        let line = format!(in alloc; "acdm: {option} no-folder/day: {missing}\n");
        let line = line.expect(&rt, "a line");
        fails_by(
            &rt,
            alloc,
            &["acdm", "run", option, "no-folder/day"],
            line.as_str(),
        );
    }
    let words = ["acdm", "serve", "--watch", "here", "APT=127.0.0.1:0"];
    let line = "acdm: --watch here: no IP address with a port\n";
    fails_by(&rt, alloc, &words, line);
    let words = ["acdm", "serve", "--changes", "here", "APT=127.0.0.1:0"];
    let line = "acdm: --changes here: no IP address with a port\n";
    fails_by(&rt, alloc, &words, line);
    let words = ["acdm", "serve", "--web", "here", "APT=127.0.0.1:0"];
    let line = "acdm: --web here: no IP address with a port\n";
    fails_by(&rt, alloc, &words, line);
    let words = ["acdm", "serve", "--control", "here", "APT=127.0.0.1:0"];
    let line = "acdm: --control here: neither an IP address with a port nor a port\n";
    fails_by(&rt, alloc, &words, line);
    let words = ["acdm", "serve", "--log", "here/log", "APT=127.0.0.1:0"];
    let line = "acdm: --log here/log: No such file or directory (os error 2)\n";
    fails_by(&rt, alloc, &words, line);
    let words = ["acdm", "serve", "--log", "/dev/full", "APT=127.0.0.1:0"];
    let line = "acdm: --log /dev/full: no plain file\n";
    fails_by(&rt, alloc, &words, line);
    let words = ["acdm", "serve", "APT=127.0.0.1:0", "GH=here"];
    fails_by(
        &rt,
        alloc,
        &words,
        "acdm: GH=here: no IP address with a port\n",
    );
    let words = ["acdm", "serve", "XX=127.0.0.1:0"];
    let line = "acdm: XX=127.0.0.1:0: no role before =: NM, ATC, APT, AO, GH or DIC\n";
    fails_by(&rt, alloc, &words, line);
}
