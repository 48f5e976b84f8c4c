//! The program `acdm`: the shared board of an A-CDM airport.
#![tactic(auto)]

mod resumed;
mod spared;
mod streams;
mod words;

use acdm_commands::{
    Appends, Cause, Context, Failure, Noting, Paths, WordsGiven, complete, is_error_file,
    words_given,
};
use acdm_lines::{Sink, Source};
use resumed::Resumed;
use spared::Spared;
use std::alloc::Global;
use std::env::Env;
use std::fs::{File, Files};
use std::io::{BufWriter, Eprint, Read, Write};
use std::net::{Net, TcpListener, TcpStream};
use std::process::ExitCode;
use std::sync::Wait;
use std::thread::Threads;
use std::time::Clock;

// How many bytes of replies are written at once at most: a reply of no more goes in one write.
const BUFFER: usize = 65_536;

fn main(rt: HostRuntime) -> ExitCode {
    let (input, output, errors) = (rt.stdin(), rt.stdout(), rt.stderr());
    ExitCode::from(status(&rt, rt.alloc(), input, output, errors))
}

// Does what the program was started for, over these streams. (It stands apart from `main`, whose proof
// spells out the types of all that it names.)
fn status<
    Rt: Files<File = File>
        + Paths
        + Appends
        + Net<Listener = TcpListener, Stream = TcpStream>
        + Env
        + AllocGlobal
        + Clock
        + Eprint
        + Threads
        + Wait
        + Clone
        + Drop
        + Send
        + Sync
        + 'static,
    R: Read + Drop,
    W: Write + Drop,
    E: Write + Drop,
>(rt: &Rt, alloc: Global, input: R, output: W, errors: E) -> u8 {
    let mut errors = Sink::new(Resumed::new(errors));
    let Ok(_fillers) = streams::fill(rt) else {
        return Failure::Stream.complain(&mut errors);
    };
    let words = match words::given(rt) {
        Ok(words) => words,
        Err(failure) => return failure.complain(&mut errors),
    };
    let Ok(given) = words::texts(alloc, &words) else {
        return Failure::Memory.complain(&mut errors);
    };
    // (what a file of settings is refused for may become a part of a journal as well)
    let is_spared = given.iter().skip(1).any(|word| is_error_file(rt, word));
    let mut errors = Sink::new(Spared::new(errors, is_spared));
    let settled = words_given(rt, alloc, given.as_slice(), &mut errors);
    drop(given);
    let whole = match settled {
        WordsGiven::AsTheyAre => words,
        WordsGiven::Words(whole) => whole,
        WordsGiven::Refused => return 2,
    };
    let Ok(words) = words::texts(alloc, &whole) else {
        return Failure::Memory.complain(&mut errors);
    };
    // What a word names is told before a stream, whose failure alone need not end the command.
    let why = Cause::new();
    let streams = Cause::new();
    let output = Noting::new(alloc, Resumed::new(output), "standard output", "", &streams);
    let output = Sink::new(output);
    let Ok(output) = BufWriter::with_capacity(alloc, BUFFER, output) else {
        return Failure::Memory.complain(&mut errors);
    };
    let is_spared = words.iter().skip(1).any(|word| is_error_file(rt, word));
    let mut errors = Sink::new(Spared::new(errors, is_spared));
    let input = Noting::new(alloc, Resumed::new(input), "standard input", "", &streams);
    let mut input = Source::new(input);
    let mut output = Sink::new(output);
    let context = Context { rt, alloc, why };
    let words = words.as_slice();
    let status = complete(&context, words, &mut input, &mut output, &mut errors);
    if status == 2 && !context.why.tell(&mut errors) {
        let _ = streams.tell(&mut errors);
    }
    status
}
