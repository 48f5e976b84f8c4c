//! Displays over connections of this machine with itself.
use crate::feeding::{NAMED, NAMED_BEHIND_ONE};
use crate::following::{TICKS, tick, ticked};
use acdm_displays::{DisplayKind, DisplayListener, Displays};
use acdm_keeping::BoardTerm;
use bpf_helpers::{Bank, Helpers};
use std::alloc::Global;
use std::io::{Read, Write};
use std::net::{Net, Shutdown, SocketAddr, TcpListener, TcpStream};
use std::process::Abort;
use std::sync::atomic::{AtomicBool, Ordering};
use std::sync::{Arc, Wait};
use std::thread;
use std::thread::Threads;
use std::time::{Clock as SystemClock, Duration};

// How many displays are served at once.
const PLACES: usize = 64;

// For how many pauses a place is waited for: 10 seconds.
const PATIENCE: u64 = 400;

// Displays of the journal that connect at this socket.
fn journals_at(socket: TcpListener, term: BoardTerm) -> DisplayListener<'static> {
    DisplayListener {
        kind: DisplayKind::Journal,
        socket,
        name: None,
        confirmed: None,
        term,
    }
}

// Displays of the journal of a desk with two ticks, and where they connect.
fn shown<
    H: Helpers + Drop,
    Rt: Net<Listener = TcpListener, Stream = TcpStream>
        + Wait
        + SystemClock
        + Threads
        + Abort
        + Clone
        + Drop
        + Send
        + 'static,
>(rt: &Rt, alloc: Global, helpers: H) -> (Displays, SocketAddr) {
    let mut desk = ticked(rt, alloc, helpers, 10);
    assert!(rt; tick(&mut desk, 9));
    let socket = TcpListener::bind(rt, "127.0.0.1:0")
        .ok()
        .expect(rt, "a port");
    let address = socket.local_addr().ok().expect(rt, "an address");
    let term = BoardTerm::first(alloc).expect(rt, "a term");
    let listener = journals_at(socket, term);
    let displays = Displays::start(rt, alloc, listener, desk.row(), None)
        .ok()
        .expect(rt, "displays");
    drop(desk);
    (displays, address)
}

fn connected<Rt: Net<Listener = TcpListener, Stream = TcpStream> + Abort>(
    rt: &Rt,
    address: SocketAddr,
) -> TcpStream {
    TcpStream::connect(rt, address)
        .ok()
        .expect(rt, "a connection")
}

// Whether a display is sent this next.
fn is_sent(stream: &mut TcpStream, wanted: &str) -> bool {
    let mut heard = [0u8; 128];
    if wanted.len() > heard.len() {
        return false;
    }
    let heard = &mut heard[..wanted.len()];
    stream.read_exact(heard).is_ok() && &*heard == wanted.as_bytes()
}

// Whether a display is sent two ticks first.
fn is_served(stream: &mut TcpStream) -> bool {
    is_sent(stream, TICKS)
}

// Whether a display that asks for the first entry is sent the line of the journal and two ticks.
fn is_served_by_name(stream: &mut TcpStream) -> bool {
    is_sent(stream, NAMED) && is_served(stream)
}

// Whether a display is sent nothing more.
fn has_ended(stream: &mut TcpStream) -> bool {
    let mut heard = [0u8; 1];
    match stream.read(&mut heard) {
        Ok(count) => count == 0,
        Err(_) => false,
    }
}

fn pause(rt: &impl SystemClock, millis: u64) {
    thread::sleep(rt, Duration::from_millis(millis));
}

// An address of this machine where nobody listened just now.
fn free_address<Rt: Net<Listener = TcpListener, Stream = TcpStream> + Abort>(
    rt: &Rt,
) -> SocketAddr {
    let listener = TcpListener::bind(rt, "127.0.0.1:0")
        .ok()
        .expect(rt, "a port");
    listener.local_addr().ok().expect(rt, "an address")
}

// Displays of the journal of a desk with two ticks, at an address.
fn opened<
    H: Helpers + Drop,
    Rt: Net<Listener = TcpListener, Stream = TcpStream>
        + Wait
        + SystemClock
        + Threads
        + Abort
        + Clone
        + Drop
        + Send
        + 'static,
>(rt: &Rt, alloc: Global, helpers: H, address: &str) -> Option<Displays> {
    let mut desk = ticked(rt, alloc, helpers, 10);
    assert!(rt; tick(&mut desk, 9));
    let term = BoardTerm::first(alloc).ok()?;
    let listener = journals_at(TcpListener::bind(rt, address).ok()?, term);
    let displays = Displays::start(rt, alloc, listener, desk.row(), None).ok();
    drop(desk);
    displays
}

#[test]
fn displays_connect_at_the_address_that_was_given(rt: HostRuntime) {
    let alloc = rt.alloc();
    let address = free_address(&rt);
    let word = format!(in alloc; "{address}").expect(&rt, "a word");
    let bank = Bank::new(alloc).expect(&rt, "a bank");
    let displays = opened(&rt, alloc, bank, word.as_str()).expect(&rt, "displays");
    let mut stream = connected(&rt, address);
    let display = thread::spawn(
        &rt,
        move || is_served(&mut stream) && has_ended(&mut stream),
    )
    .ok()
    .expect(&rt, "a thread");
    displays.close(&rt);
    assert!(rt; display.join(&rt));
}

#[test]
fn who_connects_just_before_the_end_is_sent_all(rt: HostRuntime) {
    let alloc = rt.alloc();
    let bank = Bank::new(alloc).expect(&rt, "a bank");
    let (displays, address) = shown(&rt, alloc, bank);
    pause(&rt, 5);
    let mut stream = connected(&rt, address);
    let display = thread::spawn(
        &rt,
        move || is_served(&mut stream) && has_ended(&mut stream),
    )
    .ok()
    .expect(&rt, "a thread");
    displays.close(&rt);
    assert!(rt; display.join(&rt));
}

// What a display has sent that is not read would cut it off, if its connection were just closed.
#[test]
fn who_talks_is_sent_all(rt: HostRuntime) {
    let alloc = rt.alloc();
    let bank = Bank::new(alloc).expect(&rt, "a bank");
    let (displays, address) = shown(&rt, alloc, bank);
    pause(&rt, 5);
    let mut stream = connected(&rt, address);
    assert!(rt; stream.write_all(b"from 0\n").is_ok());
    assert!(rt; stream.write_all(&[b'x'; 4_096]).is_ok());
    let display = thread::spawn(
        &rt,
        move || is_served_by_name(&mut stream) && has_ended(&mut stream),
    )
    .ok()
    .expect(&rt, "a thread");
    displays.close(&rt);
    assert!(rt; display.join(&rt));
}

// What is behind the first entry is sent to one who asks so, and all to one who is silent beside it or has ended.
#[test]
fn each_is_sent_what_it_asked_for(rt: HostRuntime) {
    let alloc = rt.alloc();
    let bank = Bank::new(alloc).expect(&rt, "a bank");
    let (displays, address) = shown(&rt, alloc, bank);
    let mut silent = connected(&rt, address);
    let mut resuming = connected(&rt, address);
    let mut gone = connected(&rt, address);
    assert!(rt; resuming.write_all(b"from 1\n").is_ok());
    assert!(rt; gone.shutdown(Shutdown::Write).is_ok());
    assert!(rt; is_sent(&mut resuming, NAMED_BEHIND_ONE));
    assert!(rt; is_sent(&mut resuming, &TICKS[19..]));
    assert!(rt; is_served(&mut silent));
    assert!(rt; is_served(&mut gone));
    assert!(rt; has_ended(&mut gone));
    displays.close(&rt);
    assert!(rt; has_ended(&mut silent));
    assert!(rt; has_ended(&mut resuming));
}

// The board's term is sent to who asks for it first, and then what that one asks for next; alone it asks for nothing.
#[test]
fn the_term_is_sent_first(rt: HostRuntime) {
    let alloc = rt.alloc();
    let bank = Bank::new(alloc).expect(&rt, "a bank");
    let (displays, address) = shown(&rt, alloc, bank);
    let mut resuming = connected(&rt, address);
    let mut asking = connected(&rt, address);
    let mut again = connected(&rt, address);
    assert!(rt; resuming.write_all(b"term\nfrom 1\n").is_ok());
    assert!(rt; asking.write_all(b"term\n").is_ok());
    assert!(rt; again.write_all(b"term\nterm\n").is_ok());
    assert!(rt; is_sent(&mut resuming, "term 1\n"));
    assert!(rt; is_sent(&mut resuming, NAMED_BEHIND_ONE));
    assert!(rt; is_sent(&mut resuming, &TICKS[19..]));
    assert!(rt; is_sent(&mut asking, "term 1\n"));
    assert!(rt; is_let_go(&mut asking));
    assert!(rt; is_sent(&mut again, "term 1\n"));
    assert!(rt; is_let_go(&mut again));
    displays.close(&rt);
    assert!(rt; has_ended(&mut resuming));
}

// What is sent first by displays that are disconnected.
static STRANGERS: [&[u8]; 8] = [
    b"board\n",
    b"GET / HTTP/1.1\r\nHost: localhost\r\n\r\n",
    b"from\n",
    b"from 01\n",
    b"from 18446744073709551616\n",
    b"from 1\r\n",
    b"from 1",
    &[b'x'; 4_096],
];

// Whether a display is sent nothing.
fn is_let_go(stream: &mut TcpStream) -> bool {
    let mut heard = [0u8; 1];
    match stream.read(&mut heard) {
        Ok(count) => count == 0,
        Err(_) => true,
    }
}

#[test]
fn who_asks_for_nothing_is_let_go(rt: HostRuntime) {
    let alloc = rt.alloc();
    let bank = Bank::new(alloc).expect(&rt, "a bank");
    let (displays, address) = shown(&rt, alloc, bank);
    for first in &STRANGERS {
        let mut stream = connected(&rt, address);
        assert!(rt; stream.write_all(*first).is_ok());
        assert!(rt; is_let_go(&mut stream));
    }
    displays.close(&rt);
}

// Whether a display was sent all. It stays a while then, and says when it leaves.
fn leaves_late(rt: &impl SystemClock, mut stream: TcpStream, leaves: &AtomicBool) -> bool {
    let is_sent = is_served(&mut stream) && has_ended(&mut stream);
    pause(rt, 200);
    leaves.store(true, Ordering::SeqCst);
    is_sent
}

#[test]
fn displays_are_waited_for(rt: HostRuntime) {
    let alloc = rt.alloc();
    let bank = Bank::new(alloc).expect(&rt, "a bank");
    let (displays, address) = shown(&rt, alloc, bank);
    let leaves = Arc::new(alloc, AtomicBool::new(false)).expect(&rt, "a word");
    let theirs = Arc::try_clone(&leaves).expect(&rt, "a word");
    let stream = connected(&rt, address);
    let clock = rt.clone().expect(&rt, "a clock");
    let display = thread::spawn(&rt, move || leaves_late(&clock, stream, &theirs))
        .ok()
        .expect(&rt, "a thread");
    displays.close(&rt);
    assert!(rt; leaves.load(Ordering::SeqCst));
    assert!(rt; display.join(&rt));
}

// Connects so many displays, and sees that each is served. (Each is silent for a quarter of a second, all at once.)
fn fill<Rt: Net<Listener = TcpListener, Stream = TcpStream> + Abort>(
    rt: &Rt,
    alloc: Global,
    address: SocketAddr,
) -> Vec<TcpStream> {
    let mut streams = Vec::new(alloc);
    for _ in 0..PLACES {
        streams.push(connected(rt, address)).expect(rt, "room");
    }
    for stream in streams.iter_mut() {
        assert!(rt; is_served(stream));
    }
    streams
}

// Whether a display is served within the time that it is waited for.
fn is_served_soon<Rt: Net<Listener = TcpListener, Stream = TcpStream> + SystemClock + Abort>(
    rt: &Rt,
    address: SocketAddr,
) -> bool {
    for _ in 0..PATIENCE {
        if is_served(&mut connected(rt, address)) {
            return true;
        }
        pause(rt, 25);
    }
    false
}

#[test]
fn places_are_given_back(rt: HostRuntime) {
    let alloc = rt.alloc();
    let bank = Bank::new(alloc).expect(&rt, "a bank");
    let (displays, address) = shown(&rt, alloc, bank);
    let streams = fill(&rt, alloc, address);
    assert!(rt; has_ended(&mut connected(&rt, address)));
    drop(streams);
    assert!(rt; is_served_soon(&rt, address));
    displays.close(&rt);
}
