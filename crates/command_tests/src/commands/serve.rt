//! The command `serve`, over connections of this machine with itself.
ghost use Rattle.std.specs.Prelude.{◌≡◌, vec_len};

use super::status_of;
use acdm_board::Desk;
use acdm_commands::{Appends, Paths, serve_on, serve_partners};
use acdm_milestones::Role;
use acdm_serving::Listener;
use acdm_sessions::{Clock, RunError, Sink};
use bpf_helpers::{Bank, Helpers};
use faulty_streams::{Fault, Narrow};
use std::alloc::Global;
use std::fs::{File, Files};
use std::io::{Eprint, Read, Write};
use std::net::{Net, TcpListener, TcpStream};
use std::process::Abort;
use std::sync::Wait;
use std::thread;
use std::thread::Threads;
use std::time::Clock as SystemClock;

const FLIGHT_PLAN: &str =
    "{\"cmd\":\"report\",\"flight\":7,\"milestone\":1,\"time\":\"2025-02-20T10:00:00Z\",\"callsign\":\"DLH7\",\"type\":\"A320\",\"reg\":\"DAIBC\",\"dest\":\"EDDM\"}\n";

const UNKNOWN_FLIGHT: &str = "{\"cmd\":\"show\",\"flight\":8}\n";

/// Tells 2025-02-20T07:00Z, always.
#[derive(Drop)]
pub(crate) struct Morning;

impl Clock for Morning {
    ghost use Rattle.std.specs.Prelude.{true};

    ghost gives = { λ _ _. true };

    fn minute(&mut self) -> Option<u32> {
        Some(29_000_580)
    }
}

// Whether a line is replied to so.
fn is_told(stream: &mut TcpStream, line: &str, reply: &str) -> bool {
    let mut heard = [0u8; 9];
    if reply.len() > heard.len() || stream.write_all(line.as_bytes()).is_err() {
        return false;
    }
    let heard = &mut heard[..reply.len()];
    stream.read_exact(heard).is_ok() && &*heard == reply.as_bytes()
}

// The network manager files a plan and leaves; then the tower asks for another flight.
pub(crate) fn talk(manager: TcpStream, tower: TcpStream) -> bool {
    let mut manager = manager;
    let mut tower = tower;
    if !is_told(&mut manager, FLIGHT_PLAN, "ok 0\n") {
        return false;
    }
    drop(manager);
    is_told(&mut tower, UNKNOWN_FLIGHT, "no 1 202\n")
}

// One partner says nothing while another is served, and leaves in the middle of a line.
fn keep_silent(silent: TcpStream, manager: TcpStream) -> bool {
    let mut silent = silent;
    let mut manager = manager;
    let served = is_told(&mut manager, FLIGHT_PLAN, "ok 0\n");
    drop(manager);
    served && silent.write_all("{\"cmd\":\"ti".as_bytes()).is_ok()
}

// Listens on a port of its own, with a partner that is connected.
pub(crate) fn listening<Rt: Net<Listener = TcpListener, Stream = TcpStream> + Abort>(
    rt: &Rt,
) -> (TcpListener, TcpStream) {
    let listener = TcpListener::bind(rt, "127.0.0.1:0")
        .ok()
        .expect(rt, "a port");
    let address = listener.local_addr().ok().expect(rt, "an address");
    let stream = TcpStream::connect(rt, address)
        .ok()
        .expect(rt, "a connection");
    (listener, stream)
}

pub(crate) type Partner = (Role, TcpListener, Morning);

fn both<T: Drop>(rt: &impl Abort, alloc: Global, first: T, second: T) -> Vec<T>
    ensures { vec_len result ≡ 2 }
{
    let mut partners = Vec::with_capacity(alloc, 2).expect(rt, "room for two");
    partners.push_reserved(first);
    partners.push_reserved(second);
    partners
}

// The same partner, by names.
fn listener_of(partner: Partner) -> Listener<Morning> {
    let (role, socket, clock) = partner;
    Listener {
        role,
        socket,
        clock,
    }
}

// What `serve` tells of two partners at this desk.
pub(crate) fn served_at<H: Helpers + Drop + Send, Rt: Threads + Wait + Abort + Sync>(
    rt: &Rt,
    alloc: Global,
    desk: Desk<H>,
    first: Partner,
    second: Partner,
) -> String {
    let partners = both(rt, alloc, first, second);
    let mut output = Sink::new(Vec::new(alloc));
    let is_served = serve_on(rt, alloc, partners, desk, &mut output).is_ok();
    assert!(rt; is_served);
    String::from_utf8(output.into_inner())
        .ok()
        .expect(rt, "a text")
}

// What it tells of them at a desk of their own.
fn served<H: Helpers + Drop + Send, Rt: Threads + Wait + Abort + Sync>(
    rt: &Rt,
    alloc: Global,
    helpers: H,
    first: Partner,
    second: Partner,
) -> String {
    let desk = Desk::new(alloc, helpers, 10).expect(rt, "a desk");
    served_at(rt, alloc, desk, first, second)
}

#[test]
fn partners_are_served_over_tcp(rt: HostRuntime) {
    let alloc = rt.alloc();
    let (manager, to_manager) = listening(&rt);
    let (tower, to_tower) = listening(&rt);
    let port = manager.local_addr().ok().expect(&rt, "an address").port();
    let talking = thread::spawn(&rt, move || talk(to_manager, to_tower))
        .ok()
        .expect(&rt, "a thread");
    let told = served(
        &rt,
        alloc,
        Bank::new(alloc).expect(&rt, "a bank"),
        (Role::NetworkManager, manager, Morning),
        (Role::AirTrafficControl, tower, Morning),
    );
    assert!(rt; talking.join(&rt));
    let first = format!(in alloc; "listen 1 NM 127.0.0.1:{port}\nlisten 2 ATC 127.0.0.1:").expect(
        &rt, "a text",
    );
    assert!(rt; told.starts_with(first.as_str()));
    assert!(rt; told.ends_with("\nsession 1 1 end\nsession 2 1 end\nclosed 2\n"));
}

// How many entries two partners leave where the writer takes the lines of the listeners, and fails once
// they are gone.
fn left_untold<H: Helpers + Drop + Send, Rt: Threads + Wait + Abort + Sync>(
    rt: &Rt,
    alloc: Global,
    helpers: H,
    first: Partner,
    second: Partner,
) -> u64 {
    let desk = Desk::new(alloc, helpers, 10).expect(rt, "a desk");
    let listeners = both(rt, alloc, listener_of(first), listener_of(second));
    let mut output = Sink::new(Narrow::new(alloc, 100, 2, Fault::Fails));
    let served = serve_partners(rt, alloc, listeners, desk, &mut output)
        .ok()
        .expect(rt, "partners who were served");
    assert!(rt; served.told == Err(RunError::Write));
    served.desk.len()
}

#[test]
fn what_partners_made_is_left_where_it_is_not_told(rt: HostRuntime) {
    let alloc = rt.alloc();
    let (manager, to_manager) = listening(&rt);
    let (tower, to_tower) = listening(&rt);
    let talking = thread::spawn(&rt, move || talk(to_manager, to_tower))
        .ok()
        .expect(&rt, "a thread");
    let entries = left_untold(
        &rt,
        alloc,
        Bank::new(alloc).expect(&rt, "a bank"),
        (Role::NetworkManager, manager, Morning),
        (Role::AirTrafficControl, tower, Morning),
    );
    assert!(rt; talking.join(&rt));
    assert!(rt; entries == 2);
}

#[test]
fn a_silent_partner_holds_nobody_up(rt: HostRuntime) {
    let alloc = rt.alloc();
    let (silent, to_silent) = listening(&rt);
    let (manager, to_manager) = listening(&rt);
    let talking = thread::spawn(&rt, move || keep_silent(to_silent, to_manager))
        .ok()
        .expect(&rt, "a thread");
    let told = served(
        &rt,
        alloc,
        Bank::new(alloc).expect(&rt, "a bank"),
        (Role::GroundHandler, silent, Morning),
        (Role::NetworkManager, manager, Morning),
    );
    assert!(rt; talking.join(&rt));
    assert!(rt; told.ends_with("\nsession 1 0 end\nsession 2 1 end\nclosed 1\n"));
}

// Whether these words end with the status 2, and this complaint.
fn complains<
    Rt: Files<File = File>
        + Paths
        + Appends
        + Net<Listener = TcpListener, Stream = TcpStream>
        + SystemClock
        + Eprint
        + Threads
        + Wait
        + Clone
        + Drop
        + Send
        + Sync
        + 'static,
>(rt: &Rt, alloc: Global, words: &[&str], complaint: &str) -> bool {
    let mut output = Vec::new(alloc);
    let mut errors = Vec::new(alloc);
    let status = status_of(alloc, rt, words, "".as_bytes(), &mut output, &mut errors);
    status == 2 && output.is_empty() && errors.as_slice() == complaint.as_bytes()
}

// Words for two partners, of which one is wrong, and the complaint.
static WRONG_PARTNERS: [(&str, &str, &str); 6] = [
    ("XX=127.0.0.1:0", "NM=127.0.0.1:0", "acdm: role 1\n"),
    ("NM=127.0.0.1:0", "127.0.0.1:0", "acdm: role 2\n"),
    ("NM=127.0.0.1:0", "nm=here", "acdm: role 2\n"),
    ("NM=127.0.0.1:0", "GH=here", "acdm: address 2\n"),
    ("GH=", "NM=127.0.0.1:0", "acdm: address 1\n"),
    ("AO=127.0.0.1", "XX=", "acdm: address 1\n"),
];

#[test]
fn roles_and_addresses_that_are_none_are_told(rt: HostRuntime) {
    for (first, second, complaint) in &WRONG_PARTNERS {
        let words = ["acdm", "serve", *first, *second];
        assert!(rt;
            complains(&rt, rt.alloc(), &words, *complaint),
            "{first} {second}"
        );
    }
}

#[test]
fn an_address_that_is_taken_is_told(rt: HostRuntime) {
    let alloc = rt.alloc();
    let listener = TcpListener::bind(&rt, "127.0.0.1:0")
        .ok()
        .expect(&rt, "a port");
    let address = listener.local_addr().ok().expect(&rt, "an address");
    drop(listener);
    let word = format!(in alloc; "ATC={address}").expect(&rt, "a word");
    let twice = ["acdm", "serve", word.as_str(), word.as_str()];
    assert!(rt; complains(&rt, alloc, &twice, "acdm: address 2\n"));
}

// As many words for partners.
fn words_for(rt: &impl Abort, alloc: Global, partners: usize) -> Vec<&'static str> {
    let mut words = vec![in alloc; "acdm", "serve"].expect(rt, "two words");
    for _ in 0..partners {
        words.push("NM=127.0.0.1:0").expect(rt, "room for a word");
    }
    words
}

#[test]
fn at_most_64_partners_are_taken(rt: HostRuntime) {
    let alloc = rt.alloc();
    let more = words_for(&rt, alloc, 65);
    assert!(rt; complains(&rt, alloc, more.as_slice(), "acdm: address 65\n"));
}

static WRONG_ADDRESSES: [&str; 3] = ["here", "127.0.0.1", "127.0.0.1:many"];

#[test]
fn an_address_for_displays_that_is_none_is_told(rt: HostRuntime) {
    for address in &WRONG_ADDRESSES {
        let words = ["acdm", "serve", "--watch", *address, "NM=127.0.0.1:0"];
        let is_told = complains(&rt, rt.alloc(), &words, "acdm: watch address\n");
        assert!(rt; is_told, "{address}");
    }
}
