//! The control address: who connects there may ask for the state of the board, have it close, and have a board that
//! follows another one serve.
ghost use Rattle.std.specs.Prelude.{◌≡◌, ◌<◌, vec_len};

use crate::doors::Door;
use crate::request::{ControlRequest, control_request};
use crate::stamp::moment_text;
use acdm_lines::is_passing;
use std::alloc::{AllocError, Global};
use std::io::{self, ErrorKind, Read, Write};
use std::net::{Net, SocketAddr, TcpListener, TcpStream};
use std::sync::atomic::{AtomicBool, Ordering};
use std::sync::{Arc, Wait};

/// How many may be connected there at once. For one more, the one that has asked for nothing for the longest
/// time is let go.
const MOST_CALLERS: usize = 8;

/// How many milliseconds one has for a whole line. Who takes longer is let go.
const PATIENCE: u64 = 10_000;

/// How many bytes a line has at most. Who sends one that has more is let go.
const LONGEST_LINE: usize = 64;

/// The number of this version, which stands in the repository's file `VERSION` too.
const VERSION: &str = "1.0.0";

/// What is told of the journal.
pub trait Standing {
    /// How many entries it has.
    fn used(&self) -> usize;

    /// For how many it has room.
    fn room(&self) -> usize;

    /// The minute of its last entry since 1970-01-01T00:00Z, if it has one.
    fn last(&self) -> Option<u32>;

    /// Whether it still stands where it is kept, if it is.
    fn stands(&self) -> bool;

    /// Why it could not be kept, where it could not: the system's first error.
    fn failure(&self) -> Option<io::Error>;

    /// How many seconds lie between the board's own ticks, if it gives any.
    fn ticks(&self) -> Option<u32>;

    /// The boards that follow this one, where replies wait for what they keep.
    fn followers(&self) -> Option<Followers>;

    /// The board's term.
    fn term(&self) -> u64;

    /// The term of the board that has taken over from this one, as far as that was met.
    fn replaced_by(&self) -> Option<u64>;
}

/// What is told of the boards that follow this one.
#[derive(Clone, Copy)]
pub struct Followers {
    /// How many there are.
    pub count: usize,
    /// How many have to keep an entry before a reply tells of it.
    pub wanted: usize,
    /// Whether a reply has waited for them for too long.
    pub are_late: bool,
}

impl Followers {
    /// What an operator is told where this has changed.
    pub(crate) fn word(self) -> &'static str {
        if self.are_late { "late" } else { "back" }
    }
}

/// A board that is followed: where it is, as the words name it, whether it is connected to, and the word that says that it
/// is not followed any more, since it was asked at the control address that this board serves.
#[derive(Drop)]
pub struct FollowedBoard {
    /// Its address.
    pub address: String,
    /// Whether there is a connection to it.
    pub is_connected: Arc<AtomicBool>,
    /// Whether this board was promoted.
    pub promoted: Arc<AtomicBool>,
}

impl FollowedBoard {
    // What an operator is told of it.
    fn add_status(&self, text: &mut String) -> Result<(), AllocError> {
        let address = self.address.as_str();
        if self.is_connected.load(Ordering::SeqCst) {
            writeln!(text, "following {address}")?;
        } else {
            writeln!(text, "following {address} parted")?;
        }
        Ok(())
    }
}

/// The board, as it is told of at the control address.
#[derive(Drop)]
pub(crate) struct BoardState<'a, K, S> {
    pub(crate) rt: &'a K,
    pub(crate) alloc: Global,
    pub(crate) doors: &'a [Door],
    pub(crate) standing: &'a S,
    // The board that it follows, if it does.
    pub(crate) first: Option<&'a FollowedBoard>,
}

/// What was asked for at the control address since the last look.
#[derive(Clone, Copy)]
pub(crate) struct Requests {
    /// That the board closes.
    pub(crate) closes: bool,
    /// That it follows no longer, and serves.
    pub(crate) promotes: bool,
}

// Who is connected, the line that was begun, and when the one before was answered, in milliseconds.
#[derive(Drop)]
struct ControlCaller {
    stream: TcpStream,
    line: Vec<u8>,
    since: u64,
}

/// The control address.
pub struct Control {
    listener: TcpListener,
    callers: Vec<ControlCaller>,
}

impl Drop for Control {
    fn drop(self) {
        let Control {
            listener: _,
            callers: _,
        } = self;
    }
}

// An address: an IP address and a port, or a port of the loopback interface.
fn address_of(text: &str) -> Option<SocketAddr> {
    match text.parse::<u16>() {
        Ok(port) => Some(SocketAddr::from(([127, 0, 0, 1], port))),
        Err(_) => text.parse::<SocketAddr>().ok(),
    }
}

// Adds who is here.
fn add_sessions<K: Wait, S: Standing>(
    state: &BoardState<'_, K, S>,
    text: &mut String,
) -> Result<(), AllocError> {
    if let Some(first) = state.first {
        first.add_status(text)?;
    }
    for door in state.doors {
        door.add_status(state.rt, state.alloc, text)?;
    }
    if let Some(seconds) = state.standing.ticks() {
        let number = state.doors.len().saturating_add(1);
        writeln!(text, "session {number} APT ticks each {seconds} s")?;
    }
    if let Some(followers) = state.standing.followers() {
        let Followers { count, wanted, .. } = followers;
        let late = if followers.are_late { " late" } else { "" };
        writeln!(text, "followers {count} of {wanted}{late}")?;
    }
    Ok(())
}

// Adds the entries, the term, the version, and the moment of the last entry.
fn add_entries<S: Standing>(
    standing: &S,
    alloc: Global,
    text: &mut String,
) -> Result<(), AllocError> {
    let used = standing.used();
    let room = standing.room();
    writeln!(text, "entries {used} of {room}")?;
    writeln!(text, "term {}", standing.term())?;
    writeln!(text, "version {VERSION}")?;
    match standing.last() {
        Some(minute) => {
            let moment = moment_text(alloc, u64::from(minute) * 60)?;
            writeln!(text, "last {moment}")
        }
        None => writeln!(text, "last none"),
    }
}

// What is told of the board.
fn status<K: Wait, S: Standing>(state: &BoardState<'_, K, S>) -> Result<String, AllocError> {
    let mut text = String::new(state.alloc);
    add_sessions(state, &mut text)?;
    add_entries(state.standing, state.alloc, &mut text)?;
    Ok(text)
}

// Whether a board is promoted that is asked to be, and what is answered: it serves already, or is one that another board
// has taken over from, which is not promoted.
fn promotion<K: Wait, S: Standing>(
    state: &BoardState<'_, K, S>,
) -> Result<(bool, String), AllocError> {
    let mut text = String::new(state.alloc);
    if state.first.is_none() {
        text.push_str("serving\n")?;
        return Ok((false, text));
    }
    match state.standing.replaced_by() {
        Some(term) => {
            writeln!(text, "replaced {term}")?;
            Ok((false, text))
        }
        None => {
            text.push_str("promoting\n")?;
            Ok((true, text))
        }
    }
}

impl ControlCaller {
    fn new(alloc: Global, stream: TcpStream, since: u64) -> Option<ControlCaller> {
        if stream.set_nonblocking(true).is_err() {
            return None;
        }
        let line = Vec::with_capacity(alloc, LONGEST_LINE).ok()?;
        Some(ControlCaller {
            stream,
            line,
            since,
        })
    }

    // Sends a text at once, and says whether all of it went.
    fn send(&mut self, text: &[u8]) -> bool {
        match self.stream.write(text) {
            Ok(count) => count == text.len(),
            Err(_) => false,
        }
    }

    // Reads what has come, as far as it goes at once: nothing, or nobody is there any more.
    fn heard(&mut self, buf: &mut [u8]) -> Option<usize> {
        match self.stream.read(buf) {
            Ok(0) => None,
            Ok(count) => Some(count),
            Err(error) if is_passing(&error) => Some(0),
            Err(_) => None,
        }
    }

    // Answers a line. Says whether the caller stays: not where the line asks for nothing that there is.
    fn answer<K: Wait, S: Standing>(
        &mut self,
        state: &BoardState<'_, K, S>,
        asked: &mut Requests,
    ) -> bool {
        match control_request(self.line.as_slice()) {
            ControlRequest::Close => {
                asked.closes = true;
                self.send(b"closing\n")
            }
            ControlRequest::Promote => match promotion(state) {
                Ok((promotes, text)) => {
                    asked.promotes = asked.promotes || promotes;
                    self.send(text.as_bytes())
                }
                Err(_) => false,
            },
            ControlRequest::Status => match status(state) {
                Ok(text) => self.send(text.as_bytes()),
                Err(_) => false,
            },
            ControlRequest::Nothing => {
                let _ = self.send(b"unknown\n");
                false
            }
        }
    }

    // Answers the lines that have come by this moment. Says whether the caller stays.
    fn look<K: Wait, S: Standing>(
        &mut self,
        state: &BoardState<'_, K, S>,
        now: u64,
        asked: &mut Requests,
    ) -> bool {
        let mut buf = [0u8; LONGEST_LINE];
        let Some(count) = self.heard(&mut buf) else {
            return false;
        };
        for byte in buf.iter().take(count) {
            if *byte == b'\n' {
                if !self.answer(state, asked) {
                    return false;
                }
                self.line.clear();
                self.since = now;
            } else if *byte != b'\r' && !self.add(*byte) {
                return false;
            }
        }
        now.saturating_sub(self.since) < PATIENCE
    }

    // Goes on with the line. Says whether it fits.
    fn add(&mut self, byte: u8) -> bool {
        self.line.len() < LONGEST_LINE && self.line.push(byte).is_ok()
    }
}

impl Control {
    /// Listens at an address, an IP address and a port, or a port of the loopback interface. The system's error
    /// where it can't be listened there, one of the kind `InvalidInput` where it is no address, one of the kind
    /// `OutOfMemory` where memory was refused.
    pub fn open<Rt: Net<Listener = TcpListener, Stream = TcpStream>>(
        rt: &Rt,
        alloc: Global,
        address: &str,
    ) -> io::Result<Control> {
        let Some(address) = address_of(address) else {
            return Err(io::Error::new(
                ErrorKind::InvalidInput,
                "neither an IP address with a port nor a port",
            ));
        };
        let listener = TcpListener::bind(rt, address)?;
        listener.set_nonblocking(true)?;
        let callers = Vec::with_capacity(alloc, MOST_CALLERS)?;
        Ok(Control { listener, callers })
    }

    /// Has the ten seconds of all who are connected begin anew, at 0 milliseconds: who answers from then on counts from
    /// there.
    pub(crate) fn begin_anew(&mut self) {
        for caller in self.callers.as_mut_slice() {
            caller.since = 0;
        }
    }

    /// Where it listens.
    pub fn address(&self) -> Option<SocketAddr> {
        self.listener.local_addr().ok()
    }

    // Accepts who waits, in the place of the longest idle one where there are eight.
    fn admit(&mut self, alloc: Global, now: u64) {
        let Ok((stream, _)) = self.listener.accept() else {
            return;
        };
        let Some(caller) = ControlCaller::new(alloc, stream, now) else {
            return;
        };
        if self.callers.len() >= MOST_CALLERS {
            let idle = self.longest_idle();
            let _gone = self.callers.remove(idle);
        }
        let _ = self.callers.push(caller);
    }

    // The place of the caller that has asked for nothing for the longest time, where there is one.
    fn longest_idle(&self) -> usize
        ensures { 0 < vec_len self.now.callers → result < vec_len self.now.callers }
    {
        let mut found = 0;
        let mut since = u64::MAX;
        for (at, caller) in self.callers.iter().enumerate() {
            if caller.since < since {
                found = at;
                since = caller.since;
            }
        }
        found
    }

    /// Accepts who waits, and answers the lines that have come by this moment, in milliseconds. Says what they asked
    /// for.
    pub(crate) fn look<K: Wait, S: Standing>(
        &mut self,
        state: &BoardState<'_, K, S>,
        now: u64,
    ) -> Requests {
        let mut asked = Requests {
            closes: false,
            promotes: false,
        };
        let mut at = 0;
        self.admit(state.alloc, now);
        for _ in 0..MOST_CALLERS {
            if at >= self.callers.len() {
                break;
            }
            if self.callers[at].look(state, now, &mut asked) {
                at += 1;
            } else {
                let _left = self.callers.remove(at);
            }
        }
        asked
    }
}
