//! Another board, as it is asked for its term.
use acdm_keeping::{BoardTerm, term_named};
use acdm_lines::is_passing;
use std::alloc::{AllocError, Global};
use std::io::{self, ErrorKind, Read, Write};
use std::net::{Net, SocketAddr, TcpListener, TcpStream};
use std::sync::Arc;
use std::sync::atomic::{AtomicBool, Ordering};
use std::thread::{self, Threads};
use std::time::{Clock, Duration};

/// For how many milliseconds a connection is read from, until it is looked whether anything else is to be done.
pub(crate) const PAUSE: u64 = 25;

/// For how many pauses it is waited between two attempts to connect: a second.
pub(crate) const PAUSES_BETWEEN: u64 = 40;

/// For how many milliseconds a connection may take to be made.
const CONNECTING: u64 = 2_000;

/// How many bytes the line of a term has at most, and for how many pauses it is waited: two seconds.
const LONGEST_TERM: usize = 32;

const TERM_PAUSES: u64 = 80;

// That something else was sent than the term that was asked for.
fn no_term() -> io::Error {
    io::Error::new(ErrorKind::InvalidData, "no board's term is sent there")
}

// The term in the line that a board has sent, of so many bytes. An error where it names none.
fn term_in(line: &[u8; LONGEST_TERM], count: usize) -> io::Result<u64> {
    let named = match line.get(..count) {
        Some(line) => term_named(line),
        None => None,
    };
    match named {
        Some(term) => Ok(term),
        None => Err(no_term()),
    }
}

/// The term that comes first of a board which was asked for it. The system's error where it can't be read, one of the kind
/// `InvalidData` where it does not come in its time, or where something else does.
pub(crate) fn hear_term<R: Read>(reader: &mut R) -> io::Result<u64> {
    let mut line = [0u8; LONGEST_TERM];
    let mut count = 0;
    for _ in 0..LONGEST_TERM as u64 + TERM_PAUSES {
        let mut heard = [0u8; 1];
        match reader.read(&mut heard) {
            Ok(0) => return Err(no_term()),
            Ok(_) => {}
            Err(error) if is_passing(&error) => continue,
            Err(error) => return Err(error),
        }
        if heard[0] == b'\n' {
            return term_in(&line, count);
        }
        if count >= LONGEST_TERM {
            return Err(no_term());
        }
        line[count] = heard[0];
        count += 1;
    }
    Err(no_term())
}

/// A connection to a board, at which this text was sent first.
pub(crate) fn connected_to<Rt: Net<Listener = TcpListener, Stream = TcpStream>>(
    rt: &Rt,
    address: &SocketAddr,
    text: &str,
) -> io::Result<TcpStream> {
    let within = Duration::from_millis(CONNECTING);
    let mut stream = TcpStream::connect_timeout(rt, address, within)?;
    stream.set_read_timeout(Some(Duration::from_millis(PAUSE)))?;
    stream.set_write_timeout(Some(within))?;
    stream.write_all(text.as_bytes())?;
    Ok(stream)
}

/// The term of the board whose journal may be watched at an address. The system's error where it can't be reached in two
/// seconds, one of the kind `InvalidData` where no term is sent there in two more.
pub fn peer_term<Rt: Net<Listener = TcpListener, Stream = TcpStream>>(
    rt: &Rt,
    address: &SocketAddr,
) -> io::Result<u64> {
    let mut stream = connected_to(rt, address, "term\n")?;
    hear_term(&mut stream)
}

/// Another board that may take over from this one.
#[derive(Drop)]
pub struct Peer {
    /// Where its journal may be watched.
    pub address: SocketAddr,
    /// Why it could not be asked for its term at first, where it could not.
    pub unreached: Option<String>,
}

// What is done on a thread of its own.
trait Watches: Drop + Send {
    fn watch(self);
}

/// The asking of a board for its term, about once a second, until this board closes. What it says is noted.
#[derive(Drop)]
pub(crate) struct PeerWatch<Rt: Drop> {
    rt: Rt,
    address: SocketAddr,
    term: BoardTerm,
    closing: Arc<AtomicBool>,
}

impl<Rt: Clone + Drop> PeerWatch<Rt> {
    /// One of the board at this address, which is noted beside this term. `Err` only where memory was refused.
    pub(crate) fn new(
        rt: &Rt,
        alloc: Global,
        address: SocketAddr,
        term: &BoardTerm,
        closing: &Arc<AtomicBool>,
    ) -> Result<PeerWatch<Rt>, AllocError> {
        Ok(PeerWatch {
            rt: rt.clone()?,
            address,
            term: term.copy(alloc)?,
            closing: Arc::try_clone(closing)?,
        })
    }
}

impl<Rt: Net<Listener = TcpListener, Stream = TcpStream> + Clock + Drop> PeerWatch<Rt> {
    fn is_over(&self) -> bool {
        self.closing.load(Ordering::SeqCst)
    }

    // Waits a second, or until this board closes.
    fn pause(&self) {
        for _ in 0..PAUSES_BETWEEN {
            if self.is_over() {
                return;
            }
            thread::sleep(&self.rt, Duration::from_millis(PAUSE));
        }
    }
}

impl<Rt: Net<Listener = TcpListener, Stream = TcpStream> + Clock + Drop + Send> Watches
    for PeerWatch<Rt> {
    fn watch(self) {
        for _ in 0..u64::MAX {
            if self.is_over() {
                return;
            }
            if let Ok(term) = peer_term(&self.rt, &self.address) {
                self.term.meet(term);
            }
            self.pause();
        }
    }
}

// Starts a thread, and says whether one could be made.
fn begin<Rt: Threads, T: Watches + 'static>(rt: &Rt, task: T) -> bool {
    thread::spawn(rt, move || task.watch()).is_ok()
}

/// Starts the thread of a watch, and says whether one could be made.
pub(crate) fn begin_watch<
    Rt: Threads + Net<Listener = TcpListener, Stream = TcpStream> + Clock + Drop + Send + 'static,
>(rt: &Rt, watch: PeerWatch<Rt>) -> bool {
    begin(rt, watch)
}
