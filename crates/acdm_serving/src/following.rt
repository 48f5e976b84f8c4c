//! The following of another board, over its connections.
ghost use Rattle.std.specs.Prelude.{◌≡◌, ◌≤◌, IfOk, is_some, length};
ghost use Rattle.acdm_following.specs.Courses.{asked, parted_as};

use crate::confirming::Confirming;
use crate::peer::{PAUSE, PAUSES_BETWEEN, connected_to, hear_term};
use acdm_following::{Course, FirstBoard, Parting};
use acdm_journal::push_entry;
use acdm_keeping::{BoardTerm, Paths, is_replaced};
use acdm_lines::is_passing;
use acdm_partners::Reporter;
use acdm_row::Row;
use std::alloc::{AllocError, Global};
use std::io::{self, ErrorKind, Read, Write};
use std::net::{Net, SocketAddr, TcpListener, TcpStream};
use std::sync::atomic::{AtomicBool, Ordering};
use std::sync::{Arc, Wait};
use std::thread;
use std::time::{Clock, Duration};

/// After how many pauses in a row in which nothing came a connection is made anew, so that one that is gone is found: 10
/// seconds.
const SILENT_PAUSES: u64 = 400;

/// How often a connection is read from for the entry that both boards are to have, and how many bytes are enough.
const MOST_READS: u64 = 200;

const MOST_BYTES: usize = 262_144;

/// What says that a board is not followed any more.
#[derive(Drop)]
pub(crate) struct StopFlags {
    /// That it closes.
    pub(crate) closing: Arc<AtomicBool>,
    /// That it was promoted.
    pub(crate) promoted: Arc<AtomicBool>,
}

impl StopFlags {
    /// Whether one of them is set.
    pub(crate) fn is_over(&self) -> bool {
        self.closing.load(Ordering::SeqCst) || self.promoted.load(Ordering::SeqCst)
    }

    /// Whether it was promoted, and does not close.
    pub(crate) fn is_promoted(&self) -> bool {
        self.promoted.load(Ordering::SeqCst) && !self.closing.load(Ordering::SeqCst)
    }

    /// The same flags.
    pub(crate) fn copy(&self) -> Result<StopFlags, AllocError> {
        Ok(StopFlags {
            closing: Arc::try_clone(&self.closing)?,
            promoted: Arc::try_clone(&self.promoted)?,
        })
    }
}

/// A connection to the board that is followed. It ends where that ends it, where this board is not to follow any more, and
/// where nothing came for a while.
#[derive(Drop)]
pub(crate) struct FollowedStream {
    stream: TcpStream,
    flags: StopFlags,
    // How many pauses there were in a row in which nothing came.
    silent: u64,
    // Whether no more than its first line is read, and whether that was.
    is_head_alone: bool,
    has_head: bool,
}

impl FollowedStream {
    // Reads once: a byte at a time where no more than the first line is read.
    fn read_once(&mut self, buf: &mut [u8]) -> io::Result<usize>
        ensures { IfOk result (λ n. n ≤ length buf.old) }
    {
        if !self.is_head_alone {
            return self.stream.read(buf);
        }
        let most = buf.len().min(1);
        let count = self.stream.read(&mut buf[..most])?;
        self.has_head = buf.iter().take(count).any(|byte| *byte == b'\n');
        Ok(count)
    }

    // Whether nothing came for so long that the connection may be gone.
    fn is_silent(&self) -> bool {
        self.silent >= SILENT_PAUSES
    }
}

impl Read for FollowedStream {
    fn read(&mut self, buf: &mut [u8]) -> io::Result<usize> {
        for _ in 0..u64::MAX {
            if self.flags.is_over() || self.is_silent() || self.has_head {
                return Ok(0);
            }
            match self.read_once(buf) {
                Err(error) if is_passing(&error) => self.silent = self.silent.saturating_add(1),
                came => {
                    self.silent = 0;
                    return came;
                }
            }
        }
        Ok(0)
    }
}

// The second line of a text, with its line feed, where that is there.
fn second_line(text: &[u8]) -> Option<&[u8]> {
    let first = text.iter().position(|byte| *byte == b'\n')?;
    let rest = text.get(first.saturating_add(1)..)?;
    let end = rest.iter().position(|byte| *byte == b'\n')?;
    rest.get(..end.saturating_add(1))
}

/// What was found of an entry at another board that this one has.
#[derive(Clone, Copy, PartialEq, Eq)]
enum Compared {
    /// It is the same there.
    Same,
    /// It is another one.
    Other,
    /// It did not come.
    Missing,
}

// What a line of another board is beside the one of this board's entry.
fn comparison_of(line: &[u8], own: &[u8]) -> Compared {
    if line == own {
        return Compared::Same;
    }
    // (with the space behind it: the number of a later entry may begin with it)
    let number = match own.iter().position(|byte| *byte == b' ') {
        Some(end) => own.get(..end.saturating_add(1)),
        None => None,
    };
    match number {
        Some(number) if line.get(..number.len()) == Some(number) => Compared::Other,
        _ => Compared::Missing,
    }
}

/// Why a board that is followed was not connected to.
#[derive(Clone, Copy, PartialEq, Eq)]
enum Unreached {
    /// It could not be.
    Gone,
    /// What answers there is no board.
    NoBoard,
    /// The term in which it would be followed could not be written.
    Unwritten,
    /// Its journal is another one from some entry on.
    Differs,
    /// It has this term, which is earlier than that of the board that would follow it.
    Replaced(u64),
}

/// What came of connecting to a board that is to be followed.
#[derive(Drop)]
pub(crate) enum ConnectOutcome<C: Drop> {
    /// A connection by which it is followed.
    Board(C),
    /// A connection of which nothing is entered, since the entry before is not there: by it is heard why.
    Unlike(C),
    /// The term in which it would be followed could not be written.
    Unwritten(io::Error),
    /// Its journal is another one from some entry on.
    Other,
    /// It has an earlier term than this board, which has taken over from it.
    Replaced { term: u64, own: u64 },
}

// What was told last, so that nothing is told again and again while nothing changes.
#[derive(Clone, Copy)]
struct LastTold {
    is_following: bool,
    parted: Option<(u64, Parting)>,
    unreached: Option<Unreached>,
}

const NOTHING_TOLD: LastTold = LastTold {
    is_following: false,
    parted: None,
    unreached: None,
};

/// Who makes connections to a board that is followed. (The type of these is a parameter all the way down to `follow`: the
/// check takes none in its place whose `Read` is an impl of our own.)
pub(crate) trait Connects<C: Drop> {
    /// Where they are made.
    fn address(&self) -> SocketAddr;

    /// A connection at which the entries from this number on are asked for, or where the one before is not there, from that
    /// one on; none where the entry before is another one there, or where the board there has an earlier term.
    fn reach(&self, next: u64) -> io::Result<ConnectOutcome<C>>;

    /// Whether a connection has ended since nothing came for a while.
    fn is_silent(&self, connection: C) -> bool;
}

/// The address of a board that is followed by one with this row. Its connections end where one of the flags is set.
#[derive(Drop)]
pub(crate) struct BoardAddress<'r, Rt> {
    pub(crate) rt: &'r Rt,
    pub(crate) alloc: Global,
    pub(crate) row: Arc<Row>,
    pub(crate) address: SocketAddr,
    pub(crate) flags: StopFlags,
    // What is said there of what this board keeps.
    pub(crate) confirming: Arc<Confirming>,
    // The term of this board, which goes on in that of a board that it follows.
    pub(crate) term: BoardTerm,
}

impl<Rt: Net<Listener = TcpListener, Stream = TcpStream>> BoardAddress<'_, Rt> {
    // A connection at which this text was sent first, which asks for the term ahead of the rest; and that term.
    fn connected(&self, text: &str) -> io::Result<(TcpStream, u64)> {
        let mut stream = connected_to(self.rt, &self.address, text)?;
        let term = hear_term(&mut stream)?;
        self.term.meet(term);
        Ok((stream, term))
    }

    // A connection at which the entries from this number on were asked for; and the term there.
    fn asked_from(&self, number: u64) -> io::Result<(TcpStream, u64)> {
        let mut text = String::new(self.alloc);
        writeln!(text, "term")?;
        writeln!(text, "from {number}")?;
        self.connected(text.as_str())
    }

    // The same by the name of this board, at which it was said that it keeps all entries before; and the term there.
    fn followed_from(&self, number: u64) -> io::Result<(TcpStream, u64)> {
        let mut text = String::new(self.alloc);
        let name = self.confirming.name();
        writeln!(text, "term")?;
        writeln!(text, "from {number} as {name}")?;
        writeln!(text, "kept {number}")?;
        self.connected(text.as_str())
    }

    // What comes of a connection, up to its second line feed.
    fn heard(&self, stream: &mut TcpStream) -> io::Result<Vec<u8>> {
        let mut text = Vec::new(self.alloc);
        let mut buf = [0u8; 4096];
        for _ in 0..MOST_READS {
            if self.flags.is_over() || text.len() > MOST_BYTES {
                break;
            }
            if second_line(text.as_slice()).is_some() {
                break;
            }
            match stream.read(&mut buf) {
                Ok(0) => break,
                Ok(count) => text.extend_from_slice(&buf[..count])?,
                Err(error) if is_passing(&error) => {}
                Err(error) => return Err(error),
            }
        }
        Ok(text)
    }

    // The text of an entry of this board, if it is there.
    fn own_line(&self, number: u64) -> io::Result<Option<Vec<u8>>> {
        let at = number as usize;
        if at >= self.row.len() {
            return Ok(None);
        }
        let mut note = self.row.note(at);
        let Some(published) = self.row.look(at, &mut note) else {
            return Ok(None);
        };
        let mut text = Vec::new(self.alloc);
        push_entry(&mut text, &published.entry)?;
        Ok(Some(text))
    }

    // What the entry of this number is there beside the one here.
    fn compare(&self, number: u64) -> io::Result<Compared> {
        let Some(own) = self.own_line(number)? else {
            return Ok(Compared::Missing);
        };
        let (mut stream, _) = self.asked_from(number)?;
        let came = self.heard(&mut stream)?;
        match second_line(came.as_slice()) {
            Some(line) => Ok(comparison_of(line, own.as_slice())),
            None => Ok(Compared::Missing),
        }
    }

    // The same of the entry before this one. Where there is none, no entry is another one there.
    fn compare_before(&self, next: u64) -> io::Result<Compared> {
        match next.checked_sub(1) {
            Some(last) => self.compare(last),
            None => Ok(Compared::Same),
        }
    }
}

impl<Rt: Net<Listener = TcpListener, Stream = TcpStream> + Wait + Paths> Connects<FollowedStream>
    for BoardAddress<'_, Rt> {
    fn address(&self) -> SocketAddr {
        self.address
    }

    fn reach(&self, next: u64) -> io::Result<ConnectOutcome<FollowedStream>> {
        let found = self.compare_before(next)?;
        if found == Compared::Other {
            return Ok(ConnectOutcome::Other);
        }
        let is_same = found == Compared::Same;
        // By the first line for the entry before it is found that the board there is behind this one, or another one.
        let (stream, term) = if is_same {
            self.followed_from(next)?
        } else {
            self.asked_from(next.saturating_sub(1))?
        };
        let own = self.term.own();
        if is_replaced(term, own) {
            return Ok(ConnectOutcome::Replaced { term, own });
        }
        if is_same {
            if let Err(error) = self.term.raise(self.rt, self.alloc, term) {
                return Ok(ConnectOutcome::Unwritten(error));
            }
            self.confirming.begin(self.rt, &stream, next)?;
        }
        let connection = FollowedStream {
            stream,
            flags: self.flags.copy()?,
            silent: 0,
            is_head_alone: !is_same,
            has_head: false,
        };
        if is_same {
            Ok(ConnectOutcome::Board(connection))
        } else {
            Ok(ConnectOutcome::Unlike(connection))
        }
    }

    fn is_silent(&self, connection: FollowedStream) -> bool {
        connection.is_silent()
    }
}

/// The board that is followed, as far as it can be reached. Each attempt to connect comes a second after the one before.
#[derive(Drop)]
pub(crate) struct FirstBoardAt<'r, Rt: Drop, M: Drop, C: Drop> {
    rt: &'r Rt,
    alloc: Global,
    reporter: Reporter<Rt>,
    place: M,
    flags: StopFlags,
    // A connection that was made, until it is handed over.
    made: Option<C>,
    // Whether there is a connection, as an operator is told.
    is_connected: Arc<AtomicBool>,
    // The number of the entry that was asked for last.
    next: u64,
    told: LastTold,
    course: Course,
}

// Why a connection was parted from, in words.
fn parting_text(alloc: Global, why: Parting) -> Result<String, AllocError> {
    let mut text = String::new(alloc);
    match why {
        Parting::Ended => text.push_str("the connection has ended")?,
        Parting::Read => text.push_str("the connection has failed")?,
        Parting::NotAJournal => text.push_str("no journal is sent there")?,
        Parting::OtherJournal => text.push_str("another journal is sent there")?,
        Parting::Behind { has } => write!(text, "there are only {has} entries")?,
        Parting::Ahead { next } => write!(text, "entries before {next} are not sent")?,
        Parting::Faulty { entry, clause } => write!(text, "entry {entry}: {clause}")?,
        Parting::Failed(failure) => write!(text, "{failure}")?,
    }
    Ok(text)
}

impl<'r, Rt: Clock + Wait + Drop, M: Connects<C> + Drop, C: Drop> FirstBoardAt<'r, Rt, M, C> {
    /// The board at this place, until one of these flags is set. What is told of it goes to the reporter, and the last word
    /// says whether there is a connection.
    pub(crate) fn new(
        rt: &'r Rt,
        alloc: Global,
        reporter: Reporter<Rt>,
        place: M,
        flags: StopFlags,
        is_connected: Arc<AtomicBool>,
    ) -> FirstBoardAt<'r, Rt, M, C> {
        FirstBoardAt {
            rt,
            alloc,
            reporter,
            place,
            flags,
            made: None,
            is_connected,
            next: 0,
            told: NOTHING_TOLD,
            course: Course::new(),
        }
    }

    // Waits a second, or until this board is not to follow any more.
    fn pause(&self) {
        for _ in 0..PAUSES_BETWEEN {
            if self.flags.is_over() {
                return;
            }
            thread::sleep(self.rt, Duration::from_millis(PAUSE));
        }
    }

    // Makes a connection, once there is none, at which the entries from this number on are asked for; none where this board
    // is not to follow any more.
    fn make(&mut self, next: u64)
        ensures { self.new.course ≡ self.old.course }
    {
        for _ in 0..u64::MAX {
            if self.flags.is_over() {
                return;
            }
            match self.place.reach(next) {
                Ok(ConnectOutcome::Board(connection)) => {
                    self.is_connected.store(true, Ordering::SeqCst);
                    self.tell_following(next);
                    self.made = Some(connection);
                    return;
                }
                Ok(ConnectOutcome::Unlike(connection)) => {
                    self.made = Some(connection);
                    return;
                }
                Ok(ConnectOutcome::Other) => self.tell_other(next),
                Ok(ConnectOutcome::Replaced { term, own }) => self.tell_replaced(term, own),
                Ok(ConnectOutcome::Unwritten(error)) => {
                    self.tell_unreached(Unreached::Unwritten, &error);
                }
                Err(error) if error.kind() == ErrorKind::InvalidData => {
                    self.tell_unreached(Unreached::NoBoard, &error);
                }
                Err(error) => self.tell_unreached(Unreached::Gone, &error),
            }
            self.pause();
        }
    }

    // Tells that the board is followed from this entry on.
    fn tell_following(&mut self, next: u64)
        ensures { self.new.course ≡ self.old.course }
    {
        if self.told.is_following {
            return;
        }
        self.told.is_following = true;
        self.told.unreached = None;
        let mut address = String::new(self.alloc);
        if write!(address, "{}", self.place.address()).is_ok() {
            self.reporter.tell_following(address.as_str(), next);
        }
    }

    // Whether it was not told yet that the board is not connected to for this reason.
    fn is_news(&mut self, why: Unreached) -> bool
        ensures { self.new.course ≡ self.old.course }
    {
        if self.told.unreached == Some(why) {
            return false;
        }
        self.told = LastTold {
            is_following: false,
            parted: None,
            unreached: Some(why),
        };
        true
    }

    // Tells that the board was not reached, for this reason, by the system's words.
    fn tell_unreached(&mut self, why: Unreached, error: &io::Error)
        ensures { self.new.course ≡ self.old.course }
    {
        if !self.is_news(why) {
            return;
        }
        if let Ok(text) = error.to_string(self.alloc) {
            self.reporter.tell_parted(text.as_str());
        }
    }

    // Tells that the entry before this one is another one there.
    fn tell_other(&mut self, next: u64)
        ensures { self.new.course ≡ self.old.course }
    {
        if !self.is_news(Unreached::Differs) {
            return;
        }
        let mut text = String::new(self.alloc);
        let number = next.saturating_sub(1);
        if write!(
            text,
            "another journal is sent there: entry {number} is another one"
        )
        .is_ok()
        {
            self.reporter.tell_parted(text.as_str());
        }
    }

    // Tells that the board has an earlier term than this one.
    fn tell_replaced(&mut self, term: u64, own: u64)
        ensures { self.new.course ≡ self.old.course }
    {
        if !self.is_news(Unreached::Replaced(term)) {
            return;
        }
        let mut text = String::new(self.alloc);
        if write!(text, "term {term} is there, and {own} here").is_ok() {
            self.reporter.tell_parted(text.as_str());
        }
    }

    // Tells why the board was parted from.
    fn tell_parted(&mut self, why: Parting)
        ensures { self.new.course ≡ self.old.course }
    {
        let told = Some((self.next, why));
        if self.told.parted == told {
            return;
        }
        self.told = LastTold {
            is_following: false,
            parted: told,
            unreached: None,
        };
        if let Ok(text) = parting_text(self.alloc, why) {
            self.reporter.tell_parted(text.as_str());
        }
    }
}

impl<Rt: Clock + Wait + Drop, M: Connects<C> + Drop, C: Read + Drop> FirstBoard
    for FirstBoardAt<'_, Rt, M, C> {
    type Connection = C;

    ghost course = { λ b. b.course };

    fn connect(&mut self, next: u64) -> Option<C>
        ensures course { self.new.course ≡ asked self.old.course next (is_some result) }
    {
        self.next = next;
        self.make(next);
        match self.made.take() {
            Some(connection) => {
                self.course.ask(next);
                Some(connection)
            }
            None => {
                self.course.end(next);
                None
            }
        }
    }

    fn part(&mut self, connection: C, given: &Course, why: Parting)
        ensures course { self.new.course ≡ parted_as self.old.course given.now.parted why }
    {
        self.course.part(given, why);
        self.is_connected.store(false, Ordering::SeqCst);
        if self.flags.is_over() {
            return;
        }
        if self.place.is_silent(connection) && why == Parting::Ended {
            return;
        }
        self.tell_parted(why);
        self.pause();
    }
}
