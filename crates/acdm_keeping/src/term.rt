//! The term of a board: since when it serves from its journal, by which it is known which of two boards has taken over.
ghost use Rattle.std.specs.Prelude.{◌≡◌, ◌+◌, ◌-◌, ◌^◌, ◌≤◌, IfSome, IsNone, IfOk, if◌then◌else◌, nat_lt};
ghost use Rattle.std.specs.Prelude.{None, Some, option_map, string_bytes};
ghost use Rattle.acdm_keeping.specs.Terms.{NamesNoTerm, NamesTerm, term_line, term_path};

use crate::named::Paths;
use acdm_lines::number_in;
use std::alloc::{AllocError, Global};
use std::fs::{self, File, Files};
use std::io::{self, ErrorKind, Read, Write};
use std::sync::Arc;
use std::sync::atomic::{AtomicU64, Ordering};
use std::time::{Clock, SystemTime};

/// The term of a board that has not taken over.
pub const FIRST_TERM: u64 = 1;

// How many bytes the file of a term has at most.
const LONGEST_FILE: usize = 32;

/// The term that a line names, without its line feed: `term N`, of a decimal number below 2^64 with no sign and no zero
/// before it. No other line names one.
pub fn term_named(line: &[u8]) -> Option<u64>
    ensures named { IfSome result (NamesTerm line.now) }
    ensures none { IsNone result → NamesNoTerm line.now }
{
    let Ok(line) = str::from_utf8(line) else {
        return None;
    };
    let digits = line.strip_prefix("term ")?;
    number_in(digits.as_bytes())
}

/// The line of a term, with its line feed. `Err` only where memory was refused.
pub fn term_text(alloc: Global, term: u64) -> io::Result<Vec<u8>>
    ensures { IfOk result (λ text. text.items ≡ term_line term) }
{
    let mut text = Vec::new(alloc);
    writeln!(text, "term {term}")?;
    Ok(text)
}

/// Whether a board that has one term was replaced where another board has the other.
pub fn is_replaced(own: u64, other: u64) -> bool
    ensures { result ≡ nat_lt own other }
{
    own < other
}

/// The term of a board that takes over at a moment, in seconds since 1970-01-01T00:00Z, where it has this term: that moment, or
/// where the term is no earlier, the next one. So of two boards that took over from one, each without the other's term, one
/// has the later term. `None` where there is no later term.
pub fn term_after(term: u64, now: u64) -> Option<u64>
    ensures later { IfSome result (λ later. later ≡ (if nat_lt term now then now else term + 1)) }
    ensures only { IsNone result → 2 ^ 64 - 1 ≤ term }
{
    if term < now {
        return Some(now);
    }
    term.checked_add(1)
}

// The seconds since 1970-01-01T00:00Z; 0 where the clock can't be read.
fn seconds<Rt: Clock>(rt: &Rt) -> u64 {
    let Ok(now) = SystemTime::now(rt) else {
        return 0;
    };
    match now.duration_since(SystemTime::UNIX_EPOCH) {
        Ok(since) => since.as_secs(),
        Err(_) => 0,
    }
}

/// The path of the file of the term, beside the journal of a path. `Err` only where memory was refused.
pub fn term_path(alloc: Global, journal: &str) -> Result<String, AllocError>
    ensures { IfOk result (λ path. string_bytes path ≡ term_path journal.now) }
{
    let mut path = String::from_str(alloc, journal)?;
    path.push_str(".term")?;
    Ok(path)
}

// That the file of a term has something else.
fn no_term() -> io::Error {
    io::Error::new(ErrorKind::InvalidData, "it is no line `term N`")
}

// The term that a file has.
fn term_in(mut file: File) -> io::Result<u64> {
    let mut text = [0u8; LONGEST_FILE];
    let mut count = 0;
    for _ in 0..LONGEST_FILE {
        if count >= LONGEST_FILE {
            break;
        }
        match file.read(&mut text[count..])? {
            0 => break,
            more => count = count.saturating_add(more).min(LONGEST_FILE),
        }
    }
    let named = match text.get(..count) {
        Some(text) => term_named(text.strip_suffix(b"\n").unwrap_or(b"")),
        None => None,
    };
    match named {
        Some(term) => Ok(term),
        None => Err(no_term()),
    }
}

// The term in the file of a path, or the first one where there is none.
fn term_at<Rt: Files<File = File>>(rt: &Rt, path: &str) -> io::Result<u64> {
    match fs::open(rt, path) {
        Ok(file) => term_in(file),
        Err(error) if error.kind() == ErrorKind::NotFound => Ok(FIRST_TERM),
        Err(error) => Err(error),
    }
}

/// The term of a board, which all its threads know, and the file in which it stands, where its journal is kept. And the term
/// of the board that was met last.
pub struct BoardTerm {
    path: Option<String>,
    own: Arc<AtomicU64>,
    met: Arc<AtomicU64>,
}

impl Drop for BoardTerm {
    fn drop(self) {
        let BoardTerm {
            path: _,
            own: _,
            met: _,
        } = self;
    }
}

impl BoardTerm {
    // The term of a board that stands in the file of a path, if there is one.
    fn of(alloc: Global, path: Option<String>, own: u64) -> Result<BoardTerm, AllocError>
        ensures { IfOk result (λ term. option_map string_bytes term.path ≡ option_map string_bytes path) }
    {
        Ok(BoardTerm {
            path,
            own: Arc::new(alloc, AtomicU64::new(own))?,
            met: Arc::new(alloc, AtomicU64::new(0))?,
        })
    }

    /// The first term, of a board whose journal is kept nowhere. `Err` only where memory was refused.
    pub fn first(alloc: Global) -> Result<BoardTerm, AllocError>
        ensures { IfOk result (λ term. option_map string_bytes term.path ≡ None) }
    {
        BoardTerm::of(alloc, None, FIRST_TERM)
    }

    /// The term of the board that keeps its journal in the file of this path: that in the file beside it, or the first one
    /// where there is none. The system's error where that can't be read, one of the kind `InvalidData` where it has
    /// something else, one of the kind `OutOfMemory` where memory was refused.
    pub fn read<Rt: Files<File = File>>(
        rt: &Rt,
        alloc: Global,
        journal: &str,
    ) -> io::Result<BoardTerm>
        ensures { IfOk result (λ term. option_map string_bytes term.path ≡ Some (term_path journal.now)) }
    {
        let path = term_path(alloc, journal)?;
        let own = term_at(rt, path.as_str())?;
        Ok(BoardTerm::of(alloc, Some(path), own)?)
    }

    /// The same once more, for another thread. `Err` only where memory was refused.
    pub fn copy(&self, alloc: Global) -> Result<BoardTerm, AllocError>
        ensures { IfOk result (λ term. option_map string_bytes term.path ≡ option_map string_bytes self.now.path) }
    {
        let path = match &self.path {
            Some(path) => Some(String::from_str(alloc, path.as_str())?),
            None => None,
        };
        Ok(BoardTerm {
            path,
            own: Arc::try_clone(&self.own)?,
            met: Arc::try_clone(&self.met)?,
        })
    }

    /// The term of this board.
    pub fn own(&self) -> u64 {
        self.own.load(Ordering::SeqCst)
    }

    /// Another board was met, which has this term.
    pub fn meet(&self, other: u64) {
        self.met.store(other, Ordering::SeqCst);
    }

    /// The term of the board that was met last, where this one was replaced by that.
    pub fn replaced_by(&self) -> Option<u64> {
        let met = self.met.load(Ordering::SeqCst);
        if is_replaced(self.own(), met) {
            Some(met)
        } else {
            None
        }
    }

    /// Goes on in a later term: it stands on the disk, where the journal is kept, before it is this board's. An earlier one
    /// changes nothing. The system's error where it can't be written, one of the kind `OutOfMemory` where memory was
    /// refused.
    pub fn raise<Rt: Paths>(&self, rt: &Rt, alloc: Global, later: u64) -> io::Result<()> {
        if !is_replaced(self.own(), later) {
            return Ok(());
        }
        if let Some(path) = &self.path {
            let text = term_text(alloc, later)?;
            rt.put_text(alloc, path.as_str(), text.as_slice())?;
        }
        self.own.store(later, Ordering::SeqCst);
        Ok(())
    }

    /// This board takes over now. An error as of `raise`, or one of the kind `InvalidData` where there is no later term.
    pub fn take_over<Rt: Paths + Clock>(&self, rt: &Rt, alloc: Global) -> io::Result<()> {
        match term_after(self.own(), seconds(rt)) {
            Some(later) => self.raise(rt, alloc, later),
            None => Err(no_term()),
        }
    }
}
