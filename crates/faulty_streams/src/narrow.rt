//! A writer that takes few bytes at once, and fails at a place.
ghost use Rattle.std.specs.Prelude.{◌≡◌, ◌≢◌, ◌-◌, ◌<◌, [], Ok, Some, IfOk, IsErr, IsOk, length, min};
ghost use Rattle.std.specs.Io.{WritesAtMost};
ghost use Rattle.std.specs.Io.KnownBytes.{Keeps, WriteAppends};

use acdm_lines::ReplyWriter;
use std::alloc::Global;
use std::io::{self, ErrorKind, Write};

/// What becomes of a writer that has no write left.
#[derive(Clone, Copy)]
pub enum Fault {
    /// Each further write fails.
    Fails,
    /// Each further write takes nothing.
    TakesNone,
    /// Writes go on, and each further flush fails.
    CannotFlush,
}

/// Takes a few bytes a write, until no write is left. Each flush succeeds before that.
#[derive(Drop)]
pub struct Narrow {
    /// All that it took.
    pub taken: Vec<u8>,
    /// How many bytes a write takes at most.
    pub piece: usize,
    /// How many writes are left.
    pub left: u64,
    /// What becomes of it then.
    pub fault: Fault,
}

impl Narrow {
    /// A writer that has taken nothing.
    pub fn new(alloc: Global, piece: usize, left: u64, fault: Fault) -> Narrow
        ensures taken { result.taken.items ≡ [] }
        ensures piece { result.piece ≡ piece }
        ensures left { result.left ≡ left }
        ensures fault { result.fault ≡ fault }
    {
        Narrow {
            taken: Vec::new(alloc),
            piece,
            left,
            fault,
        }
    }
}

impl Write for Narrow {
    ghost contents = { λ s. Some s.taken.items };

    // `BrokenPipe` once no write is left, where it `Fails`, and `OutOfMemory` where memory for the
    // bytes was refused.
    fn write(&mut self, buf: &[u8]) -> io::Result<usize>
        ensures bound { WritesAtMost result buf.now }
        ensures bytes { WriteAppends (Some self.old.taken.items) (Some self.new.taken.items) result
            buf.now }
        ensures takes { 0 < self.old.left → IfOk result (λ n. n ≡ min (length buf.now)
            self.old.piece) }
        ensures fails { self.old.left ≡ 0 → self.old.fault ≡ Fault.Fails → IsErr result }
        ensures takes_none { self.old.left ≡ 0 → self.old.fault ≡ Fault.TakesNone → result ≡ Ok 0 }
        ensures left { self.new.left ≡ self.old.left - 1 }
        ensures piece { self.new.piece ≡ self.old.piece }
        ensures fault { self.new.fault ≡ self.old.fault }
    {
        match (self.left.checked_sub(1), self.fault) {
            (Some(left), _) => self.left = left,
            (None, Fault::Fails) => return Err(io::Error::from(ErrorKind::BrokenPipe)),
            (None, Fault::TakesNone) => return Ok(0),
            (None, Fault::CannotFlush) => {}
        }
        let count = buf.len().min(self.piece);
        self.taken.extend_from_slice(&buf[..count])?;
        Ok(count)
    }

    // `BrokenPipe` where no write is left and it `CannotFlush`.
    fn flush(&mut self) -> io::Result<()>
        ensures bytes { Keeps (Some self.old.taken.items) (Some self.new.taken.items) }
        ensures same { self.new ≡ self.old }
        ensures fails { self.old.left ≡ 0 → self.old.fault ≡ Fault.CannotFlush → IsErr result }
        ensures early { 0 < self.old.left → IsOk result }
        ensures flushed { self.old.fault ≢ Fault.CannotFlush → IsOk result }
    {
        match (self.left, self.fault) {
            (0, Fault::CannotFlush) => Err(io::Error::from(ErrorKind::BrokenPipe)),
            _ => Ok(()),
        }
    }
}

/// It holds nothing back.
impl ReplyWriter for Narrow {
    ghost tells = { λ _ _. Unit {0} };

    fn announce(&mut self, _number: u64) {}
}
