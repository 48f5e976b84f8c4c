//! A reader with a count of its faults, and a log of its bytes for proofs.
ghost use Rattle.std.specs.Prelude.{◌≡◌, ◌++◌, [], true, false, is_err, IfSome};
ghost use Rattle.std.specs.Io.{ReadsAtMost};
ghost use Rattle.std.specs.Io.KnownBytes.{ReadConsumes, Consumes, IsAtEnd};
ghost use Rattle.acdm_lines.specs.Counted.{faults_after, moved, tells_end};

use crate::faults::count_fault;
use crate::log::Log;
use std::io::{self, Read};
use std::marker::Model;

/// A reader, and how often it failed. A fault is any error.
///
/// Clauses also know its `log`, all bytes that its reads gave since it was made, whatever reader it
/// is; whether it has `ended`: the last read gave none where there was room; and `first`, the bytes
/// that it was to give where they were known when it was made, as those of a slice are.
pub struct Source<R: Read> {
    inner: R,
    faults: u64,
    log: Log,
}

impl<R: Read + Drop> Drop for Source<R> {
    fn drop(self) {
        let Source {
            inner: _,
            faults: _,
            log: _,
        } = self;
    }
}

impl<R: Read> Model for Source<R> {
    ghost use Rattle.std.specs.Prelude.{◌≡◌, true};
    ghost use Rattle.std.specs.Io.KnownBytes.{Consumes, IsAtEnd};
    ghost use Rattle.acdm_lines.specs.Counted.{SourceView};

    ghost Value = { SourceView R };

    ghost view = { λ s. record {
      inner = s.inner;
      first = s.log.first;
      faults = s.faults;
      log = s.log.bytes;
      ended = s.log.ended;
    } };

    ghost invariant = { λ s. Consumes s.log.first (R.remaining s.inner) s.log.bytes
        × (s.log.ended ≡ true → IsAtEnd (R.remaining s.inner)) };
}

impl<R: Read> Source<R> {
    /// A reader of which nothing was read, and that has not failed.
    pub fn new(inner: R) -> Source<R>
        ensures { result ≡ record {
          inner = inner;
          first = R.remaining inner;
          faults = 0;
          log = [];
          ended = false;
        } }
    {
        let log = Log::of(&inner);
        Source {
            inner,
            faults: 0,
            log,
        }
    }

    /// How often it failed.
    pub fn faults(&self) -> u64
        ensures { result ≡ self.now.faults }
    {
        self.faults
    }

    /// The reader itself. Where it was known at first what it would give, the log is that, less
    /// what it has left, and all of it where it has ended.
    pub fn into_inner(self) -> R
        ensures same { result ≡ self.inner }
        ensures known { Consumes self.first (R.remaining result) self.log }
        ensures end { self.ended ≡ true → IsAtEnd (R.remaining result) }
        ensures whole { self.ended ≡ true → IfSome self.first (λ all. self.log ≡ all) }
    {
        let Source {
            inner: reader,
            faults: _,
            log: _,
        } = self;
        reader
    }
}

impl<R: Read> Read for Source<R> {
    ghost remaining = { λ s. R.remaining s.inner };

    fn read(&mut self, buf: &mut [u8]) -> io::Result<usize>
        ensures bound { ReadsAtMost result buf.new }
        ensures bytes { ReadConsumes (R.remaining self.old.inner) (R.remaining self.new.inner)
            result buf.new }
        ensures first { self.new.first ≡ self.old.first }
        ensures faults { self.new.faults ≡ faults_after (is_err result) self.old.faults }
        ensures log { self.new.log ≡ self.old.log ++ moved result buf.new }
        ensures ended { self.new.ended ≡ tells_end result buf.new }
    {
        let result = self.inner.read(buf);
        match &result {
            Ok(count) => {
                let ended = *count == 0 && !buf.is_empty();
                self.log.note(&buf[..*count], ended);
            }
            Err(_) => {
                self.log.note(&[], false);
                count_fault(&mut self.faults);
            }
        }
        result
    }
}
