//! A writer with a count of its faults, and a log of its bytes for proofs.
ghost use Rattle.std.specs.Prelude.{◌≡◌, ◌++◌, ◌∷◌, [], false, Some, is_err};
ghost use Rattle.std.specs.Io.{WritesAtMost};
ghost use Rattle.std.specs.Io.KnownBytes.{Appends, Keeps, WriteAppends};
ghost use Rattle.acdm_lines.specs.Counted.{faults_after, waits_after, waits_flushed, write_failed};

use crate::announced::Announced;
use crate::faults::count_fault;
use crate::log::Log;
use crate::reply_writer::ReplyWriter;
use std::io::{self, Write};
use std::marker::Model;

/// A writer, how often it failed, and whether bytes that it took may wait for a flush. A fault is
/// any error, and a write that takes none of some bytes.
///
/// Clauses also know its `log`, all bytes that its writes took since it was made, whatever writer it
/// is; `first`, the bytes that it held where they were known when it was made, as those of a
/// `Vec` are; and `told`, the numbers of the entries that it was told of, in order.
pub struct Sink<W: Write> {
    inner: W,
    faults: u64,
    waits: bool,
    log: Log,
    told: Announced,
}

impl<W: Write + Drop> Drop for Sink<W> {
    fn drop(self) {
        let Sink {
            inner: _,
            faults: _,
            waits: _,
            log: _,
            told: _,
        } = self;
    }
}

impl<W: Write> Model for Sink<W> {
    ghost use Rattle.std.specs.Io.KnownBytes.{Appends};
    ghost use Rattle.acdm_lines.specs.Counted.{SinkView};

    ghost Value = { SinkView W };

    ghost view = { λ s. record {
      inner = s.inner;
      first = s.log.first;
      faults = s.faults;
      waits = s.waits;
      log = s.log.bytes;
      told = s.told;
    } };

    ghost invariant = { λ s. Appends s.log.first (W.contents s.inner) s.log.bytes };
}

impl<W: Write> Sink<W> {
    /// A writer on which nothing was written, and that has not failed.
    pub fn new(inner: W) -> Sink<W>
        ensures { result ≡ record {
          inner = inner;
          first = W.contents inner;
          faults = 0;
          waits = false;
          log = [];
          told = [];
        } }
    {
        let log = Log::of(&inner);
        Sink {
            inner,
            faults: 0,
            waits: false,
            log,
            told: Announced::none(),
        }
    }

    /// How often it failed.
    pub fn faults(&self) -> u64
        ensures { result ≡ self.now.faults }
    {
        self.faults
    }

    /// Whether bytes that it took may wait for a flush.
    pub fn waits(&self) -> bool
        ensures { result ≡ self.now.waits }
    {
        let Sink { waits, .. } = self;
        *waits
    }

    /// The writer itself. Where it was known at first what it held, it holds that and the log.
    pub fn into_inner(self) -> W
        ensures same { result ≡ self.inner }
        ensures known { Appends self.first (W.contents result) self.log }
    {
        let Sink {
            inner: writer,
            faults: _,
            waits: _,
            log: _,
            told: _,
        } = self;
        writer
    }
}

impl<W: ReplyWriter> Sink<W> {
    /// What is written from now on may tell of the entry of this number, and of those before it.
    pub fn announce(&mut self, number: u64)
        ensures announced { W.tells self.new.inner number }
        ensures told { self.new ≡ record self.old {
          inner = self.new.inner;
          told = self.old.told ++ number ∷ [];
        } }
    {
        self.inner.announce(number);
        self.log.note(&[], false);
        self.told = self.told.with(number);
    }
}

impl<W: Write> Write for Sink<W> {
    // All that was written since it was made, which is known of every writer.
    ghost contents = { λ s. Some s.log };

    fn write(&mut self, buf: &[u8]) -> io::Result<usize>
        ensures bound { WritesAtMost result buf.now }
        ensures bytes { WriteAppends (Some self.old.log) (Some self.new.log) result buf.now }
        ensures known { WriteAppends (W.contents self.old.inner) (W.contents self.new.inner)
            result buf.now }
        ensures first { self.new.first ≡ self.old.first }
        ensures told { self.new.told ≡ self.old.told }
        ensures faults { self.new.faults ≡
            faults_after (write_failed result buf.now) self.old.faults }
        ensures waits { self.new.waits ≡ waits_after result self.old.waits }
    {
        let result = self.inner.write(buf);
        let failed = match &result {
            Ok(taken) => {
                self.log.note(&buf[..*taken], false);
                self.waits = self.waits || *taken > 0;
                *taken == 0 && !buf.is_empty()
            }
            Err(_) => {
                self.log.note(&[], false);
                true
            }
        };
        if failed {
            count_fault(&mut self.faults);
        }
        result
    }

    fn flush(&mut self) -> io::Result<()>
        ensures bytes { Keeps (Some self.old.log) (Some self.new.log) }
        ensures known { Keeps (W.contents self.old.inner) (W.contents self.new.inner) }
        ensures first { self.new.first ≡ self.old.first }
        ensures told { self.new.told ≡ self.old.told }
        ensures faults { self.new.faults ≡ faults_after (is_err result) self.old.faults }
        ensures waits { self.new.waits ≡ waits_flushed result self.old.waits }
    {
        let result = self.inner.flush();
        self.log.note(&[], false);
        if result.is_err() {
            count_fault(&mut self.faults);
        } else {
            self.waits = false;
        }
        result
    }
}
