//! What was read and not yet taken.
ghost use Rattle.std.specs.Prelude.{◌≡◌, ◌<◌, ◌≤◌, [], length, drop, position, IfOk, IfSome};
ghost use Rattle.acdm_lines.specs.Lines.{is_line_feed, most_held};
ghost use Rattle.acdm_lines.specs.NextLine.{Fills};

use crate::run_error::RunError;
use crate::source::Source;
use memchr::memchr;
use std::alloc::{AllocError, Global};
use std::io::Read;
use std::marker::Model;

const MOST_HELD: usize = 65_536;

/// The bytes of one read that are still to be taken.
pub struct Window {
    bytes: Vec<u8>,
    start: usize,
    end: usize,
}

impl Drop for Window {
    fn drop(self) {
        let Window {
            bytes: _,
            start: _,
            end: _,
        } = self;
    }
}

impl Model for Window {
    ghost use Rattle.std.specs.Prelude.{ℕ, List, ◌≡◌, ◌≤◌, slice_range, length};
    ghost use Rattle.acdm_lines.specs.Lines.{most_held};

    ghost Value = { List ℕ };

    ghost view = { λ w. slice_range w.bytes.items w.start w.end };

    ghost invariant = { λ w. (w.start ≤ w.end) × (w.end ≤ length w.bytes.items)
        × (length w.bytes.items ≡ most_held) };
}

impl Window {
    /// An empty window, with its room for one read.
    pub fn new(alloc: Global) -> Result<Window, AllocError>
        ensures { IfOk result (λ w. w ≡ []) }
    {
        let mut bytes = Vec::new(alloc);
        bytes.resize(MOST_HELD, 0)?;
        Ok(Window {
            bytes,
            start: 0,
            end: 0,
        })
    }

    /// The bytes that are still to be taken.
    pub fn as_slice(&self) -> &[u8]
        ensures bytes { result.now ≡ self.now }
        ensures fits { length self.now ≤ most_held }
    {
        &self.bytes[self.start..self.end]
    }

    /// The place of the first line feed.
    pub fn line_feed(&self) -> Option<usize>
        ensures place { result ≡ position is_line_feed self.now }
        ensures inside { IfSome result (λ i. i < length self.now) }
    {
        memchr(b'\n', self.as_slice())
    }

    /// Takes all bytes.
    pub fn clear(&mut self)
        ensures { self.new ≡ [] }
    {
        self.start = 0;
        self.end = 0;
    }

    /// Takes so many bytes, or all where there are fewer.
    pub fn consume(&mut self, amount: usize)
        ensures { self.new ≡ drop amount self.old }
    {
        self.start += amount.min(self.end - self.start);
    }

    /// Reads once, in place of what is held. Nothing is held afterwards where the input has ended.
    pub fn fill<R: Read>(&mut self, reader: &mut Source<R>) -> Result<(), RunError>
        ensures fills { Fills reader.old reader.new self.new result }
        ensures fits { length self.new ≤ most_held }
    {
        self.start = 0;
        self.end = 0;
        match reader.read(self.bytes.as_mut_slice()) {
            Ok(count) => {
                self.end = count;
                Ok(())
            }
            Err(_) => Err(RunError::Read),
        }
    }
}
