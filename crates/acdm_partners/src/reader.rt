//! One reader over all connections of a session.
ghost use Rattle.std.specs.Prelude.{◌≡◌, ◌+◌, ◌<◌, ◌≤◌, true, false, [], ◌∷◌, ◌++◌, length, take};
ghost use Rattle.std.specs.Prelude.{IfOk, None};
ghost use Rattle.std.specs.Io.{ReadsAtMost};
ghost use Rattle.std.specs.Io.KnownBytes.{ReadConsumes};
ghost use Rattle.acdm_lines.specs.Counted.{moved};
ghost use Rattle.acdm_partners.specs.Heard.{GoesOn};

use crate::arrivals::Arrivals;
use crate::hearing::Hearing;
use std::alloc::{AllocError, Global};
use std::io::{self, Read};
use std::marker::Model;

/// A reader over all connections that come: it gives the whole lines of each, in order, with their
/// line feeds, and nothing else. What stands behind the last line feed of a connection is dropped.
/// Of a line that is longer than `MOST` bytes so many are given, and its line feed. A read gives bytes of
/// one line at most, and ends the input where no further line is admitted or no further connection comes.
pub struct WholeLines<A: Drop, R: Read + Drop, const MOST: usize> {
    arrivals: A,
    hearing: Hearing<R, MOST>,
    in_hand: bool,
    // Whether the line in the hand may be given.
    is_admitted: bool,
    at: usize,
    ghost inside: { in_hand ≡ true → at ≤ length hearing.line },
}

impl<A: Drop, R: Read + Drop, const MOST: usize> Drop for WholeLines<A, R, MOST> {
    fn drop(self) {
        let WholeLines {
            arrivals: _,
            hearing: _,
            in_hand: _,
            is_admitted: _,
            at: _,
        } = self;
    }
}

impl<A: Drop, R: Read + Drop, const MOST: usize> Model for WholeLines<A, R, MOST> {
    ghost use Rattle.acdm_partners.specs.Heard.{HeardView, heard};

    ghost Value = { HeardView };

    ghost view = { λ w. heard MOST w.hearing w.in_hand w.at };
}

// Puts the end of a line and its line feed into a buffer that has the room.
fn put_end(rest: &[u8], buf: &mut [u8])
    requires { length rest.now < length buf.old }
    ensures { take (length rest.now + 1) buf.new ≡ rest.now ++ 10 ∷ [] }
{
    buf[..rest.len()].copy_from_slice(rest);
    buf[rest.len()] = b'\n';
}

// Fills a buffer with a part of a line.
fn put_part(rest: &[u8], buf: &mut [u8])
    requires { length buf.old ≤ length rest.now }
    ensures { buf.new ≡ take (length buf.old) rest.now }
{
    buf.copy_from_slice(&rest[..buf.len()]);
}

impl<A: Arrivals<R> + Drop, R: Read + Drop, const MOST: usize> WholeLines<A, R, MOST> {
    /// A reader over these connections, of which none was heard. `Err` only where memory was refused.
    pub fn new(alloc: Global, arrivals: A) -> Result<WholeLines<A, R, MOST>, AllocError>
        ensures { IfOk result (λ w. (w.texts ≡ []) × (w.left ≡ [])) }
    {
        let hearing = Hearing::new(alloc)?;
        Ok(WholeLines {
            arrivals,
            hearing,
            in_hand: false,
            is_admitted: false,
            at: 0,
        })
    }

    // Takes the next line of the connections into the hand. Says whether there was one.
    fn take_line(&mut self) -> bool
        requires { self.old.in_line ≡ false }
        ensures goes { GoesOn MOST self.old self.new [] }
        ensures taken { result ≡ self.new.in_line }
    {
        for _ in 0..u64::MAX {
            if self.hearing.take_line() {
                self.in_hand = true;
                self.is_admitted = false;
                self.at = 0;
                return true;
            }
            let Some(reader) = self.arrivals.next() else {
                return false;
            };
            if self.hearing.begin(reader).is_err() {
                return false;
            }
        }
        false
    }

    // Has a line in the hand that may be given. Says whether there is one.
    fn has_line(&mut self) -> bool
        ensures goes { GoesOn MOST self.old self.new [] }
        ensures taken { result ≡ true → self.new.in_line ≡ true }
    {
        if !self.in_hand {
            self.arrivals.answered();
            if !self.take_line() {
                return false;
            }
        }
        if !self.is_admitted {
            self.is_admitted = self.arrivals.admits();
        }
        self.is_admitted
    }

    // Gives what there is room for of the line in the hand.
    fn give(&mut self, buf: &mut [u8]) -> usize
        requires { self.old.in_line ≡ true }
        ensures bound { result ≤ length buf.new }
        ensures gives { GoesOn MOST self.old self.new (take result buf.new) }
    {
        let rest = &self.hearing.line()[self.at..];
        let count = rest.len();
        if count < buf.len() {
            put_end(rest, buf);
            self.in_hand = false;
            count + 1
        } else {
            put_part(rest, buf);
            self.at += buf.len();
            buf.len()
        }
    }
}

impl<A: Arrivals<R> + Drop, R: Read + Drop, const MOST: usize> Read for WholeLines<A, R, MOST> {
    fn read(&mut self, buf: &mut [u8]) -> io::Result<usize>
        ensures bound { ReadsAtMost result buf.new }
        ensures bytes { ReadConsumes None None result buf.new }
        ensures lines { GoesOn MOST self.old self.new (moved result buf.new) }
    {
        if buf.is_empty() {
            return Ok(0);
        }
        if !self.has_line() {
            return Ok(0);
        }
        Ok(self.give(buf))
    }
}
