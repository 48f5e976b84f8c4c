//! One connection of a place, as a reader.
ghost use Rattle.std.specs.Prelude.{◌≤◌, length};

use crate::held_place::Arrived;
use crate::places::PartnerPlace;
use acdm_lines::is_passing;
use std::io::{self, Read};
use std::net::TcpStream;
use std::sync::{Arc, Wait};

/// One connection of a place, from its first line on. It ends where its partner ends it, where a newer one is there, and where the
/// board closes. Where its session serves no further one, a last line that lacks its line feed is given
/// one.
pub struct Connection<'r, Rt> {
    rt: &'r Rt,
    place: Arc<PartnerPlace>,
    stream: TcpStream,
    number: u64,
    // What was read of it before it took the place, and how much of that was given.
    text: Vec<u8>,
    given: usize,
    // Whether a line was begun and has not ended.
    in_line: bool,
}

impl<Rt> Drop for Connection<'_, Rt> {
    fn drop(self) {
        let Connection {
            rt: _,
            place: _,
            stream: _,
            number: _,
            text: _,
            given: _,
            in_line: _,
        } = self;
    }
}

impl<'r, Rt: Wait> Connection<'r, Rt> {
    /// The connection of this number at a place.
    pub(crate) fn new(
        rt: &'r Rt,
        place: Arc<PartnerPlace>,
        number: u64,
        arrived: Arrived,
    ) -> Connection<'r, Rt> {
        let Arrived { stream, text } = arrived;
        Connection {
            rt,
            place,
            stream,
            number,
            text,
            given: 0,
            in_line: false,
        }
    }

    // Gives what was read before it took the place, as far as it was not given.
    fn give_first(&mut self, buf: &mut [u8]) -> usize
        ensures { result ≤ length buf.new }
    {
        let rest = self.text.as_slice().get(self.given..).unwrap_or(&[]);
        let count = rest.len().min(buf.len());
        buf[..count].copy_from_slice(&rest[..count]);
        self.given = self.given.saturating_add(count);
        count
    }

    // What a read gave ends so.
    fn note(&mut self, given: &[u8]) {
        if let Some(last) = given.last() {
            self.in_line = *last != b'\n';
        }
    }

    // The end of its text: a line feed where a last line is to be answered that lacks it, and then nothing.
    fn end(&mut self, buf: &mut [u8]) -> usize
        ensures { result ≤ length buf.new }
    {
        if self.place.terms.again || !self.in_line {
            return 0;
        }
        match buf.first_mut() {
            Some(first) => {
                *first = b'\n';
                self.in_line = false;
                1
            }
            None => 0,
        }
    }
}

impl<Rt: Wait> Read for Connection<'_, Rt> {
    fn read(&mut self, buf: &mut [u8]) -> io::Result<usize> {
        for _ in 0..u64::MAX {
            if self.place.is_past(self.rt, self.number) {
                return Ok(0);
            }
            let first = self.give_first(buf);
            if first > 0 {
                self.note(&buf[..first]);
                return Ok(first);
            }
            match self.stream.read(buf) {
                Ok(0) => return Ok(self.end(buf)),
                Ok(count) => {
                    self.note(&buf[..count]);
                    return Ok(count);
                }
                Err(error) if is_passing(&error) => {}
                Err(error) => return Err(error),
            }
        }
        Ok(0)
    }
}
