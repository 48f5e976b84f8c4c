//! Boards that follow this one, and say what they keep.
ghost use Rattle.std.specs.Prelude.{◌≤◌, IfSome};
ghost use Rattle.acdm_displays.specs.Asked.{NamesKept};

use acdm_confirming::Confirmed;
use acdm_keeping::Reach;
use acdm_lines::number_in;
use std::io::{self, ErrorKind, Read};
use std::net::TcpStream;
use std::sync::Wait;
use std::time::Clock as SystemClock;

/// How many bytes a line of a board that follows has at most.
const LONGEST_LINE: usize = 32;

/// How many entries a board says that it keeps, the first ones, by a line without its line feed: `kept N`, a decimal
/// number below 2^64 with no sign and no zero before it. No other line says so.
pub fn kept_named(line: &[u8]) -> Option<u64>
    ensures { IfSome result (NamesKept line.now) }
{
    let Ok(line) = str::from_utf8(line) else {
        return None;
    };
    let digits = line.strip_prefix("kept ")?;
    number_in(digits.as_bytes())
}

// The line that was begun, as far as it is kept.
#[derive(Drop)]
struct BegunLine {
    bytes: [u8; LONGEST_LINE],
    count: usize,
    is_long: bool,
    ghost fits: { count ≤ 32 },
}

impl BegunLine {
    fn new() -> BegunLine {
        BegunLine {
            bytes: [0; LONGEST_LINE],
            count: 0,
            is_long: false,
        }
    }

    // Takes a byte. Says how many entries are kept where that ends a line which says so.
    fn take(&mut self, byte: u8) -> Option<u64> {
        if byte == b'\n' {
            let kept = self.end();
            self.count = 0;
            self.is_long = false;
            return kept;
        }
        if self.count >= LONGEST_LINE {
            self.is_long = true;
            return None;
        }
        self.bytes[self.count] = byte;
        self.count += 1;
        None
    }

    // What the line says.
    fn end(&self) -> Option<u64> {
        if self.is_long {
            return None;
        }
        kept_named(&self.bytes[..self.count])
    }
}

/// The place of a board that follows, from 0, among those of which is known what they keep; and its name.
#[derive(Clone, Copy)]
pub(crate) struct FollowerPlace<'a> {
    pub(crate) confirmed: &'a Confirmed,
    pub(crate) at: usize,
    pub(crate) name: u64,
}

/// A board that follows, as it is read: what it says that it keeps is taken, and where a reply waits for more nothing comes
/// until more was sent.
#[derive(Drop)]
pub(crate) struct FollowingBoard<'a, Rt> {
    rt: &'a Rt,
    place: FollowerPlace<'a>,
    reach: Option<&'a Reach>,
    stream: TcpStream,
    line: BegunLine,
    // How many replies had begun to wait, and whether it was left to be sent more at the last read.
    seen: u64,
    is_woken: bool,
}

impl<'a, Rt: Wait + SystemClock> FollowingBoard<'a, Rt> {
    /// The board at this place, of which nothing was read.
    pub(crate) fn new(
        rt: &'a Rt,
        place: FollowerPlace<'a>,
        reach: Option<&'a Reach>,
        stream: TcpStream,
    ) -> FollowingBoard<'a, Rt> {
        FollowingBoard {
            rt,
            place,
            reach,
            stream,
            line: BegunLine::new(),
            seen: 0,
            is_woken: false,
        }
    }

    // Waits until a reply waits for more, for a moment. Says whether more is to be sent before it is read from.
    fn wakes(&mut self) -> bool {
        let FollowerPlace { confirmed, at, .. } = self.place;
        let begun = confirmed.wait_for_more(self.rt, at, self.seen);
        self.is_woken = begun != self.seen && !self.is_woken;
        self.seen = begun;
        self.is_woken
    }

    // Takes a byte that the board has sent.
    fn take(&mut self, byte: u8) {
        if let Some(count) = self.line.take(byte) {
            self.confirm(count);
        }
    }

    // Takes it that the board keeps so many entries. Of more than are kept here nobody can say so.
    fn confirm(&self, count: u64) {
        let own = match self.reach {
            Some(reach) => reach.latest().count() as u64,
            None => 0,
        };
        if count <= own {
            let FollowerPlace {
                confirmed,
                at,
                name,
            } = self.place;
            confirmed.confirm(self.rt, at, name, count);
        }
    }
}

impl<Rt: Wait + SystemClock> Read for FollowingBoard<'_, Rt> {
    fn read(&mut self, buf: &mut [u8]) -> io::Result<usize> {
        if self.wakes() {
            return Err(io::Error::from(ErrorKind::WouldBlock));
        }
        let count = self.stream.read(buf)?;
        for at in 0..count {
            self.take(buf[at]);
        }
        Ok(count)
    }
}
