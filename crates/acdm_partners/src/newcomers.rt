//! Who has connected at an address and is not served yet.
use crate::first_line::{FirstLine, judge_first};
use acdm_lines::is_passing;
use std::alloc::{AllocError, Global};
use std::io::{Read, Write};
use std::net::{Shutdown, SocketAddr, TcpStream};

/// How many newcomers an address has at most. For one more, the one that waits longest is closed.
const MOST_NEWCOMERS: usize = 8;

// How many bytes of a newcomer are read at once, and how often at one look.
const PIECE: usize = 4_096;

const MOST_READS: u32 = 32;

/// A connection whose first line is not there yet, and what came of it.
#[derive(Drop)]
pub(crate) struct Newcomer {
    pub(crate) stream: TcpStream,
    pub(crate) address: SocketAddr,
    pub(crate) text: Vec<u8>,
    has_ended: bool,
}

impl Newcomer {
    /// A connection of which nothing was read. `None` where it can't be read without waiting.
    pub(crate) fn new(alloc: Global, stream: TcpStream, address: SocketAddr) -> Option<Newcomer> {
        if stream.set_nonblocking(true).is_err() {
            return None;
        }
        Some(Newcomer {
            stream,
            address,
            text: Vec::new(alloc),
            has_ended: false,
        })
    }

    // Reads what has come, until as many bytes as a line may have are there. Says whether it is to be kept.
    fn read_on(&mut self, most: usize) -> bool {
        for _ in 0..MOST_READS {
            if self.has_ended || self.text.len() >= most {
                return true;
            }
            let mut piece = [0u8; PIECE];
            match self.stream.read(&mut piece) {
                Ok(0) => self.has_ended = true,
                Ok(count) => {
                    if self.text.extend_from_slice(&piece[..count]).is_err() {
                        return false;
                    }
                }
                Err(error) if is_passing(&error) => return true,
                Err(_) => return false,
            }
        }
        true
    }

    // Reads what has come, and says what that says of it. `None` where it has gone.
    fn look(&mut self, most: usize, again: bool) -> Option<FirstLine> {
        let before = self.text.len();
        if !self.read_on(most) {
            return None;
        }
        if self.text.len() == before && !self.has_ended {
            return Some(FirstLine::Waits);
        }
        let is_all = self.has_ended && !again && !self.text.is_empty();
        match judge_first(most, is_all, self.text.as_slice()) {
            FirstLine::Waits if self.has_ended => None,
            judged => Some(judged),
        }
    }

    /// Tells it that its line is no command, where it has a whole one, and closes it.
    pub(crate) fn refuse(mut self, is_whole: bool) {
        if is_whole {
            let _ = self.stream.write(b"bad 101\n");
        }
        let _ = self.stream.shutdown(Shutdown::Both);
    }
}

/// The newcomers of an address, in the order in which they came.
#[derive(Drop)]
pub(crate) struct Newcomers {
    waiting: Vec<Newcomer>,
}

impl Newcomers {
    /// None yet. `Err` only where memory was refused.
    pub(crate) fn new(alloc: Global) -> Result<Newcomers, AllocError> {
        let waiting = Vec::with_capacity(alloc, MOST_NEWCOMERS)?;
        Ok(Newcomers { waiting })
    }

    /// Adds a connection, in the place of the one that waits longest where there are eight.
    pub(crate) fn add(&mut self, alloc: Global, stream: TcpStream, address: SocketAddr) {
        let Some(newcomer) = Newcomer::new(alloc, stream, address) else {
            return;
        };
        if self.waiting.len() >= MOST_NEWCOMERS {
            let _oldest = self.waiting.remove(0);
        }
        let _ = self.waiting.push(newcomer);
    }

    /// The next whose first line is there, or who has gone, if there is one; and what its first line says of it, where
    /// it has one.
    pub(crate) fn next(
        &mut self,
        most: usize,
        again: bool,
    ) -> Option<(Newcomer, Option<FirstLine>)> {
        let mut at = 0;
        for _ in 0..MOST_NEWCOMERS {
            if at >= self.waiting.len() {
                return None;
            }
            let judged = self.waiting[at].look(most, again);
            if judged == Some(FirstLine::Waits) {
                at += 1;
                continue;
            }
            return Some((self.waiting.remove(at), judged));
        }
        None
    }

    /// Closes all of them.
    pub(crate) fn clear(&mut self) {
        self.waiting.clear();
    }
}
