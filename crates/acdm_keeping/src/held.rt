//! Replies that are held back.
ghost use Rattle.std.specs.Prelude.{◌≡◌, ◌≤◌, ◌++◌, [], length, take, drop, IfOk, OnErr};

use std::alloc::{AllocError, Global};
use std::marker::Model;

/// The bytes of replies that were taken and not yet handed on. Clauses see these.
#[derive(Drop)]
pub(crate) struct HeldReplies {
    bytes: Vec<u8>,
    // How many of the first were handed on.
    gone: usize,
    // How many there are at most.
    room: usize,
}

impl Model for HeldReplies {
    ghost use Rattle.std.specs.Prelude.{ℕ, List, ◌≤◌, drop, length};

    ghost Value = { List ℕ };

    ghost view = { λ h. drop h.gone h.bytes.items };

    ghost invariant = { λ h. h.gone ≤ length h.bytes.items };
}

impl HeldReplies {
    /// None, and room for so many. `Err` only where memory was refused.
    pub(crate) fn new(alloc: Global, room: usize) -> Result<HeldReplies, AllocError>
        ensures { IfOk result (λ held. held ≡ []) }
    {
        Ok(HeldReplies {
            bytes: Vec::with_capacity(alloc, room)?,
            gone: 0,
            room,
        })
    }

    /// Whether no further one has room.
    pub(crate) fn is_full(&self) -> bool {
        self.room <= self.bytes.len()
    }

    /// Takes as many of these bytes as have room, and says how many. `Err` only where memory was refused.
    pub(crate) fn take(&mut self, buf: &[u8]) -> Result<usize, AllocError>
        ensures bound { IfOk result (λ count. count ≤ length buf.now) }
        ensures took { IfOk result (λ count. self.new ≡ self.old ++ take count buf.now) }
        ensures same { OnErr result (self.new ≡ self.old) }
    {
        let count = buf.len().min(self.room.saturating_sub(self.bytes.len()));
        self.bytes.extend_from_slice(&buf[..count])?;
        Ok(count)
    }

    /// The bytes.
    pub(crate) fn as_slice(&self) -> &[u8]
        ensures { result.now ≡ self.now }
    {
        &self.bytes[self.gone..]
    }

    /// Gives up the first ones, so many, which were handed on.
    pub(crate) fn consume(&mut self, count: usize)
        requires { count ≤ length self.old }
        ensures { self.new ≡ drop count self.old }
    {
        self.gone += count;
        if self.gone == self.bytes.len() {
            self.bytes.clear();
            self.gone = 0;
        }
    }
}
