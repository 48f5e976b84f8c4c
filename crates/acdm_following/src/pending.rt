//! What was read and not yet taken.
ghost use Rattle.std.specs.Prelude.{◌≡◌, ◌<◌, ◌+◌, ◌++◌, ◌∷◌, [], drop, length, take, position};
ghost use Rattle.std.specs.Prelude.{IfSome, MatchOption, OnErr, OnOk};
ghost use Rattle.acdm_lines.specs.Lines.{IsLine, is_line_feed};

use memchr::memchr;
use std::alloc::{AllocError, Global};
use std::marker::Model;

/// Bytes that are still to be taken.
#[derive(Drop)]
pub(crate) struct Pending {
    bytes: Vec<u8>,
    start: usize,
}

impl Model for Pending {
    ghost use Rattle.std.specs.Prelude.{ℕ, List, ◌≤◌, drop, length};

    ghost Value = { List ℕ };

    ghost view = { λ p. drop p.start p.bytes.items };

    ghost invariant = { λ p. p.start ≤ length p.bytes.items };
}

impl Pending {
    /// None.
    pub(crate) fn new(alloc: Global) -> Pending
        ensures { result ≡ [] }
    {
        Pending {
            bytes: Vec::new(alloc),
            start: 0,
        }
    }

    /// All of them.
    pub(crate) fn as_slice(&self) -> &[u8]
        ensures { result.now ≡ self.now }
    {
        &self.bytes[self.start..]
    }

    /// Takes so many bytes, or all where there are fewer.
    pub(crate) fn take(&mut self, count: usize)
        ensures { self.new ≡ drop count self.old }
    {
        self.start += count.min(self.bytes.len() - self.start);
    }

    /// Adds bytes behind the others. Where memory is refused for them nothing has changed.
    pub(crate) fn add(&mut self, more: &[u8]) -> Result<(), AllocError>
        ensures added { OnOk result (self.new ≡ self.old ++ more.now) }
        ensures err { OnErr result (self.new ≡ self.old) }
    {
        let mut bytes = Vec::new(*self.bytes.allocator());
        bytes.extend_from_slice(&self.bytes[self.start..])?;
        bytes.extend_from_slice(more)?;
        self.bytes = bytes;
        self.start = 0;
        Ok(())
    }
}

// The place of the first line feed.
fn line_feed(text: &[u8]) -> Option<usize>
    ensures place { result ≡ position is_line_feed text.now }
    ensures inside { IfSome result (λ i. i < length text.now) }
{
    memchr(b'\n', text)
}

/// Where the first line of a text ends.
pub(crate) fn line_end(text: &[u8]) -> Option<usize>
    ensures { MatchOption result (IsLine text.now) (λ n. (n < length text.now) × IsLine (take n text.now)
        × (text.now ≡ take n text.now ++ 10 ∷ drop (n + 1) text.now)) }
{
    match line_feed(text) {
        Some(end) => Some(end),
        None => None,
    }
}
