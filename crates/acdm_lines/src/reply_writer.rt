//! What replies are written to.
ghost use Rattle.std.specs.Prelude.{ℕ};
ghost use Rattle.std.specs.Io.KnownBytes.{Keeps};

use std::io::{BufWriter, Write};

/// A writer of replies, which is told of which entries of a journal they tell before it takes them. So it may hold them
/// back until these are kept.
pub trait ReplyWriter: Write {
    /// What it takes may tell of the entry of this number.
    ghost tells: { Self → ℕ → Type 0 };

    /// What it takes from now on may tell of the entry of this number, and of those before it.
    fn announce(&mut self, number: u64)
        ensures announced { tells self.new number }
        ensures bytes { Keeps (Self.contents self.old) (Self.contents self.new) };
}

/// It holds nothing back.
impl ReplyWriter for Vec<u8> {
    ghost tells = { λ _ _. Unit {0} };

    fn announce(&mut self, _number: u64) {}
}

/// It holds nothing back for the sake of an entry.
impl<W: Write + Drop> ReplyWriter for BufWriter<W> {
    ghost tells = { λ _ _. Unit {0} };

    fn announce(&mut self, _number: u64) {}
}
