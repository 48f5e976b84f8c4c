//! Whether a writer is told of which entries replies tell.
ghost use Rattle.std.specs.Prelude.{◌≡◌, ◌++◌, ◌∷◌, [], ℕ, Bool, true, if◌then◌else◌};

use acdm_lines::{ReplyWriter, Sink};
use std::io::Write;

/// How a writer is told of which entry the next reply tells.
pub(crate) trait Announcer<W: Write> {
    /// The next reply may tell of the entry of this number.
    ghost tells: { W → ℕ → Type 0 };

    /// Whether it is told at all.
    ghost is_told: { Bool };

    /// The next reply may tell of the entry of this number.
    fn announce(writer: &mut Sink<W>, number: u64)
        ensures announced { tells writer.new.inner number }
        ensures told { writer.new ≡ record writer.old {
          inner = writer.new.inner;
          told = if is_told then writer.old.told ++ number ∷ [] else writer.old.told;
        } };
}

/// By its own call, before the reply is written.
pub(crate) struct Aloud;

impl<W: ReplyWriter> Announcer<W> for Aloud {
    ghost tells = { W.tells };

    ghost is_told = { true };

    fn announce(writer: &mut Sink<W>, number: u64) {
        writer.announce(number);
    }
}
