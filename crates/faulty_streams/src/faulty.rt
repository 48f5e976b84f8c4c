//! A reader that fails at a place.
ghost use Rattle.std.specs.Prelude.{◌≡◌, ◌-◌, ◌<◌, IfOk, IsErr, None, Ok, drop, length, min, take};
ghost use Rattle.std.specs.Io.{ReadsAtMost};
ghost use Rattle.std.specs.Io.KnownBytes.{ReadConsumes};

use std::io::{self, ErrorKind, Read};

/// Gives a text in pieces, and fails once no read is left. A read at the end of the text gives
/// nothing, and is one of those that are left.
#[derive(Drop)]
pub struct Faulty<'a> {
    /// What is still to be given.
    pub text: &'a [u8],
    /// How many bytes a read gives at most.
    pub piece: usize,
    /// How many reads succeed yet.
    pub left: u64,
}

impl Read for Faulty<'_> {
    // `BrokenPipe` once no read is left.
    fn read(&mut self, buf: &mut [u8]) -> io::Result<usize>
        ensures bound { ReadsAtMost result buf.new }
        ensures bytes { ReadConsumes None None result buf.new }
        ensures fails { self.old.left ≡ 0 → IsErr result }
        ensures gives { 0 < self.old.left → result ≡ Ok (min (min (length self.old.text.now)
            self.old.piece) (length buf.new)) }
        ensures given { IfOk result (λ n. take n buf.new ≡ take n self.old.text.now) }
        ensures rest { IfOk result (λ n. self.new.text.now ≡ drop n self.old.text.now) }
        ensures left { self.new.left ≡ self.old.left - 1 }
        ensures piece { self.new.piece ≡ self.old.piece }
    {
        let Some(left) = self.left.checked_sub(1) else {
            return Err(io::Error::from(ErrorKind::BrokenPipe));
        };
        self.left = left;
        let count = self.text.len().min(self.piece).min(buf.len());
        buf[..count].copy_from_slice(&self.text[..count]);
        self.text = &self.text[count..];
        Ok(count)
    }
}
