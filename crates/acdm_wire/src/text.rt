//! A text on its way to a writer.
ghost use Rattle.std.specs.Prelude.{◌≡◌, ◌+◌, ◌≤◌, ◌++◌, [], length};
ghost use Rattle.std.specs.Fmt.{decimal};
ghost use Rattle.acdm_wire.specs.declared.text.TheConstants.{LONGEST_TEXT};

use arrayvec::ArrayVec;
use itoa::Buffer;
use std::marker::Model;

/// The bytes of the longest text: a reply with a record of 160 bytes and an entry's number of 20
/// digits.
pub const LONGEST_TEXT: usize = 346;

/// A text on its way to a writer, so that it is one write: a reply, or a part of one. It takes no
/// memory, and at most `LONGEST_TEXT` bytes.
#[derive(Drop)]
pub struct TextBuffer {
    pub(crate) bytes: ArrayVec<u8, LONGEST_TEXT>,
}

impl Model for TextBuffer {
    ghost use Rattle.std.specs.Prelude.{ℕ, List};

    ghost Value = { List ℕ };

    ghost view = { λ t. t.bytes.items };
}

impl TextBuffer {
    /// No byte yet.
    pub fn new() -> TextBuffer
        ensures { result ≡ [] }
    {
        TextBuffer {
            bytes: ArrayVec::new(),
        }
    }

    /// These bytes behind what stands there.
    pub fn push(&mut self, more: &[u8])
        requires { length self.old + length more.now ≤ LONGEST_TEXT }
        ensures { self.new ≡ self.old ++ more.now }
    {
        if self.bytes.try_extend_from_slice(more).is_err() {
            unreachable!();
        }
    }

    /// A number in decimal digits, at most 20, behind what stands there.
    pub fn push_number(&mut self, number: u64)
        requires { length self.old + 20 ≤ LONGEST_TEXT }
        ensures text { self.new ≡ self.old ++ decimal number }
        ensures short { length self.new ≤ length self.old + 20 }
    {
        let mut digits = Buffer::new();
        self.push(digits.format(number).as_bytes());
    }

    /// The bytes that stand there.
    pub fn as_slice(&self) -> &[u8]
        ensures { result.now ≡ self.now }
    {
        self.bytes.as_slice()
    }
}
