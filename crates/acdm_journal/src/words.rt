//! The words of a line, one after the other.
ghost use Rattle.std.specs.Prelude.{◌≡◌, ◌<◌, ℕ, List, [], ◌∷◌, true, false, length, position};
ghost use Rattle.std.specs.Prelude.{IfSome};
ghost use Rattle.acdm_journal.specs.Reading.{ReadsView, is_space, words_of, word_at};

use crate::stated::ReadError;
use std::marker::Model;

/// The words that are not taken yet. Between two of them stands one space.
#[derive(Drop)]
pub(crate) struct Words<'a> {
    rest: &'a [u8],
    ended: bool,
}

impl<'a> Model for Words<'a> {
    ghost use Rattle.std.specs.Prelude.{ℕ, List, [], if◌then◌else◌};
    ghost use Rattle.acdm_journal.specs.Reading.{words_of};

    ghost Value = { List (List ℕ) };

    ghost view = { λ w. if w.ended then [] else words_of w.rest.now };
}

// The place of the first space.
fn space_in(bytes: &[u8]) -> Option<usize>
    ensures place { result ≡ position is_space bytes.now }
    ensures inside { IfSome result (λ i. i < length bytes.now) }
{
    bytes.iter().position(|byte| *byte == b' ')
}

impl<'a> Words<'a> {
    /// The words of a line.
    pub(crate) fn of(line: &'a [u8]) -> Words<'a>
        ensures { result ≡ words_of line.now }
    {
        Words {
            rest: line,
            ended: false,
        }
    }

    /// Takes the next word. `Unreadable` where there is none.
    pub(crate) fn next(&mut self) -> Result<&'a [u8], ReadError>
        ensures { ReadsView (λ w. w.now) result self.new (word_at self.old) }
    {
        if self.ended {
            return Err(ReadError::Unreadable);
        }
        let rest = self.rest;
        match space_in(rest) {
            Some(end) => {
                self.rest = &rest[end + 1..];
                Ok(&rest[..end])
            }
            None => {
                self.ended = true;
                Ok(rest)
            }
        }
    }

    /// Whether all words are taken.
    pub(crate) fn is_empty(&self) -> bool
        ensures empty { result ≡ true → self.now ≡ [] }
        ensures some { result ≡ false → (w : List ℕ) × (ws : List (List ℕ)) × (self.now ≡ w ∷ ws) }
    {
        self.ended
    }
}
