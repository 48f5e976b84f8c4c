//! What is known of the aligned words of the stack, in a list from its end down. Of a word behind
//! the list nothing is known, so a list goes no further than to the lowest word that was stored
//! whole.

ghost use Rattle.std.specs.Prelude.{◌≡◌, ◌<◌, ◌≤◌, ◌+◌, if◌then◌else◌, is_ok, length};
ghost use Rattle.bpf_regstate.specs.Effect.{is_word, with_word, without_words, word_at};
ghost use Rattle.bpf_regstate.specs.Joins.{join_registers};

use crate::reg::{Reg, join_each};
use bpf_helpers::Range;
use std::alloc::AllocError;

/// Whether an access of so many bytes of the stack from a place on, at the addresses of a range, is
/// of one aligned word.
pub fn is_word(address: Range, at: usize, count: usize) -> bool
    ensures { result ≡ is_word address at count }
{
    count == 8 && address.lo == address.hi && at % 8 == 0
}

/// The word of a byte of the stack.
pub fn word_at(at: usize) -> usize
    requires { at < 512 }
    ensures value { result ≡ word_at at }
    ensures few { result < 64 }
{
    63 - at / 8
}

/// Keeps the range of a word. `Err` only where there is no memory, and then nothing has changed.
pub fn keep(words: &mut Vec<Reg>, word: usize, range: Range) -> Result<(), AllocError>
    requires { word < 64 }
    ensures { words.new.items
        ≡ (if is_ok result then with_word words.old.items word range else words.old.items) }
{
    if words.len() <= word {
        words.resize(word + 1, Reg::Uninit)?;
    }
    words[word] = Reg::Known(range);
    Ok(())
}

/// Keeps nothing of so many words from one on.
pub fn forget(words: &mut Vec<Reg>, word: usize, count: usize)
    requires { word + count ≤ 64 }
    ensures { words.new.items ≡ without_words words.old.items word count }
{
    let end = (word + count).min(words.len()).max(word);
    for place in word..end {
        words[place] = Reg::Uninit;
    }
}

/// Joins each word with the one at its place, as far as both lists go.
pub fn join_kept(words: &mut Vec<Reg>, others: &[Reg])
    ensures { words.new.items ≡ join_registers words.old.items others.now }
{
    words.truncate(others.len());
    let both = words.len();
    join_each(words.as_mut_slice(), &others[..both]);
}
