//! Which bytes of the stack were written, as the bits of eight words.

ghost use Rattle.std.specs.Prelude.{◌≡◌, ◌<◌, ◌≤◌, ◌+◌, ◌++◌, true, drop, take, length, replicate};
ghost use Rattle.std.specs.Prelude.{slice_set};
ghost use Rattle.std.specs.List.{list_all};
ghost use Rattle.bpf_regstate.specs.Joins.{join_marks};
ghost use Rattle.bpf_regstate.specs.Marks.{is_marked, marks_of};

use bpf_semantics::STACK_LENGTH;

/// Whether a byte is marked.
fn is_marked(words: &[u64], place: usize) -> bool
    requires eight { length words.now ≡ 8 }
    requires inside { place < 512 }
    ensures { result ≡ is_marked words.now place }
{
    words[place / 64] >> (place % 64) & 1 == 1
}

/// Marks a byte.
fn mark(words: &mut [u64], place: usize)
    requires eight { length words.old ≡ 8 }
    requires inside { place < 512 }
    ensures { marks_of words.new ≡ slice_set (marks_of words.old) place true }
{
    words[place / 64] |= 1 << (place % 64);
}

/// Marks so many bytes from a place on.
pub fn mark_from(words: &mut [u64], at: usize, count: usize)
    requires eight { length words.old ≡ 8 }
    requires inside { at + count ≤ 512 }
    ensures { marks_of words.new ≡ take at (marks_of words.old) ++
        (replicate count true ++ drop (at + count) (marks_of words.old)) }
{
    for place in at..at + count {
        mark(words, place);
    }
}

/// Whether so many bytes from a place on are marked, of those that are there.
pub fn are_marked(words: &[u64], at: usize, count: usize) -> bool
    requires { length words.now ≡ 8 }
    ensures { result ≡ list_all (λ mark. mark) (take count (drop at (marks_of words.now))) }
{
    let end = at.saturating_add(count).min(STACK_LENGTH);
    for place in at..end {
        if !is_marked(words, place) {
            return false;
        }
    }
    true
}

/// Keeps the marks that both have.
pub fn join_words(words: &mut [u64], others: &[u64])
    requires eight { length words.old ≡ 8 }
    requires eight_too { length others.now ≡ 8 }
    ensures { marks_of words.new ≡ join_marks (marks_of words.old) (marks_of others.now) }
{
    for i in 0..words.len() {
        words[i] &= others[i];
    }
}
