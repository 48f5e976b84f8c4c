//! Replies behind the keeping of the entries that they tell of.
ghost use Rattle.std.specs.Prelude.{◌≡◌, ◌<◌, Bool, ℕ, None, [], IfErr, IfOk, IfSome, MatchOption, OnErr, OnOk};
ghost use Rattle.std.specs.Io.{WritesAtMost};
ghost use Rattle.std.specs.Io.KnownBytes.{WriteAppends};
ghost use Rattle.acdm_failures.specs.declared.failure.Failure.TheVariants.{Save};
ghost use Rattle.acdm_keeping.specs.Behind.{HandsBehind, HandsOn, IsBacked, IsTold, TakesSome, handed};
ghost use Rattle.acdm_keeping.specs.Kept.{CutsShort};

use crate::backed::Backed;
use crate::held::HeldReplies;
use crate::keeper::{Keeper, Receipt};
use acdm_failures::Failure;
use acdm_lines::{ReplyWriter, Sink};
use std::alloc::{AllocError, Global};
use std::io::{self, ErrorKind, Write};

/// Who keeps the entries of a journal, for a writer of replies that tell of them.
pub trait EntryKeeper {
    /// Whether it keeps any. Where it does not, nobody waits for it.
    ghost keeps: { Self → Bool };

    /// By a receipt that it holds the entry of this number is kept, and all before it, if it keeps any.
    ghost covers: { Self → ℕ → Type 0 };

    /// Returns once the entry of this number is kept, if there is one, and all before it, with the receipt for that.
    ///
    /// `Save` where the writer failed, now or before, or where the entry is not in sight, `Memory` where it was refused.
    fn keep_to(&mut self, last: Option<u64>) -> Result<Option<Receipt>, Failure>
        ensures kept { IfOk result (IsBacked (keeps self.old) last) }
        ensures covered { OnOk result (MatchOption last (Unit {0}) (covers self.new)) }
        ensures holds { OnErr result ((n : ℕ) → covers self.old n → covers self.new n) }
        ensures same { keeps self.new ≡ keeps self.old }
        ensures failed { IfErr result CutsShort };
}

/// How many entries there are up to that of a number, if there is one. `Save` where 64 bits do not hold that.
pub(crate) fn entries_to(last: Option<u64>) -> Result<usize, Failure>
    ensures all { IfOk result (λ count. IfSome last (λ number. number < count)) }
    ensures failed { IfErr result (λ e. e ≡ Save) }
{
    let Some(last) = last else {
        return Ok(0);
    };
    match last.checked_add(1) {
        Some(count) => Ok(count as usize),
        None => Err(Failure::Save),
    }
}

impl<'a, F: Write + Drop> EntryKeeper for &'a mut Keeper<F> {
    ghost use Rattle.std.specs.Prelude.{true};

    ghost keeps = { λ _. true };

    ghost covers = { λ _ _. Unit {0} };

    fn keep_to(&mut self, last: Option<u64>) -> Result<Option<Receipt>, Failure> {
        let count = entries_to(last)?;
        let receipt = self.kept()?;
        if count <= receipt.count() {
            return Ok(Some(receipt));
        }
        let receipt = self.keep()?;
        if count <= receipt.count() {
            return Ok(Some(receipt));
        }
        Err(Failure::Save)
    }
}

/// A writer of replies that hands on nothing before the entries are kept of which it may tell. It holds replies back
/// until there are many, or until it is flushed, and waits for the entries of all of them at once. Where they can't be
/// kept, nothing is handed on any more.
pub struct Replies<K: EntryKeeper + Drop, W: Write + Drop> {
    backed: Backed<K>,
    writer: Sink<W>,
    held: HeldReplies,
    // The greatest number of an entry that was announced.
    last: Option<u64>,
    // The latest receipt.
    receipt: Option<Receipt>,
}

impl<K: EntryKeeper + Drop, W: Write + Drop> Drop for Replies<K, W> {
    fn drop(self) {
        let Replies {
            backed: _,
            writer: _,
            held: _,
            last: _,
            receipt: _,
        } = self;
    }
}

impl<K: EntryKeeper + Drop, W: Write + Drop> Replies<K, W> {
    /// Replies to this writer, behind this keeper, of which so many bytes are held back at most, from 1. `Err` only
    /// where memory was refused.
    pub fn new(
        alloc: Global,
        keeper: K,
        writer: W,
        room: usize,
    ) -> Result<Replies<K, W>, AllocError>
        ensures keeper { IfOk result (λ r. (r.backed.keeper ≡ keeper) × (r.backed.handed ≡ None)) }
        ensures writer { IfOk result (λ r. (r.writer.inner ≡ writer) × (r.writer.log ≡ [])) }
        ensures held { IfOk result (λ r. r.held ≡ []) }
        ensures last { IfOk result (λ r. r.last ≡ None) }
    {
        Ok(Replies {
            backed: Backed::new(keeper),
            writer: Sink::new(writer),
            held: HeldReplies::new(alloc, room)?,
            last: None,
            receipt: None,
        })
    }

    // Hands on what is held back, once the entries are kept of which it may tell.
    fn send(&mut self) -> io::Result<()>
        ensures all { HandsOn (handed self.old.writer.log self.old.held)
            (handed self.new.writer.log self.new.held) }
        ensures empty { OnOk result (self.new.held ≡ []) }
        ensures behind { HandsBehind (K.keeps self.old.backed.keeper) self.old.last self.new.receipt
            self.new.backed.handed self.old.writer.log self.new.writer.log }
        ensures keeper { K.keeps self.new.backed.keeper ≡ K.keeps self.old.backed.keeper }
        ensures last { self.new.last ≡ self.old.last }
    {
        match self.backed.keep_to(self.last) {
            Ok(receipt) => self.receipt = receipt,
            Err(_) => return Err(io::Error::from(ErrorKind::Other)),
        }
        hand_on(&mut self.writer, &mut self.held)
    }

    /// Who keeps the entries, and the greatest number of one that had been announced when bytes were handed on last:
    /// it covers that one, and all before it.
    pub fn into_keeper(self) -> (K, Option<u64>)
        ensures keeper { result.0 ≡ self.backed.keeper }
        ensures handed { result.1 ≡ self.backed.handed }
        ensures covered { MatchOption result.1 (Unit {0}) (K.covers result.0) }
    {
        let Replies {
            backed,
            writer: _,
            held: _,
            last: _,
            receipt: _,
        } = self;
        backed.into_parts()
    }
}

// Hands on bytes that were held back. A write that a signal interrupts is made once more.
fn hand_on<W: Write>(writer: &mut Sink<W>, held: &mut HeldReplies) -> io::Result<()>
    ensures all { HandsOn (handed writer.old.log held.old) (handed writer.new.log held.new) }
    ensures empty { OnOk result (held.new ≡ []) }
{
    let mut signals_left = u64::MAX;
    while !held.as_slice().is_empty() {
        match writer.write(held.as_slice()) {
            Ok(0) => return Err(io::Error::from(ErrorKind::WriteZero)),
            Ok(count) => held.consume(count),
            Err(error) if error.kind() == ErrorKind::Interrupted && signals_left > 0 => {
                signals_left -= 1;
            }
            Err(error) => return Err(error),
        }
    }
    Ok(())
}

impl<K: EntryKeeper + Drop, W: Write + Drop> Write for Replies<K, W> {
    fn write(&mut self, buf: &[u8]) -> io::Result<usize>
        ensures bound { WritesAtMost result buf.now }
        ensures bytes { WriteAppends None None result buf.now }
        ensures takes { TakesSome (handed self.old.writer.log self.old.held)
            (handed self.new.writer.log self.new.held) result buf.now }
        ensures behind { HandsBehind (K.keeps self.old.backed.keeper) self.old.last self.new.receipt
            self.new.backed.handed self.old.writer.log self.new.writer.log }
        ensures keeper { K.keeps self.new.backed.keeper ≡ K.keeps self.old.backed.keeper }
        ensures last { self.new.last ≡ self.old.last }
    {
        if self.held.is_full() {
            self.send()?;
        }
        Ok(self.held.take(buf)?)
    }

    fn flush(&mut self) -> io::Result<()>
        ensures all { HandsOn (handed self.old.writer.log self.old.held)
            (handed self.new.writer.log self.new.held) }
        ensures empty { OnOk result (self.new.held ≡ []) }
        ensures behind { HandsBehind (K.keeps self.old.backed.keeper) self.old.last self.new.receipt
            self.new.backed.handed self.old.writer.log self.new.writer.log }
        ensures keeper { K.keeps self.new.backed.keeper ≡ K.keeps self.old.backed.keeper }
        ensures last { self.new.last ≡ self.old.last }
    {
        self.send()?;
        self.writer.flush()
    }
}

impl<K: EntryKeeper + Drop, W: Write + Drop> ReplyWriter for Replies<K, W> {
    ghost use Rattle.acdm_keeping.specs.Behind.{IsTold};

    ghost tells = { λ r number. IsTold r.last number };

    fn announce(&mut self, number: u64)
        ensures told { IsTold self.new.last number }
        ensures before { (n : ℕ) → IsTold self.old.last n → IsTold self.new.last n }
        ensures same { (self.new.writer ≡ self.old.writer) × (self.new.held ≡ self.old.held)
            × (self.new.backed ≡ self.old.backed) }
    {
        self.last = match self.last {
            Some(last) if number <= last => Some(last),
            _ => Some(number),
        };
    }
}
