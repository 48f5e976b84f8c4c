//! The writing of entries to the place where they are kept.
ghost use Rattle.std.specs.Prelude.{◌≡◌, ◌+◌, ◌++◌, ◌∷◌, [], ℕ, List, true, false, length, IfErr, IfOk};
ghost use Rattle.std.specs.Prelude.{IfSome, OnErr, OnOk, Ok, None};
ghost use Rattle.std.specs.Arc.{arc_value};
ghost use Rattle.acdm_failures.specs.declared.failure.Failure.TheVariants.{Memory, Save};
ghost use Rattle.acdm_keeping.specs.Kept.{AtAnyMoment, Blames, CutsShort, GrowsFrom, IsWriting, Keeps, SeesOn};

use acdm_failures::Failure;
use acdm_journal::{MOST_KEPT, push_entry};
use acdm_lines::{Sink, write_whole};
use acdm_row::Row;
use acdm_step::Entry;
use acdm_watch::Sight;
use std::alloc::{AllocError, Global};
use std::io::Write;
use std::marker::Model;
use std::sync::Arc;

/// How often in a row a writer may take nothing in its time, until it is given up.
const MOST_REFUSALS: u64 = 120;

/// How many bytes are gathered until they are written, where more entries are in sight.
const BUFFER: usize = 65_536;

/// That so many entries are kept: the first of a row. Only a keeper makes one, of what it has seen, as long as nothing
/// has failed: it has written all of that then, and nothing of it waits for a flush.
#[derive(Clone, Copy, Debug, PartialEq, Eq)]
pub struct Receipt {
    count: usize,
}

impl Receipt {
    /// How many entries are kept.
    pub fn count(self) -> usize
        ensures { result ≡ self.count }
    {
        self.count
    }
}

/// Who writes the entries of a row, as text, to the place where they are kept. It follows the row by
/// a sight of its own, and takes no lock. Its text is gathered in a buffer that it takes at its start, with
/// room for the longest line behind what is gathered, and that is written and used again.
pub struct Keeper<W: Write> {
    sight: Sight,
    row: Arc<Row>,
    writer: Sink<W>,
    text: Vec<u8>,
    has_failed: bool,
    // Whether that was for want of memory.
    lacks_memory: bool,
}

impl<W: Write + Drop> Drop for Keeper<W> {
    fn drop(self) {
        let Keeper {
            sight: _,
            row: _,
            writer: _,
            text: _,
            has_failed: _,
            lacks_memory: _,
        } = self;
    }
}

impl<W: Write> Model for Keeper<W> {
    ghost use Rattle.std.specs.Prelude.{◌≡◌, ◌<◌, true, false};
    ghost use Rattle.std.specs.Arc.{arc_value};
    ghost use Rattle.acdm_keeping.specs.Kept.{KeeperView};

    ghost Value = { KeeperView W };

    ghost view = { λ k. record {
      row = k.sight.row;
      seen = k.sight.entries;
      writer = k.writer;
      has_failed = k.has_failed;
    } };

    ghost invariant = { λ k. (arc_value k.row ≡ k.sight.row)
        × (k.has_failed ≡ false → k.writer.waits ≡ false)
        × (k.has_failed ≡ true → k.lacks_memory ≡ false → 0 < k.writer.faults) };
}

impl<W: Write + Drop> Keeper<W> {
    /// One that has seen nothing of a row, and writes to this writer. `Err` only where memory was
    /// refused.
    pub fn new(alloc: Global, row: &Arc<Row>, writer: W) -> Result<Keeper<W>, Failure>
        ensures row { IfOk result (λ k. k.row ≡ arc_value row.now) }
        ensures empty { IfOk result (λ k. k.seen ≡ []) }
        ensures writer { IfOk result (λ k. k.writer.inner ≡ writer) }
        ensures fresh { IfOk result (λ k. k.writer.log ≡ []) }
        ensures works { IfOk result (λ k. k.has_failed ≡ false) }
        ensures failed { IfErr result CutsShort }
    {
        let sight = Sight::new(alloc, Arc::try_clone(row)?);
        let row = Arc::try_clone(row)?;
        let text = Vec::with_capacity(alloc, BUFFER + MOST_KEPT)?;
        Ok(Keeper {
            sight,
            row,
            writer: Sink::new(writer),
            text,
            has_failed: false,
            lacks_memory: false,
        })
    }

    /// How many entries it has seen.
    pub fn len(&self) -> usize
        ensures { result ≡ length self.now.seen }
    {
        self.sight.len()
    }

    /// Its writer.
    pub fn into_writer(self) -> Sink<W>
        ensures { result ≡ self.writer }
    {
        let Keeper {
            sight: _,
            row: _,
            writer: sink,
            text: _,
            has_failed: _,
            lacks_memory: _,
        } = self;
        sink
    }

    /// Passes over so many entries, which are kept already. `Save` where fewer are in sight, `Memory`
    /// where it was refused.
    pub fn pass_over(&mut self, count: u64) -> Result<(), Failure>
        ensures row { self.new.row ≡ self.old.row }
        ensures writer { self.new.writer ≡ self.old.writer }
        ensures works { self.new.has_failed ≡ self.old.has_failed }
        ensures passed { OnOk result (length self.new.seen ≡ length self.old.seen + count) }
        ensures failed { IfErr result CutsShort }
    {
        pass_over(&mut self.sight, &self.row, count)
    }

    /// The receipt for what it has seen. `Save` where the writer has failed, `Memory` where that was refused to it.
    pub fn kept(&self) -> Result<Receipt, Failure>
        ensures count { IfOk result (λ r. r.count ≡ length self.now.seen) }
        ensures works { OnOk result (self.now.has_failed ≡ false) }
        ensures failed { IfErr result CutsShort }
        ensures blames { IfErr result (Blames self.now.writer) }
        ensures why { OnErr result (self.now.has_failed ≡ true) }
    {
        if self.has_failed {
            return Err(self.failure());
        }
        Ok(Receipt {
            count: self.sight.len(),
        })
    }

    // Why it keeps nothing more, where it does not.
    fn failure(&self) -> Failure
        ensures cut { CutsShort result }
        ensures blames { self.now.has_failed ≡ true → Blames self.now.writer result }
    {
        if self.lacks_memory {
            return Failure::Memory;
        }
        Failure::Save
    }

    /// Writes all entries in sight that were not written yet, and flushes them. After an error it
    /// writes nothing more, and gives no receipt.
    ///
    /// `Save` only where the writer failed, now or before, `Memory` where that was refused, now or before.
    pub fn keep(&mut self) -> Result<Receipt, Failure>
        ensures row { self.new.row ≡ self.old.row }
        ensures count { IfOk result (λ r. r.count ≡ length self.new.seen) }
        ensures kept { OnOk result (Keeps self.old.seen self.new.seen self.old.writer.log
            self.new.writer.log) }
        ensures flushed { OnOk result (self.new.writer.waits ≡ false) }
        ensures works { OnOk result (self.new.has_failed ≡ false) }
        ensures failed { IfErr result CutsShort }
        ensures blames { IfErr result (Blames self.new.writer) }
        ensures why { OnErr result (self.new.has_failed ≡ true) }
        ensures stays { OnOk result (self.old.has_failed ≡ false) }

        // What a crash at any moment of the call may leave of a file.
        ensures any_moment { AtAnyMoment self.old.seen self.new.seen self.old.writer.log self.new.writer.log }
        ensures still { self.old.has_failed ≡ true → self.new ≡ self.old }
    {
        if self.has_failed {
            return Err(self.failure());
        }
        self.text.clear();
        let sent = send_all(&mut self.sight, &self.row, &mut self.text, &mut self.writer);
        match sent {
            Ok(()) => {}
            Err(failure) => {
                self.has_failed = true;
                self.lacks_memory = is_of_memory(failure);
                return Err(failure);
            }
        }
        let receipt = self.kept()?;
        Ok(receipt)
    }
}

// Whether a writer is not to blame for a failure.
fn is_of_memory(failure: Failure) -> bool
    ensures { result ≡ false → failure ≡ Save }
{
    match failure {
        Failure::Save => false,
        _ => true,
    }
}

// Takes the next entry, where it is in sight, and shows it. `Err` only where memory was refused.
fn take_next<'a>(sight: &mut Sight, row: &'a Row) -> Result<Option<&'a Entry>, AllocError>
    requires { row.now ≡ sight.old.row }
    ensures row { sight.new.row ≡ sight.old.row }
    ensures took { IfOk result (λ o. IfSome o (λ e.
        sight.new.entries ≡ sight.old.entries ++ e.now ∷ [])) }
    ensures left { result ≡ Ok None → sight.new ≡ sight.old }
    ensures err { OnErr result (sight.new.entries ≡ sight.old.entries) }
{
    let Some((found, note)) = sight.look(row) else {
        return Ok(None);
    };
    sight.reserve()?;
    sight.take(note);
    Ok(Some(&found.entry))
}

// Takes so many entries.
fn pass_over(sight: &mut Sight, row: &Row, count: u64) -> Result<(), Failure>
    requires { row.now ≡ sight.old.row }
    ensures row { sight.new.row ≡ sight.old.row }
    ensures passed { OnOk result (length sight.new.entries ≡ length sight.old.entries + count) }
    ensures failed { IfErr result CutsShort }
{
    for _ in 0..count {
        if take_next(sight, row)?.is_none() {
            return Err(Failure::Save);
        }
    }
    Ok(())
}

// Adds the text of the next entry, where it is in sight, and says whether it was.
fn add_next(sight: &mut Sight, row: &Row, text: &mut Vec<u8>) -> Result<bool, Failure>
    requires { row.now ≡ sight.old.row }
    ensures row { sight.new.row ≡ sight.old.row }
    ensures added { OnOk result (Keeps sight.old.entries sight.new.entries text.old.items text.new.items) }
    ensures sees { SeesOn sight.old.entries sight.new.entries }
    ensures failed { IfErr result (λ e. e ≡ Memory) }
{
    let Some(entry) = take_next(sight, row)? else {
        return Ok(false);
    };
    push_entry(text, entry)?;
    Ok(true)
}

// Writes all entries in sight by way of an empty buffer, and flushes them.
fn send_all<W: Write>(
    sight: &mut Sight,
    row: &Row,
    text: &mut Vec<u8>,
    writer: &mut Sink<W>,
) -> Result<(), Failure>
    requires row { row.now ≡ sight.old.row }
    requires empty { text.old.items ≡ [] }
    ensures row { sight.new.row ≡ sight.old.row }
    ensures sent { OnOk result (Keeps sight.old.entries sight.new.entries writer.old.log writer.new.log) }
    ensures flushed { OnOk result (writer.new.waits ≡ false) }
    ensures sees { SeesOn sight.old.entries sight.new.entries }
    ensures part { OnErr result (IsWriting sight.old.entries sight.new.entries writer.old.log writer.new.log) }
    ensures grows { GrowsFrom writer.old.log writer.new.log }
    ensures failed { IfErr result CutsShort }
    ensures blames { IfErr result (Blames writer.new) }
{
    gather_all(sight, row, text, writer)?;
    send(writer, text)?;
    flush(writer)?;
    Ok(())
}

// Gathers all entries in sight, of which those are written that the buffer is full of.
fn gather_all<W: Write>(
    sight: &mut Sight,
    row: &Row,
    text: &mut Vec<u8>,
    writer: &mut Sink<W>,
) -> Result<(), Failure>
    requires { row.now ≡ sight.old.row }
    ensures row { sight.new.row ≡ sight.old.row }
    ensures gathered { OnOk result (Keeps sight.old.entries sight.new.entries
        (writer.old.log ++ text.old.items) (writer.new.log ++ text.new.items)) }
    ensures sees { SeesOn sight.old.entries sight.new.entries }
    ensures part { OnErr result (IsWriting sight.old.entries sight.new.entries
        (writer.old.log ++ text.old.items) writer.new.log) }
    ensures grows { GrowsFrom writer.old.log writer.new.log }
    ensures failed { IfErr result CutsShort }
    ensures blames { IfErr result (Blames writer.new) }
{
    for _ in sight.len()..row.len() {
        if !gather_next(sight, row, text, writer)? {
            break;
        }
    }
    Ok(())
}

// Gathers the next entry, where it is in sight, and says whether it was. What a full buffer holds is
// written.
fn gather_next<W: Write>(
    sight: &mut Sight,
    row: &Row,
    text: &mut Vec<u8>,
    writer: &mut Sink<W>,
) -> Result<bool, Failure>
    requires { row.now ≡ sight.old.row }
    ensures row { sight.new.row ≡ sight.old.row }
    ensures gathered { OnOk result (Keeps sight.old.entries sight.new.entries
        (writer.old.log ++ text.old.items) (writer.new.log ++ text.new.items)) }
    ensures sees { SeesOn sight.old.entries sight.new.entries }
    ensures part { OnErr result (IsWriting sight.old.entries sight.new.entries
        (writer.old.log ++ text.old.items) writer.new.log) }
    ensures grows { GrowsFrom writer.old.log writer.new.log }
    ensures failed { IfErr result CutsShort }
    ensures blames { IfErr result (Blames writer.new) }
{
    let is_there = add_next(sight, row, text)?;
    if text.len() < BUFFER {
        return Ok(is_there);
    }
    send(writer, text)?;
    Ok(is_there)
}

// Writes what is gathered in a buffer, which is empty then.
fn send<W: Write>(writer: &mut Sink<W>, text: &mut Vec<u8>) -> Result<(), Failure>
    ensures sent { OnOk result (writer.new.log ≡ writer.old.log ++ text.old.items) }
    ensures empty { OnOk result (text.new.items ≡ []) }
    ensures part { OnErr result ((rest : List ℕ) × (writer.old.log ++ text.old.items ≡ writer.new.log ++ rest)) }
    ensures grows { GrowsFrom writer.old.log writer.new.log }
    ensures failed { IfErr result CutsShort }
    ensures blames { IfErr result (Blames writer.new) }
{
    write_whole(writer, text.as_slice(), MOST_REFUSALS)?;
    text.clear();
    Ok(())
}

// Flushes a writer.
fn flush<W: Write>(writer: &mut Sink<W>) -> Result<(), Failure>
    ensures same { writer.new.log ≡ writer.old.log }
    ensures flushed { OnOk result (writer.new.waits ≡ false) }
    ensures failed { IfErr result (λ e. e ≡ Save) }
    ensures blames { IfErr result (Blames writer.new) }
{
    match writer.flush() {
        Ok(()) => Ok(()),
        Err(_) => Err(Failure::Save),
    }
}
