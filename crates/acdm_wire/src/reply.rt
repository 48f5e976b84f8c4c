//! Replies, as they are written.
ghost use Rattle.std.specs.Prelude.{◌≡◌, ◌≤◌, ◌++◌, ◌∷◌, [], false, length, OnOk};
ghost use Rattle.std.specs.List.{flat_map};
ghost use Rattle.acdm_wire.specs.Writes.{Writes};
ghost use Rattle.acdm_step.specs.declared.outcome.Outcome.TheVariants.{Done, Refused, Shown};
ghost use Rattle.acdm_wire.specs.Replies.{next_text, list_head, list_text, entry_text, bad_text};

use crate::fault::Bad;
use crate::list_item::ListItem;
use crate::reply_text::{done, head, refused, rejected, shown};
use crate::text::TextBuffer;
use acdm_lines::{RunError, Sink};
use acdm_milestones::Refusal;
use acdm_record::Record;
use acdm_step::Outcome;
use std::io::Write;

/// Writes all these bytes. The writer is not flushed. `Write` where the writer failed, after some of
/// the first of them.
pub fn write_whole<W: Write>(writer: &mut Sink<W>, bytes: &[u8]) -> Result<(), RunError>
    ensures { Writes writer.old writer.new bytes.now result }
{
    let mut at = 0;
    while at < bytes.len() {
        match writer.write(&bytes[at..]) {
            Ok(taken) if taken > 0 => at += taken,
            _ => return Err(RunError::Write),
        }
    }
    Ok(())
}

/// Writes all these bytes, and lets them go at once. `Write` where the writer failed, after some of
/// the first of them.
pub fn write_out<W: Write>(writer: &mut Sink<W>, bytes: &[u8]) -> Result<(), RunError>
    ensures writes { Writes writer.old writer.new bytes.now result }
    ensures flushed { OnOk result (writer.new.waits ≡ false) }
{
    write_whole(writer, bytes)?;
    match writer.flush() {
        Ok(()) => Ok(()),
        Err(_) => Err(RunError::Write),
    }
}

// Writes items of a list after a first one, as many in one write as have room in a text.
fn write_more<W: Write, T: ListItem>(writer: &mut Sink<W>, items: &[T]) -> Result<(), RunError>
    ensures { Writes writer.old writer.new (flat_map (next_text T.item_text) items.now) result }
{
    let mut text = TextBuffer::new();
    let mut rest = items;
    while let Some((item, more)) = rest.split_first() {
        text.put_next(item);
        rest = text.push_more(more);
        write_whole(writer, text.as_slice())?;
    }
    Ok(())
}

// Writes the items of a list.
fn write_items<W: Write, T: ListItem>(writer: &mut Sink<W>, items: &[T]) -> Result<(), RunError>
    ensures { Writes writer.old writer.new (list_text T.item_text items.now) result }
{
    let Some((first, more)) = items.split_first() else {
        return write_whole(writer, b"-");
    };
    let mut text = TextBuffer::new();
    text.put_first(first);
    write_whole(writer, text.as_slice())?;
    write_more(writer, more)
}

// Each reply is written by a function of its own, which is not inlined: a text is zeroed where it is
// made, and no reply pays for the texts of others.

#[inline(never)]
fn write_done<W: Write>(writer: &mut Sink<W>, number: u64) -> Result<(), RunError>
    ensures { Writes writer.old writer.new (entry_text number Done) result }
{
    write_whole(writer, done(number).as_slice())
}

#[inline(never)]
fn write_shown<W: Write>(writer: &mut Sink<W>, number: u64, record: &Record) -> Result<(), RunError>
    ensures { Writes writer.old writer.new
        (entry_text number (Shown «record».now)) result }
{
    write_whole(writer, shown(number, record).as_slice())
}

#[inline(never)]
fn write_refused<W: Write>(
    writer: &mut Sink<W>,
    number: u64,
    refusal: Refusal,
) -> Result<(), RunError>
    ensures { Writes writer.old writer.new
        (entry_text number (Refused refusal)) result }
{
    write_whole(writer, refused(number, refusal).as_slice())
}

// A reply with a list, in pieces: what stands before it, and its items.
#[inline(never)]
fn write_list<W: Write, T: ListItem>(
    writer: &mut Sink<W>,
    word: &str,
    number: u64,
    items: &[T],
) -> Result<(), RunError>
    requires { length word.now ≤ 8 }
    ensures { Writes writer.old writer.new
        (list_head word.now number ++ (list_text T.item_text items.now ++ 10 ∷ [])) result }
{
    write_whole(writer, head(word, number).as_slice())?;
    write_items(writer, items)?;
    write_whole(writer, b"\n")
}

/// Writes the reply to a line that made the entry of this number, with what came of it. The writer
/// is not flushed. `Write` where the writer failed, after some of the first bytes of the reply.
pub fn write_entered<W: Write>(
    writer: &mut Sink<W>,
    number: u64,
    outcome: &Outcome,
) -> Result<(), RunError>
    ensures { Writes writer.old writer.new (entry_text number outcome.now) result }
{
    match outcome {
        Outcome::Done => write_done(writer, number),
        Outcome::Shown(record) => write_shown(writer, number, record),
        Outcome::Listed(list) => write_list(writer, "alerts", number, list.as_slice()),
        Outcome::Migrated(list) => write_list(writer, "migrated", number, list.as_slice()),
        Outcome::Refused(refusal) => write_refused(writer, number, *refusal),
    }
}

/// Writes the reply to a line that made no entry. The writer is not flushed. `Write` as for
/// `write_entered`.
#[inline(never)]
pub fn write_rejected<W: Write>(writer: &mut Sink<W>, bad: Bad) -> Result<(), RunError>
    ensures { Writes writer.old writer.new (bad_text bad) result }
{
    write_whole(writer, rejected(bad).as_slice())
}
