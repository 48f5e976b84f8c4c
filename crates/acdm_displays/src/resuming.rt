//! The entries of a row as text, for who has the first ones.
ghost use Rattle.std.specs.Prelude.{◌≡◌, ◌==◌, ◌<◌, ◌≤◌, ◌+◌, ◌++◌, ℕ, List, [], true, false, length, reverse};
ghost use Rattle.std.specs.Prelude.{IfErr, IfOk, OnOk, if◌then◌else◌};
ghost use Rattle.std.specs.Arc.{arc_value};
ghost use Rattle.acdm_step.specs.declared.entry.Entry.{Entry as AnEntry};
ghost use Rattle.acdm_feed.specs.Naming.{name_of};
ghost use Rattle.acdm_feed.specs.Resumed.{named_line};
ghost use Rattle.acdm_displays.specs.Displayed.{Adds, BeginsText, Begun, CutsShort, IsNameOf};
ghost use Rattle.acdm_displays.specs.Displayed.{StaysNamed, TextFrom, WasSentAs, WasSentFrom};
ghost use Rattle.acdm_displays.specs.Within.{StaysWithin};

use crate::asked::{DisplayRequest, Start};
use crate::entries::{Entries, Prefix, most_shown, seen_of};
use crate::following::{MOST_REFUSALS, Shown, follow, send_on, shown_of};
use crate::telling::Telling;
use acdm_failures::Failure;
use acdm_feed::{journal_name, push_journal_named};
use acdm_journal::push_entry;
use acdm_lines::{Sink, write_whole};
use acdm_row::Row;
use acdm_step::Entry;
use acdm_watch::Watch;
use std::alloc::Global;
use std::io::{Read, Write};

// Tells the journal from the entry on that comes next, and before its first entry, where that was not passed over,
// the line of the journal, with room for so many entries.
#[derive(Drop)]
struct NamedJournal {
    room: u64,
}

// Adds the line of a journal before this entry, the one of this number, where that is the first one.
fn push_name_of(text: &mut Vec<u8>, entry: &Entry, number: u64, room: u64) -> Result<(), Failure>
    ensures added { OnOk result (text.new.items ≡ text.old.items
        ++ (if number == 0 then named_line (name_of entry.now) 0 room else [])) }
    ensures failed { IfErr result CutsShort }
{
    if number != 0 {
        return Ok(());
    }
    let name = journal_name(*text.allocator(), entry)?;
    push_journal_named(text, name.as_str(), 0, room)?;
    Ok(())
}

impl Telling for NamedJournal {
    ghost tells = { λ teller seen start log. TextFrom teller.room seen start log };

    fn add_next(
        &mut self,
        watch: &mut Watch,
        row: &Row,
        text: &mut Vec<u8>,
    ) -> Result<bool, Failure> {
        let number = watch.len() as u64;
        let Some(entry) = watch.take_next(row)? else {
            return Ok(false);
        };
        push_name_of(text, entry, number, self.room)?;
        push_entry(text, entry)?;
        Ok(true)
    }
}

// How far it was passed over entries: the name of their journal, where there was one, and whether it was over all that
// were to be.
#[derive(Drop)]
struct Passed {
    name: Option<String>,
    is_all: bool,
}

// Passes over the first entry, where it is in sight, and gives the name of the journal, which is by it.
fn pass_first(alloc: Global, watch: &mut Watch, row: &Row) -> Result<Option<String>, Failure>
    requires row { row.now ≡ watch.old.row }
    requires empty { watch.old.seen ≡ [] }
    ensures row { watch.new.row ≡ watch.old.row }
    ensures named { IfOk result (IsNameOf watch.new.seen) }
    ensures few { OnOk result (length watch.new.seen ≤ 1) }
    ensures failed { IfErr result CutsShort }
{
    let Some(entry) = watch.take_next(row)? else {
        return Ok(None);
    };
    let name = journal_name(alloc, entry)?;
    Ok(Some(name))
}

// Passes over the entry that comes next, where it is in sight, and says whether it was.
fn pass_one(watch: &mut Watch, row: &Row) -> Result<bool, Failure>
    requires { row.now ≡ watch.old.row }
    ensures row { watch.new.row ≡ watch.old.row }
    ensures named { OnOk result (StaysNamed watch.old.seen watch.new.seen) }
    ensures few { OnOk result (length watch.new.seen ≤ 1 + length watch.old.seen) }
    ensures failed { IfErr result CutsShort }
{
    let Some(_entry) = watch.take_next(row)? else {
        return Ok(false);
    };
    Ok(true)
}

// Passes over the entries that come next, as far as they are in sight, up to so many with those before.
fn pass_more(watch: &mut Watch, row: &Row, most: usize) -> Result<(), Failure>
    requires { row.now ≡ watch.old.row }
    ensures row { watch.new.row ≡ watch.old.row }
    ensures named { OnOk result (StaysNamed watch.old.seen watch.new.seen) }
    ensures within { OnOk result (StaysWithin most watch.old.seen watch.new.seen) }
    ensures failed { IfErr result CutsShort }
{
    for _ in watch.len()..row.len() {
        if watch.len() >= most {
            break;
        }
        if !pass_one(watch, row)? {
            break;
        }
    }
    Ok(())
}

// Passes over entries, as far as they are in sight, up to so many, and gives the name of their journal, where there
// was one.
fn pass_named(
    alloc: Global,
    watch: &mut Watch,
    row: &Row,
    most: usize,
) -> Result<Option<String>, Failure>
    requires row { row.now ≡ watch.old.row }
    requires empty { watch.old.seen ≡ [] }
    ensures row { watch.new.row ≡ watch.old.row }
    ensures named { IfOk result (IsNameOf watch.new.seen) }
    ensures within { OnOk result (length watch.new.seen ≤ most) }
    ensures failed { IfErr result CutsShort }
{
    if most == 0 {
        return Ok(None);
    }
    let Some(name) = pass_first(alloc, watch, row)? else {
        return Ok(None);
    };
    pass_more(watch, row, most)?;
    Ok(Some(name))
}

// Passes over the entries before the one of this number, as far as they are in sight, up to so many.
fn pass_before(
    alloc: Global,
    watch: &mut Watch,
    row: &Row,
    number: u64,
    most: usize,
) -> Result<Passed, Failure>
    requires row { row.now ≡ watch.old.row }
    requires empty { watch.old.seen ≡ [] }
    ensures row { watch.new.row ≡ watch.old.row }
    ensures named { IfOk result (λ p. IsNameOf watch.new.seen p.name) }
    ensures reaches { IfOk result (λ p. p.is_all ≡ true → length watch.new.seen ≡ number) }
    ensures past { IfOk result (λ p. p.is_all ≡ false → length watch.new.seen < number) }
    ensures within { OnOk result (length watch.new.seen ≤ most) }
    ensures failed { IfErr result CutsShort }
{
    let name = pass_named(alloc, watch, row, most.min(number as usize))?;
    let is_all = watch.len() as u64 >= number;
    Ok(Passed { name, is_all })
}

// Writes the line of the journal of this name, for who is sent the entries from this number on.
fn write_name<W: Write + Drop>(
    alloc: Global,
    name: &str,
    next: u64,
    room: u64,
    writer: &mut Sink<W>,
) -> Result<(), Failure>
    ensures written { OnOk result (writer.new.log ≡ writer.old.log ++ named_line name.now next room) }
    ensures failed { IfErr result CutsShort }
{
    let mut line = Vec::new(alloc);
    push_journal_named(&mut line, name, next, room)?;
    write_whole(writer, line.as_slice(), MOST_REFUSALS)?;
    Ok(())
}

// Passes over the entries before the one of this number, as far as they are in sight, and writes the line of the
// journal, where there is one of them. No others than those of the prefix are passed over.
fn begin_text<W: Write + Drop>(
    alloc: Global,
    number: u64,
    room: u64,
    watch: &mut Watch,
    prefix: Prefix<'_>,
    writer: &mut Sink<W>,
) -> Result<(), Failure>
    requires row { prefix.row.now ≡ watch.old.row }
    requires empty { watch.old.seen ≡ [] }
    ensures row { watch.new.row ≡ watch.old.row }
    ensures begins { OnOk result (BeginsText room number watch.new.seen writer.old.log writer.new.log) }
    ensures within { OnOk result (length watch.new.seen ≤ prefix.entry.most) }
    ensures failed { IfErr result CutsShort }
{
    let Prefix { row, most } = prefix;
    let Passed { name, is_all } = pass_before(alloc, watch, row, number, most)?;
    let Some(name) = name else {
        return Ok(());
    };
    if is_all {
        write_name(alloc, name.as_str(), number, room, writer)?;
        return Ok(());
    }
    let next = watch.len() as u64;
    write_name(alloc, name.as_str(), next, room, writer)?;
    Ok(())
}

/// Writes the entries of a row as text for who has the first ones, so many, where `follow` writes all of them: the line
/// of the journal, as soon as that has an entry, with the number of the entry that comes next, and the text from that
/// entry on. Where fewer than so many were in sight first, the entry behind those comes next.
pub fn follow_from<R: Read, W: Write + Drop>(
    alloc: Global,
    entries: &Entries<'_>,
    number: u64,
    reader: &mut R,
    mut writer: Sink<W>,
) -> Result<Shown<W>, Failure>
    ensures sent { IfOk result (WasSentFrom number (arc_value entries.now.row.now) entries.now.reach writer.log) }
    ensures failed { IfErr result CutsShort }
{
    let mut seen = seen_of(alloc, entries)?;
    let room = entries.row.len() as u64;
    let prefix = Prefix {
        row: entries.row,
        most: most_shown(seen.extent),
    };
    begin_text(alloc, number, room, &mut seen.watch, prefix, &mut writer)?;
    let mut teller = NamedJournal { room };
    send_on(alloc, &mut teller, &mut seen, entries, reader, &mut writer)?;
    Ok(shown_of(seen, writer))
}

/// Writes the entries of a row as text for a display that has asked so.
///
/// `Watch` where it has asked for no text of them; else as `follow`.
pub(crate) fn follow_asked<R: Read, W: Write + Drop>(
    alloc: Global,
    entries: &Entries<'_>,
    asked: DisplayRequest,
    reader: &mut R,
    writer: Sink<W>,
) -> Result<Shown<W>, Failure>
    ensures sent { IfOk result (WasSentAs asked (arc_value entries.now.row.now) entries.now.reach writer.log) }
{
    match asked {
        DisplayRequest::Silence => follow(alloc, entries, reader, writer),
        DisplayRequest::For(Start::Entry(number)) => follow_from(
            alloc, entries, number, reader, writer,
        ),
        DisplayRequest::Follow(start) => follow_from(alloc, entries, start.from, reader, writer),
        _ => Err(Failure::Watch),
    }
}
