//! The entries of a row as text, written while it grows.
ghost use Rattle.std.specs.Prelude.{◌≡◌, ℕ, List, [], false, reverse, IfErr, IfOk, OnOk};
ghost use Rattle.std.specs.Arc.{arc_value};
ghost use Rattle.acdm_step.specs.declared.entry.Entry.{Entry as AnEntry};
ghost use Rattle.acdm_displays.specs.Displayed.{CutsShort, Follows};
ghost use Rattle.acdm_displays.specs.Displayed.{WasSent, WasTold};
ghost use Rattle.acdm_displays.specs.Within.{IsNoLess, IsWithin, StaysWithin};
ghost use Rattle.acdm_step.specs.History.{IsLegal};

use crate::asked::Start;
use crate::beginning::{pass_to_start, send_first};
use crate::entries::{Entries, Seen, most_shown, seen_of};
use crate::leaving::has_left;
use crate::telling::{Changes, Journal, Sharing, Telling};
use acdm_failures::Failure;
use acdm_keeping::Extent;
use acdm_lines::{Sink, write_whole};
use acdm_row::Row;
use acdm_watch::Watch;
use std::alloc::Global;
use std::io::{Read, Write};
use std::sync::atomic::Ordering;

/// How many bytes are gathered until they are sent, where more entries are in sight.
pub(crate) const BUFFER: usize = 65_536;

/// How often in a row a writer may take nothing in its time, until it is given up.
pub(crate) const MOST_REFUSALS: u64 = 120;

/// What was shown to a display: the watch that saw it, the extent that says that it is kept, where entries
/// are kept, and the writer that took it.
#[derive(Drop)]
pub struct Shown<W: Write> {
    pub watch: Watch,
    pub extent: Option<Extent>,
    pub writer: Sink<W>,
}

/// Writes the entries of a row as text, from the first one on and as they come, until the last one
/// was made or the reader has ended; where they are kept, none before it is. It takes no lock of the board's.
/// It waits for the reader, which is read from
/// after all entries in sight were written and flushed, and whose bytes are dropped; and for the
/// writer, until that has taken nothing 120 times in a row, each time as long as its timeout is.
///
/// It gives back the watch and the writer: the writer took the text of what the watch has seen, and
/// nothing else, whatever writer it is, and all of it was flushed. Where entries are kept, the watch has seen no
/// more than the extent says. What a pass of the same row has
/// seen is the same as far as the shorter goes, which `Watch::meet` tells.
///
/// `Save` where the writer failed, `Memory` where it was refused.
pub fn follow<R: Read, W: Write + Drop>(
    alloc: Global,
    entries: &Entries<'_>,
    reader: &mut R,
    mut writer: Sink<W>,
) -> Result<Shown<W>, Failure>
    ensures sent { IfOk result (WasSent (arc_value entries.now.row.now) entries.now.reach writer.log) }
    ensures failed { IfErr result CutsShort }
{
    let mut seen = seen_of(alloc, entries)?;
    let mut teller = Journal;
    send_on(alloc, &mut teller, &mut seen, entries, reader, &mut writer)?;
    Ok(shown_of(seen, writer))
}

/// What was shown. (That the board is asked for tells a proof that what was seen is legal.)
pub(crate) fn shown_of<W: Write + Drop>(seen: Seen, writer: Sink<W>) -> Shown<W>
    ensures watch { result.watch ≡ seen.watch }
    ensures extent { result.extent ≡ seen.extent }
    ensures writer { result.writer ≡ writer }
    ensures legal { IsLegal seen.watch.row.sigs (reverse seen.watch.seen) }
{
    let Seen { watch, extent } = seen;
    let _board = watch.board();
    Shown {
        watch,
        extent,
        writer,
    }
}

/// Writes the feed of a row, where `follow` writes its journal: what each entry says and changes, as
/// a line of JSON. It begins with the entry of a number, and the line of the journal before it, as soon as
/// that has an entry; or, where it is asked for that, and where not all entries before that number are in
/// sight, with the line of the board of all entries in sight. Then it goes on with the entry that comes next.
pub fn follow_changes<R: Read, W: Write + Drop>(
    alloc: Global,
    entries: &Entries<'_>,
    start: Start,
    reader: &mut R,
    mut writer: Sink<W>,
) -> Result<Shown<W>, Failure>
    ensures sent { IfOk result (WasTold start (arc_value entries.now.row.now) entries.now.reach writer.log) }
    ensures failed { IfErr result CutsShort }
{
    let mut seen = seen_of(alloc, entries)?;
    let mut teller = Changes::new(alloc, entries.row.len() as u64);
    let most = most_shown(seen.extent);
    pass_to_start(&mut teller, &mut seen.watch, entries.row, start, most)?;
    send_first(alloc, &teller, &seen.watch, start, &mut writer)?;
    send_on(alloc, &mut teller, &mut seen, entries, reader, &mut writer)?;
    Ok(shown_of(seen, writer))
}

/// Writes what a watch sees, as it comes, until the last entry was made or the reader has ended.
/// What tells the last one is read before the last look, so that no entry comes between.
pub(crate) fn send_on<T: Telling, R: Read, W: Write + Drop>(
    alloc: Global,
    teller: &mut T,
    seen: &mut Seen,
    entries: &Entries<'_>,
    reader: &mut R,
    writer: &mut Sink<W>,
) -> Result<(), Failure>
    requires row { arc_value entries.now.row.now ≡ seen.old.watch.row }
    requires within { IsWithin seen.old.extent seen.old.watch.seen }
    ensures row { seen.new.watch.row ≡ seen.old.watch.row }
    ensures sent { OnOk result (Follows T.tells teller.old teller.new seen.old.watch.seen
        seen.new.watch.seen writer.old.log writer.new.log) }
    ensures within { OnOk result (IsWithin seen.new.extent seen.new.watch.seen) }
    ensures kept { OnOk result (IsNoLess seen.old.extent seen.new.extent) }
    ensures flushed { OnOk result (writer.new.waits ≡ false) }
    ensures failed { IfErr result CutsShort }
{
    for _ in 0..u64::MAX {
        let is_last = entries.closing.load(Ordering::SeqCst);
        send_kept(alloc, teller, seen, entries, writer)?;
        if is_last || has_left(reader) {
            return Ok(());
        }
    }
    send_kept(alloc, teller, seen, entries, writer)
}

// Writes all entries that are in sight, as far as they are kept by now, and flushes them.
fn send_kept<T: Telling, W: Write + Drop>(
    alloc: Global,
    teller: &mut T,
    seen: &mut Seen,
    entries: &Entries<'_>,
    writer: &mut Sink<W>,
) -> Result<(), Failure>
    requires row { arc_value entries.now.row.now ≡ seen.old.watch.row }
    requires within { IsWithin seen.old.extent seen.old.watch.seen }
    ensures row { seen.new.watch.row ≡ seen.old.watch.row }
    ensures sent { OnOk result (Follows T.tells teller.old teller.new seen.old.watch.seen
        seen.new.watch.seen writer.old.log writer.new.log) }
    ensures within { OnOk result (IsWithin seen.new.extent seen.new.watch.seen) }
    ensures kept { OnOk result (IsNoLess seen.old.extent seen.new.extent) }
    ensures flushed { OnOk result (writer.new.waits ≡ false) }
    ensures failed { IfErr result CutsShort }
{
    let extent = entries.later(seen.extent);
    seen.extent = extent;
    let most = most_shown(extent);
    send_all(alloc, teller, &mut seen.watch, entries.row, most, writer)
}

/// Writes all entries that are in sight, up to so many, and flushes them.
pub(crate) fn send_all<T: Telling, W: Write + Drop>(
    alloc: Global,
    teller: &mut T,
    watch: &mut Watch,
    row: &Row,
    most: usize,
    writer: &mut Sink<W>,
) -> Result<(), Failure>
    requires { row.now ≡ watch.old.row }
    ensures row { watch.new.row ≡ watch.old.row }
    ensures sent { OnOk result (Follows T.tells teller.old teller.new watch.old.seen watch.new.seen
        writer.old.log writer.new.log) }
    ensures within { OnOk result (StaysWithin most watch.old.seen watch.new.seen) }
    ensures flushed { OnOk result (writer.new.waits ≡ false) }
    ensures failed { IfErr result CutsShort }
{
    let mut text = Vec::new(alloc);
    for _ in watch.len()..row.len() {
        if watch.len() >= most {
            break;
        }
        if !teller.add_next(watch, row, &mut text)? {
            break;
        }
        if text.len() >= BUFFER {
            write_whole(writer, text.as_slice(), MOST_REFUSALS)?;
            text.clear();
        }
    }
    write_whole(writer, text.as_slice(), MOST_REFUSALS)?;
    if writer.flush().is_err() {
        return Err(Failure::Save);
    }
    Ok(())
}
