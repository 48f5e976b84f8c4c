//! What a display is sent before the feed.
ghost use Rattle.std.specs.Prelude.{◌≡◌, ℕ, [], length, reverse, IfErr, OnOk};
ghost use Rattle.acdm_feed.specs.Knowing.{Knows};
ghost use Rattle.acdm_displays.specs.Displayed.{Begun, CutsShort, IsNext};
ghost use Rattle.acdm_displays.specs.Viewing.{IsUpTo};
ghost use Rattle.acdm_displays.specs.Within.{StaysWithin};

use crate::asked::Start;
use crate::following::MOST_REFUSALS;
use crate::telling::Sharing;
use acdm_failures::Failure;
use acdm_feed::{Known, pass_next};
use acdm_lines::{Sink, write_whole};
use acdm_row::Row;
use acdm_watch::Watch;
use std::alloc::Global;
use std::io::Write;

/// Passes over all entries that are in sight, up to so many.
pub(crate) fn pass_all(
    watch: &mut Watch,
    known: &mut Known,
    row: &Row,
    most: usize,
) -> Result<(), Failure>
    requires { row.now ≡ watch.old.row }
    ensures row { watch.new.row ≡ watch.old.row }
    ensures knows { OnOk result (Knows (reverse watch.old.seen) known.old
        → Knows (reverse watch.new.seen) known.new) }
    ensures within { OnOk result (StaysWithin most watch.old.seen watch.new.seen) }
    ensures failed { IfErr result CutsShort }
{
    for _ in watch.len()..row.len() {
        if watch.len() >= most {
            break;
        }
        if !pass_next(watch, known, row)? {
            break;
        }
    }
    Ok(())
}

/// Passes over the entries that come before what one asks for, as far as they are in sight, up to so many.
pub(crate) fn pass_to_start<T: Sharing>(
    teller: &mut T,
    watch: &mut Watch,
    row: &Row,
    start: Start,
    most: usize,
) -> Result<(), Failure>
    requires row { row.now ≡ watch.old.row }
    requires empty { watch.old.seen ≡ [] }
    ensures row { watch.new.row ≡ watch.old.row }
    ensures passed { OnOk result ((room : ℕ) → IsUpTo T.tells room teller.old watch.old.seen
        → IsUpTo T.tells room teller.new watch.new.seen) }
    ensures next { OnOk result (IsNext start (length watch.new.seen)) }
    ensures within { OnOk result (StaysWithin most watch.old.seen watch.new.seen) }
    ensures failed { IfErr result CutsShort }
{
    match start {
        Start::Entry(number) => teller.pass(watch, row, most.min(number as usize)),
        Start::Board => teller.pass(watch, row, most),
    }
}

/// Writes what comes first for who asks so, after what was seen.
pub(crate) fn send_first<T: Sharing, W: Write + Drop>(
    alloc: Global,
    teller: &T,
    watch: &Watch,
    start: Start,
    writer: &mut Sink<W>,
) -> Result<(), Failure>
    requires knows { (room : ℕ) × IsUpTo T.tells room teller.now watch.now.seen }
    requires next { IsNext start (length watch.now.seen) }
    ensures begins { OnOk result ((room : ℕ) → IsUpTo T.tells room teller.now watch.now.seen
        → (b : Begun) × T.begun writer.old.log start b × (b.room ≡ room)
        × T.tells teller.now watch.now.seen b writer.new.log) }
    ensures failed { IfErr result CutsShort }
{
    let mut text = Vec::new(alloc);
    teller.begin(watch, start, &mut text)?;
    write_whole(writer, text.as_slice(), MOST_REFUSALS)?;
    Ok(())
}
