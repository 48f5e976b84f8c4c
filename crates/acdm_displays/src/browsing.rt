//! What a browser is sent.
ghost use Rattle.std.specs.Prelude.{◌≡◌, ◌++◌, false, IfErr, IfOk, OnOk};
ghost use Rattle.std.specs.Arc.{arc_value};
ghost use Rattle.acdm_web.specs.Answers.{answer_text};
ghost use Rattle.acdm_displays.specs.Displayed.{CutsShort, WasToldEvents, start_of};

use crate::asked::Start;
use crate::beginning::{pass_to_start, send_first};
use crate::entries::{Entries, most_shown, seen_of};
use crate::following::{MOST_REFUSALS, Shown, send_on, shown_of};
use crate::telling::{Events, Sharing};
use acdm_failures::Failure;
use acdm_lines::{Sink, write_whole};
use acdm_web::{BrowserRequest, Wanted, push_answer};
use httpdate::HttpDate;
use std::alloc::Global;
use std::io::{Read, Write};

/// Answers what a browser asks for, at this date where it is known: the page, the head of the events, or a
/// refusal in words.
///
/// `Save` where the writer failed, `Memory` where it was refused.
pub fn answer<W: Write>(
    alloc: Global,
    request: BrowserRequest,
    page: &str,
    date: Option<HttpDate>,
    writer: &mut Sink<W>,
) -> Result<(), Failure>
    ensures answered { OnOk result (writer.new.log
        ≡ writer.old.log ++ answer_text request page.now date) }
    ensures flushed { OnOk result (writer.new.waits ≡ false) }
    ensures failed { IfErr result CutsShort }
{
    let mut text = Vec::new(alloc);
    push_answer(&mut text, request, page, date)?;
    write_whole(writer, text.as_slice(), MOST_REFUSALS)?;
    if writer.flush().is_err() {
        return Err(Failure::Save);
    }
    Ok(())
}

/// What a browser asks for that names an entry, or none.
pub(crate) fn start_of(last: Option<u64>) -> Start
    ensures { result ≡ start_of last }
{
    match last {
        Some(number) => Start::Entry(number),
        None => Start::Board,
    }
}

/// Writes the events of a row for a browser, where `follow` writes its journal: behind the head of the
/// answer the feed, each line as an event. It begins with the entry of the number that the browser
/// names, the one behind the last that it has had, and the line of the journal before it, as soon as that
/// has an entry; or, where the browser names none or one that comes after those in sight, with the board of
/// all entries in sight.
pub fn follow_events<R: Read, W: Write + Drop>(
    alloc: Global,
    entries: &Entries<'_>,
    last: Option<u64>,
    reader: &mut R,
    mut writer: Sink<W>,
) -> Result<Shown<W>, Failure>
    ensures sent { IfOk result (WasToldEvents last (arc_value entries.now.row.now) entries.now.reach writer.log) }
    ensures failed { IfErr result CutsShort }
{
    let request = BrowserRequest {
        wanted: Wanted::Events(last),
        is_head: false,
    };
    answer(alloc, request, "", None, &mut writer)?;
    let mut seen = seen_of(alloc, entries)?;
    let mut teller = Events::new(alloc, entries.row.len() as u64);
    let start = start_of(last);
    let most = most_shown(seen.extent);
    pass_to_start(&mut teller, &mut seen.watch, entries.row, start, most)?;
    send_first(alloc, &teller, &seen.watch, start, &mut writer)?;
    send_on(alloc, &mut teller, &mut seen, entries, reader, &mut writer)?;
    Ok(shown_of(seen, writer))
}
