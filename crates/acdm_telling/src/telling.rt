//! The command `tell`, over the reader and the writers that it is handed.
ghost use Rattle.std.specs.Prelude.{◌≡◌, ◌<◌, ◌-◌, ◌^◌, []};
ghost use Rattle.acdm_failures.specs.Failures.{EndsBy};
ghost use Rattle.acdm_feed.specs.Knowing.{Knows};
ghost use Rattle.acdm_tables.specs.Helpers.{helpers_by};
ghost use Rattle.acdm_step.specs.History.{replay};
ghost use Rattle.acdm_telling.specs.Told.{TellsFound, Told};

use crate::judged::{Judged, Stop};
use acdm_failures::{Failure, ended};
use acdm_journal::{Clause, JournalEnd, read_journal};
use acdm_judging::Finding;
use acdm_lines::{Sink, Source};
use acdm_tables::{Tables, known_sigs};
use acdm_wire::write_out;
use std::alloc::Global;
use std::io::{Read, Write};

// Writes the rest of the lines, and the first fault behind them, if there is one.
fn tell_found<W: Write>(finding: Finding, text: &[u8], writer: &mut Sink<W>) -> Result<u8, Failure>
    ensures { TellsFound finding text.now writer.old writer.new result }
{
    match write_out(writer, text) {
        Ok(()) => {}
        Err(_) => return Err(Failure::Write),
    }
    match finding {
        Finding::Legal(_) => Ok(0),
        Finding::Faulty { .. } => finding.tell(writer),
    }
}

/// Tells the feed of the journal that a reader gives, with the known helpers by these tables: a line of
/// JSON for each entry, as displays are sent it. Where an entry is faulty, the lines of those before it, and then
/// `entry N CODE`, as an audit tells it.
///
/// The status is 0 for a legal journal, 1 for another, and 2 where it could not be read or written to
/// its end, with a line on the errors' writer.
pub fn tell_on<R: Read, W: Write, E: Write>(
    alloc: Global,
    tables: &Tables,
    reader: &mut Source<R>,
    writer: &mut Sink<W>,
    errors: &mut Sink<E>,
) -> u8
    requires reads { reader.old.faults < 2 ^ 64 - 1 }
    ensures { EndsBy (Told (helpers_by tables.now) reader.old reader.new writer.old writer.new) result errors.old
        errors.new }
{
    ended(tell(alloc, tables, reader, writer), errors)
}

// Tells the feed, from the board of no entry on, and what was found.
fn tell_from<R: Read, W: Write>(
    alloc: Global,
    reader: &mut Source<R>,
    judged: &mut Judged,
    writer: &mut Sink<W>,
) -> Result<u8, Failure>
    requires reads { reader.old.faults < 2 ^ 64 - 1 }
    requires board { judged.old.core ≡ replay judged.old.core.slots.sigs [] }
    requires known { Knows [] judged.old.known }
    requires text { judged.old.text.items ≡ [] }
    ensures { Told judged.old.core.slots.sigs reader.old reader.new writer.old writer.new result }
{
    let end = read_journal(alloc, reader, true, writer, judged);
    let text = judged.text.as_slice();
    match end {
        JournalEnd::Whole(entries) => tell_found(Finding::Legal(entries), text, writer),
        JournalEnd::Rest(entry) => {
            let clause = Clause::Unreadable;
            tell_found(Finding::Faulty { entry, clause }, text, writer)
        }
        JournalEnd::Faulty { entry, clause } => {
            tell_found(Finding::Faulty { entry, clause }, text, writer)
        }
        JournalEnd::Read => match write_out(writer, text) {
            Ok(()) => Err(Failure::Read),
            Err(_) => Err(Failure::Write),
        },
        JournalEnd::Stopped(Stop::Write) => Err(Failure::Write),
        JournalEnd::Stopped(Stop::Memory) => Err(Failure::Memory),
        JournalEnd::Memory => Err(Failure::Memory),
    }
}

// Tells the feed, and what was found.
fn tell<R: Read, W: Write>(
    alloc: Global,
    tables: &Tables,
    reader: &mut Source<R>,
    writer: &mut Sink<W>,
) -> Result<u8, Failure>
    requires reads { reader.old.faults < 2 ^ 64 - 1 }
    ensures { Told (helpers_by tables.now) reader.old reader.new writer.old writer.new result }
{
    let Ok(sigs) = known_sigs(alloc, tables) else {
        return Err(Failure::Memory);
    };
    let Ok(mut judged) = Judged::new(alloc, sigs) else {
        return Err(Failure::Memory);
    };
    tell_from(alloc, reader, &mut judged, writer)
}
