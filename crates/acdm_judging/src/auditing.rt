//! The command `audit`, over the reader and the writers that it is handed.
ghost use Rattle.std.specs.Prelude.{◌≡◌, ◌-◌, ◌^◌, ◌<◌};
ghost use Rattle.acdm_failures.specs.Failures.{EndsBy};
ghost use Rattle.acdm_judging.specs.Findings.{Audited, Finds, Tells, finding_text, status_of};
ghost use Rattle.acdm_tables.specs.Helpers.{helpers_by};

use acdm_failures::{Failure, ended};
use acdm_journal::{Clause, Fault, audit};
use acdm_lines::{Sink, Source};
use acdm_tables::{Tables, known_sigs};
use acdm_wire::{TextBuffer, write_out};
use std::alloc::Global;
use std::io::{Read, Write};

/// What is told of a journal.
#[derive(Clone, Copy)]
pub enum Finding {
    /// It is that of a legal history of so many entries.
    Legal(u64),
    /// Its first faulty entry, from 0, and the first clause that it breaks.
    Faulty { entry: u64, clause: Clause },
}

impl Finding {
    /// The status of the command.
    fn status(self) -> u8
        ensures { result ≡ status_of self }
    {
        match self {
            Finding::Legal(_) => 0,
            Finding::Faulty { .. } => 1,
        }
    }

    /// How it is told, as one line.
    fn text(self) -> TextBuffer
        ensures { result ≡ finding_text self }
    {
        match self {
            Finding::Legal(entries) => legal(entries),
            Finding::Faulty { entry, clause } => faulty(entry, clause),
        }
    }

    /// Writes it as one line, and answers the status that a command ends with. `Write` where the
    /// writer failed, after some of the first bytes of the line.
    pub fn tell<W: Write>(self, writer: &mut Sink<W>) -> Result<u8, Failure>
        ensures { Tells self writer.old writer.new result }
    {
        let text = self.text();
        match write_out(writer, text.as_slice()) {
            Ok(()) => Ok(self.status()),
            Err(_) => Err(Failure::Write),
        }
    }
}

fn legal(entries: u64) -> TextBuffer
    ensures { result ≡ finding_text (Finding.Legal entries) }
{
    let mut text = TextBuffer::new();
    text.push(b"legal ");
    text.push_number(entries);
    text.push(b"\n");
    text
}

fn faulty(entry: u64, clause: Clause) -> TextBuffer
    ensures { result ≡ finding_text (Finding.Faulty entry clause) }
{
    let mut text = TextBuffer::new();
    text.push(b"entry ");
    text.push_number(entry);
    text.push(b" ");
    text.push_number(u64::from(clause.code()));
    text.push(b"\n");
    text
}

/// Judges the journal that a reader gives, with the known helpers by these tables, and tells what was
/// found: `legal N` where it has N entries, which are those of a legal history, else `entry N CODE` with the
/// number of the first faulty entry, from 0, and that of the first clause that it breaks.
///
/// The status is 0 for a legal journal, 1 for another, and 2 where nothing was found or it could not
/// be written, with a line on the errors' writer.
pub fn audit_on<R: Read, W: Write, E: Write>(
    alloc: Global,
    tables: &Tables,
    reader: &mut Source<R>,
    writer: &mut Sink<W>,
    errors: &mut Sink<E>,
) -> u8
    requires reads { reader.old.faults < 2 ^ 64 - 1 }
    ensures { EndsBy (Audited (helpers_by tables.now) reader.old reader.new writer.old writer.new) result
        errors.old errors.new }
{
    ended(judge(alloc, tables, reader, writer), errors)
}

// What is found in the journal that a reader gives.
fn finding_in<R: Read>(
    alloc: Global,
    tables: &Tables,
    reader: &mut Source<R>,
) -> Result<Finding, Failure>
    requires reads { reader.old.faults < 2 ^ 64 - 1 }
    ensures { Finds (helpers_by tables.now) reader.old reader.new result }
{
    let sigs = known_sigs(alloc, tables)?;
    match audit(alloc, reader, &sigs) {
        Ok(entries) => Ok(Finding::Legal(entries)),
        Err(Fault::Faulty { entry, clause }) => Ok(Finding::Faulty { entry, clause }),
        Err(Fault::Read) => Err(Failure::Read),
        Err(Fault::Memory) => Err(Failure::Memory),
    }
}

// Writes what is found, and answers the status.
fn judge<R: Read, W: Write>(
    alloc: Global,
    tables: &Tables,
    reader: &mut Source<R>,
    writer: &mut Sink<W>,
) -> Result<u8, Failure>
    requires reads { reader.old.faults < 2 ^ 64 - 1 }
    ensures { Audited (helpers_by tables.now) reader.old reader.new writer.old writer.new result }
{
    let finding = finding_in(alloc, tables, reader)?;
    match finding.tell(writer) {
        Ok(status) => Ok(status),
        Err(_) => Err(Failure::Write),
    }
}
