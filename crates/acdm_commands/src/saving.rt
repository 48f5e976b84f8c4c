//! The saving of a desk's journal, as text.
ghost use Rattle.std.specs.Prelude.{◌≡◌, ◌≤◌, true, false, IfOk, IfErr, OnOk, Some, option_map};
ghost use Rattle.acdm_board.specs.Desk.{row_of};
ghost use Rattle.acdm_failures.specs.declared.failure.Failure.TheVariants.{Memory};
ghost use Rattle.acdm_commands.specs.Completed.{FailsToMake, IsDone, IsUnwritten, Settles};
ghost use Rattle.acdm_commands.specs.Partners.{SavesSo};
ghost use Rattle.acdm_commands.specs.Served.{FailsToSave, IsSaved};
ghost use Rattle.acdm_journal.specs.Whole.{Saves};

use crate::beside::{is_beside, note_tables};
use crate::cause::Noting;
use crate::context::Context;
use crate::request::JournalFiles;
use crate::standard_streams::is_standard;
use acdm_board::Desk;
use acdm_failures::Failure;
use acdm_journal::{MOST_KEPT, write_entry_by};
use acdm_keeping::{Replacement, is_special, leads_to};
use acdm_row::Row;
use acdm_sessions::{RunError, Sink};
use bpf_helpers::Helpers;
use std::alloc::Global;
use std::fs::{self, File, Files, TryLockError};
use std::io::{self, BufWriter, ErrorKind, Write};
use std::sync::Arc;

/// How many bytes are written at once at most.
const BUFFER: usize = 65_536;

/// The file that a journal is saved in. It is written beside the one of its path, by a name that nothing had
/// before, and takes the place of that once all of it is on the disk; where the path is that of a device or a
/// pipe, it is that.
#[derive(Drop)]
pub(crate) struct Saving<F: Write + Drop> {
    pub file: Option<Sink<BufWriter<F>>>,
    replacement: Option<Replacement>,
}

/// That a file is something else too, which is not written over.
pub(crate) fn taken() -> io::Error {
    io::Error::new(
        ErrorKind::InvalidInput,
        "it is a standard stream, or another file of this command",
    )
}

// That a board keeps its journal in a file.
fn kept_there() -> io::Error {
    io::Error::new(ErrorKind::WouldBlock, "a board keeps its journal in it")
}

/// Whether two paths are one, or lead to one file.
pub(crate) fn is_one<Rt: Files>(rt: &Rt, path: &str, other: Option<&str>) -> bool {
    let Some(other) = other else {
        return false;
    };
    if path == other {
        return true;
    }
    match fs::metadata(rt, path) {
        Ok(found) => found.is_file() && leads_to(rt, other, &found),
        Err(_) => false,
    }
}

// Whether a board keeps its journal in the file of a path.
fn is_kept<Rt: Files<File = File>>(rt: &Rt, path: &str) -> bool {
    if is_special(rt, path) {
        return false;
    }
    let Ok(file) = fs::open(rt, path) else {
        return false;
    };
    matches!(file.try_lock(), Err(TryLockError::WouldBlock))
}

// Whether one of two journals would be what stands beside the other, of which one is kept, if there is such a one.
fn is_beside_other(path: &str, kept: Option<&str>) -> bool {
    match kept {
        Some(kept) => is_beside(path, Some(kept)) || is_beside(kept, Some(path)),
        None => false,
    }
}

// Whether a path is that of a standard stream, or of what else the words name, or of what stands beside that.
fn is_taken<Rt: Files<File = File>>(rt: &Rt, path: &str, files: JournalFiles<'_>) -> bool {
    let kept = files.kept_path();
    if is_standard(rt, path) || is_beside_other(path, kept) {
        return true;
    }
    is_one(rt, path, kept) || is_one(rt, path, files.tables.path)
}

// Makes the file to be written, where its path is that of something that a journal may take the place of.
fn create<Rt: Files<File = File>>(
    rt: &Rt,
    alloc: Global,
    path: &str,
    files: JournalFiles<'_>,
) -> io::Result<(File, Option<Replacement>)> {
    if is_taken(rt, path, files) {
        return Err(taken());
    }
    if is_kept(rt, path) {
        return Err(kept_there());
    }
    if is_special(rt, path) {
        return Ok((fs::create(rt, path)?, None));
    }
    let (file, replacement) = Replacement::create(rt, alloc, path, files.kept_path())?;
    Ok((file, Some(replacement)))
}

/// Makes the file that a journal is to be saved in, if there is one, and leaves the one
/// that is there. `Save` where it can't be made, or where the one that is there is that of a standard
/// stream or of what else the words name, or another board keeps its journal there; `Memory` where that was
/// refused. Why is noted, also why it can't be written later.
pub(crate) fn saving_in<'a, Rt: Files<File = File>>(
    context: &'a Context<'_, Rt>,
    files: JournalFiles<'a>,
) -> Result<Saving<Noting<'a, File>>, Failure>
    ensures made { IfOk result (λ s. IsUnwritten (option_map (λ p. p.now) files.entry.save) s.file) }
    ensures fails { IfErr result (FailsToMake (option_map (λ p. p.now) files.entry.save)) }
{
    let Some(path) = files.save else {
        return Ok(Saving {
            file: None,
            replacement: None,
        });
    };
    let (rt, alloc) = (context.rt, context.alloc);
    let (file, replacement) = match create(rt, alloc, path, files) {
        Ok(made) => made,
        Err(error) => {
            return Err(
                context
                    .why
                    .failure(alloc, Failure::Save, "--save ", path, &error),
            );
        }
    };
    let file = Noting::new(alloc, file, "--save ", path, &context.why);
    match BufWriter::with_capacity(alloc, BUFFER, file) {
        Ok(writer) => Ok(Saving {
            file: Some(Sink::new(writer)),
            replacement,
        }),
        Err(_) => {
            if let Some(replacement) = replacement {
                replacement.remove(rt);
            }
            Err(Failure::Memory)
        }
    }
}

// Puts a file that was written in its place, where no board keeps its journal by now.
fn put_in_place<Rt: Files<File = File>>(
    rt: &Rt,
    path: &str,
    file: Sink<BufWriter<Noting<'_, File>>>,
    replacement: &Replacement,
) -> io::Result<()> {
    if is_kept(rt, path) {
        return Err(kept_there());
    }
    replacement.put_in_place(rt, file.into_inner().get_ref().get_ref())
}

// The same, once the text of the tables stands beside it.
fn put_with_tables<Rt: Files<File = File>>(
    rt: &Rt,
    alloc: Global,
    path: &str,
    tables: &[u8],
    file: Sink<BufWriter<Noting<'_, File>>>,
    replacement: &Replacement,
) -> io::Result<()> {
    note_tables(rt, alloc, path, tables)?;
    put_in_place(rt, path, file, replacement)
}

// Whether a command's work was done, and the journal written.
fn is_done(work: Result<u8, Failure>) -> bool
    ensures { result ≡ true → IsDone work }
{
    matches!(work, Ok(0) | Err(Failure::Untold))
}

/// Puts the file of a command whose work came so in its place, where its journal was written, and beside it the
/// text of the tables by which it was made; else what was there stays. `Save` where that failed, and why is noted.
pub(crate) fn settle<Rt: Files<File = File>>(
    context: &Context<'_, Rt>,
    files: JournalFiles<'_>,
    saving: Saving<Noting<'_, File>>,
    work: Result<u8, Failure>,
) -> Result<u8, Failure>
    ensures { Settles (option_map (λ p. p.now) files.entry.save) work result }
{
    let Some(target) = files.save else {
        return work;
    };
    let Saving { file, replacement } = saving;
    let Some(replacement) = replacement else {
        return work;
    };
    let Some(file) = file else {
        return work;
    };
    let (rt, alloc) = (context.rt, context.alloc);
    if !is_done(work) {
        replacement.remove(rt);
        return work;
    }
    match put_with_tables(rt, alloc, target, files.tables.text, file, &replacement) {
        Ok(()) => work,
        Err(error) => {
            context.why.note(alloc, "--save ", target, &error);
            replacement.remove(rt);
            Err(Failure::Save)
        }
    }
}

/// A buffer for `save` to write lines by, with room for the longest, where there is a writer. `Memory`
/// where that was refused.
pub(crate) fn buffer_for<F: Write + Drop>(
    alloc: Global,
    saved: &Option<Sink<F>>,
) -> Result<Vec<u8>, Failure>
    ensures fails { IfErr result (λ e. e ≡ Memory) }
{
    if saved.is_none() {
        return Ok(Vec::new(alloc));
    }
    match Vec::with_capacity(alloc, MOST_KEPT) {
        Ok(buffer) => Ok(buffer),
        Err(_) => Err(Failure::Memory),
    }
}

/// Writes the journal of a desk, one line for each entry, to a writer if there is one, by way of a
/// buffer, and flushes it. `Save` where that failed, `Memory` where it was refused.
pub(crate) fn save<H: Helpers + Drop, F: Write + Drop>(
    buffer: &mut Vec<u8>,
    desk: &mut Desk<H>,
    saved: &mut Option<Sink<F>>,
) -> Result<(), Failure>
    ensures saves { OnOk result (IsSaved desk.old.history saved.old saved.new) }
    ensures fails { IfErr result (FailsToSave saved.old saved.new) }
{
    let Some(writer) = saved else {
        return Ok(());
    };
    let Ok(row) = Arc::try_clone(desk.row()) else {
        return Err(Failure::Memory);
    };
    write_journal(buffer, desk, &row, writer)
}

/// Saves what partners made, as `save`. `Untold` where that was done, and it could not be told how they
/// ended.
pub(crate) fn save_served<H: Helpers + Drop, F: Write + Drop>(
    buffer: &mut Vec<u8>,
    desk: &mut Desk<H>,
    told: Result<(), RunError>,
    saved: &mut Option<Sink<F>>,
) -> Result<(), Failure>
    ensures { SavesSo told desk.old.history saved.old saved.new result }
{
    match save(buffer, desk, saved) {
        Ok(()) => {}
        Err(failure) => return Err(failure),
    }
    match told {
        Ok(()) => Ok(()),
        Err(_) => Err(Failure::Untold),
    }
}

// Writes all entries, the oldest first, as they stand in the desk's row.
fn write_journal<H: Helpers + Drop, F: Write>(
    buffer: &mut Vec<u8>,
    desk: &mut Desk<H>,
    row: &Row,
    writer: &mut Sink<F>,
) -> Result<(), Failure>
    requires { row.now ≡ row_of desk.old }
    ensures saves { OnOk result (Saves desk.old.history writer.old.log writer.new.log) }
    ensures flushed { OnOk result (writer.new.waits ≡ false) }
    ensures fails { IfErr result (FailsToSave (Some writer.old) (Some writer.new)) }
{
    let count = desk.len();
    let mut number = 0;
    while number < count {
        let Some(entry) = desk.entry(row, number) else {
            unreachable!();
        };
        write_entry_by(buffer, entry, writer)?;
        number += 1;
    }
    if writer.flush().is_err() {
        return Err(Failure::Save);
    }
    Ok(())
}
