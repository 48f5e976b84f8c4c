//! The command `explain`, over the reader and the writers that it is handed.
ghost use Rattle.std.specs.Prelude.{◌≡◌, ◌⊎◌, ℕ, List, IfOk};
ghost use Rattle.acdm_failures.specs.Failures.{EndsBy};
ghost use Rattle.acdm_judging.specs.Explained.{Explains, FailsToRead, TellsBytes, TellsUnread};
ghost use Rattle.acdm_judging.specs.Explained.{status_of, unread_text};
ghost use Rattle.acdm_tables.specs.Helpers.{helpers_by};

use crate::bytes::{BytesError, MOST_BYTES, bytes_of};
use acdm_failures::{Failure, ended};
use acdm_lines::{Sink, Source};
use acdm_tables::{Tables, known_sigs};
use acdm_wire::write_out;
use bpf_explain::{Told, read};
use bpf_regstate::Length;
use std::alloc::Global;
use std::io::{self, Read, Write};

/// The file of a program that is to be explained.
#[derive(Clone, Copy, Debug, PartialEq, Eq)]
pub struct ProgramFile<'a> {
    /// Its path, as it was asked for.
    pub path: &'a str,
    /// The length of the records beside which the program is to run.
    pub length: Length,
}

/// Lists the program that the bytes of the file encode, which the reader gives, with what is known before each
/// slot, and its first fault where it may not run with the known helpers by these tables beside records of this
/// length; or tells what is wrong with the bytes.
///
/// The status is 0 for a program that is accepted and 1 for one that is refused, else 2, with a
/// line on the errors' writer, and one more where the file can't be read.
pub fn explain_on<R: Read, W: Write, E: Write>(
    alloc: Global,
    tables: &Tables,
    file: ProgramFile<'_>,
    reader: &mut Source<R>,
    writer: &mut Sink<W>,
    errors: &mut Sink<E>,
) -> u8
    ensures { EndsBy (Explains (helpers_by tables.now) file.entry.length reader.old reader.new) result errors.old
        errors.new ⊎ FailsToRead file.entry.path.now reader.old reader.new writer.old writer.new result errors.old
        errors.new }
{
    let ProgramFile { path, length } = file;
    let bytes = match bytes_of(alloc, reader, MOST_BYTES) {
        Ok(bytes) => bytes,
        Err(BytesError::Read(error)) => return unread(alloc, path, &error, errors),
        Err(BytesError::Memory) => return ended(Err(Failure::Memory), errors),
    };
    ended(
        tell(alloc, tables, length, bytes.as_slice(), writer),
        errors,
    )
}

/// Says that the file can't be read, as `verify` does, and then which file it is, and why; no more
/// than the first where memory for the words was refused. The status is 2.
pub fn unread<E: Write>(alloc: Global, file: &str, error: &io::Error, errors: &mut Sink<E>) -> u8
    ensures status { result ≡ 2 }
    ensures tells { TellsUnread file.now errors.old errors.new }
{
    let Ok(text) = unread_text(alloc, file, error) else {
        return Failure::Read.complain(errors);
    };
    match write_out(errors, text.as_slice()) {
        Ok(()) | Err(_) => 2,
    }
}

// What is said of a file that can't be read. `Err` only where memory was refused.
fn unread_text(alloc: Global, file: &str, error: &io::Error) -> Result<Vec<u8>, Failure>
    ensures { IfOk result (λ text. (why : List ℕ) × (text.items ≡ unread_text file.now why)) }
{
    let why = error.to_string(alloc)?;
    let mut text = Vec::from_slice(alloc, Failure::Read.text().as_slice())?;
    // A text in memory is written unless there is none.
    match writeln!(text, "acdm: {file}: {why}") {
        Ok(()) => Ok(text),
        Err(_) => Err(Failure::Memory),
    }
}

/// The status of the command.
fn status_of(told: &Told) -> u8
    ensures { result ≡ status_of told.now }
{
    if told.is_accepted() { 0 } else { 1 }
}

fn tell<W: Write>(
    alloc: Global,
    tables: &Tables,
    length: Length,
    bytes: &[u8],
    writer: &mut Sink<W>,
) -> Result<u8, Failure>
    ensures { TellsBytes (helpers_by tables.now) length bytes.now result }
{
    let sigs = known_sigs(alloc, tables)?;
    let told = read(alloc, bytes, &sigs, length)?;
    let written = told.write(bytes, &sigs, writer);
    if written.is_err() || writer.flush().is_err() {
        return Err(Failure::Write);
    }
    Ok(status_of(&told))
}
