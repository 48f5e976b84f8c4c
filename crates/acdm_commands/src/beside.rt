//! The tables by which a journal was made, in a file beside it.
ghost use Rattle.std.specs.Prelude.{◌≡◌, ◌⊎◌, IfOk, IsFalse, IsTrue, option_map, string_bytes};
ghost use Rattle.acdm_commands.specs.ByTables.{GivesOther, RefusesJournal, beside, journals_of, other_text};
ghost use Rattle.acdm_failures.specs.Failures.{Complains, failure_text};
ghost use Rattle.acdm_failures.specs.declared.failure.Failure.TheVariants.{Memory};

use crate::tables::tables_on;
use acdm_command_line::Subcommand;
use acdm_failures::Failure;
use acdm_judging::unread;
use acdm_keeping::{is_special, put_text};
use acdm_sessions::{Sink, Source};
use acdm_tables::Tables;
use acdm_wire::write_out;
use std::alloc::{AllocError, Global};
use std::fs::{self, File, Files};
use std::io::{self, ErrorKind, Read, Write};

// The path of the file beside the journal of a path. `Err` only where memory was refused.
fn beside(alloc: Global, path: &str) -> Result<String, AllocError>
    ensures { IfOk result (λ name. string_bytes name ≡ beside path.now) }
{
    let mut name = String::from_str(alloc, path)?;
    name.push_str(".tables")?;
    Ok(name)
}

/// Whether a path is that of a file beside the journal of another, if there is one: that of its tables, or of its term.
pub(crate) fn is_beside(path: &str, journal: Option<&str>) -> bool {
    let Some(journal) = journal else {
        return false;
    };
    path.strip_suffix(".tables") == Some(journal) || path.strip_suffix(".term") == Some(journal)
}

// What is told where a journal was made by other tables. An error only where there was no memory.
fn other_text(alloc: Global, path: &str) -> io::Result<Vec<u8>>
    ensures { IfOk result (λ text. text.items ≡ other_text path.now) }
{
    let mut text = Vec::new(alloc);
    writeln!(
        text,
        "acdm: {path}.tables: other tables than those of this command"
    )?;
    Ok(text)
}

// Says that a journal was made by other tables, or that there was no memory to say so.
fn tell_other<E: Write>(alloc: Global, path: &str, errors: &mut Sink<E>)
    ensures { Complains errors.old errors.new (other_text path.now)
        ⊎ Complains errors.old errors.new (failure_text Memory) }
{
    match other_text(alloc, path) {
        Ok(text) => {
            let _ = write_out(errors, text.as_slice());
        }
        Err(_) => {
            let _ = Failure::Memory.complain(errors);
        }
    }
}

// Whether a reader of the file beside the journal of a path, which has that name, gives these tables; else why
// not is told.
fn gives<R: Read, E: Write>(
    alloc: Global,
    path: &str,
    name: &str,
    tables: &Tables,
    reader: &mut Source<R>,
    errors: &mut Sink<E>,
) -> bool
    requires { name.now ≡ beside path.now }
    ensures quiet { IsTrue result → errors.new ≡ errors.old }
    ensures other { IsFalse result
        → GivesOther path.now tables.now reader.old reader.new errors.old errors.new
        ⊎ Complains errors.old errors.new (failure_text Memory) }
{
    let mut text = Vec::new(alloc);
    let Some(found) = tables_on(alloc, name, reader, &mut text, errors) else {
        return false;
    };
    if found.is_same(tables) {
        return true;
    }
    tell_other(alloc, path, errors);
    false
}

// Whether the journal of a path, if there is one, was made by these tables, as far as that is known: nothing
// says it of what is no file, or where no file is beside it. Else why not is told.
fn is_made_by<Rt: Files, E: Write>(
    rt: &Rt,
    alloc: Global,
    path: Option<&str>,
    tables: &Tables,
    errors: &mut Sink<E>,
) -> bool
    ensures quiet { IsTrue result → errors.new ≡ errors.old }
    ensures refused { IsFalse result
        → RefusesJournal (option_map (λ p. p.now) path.entry) tables.now errors.old errors.new }
{
    let Some(path) = path else {
        return true;
    };
    if is_special(rt, path) {
        return true;
    }
    let Ok(name) = beside(alloc, path) else {
        let _ = Failure::Memory.complain(errors);
        return false;
    };
    match fs::open(rt, name.as_str()) {
        Ok(file) => gives(
            alloc,
            path,
            name.as_str(),
            tables,
            &mut Source::new(file),
            errors,
        ),
        Err(error) if error.kind() == ErrorKind::NotFound => true,
        Err(error) => {
            let _ = unread(alloc, name.as_str(), &error, errors);
            false
        }
    }
}

// The journals that a command names.
fn journals_of<'a>(subcommand: &Subcommand<'a>) -> (Option<&'a str>, Option<&'a str>)
    ensures { (option_map (λ p. p.now) result.0, option_map (λ p. p.now) result.1)
        ≡ journals_of subcommand.now }
{
    match subcommand {
        Subcommand::Run { save, keep, .. } | Subcommand::Serve { save, keep, .. } => (*keep, *save),
        Subcommand::Audit { file } | Subcommand::Tell { file } => (Some(*file), None),
        Subcommand::Verify { .. } | Subcommand::Explain { .. } => (None, None),
    }
}

/// Whether the journals that a command names were made by these tables, as far as that is known: where a file
/// beside a journal, by its name and `.tables`, gives others, or none, that is told, and nothing may be done.
pub(crate) fn are_made_by<Rt: Files, E: Write>(
    rt: &Rt,
    alloc: Global,
    subcommand: &Subcommand<'_>,
    tables: &Tables,
    errors: &mut Sink<E>,
) -> bool
    ensures quiet { IsTrue result → errors.new ≡ errors.old }
    ensures refused { IsFalse result
        → RefusesJournal (journals_of subcommand.now).0 tables.now errors.old errors.new
        ⊎ RefusesJournal (journals_of subcommand.now).1 tables.now errors.old errors.new }
{
    let (first, second) = journals_of(subcommand);
    is_made_by(rt, alloc, first, tables, errors) && is_made_by(rt, alloc, second, tables, errors)
}

/// Puts the text of the tables by which a journal is made into a file beside it, where none is yet, and has it on
/// the disk. What is no file has none. Fails where it can't be written, or where memory was refused.
pub(crate) fn note_tables<Rt: Files<File = File>>(
    rt: &Rt,
    alloc: Global,
    path: &str,
    text: &[u8],
) -> io::Result<()> {
    if is_special(rt, path) {
        return Ok(());
    }
    let name = beside(alloc, path)?;
    match fs::metadata(rt, name.as_str()) {
        Ok(_) => Ok(()),
        Err(error) if error.kind() == ErrorKind::NotFound => {
            put_text(rt, alloc, name.as_str(), text)
        },
        Err(error) => Err(error),
    }
}
