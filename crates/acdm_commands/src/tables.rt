//! The tables by which a command works.
ghost use Rattle.std.specs.Prelude.{◌≡◌, ◌⊎◌, IfNone, IfOk, IfSome, OnSome, Some, option_map};
ghost use Rattle.acdm_commands.specs.ByTables.{AreTables, GivesNone, ReadsTables, RefusesTables, refusal_text};
ghost use Rattle.acdm_failures.specs.Failures.{Complains, failure_text};
ghost use Rattle.acdm_failures.specs.declared.failure.Failure.TheVariants.{Memory};
ghost use Rattle.acdm_tables.specs.Helpers.{built_in};

use acdm_failures::Failure;
use acdm_judging::{BytesError, bytes_of, unread};
use acdm_sessions::{Sink, Source};
use acdm_tables::{MOST_TEXT, Tables, TablesError, read_tables};
use acdm_wire::write_out;
use std::alloc::{AllocError, Global};
use std::fs::{self, Files};
use std::io::{self, Read, Write};

/// What a file says that has the tables that are built in.
const BUILT_IN: &[u8] = b"# the tables that are built in\n";

/// The file of a command's tables: its path, if one is named, and the text that means them.
#[derive(Clone, Copy, Debug, PartialEq, Eq)]
pub(crate) struct TablesFile<'a> {
    pub(crate) path: Option<&'a str>,
    pub(crate) text: &'a [u8],
}

/// The tables of a command, with their file.
#[derive(Drop)]
pub(crate) struct TablesRead<'a> {
    pub(crate) tables: Tables,
    pub(crate) file: TablesFile<'a>,
}

/// The tables of the airport in the file of a path, or those that are built in where none is named. Their
/// text is put into a buffer. `None` where it gives none, with lines on the errors' writer that say why.
pub(crate) fn tables_of<Rt: Files, E: Write>(
    rt: &Rt,
    alloc: Global,
    path: Option<&str>,
    text: &mut Vec<u8>,
    errors: &mut Sink<E>,
) -> Option<Tables>
    ensures some { IfSome result (AreTables (option_map (λ p. p.now) path.entry)) }
    ensures quiet { OnSome result (errors.new ≡ errors.old) }
    ensures none { IfNone result
        (RefusesTables (option_map (λ p. p.now) path.entry) errors.old errors.new) }
{
    match path {
        Some(path) => tables_at(rt, alloc, path, text, errors),
        None => match built_in(alloc, text) {
            Ok(tables) => Some(tables),
            Err(_) => {
                let _ = Failure::Memory.complain(errors);
                None
            }
        },
    }
}

// The tables that are built in, and their text.
fn built_in(alloc: Global, text: &mut Vec<u8>) -> Result<Tables, AllocError>
    ensures { IfOk result (λ tables. tables ≡ built_in) }
{
    *text = Vec::from_slice(alloc, BUILT_IN)?;
    Tables::built_in(alloc)
}

// The tables in the file of a path.
fn tables_at<Rt: Files, E: Write>(
    rt: &Rt,
    alloc: Global,
    path: &str,
    text: &mut Vec<u8>,
    errors: &mut Sink<E>,
) -> Option<Tables>
    ensures some { IfSome result (AreTables (Some path.now)) }
    ensures quiet { OnSome result (errors.new ≡ errors.old) }
    ensures none { IfNone result (RefusesTables (Some path.now) errors.old errors.new) }
{
    match fs::open(rt, path) {
        Ok(file) => tables_on(alloc, path, &mut Source::new(file), text, errors),
        Err(error) => {
            let _ = unread(alloc, path, &error, errors);
            None
        }
    }
}

/// The tables that a reader of the file of a path gives. Their text is put into a buffer.
pub(crate) fn tables_on<R: Read, E: Write>(
    alloc: Global,
    path: &str,
    reader: &mut Source<R>,
    text: &mut Vec<u8>,
    errors: &mut Sink<E>,
) -> Option<Tables>
    ensures some { IfSome result (ReadsTables reader.old reader.new) }
    ensures quiet { OnSome result (errors.new ≡ errors.old) }
    ensures none { IfNone result (GivesNone path.now reader.old reader.new errors.old errors.new) }
{
    let given = match bytes_of(alloc, reader, MOST_TEXT) {
        Ok(given) => given,
        Err(BytesError::Read(error)) => {
            let _ = unread(alloc, path, &error, errors);
            return None;
        }
        Err(BytesError::Memory) => {
            let _ = Failure::Memory.complain(errors);
            return None;
        }
    };
    match read_tables(alloc, given.as_slice()) {
        Ok(tables) => {
            *text = given;
            Some(tables)
        }
        Err(error) => {
            refuse(alloc, path, &error, errors);
            None
        }
    }
}

// Says why the text of the file of a path gives no tables, or that there was no memory to say so.
fn refuse<E: Write>(alloc: Global, path: &str, error: &TablesError, errors: &mut Sink<E>)
    ensures { Complains errors.old errors.new (refusal_text path.now error.now)
        ⊎ Complains errors.old errors.new (failure_text Memory) }
{
    match refusal(alloc, path, error) {
        Ok(text) => {
            let _ = write_out(errors, text.as_slice());
        }
        Err(_) => {
            let _ = Failure::Memory.complain(errors);
        }
    }
}

// What is told of it. An error only where there was no memory.
fn refusal(alloc: Global, path: &str, error: &TablesError) -> io::Result<Vec<u8>>
    ensures { IfOk result (λ text. text.items ≡ refusal_text path.now error.now) }
{
    let mut text = Vec::new(alloc);
    match error {
        TablesError::NoToml(line) => writeln!(text, "acdm: {path}: line {line}: not TOML")?,
        TablesError::TooLong => writeln!(text, "acdm: {path}: more than 1000000 bytes")?,
        TablesError::Wrong { key, why } => {
            write!(text, "acdm: {path}: ")?;
            text.extend_from_slice(key)?;
            writeln!(text, ": {}", why.text())?;
        }
        TablesError::Memory => writeln!(text, "acdm: no memory")?,
    }
    Ok(text)
}
