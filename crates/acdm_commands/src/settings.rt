//! The words of a command line, with those of a file of settings in their place.
ghost use Rattle.std.specs.Prelude.{◌≡◌, ◌≤◌, ◌+◌, ◌⊎◌, IfNone, IfOk, IfSome, OnSome, length, map, string_bytes};
ghost use Rattle.acdm_failures.specs.Failures.{Complains, failure_text};
ghost use Rattle.acdm_failures.specs.declared.failure.Failure.TheVariants.{Memory};
ghost use Rattle.acdm_commands.specs.BySettings.{GivesNone, GivesWords, ReadsWords, refusal_text};

use acdm_failures::Failure;
use acdm_judging::{BytesError, bytes_of, unread};
use acdm_lines::{Sink, Source};
use acdm_settings::{ConfigPlace, MOST_TEXT, SettingsError, place_in, with_settings, words_in};
use acdm_wire::write_out;
use std::alloc::Global;
use std::fs::{self, Files};
use std::io::{self, Read, Write};

/// The words that a command line stands for.
#[derive(Debug, Drop)]
pub enum WordsGiven {
    /// The words as they are: they name no file of settings.
    AsTheyAre,
    /// These: the words of the file that is named stand in the place of the two that name it.
    Words(Vec<String>),
    /// None: the file that is named gives none, which was told.
    Refused,
}

/// The words that a command line stands for, of which the first is the program's name: where `serve` names a file by
/// `--config FILE`, the words of that file stand in the place of these two. Where the file gives none, a line on the
/// errors' writer says why.
pub fn words_given<Rt: Files, E: Write>(
    rt: &Rt,
    alloc: Global,
    words: &[&str],
    errors: &mut Sink<E>,
) -> WordsGiven
    ensures { GivesWords (map (λ w. w.now) words.now) errors.old errors.new result }
{
    let Some(place) = place_in(words) else {
        return WordsGiven::AsTheyAre;
    };
    match fs::open(rt, place.path) {
        Ok(file) => match words_on(alloc, words, place, &mut Source::new(file), errors) {
            Some(whole) => WordsGiven::Words(whole),
            None => WordsGiven::Refused,
        },
        Err(error) => {
            let _ = unread(alloc, place.path, &error, errors);
            WordsGiven::Refused
        }
    }
}

// The words with those that a reader of the file of a path gives.
fn words_on<R: Read, E: Write>(
    alloc: Global,
    words: &[&str],
    place: ConfigPlace<'_>,
    reader: &mut Source<R>,
    errors: &mut Sink<E>,
) -> Option<Vec<String>>
    requires { place.before + 2 ≤ length words.now }
    ensures some { IfSome result (λ whole. ReadsWords place.entry.before (map (λ w. w.now) words.now)
        reader.old reader.new (map (λ s. string_bytes s) whole.items)) }
    ensures quiet { OnSome result (errors.new ≡ errors.old) }
    ensures none { IfNone result (GivesNone place.entry.path.now reader.old reader.new errors.old errors.new) }
{
    let given = match bytes_of(alloc, reader, MOST_TEXT) {
        Ok(given) => given,
        Err(BytesError::Read(error)) => {
            let _ = unread(alloc, place.path, &error, errors);
            return None;
        }
        Err(BytesError::Memory) => {
            let _ = Failure::Memory.complain(errors);
            return None;
        }
    };
    match words_in(alloc, given.as_slice()) {
        Ok(settings) => match with_settings(alloc, words, place.before, settings) {
            Ok(whole) => Some(whole),
            Err(_) => {
                let _ = Failure::Memory.complain(errors);
                None
            }
        },
        Err(error) => {
            refuse(alloc, place.path, &error, errors);
            None
        }
    }
}

// Says why the text of the file of a path stands for no words, or that there was no memory to say so.
fn refuse<E: Write>(alloc: Global, path: &str, error: &SettingsError, errors: &mut Sink<E>)
    ensures { Complains errors.old errors.new (refusal_text path.now error.now)
        ⊎ Complains errors.old errors.new (failure_text Memory) }
{
    match refusal(alloc, path, error) {
        Ok(told) => {
            let _ = write_out(errors, told.as_slice());
        }
        Err(_) => {
            let _ = Failure::Memory.complain(errors);
        }
    }
}

// What is told of it. An error only where there was no memory.
fn refusal(alloc: Global, path: &str, error: &SettingsError) -> io::Result<Vec<u8>>
    ensures { IfOk result (λ told. told.items ≡ refusal_text path.now error.now) }
{
    let mut told = Vec::new(alloc);
    match error {
        SettingsError::NoToml(line) => writeln!(told, "acdm: {path}: line {line}: not TOML")?,
        SettingsError::TooLong => writeln!(told, "acdm: {path}: more than 65536 bytes")?,
        SettingsError::Wrong { key, why } => {
            write!(told, "acdm: {path}: ")?;
            told.extend_from_slice(key)?;
            writeln!(told, ": {}", why.text())?;
        }
        SettingsError::Memory => writeln!(told, "acdm: no memory")?,
    }
    Ok(told)
}
