//! Why what a word of the command line names could not be used.
ghost use Rattle.std.specs.Prelude.{◌≡◌, List, ℕ, IfOk, IsFalse, string_bytes};
ghost use Rattle.std.specs.Io.{ReadsAtMost, WritesAtMost};
ghost use Rattle.std.specs.Io.KnownBytes.{Keeps, ReadConsumes, WriteAppends};
ghost use Rattle.std.specs.IoError.{error_kind};
ghost use Rattle.acdm_commands.specs.Causes.{TellsCause, cause_text, failure_by};

use acdm_failures::Failure;
use acdm_sessions::Sink;
use acdm_wire::write_out;
use std::alloc::Global;
use std::cell::RefCell;
use std::io::{self, ErrorKind, Read, Write};

// The line of a cause: the words that name what could not be used, and why.
fn cause_text(alloc: Global, option: &str, value: &str, error: &io::Error) -> io::Result<String>
    ensures { IfOk result (λ text. (why : List ℕ)
        × (string_bytes text ≡ cause_text option.now value.now why)) }
{
    let why = error.to_string(alloc)?;
    let mut text = String::from_str(alloc, "acdm: ")?;
    text.push_str(option)?;
    text.push_str(value)?;
    text.push_str(": ")?;
    text.push_str(why.as_str())?;
    text.push_str("\n")?;
    Ok(text)
}

/// Why a command could not do its work, as far as it is known by the name of a file, an address or a stream: the
/// first cause that was noted.
#[derive(Drop)]
pub struct Cause {
    first: RefCell<Option<String>>,
}

impl Cause {
    /// Nothing is known yet.
    pub fn new() -> Cause {
        Cause {
            first: RefCell::new(None),
        }
    }

    /// Notes an error with the option, which ends in a blank where it has a value, and the value that could not be
    /// used. Only the first one is kept, and none where memory for its text was refused.
    pub fn note(&self, alloc: Global, option: &str, value: &str, error: &io::Error) {
        let Ok(mut first) = self.first.try_borrow_mut() else {
            return;
        };
        if first.is_none() {
            *first = cause_text(alloc, option, value, error).ok();
        }
    }

    /// The same, and answers what the command fails by: `Memory` where memory was refused, which names no word, else
    /// this.
    pub(crate) fn failure(
        &self,
        alloc: Global,
        failure: Failure,
        option: &str,
        value: &str,
        error: &io::Error,
    ) -> Failure
        ensures { result ≡ failure_by failure (error_kind error.now) }
    {
        match error.kind() {
            ErrorKind::OutOfMemory => Failure::Memory,
            _ => {
                self.note(alloc, option, value, error);
                failure
            }
        }
    }

    /// Tells the cause that was noted, if there is one, as one line; and whether there is one.
    pub fn tell<E: Write>(&self, errors: &mut Sink<E>) -> bool
        ensures once { TellsCause errors.old errors.new }
        ensures quiet { IsFalse result → errors.new ≡ errors.old }
    {
        let Ok(first) = self.first.try_borrow() else {
            return false;
        };
        let Some(text) = first.as_ref() else {
            return false;
        };
        let _ = write_out(errors, text.as_bytes());
        true
    }
}

/// A reader or a writer of what a word of the command line names. Where it fails, why is noted.
#[derive(Drop)]
pub struct Noting<'a, T> {
    alloc: Global,
    stream: T,
    option: &'a str,
    value: &'a str,
    why: &'a Cause,
}

impl<'a, T> Noting<'a, T> {
    /// This reader or writer, by this name.
    pub fn new(
        alloc: Global,
        stream: T,
        option: &'a str,
        value: &'a str,
        why: &'a Cause,
    ) -> Noting<'a, T>
        ensures { result.stream ≡ stream }
    {
        Noting {
            alloc,
            stream,
            option,
            value,
            why,
        }
    }

    /// The reader or writer itself.
    pub(crate) fn get_ref(&self) -> &T {
        &self.stream
    }

    // Notes why a call failed, if it did. One that a signal interrupted is made again.
    fn note<U>(&self, came: &io::Result<U>) {
        match came {
            Err(error) if error.kind() != ErrorKind::Interrupted => {
                self.why.note(self.alloc, self.option, self.value, error);
            }
            _ => {}
        }
    }
}

impl<R: Read> Read for Noting<'_, R> {
    ghost remaining = { λ n. R.remaining n.stream };

    fn read(&mut self, buf: &mut [u8]) -> io::Result<usize>
        ensures bound { ReadsAtMost result buf.new }
        ensures bytes { ReadConsumes (R.remaining self.old.stream) (R.remaining self.new.stream) result buf.new }
    {
        let given = self.stream.read(buf);
        self.note(&given);
        given
    }
}

impl<W: Write> Write for Noting<'_, W> {
    ghost contents = { λ n. W.contents n.stream };

    fn write(&mut self, buf: &[u8]) -> io::Result<usize>
        ensures bound { WritesAtMost result buf.now }
        ensures bytes { WriteAppends (W.contents self.old.stream) (W.contents self.new.stream) result buf.now }
    {
        let taken = self.stream.write(buf);
        self.note(&taken);
        taken
    }

    fn flush(&mut self) -> io::Result<()>
        ensures bytes { Keeps (W.contents self.old.stream) (W.contents self.new.stream) }
    {
        let flushed = self.stream.flush();
        self.note(&flushed);
        flushed
    }
}
