//! What keeps a command from its work.
ghost use Rattle.std.specs.Prelude.{◌≡◌, ◌≤◌, ◌++◌, [], ◌∷◌, length};
ghost use Rattle.std.specs.Fmt.{decimal};
ghost use Rattle.acdm_failures.specs.Failures.{Complains, Ends, failure_of_keeping, failure_text};

use acdm_lines::{RunError, Sink, WriteError};
use acdm_wire::{TextBuffer, write_out};
use std::alloc::{AllocError, AllocFailed};
use std::io::Write;
use thiserror::Error;

/// Why a command could not do its work.
#[derive(Clone, Copy, Debug, PartialEq, Eq, Error)]
pub enum Failure {
    /// Its input can't be read.
    #[error("read failed")]
    Read,
    /// Its output can't be written.
    #[error("write failed")]
    Write,
    /// All was done, and how it ended can't be written.
    #[error("write failed at the end")]
    Untold,
    /// The journal can't be saved.
    #[error("save failed")]
    Save,
    /// Memory was refused.
    #[error("no memory")]
    Memory,
    /// The role of the partner of this number, from 1, is none.
    #[error("role {0}")]
    Role(usize),
    /// The address of the partner of this number is none, or can't be listened at.
    #[error("address {0}")]
    Address(usize),
    /// The partner of this number can't be accepted.
    #[error("accept {0}")]
    Accept(usize),
    /// The address for displays is none, or can't be listened at.
    #[error("watch address")]
    Watch,
    /// The control address is none, or can't be listened at.
    #[error("control address")]
    Control,
    /// The address of the board that is to be followed is none.
    #[error("follow address")]
    Follow,
    /// The address of the peer is none.
    #[error("peer address")]
    Peer,
    /// The file for what the operator is told can't be written.
    #[error("log file")]
    Log,
    /// A word of the command line is no text.
    #[error("a word is not UTF-8")]
    Word,
    /// A standard stream may be closed, and nothing could be put in its place.
    #[error("no null device")]
    Stream,
    /// The journal can't be kept in its file.
    #[error("keep failed")]
    Keep,
    /// Somebody else keeps a journal in the file.
    #[error("the kept journal is in use")]
    InUse,
    /// There is no room for the entries of the kept journal.
    #[error("the kept journal needs a larger --journal")]
    Room,
    /// Another board has taken over from this one's journal.
    #[error("another board has taken over")]
    Replaced,
}

/// Why `serve` did not end as it should.
#[derive(Clone, Copy, Debug, PartialEq, Eq, Error)]
pub enum ServeError {
    /// The partner of this number, from 1, could not be accepted.
    #[error("accept {0}")]
    Accept(usize),
    /// A line could not be written.
    #[error("write failed")]
    Write,
    /// Memory was refused.
    #[error("no memory")]
    Memory,
}

// A line of these words.
fn line(words: &[u8]) -> TextBuffer
    requires { length words.now ≤ 60 }
    ensures { result ≡ words.now ++ 10 ∷ [] }
{
    let mut text = TextBuffer::new();
    text.push(words);
    text.push(b"\n");
    text
}

// A line of these words and a number.
fn numbered(words: &[u8], number: usize) -> TextBuffer
    requires { length words.now ≤ 60 }
    ensures { result ≡ words.now ++ decimal number ++ 10 ∷ [] }
{
    let mut text = TextBuffer::new();
    text.push(words);
    text.push_number(number as u64);
    text.push(b"\n");
    text
}

impl Failure {
    /// What is told of it, as one line.
    pub fn text(self) -> TextBuffer
        ensures { result ≡ failure_text self }
    {
        match self {
            Failure::Read => line(b"acdm: read failed"),
            Failure::Write | Failure::Untold => line(b"acdm: write failed"),
            Failure::Save => line(b"acdm: save failed"),
            Failure::Memory => line(b"acdm: no memory"),
            Failure::Role(number) => numbered(b"acdm: role ", number),
            Failure::Address(number) => numbered(b"acdm: address ", number),
            Failure::Accept(number) => numbered(b"acdm: accept ", number),
            Failure::Watch => line(b"acdm: watch address"),
            Failure::Control => line(b"acdm: control address"),
            Failure::Follow => line(b"acdm: follow address"),
            Failure::Peer => line(b"acdm: peer address"),
            Failure::Log => line(b"acdm: log file"),
            Failure::Word => line(b"acdm: a word is not UTF-8"),
            Failure::Stream => line(b"acdm: no null device"),
            Failure::Keep => line(b"acdm: keep failed"),
            Failure::InUse => line(b"acdm: the kept journal is in use"),
            Failure::Room => line(b"acdm: the kept journal needs a larger --journal"),
            Failure::Replaced => line(b"acdm: another board has taken over"),
        }
    }

    /// What a command fails by where its journal could not be kept for this reason: `Keep` where that is that the text of
    /// entries could not be saved, else the reason itself.
    pub fn of_keeping(self) -> Failure
        ensures { result ≡ failure_of_keeping self }
    {
        match self {
            Failure::Save => Failure::Keep,
            failure => failure,
        }
    }

    /// Says what failed, as one line, and answers the status 2. Where the line can't be written
    /// either, the status alone says it.
    pub fn complain<E: Write>(self, errors: &mut Sink<E>) -> u8
        ensures status { result ≡ 2 }
        ensures tells { Complains errors.old errors.new (failure_text self) }
    {
        let text = self.text();
        match write_out(errors, text.as_slice()) {
            Ok(()) | Err(_) => 2,
        }
    }
}

/// The status that a command ends with: that of its work, and 2 where something kept it from it,
/// with a line on the errors' writer that says what.
pub fn ended<E: Write>(work: Result<u8, Failure>, errors: &mut Sink<E>) -> u8
    ensures { Ends work result errors.old errors.new }
{
    match work {
        Ok(status) => status,
        Err(failure) => failure.complain(errors),
    }
}

impl From<RunError> for Failure {
    ghost use Rattle.std.specs.Prelude.{◌≡◌};
    ghost use Rattle.acdm_failures.specs.Failures.{failure_of};

    ghost from_gives = { λ error failure. failure ≡ failure_of error };

    fn from(error: RunError) -> Failure {
        match error {
            RunError::Read => Failure::Read,
            RunError::Write => Failure::Write,
            RunError::Memory => Failure::Memory,
        }
    }
}

impl From<WriteError> for Failure {
    ghost use Rattle.std.specs.Prelude.{◌≡◌};
    ghost use Rattle.acdm_failures.specs.Failures.{failure_of_save};

    ghost from_gives = { λ error failure. failure ≡ failure_of_save error };

    fn from(error: WriteError) -> Failure {
        match error {
            WriteError::Write => Failure::Save,
            WriteError::Memory => Failure::Memory,
        }
    }
}

impl From<ServeError> for Failure {
    ghost use Rattle.std.specs.Prelude.{◌≡◌};
    ghost use Rattle.acdm_failures.specs.Failures.{failure_of_serve};

    ghost from_gives = { λ error failure. failure ≡ failure_of_serve error };

    fn from(error: ServeError) -> Failure {
        match error {
            ServeError::Accept(number) => Failure::Accept(number),
            ServeError::Write => Failure::Write,
            ServeError::Memory => Failure::Memory,
        }
    }
}

impl From<AllocError> for Failure {
    ghost use Rattle.std.specs.Prelude.{◌≡◌};
    ghost use Rattle.acdm_failures.specs.declared.failure.Failure.TheVariants.{Memory};

    ghost from_gives = { λ _ failure. failure ≡ Memory };

    fn from(_error: AllocError) -> Failure {
        Failure::Memory
    }
}

impl<T: Drop> From<AllocFailed<T>> for Failure {
    ghost use Rattle.std.specs.Prelude.{◌≡◌};
    ghost use Rattle.acdm_failures.specs.declared.failure.Failure.TheVariants.{Memory};

    ghost from_gives = { λ _ failure. failure ≡ Memory };

    fn from(_failed: AllocFailed<T>) -> Failure {
        Failure::Memory
    }
}
