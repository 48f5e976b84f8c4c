//! The words of the command line.

use acdm_commands::Failure;
use std::alloc::{AllocError, Global};
use std::env::{self, Env};
use std::io::{self, ErrorKind};

/// The words that the program was started with; the first is its name.
pub(crate) fn given<Rt: Env + AllocGlobal>(rt: &Rt) -> Result<Vec<String>, Failure> {
    match env::args(rt) {
        Ok(words) => Ok(words.collect(rt.alloc())?),
        Err(error) => Err(failure_of(&error)),
    }
}

// Why the words can't be read.
fn failure_of(error: &io::Error) -> Failure {
    match error.kind() {
        ErrorKind::OutOfMemory => Failure::Memory,
        _ => Failure::Word,
    }
}

/// These words as texts.
pub(crate) fn texts(alloc: Global, words: &[String]) -> Result<Vec<&str>, AllocError> {
    words.iter().map(|word| word.as_str()).collect(alloc)
}
