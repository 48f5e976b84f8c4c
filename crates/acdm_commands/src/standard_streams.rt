//! Whether a file is that of a standard stream.

use acdm_keeping::leads_to;
use std::fs::{self, Files};

/// Where the standard streams of a process are found.
const STREAMS: [&str; 3] = ["/proc/self/fd/0", "/proc/self/fd/1", ERRORS];

const ERRORS: &str = "/proc/self/fd/2";

// Whether a path is that of a file that a stream goes to.
fn is_file_of<Rt: Files>(rt: &Rt, path: &str, stream: &str) -> bool {
    match fs::metadata(rt, path) {
        Ok(file) => file.is_file() && leads_to(rt, stream, &file),
        Err(_) => false,
    }
}

/// Whether standard error goes to a file that a word of the command line names, by itself or behind its first
/// equals sign. Nothing is written there then: what is told of a journal would become a part of it.
pub fn is_error_file<Rt: Files>(rt: &Rt, word: &str) -> bool {
    if is_file_of(rt, word, ERRORS) {
        return true;
    }
    match word.split_once('=') {
        Some((_, path)) => is_file_of(rt, path, ERRORS),
        None => false,
    }
}

/// Whether the file of a path is also that of standard input, output or errors, by whatever name. What is no
/// file, as a device or a pipe, is none of them.
pub(crate) fn is_standard<Rt: Files>(rt: &Rt, path: &str) -> bool {
    for stream in STREAMS {
        if is_file_of(rt, path, stream) {
            return true;
        }
    }
    false
}
