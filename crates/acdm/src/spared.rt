//! Standard error, which is left alone where it goes to a file that the words name.

use std::io::{self, ErrorKind, Write};

/// A writer, or one that takes nothing: a journal stays as it is where its file is standard error too.
#[derive(Drop)]
pub(crate) struct Spared<W> {
    stream: W,
    is_spared: bool,
}

impl<W> Spared<W> {
    /// This writer, and whether nothing is to be written there.
    pub(crate) fn new(stream: W, is_spared: bool) -> Spared<W> {
        Spared { stream, is_spared }
    }
}

impl<W: Write> Write for Spared<W> {
    fn write(&mut self, buf: &[u8]) -> io::Result<usize> {
        if self.is_spared {
            return Err(io::Error::from(ErrorKind::Other));
        }
        self.stream.write(buf)
    }

    fn flush(&mut self) -> io::Result<()> {
        self.stream.flush()
    }
}
