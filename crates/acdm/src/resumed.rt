//! Standard streams whose calls go on where a signal interrupted them.

use std::io::{self, ErrorKind, Read, Write};

// How often one call is taken up again.
const MOST_SIGNALS: u32 = 1_000_000_000;

/// A reader or a writer that takes up a call again which a signal interrupted: a stream with a time
/// limit of its own tells of each stop of the program so.
#[derive(Drop)]
pub(crate) struct Resumed<T> {
    stream: T,
}

impl<T> Resumed<T> {
    /// This reader or writer.
    pub(crate) fn new(stream: T) -> Resumed<T> {
        Resumed { stream }
    }
}

impl<R: Read> Read for Resumed<R> {
    fn read(&mut self, buf: &mut [u8]) -> io::Result<usize> {
        for _ in 0..MOST_SIGNALS {
            match self.stream.read(buf) {
                Err(error) if error.kind() == ErrorKind::Interrupted => {}
                given => return given,
            }
        }
        self.stream.read(buf)
    }
}

impl<W: Write> Write for Resumed<W> {
    fn write(&mut self, buf: &[u8]) -> io::Result<usize> {
        for _ in 0..MOST_SIGNALS {
            match self.stream.write(buf) {
                Err(error) if error.kind() == ErrorKind::Interrupted => {}
                taken => return taken,
            }
        }
        self.stream.write(buf)
    }

    fn flush(&mut self) -> io::Result<()> {
        self.stream.flush()
    }
}
