//! A writer that is waited for, and that a signal does not stop.
ghost use Rattle.std.specs.Prelude.{◌≡◌};

use std::io::{self, ErrorKind, Write};

// How often one call is taken up again that a signal interrupted.
const MOST_SIGNALS: u32 = 1_000_000_000;

// How often in a row a connection may take nothing in its time, until it is given up.
const MOST_REFUSALS: u32 = 120;

/// A writer that is made to write again where a signal interrupted it, as a connection with a time limit
/// tells of each stop of the program; and where it took nothing in its time, up to 120 times in a row.
pub struct Patient<W> {
    stream: W,
}

impl<W: Drop> Drop for Patient<W> {
    fn drop(self) {
        let Patient { stream: _ } = self;
    }
}

impl<W> Patient<W> {
    /// This writer.
    pub fn new(stream: W) -> Patient<W>
        ensures { result ≡ record { stream = stream } }
    {
        Patient { stream }
    }
}

impl<W: Write> Write for Patient<W> {
    // What the writer holds: it took what this says that it took, and nothing where this failed.
    ghost contents = { λ p. W.contents p.stream };

    fn write(&mut self, buf: &[u8]) -> io::Result<usize> {
        let mut refusals = 0;
        for _ in 0..MOST_SIGNALS {
            match self.stream.write(buf) {
                Err(error) if error.kind() == ErrorKind::Interrupted => {}
                Err(error) if error.kind() == ErrorKind::WouldBlock && refusals < MOST_REFUSALS => {
                    refusals += 1;
                }
                taken => return taken,
            }
        }
        self.stream.write(buf)
    }

    fn flush(&mut self) -> io::Result<()> {
        self.stream.flush()
    }
}
