//! Whether a display has left.
ghost use Rattle.std.specs.Prelude.{◌↔◌, IsTrue};
ghost use Rattle.acdm_displays.specs.Leaving.{TellsLeaving};

use acdm_lines::is_passing;
use std::io::{self, Read};

// Whether a read tells that a display has left.
fn tells_leaving(heard: &io::Result<usize>) -> bool
    ensures { IsTrue result ↔ TellsLeaving heard.now }
{
    match heard {
        Ok(count) => *count == 0,
        Err(error) => !is_passing(error),
    }
}

/// Whether a display has left. What it sends is dropped. A signal or a time that ran out is no end.
pub(crate) fn has_left<R: Read>(reader: &mut R) -> bool {
    let mut heard = [0u8; 512];
    tells_leaving(&reader.read(&mut heard))
}
