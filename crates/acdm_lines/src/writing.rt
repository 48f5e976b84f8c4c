//! The writing of bytes to a writer that may be slow.
ghost use Rattle.std.specs.Prelude.{◌≤◌};
ghost use Rattle.acdm_lines.specs.Written.{Takes};

use crate::sink::Sink;
use crate::write_error::WriteError;
use std::io::{ErrorKind, Write};

/// Writes all of some bytes. A write that a signal interrupts is made once more, and so is one that
/// takes nothing in its time, until that came so often in a row.
///
/// `Write` where the writer failed or was given up. It may have taken a part of the bytes.
pub fn write_whole<W: Write>(
    writer: &mut Sink<W>,
    bytes: &[u8],
    refusals: u64,
) -> Result<(), WriteError>
    ensures takes { Takes writer.old writer.new bytes.now result }
    ensures faults { writer.old.faults ≤ writer.new.faults }
{
    let mut at = 0;
    let mut refusals_left = refusals;
    let mut signals_left = u64::MAX;
    while at < bytes.len() {
        match writer.write(&bytes[at..]) {
            Ok(taken) if taken > 0 => {
                at += taken;
                refusals_left = refusals;
            }
            Err(error) if error.kind() == ErrorKind::Interrupted && signals_left > 0 => {
                signals_left -= 1;
            }
            Err(error) if error.kind() == ErrorKind::WouldBlock && refusals_left > 1 => {
                refusals_left -= 1;
            }
            _ => return Err(WriteError::Write),
        }
    }
    Ok(())
}
