//! What is read of a file.
ghost use Rattle.std.specs.Prelude.{IfOk, IfErr};
ghost use Rattle.acdm_judging.specs.Gave.{FailsToGive, GaveBytes};

use acdm_lines::Source;
use std::alloc::Global;
use std::io::{self, ErrorKind, Read};

// No program has more bytes, so a longer file is refused by what was read of it.
pub(crate) const MOST_BYTES: usize = 32_768;

const PIECE: usize = 4_096;

/// Why the bytes of a file can't be had.
#[derive(Drop)]
pub enum BytesError {
    /// The reader failed.
    Read(io::Error),
    /// Memory was refused.
    Memory,
}

/// The bytes that a reader gives, to its end or until they are more than so many.
pub fn bytes_of<R: Read>(
    alloc: Global,
    reader: &mut Source<R>,
    most: usize,
) -> Result<Vec<u8>, BytesError>
    ensures gave { IfOk result (λ bytes. GaveBytes most reader.old reader.new bytes.items) }
    ensures fails { IfErr result (FailsToGive reader.old reader.new) }
{
    let mut bytes = Vec::new(alloc);
    let mut piece = [0; PIECE];
    while bytes.len() <= most {
        match reader.read(&mut piece) {
            Ok(0) => return Ok(bytes),
            Ok(count) => {
                if bytes.extend_from_slice(&piece[..count]).is_err() {
                    return Err(BytesError::Memory);
                }
            }
            Err(error) if error.kind() == ErrorKind::OutOfMemory => {
                return Err(BytesError::Memory);
            }
            Err(error) => return Err(BytesError::Read(error)),
        }
    }
    Ok(bytes)
}
