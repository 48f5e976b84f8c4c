//! Copying of the first bytes of a file.
ghost use Rattle.std.specs.Prelude.{◌≡◌, ◌≤◌, IfOk, OnOk};
ghost use Rattle.acdm_keeping.specs.Copied.{Copies};

use acdm_lines::{Sink, Source};
use std::io::{self, ErrorKind, Read, Write};

/// How many bytes are copied at once at most.
const PIECE: usize = 65_536;

// Copies the next bytes, so many at most, and says how many there were.
fn copy_next<R: Read, W: Write>(
    reader: &mut Source<R>,
    writer: &mut Sink<W>,
    most: usize,
) -> io::Result<usize>
    requires { most ≤ 65536 }
    ensures bound { IfOk result (λ count. count ≤ most) }
    ensures copies { IfOk result (λ count. Copies count reader.old.log reader.new.log
        writer.old.log writer.new.log) }
{
    let mut piece = [0u8; PIECE];
    let count = reader.read(&mut piece[..most])?;
    writer.write_all(&piece[..count])?;
    Ok(count)
}

// How many of so many bytes are copied at once.
fn piece_of(left: u64) -> usize
    ensures left { result ≤ left }
    ensures piece { result ≤ 65536 }
{
    if left < PIECE as u64 {
        left as usize
    } else {
        PIECE
    }
}

/// Copies the next bytes of a reader, just so many, whatever reader and writer these are. `UnexpectedEof` where the
/// reader ends before, else what reading or writing failed for.
pub fn copy_bytes<R: Read, W: Write>(
    reader: &mut Source<R>,
    writer: &mut Sink<W>,
    bytes: u64,
) -> io::Result<()>
    ensures { OnOk result (Copies bytes reader.old.log reader.new.log writer.old.log writer.new.log) }
{
    let mut left = bytes;
    for _ in 0..u64::MAX {
        if left == 0 {
            return Ok(());
        }
        let count = copy_next(reader, writer, piece_of(left))?;
        if count == 0 {
            break;
        }
        left -= count as u64;
    }
    Err(io::Error::from(ErrorKind::UnexpectedEof))
}
