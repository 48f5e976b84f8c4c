//! The hearing of a request.
ghost use Rattle.std.specs.Prelude.{◌≡◌, [], IfSome, option_map};
ghost use Rattle.acdm_web.specs.Wanted.{Wants};

use crate::request::{BrowserRequest, wanted_in};
use acdm_lines::{Source, is_passing};
use std::alloc::Global;
use std::io::Read;

/// How many bytes the head of a request has at most.
const LONGEST_HEAD: usize = 8_192;

/// How many bytes are read at once at most.
const PIECE: usize = 512;

/// How often is read at most, where no time limit ends it.
const MOST_READS: u64 = 10_000;

/// Tells when a time is over.
pub trait TimeLimit {
    /// Whether it is.
    fn is_over(&self) -> bool;
}

/// What a browser asks for, of a board with this name, if it has one. `None` where it ends before its head is
/// whole, where that has more than 8,192 bytes or is not there once the time is over or after 10,000 reads, where
/// the reader fails, and where memory is refused. A read that nothing came of in its time, or that a signal
/// interrupted, is made again. It is read once also where the time is over, so that what has come by then is heard.
pub fn first_wanted<R: Read, L: TimeLimit>(
    alloc: Global,
    reader: &mut Source<R>,
    name: Option<&str>,
    limit: &L,
) -> Option<BrowserRequest>
    requires { reader.old.log ≡ [] }
    ensures { IfSome result (Wants (option_map (λ n. n.now) name.entry) reader.new.log) }
{
    let mut bytes = Vec::new(alloc);
    for _ in 0..MOST_READS {
        let mut piece = [0u8; PIECE];
        match reader.read(&mut piece) {
            Ok(0) => return None,
            Ok(count) => {
                if bytes.extend_from_slice(&piece[..count]).is_err() {
                    return None;
                }
            }
            Err(error) if is_passing(&error) => {}
            Err(_) => return None,
        }
        if bytes.len() > LONGEST_HEAD {
            return None;
        }
        if let Some(request) = wanted_in(bytes.as_slice(), name) {
            return Some(request);
        }
        if limit.is_over() {
            return None;
        }
    }
    None
}
