//! The name of a journal.
ghost use Rattle.std.specs.Prelude.{◌≡◌, IfOk, take};
ghost use Rattle.std.specs.String.{string_bytes};
ghost use Rattle.hex.specs.Hex.{encode_lower};
ghost use Rattle.sha2.specs.Sha256.{sha256};
ghost use Rattle.acdm_feed.specs.Naming.{name_of};

use acdm_journal::push_entry;
use acdm_step::Entry;
use sha2::{Digest, Sha256};
use std::alloc::{AllocError, Global};

/// How many bytes of the digest are in a name.
const NAMED_BY: usize = 16;

/// The name of a journal whose first entry has this line, which stands without its line feed: the first bytes of its
/// digest, as digits. `Err` only where memory was refused.
pub fn name_of_line(alloc: Global, line: &[u8]) -> Result<String, AllocError>
    ensures { IfOk result (λ name. string_bytes name ≡ encode_lower (take 16 (sha256 line.now))) }
{
    let digest = Sha256::digest(line);
    hex::encode(alloc, &digest[..NAMED_BY])
}

/// The name of a journal whose first entry is this. `Err` only where memory was refused.
pub fn journal_name(alloc: Global, entry: &Entry) -> Result<String, AllocError>
    ensures { IfOk result (λ name. string_bytes name ≡ name_of entry.now) }
{
    let mut line = Vec::new(alloc);
    push_entry(&mut line, entry)?;
    let _line_feed = line.pop();
    name_of_line(alloc, line.as_slice())
}
