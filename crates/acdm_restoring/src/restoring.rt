//! The reading of a saved journal into a desk, entry by entry.
ghost use Rattle.std.specs.Prelude.{◌≡◌, ◌+◌, ◌<◌, ◌-◌, ◌^◌, [], length, OnOk};
ghost use Rattle.acdm_restoring.specs.Crash.{GoesOnFrom};
ghost use Rattle.acdm_restoring.specs.Restored.{IsCount, Restores, RestoresBehind, answer_of};

use acdm_board::Desk;
use acdm_journal::{Clause, JournalEnd, JournalUse, PlannedEntry, read_behind};
use acdm_lines::Source;
use acdm_step::Core;
use bpf_helpers::Helpers;
use std::alloc::Global;
use std::io::Read;
use thiserror::Error;

/// Behind how many entries no more are put.
const MOST_BEFORE: u64 = 1 << 63;

/// Why a desk does not go on from a saved journal.
#[derive(Clone, Copy, Debug, PartialEq, Eq, Error)]
pub enum RestoreError {
    /// The first faulty entry, from 0, and the first clause that it breaks.
    #[error("entry {entry}: {clause}")]
    Faulty { entry: u64, clause: Clause },
    /// There are more entries than the desk has room for, or the text of those that it took has
    /// 2^64 bytes or more.
    #[error("more entries than there is room for")]
    Full,
    /// The reader failed, or gave 2^40 reads and no end.
    #[error("the reader failed")]
    Read,
    /// There was no memory.
    #[error("no memory")]
    Memory,
}

// How many bytes the text of the entries has that a desk took since, where there are fewer than 2^64.
#[derive(Drop)]
struct Restoring {
    bytes: Option<u64>,
}

impl<H: Helpers + Drop> JournalUse<Desk<H>> for Restoring {
    ghost use Rattle.acdm_restoring.specs.Restored.{HasEntries, StopsAt};

    type Stop = RestoreError;

    ghost sigs = { λ _ desk. desk.sigs };

    ghost has = { λ _ first restoring desk J. HasEntries first desk restoring.bytes J };

    ghost stops = { λ _ first _ desk J error. StopsAt first desk J error };

    fn board<'a>(&'a self, desk: &'a Desk<H>) -> &'a Core {
        desk.core()
    }

    // Puts the entry behind the others, where there is room for it.
    fn take(
        &mut self,
        desk: &mut Desk<H>,
        line: &[u8],
        next: PlannedEntry,
    ) -> Result<(), RestoreError> {
        let Some(bytes) = self.bytes else {
            return Err(RestoreError::Full);
        };
        if desk.len() >= desk.capacity() as u64 {
            return Err(RestoreError::Full);
        }
        let PlannedEntry { entry, plan } = next;
        match desk.restore(entry, plan) {
            Ok(()) => {}
            Err(_) => return Err(RestoreError::Memory),
        }
        self.bytes = longer(bytes, line);
        Ok(())
    }
}

// How many bytes there are with a line more, and its line feed.
fn longer(bytes: u64, line: &[u8]) -> Option<u64>
    ensures { IsCount result (bytes + (length line.now + 1)) }
{
    match bytes.checked_add(line.len() as u64 + 1) {
        Some(bytes) => Some(bytes),
        None => None,
    }
}

/// Puts the entries of a reader's lines behind those that a desk has, one after the other, each once its line was
/// judged behind those before it. The core is then their replay, and the next entry is numbered behind them. A rest
/// behind the last line feed is left out.
///
/// Answers how many bytes the text of the entries has that it put there. `Faulty` with the number of the first entry
/// that is none, in the whole journal, and the first clause that it breaks, as an audit tells it; `Full` where there
/// are more entries than the desk has room for; `Read` where the reader failed, or where 2^40 reads did not reach its
/// end; `Memory` where there was no room for a line, or for what an entry asks for, or where the desk has 2^63
/// entries. After an error the desk has the entries before.
pub fn restore_behind<R: Read, H: Helpers + Drop>(
    alloc: Global,
    reader: &mut Source<R>,
    desk: &mut Desk<H>,
) -> Result<u64, RestoreError>
    requires reads { reader.old.faults < 2 ^ 64 - 1 }
    ensures restores { RestoresBehind desk.old desk.new reader.old reader.new result }
    ensures first { reader.new.first ≡ reader.old.first }
{
    // (it says that the journal is legal)
    let _core = desk.core();
    let number = desk.len();
    if number >= MOST_BEFORE {
        return Err(RestoreError::Memory);
    }
    let mut restoring = Restoring { bytes: Some(0) };
    let end = read_behind(alloc, reader, false, number, desk, &mut restoring);
    answer_of(end, restoring.bytes)
}

// What is answered where reading has ended so, and the text of the entries has so many bytes.
fn answer_of(end: JournalEnd<RestoreError>, bytes: Option<u64>) -> Result<u64, RestoreError>
    ensures { result ≡ answer_of end bytes }
{
    match end {
        JournalEnd::Whole(_) | JournalEnd::Rest(_) => match bytes {
            Some(bytes) => Ok(bytes),
            None => Err(RestoreError::Full),
        },
        JournalEnd::Faulty { entry, clause } => Err(RestoreError::Faulty { entry, clause }),
        JournalEnd::Read => Err(RestoreError::Read),
        JournalEnd::Memory => Err(RestoreError::Memory),
        JournalEnd::Stopped(error) => Err(error),
    }
}

/// Puts the entries of a saved journal, which a reader gives as text, into a desk that has none. The
/// desk then goes on from there: its core is their replay, and the next entry is numbered behind
/// them. A rest behind the last line feed is left out.
///
/// So it goes on from what a crash may leave of a file in which a journal is kept: the desk has the first entries of
/// that journal, and all of those that stood on the disk (`crash`).
///
/// Answers how many bytes the text of the entries has, so that what is behind it is the rest.
/// `Faulty` with the first entry that is none, from 0, and the first clause that it breaks, as an
/// audit tells it; `Full` where there are more entries than the desk has room for; `Read` where the
/// reader failed, or where 2^40 reads did not reach its end; `Memory` where there was no room for a
/// line, or for what an entry asks for. After an error the desk has the entries before.
pub fn restore<R: Read, H: Helpers + Drop>(
    alloc: Global,
    reader: &mut Source<R>,
    desk: &mut Desk<H>,
) -> Result<u64, RestoreError>
    requires reads { reader.old.faults < 2 ^ 64 - 1 }
    requires empty { desk.old.history ≡ [] }
    ensures restores { Restores desk.old desk.new reader.old reader.new result }
    ensures crash { OnOk result (GoesOnFrom desk.old.sigs reader.old.log reader.new.log desk.new.history) }
{
    match restore_behind(alloc, reader, desk) {
        Ok(bytes) => Ok(bytes),
        Err(error) => Err(error),
    }
}
