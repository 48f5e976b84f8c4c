//! The audit of a whole journal.
ghost use Rattle.std.specs.Prelude.{◌≡◌, ◌<◌, ◌-◌, ◌^◌};
ghost use Rattle.acdm_journal.specs.Whole.{Audits};

use crate::journal_reader::{JournalEnd, read_journal};
use crate::journal_use::JournalUse;
use crate::judge::{Clause, PlannedEntry};
use acdm_lines::Source;
use acdm_step::Core;
use bpf_helpers::Sigs;
use std::alloc::Global;
use std::io::Read;
use thiserror::Error;

/// Why a journal was not found to be legal.
#[derive(Clone, Copy, Debug, PartialEq, Eq, Error)]
pub enum Fault {
    /// The first faulty entry, from 0, and the first clause that it breaks.
    #[error("entry {entry}: {clause}")]
    Faulty { entry: u64, clause: Clause },
    /// The reader failed, or gave 2^40 reads and no end.
    #[error("the reader failed")]
    Read,
    /// There was no memory.
    #[error("no memory")]
    Memory,
}

// Of the entries nothing is made but their board.
#[derive(Drop)]
struct Judging;

impl JournalUse<Core> for Judging {
    ghost use Rattle.std.specs.Prelude.{◌≡◌};
    ghost use Rattle.acdm_step.specs.History.{replay};

    type Stop = ();

    ghost sigs = { λ _ core. core.slots.sigs };

    ghost has = { λ _ first _ core J. core ≡ replay first.slots.sigs J };

    ghost stops = { λ _ _ _ _ _ _. ⊥ };

    fn board<'a>(&'a self, core: &'a Core) -> &'a Core {
        core
    }

    fn take(&mut self, core: &mut Core, _line: &[u8], next: PlannedEntry) -> Result<(), ()> {
        core.commit(next.plan);
        Ok(())
    }
}

/// Judges a journal, which is the text of its entries one after the other, against these
/// signatures (this project's profile). Answers how many entries it has where they are those of a
/// legal history.
///
/// `Faulty` with the first entry that is none, from 0, and the first clause that it breaks; a last
/// line without a line feed is not readable, and neither is one of 200,001 bytes, behind which no more
/// is read. `Read` where the reader failed, or where 2^40 reads
/// did not reach its end; `Memory` where there was no room for the board, for a line, or for what
/// an entry asks for. At no time is more kept than 65,536 bytes that were read, 200,001 of a line,
/// what it states, and the board after the entries before it.
pub fn audit<R: Read>(alloc: Global, reader: &mut Source<R>, sigs: &Sigs) -> Result<u64, Fault>
    requires reads { reader.old.faults < 2 ^ 64 - 1 }
    ensures audits { Audits sigs.now reader.old reader.new result }
    ensures first { reader.new.first ≡ reader.old.first }
{
    let Ok(same) = sigs.copy() else {
        return Err(Fault::Memory);
    };
    let Ok(mut core) = Core::new(alloc, same) else {
        return Err(Fault::Memory);
    };
    match read_journal(alloc, reader, true, &mut core, &mut Judging) {
        JournalEnd::Whole(entries) => Ok(entries),
        JournalEnd::Rest(entry) => Err(Fault::Faulty {
            entry,
            clause: Clause::Unreadable,
        }),
        JournalEnd::Faulty { entry, clause } => Err(Fault::Faulty { entry, clause }),
        JournalEnd::Read => Err(Fault::Read),
        JournalEnd::Memory | JournalEnd::Stopped(()) => Err(Fault::Memory),
    }
}
