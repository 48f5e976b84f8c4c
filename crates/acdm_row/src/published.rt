//! What stands in a cell.
ghost use Rattle.std.specs.Prelude.{◌≡◌, IfOk};

use acdm_milestones::Role;
use acdm_step::{Answers, Command, Entry, Verdict};
use std::alloc::{AllocError, Global};
use std::snapshot::Snapshot;

/// The entries so far, which exist in proofs alone: at run time it is a length.
pub type Past = Vec<Snapshot<Entry>>;

/// An entry, and in proofs alone those before it. So a note of one cell knows the whole journal up
/// to it.
pub struct Published {
    pub entry: Entry,
    pub before: Snapshot<Past>,
}

impl Drop for Published {
    fn drop(self) {
        let Published {
            entry: _,
            before: _,
        } = self;
    }
}

/// Memory for what is published next, taken before it is known. Until then a tick stands there that
/// nobody made.
pub struct EntryPlace {
    value: Box<Published>,
}

impl Drop for EntryPlace {
    fn drop(self) {
        let EntryPlace { value: _ } = self;
    }
}

impl EntryPlace {
    /// Memory for one entry. `Err` only where it was refused.
    pub(crate) fn new(alloc: Global, past: &Past) -> Result<EntryPlace, AllocError> {
        let entry = Entry {
            number: 0,
            session: 1,
            role: Role::AirportOperator,
            verdict: Verdict::Accepted,
            moment: 1,
            command: Command::Tick,
            answers: Answers::none(),
        };
        let before = Snapshot::of(past);
        let value = Box::new(alloc, Published { entry, before })?;
        Ok(EntryPlace { value })
    }

    /// An entry, and those before it, in this memory.
    pub(crate) fn put(self, entry: Entry, before: Snapshot<Past>) -> Box<Published>
        ensures entry { result.value.entry ≡ entry }
        ensures before { result.value.before ≡ before }
    {
        let EntryPlace { value: place } = self;
        let mut place = place;
        *place = Published { entry, before };
        place
    }
}
