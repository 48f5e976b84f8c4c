//! Following a board until that is over.
ghost use Rattle.std.specs.Prelude.{◌≡◌, OnOk};
ghost use Rattle.acdm_step.specs.History.{IsLegal};
ghost use Rattle.acdm_following.specs.Follows.{AreCovered, Followed, Grows};

use crate::connection::{follow_one, keep_all};
use crate::course::Course;
use crate::first_board::{FirstBoard, Parting};
use acdm_board::Desk;
use acdm_failures::Failure;
use acdm_keeping::EntryKeeper;
use acdm_lines::Source;
use bpf_helpers::Helpers;
use std::alloc::Global;

/// Follows a board until that is over (`connect` gave none), with all entries kept then that came.
///
/// For each connection its first line is read, which names the journal and the number of the entry that comes next.
/// Where both are those of the desk, each line behind it is judged as an audit does, and entered; before more is read
/// of the connection, all entries are kept that the desk has. A connection that ends, fails or gives anything else is
/// handed back (`part`), and the next one is asked for, from the entry on that comes next for the desk.
///
/// `Err` with `Save` or `Memory` where the keeper fails, `Memory` where it was refused, `Room` where the desk has no
/// place for an entry that came; the last connection was handed back with `Parting::Failed` then, if there was one.
/// `Read` behind 2^64 - 1 connections.
pub fn follow<B: FirstBoard, K: EntryKeeper, H: Helpers + Drop>(
    alloc: Global,
    board: &mut B,
    keeper: &mut K,
    desk: &mut Desk<H>,
) -> Result<(), Failure>
    ensures followed { Followed desk.old desk.new (B.course board.old) (B.course board.new) result }
    ensures grows { Grows desk.old desk.new }
    ensures legal { IsLegal desk.new.sigs desk.new.history }
    ensures kept { OnOk result (AreCovered (K.covers keeper.new) desk.new.history) }
{
    // (it says that the journal is legal)
    let _core = desk.core();
    let mut connections_left = u64::MAX;
    while connections_left > 0 {
        connections_left -= 1;
        let Some(connection) = board.connect(desk.len()) else {
            return keep_all(keeper, desk);
        };
        let mut source = Source::new(connection);
        let why = follow_one(alloc, &mut source, keeper, desk);
        let given = Course::of(&source);
        board.part(source.into_inner(), &given, why);
        // (so is what it has now)
        let _core = desk.core();
        match why {
            Parting::Failed(failure) => return Err(failure),
            _ => {}
        }
    }
    Err(Failure::Read)
}
