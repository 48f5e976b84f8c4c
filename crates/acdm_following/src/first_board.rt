//! The board that is followed.
use crate::course::Course;
use acdm_failures::Failure;
use acdm_journal::Clause;
use std::io::Read;

/// Why a connection to the first board has come to its end.
#[derive(Clone, Copy, Debug, PartialEq, Eq)]
pub enum Parting {
    /// It gave no more.
    Ended,
    /// It failed, or gave 2^64 - 1 reads and no end.
    Read,
    /// Its first line is not that of a journal.
    NotAJournal,
    /// Its first line names another journal. None of its entries was entered.
    OtherJournal,
    /// The first board has fewer entries than this one: so many.
    Behind { has: u64 },
    /// It goes on with the entry of this number, and entries are missing before that.
    Ahead { next: u64 },
    /// The line of the entry of this number, from 0, breaks this clause first. It was not entered, nor any behind it.
    Faulty { entry: u64, clause: Clause },
    /// This board can't go on, and following ends: `Save` or `Memory` as the keeper says, `Memory` where it was
    /// refused, `Room` where the desk has no place for an entry that came.
    Failed(Failure),
}

/// The board that is followed, as far as it can be reached, and what goes on beside.
pub trait FirstBoard {
    ghost use Rattle.std.specs.Prelude.{◌≡◌, is_some};
    ghost use Rattle.acdm_following.specs.Courses.{CourseView, asked, parted_as};

    /// What is read of a connection.
    type Connection: Read + Drop;

    /// What was asked for, and what came: `Course` keeps it.
    ghost course: { Self → CourseView };

    /// A connection at which the entries from this number on were asked for; it waits by itself between two attempts.
    /// `None` where following is over.
    fn connect(&mut self, next: u64) -> Option<Self::Connection>
        ensures { course self.new ≡ asked (course self.old) next (is_some result) };

    /// A connection has come to its end, for this reason; it is handed back, and what it gave. Behind `Parting::Failed`
    /// following is over too.
    fn part(&mut self, connection: Self::Connection, given: &Course, why: Parting)
        ensures { course self.new ≡ parted_as (course self.old) given.now.parted why };
}
