//! The reading of a journal, line by line, for a use of it.
ghost use Rattle.std.specs.Prelude.{◌≡◌, ◌<◌, ◌-◌, ◌^◌, true, false, [], length, Ok};
ghost use Rattle.acdm_lines.specs.Lines.{weight};
ghost use Rattle.acdm_lines.specs.NextLine.{ReadsSoon, TakesWithin};
ghost use Rattle.acdm_step.specs.Commands.{History};
ghost use Rattle.acdm_step.specs.History.{IsLegal};
ghost use Rattle.acdm_journal.specs.Behind.{ReadsBehind};
ghost use Rattle.acdm_journal.specs.Uses.{PlansNext, ReadsJournal, UsesLine};

use crate::journal_use::JournalUse;
use crate::judge::{AuditError, Clause, PlannedEntry, plan_line};
use crate::reading::LONGEST_ENTRY;
use acdm_lines::{Ending, Lines, RunError, Source};
use std::alloc::Global;
use std::io::Read;

/// How many bytes are kept of a line: one more than the longest line has, so that a longer one is
/// told by what is kept of it.
pub const MOST_KEPT: usize = LONGEST_ENTRY + 1;

/// How the reading of a journal ended.
pub enum JournalEnd<S> {
    /// Behind the lines of so many entries, and nothing stands behind them.
    Whole(u64),
    /// Behind the lines of so many entries, with a rest that no line feed ends.
    Rest(u64),
    /// At its first faulty entry, from 0, which breaks this clause first.
    Faulty { entry: u64, clause: Clause },
    /// The reader failed, or gave 2^40 reads and no end.
    Read,
    /// There was no memory.
    Memory,
    /// The use took no more entries.
    Stopped(S),
}

// Takes the next line, and says whether a line feed ended it. Else the input has ended; or the line is
// too long, where it is to be told before its end.
fn next_line<R: Read>(
    lines: &mut Lines<MOST_KEPT>,
    reader: &mut Source<R>,
    is_bounded: bool,
) -> Result<bool, RunError>
    ensures takes { TakesWithin MOST_KEPT reader.old reader.new lines.old lines.new result }
    ensures progress { result ≡ Ok true → weight lines.new.reads_left lines.new.window
        < weight lines.old.reads_left lines.old.window }
    ensures soon { is_bounded ≡ true → ReadsSoon MOST_KEPT reader.old reader.new lines.old }
    ensures ended { is_bounded ≡ false → result ≡ Ok false → reader.new.ended ≡ true }
{
    if is_bounded {
        return lines.next_within(reader);
    }
    match lines.next(reader) {
        Ok(Ending::LineFeed) => Ok(true),
        Ok(Ending::Input) => Ok(false),
        Err(error) => Err(error),
    }
}

// The entry that a line tells of behind those that a use has, and what it does to their board.
fn plan_next<P, U: JournalUse<P>>(
    alloc: Global,
    place: &P,
    to: &U,
    number: u64,
    line: &[u8],
) -> Result<PlannedEntry, AuditError>
    ensures { (first : U) (at : P) (J : History) → U.has first at to.now place.now J
        → IsLegal (U.sigs first at) J → length J ≡ number
        → PlansNext (U.sigs first at) J line.now result }
{
    let board = to.board(place);
    plan_line(alloc, board, board.sigs(), number, line)
}

// Judges the line of the entry of this number, and hands the entry to a use. `Err` with the end of the
// journal where it is not taken.
fn use_line<P, U: JournalUse<P>>(
    alloc: Global,
    place: &mut P,
    to: &mut U,
    entry: u64,
    line: &[u8],
) -> Result<(), JournalEnd<U::Stop>>
    requires { (first : U) × (at : P) × (J : History) × U.has first at to.old place.old J
        × IsLegal (U.sigs first at) J × (length J ≡ entry) }
    ensures { (first : U) (at : P) (J : History) → U.has first at to.old place.old J
        → IsLegal (U.sigs first at) J → length J ≡ entry
        → UsesLine (U.sigs first at) (U.has first at to.new place.new)
        (U.stops first at to.new place.new) J line.now result }
{
    let next = match plan_next(alloc, place, to, entry, line) {
        Ok(next) => next,
        Err(AuditError::Memory) => return Err(JournalEnd::Memory),
        Err(AuditError::Faulty(clause)) => return Err(JournalEnd::Faulty { entry, clause }),
    };
    match to.take(place, line, next) {
        Ok(()) => Ok(()),
        Err(stop) => Err(JournalEnd::Stopped(stop)),
    }
}

/// Reads a journal, which is the text of its entries one after the other, and hands each entry that
/// goes on with a legal history to a use, until one does not, or the text ends. Says how it ended.
///
/// Where `is_bounded` is set, no more is read behind 200,001 bytes of a line; else a rest is read to
/// its end, however long it is. `Read` where the reader failed, or where 2^40 reads did not reach its
/// end; `Memory` where there was no room for a line, or for what an entry asks for. At no time is more
/// kept than 65,536 bytes that were read, 200,001 of a line, and what it states.
pub fn read_journal<R: Read, P, U: JournalUse<P>>(
    alloc: Global,
    reader: &mut Source<R>,
    is_bounded: bool,
    place: &mut P,
    to: &mut U,
) -> JournalEnd<U::Stop>
    requires reads { reader.old.faults < 2 ^ 64 - 1 }
    requires begins { U.has to.old place.old to.old place.old [] }
    ensures reads { ReadsJournal (U.sigs to.old place.old) is_bounded
        (U.has to.old place.old to.new place.new) (U.stops to.old place.old to.new place.new)
        reader.old reader.new result }
    ensures first { reader.new.first ≡ reader.old.first }
{
    read_behind(alloc, reader, is_bounded, 0, place, to)
}

/// Reads what stands behind a legal history in a journal, as `read_journal` reads all of it, for a use that has that
/// history already, of so many entries, fewer than 2^63. All numbers of entries are those in the whole journal.
pub fn read_behind<R: Read, P, U: JournalUse<P>>(
    alloc: Global,
    reader: &mut Source<R>,
    is_bounded: bool,
    number: u64,
    place: &mut P,
    to: &mut U,
) -> JournalEnd<U::Stop>
    ghost before: { History }
    requires reads { reader.old.faults < 2 ^ 64 - 1 }
    requires begins { U.has to.old place.old to.old place.old before }
    requires legal { IsLegal (U.sigs to.old place.old) before }
    requires count { length before ≡ number }
    requires few { number < 2 ^ 63 }
    ensures reads { ReadsBehind (U.sigs to.old place.old) is_bounded before
        (U.has to.old place.old to.new place.new) (U.stops to.old place.old to.new place.new)
        reader.old reader.new result }
    ensures first { reader.new.first ≡ reader.old.first }
{
    let Ok(mut lines) = Lines::<MOST_KEPT>::new(alloc) else {
        return JournalEnd::Memory;
    };
    let mut entry = number;
    loop {
        let is_line = match next_line(&mut lines, reader, is_bounded) {
            Ok(is_line) => is_line,
            Err(_) => return JournalEnd::Read,
        };
        if !is_line {
            if lines.line.as_slice().is_empty() {
                return JournalEnd::Whole(entry);
            }
            return JournalEnd::Rest(entry);
        }
        match use_line(alloc, place, to, entry, lines.line.as_slice()) {
            Ok(()) => {}
            Err(end) => return end,
        }
        entry += 1;
    }
}
