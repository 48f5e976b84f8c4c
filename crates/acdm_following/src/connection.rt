//! One connection, from its first line to its end.
ghost use Rattle.std.specs.Prelude.{◌≡◌, [], IfErr, OnOk};
ghost use Rattle.acdm_keeping.specs.Kept.{CutsShort};
ghost use Rattle.acdm_following.specs.Comes.{BringsText, Comes, Fits, HearsHead, TakesHead};
ghost use Rattle.acdm_following.specs.Follows.{AreCovered};
ghost use Rattle.acdm_following.specs.Heads.{head_view};

use crate::entering::{enter_lines, has_name};
use crate::first_board::Parting;
use crate::head::{JournalHead, MOST_HEAD, read_head};
use crate::hearing::Gathering;
use crate::pending::{Pending, line_end};
use acdm_board::Desk;
use acdm_failures::Failure;
use acdm_keeping::EntryKeeper;
use acdm_lines::Source;
use bpf_helpers::Helpers;
use std::alloc::Global;
use std::io::Read;

// Takes the first line of a connection, if all of it is there, and says what it says.
fn take_head(alloc: Global, pending: &mut Pending) -> Result<Option<JournalHead>, Parting>
    ensures { TakesHead pending.old pending.new result }
{
    let text = pending.as_slice();
    let Some(end) = line_end(text) else {
        if text.len() > MOST_HEAD {
            return Err(Parting::NotAJournal);
        }
        return Ok(None);
    };
    if end > MOST_HEAD {
        return Err(Parting::NotAJournal);
    }
    let head = match read_head(alloc, &text[..end]) {
        Ok(Some(head)) => head,
        Ok(None) => return Err(Parting::NotAJournal),
        Err(_) => return Err(Parting::Failed(Failure::Memory)),
    };
    pending.take(end + 1);
    Ok(Some(head))
}

// Reads the first line of a connection, and maybe more, which is still to be taken then.
fn hear_head<R: Read>(
    alloc: Global,
    source: &mut Source<R>,
    hearing: &mut Gathering,
) -> Result<JournalHead, Parting>
    requires none { source.old.log ≡ [] }
    requires well { source.old.faults ≡ 0 }
    requires fresh { hearing.old.pending ≡ [] }
    ensures hears { HearsHead source.new.faults source.new.log source.new.ended hearing.new.pending result }
    ensures well { OnOk result (source.new.faults ≡ 0) }
{
    'head: loop {
        match take_head(alloc, &mut hearing.pending) {
            Ok(Some(head)) => return Ok(head),
            Ok(None) => {}
            Err(why) => return Err(why),
        }
        match hearing.hear(source) {
            Ok(true) => {}
            Ok(false) => return Err(Parting::Ended),
            Err(why) => return Err(why),
        }
    }
}

// Compares a first line with the entries that a desk has.
fn compare<H: Helpers + Drop>(
    alloc: Global,
    head: &JournalHead,
    desk: &mut Desk<H>,
) -> Result<(), Parting>
    ensures same { desk.new ≡ desk.old }
    ensures fits { Fits desk.old.history (head_view head.now) result }
{
    match has_name(alloc, head.name.as_bytes(), desk) {
        Ok(true) => {}
        Ok(false) => return Err(Parting::OtherJournal),
        Err(_) => return Err(Parting::Failed(Failure::Memory)),
    }
    if head.next < desk.len() {
        return Err(Parting::Behind { has: head.next });
    }
    if head.next > desk.len() {
        return Err(Parting::Ahead { next: head.next });
    }
    Ok(())
}

/// Has all entries kept that a desk has.
pub(crate) fn keep_all<K: EntryKeeper, H: Helpers + Drop>(
    keeper: &mut K,
    desk: &Desk<H>,
) -> Result<(), Failure>
    ensures kept { OnOk result (AreCovered (K.covers keeper.new) desk.now.history) }
    ensures failed { IfErr result CutsShort }
{
    let last = desk.len().checked_sub(1);
    keeper.keep_to(last)?;
    Ok(())
}

// Enters what comes behind the first line of a connection, and has it kept before more is read.
fn follow_entries<R: Read, K: EntryKeeper, H: Helpers + Drop>(
    alloc: Global,
    name: &[u8],
    hearing: &mut Gathering,
    source: &mut Source<R>,
    keeper: &mut K,
    desk: &mut Desk<H>,
) -> Parting
    requires well { source.old.faults ≡ 0 }
    ensures { BringsText name.now desk.old desk.new source.old source.new hearing.old.pending result }
{
    // (it says that the journal is legal)
    let _core = desk.core();
    let mut reads_left = u64::MAX;
    while reads_left > 0 {
        reads_left -= 1;
        let entered = enter_lines(alloc, name, &mut hearing.pending, desk);
        match keep_all(keeper, desk) {
            Ok(()) => {}
            Err(failure) => return Parting::Failed(failure),
        }
        match entered {
            Ok(()) => {}
            Err(why) => return why,
        }
        match hearing.hear(source) {
            Ok(true) => {}
            Ok(false) => return Parting::Ended,
            Err(why) => return why,
        }
    }
    Parting::Read
}

/// Follows one connection, of which nothing was read, to its end, and says why it has ended.
pub(crate) fn follow_one<R: Read, K: EntryKeeper, H: Helpers + Drop>(
    alloc: Global,
    source: &mut Source<R>,
    keeper: &mut K,
    desk: &mut Desk<H>,
) -> Parting
    requires none { source.old.log ≡ [] }
    requires well { source.old.faults ≡ 0 }
    ensures { Comes desk.old desk.new source.new.faults source.new.log source.new.ended result }
{
    let mut hearing = match Gathering::new(alloc) {
        Ok(hearing) => hearing,
        Err(_) => return Parting::Failed(Failure::Memory),
    };
    let head = match hear_head(alloc, source, &mut hearing) {
        Ok(head) => head,
        Err(why) => return why,
    };
    match compare(alloc, &head, desk) {
        Ok(()) => {}
        Err(why) => return why,
    }
    let name = head.name.as_bytes();
    follow_entries(alloc, name, &mut hearing, source, keeper, desk)
}
