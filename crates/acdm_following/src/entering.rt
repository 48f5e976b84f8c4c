//! The entering of what was read of a connection.
ghost use Rattle.std.specs.Prelude.{◌≡◌, ◌++◌, ◌↔◌, IfErr, IfOk, IfSome, IsTrue, OnOk, option_map, string_bytes};
ghost use Rattle.acdm_feed.specs.Naming.{first_entry, name_of};
ghost use Rattle.acdm_following.specs.Entering.{EntersLines, EntersText, MayBegin, TellsName};
ghost use Rattle.acdm_following.specs.Entering.{answer_of, name_by};

use crate::first_board::Parting;
use crate::pending::{Pending, line_end};
use acdm_board::Desk;
use acdm_failures::Failure;
use acdm_feed::{journal_name, name_of_line};
use acdm_journal::{Clause, MOST_KEPT};
use acdm_lines::Source;
use acdm_restoring::{RestoreError, restore_behind};
use bpf_helpers::Helpers;
use std::alloc::{AllocError, Global};
use std::sync::Arc;

// The name of a desk's journal, if it has an entry. `Err` only where memory was refused.
fn name_of_desk<H: Helpers + Drop>(
    alloc: Global,
    desk: &mut Desk<H>,
) -> Result<Option<String>, AllocError>
    ensures same { desk.new ≡ desk.old }
    ensures name { IfOk result (λ name. option_map string_bytes name
        ≡ option_map name_of (first_entry desk.old.history)) }
{
    let row = Arc::try_clone(desk.row())?;
    let Some(entry) = desk.entry(&row, 0) else {
        return Ok(None);
    };
    let name = journal_name(alloc, entry)?;
    Ok(Some(name))
}

/// Whether a desk's journal has this name, if it has an entry. `Err` only where memory was refused.
pub(crate) fn has_name<H: Helpers + Drop>(
    alloc: Global,
    name: &[u8],
    desk: &mut Desk<H>,
) -> Result<bool, AllocError>
    ensures same { desk.new ≡ desk.old }
    ensures name { IfOk result (TellsName name.now desk.old.history) }
{
    let Some(own) = name_of_desk(alloc, desk)? else {
        return Ok(true);
    };
    Ok(own.as_bytes() == name)
}

// Whether a line is that of the first entry of a journal of this name. `Err` only where memory was refused.
fn is_first_of(alloc: Global, line: &[u8], name: &[u8]) -> Result<bool, AllocError>
    ensures { IfOk result (λ is. IsTrue is ↔ (name_by line.now ≡ name.now)) }
{
    let own = name_of_line(alloc, line)?;
    Ok(own.as_bytes() == name)
}

// Whether a line may be that of a desk's next entry by the name of its journal: where it has none, the line is to be
// that of the first entry of the journal of this name. `Err` only where memory was refused.
fn may_begin<H: Helpers + Drop>(
    alloc: Global,
    line: &[u8],
    name: &[u8],
    desk: &Desk<H>,
) -> Result<bool, AllocError>
    ensures { IfOk result (MayBegin name.now line.now desk.now.history) }
{
    if desk.len() > 0 {
        return Ok(true);
    }
    is_first_of(alloc, line, name)
}

// Enters the whole lines of a text. Answers how many bytes they have.
fn restore_lines<H: Helpers + Drop>(
    alloc: Global,
    text: &[u8],
    desk: &mut Desk<H>,
) -> Result<usize, Parting>
    ensures { EntersText desk.old desk.new text.now result }
{
    let mut source = Source::new(text);
    let restored = restore_behind(alloc, &mut source, desk);
    // (it says that what was read is the front of the text)
    let _left = source.into_inner();
    answer_of(restored)
}

// What is answered where entries were restored so. (A text that is there is read without a fault.)
fn answer_of(restored: Result<u64, RestoreError>) -> Result<usize, Parting>
    ensures { result ≡ answer_of restored }
{
    match restored {
        Ok(bytes) => Ok(bytes as usize),
        Err(error) => match error {
            RestoreError::Faulty { entry, clause } => Err(Parting::Faulty { entry, clause }),
            RestoreError::Full => Err(Parting::Failed(Failure::Room)),
            RestoreError::Read | RestoreError::Memory => Err(Parting::Failed(Failure::Memory)),
        },
    }
}

/// Enters the whole lines of what was read, each once it was judged behind those before it, of the journal of this
/// name.
///
/// `Faulty` at the first line that is none of that journal, also where more of a line was read than any has; then the
/// lines before it were entered. `OtherJournal` where the desk has no entry and the first line is not that of the first
/// entry of that journal. `Failed` with `Room` where the desk has no place for an entry, or `Memory`.
pub(crate) fn enter_lines<H: Helpers + Drop>(
    alloc: Global,
    name: &[u8],
    pending: &mut Pending,
    desk: &mut Desk<H>,
) -> Result<(), Parting>
    ensures { EntersLines name.now desk.old desk.new pending.old pending.new result }
{
    // (it says that the journal is legal)
    let _core = desk.core();
    let Some(end) = line_end(pending.as_slice()) else {
        if pending.as_slice().len() >= MOST_KEPT {
            return Err(Parting::Faulty {
                entry: desk.len(),
                clause: Clause::Unreadable,
            });
        }
        return Ok(());
    };
    match may_begin(alloc, &pending.as_slice()[..end], name, desk) {
        Ok(true) => {}
        Ok(false) => return Err(Parting::OtherJournal),
        Err(_) => return Err(Parting::Failed(Failure::Memory)),
    }
    match restore_lines(alloc, pending.as_slice(), desk) {
        Ok(bytes) => {
            pending.take(bytes);
            Ok(())
        }
        Err(why) => Err(why),
    }
}
