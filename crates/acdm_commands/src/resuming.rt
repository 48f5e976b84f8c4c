//! Going on from a journal that is kept in a file.
ghost use Rattle.std.specs.Prelude.{◌≡◌, [], IfErr, IfOk, length};
ghost use Rattle.acdm_board.specs.Desk.{row_of};
ghost use Rattle.acdm_commands.specs.Resumed.{KeptIsResumed};
ghost use Rattle.acdm_commands.specs.Causes.{keep_failure};
ghost use Rattle.acdm_commands.specs.Keeping.{FailsToResume, IsNewKeeper, Resumes, ResumesAs};
ghost use Rattle.std.specs.IoError.{error_kind};
ghost use Rattle.acdm_failures.specs.declared.failure.Failure.TheVariants.{Room};

use crate::beside::note_tables;
use crate::cause::Noting;
use crate::context::Context;
use crate::law::what_was_kept_is_resumed;
use crate::request::KeepIn;
use crate::saving::{is_one, taken};
use crate::standard_streams::is_standard;
use acdm_board::Desk;
use acdm_failures::Failure;
use acdm_judging::Finding;
use acdm_keeping::{Keeper, Named, Paths, Synced, open, renew};
use acdm_restoring::{RestoreError, restore};
use acdm_sessions::Source;
use bpf_helpers::Helpers;
use std::alloc::Global;
use std::fs::{File, Files};
use std::io::{self, ErrorKind, Write};

/// The file of a journal that is kept, as a writer, and by its name.
#[derive(Drop)]
pub(crate) struct KeptFile<Rt: Drop> {
    pub(crate) writer: Synced<Rt>,
    pub(crate) named: Named,
}

/// What came of going on from the journal in a file.
#[derive(Drop)]
pub(crate) enum Resumption<Rt: Drop> {
    /// The desk has its entries, and what it makes is to be kept in this file.
    Ready(KeptFile<Rt>),
    /// It is not legal, and this is to be told of it. The file stays as it was.
    Illegal(Finding),
}

impl KeepIn<'_> {
    /// Notes why the file could not be used, and answers what the command fails by: `InUse` where another board
    /// keeps a journal in it, `Memory` where that was refused, else `Keep`.
    fn failure<Rt>(&self, context: &Context<'_, Rt>, error: &io::Error) -> Failure
        ensures { result ≡ keep_failure (error_kind error.now) }
    {
        let failure = match error.kind() {
            ErrorKind::WouldBlock => Failure::InUse,
            _ => Failure::Keep,
        };
        context
            .why
            .failure(context.alloc, failure, "--keep ", self.path, error)
    }

    // Notes that the journal of the file has more entries than there is room for, and answers that failure.
    fn without_room<Rt>(&self, context: &Context<'_, Rt>) -> Failure
        ensures { result ≡ Room }
    {
        let error = io::Error::new(
            ErrorKind::InvalidInput,
            "it has more entries than --journal says",
        );
        context
            .why
            .note(context.alloc, "--keep ", self.path, &error);
        Failure::Room
    }

    /// Notes why the file that has this name could not be written any more, where it could not.
    pub(crate) fn note_failure<Rt>(&self, context: &Context<'_, Rt>, named: &Named) {
        if let Some(error) = named.failure() {
            context
                .why
                .note(context.alloc, "--keep ", self.path, &error);
        }
    }
}

// Opens the file in which a journal is kept. `Keep` where it can't be opened, or where it is that of a
// standard stream or of the tables; `InUse` where somebody else keeps a journal there. Why is noted.
fn open_kept<Rt: Files<File = File>>(
    context: &Context<'_, Rt>,
    keep: KeepIn<'_>,
) -> Result<File, Failure>
    ensures fails { IfErr result FailsToResume }
{
    if is_standard(context.rt, keep.path) || is_one(context.rt, keep.path, keep.tables.path) {
        return Err(keep.failure(context, &taken()));
    }
    match open(context.rt, keep.path) {
        Ok(file) => Ok(file),
        Err(error) => Err(keep.failure(context, &error)),
    }
}

// Puts the journal of a file into a desk, and a new file in the place of that, which has what was read but a rest
// without a line feed, and all of it on the disk. Beside it the text of the tables is put, by which it is made.
// Answers the file, and what is to be told of a journal that is not legal, whose file stays.
fn restored<Rt: Files<File = File>, H: Helpers + Drop>(
    context: &Context<'_, Rt>,
    keep: KeepIn<'_>,
    file: File,
    desk: &mut Desk<H>,
) -> Result<(File, Option<Finding>), Failure>
    requires empty { desk.old.history ≡ [] }
    ensures resumes { IfOk result (λ came. ResumesAs desk.old desk.new came.1) }
    ensures fails { IfErr result FailsToResume }
{
    let reader = match file.try_clone() {
        Ok(reader) => Noting::new(context.alloc, reader, "--keep ", keep.path, &context.why),
        Err(error) => return Err(keep.failure(context, &error)),
    };
    match restore(context.alloc, &mut Source::new(reader), desk) {
        Ok(bytes) => match renewed(context, keep, file, bytes) {
            Ok(file) => Ok((file, None)),
            Err(failure) => Err(failure),
        },
        Err(RestoreError::Faulty { entry, clause }) => {
            Ok((file, Some(Finding::Faulty { entry, clause })))
        }
        Err(RestoreError::Full) => Err(keep.without_room(context)),
        Err(RestoreError::Read) => Err(Failure::Read),
        Err(RestoreError::Memory) => Err(Failure::Memory),
    }
}

// Puts the first bytes of a file, so many, into a new one in its place, where it has any, and the text of the
// tables beside it. What the system holds of a file may be more than what is on the disk, where a write of it
// failed before.
fn renewed<Rt: Files<File = File>>(
    context: &Context<'_, Rt>,
    keep: KeepIn<'_>,
    file: File,
    bytes: u64,
) -> Result<File, Failure>
    ensures fails { IfErr result FailsToResume }
{
    if let Err(error) = note_tables(context.rt, context.alloc, keep.path, keep.tables.text) {
        return Err(keep.failure(context, &error));
    }
    match new_or_old(context.rt, context.alloc, keep.path, file, bytes) {
        Ok(file) => Ok(file),
        Err(error) => Err(keep.failure(context, &error)),
    }
}

// The same of the file alone.
fn new_or_old<Rt: Files<File = File>>(
    rt: &Rt,
    alloc: Global,
    path: &str,
    file: File,
    bytes: u64,
) -> io::Result<File> {
    if file.metadata()?.len() == 0 {
        return Ok(file);
    }
    renew(rt, alloc, path, &file, bytes)
}

// The file in which a journal is kept, as a writer, and by its name. `Keep` where it can't be asked
// what it is, `Memory` where that was refused.
fn synced_in<Rt: Paths + Clone + Drop>(
    context: &Context<'_, Rt>,
    keep: KeepIn<'_>,
    file: File,
) -> Result<KeptFile<Rt>, Failure>
    ensures fails { IfErr result FailsToResume }
{
    let named = match Named::new(context.alloc, keep.path, &file) {
        Ok(named) => named,
        Err(error) => return Err(keep.failure(context, &error)),
    };
    let Ok(same) = named.copy(context.alloc) else {
        return Err(Failure::Memory);
    };
    let writer = Synced::new(context.rt.clone()?, file, same, keep.is_synced);
    Ok(KeptFile { writer, named })
}

/// Goes on from the journal in a file: a desk that has no entry gets those of the file, and a new file takes its place,
/// which has them, without a rest that has no line feed, on the disk.
///
/// `Keep` where the file can't be opened, read or replaced, or where it is that of a standard stream or of the
/// tables; `InUse` where somebody else keeps a journal there; `Room` where it has more entries than the desk has room
/// for; `Read` where reading it failed; `Memory` where that was refused. Why is noted.
pub(crate) fn resume<Rt: Files<File = File> + Paths + Clone + Drop, H: Helpers + Drop>(
    context: &Context<'_, Rt>,
    keep: KeepIn<'_>,
    desk: &mut Desk<H>,
) -> Result<Resumption<Rt>, Failure>
    requires empty { desk.old.history ≡ [] }
    ensures resumes { IfOk result (Resumes desk.old desk.new) }
    ensures fails { IfErr result FailsToResume }

    // What a crash has left of it is resumed with all that was kept.
    ensures crash { KeptIsResumed }
{
    what_was_kept_is_resumed();
    let file = match open_kept(context, keep) {
        Ok(file) => file,
        Err(failure) => return Err(failure),
    };
    let (file, found) = match restored(context, keep, file, desk) {
        Ok(came) => came,
        Err(failure) => return Err(failure),
    };
    if let Some(finding) = found {
        return Ok(Resumption::Illegal(finding));
    }
    match synced_in(context, keep, file) {
        Ok(kept) => Ok(Resumption::Ready(kept)),
        Err(failure) => Err(failure),
    }
}

/// A keeper of what a desk has, all of which is kept already. `Keep` where that is not in sight, `Memory`
/// where it was refused.
pub(crate) fn keeper_of<H: Helpers + Drop, F: Write + Drop>(
    alloc: Global,
    desk: &Desk<H>,
    writer: F,
) -> Result<Keeper<F>, Failure>
    ensures new { IfOk result (λ k. IsNewKeeper desk.now k) }
    ensures fails { IfErr result FailsToResume }
{
    let Ok(mut keeper) = Keeper::new(alloc, desk.row(), writer) else {
        return Err(Failure::Memory);
    };
    match keeper.pass_over(desk.len()) {
        Ok(()) => Ok(keeper),
        Err(Failure::Memory) => Err(Failure::Memory),
        Err(_) => Err(Failure::Keep),
    }
}
