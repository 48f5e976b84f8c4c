//! The command `run`, from its words on.
ghost use Rattle.std.specs.Prelude.{◌-◌, ◌^◌, ◌<◌, IfOk, IfErr, Ok, OnOk, is_some, option_map};
ghost use Rattle.acdm_commands.specs.Completed.{ComesOfRun, RunsLine};
ghost use Rattle.acdm_commands.specs.Keeping.{AnswersBehind, KeepsTo, ServesKept, StopsAnswering, StopsKept};
ghost use Rattle.acdm_commands.specs.Served.{RunsTo, ServesFromEmpty, Stops};
ghost use Rattle.acdm_failures.specs.Failures.{EndsBy};
ghost use Rattle.acdm_tables.specs.Helpers.{helpers_by};

use crate::context::Context;
use crate::request::{JournalFiles, KeepIn, Setup};
use crate::resuming::{Resumption, keeper_of, resume};
use crate::saving::{buffer_for, save, saving_in, settle};
use acdm_board::Desk;
use acdm_failures::{Failure, ended};
use acdm_keeping::{Keeper, Paths, Replies};
use acdm_sessions::{RunError, Sink, Source, run, run_announced};
use acdm_tables::KnownHelpers;
use bpf_helpers::Helpers;
use std::alloc::Global;
use std::fs::{File, Files};
use std::io::{Read, Write};

/// How many bytes of replies are held until the entries before them are kept, at most.
const BUFFER: usize = 65_536;

/// Answers the lines of a reader on a writer, by a board that is made so. Local
/// programs may call the known helpers by its tables. Where the input was read to its end, the journal is written
/// as text to the writer that it is to be saved by, if there is one.
///
/// The status is 0 where the input was read to its end and the journal was saved, else 2, with a
/// line on the errors' writer.
pub fn run_on<R: Read, W: Write, F: Write + Drop, E: Write>(
    alloc: Global,
    setup: Setup,
    reader: &mut Source<R>,
    writer: &mut Sink<W>,
    saved: &mut Option<Sink<F>>,
    errors: &mut Sink<E>,
) -> u8
    requires reads { reader.old.faults < 2 ^ 64 - 1 }
    requires writes { writer.old.faults < 2 ^ 64 - 1 }
    ensures { EndsBy (RunsTo (helpers_by setup.tables) setup.capacity reader.old reader.new writer.old writer.new
        saved.old saved.new) result errors.old errors.new }
{
    ended(run_with(alloc, setup, reader, writer, saved), errors)
}

// The same, and what keeps it from its work is answered.
fn run_with<R: Read, W: Write, F: Write + Drop>(
    alloc: Global,
    setup: Setup,
    reader: &mut Source<R>,
    writer: &mut Sink<W>,
    saved: &mut Option<Sink<F>>,
) -> Result<u8, Failure>
    requires reads { reader.old.faults < 2 ^ 64 - 1 }
    requires writes { writer.old.faults < 2 ^ 64 - 1 }
    ensures { RunsTo (helpers_by setup.tables) setup.capacity reader.old reader.new writer.old writer.new saved.old
        saved.new result }
{
    let Setup { tables, capacity } = setup;
    let helpers = KnownHelpers::new(alloc, tables);
    run_desk(alloc, helpers, capacity, reader, writer, saved)
}

// Answers by a desk that is empty at first, and saves its journal.
fn run_desk<H: Helpers + Drop, R: Read, W: Write, F: Write + Drop>(
    alloc: Global,
    helpers: H,
    capacity: usize,
    reader: &mut Source<R>,
    writer: &mut Sink<W>,
    saved: &mut Option<Sink<F>>,
) -> Result<u8, Failure>
    requires reads { reader.old.faults < 2 ^ 64 - 1 }
    requires writes { writer.old.faults < 2 ^ 64 - 1 }
    ensures { RunsTo (H.entries helpers) capacity reader.old reader.new writer.old writer.new
        saved.old saved.new result }
{
    let mut buffer = buffer_for(alloc, saved)?;
    let mut desk = run_from_empty(alloc, helpers, capacity, reader, writer)?;
    save(&mut buffer, &mut desk, saved)?;
    Ok(0)
}

// Answers by a desk that is empty at first, and has room for so many entries. Answers that desk.
fn run_from_empty<H: Helpers + Drop, R: Read, W: Write>(
    alloc: Global,
    helpers: H,
    capacity: usize,
    reader: &mut Source<R>,
    writer: &mut Sink<W>,
) -> Result<Desk<H>, Failure>
    requires reads { reader.old.faults < 2 ^ 64 - 1 }
    requires writes { writer.old.faults < 2 ^ 64 - 1 }
    ensures serves { IfOk result (λ desk. ServesFromEmpty (H.entries helpers) capacity desk
        reader.old reader.new writer.old writer.new (Ok tt)) }
    ensures stops { IfErr result (Stops (H.entries helpers) capacity
        reader.old reader.new writer.old writer.new) }
{
    let mut desk = Desk::new(alloc, helpers, capacity)?;
    run(alloc, reader, writer, &mut desk)?;
    Ok(desk)
}

/// The command `run`, with the files of its journal: what is kept is that of a board that goes on from the journal in
/// a file, and a reply is handed to the writer once its entry stands there. Where the input was read to its end, the
/// journal is saved too, if that was asked for.
///
/// The status is 0 where the input was read to its end and the journal was kept and saved; 1 where
/// what is kept is no legal journal, which is told as an audit tells it; else 2, with a line on
/// the errors' writer.
pub(crate) fn run_command<
    Rt: Files<File = File> + Paths + Clone + Drop,
    R: Read,
    W: Write,
    E: Write,
>(
    context: &Context<'_, Rt>,
    setup: Setup,
    files: JournalFiles<'_>,
    input: &mut Source<R>,
    output: &mut Sink<W>,
    errors: &mut Sink<E>,
) -> u8
    requires reads { input.old.faults < 2 ^ 64 - 1 }
    requires writes { output.old.faults < 2 ^ 64 - 1 }
    ensures { EndsBy (RunsLine (helpers_by setup.tables) setup.capacity (option_map (λ s. s.now) files.entry.save)
        (is_some files.entry.keep) input.old input.new output.old output.new) result errors.old errors.new }
{
    match saving_in(context, files) {
        Ok(mut saving) => {
            let saved = &mut saving.file;
            let work = run_saving(context, setup, files.keep, input, output, saved);
            ended(settle(context, files, saving, work), errors)
        }
        Err(failure) => ended(Err(failure), errors),
    }
}

// Answers with a journal that is kept, or not.
fn run_saving<Rt: Files<File = File> + Paths + Clone + Drop, R: Read, W: Write, F: Write + Drop>(
    context: &Context<'_, Rt>,
    setup: Setup,
    keep: Option<KeepIn<'_>>,
    input: &mut Source<R>,
    output: &mut Sink<W>,
    saved: &mut Option<Sink<F>>,
) -> Result<u8, Failure>
    requires reads { input.old.faults < 2 ^ 64 - 1 }
    requires writes { output.old.faults < 2 ^ 64 - 1 }
    ensures { ComesOfRun (helpers_by setup.tables) setup.capacity (is_some keep.entry) input.old input.new output.old
        output.new saved.old saved.new result }
{
    match keep {
        Some(keep) => run_kept(context, setup, keep, input, output, saved),
        None => run_with(context.alloc, setup, input, output, saved),
    }
}

// Goes on from a file, answers, and saves the journal.
fn run_kept<Rt: Files<File = File> + Paths + Clone + Drop, R: Read, W: Write, F: Write + Drop>(
    context: &Context<'_, Rt>,
    setup: Setup,
    keep: KeepIn<'_>,
    input: &mut Source<R>,
    output: &mut Sink<W>,
    saved: &mut Option<Sink<F>>,
) -> Result<u8, Failure>
    requires reads { input.old.faults < 2 ^ 64 - 1 }
    ensures { KeepsTo (helpers_by setup.tables) setup.capacity input.old input.new output.old output.new saved.old
        saved.new result }
{
    let alloc = context.alloc;
    let Setup { tables, capacity } = setup;
    let mut buffer = buffer_for(alloc, saved)?;
    let mut desk = Desk::new(alloc, KnownHelpers::new(alloc, tables), capacity)?;
    let kept = match resume(context, keep, &mut desk) {
        Ok(Resumption::Ready(kept)) => kept,
        Ok(Resumption::Illegal(finding)) => {
            return match finding.tell(output) {
                Ok(status) => Ok(status),
                Err(failure) => Err(failure),
            };
        }
        Err(failure) => return Err(failure),
    };
    match answer_kept(alloc, &mut desk, kept.writer, input, output) {
        Ok(()) => {}
        Err(failure) => {
            keep.note_failure(context, &kept.named);
            return Err(failure);
        }
    }
    match save(&mut buffer, &mut desk, saved) {
        Ok(()) => Ok(0),
        Err(failure) => Err(failure),
    }
}

// Answers the lines of a reader on a writer, behind the keeping of their entries in a file.
fn answer_kept<H: Helpers + Drop, R: Read, W: Write, F: Write + Drop>(
    alloc: Global,
    desk: &mut Desk<H>,
    file: F,
    input: &mut Source<R>,
    output: &mut Sink<W>,
) -> Result<(), Failure>
    requires reads { input.old.faults < 2 ^ 64 - 1 }
    ensures serves { OnOk result (ServesKept desk.old desk.new input.old input.new) }
    ensures stops { IfErr result (StopsKept desk.old desk.new input.old input.new output.old output.new) }
{
    let mut keeper = keeper_of(alloc, desk, file)?;
    let served = answer_behind(alloc, desk, &mut keeper, input, output);
    match keeper.keep() {
        Ok(_) => served,
        Err(failure) => Err(failure.of_keeping()),
    }
}

// Answers the lines of a reader on a writer, behind a keeper. Where they could not be handed on and the
// writer has not failed, it is the keeper that has.
fn answer_behind<H: Helpers + Drop, R: Read, W: Write, F: Write + Drop>(
    alloc: Global,
    desk: &mut Desk<H>,
    keeper: &mut Keeper<F>,
    input: &mut Source<R>,
    output: &mut Sink<W>,
) -> Result<(), Failure>
    requires reads { input.old.faults < 2 ^ 64 - 1 }
    ensures serves { OnOk result (ServesKept desk.old desk.new input.old input.new) }
    ensures stops { IfErr result (StopsAnswering desk.old desk.new input.old input.new output.old
        output.new) }
{
    let faults = output.faults();
    match run_behind(alloc, desk, keeper, input, output) {
        Ok(()) => Ok(()),
        Err(RunError::Read) => Err(Failure::Read),
        Err(RunError::Memory) => Err(Failure::Memory),
        Err(RunError::Write) => {
            if faults < output.faults() {
                return Err(Failure::Write);
            }
            Err(Failure::Keep)
        }
    }
}

// Answers the lines of a reader by way of a buffer and a keeper.
fn run_behind<H: Helpers + Drop, R: Read, W: Write, F: Write + Drop>(
    alloc: Global,
    desk: &mut Desk<H>,
    keeper: &mut Keeper<F>,
    input: &mut Source<R>,
    output: &mut Sink<W>,
) -> Result<(), RunError>
    requires reads { input.old.faults < 2 ^ 64 - 1 }
    ensures { AnswersBehind desk.old desk.new input.old input.new result }
{
    let Ok(replies) = Replies::new(alloc, keeper, output, BUFFER) else {
        return Err(RunError::Memory);
    };
    let mut writer = Sink::new(replies);
    run_announced(alloc, input, &mut writer, desk)
}
