//! The commands, over the files, the reader and the writers that they are handed.
ghost use Rattle.std.specs.Prelude.{◌≡◌, ◌-◌, ◌^◌, ◌<◌, map};
ghost use Rattle.acdm_commands.specs.Asked.{Completes};
ghost use Rattle.acdm_commands.specs.Completed.{AuditsLine, Does, ExplainsLine, TellsLine, VerifiesLine};
ghost use Rattle.acdm_failures.specs.Failures.{EndsBy};
ghost use Rattle.acdm_tables.specs.Helpers.{helpers_by};

use crate::beside::are_made_by;
use crate::cause::Noting;
use crate::context::Context;
use crate::outlets::OutletAddresses;
use crate::request::{JournalFiles, ServeRequest, Setup};
use crate::run_command::run_command;
use crate::serve_command::serve_command;
use crate::serve_options::ServeOptions;
use crate::tables::{TablesFile, TablesRead, tables_of};
use acdm_command_line::{Line, Subcommand, asked};
use acdm_failures::{Failure, ended};
use acdm_judging::{ProgramFile, audit_on, explain_on, unread, verify_on};
use acdm_keeping::Paths;
use acdm_partners::Appends;
use acdm_serving::Host;
use acdm_sessions::{Sink, Source};
use acdm_tables::Tables;
use acdm_telling::tell_on;
use bpf_regstate::Length;
use std::fs::{self, File, Files};
use std::io::{Eprint, Read, Write};
use std::net::{Net, TcpListener, TcpStream};
use std::sync::Wait;
use std::thread::Threads;
use std::time::Clock;

/// Does what the words ask for; the first is the program's name.
///
/// The status is that of the command, and 2 where the words ask for none or their file can't be
/// opened. What `--save` names is written beside it, in a file that is made before anything is
/// answered, and that takes its place once all of it is on the disk: what was there stays until
/// then, and where the command fails, but for one that could only not tell how its partners ended.
/// What is wrong is told on the errors' writer; where that fails, the status alone says it. Which file or address
/// it was, and what the system says of it, is noted.
pub fn complete<
    Rt: Files<File = File>
        + Paths
        + Appends
        + Net<Listener = TcpListener, Stream = TcpStream>
        + Clock
        + Eprint
        + Threads
        + Wait
        + Clone
        + Drop
        + Send
        + Sync
        + 'static,
    R: Read,
    W: Write,
    E: Write,
>(
    context: &Context<'_, Rt>,
    words: &[&str],
    input: &mut Source<R>,
    output: &mut Sink<W>,
    errors: &mut Sink<E>,
) -> u8
    requires reads { input.old.faults < 2 ^ 64 - 1 }
    requires writes { output.old.faults < 2 ^ 64 - 1 }
    ensures { Completes (map (λ w. w.now) words.entry.now) input.old input.new output.old output.new
        result errors.old errors.new }
{
    let (rt, alloc) = (context.rt, context.alloc);
    let Line {
        subcommand,
        tables: path,
    } = match asked(alloc, words, errors) {
        Ok(line) => line,
        Err(_) => return 2,
    };
    let mut text = Vec::new(alloc);
    let Some(tables) = tables_of(rt, alloc, path, &mut text, errors) else {
        return 2;
    };
    if !are_made_by(rt, alloc, &subcommand, &tables, errors) {
        return 2;
    }
    let text = text.as_slice();
    let read = TablesRead {
        tables,
        file: TablesFile { path, text },
    };
    complete_by(context, read, subcommand, input, output, errors)
}

// Does what is asked for, by these tables.
fn complete_by<'a, Rt: Host + Files<File = File>, R: Read, W: Write, E: Write>(
    context: &'a Context<'_, Rt>,
    read: TablesRead<'a>,
    subcommand: Subcommand<'a>,
    input: &mut Source<R>,
    output: &mut Sink<W>,
    errors: &mut Sink<E>,
) -> u8
    requires reads { input.old.faults < 2 ^ 64 - 1 }
    requires writes { output.old.faults < 2 ^ 64 - 1 }
    ensures { Does (helpers_by read.entry.tables) subcommand.entry input.old input.new output.old output.new result
        errors.old errors.new }
{
    let TablesRead {
        tables,
        file: named,
    } = read;
    match subcommand {
        Subcommand::Run {
            journal: capacity,
            save,
            keep,
            sync,
        } => {
            let files = JournalFiles::new(named, save, keep, sync);
            let setup = Setup { tables, capacity };
            run_command(context, setup, files, input, output, errors)
        }
        Subcommand::Serve {
            first,
            journal: capacity,
            save,
            keep,
            sync,
            watch,
            changes,
            web,
            web_name,
            again,
            control,
            pace,
            tick,
            log,
            second,
            strict,
            peer,
            partners,
        } => {
            let request = ServeRequest {
                first,
                files: JournalFiles::new(named, save, keep, sync),
                outlets: OutletAddresses {
                    journal: watch,
                    changes,
                    web,
                    web_name,
                },
                options: ServeOptions {
                    again,
                    control,
                    pace,
                    tick,
                    log,
                    second,
                    is_strict: strict,
                    peer,
                },
                words: partners,
            };
            let setup = Setup { tables, capacity };
            serve_command(context, setup, &request, output, errors)
        }
        Subcommand::Audit { file } => audit_file(context, &tables, file, output, errors),
        Subcommand::Verify { length, file } => {
            verify_file(context, &tables, length, file, output, errors)
        }
        Subcommand::Explain { length, file } => {
            explain_file(context, &tables, length, file, output, errors)
        }
        Subcommand::Tell { file } => tell_file(context, &tables, file, output, errors),
    }
}

// The file of a path, to be read. `None` where it can't be opened. Why is noted, also where a read fails later.
fn reader_of<'a, Rt: Files>(
    context: &'a Context<'_, Rt>,
    path: &'a str,
) -> Option<Noting<'a, Rt::File>> {
    match fs::open(context.rt, path) {
        Ok(file) => Some(Noting::new(context.alloc, file, "", path, &context.why)),
        Err(error) => {
            context.why.note(context.alloc, "", path, &error);
            None
        }
    }
}

// `audit`, of the journal in a file.
fn audit_file<Rt: Files, W: Write, E: Write>(
    context: &Context<'_, Rt>,
    tables: &Tables,
    file: &str,
    output: &mut Sink<W>,
    errors: &mut Sink<E>,
) -> u8
    ensures { EndsBy (AuditsLine (helpers_by tables.now) output.old output.new) result errors.old errors.new }
{
    match reader_of(context, file) {
        Some(file) => audit_on(
            context.alloc,
            tables,
            &mut Source::new(file),
            output,
            errors,
        ),
        None => ended(Err(Failure::Read), errors),
    }
}

// `tell`, of the journal in a file.
fn tell_file<Rt: Files, W: Write, E: Write>(
    context: &Context<'_, Rt>,
    tables: &Tables,
    file: &str,
    output: &mut Sink<W>,
    errors: &mut Sink<E>,
) -> u8
    ensures { EndsBy (TellsLine (helpers_by tables.now) output.old output.new) result errors.old errors.new }
{
    match reader_of(context, file) {
        Some(file) => tell_on(
            context.alloc,
            tables,
            &mut Source::new(file),
            output,
            errors,
        ),
        None => ended(Err(Failure::Read), errors),
    }
}

// `verify`, of the program in a file, beside records of this length.
fn verify_file<Rt: Files, W: Write, E: Write>(
    context: &Context<'_, Rt>,
    tables: &Tables,
    length: Length,
    file: &str,
    output: &mut Sink<W>,
    errors: &mut Sink<E>,
) -> u8
    ensures { EndsBy (VerifiesLine (helpers_by tables.now) length output.old output.new) result errors.old errors.new }
{
    match reader_of(context, file) {
        Some(file) => verify_on(
            context.alloc,
            tables,
            length,
            &mut Source::new(file),
            output,
            errors,
        ),
        None => ended(Err(Failure::Read), errors),
    }
}

// `explain`, of the program in a file, beside records of this length.
fn explain_file<Rt: Files, W: Write, E: Write>(
    context: &Context<'_, Rt>,
    tables: &Tables,
    length: Length,
    path: &str,
    output: &mut Sink<W>,
    errors: &mut Sink<E>,
) -> u8
    ensures { ExplainsLine (helpers_by tables.now) length path.now output.old output.new result errors.old errors.new }
{
    let alloc = context.alloc;
    match fs::open(context.rt, path) {
        Ok(opened) => explain_on(
            alloc,
            tables,
            ProgramFile { path, length },
            &mut Source::new(opened),
            output,
            errors,
        ),
        Err(error) => unread(alloc, path, &error, errors),
    }
}
