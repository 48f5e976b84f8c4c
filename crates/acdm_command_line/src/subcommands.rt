//! The subcommands of the program, each with the options that it takes.
ghost use Rattle.std.specs.Prelude.{◌≡◌, false, true, IfOk};
ghost use Rattle.clap.specs.Words.{App, Rule, app_of, new_app, rule_of, with_rule, with_subcommand};
ghost use Rattle.clap.specs.declared.builder.Command.TheViews.{out-Command as fields_of};
ghost use Rattle.acdm_command_line.specs.CommandLine.{program, file_app, keeping_app, program_app, bare_app};
ghost use Rattle.acdm_command_line.specs.CommandLine.{follow_app, following_app, run_app, running_app, serve_app};
ghost use Rattle.acdm_command_line.specs.CommandLine.{board_app, serving_app, journal_app};

use crate::options::{
    again, changes, control, file, first, journal, keep, kept, length, log, pace, partners, peer,
    save, second, strict, sync, tables, tick, watch, web, web_name,
};
use clap::{Arg, Command};
use std::alloc::{AllocError, Global};

// A subcommand that takes no option yet.
fn bare<'a>(alloc: Global, name: &'a str, about: &'a str) -> Result<Command<'a>, AllocError>
    ensures shape { IfOk result (λ c. app_of c ≡ new_app name.now) }
    ensures local { IfOk result (λ c. (fields_of c).has_globals ≡ false) }
{
    Ok(Command::new(alloc, name).about(about))
}

// A subcommand with one option more, where it could be made so far.
fn with<'a>(
    command: Result<Command<'a>, AllocError>,
    option: Arg<'a>,
) -> Result<Command<'a>, AllocError>
    requires local { option.global ≡ false }
    requires locals { IfOk command (λ c. (fields_of c).has_globals ≡ false) }
    ensures shape { (app : App) (rule : Rule) → IfOk command.entry (λ c. app_of c ≡ app)
        → rule_of option.entry ≡ rule → IfOk result (λ c. app_of c ≡ with_rule app rule) }
    ensures local { IfOk result (λ c. (fields_of c).has_globals ≡ false) }
{
    match command {
        Ok(command) => command.arg(option),
        Err(error) => Err(error),
    }
}

// A subcommand that has a journal, which is kept by this option.
fn with_journal<'a>(
    alloc: Global,
    name: &'a str,
    about: &'a str,
    keep: Arg<'a>,
) -> Result<Command<'a>, AllocError>
    requires local { keep.global ≡ false }
    ensures shape { IfOk result (λ c. app_of c ≡ journal_app name.now (rule_of keep.entry)) }
    ensures local { IfOk result (λ c. (fields_of c).has_globals ≡ false) }
{
    let command = bare(alloc, name, about);
    let command = with(with(command, journal(alloc)), save(alloc));
    with(with(command, keep), sync(alloc))
}

// One that takes tables too.
fn keeping<'a>(
    alloc: Global,
    name: &'a str,
    about: &'a str,
    keep: Arg<'a>,
) -> Result<Command<'a>, AllocError>
    requires local { keep.global ≡ false }
    ensures shape { IfOk result (λ c. app_of c ≡ keeping_app name.now (rule_of keep.entry)) }
    ensures local { IfOk result (λ c. (fields_of c).has_globals ≡ false) }
{
    with(with_journal(alloc, name, about, keep), tables(alloc))
}

fn run_command<'a>(alloc: Global) -> Result<Command<'a>, AllocError>
    ensures shape { IfOk result (λ c. app_of c ≡ run_app) }
    ensures local { IfOk result (λ c. (fields_of c).has_globals ≡ false) }
{
    let about = "Answers the lines of standard input on standard output";
    keeping(alloc, "run", about, keep(alloc))
}

// A subcommand that serves a board, without its partners.
#[tactic(auto, unfolding(crate::specs::CommandLine::board_app))]
fn with_board<'a>(
    alloc: Global,
    name: &'a str,
    about: &'a str,
    keep: Arg<'a>,
) -> Result<Command<'a>, AllocError>
    requires local { keep.global ≡ false }
    ensures shape { IfOk result (λ c. app_of c ≡ board_app name.now (rule_of keep.entry)) }
    ensures local { IfOk result (λ c. (fields_of c).has_globals ≡ false) }
{
    let command = keeping(alloc, name, about, keep);
    let command = with(with(command, watch(alloc)), changes(alloc));
    let command = with(with(command, web(alloc)), web_name(alloc));
    let command = with(with(command, again(alloc)), control(alloc));
    let command = with(with(command, pace(alloc)), tick(alloc));
    let command = with(command, log(alloc));
    let command = with(with(command, second(alloc)), strict(alloc));
    with(command, peer(alloc))
}

fn serve_command<'a>(alloc: Global) -> Result<Command<'a>, AllocError>
    ensures shape { IfOk result (λ c. app_of c ≡ serve_app) }
    ensures local { IfOk result (λ c. (fields_of c).has_globals ≡ false) }
{
    let about =
        "Accepts a partner at each address, and serves all at once; --config FILE puts in its place the words of a file in TOML";
    with(
        with_board(alloc, "serve", about, keep(alloc)),
        partners(alloc),
    )
}

fn follow_command<'a>(alloc: Global) -> Result<Command<'a>, AllocError>
    ensures shape { IfOk result (λ c. app_of c ≡ follow_app) }
    ensures local { IfOk result (λ c. (fields_of c).has_globals ≡ false) }
{
    let about =
        "Keeps the journal of another board as it grows, and serves as that board did once it is promoted";
    let command = with_board(alloc, "follow", about, kept(alloc));
    with(with(command, first(alloc)), partners(alloc))
}

// A subcommand on a file.
fn on_file<'a>(
    alloc: Global,
    name: &'a str,
    about: &'a str,
    help: &'a str,
) -> Result<Command<'a>, AllocError>
    ensures shape { IfOk result (λ c. app_of c ≡ file_app name.now) }
    ensures local { IfOk result (λ c. (fields_of c).has_globals ≡ false) }
{
    let command = bare(alloc, name, about);
    with(with(command, tables(alloc)), file(alloc, help))
}

// A subcommand on a program, with `--length`.
fn on_program<'a>(alloc: Global, name: &'a str, about: &'a str) -> Result<Command<'a>, AllocError>
    ensures shape { IfOk result (λ c. app_of c ≡ program_app name.now) }
    ensures local { IfOk result (λ c. (fields_of c).has_globals ≡ false) }
{
    let command = bare(alloc, name, about);
    let command = with(with(command, length(alloc)), tables(alloc));
    with(command, file(alloc, "The raw bytes of a BPF program"))
}

// The program before it has subcommands, of which one is wanted.
fn bare_program<'a>(alloc: Global) -> Command<'a>
    ensures shape { app_of result ≡ bare_app }
    ensures local { (fields_of result).has_globals ≡ false }
{
    Command::new(alloc, "acdm")
        .about("The shared board of an A-CDM airport")
        .subcommand_required(true)
}

// The program with the subcommand `run` alone.
fn run_program<'a>(alloc: Global) -> Result<Command<'a>, AllocError>
    ensures shape { IfOk result (λ c. app_of c ≡ running_app) }
    ensures local { IfOk result (λ c. (fields_of c).has_globals ≡ false) }
{
    let run = run_command(alloc)?;
    bare_program(alloc).subcommand(run)
}

// The program with the first two subcommands that keep a journal.
fn serving_program<'a>(alloc: Global) -> Result<Command<'a>, AllocError>
    ensures shape { IfOk result (λ c. app_of c ≡ serving_app) }
    ensures local { IfOk result (λ c. (fields_of c).has_globals ≡ false) }
{
    let serve = serve_command(alloc)?;
    run_program(alloc)?.subcommand(serve)
}

// The program with the three.
fn following_program<'a>(alloc: Global) -> Result<Command<'a>, AllocError>
    ensures shape { IfOk result (λ c. app_of c ≡ following_app) }
    ensures local { IfOk result (λ c. (fields_of c).has_globals ≡ false) }
{
    let follow = follow_command(alloc)?;
    serving_program(alloc)?.subcommand(follow)
}

// The program with one more subcommand, on a file.
fn with_file<'a>(
    alloc: Global,
    program: Command<'a>,
    name: &'a str,
    about: &'a str,
    help: &'a str,
) -> Result<Command<'a>, AllocError>
    requires { (fields_of program).has_globals ≡ false }
    ensures shape { IfOk result (λ c. app_of c
        ≡ with_subcommand (app_of program.entry) (file_app name.now).top) }
    ensures local { IfOk result (λ c. (fields_of c).has_globals ≡ false) }
{
    let command = on_file(alloc, name, about, help)?;
    program.subcommand(command)
}

// The program with one more subcommand, on a program.
fn with_program<'a>(
    alloc: Global,
    program: Command<'a>,
    name: &'a str,
    about: &'a str,
) -> Result<Command<'a>, AllocError>
    requires { (fields_of program).has_globals ≡ false }
    ensures shape { IfOk result (λ c. app_of c
        ≡ with_subcommand (app_of program.entry) (program_app name.now).top) }
    ensures local { IfOk result (λ c. (fields_of c).has_globals ≡ false) }
{
    let command = on_program(alloc, name, about)?;
    program.subcommand(command)
}

pub(crate) fn program<'a>(alloc: Global) -> Result<Command<'a>, AllocError>
    ensures shape { IfOk result (λ c. app_of c ≡ program) }
    ensures local { IfOk result (λ c. (fields_of c).has_globals ≡ false) }
{
    let verifies = "Lists a BPF program that may run, or tells its first fault";
    let audits = "Judges a saved journal by itself, or tells its first fault";
    let explains = "Lists a BPF program with what is known before each slot, and why it is refused";
    let tells = "Tells what each entry of a saved journal says and changes, as lines of JSON";
    let saved = "A journal that was saved as text";
    let judging = with_program(alloc, following_program(alloc)?, "verify", verifies)?;
    let judging = with_file(alloc, judging, "audit", audits, saved)?;
    let judging = with_program(alloc, judging, "explain", explains)?;
    with_file(alloc, judging, "tell", tells, saved)
}
