//! The command line.
ghost use Rattle.std.specs.Prelude.{◌≡◌, false, true, IfOk, IfErr, OnOk, map, option_map};
ghost use Rattle.std.specs.Option.{SomeIff};
ghost use Rattle.clap.specs.Values.{kind_of};
ghost use Rattle.clap.specs.Words.{app_of, subcommand_rows_of};
ghost use Rattle.clap.specs.declared.builder.Command.TheViews.{out-Command as fields_of};
ghost use Rattle.acdm_command_line.specs.CommandLine.{program, AnswersJudged, length_named, first_in, AnswersFollow};
ghost use Rattle.acdm_command_line.specs.CommandLine.{serving_name, is_set_in};
ghost use Rattle.acdm_command_line.specs.CommandLine.{tables_in, AnswersPeer};
ghost use Rattle.acdm_command_line.specs.CommandLine.{AnswersSeconding, GoesTogether};
ghost use Rattle.acdm_command_line.specs.CommandLine.{AnswersCount, IsCount, partners_in, value_in, values_in};
ghost use Rattle.acdm_command_line.specs.CommandLine.{number_of, IsJournal, AsksFor, Refuses, Answers};
ghost use Rattle.acdm_command_line.specs.CommandLine.{AnswersJournal, AnswersRun, AnswersServe, AnswersServing};

use crate::subcommands::program;
use bpf_regstate::Length;
use clap::error::ErrorKind;
use clap::{ArgMatches, Command, Error};
use std::alloc::{AllocError, Global};
use std::io::Write;

const MOST_ENTRIES: usize = 1_000_000;

/// How many lines of a partner are taken in a minute at most.
const MOST_PACE: u32 = 4_294_967_295;

/// How many seconds lie between ticks at most: a day.
const MOST_TICK: u32 = 86_400;

/// How many boards have to keep an entry at most before a reply tells of it.
const MOST_SECOND: u32 = 8;

/// What a command line asks for.
#[derive(Debug, Drop, PartialEq, Eq)]
pub enum Subcommand<'a> {
    /// `run`, with room for so many entries in the journal, from 1 to 1,000,000, which is to be
    /// saved in this file, and kept in that one, from which it goes on; where `sync` is true, what is
    /// kept is synced to the disk.
    Run {
        journal: usize,
        save: Option<&'a str>,
        keep: Option<&'a str>,
        sync: bool,
    },
    /// `serve`, with room for so many entries in the journal, from 1 to 1,000,000, which is to be
    /// saved in this file, and kept as that of `run`, may be watched at this address, whose changes are told at that one, and for
    /// which browsers have a page at a third, by this name beside its addresses, for the partners of these words, as they stand: who may
    /// come again where `again` is true, of whom so many lines are taken in a minute; it is closed at the
    /// control address, ticks by itself each so many seconds, from 1 to 86,400, and logs in a file what the operator
    /// is told. Replies wait until so many boards that follow it keep their entries too, from 1 to 8; where `strict` is
    /// true, none goes out without them. It does not go on from what is kept where the peer at an address has a later term. Where the address of a first board is named it is `follow`: that board is followed before.
    Serve {
        first: Option<&'a str>,
        journal: usize,
        save: Option<&'a str>,
        keep: Option<&'a str>,
        sync: bool,
        watch: Option<&'a str>,
        changes: Option<&'a str>,
        web: Option<&'a str>,
        web_name: Option<&'a str>,
        again: bool,
        control: Option<&'a str>,
        pace: Option<u32>,
        tick: Option<u32>,
        log: Option<&'a str>,
        second: Option<u32>,
        strict: bool,
        peer: Option<&'a str>,
        partners: Vec<&'a str>,
    },
    /// `audit`, of the journal in this file.
    Audit {
        file: &'a str,
    },
    /// `tell`, of the journal in this file.
    Tell {
        file: &'a str,
    },
    /// `verify`, of the program in this file beside records of this length.
    Verify {
        length: Length,
        file: &'a str,
    },
    /// `explain`, of the program in this file beside records of this length.
    Explain {
        length: Length,
        file: &'a str,
    },
}

/// What the words of a command line ask for: a subcommand, and the file of the airport's tables, if it is
/// named.
#[derive(Debug, Drop, PartialEq, Eq)]
pub struct Line<'a> {
    pub subcommand: Subcommand<'a>,
    pub tables: Option<&'a str>,
}

// The number of entries that a text names, from 1 to 1,000,000.
fn entries_in(text: &str) -> Option<usize>
    ensures { SomeIff result (IsJournal text.now) (number_of text.now) }
{
    match text.parse::<usize>() {
        Ok(entries) if 1 <= entries && entries <= MOST_ENTRIES => Some(entries),
        _ => None,
    }
}

// The value of an argument of the subcommand of this name.
fn value<'a>(matches: &ArgMatches<'a>, name: &str, id: &str) -> Option<&'a str>
    ensures { option_map (λ s. s.now) result
        ≡ value_in name.now id.now (subcommand_rows_of matches.now) }
{
    let (found, inner) = matches.subcommand()?;
    if found != name {
        return None;
    }
    inner.get_str(id)
}

// The file of tables that the subcommand names, whichever it is.
fn tables_of<'a>(matches: &ArgMatches<'a>) -> Option<&'a str>
    ensures { option_map (λ s. s.now) result ≡ tables_in (subcommand_rows_of matches.now) }
{
    let (_, inner) = matches.subcommand()?;
    inner.get_str("tables")
}

// All values of an argument of the subcommand of this name.
fn values<'m, 'a>(matches: &'m ArgMatches<'a>, name: &str, id: &str) -> Option<&'m [&'a str]>
    ensures { option_map (λ ws. map (λ w. w.now) ws.now) result
        ≡ values_in name.now id.now (subcommand_rows_of matches.now) }
{
    let (found, inner) = matches.subcommand()?;
    if found != name {
        return None;
    }
    inner.get_strs(id)
}

// The words by which the subcommand of this name names partners, in their order.
fn partners_of<'a>(
    alloc: Global,
    matches: &ArgMatches<'a>,
    name: &str,
) -> Result<Vec<&'a str>, AllocError>
    ensures { IfOk result (λ partners.
        map (λ w. w.now) partners.items ≡ partners_in name.now (subcommand_rows_of matches.now)) }
{
    let mut partners = Vec::new(alloc);
    if let Some(words) = values(matches, name, "partners") {
        partners.extend_from_slice(words)?;
    }
    Ok(partners)
}

// The number of entries that the subcommand of this name is to have room for, if it is that one.
fn journal_for(matches: &ArgMatches, name: &str) -> Option<usize>
    ensures { AnswersJournal name.now (subcommand_rows_of matches.now) result }
{
    let text = value(matches, name, "journal")?;
    entries_in(text)
}

// The length of a record that a text names.
fn length_named(text: &str) -> Option<Length>
    ensures { result ≡ length_named text.now }
{
    if text == "128" {
        Some(Length::L128)
    } else if text == "160" {
        Some(Length::L160)
    } else {
        None
    }
}

// The length and the file of the subcommand of this name, if it is that one and its length is one.
fn judged_by<'a>(matches: &ArgMatches<'a>, name: &str) -> Option<(Length, &'a str)>
    ensures { AnswersJudged name.now (subcommand_rows_of matches.now)
        (option_map (λ p. (p.0, p.1.now)) result) }
{
    let text = value(matches, name, "length")?;
    let length = length_named(text)?;
    let file = value(matches, name, "file")?;
    Some((length, file))
}

// Whether an argument that takes no value was given to the subcommand of this name.
fn is_set(matches: &ArgMatches, name: &str, id: &str) -> bool
    ensures { result ≡ is_set_in name.now id.now (subcommand_rows_of matches.now) }
{
    match value(matches, name, id) {
        Some(text) => text == "true",
        None => false,
    }
}

// What `run` asks for, if it was entered with such a journal.
fn run_of<'a>(matches: &ArgMatches<'a>) -> Option<Subcommand<'a>>
    ensures { AnswersRun (subcommand_rows_of matches.now) result }
{
    let journal = journal_for(matches, "run")?;
    let save = value(matches, "run", "save");
    let keep = value(matches, "run", "keep");
    let sync = is_set(matches, "run", "sync");
    Some(Subcommand::Run {
        journal,
        save,
        keep,
        sync,
    })
}

// The number from 1 to another that a text names, if it names one.
fn count_in(text: &str, most: u32) -> Option<u32>
    ensures { SomeIff result (IsCount most text.now) (number_of text.now) }
{
    match text.parse::<u32>() {
        Ok(count) if 1 <= count && count <= most => Some(count),
        _ => None,
    }
}

// The number from 1 to another that the subcommand of this name is given by an option, if it is one or none.
fn count_for(matches: &ArgMatches, name: &str, id: &str, most: u32) -> Option<Option<u32>>
    ensures { AnswersCount name.now id.now most (subcommand_rows_of matches.now) result }
{
    match value(matches, name, id) {
        Some(text) => match count_in(text, most) {
            Some(count) => Some(Some(count)),
            None => None,
        },
        None => Some(None),
    }
}

// Whether options go together: one that is strict needs boards to wait for, and these a file that is kept and an address
// at which they follow.
fn goes_together(is_kept: bool, is_watched: bool, is_seconded: bool, is_strict: bool) -> bool
    ensures goes { result ≡ true → GoesTogether is_kept is_watched is_seconded is_strict }
    ensures only { GoesTogether is_kept is_watched is_seconded is_strict → result ≡ true }
{
    (is_kept && is_watched || !is_seconded) && (is_seconded || !is_strict)
}

// For how many boards replies wait by the subcommand of this name, if they do, and whether none is sent without them; if
// that goes together with the rest.
fn seconding_for(matches: &ArgMatches, name: &str) -> Option<(Option<u32>, bool)>
    ensures { AnswersSeconding name.now (subcommand_rows_of matches.now) result }
{
    let second = count_for(matches, name, "second", MOST_SECOND)?;
    let strict = is_set(matches, name, "strict");
    let is_kept = value(matches, name, "keep").is_some();
    let is_watched = value(matches, name, "watch").is_some();
    if !goes_together(is_kept, is_watched, second.is_some(), strict) {
        return None;
    }
    Some((second, strict))
}

// The address of the peer that the subcommand of this name is given, if it is; where there is one, a file is kept too.
fn peer_for<'a>(matches: &ArgMatches<'a>, name: &str) -> Option<Option<&'a str>>
    ensures { AnswersPeer name.now (subcommand_rows_of matches.now) (option_map (λ p. option_map (λ s. s.now) p) result) }
{
    let peer = value(matches, name, "peer");
    if peer.is_some() && value(matches, name, "keep").is_none() {
        return None;
    }
    Some(peer)
}

// What the subcommand of this name asks for, one of the two that serve, if it was entered with such a journal; and
// with the address of a first board, if it is `follow`.
fn serving_of<'a>(
    alloc: Global,
    matches: &ArgMatches<'a>,
    name: &str,
    first: Option<&'a str>,
) -> Result<Option<Subcommand<'a>>, AllocError>
    requires name { name.now ≡ serving_name first }
    requires first { option_map (λ s. s.now) first ≡ first_in (subcommand_rows_of matches.now) }
    ensures { IfOk result (AnswersServing name.now (subcommand_rows_of matches.now)) }
{
    let Some(journal) = journal_for(matches, name) else {
        return Ok(None);
    };
    let save = value(matches, name, "save");
    let keep = value(matches, name, "keep");
    let sync = is_set(matches, name, "sync");
    let watch = value(matches, name, "watch");
    let changes = value(matches, name, "changes");
    let web = value(matches, name, "web");
    let web_name = value(matches, name, "web-name");
    let again = is_set(matches, name, "again");
    let control = value(matches, name, "control");
    let Some(pace) = count_for(matches, name, "pace", MOST_PACE) else {
        return Ok(None);
    };
    let Some(tick) = count_for(matches, name, "tick", MOST_TICK) else {
        return Ok(None);
    };
    let log = value(matches, name, "log");
    let Some((second, strict)) = seconding_for(matches, name) else {
        return Ok(None);
    };
    let Some(peer) = peer_for(matches, name) else {
        return Ok(None);
    };
    let partners = partners_of(alloc, matches, name)?;
    Ok(Some(Subcommand::Serve {
        first,
        journal,
        save,
        keep,
        sync,
        watch,
        changes,
        web,
        web_name,
        again,
        control,
        pace,
        tick,
        log,
        second,
        strict,
        peer,
        partners,
    }))
}

// What `follow` asks for, if it was entered with such a journal.
fn follow_of<'a>(
    alloc: Global,
    matches: &ArgMatches<'a>,
) -> Result<Option<Subcommand<'a>>, AllocError>
    ensures asks { IfOk result (AnswersFollow (subcommand_rows_of matches.now)) }
{
    let Some(first) = value(matches, "follow", "first") else {
        return Ok(None);
    };
    serving_of(alloc, matches, "follow", Some(first))
}

// What `serve` asks for, if it was entered with such a journal.
fn serve_of<'a>(
    alloc: Global,
    matches: &ArgMatches<'a>,
) -> Result<Option<Subcommand<'a>>, AllocError>
    ensures { IfOk result (AnswersServe (subcommand_rows_of matches.now)) }
{
    if value(matches, "follow", "first").is_some() {
        return Ok(None);
    }
    serving_of(alloc, matches, "serve", None)
}

// What is asked for by the subcommand that was entered.
fn subcommand_in<'a>(
    alloc: Global,
    matches: &ArgMatches<'a>,
) -> Result<Option<Subcommand<'a>>, AllocError>
    ensures { IfOk result (Answers (subcommand_rows_of matches.now)) }
{
    if let Some((length, file)) = judged_by(matches, "verify") {
        return Ok(Some(Subcommand::Verify { length, file }));
    }
    if let Some(file) = value(matches, "audit", "file") {
        return Ok(Some(Subcommand::Audit { file }));
    }
    if let Some((length, file)) = judged_by(matches, "explain") {
        return Ok(Some(Subcommand::Explain { length, file }));
    }
    if let Some(file) = value(matches, "tell", "file") {
        return Ok(Some(Subcommand::Tell { file }));
    }
    if let Some(run) = run_of(matches) {
        return Ok(Some(run));
    }
    if let Some(follow) = follow_of(alloc, matches)? {
        return Ok(Some(follow));
    }
    serve_of(alloc, matches)
}

// Why nothing is asked for by values that `clap` has taken.
fn reason(matches: &ArgMatches) -> &'static str {
    let name = match matches.subcommand() {
        Some((name, _)) => name,
        None => "",
    };
    if name == "verify" || name == "explain" {
        return "invalid value for '--length <N>': it is neither 128 nor 160";
    }
    if count_for(matches, name, "pace", MOST_PACE).is_none() {
        return "invalid value for '--pace <N>': it is not a number from 1 to 4294967295";
    }
    if count_for(matches, name, "tick", MOST_TICK).is_none() {
        return "invalid value for '--tick <SECONDS>': it is not a number from 1 to 86400";
    }
    let Some(second) = count_for(matches, name, "second", MOST_SECOND) else {
        return "invalid value for '--second <N>': it is not a number from 1 to 8";
    };
    if second.is_some() && value(matches, name, "keep").is_none() {
        return "'--second <N>' needs '--keep <FILE>'";
    }
    if second.is_some() && value(matches, name, "watch").is_none() {
        return "'--second <N>' needs '--watch <ADDR>'";
    }
    if second.is_none() && is_set(matches, name, "strict") {
        return "'--strict' needs '--second <N>'";
    }
    if peer_for(matches, name).is_none() {
        return "'--peer <ADDR>' needs '--keep <FILE>'";
    }
    "invalid value for '--journal <N>': it is not a number from 1 to 1000000"
}

// What these words ask for, by the definition of the program.
fn parse_by<'a>(
    alloc: Global,
    command: &mut Command<'a>,
    words: &'a [&'a str],
) -> Result<Line<'a>, Error>
    requires shape { app_of command.old ≡ program }
    requires local { (fields_of command.old).has_globals ≡ false }
    ensures asks { IfOk result (AsksFor (map (λ w. w.now) words.entry.now)) }
    ensures refuses { IfErr result (λ error.
        Refuses (map (λ w. w.now) words.entry.now) (kind_of error)) }
{
    let matches = command.try_get_matches_from_mut(words)?;
    let tables = tables_of(&matches);
    if let Some(subcommand) = subcommand_in(alloc, &matches)? {
        return Ok(Line { subcommand, tables });
    }
    Err(command.error(ErrorKind::ValueValidation, reason(&matches))?)
}

/// What these words ask for; the first is the program's name.
///
/// The journal is what `--journal` says, else 100,000, the length what `--length` says, else 128,
/// and the other words are taken as they stand. Words that name no such command are refused by
/// `clap`; a journal outside 1 to 1,000,000 is refused, a length that is neither 128 nor 160, a pace that
/// is no number from 1 to 4,294,967,295, a tick that is none from 1 to 86,400 seconds, and boards to wait for that are
/// none from 1 to 8; these without a file that is kept or an address of displays of the journal, `--strict` without
/// these, and a peer without a file that is kept. A request for help counts as a
/// refusal.
pub fn parse<'a>(alloc: Global, words: &'a [&'a str]) -> Result<Line<'a>, Error>
    ensures asks { IfOk result (AsksFor (map (λ w. w.now) words.entry.now)) }
    ensures refuses { IfErr result (λ error.
        Refuses (map (λ w. w.now) words.entry.now) (kind_of error)) }
{
    let mut command = program(alloc)?;
    parse_by(alloc, &mut command, words)
}

/// What these words ask for; the first is the program's name. Where they ask for nothing, the answer
/// is why, and `clap`'s text on them is written for whoever gave them; whether it could be written
/// is not told.
pub fn asked<'a, E: Write>(
    alloc: Global,
    words: &'a [&'a str],
    errors: &mut E,
) -> Result<Line<'a>, ErrorKind>
    ensures asks { IfOk result (AsksFor (map (λ w. w.now) words.entry.now)) }
    ensures refuses { IfErr result (Refuses (map (λ w. w.now) words.entry.now)) }
    ensures quiet { OnOk result (errors.new ≡ errors.old) }
{
    match parse(alloc, words) {
        Ok(line) => Ok(line),
        Err(error) => {
            let _ = write!(errors, "{error}");
            Err(error.kind())
        }
    }
}
