//! The options and the words of the command line, each by itself.
ghost use Rattle.std.specs.Prelude.{◌≡◌, false, true};
ghost use Rattle.clap.specs.Words.{rule_of};
ghost use Rattle.acdm_command_line.specs.CommandLine.{file_rule, length_rule, first_rule, kept_rule, partners_rule};
ghost use Rattle.acdm_command_line.specs.CommandLine.{changes_rule, journal_rule, keep_rule, save_rule, sync_rule};
ghost use Rattle.acdm_command_line.specs.CommandLine.{watch_rule, web_name_rule, web_rule, tables_rule, again_rule};
ghost use Rattle.acdm_command_line.specs.CommandLine.{control_rule, log_rule, pace_rule, second_rule, strict_rule};
ghost use Rattle.acdm_command_line.specs.CommandLine.{peer_rule, tick_rule};

use clap::{Arg, ArgAction};
use std::alloc::Global;

/// `--journal N`.
pub(crate) fn journal<'a>(alloc: Global) -> Arg<'a>
    ensures rule { rule_of result ≡ journal_rule }
    ensures optional { (result.required ≡ false) × (result.global ≡ false) }
{
    Arg::new(alloc, "journal")
        .long("journal")
        .value_name("N")
        .default_value("100000")
        .help("How many entries the journal takes, 1 to 1000000")
}

/// `--save FILE`.
pub(crate) fn save<'a>(alloc: Global) -> Arg<'a>
    ensures rule { rule_of result ≡ save_rule }
    ensures optional { (result.required ≡ false) × (result.global ≡ false) }
{
    Arg::new(alloc, "save")
        .long("save")
        .value_name("FILE")
        .help("Where the journal is written as text at the end")
}

/// `--keep FILE`.
pub(crate) fn keep<'a>(alloc: Global) -> Arg<'a>
    ensures rule { rule_of result ≡ keep_rule }
    ensures optional { (result.required ≡ false) × (result.global ≡ false) }
{
    Arg::new(alloc, "keep").long("keep").value_name("FILE").help(
        "Where the journal is kept as it grows, and is gone on from",
    )
}

// The same where it has to be given.
pub(crate) fn kept<'a>(alloc: Global) -> Arg<'a>
    ensures rule { rule_of result ≡ kept_rule }
    ensures local { result.global ≡ false }
{
    Arg::new(alloc, "keep")
        .long("keep")
        .value_name("FILE")
        .required(true)
        .help("Where the followed journal is kept as it grows, and is gone on from")
}

/// `--sync`.
pub(crate) fn sync<'a>(alloc: Global) -> Arg<'a>
    ensures rule { rule_of result ≡ sync_rule }
    ensures optional { (result.required ≡ false) × (result.global ≡ false) }
{
    Arg::new(alloc, "sync")
        .long("sync")
        .action(ArgAction::SetTrue)
        .help("With --keep: a reply is sent once its entry stands on the disk")
}

/// `--tables FILE`.
pub(crate) fn tables<'a>(alloc: Global) -> Arg<'a>
    ensures rule { rule_of result ≡ tables_rule }
    ensures optional { (result.required ≡ false) × (result.global ≡ false) }
{
    Arg::new(alloc, "tables")
        .long("tables")
        .value_name("FILE")
        .help("The turn-round and taxi times of the airport, as TOML")
}

/// `--watch ADDR`.
pub(crate) fn watch<'a>(alloc: Global) -> Arg<'a>
    ensures rule { rule_of result ≡ watch_rule }
    ensures optional { (result.required ≡ false) × (result.global ≡ false) }
{
    Arg::new(alloc, "watch")
        .long("watch")
        .value_name("ADDR")
        .help("The IP address and port where displays are sent the journal as text")
}

/// `--changes ADDR`.
pub(crate) fn changes<'a>(alloc: Global) -> Arg<'a>
    ensures rule { rule_of result ≡ changes_rule }
    ensures optional { (result.required ≡ false) × (result.global ≡ false) }
{
    Arg::new(alloc, "changes")
        .long("changes")
        .value_name("ADDR")
        .help("The IP address and port where displays are told what each entry changed, as JSON")
}

/// `--web ADDR`.
pub(crate) fn web<'a>(alloc: Global) -> Arg<'a>
    ensures rule { rule_of result ≡ web_rule }
    ensures optional { (result.required ≡ false) × (result.global ≡ false) }
{
    Arg::new(alloc, "web").long("web").value_name("ADDR").help(
        "The IP address and port where browsers have the board as a page",
    )
}

/// `--web-name NAME`.
pub(crate) fn web_name<'a>(alloc: Global) -> Arg<'a>
    ensures rule { rule_of result ≡ web_name_rule }
    ensures optional { (result.required ≡ false) × (result.global ≡ false) }
{
    Arg::new(alloc, "web-name")
        .long("web-name")
        .value_name("NAME")
        .help("With --web: the name by which browsers ask for the page, beside its addresses")
}

/// `--again`.
pub(crate) fn again<'a>(alloc: Global) -> Arg<'a>
    ensures rule { rule_of result ≡ again_rule }
    ensures optional { (result.required ≡ false) × (result.global ≡ false) }
{
    Arg::new(alloc, "again")
        .long("again")
        .action(ArgAction::SetTrue)
        .help("Partners come and go: each session goes on with the next who connects")
}

/// `--control ADDR`.
pub(crate) fn control<'a>(alloc: Global) -> Arg<'a>
    ensures rule { rule_of result ≡ control_rule }
    ensures optional { (result.required ≡ false) × (result.global ≡ false) }
{
    Arg::new(alloc, "control")
        .long("control")
        .value_name("ADDR")
        .help(
            "The IP address and port, or the local port, where the lines close and status are answered",
        )
}

/// `--pace N`.
pub(crate) fn pace<'a>(alloc: Global) -> Arg<'a>
    ensures rule { rule_of result ≡ pace_rule }
    ensures optional { (result.required ≡ false) × (result.global ≡ false) }
{
    Arg::new(alloc, "pace").long("pace").value_name("N").help(
        "How many lines of each partner are taken in a minute, 1 to 4294967295",
    )
}

/// `--tick SECONDS`.
pub(crate) fn tick<'a>(alloc: Global) -> Arg<'a>
    ensures rule { rule_of result ≡ tick_rule }
    ensures optional { (result.required ≡ false) × (result.global ≡ false) }
{
    Arg::new(alloc, "tick")
        .long("tick")
        .value_name("SECONDS")
        .help("The board ticks by itself, in role APT, each so many seconds, 1 to 86400")
}

/// `--log FILE`.
pub(crate) fn log<'a>(alloc: Global) -> Arg<'a>
    ensures rule { rule_of result ≡ log_rule }
    ensures optional { (result.required ≡ false) × (result.global ≡ false) }
{
    Arg::new(alloc, "log").long("log").value_name("FILE").help(
        "Where the operator's log is written, a line of JSON for each event",
    )
}

/// `--second N`.
pub(crate) fn second<'a>(alloc: Global) -> Arg<'a>
    ensures rule { rule_of result ≡ second_rule }
    ensures optional { (result.required ≡ false) × (result.global ≡ false) }
{
    Arg::new(alloc, "second")
        .long("second")
        .value_name("N")
        .help(
            "With --keep and --watch: a reply is sent once so many boards that follow keep its entry too, 1 to 8",
        )
}

/// `--strict`.
pub(crate) fn strict<'a>(alloc: Global) -> Arg<'a>
    ensures rule { rule_of result ≡ strict_rule }
    ensures optional { (result.required ≡ false) × (result.global ≡ false) }
{
    Arg::new(alloc, "strict")
        .long("strict")
        .action(ArgAction::SetTrue)
        .help("With --second: no reply is sent while too few boards follow")
}

/// `--peer ADDR`.
pub(crate) fn peer<'a>(alloc: Global) -> Arg<'a>
    ensures rule { rule_of result ≡ peer_rule }
    ensures optional { (result.required ≡ false) × (result.global ≡ false) }
{
    Arg::new(alloc, "peer").long("peer").value_name("ADDR").help(
        "With --keep: the IP address and port where another board has its --watch, which may have taken over",
    )
}

/// `ROLE=ADDR`, once or more.
pub(crate) fn partners<'a>(alloc: Global) -> Arg<'a>
    ensures rule { rule_of result ≡ partners_rule }
    ensures local { result.global ≡ false }
{
    Arg::new(alloc, "partners")
        .value_name("ROLE=ADDR")
        .action(ArgAction::Append)
        .required(true)
        .help("A role, NM, ATC, APT, AO, GH or DIC, and the IP address and port where it connects")
}

/// `ADDR`, of a first board.
pub(crate) fn first<'a>(alloc: Global) -> Arg<'a>
    ensures rule { rule_of result ≡ first_rule }
    ensures local { result.global ≡ false }
{
    Arg::new(alloc, "first")
        .value_name("ADDR")
        .required(true)
        .help("The IP address and port where the board that is followed has its --watch")
}

/// `FILE`.
pub(crate) fn file<'a>(alloc: Global, help: &'a str) -> Arg<'a>
    ensures rule { rule_of result ≡ file_rule }
    ensures local { result.global ≡ false }
{
    Arg::new(alloc, "file")
        .value_name("FILE")
        .required(true)
        .help(help)
}

/// `--length N`.
pub(crate) fn length<'a>(alloc: Global) -> Arg<'a>
    ensures rule { rule_of result ≡ length_rule }
    ensures optional { (result.required ≡ false) × (result.global ≡ false) }
{
    Arg::new(alloc, "length")
        .long("length")
        .value_name("N")
        .default_value("128")
        .help("How many bytes a record has, 128, or 160 once the board was migrated")
}
