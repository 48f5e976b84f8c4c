//! The tables of an airport, as a file has them: what programs are answered by them, and which files are
//! refused.
use crate::commands::{TAXI_TIME, completes};
use acdm_commands::{Setup, run_on};
use acdm_sessions::{Sink, Source};
use acdm_tables::{Tables, TablesError, read_tables};
use std::alloc::Global;
use std::process::Abort;

// Two types, and two steps of stands.
const OWN: &str =
    "[turn_round]\nother = 75\n[turn_round.types]\nA320 = 40\nB77W = 90\n[[taxi]]\nfrom = 0\nminutes = 5\n[[taxi]]\nfrom = 40\nminutes = 9\n";

// The text of a file; which helper is asked, of what; and its answer. A320 is 0x30323341, B77W 0x57373742,
// A388 0x38383341, and X 0x58.
static ANSWERS: [(&str, u8, u64, u64); 22] = [
    (OWN, 1, 0x3032_3341, 40),
    (OWN, 1, 0x5737_3742, 90),
    (OWN, 1, 0x3838_3341, 75),
    (OWN, 1, 0, 75),
    (OWN, 2, 0, 5),
    (OWN, 2, 12, 5),
    (OWN, 2, 39, 5),
    (OWN, 2, 40, 9),
    (OWN, 2, 900, 9),
    (OWN, 2, 999, 9),
    ("", 1, 0x3032_3341, 45),
    ("", 1, 0x3838_3341, 120),
    ("", 1, 0x5737_3742, 60),
    ("", 2, 99, 10),
    ("", 2, 100, 15),
    ("", 2, 500, 20),
    ("[turn_round]\n", 1, 0x3032_3341, 60),
    ("[turn_round]\n", 2, 120, 15),
    ("taxi = [{from = 0, minutes = 60}]", 2, 900, 60),
    ("taxi = [{from = 0, minutes = 60}]", 1, 0x3838_3341, 120),
    ("turn_round.types = {X = 1, A320 = 1440}", 1, 0x58, 1),
    (
        "turn_round.types = {X = 1, A320 = 1440}",
        1,
        0x3032_3341,
        1_440,
    ),
];

fn answers(rt: &impl Abort, alloc: Global, row: &(&str, u8, u64, u64)) {
    let (text, helper, asked, wanted) = *row;
    let tables = tables_of(rt, alloc, text);
    let found = if helper == 1 {
        tables.turn_round_minutes(asked)
    } else {
        tables.taxi_minutes(asked)
    };
    assert!(rt; found == wanted, "helper {helper} of {asked}");
}

fn tables_of(rt: &impl Abort, alloc: Global, text: &str) -> Tables {
    read_tables(alloc, text.as_bytes())
        .ok()
        .expect(rt, "tables")
}

#[test]
fn helpers_answer_by_the_file(rt: HostRuntime) {
    for row in &ANSWERS {
        answers(&rt, rt.alloc(), row);
    }
}

// The text of a file that is refused, the key, and what is told of it.
static WRONG: [(&str, &str, &str); 22] = [
    ("turnround = 1", "turnround", "no such key"),
    ("turn_round = 60", "turn_round", "not a table"),
    (
        "[turn_round]\nothers = 60",
        "turn_round.others",
        "no such key",
    ),
    (
        "turn_round.other = 0",
        "turn_round.other",
        "not minutes from 1 to 1440",
    ),
    (
        "turn_round.other = 1441",
        "turn_round.other",
        "not minutes from 1 to 1440",
    ),
    (
        "turn_round.other = -5",
        "turn_round.other",
        "not minutes from 1 to 1440",
    ),
    (
        "turn_round.other = 60.0",
        "turn_round.other",
        "not minutes from 1 to 1440",
    ),
    ("turn_round.types = 60", "turn_round.types", "not a table"),
    (
        "turn_round.types.A320 = 1441",
        "turn_round.types.A320",
        "not minutes from 1 to 1440",
    ),
    (
        "turn_round.types.A320N = 45",
        "turn_round.types.A320N",
        "not a type of 1 to 4 printable characters",
    ),
    (
        "turn_round.types.\"\" = 45",
        "turn_round.types.",
        "not a type of 1 to 4 printable characters",
    ),
    (
        "turn_round.types.\"A 20\" = 45",
        "turn_round.types.A 20",
        "not a type of 1 to 4 printable characters",
    ),
    ("taxi = 10", "taxi", "not a list of tables"),
    ("taxi = [10]", "taxi[1]", "not a table"),
    (
        "taxi = []",
        "taxi",
        "the steps do not begin at stand 0 or do not rise",
    ),
    (
        "taxi = [{from = 1, minutes = 9}]",
        "taxi",
        "the steps do not begin at stand 0 or do not rise",
    ),
    (
        "taxi = [{from = 0, minutes = 9}, {from = 0, minutes = 8}]",
        "taxi",
        "the steps do not begin at stand 0 or do not rise",
    ),
    (
        "taxi = [{from = 0, minutes = 9}, {from = 1000, minutes = 8}]",
        "taxi[2].from",
        "not a stand from 0 to 999",
    ),
    (
        "taxi = [{from = 0, minutes = 61}]",
        "taxi[1].minutes",
        "not minutes from 1 to 60",
    ),
    (
        "taxi = [{from = 0}]",
        "taxi[1].minutes",
        "not minutes from 1 to 60",
    ),
    (
        "taxi = [{minutes = 5}]",
        "taxi[1].from",
        "not a stand from 0 to 999",
    ),
    (
        "taxi = [{from = 0, to = 9, minutes = 5}]",
        "taxi[1].to",
        "no such key",
    ),
];

fn is_wrong(rt: &impl Abort, alloc: Global, text: &str, wanted: &str, told: &str) {
    match read_tables(alloc, text.as_bytes()) {
        Err(TablesError::Wrong { key, why }) => {
            assert!(rt;
                key.as_slice() == wanted.as_bytes() && why.text() == told,
                "{wanted}"
            );
        }
        _ => assert!(rt; false, "{wanted}"),
    }
}

#[test]
fn what_is_wrong_is_told_by_its_key(rt: HostRuntime) {
    for (text, key, told) in &WRONG {
        is_wrong(&rt, rt.alloc(), *text, *key, *told);
    }
}

// The text of a file that is no TOML, and the line that is told.
static NO_TOML: [(&[u8], usize); 3] = [
    (b"[turn_round]\nother = 60\nother 70\n", 3),
    (b"[turn_round", 1),
    (b"[turn_round]\nother = \xff\n", 2),
];

fn is_no_toml(rt: &impl Abort, alloc: Global, text: &[u8], wanted: usize) {
    match read_tables(alloc, text) {
        Err(TablesError::NoToml(line)) => assert!(rt; line == wanted, "{line} for {wanted}"),
        _ => assert!(rt; false, "{wanted}"),
    }
}

#[test]
fn what_is_no_toml_is_told_by_its_line(rt: HostRuntime) {
    for (text, line) in &NO_TOML {
        is_no_toml(&rt, rt.alloc(), *text, *line);
    }
}

// Flight 7 stands at 12: 5 minutes, which are the bits 0 and 2.
#[test]
fn programs_ask_helpers_by_the_file(rt: HostRuntime) {
    let alloc = rt.alloc();
    let mut replies = Sink::new(Vec::new(alloc));
    let mut errors = Sink::new(Vec::new(alloc));
    let mut saved: Option<Sink<Vec<u8>>> = None;
    let setup = Setup {
        tables: tables_of(&rt, alloc, OWN),
        capacity: 10,
    };
    let status = run_on(
        alloc,
        setup,
        &mut Source::new(TAXI_TIME.as_bytes()),
        &mut replies,
        &mut saved,
        &mut errors,
    );
    assert!(rt; status == 0 && errors.into_inner().is_empty());
    let wanted = "ok 0\nok 1\nok 2\nok 3\nalerts 4 7:LOC00,LOC02\nbad 308 0\n";
    assert!(rt; replies.into_inner().as_slice() == wanted.as_bytes());
}

#[test]
fn a_file_that_is_not_there_is_told(rt: HostRuntime) {
    let words = ["acdm", "run", "--tables", "no-such-folder/no-such-file"];
    let told =
        "acdm: read failed\nacdm: no-such-folder/no-such-file: No such file or directory (os error 2)\n";
    completes(&rt, rt.alloc(), &words, "", (2, "", told));
}
