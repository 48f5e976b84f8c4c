//! What command lines ask for.
use acdm_command_line::{Line, Subcommand, parse};
use bpf_regstate::Length;
use std::alloc::Global;

// Whether these words ask for this.
fn asks_for(alloc: Global, words: &[&str], wanted: &Subcommand<'_>) -> bool {
    match parse(alloc, words) {
        Ok(line) => line.subcommand == *wanted && line.tables.is_none(),
        Err(_) => false,
    }
}

fn is_refused(alloc: Global, words: &[&str]) -> bool {
    parse(alloc, words).is_err()
}

// Words of `run`, and how many entries its journal takes.
static JOURNALS: [(&[&str], usize); 6] = [
    (&["acdm", "run"], 100_000),
    (&["acdm", "run", "--journal", "1"], 1),
    (&["acdm", "run", "--journal", "2"], 2),
    (&["acdm", "run", "--journal", "70000"], 70_000),
    (&["acdm", "run", "--journal", "999999"], 999_999),
    (&["acdm", "run", "--journal=1000000"], 1_000_000),
];

#[test]
fn a_journal_is_read_or_the_usual_one(rt: HostRuntime) {
    for (words, journal) in &JOURNALS {
        let wanted = Subcommand::Run {
            journal: *journal,
            save: None,
            keep: None,
            sync: false,
        };
        assert!(rt; asks_for(rt.alloc(), *words, &wanted), "{journal}");
    }
}

static OTHER_WORDS: [&[&str]; 10] = [
    &["acdm"],
    &["acdm", "walk"],
    &["acdm", "--help"],
    &["acdm", "run", "now"],
    &["acdm", "run", "--journal"],
    &["acdm", "run", "--journal", "0"],
    &["acdm", "run", "--journal", "1000001"],
    &["acdm", "run", "--journal", "many"],
    &["acdm", "run", "--save"],
    &["acdm", "audit"],
];

#[test]
fn other_words_are_refused(rt: HostRuntime) {
    for words in &OTHER_WORDS {
        assert!(rt; is_refused(rt.alloc(), *words), "{words:?}");
    }
}

#[test]
fn a_file_to_judge_is_taken_as_it_stands(rt: HostRuntime) {
    let alloc = rt.alloc();
    let file = "rules/tobt.bin";
    let length = Length::L128;
    assert!(rt;
        asks_for(
            alloc,
            &["acdm", "verify", file],
            &Subcommand::Verify { length, file }
        )
    );
    assert!(rt; is_refused(alloc, &["acdm", "verify"]));
    let file = "days/monday.txt";
    assert!(rt; asks_for(alloc, &["acdm", "audit", file], &Subcommand::Audit { file }));
    assert!(rt; asks_for(alloc, &["acdm", "tell", file], &Subcommand::Tell { file }));
    assert!(rt; is_refused(alloc, &["acdm", "tell"]));
}

#[test]
fn a_file_to_explain_is_taken_as_it_stands(rt: HostRuntime) {
    let alloc = rt.alloc();
    let file = "rules/slot.bin";
    let length = Length::L128;
    assert!(rt;
        asks_for(
            alloc,
            &["acdm", "explain", file],
            &Subcommand::Explain { length, file }
        )
    );
    assert!(rt; is_refused(alloc, &["acdm", "explain"]));
}

#[test]
fn a_program_is_judged_beside_records_of_the_length_that_is_named(rt: HostRuntime) {
    let alloc = rt.alloc();
    let file = "rules/ice.bin";
    let length = Length::L160;
    let words = ["acdm", "verify", "--length", "160", file];
    assert!(rt; asks_for(alloc, &words, &Subcommand::Verify { length, file }));
    let words = ["acdm", "explain", file, "--length=160"];
    assert!(rt; asks_for(alloc, &words, &Subcommand::Explain { length, file }));
    let length = Length::L128;
    let words = ["acdm", "verify", "--length", "128", file];
    assert!(rt; asks_for(alloc, &words, &Subcommand::Verify { length, file }));
    assert!(rt; is_refused(alloc, &["acdm", "verify", "--length", "129", file]));
    assert!(rt; is_refused(alloc, &["acdm", "explain", "--length", "0160", file]));
    assert!(rt; is_refused(alloc, &["acdm", "verify", "--length", "160"]));
    assert!(rt; is_refused(alloc, &["acdm", "audit", "--length", "160", file]));
}

// Whether these words ask to serve, with such a file for the journal and such an address for
// displays.
fn asks_to_keep(
    alloc: Global,
    words: &[&str],
    wanted_save: Option<&str>,
    wanted_watch: Option<&str>,
) -> bool {
    match parse(alloc, words) {
        Ok(
            Line {
                subcommand: Subcommand::Serve { save, watch, .. },
                ..
            },
        ) => save == wanted_save && watch == wanted_watch,
        _ => false,
    }
}

#[test]
fn a_journal_is_saved_where_it_is_said(rt: HostRuntime) {
    let alloc = rt.alloc();
    let words = ["acdm", "run", "--save", "day.txt"];
    let save = Some("day.txt");
    let journal = 100_000;
    let keep = None;
    let sync = false;
    assert!(rt;
        asks_for(
            alloc,
            &words,
            &Subcommand::Run {
                journal,
                save,
                keep,
                sync
            }
        )
    );
    let words = ["acdm", "serve", "--save", "day.txt", "NM=127.0.0.1:0"];
    assert!(rt; asks_to_keep(alloc, &words, save, None));
}

#[test]
fn a_journal_is_kept_where_it_is_said(rt: HostRuntime) {
    let alloc = rt.alloc();
    let words = [
        "acdm",
        "run",
        "--keep",
        "day.txt",
        "--sync",
        "--journal",
        "7",
    ];
    let save = None;
    let keep = Some("day.txt");
    let sync = true;
    let journal = 7;
    assert!(rt;
        asks_for(
            alloc,
            &words,
            &Subcommand::Run {
                journal,
                save,
                keep,
                sync
            }
        )
    );
}

// Whether these words ask to follow a first board with this journal kept, for these partners.
fn asks_to_follow(
    alloc: Global,
    words: &[&str],
    wanted: &str,
    kept: &str,
    words_wanted: &[&str],
) -> bool {
    match parse(alloc, words) {
        Ok(
            Line {
                subcommand: Subcommand::Serve {
                    first: Some(first),
                    keep: Some(keep),
                    partners,
                    ..
                },
                ..
            },
        ) => first == wanted && keep == kept && partners.as_slice() == words_wanted,
        _ => false,
    }
}

// Words of `follow` without a file, an address or a partner, or with another journal than there is.
static NOT_FOLLOWED: [&[&str]; 5] = [
    &["acdm", "follow"],
    &["acdm", "follow", "10.0.0.1:4100", "APT=[::1]:1"],
    &["acdm", "follow", "10.0.0.1:4100", "--keep", "day"],
    &[
        "acdm",
        "follow",
        "10.0.0.1:4100",
        "--keep",
        "day",
        "--journal",
        "0",
        "APT=[::1]:1",
    ],
    &["acdm", "serve", "--first", "10.0.0.1:4100", "APT=[::1]:1"],
];

// `follow` needs the address of a board, a file and a partner; the other words are those of `serve`.
#[test]
fn a_board_is_followed(rt: HostRuntime) {
    let alloc = rt.alloc();
    let words = [
        "acdm",
        "follow",
        "10.0.0.1:4100",
        "--keep",
        "day",
        "APT=[::1]:1",
    ];
    assert!(rt; asks_to_follow(alloc, &words, "10.0.0.1:4100", "day", &["APT=[::1]:1"]));
    let words = [
        "acdm",
        "follow",
        "--keep=day",
        "--again",
        "10.0.0.1:4100",
        "APT=[::1]:1",
        "NM=[::1]:2",
    ];
    let partners = ["APT=[::1]:1", "NM=[::1]:2"];
    assert!(rt; asks_to_follow(alloc, &words, "10.0.0.1:4100", "day", &partners));
    for words in &NOT_FOLLOWED {
        assert!(rt; is_refused(alloc, *words));
    }
}

// Whether these words ask to serve these partners with such a journal.
fn asks_to_serve(alloc: Global, words: &[&str], wanted: usize, words_wanted: &[&str]) -> bool {
    match parse(alloc, words) {
        Ok(
            Line {
                subcommand: Subcommand::Serve {
                    first: None,
                    journal,
                    save,
                    keep: None,
                    sync: false,
                    watch,
                    changes,
                    web,
                    web_name,
                    again: false,
                    control: None,
                    pace: None,
                    tick: None,
                    log: None,
                    second: None,
                    strict: false,
                    peer: None,
                    partners,
                },
                ..
            },
        ) => {
            journal == wanted
                && save.is_none()
                && watch.is_none()
                && changes.is_none()
                && web.is_none()
                && web_name.is_none()
                && partners.as_slice() == words_wanted
        }
        _ => false,
    }
}

#[test]
fn words_of_serve_are_taken_as_they_stand(rt: HostRuntime) {
    let alloc = rt.alloc();
    let words = ["acdm", "serve", "--journal", "5", "NM=one", "ATC=two"];
    assert!(rt; asks_to_serve(alloc, &words, 5, &["NM=one", "ATC=two"]));
    assert!(rt; asks_to_serve(alloc, &["acdm", "serve", "GH="], 100_000, &["GH="]));
    assert!(rt; is_refused(alloc, &["acdm", "serve"]));
    assert!(rt; is_refused(alloc, &["acdm", "serve", "--journal", "0", "NM=one"]));
}

#[test]
fn a_board_is_watched_where_it_is_said(rt: HostRuntime) {
    let alloc = rt.alloc();
    let words = ["acdm", "serve", "--watch", "[::1]:4000", "NM=127.0.0.1:0"];
    assert!(rt; asks_to_keep(alloc, &words, None, Some("[::1]:4000")));
    assert!(rt; is_refused(alloc, &["acdm", "run", "--watch", "127.0.0.1:0"]));
    assert!(rt; is_refused(alloc, &["acdm", "serve", "--watch", "127.0.0.1:0"]));
}

// Whether these words ask to serve with a journal that is kept in this file.
fn asks_to_serve_from(alloc: Global, words: &[&str], file: &str, is_synced: bool) -> bool {
    match parse(alloc, words) {
        Ok(
            Line {
                subcommand: Subcommand::Serve { keep, sync, .. },
                ..
            },
        ) => keep == Some(file) && sync == is_synced,
        _ => false,
    }
}

#[test]
fn partners_make_a_journal_that_is_kept_where_it_is_said(rt: HostRuntime) {
    let alloc = rt.alloc();
    let words = ["acdm", "serve", "--keep", "day.txt", "NM=127.0.0.1:0"];
    assert!(rt; asks_to_serve_from(alloc, &words, "day.txt", false));
    let words = [
        "acdm",
        "serve",
        "--sync",
        "--keep",
        "day.txt",
        "NM=127.0.0.1:0",
    ];
    assert!(rt; asks_to_serve_from(alloc, &words, "day.txt", true));
    assert!(rt; is_refused(alloc, &["acdm", "serve", "--keep", "NM=127.0.0.1:0"]));
    assert!(rt; is_refused(alloc, &["acdm", "audit", "--sync", "day.txt"]));
}

// Whether these words ask for a page for browsers at an address, by a name beside it.
fn asks_for_page(alloc: Global, words: &[&str], address: &str, name: Option<&str>) -> bool {
    match parse(alloc, words) {
        Ok(
            Line {
                subcommand: Subcommand::Serve { web, web_name, .. },
                ..
            },
        ) => web == Some(address) && web_name == name,
        _ => false,
    }
}

#[test]
fn browsers_have_a_page_where_it_is_said(rt: HostRuntime) {
    let alloc = rt.alloc();
    let words = ["acdm", "serve", "--web", "127.0.0.1:8080", "NM=127.0.0.1:0"];
    assert!(rt; asks_for_page(alloc, &words, "127.0.0.1:8080", None));
    let named = [
        "acdm",
        "serve",
        "--web",
        "127.0.0.1:8080",
        "--web-name=board.example",
        "NM=127.0.0.1:0",
    ];
    assert!(rt; asks_for_page(alloc, &named, "127.0.0.1:8080", Some("board.example")));
    assert!(rt; is_refused(alloc, &["acdm", "serve", "--web-name", "NM=127.0.0.1:0"]));
    assert!(rt; is_refused(alloc, &["acdm", "run", "--web", "127.0.0.1:8080"]));
}

// Whether these words ask to serve with replies that wait for so many boards, and for all of them where it is strict.
fn asks_to_wait(alloc: Global, words: &[&str], wanted: Option<u32>, is_strict: bool) -> bool {
    match parse(alloc, words) {
        Ok(
            Line {
                subcommand: Subcommand::Serve { second, strict, .. },
                ..
            },
        ) => second == wanted && strict == is_strict,
        _ => false,
    }
}

#[test]
fn replies_wait_for_boards_that_follow(rt: HostRuntime) {
    let alloc = rt.alloc();
    let words = [
        "acdm", "serve", "--keep", "day", "--watch", "4100", "APT=4001",
    ];
    assert!(rt; asks_to_wait(alloc, &words, None, false));
    let words = [
        "acdm", "serve", "--keep", "day", "--watch", "4100", "--second", "1", "APT=4001",
    ];
    assert!(rt; asks_to_wait(alloc, &words, Some(1), false));
    let words = [
        "acdm",
        "follow",
        "4100",
        "--keep",
        "day",
        "--watch",
        "4101",
        "--strict",
        "--second=8",
        "APT=4001",
    ];
    assert!(rt; asks_to_wait(alloc, &words, Some(8), true));
}

#[test]
fn boards_to_wait_for_are_one_to_eight(rt: HostRuntime) {
    let alloc = rt.alloc();
    let words = [
        "acdm", "serve", "--keep", "day", "--watch", "4100", "--second", "0", "APT=4001",
    ];
    assert!(rt; is_refused(alloc, &words));
    let words = [
        "acdm", "serve", "--keep", "day", "--watch", "4100", "--second", "9", "APT=4001",
    ];
    assert!(rt; is_refused(alloc, &words));
}

#[test]
fn boards_follow_a_journal_that_is_kept_and_shown(rt: HostRuntime) {
    let alloc = rt.alloc();
    let words = [
        "acdm", "serve", "--watch", "4100", "--second", "1", "APT=4001",
    ];
    assert!(rt; is_refused(alloc, &words));
    let words = [
        "acdm", "serve", "--keep", "day", "--second", "1", "APT=4001",
    ];
    assert!(rt; is_refused(alloc, &words));
    let words = [
        "acdm", "serve", "--keep", "day", "--watch", "4100", "--strict", "APT=4001",
    ];
    assert!(rt; is_refused(alloc, &words));
}

// Whether these words ask to serve beside this peer.
fn asks_beside(alloc: Global, words: &[&str], wanted: &str) -> bool {
    match parse(alloc, words) {
        Ok(
            Line {
                subcommand: Subcommand::Serve {
                    peer: Some(peer),
                    ..
                },
                ..
            },
        ) => peer == wanted,
        _ => false,
    }
}

// A peer may have taken over the journal that is kept, so there has to be one.
#[test]
fn a_peer_is_named_beside_a_file(rt: HostRuntime) {
    let alloc = rt.alloc();
    let words = [
        "acdm",
        "serve",
        "--keep",
        "day",
        "--peer",
        "10.0.0.2:4100",
        "APT=4001",
    ];
    assert!(rt; asks_beside(alloc, &words, "10.0.0.2:4100"));
    let words = [
        "acdm",
        "follow",
        "10.0.0.1:4100",
        "--keep",
        "day",
        "--peer=[::1]:4100",
        "APT=4001",
    ];
    assert!(rt; asks_beside(alloc, &words, "[::1]:4100"));
    let words = ["acdm", "serve", "--peer", "10.0.0.2:4100", "APT=4001"];
    assert!(rt; is_refused(alloc, &words));
    let words = ["acdm", "run", "--keep", "day", "--peer", "10.0.0.2:4100"];
    assert!(rt; is_refused(alloc, &words));
}
