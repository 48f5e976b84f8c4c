//! Which words a file of settings stands for, and where a command line names one.
use acdm_settings::{ConfigPlace, SettingFault, SettingsError, place_in, with_settings, words_in};
use std::alloc::Global;
use std::process::Abort;

// Whether texts are these words.
fn are(texts: &[String], words: &[&str]) -> bool {
    texts.len() == words.len()
        && texts
            .iter()
            .zip(words)
            .all(|(text, word)| text.as_str() == *word)
}

// A file of settings, and the words that it stands for.
static FILES: [(&str, &[&str]); 9] = [
    ("", &[]),
    ("# nothing\n", &[]),
    ("again = true\nsync = false\n", &["--again"]),
    ("sync = true\n", &["--sync"]),
    ("journal = 0\n", &["--journal=0"]),
    (
        "tick = 60\npace = 9223372036854775807\n",
        &["--pace=9223372036854775807", "--tick=60"],
    ),
    (
        "keep = 'a b'\nweb-name = \"--again\"\ntables = \"\"\n",
        &["--keep=a b", "--tables=", "--web-name=--again"],
    ),
    (
        "watch = '1'\nweb = '2'\nsave = '3'\ncontrol = '4'\nchanges = '5'\nlog = '6'\n",
        &[
            "--changes=5",
            "--control=4",
            "--log=6",
            "--save=3",
            "--watch=1",
            "--web=2",
        ],
    ),
    (
        "partners = ['APT=127.0.0.1:4001', 'GH=127.0.0.1:4002']\njournal = 7\n",
        &["--journal=7", "APT=127.0.0.1:4001", "GH=127.0.0.1:4002"],
    ),
];

#[test]
fn settings_stand_for_words(rt: HostRuntime) {
    for (text, words) in &FILES {
        let found = words_in(rt.alloc(), text.as_bytes());
        assert!(rt; are(found.ok().expect(&rt, "words").as_slice(), words));
    }
}

// What is wrong with a file: at which key, why.
static WRONG: [(&str, &str, SettingFault); 12] = [
    ("journals = 7\n", "journals", SettingFault::Unknown),
    ("serve = true\n", "serve", SettingFault::Unknown),
    ("--again = true\n", "--again", SettingFault::Unknown),
    ("again = 1\n", "again", SettingFault::NoFlag),
    ("sync = 'true'\n", "sync", SettingFault::NoFlag),
    ("journal = -1\n", "journal", SettingFault::NoNumber),
    ("tick = '60'\n", "tick", SettingFault::NoNumber),
    ("keep = 7\n", "keep", SettingFault::NoText),
    ("[keep]\n", "keep", SettingFault::NoText),
    ("partners = 'APT=1'\n", "partners", SettingFault::NoPartners),
    (
        "partners = ['APT=1', '-x']\n",
        "partners",
        SettingFault::NoPartners,
    ),
    ("partners = ['']\n", "partners", SettingFault::NoPartners),
];

// This is what is told of a text.
fn is_wrong(rt: &impl Abort, alloc: Global, text: &str, wanted: &str, reason: SettingFault) {
    match words_in(alloc, text.as_bytes()) {
        Err(SettingsError::Wrong { key, why }) => {
            assert!(rt; key.as_slice() == wanted.as_bytes() && why == reason);
        }
        _ => assert!(rt; false),
    }
}

#[test]
fn what_is_wrong_is_named(rt: HostRuntime) {
    for (text, wanted, reason) in &WRONG {
        is_wrong(&rt, rt.alloc(), *text, *wanted, *reason);
    }
}

// The line in which a text is no TOML.
fn line_of(rt: &(impl AllocGlobal + Abort), text: &[u8]) -> Option<usize> {
    match words_in(rt.alloc(), text) {
        Err(SettingsError::NoToml(line)) => Some(line),
        _ => None,
    }
}

#[test]
fn other_texts_are_refused(rt: HostRuntime) {
    assert!(rt; line_of(&rt, b"journal =\n") == Some(1));
    assert!(rt; line_of(&rt, b"again = true\n\nkeep = 'x\n") == Some(3));
    assert!(rt; line_of(&rt, b"again = true\nagain = true\n") == Some(2));
    assert!(rt; line_of(&rt, b"keep = '\xff'\n") == Some(1));
    assert!(rt; line_of(&rt, b"again = true\n").is_none());
    let most = [b'#'; 65_536];
    assert!(rt; words_in(rt.alloc(), &most).is_ok());
    let more = [b'#'; 65_537];
    let found = words_in(rt.alloc(), &more);
    assert!(rt; matches!(found, Err(SettingsError::TooLong)));
}

// A command line, and where it names a file.
static LINES: [(&[&str], Option<(usize, &str)>); 11] = [
    (&["acdm", "serve", "--config", "a"], Some((2, "a"))),
    (
        &["acdm", "serve", "--again", "--config", "a", "APT=1"],
        Some((3, "a")),
    ),
    (
        &["acdm", "serve", "--config", "a", "--config", "b"],
        Some((2, "a")),
    ),
    (&["acdm", "serve", "--config", "--"], Some((2, "--"))),
    (&["acdm", "serve", "--config"], None),
    (&["acdm", "serve", "--", "--config", "a"], None),
    (&["acdm", "serve", "APT=1"], None),
    (&["acdm", "run", "--config", "a"], None),
    (&["acdm", "--config", "a", "serve"], None),
    (&["acdm"], None),
    (&[], None),
];

#[test]
fn a_file_is_named_by_two_words(rt: HostRuntime) {
    for (words, wanted) in &LINES {
        let found = match place_in(words) {
            Some(ConfigPlace { before, path }) => Some((before, path)),
            None => None,
        };
        assert!(rt; found == *wanted);
    }
}

#[test]
fn its_words_stand_in_their_place(rt: HostRuntime) {
    let alloc = rt.alloc();
    let words = ["acdm", "serve", "--sync", "--config", "a", "GH=2"];
    let settings = words_in(alloc, b"again = true\npartners = ['APT=1']\n");
    let whole = with_settings(alloc, &words, 3, settings.ok().expect(&rt, "words"));
    let wanted = ["acdm", "serve", "--sync", "--again", "APT=1", "GH=2"];
    assert!(rt; are(whole.expect(&rt, "room").as_slice(), &wanted));
    let none = words_in(alloc, b"").ok().expect(&rt, "words");
    let whole = with_settings(alloc, &words[..5], 3, none);
    assert!(rt; are(whole.expect(&rt, "room").as_slice(), &wanted[..3]));
}
