//! The term of a board, and the file in which it stands.
use acdm_keeping::{BoardTerm, is_replaced, term_after, term_named, term_path, term_text};
use std::alloc::Global;
use std::fs::{self, Files};
use std::io::ErrorKind;
use std::process::Abort;

// Lines, and the terms that they name.
static NAMED: [(&[u8], Option<u64>); 12] = [
    (b"term 1", Some(1)),
    (b"term 0", Some(0)),
    (b"term 2", Some(2)),
    (
        b"term 18446744073709551615",
        Some(18_446_744_073_709_551_615),
    ),
    (b"term 18446744073709551616", None),
    (b"term", None),
    (b"term ", None),
    (b"term -1", None),
    (b"term 1 ", None),
    (b" term 1", None),
    (b"Term 1", None),
    (b"term \xff", None),
];

#[test]
fn a_line_names_a_term(rt: HostRuntime) {
    for (line, term) in &NAMED {
        assert!(rt; term_named(*line) == *term);
    }
}

#[test]
fn a_term_is_a_line(rt: HostRuntime) {
    let alloc = rt.alloc();
    let text = term_text(alloc, 10).ok().expect(&rt, "a text");
    assert!(rt; text.as_slice() == b"term 10\n".as_slice());
    let path = term_path(alloc, "day.journal").expect(&rt, "a path");
    assert!(rt; path.as_str() == "day.journal.term");
}

#[test]
fn a_later_term_replaces_a_board(rt: HostRuntime) {
    assert!(rt; is_replaced(1, 2) && is_replaced(2, 10));
    assert!(rt; !is_replaced(2, 2) && !is_replaced(2, 1));
    assert!(rt; term_after(1, 0) == Some(2) && term_after(9, 9) == Some(10));
    assert!(rt;
        term_after(9, 10) == Some(10) && term_after(1, 1_764_496_800) == Some(1_764_496_800)
    );
    assert!(rt; term_after(18_446_744_073_709_551_614, 7) == Some(18_446_744_073_709_551_615));
    assert!(rt; term_after(18_446_744_073_709_551_615, 7).is_none());
}

// A board of the first term knows of others what it meets, and goes on in a later term alone.
#[test]
fn a_board_goes_on_in_later_terms(rt: HostRuntime) {
    let alloc = rt.alloc();
    let term = BoardTerm::first(alloc).expect(&rt, "a term");
    let same = term.copy(alloc).expect(&rt, "a term");
    assert!(rt; term.own() == 1 && term.replaced_by().is_none());
    same.meet(1);
    assert!(rt; term.replaced_by().is_none());
    same.meet(3);
    assert!(rt; term.replaced_by() == Some(3));
    assert!(rt; same.raise(&rt, alloc, 3).is_ok());
    assert!(rt; term.own() == 3 && term.replaced_by().is_none());
    assert!(rt; term.raise(&rt, alloc, 2).is_ok());
    assert!(rt; same.own() == 3);
    assert!(rt; term.take_over(&rt, alloc).is_ok());
    assert!(rt; same.own() > 1_700_000_000 && term.raise(&rt, alloc, 5_000_000_000).is_ok());
    assert!(rt; term.take_over(&rt, alloc).is_ok());
    assert!(rt; same.own() == 5_000_000_001);
}

// What the file of this path has.
fn text_of<Rt: Files + Alloc<A = Global> + Abort>(rt: &Rt, path: &str) -> Vec<u8> {
    fs::read(rt, path).ok().expect(rt, "a file")
}

// Where there is no file a board has the first term; what it goes on in stands in the file, and is read from it.
#[test]
fn a_term_stands_beside_a_journal(rt: HostRuntime) {
    let alloc = rt.alloc();
    let (journal, path) = ("a_term_stands", "a_term_stands.term");
    let _ = fs::remove_file(&rt, path);
    let term = BoardTerm::read(&rt, alloc, journal)
        .ok()
        .expect(&rt, "a term");
    assert!(rt; term.own() == 1);
    assert!(rt; term.raise(&rt, alloc, 2).is_ok());
    assert!(rt; text_of(&rt, path).as_slice() == b"term 2\n".as_slice());
    let again = BoardTerm::read(&rt, alloc, journal)
        .ok()
        .expect(&rt, "a term");
    assert!(rt; again.own() == 2 && again.take_over(&rt, alloc).is_ok());
    let last = BoardTerm::read(&rt, alloc, journal)
        .ok()
        .expect(&rt, "a term");
    assert!(rt; last.own() == again.own() && last.own() > 1_700_000_000);
    let _ = fs::remove_file(&rt, path);
}

// What no file of a term has.
static OTHERS: [&[u8]; 5] = [
    b"",
    b"term 2",
    b"term two\n",
    b"term 2\nterm 3\n",
    b"term 000000000000000000000000000000000000002\n",
];

#[test]
fn another_file_is_no_term(rt: HostRuntime) {
    let alloc = rt.alloc();
    let (journal, path) = ("another_file", "another_file.term");
    for text in &OTHERS {
        assert!(rt; fs::write(&rt, path, *text).is_ok());
        let found = BoardTerm::read(&rt, alloc, journal);
        assert!(rt; matches!(found, Err(error) if error.kind() == ErrorKind::InvalidData));
    }
    let _ = fs::remove_file(&rt, path);
}
