//! A board that follows another one, whose connections are texts. The name of the journal is the digest of its first
//! line, as `sha256sum` tells it.
ghost use Rattle.std.specs.Prelude.{◌≡◌, is_some};
ghost use Rattle.acdm_following.specs.Courses.{asked, parted_as};

use crate::crash::FullDisk;
use acdm_board::Desk;
use acdm_failures::Failure;
use acdm_following::{Course, FirstBoard, Parting, follow};
use acdm_journal::Clause;
use acdm_keeping::Keeper;
use acdm_lines::Source;
use acdm_restoring::{RestoreError, restore, restore_behind};
use bpf_helpers::{Bank, Helpers};
use std::alloc::Global;
use std::process::Abort;

/// The first six lines of `examples/journal/day.journal`.
const JOURNAL: &str = "\
    0 1 29000520 APT 0 0 schedule 501 DLH4PK A320 DAIBC EGLL 29000670 45 5 12 12\n\
    1 1 29000520 APT 0 0 schedule 502 BAW952 A319 GEUPA EGLL 29000700 40 6 12 14\n\
    2 1 29000521 APT 0 0 schedule 503 SWR1103 BCS3 HBJCA LSZH 29000720 40 5 12 21\n\
    3 1 29000521 APT 0 0 schedule 504 AFR1723 E190 FHBLA LFPG 29000770 35 5 12 23\n\
    4 2 29000522 NM 0 0 alerts\n\
    5 2 29000525 NM 0 0 report 501 1 29000670 DLH4PK A320 DAIBC EGLL\n";

/// The number of its entries.
const ENTRIES: u64 = 6;

const NAME: &str = "c250eaf295c1a41a7fa427e4716892a3";

/// The name of `examples/journal/winter.journal`.
const OTHER_NAME: &str = "4b07873895dfed1915eac44b2488a92c";

/// A board whose connections give these texts, one after the other.
#[derive(Drop)]
struct Texts<'a> {
    texts: &'a [Vec<u8>],
    asked: Vec<u64>,
    partings: Vec<Parting>,
    course: Course,
}

impl<'a> Texts<'a> {
    fn new(alloc: Global, texts: &'a [Vec<u8>]) -> Texts<'a> {
        Texts {
            texts,
            asked: Vec::new(alloc),
            partings: Vec::new(alloc),
            course: Course::new(),
        }
    }
}

impl<'a> FirstBoard for Texts<'a> {
    type Connection = &'a [u8];

    ghost course = { λ t. t.course };

    fn connect(&mut self, next: u64) -> Option<&'a [u8]>
        ensures course { self.new.course ≡ asked self.old.course next (is_some result) }
    {
        let _noted = self.asked.push(next);
        match self.texts.split_first() {
            Some((text, more)) => {
                self.texts = more;
                self.course.ask(next);
                Some(text.as_slice())
            }
            None => {
                self.course.end(next);
                None
            }
        }
    }

    fn part(&mut self, _connection: &'a [u8], given: &Course, why: Parting)
        ensures course { self.new.course ≡ parted_as self.old.course given.now.parted why }
    {
        let _noted = self.partings.push(why);
        self.course.part(given, why);
    }
}

/// What came of following: how it ended, what was asked for, why each connection was handed back, and what was kept.
#[derive(Drop)]
struct Outcome {
    result: Result<(), Failure>,
    asked: Vec<u64>,
    partings: Vec<Parting>,
    kept: Vec<u8>,
}

// The first line of a connection, and the text behind it.
fn connection(rt: &impl Abort, alloc: Global, name: &str, next: u64, text: &[u8]) -> Vec<u8> {
    let line = format!(in alloc;
        "{{\"journal\":\"{name}\",\"next\":{next},\"room\":1000}}\n"
    ).expect(rt, "a line");
    let mut bytes = line.into_bytes();
    bytes.extend_from_slice(text).expect(rt, "a text");
    bytes
}

/// What a desk has, and how much room there is for entries, and for bytes on its disk.
#[derive(Clone, Copy)]
struct Start<'a> {
    has: &'a str,
    room: usize,
    disk: usize,
}

/// No entry, and room for all.
const EMPTY: Start<'static> = Start {
    has: "",
    room: 1_000,
    disk: usize::MAX,
};

// Follows a board.
fn followed_by<H: Helpers + Drop>(
    rt: &impl Abort,
    alloc: Global,
    helpers: H,
    start: Start<'_>,
    texts: &[Vec<u8>],
) -> Outcome {
    let mut desk = Desk::new(alloc, helpers, start.room).expect(rt, "a desk");
    let mut before = Source::new(start.has.as_bytes());
    assert!(rt; restore(alloc, &mut before, &mut desk).is_ok());
    let disk = FullDisk::new(alloc, start.disk);
    let mut keeper = Keeper::new(alloc, desk.row(), disk)
        .ok()
        .expect(rt, "a keeper");
    assert!(rt; keeper.pass_over(desk.len()).is_ok());
    let mut board = Texts::new(alloc, texts);
    let result = follow(alloc, &mut board, &mut &mut keeper, &mut desk);
    let Texts {
        asked,
        partings,
        ..
    } = board;
    drop(desk);
    Outcome {
        result,
        asked,
        partings,
        kept: keeper.into_writer().into_inner().into_text(),
    }
}

fn followed(rt: &impl Abort, alloc: Global, start: Start<'_>, texts: &[Vec<u8>]) -> Outcome {
    let bank = Bank::new(alloc).expect(rt, "a bank");
    followed_by(rt, alloc, bank, start, texts)
}

// A part of a text.
fn part<'a>(rt: &impl Abort, text: &'a [u8], from: usize, to: usize) -> &'a [u8] {
    text.get(from..to).expect(rt, "a part")
}

fn lines_in(text: &[u8]) -> u64 {
    let mut count = 0u64;
    for byte in text {
        if *byte == b'\n' {
            count = count.saturating_add(1);
        }
    }
    count
}

// How many bytes the whole lines of a text have.
fn whole_in(text: &[u8]) -> usize {
    let mut whole = 0usize;
    for (index, byte) in text.iter().enumerate() {
        if *byte == b'\n' {
            whole = index.saturating_add(1);
        }
    }
    whole
}

fn texts_of(rt: &impl Abort, alloc: Global, one: Vec<u8>) -> Vec<Vec<u8>> {
    let mut texts = Vec::new(alloc);
    assert!(rt; texts.push(one).is_ok());
    texts
}

// The one connection is handed back for this reason, and nothing of it is entered.
fn parts_so(rt: &impl Abort, alloc: Global, start: Start<'_>, text: Vec<u8>, why: Parting) {
    let texts = texts_of(rt, alloc, text);
    let outcome = followed(rt, alloc, start, texts.as_slice());
    assert!(rt; outcome.result == Ok(()) && outcome.partings.as_slice() == [why].as_slice());
    assert!(rt; outcome.kept.is_empty() && outcome.asked.len() == 2);
    assert!(rt; outcome.asked.first() == outcome.asked.last());
}

// A connection that is cut anywhere, and a second one that goes on, give all of the journal.
#[test]
fn a_connection_is_gone_on_from_at_each_byte(rt: HostRuntime) {
    let alloc = rt.alloc();
    let journal = JOURNAL.as_bytes();
    let all = connection(&rt, alloc, NAME, 0, journal);
    let head = all.len().saturating_sub(journal.len());
    for cut in 0..=all.len() {
        let came = part(&rt, all.as_slice(), head.min(cut), cut);
        let next = lines_in(came);
        let mut texts = Vec::new(alloc);
        let first = part(&rt, all.as_slice(), 0, cut);
        let first = Vec::from_slice(alloc, first).expect(&rt, "a text");
        assert!(rt; texts.push(first).is_ok());
        let rest = part(&rt, journal, whole_in(came), journal.len());
        assert!(rt; texts.push(connection(&rt, alloc, NAME, next, rest)).is_ok());
        let outcome = followed(&rt, alloc, EMPTY, texts.as_slice());
        assert!(rt; outcome.result == Ok(()) && outcome.kept.as_slice() == journal);
        assert!(rt; outcome.asked.as_slice() == [0, next, ENTRIES].as_slice());
        assert!(rt; outcome.partings.as_slice() == [Parting::Ended, Parting::Ended].as_slice());
    }
}

// What is no journal, or another one, is told, and nothing of it is entered.
#[test]
fn another_connection_is_left(rt: HostRuntime) {
    let alloc = rt.alloc();
    let journal = JOURNAL.as_bytes();
    for junk in ["junk\n", "HTTP/1.1 400 Bad Request\r\n\r\n", "{}\n", "\n"] {
        let text = Vec::from_slice(alloc, junk.as_bytes()).expect(&rt, "a text");
        parts_so(&rt, alloc, EMPTY, text, Parting::NotAJournal);
    }
    let text = vec![in alloc; b' '; 257].expect(&rt, "a text");
    parts_so(&rt, alloc, EMPTY, text, Parting::NotAJournal);
    let other = connection(&rt, alloc, OTHER_NAME, 0, journal);
    parts_so(&rt, alloc, EMPTY, other, Parting::OtherJournal);
    let start = Start {
        has: JOURNAL,
        ..EMPTY
    };
    let other = connection(&rt, alloc, OTHER_NAME, ENTRIES, b"");
    parts_so(&rt, alloc, start, other, Parting::OtherJournal);
    let fewer = connection(&rt, alloc, NAME, 5, b"");
    parts_so(&rt, alloc, start, fewer, Parting::Behind { has: 5 });
    let later = connection(&rt, alloc, NAME, 7, b"");
    parts_so(&rt, alloc, start, later, Parting::Ahead { next: 7 });
}

// A faulty line is told by its number in the whole journal: a tick belongs to the airport, so its outcome is another
// (405). Those before it were entered and kept, and none behind it.
#[test]
fn a_faulty_line_is_told(rt: HostRuntime) {
    let alloc = rt.alloc();
    let journal = JOURNAL.as_bytes();
    let legal = part(&rt, journal, 0, whole_in(part(&rt, journal, 0, 170)));
    let mut text = connection(&rt, alloc, NAME, 0, legal);
    let entries = lines_in(legal);
    text.extend_from_slice(b"2 2 29000521 NM 0 0 tick\n")
        .expect(&rt, "a line");
    text.extend_from_slice(b"2 1 29000521 APT 0 0 tick\n")
        .expect(&rt, "a line");
    let texts = texts_of(&rt, alloc, text);
    let outcome = followed(&rt, alloc, EMPTY, texts.as_slice());
    let why = Parting::Faulty {
        entry: entries,
        clause: Clause::Outcome,
    };
    assert!(rt; outcome.result == Ok(()));
    assert!(rt; outcome.partings.as_slice() == [why].as_slice());
    assert!(rt; outcome.kept.as_slice() == legal);
}

// Where there is no room for an entry, or none on the disk, following ends.
#[test]
fn a_full_board_follows_no_more(rt: HostRuntime) {
    let alloc = rt.alloc();
    let journal = JOURNAL.as_bytes();
    let texts = texts_of(&rt, alloc, connection(&rt, alloc, NAME, 0, journal));
    for room in 0..6usize {
        let start = Start { room, ..EMPTY };
        let outcome = followed(&rt, alloc, start, texts.as_slice());
        let why = Parting::Failed(Failure::Room);
        assert!(rt;
            outcome.result == Err(Failure::Room) && outcome.partings.as_slice() == [why].as_slice()
        );
        assert!(rt; lines_in(outcome.kept.as_slice()) == room as u64);
    }
    for disk in 0..journal.len() {
        let start = Start { disk, ..EMPTY };
        let outcome = followed(&rt, alloc, start, texts.as_slice());
        let why = Parting::Failed(Failure::Save);
        assert!(rt;
            outcome.result == Err(Failure::Save) && outcome.partings.as_slice() == [why].as_slice()
        );
        assert!(rt; outcome.kept.as_slice() == part(&rt, journal, 0, disk));
    }
}

// A desk that has the first entries is given the others, as many as there are whole lines, and says how many bytes.
fn goes_on_at<H: Helpers + Drop>(rt: &impl Abort, alloc: Global, helpers: H, cut: usize) {
    let journal = JOURNAL.as_bytes();
    let came = part(rt, journal, 0, cut);
    let first = whole_in(came);
    let mut desk = Desk::new(alloc, helpers, 1_000).expect(rt, "a desk");
    let before = restore(alloc, &mut Source::new(came), &mut desk);
    assert!(rt; before == Ok(first as u64));
    let cut_line = part(rt, came, first, cut);
    let late = restore_behind(alloc, &mut Source::new(cut_line), &mut desk);
    assert!(rt; late == Ok(0));
    let entry = desk.len();
    let twice = restore_behind(alloc, &mut Source::new(journal), &mut desk);
    if entry > 0 {
        let clause = Clause::Number;
        assert!(rt; twice == Err(RestoreError::Faulty { entry, clause }));
        let behind = part(rt, journal, first, journal.len());
        let rest = restore_behind(alloc, &mut Source::new(behind), &mut desk);
        assert!(rt; rest == Ok(behind.len() as u64));
    }
    assert!(rt; desk.len() == ENTRIES);
    drop(desk);
}

#[test]
fn a_desk_goes_on_behind_what_it_has(rt: HostRuntime) {
    let alloc = rt.alloc();
    for cut in 0..=JOURNAL.len() {
        let bank = Bank::new(alloc).expect(&rt, "a bank");
        goes_on_at(&rt, alloc, bank, cut);
    }
}
