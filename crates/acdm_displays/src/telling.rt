//! What a display is told of each entry.
ghost use Rattle.std.specs.Prelude.{◌≡◌, ◌==◌, ◌≤◌, ◌+◌, ℕ, List, [], ◌++◌, reverse, if◌then◌else◌, IfErr};
ghost use Rattle.std.specs.Prelude.{OnOk, length};
ghost use Rattle.acdm_web.specs.Answers.{events_head};
ghost use Rattle.acdm_web.specs.Events.{event_text};
ghost use Rattle.acdm_step.specs.declared.entry.Entry.{Entry as AnEntry};
ghost use Rattle.acdm_journal.specs.Whole.{Saves};
ghost use Rattle.acdm_step.specs.Commands.{History};
ghost use Rattle.acdm_feed.specs.Knowing.{Knows};
ghost use Rattle.acdm_feed.specs.Resumed.{journal_text};
ghost use Rattle.acdm_displays.specs.Displayed.{Adds, Begun, CutsShort, EventsFrom, IsBegun, IsNext, TellsFrom};
ghost use Rattle.acdm_displays.specs.Displayed.{at_board, at_board_event, at_entry, at_event};
ghost use Rattle.acdm_displays.specs.Viewing.{IsUpTo};
ghost use Rattle.acdm_displays.specs.Within.{StaysWithin};
ghost use Rattle.acdm_displays.specs.declared.asked.Start.{Start as AStart};

use crate::asked::Start;
use crate::beginning::pass_all;
use acdm_failures::Failure;
use acdm_feed::{Known, push_board, push_journal, tell_next};
use acdm_journal::push_entry;
use acdm_row::Row;
use acdm_watch::Watch;
use acdm_web::{BrowserRequest, Wanted, push_answer, push_event};
use std::alloc::Global;

/// Tells entries as a text.
pub(crate) trait Telling {
    /// What it has told, since it has begun, of what was seen, up to these bytes.
    ghost tells: { Self → List AnEntry → Begun → List ℕ → Type 0 };

    /// Adds the text of the next entry, where it is in sight, and says whether it was.
    fn add_next(
        &mut self,
        watch: &mut Watch,
        row: &Row,
        text: &mut Vec<u8>,
    ) -> Result<bool, Failure>
        requires { row.now ≡ watch.old.row }
        ensures row { watch.new.row ≡ watch.old.row }
        ensures added { OnOk result (Adds tells self.old self.new watch.old.seen watch.new.seen
            text.old.items text.new.items) }
        ensures few { OnOk result (length watch.new.seen ≤ 1 + length watch.old.seen) }
        ensures failed { IfErr result CutsShort };
}

/// Tells entries to several at once, each of whom has begun at a time of its own.
pub(crate) trait Sharing: Telling {
    /// What each is sent before all else.
    ghost head: { List ℕ };

    /// How it begins behind some bytes for who asks so.
    ghost begun: { List ℕ → AStart → Begun → Type 0 };

    /// One who knows nothing, and has told nothing, of a row with room for so many entries.
    fn new(alloc: Global, room: u64) -> Self
        ensures { IsUpTo Self.tells room result [] };

    /// Adds what each is sent before all else.
    fn add_head(&self, text: &mut Vec<u8>) -> Result<(), Failure>
        requires { text.old.items ≡ [] }
        ensures head { OnOk result (text.new.items ≡ head) }
        ensures failed { IfErr result CutsShort };

    /// Passes over all entries that are in sight, up to so many.
    fn pass(&mut self, watch: &mut Watch, row: &Row, most: usize) -> Result<(), Failure>
        requires { row.now ≡ watch.old.row }
        ensures row { watch.new.row ≡ watch.old.row }
        ensures passed { OnOk result ((room : ℕ) → IsUpTo Self.tells room self.old watch.old.seen
            → IsUpTo Self.tells room self.new watch.new.seen) }
        ensures within { OnOk result (StaysWithin most watch.old.seen watch.new.seen) }
        ensures failed { IfErr result CutsShort };

    /// Adds what comes first for who asks so, after what was seen.
    fn begin(&self, watch: &Watch, start: Start, text: &mut Vec<u8>) -> Result<(), Failure>
        requires knows { (room : ℕ) × IsUpTo Self.tells room self.now watch.now.seen }
        requires next { IsNext start (length watch.now.seen) }
        requires empty { text.old.items ≡ [] }
        ensures begins { OnOk result ((room : ℕ) → IsUpTo Self.tells room self.now watch.now.seen
            → (before : List ℕ) → (b : Begun) × begun before start b × (b.room ≡ room)
            × Self.tells self.now watch.now.seen b (before ++ text.new.items)) }
        ensures failed { IfErr result CutsShort };
}

/// Tells the journal.
#[derive(Drop)]
pub(crate) struct Journal;

impl Telling for Journal {
    ghost tells = { λ teller seen start log. Saves (reverse seen) start.before log };

    fn add_next(
        &mut self,
        watch: &mut Watch,
        row: &Row,
        text: &mut Vec<u8>,
    ) -> Result<bool, Failure> {
        let Some(entry) = watch.take_next(row)? else {
            return Ok(false);
        };
        push_entry(text, entry)?;
        Ok(true)
    }
}

/// Tells the feed, and before the first entry, where that was not passed over, the line of the journal, with
/// room for so many entries.
#[derive(Drop)]
pub(crate) struct Changes {
    pub(crate) known: Known,
    pub(crate) room: u64,
    pub(crate) line: Vec<u8>,
}

// Adds the line of a journal before the entry of this number, where that is the first one.
fn push_name(text: &mut Vec<u8>, known: &Known, number: u64, room: u64) -> Result<(), Failure>
    ensures added { OnOk result ((J : History) → Knows J known.now → text.new.items ≡ text.old.items
        ++ (if number == 0 then journal_text 0 room J else [])) }
    ensures failed { IfErr result CutsShort }
{
    if number != 0 {
        return Ok(());
    }
    push_journal(text, known, 0, room)?;
    Ok(())
}

impl Telling for Changes {
    ghost tells = { λ teller seen start log. TellsFrom teller.known teller.room seen start log };

    fn add_next(
        &mut self,
        watch: &mut Watch,
        row: &Row,
        text: &mut Vec<u8>,
    ) -> Result<bool, Failure> {
        let number = watch.len() as u64;
        self.line.clear();
        if !tell_next(watch, &mut self.known, row, 0, &mut self.line)? {
            return Ok(false);
        }
        push_name(text, &self.known, number, self.room)?;
        text.extend_from_slice(self.line.as_slice())?;
        Ok(true)
    }
}

// Adds what comes first for who begins behind this many entries, which were seen: the line of the journal, where it has
// one of them.
fn begin_journal(teller: &Changes, watch: &Watch, text: &mut Vec<u8>) -> Result<(), Failure>
    requires knows { Knows (reverse watch.now.seen) teller.now.known }
    requires empty { text.old.items ≡ [] }
    ensures begins { OnOk result ((before : List ℕ) → TellsFrom teller.now.known teller.now.room watch.now.seen
        (at_entry teller.now.room before (reverse watch.now.seen)) (before ++ text.new.items)) }
    ensures failed { IfErr result CutsShort }
{
    let next = watch.len() as u64;
    if next == 0 {
        return Ok(());
    }
    push_journal(text, &teller.known, next, teller.room)?;
    Ok(())
}

// Adds the line of the board of all entries that were seen.
fn begin_board(teller: &Changes, watch: &Watch, text: &mut Vec<u8>) -> Result<(), Failure>
    requires knows { Knows (reverse watch.now.seen) teller.now.known }
    requires empty { text.old.items ≡ [] }
    ensures begins { OnOk result ((before : List ℕ) → TellsFrom teller.now.known teller.now.room watch.now.seen
        (at_board teller.now.room before (reverse watch.now.seen)) (before ++ text.new.items)) }
    ensures failed { IfErr result CutsShort }
{
    let entries = watch.len() as u64;
    push_board(text, &teller.known, watch.board(), entries, teller.room)?;
    Ok(())
}

impl Sharing for Changes {
    ghost head = { [] };

    ghost begun = { λ before start begun. IsBegun at_entry at_board before start begun };

    fn new(alloc: Global, room: u64) -> Changes {
        Changes {
            known: Known::new(alloc),
            room,
            line: Vec::new(alloc),
        }
    }

    fn add_head(&self, _text: &mut Vec<u8>) -> Result<(), Failure> {
        Ok(())
    }

    fn pass(&mut self, watch: &mut Watch, row: &Row, most: usize) -> Result<(), Failure> {
        pass_all(watch, &mut self.known, row, most)
    }

    fn begin(&self, watch: &Watch, start: Start, text: &mut Vec<u8>) -> Result<(), Failure> {
        match start {
            Start::Entry(number) if number <= watch.len() as u64 => begin_journal(
                self, watch, text,
            ),
            Start::Entry(_) => begin_board(self, watch, text),
            Start::Board => begin_board(self, watch, text),
        }
    }
}

/// Tells the same, each line as an event for browsers.
#[derive(Drop)]
pub(crate) struct Events {
    pub(crate) known: Known,
    pub(crate) room: u64,
    pub(crate) line: Vec<u8>,
}

// Adds the line of a journal as an event, whose id is the number of the entry that comes next.
fn push_journal_event(
    text: &mut Vec<u8>,
    known: &Known,
    next: u64,
    room: u64,
) -> Result<(), Failure>
    ensures added { OnOk result ((J : History) → Knows J known.now
        → text.new.items ≡ text.old.items ++ event_text next (journal_text next room J)) }
    ensures failed { IfErr result CutsShort }
{
    let mut line = Vec::new(*text.allocator());
    push_journal(&mut line, known, next, room)?;
    push_event(text, next, line.as_slice())?;
    Ok(())
}

// Adds that event before the entry of this number, where that is the first one.
fn push_name_event(text: &mut Vec<u8>, known: &Known, number: u64, room: u64) -> Result<(), Failure>
    ensures added { OnOk result ((J : History) → Knows J known.now → text.new.items ≡ text.old.items
        ++ (if number == 0 then event_text 0 (journal_text 0 room J) else [])) }
    ensures failed { IfErr result CutsShort }
{
    if number > 0 {
        return Ok(());
    }
    push_journal_event(text, known, 0, room)?;
    Ok(())
}

impl Telling for Events {
    ghost tells = { λ teller seen start log. EventsFrom teller.known teller.room seen start log };

    fn add_next(
        &mut self,
        watch: &mut Watch,
        row: &Row,
        text: &mut Vec<u8>,
    ) -> Result<bool, Failure> {
        let number = watch.len() as u64;
        self.line.clear();
        if !tell_next(watch, &mut self.known, row, 0, &mut self.line)? {
            return Ok(false);
        }
        push_name_event(text, &self.known, number, self.room)?;
        let next = watch.len() as u64;
        push_event(text, next, self.line.as_slice())?;
        Ok(true)
    }
}

// Adds what comes first for a browser for which the entry comes next that is behind those that were seen: the event of
// the journal, where it has one of them.
fn begin_events(teller: &Events, watch: &Watch, text: &mut Vec<u8>) -> Result<(), Failure>
    requires knows { Knows (reverse watch.now.seen) teller.now.known }
    requires empty { text.old.items ≡ [] }
    ensures begins { OnOk result ((before : List ℕ) → EventsFrom teller.now.known teller.now.room watch.now.seen
        (at_event teller.now.room before (reverse watch.now.seen)) (before ++ text.new.items)) }
    ensures failed { IfErr result CutsShort }
{
    let next = watch.len() as u64;
    if next == 0 {
        return Ok(());
    }
    push_journal_event(text, &teller.known, next, teller.room)?;
    Ok(())
}

// Adds the event of the board of all entries that were seen.
fn begin_board_event(
    alloc: Global,
    teller: &Events,
    watch: &Watch,
    text: &mut Vec<u8>,
) -> Result<(), Failure>
    requires knows { Knows (reverse watch.now.seen) teller.now.known }
    requires empty { text.old.items ≡ [] }
    ensures begins { OnOk result ((before : List ℕ) → EventsFrom teller.now.known teller.now.room watch.now.seen
        (at_board_event teller.now.room before (reverse watch.now.seen)) (before ++ text.new.items)) }
    ensures failed { IfErr result CutsShort }
{
    let entries = watch.len() as u64;
    let mut line = Vec::new(alloc);
    push_board(
        &mut line,
        &teller.known,
        watch.board(),
        entries,
        teller.room,
    )?;
    push_event(text, entries, line.as_slice())?;
    Ok(())
}

impl Sharing for Events {
    ghost head = { events_head };

    ghost begun = { λ before start begun. IsBegun at_event at_board_event before start begun };

    fn new(alloc: Global, room: u64) -> Events {
        Events {
            known: Known::new(alloc),
            room,
            line: Vec::new(alloc),
        }
    }

    fn add_head(&self, text: &mut Vec<u8>) -> Result<(), Failure> {
        let request = BrowserRequest {
            wanted: Wanted::Events(None),
            is_head: false,
        };
        push_answer(text, request, "", None)?;
        Ok(())
    }

    fn pass(&mut self, watch: &mut Watch, row: &Row, most: usize) -> Result<(), Failure> {
        pass_all(watch, &mut self.known, row, most)
    }

    fn begin(&self, watch: &Watch, start: Start, text: &mut Vec<u8>) -> Result<(), Failure> {
        match start {
            Start::Entry(number) if number <= watch.len() as u64 => begin_events(self, watch, text),
            Start::Entry(_) => begin_board_event(*text.allocator(), self, watch, text),
            Start::Board => begin_board_event(*text.allocator(), self, watch, text),
        }
    }
}
