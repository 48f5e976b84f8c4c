//! Displays, which are sent the journal as text while partners are served.
ghost use Rattle.std.specs.Prelude.{◌≡◌, [], IfOk, OnOk, length};
ghost use Rattle.std.specs.Arc.{arc_value};
ghost use Rattle.acdm_displays.specs.Displayed.{WasSentSome, WasTold, WasToldEvents, start_of};
ghost use Rattle.acdm_displays.specs.Viewing.{AreTold};
ghost use Rattle.acdm_displays.specs.Within.{IsWithin};

use crate::asked::{
    DisplayRequest, FollowerStart, Start, asked_with_term, feed_start, first_asked,
};
use crate::browsing::{answer, follow_events, start_of};
use crate::confirming::{FollowerPlace, FollowingBoard};
use crate::entries::Entries;
use crate::following::{MOST_REFUSALS, Shown, follow_changes};
use crate::leaving::has_left;
use crate::places::{DisplayPlace, Shared};
use crate::resuming::follow_asked;
use crate::sharing::{
    FeedRequest, FeedViewers, catch_up, is_any_ready, look_after, nobody, take_in, tell_some,
};
use crate::telling::{Changes, Events, Sharing};
use acdm_confirming::{Confirmed, MOST_FOLLOWERS};
use acdm_failures::Failure;
use acdm_keeping::{BoardTerm, Reach};
use acdm_lines::{Sink, Source};
use acdm_row::Row;
use acdm_web::{BrowserRequest, PAGE, Wanted, first_wanted};
use httpdate::HttpDate;
use std::alloc::{AllocError, Global};
use std::io::{self, ErrorKind};
use std::mem;
use std::net::{Shutdown, TcpListener, TcpStream};
use std::sync::atomic::{AtomicBool, Ordering};
use std::sync::{Arc, Wait};
use std::thread::{self, JoinHandle, Threads};
use std::time::{Clock as SystemClock, Duration, Instant, SystemTime};

/// After how many milliseconds it is looked for more, and for a further display.
const PAUSE: u64 = 25;

/// For how many milliseconds it is waited at once for what a board says that follows, while replies may begin to wait.
const ANSWERING: u64 = 1;

/// For how many milliseconds a display may take nothing of what it is sent, until it is let go.
const PATIENCE: u64 = 30_000;

/// For how many milliseconds a browser is waited for until it has asked for something.
const HEARING: u64 = 10_000;

/// For how many pauses displays are waited for at the end: 5 seconds.
const LAST_PAUSES: u64 = 200;

/// How often it is looked at the end for displays that wait to be accepted, at most.
const LAST_LOOKS: u64 = 256;

/// How many displays are accepted at once at most, while others are sent what there is.
const MOST_AT_ONCE: u64 = 16;

/// For how many pauses a display that was sent all is waited for, until it is let go: a second.
const PARTING_PAUSES: u64 = 40;

/// As what text displays are sent the entries.
#[derive(Clone, Copy, Debug, PartialEq, Eq)]
pub enum DisplayKind {
    /// As the journal.
    Journal,
    /// As the feed: what each of them says and changes, as a line of JSON.
    Changes,
    /// As a page for browsers, with the feed as events.
    Web,
}

/// Where displays of a kind connect.
#[derive(Drop)]
pub struct DisplayListener<'a> {
    /// Their kind.
    pub kind: DisplayKind,
    /// The socket that listens for them.
    pub socket: TcpListener,
    /// The name by which browsers may ask for the board, beside its addresses, if it has one.
    pub name: Option<&'a str>,
    /// What other boards keep, where replies wait for that: at most eight that ask for the journal from an entry on say it.
    pub confirmed: Option<&'a Arc<Confirmed>>,
    /// The board's term, which who asks for it first is sent.
    pub term: BoardTerm,
}

// What a thread does.
trait Task: Drop + Send {
    fn run(self);
}

// Starts a thread, if one can be made.
fn begin<Rt: Threads, T: Task + 'static>(rt: &Rt, task: T) -> Option<JoinHandle<()>> {
    thread::spawn(rt, move || task.run()).ok()
}

// The serving of a display that is sent the journal. What it has asked for first is there where it was heard.
#[derive(Drop)]
struct Showing {
    alloc: Global,
    row: Arc<Row>,
    reach: Option<Reach>,
    term: BoardTerm,
    asked: Option<DisplayRequest>,
    place: DisplayPlace,
    stream: TcpStream,
}

impl Task for Showing {
    fn run(self) {
        let Showing {
            alloc,
            row,
            reach,
            term,
            asked,
            place,
            stream,
        } = self;
        let entries = Entries {
            row: &row,
            reach: reach.as_ref(),
            closing: &place.shared.closing,
        };
        let _ = show_journal(alloc, &entries, term.own(), asked, stream);
        drop(place);
    }
}

// The serving of one that asks for entries which others were sent before.
#[derive(Drop)]
struct Resuming {
    alloc: Global,
    row: Arc<Row>,
    reach: Option<Reach>,
    kind: DisplayKind,
    asked: FeedRequest,
}

impl Task for Resuming {
    fn run(self) {
        let Resuming {
            alloc,
            row,
            reach,
            kind,
            asked,
        } = self;
        let FeedRequest {
            start,
            place,
            reader,
            stream,
        } = asked;
        let entries = Entries {
            row: &row,
            reach: reach.as_ref(),
            closing: &place.shared.closing,
        };
        if kind == DisplayKind::Web {
            let _ = show_events(alloc, &entries, last_of(start), reader, stream);
        } else {
            let _ = show_changes(alloc, &entries, start, reader, stream);
        }
        drop(place);
    }
}

// The hearing of one that may be sent what others are sent. Once it is heard, the thread is joined.
#[derive(Drop)]
struct FeedHearing {
    alloc: Global,
    kind: DisplayKind,
    is_over: Arc<AtomicBool>,
    place: DisplayPlace,
    stream: TcpStream,
}

// What a thread does that hears one.
trait HearingTask: Drop + Send {
    // What was asked for, if it is something that is sent on and on.
    fn hear(self) -> Option<FeedRequest>;
}

// Starts a thread that hears one, if one can be made.
fn begin_hearing<Rt: Threads, T: HearingTask + 'static>(
    rt: &Rt,
    task: T,
) -> Option<JoinHandle<Option<FeedRequest>>> {
    thread::spawn(rt, move || task.hear()).ok()
}

impl HearingTask for FeedHearing {
    fn hear(self) -> Option<FeedRequest> {
        let FeedHearing {
            alloc,
            kind,
            is_over,
            place,
            stream,
        } = self;
        let heard = if kind == DisplayKind::Web {
            hear_browser(alloc, place, stream)
        } else {
            hear_display(place, stream)
        };
        is_over.store(true, Ordering::SeqCst);
        heard.unwrap_or(None)
    }
}

// One that is heard.
#[derive(Drop)]
struct Heard {
    thread: JoinHandle<Option<FeedRequest>>,
    is_over: Arc<AtomicBool>,
}

// The number of the entry that comes next for a browser that asks for this, if it names one.
fn last_of(start: Start) -> Option<u64>
    ensures { start_of result ≡ start }
{
    match start {
        Start::Entry(number) => Some(number),
        Start::Board => None,
    }
}

// Sets for how many milliseconds a read waits.
fn wait_for(stream: &TcpStream, pause: u64) -> Result<(), Failure> {
    let pause = Duration::from_millis(pause);
    match stream.set_read_timeout(Some(pause)) {
        Ok(()) => Ok(()),
        Err(_) => Err(Failure::Watch),
    }
}

// Sets how long a display is waited for, and gives what it is read from.
fn reader_of(stream: &TcpStream) -> Result<TcpStream, Failure> {
    let Ok(reader) = stream.try_clone() else {
        return Err(Failure::Watch);
    };
    wait_for(stream, PAUSE)?;
    let patience = Duration::from_millis(PATIENCE / MOST_REFUSALS);
    if stream.set_write_timeout(Some(patience)).is_err() {
        return Err(Failure::Watch);
    }
    Ok(reader)
}

// Sends a board that follows the journal, from the entry on that it has asked for. It is sent more as soon as a reply waits.
fn show_following<Rt: SystemClock + Wait>(
    rt: &Rt,
    alloc: Global,
    entries: &Entries<'_>,
    place: FollowerPlace<'_>,
    start: FollowerStart,
    stream: TcpStream,
) -> Result<Shown<TcpStream>, Failure>
    ensures { IfOk result (WasSentSome (arc_value entries.now.row.now) entries.now.reach []) }
{
    let mut reader = reader_of(&stream)?;
    let heard = reader_of(&stream)?;
    wait_for(&heard, ANSWERING)?;
    let mut board = FollowingBoard::new(rt, place, entries.reach, heard);
    let asked = DisplayRequest::Follow(start);
    let shown = follow_asked(alloc, entries, asked, &mut board, Sink::new(stream))?;
    drop(board);
    wait_for(&reader, PAUSE)?;
    part(&mut reader);
    Ok(shown)
}

// Sends a display the journal, as it asked by its first line, or behind the board's term. One that asked for no text of it
// is let go.
fn show_journal(
    alloc: Global,
    entries: &Entries<'_>,
    term: u64,
    asked: Option<DisplayRequest>,
    stream: TcpStream,
) -> Result<Shown<TcpStream>, Failure>
    ensures { IfOk result (WasSentSome (arc_value entries.now.row.now) entries.now.reach []) }
{
    let mut reader = reader_of(&stream)?;
    let asked = match asked {
        Some(asked) => asked,
        None => asked_with_term(alloc, term, &mut reader),
    };
    let shown = follow_asked(alloc, entries, asked, &mut reader, Sink::new(stream))?;
    part(&mut reader);
    Ok(shown)
}

// Hears what a display asks for by its first line. One that asked for nothing is let go.
fn hear_display(place: DisplayPlace, stream: TcpStream) -> Result<Option<FeedRequest>, Failure> {
    let mut reader = reader_of(&stream)?;
    let Some(start) = feed_start(first_asked(&mut reader)) else {
        return Ok(None);
    };
    Ok(Some(FeedRequest {
        start,
        place,
        reader,
        stream,
    }))
}

// Sends a display the feed, as it has asked.
fn show_changes(
    alloc: Global,
    entries: &Entries<'_>,
    start: Start,
    mut reader: TcpStream,
    stream: TcpStream,
) -> Result<Shown<TcpStream>, Failure>
    ensures { IfOk result (WasTold start (arc_value entries.now.row.now) entries.now.reach []) }
{
    let shown = follow_changes(alloc, entries, start, &mut reader, Sink::new(stream))?;
    part(&mut reader);
    Ok(shown)
}

// Sends a browser the events of the feed.
fn show_events(
    alloc: Global,
    entries: &Entries<'_>,
    last: Option<u64>,
    mut reader: TcpStream,
    stream: TcpStream,
) -> Result<Shown<TcpStream>, Failure>
    ensures { IfOk result (WasToldEvents last (arc_value entries.now.row.now) entries.now.reach []) }
{
    let shown = follow_events(alloc, entries, last, &mut reader, Sink::new(stream))?;
    part(&mut reader);
    Ok(shown)
}

// Answers a browser that asks for something else, at this date where it is known.
fn show_page(
    alloc: Global,
    request: BrowserRequest,
    date: Option<HttpDate>,
    mut reader: TcpStream,
    stream: TcpStream,
) -> Result<Sink<TcpStream>, Failure> {
    let mut writer = Sink::new(stream);
    answer(alloc, request, PAGE, date, &mut writer)?;
    part(&mut reader);
    Ok(writer)
}

// Answers a browser for which no place is left, and lets it go. It is read from once, so that what it sent does not
// cut off the answer.
fn refuse_browser(
    alloc: Global,
    date: Option<HttpDate>,
    stream: TcpStream,
) -> Result<Sink<TcpStream>, Failure> {
    let mut reader = reader_of(&stream)?;
    let busy = BrowserRequest {
        wanted: Wanted::Busy,
        is_head: false,
    };
    let mut writer = Sink::new(stream);
    answer(alloc, busy, PAGE, date, &mut writer)?;
    if reader.shutdown(Shutdown::Write).is_ok() {
        let _ = has_left(&mut reader);
    }
    Ok(writer)
}

// Hears what a browser asks for, and answers it where that is no event. One that asks for nothing in its time is let go.
fn hear_browser(
    alloc: Global,
    place: DisplayPlace,
    stream: TcpStream,
) -> Result<Option<FeedRequest>, Failure> {
    let mut reader = Source::new(reader_of(&stream)?);
    let limit = place.shared.limit(HEARING);
    let Some(request) = first_wanted(alloc, &mut reader, place.shared.name(), &limit) else {
        return Ok(None);
    };
    let reader = reader.into_inner();
    match request.wanted {
        Wanted::Events(last) if !request.is_head => Ok(Some(FeedRequest {
            start: start_of(last),
            place,
            reader,
            stream,
        })),
        _ => {
            let _writer = show_page(alloc, request, place.shared.date(), reader, stream)?;
            Ok(None)
        }
    }
}

// Tells a display that no more comes, and waits a little for it to leave. A connection that is
// closed before what the display sent was read is cut off, with what it was not handed yet.
fn part(stream: &mut TcpStream) {
    if stream.shutdown(Shutdown::Write).is_err() {
        return;
    }
    for _ in 0..PARTING_PAUSES {
        if has_left(stream) {
            return;
        }
    }
}

// How far entries are kept, once more.
fn copy_of(reach: Option<&Reach>) -> Result<Option<Reach>, AllocError> {
    match reach {
        Some(reach) => Ok(Some(reach.copy()?)),
        None => Ok(None),
    }
}

// The accepting of displays.
#[derive(Drop)]
struct Admission<K: Drop> {
    rt: K,
    alloc: Global,
    row: Arc<Row>,
    reach: Option<Reach>,
    kind: DisplayKind,
    // What other boards keep, where replies wait for that. Such a board is sent the entries on this thread, which has the
    // runtime by which it is woken; a thread that this one starts has none.
    confirmed: Option<Arc<Confirmed>>,
    term: BoardTerm,
    shared: Arc<Shared>,
    socket: TcpListener,
}

impl<K: SystemClock + Threads + Wait + Drop + Send> Task for Admission<K> {
    fn run(self) {
        match self.kind {
            DisplayKind::Journal => {
                self.admit();
                self.admit_last();
            }
            DisplayKind::Changes => self.share::<Changes>(),
            DisplayKind::Web => self.share::<Events>(),
        }
        self.shared.admitting.fetch_sub(1, Ordering::SeqCst);
    }
}

impl<K: SystemClock + Threads + Wait + Drop> Admission<K> {
    // Accepts displays until the last entry was made.
    fn admit(&self) {
        let begun = Instant::now(&self.rt).ok();
        for _ in 0..u64::MAX {
            self.tell_time(begun);
            if self.shared.closing.load(Ordering::SeqCst) {
                return;
            }
            if self.accept().is_err() {
                thread::sleep(&self.rt, Duration::from_millis(PAUSE));
            }
        }
    }

    // Tells the threads of displays the time, and how much of it has passed since this moment.
    fn tell_time(&self, begun: Option<Instant>) {
        self.shared.seconds.store(self.seconds(), Ordering::SeqCst);
        let (Some(begun), Ok(now)) = (begun, Instant::now(&self.rt)) else {
            return;
        };
        let passed = now.saturating_duration_since(begun).as_millis();
        if let Ok(passed) = u64::try_from(passed) {
            self.shared.passed.store(passed, Ordering::SeqCst);
        }
    }

    // The seconds since 1970-01-01T00:00:00Z; 0 where the clock can't be read.
    fn seconds(&self) -> u64 {
        let Ok(now) = SystemTime::now(&self.rt) else {
            return 0;
        };
        match now.duration_since(SystemTime::UNIX_EPOCH) {
            Ok(since) => since.as_secs(),
            Err(_) => 0,
        }
    }

    // Accepts the displays that have connected before.
    fn admit_last(&self) {
        for _ in 0..LAST_LOOKS {
            match self.accept() {
                Err(error) if error.kind() == ErrorKind::WouldBlock => return,
                _ => {}
            }
        }
    }

    // Accepts a display, if one waits.
    fn accept(&self) -> io::Result<()> {
        let (stream, _) = self.socket.accept()?;
        let _ = self.admit_one(stream);
        Ok(())
    }

    // Starts a thread for a display, where a place is left.
    fn admit_one(&self, stream: TcpStream) -> Result<(), Failure> {
        let Some(place) = DisplayPlace::take(&self.shared)? else {
            return Ok(());
        };
        match &self.confirmed {
            Some(confirmed) => self.hear_one(confirmed, place, stream),
            None => self.show(None, place, stream),
        }
    }

    // Hears what a display asks for, and sends the entries to it itself where it is a board that follows.
    fn hear_one(
        &self,
        confirmed: &Confirmed,
        place: DisplayPlace,
        stream: TcpStream,
    ) -> Result<(), Failure> {
        let mut reader = reader_of(&stream)?;
        let asked = asked_with_term(self.alloc, self.term.own(), &mut reader);
        let DisplayRequest::Follow(start) = asked else {
            return self.show(Some(asked), place, stream);
        };
        let Some(at) = confirmed.join(&self.rt) else {
            return self.show(Some(asked), place, stream);
        };
        let entries = Entries {
            row: &self.row,
            reach: self.reach.as_ref(),
            closing: &self.shared.closing,
        };
        let name = start.name;
        let own = FollowerPlace {
            confirmed,
            at,
            name,
        };
        let shown = show_following(&self.rt, self.alloc, &entries, own, start, stream);
        confirmed.leave(&self.rt, at);
        drop(place);
        let _shown = shown?;
        Ok(())
    }

    // Starts a thread for a display.
    fn show(
        &self,
        asked: Option<DisplayRequest>,
        place: DisplayPlace,
        stream: TcpStream,
    ) -> Result<(), Failure> {
        let showing = Showing {
            alloc: self.alloc,
            row: Arc::try_clone(&self.row)?,
            reach: copy_of(self.reach.as_ref())?,
            term: self.term.copy(self.alloc)?,
            asked,
            place,
            stream,
        };
        let _ = begin(&self.rt, showing);
        Ok(())
    }
}

impl<K: SystemClock + Threads + Wait + Drop> Admission<K> {
    // Accepts displays and sends all of them the same, until the last entry was made and they have left. Where memory is
    // refused, those are let go who were sent it.
    fn share<T: Sharing + Drop>(&self) {
        let begun = Instant::now(&self.rt).ok();
        for _ in 0..u64::MAX {
            if self.share_with::<T>(begun).is_ok() {
                return;
            }
        }
    }

    // Does so from now on.
    fn share_with<T: Sharing + Drop>(&self, begun: Option<Instant>) -> Result<(), Failure> {
        let entries = Entries {
            row: &self.row,
            reach: self.reach.as_ref(),
            closing: &self.shared.closing,
        };
        let mut heard = Vec::new(self.alloc);
        let mut viewers: FeedViewers<T> = nobody(self.alloc, &entries)?;
        let mut is_busy = false;
        for _ in 0..u64::MAX {
            self.tell_time(begun);
            let is_last = self.shared.closing.load(Ordering::SeqCst);
            let has_accepted = self.accept_some(&mut heard)?;
            let has_come = self.take_heard(&mut heard, &mut viewers, &entries)?;
            let has_more = tell_some(self.alloc, &mut viewers, &entries)?;
            // (who is told that no more comes has to be told all before)
            look_after(self.alloc, &mut viewers, !is_busy, is_last && !has_more)?;
            if is_last && !has_accepted && heard.is_empty() && viewers.list.is_empty() {
                return Ok(());
            }
            is_busy = has_accepted || has_come || has_more && is_any_ready(viewers.list.as_slice());
            if !is_busy {
                thread::sleep(&self.rt, Duration::from_millis(PAUSE));
            }
        }
        Ok(())
    }

    // Accepts some of the displays that have connected, and says whether there was one. One for which no place is left
    // is refused, and then no other is accepted at once.
    fn accept_some(&self, heard: &mut Vec<Heard>) -> Result<bool, Failure> {
        for at in 0..MOST_AT_ONCE {
            let Ok((stream, _)) = self.socket.accept() else {
                return Ok(at > 0);
            };
            let Some(place) = DisplayPlace::take(&self.shared)? else {
                if self.kind == DisplayKind::Web {
                    let _ = refuse_browser(self.alloc, self.shared.date(), stream);
                }
                return Ok(true);
            };
            self.begin_to_hear(heard, place, stream)?;
        }
        Ok(true)
    }

    // Has a thread hear a display.
    fn begin_to_hear(
        &self,
        heard: &mut Vec<Heard>,
        place: DisplayPlace,
        stream: TcpStream,
    ) -> Result<(), AllocError> {
        let is_over = Arc::new(self.alloc, AtomicBool::new(false))?;
        let hearing = FeedHearing {
            alloc: self.alloc,
            kind: self.kind,
            is_over: Arc::try_clone(&is_over)?,
            place,
            stream,
        };
        if let Some(thread) = begin_hearing(&self.rt, hearing) {
            heard.push(Heard { thread, is_over })?;
        }
        Ok(())
    }

    // Takes those in who were heard by now, and says whether there was one.
    fn take_heard<T: Sharing + Drop>(
        &self,
        heard: &mut Vec<Heard>,
        viewers: &mut FeedViewers<T>,
        entries: &Entries<'_>,
    ) -> Result<bool, Failure>
        requires row { arc_value entries.now.row.now ≡ viewers.old.seen.watch.row }
        requires within { IsWithin viewers.old.seen.extent viewers.old.seen.watch.seen }
        requires told { AreTold T.tells (T.begun T.head) (length viewers.old.seen.watch.row.cells)
            viewers.old.teller viewers.old.seen.watch.seen viewers.old.list.items }
        ensures row { OnOk result (viewers.new.seen.watch.row ≡ viewers.old.seen.watch.row) }
        ensures within { OnOk result (IsWithin viewers.new.seen.extent viewers.new.seen.watch.seen) }
        ensures told { OnOk result (AreTold T.tells (T.begun T.head) (length viewers.new.seen.watch.row.cells)
            viewers.new.teller viewers.new.seen.watch.seen viewers.new.list.items) }
    {
        let mut has_come = false;
        let mut left = mem::replace(heard, Vec::new(self.alloc));
        for _ in 0..left.len() {
            let Some(one) = left.pop() else {
                break;
            };
            if !one.is_over.load(Ordering::SeqCst) {
                heard.push(one)?;
                continue;
            }
            has_come = true;
            let Heard { thread, is_over: _ } = one;
            if let Some(asked) = thread.join(&self.rt) {
                self.take_request(asked, viewers, entries)?;
            }
        }
        Ok(has_come)
    }

    // Takes one in, or starts a thread for it where it asks for entries that others were sent before.
    fn take_request<T: Sharing + Drop>(
        &self,
        asked: FeedRequest,
        viewers: &mut FeedViewers<T>,
        entries: &Entries<'_>,
    ) -> Result<(), Failure>
        requires row { arc_value entries.now.row.now ≡ viewers.old.seen.watch.row }
        requires within { IsWithin viewers.old.seen.extent viewers.old.seen.watch.seen }
        requires told { AreTold T.tells (T.begun T.head) (length viewers.old.seen.watch.row.cells)
            viewers.old.teller viewers.old.seen.watch.seen viewers.old.list.items }
        ensures row { OnOk result (viewers.new.seen.watch.row ≡ viewers.old.seen.watch.row) }
        ensures within { OnOk result (IsWithin viewers.new.seen.extent viewers.new.seen.watch.seen) }
        ensures told { OnOk result (AreTold T.tells (T.begun T.head) (length viewers.new.seen.watch.row.cells)
            viewers.new.teller viewers.new.seen.watch.seen viewers.new.list.items) }
    {
        catch_up(viewers, entries)?;
        let Some(asked) = take_in(self.alloc, viewers, asked)? else {
            return Ok(());
        };
        let resuming = Resuming {
            alloc: self.alloc,
            row: Arc::try_clone(&self.row)?,
            reach: copy_of(self.reach.as_ref())?,
            kind: self.kind,
            asked,
        };
        let _ = begin(&self.rt, resuming);
        Ok(())
    }
}

/// Displays that are sent the entries of a row, by threads of their own.
#[derive(Drop)]
pub struct Displays {
    shared: Arc<Shared>,
}

impl Displays {
    /// Has each display that a listener accepts sent the entries of a row, from the first one on; where the row is
    /// kept, as far as it is.
    ///
    /// The system's error where the socket can't be used, one of the kind `OutOfMemory` where memory was refused.
    pub fn start<Rt: SystemClock + Threads + Wait + Clone + Drop + Send + 'static>(
        rt: &Rt,
        alloc: Global,
        listener: DisplayListener<'_>,
        row: &Arc<Row>,
        reach: Option<&Reach>,
    ) -> io::Result<Displays> {
        let DisplayListener {
            kind,
            socket,
            name,
            confirmed,
            term,
        } = listener;
        socket.set_nonblocking(true)?;
        let shared = Shared::new(alloc, name)?;
        // A board that follows takes the thread that has accepted it, so there is one more than may follow.
        let threads = if confirmed.is_some() && kind == DisplayKind::Journal {
            MOST_FOLLOWERS + 1
        } else {
            1
        };
        for _ in 0..threads {
            let admission = Admission {
                rt: rt.clone()?,
                alloc,
                row: Arc::try_clone(row)?,
                reach: copy_of(reach)?,
                kind,
                confirmed: match confirmed {
                    Some(confirmed) => Some(Arc::try_clone(confirmed)?),
                    None => None,
                },
                term: term.copy(alloc)?,
                shared: Arc::try_clone(&shared)?,
                socket: socket.try_clone()?,
            };
            // Nobody waits for its thread, which may send to a board that takes nothing.
            shared.admitting.fetch_add(1, Ordering::SeqCst);
            if begin(rt, admission).is_none() {
                return Err(io::Error::from(ErrorKind::OutOfMemory));
            }
        }
        Ok(Displays { shared })
    }

    /// Has displays sent what there is yet, those too that have connected by now, and lets them go.
    /// A display that has not taken it after 5 seconds is not waited for.
    pub fn close<Rt: SystemClock + Threads>(self, rt: &Rt) {
        let Displays { shared } = self;
        shared.closing.store(true, Ordering::SeqCst);
        for _ in 0..LAST_PAUSES {
            if shared.is_over() {
                return;
            }
            thread::sleep(rt, Duration::from_millis(PAUSE));
        }
    }
}
