//! The thread that tells all displays of a kind the same.
ghost use Rattle.std.specs.Prelude.{◌≡◌, ◌++◌, List, [], false, true, IfErr, IfOk, OnOk, length};
ghost use Rattle.std.specs.Arc.{arc_value};
ghost use Rattle.acdm_displays.specs.Displayed.{CutsShort, IsNext};
ghost use Rattle.acdm_displays.specs.Viewing.{AreTold, Each, IsHanded};
ghost use Rattle.acdm_displays.specs.Within.{IsWithin};

use crate::asked::Start;
use crate::entries::{Entries, most_shown, seen_of};
use crate::leaving::has_left;
use crate::places::DisplayPlace;
use crate::telling::Sharing;
use crate::viewers::{Viewer, Viewers};
use acdm_failures::Failure;
use acdm_lines::Sink;
use std::alloc::{AllocError, Global};
use std::mem;
use std::net::{Shutdown, TcpStream};

/// How many rounds without anything to do one is waited for who takes nothing of what it is sent: 30 seconds.
const PATIENCE: u64 = 1_200;

/// And one who was sent all, until it leaves: a second.
const PARTING: u64 = 40;

/// One who has asked for the feed, and was sent nothing yet.
#[derive(Drop)]
pub(crate) struct FeedRequest {
    pub(crate) start: Start,
    pub(crate) place: DisplayPlace,
    pub(crate) reader: TcpStream,
    pub(crate) stream: TcpStream,
}

/// What belongs to one who is sent the feed: its place, what it is read from, for how many rounds it is waited for yet,
/// whether it has left, and whether it was told that no more comes.
#[derive(Drop)]
pub(crate) struct ViewerConnection {
    place: DisplayPlace,
    reader: TcpStream,
    rounds: u64,
    has_left: bool,
    is_parting: bool,
}

/// Those of a kind who are sent the same.
pub(crate) type FeedViewers<T> = Viewers<T, ViewerConnection, TcpStream>;

// Whether no entry of so many is asked for.
fn is_next(start: Start, count: usize) -> bool
    ensures { result ≡ true → IsNext start count }
{
    match start {
        Start::Entry(number) => count as u64 <= number,
        Start::Board => true,
    }
}

/// Nobody is sent anything yet.
pub(crate) fn nobody<T: Sharing + Drop>(
    alloc: Global,
    entries: &Entries<'_>,
) -> Result<FeedViewers<T>, AllocError>
    ensures told { IfOk result (λ a. AreTold T.tells (T.begun T.head)
        (length a.seen.watch.row.cells) a.teller
        a.seen.watch.seen a.list.items) }
    ensures row { IfOk result (λ a. a.seen.watch.row ≡ arc_value entries.now.row.now) }
    ensures within { IfOk result (λ a. IsWithin a.seen.extent a.seen.watch.seen) }
{
    let seen = seen_of(alloc, entries)?;
    Ok(Viewers {
        seen,
        teller: T::new(alloc, entries.row.len() as u64),
        list: Vec::new(alloc),
    })
}

/// Takes one in who has asked, or gives it back where it asks for entries that were told before.
pub(crate) fn take_in<T: Sharing + Drop>(
    alloc: Global,
    viewers: &mut FeedViewers<T>,
    asked: FeedRequest,
) -> Result<Option<FeedRequest>, Failure>
    requires told { AreTold T.tells (T.begun T.head)
        (length viewers.old.seen.watch.row.cells) viewers.old.teller
        viewers.old.seen.watch.seen viewers.old.list.items }
    ensures seen { viewers.new.seen ≡ viewers.old.seen }
    ensures told { OnOk result (AreTold T.tells (T.begun T.head)
        (length viewers.new.seen.watch.row.cells) viewers.new.teller
        viewers.new.seen.watch.seen viewers.new.list.items) }
    ensures failed { IfErr result CutsShort }
{
    if !is_next(asked.start, viewers.seen.watch.len())
        || asked.stream.set_nonblocking(true).is_err()
    {
        return Ok(Some(asked));
    }
    let FeedRequest {
        start,
        place,
        reader,
        stream,
    } = asked;
    let connection = ViewerConnection {
        place,
        reader,
        rounds: PATIENCE,
        has_left: false,
        is_parting: false,
    };
    viewers.join(
        alloc,
        Viewer::new(alloc, connection, start, Sink::new(stream)),
    )?;
    Ok(None)
}

// Looks after one in a round: sends what waits for it, and says whether it stays. One who has left, and one who was
// told all, where no more comes, is told so, once it has taken what waits.
fn stays(viewer: &mut Viewer<ViewerConnection, TcpStream>, is_idle: bool, is_last: bool) -> bool
    ensures start { viewer.new.start ≡ viewer.old.start }
    ensures sent { result ≡ true → viewer.new.log ++ viewer.new.waiting ≡ viewer.old.log ++ viewer.old.waiting }
    ensures flushed { result ≡ true → viewer.new.waits ≡ false }
{
    let before = viewer.waiting();
    if viewer.send().is_err() {
        return false;
    }
    let connection = &mut viewer.connection;
    connection.has_left = connection.has_left || has_left(&mut connection.reader);
    let waiting = viewer.waiting();
    let connection = &mut viewer.connection;
    if waiting < before || waiting == 0 && !connection.is_parting {
        connection.rounds = PATIENCE;
    } else if is_idle {
        connection.rounds = connection.rounds.saturating_sub(1);
    }
    if waiting == 0 && !connection.is_parting && (is_last || connection.has_left) {
        connection.is_parting = true;
        connection.rounds = PARTING;
        if connection.reader.shutdown(Shutdown::Write).is_err() {
            return false;
        }
    }
    connection.rounds > 0 && !(connection.is_parting && connection.has_left)
}

// Looks after each in a round, and lets those go who do not stay.
fn those_who_stay(
    alloc: Global,
    list: Vec<Viewer<ViewerConnection, TcpStream>>,
    is_idle: bool,
    is_last: bool,
) -> Result<Vec<Viewer<ViewerConnection, TcpStream>>, AllocError>
    ensures { IfOk result (λ after. Each (IsHanded list.items []) after.items) }
{
    let mut kept = Vec::new(alloc);
    let mut left = list;
    for _ in 0..left.len() {
        let Some(mut viewer) = left.pop() else {
            break;
        };
        if !stays(&mut viewer, is_idle, is_last) {
            continue;
        }
        kept.push(viewer)?;
    }
    Ok(kept)
}

/// Looks after all in a round.
pub(crate) fn look_after<T: Sharing + Drop>(
    alloc: Global,
    viewers: &mut FeedViewers<T>,
    is_idle: bool,
    is_last: bool,
) -> Result<(), Failure>
    requires told { AreTold T.tells (T.begun T.head)
        (length viewers.old.seen.watch.row.cells) viewers.old.teller
        viewers.old.seen.watch.seen viewers.old.list.items }
    ensures seen { viewers.new.seen ≡ viewers.old.seen }
    ensures told { OnOk result (AreTold T.tells (T.begun T.head)
        (length viewers.new.seen.watch.row.cells) viewers.new.teller
        viewers.new.seen.watch.seen viewers.new.list.items) }
    ensures failed { IfErr result CutsShort }
{
    let list = mem::replace(&mut viewers.list, Vec::new(alloc));
    viewers.list = those_who_stay(alloc, list, is_idle, is_last)?;
    Ok(())
}

/// Whether one of them may take more at once.
pub(crate) fn is_any_ready(list: &[Viewer<ViewerConnection, TcpStream>]) -> bool {
    for viewer in list {
        if viewer.waiting() == 0 {
            return true;
        }
    }
    false
}

/// Passes over the entries that are in sight, as far as these are kept by now, where nobody is sent them.
pub(crate) fn catch_up<T: Sharing + Drop>(
    viewers: &mut FeedViewers<T>,
    entries: &Entries<'_>,
) -> Result<(), Failure>
    requires row { arc_value entries.now.row.now ≡ viewers.old.seen.watch.row }
    requires within { IsWithin viewers.old.seen.extent viewers.old.seen.watch.seen }
    requires told { AreTold T.tells (T.begun T.head)
        (length viewers.old.seen.watch.row.cells) viewers.old.teller
        viewers.old.seen.watch.seen viewers.old.list.items }
    ensures row { viewers.new.seen.watch.row ≡ viewers.old.seen.watch.row }
    ensures within { OnOk result (IsWithin viewers.new.seen.extent viewers.new.seen.watch.seen) }
    ensures told { OnOk result (AreTold T.tells (T.begun T.head)
        (length viewers.new.seen.watch.row.cells) viewers.new.teller
        viewers.new.seen.watch.seen viewers.new.list.items) }
    ensures failed { IfErr result CutsShort }
{
    if !viewers.list.is_empty() {
        return Ok(());
    }
    let extent = entries.later(viewers.seen.extent);
    viewers.seen.extent = extent;
    viewers.pass(entries.row, most_shown(extent))
}

/// Tells all of them some of the entries that are in sight, as far as these are kept by now, and says whether there may be
/// more for now. Where there is nobody, and where each has bytes that wait, nothing is told.
pub(crate) fn tell_some<T: Sharing + Drop>(
    alloc: Global,
    viewers: &mut FeedViewers<T>,
    entries: &Entries<'_>,
) -> Result<bool, Failure>
    requires row { arc_value entries.now.row.now ≡ viewers.old.seen.watch.row }
    requires within { IsWithin viewers.old.seen.extent viewers.old.seen.watch.seen }
    requires told { AreTold T.tells (T.begun T.head)
        (length viewers.old.seen.watch.row.cells) viewers.old.teller
        viewers.old.seen.watch.seen viewers.old.list.items }
    ensures row { viewers.new.seen.watch.row ≡ viewers.old.seen.watch.row }
    ensures within { OnOk result (IsWithin viewers.new.seen.extent viewers.new.seen.watch.seen) }
    ensures told { OnOk result (AreTold T.tells (T.begun T.head)
        (length viewers.new.seen.watch.row.cells) viewers.new.teller
        viewers.new.seen.watch.seen viewers.new.list.items) }
    ensures failed { IfErr result CutsShort }
{
    if !is_any_ready(viewers.list.as_slice()) {
        return Ok(!viewers.list.is_empty());
    }
    let extent = entries.later(viewers.seen.extent);
    viewers.seen.extent = extent;
    viewers.tell(alloc, entries.row, most_shown(extent))
}
