//! Those who are sent the same text: what is told of an entry is made once for all of them.
ghost use Rattle.std.specs.Prelude.{◌≡◌, ◌≤◌, ◌++◌, [], IfErr, IfOk, OnOk, false, length, take};
ghost use Rattle.std.specs.Arc.{arc_value};
ghost use Rattle.acdm_displays.specs.Displayed.{Adds, CutsShort, IsNext};
ghost use Rattle.acdm_displays.specs.Viewing.{AreTold, Each, IsHanded};
ghost use Rattle.acdm_displays.specs.Within.{StaysWithin};

use crate::asked::Start;
use crate::entries::Seen;
use crate::following::BUFFER;
use crate::telling::{Sharing, Telling};
use acdm_failures::Failure;
use acdm_lines::{Sink, is_passing};
use acdm_row::Row;
use acdm_watch::Watch;
use std::alloc::{AllocError, Global};
use std::io::Write;
use std::marker::Model;
use std::mem;

/// How many bytes may wait for one who is slow, until it is let go.
const MOST_WAITING: usize = 8_388_608;

/// One who is sent what others are sent too.
pub(crate) struct Viewer<G: Drop, W: Write> {
    /// What else belongs to it.
    pub(crate) connection: G,
    start: Start,
    writer: Sink<W>,
    // The bytes that wait, behind so many that it took.
    waiting: Vec<u8>,
    taken: usize,
}

impl<G: Drop, W: Write + Drop> Drop for Viewer<G, W> {
    fn drop(self) {
        let Viewer {
            connection: _,
            start: _,
            writer: _,
            waiting: _,
            taken: _,
        } = self;
    }
}

impl<G: Drop, W: Write> Model for Viewer<G, W> {
    ghost use Rattle.std.specs.Prelude.{◌≤◌, vec_len};
    ghost use Rattle.acdm_displays.specs.Viewing.{ViewerView, behind};

    ghost Value = { ViewerView };

    ghost view = { λ v. record {
      start = v.start;
      log = v.writer.log;
      waiting = behind v.taken v.waiting.items;
      waits = v.writer.waits;
    } };

    ghost invariant = { λ v. v.taken ≤ vec_len v.waiting };
}

// Writes some of these bytes, as many as are taken at once, flushes them, and says how many.
fn write_some<W: Write>(writer: &mut Sink<W>, bytes: &[u8]) -> Result<usize, Failure>
    ensures taken { IfOk result (λ n. n ≤ length bytes.now) }
    ensures log { IfOk result (λ n. writer.new.log ≡ writer.old.log ++ take n bytes.now) }
    ensures flushed { OnOk result (writer.new.waits ≡ false) }
    ensures failed { IfErr result CutsShort }
{
    let taken = match writer.write(bytes) {
        Ok(taken) if taken > 0 || bytes.is_empty() => taken,
        Err(error) if is_passing(&error) => 0,
        _ => return Err(Failure::Save),
    };
    if writer.flush().is_err() {
        return Err(Failure::Save);
    }
    Ok(taken)
}

impl<G: Drop, W: Write + Drop> Viewer<G, W> {
    /// One who has asked for this, and whom nothing waits for.
    pub(crate) fn new(alloc: Global, connection: G, start: Start, writer: Sink<W>) -> Viewer<G, W>
        ensures start { result.start ≡ start }
        ensures log { result.log ≡ writer.log }
        ensures waiting { result.waiting ≡ [] }
    {
        Viewer {
            connection,
            start,
            writer,
            waiting: Vec::new(alloc),
            taken: 0,
        }
    }

    /// What it asked for.
    pub(crate) fn start(&self) -> Start
        ensures { result ≡ self.now.start }
    {
        self.start
    }

    /// How many bytes wait for it.
    pub(crate) fn waiting(&self) -> usize
        ensures { result ≡ length self.now.waiting }
    {
        self.waiting.len() - self.taken
    }

    /// Sends some of what waits for it. `Save` where its writer failed.
    pub(crate) fn send(&mut self) -> Result<(), Failure>
        ensures start { self.new.start ≡ self.old.start }
        ensures sent { OnOk result (self.new.log ++ self.new.waiting ≡ self.old.log ++ self.old.waiting) }
        ensures flushed { OnOk result (self.new.waits ≡ false) }
        ensures failed { IfErr result CutsShort }
    {
        let taken = write_some(&mut self.writer, &self.waiting.as_slice()[self.taken..])?;
        self.taken += taken;
        Ok(())
    }

    // Gives the room of the bytes back that it took.
    fn compact(&mut self) -> Result<(), AllocError>
        ensures start { self.new.start ≡ self.old.start }
        ensures log { self.new.log ≡ self.old.log }
        ensures waits { self.new.waits ≡ self.old.waits }
        ensures waiting { self.new.waiting ≡ self.old.waiting }
    {
        let mut waiting = Vec::new(*self.waiting.allocator());
        waiting.extend_from_slice(&self.waiting.as_slice()[self.taken..])?;
        self.waiting = waiting;
        self.taken = 0;
        Ok(())
    }

    // Has a text wait for it, behind what waits already.
    fn put_off(&mut self, text: &[u8]) -> Result<(), AllocError>
        ensures start { self.new.start ≡ self.old.start }
        ensures log { self.new.log ≡ self.old.log }
        ensures waits { self.new.waits ≡ self.old.waits }
        ensures waiting { OnOk result (self.new.waiting ≡ self.old.waiting ++ text.now) }
    {
        if self.taken > self.waiting.len() / 2 {
            self.compact()?;
        }
        self.waiting.extend_from_slice(text)
    }

    /// Sends it a text, behind what waits for it: what it does not take now waits. `Save` where its writer failed, or
    /// where too much would wait.
    pub(crate) fn hand(&mut self, text: &[u8]) -> Result<(), Failure>
        ensures start { self.new.start ≡ self.old.start }
        ensures handed { OnOk result (self.new.log ++ self.new.waiting
            ≡ (self.old.log ++ self.old.waiting) ++ text.now) }
        ensures flushed { OnOk result (self.new.waits ≡ false) }
        ensures failed { IfErr result CutsShort }
    {
        self.send()?;
        let mut taken = 0;
        if self.taken == self.waiting.len() {
            taken = write_some(&mut self.writer, text)?;
        }
        let rest = &text[taken..];
        if rest.is_empty() {
            return Ok(());
        }
        if rest.len() > MOST_WAITING || self.waiting() > MOST_WAITING {
            return Err(Failure::Save);
        }
        self.put_off(rest)?;
        Ok(())
    }
}

/// All who are sent the same, what was seen for them, and who tells it.
#[derive(Drop)]
pub(crate) struct Viewers<T: Sharing + Drop, G: Drop, W: Write + Drop> {
    pub(crate) seen: Seen,
    pub(crate) teller: T,
    pub(crate) list: Vec<Viewer<G, W>>,
}

// Adds the texts of the entries in sight, up to so many, until enough are gathered, and says whether they were.
fn add_some<T: Telling>(
    teller: &mut T,
    watch: &mut Watch,
    row: &Row,
    most: usize,
    text: &mut Vec<u8>,
) -> Result<bool, Failure>
    requires { row.now ≡ watch.old.row }
    ensures row { watch.new.row ≡ watch.old.row }
    ensures added { OnOk result (Adds T.tells teller.old teller.new watch.old.seen watch.new.seen
        text.old.items text.new.items) }
    ensures within { OnOk result (StaysWithin most watch.old.seen watch.new.seen) }
    ensures failed { IfErr result CutsShort }
{
    for _ in watch.len()..row.len() {
        if watch.len() >= most {
            return Ok(false);
        }
        if !teller.add_next(watch, row, text)? {
            return Ok(false);
        }
        if text.len() >= BUFFER {
            return Ok(true);
        }
    }
    Ok(false)
}

// Hands each a text, and lets those go whose writer failed.
fn hand_all<G: Drop, W: Write + Drop>(
    alloc: Global,
    list: Vec<Viewer<G, W>>,
    text: &[u8],
) -> Result<Vec<Viewer<G, W>>, AllocError>
    ensures { IfOk result (λ after. Each (IsHanded list.items text.now) after.items) }
{
    let mut kept = Vec::new(alloc);
    let mut left = list;
    for _ in 0..left.len() {
        let Some(mut viewer) = left.pop() else {
            break;
        };
        if viewer.hand(text).is_err() {
            continue;
        }
        kept.push(viewer)?;
    }
    Ok(kept)
}

impl<T: Sharing + Drop, G: Drop, W: Write + Drop> Viewers<T, G, W> {
    /// Tells all of them entries that are in sight, up to so many, and says whether there may be more. Those who fail
    /// are let go. Where this fails, what they were sent is not known.
    pub(crate) fn tell(&mut self, alloc: Global, row: &Row, most: usize) -> Result<bool, Failure>
        requires row { row.now ≡ self.old.seen.watch.row }
        requires told { AreTold T.tells (T.begun T.head)
            (length self.old.seen.watch.row.cells) self.old.teller
            self.old.seen.watch.seen self.old.list.items }
        ensures row { self.new.seen.watch.row ≡ self.old.seen.watch.row }
        ensures extent { self.new.seen.extent ≡ self.old.seen.extent }
        ensures told { OnOk result (AreTold T.tells (T.begun T.head)
            (length self.new.seen.watch.row.cells) self.new.teller
            self.new.seen.watch.seen self.new.list.items) }
        ensures within { OnOk result (StaysWithin most self.old.seen.watch.seen self.new.seen.watch.seen) }
        ensures failed { IfErr result CutsShort }
    {
        let mut text = Vec::new(alloc);
        let more = add_some(&mut self.teller, &mut self.seen.watch, row, most, &mut text)?;
        let list = mem::replace(&mut self.list, Vec::new(alloc));
        self.list = hand_all(alloc, list, text.as_slice())?;
        Ok(more)
    }

    /// Passes over the entries that are in sight, up to so many, while nobody is sent them.
    pub(crate) fn pass(&mut self, row: &Row, most: usize) -> Result<(), Failure>
        requires row { row.now ≡ self.old.seen.watch.row }
        requires told { AreTold T.tells (T.begun T.head)
            (length self.old.seen.watch.row.cells) self.old.teller
            self.old.seen.watch.seen self.old.list.items }
        requires empty { self.old.list.items ≡ [] }
        ensures row { self.new.seen.watch.row ≡ self.old.seen.watch.row }
        ensures extent { self.new.seen.extent ≡ self.old.seen.extent }
        ensures told { OnOk result (AreTold T.tells (T.begun T.head)
            (length self.new.seen.watch.row.cells) self.new.teller
            self.new.seen.watch.seen self.new.list.items) }
        ensures within { OnOk result (StaysWithin most self.old.seen.watch.seen self.new.seen.watch.seen) }
        ensures failed { IfErr result CutsShort }
    {
        self.teller.pass(&mut self.seen.watch, row, most)
    }

    /// One more is sent the same from now on: first what it asked for. It asks for no entry that was seen.
    pub(crate) fn join(&mut self, alloc: Global, viewer: Viewer<G, W>) -> Result<(), Failure>
        requires told { AreTold T.tells (T.begun T.head)
            (length self.old.seen.watch.row.cells) self.old.teller
            self.old.seen.watch.seen self.old.list.items }
        requires next { IsNext viewer.start (length self.old.seen.watch.seen) }
        requires log { viewer.log ≡ [] }
        requires waiting { viewer.waiting ≡ [] }
        ensures seen { self.new.seen ≡ self.old.seen }
        ensures told { OnOk result (AreTold T.tells (T.begun T.head)
            (length self.new.seen.watch.row.cells) self.new.teller
            self.new.seen.watch.seen self.new.list.items) }
        ensures failed { IfErr result CutsShort }
    {
        let mut viewer = viewer;
        let mut head = Vec::new(alloc);
        self.teller.add_head(&mut head)?;
        viewer.hand(head.as_slice())?;
        let mut text = Vec::new(alloc);
        self.teller
            .begin(&self.seen.watch, viewer.start(), &mut text)?;
        viewer.hand(text.as_slice())?;
        self.list.push(viewer)?;
        Ok(())
    }
}
