//! The places where partners connect, and what the threads share of them.
use crate::counts::{LineOutcome, SessionCounts};
use crate::held_place::{Arrived, HeldPlace, ServedPartner};
use crate::times::{LONGEST_READ, PATIENCE, PAUSE};
use acdm_place::Event;
use std::alloc::{AllocError, Global};
use std::net::TcpStream;
use std::sync::atomic::{AtomicBool, Ordering};
use std::sync::{Arc, Mutex, Wait};
use std::time::Duration;

/// How partners are served at their places.
#[derive(Clone, Copy, Debug, PartialEq, Eq)]
pub struct Terms {
    /// Whether a session goes on with the next connection when one has ended.
    pub again: bool,
    /// How many lines of a session are taken in a minute at most, if that is bounded.
    pub pace: Option<u32>,
}

/// Where the partner of one session connects. Each thread takes its lock, has one event happen, and does what it is
/// told. Where the board closes that happens before.
pub struct PartnerPlace {
    closing: Arc<AtomicBool>,
    pub(crate) terms: Terms,
    held: Mutex<HeldPlace>,
    // What came of the lines of its session, whoever was here.
    counts: Mutex<SessionCounts>,
}

impl Drop for PartnerPlace {
    fn drop(self) {
        let PartnerPlace {
            closing: _,
            terms: _,
            held: _,
            counts: _,
        } = self;
    }
}

impl PartnerPlace {
    /// A place where nobody has connected. The word tells once the board closes.
    pub fn new(
        alloc: Global,
        terms: Terms,
        closing: &Arc<AtomicBool>,
    ) -> Result<Arc<PartnerPlace>, AllocError> {
        let place = PartnerPlace {
            closing: Arc::try_clone(closing)?,
            terms,
            held: Mutex::new(HeldPlace::new(terms.again)),
            counts: Mutex::new(SessionCounts::new(alloc)?),
        };
        Ok(Arc::new(alloc, place)?)
    }

    /// Whether the board closes.
    pub(crate) fn is_closing(&self) -> bool {
        self.closing.load(Ordering::SeqCst)
    }

    // Has the board close there, where the word says so.
    fn hear(&self, held: &mut HeldPlace) {
        if self.is_closing() && !held.place().is_closing() {
            held.close();
        }
    }

    /// Whether its session is to end, or has.
    pub(crate) fn is_over<Rt: Wait>(&self, rt: &Rt) -> bool {
        let mut held = self.held.lock(rt);
        self.hear(&mut held);
        held.place().is_over()
    }

    /// Whether no further byte is to be read of the connection of this number: a newer one is there, or the
    /// board closes.
    pub(crate) fn is_past<Rt: Wait>(&self, rt: &Rt, number: u64) -> bool {
        let mut held = self.held.lock(rt);
        self.hear(&mut held);
        held.place().is_past(number)
    }

    /// Whether the connection of this number is served, or its lines are heard.
    pub(crate) fn is_here<Rt: Wait>(&self, rt: &Rt, number: u64) -> bool {
        let mut held = self.held.lock(rt);
        self.hear(&mut held);
        held.place().is_here(number)
    }

    /// Sets for how long a connection is waited for. Says whether it could be set.
    pub(crate) fn prepare(&self, stream: &TcpStream) -> bool {
        // Where replies can't go at once they go later.
        let _ = stream.set_nodelay(true);
        let read = Some(Duration::from_millis(LONGEST_READ));
        let write = Some(Duration::from_millis(PATIENCE));
        stream.set_nonblocking(false).is_ok()
            && stream.set_read_timeout(read).is_ok()
            && stream.set_write_timeout(write).is_ok()
    }

    /// The first line of a connection is there, and may be a command: it takes the place of the one that is here. Says
    /// whether it does; it is closed else.
    pub(crate) fn arrive<Rt: Wait>(&self, rt: &Rt, newcomer: ServedPartner) -> bool {
        let mut held = self.held.lock(rt);
        self.hear(&mut held);
        held.arrive(newcomer)
    }

    /// The first line of the connection of this number is none that may be a command. Says whether it is refused.
    pub(crate) fn refuses<Rt: Wait>(&self, rt: &Rt, number: u64, is_whole: bool) -> bool {
        let mut held = self.held.lock(rt);
        self.hear(&mut held);
        let actions = held.step(Event::FirstLine(number, is_whole, false));
        actions.refuse.is_some()
    }

    /// Its session comes for the next connection: its number, and itself, if there is one.
    pub(crate) fn next<Rt: Wait>(&self, rt: &Rt) -> Option<(u64, Arrived)> {
        let mut held = self.held.lock(rt);
        self.hear(&mut held);
        held.next()
    }

    /// Whether its session may take a whole line of the connection of this number.
    pub(crate) fn admits<Rt: Wait>(&self, rt: &Rt, number: u64) -> bool {
        let mut held = self.held.lock(rt);
        self.hear(&mut held);
        held.step(Event::LineTaken(number)).admits
    }

    /// All replies to the line that its session took last were written, or dropped.
    pub(crate) fn answered<Rt: Wait>(&self, rt: &Rt) {
        let mut held = self.held.lock(rt);
        self.hear(&mut held);
        let _ = held.step(Event::LineAnswered);
    }

    /// Its session has a reply: the number of the connection that it goes to, and what it goes to there, where that was
    /// not asked for before. `None` where it goes nowhere.
    pub(crate) fn reply<Rt: Wait>(&self, rt: &Rt) -> Option<(u64, Option<TcpStream>)> {
        let mut held = self.held.lock(rt);
        self.hear(&mut held);
        held.reply()
    }

    /// The connection of this number takes no reply any more.
    pub(crate) fn fail<Rt: Wait>(&self, rt: &Rt, number: u64) {
        let mut held = self.held.lock(rt);
        self.hear(&mut held);
        let _ = held.step(Event::WriteFailed(number));
    }

    /// The board closes, where the word says so.
    pub(crate) fn close<Rt: Wait>(&self, rt: &Rt) {
        let mut held = self.held.lock(rt);
        self.hear(&mut held);
    }

    /// A pause has passed. Where the board closes, who has not taken its last reply after 5 seconds is cut off.
    pub(crate) fn wait<Rt: Wait>(&self, rt: &Rt) {
        let mut held = self.held.lock(rt);
        self.hear(&mut held);
        let _ = held.step(Event::Tick(PAUSE));
    }

    /// Its session has ended: nobody is served here any more.
    pub fn finish<Rt: Wait>(&self, rt: &Rt) {
        let mut held = self.held.lock(rt);
        self.hear(&mut held);
        let _ = held.step(Event::SessionEnded);
    }

    /// Counts a line of its session, of which this came.
    pub fn count<Rt: Wait>(&self, rt: &Rt, outcome: LineOutcome, line: &[u8]) {
        self.counts.lock(rt).count(outcome, line);
    }

    /// How many lines of its session were bad so far.
    pub(crate) fn bad_lines<Rt: Wait>(&self, rt: &Rt) -> u64 {
        self.counts.lock(rt).bad_lines()
    }

    /// Adds what is told of the lines of its session.
    pub(crate) fn add_counts<Rt: Wait>(
        &self,
        rt: &Rt,
        text: &mut String,
    ) -> Result<(), AllocError> {
        self.counts.lock(rt).add_text(text)
    }

    /// Adds the code and the first bytes of its last bad line, as two members of an object of JSON.
    pub(crate) fn add_bad<Rt: Wait>(&self, rt: &Rt, text: &mut String) -> Result<(), AllocError> {
        self.counts.lock(rt).add_bad(text)
    }
}
