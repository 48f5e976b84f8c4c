//! What is told of partners and of the journal, and when: on standard error, and in the log of an operator.
use crate::control::Followers;
use crate::counts::add_json;
use crate::line_queue::LineQueue;
use crate::places::PartnerPlace;
use crate::stamp::now_text;
use crate::stopwatch::Stopwatch;
use std::alloc::{AllocError, Global};
use std::io;
use std::net::SocketAddr;
use std::sync::Wait;
use std::time::Clock;

/// A session of which something is told: its number, from 1, and its role; and whether who comes and leaves there is
/// told on standard error too.
#[derive(Clone, Copy)]
pub(crate) struct SessionName {
    pub(crate) number: usize,
    pub(crate) role: &'static str,
    pub(crate) is_spoken: bool,
}

/// Tells who comes and leaves and how full the journal is, each in a line with its moment: on standard error, and in the
/// log of an operator, if there is one.
pub struct Reporter<K: Drop> {
    pub(crate) rt: K,
    pub(crate) alloc: Global,
    errors: LineQueue,
    log: Option<LineQueue>,
    // Whether it was told that the log can't be written.
    is_log_failed: bool,
    stopwatch: Stopwatch,
}

impl<K: Drop> Drop for Reporter<K> {
    fn drop(self) {
        let Reporter {
            rt: _,
            alloc: _,
            errors: _,
            log: _,
            is_log_failed: _,
            stopwatch: _,
        } = self;
    }
}

impl<K: Wait + Clock + Drop> Reporter<K> {
    /// One that hands its lines to these queues: that of standard error, and that of the log, if there is one.
    pub fn new(rt: K, alloc: Global, errors: LineQueue, log: Option<LineQueue>) -> Reporter<K> {
        let stopwatch = Stopwatch::begin(&rt);
        Reporter {
            rt,
            alloc,
            errors,
            log,
            is_log_failed: false,
            stopwatch,
        }
    }

    /// One for another thread of the board, with this runtime, that hands its lines to the same queues. Whether the log can
    /// be written is told by this one, which is the one that ends. `Err` only where memory was refused.
    pub fn beside(&self, rt: K) -> Result<Reporter<K>, AllocError> {
        let errors = self.errors.copy()?;
        let log = match &self.log {
            Some(log) => Some(log.copy()?),
            None => None,
        };
        Ok(Reporter::new(rt, self.alloc, errors, log))
    }

    /// The milliseconds since it was made, where the clock tells time.
    pub(crate) fn passed(&self) -> Option<u64> {
        self.stopwatch.passed(&self.rt)
    }

    /// Whether there is a log.
    pub(crate) fn has_log(&self) -> bool {
        self.log.is_some()
    }

    // Hands a line on to standard error, where there was memory for it.
    fn tell(&self, line: Result<String, AllocError>) {
        if let Ok(line) = line {
            self.errors.tell(&self.rt, line.as_str());
        }
    }

    // Hands a line on to the log, if there is one, where there was memory for it.
    fn log(&self, line: Result<String, AllocError>) {
        if let (Some(log), Ok(line)) = (&self.log, line) {
            log.tell(&self.rt, line.as_str());
        }
    }

    // The line of the log that is begun, up to its members: an object of JSON with the moment and what happened.
    fn begin(&self, event: &str) -> Result<String, AllocError> {
        let moment = now_text(&self.rt, self.alloc)?;
        let mut line = String::new(self.alloc);
        write!(line, "{{\"at\":\"{moment}\",\"event\":\"{event}\"")?;
        Ok(line)
    }

    // The same of a session.
    fn begin_of(&self, event: &str, session: SessionName) -> Result<String, AllocError> {
        let SessionName { number, role, .. } = session;
        let mut line = self.begin(event)?;
        write!(line, ",\"session\":{number},\"role\":\"{role}\"")?;
        Ok(line)
    }

    /// Tells that the partner of a session is here: `here K ADDR MOMENT`.
    pub(crate) fn tell_here(&self, session: SessionName, address: SocketAddr) {
        if session.is_spoken {
            self.tell(self.here_line(session.number, address));
        }
        self.log(self.here_event(session, address));
    }

    fn here_line(&self, session: usize, address: SocketAddr) -> Result<String, AllocError> {
        let moment = now_text(&self.rt, self.alloc)?;
        let mut line = String::new(self.alloc);
        writeln!(line, "here {session} {address} {moment}")?;
        Ok(line)
    }

    fn here_event(&self, session: SessionName, address: SocketAddr) -> Result<String, AllocError> {
        let mut line = self.begin_of("here", session)?;
        writeln!(line, ",\"address\":\"{address}\"}}")?;
        Ok(line)
    }

    /// Tells that the partner of a session has left: `gone K MOMENT`.
    pub(crate) fn tell_gone(&self, session: SessionName) {
        if session.is_spoken {
            self.tell(self.gone_line(session.number));
        }
        self.log(self.gone_event(session));
    }

    fn gone_line(&self, session: usize) -> Result<String, AllocError> {
        let moment = now_text(&self.rt, self.alloc)?;
        let mut line = String::new(self.alloc);
        writeln!(line, "gone {session} {moment}")?;
        Ok(line)
    }

    fn gone_event(&self, session: SessionName) -> Result<String, AllocError> {
        let mut line = self.begin_of("gone", session)?;
        line.push_str("}\n")?;
        Ok(line)
    }

    /// Tells that so many came and left at a session of whom nothing was told: `.. N connections of K not told`.
    pub(crate) fn tell_untold(&self, session: SessionName, count: u64) {
        if session.is_spoken {
            self.tell(self.untold_line(session.number, count));
        }
        self.log(self.untold_event(session, count));
    }

    fn untold_line(&self, session: usize, count: u64) -> Result<String, AllocError> {
        let mut line = String::new(self.alloc);
        writeln!(line, ".. {count} connections of {session} not told")?;
        Ok(line)
    }

    fn untold_event(&self, session: SessionName, count: u64) -> Result<String, AllocError> {
        let mut line = self.begin_of("untold", session)?;
        writeln!(line, ",\"connections\":{count}}}")?;
        Ok(line)
    }

    /// Logs that so many lines of a session were bad since that was logged, and the last of them.
    pub(crate) fn log_bad(&self, session: SessionName, lines: u64, place: &PartnerPlace) {
        self.log(self.bad_event(session, lines, place));
    }

    fn bad_event(
        &self,
        session: SessionName,
        lines: u64,
        place: &PartnerPlace,
    ) -> Result<String, AllocError> {
        let mut line = self.begin_of("bad", session)?;
        write!(line, ",\"lines\":{lines},")?;
        place.add_bad(&self.rt, &mut line)?;
        line.push_str("}\n")?;
        Ok(line)
    }

    /// Tells that so much of the room is used: `room PERCENT ENTRIES of ROOM MOMENT`.
    pub(crate) fn tell_room(&self, percent: usize, used: usize, room: usize) {
        self.tell(self.room_line(percent, used, room));
        self.log(self.room_event(percent, used, room));
    }

    fn room_line(&self, percent: usize, used: usize, room: usize) -> Result<String, AllocError> {
        let moment = now_text(&self.rt, self.alloc)?;
        let mut line = String::new(self.alloc);
        writeln!(line, "room {percent} {used} of {room} {moment}")?;
        Ok(line)
    }

    fn room_event(&self, percent: usize, used: usize, room: usize) -> Result<String, AllocError> {
        let mut line = self.begin("room")?;
        writeln!(
            line,
            ",\"percent\":{percent},\"entries\":{used},\"room\":{room}}}"
        )?;
        Ok(line)
    }

    /// Tells that a board is followed from the entry of this number on: `following ADDR NEXT MOMENT`.
    pub fn tell_following(&self, address: &str, next: u64) {
        self.tell(self.following_line(address, next));
        self.log(self.following_event(address, next));
    }

    fn following_line(&self, address: &str, next: u64) -> Result<String, AllocError> {
        let moment = now_text(&self.rt, self.alloc)?;
        let mut line = String::new(self.alloc);
        writeln!(line, "following {address} {next} {moment}")?;
        Ok(line)
    }

    fn following_event(&self, address: &str, next: u64) -> Result<String, AllocError> {
        let mut line = self.begin("following")?;
        line.push_str(",\"address\":")?;
        add_json(&mut line, address.as_bytes())?;
        writeln!(line, ",\"next\":{next}}}")?;
        Ok(line)
    }

    /// Tells that a board that is followed was parted from, or could not be reached, and why: `parted WHY MOMENT`.
    pub fn tell_parted(&self, why: &str) {
        self.tell_why("parted", why);
    }

    /// Tells that the peer of this board could not be asked for its term, and why: `unreached WHY MOMENT`.
    pub fn tell_unreached(&self, why: &str) {
        self.tell_why("unreached", why);
    }

    // Tells that this happened, and why: `WORD WHY MOMENT`.
    fn tell_why(&self, word: &str, why: &str) {
        self.tell(self.why_line(word, why));
        self.log(self.why_event(word, why));
    }

    fn why_line(&self, word: &str, why: &str) -> Result<String, AllocError> {
        let moment = now_text(&self.rt, self.alloc)?;
        let mut line = String::new(self.alloc);
        writeln!(line, "{word} {why} {moment}")?;
        Ok(line)
    }

    fn why_event(&self, word: &str, why: &str) -> Result<String, AllocError> {
        let mut line = self.begin(word)?;
        line.push_str(",\"why\":")?;
        add_json(&mut line, why.as_bytes())?;
        line.push_str("}\n")?;
        Ok(line)
    }

    /// Tells that no board is followed any more, and that this one serves from then on, with so many entries: `promoted
    /// ENTRIES MOMENT`.
    pub(crate) fn tell_promoted(&self, used: usize) {
        self.tell(self.promoted_line(used));
        self.log(self.promoted_event(used));
    }

    fn promoted_line(&self, used: usize) -> Result<String, AllocError> {
        let moment = now_text(&self.rt, self.alloc)?;
        let mut line = String::new(self.alloc);
        writeln!(line, "promoted {used} {moment}")?;
        Ok(line)
    }

    fn promoted_event(&self, used: usize) -> Result<String, AllocError> {
        let mut line = self.begin("promoted")?;
        writeln!(line, ",\"entries\":{used}}}")?;
        Ok(line)
    }

    /// Tells that another board, which has this term, has taken over from this one: `replaced TERM MOMENT`.
    pub(crate) fn tell_replaced(&self, term: u64) {
        self.tell(self.replaced_line(term));
        self.log(self.replaced_event(term));
    }

    fn replaced_line(&self, term: u64) -> Result<String, AllocError> {
        let moment = now_text(&self.rt, self.alloc)?;
        let mut line = String::new(self.alloc);
        writeln!(line, "replaced {term} {moment}")?;
        Ok(line)
    }

    fn replaced_event(&self, term: u64) -> Result<String, AllocError> {
        let mut line = self.begin("replaced")?;
        writeln!(line, ",\"term\":{term}}}")?;
        Ok(line)
    }

    /// Tells that boards which follow are late, or that they are not any more: `late COUNT of WANTED MOMENT`, `back COUNT
    /// of WANTED MOMENT`.
    pub(crate) fn tell_followers(&self, followers: Followers) {
        self.tell(self.followers_line(followers));
        self.log(self.followers_event(followers));
    }

    fn followers_line(&self, followers: Followers) -> Result<String, AllocError> {
        let moment = now_text(&self.rt, self.alloc)?;
        let Followers { count, wanted, .. } = followers;
        let mut line = String::new(self.alloc);
        writeln!(line, "{} {count} of {wanted} {moment}", followers.word())?;
        Ok(line)
    }

    fn followers_event(&self, followers: Followers) -> Result<String, AllocError> {
        let Followers { count, wanted, .. } = followers;
        let mut line = self.begin(followers.word())?;
        writeln!(line, ",\"followers\":{count},\"wanted\":{wanted}}}")?;
        Ok(line)
    }

    /// Logs that the journal is not kept any more, by this error of the system, or since its file does not stand where
    /// it was.
    pub(crate) fn log_keep(&self, error: Option<io::Error>) {
        self.log(self.keep_event(error));
    }

    fn keep_event(&self, error: Option<io::Error>) -> Result<String, AllocError> {
        let why = match error {
            Some(error) => error.to_string(self.alloc)?,
            None => String::from_str(self.alloc, "the file does not stand where it was")?,
        };
        self.why_event("keep", why.as_str())
    }

    /// Logs that the board has closed with so many entries, and what closed it.
    pub(crate) fn log_close(&self, by: &str, used: usize) {
        self.log(self.close_event(by, used));
    }

    fn close_event(&self, by: &str, used: usize) -> Result<String, AllocError> {
        let mut line = self.begin("close")?;
        writeln!(line, ",\"by\":\"{by}\",\"entries\":{used}}}")?;
        Ok(line)
    }

    /// Tells once that the log can't be written, where it can't: `log failed MOMENT`.
    pub(crate) fn look_after_log(&mut self) {
        let Some(log) = &self.log else {
            return;
        };
        let has_failed = log.has_failed();
        if has_failed && !self.is_log_failed {
            self.tell(self.log_failed_line());
        }
        self.is_log_failed = has_failed;
    }

    fn log_failed_line(&self) -> Result<String, AllocError> {
        let moment = now_text(&self.rt, self.alloc)?;
        let mut line = String::new(self.alloc);
        writeln!(line, "log failed {moment}")?;
        Ok(line)
    }

    /// Has what waits written, and waits for that, a second at most for either.
    pub(crate) fn end(&self) {
        if let Some(log) = &self.log {
            log.end(&self.rt);
        }
        self.errors.end(&self.rt);
    }
}
