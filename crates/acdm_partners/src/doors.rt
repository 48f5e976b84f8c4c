//! The addresses where partners connect.
use crate::first_line::FirstLine;
use crate::held_place::{Arrived, ServedPartner};
use crate::newcomers::{Newcomer, Newcomers};
use crate::places::PartnerPlace;
use crate::reporter::{Reporter, SessionName};
use crate::stamp::{moment_text, seconds_now};
use acdm_place::Pace;
use std::alloc::{AllocError, Global};
use std::net::{SocketAddr, TcpListener, TcpStream};
use std::sync::{Arc, Wait};
use std::time::Clock;

// How many connections are accepted at one look, at most.
const MOST_ACCEPTED: u32 = 16;

// Of how many who come at an address in a minute it is told, at most; and of how many bad lines there.
const MOST_TOLD: u32 = 30;

// Who is served: the number of the connection and its address, since when, in seconds since 1970-01-01T00:00Z, and
// whether it was told that it is here.
#[derive(Clone, Copy)]
struct Here {
    number: u64,
    address: SocketAddr,
    since: Option<u64>,
    is_told: bool,
}

/// An address where the partner of one session connects.
pub struct Door {
    number: usize,
    role: &'static str,
    place: Arc<PartnerPlace>,
    listener: Option<TcpListener>,
    // How many bytes of a first line are waited for at most.
    longest: usize,
    newcomers: Newcomers,
    // How many first lines were judged: the number of the connection whose line was judged last.
    judged: u64,
    here: Option<Here>,
    // How often it is told who comes, and of how many it was not.
    telling: Pace,
    untold: u64,
    // How often a bad line is logged, and how many were bad when one was.
    logging: Pace,
    logged: u64,
}

impl Drop for Door {
    fn drop(self) {
        let Door {
            number: _,
            role: _,
            place: _,
            listener: _,
            longest: _,
            newcomers: _,
            judged: _,
            here: _,
            telling: _,
            untold: _,
            logging: _,
            logged: _,
        } = self;
    }
}

impl Door {
    /// The address of a listener, of the session of this number and role, whose lines have at most so many
    /// bytes. `None` where the listener can't be asked without waiting for it. `Err` only where memory was
    /// refused.
    pub fn new(
        alloc: Global,
        number: usize,
        role: &'static str,
        longest: usize,
        place: Arc<PartnerPlace>,
        listener: TcpListener,
    ) -> Result<Option<Door>, AllocError> {
        if listener.set_nonblocking(true).is_err() {
            return Ok(None);
        }
        let newcomers = Newcomers::new(alloc)?;
        Ok(Some(Door {
            number,
            role,
            place,
            listener: Some(listener),
            longest,
            newcomers,
            judged: 0,
            here: None,
            telling: Pace::new(MOST_TOLD, 0),
            untold: 0,
            logging: Pace::new(MOST_TOLD, 0),
            logged: 0,
        }))
    }

    pub(crate) fn place(&self) -> &PartnerPlace {
        &self.place
    }

    // The session, as it is told of.
    fn named(&self) -> SessionName {
        SessionName {
            number: self.number,
            role: self.role,
            is_spoken: self.place.terms.again,
        }
    }

    /// Accepts who waits, has those served whose first line is there, and tells of who has left.
    pub(crate) fn look<K: Wait + Clock + Drop>(&mut self, reporter: &Reporter<K>) {
        for _ in 0..MOST_ACCEPTED {
            let Some((stream, address)) = self.accepted() else {
                break;
            };
            self.newcomers.add(reporter.alloc, stream, address);
            self.serve_ready(reporter);
        }
        self.serve_ready(reporter);
        self.look_after(reporter);
    }

    // Who waits to be accepted, if somebody does.
    fn accepted(&self) -> Option<(TcpStream, SocketAddr)> {
        self.listener.as_ref()?.accept().ok()
    }

    // Judges those whose first line is there, and who have gone.
    fn serve_ready<K: Wait + Clock + Drop>(&mut self, reporter: &Reporter<K>) {
        for _ in 0..MOST_ACCEPTED {
            let again = self.place.terms.again;
            let Some((newcomer, judged)) = self.newcomers.next(self.longest, again) else {
                return;
            };
            self.judged = self.judged.saturating_add(1);
            match judged {
                Some(FirstLine::Command) => self.greet(reporter, newcomer),
                Some(_) => self.refuse(reporter, newcomer, true),
                None => self.refuse(reporter, newcomer, false),
            }
        }
    }

    // Refuses a connection whose first line is no command, or that has gone before its first line was whole.
    fn refuse<K: Wait + Clock + Drop>(
        &self,
        reporter: &Reporter<K>,
        newcomer: Newcomer,
        is_whole: bool,
    ) {
        if self.place.refuses(&reporter.rt, self.judged, is_whole) {
            newcomer.refuse(is_whole);
        }
    }

    // Has a connection served, in place of the one before.
    fn greet<K: Wait + Clock + Drop>(&mut self, reporter: &Reporter<K>, newcomer: Newcomer) {
        let Newcomer {
            stream,
            address,
            text,
            ..
        } = newcomer;
        if !self.place.prepare(&stream) {
            return;
        }
        let number = self.judged;
        let Some(served) = ServedPartner::new(number, Arrived { stream, text }) else {
            return;
        };
        if !self.place.arrive(&reporter.rt, served) {
            return;
        }
        self.tell_gone(reporter);
        let is_told = self.tell_here(reporter, address);
        self.here = Some(Here {
            number,
            address,
            since: seconds_now(&reporter.rt),
            is_told,
        });
        if !self.place.terms.again {
            self.shut();
        }
    }

    /// Tells of who has left, and logs a bad line where one came since that was logged, and not too often.
    pub(crate) fn look_after<K: Wait + Clock + Drop>(&mut self, reporter: &Reporter<K>) {
        if self.has_bad(reporter) && self.may_log(reporter) {
            self.log_bad(reporter);
        }
        if let Some(here) = self.here {
            if !self.place.is_here(&reporter.rt, here.number) {
                self.tell_gone(reporter);
            }
        }
    }

    // Whether a line was bad since that was logged, where there is a log.
    fn has_bad<K: Wait + Clock + Drop>(&self, reporter: &Reporter<K>) -> bool {
        reporter.has_log() && self.place.bad_lines(&reporter.rt) > self.logged
    }

    // Whether a bad line may be logged now. Where the clock tells no time each may.
    fn may_log<K: Wait + Clock + Drop>(&mut self, reporter: &Reporter<K>) -> bool {
        match reporter.passed() {
            Some(now) => self.logging.admits(now),
            None => true,
        }
    }

    // Logs how many lines were bad since that was logged, and the last of them.
    fn log_bad<K: Wait + Clock + Drop>(&mut self, reporter: &Reporter<K>) {
        let bad_lines = self.place.bad_lines(&reporter.rt);
        let since = bad_lines.saturating_sub(self.logged);
        reporter.log_bad(self.named(), since, &self.place);
        self.logged = bad_lines;
    }

    /// Tells how many it was not told of, if there are any.
    pub(crate) fn tell_rest<K: Wait + Clock + Drop>(&mut self, reporter: &Reporter<K>) {
        if self.untold > 0 {
            reporter.tell_untold(self.named(), self.untold);
            self.untold = 0;
        }
    }

    /// Logs the bad lines that were not logged by now, if there are any.
    pub(crate) fn log_rest<K: Wait + Clock + Drop>(&mut self, reporter: &Reporter<K>) {
        if self.has_bad(reporter) {
            self.log_bad(reporter);
        }
    }

    // Tells that who was served has left, where it was told that it is here.
    fn tell_gone<K: Wait + Clock + Drop>(&mut self, reporter: &Reporter<K>) {
        if let Some(here) = self.here.take() {
            if here.is_told {
                reporter.tell_gone(self.named());
            }
        }
    }

    // Tells who is served, where that is told and was not told too often. Says whether it was.
    fn tell_here<K: Wait + Clock + Drop>(
        &mut self,
        reporter: &Reporter<K>,
        address: SocketAddr,
    ) -> bool {
        if !self.place.terms.again && !reporter.has_log() {
            return false;
        }
        let is_told = match reporter.passed() {
            Some(now) => self.telling.admits(now),
            None => true,
        };
        if !is_told {
            self.untold = self.untold.saturating_add(1);
            return false;
        }
        self.tell_rest(reporter);
        reporter.tell_here(self.named(), address);
        true
    }

    /// Accepts nobody any more.
    pub(crate) fn shut(&mut self) {
        self.listener = None;
        self.newcomers.clear();
    }

    /// Adds the line of its session to what is told of the board: who is here since when, or that nobody is, and what
    /// came of its lines.
    pub(crate) fn add_status<Rt: Wait>(
        &self,
        rt: &Rt,
        alloc: Global,
        text: &mut String,
    ) -> Result<(), AllocError> {
        let number = self.number;
        let role = self.role;
        match self.here {
            Some(here) => {
                let address = here.address;
                let since = match here.since {
                    Some(seconds) => moment_text(alloc, seconds)?,
                    None => String::from_str(alloc, "-")?,
                };
                write!(text, "session {number} {role} here {address} since {since}")?;
            }
            None => write!(text, "session {number} {role} gone")?,
        }
        self.place.add_counts(rt, text)?;
        text.push_str("\n")
    }
}
