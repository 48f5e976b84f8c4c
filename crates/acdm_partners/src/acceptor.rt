//! The thread that accepts partners, and answers at the control address.
use crate::control::{BoardState, Control, FollowedBoard, Standing};
use crate::doors::Door;
use crate::reporter::Reporter;
use crate::times::PAUSE;
use acdm_place::Level;
use std::alloc::AllocError;
use std::sync::atomic::{AtomicBool, Ordering};
use std::sync::{Arc, Wait};
use std::thread::{self, JoinHandle, Threads};
use std::time::{Clock, Duration};

/// At how many looks it is looked once for the file of the journal: at about every half second.
const LOOKS_A_FILE: u64 = 16;

/// Who accepts partners at all addresses, looks after the file of the journal, tells who comes and leaves and when the journal is nearly full,
/// and answers at the control address.
pub struct Acceptor<K: Drop, S: Drop> {
    reporter: Reporter<K>,
    doors: Vec<Door>,
    control: Option<Control>,
    standing: S,
    levels: [Level; 2],
    // Whether it was told that boards which follow are late.
    are_late: bool,
    looks: u64,
    // Whether it was asked at the control address that the board closes, and whether another board has taken over.
    is_asked: bool,
    is_replaced: bool,
    // The board that this one follows, if it does: then there are no partners.
    first: Option<FollowedBoard>,
    closing: Arc<AtomicBool>,
    done: Arc<AtomicBool>,
}

impl<K: Drop, S: Drop> Drop for Acceptor<K, S> {
    fn drop(self) {
        let Acceptor {
            reporter: _,
            doors: _,
            control: _,
            standing: _,
            levels: _,
            are_late: _,
            looks: _,
            is_asked: _,
            is_replaced: _,
            first: _,
            closing: _,
            done: _,
        } = self;
    }
}

impl<K: Wait + Clock + Drop, S: Standing + Drop> Acceptor<K, S> {
    /// One for these addresses, and for this control address, if there is one; or for a board that follows another one,
    /// and has no partners meanwhile. What is to be told of them and of the journal goes to the reporter. The word tells
    /// that the board closes. Who is connected at the control address already has ten seconds for a line from then on.
    pub fn new(
        reporter: Reporter<K>,
        doors: Vec<Door>,
        mut control: Option<Control>,
        standing: S,
        first: Option<FollowedBoard>,
        closing: Arc<AtomicBool>,
    ) -> Result<Acceptor<K, S>, AllocError> {
        let done = Arc::new(reporter.alloc, AtomicBool::new(false))?;
        if let Some(control) = &mut control {
            control.begin_anew();
        }
        Ok(Acceptor {
            reporter,
            doors,
            control,
            standing,
            levels: [Level::new(80), Level::new(95)],
            are_late: false,
            looks: 0,
            is_asked: false,
            is_replaced: false,
            first,
            closing,
            done,
        })
    }

    fn is_done(&self) -> bool {
        self.done.load(Ordering::SeqCst)
    }

    // Whether the board that it follows is not followed any more.
    fn is_promoted(&self) -> bool {
        match &self.first {
            Some(first) => first.promoted.load(Ordering::SeqCst),
            None => false,
        }
    }

    fn is_closing(&self) -> bool {
        self.closing.load(Ordering::SeqCst)
    }

    fn pause(&self) {
        thread::sleep(&self.reporter.rt, Duration::from_millis(PAUSE));
    }

    // Gives the control address back, if there is one.
    fn run(mut self) -> Option<Control> {
        self.serve();
        self.close();
        self.finish();
        let Acceptor {
            reporter: _,
            doors: _,
            control,
            standing: _,
            levels: _,
            are_late: _,
            looks: _,
            is_asked: _,
            is_replaced: _,
            first: _,
            closing: _,
            done: _,
        } = self;
        control
    }

    // Accepts and answers until the board closes or all sessions have ended.
    fn serve(&mut self) {
        for _ in 0..u64::MAX {
            if self.is_done() || self.is_closing() || self.is_promoted() {
                return;
            }
            self.look();
            self.pause();
        }
    }

    fn look(&mut self) {
        for door in self.doors.as_mut_slice() {
            door.look(&self.reporter);
        }
        self.look_at_room();
        self.look_at_followers();
        self.look_at_peer();
        // Where the clock tells no time nobody is too late.
        let now = self.reporter.passed().unwrap_or(0);
        if let Some(control) = &mut self.control {
            let state = BoardState {
                rt: &self.reporter.rt,
                alloc: self.reporter.alloc,
                doors: self.doors.as_slice(),
                standing: &self.standing,
                first: self.first.as_ref(),
            };
            let asked = control.look(&state, now);
            if asked.closes {
                self.is_asked = true;
                self.close_board();
            }
            if asked.promotes {
                self.promote();
            }
        }
        self.reporter.look_after_log();
        self.look_after_file();
    }

    // Tells each level of the room of the journal that was reached since the last look.
    fn look_at_room(&mut self) {
        let used = self.standing.used();
        let room = self.standing.room();
        for level in self.levels.as_mut_slice() {
            if level.look(used, room) {
                self.reporter.tell_room(level.percent(), used, room);
            }
        }
    }

    // Tells that boards which follow are late, and that they are not any more.
    fn look_at_followers(&mut self) {
        let Some(followers) = self.standing.followers() else {
            return;
        };
        if followers.are_late != self.are_late {
            self.are_late = followers.are_late;
            self.reporter.tell_followers(followers);
        }
    }

    // Has a board close that serves, where another one was met that has taken over from it, and tells so.
    fn look_at_peer(&mut self) {
        if self.first.is_some() || self.is_replaced {
            return;
        }
        if let Some(term) = self.standing.replaced_by() {
            self.is_replaced = true;
            self.reporter.tell_replaced(term);
            self.close_board();
        }
    }

    fn promote(&self) {
        if let Some(first) = &self.first {
            first.promoted.store(true, Ordering::SeqCst);
        }
    }

    fn close_board(&self) {
        self.closing.store(true, Ordering::SeqCst);
    }

    // Has the board close where the journal does not stand any more where it is kept.
    fn look_after_file(&mut self) {
        self.looks = self.looks.saturating_add(1);
        if self.looks % LOOKS_A_FILE == 0 && !self.standing.stands() {
            self.close_board();
        }
    }

    fn shut_doors(&mut self) {
        for door in self.doors.as_mut_slice() {
            door.shut();
            door.place().close(&self.reporter.rt);
        }
    }

    fn look_after_doors(&mut self) {
        for door in self.doors.as_mut_slice() {
            door.look_after(&self.reporter);
        }
    }

    // Has all sessions end: nobody is accepted and nothing is read any more, and who has not taken his
    // replies after 5 seconds is cut off.
    fn close(&mut self) {
        self.shut_doors();
        for _ in 0..u64::MAX {
            // What tells the end is read before the last look.
            let is_last = self.is_done();
            self.look_after_doors();
            self.look_at_followers();
            if is_last {
                return;
            }
            self.pause();
            self.tell_passed();
        }
    }

    fn tell_rest_of_doors(&mut self) {
        for door in self.doors.as_mut_slice() {
            door.tell_rest(&self.reporter);
        }
    }

    // Tells what is left to be told.
    fn finish(&mut self) {
        self.look_at_room();
        self.tell_rest_of_doors();
        if self.is_promoted() && !self.is_closing() {
            self.reporter.tell_promoted(self.standing.used());
        } else if self.reporter.has_log() {
            self.log_end();
        }
        self.reporter.end();
    }

    // Logs what is left to be logged, and what closed the board: a line at the control address, the file of the journal,
    // another board that has taken over, or that all partners were gone.
    fn log_end(&mut self) {
        for door in self.doors.as_mut_slice() {
            door.log_rest(&self.reporter);
        }
        let failure = self.standing.failure();
        let is_kept = failure.is_none() && self.standing.stands();
        if !is_kept {
            self.reporter.log_keep(failure);
        }
        let by = if !is_kept {
            "file"
        } else if self.is_replaced {
            "peer"
        } else if self.is_asked {
            "control"
        } else {
            "partners"
        };
        self.reporter.log_close(by, self.standing.used());
    }

    // Tells each place that a pause has passed.
    fn tell_passed(&self) {
        for door in self.doors.as_slice() {
            door.place().wait(&self.reporter.rt);
        }
    }
}

/// The thread of an acceptor.
pub struct Reception {
    done: Arc<AtomicBool>,
    thread: JoinHandle<Option<Control>>,
}

impl Drop for Reception {
    fn drop(self) {
        let Reception { done: _, thread: _ } = self;
    }
}

impl Reception {
    /// Starts the thread of an acceptor. `Err` where memory was refused, or no thread could be made.
    pub fn begin<
        Rt: Threads,
        K: Wait + Clock + Drop + Send + 'static,
        S: Standing + Drop + Send + 'static,
    >(rt: &Rt, acceptor: Acceptor<K, S>) -> Result<Reception, AllocError> {
        let done = Arc::try_clone(&acceptor.done)?;
        match thread::spawn(rt, move || acceptor.run()) {
            Ok(thread) => Ok(Reception { done, thread }),
            Err(_) => Err(AllocError),
        }
    }

    /// Ends it, once all sessions have ended, and gives the control address back, if there is one.
    pub fn end<Rt: Threads>(self, rt: &Rt) -> Option<Control> {
        let Reception { done, thread } = self;
        done.store(true, Ordering::SeqCst);
        thread.join(rt)
    }
}
