//! Confirmations behind a lock, at which replies wait.
ghost use Rattle.std.specs.Prelude.{◌≡◌, IfSome, true};
ghost use Rattle.acdm_confirming.specs.Confirming.{may_go};

use crate::confirmations::{Confirmation, ConfirmationTerms, Confirmations, ConfirmedState};
use std::sync::atomic::{AtomicBool, Ordering};
use std::sync::{Arc, Condvar, CondvarTimeouts, Mutex, Wait};
use std::time::{Clock, Duration};

/// For how many pauses a reply waits for other boards until they are late: 5 seconds.
const PATIENCE: u64 = 200;

/// For how many milliseconds it is waited at once, at most.
const PAUSE: u64 = 25;

// What the lock holds: what was confirmed, and how many replies have begun to wait.
#[derive(Drop)]
struct WaitingReplies {
    confirmations: Confirmations,
    begun: u64,
}

/// Which entries other boards have said that they keep, for many who ask at once: replies that wait for it, and those who
/// send the entries.
pub struct Confirmed {
    terms: ConfirmationTerms,
    waiting: Mutex<WaitingReplies>,
    // A reply has begun to wait.
    asked: Condvar,
    // A board has said what it keeps, or is late.
    answered: Condvar,
    closing: Arc<AtomicBool>,
}

impl Drop for Confirmed {
    fn drop(self) {
        let Confirmed {
            terms: _,
            waiting: _,
            asked: _,
            answered: _,
            closing: _,
        } = self;
    }
}

impl Confirmed {
    /// Replies wait by these terms. Where the word is set the board closes, and nobody waits for longer than five seconds.
    pub fn new(terms: ConfirmationTerms, closing: Arc<AtomicBool>) -> Confirmed
        ensures { result.terms ≡ terms }
    {
        Confirmed {
            terms,
            waiting: Mutex::new(WaitingReplies {
                confirmations: Confirmations::new(),
                begun: 0,
            }),
            asked: Condvar::new(),
            answered: Condvar::new(),
            closing,
        }
    }

    /// Waits until a reply may tell of the first so many entries. `None` where it may not, and the board closes.
    pub fn wait_for<Rt: Wait + Clock>(&self, rt: &Rt, count: u64) -> Option<Confirmation>
        ensures { IfSome result (λ c. (c.count ≡ count) × (may_go c.confirmations self.now.terms count ≡ true)) }
    {
        let begun = self.begin(rt, count);
        if begun.is_some() {
            return begun;
        }
        for pause in 0..u64::MAX {
            let waited = self.wait(rt, count);
            if waited.is_some() {
                return waited;
            }
            if pause == PATIENCE {
                self.give_up(rt);
            }
            if pause > PATIENCE && self.closing.load(Ordering::SeqCst) {
                return None;
            }
        }
        None
    }

    // Begins to wait for so many entries, and has those who send them look, where there is something to wait for.
    fn begin<Rt: Wait>(&self, rt: &Rt, count: u64) -> Option<Confirmation>
        ensures { IfSome result (λ c. (c.count ≡ count) × (may_go c.confirmations self.now.terms count ≡ true)) }
    {
        let mut waiting = self.waiting.lock(rt);
        waiting.confirmations.ask(count);
        let confirmation = waiting.confirmations.confirmation(self.terms, count);
        if confirmation.is_none() {
            waiting.begun = waiting.begun.wrapping_add(1);
            self.asked.notify_all();
        }
        confirmation
    }

    // Waits for a pause at most until a reply may tell of the first so many entries.
    fn wait<Rt: Wait + Clock>(&self, rt: &Rt, count: u64) -> Option<Confirmation>
        ensures { IfSome result (λ c. (c.count ≡ count) × (may_go c.confirmations self.now.terms count ≡ true)) }
    {
        let waiting = self.waiting.lock(rt);
        let time = Duration::from_millis(PAUSE);
        let terms = self.terms;
        let (waiting, _) = self
            .answered
            .wait_timeout_while(rt, waiting, time, |waiting| {
                waiting.confirmations.confirmation(terms, count).is_none()
            });
        waiting.confirmations.confirmation(terms, count)
    }

    // A reply has waited for long enough.
    fn give_up<Rt: Wait>(&self, rt: &Rt) {
        self.waiting
            .lock(rt)
            .confirmations
            .wait_no_longer(self.terms.wanted);
        self.answered.notify_all();
    }

    /// A board begins to follow: its place, from 0, if one of 8 is free.
    pub fn join<Rt: Wait>(&self, rt: &Rt) -> Option<usize> {
        self.waiting.lock(rt).confirmations.join()
    }

    /// The board at this place says that it keeps the first so many entries, by this name.
    pub fn confirm<Rt: Wait>(&self, rt: &Rt, at: usize, name: u64, count: u64) {
        self.waiting
            .lock(rt)
            .confirmations
            .confirm(self.terms.wanted, at, name, count);
        self.answered.notify_all();
    }

    /// The board at this place follows no longer.
    pub fn leave<Rt: Wait>(&self, rt: &Rt, at: usize) {
        self.waiting.lock(rt).confirmations.leave(at);
    }

    /// Waits until more replies have begun to wait than these, for 25 milliseconds at most, and not at all where one waits
    /// for more entries than the board at this place has said that it keeps; how many have.
    pub fn wait_for_more<Rt: Wait + Clock>(&self, rt: &Rt, at: usize, seen: u64) -> u64 {
        let waiting = self.waiting.lock(rt);
        let time = Duration::from_millis(PAUSE);
        let (waiting, _) = self.asked.wait_timeout_while(rt, waiting, time, |waiting| {
            waiting.begun == seen && !waiting.confirmations.is_awaited(at)
        });
        waiting.begun
    }

    /// What an operator is told.
    pub fn state<Rt: Wait>(&self, rt: &Rt) -> ConfirmedState
        ensures { result.wanted ≡ self.now.terms.wanted }
    {
        self.waiting.lock(rt).confirmations.state(self.terms.wanted)
    }
}
