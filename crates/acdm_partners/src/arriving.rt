//! The connections of a place, one after the other.
use crate::arrivals::Arrivals;
use crate::connection::Connection;
use crate::places::PartnerPlace;
use crate::stopwatch::Stopwatch;
use crate::times::PAUSE;
use acdm_place::Pace;
use std::sync::{Arc, Wait};
use std::thread;
use std::time::{Clock, Duration};

/// Who connects at a place, one after the other.
pub struct Arriving<'r, Rt> {
    rt: &'r Rt,
    place: Arc<PartnerPlace>,
    // The number of the connection whose lines are heard, or 0.
    heard: u64,
    // How many lines are taken in a minute, if that is bounded, and what that is measured by.
    pace: Option<Pace>,
    stopwatch: Stopwatch,
}

impl<Rt> Drop for Arriving<'_, Rt> {
    fn drop(self) {
        let Arriving {
            rt: _,
            place: _,
            heard: _,
            pace: _,
            stopwatch: _,
        } = self;
    }
}

impl<'r, Rt: Wait + Clock> Arriving<'r, Rt> {
    /// Who connects at this place.
    pub fn new(rt: &'r Rt, place: Arc<PartnerPlace>) -> Arriving<'r, Rt> {
        let stopwatch = Stopwatch::begin(rt);
        let pace = place.terms.pace.map(|most| Pace::new(most, 0));
        Arriving {
            rt,
            place,
            heard: 0,
            pace,
            stopwatch,
        }
    }

    // Whether a line may be taken now. Where the clock tells no time each may.
    fn is_in_pace(&mut self) -> bool {
        let now = self.stopwatch.passed(self.rt);
        match (&mut self.pace, now) {
            (Some(pace), Some(now)) => pace.admits(now),
            _ => true,
        }
    }

    // The next connection, if one waits.
    fn arrived(&mut self) -> Option<Connection<'r, Rt>> {
        let (number, arrived) = self.place.next(self.rt)?;
        self.heard = number;
        let place = Arc::try_clone(&self.place).ok()?;
        Some(Connection::new(self.rt, place, number, arrived))
    }

    fn pause(&self) {
        thread::sleep(self.rt, Duration::from_millis(PAUSE));
    }
}

impl<'r, Rt: Wait + Clock> Arrivals<Connection<'r, Rt>> for Arriving<'r, Rt> {
    fn answered(&mut self) {
        self.place.answered(self.rt);
    }

    fn admits(&mut self) -> bool {
        for _ in 0..u64::MAX {
            if self.place.is_closing() {
                return false;
            }
            if self.is_in_pace() {
                return self.place.admits(self.rt, self.heard);
            }
            self.pause();
        }
        false
    }

    fn next(&mut self) -> Option<Connection<'r, Rt>> {
        for _ in 0..u64::MAX {
            if let Some(connection) = self.arrived() {
                return Some(connection);
            }
            if self.place.is_over(self.rt) {
                return None;
            }
            self.pause();
        }
        None
    }
}
