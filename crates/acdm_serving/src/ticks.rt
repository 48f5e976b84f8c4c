//! The ticks that a board gives itself.
ghost use Rattle.std.specs.Prelude.{◌≡◌, ◌+◌, ◌<◌, ◌≤◌, ◌⊎◌, ℕ, Bool, true, false, length, take};
ghost use Rattle.std.specs.Io.{ReadsAtMost};
ghost use Rattle.std.specs.Io.KnownBytes.{ReadConsumes};
ghost use Rattle.acdm_lines.specs.Counted.{moved};
ghost use Rattle.acdm_serving.specs.Ticks.{GivesTicks, GoesOnBy, at_end, tick_line, with_next};

use std::io::{self, Read};
use std::marker::Model;
use std::sync::atomic::{AtomicBool, Ordering};
use std::sync::{Arc, Wait};
use std::thread;
use std::time::{Clock, Duration, Instant};

/// The line of a tick.
const TICK: [u8; 15] = *b"{\"cmd\":\"tick\"}\n";

/// After how many milliseconds it is looked again whether a tick is due.
const PAUSE: u64 = 25;

/// Waits for ticks.
pub trait Beat {
    /// How many were due.
    ghost due: { Self → ℕ };

    /// Whether it was seen that no more come.
    ghost is_over: { Self → Bool };

    /// Waits until one more is due. Says whether there is one: no more come where the board closes.
    fn next(&mut self) -> bool
        ensures { ((result ≡ true) × (due self.new ≡ due self.old + 1) × (is_over self.new ≡ is_over self.old))
            ⊎ ((result ≡ false) × (due self.new ≡ due self.old) × (is_over self.new ≡ true)) };
}

/// A reader that gives the line of a tick each time that one is due, and nothing else. It ends once no more come, and
/// not before.
#[derive(Drop)]
pub struct Ticks<B: Beat + Drop> {
    beat: B,
    // How many bytes of the last line are not given yet.
    left: usize,
    ghost few: { left ≤ 15 },
}

impl<B: Beat + Drop> Model for Ticks<B> {
    ghost use Rattle.acdm_serving.specs.Ticks.{TicksView};

    ghost Value = { TicksView };

    ghost view = { λ t. record { due = B.due t.beat; is_over = B.is_over t.beat; left = t.left } };
}

impl<B: Beat + Drop> Ticks<B> {
    /// A reader of these ticks, of which none was due.
    pub fn new(beat: B) -> Ticks<B>
        ensures { result ≡ record { due = B.due beat; is_over = B.is_over beat; left = 0 } }
    {
        Ticks { beat, left: 0 }
    }

    // Waits for a tick, whose line is in hand then. Says whether there is one.
    fn begin(&mut self) -> bool
        requires { self.old.left ≡ 0 }
        ensures { ((result ≡ true) × (self.new ≡ with_next self.old))
            ⊎ ((result ≡ false) × (self.new ≡ at_end self.old)) }
    {
        if self.beat.next() {
            self.left = TICK.len();
            return true;
        }
        false
    }

    // Gives what there is room for of the line in hand.
    fn give(&mut self, buf: &mut [u8]) -> usize
        ensures bound { result ≤ length buf.new }
        ensures gives { GoesOnBy (length buf.old) self.old self.new (take result buf.new) }
    {
        let rest = &TICK[TICK.len() - self.left..];
        let count = if buf.len() < rest.len() {
            buf.len()
        } else {
            rest.len()
        };
        buf[..count].copy_from_slice(&rest[..count]);
        self.left -= count;
        count
    }
}

impl<B: Beat + Drop> Read for Ticks<B> {
    fn read(&mut self, buf: &mut [u8]) -> io::Result<usize>
        ensures bound { ReadsAtMost result buf.new }
        ensures bytes { ReadConsumes None None result buf.new }
        ensures ticks { 1 ≤ length buf.old
            → GivesTicks (length buf.old) self.old self.new (moved result buf.new) }
    {
        if buf.is_empty() {
            return Ok(0);
        }
        if self.left == 0 && !self.begin() {
            return Ok(0);
        }
        Ok(self.give(buf))
    }
}

/// A tick each so many milliseconds by the clock, until the board closes.
#[derive(Drop)]
pub struct Timer<'r, Rt> {
    rt: &'r Rt,
    closing: Arc<AtomicBool>,
    period: u64,
    begun: Option<Instant>,
    // How many periods have passed at the last tick, how many ticks there were, and whether no more come.
    periods: u64,
    count: u64,
    is_over: bool,
}

impl<'r, Rt: Wait + Clock> Timer<'r, Rt> {
    /// A tick each so many seconds, from now on, until this word is set.
    pub fn new(rt: &'r Rt, seconds: u32, closing: Arc<AtomicBool>) -> Timer<'r, Rt>
        ensures { (result.count ≡ 0) × (result.is_over ≡ false) }
    {
        Timer {
            rt,
            closing,
            period: u64::from(seconds).max(1) * 1_000,
            begun: Instant::now(rt).ok(),
            periods: 0,
            count: 0,
            is_over: false,
        }
    }

    // How many periods have passed. None has where the clock tells no time.
    fn passed(&self) -> u64 {
        let (Some(begun), Ok(now)) = (self.begun, Instant::now(self.rt)) else {
            return 0;
        };
        match u64::try_from(now.saturating_duration_since(begun).as_millis()) {
            Ok(passed) => passed.checked_div(self.period).unwrap_or(0),
            Err(_) => 0,
        }
    }

    // Waits until a period more has passed than at the last tick; those in which the machine slept are one. Says
    // whether one has: the board may close before.
    fn waits(&mut self) -> bool
        ensures { (self.new.count ≡ self.old.count) × (self.new.is_over ≡ self.old.is_over) }
    {
        for _ in 0..u64::MAX {
            if self.closing.load(Ordering::SeqCst) {
                return false;
            }
            let periods = self.passed();
            if periods > self.periods {
                self.periods = periods;
                return true;
            }
            thread::sleep(self.rt, Duration::from_millis(PAUSE));
        }
        false
    }
}

impl<'r, Rt: Wait + Clock> Beat for Timer<'r, Rt> {
    ghost due = { λ t. t.count };

    ghost is_over = { λ t. t.is_over };

    fn next(&mut self) -> bool {
        if self.count == u64::MAX || !self.waits() {
            self.is_over = true;
            return false;
        }
        self.count += 1;
        true
    }
}
