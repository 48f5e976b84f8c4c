//! The minutes of the system's clock.
ghost use Rattle.std.specs.Prelude.{◌≡◌, ◌≤◌, true, None, IfSome, MatchOption};
ghost use Rattle.std.specs.Time.{system_time_nanos};
ghost use Rattle.acdm_commands.specs.Minutes.{is_minute, minute_in};

use crate::clock_reading::ClockReading;
use acdm_sessions::Clock;
use std::time::Clock as SystemClock;

/// Tells the minute of the system's clock, where it has one that 32 bits hold and that is from 1.
/// What that clock reads is not known beforehand: what it read last is held here.
#[derive(Drop)]
pub(crate) struct SystemMinutes<'r, K> {
    system: &'r K,
    reading: Option<ClockReading>,
}

impl<'r, K> SystemMinutes<'r, K> {
    /// This clock, which was not read yet.
    pub(crate) fn new(system: &'r K) -> SystemMinutes<'r, K> {
        SystemMinutes {
            system,
            reading: None,
        }
    }
}

impl<K: SystemClock> Clock for SystemMinutes<'_, K> {
    ghost gives = { λ _. is_minute };

    fn minute(&mut self) -> Option<u32>
        ensures given { IfSome result (λ m. is_minute m ≡ true) }
        ensures from_one { IfSome result (λ m. 1 ≤ m) }
        ensures same { is_minute ≡ is_minute }
        ensures told { MatchOption self.new.reading (result ≡ None)
            (λ r. result ≡ minute_in (system_time_nanos r.at)) }
    {
        self.reading = ClockReading::of(self.system);
        match &self.reading {
            Some(reading) => reading.minute(),
            None => None,
        }
    }
}
