//! A reading of the system's clock.
ghost use Rattle.std.specs.Prelude.{◌≡◌};
ghost use Rattle.std.specs.Duration.{as_nanos};
ghost use Rattle.std.specs.Time.{system_time_nanos};
ghost use Rattle.acdm_commands.specs.Minutes.{minute_in};

use std::time::{Clock as SystemClock, Duration, SystemTime};

/// What a clock read. Only a clock that is read makes one.
#[derive(Drop)]
pub(crate) struct ClockReading {
    at: SystemTime,
}

// The whole minutes since 1970-01-01T00:00Z, where 32 bits hold them and they are from 1.
fn minute_of(since: Duration) -> Option<u32>
    ensures { result ≡ minute_in (as_nanos since) }
{
    let minute = u32::try_from(since.as_secs() / 60).ok()?;
    if minute > 0 { Some(minute) } else { None }
}

impl ClockReading {
    /// What this clock reads now, if it can be read.
    pub(crate) fn of<K: SystemClock>(system: &K) -> Option<ClockReading> {
        let at = SystemTime::now(system).ok()?;
        Some(ClockReading { at })
    }

    /// Its minute since 1970-01-01T00:00Z, where 32 bits hold it and it is from 1.
    pub(crate) fn minute(&self) -> Option<u32>
        ensures { result ≡ minute_in (system_time_nanos self.now.at) }
    {
        match self.at.duration_since(SystemTime::UNIX_EPOCH) {
            Ok(since) => minute_of(since),
            Err(_) => None,
        }
    }
}
