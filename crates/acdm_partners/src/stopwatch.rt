//! How long something takes.
use std::time::{Clock, Instant};

/// Milliseconds since a clock was first read.
#[derive(Drop)]
pub(crate) struct Stopwatch {
    begun: Option<Instant>,
}

impl Stopwatch {
    /// From now on.
    pub(crate) fn begin<Rt: Clock>(rt: &Rt) -> Stopwatch {
        Stopwatch {
            begun: Instant::now(rt).ok(),
        }
    }

    /// The milliseconds that have passed, where the clock tells time.
    pub(crate) fn passed<Rt: Clock>(&self, rt: &Rt) -> Option<u64> {
        let now = Instant::now(rt).ok()?;
        let passed = now.saturating_duration_since(self.begun?).as_millis();
        u64::try_from(passed).ok()
    }
}
