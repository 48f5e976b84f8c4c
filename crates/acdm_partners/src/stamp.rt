//! Moments as text.
use jiff::Timestamp;
use std::alloc::{AllocError, Global};
use std::time::{Clock, SystemTime};

/// The moment of so many seconds since 1970-01-01T00:00Z, in UTC, as `2026-11-26T17:40:12Z`; the number of
/// seconds where the year has more than four digits.
pub(crate) fn moment_text(alloc: Global, seconds: u64) -> Result<String, AllocError> {
    let mut text = String::new(alloc);
    match i64::try_from(seconds) {
        Ok(second) => match Timestamp::from_second(second) {
            Ok(moment) => write!(text, "{moment}")?,
            Err(_) => write!(text, "{seconds}")?,
        },
        Err(_) => write!(text, "{seconds}")?,
    }
    Ok(text)
}

/// The moment that the system's clock tells, or `-` where it tells none.
pub(crate) fn now_text<Rt: Clock>(rt: &Rt, alloc: Global) -> Result<String, AllocError> {
    match seconds_now(rt) {
        Some(seconds) => moment_text(alloc, seconds),
        None => String::from_str(alloc, "-"),
    }
}

/// The seconds since 1970-01-01T00:00Z that the system's clock tells, if it tells any.
pub(crate) fn seconds_now<Rt: Clock>(rt: &Rt) -> Option<u64> {
    let now = SystemTime::now(rt).ok()?;
    let since = now.duration_since(SystemTime::UNIX_EPOCH).ok()?;
    Some(since.as_secs())
}
