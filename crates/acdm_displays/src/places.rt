//! The places of displays, and what their threads share.
use acdm_web::TimeLimit;
use httpdate::HttpDate;
use std::alloc::{AllocError, Global};
use std::sync::Arc;
use std::sync::atomic::{AtomicBool, AtomicU64, Ordering};

/// How many displays are served at once at most. One more is let go at once.
const MOST_DISPLAYS: u64 = 64;

/// What the threads of displays share.
#[derive(Drop)]
pub(crate) struct Shared {
    /// Whether the last entry was made.
    pub(crate) closing: AtomicBool,
    /// How many threads accept displays still.
    pub(crate) admitting: AtomicU64,
    /// How many places are taken.
    pub(crate) taken: AtomicU64,
    /// How many milliseconds have passed since displays are accepted, which the thread that accepts them tells.
    pub(crate) passed: AtomicU64,
    /// The seconds since 1970-01-01T00:00:00Z, which the same thread tells; 0 where its clock can't be read.
    pub(crate) seconds: AtomicU64,
    // The name by which browsers may ask for the board, beside its addresses.
    name: Option<String>,
}

impl Shared {
    /// No place is taken, and entries are to be made yet.
    pub(crate) fn new(alloc: Global, name: Option<&str>) -> Result<Arc<Shared>, AllocError> {
        let name = match name {
            Some(name) => Some(String::from_str(alloc, name)?),
            None => None,
        };
        let shared = Shared {
            closing: AtomicBool::new(false),
            admitting: AtomicU64::new(0),
            taken: AtomicU64::new(0),
            passed: AtomicU64::new(0),
            seconds: AtomicU64::new(0),
            name,
        };
        Ok(Arc::new(alloc, shared)?)
    }

    /// Whether no display is accepted any more, and all of them have left.
    pub(crate) fn is_over(&self) -> bool {
        // (who accepts one takes a place for it, so that is asked for first)
        self.admitting.load(Ordering::SeqCst) == 0 && self.taken.load(Ordering::SeqCst) == 0
    }

    /// A time that is over after so many milliseconds, from now on.
    pub(crate) fn limit(&self, length: u64) -> Limit<'_> {
        Limit {
            shared: self,
            until: self.passed.load(Ordering::SeqCst).saturating_add(length),
        }
    }

    /// The date, where the clock can be read.
    pub(crate) fn date(&self) -> Option<HttpDate> {
        match self.seconds.load(Ordering::SeqCst) {
            0 => None,
            seconds => HttpDate::from_unix_secs(seconds).ok(),
        }
    }

    /// The name by which browsers may ask for the board, if it has one.
    pub(crate) fn name(&self) -> Option<&str> {
        match &self.name {
            Some(name) => Some(name.as_str()),
            None => None,
        }
    }
}

/// A time that is over at a moment, or once the last entry was made.
#[derive(Drop)]
pub(crate) struct Limit<'a> {
    shared: &'a Shared,
    until: u64,
}

impl TimeLimit for Limit<'_> {
    fn is_over(&self) -> bool {
        self.shared.closing.load(Ordering::SeqCst)
            || self.shared.passed.load(Ordering::SeqCst) >= self.until
    }
}

/// A place that is taken. It is given back where it is let go, however its display has ended.
pub(crate) struct DisplayPlace {
    pub(crate) shared: Arc<Shared>,
}

impl DisplayPlace {
    /// Takes a place, if one is left.
    pub(crate) fn take(shared: &Arc<Shared>) -> Result<Option<DisplayPlace>, AllocError> {
        let shared = Arc::try_clone(shared)?;
        // (several threads may take one at once, so each counts itself first)
        let before = shared.taken.fetch_add(1, Ordering::SeqCst);
        let place = DisplayPlace { shared };
        if before >= MOST_DISPLAYS {
            return Ok(None);
        }
        Ok(Some(place))
    }
}

impl Drop for DisplayPlace {
    fn drop(self) {
        self.shared.taken.fetch_sub(1, Ordering::SeqCst);
        let DisplayPlace { shared: _ } = self;
    }
}
