//! How far a journal is kept, for those who show it.
ghost use Rattle.std.specs.Prelude.{◌≡◌, IfOk};
ghost use Rattle.std.specs.Arc.{arc_value};

use crate::keeper::Receipt;
use std::alloc::{AllocError, Global};
use std::sync::Arc;
use std::sync::atomic::{AtomicUsize, Ordering};

/// How many entries of a row are kept at least, as who shows them is told.
#[derive(Clone, Copy, Debug, PartialEq, Eq)]
pub struct Extent {
    count: usize,
}

impl Extent {
    /// How many entries are kept.
    pub fn count(self) -> usize
        ensures { result ≡ self.count }
    {
        self.count
    }
}

/// How far the journal of a row is kept. Who shows entries shows none behind that: what is not kept may be
/// another entry after the next start. It is asked without a lock.
pub struct Reach {
    kept: Arc<AtomicUsize>,
}

impl Drop for Reach {
    fn drop(self) {
        let Reach { kept: _ } = self;
    }
}

impl Reach {
    /// As far as this receipt says.
    pub(crate) fn new(alloc: Global, receipt: Receipt) -> Result<Reach, AllocError> {
        Ok(Reach {
            kept: Arc::new(alloc, AtomicUsize::new(receipt.count()))?,
        })
    }

    /// The same once more. `Err` only where memory was refused.
    pub fn copy(&self) -> Result<Reach, AllocError>
        ensures { IfOk result (λ reach. arc_value reach.kept ≡ arc_value self.now.kept) }
    {
        Ok(Reach {
            kept: Arc::try_clone(&self.kept)?,
        })
    }

    /// What is kept by now.
    pub fn latest(&self) -> Extent {
        Extent {
            count: self.kept.load(Ordering::SeqCst),
        }
    }

    /// As far as this receipt says from now on, where it is for more: who keeps may tell of it late.
    pub(crate) fn renew(&self, receipt: Receipt) {
        self.kept.fetch_max(receipt.count(), Ordering::SeqCst);
    }
}
