//! How far a journal is kept, for those who wait.
ghost use Rattle.std.specs.Prelude.{◌≡◌, ◌<◌, ◌≤◌, true, false, IfErr, IfOk, OnErr, OnOk};
ghost use Rattle.acdm_failures.specs.declared.failure.Failure.TheVariants.{Save};
ghost use Rattle.acdm_keeping.specs.Turns.{Turns};

use crate::lasting::{LastingReceipt, SharedCount};
use crate::writing::Opening;
use acdm_failures::Failure;

/// What somebody does who waits for entries to be kept.
#[derive(Drop)]
pub(crate) enum Turn<J: Opening> {
    /// They are kept.
    Kept(LastingReceipt<J>),
    /// Keeping has failed.
    Failed,
    /// It is for him to keep them.
    Mine,
}

/// How far a journal is kept, whether somebody is keeping it, and whether that has failed.
#[derive(Drop)]
pub(crate) struct Progress<J: Opening> {
    pub(crate) receipt: LastingReceipt<J>,
    pub(crate) is_busy: bool,
    pub(crate) has_failed: bool,
}

impl<J: Opening> Progress<J> {
    /// So much is kept, and nobody is keeping.
    pub(crate) fn new(receipt: LastingReceipt<J>) -> Progress<J>
        ensures { (result.receipt ≡ receipt) × (result.has_failed ≡ false) }
    {
        Progress {
            receipt,
            is_busy: false,
            has_failed: false,
        }
    }

    /// Whether who waits for so many entries has to wait for somebody who is keeping.
    pub(crate) fn has_to_wait(&self, count: usize) -> bool {
        self.is_busy && !self.has_failed && self.receipt.count() < count
    }

    /// What somebody does who waits for so many entries while nobody is keeping. Where it is for him
    /// to keep them, he is.
    pub(crate) fn turn(&mut self, shared: &SharedCount<J>, count: usize) -> Turn<J>
        ensures turn { Turns self.old count result }
        ensures receipt { self.new.receipt ≡ self.old.receipt }
        ensures failed { self.new.has_failed ≡ self.old.has_failed }
    {
        if self.has_failed {
            return Turn::Failed;
        }
        if count <= self.receipt.count() {
            return Turn::Kept(shared.copy(&mut self.receipt));
        }
        self.is_busy = true;
        Turn::Mine
    }

    /// Nobody is keeping any more: this came of it. `Save` where it failed, or where fewer than so
    /// many entries are kept, and to all who wait from then on.
    pub(crate) fn end(
        &mut self,
        shared: &SharedCount<J>,
        written: Result<LastingReceipt<J>, Failure>,
        count: usize,
    ) -> Result<LastingReceipt<J>, Failure>
        ensures kept { IfOk result (λ r. (count ≤ r) × (self.new.receipt ≡ r)) }
        ensures written { OnErr written ((e : Failure) × (result ≡ Err e)) }
        ensures stays { OnOk result (self.new.has_failed ≡ self.old.has_failed) }
        ensures failed { IfErr result (λ e. e ≡ Save) }
        ensures why { OnErr result (self.new.has_failed ≡ true) }
    {
        self.is_busy = false;
        match written {
            Ok(receipt) if count <= receipt.count() => {
                self.receipt = receipt;
                Ok(shared.copy(&mut self.receipt))
            }
            _ => {
                self.has_failed = true;
                Err(Failure::Save)
            }
        }
    }
}
