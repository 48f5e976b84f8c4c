//! A keeper that many sessions share.
ghost use Rattle.std.specs.Prelude.{◌≡◌, ◌≤◌, [], true, false, None, IfErr, IfOk, IfSome, OnOk, option_map};
ghost use Rattle.std.specs.Arc.{arc_value};
ghost use Rattle.acdm_failures.specs.declared.failure.Failure.TheVariants.{Save};
ghost use Rattle.acdm_confirming.specs.Confirming.{terms_of};
ghost use Rattle.acdm_keeping.specs.Confirmed.{IsConfirmed};
ghost use Rattle.acdm_keeping.specs.Kept.{Blames, Keeps, StandsFor};
ghost use Rattle.acdm_keeping.specs.Turns.{TellsKept};

use crate::keeper::{Keeper, Receipt};
use crate::lasting::{KeptCount, LastingReceipt, SharedCount};
use crate::progress::{Progress, Turn};
use crate::reach::Reach;
use crate::replies::{EntryKeeper, entries_to};
use crate::writing::{Opening, Writing};
use acdm_confirming::{Confirmation, Confirmed};
use acdm_failures::Failure;
use std::alloc::{AllocError, Global};
use std::io::Write;
use std::sync::atomic::{AtomicBool, Ordering};
use std::sync::{Arc, Condvar, Mutex, Wait};
use std::time::Clock;

/// Who keeps the entries of a row for many who wait. One of those who wait writes and flushes all
/// entries in sight, the others are told once he has: so many are served by one write and one flush.
/// Nobody holds what tells how far it is while a writer works.
///
/// Where keeping fails it has failed for good: nothing is told to be kept any more, and a word is set
/// that others may look at.
pub struct SharedKeeper<F: Write + Drop, J: Opening> {
    reach: Reach,
    shared: SharedCount<J>,
    progress: Mutex<Progress<J>>,
    changed: Condvar,
    writing: Mutex<Writing<F, J>>,
    failed: Arc<AtomicBool>,
}

impl<F: Write + Drop, J: Opening> Drop for SharedKeeper<F, J> {
    fn drop(self) {
        let SharedKeeper {
            reach: _,
            shared: _,
            progress: _,
            changed: _,
            writing: _,
            failed: _,
        } = self;
    }
}

impl<F: Write + Drop, J: Opening> SharedKeeper<F, J> {
    /// Shares a keeper, of which all that it has seen is kept already, and that has
    /// written nothing. The word is set once keeping has failed. `Memory` where that was refused, now or to the keeper,
    /// `Save` only where its writer has failed.
    pub fn new<Rt: Wait>(
        rt: &Rt,
        alloc: Global,
        keeper: Keeper<F>,
        count: KeptCount,
        failed: &Arc<AtomicBool>,
    ) -> Result<SharedKeeper<F, J>, Failure>
        requires row { keeper.row ≡ J.desk_row }
        requires opening { keeper.seen ≡ J.opening }
        requires fresh { keeper.writer.log ≡ [] }
        requires table { count ≡ J.table }
        ensures failed { IfErr result (Blames keeper.writer) }
    {
        let failed = Arc::try_clone(failed)?;
        let (shared, pass) = count.share();
        let (writing, receipt) = Writing::begin(rt, &shared, keeper, pass)?;
        Ok(SharedKeeper {
            reach: Reach::new(alloc, receipt.receipt())?,
            shared,
            progress: Mutex::new(Progress::new(receipt)),
            changed: Condvar::new(),
            writing: Mutex::new(writing),
            failed,
        })
    }

    /// Waits until so many entries are kept, and gives a receipt for all that are.
    ///
    /// `Save` where keeping has failed, and where fewer are in sight.
    pub fn wait_for<Rt: Wait>(&self, rt: &Rt, count: usize) -> Result<LastingReceipt<J>, Failure>
        ensures kept { IfOk result (λ r. count ≤ r) }
        ensures failed { IfErr result (λ e. e ≡ Save) }
    {
        match self.take_turn(rt, count) {
            Turn::Kept(receipt) => Ok(receipt),
            Turn::Failed => Err(Failure::Save),
            Turn::Mine => self.keep_for(rt, count),
        }
    }

    /// How far the row is kept, for those who show it. `Err` only where memory was refused.
    pub fn reach(&self) -> Result<Reach, AllocError>
        ensures { IfOk result (λ reach. arc_value reach.kept ≡ arc_value self.now.reach.kept) }
    {
        self.reach.copy()
    }

    /// The keeper, once nobody waits any more, whether keeping has failed or not. All entries in sight are kept first, and
    /// those who show them are told. The latest receipt that is still held, if there is one, is compared with what was
    /// told to be kept: the text of the entries that it is for stands in front of all that the writer has taken.
    ///
    /// `Save` only where the writer has failed, `Memory` where that was refused, now or before.
    pub fn end<Rt: Wait>(
        self,
        rt: &Rt,
        latest: Option<LastingReceipt<J>>,
    ) -> (Keeper<F>, Result<(), Failure>)
        ensures row { result.0.row ≡ J.desk_row }
        ensures stands { StandsFor J.opening latest result.0.seen result.0.writer.log }
        ensures kept { OnOk result.1 (Keeps J.opening result.0.seen [] result.0.writer.log) }
        ensures flushed { OnOk result.1 (result.0.writer.waits ≡ false) }
        ensures failed { IfErr result.1 (Blames result.0.writer) }
    {
        let SharedKeeper {
            reach,
            shared,
            progress: _,
            changed: _,
            writing,
            failed: _,
        } = self;
        let mut writing = writing.into_inner();
        let written = writing.write_on(rt, &shared);
        writing.compare(rt, &shared, latest);
        let keeper = writing.into_keeper();
        match written {
            Ok(receipt) => {
                reach.renew(receipt.receipt());
                (keeper, Ok(()))
            }
            Err(failure) => (keeper, Err(failure)),
        }
    }

    // Waits as long as somebody keeps entries, and fewer are kept; then it is as he finds it.
    fn take_turn<Rt: Wait>(&self, rt: &Rt, count: usize) -> Turn<J>
        ensures kept { TellsKept count result }
    {
        let progress = self.progress.lock(rt);
        let mut progress = self
            .changed
            .wait_while(rt, progress, |p| p.has_to_wait(count));
        progress.turn(&self.shared, count)
    }

    // Keeps all entries in sight, of which there are to be so many, and has those who wait look again.
    fn keep_for<Rt: Wait>(&self, rt: &Rt, count: usize) -> Result<LastingReceipt<J>, Failure>
        ensures kept { IfOk result (λ r. count ≤ r) }
        ensures failed { IfErr result (λ e. e ≡ Save) }
    {
        let written = self.write_on(rt);
        let ended = self.progress.lock(rt).end(&self.shared, written, count);
        match &ended {
            Ok(receipt) => self.reach.renew(receipt.receipt()),
            Err(_) => self.failed.store(true, Ordering::SeqCst),
        }
        self.changed.notify_all();
        ended
    }

    // Keeps all entries in sight.
    fn write_on<Rt: Wait>(&self, rt: &Rt) -> Result<LastingReceipt<J>, Failure> {
        self.writing.lock(rt).write_on(rt, &self.shared)
    }
}

/// A keeper that is shared, if there is one, for a session on a thread of its own, and the latest receipt that it gave.
/// Where there is none, nothing is kept and nobody waits. Where other boards have to keep an entry too, it waits for them
/// behind that.
pub struct Waiter<'r, F: Write + Drop, J: Opening, Rt> {
    rt: &'r Rt,
    keeper: Option<&'r SharedKeeper<F, J>>,
    confirmed: Option<&'r Arc<Confirmed>>,
    receipt: Option<LastingReceipt<J>>,
    // That other boards keep the entries of the receipt, or are late, where they have to.
    confirmation: Option<Confirmation>,
}

impl<F: Write + Drop, J: Opening, Rt> Drop for Waiter<'_, F, J, Rt> {
    fn drop(self) {
        let Waiter {
            rt: _,
            keeper: _,
            confirmed: _,
            receipt: _,
            confirmation: _,
        } = self;
    }
}

impl<'r, F: Write + Drop, J: Opening, Rt> Waiter<'r, F, J, Rt> {
    /// For this keeper, if there is one, and for what other boards keep, where they have to.
    pub fn new(
        rt: &'r Rt,
        keeper: Option<&'r SharedKeeper<F, J>>,
        confirmed: Option<&'r Arc<Confirmed>>,
    ) -> Waiter<'r, F, J, Rt>
        ensures keeper { result.keeper ≡ keeper.entry }
        ensures confirmed { result.confirmed ≡ confirmed.entry }
        ensures receipt { result.receipt ≡ None }
    {
        Waiter {
            rt,
            keeper,
            confirmed,
            receipt: None,
            confirmation: None,
        }
    }

    /// The latest receipt that it was given, if it was.
    pub fn into_receipt(self) -> Option<LastingReceipt<J>>
        ensures { result ≡ self.entry.receipt }
    {
        let Waiter {
            rt: _,
            keeper: _,
            confirmed: _,
            receipt: given,
            confirmation: _,
        } = self;
        given
    }
}

// Waits until other boards keep the entry of this number, if there is one, and all before it, where they have to. `Save`
// where they don't, and the board closes.
fn confirmation_of<Rt: Wait + Clock>(
    rt: &Rt,
    confirmed: Option<&Arc<Confirmed>>,
    last: Option<u64>,
) -> Result<Option<Confirmation>, Failure>
    ensures confirmed { IfOk result (λ c. IfSome last
        (IsConfirmed (option_map (λ c. terms_of (arc_value c.now)) confirmed.entry) c)) }
    ensures failed { IfErr result (λ e. e ≡ Save) }
{
    let (Some(confirmed), Some(last)) = (confirmed, last) else {
        return Ok(None);
    };
    let Some(count) = last.checked_add(1) else {
        return Err(Failure::Save);
    };
    match confirmed.wait_for(rt, count) {
        Some(confirmation) => Ok(Some(confirmation)),
        None => Err(Failure::Save),
    }
}

impl<'r, F: Write + Drop, J: Opening, Rt: Wait + Clock> EntryKeeper for Waiter<'r, F, J, Rt> {
    ghost use Rattle.std.specs.Arc.{arc_value};
    ghost use Rattle.std.specs.Prelude.{◌≡◌, is_some, option_map, true};
    ghost use Rattle.acdm_confirming.specs.Confirming.{terms_of};
    ghost use Rattle.acdm_keeping.specs.Behind.{IsWithin};
    ghost use Rattle.acdm_keeping.specs.Confirmed.{IsConfirmed};

    ghost keeps = { λ w. is_some w.keeper };

    ghost covers = { λ w number. is_some w.keeper ≡ true → IsWithin w.receipt number
        × IsConfirmed (option_map (λ c. terms_of (arc_value c.now)) w.confirmed) w.confirmation number };

    fn keep_to(&mut self, last: Option<u64>) -> Result<Option<Receipt>, Failure> {
        let Some(keeper) = self.keeper else {
            return Ok(None);
        };
        let count = entries_to(last)?;
        match keeper.wait_for(self.rt, count) {
            Ok(receipt) => {
                let confirmation = confirmation_of(self.rt, self.confirmed, last)?;
                let told = receipt.receipt();
                self.receipt = Some(receipt);
                self.confirmation = confirmation;
                Ok(Some(told))
            }
            Err(failure) => Err(failure),
        }
    }
}
