//! Receipts that outlive the lock of a keeper.
ghost use Rattle.std.specs.Prelude.{◌≡◌, ◌≤◌};
ghost use Rattle.acdm_keeping.specs.Behind.{IsLater};

use crate::keeper::Receipt;
use crate::knowledge::{Cell, Compares, CountPass, Raises, Receipts};
use crate::writing::Opening;
use std::alloc::{AllocError, Global};
use std::marker::{Model, PhantomData};
use std::sync::Wait;

/// How many entries of a board are kept, as it is before a keeper of them is shared. Contracts see which it is.
pub struct KeptCount {
    cell: Cell,
    pass: CountPass,
}

impl Drop for KeptCount {
    fn drop(self) {
        let KeptCount { cell: _, pass: _ } = self;
    }
}

impl Model for KeptCount {
    ghost use Rattle.std.specs.Prelude.{◌≡◌};
    ghost use Rattle.atomic_table.specs.Seated.{TableId, table_id_coded};
    ghost use Rattle.crossbeam_utils.specs.Seq.{cell_view};
    ghost use Rattle.acdm_keeping.specs.Knowing.{knows};

    ghost Value = { TableId };

    ghost coded = { table_id_coded };

    ghost view = { λ k. k.cell.table.shared.table_id };

    ghost invariant = { λ k. (k.pass.table_id ≡ k.cell.table.shared.table_id)
        × (cell_view k.pass ≡ knows 0) };
}

impl KeptCount {
    /// One of its own. `Err` only where memory was refused.
    pub fn new(alloc: Global) -> Result<KeptCount, AllocError> {
        let (cell, pass) = Cell::ruled(alloc, [0])?;
        Ok(KeptCount { cell, pass })
    }

    /// What many have of it, and what its one keeper has.
    pub(crate) fn share<J: Opening>(self) -> (SharedCount<J>, KeeperPass<J>)
        requires { self ≡ J.table }
        ensures { result.1 ≡ 0 }
    {
        let KeptCount { cell, pass } = self;
        let shared = SharedCount {
            cell,
            of: PhantomData,
        };
        let pass = KeeperPass {
            pass,
            of: PhantomData,
        };
        (shared, pass)
    }
}

/// What its one keeper has: how many entries it knows to be kept.
#[derive(Drop)]
pub(crate) struct KeeperPass<J: Opening> {
    pass: CountPass,
    of: PhantomData<J>,
}

impl<J: Opening> Model for KeeperPass<J> {
    ghost use Rattle.std.specs.Prelude.{◌≡◌, ℕ};
    ghost use Rattle.crossbeam_utils.specs.Seq.{cell_view};
    ghost use Rattle.acdm_keeping.specs.Knowing.{knows};

    ghost Value = { ℕ };

    ghost view = { λ k. (cell_view k.pass).count };

    ghost invariant = { λ k. (k.pass.table_id ≡ J.table)
        × (cell_view k.pass ≡ knows (cell_view k.pass).count) };
}

/// That so many entries are kept: the first of a row, at least. A keeper alone makes one, as it makes a `Receipt`, and it
/// may be compared with what that keeper has kept, whoever holds it and whatever has failed since. Contracts see the
/// number.
#[derive(Drop)]
pub struct LastingReceipt<J: Opening> {
    receipt: Receipt,
    pass: CountPass,
    of: PhantomData<J>,
}

impl<J: Opening> Model for LastingReceipt<J> {
    ghost use Rattle.std.specs.Prelude.{◌≡◌, ℕ, []};
    ghost use Rattle.crossbeam_utils.specs.Seq.{cell_view};
    ghost use Rattle.acdm_keeping.specs.Knowing.{claims};

    ghost Value = { ℕ };

    ghost view = { λ r. r.receipt.count };

    ghost invariant = { λ r. (r.pass.table_id ≡ J.table) × (r.pass.me.1 ≡ [])
        × (cell_view r.pass ≡ claims r.receipt.count) };
}

impl<J: Opening> LastingReceipt<J> {
    /// The receipt itself, without what lasts.
    pub fn receipt(&self) -> Receipt
        ensures { result.count ≡ self.now }
    {
        self.receipt
    }

    /// How many entries are kept.
    pub fn count(&self) -> usize
        ensures { result ≡ self.now }
    {
        self.receipt.count()
    }
}

/// The receipt of two that is for more entries, if there is one.
pub fn later<J: Opening>(
    one: Option<LastingReceipt<J>>,
    other: Option<LastingReceipt<J>>,
) -> Option<LastingReceipt<J>>
    ensures one { IsLater one result }
    ensures other { IsLater other result }
{
    let Some(first) = one else {
        return other;
    };
    let Some(second) = other else {
        return Some(first);
    };
    if first.count() < second.count() {
        return Some(second);
    }
    Some(first)
}

/// What many have of a count.
#[derive(Drop)]
pub(crate) struct SharedCount<J: Opening> {
    cell: Cell,
    of: PhantomData<J>,
}

impl<J: Opening> Model for SharedCount<J> {
    ghost use Rattle.std.specs.Prelude.{◌≡◌};
    ghost use Rattle.atomic_table.specs.Seated.{TableId, table_id_coded};

    ghost Value = { TableId };

    ghost coded = { table_id_coded };

    ghost view = { λ s. s.cell.table.shared.table_id };

    ghost invariant = { λ s. s.cell.table.shared.table_id ≡ J.table };
}

impl<J: Opening> SharedCount<J> {
    /// Its keeper has this receipt now, which lasts from then on.
    pub(crate) fn tell<Rt: Wait>(
        &self,
        rt: &Rt,
        pass: &mut KeeperPass<J>,
        receipt: Receipt,
    ) -> LastingReceipt<J>
        requires { pass.old ≤ receipt.count }
        ensures kept { pass.new ≡ receipt.count }
        ensures receipt { result ≡ receipt.count }
    {
        self.cell
            .swap_as::<Raises, Rt>(rt, &mut pass.pass, [receipt.count() as u64]);
        let given = self.cell.split_pass::<Receipts>(&mut pass.pass);
        LastingReceipt {
            receipt,
            pass: given,
            of: PhantomData,
        }
    }

    /// A receipt once more.
    pub(crate) fn copy(&self, receipt: &mut LastingReceipt<J>) -> LastingReceipt<J>
        ensures same { receipt.new ≡ receipt.old }
        ensures copy { result ≡ receipt.old }
    {
        let kept = self.cell.split_pass::<Receipts>(&mut receipt.pass);
        let given = self.cell.split_pass::<Receipts>(&mut receipt.pass);
        receipt.pass = kept;
        LastingReceipt {
            receipt: receipt.receipt,
            pass: given,
            of: PhantomData,
        }
    }

    /// Compares a receipt with what its keeper has kept: it says no more than that.
    pub(crate) fn compare<Rt: Wait>(
        &self,
        rt: &Rt,
        pass: &mut KeeperPass<J>,
        receipt: LastingReceipt<J>,
    )
        ensures same { pass.new ≡ pass.old }
        ensures covered { receipt ≤ pass.old }
    {
        let LastingReceipt { pass: given, .. } = receipt;
        self.cell.join_pass::<Receipts>(&mut pass.pass, given);
        self.cell.load_as::<Compares, Rt>(rt, &mut pass.pass);
    }
}
