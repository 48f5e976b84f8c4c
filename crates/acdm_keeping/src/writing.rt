//! The writing of entries for many who wait.
ghost use Rattle.std.specs.Prelude.{◌≡◌, List, [], true, false, length, IfErr, IfOk, OnErr, OnOk};
ghost use Rattle.acdm_keeping.specs.Kept.{AtAnyMoment, Blames, Keeps, StandsFor};
ghost use Rattle.acdm_row.specs.Views.{RowView};
ghost use Rattle.acdm_step.specs.declared.entry.Entry.{Entry};
ghost use Rattle.atomic_table.specs.Seated.{TableId};

use crate::keeper::Keeper;
use crate::lasting::{KeeperPass, LastingReceipt, SharedCount};
use acdm_failures::Failure;
use std::io::Write;
use std::marker::{Brand, Model};
use std::sync::Wait;

/// What is kept: the entries of a row, of which these were kept when a keeper was handed over.
pub trait Opening {
    ghost desk_row: { RowView };

    ghost opening: { List Entry };

    /// What receipts are compared by.
    ghost table: { TableId };
}

impl Opening for Brand {
    ghost use Rattle.acdm_keeping.specs.Knowing.{no_table};

    ghost desk_row = { record { cells = []; sigs = [] } };

    ghost opening = { [] };

    ghost table = { no_table };
}

/// A keeper that was handed over, with the pass that knows how many entries it has told to be kept. What it wrote since is
/// the text of the entries that it saw since, as long as nothing has failed; and of those that it told to be kept it is
/// that in any case.
#[derive(Drop)]
pub(crate) struct Writing<F: Write + Drop, J: Opening> {
    keeper: Keeper<F>,
    pass: KeeperPass<J>,
}

impl<F: Write + Drop, J: Opening> Model for Writing<F, J> {
    ghost use Rattle.std.specs.Prelude.{◌≡◌, [], false};
    ghost use Rattle.acdm_keeping.specs.Kept.{Keeps, SharedView, Stands};

    ghost Value = { SharedView F };

    ghost view = { λ w. record { keeper = w.keeper; kept = w.pass } };

    ghost invariant = { λ w. (w.keeper.row ≡ J.desk_row)
        × (w.keeper.has_failed ≡ false → Keeps J.opening w.keeper.seen [] w.keeper.writer.log)
        × Stands J.opening w.keeper.seen w.pass w.keeper.writer.log };
}

impl<F: Write + Drop, J: Opening> Writing<F, J> {
    /// What the keeper has seen is kept already: that is told first. `Save` or `Memory` where keeping has failed.
    pub(crate) fn begin<Rt: Wait>(
        rt: &Rt,
        shared: &SharedCount<J>,
        keeper: Keeper<F>,
        pass: KeeperPass<J>,
    ) -> Result<(Writing<F, J>, LastingReceipt<J>), Failure>
        requires row { keeper.row ≡ J.desk_row }
        requires first { keeper.seen ≡ J.opening }
        requires fresh { keeper.writer.log ≡ [] }
        requires none { pass ≡ 0 }
        ensures same { IfOk result (λ w. w.0.keeper ≡ keeper) }
        ensures count { IfOk result (λ w. (w.1 ≡ length keeper.seen) × (w.0.kept ≡ w.1)) }
        ensures failed { IfErr result (Blames keeper.writer) }
        ensures why { OnErr result (keeper.has_failed ≡ true) }
    {
        let receipt = match keeper.kept() {
            Ok(receipt) => receipt,
            Err(failure) => return Err(failure),
        };
        let mut pass = pass;
        let told = shared.tell(rt, &mut pass, receipt);
        Ok((Writing { keeper, pass }, told))
    }

    /// Writes all entries in sight that were not written yet, and flushes them. `Save` only where the writer has
    /// failed, `Memory` where that was refused, now or before.
    pub(crate) fn write_on<Rt: Wait>(
        &mut self,
        rt: &Rt,
        shared: &SharedCount<J>,
    ) -> Result<LastingReceipt<J>, Failure>
        ensures row { self.new.keeper.row ≡ J.desk_row }
        ensures count { IfOk result (λ r. (r ≡ length self.new.keeper.seen) × (self.new.kept ≡ r)) }
        ensures works { OnOk result (self.new.keeper.has_failed ≡ false) }
        ensures kept { OnOk result (Keeps J.opening self.new.keeper.seen [] self.new.keeper.writer.log) }
        ensures flushed { OnOk result (self.new.keeper.writer.waits ≡ false) }
        ensures failed { IfErr result (Blames self.new.keeper.writer) }
        ensures why { OnErr result (self.new.keeper.has_failed ≡ true) }
        ensures left { OnErr result (self.new.kept ≡ self.old.kept) }
        ensures stays { OnOk result (self.old.keeper.has_failed ≡ false) }
        ensures any_moment { AtAnyMoment self.old.keeper.seen self.new.keeper.seen self.old.keeper.writer.log
            self.new.keeper.writer.log }
        ensures still { self.old.keeper.has_failed ≡ true → self.new ≡ self.old }
    {
        let receipt = match self.keeper.keep() {
            Ok(receipt) => receipt,
            Err(failure) => return Err(failure),
        };
        Ok(shared.tell(rt, &mut self.pass, receipt))
    }

    /// Compares a receipt, if there is one, with what was told to be kept: it says no more than that. The text of these
    /// entries stands where it was written, whatever has failed since.
    pub(crate) fn compare<Rt: Wait>(
        &mut self,
        rt: &Rt,
        shared: &SharedCount<J>,
        latest: Option<LastingReceipt<J>>,
    )
        ensures same { self.new ≡ self.old }
        ensures stands { StandsFor J.opening latest self.old.keeper.seen self.old.keeper.writer.log }
    {
        if let Some(receipt) = latest {
            shared.compare(rt, &mut self.pass, receipt);
        }
    }

    /// The keeper.
    pub(crate) fn into_keeper(self) -> Keeper<F>
        ensures same { result ≡ self.keeper }
        ensures row { result.row ≡ J.desk_row }
        ensures kept { result.has_failed ≡ false → Keeps J.opening result.seen [] result.writer.log }
    {
        let Writing { keeper, .. } = self;
        keeper
    }
}
