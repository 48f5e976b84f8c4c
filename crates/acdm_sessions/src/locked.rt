//! What lies under the lock.
ghost use Rattle.std.specs.Prelude.{◌≡◌, ◌≢◌, ◌+◌, ◌<◌, ◌≤◌, ◌^◌, ◌↔◌, ℕ, [], true, false, length};
ghost use Rattle.std.specs.Prelude.{Err, OnOk, OnErr, IfOk};
ghost use Rattle.acdm_row.specs.Views.{IsSameCaller, RowView};
ghost use Rattle.acdm_board.specs.Desk.{is_foreign, row_of};
ghost use Rattle.acdm_sessions.specs.Passes.{are_from};
ghost use Rattle.acdm_sessions.specs.Sessions.{Calls, IsFull};

use crate::order::Order;
use acdm_board::{Desk, DeskError, Reply};
use acdm_row::Pass;
use bpf_helpers::Helpers;
use std::marker::Brand;
use std::sync::ledger::{Book, Ledger, Share};

/// What one run of sessions goes by: a ledger of its own, the row of its desk, and how many entries
/// the desk had before it.
pub(crate) trait Naming: Ledger {
    ghost desk_row: { RowView };

    ghost start: { ℕ };
}

impl Naming for Brand {
    ghost desk_row = { record { cells = []; sigs = [] } };

    ghost start = { 0 };
}

/// The desk, and the ledger's book, which counts its entries.
#[derive(Drop)]
pub(crate) struct Locked<H: Helpers + Drop, J: Naming> {
    pub(crate) desk: Desk<H>,
    pub(crate) book: Book<J>,
    ghost counted: { length desk.history ≡ book.total },
    ghost of_run: { row_of desk ≡ J.desk_row },
    ghost since: { J.start ≤ length desk.history },
}

// Holds a pass against a journal that is full.
fn hold_full<H: Helpers + Drop>(desk: &mut Desk<H>, pass: &mut Pass)
    requires row { pass.old.row ≡ row_of desk.old }
    requires full { length desk.old.history ≡ desk.old.capacity }
    ensures same { (desk.new ≡ desk.old) × (pass.new ≡ pass.old) }
    ensures full { IsFull pass.old }
{
    if !desk.holds(pass) {
        unreachable!();
    }
    // (its contract says that the journal is legal: `full`)
    let _core = desk.core();
}

impl<H: Helpers + Drop, J: Naming> Locked<H, J> {
    /// One call of a session by its pass, which its share counts where it makes an entry. The errors
    /// are those of the desk, of which `OtherSignatures` can't come.
    pub(crate) fn call(
        &mut self,
        pass: &mut Pass,
        order: Order,
        mine: &mut Share<J>,
    ) -> Result<Reply, DeskError>
        requires row { pass.old.row ≡ J.desk_row }
        requires moment_given { 1 ≤ order.moment }
        requires part { 0 < mine.old.parts }
        requires checked { is_foreign J.desk_row.sigs order.command ≡ false }
        ensures parts { mine.new.parts ≡ mine.old.parts }
        ensures ok { OnOk result (mine.new.amount ≡ mine.old.amount + 1) }
        ensures fits { OnOk result (mine.new.amount < 2 ^ 64) }
        ensures err { OnErr result ((mine.new.amount ≡ mine.old.amount)
            × (self.new.desk ≡ self.old.desk) × (pass.new ≡ pass.old)) }
        ensures calls { IfOk result (λ reply. Calls J.desk_row.sigs order pass.old pass.new
            reply) }
        ensures caller { IsSameCaller pass.old pass.new }
        ensures own { OnOk result (length pass.new.own ≡ length pass.old.own + 1) }
        ensures since { OnOk result (are_from J.start pass.old.numbers ≡ true
            → are_from J.start pass.new.numbers ≡ true) }
        ensures full { (result ≡ Err DeskError.Full)
            ↔ (length self.old.desk.history ≡ self.old.desk.capacity) }
        ensures seen_full { result ≡ Err DeskError.Full → IsFull pass.old }
        ensures known { result ≢ Err DeskError.OtherSignatures }
    {
        let Locked { desk, book } = self;
        let Order { moment, command } = order;
        let reply = match desk.call_lent(pass, moment, command) {
            Ok(reply) => reply,
            Err(error) => {
                if error == DeskError::Full {
                    hold_full(desk, pass);
                }
                return Err(error);
            }
        };
        book.add(mine, 1);
        book.audit(mine);
        // (its contract counts the journal, for the invariant)
        let _count = desk.len();
        Ok(reply)
    }
}
