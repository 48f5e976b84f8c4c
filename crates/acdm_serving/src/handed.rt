//! What sessions have handed on behind the keeping of their entries.
ghost use Rattle.std.specs.List.{All};
ghost use Rattle.acdm_keeping.specs.HandedOn.{IsHandedBy};

use crate::host::Host;
use crate::reconnecting::{KeptReplyWriter, Reading};
use acdm_keeping::{LastingReceipt, Opening, later};
use acdm_sessions::EndedSession;

/// A session whose replies were handed on behind the keeping of their entries, once it has ended.
pub type KeptSession<'r, J, Rt, C> = EndedSession<Reading<'r, Rt>, KeptReplyWriter<'r, J, Rt>, C>;

// The receipt behind which the replies of a session were handed on last, if the journal is kept and any were.
fn receipt_of<'r, J: Opening, Rt: Host, C: Drop>(
    session: KeptSession<'r, J, Rt, C>,
) -> Option<LastingReceipt<J>>
    ensures { IsHandedBy session.entry.writer.inner result }
{
    let EndedSession {
        number: _,
        role: _,
        reader,
        writer,
        clock,
        calls: _,
        end: _,
        pass,
        torn: _,
    } = session;
    drop(reader);
    drop(clock);
    drop(pass);
    let (waiter, _) = writer.into_inner().into_keeper();
    waiter.into_receipt()
}

/// A receipt for all entries of which the replies tell that any of these sessions handed on, if the journal is kept:
/// the one of theirs that is for most.
pub fn latest_receipt<'r, J: Opening, Rt: Host, C: Drop>(
    sessions: Vec<KeptSession<'r, J, Rt, C>>,
) -> Option<LastingReceipt<J>>
    ensures { All (λ e. IsHandedBy e.writer.inner result) sessions.entry.items }
{
    let mut latest = None;
    for session in sessions {
        latest = later(latest, receipt_of(session));
    }
    latest
}
