//! Another board that is followed first, until this one is to serve.
ghost use Rattle.std.specs.Prelude.{◌≡◌, IfErr};
ghost use Rattle.acdm_following.specs.Follows.{Grows};
ghost use Rattle.acdm_serving.specs.Following.{FailsToFollow};
ghost use Rattle.acdm_step.specs.History.{IsLegal};

use crate::confirming::{Confirming, ConfirmingKeeper};
use crate::following::{BoardAddress, Connects, FirstBoardAt, FollowedStream, StopFlags};
use crate::host::Host;
use crate::reconnecting::{Operation, reporter_of};
use crate::tally::Tally;
use acdm_board::Desk;
use acdm_failures::Failure;
use acdm_following::follow;
use acdm_keeping::{EntryKeeper, Opening, Waiter};
use acdm_partners::{Acceptor, FollowedBoard, Reception};
use acdm_row::Row;
use bpf_helpers::Helpers;
use std::alloc::{AllocError, Global};
use std::io::Read;
use std::net::SocketAddr;
use std::sync::Arc;
use std::sync::atomic::AtomicBool;

/// A board that is followed: its address, as the words name it, and as what that is.
#[derive(Clone, Copy)]
pub struct FirstBoardPlace<'a> {
    /// As it is named.
    pub name: &'a str,
    /// What it is.
    pub address: SocketAddr,
}

// A text once more, if there is one.
fn text_of(alloc: Global, text: &Option<String>) -> Result<Option<String>, AllocError> {
    match text {
        Some(text) => Ok(Some(String::from_str(alloc, text.as_str())?)),
        None => Ok(None),
    }
}

// A board that is followed, and who looks after this one meanwhile.
#[derive(Drop)]
struct Follower<'r, Rt: Host> {
    board: FirstBoardAt<'r, Rt, BoardAddress<'r, Rt>, FollowedStream>,
    reception: Reception,
    flags: StopFlags,
    confirming: Arc<Confirming>,
}

// Starts the thread that answers at the control address while a board is followed, and looks after the file of the
// journal. `Memory` where that was refused, or no thread could be made.
fn follower_of<'r, J: Opening, Rt: Host>(
    rt: &'r Rt,
    alloc: Global,
    place: FirstBoardPlace<'_>,
    operation: &mut Operation<'r, J, Rt>,
    row: &Arc<Row>,
) -> Result<Follower<'r, Rt>, AllocError>
    ensures keeper { operation.new ≡ record operation.old { control = operation.new.control } }
{
    let flags = StopFlags {
        closing: Arc::try_clone(&operation.closing)?,
        promoted: Arc::new(alloc, AtomicBool::new(false))?,
    };
    let is_connected = Arc::new(alloc, AtomicBool::new(false))?;
    let first = FollowedBoard {
        address: String::from_str(alloc, place.name)?,
        is_connected: Arc::try_clone(&is_connected)?,
        promoted: Arc::try_clone(&flags.promoted)?,
    };
    let kept = match &operation.kept {
        Some(kept) => Some(kept.copy(alloc)?),
        None => None,
    };
    let tally = Tally {
        rt: rt.clone()?,
        row: Arc::try_clone(row)?,
        kept,
        confirmed: None,
        term: operation.term.copy(alloc)?,
        ticks: None,
    };
    let reporter = reporter_of(rt, alloc, text_of(alloc, &operation.log)?)?;
    let own = reporter.beside(rt.clone()?)?;
    let closing = Arc::try_clone(&operation.closing)?;
    let same = flags.copy()?;
    let control = operation.control.take();
    let acceptor = Acceptor::new(
        reporter,
        Vec::new(alloc),
        control,
        tally,
        Some(first),
        closing,
    )?;
    let reception = Reception::begin(rt, acceptor)?;
    let confirming = Arc::new(alloc, Confirming::new(rt, alloc))?;
    let address = BoardAddress {
        rt,
        alloc,
        row: Arc::try_clone(row)?,
        address: place.address,
        flags: flags.copy()?,
        confirming: Arc::try_clone(&confirming)?,
        term: operation.term.copy(alloc)?,
    };
    let board = FirstBoardAt::new(rt, alloc, own, address, same, is_connected);
    Ok(Follower {
        board,
        reception,
        flags,
        confirming,
    })
}

// A board that was promoted goes on in its next term. `Keep` where that can't be written, and why is known by the name of
// the file then.
fn take_over<J: Opening, Rt: Host>(
    rt: &Rt,
    alloc: Global,
    operation: &Operation<'_, J, Rt>,
) -> Result<(), Failure>
    ensures { IfErr result FailsToFollow }
{
    match operation.term.take_over(rt, alloc) {
        Ok(()) => Ok(()),
        Err(error) => {
            if let Some(kept) = &operation.kept {
                kept.fail(&error);
            }
            Err(Failure::Keep)
        }
    }
}

/// Follows a board, by a desk whose journal is kept, until it is asked at the control address that this one serves or
/// closes, or until its file does not stand any more where it was. Says whether it was asked to serve. All that came by
/// then is in the desk, and kept. It goes on in the term of the board that it follows, and serves in the next one.
///
/// `Keep` where keeping failed, or the next term could not be written, `Room` where the desk has no place for an entry that came; `Memory` where it was refused,
/// or no thread could be made.
pub fn follow_first<'r, J: Opening + Send + Sync, Rt: Host, H: Helpers + Drop>(
    rt: &'r Rt,
    alloc: Global,
    place: FirstBoardPlace<'_>,
    operation: &mut Operation<'r, J, Rt>,
    desk: &mut Desk<H>,
) -> Result<bool, Failure>
    ensures grows { Grows desk.old desk.new }
    ensures legal { IsLegal desk.new.sigs desk.new.history }
    ensures operation { operation.new ≡ record operation.old { control = operation.new.control } }
    ensures fails { IfErr result FailsToFollow }
{
    // (it says that the journal is legal)
    let _core = desk.core();
    let Ok(follower) = follower_of(rt, alloc, place, operation, desk.row()) else {
        return Err(Failure::Memory);
    };
    let Follower {
        mut board,
        reception,
        flags,
        confirming,
    } = follower;
    let mut keeper = ConfirmingKeeper {
        rt,
        keeper: Waiter::new(rt, operation.keeper, None),
        confirming,
    };
    let followed = follow_by(alloc, &mut board, &mut keeper, desk);
    // (all that was told of the first board is written by then too)
    operation.control = reception.end(rt);
    match followed {
        Ok(()) => {}
        Err(failure) => return Err(failure),
    }
    if !flags.is_promoted() {
        return Ok(false);
    }
    match take_over(rt, alloc, operation) {
        Ok(()) => Ok(true),
        Err(failure) => Err(failure),
    }
}

// Follows a board over any connections, by a desk whose journal is kept.
fn follow_by<
    'r,
    K: EntryKeeper,
    Rt: Host,
    M: Connects<C> + Drop,
    C: Read + Drop,
    H: Helpers + Drop,
>(
    alloc: Global,
    board: &mut FirstBoardAt<'r, Rt, M, C>,
    keeper: &mut K,
    desk: &mut Desk<H>,
) -> Result<(), Failure>
    ensures grows { Grows desk.old desk.new }
    ensures legal { IsLegal desk.new.sigs desk.new.history }
    ensures fails { IfErr result FailsToFollow }
{
    match follow(alloc, board, keeper, desk) {
        Ok(()) => Ok(()),
        Err(Failure::Memory) => Err(Failure::Memory),
        Err(Failure::Room) => Err(Failure::Room),
        Err(_) => Err(Failure::Keep),
    }
}
