//! The term of a journal that a board goes on from, beside that of the board's peer.
ghost use Rattle.std.specs.Prelude.{◌≡◌, true, Some, IfErr, IfOk, is_some};
ghost use Rattle.acdm_commands.specs.Terms.{FailsByTerm, MayGoOn};

use crate::context::Context;
use crate::request::KeepIn;
use acdm_failures::Failure;
use acdm_keeping::{BoardTerm, is_replaced};
use acdm_serving::{Host, Peer, peer_term};
use std::alloc::{AllocError, Global};
use std::fs::{File, Files};
use std::io::{self, ErrorKind};
use std::net::SocketAddr;

/// What is known of the term of a peer.
#[derive(Drop)]
pub(crate) enum PeerTerm {
    /// It is this one.
    Asked(u64),
    /// It could not be asked for it, for this reason.
    Unreached(String),
    /// It is asked once this board serves, which follows another one before.
    Unasked,
}

/// The peer of a board, where it is, and what is known of its term.
#[derive(Drop)]
pub(crate) struct AskedPeer {
    pub(crate) address: SocketAddr,
    pub(crate) term: PeerTerm,
}

impl AskedPeer {
    /// The peer, as it is asked again.
    pub(crate) fn again(self) -> Peer {
        let AskedPeer { address, term } = self;
        Peer {
            address,
            unreached: match term {
                PeerTerm::Unreached(why) => Some(why),
                PeerTerm::Asked(_) | PeerTerm::Unasked => None,
            },
        }
    }
}

/// The term of a journal, what it was as it was read, and the peer, where one is named.
#[derive(Drop)]
pub(crate) struct JournalTerm {
    pub(crate) term: BoardTerm,
    pub(crate) own: u64,
    pub(crate) peer: Option<AskedPeer>,
}

impl JournalTerm {
    /// The first term, of a journal that is kept nowhere. `Err` only where memory was refused.
    pub(crate) fn first(alloc: Global) -> Result<JournalTerm, AllocError> {
        let term = BoardTerm::first(alloc)?;
        let own = term.own();
        Ok(JournalTerm {
            term,
            own,
            peer: None,
        })
    }
}

// Why the peer at an address could not be asked, in words.
fn unreached_text(alloc: Global, peer: &str, error: &io::Error) -> Result<String, AllocError> {
    let mut text = String::from_str(alloc, peer)?;
    text.push_str(": ")?;
    text.push_str(error.to_string(alloc)?.as_str())?;
    Ok(text)
}

// The address of the peer. `Peer` where it is none, which is noted.
fn address_of<Rt>(context: &Context<'_, Rt>, peer: &str) -> Result<SocketAddr, Failure>
    ensures { IfErr result (λ failure. failure ≡ Failure.Peer) }
{
    match peer.parse::<SocketAddr>() {
        Ok(address) => Ok(address),
        Err(_) => {
            let error = io::Error::new(ErrorKind::InvalidInput, "no IP address with a port");
            context.why.note(context.alloc, "--peer ", peer, &error);
            Err(Failure::Peer)
        }
    }
}

// Notes that the peer has a later term than the journal.
fn note_replaced<Rt>(context: &Context<'_, Rt>, peer: &str) {
    let error = io::Error::new(
        ErrorKind::InvalidInput,
        "it has a later term than this journal",
    );
    context.why.note(context.alloc, "--peer ", peer, &error);
}

// Asks the peer for its term, which may be no later than this one, unless another board is followed before. `Replaced` where
// it is, which is noted; `Peer` where its address is none, `Memory` where that was refused. Where it can't be asked, why not
// is answered.
fn ask_peer<Rt: Host>(
    context: &Context<'_, Rt>,
    own: u64,
    peer: &str,
    follows: bool,
) -> Result<AskedPeer, Failure>
    ensures goes_on { IfOk result (λ found. MayGoOn follows true own (Some found)) }
    ensures fails { IfErr result (FailsByTerm true) }
{
    let address = match address_of(context, peer) {
        Ok(address) => address,
        Err(failure) => return Err(failure),
    };
    if follows {
        let term = PeerTerm::Unasked;
        return Ok(AskedPeer { address, term });
    }
    match peer_term(context.rt, &address) {
        Ok(other) => {
            if is_replaced(own, other) {
                note_replaced(context, peer);
                return Err(Failure::Replaced);
            }
            let term = PeerTerm::Asked(other);
            Ok(AskedPeer { address, term })
        }
        Err(error) => match unreached_text(context.alloc, peer, &error) {
            Ok(why) => {
                let term = PeerTerm::Unreached(why);
                Ok(AskedPeer { address, term })
            }
            Err(_) => Err(Failure::Memory),
        },
    }
}

/// The term of the journal in a file, which a board may go on from unless its peer, where one is named, has a later one; or
/// which one goes on from that follows another board, whatever its peer has.
///
/// `Replaced` where it has, `Peer` where its address is none; `Keep` where the file of the term can't be read, or has
/// something else; `Memory` where that was refused. Why is noted.
pub(crate) fn term_of<Rt: Host + Files<File = File>>(
    context: &Context<'_, Rt>,
    keep: KeepIn<'_>,
    peer: Option<&str>,
    follows: bool,
) -> Result<JournalTerm, Failure>
    ensures goes_on { IfOk result (λ found. MayGoOn follows (is_some peer.entry) found.own found.peer) }
    ensures fails { IfErr result (FailsByTerm (is_some peer.entry)) }
{
    let term = match BoardTerm::read(context.rt, context.alloc, keep.path) {
        Ok(term) => term,
        Err(error) => {
            let (why, word) = (&context.why, "the term of --keep ");
            return Err(why.failure(context.alloc, Failure::Keep, word, keep.path, &error));
        }
    };
    let own = term.own();
    let Some(peer) = peer else {
        return Ok(JournalTerm {
            term,
            own,
            peer: None,
        });
    };
    match ask_peer(context, own, peer, follows) {
        Ok(found) => Ok(JournalTerm {
            term,
            own,
            peer: Some(found),
        }),
        Err(failure) => Err(failure),
    }
}
