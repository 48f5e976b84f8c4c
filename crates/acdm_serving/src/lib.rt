//! Partners of a desk, who are accepted at the listeners that are handed, and served to their end; and what
//! is told of them. It is a crate of its own so that it is proved while displays and the commands that judge
//! a file are.
#![tactic(auto)]

mod confirming;
mod first_board;
mod following;
mod handed;
mod host;
mod partners;
mod peer;
mod reconnecting;
mod tally;
mod ticks;

pub use first_board::{FirstBoardPlace, follow_first};
pub use handed::{KeptSession, latest_receipt};
pub use host::Host;
pub use partners::{Listener, PatientWriter, ServedPartners, serve_on, serve_partners};
pub use peer::{Peer, peer_term};
pub use reconnecting::{
    Answering, FileKeeper, KeptReplyWriter, Operation, Partners, Reading, Ticking,
    serve_reconnecting,
};
pub use ticks::{Beat, Ticks, Timer};
