//! What keeps a run from its end.

/// Why a run came to no end.
#[derive(Clone, Copy, PartialEq, Eq, Debug)]
pub enum Trap {
    /// No step leads on.
    Stuck,
    /// A helper was asked, and the oracle gave no answer.
    Unanswered,
}
