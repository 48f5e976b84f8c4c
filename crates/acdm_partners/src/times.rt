//! How long is waited.

/// After how many milliseconds it is looked again whether something is to be done.
pub(crate) const PAUSE: u64 = 25;

/// After how many milliseconds a write that waits is made again. Where 120 in a row took nothing, which is
/// 30 seconds, a partner is let go.
pub const PATIENCE: u64 = 250;

/// After how many milliseconds a read that waits looks whether the board closes, at most.
pub(crate) const LONGEST_READ: u64 = 1_000;
