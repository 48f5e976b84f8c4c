//! Who connects, one after the other.

/// Who connects at an address, one connection after the other.
pub trait Arrivals<R> {
    /// All that was to be told to the line that was given last was told, if one was given.
    fn answered(&mut self) {}

    /// Whether the line that was taken last may be given, of which it is asked once. It may wait until it may.
    fn admits(&mut self) -> bool;

    /// The next connection, which it may wait for; none where no more is to come. The one before has
    /// ended, and all that it was to be told was told.
    fn next(&mut self) -> Option<R>;
}
