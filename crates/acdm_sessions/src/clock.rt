//! What the world gives to sessions: the minute, and where a test holds them up.
ghost use Rattle.std.specs.Prelude.{◌≡◌, ◌≤◌, ℕ, Bool, true, IfSome};

use crate::answer::Answer;

/// Tells the minute.
pub trait Clock {
    /// The minutes that it may give.
    ghost gives: { Self → ℕ → Bool };

    /// The minute since 1970-01-01T00:00Z, from 1, if the clock tells one.
    fn minute(&mut self) -> Option<u32>
        ensures given { IfSome result (λ m. gives self.old m ≡ true) }
        ensures from_one { IfSome result (λ m. 1 ≤ m) }
        ensures same { gives self.new ≡ gives self.old };
}

/// Is told of each call of the desk, and may hold a session up there, as tests do; of what was answered to each
/// line; and of its end.
pub trait Gate {
    /// Before the `call`-th call of a session, from 1, takes the lock.
    fn enter(&self, session: u8, call: u64);

    /// After this was answered to a line of a session, and before the reply is written. The line stands without
    /// its line feed, and has at most 70,001 bytes, which a longer one begins with.
    fn told(&self, _session: u8, _line: &[u8], _answer: &Answer) {}

    /// After the reply to that call was written.
    fn answered(&self, session: u8, call: u64);

    /// After the session has ended, and all its replies were let go that could be; also where no
    /// thread could be started for it.
    fn ended(&self, _session: u8) {}
}
