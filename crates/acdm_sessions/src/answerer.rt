//! Who answers the lines of a reader.
use crate::answer::Answer;
use std::alloc::Global;

/// Who answers lines, one after the other.
pub(crate) trait Answerer {
    ghost use Rattle.std.specs.Prelude.{◌≡◌, ◌++◌, ℕ, List};
    ghost use Rattle.acdm_sessions.specs.Announced.{numbers_of};
    ghost use Rattle.acdm_sessions.specs.declared.answer.Answer.{Answer as Reply};

    /// A line may be answered so: who answers before and after it, the line, and the answer.
    ghost may: { Self → Self → List ℕ → Reply → Type 0 };

    /// The numbers of the entries that were made.
    ghost made: { Self → List ℕ };

    /// Answers a line, which stands without its line feed.
    fn answer(&mut self, alloc: Global, line: &[u8]) -> Answer
        ensures answers { may self.old self.new line.now result }
        ensures made { made self.new ≡ made self.old ++ numbers_of result };

    /// Is told that the reply to the last line was written.
    fn replied(&self);
}
