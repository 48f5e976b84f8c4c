//! What can be asked by numbers.

ghost use Rattle.std.specs.Prelude.{◌≡◌, ℕ, List, IsTrue, IfOk};
ghost use Rattle.bpf_helpers.specs.Promise.{Promise, is_answer, is_question};

use crate::NoMemory;
use crate::sigs::Sigs;

/// Helpers that answer by their numbers, as a bank's do.
pub trait Helpers {
    /// The numbers of the helpers, and what they promise.
    ghost entries: { Self → List (ℕ × Promise) };

    /// The answer of the helper of this number.
    fn answer(&self, number: u32, arguments: [u64; 5]) -> u64
        requires { IsTrue (is_question (entries self.now) number arguments) }
        ensures { IsTrue (is_answer (entries self.now) number arguments result) };

    /// The numbers and the signatures of the helpers, in order. `Err` only where there is no
    /// memory.
    fn sigs(&self) -> Result<Sigs, NoMemory>
        ensures { IfOk result (λ sigs. sigs ≡ entries self.now) };
}
