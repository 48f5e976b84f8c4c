//! What answers the calls of a program.

ghost use Rattle.std.specs.Prelude.{◌≡◌, ◌+◌, ◌^◌, ◌<◌, ◌↔◌, ℕ, List, ◌++◌, Bool, IsTrue, IsNone};
ghost use Rattle.std.specs.Prelude.{IfSome, option_to_list, is_none, if◌then◌else◌};
ghost use Rattle.bpf_helpers.specs.Promise.{is_answer, is_question};
ghost use Rattle.bpf_helpers.specs.Oracles.{OracleView, SameRule};

/// Answers the calls of helpers, each within the promise of its signature, or gives no answer.
pub trait Oracle {
    /// What contracts see of it.
    ghost view: { Self → OracleView };

    /// The answer of a helper to these arguments, those beyond its signature being 0. `None` is
    /// counted.
    fn call(&mut self, helper: u32, arguments: [u64; 5]) -> Option<u64>
        requires question { IsTrue (is_question (view self.old).sigs helper arguments) }
        requires counts { (view self.old).refusals + 1 < 2 ^ 64 }

        ensures promised { IfSome result
            (λ answer. IsTrue (is_answer (view self.old).sigs helper arguments answer)) }
        ensures declined { IsNone result ↔ IsTrue
            ((view self.old).declines (view self.old).log helper arguments) }
        ensures logged { (view self.new).log ≡ (view self.old).log ++ option_to_list result }
        ensures counted { (view self.new).refusals
            ≡ (if is_none result then (view self.old).refusals + 1 else (view self.old).refusals) }

        // What it answers from stays the same.
        ensures same_rule { SameRule (view self.old) (view self.new) };
}
