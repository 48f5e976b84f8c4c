//! The oracle that repeats answers.

ghost use Rattle.std.specs.Prelude.{◌≤◌, length};

use crate::oracle::Oracle;
use crate::sigs::Sigs;

/// Gives the answers of a list, the first one first, as long as each is promised.
#[derive(Drop)]
pub struct Logged<'a> {
    sigs: &'a Sigs,
    answers: &'a [u64],
    used: usize,
    refusals: u64,
    ghost within: { used ≤ length answers.now },
}

impl<'a> Logged<'a> {
    ghost use Rattle.std.specs.Prelude.{◌≡◌, [], ◌++◌};
    ghost use Rattle.bpf_helpers.specs.Oracles.{sigs_of_logged, log_of_logged, refusals_of_logged};
    ghost use Rattle.bpf_helpers.specs.Oracles.{answers_of_logged};

    /// An oracle that gives these answers to calls of helpers with these signatures.
    pub fn new(sigs: &'a Sigs, answers: &'a [u64]) -> Logged<'a>
        ensures sigs { sigs_of_logged result ≡ sigs.now }
        ensures log { log_of_logged result ≡ [] }
        ensures refusals { refusals_of_logged result ≡ 0 }
        ensures answers { answers_of_logged result ≡ answers.now }
    {
        Logged {
            sigs,
            answers,
            used: 0,
            refusals: 0,
        }
    }

    /// The answers that were not given yet.
    pub fn left(&self) -> &'a [u64]
        ensures { log_of_logged self.now ++ result.now ≡ answers_of_logged self.now }
    {
        &self.answers[self.used..]
    }
}

impl<'a> Oracle for Logged<'a> {
    ghost use Rattle.bpf_helpers.specs.Oracles.{view_of_logged};

    /// It gives no answer where the next one is missing, or where the helper may not give it.
    ghost view = { view_of_logged };

    fn call(&mut self, helper: u32, arguments: [u64; 5]) -> Option<u64> {
        if self.used < self.answers.len() {
            let answer = self.answers[self.used];
            if self.sigs.promises(helper, &arguments, answer) {
                self.used += 1;
                return Some(answer);
            }
        }
        self.refusals += 1;
        None
    }
}
