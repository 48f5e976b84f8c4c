//! The helpers of an embeddable machine.

ghost use Rattle.std.specs.Prelude.{◌≤◌, vec_capacity, vec_len};

use bpf_helpers::{BankFault, Helper, Helpers, MAX_HELPERS, NoMemory, NotAdded, Sigs};
use std::alloc::Global;

/// At most 32 helpers, with room for all of them from the start, as those of a `Bank`. A method
/// under `&mut` that calls a bank's is not proved in another crate than the bank's. Contracts see
/// it by the word `entries_in`.
#[derive(Drop)]
pub struct Registry {
    helpers: Vec<Helper>,
    ghost has_room: { 32 ≤ vec_capacity helpers },
    ghost within: { vec_len helpers ≤ 32 },
}

impl Registry {
    ghost use Rattle.std.specs.Prelude.{◌≡◌, [], ◌∷◌, ◌++◌, Some, None, MatchOption, IsTrue, IsOk};
    ghost use Rattle.std.specs.Prelude.{IsErrAnd, IfOk, IfErr, OnOk, OnErr};
    ghost use Rattle.bpf_helpers.specs.Helpers.{entry_of};
    ghost use Rattle.bpf_helpers.specs.Promise.{is_answer, is_question, signature_of};
    ghost use Rattle.bpf_machine.specs.Registry.{HasRoom, IsFree, IsFull, IsTaken, entries_in};

    /// No helpers. `Err` only where there is no memory.
    pub(crate) fn new(alloc: Global) -> Result<Registry, NoMemory>
        ensures { IfOk result (λ registry. entries_in registry ≡ []) }
    {
        let helpers = Vec::with_capacity(alloc, MAX_HELPERS)?;
        Ok(Registry { helpers })
    }

    /// The helper of this number.
    fn get(&self, number: u32) -> Option<&Helper>
        ensures { MatchOption result (signature_of (entries_in self.now) number ≡ None)
            (λ helper. signature_of (entries_in self.now) number ≡ Some (entry_of helper.now).1) }
    {
        let mut rest = self.helpers.as_slice();
        while let Some((helper, more)) = rest.split_first() {
            if helper.number() == number {
                return Some(helper);
            }
            rest = more;
        }
        None
    }

    /// Adds a helper, for which no memory is taken.
    pub(crate) fn add(&mut self, helper: Helper) -> Result<(), NotAdded>
        ensures taken { IsTaken self.old helper
            → IsErrAnd result (λ e. e.fault ≡ BankFault.NumberTaken) }
        ensures full { IsFree self.old helper → IsFull self.old
            → IsErrAnd result (λ e. e.fault ≡ BankFault.Full) }
        ensures fits { IsFree self.old helper → HasRoom self.old → IsOk result }
        ensures added { OnOk result (entries_in self.new ≡ entries_in self.old ++ entry_of helper
            ∷ []) }
        ensures unchanged { OnErr result (self.new ≡ self.old) }
        ensures returned { IfErr result (λ e. e.helper ≡ helper) }
    {
        if self.get(helper.number()).is_some() {
            return Err(NotAdded {
                fault: BankFault::NumberTaken,
                helper,
            });
        }
        if self.helpers.len() == MAX_HELPERS {
            return Err(NotAdded {
                fault: BankFault::Full,
                helper,
            });
        }
        self.helpers.push_reserved(helper);
        Ok(())
    }

    /// The allocator of the helpers.
    pub(crate) fn allocator(&self) -> Global {
        *self.helpers.allocator()
    }

    /// The answer of the helper of this number.
    fn answer_of(&self, number: u32, arguments: [u64; 5]) -> u64
        requires { IsTrue (is_question (entries_in self.now) number arguments) }
        ensures { IsTrue (is_answer (entries_in self.now) number arguments result) }
    {
        match self.get(number) {
            Some(helper) => helper.answer(arguments),
            None => unreachable!(),
        }
    }

    /// The numbers and the signatures of the helpers, in order. `Err` only where there is no
    /// memory.
    fn all_sigs(&self) -> Result<Sigs, NoMemory>
        ensures { IfOk result (λ sigs. sigs ≡ entries_in self.now) }
    {
        let mut sigs = Sigs::new(self.allocator());
        for helper in &self.helpers {
            sigs.push(helper.number(), helper.signature().copy()?)?;
        }
        Ok(sigs)
    }
}

impl Helpers for Registry {
    ghost use Rattle.bpf_machine.specs.Registry.{entries_in};

    ghost entries = { λ registry. entries_in registry };

    fn answer(&self, number: u32, arguments: [u64; 5]) -> u64 {
        self.answer_of(number, arguments)
    }

    fn sigs(&self) -> Result<Sigs, NoMemory> {
        self.all_sigs()
    }
}
