//! The helpers that are registered.

ghost use Rattle.std.specs.Prelude.{◌≡◌, ◌≤◌, vec_capacity, vec_len};
ghost use Rattle.bpf_helpers.specs.Faults.{code_of};

use crate::NoMemory;
use crate::helper::Helper;
use crate::helpers::Helpers;
use crate::sigs::Sigs;
use std::alloc::Global;

/// The most helpers that a bank holds.
pub const MAX_HELPERS: usize = 32;

/// Why a bank refuses a helper (this project's profile).
#[derive(Clone, Copy, PartialEq, Eq, Debug)]
pub enum BankFault {
    /// The bank has a helper of that number.
    NumberTaken,
    /// The bank has 32 helpers.
    Full,
}

impl BankFault {
    /// The number of this refusal.
    pub fn code(self) -> u16
        ensures { result ≡ code_of self }
    {
        match self {
            BankFault::NumberTaken => 331,
            BankFault::Full => 332,
        }
    }
}

/// A helper that a bank refused, and why.
#[derive(Drop)]
pub struct NotAdded {
    pub fault: BankFault,
    pub helper: Helper,
}

/// At most 32 helpers, with room for all of them from the start. Contracts see the numbers and the
/// promises of its helpers by the word `entries_of`.
#[derive(Drop)]
pub struct Bank {
    helpers: Vec<Helper>,
    ghost has_room: { 32 ≤ vec_capacity helpers },
    ghost within: { vec_len helpers ≤ 32 },
}

impl Bank {
    ghost use Rattle.std.specs.Prelude.{◌≡◌, [], ◌∷◌, ◌++◌, Some, None, MatchOption, IsTrue, IsOk};
    ghost use Rattle.std.specs.Prelude.{IsErrAnd, IfOk, IfErr, OnOk, OnErr};
    ghost use Rattle.bpf_helpers.specs.Helpers.{HasRoom, IsFree, IsFull, IsTaken, entries_of};
    ghost use Rattle.bpf_helpers.specs.Helpers.{entry_of};
    ghost use Rattle.bpf_helpers.specs.Promise.{is_answer, is_question, signature_of};

    /// A bank without helpers that has room for 32. `Err` only where there is no memory.
    pub fn new(alloc: Global) -> Result<Bank, NoMemory>
        ensures { IfOk result (λ bank. entries_of bank ≡ []) }
    {
        let helpers = Vec::with_capacity(alloc, MAX_HELPERS)?;
        Ok(Bank { helpers })
    }

    /// The helper of this number.
    pub fn get(&self, number: u32) -> Option<&Helper>
        ensures { MatchOption result (signature_of (entries_of self.now) number ≡ None)
            (λ helper. signature_of (entries_of self.now) number ≡ Some (entry_of helper.now).1) }
    {
        let mut rest = self.helpers.as_slice();
        while let Some((helper, more)) = rest.split_first() {
            if helper.number() == number {
                return Some(helper);
            }
            rest = more;
        }
        None
    }

    /// Adds a helper, for which no memory is taken. A number that is taken is refused before a full
    /// bank is.
    pub fn add(&mut self, helper: Helper) -> Result<(), NotAdded>
        ensures taken { IsTaken self.old helper
            → IsErrAnd result (λ e. e.fault ≡ BankFault.NumberTaken) }
        ensures full { IsFree self.old helper → IsFull self.old
            → IsErrAnd result (λ e. e.fault ≡ BankFault.Full) }
        ensures fits { IsFree self.old helper → HasRoom self.old → IsOk result }

        ensures added { OnOk result (entries_of self.new ≡ entries_of self.old ++ entry_of helper
            ∷ []) }
        ensures unchanged { OnErr result (self.new ≡ self.old) }
        ensures returned { IfErr result (λ e. e.helper ≡ helper) }
    {
        if self.get(helper.number()).is_some() {
            return Err(NotAdded {
                fault: BankFault::NumberTaken,
                helper,
            });
        }
        if self.helpers.len() == MAX_HELPERS {
            return Err(NotAdded {
                fault: BankFault::Full,
                helper,
            });
        }
        self.helpers.push_reserved(helper);
        Ok(())
    }

    /// The answer of the helper of this number.
    pub fn answer(&self, number: u32, arguments: [u64; 5]) -> u64
        requires { IsTrue (is_question (entries_of self.now) number arguments) }
        ensures { IsTrue (is_answer (entries_of self.now) number arguments result) }
    {
        match self.get(number) {
            Some(helper) => helper.answer(arguments),
            None => unreachable!(),
        }
    }

    /// The numbers and the signatures of the helpers, in the order in which they were added. `Err`
    /// only where there is no memory.
    pub fn sigs(&self) -> Result<Sigs, NoMemory>
        ensures { IfOk result (λ sigs. sigs ≡ entries_of self.now) }
    {
        let mut sigs = Sigs::new(*self.helpers.allocator());
        for helper in &self.helpers {
            sigs.push(helper.number(), helper.signature().copy()?)?;
        }
        Ok(sigs)
    }
}

impl Helpers for Bank {
    ghost use Rattle.bpf_helpers.specs.Helpers.{entries_of};

    ghost entries = { λ bank. entries_of bank };

    fn answer(&self, number: u32, arguments: [u64; 5]) -> u64 {
        Bank::answer(self, number, arguments)
    }

    fn sigs(&self) -> Result<Sigs, NoMemory> {
        Bank::sigs(self)
    }
}
