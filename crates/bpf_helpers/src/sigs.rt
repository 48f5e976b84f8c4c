//! The signatures of several helpers, each with its number.

ghost use Rattle.std.specs.Prelude.{◌≡◌, ◌↔◌, [], ◌∷◌, ◌++◌, IsTrue, IfOk, OnOk, MatchOption, Some};
ghost use Rattle.std.specs.Prelude.{None};
ghost use Rattle.bpf_helpers.specs.Promise.{are_well_formed, is_answer, signature_of};

use crate::NoMemory;
use crate::signature::Signature;
use std::alloc::Global;
use std::marker::Model;

/// The signatures of the helpers that programs may call, each with the number of its helper.
/// Contracts see them as pairs of a number and a promise.
pub struct Sigs {
    entries: Vec<(u32, Signature)>,
}

impl Drop for Sigs {
    fn drop(self) {
        let Sigs { entries: _ } = self;
    }
}

impl Model for Sigs {
    ghost use Rattle.std.specs.Prelude.{ℕ, List, IsTrue};
    ghost use Rattle.bpf_helpers.specs.Promise.{Promise, are_well_formed};

    ghost Value = { List (ℕ × Promise) };

    ghost view = { λ s. s.entries.items };

    ghost invariant = { λ s. IsTrue (are_well_formed s.entries.items) };
}

impl Sigs {
    /// No signatures.
    pub fn new(alloc: Global) -> Sigs
        ensures { result ≡ [] }
    {
        Sigs {
            entries: Vec::new(alloc),
        }
    }

    /// Adds a signature under a number, behind the others. `Err` only where there is no memory.
    pub fn push(&mut self, number: u32, signature: Signature) -> Result<(), NoMemory>
        ensures added { OnOk result (self.new ≡ self.old ++ (number, signature) ∷ []) }
    {
        // (its contract says that the signature is well formed, for the invariant)
        let _ = signature.answer();
        self.entries.push((number, signature))?;
        Ok(())
    }

    /// Each signature is well formed. It does nothing when it runs; its contract is the fact.
    pub fn keep_their_form(&self)
        ensures { IsTrue (are_well_formed self.now) }
    {
        // (what the invariant says of the entries is said by naming them)
        let _ = &self.entries;
    }

    /// The signature of the helper of this number.
    pub fn get(&self, number: u32) -> Option<&Signature>
        ensures value { MatchOption result (signature_of self.now number ≡ None)
            (λ signature. signature_of self.now number ≡ Some signature.now) }
        ensures well_formed { IsTrue (are_well_formed self.now) }
    {
        let mut rest = self.entries.as_slice();
        while let Some((entry, more)) = rest.split_first() {
            if entry.0 == number {
                return Some(&entry.1);
            }
            rest = more;
        }
        None
    }

    /// Whether the helper of this number is known and may give this answer to these arguments.
    pub fn promises(&self, number: u32, arguments: &[u64], answer: u64) -> bool
        ensures { result ≡ is_answer self.now number arguments.now answer }
    {
        match self.get(number) {
            Some(signature) => signature.promises(arguments, answer),
            None => false,
        }
    }

    /// Whether these are the same signatures under the same numbers, in the same order.
    pub fn is_same(&self, other: &Sigs) -> bool
        ensures { IsTrue result ↔ (self.now ≡ other.now) }
    {
        let mut left = self.entries.as_slice();
        let mut right = other.entries.as_slice();
        while let Some((entry, more)) = left.split_first() {
            let Some((twin, more_twins)) = right.split_first() else {
                return false;
            };
            if entry.0 != twin.0 || !entry.1.is_same(&twin.1) {
                return false;
            }
            left = more;
            right = more_twins;
        }
        right.is_empty()
    }

    /// Signatures that equal these. `Err` only where there is no memory.
    pub fn copy(&self) -> Result<Sigs, NoMemory>
        ensures { IfOk result (λ sigs. sigs ≡ self.now) }
    {
        let mut sigs = Sigs::new(*self.entries.allocator());
        for entry in &self.entries {
            sigs.push(entry.0, entry.1.copy()?)?;
        }
        Ok(sigs)
    }
}
