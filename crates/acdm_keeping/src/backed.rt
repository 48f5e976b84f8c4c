//! What was handed on behind the keeping of entries.
ghost use Rattle.std.specs.Prelude.{◌≡◌, IfErr, IfOk, MatchOption, None, OnErr, OnOk};
ghost use Rattle.acdm_keeping.specs.Behind.{IsBacked};
ghost use Rattle.acdm_keeping.specs.Kept.{CutsShort};

use crate::keeper::Receipt;
use crate::replies::EntryKeeper;
use acdm_failures::Failure;
use std::marker::Model;

/// Who keeps entries, and the greatest number of one that had been announced when bytes were handed on last: it covers
/// the entry of that number, and all before it.
#[derive(Drop)]
pub(crate) struct Backed<K: EntryKeeper + Drop> {
    keeper: K,
    handed: Option<u64>,
}

impl<K: EntryKeeper + Drop> Model for Backed<K> {
    ghost use Rattle.std.specs.Prelude.{MatchOption};
    ghost use Rattle.acdm_keeping.specs.Behind.{BackedView};

    ghost Value = { BackedView K };

    ghost view = { λ b. record { keeper = b.keeper; handed = b.handed } };

    ghost invariant = { λ b. MatchOption b.handed (Unit {0}) (K.covers b.keeper) };
}

impl<K: EntryKeeper + Drop> Backed<K> {
    /// Nothing was handed on.
    pub(crate) fn new(keeper: K) -> Backed<K>
        ensures { (result.keeper ≡ keeper) × (result.handed ≡ None) }
    {
        Backed {
            keeper,
            handed: None,
        }
    }

    /// Bytes are handed on behind the entry of this number, if there is one, once it and all before it are kept.
    pub(crate) fn keep_to(&mut self, last: Option<u64>) -> Result<Option<Receipt>, Failure>
        ensures kept { IfOk result (IsBacked (K.keeps self.old.keeper) last) }
        ensures noted { OnOk result (self.new.handed ≡ last) }
        ensures left { OnErr result (self.new.handed ≡ self.old.handed) }
        ensures same { K.keeps self.new.keeper ≡ K.keeps self.old.keeper }
        ensures failed { IfErr result CutsShort }
    {
        let receipt = match self.keeper.keep_to(last) {
            Ok(receipt) => receipt,
            Err(failure) => return Err(failure),
        };
        self.handed = last;
        Ok(receipt)
    }

    /// Who keeps, and the number.
    pub(crate) fn into_parts(self) -> (K, Option<u64>)
        ensures keeper { result.0 ≡ self.keeper }
        ensures handed { result.1 ≡ self.handed }
        ensures covered { MatchOption result.1 (Unit {0}) (K.covers result.0) }
    {
        let Backed { keeper, handed } = self;
        (keeper, handed)
    }
}
