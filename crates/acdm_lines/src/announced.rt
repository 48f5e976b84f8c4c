//! Of which entries a writer was told, which only proofs know.
ghost use Rattle.std.specs.Prelude.{◌≡◌, ◌++◌, ◌∷◌, [], Some};

use crate::log::Log;
use std::marker::Model;

/// The numbers of the entries that a writer was told of, in order. It takes no memory.
#[derive(Drop)]
pub(crate) struct Announced {
    log: Log,
}

impl Model for Announced {
    ghost use Rattle.std.specs.Prelude.{ℕ, List};
    ghost use Rattle.acdm_lines.specs.Counted.{known_bytes};

    ghost Value = { List ℕ };

    ghost view = { λ t. known_bytes t.log.first };
}

impl Announced {
    /// Of none.
    pub(crate) fn none() -> Announced
        ensures { result ≡ [] }
    {
        Announced {
            log: Log::of(&0u64),
        }
    }

    /// Of one more.
    pub(crate) fn with(&self, number: u64) -> Announced
        ensures { result ≡ self.now ++ number ∷ [] }
    {
        Announced {
            log: Log::of(&(&self.log, number)),
        }
    }
}
