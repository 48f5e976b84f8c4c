//! The bytes of a program that is to be loaded.
ghost use Rattle.std.specs.Prelude.{◌≡◌};

use std::marker::Model;

/// The bytes of a program that is to be loaded, whether they encode one or not.
pub struct ProgramBytes {
    items: Vec<u8>,
}

impl Drop for ProgramBytes {
    fn drop(self) {
        let ProgramBytes { items: _ } = self;
    }
}

impl Model for ProgramBytes {
    ghost use Rattle.std.specs.Prelude.{ℕ, List};

    ghost Value = { List ℕ };

    ghost view = { λ p. p.items.items };
}

impl ProgramBytes {
    /// The bytes.
    pub fn as_slice(&self) -> &[u8]
        ensures { result.now ≡ self.now }
    {
        self.items.as_slice()
    }
}

impl From<Vec<u8>> for ProgramBytes {
    ghost from_gives = { λ items bytes. bytes ≡ items.items };

    fn from(items: Vec<u8>) -> ProgramBytes {
        ProgramBytes { items }
    }
}
