//! What a reader gave or a writer took, which only proofs know.
ghost use Rattle.std.specs.Prelude.{◌≡◌, false, List, [], ◌++◌, ℕ, Bool, Option};
ghost use Rattle.std.specs.Borrow.{ftrue};

use std::marker::Model;

/// What was known at first of a reader's or a writer's bytes, all bytes that went through since,
/// and whether the last call told the end. It takes no memory, and its methods do nothing at run
/// time.
#[derive(Drop)]
pub(crate) struct Log {
    ghost first: { Option (List ℕ) },
    ghost bytes: { List ℕ },
    ghost ended: { Bool },
}

impl Model for Log {
    ghost also_owns = { λ _. ftrue };
}

const _: () = prove!(size_of::<Log>() == 0);

// It owns nothing.
unsafe impl Send for Log {}

impl Log {
    // Nothing went through a reader or a writer of which so much is known.
    pub(crate) fn of<T>(_value: &T) -> Log
        ghost known: { Option (List ℕ) }
        ensures { (result.first ≡ known) × (result.bytes ≡ []) × (result.ended ≡ false) }
    {
        Log {}
    }

    // These bytes went through.
    #[inline(always)]
    pub(crate) fn note(&mut self, _bytes: &[u8], _ended: bool)
        ensures { (self.new.first ≡ self.old.first)
            × (self.new.bytes ≡ self.old.bytes ++ _bytes.now) × (self.new.ended ≡ _ended) }
    {}
}
