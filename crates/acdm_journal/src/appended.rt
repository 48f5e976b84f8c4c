//! A text that is added to behind what stands in it.
ghost use Rattle.std.specs.Prelude.{◌≡◌, ◌++◌, [], OnOk};

use std::alloc::AllocError;
use std::marker::Model;

/// A text that is added to. What stood in it before stays in front, and is given back alone where the
/// rest could not be added.
#[derive(Drop)]
pub(crate) struct Appended {
    text: Vec<u8>,
    // How many bytes stood in it before.
    kept: usize,
}

impl Model for Appended {
    ghost use Rattle.std.specs.Prelude.{◌≤◌, take, drop, length};
    ghost use Rattle.acdm_journal.specs.Appended.{AppendedView};

    ghost Value = { AppendedView };

    ghost view = { λ a. record {
      before = take a.kept a.text.items;
      added = drop a.kept a.text.items;
    } };

    ghost invariant = { λ a. a.kept ≤ length a.text.items };
}

impl Appended {
    /// Nothing is added to this text yet.
    pub(crate) fn new(text: Vec<u8>) -> Appended
        ensures before { result.before ≡ text.items }
        ensures none { result.added ≡ [] }
    {
        let kept = text.len();
        Appended { text, kept }
    }

    /// Adds bytes. Where memory was refused for them nothing is added.
    pub(crate) fn push(&mut self, bytes: &[u8]) -> Result<(), AllocError>
        ensures before { self.new.before ≡ self.old.before }
        ensures adds { OnOk result (self.new.added ≡ self.old.added ++ bytes.now) }
    {
        self.text.extend_from_slice(bytes)
    }

    /// What stood there before, and behind it what was added.
    pub(crate) fn whole(self) -> Vec<u8>
        ensures { result.items ≡ self.before ++ self.added }
    {
        let Appended { text, .. } = self;
        text
    }

    /// What stood there before.
    pub(crate) fn before(self) -> Vec<u8>
        ensures { result.items ≡ self.before }
    {
        let Appended { mut text, kept } = self;
        text.truncate(kept);
        text
    }
}
