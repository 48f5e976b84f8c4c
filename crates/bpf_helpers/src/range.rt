//! Words from one to another.

ghost use Rattle.std.specs.Prelude.{◌≡◌};
ghost use Rattle.bpf_helpers.specs.Promise.{is_in, is_ordered};

/// The words from `lo` to `hi`, both among them. There are none where `lo` is above `hi`.
#[derive(Clone, Copy, PartialEq, Eq, Debug)]
pub struct Range {
    pub lo: u64,
    pub hi: u64,
}

impl Range {
    /// Whether the word lies in the range.
    pub fn contains(self, word: u64) -> bool
        ensures { result ≡ is_in self word }
    {
        self.lo <= word && word <= self.hi
    }

    /// Whether any word lies in the range.
    pub fn is_ordered(self) -> bool
        ensures { result ≡ is_ordered self }
    {
        self.lo <= self.hi
    }
}
