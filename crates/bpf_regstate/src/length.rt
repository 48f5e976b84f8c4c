//! How long a record is.

ghost use Rattle.std.specs.Prelude.{◌≡◌, ◌<◌, ◌^◌, ◌↔◌, IsTrue};
ghost use Rattle.bpf_regstate.specs.Lengths.{bytes_in, same_length};

/// How many bytes the record has on which a program runs (this project's profile).
#[derive(Clone, Copy, Debug, PartialEq, Eq)]
pub enum Length {
    /// 128, as layout 1 has.
    L128,
    /// 160, as layout 2 has.
    L160,
}

impl Length {
    /// The bytes.
    #[tactic(auto, unfolding(crate::specs::Lengths::bytes_in))]
    pub fn bytes(self) -> usize
        ensures value { result ≡ bytes_in self }
        ensures short { result < 2 ^ 16 }
    {
        match self {
            Length::L128 => 128,
            Length::L160 => 160,
        }
    }

    /// Whether it is this length.
    pub fn is(self, other: Length) -> bool
        ensures value { result ≡ same_length self other }
        ensures same { IsTrue result ↔ (self ≡ other) }
    {
        match self {
            Length::L128 => matches!(other, Length::L128),
            Length::L160 => matches!(other, Length::L160),
        }
    }
}
