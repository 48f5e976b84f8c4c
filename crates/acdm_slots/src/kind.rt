//! The kinds of programs.
ghost use Rattle.std.specs.Prelude.{◌≡◌};
ghost use Rattle.acdm_slots.specs.Names.{kind_name, kind_named};

/// What a loaded program computes at its milestone (this project's profile).
#[derive(Clone, Copy, Debug, PartialEq, Eq)]
pub enum Kind {
    /// Its r0 is TOBT.
    Tobt,
    /// Its r0 has the local alerts of the flight.
    Alert,
}

impl Kind {
    /// Its name: `tobt` or `alert` (this project's profile).
    pub fn name(self) -> &'static str
        ensures { result.now ≡ kind_name self }
    {
        match self {
            Kind::Tobt => "tobt",
            Kind::Alert => "alert",
        }
    }

    /// The kind of a name, if there is one.
    pub fn from_name(name: &[u8]) -> Option<Kind>
        ensures { result ≡ kind_named name.now }
    {
        if name == b"tobt".as_slice() {
            Some(Kind::Tobt)
        } else if name == b"alert".as_slice() {
            Some(Kind::Alert)
        } else {
            None
        }
    }
}
