//! How full a room is, told as it fills.
ghost use Rattle.std.specs.Prelude.{◌≡◌, ◌||◌, false};
ghost use Rattle.acdm_place.specs.Filled.{reaches, tells};

/// A level of a room, of which it is told once that it is reached.
#[derive(Clone, Copy)]
pub struct Level {
    percent: usize,
    is_told: bool,
}

// Whether so many of so many are so many per cent, or more.
fn reaches(room: usize, percent: usize, used: usize) -> bool
    ensures { result ≡ reaches room percent used }
{
    room as u128 * percent as u128 <= used as u128 * 100
}

impl Level {
    /// A level of so many per cent of the room, which was not told.
    pub fn new(percent: usize) -> Level
        ensures percent { result.percent ≡ percent }
        ensures told { result.is_told ≡ false }
    {
        Level {
            percent,
            is_told: false,
        }
    }

    /// How many per cent it is.
    pub fn percent(&self) -> usize
        ensures { result ≡ self.now.percent }
    {
        self.percent
    }

    /// Whether it is to be told now, where so many of so many are used: at the first look that finds as much.
    pub fn look(&mut self, used: usize, room: usize) -> bool
        ensures told { result ≡ tells self.old.is_told (reaches room self.old.percent used) }
        ensures state { self.new.is_told ≡ (self.old.is_told || reaches room self.old.percent used) }
        ensures percent { self.new.percent ≡ self.old.percent }
    {
        if self.is_told {
            return false;
        }
        self.is_told = reaches(room, self.percent, used);
        self.is_told
    }
}
