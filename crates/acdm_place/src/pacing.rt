//! How many lines are taken in a minute.
ghost use Rattle.std.specs.Prelude.{◌≡◌, ◌*◌, ◌≤◌};
ghost use Rattle.acdm_place.specs.Paced.{admits, grown, latest, spent, whole};

/// What a line costs of the credit: the milliseconds of a minute.
const COST: u64 = 60_000;

/// How many lines are taken in a minute at most. The credit grows by as much as so many lines cost in each
/// minute, and no further: so after a silence so many lines are taken at once.
#[derive(Clone, Copy)]
pub struct Pace {
    most: u32,
    credit: u64,
    counted: u64,
    ghost bound: { credit ≤ whole most },
}

impl Pace {
    /// With the whole credit at this moment, in milliseconds.
    pub fn new(most: u32, now: u64) -> Pace
        ensures most { result.most ≡ most }
        ensures credit { result.credit ≡ whole most }
        ensures counted { result.counted ≡ now }
    {
        Pace {
            most,
            credit: u64::from(most) * COST,
            counted: now,
        }
    }

    /// Whether a line may be taken at this moment, in milliseconds. It takes its cost then.
    pub fn admits(&mut self, now: u64) -> bool
        ensures most { self.new.most ≡ self.old.most }
        ensures counted { self.new.counted ≡ latest self.old.counted now }
        ensures admitted { result ≡ admits (grown self.old.most self.old.credit self.old.counted now) }
        ensures credit { self.new.credit ≡ spent (grown self.old.most self.old.credit self.old.counted now) }
    {
        self.grow(now);
        if self.credit < COST {
            return false;
        }
        self.credit -= COST;
        true
    }

    // Adds what has grown since it was counted last. A clock that goes back adds nothing.
    fn grow(&mut self, now: u64)
        ensures most { self.new.most ≡ self.old.most }
        ensures counted { self.new.counted ≡ latest self.old.counted now }
        ensures credit { self.new.credit ≡ grown self.old.most self.old.credit self.old.counted now }
    {
        let passed = now.saturating_sub(self.counted).min(COST);
        let most = u64::from(self.most);
        let credit = self.credit + passed * most;
        self.credit = credit.min(most * COST);
        self.counted = self.counted.max(now);
    }
}
