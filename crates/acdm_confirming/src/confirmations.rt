//! Which entries other boards have said that they keep, with no thread, no lock and no clock.
ghost use Rattle.std.specs.Prelude.{◌≡◌, ◌≤◌, ◌<◌, ◌&&◌, ◌||◌, IfSome, IfNone, false, true, length, max, not, None, Some, replicate};
ghost use Rattle.std.specs.Prelude.{slice_get, slice_set};
ghost use Rattle.acdm_confirming.specs.Confirming.{are_enough, first_free, follower, holders, is_told_again, keeps, may_go};

/// How many boards may follow at once, at most.
pub const MOST_FOLLOWERS: usize = 8;

/// For how many boards replies wait, and whether none goes out without them.
#[derive(Clone, Copy)]
pub struct ConfirmationTerms {
    /// How many boards have to keep an entry before a reply tells of it.
    pub wanted: usize,
    /// Whether no reply goes out where fewer follow.
    pub is_strict: bool,
}

/// A board that follows: by which name, and how many entries it has said that it keeps, the first ones.
#[derive(Clone, Copy)]
pub struct KeptBy {
    name: u64,
    kept: u64,
}

/// Which entries boards have said that they keep, what was asked of them, and whether they are late.
#[derive(Clone, Copy)]
pub struct Confirmations {
    is_late: bool,
    // Of how many entries replies wait to tell, and of how many they waited when a board said something last.
    asked: u64,
    mark: u64,
    // Who follows at each place, if somebody does.
    places: [Option<KeptBy>; MOST_FOLLOWERS],
}

/// That a reply may tell of the first so many entries, by what other boards had said then.
#[derive(Clone, Copy)]
pub struct Confirmation {
    confirmations: Confirmations,
    count: u64,
}

/// What an operator is told of the boards that follow.
#[derive(Clone, Copy, Debug, PartialEq, Eq)]
pub struct ConfirmedState {
    /// How many follow, and keep an entry; those of one name are one.
    pub followers: usize,
    /// How many have to keep an entry before a reply tells of it.
    pub wanted: usize,
    /// Whether they are late: a reply has waited for five seconds, and since then not enough of them had all that was
    /// asked for.
    pub is_late: bool,
}

// Whether a board keeps so many entries.
fn keeps(place: Option<KeptBy>, count: u64) -> bool
    ensures { result ≡ keeps count place }
{
    match place {
        Some(follower) => follower.kept >= count,
        None => false,
    }
}

// Whether one of these boards has this name, and keeps so many entries.
fn is_told_again(name: u64, places: &[Option<KeptBy>], count: u64) -> bool
    ensures { result ≡ is_told_again name count places.now }
{
    let Some((first, rest)) = places.split_first() else {
        return false;
    };
    if let Some(follower) = first {
        if follower.name == name && follower.kept >= count {
            return true;
        }
    }
    is_told_again(name, rest, count)
}

// How many boards keep so many entries; those of one name are one.
fn holders(places: &[Option<KeptBy>], count: u64) -> usize
    ensures holders { result ≡ holders count places.now }
    ensures few { result ≤ length places.now }
{
    let Some((first, rest)) = places.split_first() else {
        return 0;
    };
    let more = holders(rest, count);
    match first {
        Some(follower) if follower.kept >= count && !is_told_again(follower.name, rest, count) =>
            more + 1,
        _ => more,
    }
}

// The first of these places at which nobody follows; their number where there is none.
fn first_free(places: &[Option<KeptBy>]) -> usize
    ensures free { result ≡ first_free places.now }
    ensures few { result ≤ length places.now }
{
    let Some((first, rest)) = places.split_first() else {
        return 0;
    };
    if first.is_none() {
        return 0;
    }
    first_free(rest) + 1
}

impl Confirmations {
    /// Nobody follows yet.
    pub fn new() -> Confirmations
        ensures { (result.is_late ≡ false) × (result.asked ≡ 0) × (result.mark ≡ 0)
            × (result.places ≡ replicate 8 None) }
    {
        Confirmations {
            is_late: false,
            asked: 0,
            mark: 0,
            places: [None; MOST_FOLLOWERS],
        }
    }

    // Whether as many boards as have to keep so many entries.
    fn are_enough(&self, wanted: usize, count: u64) -> bool
        ensures { result ≡ are_enough self.now wanted count }
    {
        holders(&self.places, count) >= wanted
    }

    /// That a reply may tell of the first so many entries, if it may: enough boards keep them, or this one goes on without them.
    pub fn confirmation(&self, terms: ConfirmationTerms, count: u64) -> Option<Confirmation>
        ensures goes { IfSome result (λ c. (c.count ≡ count) × (c.confirmations ≡ self.now)
            × (may_go self.now terms count ≡ true)) }
        ensures waits { IfNone result (may_go self.now terms count ≡ false) }
    {
        if self.are_enough(terms.wanted, count) || self.is_late && !terms.is_strict {
            return Some(Confirmation {
                confirmations: *self,
                count,
            });
        }
        None
    }

    /// A reply waits that tells of the first so many entries.
    pub fn ask(&mut self, count: u64)
        ensures { self.new ≡ record self.old { asked = max self.old.asked count } }
    {
        self.asked = self.asked.max(count);
    }

    /// A board begins to follow, of which nothing is known yet: its place, from 0, if one of 8 is free.
    pub fn join(&mut self) -> Option<usize>
        ensures joins { IfSome result (λ at. (at < 8) × (slice_get self.old.places at ≡ Some None)
            × (self.new ≡ record self.old {
              mark = self.old.asked;
              places = slice_set self.old.places at (Some (follower 0 0));
            })) }
        ensures full { IfNone result (self.new ≡ self.old) }
    {
        let at = first_free(&self.places);
        if at >= MOST_FOLLOWERS {
            return None;
        }
        self.mark = self.asked;
        self.places[at] = Some(KeptBy { name: 0, kept: 0 });
        Some(at)
    }

    /// The board at this place has said that it keeps the first so many entries, by this name. Where so many boards as
    /// have to keep all that was asked for when one said something before, none is late. A place that there is not
    /// changes nothing.
    pub fn confirm(&mut self, wanted: usize, at: usize, name: u64, count: u64)
        ensures places { at < 8 → self.new.places ≡ slice_set self.old.places at (Some (follower name count)) }
        ensures late { at < 8 → self.new.is_late ≡ (self.old.is_late && not (are_enough self.new wanted self.old.mark)) }
        ensures marks { at < 8 → (self.new.mark ≡ self.old.asked) × (self.new.asked ≡ self.old.asked) }
    {
        if at >= MOST_FOLLOWERS {
            return;
        }
        self.places[at] = Some(KeptBy { name, kept: count });
        if self.are_enough(wanted, self.mark) {
            self.is_late = false;
        }
        self.mark = self.asked;
    }

    /// The board at this place follows no longer.
    pub fn leave(&mut self, at: usize)
        ensures { at < 8 → self.new ≡ record self.old { places = slice_set self.old.places at None } }
    {
        if at < MOST_FOLLOWERS {
            self.places[at] = None;
        }
    }

    /// A reply has waited for as long as one waits: boards are late, where not enough of them keep all that was asked for.
    pub fn wait_no_longer(&mut self, wanted: usize)
        ensures { self.new ≡ record self.old {
          is_late = self.old.is_late || not (are_enough self.old wanted self.old.asked);
          mark = self.old.asked;
        } }
    {
        if !self.are_enough(wanted, self.asked) {
            self.is_late = true;
        }
        self.mark = self.asked;
    }

    /// Whether a reply waits for more entries than the board at this place has said that it keeps.
    pub fn is_awaited(&self, at: usize) -> bool
        ensures { IfSome (slice_get self.now.places at) (λ place. result ≡ not (keeps self.now.asked place)) }
    {
        at < MOST_FOLLOWERS && !keeps(self.places[at], self.asked)
    }

    /// What an operator is told, where so many boards have to keep an entry.
    pub fn state(&self, wanted: usize) -> ConfirmedState
        ensures { result ≡ record {
          followers = holders 1 self.now.places;
          wanted = wanted;
          is_late = self.now.is_late;
        } }
    {
        ConfirmedState {
            followers: holders(&self.places, 1),
            wanted,
            is_late: self.is_late,
        }
    }
}
