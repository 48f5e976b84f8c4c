//! What is made of the entries of a journal.
use crate::judge::PlannedEntry;
use acdm_step::Core;

/// A use of journals: what is made of the entries of one, each after those before it. It is lent a
/// place for them, as a board, a desk or a writer.
pub trait JournalUse<P> {
    ghost use Rattle.std.specs.Prelude.{◌≡◌, ℕ, List};
    ghost use Rattle.bpf_helpers.specs.Promise.{Promise};
    ghost use Rattle.acdm_step.specs.Commands.{History};
    ghost use Rattle.acdm_step.specs.History.{replay};
    ghost use Rattle.acdm_journal.specs.Uses.{IsNext, MayTake, UsesEntry};

    /// Why it takes no more entries.
    type Stop;

    /// The signatures against which programs are checked.
    ghost sigs: { Self → P → List (ℕ × Promise) };

    /// Where it and its place began so, they now have these entries.
    ghost has: { Self → P → Self → P → History → Type 0 };

    /// Where it and its place began so, it stops for this reason behind these entries.
    ghost stops: { Self → P → Self → P → History → Self.Stop → Type 0 };

    /// The board of the entries that it has.
    fn board<'a>(&'a self, place: &'a P) -> &'a Core
        ensures { (first : Self) (at : P) (J : History) → has first at self.now place.now J
            → result.now ≡ replay (sigs first at) J };

    /// Takes the entry that the next line tells of, with what was planned for it on that board. The
    /// line stands without its line feed.
    fn take(&mut self, place: &mut P, line: &[u8], next: PlannedEntry) -> Result<(), Self::Stop>
        requires { MayTake sigs (λ first at J. has first at self.old place.old J) line.now next }
        ensures { (first : Self) (at : P) (J : History) → has first at self.old place.old J
            → IsNext (sigs first at) J line.now next
            → UsesEntry (has first at self.new place.new) (stops first at self.new place.new) J
            next.entry result };
}
