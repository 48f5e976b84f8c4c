//! How much two that look at one row have both seen.
ghost use Rattle.std.specs.Prelude.{◌≡◌, List, length, take, min};
ghost use Rattle.acdm_step.specs.declared.entry.Entry.{Entry};
ghost use Rattle.acdm_row.specs.Views.{RowView};

use crate::watch::Watch;
use acdm_row::Pass;

/// What has seen the first entries of a row, as a pass or a watch, beside another such.
pub trait Meet<Other> {
    /// Its row.
    ghost row: { Self → RowView };

    /// What it has seen.
    ghost seen: { Self → List Entry };

    /// The row of the other.
    ghost other_row: { Other → RowView };

    /// What the other has seen.
    ghost other_seen: { Other → List Entry };

    /// The length of the shorter of what two of one row have seen, which are the same as far as
    /// that.
    fn meet(&mut self, other: &mut Other) -> usize
        requires { other_row other.old ≡ row self.old }
        ensures ours { self.new ≡ self.old }
        ensures theirs { other.new ≡ other.old }
        ensures length { result ≡ min (length (seen self.old)) (length (other_seen other.old)) }
        ensures same { take result (seen self.old) ≡ take result (other_seen other.old) };
}

impl Meet<Pass> for Pass {
    ghost row = { λ p. p.row };

    ghost seen = { λ p. p.seen };

    ghost other_row = { λ p. p.row };

    ghost other_seen = { λ p. p.seen };

    fn meet(&mut self, other: &mut Pass) -> usize {
        self.meet_pass(other)
    }
}

impl Meet<Pass> for Watch {
    ghost row = { λ w. w.row };

    ghost seen = { λ w. w.seen };

    ghost other_row = { λ p. p.row };

    ghost other_seen = { λ p. p.seen };

    fn meet(&mut self, other: &mut Pass) -> usize {
        self.meet_pass(other)
    }
}

impl Meet<Watch> for Pass {
    ghost row = { λ p. p.row };

    ghost seen = { λ p. p.seen };

    ghost other_row = { λ w. w.row };

    ghost other_seen = { λ w. w.seen };

    fn meet(&mut self, other: &mut Watch) -> usize {
        other.meet_pass(self)
    }
}

impl Meet<Watch> for Watch {
    ghost row = { λ w. w.row };

    ghost seen = { λ w. w.seen };

    ghost other_row = { λ w. w.row };

    ghost other_seen = { λ w. w.seen };

    fn meet(&mut self, other: &mut Watch) -> usize {
        self.meet_watch(other)
    }
}
