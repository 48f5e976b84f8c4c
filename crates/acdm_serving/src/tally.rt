//! What a board is asked of itself: its journal, the file of that, its term, and the boards that follow it.

use acdm_confirming::Confirmed;
use acdm_keeping::{BoardTerm, Named, Paths};
use acdm_partners::{Followers, Standing};
use acdm_row::Row;
use std::io;
use std::sync::{Arc, Wait};

/// What is told of the journal in a row, and of the file in which it is kept, if there is one.
#[derive(Drop)]
pub(crate) struct Tally<K: Drop> {
    pub(crate) rt: K,
    pub(crate) row: Arc<Row>,
    pub(crate) kept: Option<Named>,
    pub(crate) confirmed: Option<Arc<Confirmed>>,
    pub(crate) term: BoardTerm,
    pub(crate) ticks: Option<u32>,
}

impl<K: Paths + Drop> Tally<K> {
    // The minute of an entry, if it is there.
    fn moment(&self, at: usize) -> Option<u32> {
        if at >= self.row.len() {
            return None;
        }
        let mut note = self.row.note(at);
        let published = self.row.look(at, &mut note)?;
        Some(published.entry.moment)
    }
}

impl<K: Paths + Wait + Drop> Standing for Tally<K> {
    // Entries stand one behind the other: of half of those that may be the last, one look tells whether it is there.
    fn used(&self) -> usize {
        let mut least = 0;
        let mut most = self.row.len();
        for _ in 0..usize::BITS {
            if least >= most {
                break;
            }
            let middle = least + (most - least) / 2;
            if self.moment(middle).is_some() {
                least = middle + 1;
            } else {
                most = middle;
            }
        }
        least
    }

    fn room(&self) -> usize {
        self.row.len()
    }

    fn last(&self) -> Option<u32> {
        self.moment(self.used().checked_sub(1)?)
    }

    fn stands(&self) -> bool {
        match &self.kept {
            Some(kept) => kept.stands(&self.rt),
            None => true,
        }
    }

    fn failure(&self) -> Option<io::Error> {
        self.kept.as_ref()?.failure()
    }

    fn ticks(&self) -> Option<u32> {
        self.ticks
    }

    fn term(&self) -> u64 {
        self.term.own()
    }

    fn replaced_by(&self) -> Option<u64> {
        self.term.replaced_by()
    }

    fn followers(&self) -> Option<Followers> {
        let state = self.confirmed.as_ref()?.state(&self.rt);
        Some(Followers {
            count: state.followers,
            wanted: state.wanted,
            are_late: state.is_late,
        })
    }
}
