//! Jobs, at once and in order.
ghost use Rattle.std.specs.Prelude.{◌≡◌};

use acdm_jobs::{Crew, Job};
use std::sync::atomic::{AtomicU64, Ordering};

/// Gives its own number.
#[derive(Drop)]
struct Named(u64);

impl Job<u64> for Named {
    ghost gives = { λ job given. given ≡ job.0 };

    fn run(self, _begins: bool) -> u64 {
        self.0
    }
}

#[test]
fn results_come_in_the_order_of_jobs(rt: HostRuntime) {
    let mut crew = Crew::new(rt.alloc(), 3).expect(&rt, "a crew");
    crew.add(Named(7));
    crew.add(Named(5));
    crew.add(Named(9));
    let given = crew.run(&rt);
    assert!(rt; given.as_slice() == [7, 5, 9].as_slice());
}

#[test]
fn no_jobs_give_nothing(rt: HostRuntime) {
    let crew: Crew<Named, u64> = Crew::new(rt.alloc(), 0).expect(&rt, "a crew");
    assert!(rt; crew.run(&rt).is_empty());
}

/// Says that it is there, and waits until the other one is, for so many turns at most.
#[derive(Drop)]
struct Meeting<'a> {
    mine: &'a AtomicU64,
    other: &'a AtomicU64,
}

impl Job<bool> for Meeting<'_> {
    ghost gives = { λ _ _. Unit {0} };

    fn run(self, begins: bool) -> bool {
        if !begins {
            return false;
        }
        self.mine.store(1, Ordering::SeqCst);
        for _ in 0..4_000_000_000u64 {
            if self.other.load(Ordering::SeqCst) == 1 {
                return true;
            }
        }
        false
    }
}

#[test]
fn jobs_are_done_at_once(rt: HostRuntime) {
    let first = AtomicU64::new(0);
    let second = AtomicU64::new(0);
    let mut crew = Crew::new(rt.alloc(), 2).expect(&rt, "a crew");
    crew.add(Meeting {
        mine: &first,
        other: &second,
    });
    crew.add(Meeting {
        mine: &second,
        other: &first,
    });
    let met = crew.run(&rt);
    assert!(rt; met.as_slice() == [true, true].as_slice());
}
