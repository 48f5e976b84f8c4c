//! Which entries other boards have said that they keep.
use acdm_confirming::{ConfirmationTerms, Confirmations, ConfirmedState};

fn terms(wanted: usize, is_strict: bool) -> ConfirmationTerms {
    ConfirmationTerms { wanted, is_strict }
}

// Whether a reply may tell of so many entries, where so many boards have to keep them.
fn goes(confirmations: &Confirmations, wanted: usize, count: u64) -> bool {
    confirmations
        .confirmation(terms(wanted, false), count)
        .is_some()
}

fn state(followers: usize, wanted: usize, is_late: bool) -> ConfirmedState {
    ConfirmedState {
        followers,
        wanted,
        is_late,
    }
}

#[test]
fn a_reply_waits_for_a_board(rt: HostRuntime) {
    let mut kept = Confirmations::new();
    kept.ask(2);
    assert!(rt; !goes(&kept, 1, 1));
    assert!(rt; kept.join() == Some(0));
    assert!(rt; !goes(&kept, 1, 1));
    assert!(rt; kept.is_awaited(0));
    kept.confirm(1, 0, 7, 1);
    assert!(rt; goes(&kept, 1, 1) && !goes(&kept, 1, 2));
    assert!(rt; kept.is_awaited(0));
    kept.confirm(1, 0, 7, 2);
    assert!(rt; goes(&kept, 1, 2) && !goes(&kept, 1, 3));
    assert!(rt; !kept.is_awaited(0));
    assert!(rt; kept.state(1) == state(1, 1, false));
    kept.leave(0);
    assert!(rt; !goes(&kept, 1, 1));
    assert!(rt; kept.state(1) == state(0, 1, false));
}

#[test]
fn connections_of_one_name_are_one_board(rt: HostRuntime) {
    let mut kept = Confirmations::new();
    let (one, same, other) = (kept.join(), kept.join(), kept.join());
    assert!(rt; (one, same, other) == (Some(0), Some(1), Some(2)));
    kept.confirm(2, 0, 7, 5);
    kept.confirm(2, 1, 7, 4);
    assert!(rt; !goes(&kept, 2, 4) && goes(&kept, 1, 5));
    kept.confirm(2, 2, 8, 4);
    assert!(rt; goes(&kept, 2, 4) && !goes(&kept, 2, 5) && !goes(&kept, 3, 4));
    assert!(rt; kept.state(2) == state(2, 2, false));
}

#[test]
fn boards_are_late_until_they_have_what_was_asked_for(rt: HostRuntime) {
    let mut kept = Confirmations::new();
    let _ = kept.join();
    kept.confirm(1, 0, 7, 3);
    kept.ask(10);
    kept.wait_no_longer(1);
    assert!(rt; kept.state(1) == state(1, 1, true));
    assert!(rt; goes(&kept, 1, 10));
    assert!(rt; kept.confirmation(terms(1, true), 10).is_none());
    kept.ask(20);
    kept.confirm(1, 0, 7, 9);
    assert!(rt; kept.state(1).is_late);
    kept.ask(30);
    kept.confirm(1, 0, 7, 20);
    assert!(rt; !kept.state(1).is_late);
    assert!(rt; !goes(&kept, 1, 30));
}

#[test]
fn who_comes_late_is_not_in_time_by_a_little(rt: HostRuntime) {
    let mut kept = Confirmations::new();
    kept.ask(10);
    kept.wait_no_longer(1);
    kept.ask(1_000);
    assert!(rt; kept.join() == Some(0));
    kept.confirm(1, 0, 7, 999);
    assert!(rt; kept.state(1).is_late);
    kept.confirm(1, 0, 7, 1_000);
    assert!(rt; !kept.state(1).is_late);
}

#[test]
fn eight_boards_have_a_place(rt: HostRuntime) {
    let mut kept = Confirmations::new();
    for at in 0..8usize {
        assert!(rt; kept.join() == Some(at));
    }
    assert!(rt; kept.join().is_none());
    kept.leave(3);
    assert!(rt; kept.join() == Some(3));
    kept.confirm(8, 8, 1, 1);
    assert!(rt; kept.state(8) == state(0, 8, false));
}
