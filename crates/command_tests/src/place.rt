//! A place over some events, a pace, and levels.
use acdm_place::{Event, KeptPlace, Level, Pace};

#[test]
fn a_partner_is_replaced_while_its_line_is_in_hand(rt: HostRuntime) {
    let mut place = KeptPlace::new(true);
    let gone = place.step(Event::FirstLine(1, false, false));
    let first = place.step(Event::FirstLine(2, true, true));
    let heard = place.step(Event::NextAsked);
    let line = place.step(Event::LineTaken(2));
    assert!(rt; gone.refuse == Some(1) && first.serve == Some(2));
    assert!(rt; heard.hear == Some(2) && line.admits);
    let page = place.step(Event::FirstLine(3, true, false));
    let newer = place.step(Event::FirstLine(4, true, true));
    let reply = place.step(Event::ReplyMade);
    assert!(rt; page.refuse == Some(3) && page.cut_off.is_none());
    assert!(rt; newer.cut_off == Some(2) && newer.serve == Some(4) && reply.hand_on_to.is_none());
    // A line of the older one that was read is taken too, before the newer one is heard.
    let _ = place.step(Event::LineAnswered);
    let early = place.step(Event::LineTaken(4));
    let rest = place.step(Event::LineTaken(2));
    let _ = place.step(Event::LineAnswered);
    let next = place.step(Event::NextAsked);
    assert!(rt; !early.admits && rest.admits && next.hear == Some(4) && next.cut_off.is_none());
    assert!(rt; place.is_past(2) && !place.is_here(2) && !place.is_past(4) && place.is_here(4));
}

#[test]
fn a_place_that_closes_answers_the_line_in_hand(rt: HostRuntime) {
    let mut place = KeptPlace::new(true);
    let _ = place.step(Event::FirstLine(1, true, true));
    let _ = place.step(Event::NextAsked);
    let _ = place.step(Event::LineTaken(1));
    let close = place.step(Event::CloseAsked);
    let newcomer = place.step(Event::FirstLine(2, true, true));
    let reply = place.step(Event::ReplyMade);
    assert!(rt; close.cut_off.is_none() && !place.is_over() && newcomer.refuse == Some(2));
    assert!(rt; reply.hand_on_to == Some(1));
    let last = place.step(Event::LineAnswered);
    let late = place.step(Event::LineTaken(1));
    assert!(rt; last.cut_off == Some(1) && !late.admits && place.is_over());
}

#[test]
fn a_place_that_closes_waits_for_five_seconds(rt: HostRuntime) {
    let mut place = KeptPlace::new(false);
    let _ = place.step(Event::FirstLine(1, true, true));
    let _ = place.step(Event::NextAsked);
    let _ = place.step(Event::LineTaken(1));
    let _ = place.step(Event::CloseAsked);
    let before = place.step(Event::Tick(4999));
    let then = place.step(Event::Tick(1));
    assert!(rt; before.cut_off.is_none() && then.cut_off == Some(1) && !place.is_over());
    let _ = place.step(Event::SessionEnded);
    assert!(rt; place.is_over() && place.is_closing() && !place.is_here(1));
}

#[test]
fn without_again_one_connection_is_served(rt: HostRuntime) {
    let mut place = KeptPlace::new(false);
    let _ = place.step(Event::FirstLine(1, true, true));
    let second = place.step(Event::FirstLine(2, true, true));
    let _ = place.step(Event::NextAsked);
    let end = place.step(Event::NextAsked);
    assert!(rt; second.refuse == Some(2) && end.cut_off == Some(1) && place.is_over());
}

#[test]
fn two_lines_a_minute_are_taken(rt: HostRuntime) {
    let mut pace = Pace::new(2, 1_000);
    let both = pace.admits(1_000) && pace.admits(1_001);
    let third = pace.admits(1_002);
    let later = pace.admits(31_000);
    assert!(rt; both && !third && later);
}

// Of so many used of 7, whether it is told.
static LOOKS: [(usize, bool); 5] = [(5, false), (6, true), (6, false), (7, false), (3, false)];

#[test]
fn a_level_of_seven_is_told_once(rt: HostRuntime) {
    let mut level = Level::new(80);
    for (used, wanted) in &LOOKS {
        assert!(rt; level.look(*used, 7) == *wanted && level.percent() == 80);
    }
}
