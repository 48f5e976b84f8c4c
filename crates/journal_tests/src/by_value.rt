//! A pass that is handed to a call and comes back, and a watch that a desk's row gives.
use crate::fixture::{SEVEN, same_number, scheduled};
use acdm_board::{Desk, DeskError};
use acdm_milestones::Role;
use acdm_watch::Watched;
use bpf_helpers::{Bank, Helpers};
use std::alloc::Global;
use std::process::Abort;
use std::sync::Arc;

// One entry is made, and no second one, for want of room.
fn comes_back<H: Helpers + Drop>(rt: &impl Abort, alloc: Global, helpers: H) {
    let mut desk = Desk::new(alloc, helpers, 1).expect(rt, "a desk");
    let row = Arc::try_clone(desk.row()).expect(rt, "the row");
    let mut watch = desk.row().watch().expect(rt, "a watch");
    let pass = desk.pass(1, Role::AirportOperator).expect(rt, "a pass");
    let Ok((reply, pass)) = desk.call(pass, SEVEN, scheduled(rt)) else {
        panic!(rt; "a reply");
    };
    same_number(rt, reply.number, 0);
    let Err((error, pass)) = desk.call(pass, SEVEN, scheduled(rt)) else {
        panic!(rt; "a full journal");
    };
    assert!(rt; error == DeskError::Full);
    same_number(rt, pass.own_len() as u64, 1);
    assert!(rt; watch.advance_alone(&row).expect(rt, "memory"));
    same_number(rt, watch.len() as u64, 1);
}

#[test]
fn a_pass_comes_back(rt: HostRuntime) {
    let alloc = rt.alloc();
    comes_back(&rt, alloc, Bank::new(alloc).expect(&rt, "a bank"));
}
