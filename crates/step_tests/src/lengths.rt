//! Programs for records of another length than the board's.
use crate::fixture::{checked, no_sigs, same_number, taxi_sigs};
use crate::step::{empty_board, verdict_on};
use acdm_milestones::{Milestone, Role};
use acdm_slots::{Kind, Migrated, Slots};
use acdm_step::{Command, Core, Load, Unload, Verdict};
use bpf_helpers::Sigs;
use bpf_regstate::Length;
use bpf_verifier::{Checked, read_program};
use std::alloc::Global;
use std::process::Abort;

const SEVEN: u32 = 29_000_580;

/// r0 becomes 0, and an exit.
const NOTHING: &str = "b7000000000000009500000000000000";

fn program(rt: &impl Abort, alloc: Global, sigs: &Sigs, length: Length) -> Checked {
    let bytes = hex::decode(alloc, NOTHING).expect(rt, "bytes");
    read_program(alloc, bytes.as_slice(), sigs, length).expect(rt, "an accepted program")
}

fn loads(rt: &impl Abort, slots: &mut Slots, program: Checked, code: u64) {
    let found = match slots.load(Milestone::InBlock, Kind::Tobt, program) {
        Ok(()) => 0,
        Err(error) => u64::from(error.code()),
    };
    same_number(rt, found, code);
}

// The length is asked for before the signatures, and what is refused leaves the slot empty.
fn wants_its_length(rt: &impl Abort, alloc: Global, slots: &mut Slots, sigs: &Sigs, others: &Sigs) {
    loads(rt, slots, program(rt, alloc, sigs, Length::L128), 323);
    loads(rt, slots, program(rt, alloc, others, Length::L128), 323);
    loads(rt, slots, program(rt, alloc, others, Length::L160), 322);
    assert!(rt; slots.get(Milestone::InBlock, Kind::Tobt).is_none());
    loads(rt, slots, program(rt, alloc, sigs, Length::L160), 0);
    assert!(rt; slots.get(Milestone::InBlock, Kind::Tobt).is_some());
}

#[test]
fn slots_hold_programs_of_one_length(rt: HostRuntime) {
    let alloc = rt.alloc();
    let sigs = no_sigs(&rt, alloc);
    let others = taxi_sigs(&rt, alloc);
    let own = sigs.copy().expect(&rt, "signatures");
    let mut slots = Slots::new(alloc, own, Length::L160).expect(&rt, "slots");
    wants_its_length(&rt, alloc, &mut slots, &sigs, &others);
    drop(slots);
}

/// r0 becomes 0 where r2 is at most 128, and an exit.
const SHORT_ALONE: &str = "2502010080000000b7000000000000009500000000000000";

// Slots beside 128 bytes, with two programs of which one holds beside 160 bytes too.
fn two_programs(rt: &impl Abort, alloc: Global, sigs: &Sigs) -> Slots {
    let own = sigs.copy().expect(rt, "signatures");
    let mut slots = Slots::new(alloc, own, Length::L128).expect(rt, "slots");
    loads(rt, &mut slots, checked(rt, alloc, sigs, SHORT_ALONE), 0);
    let stays = program(rt, alloc, sigs, Length::L128);
    let loaded = slots.load(Milestone::TobtUpdate, Kind::Alert, stays);
    assert!(rt; loaded.is_ok());
    slots
}

// What was taken out is told, with its fault; what stays runs beside the longer records.
fn tells_what_is_taken_out(rt: &impl Abort, migrated: &Migrated) {
    let [taken] = migrated.unloaded.as_slice() else {
        panic!(rt; "one program is taken out");
    };
    assert!(rt; taken.milestone == Milestone::InBlock && taken.kind == Kind::Tobt);
    same_number(rt, u64::from(taken.code), 308);
    same_number(rt, taken.slot as u64, 2);
    let slots = &migrated.slots;
    assert!(rt; slots.record_length() == Length::L160);
    assert!(rt; slots.get(Milestone::InBlock, Kind::Tobt).is_none());
    match slots.get(Milestone::TobtUpdate, Kind::Alert) {
        Some(stays) => assert!(rt; stays.record_length() == Length::L160),
        None => panic!(rt; "it stays"),
    }
}

#[test]
fn programs_are_judged_again_beside_longer_records(rt: HostRuntime) {
    let alloc = rt.alloc();
    let sigs = no_sigs(&rt, alloc);
    let slots = two_programs(&rt, alloc, &sigs);
    let migrated = slots.migrated(Length::L160).expect(&rt, "memory");
    tells_what_is_taken_out(&rt, &migrated);
    assert!(rt; slots.get(Milestone::InBlock, Kind::Tobt).is_some());
    drop(migrated);
    drop(slots);
}

fn load_of(program: Checked) -> Command {
    Command::Load(Load {
        milestone: Milestone::InBlock,
        kind: Kind::Alert,
        program,
    })
}

fn judges(rt: &impl Abort, core: &mut Core, role: Role, command: Command, code: u64) {
    let found = match verdict_on(rt, core, role, SEVEN, command) {
        Verdict::Accepted => 0,
        Verdict::Refused(refusal) => u64::from(refusal.code()),
    };
    same_number(rt, found, code);
}

// The owner is asked for first, then the length, then the signatures; nothing is loaded.
fn refuses_another_length(rt: &impl Abort, alloc: Global, core: &mut Core) {
    let others = taxi_sigs(rt, alloc);
    let long = program(rt, alloc, &no_sigs(rt, alloc), Length::L160);
    judges(rt, core, Role::AirportOperator, load_of(long), 323);
    let both = program(rt, alloc, &others, Length::L160);
    judges(rt, core, Role::AirportOperator, load_of(both), 323);
    let both = program(rt, alloc, &others, Length::L160);
    judges(rt, core, Role::NetworkManager, load_of(both), 201);
    let unload = Command::Unload(Unload {
        milestone: Milestone::InBlock,
        kind: Kind::Alert,
    });
    judges(rt, core, Role::AirportOperator, unload, 321);
}

#[test]
fn a_board_takes_programs_for_its_records_alone(rt: HostRuntime) {
    let mut core = empty_board(&rt, rt.alloc());
    refuses_another_length(&rt, rt.alloc(), &mut core);
    drop(core);
}

// The other length fits once the board was migrated, and the first no more.
fn migrates_once(rt: &impl Abort, alloc: Global, core: &mut Core) {
    let sigs = no_sigs(rt, alloc);
    judges(rt, core, Role::DeicingCompany, Command::Migrate, 201);
    judges(rt, core, Role::AirportOperator, Command::Migrate, 0);
    judges(rt, core, Role::NetworkManager, Command::Migrate, 201);
    judges(rt, core, Role::AirportOperator, Command::Migrate, 324);
    let short = load_of(program(rt, alloc, &sigs, Length::L128));
    judges(rt, core, Role::AirportOperator, short, 323);
    let long = load_of(program(rt, alloc, &sigs, Length::L160));
    judges(rt, core, Role::AirportOperator, long, 0);
}

#[test]
fn a_migrated_board_takes_programs_for_longer_records(rt: HostRuntime) {
    let mut core = empty_board(&rt, rt.alloc());
    migrates_once(&rt, rt.alloc(), &mut core);
    drop(core);
}
