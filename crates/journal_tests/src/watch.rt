//! A watch over the row of a desk, which is called between its looks.
ghost use Rattle.std.specs.Prelude.{◌≡◌, ◌≤◌};
ghost use Rattle.std.specs.Arc.{arc_value};
ghost use Rattle.acdm_board.specs.Desk.{row_of};

use crate::fixture::{SEVEN, TEN, deiced, planned, reported, same_number, scheduled};
use acdm_board::Desk;
use acdm_milestones::{DeicingTime, Milestone, Role};
use acdm_record::Field;
use acdm_row::{Pass, Row};
use acdm_step::Command;
use acdm_watch::{Meet, Watch};
use bpf_helpers::{Bank, Helpers};
use std::alloc::Global;
use std::process::Abort;
use std::sync::Arc;

// 5 and 15 minutes after 2025-02-20T10:00Z.
const FIVE_PAST_TEN: u32 = 29_000_765;

const QUARTER_PAST_TEN: u32 = 29_000_775;

// A desk, the passes of two sessions, and two watches of its row, of which one has not looked yet.
#[derive(Drop)]
struct Table<H: Helpers + Drop> {
    desk: Desk<H>,
    first: Pass,
    second: Pass,
    row: Arc<Row>,
    watch: Watch,
    later: Watch,
    ghost first_of: { first.row ≡ row_of desk },
    ghost second_of: { second.row ≡ row_of desk },
    ghost of_desk: { arc_value row ≡ row_of desk },
    ghost watches: { watch.row ≡ row_of desk },
    ghost watches_later: { later.row ≡ row_of desk },
}

fn pass_of<H: Helpers + Drop>(rt: &impl Abort, desk: &Desk<H>, session: u8, role: Role) -> Pass
    requires session_given { 1 ≤ session }
    requires few_sessions { session ≤ 64 }
    ensures { result.row ≡ row_of desk.now }
{
    desk.pass(session, role).expect(rt, "a pass")
}

fn watch_of(rt: &impl Abort, alloc: Global, row: &Arc<Row>) -> Watch
    ensures { result.row ≡ arc_value row.now }
{
    Watch::new(alloc, row).expect(rt, "a watch")
}

// Such a table, over a desk for so many entries.
fn table_of<H: Helpers + Drop>(
    rt: &impl Abort,
    alloc: Global,
    helpers: H,
    capacity: usize,
) -> Table<H> {
    let desk = Desk::new(alloc, helpers, capacity).expect(rt, "a desk");
    let first = pass_of(rt, &desk, 1, Role::AircraftOperator);
    let second = pass_of(rt, &desk, 2, Role::GroundHandler);
    let row = Arc::try_clone(desk.row()).expect(rt, "the row");
    let watch = watch_of(rt, alloc, &row);
    let later = watch_of(rt, alloc, &row);
    Table {
        desk,
        first,
        second,
        row,
        watch,
        later,
    }
}

// One call of a session that has no pass here.
fn enter<H: Helpers + Drop>(
    rt: &impl Abort,
    table: &mut Table<H>,
    session: u8,
    role: Role,
    command: Command,
)
    requires session_given { 1 ≤ session }
    requires few_sessions { session ≤ 64 }
{
    table
        .desk
        .call_for(session, role, SEVEN, command)
        .expect(rt, "a reply");
}

// Flight 7 is scheduled and its plan activated, by sessions that have no pass here.
fn begin<H: Helpers + Drop>(rt: &impl Abort, table: &mut Table<H>) {
    enter(rt, table, 3, Role::AirportOperator, scheduled(rt));
    enter(rt, table, 4, Role::NetworkManager, planned(rt));
}

// The first session sets a target, as the entry of this number.
fn first_calls<H: Helpers + Drop>(rt: &impl Abort, table: &mut Table<H>, time: u32, number: u64) {
    let target = reported(rt, Milestone::TobtUpdate, time);
    let reply = table
        .desk
        .call_lent(&mut table.first, SEVEN, target)
        .expect(rt, "a reply");
    same_number(rt, reply.number, number);
}

// So does the second.
fn second_calls<H: Helpers + Drop>(rt: &impl Abort, table: &mut Table<H>, time: u32, number: u64) {
    let target = reported(rt, Milestone::TobtUpdate, time);
    let reply = table
        .desk
        .call_lent(&mut table.second, SEVEN, target)
        .expect(rt, "a reply");
    same_number(rt, reply.number, number);
}

// Takes all that is in sight, at most so many entries, which are as many as wanted.
fn takes<H: Helpers + Drop>(rt: &impl Abort, table: &mut Table<H>, most: usize, wanted: u64) {
    let mut count = 0u64;
    for _ in 0..most {
        if !table.watch.advance_alone(&table.row).expect(rt, "memory") {
            break;
        }
        count = count.saturating_add(1);
    }
    same_number(rt, count, wanted);
}

// How many entries the watch and the second session have both seen.
fn met<H: Helpers + Drop>(table: &mut Table<H>) -> u64 {
    table.watch.meet(&mut table.second) as u64
}

// Whether the later watch takes one more entry with the pass of the second session.
fn led<H: Helpers + Drop>(rt: &impl Abort, table: &mut Table<H>) -> bool {
    if table.later.len() >= table.second.len() {
        return false;
    }
    let taken = table
        .later
        .advance_with(&table.row, &mut table.second)
        .expect(rt, "memory");
    taken
}

// Whether a watch takes one more entry by what takes a pass or none.
fn leads(watch: &mut Watch, row: &Row, pass: &mut Pass) -> bool
    requires row { row.now ≡ watch.old.row }
    requires same { pass.old.row ≡ watch.old.row }
    ensures row { watch.new.row ≡ watch.old.row }
    ensures pass { pass.new ≡ pass.old }
{
    matches!(watch.advance(row, Some(pass)), Ok(true))
}

// The same as `led` by that.
fn led_at_last<H: Helpers + Drop>(table: &mut Table<H>) -> bool {
    leads(&mut table.later, &table.row, &mut table.second)
}

// The board of the watch has this TOBT of flight 7.
fn sees_target<H: Helpers + Drop>(rt: &impl Abort, table: &Table<H>, wanted: u64) {
    let flight = table.watch.board().record_of(7).expect(rt, "flight 7");
    same_number(rt, flight.get(Field::Tobt), wanted);
}

// A watch sees nothing of an empty journal, then what there is, and later the rest.
fn sees<H: Helpers + Drop>(rt: &impl Abort, table: &mut Table<H>) {
    takes(rt, table, 5, 0);
    begin(rt, table);
    takes(rt, table, 5, 2);
    sees_target(rt, table, 0);
}

// Both sessions set a target.
fn sets<H: Helpers + Drop>(rt: &impl Abort, table: &mut Table<H>) {
    second_calls(rt, table, QUARTER_PAST_TEN, 2);
    first_calls(rt, table, FIVE_PAST_TEN, 3);
    takes(rt, table, 5, 2);
    same_number(rt, table.watch.len() as u64, 4);
    sees_target(rt, table, 29_000_765);
}

// A pass has seen the journal up to its last call, and its own calls are counted.
fn counts<H: Helpers + Drop>(rt: &impl Abort, table: &mut Table<H>) {
    same_number(rt, table.first.len() as u64, 4);
    same_number(rt, table.first.own_len() as u64, 1);
    same_number(rt, table.second.len() as u64, 3);
    same_number(rt, table.second.own_len() as u64, 1);
    same_number(rt, met(table), 3);
}

// Another watch takes what the second session has seen.
fn follows<H: Helpers + Drop>(rt: &impl Abort, table: &mut Table<H>) {
    assert!(rt; led(rt, table));
    assert!(rt; led(rt, table));
    assert!(rt; led_at_last(table));
    // What the session has not seen is seen without it.
    assert!(rt; led_at_last(table));
    assert!(rt; !led_at_last(table));
}

fn watches<H: Helpers + Drop>(rt: &impl Abort, alloc: Global, helpers: H) {
    let mut table = table_of(rt, alloc, helpers, 5);
    sees(rt, &mut table);
    sets(rt, &mut table);
    counts(rt, &mut table);
    follows(rt, &mut table);
    drop(table);
}

// The board of the watch has flight 7 in this layout, and with this end of de-icing.
fn sees_deicing<H: Helpers + Drop>(rt: &impl Abort, table: &Table<H>, layout: u64, end: u64) {
    let flight = table.watch.board().record_of(7).expect(rt, "flight 7");
    same_number(rt, flight.get(Field::Layout), layout);
    same_number(rt, flight.get(Field::Aezt), end);
    let long = if layout == 2 { 160 } else { 128 };
    same_number(rt, flight.bytes().len() as u64, long);
}

// A watch looks on while the board is migrated, and sees the times that come then.
fn migrates<H: Helpers + Drop>(rt: &impl Abort, alloc: Global, helpers: H) {
    let mut table = table_of(rt, alloc, helpers, 5);
    begin(rt, &mut table);
    takes(rt, &mut table, 5, 2);
    sees_deicing(rt, &table, 1, 0);
    enter(rt, &mut table, 3, Role::AirportOperator, Command::Migrate);
    takes(rt, &mut table, 5, 1);
    sees_deicing(rt, &table, 2, 0);
    let ended = deiced(DeicingTime::ActualEnd, TEN);
    enter(rt, &mut table, 6, Role::DeicingCompany, ended);
    takes(rt, &mut table, 5, 1);
    sees_deicing(rt, &table, 2, 29_000_760);
    drop(table);
}

// So many ticks.
fn fill<H: Helpers + Drop>(rt: &impl Abort, table: &mut Table<H>, count: usize) {
    for _ in 0..count {
        enter(rt, table, 1, Role::AirportOperator, Command::Tick);
    }
}

// A pass that is shown all has seen as many entries, none of its own, and so has the watch.
fn is_shown<H: Helpers + Drop>(rt: &impl Abort, table: &mut Table<H>, wanted: u64) {
    table.desk.show(&mut table.first).expect(rt, "memory");
    same_number(rt, table.first.len() as u64, wanted);
    same_number(rt, table.first.own_len() as u64, 0);
    same_number(rt, table.watch.meet(&mut table.first) as u64, wanted);
}

// A watch that begins to look when the journal is full takes all of it.
fn catches_up<H: Helpers + Drop>(rt: &impl Abort, alloc: Global, helpers: H) {
    let mut table = table_of(rt, alloc, helpers, 100_000);
    fill(rt, &mut table, 100_000);
    takes(rt, &mut table, 200_000, 100_000);
    is_shown(rt, &mut table, 100_000);
    drop(table);
}

#[test]
fn a_watch_far_behind_catches_up(rt: HostRuntime) {
    let alloc = rt.alloc();
    catches_up(&rt, alloc, Bank::new(alloc).expect(&rt, "a bank"));
}

#[test]
fn a_watch_sees_a_migrate(rt: HostRuntime) {
    let alloc = rt.alloc();
    migrates(&rt, alloc, Bank::new(alloc).expect(&rt, "a bank"));
}

#[test]
fn a_watch_sees_each_entry(rt: HostRuntime) {
    let alloc = rt.alloc();
    watches(&rt, alloc, Bank::new(alloc).expect(&rt, "a bank"));
}
