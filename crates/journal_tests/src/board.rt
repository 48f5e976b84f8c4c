//! A helper that is asked through the desk, and what its entry keeps.
ghost use Rattle.std.specs.Prelude.{◌≡◌, ◌+◌, ◌<◌, ◌≤◌, ◌^◌};
ghost use Rattle.bpf_helpers.specs.Known.{sum};

use crate::fixture::{planned, reported, same_number, scheduled};
use acdm_board::{Desk, DeskError, Reply};
use acdm_milestones::{Milestone, Role};
use acdm_record::Field;
use acdm_slots::Kind;
use acdm_step::{Command, Load, Verdict};
use bpf_decode::decode;
use bpf_helpers::{Bank, Helper, HelperCode, Helpers, Range, Signature, Sigs};
use bpf_regstate::Length;
use bpf_verifier::verify;
use std::alloc::Global;
use std::process::Abort;
use std::sync::Arc;

// 2025-02-20T09:00Z.
const NINE: u32 = 29_000_700;

// r1 = the moment, r2 = 5, helper 3, exit.
static FIVE_LATER: [u8; 32] = [
    0xbf, 0x31, 0, 0, 0, 0, 0, 0, 0xb7, 0x02, 0, 0, 5, 0, 0, 0, 0x85, 0, 0, 0, 3, 0, 0, 0, 0x95, 0,
    0, 0, 0, 0, 0, 0,
];

// r0 = 0, exit.
static NOTHING: [u8; 16] = [0xb7, 0, 0, 0, 0, 0, 0, 0, 0x95, 0, 0, 0, 0, 0, 0, 0];

pub(crate) fn sum_signature(rt: &impl Abort, alloc: Global) -> Signature
    ensures { result ≡ sum }
{
    let args = vec![in alloc;
        Range {
            lo: 0,
            hi: 4_294_967_295
        },
        Range { lo: 0, hi: 10_000 },
    ]
    .expect(rt, "arguments");
    let answer = Range {
        lo: 0,
        hi: 4_294_977_295,
    };
    Signature::new(args, answer, Vec::new(alloc)).expect(rt, "a signature")
}

// A load of these bytes, checked against these signatures.
fn loaded(rt: &impl Abort, alloc: Global, kind: Kind, bytes: &[u8], sigs: &Sigs) -> Command {
    let program = decode(alloc, bytes).expect(rt, "a program");
    Command::Load(Load {
        milestone: Milestone::InBlock,
        kind,
        program: verify(alloc, program, sigs, Length::L128).expect(rt, "an accepted program"),
    })
}

fn no_sigs(rt: &impl Abort, alloc: Global) -> Sigs {
    let bank = Bank::new(alloc).expect(rt, "a bank");
    bank.sigs().expect(rt, "signatures")
}

// A call that makes an entry.
fn entered<H: Helpers + Drop>(
    rt: &impl Abort,
    desk: &mut Desk<H>,
    session: u8,
    role: Role,
    command: Command,
) -> Reply
    requires session_given { 1 ≤ session }
    requires few_sessions { session ≤ 64 }
{
    desk.call_for(session, role, NINE, command)
        .expect(rt, "a reply")
}

// A call of session 1 that makes none, for this reason.
fn refused<H: Helpers + Drop>(
    rt: &impl Abort,
    desk: &mut Desk<H>,
    command: Command,
    wanted: DeskError,
) {
    let found = desk.call_for(1, Role::AirportOperator, NINE, command).err();
    assert!(rt; found == Some(wanted));
}

// The TOBT of flight 7 is five minutes after its in-block report.
fn has_target<H: Helpers + Drop>(rt: &impl Abort, desk: &Desk<H>) {
    let flight = desk.core().record_of(7).expect(rt, "flight 7");
    same_number(rt, flight.get(Field::Tobt), 29_000_705);
}

// An entry has this number and this one answer, and is the last.
fn has_answer<H: Helpers + Drop>(rt: &impl Abort, desk: &mut Desk<H>, number: u64, answer: u64) {
    let row = Arc::try_clone(desk.row()).expect(rt, "the row");
    let entry = desk.entry(&row, number).expect(rt, "an entry");
    same_number(rt, entry.number, number);
    assert!(rt; entry.answers.as_slice() == [answer].as_slice());
    assert!(rt; desk.entry(&row, number.saturating_add(1)).is_none());
}

// The in-block report of flight 7, after all that has to come before it.
fn in_block<H: Helpers + Drop>(rt: &impl Abort, desk: &mut Desk<H>) -> Reply {
    let landed = reported(rt, Milestone::Landed, NINE);
    let in_block = reported(rt, Milestone::InBlock, NINE);
    entered(rt, desk, 1, Role::AirportOperator, scheduled(rt));
    entered(rt, desk, 2, Role::NetworkManager, planned(rt));
    entered(rt, desk, 3, Role::AirTrafficControl, landed);
    entered(rt, desk, 1, Role::AirportOperator, in_block)
}

// The TOBT of flight 7 is five minutes after its in-block report, as helper 3 says it.
fn asks<H: Helpers + Drop>(rt: &impl Abort, alloc: Global, desk: &mut Desk<H>) {
    let load = loaded(rt, alloc, Kind::Tobt, &FIVE_LATER, desk.sigs());
    entered(rt, desk, 1, Role::AirportOperator, load);
    let reply = in_block(rt, desk);
    same_number(rt, reply.number, 4);
    assert!(rt; reply.outcome.verdict() == Verdict::Accepted);
    has_target(rt, desk);
    same_number(rt, desk.len(), 5);
    has_answer(rt, desk, 4, 29_000_705);
}

// The in-block report has the program of four instructions for the target, and no other, and there
// are so many entries.
fn has_one_program<H: Helpers + Drop>(rt: &impl Abort, desk: &Desk<H>, entries: u64) {
    let in_block = reported(rt, Milestone::InBlock, NINE);
    same_number(rt, desk.core().room(&in_block), 4);
    same_number(rt, desk.len(), entries);
}

// A program that was checked against other signatures comes into neither slot.
fn refuses_foreign<H: Helpers + Drop>(
    rt: &impl Abort,
    alloc: Global,
    desk: &mut Desk<H>,
    kind: Kind,
) {
    let foreign = loaded(rt, alloc, kind, &NOTHING, &no_sigs(rt, alloc));
    refused(rt, desk, foreign, DeskError::OtherSignatures);
    has_one_program(rt, desk, 5);
}

// Such a program, and then a full journal.
fn refuses<H: Helpers + Drop>(rt: &impl Abort, alloc: Global, desk: &mut Desk<H>) {
    has_one_program(rt, desk, 5);
    refuses_foreign(rt, alloc, desk, Kind::Tobt);
    refuses_foreign(rt, alloc, desk, Kind::Alert);
    entered(rt, desk, 1, Role::AirportOperator, Command::Tick);
    refused(rt, desk, Command::Tick, DeskError::Full);
    let foreign = loaded(rt, alloc, Kind::Alert, &NOTHING, &no_sigs(rt, alloc));
    refused(rt, desk, foreign, DeskError::Full);
}

fn five_minutes_later<H: Helpers + Drop>(rt: &impl Abort, alloc: Global, helpers: H) {
    let mut desk = Desk::new(alloc, helpers, 6).expect(rt, "a desk");
    asks(rt, alloc, &mut desk);
    refuses(rt, alloc, &mut desk);
    drop(desk);
}

#[test]
fn a_helper_is_asked_through_the_desk(rt: HostRuntime) {
    let alloc = rt.alloc();
    let minutes: HelperCode = Box::new(
        alloc,
        |a: u64, b: u64, _c: u64, _d: u64, _e: u64| -> u64
            requires { a + b < 2 ^ 64 }
            ensures { result ≡ a + b }
        { a + b },
    )
    .expect(&rt, "code");
    let helper = Helper::new(3, sum_signature(&rt, alloc), minutes);
    let mut bank = Bank::new(alloc).expect(&rt, "a bank");
    if bank.add(helper).is_err() {
        panic!(rt; "not added");
    }
    five_minutes_later(&rt, alloc, bank);
}
