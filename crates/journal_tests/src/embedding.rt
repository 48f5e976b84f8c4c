//! What `docs/EMBEDDING.md` shows of a board, which are the lines here from `use` to the tests
//! (`tools/checks/commands.py` compares them).
ghost use Rattle.std.specs.Prelude.{◌≡◌, ◌+◌, ◌<◌, ◌^◌};

use acdm_board::Desk;
use acdm_milestones::{Milestone, Role};
use acdm_record::Field;
use acdm_slots::Kind;
use acdm_step::{Command, FlightPlan, Load, Report};
use acdm_watch::{Watch, Watched};
use bpf_helpers::Helpers;
use bpf_regstate::Length;
use bpf_verifier::{ProgramError, read_program};
use std::alloc::Global;
use std::sync::Arc;

const NO_MEMORY: u16 = 501;

// r1 is the moment, r2 is 5, helper 3 adds them: a target five minutes after a report.
const FIVE_LATER: [u8; 32] = [
    0xbf, 0x31, 0, 0, 0, 0, 0, 0, 0xb7, 2, 0, 0, 5, 0, 0, 0, 0x85, 0, 0, 0, 3, 0, 0, 0, 0x95, 0, 0,
    0, 0, 0, 0, 0,
];

// To run it when a flight is planned, or the number of its first fault with the helpers of a desk.
fn rule<H: Helpers + Drop>(alloc: Global, desk: &Desk<H>) -> Result<Command, u16> {
    match read_program(alloc, &FIVE_LATER, desk.sigs(), Length::L128) {
        Ok(program) => Ok(Command::Load(Load {
            milestone: Milestone::FlightPlanActivated,
            kind: Kind::Tobt,
            program,
        })),
        Err(ProgramError::Refused { code, .. }) => Err(code),
        Err(ProgramError::Memory) => Err(NO_MEMORY),
    }
}

// Has a board run the rule, or tells the number of what was refused.
fn load<H: Helpers + Drop>(alloc: Global, desk: &mut Desk<H>) -> Result<(), u16> {
    let Ok(operator) = desk.row().pass(1, Role::AirportOperator) else {
        return Err(NO_MEMORY);
    };
    let rule = rule(alloc, desk)?;
    match desk.call(operator, 29_000_580, rule) {
        Ok((_reply, _pass)) => Ok(()),
        Err((error, _pass)) => Err(error.code()),
    }
}

// The TOBT of flight 7 that a watch has seen.
fn target_on(watch: &Watch) -> Result<u64, u16> {
    match watch.board().record_of(7) {
        Some(flight) => Ok(flight.get(Field::Tobt)),
        None => Err(202),
    }
}

// The TOBT that a watch sees once it has taken both entries which the pass of a session has seen that
// plans the flight; or the number of what was refused.
fn planned<H: Helpers + Drop>(desk: &mut Desk<H>, plan: FlightPlan) -> Result<u64, u16> {
    let Ok(row) = Arc::try_clone(desk.row()) else {
        return Err(NO_MEMORY);
    };
    let Ok(manager) = row.pass(2, Role::NetworkManager) else {
        return Err(NO_MEMORY);
    };
    let report = Report::new(7, Milestone::FlightPlanActivated, 29_000_760, Some(plan));
    let mut manager = match desk.call(manager, 29_000_580, Command::Report(report)) {
        Ok((_reply, pass)) => pass,
        Err((error, _pass)) => return Err(error.code()),
    };
    let Ok(mut watch) = row.watch() else {
        return Err(NO_MEMORY);
    };
    let loaded = watch.advance(&row, Some(&mut manager));
    let planned = watch.advance(&row, Some(&mut manager));
    let found = match (loaded, planned) {
        (Ok(_), Ok(_)) => target_on(&watch),
        _ => Err(NO_MEMORY),
    };
    drop(watch);
    found
}

// The TOBT that the rule sets of a flight that is planned, as a watch sees it, on a board over these
// helpers; or the number of what was refused.
fn target<H: Helpers + Drop>(alloc: Global, helpers: H, plan: FlightPlan) -> Result<u64, u16> {
    let Ok(mut desk) = Desk::new(alloc, helpers, 100) else {
        return Err(NO_MEMORY);
    };
    let found = match load(alloc, &mut desk) {
        Ok(()) => planned(&mut desk, plan),
        Err(code) => Err(code),
    };
    drop(desk);
    found
}

mod tests {
    use super::target;
    use crate::board::sum_signature;
    use crate::fixture::plan;
    use bpf_helpers::{Bank, Helper, HelperCode};
    use std::process::Abort;

    fn is_five_later(rt: &impl Abort, found: Result<u64, u16>) {
        assert!(rt; found == Ok(29_000_585), "{found:?}");
    }

    #[test]
    fn a_board_runs_over_a_bank_of_closures(rt: HostRuntime) {
        let alloc = rt.alloc();
        let minutes: HelperCode = Box::new(
            alloc,
            |a: u64, b: u64, _c: u64, _d: u64, _e: u64| -> u64
                requires { a + b < 2 ^ 64 }
                ensures { result ≡ a + b }
            { a + b },
        )
        .expect(&rt, "code");
        let helper = Helper::new(3, sum_signature(&rt, alloc), minutes);
        let mut bank = Bank::new(alloc).expect(&rt, "a bank");
        if bank.add(helper).is_err() {
            panic!(rt; "not added");
        }
        is_five_later(&rt, target(alloc, bank, plan(&rt)));
    }
}
