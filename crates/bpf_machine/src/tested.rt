//! Running a program with every test.

ghost use Rattle.std.specs.Prelude.{◌≡◌, ◌<◌, ◌≤◌, ◌^◌, length, IfOk, IfErr};
ghost use Rattle.bpf_decode.specs.declared.program.TheConstants.{MOST_SLOTS};
ghost use Rattle.bpf_run.specs.Ends.{EndsOver};
ghost use Rattle.bpf_machine.specs.Outcome.{TrapsOver, is_refused};
ghost use Rattle.bpf_helpers.specs.Oracles.{Counts, MayBeAsked, SameRule};
ghost use Rattle.acdm_milestones.specs.Tables.{number};

use crate::outcome::Trap;
use crate::state::{MachineState, Step};
use acdm_milestones::Milestone;
use bpf_decode::{Op, Program};
use bpf_helpers::{Oracle, Sigs};
use bpf_run::Ended;

/// Runs these slots, of which there is one.
fn run_slots<O: Oracle>(
    ops: &[Op],
    sigs: &Sigs,
    record_bytes: &[u8],
    moment: u32,
    milestone: u32,
    oracle: &mut O,
) -> Result<Ended, Trap>
    requires some { 0 < length ops.now }
    requires few { length ops.now ≤ MOST_SLOTS }
    requires short { length record_bytes.now < 2 ^ 16 }
    requires oracle { MayBeAsked sigs.now (O.view oracle.old) }
    ensures ended { IfOk result (EndsOver ops.now sigs.now record_bytes.now moment milestone
        (O.view oracle.old) (O.view oracle.new)) }
    ensures trapped { IfErr result
        (TrapsOver ops.now sigs.now record_bytes.now moment milestone (O.view oracle.old)
        (O.view oracle.new)) }
    ensures counted { Counts (is_refused result) (O.view oracle.old) (O.view oracle.new) }
    ensures same_rule { SameRule (O.view oracle.old) (O.view oracle.new) }
{
    let mut state = MachineState::start(record_bytes.len(), moment, milestone);
    let mut steps = 0u64;
    loop {
        steps += 1;
        match state.advance(ops, sigs, record_bytes, oracle) {
            Step::Went => {}
            Step::Ended(r0) => return Ok(Ended { r0, steps }),
            Step::Trapped => return Err(Trap::Stuck),
            Step::Unanswered => return Err(Trap::Unanswered),
        }
    }
}

/// Runs a program on a flight's record, of whatever length below 65,536 bytes, which is what r2
/// starts with, at a moment (minutes since 1970-01-01T00:00Z), for a milestone that was reported, with the answers of an oracle. Each step is tested first, so it
/// also returns on a program that was never checked: what has no step is `Trap::Stuck`, and a call
/// that the oracle leaves without an answer is `Trap::Unanswered`. The instructions are those of
/// RFC 9669, and memory and calls those of this project's profile. It takes no memory.
pub fn run_tested<O: Oracle>(
    program: &Program,
    sigs: &Sigs,
    record_bytes: &[u8],
    moment: u32,
    milestone: Milestone,
    oracle: &mut O,
) -> Result<Ended, Trap>
    requires short { length record_bytes.now < 2 ^ 16 }
    // The oracle answers by these signatures, and may still count one more call without an answer.
    requires oracle { MayBeAsked sigs.now (O.view oracle.old) }

    // The answers meant are those that the oracle gave in the call, by which its log has grown.
    ensures ended { IfOk result (EndsOver program.now sigs.now record_bytes.now moment
        (number milestone) (O.view oracle.old) (O.view oracle.new)) }
    ensures trapped { IfErr result
        (TrapsOver program.now sigs.now record_bytes.now moment (number milestone)
        (O.view oracle.old) (O.view oracle.new)) }

    // The oracle gave no answer once where the run was left without one, and never where it was
    // not.
    ensures counted { Counts (is_refused result) (O.view oracle.old) (O.view oracle.new) }
    ensures same_rule { SameRule (O.view oracle.old) (O.view oracle.new) }
{
    run_slots(
        program.ops(),
        sigs,
        record_bytes,
        moment,
        milestone.number(),
        oracle,
    )
}
