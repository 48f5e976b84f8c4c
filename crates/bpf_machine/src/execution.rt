//! An accepted program with the answers of helpers.

ghost use Rattle.std.specs.Prelude.{◌≡◌, IfOk, length};
ghost use Rattle.acdm_milestones.specs.Tables.{number};
ghost use Rattle.bpf_regstate.specs.Lengths.{bytes_in};
ghost use Rattle.bpf_machine.specs.Outcome.{EndsWithin};

use acdm_milestones::Milestone;
use bpf_decode::NoMemory;
use bpf_helpers::{Helpers, Live};
use bpf_run::{Ended, run};
use bpf_verifier::Checked;
use std::alloc::Global;

/// Runs an accepted program with helpers, of which it asks no more than it has slots.
pub(crate) fn execute<H: Helpers>(
    alloc: Global,
    checked: &Checked,
    helpers: &H,
    record_bytes: &[u8],
    moment: u32,
    milestone: Milestone,
) -> Result<Ended, NoMemory>
    requires sigs { H.entries helpers.now ≡ checked.now.sigs }
    requires long { length record_bytes.now ≡ bytes_in checked.now.record_length }
    ensures { IfOk result (EndsWithin checked.now.ops checked.now.sigs record_bytes.now moment
        (number milestone)) }
{
    let room = checked.program().slot_count() as u64;
    let mut live = Live::new(alloc, helpers, room)?;
    match run(checked, record_bytes, moment, milestone, &mut live) {
        Ok(ended) => Ok(ended),
        Err(_) => unreachable!(),
    }
}
