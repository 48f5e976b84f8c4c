//! Programs that are judged again beside records of another length.

ghost use Rattle.std.specs.Prelude.{◌≡◌, ◌++◌, ◌∷◌, [], Some, IfOk, IfErr, OnOk};
ghost use Rattle.acdm_slots.specs.Loaded.{program_in, values};
ghost use Rattle.acdm_slots.specs.Migration.{kept_program, lengthened, migrated_slots};
ghost use Rattle.acdm_slots.specs.Migration.{TellsFault};
ghost use Rattle.acdm_slots.specs.Migration.{unloaded, unloaded_at, unloaded_of};

use crate::kind::Kind;
use crate::slots::{PLACES, Slots};
use acdm_milestones::Milestone;
use bpf_regstate::Length;
use bpf_verifier::{Checked, VerifyError, verify};
use std::alloc::{AllocError, Global};

/// A program that is taken out of its slot, since it has a fault beside records of the board's new
/// length.
#[derive(Clone, Copy, Debug, PartialEq, Eq)]
pub struct Unloaded {
    pub milestone: Milestone,
    pub kind: Kind,
    /// The number of its first fault, 306 to 314.
    pub code: u16,
    /// The slot of the fault, counted from 0.
    pub slot: usize,
}

/// The programs of a board whose records got another length, and those that were taken out, by
/// milestone, and of one milestone the program for TOBT first.
#[derive(Drop)]
pub struct Migrated {
    pub slots: Slots,
    pub unloaded: Vec<Unloaded>,
}

const MILESTONES: [Milestone; 16] = [
    Milestone::FlightPlanActivated,
    Milestone::TwoHoursBeforeEobt,
    Milestone::TakeOffFromOutstation,
    Milestone::LocalRadarUpdate,
    Milestone::FinalApproach,
    Milestone::Landed,
    Milestone::InBlock,
    Milestone::GroundHandlingStarts,
    Milestone::TobtUpdate,
    Milestone::TsatIssue,
    Milestone::BoardingStarts,
    Milestone::AircraftReady,
    Milestone::StartUpRequest,
    Milestone::StartUpApproved,
    Milestone::OffBlock,
    Milestone::TakeOff,
];

// A copy of a program, judged beside records of this length.
fn judged_again(
    alloc: Global,
    program: &Checked,
    record_length: Length,
) -> Result<Checked, VerifyError>
    ensures kept { IfOk result (λ checked. kept_program record_length (Some program.now) ≡ Some checked) }
    ensures checked { IfOk result (λ checked. checked ≡ lengthened record_length program.now) }
    ensures refused { IfErr result (TellsFault record_length program.now) }
{
    let copy = program.program().copy()?;
    verify(alloc, copy, program.sigs(), record_length)
}

impl Slots {
    // What becomes of the program in one slot.
    fn judge_slot(
        &self,
        alloc: Global,
        milestone: Milestone,
        kind: Kind,
        record_length: Length,
        programs: &mut Vec<Option<Checked>>,
        unloaded: &mut Vec<Unloaded>,
    ) -> Result<(), AllocError>
        ensures programs { OnOk result (programs.new.items ≡ programs.old.items
            ++ kept_program record_length (program_in self.now milestone kind) ∷ []) }
        ensures unloaded { OnOk result (unloaded.new.items ≡ unloaded.old.items
            ++ unloaded_at record_length (program_in self.now milestone kind) milestone kind) }
    {
        let Some(checked) = self.get(milestone, kind) else {
            programs.push(None)?;
            return Ok(());
        };
        match judged_again(alloc, checked, record_length) {
            Ok(program) => programs.push(Some(program))?,
            Err(VerifyError::Refused { fault, slot }) => {
                programs.push(None)?;
                unloaded.push(Unloaded {
                    milestone,
                    kind,
                    code: fault.code(),
                    slot,
                })?;
            }
            Err(VerifyError::Memory) => return Err(AllocError),
        }
        Ok(())
    }

    /// The programs that are accepted beside records of another length too, each in its slot, and
    /// what there is to tell of the others. These slots stay as they are. `Err` only where there is
    /// no memory.
    pub fn migrated(&self, record_length: Length) -> Result<Migrated, AllocError>
        ensures slots { IfOk result (λ m. m.slots ≡ migrated_slots record_length self.now) }
        ensures unloaded { IfOk result (λ m. m.unloaded.items ≡ unloaded record_length (program_in self.now)) }
    {
        let alloc = self.allocator();
        let sigs = self.sigs().copy()?;
        let mut programs = Vec::with_capacity(alloc, PLACES)?;
        let mut unloaded = Vec::new(alloc);
        let mut rest: &[Milestone] = &MILESTONES;
        while let Some((milestone, more)) = rest.split_first() {
            let milestone = *milestone;
            self.judge_slot(
                alloc,
                milestone,
                Kind::Tobt,
                record_length,
                &mut programs,
                &mut unloaded,
            )?;
            self.judge_slot(
                alloc,
                milestone,
                Kind::Alert,
                record_length,
                &mut programs,
                &mut unloaded,
            )?;
            rest = more;
        }
        let slots = Slots::of(sigs, record_length, programs);
        Ok(Migrated { slots, unloaded })
    }
}
