//! Which reports of milestones are admitted.
ghost use Rattle.std.specs.Prelude.{◌≡◌, ◌≤◌, ℕ, IsTrue};
ghost use Rattle.std.specs.List.{list_all};
ghost use Rattle.acdm_record.specs.Place.{width_of};
ghost use Rattle.acdm_record.specs.Fields.{is_allowed};
ghost use Rattle.acdm_record.specs.Assign.{with_all};
ghost use Rattle.acdm_milestones.specs.Tables.{time_field, times_of, needs, needs_set, bar};
ghost use Rattle.acdm_milestones.specs.Tables.{has_reached, is_set, follows, is_in_order};
ghost use Rattle.acdm_milestones.specs.Tables.{admission};

use crate::milestone::Milestone;
use crate::reached::has_reached;
use crate::refusal::Refusal;
use crate::role::{Action, Role, owns};
use acdm_record::{Field, Record};

// The field that a milestone's time sets.
fn field_of(milestone: Milestone) -> Field
    ensures value { result ≡ time_field milestone }
    ensures wide { width_of result ≡ 4 }
    ensures free { (layout v : ℕ) → IsTrue (is_allowed layout result v) }
{
    match milestone {
        Milestone::FlightPlanActivated => Field::Eobt,
        Milestone::TwoHoursBeforeEobt => Field::Ctot,
        Milestone::TakeOffFromOutstation => Field::Otot,
        Milestone::LocalRadarUpdate => Field::Eldt,
        Milestone::FinalApproach => Field::Eldt,
        Milestone::Landed => Field::Aldt,
        Milestone::InBlock => Field::Aibt,
        Milestone::GroundHandlingStarts => Field::Acgt,
        Milestone::TobtUpdate => Field::Tobt,
        Milestone::TsatIssue => Field::Tsat,
        Milestone::BoardingStarts => Field::Asbt,
        Milestone::AircraftReady => Field::Ardt,
        Milestone::StartUpRequest => Field::Asrt,
        Milestone::StartUpApproved => Field::Asat,
        Milestone::OffBlock => Field::Aobt,
        Milestone::TakeOff => Field::Atot,
    }
}

/// Sets the time of a milestone in a record, in minutes since 1970-01-01T00:00Z; 0 is no time.
///
/// A TOBT update without a time clears TOBT and TSAT.
pub fn set_time(record: &mut Record, milestone: Milestone, time: u32)
    ensures { «record».new ≡ with_all «record».old (times_of milestone time) }
{
    record.set(field_of(milestone), u64::from(time));
    if time == 0 && matches!(milestone, Milestone::TobtUpdate) {
        record.set(Field::Tsat, 0);
    }
}

// The milestone from which on this one can be reported no more.
fn barred_by(milestone: Milestone) -> u32
    ensures value { result ≡ bar milestone }
    ensures fits { result ≤ 16 }
{
    match milestone {
        Milestone::TakeOffFromOutstation => 6,
        Milestone::LocalRadarUpdate => 6,
        Milestone::FinalApproach => 6,
        Milestone::Landed => 7,
        Milestone::TobtUpdate => 14,
        Milestone::TwoHoursBeforeEobt => 16,
        Milestone::OffBlock => 16,
        Milestone::TakeOff => 16,
        _ => 15,
    }
}

fn is_set(record: &Record, field: Field) -> bool
    ensures { result ≡ is_set «record».now field }
{
    record.get(field) != 0
}

fn has_needed(record: &Record, milestone: Milestone) -> bool
    ensures { result ≡ list_all (has_reached «record».now) (needs milestone) }
{
    match milestone {
        Milestone::FlightPlanActivated => true,
        Milestone::InBlock => has_reached(record, 1) && has_reached(record, 6),
        Milestone::GroundHandlingStarts => has_reached(record, 1) && has_reached(record, 7),
        Milestone::StartUpRequest => has_reached(record, 1) && has_reached(record, 10),
        Milestone::StartUpApproved => {
            has_reached(record, 1) && has_reached(record, 10) && has_reached(record, 13)
        }
        Milestone::OffBlock => has_reached(record, 1) && has_reached(record, 14),
        Milestone::TakeOff => has_reached(record, 1) && has_reached(record, 15),
        _ => has_reached(record, 1),
    }
}

fn has_set(record: &Record, milestone: Milestone) -> bool
    ensures { result ≡ list_all (is_set «record».now) (needs_set milestone) }
{
    match milestone {
        Milestone::TsatIssue | Milestone::BoardingStarts | Milestone::AircraftReady => {
            is_set(record, Field::Tobt)
        }
        Milestone::StartUpRequest | Milestone::StartUpApproved => is_set(record, Field::Tsat),
        _ => true,
    }
}

/// Whether the later of two times is not before the earlier, where both are set.
pub(crate) fn follows(record: &Record, later: Field, earlier: Field) -> bool
    ensures { result ≡ follows «record».now later earlier }
{
    let first = record.get(earlier);
    let second = record.get(later);
    first == 0 || second == 0 || first <= second
}

fn is_in_order(record: &Record) -> bool
    ensures { result ≡ is_in_order «record».now }
{
    follows(record, Field::Aibt, Field::Aldt)
        && follows(record, Field::Acgt, Field::Aibt)
        && follows(record, Field::Asat, Field::Asrt)
        && follows(record, Field::Atot, Field::Aobt)
}

/// Whether a role may report a milestone of a flight with this record, at this time in minutes
/// since 1970-01-01T00:00Z (0 is no time).
///
/// The first refusal that applies (this project's profile): 201 where the role does not own the
/// milestone, 203 where a milestone that it needs was not reached, 204 where one that bars it was,
/// 205 where a time that it needs is not set, 206 where the times would stand in the wrong order
/// after the report.
pub fn admit(record: &Record, role: Role, milestone: Milestone, time: u32) -> Result<(), Refusal>
    ensures { result ≡ admission «record».now role milestone time }
{
    if !owns(role, Action::Report(milestone)) {
        return Err(Refusal::NotOwner);
    }
    if !has_needed(record, milestone) {
        return Err(Refusal::MissingMilestone);
    }
    if has_reached(record, barred_by(milestone)) {
        return Err(Refusal::Barred);
    }
    if !has_set(record, milestone) {
        return Err(Refusal::NotSet);
    }
    let mut after = record.copy();
    set_time(&mut after, milestone, time);
    if !is_in_order(&after) {
        return Err(Refusal::TimeOrder);
    }
    Ok(())
}
