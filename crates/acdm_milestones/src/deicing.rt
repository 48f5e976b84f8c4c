//! Times of de-icing, and which of them are taken.
ghost use Rattle.std.specs.Prelude.{◌≡◌, ℕ, IsTrue};
ghost use Rattle.acdm_record.specs.declared.field.Field.TheVariants.{Layout};
ghost use Rattle.acdm_record.specs.Place.{width_of};
ghost use Rattle.acdm_record.specs.Fields.{is_allowed, number_of, set_number};
ghost use Rattle.acdm_milestones.specs.Deicing.{deicing_admission, deicing_field, deicing_name};
ghost use Rattle.acdm_milestones.specs.Deicing.{deicing_named, is_deicing_in_order};

use crate::admission::follows;
use crate::reached::has_reached;
use crate::refusal::Refusal;
use acdm_record::{Field, Record};

/// A time of de-icing that the de-icing company reports.
#[derive(Clone, Copy, Debug, PartialEq, Eq)]
pub enum DeicingTime {
    /// ECZT: the estimated commencement of de-icing.
    EstimatedCommencement,
    /// EEZT: the estimated end of de-icing.
    EstimatedEnd,
    /// ACZT: the actual commencement of de-icing.
    ActualCommencement,
    /// AEZT: the actual end of de-icing.
    ActualEnd,
}

impl DeicingTime {
    /// Its name: `eczt`, `eezt`, `aczt` or `aezt` (this project's profile).
    pub fn name(self) -> &'static str
        ensures { result.now ≡ deicing_name self }
    {
        match self {
            DeicingTime::EstimatedCommencement => "eczt",
            DeicingTime::EstimatedEnd => "eezt",
            DeicingTime::ActualCommencement => "aczt",
            DeicingTime::ActualEnd => "aezt",
        }
    }

    /// The time of a name, if there is one.
    pub fn from_name(name: &[u8]) -> Option<DeicingTime>
        ensures { result ≡ deicing_named name.now }
    {
        if name == b"eczt".as_slice() {
            Some(DeicingTime::EstimatedCommencement)
        } else if name == b"eezt".as_slice() {
            Some(DeicingTime::EstimatedEnd)
        } else if name == b"aczt".as_slice() {
            Some(DeicingTime::ActualCommencement)
        } else if name == b"aezt".as_slice() {
            Some(DeicingTime::ActualEnd)
        } else {
            None
        }
    }

    // Its field in a record.
    fn field(self) -> Field
        ensures value { result ≡ deicing_field self }
        ensures wide { width_of result ≡ 4 }
        ensures free { (v : ℕ) → IsTrue (is_allowed 2 result v) }
    {
        match self {
            DeicingTime::EstimatedCommencement => Field::Eczt,
            DeicingTime::EstimatedEnd => Field::Eezt,
            DeicingTime::ActualCommencement => Field::Aczt,
            DeicingTime::ActualEnd => Field::Aezt,
        }
    }
}

/// Sets a time of de-icing in a record of layout 2, in minutes since 1970-01-01T00:00Z; 0 is no
/// time.
pub fn set_deicing_time(record: &mut Record, which: DeicingTime, time: u32)
    requires { number_of «record».old Layout ≡ 2 }
    ensures { «record».new ≡ set_number «record».old (deicing_field which) time }
{
    record.set(which.field(), u64::from(time));
}

fn is_in_order(record: &Record) -> bool
    ensures { result ≡ is_deicing_in_order «record».now }
{
    follows(record, Field::Eezt, Field::Eczt) && follows(record, Field::Aezt, Field::Aczt)
}

/// Whether a flight with this record of layout 2 may be given a time of de-icing, in minutes since
/// 1970-01-01T00:00Z (0 is no time).
///
/// The first refusal that applies (this project's profile): 203 where the flight plan was not
/// activated, 204 where the flight has taken off, 206 where an end of de-icing would stand before
/// its commencement.
pub fn admit_deicing(record: &Record, which: DeicingTime, time: u32) -> Result<(), Refusal>
    requires { number_of «record».now Layout ≡ 2 }
    ensures { result ≡ deicing_admission «record».now which time }
{
    if !has_reached(record, 1) {
        return Err(Refusal::MissingMilestone);
    }
    if has_reached(record, 16) {
        return Err(Refusal::Barred);
    }
    let mut after = record.copy();
    set_deicing_time(&mut after, which, time);
    if !is_in_order(&after) {
        return Err(Refusal::TimeOrder);
    }
    Ok(())
}
