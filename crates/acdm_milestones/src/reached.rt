//! The reached word of a record: bit 0 for its schedule, bit m for milestone m.
ghost use Rattle.std.specs.Prelude.{◌≡◌, ◌≤◌};
ghost use Rattle.acdm_milestones.specs.Tables.{has_reached, marked};

use acdm_record::{Field, Record};

/// Whether a record has a bit of its reached word set: 0 for its schedule, m for milestone m.
pub fn has_reached(record: &Record, bit: u32) -> bool
    requires { bit ≤ 16 }
    ensures { result ≡ has_reached «record».now bit }
{
    (record.get(Field::Reached) >> bit) % 2 == 1
}

/// Sets a bit of the reached word: 0 for a schedule, m for milestone m.
pub fn mark_reached(record: &mut Record, bit: u32)
    requires { bit ≤ 16 }
    ensures { «record».new ≡ marked «record».old bit }
{
    let reached = record.get(Field::Reached);
    record.set(Field::Reached, reached | (1 << bit));
}
