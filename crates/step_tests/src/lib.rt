//! What the crates of the board's records and steps answer through their public calls: the tests of
//! `acdm_record`, `acdm_milestones`, `acdm_alerts`, `acdm_slots` and `acdm_step`. A check of a
//! crate's tests proves the crate once more, so they stand here.
#![tactic(auto)]

#[cfg(test)]
mod alerts;
#[cfg(test)]
mod deicing;
#[cfg(test)]
mod fixture;
#[cfg(test)]
mod lengths;
#[cfg(test)]
mod milestones;
#[cfg(test)]
mod record;
#[cfg(test)]
mod slots;
#[cfg(test)]
mod step;
#[cfg(test)]
mod walk;
