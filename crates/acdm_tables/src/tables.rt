//! The tables of an airport.

ghost use Rattle.std.specs.Prelude.{◌≡◌, ◌↔◌, is_some, IsSome, IsTrue, IfOk, IfSome};
ghost use Rattle.std.specs.List.{list_all};
ghost use Rattle.bpf_helpers.specs.Known.{taxi, turn_round};
ghost use Rattle.bpf_helpers.specs.Promise.{is_in, is_well_formed};
ghost use Rattle.acdm_tables.specs.Helpers.{built_in, is_right, listed_or, same_pairs, same_tables, step_or};
ghost use Rattle.acdm_tables.specs.Helpers.{taxi_by, taxi_minutes, turn_round_by, turn_round_minutes};

use bpf_helpers::{Range, Signature};
use std::alloc::{AllocError, Global};
use std::marker::Model;

/// The bytes of a type as a little-endian number.
const A320: u64 = 808_596_289;

const B738: u64 = 942_880_578;

const A388: u64 = 943_207_233;

/// The greatest number of 32 bits.
pub(crate) const GREATEST: u64 = 4_294_967_295;

/// The minutes that a turn-round and a taxi may take.
const TURN_ROUND: Range = Range { lo: 1, hi: 1440 };

const TAXI: Range = Range { lo: 1, hi: 60 };

/// The turn-round time of types that are not known, which is built in.
pub(crate) const OTHER: u64 = 60;

/// The least turn-round times of aircraft types, 1 to 1,440 minutes, and the taxi times from stands, 1
/// to 60 minutes, of an airport.
#[derive(Drop)]
pub struct Tables {
    // By the numbers of types, which rise.
    types: Vec<(u64, u64)>,
    // Of all other types.
    other: u64,
    // By the stands whose taxi time a signature tells, which rise.
    stands: Vec<(u64, u64)>,
    // From which stand on which taxi time holds.
    steps: Vec<(u64, u64)>,
}

impl Model for Tables {
    ghost use Rattle.std.specs.Prelude.{IsTrue};
    ghost use Rattle.acdm_tables.specs.Helpers.{TablesView, is_right};

    ghost Value = { TablesView };

    ghost view = { λ t. record {
      types = t.types.items;
      other = t.other;
      stands = t.stands.items;
      steps = t.steps.items;
    } };

    ghost invariant = { λ t. IsTrue (is_right (record {
      types = t.types.items;
      other = t.other;
      stands = t.stands.items;
      steps = t.steps.items;
    })) };
}

// What a table has for a key, else this.
fn listed_or(other: u64, table: &[(u64, u64)], key: u64) -> u64
    ensures { result ≡ listed_or other table.now key }
{
    let mut rest = table;
    while let Some((entry, more)) = rest.split_first() {
        if entry.0 == key {
            return entry.1;
        }
        rest = more;
    }
    other
}

// What the last step has that begins at a stand or before it, else this.
fn step_or(minutes: u64, steps: &[(u64, u64)], stand: u64) -> u64
    ensures { result ≡ step_or minutes steps.now stand }
{
    let mut found = minutes;
    let mut rest = steps;
    while let Some((step, more)) = rest.split_first() {
        if step.0 <= stand {
            found = step.1;
        }
        rest = more;
    }
    found
}

// Whether two tables of pairs are one.
fn are_same(one: &[(u64, u64)], other: &[(u64, u64)]) -> bool
    ensures { result ≡ same_pairs one.now other.now }
{
    let mut left = one;
    let mut right = other;
    while let Some((first, rest)) = left.split_first() {
        let Some((second, more)) = right.split_first() else {
            return false;
        };
        if first.0 != second.0 || first.1 != second.1 {
            return false;
        }
        left = rest;
        right = more;
    }
    right.is_empty()
}

/// The turn-round times of types that are built in.
pub(crate) fn types_built_in(alloc: Global) -> Result<Vec<(u64, u64)>, AllocError>
    ensures { IfOk result (λ types. types.items ≡ built_in.types) }
{
    Ok(vec![in alloc; (A320, 45), (B738, 45), (A388, 120)]?)
}

/// The stands that are built in, whose taxi times a signature tells.
pub(crate) fn stands_built_in(alloc: Global) -> Result<Vec<(u64, u64)>, AllocError>
    ensures { IfOk result (λ stands. stands.items ≡ built_in.stands) }
{
    Ok(vec![in alloc; (12, 10), (120, 15), (900, 20)]?)
}

/// The steps of taxi times that are built in.
pub(crate) fn steps_built_in(alloc: Global) -> Result<Vec<(u64, u64)>, AllocError>
    ensures { IfOk result (λ steps. steps.items ≡ built_in.steps) }
{
    Ok(vec![in alloc; (0, 10), (100, 15), (500, 20)]?)
}

// What helper 1 promises with these types, if that is well formed.
fn turn_round_signature(
    alloc: Global,
    types: &[(u64, u64)],
) -> Result<Option<Signature>, AllocError>
    ensures some { IfOk result (λ s. IsSome s
        ↔ IsTrue (is_well_formed (record turn_round { table = types.now }))) }
    ensures value { IfOk result (λ s. IfSome s (λ s. s ≡ record turn_round { table = types.now })) }
{
    let args = vec![in alloc;
        Range {
            lo: 0,
            hi: GREATEST
        },
    ]?;
    Ok(Signature::new(args, TURN_ROUND, Vec::from_slice(alloc, types)?))
}

// What helper 2 promises with these stands, if that is well formed.
fn taxi_signature(alloc: Global, stands: &[(u64, u64)]) -> Result<Option<Signature>, AllocError>
    ensures some { IfOk result (λ s. IsSome s
        ↔ IsTrue (is_well_formed (record taxi { table = stands.now }))) }
    ensures value { IfOk result (λ s. IfSome s (λ s. s ≡ record taxi { table = stands.now })) }
{
    let args = vec![in alloc; Range { lo: 0, hi: 999 }]?;
    Ok(Signature::new(args, TAXI, Vec::from_slice(alloc, stands)?))
}

// Whether each step has a taxi time.
fn are_taxi(steps: &[(u64, u64)]) -> bool
    ensures { result ≡ list_all (λ step. is_in taxi.answer step.1) steps.now }
{
    steps.iter().all(|step| TAXI.contains(step.1))
}

impl Tables {
    /// The tables that are built in. `Err` only where there is no memory.
    pub fn built_in(alloc: Global) -> Result<Tables, AllocError>
        ensures { IfOk result (λ tables. tables ≡ built_in) }
    {
        let types = types_built_in(alloc)?;
        let stands = stands_built_in(alloc)?;
        let steps = steps_built_in(alloc)?;
        Ok(Tables {
            types,
            other: OTHER,
            stands,
            steps,
        })
    }

    /// The tables of these parts, if both signatures are well formed by them and all answers lie in their
    /// ranges. `Err` only where there is no memory.
    pub(crate) fn of(
        alloc: Global,
        types: Vec<(u64, u64)>,
        other: u64,
        stands: Vec<(u64, u64)>,
        steps: Vec<(u64, u64)>,
    ) -> Result<Option<Tables>, AllocError>
        ensures some { IfOk result (λ tables. is_some tables ≡ is_right (record {
          types = types.items;
          other = other;
          stands = stands.items;
          steps = steps.items;
        })) }
        ensures value { IfOk result (λ tables. IfSome tables (λ t. t ≡ record {
          types = types.items;
          other = other;
          stands = stands.items;
          steps = steps.items;
        })) }
    {
        let turn_round = turn_round_signature(alloc, &types)?;
        let taxi = taxi_signature(alloc, &stands)?;
        if turn_round.is_some()
            && taxi.is_some()
            && TURN_ROUND.contains(other)
            && are_taxi(&steps)
        {
            Ok(Some(Tables {
                types,
                other,
                stands,
                steps,
            }))
        } else {
            Ok(None)
        }
    }

    /// Whether these tables are those: helpers promise and answer the same by both.
    #[tactic(auto, using(crate::proofs::Same::same_tables_is))]
    pub fn is_same(&self, other: &Tables) -> bool
        ensures { IsTrue result ↔ (self.now ≡ other.now) }
    {
        self.compares(other)
    }

    // The same, by what they are compared.
    fn compares(&self, other: &Tables) -> bool
        ensures { result ≡ same_tables self.now other.now }
    {
        self.other == other.other
            && are_same(&self.types, &other.types)
            && are_same(&self.stands, &other.stands)
            && are_same(&self.steps, &other.steps)
    }

    /// The least turn-round time of an aircraft type, in minutes, by its number.
    pub fn turn_round_minutes(&self, kind: u64) -> u64
        ensures value { result ≡ turn_round_minutes self.now kind }
        ensures right { IsTrue (is_right self.now) }
    {
        listed_or(self.other, &self.types, kind)
    }

    /// The taxi time from a stand, in minutes.
    pub fn taxi_minutes(&self, stand: u64) -> u64
        ensures value { result ≡ taxi_minutes self.now stand }
        ensures right { IsTrue (is_right self.now) }
    {
        listed_or(step_or(1, &self.steps, stand), &self.stands, stand)
    }

    /// What helper 1 promises. `Err` only where there is no memory.
    pub(crate) fn turn_round(&self, alloc: Global) -> Result<Signature, AllocError>
        ensures { IfOk result (λ signature. signature ≡ turn_round_by self.now) }
    {
        Ok(turn_round_signature(alloc, &self.types)?.unwrap())
    }

    /// What helper 2 promises. `Err` only where there is no memory.
    pub(crate) fn taxi(&self, alloc: Global) -> Result<Signature, AllocError>
        ensures { IfOk result (λ signature. signature ≡ taxi_by self.now) }
    {
        Ok(taxi_signature(alloc, &self.stands)?.unwrap())
    }
}
