//! The helpers that programs may call (this project's profile).

ghost use Rattle.std.specs.Prelude.{◌≡◌, ◌+◌, IfOk, IsTrue, slice_index};
ghost use Rattle.bpf_helpers.specs.Promise.{is_call, is_promised};
ghost use Rattle.bpf_helpers.specs.Known.{sum};
ghost use Rattle.acdm_tables.specs.Helpers.{helpers_by, taxi_by, taxi_minutes, turn_round_by, turn_round_minutes};

use crate::tables::{GREATEST, Tables};
use bpf_helpers::{Helpers, NoMemory, Range, Signature, Sigs};
use std::alloc::{AllocError, Global};
use std::marker::Model;

/// Helper 3: a moment some minutes later.
fn sum_signature(alloc: Global) -> Result<Signature, AllocError>
    ensures { IfOk result (λ signature. signature ≡ sum) }
{
    let args = vec![in alloc;
        Range {
            lo: 0,
            hi: GREATEST
        },
        Range { lo: 0, hi: 10_000 },
    ]?;
    let answer = Range {
        lo: 0,
        hi: 4_294_977_295,
    };
    Ok(Signature::new(args, answer, Vec::new(alloc)).unwrap())
}

/// The least turn-round time of an aircraft type, in minutes.
fn turn_round_answer(tables: &Tables, arguments: [u64; 5]) -> u64
    requires { IsTrue (is_call (turn_round_by tables.now) arguments) }
    ensures promised { IsTrue (is_promised (turn_round_by tables.now) arguments result) }
    ensures value { result ≡ turn_round_minutes tables.now (slice_index arguments 0) }
{
    tables.turn_round_minutes(arguments[0])
}

/// The taxi time from a stand, in minutes.
fn taxi_answer(tables: &Tables, arguments: [u64; 5]) -> u64
    requires { IsTrue (is_call (taxi_by tables.now) arguments) }
    ensures promised { IsTrue (is_promised (taxi_by tables.now) arguments result) }
    ensures value { result ≡ taxi_minutes tables.now (slice_index arguments 0) }
{
    tables.taxi_minutes(arguments[0])
}

/// A moment some minutes later.
fn minutes_later(arguments: [u64; 5]) -> u64
    requires { IsTrue (is_call sum arguments) }
    ensures promised { IsTrue (is_promised sum arguments result) }
    ensures value { result ≡ slice_index arguments 0 + slice_index arguments 1 }
{
    arguments[0] + arguments[1]
}

/// The helpers that programs may call: 1, the least turn-round time of a type, 2, the taxi time from
/// a stand, by the tables of an airport, and 3, a sum of minutes. They are called with no box between.
#[derive(Drop)]
pub struct KnownHelpers {
    alloc: Global,
    tables: Tables,
}

impl Model for KnownHelpers {
    ghost use Rattle.acdm_tables.specs.Helpers.{TablesView};

    ghost Value = { TablesView };

    ghost view = { λ known. known.tables };
}

impl KnownHelpers {
    /// The known helpers by these tables, which ask for the memory of their signatures here.
    pub fn new(alloc: Global, tables: Tables) -> KnownHelpers
        ensures { result ≡ tables }
    {
        KnownHelpers { alloc, tables }
    }
}

impl Helpers for KnownHelpers {
    ghost use Rattle.acdm_tables.specs.Helpers.{helpers_by};

    ghost entries = { λ known. helpers_by known };

    fn answer(&self, number: u32, arguments: [u64; 5]) -> u64 {
        match number {
            1 => turn_round_answer(&self.tables, arguments),
            2 => taxi_answer(&self.tables, arguments),
            _ => minutes_later(arguments),
        }
    }

    fn sigs(&self) -> Result<Sigs, NoMemory> {
        Ok(known_sigs(self.alloc, &self.tables)?)
    }
}

/// The signatures of the helpers that programs may call, as `KnownHelpers` has them with these tables.
/// `Err` only where there is no memory.
pub fn known_sigs(alloc: Global, tables: &Tables) -> Result<Sigs, AllocError>
    ensures { IfOk result (λ sigs. sigs ≡ helpers_by tables.now) }
{
    let mut sigs = Sigs::new(alloc);
    sigs.push(1, tables.turn_round(alloc)?)?;
    sigs.push(2, tables.taxi(alloc)?)?;
    sigs.push(3, sum_signature(alloc)?)?;
    Ok(sigs)
}
