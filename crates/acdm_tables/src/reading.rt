//! The reading of a file of tables.

ghost use Rattle.std.specs.Prelude.{◌≡◌, ◌<◌, ◌≤◌, ◌++◌, ◌+◌, [], ◌∷◌, IfOk, IfErr, IsSome, IsTrue, ◌↔◌};
ghost use Rattle.std.specs.Prelude.{codes, length, get_or, option_map, Option, Some, None, filter, ◌==◌};
ghost use Rattle.std.specs.Fmt.{decimal};
ghost use Rattle.toml.specs.Data.{get_member};
ghost use Rattle.toml.specs.View.{view, table_view, array_view};
ghost use Rattle.acdm_tables.specs.Reading.{GivesView, IsWrong, Reads, are_printable, add_step, add_type, begins, in_order, is_type};
ghost use Rattle.acdm_tables.specs.Reading.{line_at, number_at, other_at, place_of, step_in, step_path};
ghost use Rattle.acdm_tables.specs.Reading.{steps_from, stranger, tables_in, taxi_at, turn_round_at};
ghost use Rattle.acdm_tables.specs.Reading.{turn_round_in, type_number, type_path, types_at, types_from};
ghost use Rattle.acdm_tables.specs.declared.fault.Why.TheVariants.{Unknown};
ghost use Rattle.acdm_tables.specs.Reading.{forbid, whole, within, with_type};

use crate::fault::{TablesError, Why};
use crate::tables::{OTHER, Tables, stands_built_in, steps_built_in, types_built_in};
use std::alloc::Global;
use std::io::Write;
use toml::value::Array;
use toml::{Table, Value};

/// How many types and how many steps there may be.
const MOST: usize = 1_000;

/// How many bytes the text of a file may have.
pub const MOST_TEXT: usize = 1_000_000;

// What is wrong with what stands at a key, of which this is the first and that the second part.
fn wrong(alloc: Global, path: &str, key: &str, why: Why) -> TablesError
    ensures { IsWrong (path.now ++ key.now) why result }
{
    let mut text = Vec::new(alloc);
    match text.extend_from_slice(path.as_bytes()) {
        Ok(()) => {}
        Err(_) => return TablesError::Memory,
    }
    match text.extend_from_slice(key.as_bytes()) {
        Ok(()) => TablesError::Wrong { key: text, why },
        Err(_) => TablesError::Memory,
    }
}

// The same at a key of the step of a number, from 1.
fn wrong_step(alloc: Global, number: usize, key: &str, why: Why) -> TablesError
    ensures { IsWrong (step_path number key.now) why result }
{
    let mut text = Vec::new(alloc);
    match write!(text, "taxi[{number}]{key}") {
        Ok(()) => TablesError::Wrong { key: text, why },
        Err(_) => TablesError::Memory,
    }
}

// The same of a key that no step has.
fn wrong_key(alloc: Global, number: usize, key: &str) -> TablesError
    ensures { IsWrong (step_path number (codes ".") ++ key.now) Unknown result }
{
    let mut text = Vec::new(alloc);
    match write!(text, "taxi[{number}].{key}") {
        Ok(()) => TablesError::Wrong {
            key: text,
            why: Why::Unknown,
        },
        Err(_) => TablesError::Memory,
    }
}

// What stands at a key of a table.
fn member<'a>(table: &'a Table, key: &str) -> Option<&'a Value>
    ensures { option_map (λ v. view v.now) result ≡ get_member key.now (table_view table.now) }
{
    table.get(key)
}

// The first key of a table that is neither of two.
fn stranger<'a>(table: &'a Table, first: &str, second: &str) -> Option<&'a str>
    ensures { option_map (λ k. k.now) result ≡ stranger first.now second.now (table_view table.now) }
{
    for (key, _) in table.iter() {
        let name = key.as_str();
        if name != first && name != second {
            return Some(name);
        }
    }
    None
}

// A whole number from one to another.
fn within(lo: u64, hi: u64, number: i64) -> Option<u64>
    ensures { result ≡ within lo hi number }
{
    match u64::try_from(number) {
        Ok(number) if lo <= number && number <= hi => Some(number),
        _ => None,
    }
}

fn whole(lo: u64, hi: u64, value: &Value) -> Option<u64>
    ensures { result ≡ whole lo hi (view value.now) }
{
    match value.as_integer() {
        Some(number) => within(lo, hi, number),
        None => None,
    }
}

fn are_printable(text: &[u8]) -> bool
    ensures { result ≡ are_printable text.now }
{
    text.iter().all(|byte| 33 <= *byte && *byte <= 126)
}

// Whether a text is that of a type.
fn is_type(text: &[u8]) -> bool
    ensures { result ≡ is_type text.now }
{
    1 <= text.len() && text.len() <= 4 && are_printable(text)
}

fn byte_at(text: &[u8], place: usize) -> u64
    ensures value { result ≡ get_or text.now place 0 }
    ensures small { result < 256 }
{
    match text.get(place) {
        Some(byte) => u64::from(*byte),
        None => 0,
    }
}

// The number of a type.
fn type_number(text: &[u8]) -> u64
    ensures { result ≡ type_number text.now }
{
    byte_at(text, 0)
        + 256 * byte_at(text, 1)
        + 65_536 * byte_at(text, 2)
        + 16_777_216 * byte_at(text, 3)
}

// The place of a number among keys that rise.
fn place_of(table: &[(u64, u64)], number: u64) -> usize
    ensures place { result ≡ place_of table.now number }
    ensures inside { result ≤ length table.now }
{
    let mut place = 0;
    let mut rest = table;
    while let Some((entry, more)) = rest.split_first() {
        if number < entry.0 {
            return place;
        }
        place += 1;
        rest = more;
    }
    place
}

// Adds a type and its minutes.
#[tactic(auto, unfolding(crate::specs::Reading::add_type))]
fn add_type(
    alloc: Global,
    mut types: Vec<(u64, u64)>,
    key: &str,
    value: &Value,
) -> Result<Vec<(u64, u64)>, TablesError>
    ensures { GivesView (λ v. v.items) result (add_type types.items key.now (view value.now)) }
{
    if !is_type(key.as_bytes()) {
        return Err(wrong(alloc, "turn_round.types.", key, Why::NoType));
    }
    if types.len() >= MOST {
        return Err(wrong(alloc, "turn_round.types.", key, Why::Many));
    }
    let Some(minutes) = whole(1, 1_440, value) else {
        return Err(wrong(alloc, "turn_round.types.", key, Why::NoTurnRound));
    };
    let number = type_number(key.as_bytes());
    let place = place_of(&types, number);
    match types.insert(place, (number, minutes)) {
        Ok(()) => Ok(types),
        Err(_) => Err(TablesError::Memory),
    }
}

// Adds the types of a table.
fn types_in(alloc: Global, table: &Table) -> Result<Vec<(u64, u64)>, TablesError>
    ensures { GivesView (λ v. v.items) result (types_from [] (table_view table.now)) }
{
    let mut types = Vec::new(alloc);
    for (key, value) in table.iter() {
        types = match add_type(alloc, types, key.as_str(), value) {
            Ok(types) => types,
            Err(error) => return Err(error),
        };
    }
    Ok(types)
}

// The turn-round times of types, none where nothing stands there.
fn types_at(alloc: Global, value: Option<&Value>) -> Result<Vec<(u64, u64)>, TablesError>
    ensures { GivesView (λ v. v.items) result (types_at (option_map (λ v. view v.now) value.entry)) }
{
    let Some(value) = value else {
        return Ok(Vec::new(alloc));
    };
    let Some(table) = value.as_table() else {
        return Err(wrong(alloc, "turn_round.types", "", Why::NoTable));
    };
    types_in(alloc, table)
}

// That of other types.
fn other_at(alloc: Global, value: Option<&Value>) -> Result<u64, TablesError>
    ensures { GivesView (λ x. x) result (other_at (option_map (λ v. view v.now) value.entry)) }
{
    let Some(value) = value else {
        return Ok(OTHER);
    };
    match whole(1, 1_440, value) {
        Some(minutes) => Ok(minutes),
        None => Err(wrong(alloc, "turn_round.other", "", Why::NoTurnRound)),
    }
}

// A section of turn-round times: those of types, and that of others.
#[tactic(auto, unfolding(crate::specs::Reading::turn_round_in))]
fn turn_round_in(alloc: Global, table: &Table) -> Result<(Vec<(u64, u64)>, u64), TablesError>
    ensures { GivesView (λ p. (p.0.items, p.1)) result (turn_round_in (table_view table.now)) }
{
    if let Some(key) = stranger(table, "other", "types") {
        return Err(wrong(alloc, "turn_round.", key, Why::Unknown));
    }
    let other = match other_at(alloc, member(table, "other")) {
        Ok(other) => other,
        Err(error) => return Err(error),
    };
    match types_at(alloc, member(table, "types")) {
        Ok(types) => Ok((types, other)),
        Err(error) => Err(error),
    }
}

// The section of turn-round times.
fn turn_round_at(
    alloc: Global,
    value: Option<&Value>,
) -> Result<(Vec<(u64, u64)>, u64), TablesError>
    ensures { GivesView (λ p. (p.0.items, p.1)) result
        (turn_round_at (option_map (λ v. view v.now) value.entry)) }
{
    let Some(value) = value else {
        return Ok((types_built_in(alloc)?, OTHER));
    };
    match value.as_table() {
        Some(table) => turn_round_in(alloc, table),
        None => Err(wrong(alloc, "turn_round", "", Why::NoTable)),
    }
}

// From which number to which one another may lie.
#[derive(Clone, Copy)]
struct Bounds {
    lowest: u64,
    highest: u64,
}

// The numbers of stands.
const STANDS: Bounds = Bounds {
    lowest: 0,
    highest: 999,
};

// How many minutes the way from a stand may take.
const TAXI_MINUTES: Bounds = Bounds {
    lowest: 1,
    highest: 60,
};

// A number within these bounds at a key of the step of a number.
fn number_at(
    alloc: Global,
    step: usize,
    key: &str,
    why: Why,
    bounds: Bounds,
    value: Option<&Value>,
) -> Result<u64, TablesError>
    ensures { GivesView (λ x. x) result (number_at (step_path step key.now) why bounds.lowest bounds.highest
        (option_map (λ v. view v.now) value.entry)) }
{
    let Some(value) = value else {
        return Err(wrong_step(alloc, step, key, why));
    };
    match whole(bounds.lowest, bounds.highest, value) {
        Some(number) => Ok(number),
        None => Err(wrong_step(alloc, step, key, why)),
    }
}

// The step of a number.
#[tactic(auto, unfolding(crate::specs::Reading::step_in))]
fn step_in(alloc: Global, number: usize, table: &Table) -> Result<(u64, u64), TablesError>
    ensures { GivesView (λ x. x) result (step_in number (table_view table.now)) }
{
    if let Some(key) = stranger(table, "from", "minutes") {
        return Err(wrong_key(alloc, number, key));
    }
    let stand = member(table, "from");
    let from = match number_at(alloc, number, ".from", Why::NoStand, STANDS, stand) {
        Ok(from) => from,
        Err(error) => return Err(error),
    };
    let taxi = member(table, "minutes");
    match number_at(alloc, number, ".minutes", Why::NoTaxi, TAXI_MINUTES, taxi) {
        Ok(minutes) => Ok((from, minutes)),
        Err(error) => Err(error),
    }
}

// Adds a step.
#[tactic(auto, unfolding(crate::specs::Reading::add_step))]
fn add_step(
    alloc: Global,
    mut steps: Vec<(u64, u64)>,
    value: &Value,
) -> Result<Vec<(u64, u64)>, TablesError>
    ensures { GivesView (λ v. v.items) result (add_step steps.items (view value.now)) }
{
    if steps.len() >= MOST {
        return Err(wrong(alloc, "taxi", "", Why::Many));
    }
    let number = steps.len() + 1;
    let Some(table) = value.as_table() else {
        return Err(wrong_step(alloc, number, "", Why::NoTable));
    };
    let step = match step_in(alloc, number, table) {
        Ok(step) => step,
        Err(error) => return Err(error),
    };
    match steps.push(step) {
        Ok(()) => Ok(steps),
        Err(_) => Err(TablesError::Memory),
    }
}

// The steps of a list.
fn steps_in(alloc: Global, list: &Array) -> Result<Vec<(u64, u64)>, TablesError>
    ensures { GivesView (λ v. v.items) result (steps_from [] (array_view list.now)) }
{
    let mut steps = Vec::new(alloc);
    let mut rest = list.as_slice();
    while let Some((value, more)) = rest.split_first() {
        steps = match add_step(alloc, steps, value) {
            Ok(steps) => steps,
            Err(error) => return Err(error),
        };
        rest = more;
    }
    Ok(steps)
}

// The stands that a signature tells, and the steps.
fn taxi_at(
    alloc: Global,
    value: Option<&Value>,
) -> Result<(Vec<(u64, u64)>, Vec<(u64, u64)>), TablesError>
    ensures { GivesView (λ p. (p.0.items, p.1.items)) result
        (taxi_at (option_map (λ v. view v.now) value.entry)) }
{
    let Some(value) = value else {
        return Ok((stands_built_in(alloc)?, steps_built_in(alloc)?));
    };
    let Some(list) = value.as_array() else {
        return Err(wrong(alloc, "taxi", "", Why::NoList));
    };
    let steps = match steps_in(alloc, list) {
        Ok(steps) => steps,
        Err(error) => return Err(error),
    };
    match Vec::from_slice(alloc, &steps) {
        Ok(stands) => Ok((stands, steps)),
        Err(_) => Err(TablesError::Memory),
    }
}

// Whether the first step begins at stand 0.
fn begins(steps: &[(u64, u64)]) -> bool
    ensures { result ≡ begins steps.now }
{
    match steps.first() {
        Some(step) => step.0 == 0,
        None => false,
    }
}

// The tables of these parts, if the steps are in order.
fn in_order(
    alloc: Global,
    types: Vec<(u64, u64)>,
    other: u64,
    stands: Vec<(u64, u64)>,
    steps: Vec<(u64, u64)>,
) -> Result<Tables, TablesError>
    ensures { GivesView (λ t. t) result (in_order (record {
      types = types.items;
      other = other;
      stands = stands.items;
      steps = steps.items;
    })) }
{
    if !begins(&steps) {
        return Err(wrong(alloc, "taxi", "", Why::NoOrder));
    }
    match Tables::of(alloc, types, other, stands, steps)? {
        Some(tables) => Ok(tables),
        None => Err(wrong(alloc, "taxi", "", Why::NoOrder)),
    }
}

// The tables that a table of TOML means.
#[tactic(auto, unfolding(crate::specs::Reading::tables_in))]
fn tables_in(alloc: Global, table: &Table) -> Result<Tables, TablesError>
    ensures { GivesView (λ t. t) result (tables_in (table_view table.now)) }
{
    if let Some(key) = stranger(table, "turn_round", "taxi") {
        return Err(wrong(alloc, "", key, Why::Unknown));
    }
    let (types, other) = match turn_round_at(alloc, member(table, "turn_round")) {
        Ok(times) => times,
        Err(error) => return Err(error),
    };
    match taxi_at(alloc, member(table, "taxi")) {
        Ok((stands, steps)) => in_order(alloc, types, other, stands, steps),
        Err(error) => Err(error),
    }
}

/// The line, from 1, of the byte that so many others stand before in a text.
pub fn line_at(text: &[u8], place: usize) -> usize
    requires { place ≤ length text.now }
    ensures { result ≡ line_at text.now place }
{
    let mut line = 1;
    let mut rest = &text[..place];
    while let Some((byte, more)) = rest.split_first() {
        if *byte == b'\n' {
            line += 1;
        }
        rest = more;
    }
    line
}

/// The tables of an airport that the text of a file means, as TOML: a section `[turn_round]`, with `other`
/// and a table `types`, and a list `[[taxi]]` of steps, each with `from` and `minutes`; what does not
/// stand there is built in.
///
/// `TooLong` where the text has more than 1,000,000 bytes, `NoToml` where the text is no TOML, `Wrong` with the first key at which something else stands than
/// is right there, and `Memory` where there was none.
pub fn read_tables(alloc: Global, text: &[u8]) -> Result<Tables, TablesError>
    ensures { Reads (λ tables. tables) text.now result }
{
    if text.len() > MOST_TEXT {
        return Err(TablesError::TooLong);
    }
    match toml::table_from_slice(alloc, text) {
        Ok(table) => tables_in(alloc, &table),
        Err(error) => match error.span() {
            Some(span) => Err(TablesError::NoToml(line_at(text, span.start))),
            None => Err(TablesError::Memory),
        },
    }
}
