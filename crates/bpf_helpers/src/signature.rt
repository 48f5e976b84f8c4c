//! The signature of a helper: what it takes, and what it may answer.

ghost use Rattle.std.specs.Prelude.{◌≡◌, ◌≤◌, ◌↔◌, ◌&&◌, ◌==◌, drop, filter, length, IsTrue};
ghost use Rattle.std.specs.Prelude.{IsSome, IfSome, IfOk};
ghost use Rattle.std.specs.List.{list_all};
ghost use Rattle.bpf_helpers.specs.Promise.{agrees, are_in, do_keys_rise, is_call, is_in, is_key};
ghost use Rattle.bpf_helpers.specs.Promise.{is_ordered, is_promised, is_well_formed};

use crate::NoMemory;
use crate::range::Range;
use std::marker::Model;

/// The most arguments that a helper takes.
pub const MAX_ARGUMENTS: usize = 5;

/// What a helper takes and answers: a range for each of its arguments, at most five, the range of
/// its answers, and a table of the answers that its first argument fixes. Contracts see it as its
/// `Promise`.
pub struct Signature {
    args: Vec<Range>,
    answer: Range,
    table: Vec<(u64, u64)>,
}

impl Drop for Signature {
    fn drop(self) {
        let Signature {
            args: _,
            answer: _,
            table: _,
        } = self;
    }
}

impl Model for Signature {
    ghost use Rattle.std.specs.Prelude.{IsTrue};
    ghost use Rattle.bpf_helpers.specs.Promise.{Promise, is_well_formed};

    ghost Value = { Promise };

    ghost view = { λ s. record { args = s.args.items; answer = s.answer; table = s.table.items } };

    ghost invariant = { λ s. IsTrue (is_well_formed (record {
      args = s.args.items;
      answer = s.answer;
      table = s.table.items;
    })) };
}

/// Whether each key is above the one before.
fn do_keys_rise(table: &[(u64, u64)]) -> bool
    ensures { result ≡ do_keys_rise table.now }
{
    let mut rest = table;
    while let Some((entry, more)) = rest.split_first() {
        if let Some(next) = more.first() {
            if entry.0 >= next.0 {
                return false;
            }
        }
        rest = more;
    }
    true
}

/// Whether the first argument, if there is one, may be the key.
fn is_key(args: &[Range], key: u64) -> bool
    ensures { result ≡ is_key args.now key }
{
    match args.first() {
        None => false,
        Some(first) => first.contains(key),
    }
}

/// Whether each argument lies in its range.
fn are_in(ranges: &[Range], arguments: &[u64]) -> bool
    ensures { result ≡ are_in ranges.now arguments.now }
{
    let mut ranges = ranges;
    let mut arguments = arguments;
    while let Some((range, more_ranges)) = ranges.split_first() {
        let Some((first, more)) = arguments.split_first() else {
            return false;
        };
        if !range.contains(*first) {
            return false;
        }
        ranges = more_ranges;
        arguments = more;
    }
    true
}

/// Whether all from this place on are 0.
fn are_zeros(words: &[u64], from: usize) -> bool
    ensures { result ≡ list_all (λ word. word == 0) (drop from words.now) }
{
    words.iter().skip(from).all(|word| *word == 0)
}

/// Whether each entry of this key has this answer.
fn agrees_at(table: &[(u64, u64)], key: u64, answer: u64) -> bool
    ensures { result ≡ list_all (λ entry. entry.1 == answer)
        (filter (λ entry. entry.0 == key) table.now) }
{
    table
        .iter()
        .filter(|entry| entry.0 == key)
        .all(|entry| entry.1 == answer)
}

/// Whether the table has no other answer for these arguments.
fn agrees(table: &[(u64, u64)], arguments: &[u64], answer: u64) -> bool
    ensures { result ≡ agrees table.now arguments.now answer }
{
    match arguments.first() {
        None => true,
        Some(first) => agrees_at(table, *first, answer),
    }
}

fn are_ordered(ranges: &[Range]) -> bool
    ensures { result ≡ list_all is_ordered ranges.now }
{
    ranges.iter().all(|range| range.is_ordered())
}

/// Whether each key may be a first argument and each answer may be given.
fn are_entries(table: &[(u64, u64)], args: &[Range], answer: Range) -> bool
    ensures { result ≡ list_all (λ entry. is_key args.now entry.0 && is_in answer entry.1)
        table.now }
{
    table
        .iter()
        .all(|entry| is_key(args, entry.0) && answer.contains(entry.1))
}

/// Whether these make a signature.
fn is_well_formed(args: &[Range], answer: Range, table: &[(u64, u64)]) -> bool
    ensures { result ≡ is_well_formed
        (record { args = args.now; answer = answer; table = table.now }) }
{
    args.len() <= MAX_ARGUMENTS
        && are_ordered(args)
        && answer.is_ordered()
        && do_keys_rise(table)
        && are_entries(table, args, answer)
}

fn are_same_ranges(left: &[Range], right: &[Range]) -> bool
    ensures { IsTrue result ↔ (left.now ≡ right.now) }
{
    left == right
}

fn are_same_entries(left: &[(u64, u64)], right: &[(u64, u64)]) -> bool
    ensures { IsTrue result ↔ (left.now ≡ right.now) }
{
    left == right
}

impl Signature {
    /// The signature with these ranges and this table of pairs, each a first argument and its
    /// answer. `None` where there are more than five arguments, a range is empty, the keys of the
    /// table do not rise, a key lies outside the first range or there is no argument, or an answer
    /// of the table lies outside the range of answers.
    pub fn new(args: Vec<Range>, answer: Range, table: Vec<(u64, u64)>) -> Option<Signature>
        ensures exact { IsSome result ↔ IsTrue
            (is_well_formed (record { args = args.items; answer = answer; table = table.items })) }
        ensures value { IfSome result (λ s. s
            ≡ record { args = args.items; answer = answer; table = table.items }) }
    {
        if is_well_formed(&args, answer, &table) {
            Some(Signature {
                args,
                answer,
                table,
            })
        } else {
            None
        }
    }

    /// A range for each argument, from the first on.
    pub fn args(&self) -> &[Range]
        ensures value { result.now ≡ self.now.args }
        ensures few { length result.now ≤ 5 }
        ensures well_formed { IsTrue (is_well_formed self.now) }
    {
        &self.args
    }

    /// The range in which every answer lies.
    pub fn answer(&self) -> Range
        ensures value { result ≡ self.now.answer }
        ensures well_formed { IsTrue (is_well_formed self.now) }
    {
        self.answer
    }

    /// Whether the helper may be called on these arguments: each lies in its range, and those
    /// beyond the signature are 0.
    pub fn takes(&self, arguments: &[u64]) -> bool
        ensures { result ≡ is_call self.now arguments.now }
    {
        are_in(&self.args, arguments) && are_zeros(arguments, self.args.len())
    }

    /// Whether the helper may give this answer to these arguments, of which those beyond the
    /// signature are not read.
    pub fn promises(&self, arguments: &[u64], answer: u64) -> bool
        ensures { result ≡ is_promised self.now arguments.now answer }
    {
        are_in(&self.args, arguments)
            && self.answer.contains(answer)
            && agrees(&self.table, arguments, answer)
    }

    /// Whether both promise the same.
    pub fn is_same(&self, other: &Signature) -> bool
        ensures { IsTrue result ↔ (self.now ≡ other.now) }
    {
        are_same_ranges(&self.args, &other.args)
            && self.answer == other.answer
            && are_same_entries(&self.table, &other.table)
    }

    /// A signature that equals this one. `Err` only where there is no memory.
    pub fn copy(&self) -> Result<Signature, NoMemory>
        ensures { IfOk result (λ s. s ≡ self.now) }
    {
        let args = self.args.clone()?;
        let table = self.table.clone()?;
        Ok(Signature {
            args,
            answer: self.answer,
            table,
        })
    }
}
