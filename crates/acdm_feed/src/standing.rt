//! The lines of a board and of its journal.
ghost use Rattle.std.specs.Prelude.{◌≡◌, ◌++◌, ℕ, List, OnErr, OnOk, codes, length};
ghost use Rattle.std.specs.List.{flat_map};
ghost use Rattle.bpf_helpers.specs.Promise.{Promise};
ghost use Rattle.acdm_step.specs.Commands.{History};
ghost use Rattle.acdm_step.specs.Summaries.{flights};
ghost use Rattle.acdm_step.specs.History.{replay};
ghost use Rattle.acdm_feed.specs.Knowing.{Knows};
ghost use Rattle.acdm_feed.specs.Names.{list_member};
ghost use Rattle.acdm_feed.specs.Resumed.{board_text, board_tokens, head_members, journal_text, journal_tokens};
ghost use Rattle.acdm_feed.specs.Resumed.{named_line};
ghost use Rattle.acdm_feed.specs.Told.{flight_tokens};

use crate::day::Day;
use crate::known::Known;
use crate::line::FeedLine;
use crate::tokens::{key, push_number, push_text};
use crate::told::push_flight;
use acdm_step::Core;
use std::alloc::AllocError;
use std::mem;

// Adds the records of all flights.
fn push_flights(line: &mut FeedLine, known: &Known, board: &Core) -> Result<(), AllocError>
    ensures before { line.new.before ≡ line.old.before }
    ensures adds { OnOk result ((sigs : List (ℕ × Promise)) (J : History)
        → board.now ≡ replay sigs J → Knows J known.now
        → line.new.tokens ≡ line.old.tokens ++ flat_map (flight_tokens J) (flights J)) }
{
    let mut rest = known.flights.as_slice();
    while let Some((flight, more)) = rest.split_first() {
        push_flight(line, board, *flight)?;
        rest = more;
    }
    Ok(())
}

// Adds the list of the records of all flights.
fn push_list(line: &mut FeedLine, known: &Known, board: &Core) -> Result<(), AllocError>
    ensures before { line.new.before ≡ line.old.before }
    ensures adds { OnOk result ((sigs : List (ℕ × Promise)) (J : History)
        → board.now ≡ replay sigs J → Knows J known.now
        → line.new.tokens ≡ line.old.tokens
        ++ list_member (codes "flights") (flat_map (flight_tokens J) (flights J))) }
{
    line.key(key!("flights"))?;
    line.begin_array()?;
    push_flights(line, known, board)?;
    line.end_array()?;
    Ok(())
}

// Adds the name of a journal, the number of the entry that comes next, and how many entries there is
// room for.
#[tactic(auto, unfolding(crate::specs::Resumed::head_members))]
fn push_head(line: &mut FeedLine, name: &str, next: u64, room: u64) -> Result<(), AllocError>
    ensures before { line.new.before ≡ line.old.before }
    ensures adds { OnOk result (line.new.tokens ≡ line.old.tokens ++ head_members name.now next room) }
{
    push_text(line, key!("journal"), name)?;
    push_number(line, key!("next"), next)?;
    push_number(line, key!("room"), room)?;
    Ok(())
}

// Adds all of a board as one object.
fn push_object(
    line: &mut FeedLine,
    known: &Known,
    board: &Core,
    entries: u64,
    room: u64,
) -> Result<(), AllocError>
    ensures before { line.new.before ≡ line.old.before }
    ensures adds { OnOk result ((sigs : List (ℕ × Promise)) (J : History)
        → board.now ≡ replay sigs J → Knows J known.now → entries ≡ length J
        → line.new.tokens ≡ line.old.tokens ++ board_tokens room J) }
{
    line.begin_object()?;
    push_head(line, known.name(), entries, room)?;
    push_list(line, known, board)?;
    line.end_object()?;
    Ok(())
}

/// Adds the line of a board after so many entries: one object of JSON, without space, and a line feed,
/// with the name of its journal, the number of the entry that comes next, how many entries there is room
/// for, and the records of all flights in order of creation. What is known is that of this board. `Err`
/// only where memory was refused; nothing was added then.
pub fn push_board(
    text: &mut Vec<u8>,
    known: &Known,
    board: &Core,
    entries: u64,
    room: u64,
) -> Result<(), AllocError>
    ensures stands { OnOk result ((sigs : List (ℕ × Promise)) (J : History)
        → board.now ≡ replay sigs J → Knows J known.now → entries ≡ length J
        → text.new.items ≡ text.old.items ++ board_text room J) }
    ensures refused { OnErr result (text.new.items ≡ text.old.items) }
{
    let alloc = *text.allocator();
    let mut line = FeedLine::new(mem::replace(text, Vec::new(alloc)), known.day);
    match push_object(&mut line, known, board, entries, room) {
        Ok(()) => line.end(text),
        Err(refused) => {
            line.drop_into(text);
            Err(refused)
        }
    }
}

// Adds all of a journal as one object.
fn push_journal_object(
    line: &mut FeedLine,
    name: &str,
    next: u64,
    room: u64,
) -> Result<(), AllocError>
    ensures before { line.new.before ≡ line.old.before }
    ensures adds { OnOk result (line.new.tokens ≡ line.old.tokens ++ journal_tokens name.now next room) }
{
    line.begin_object()?;
    push_head(line, name, next, room)?;
    line.end_object()?;
    Ok(())
}

/// Adds the line of the journal of a name: one object of JSON, without space, and a line feed, with the name, the
/// number of the entry that comes next for who is told it, and how many entries there is room for. `Err` only where
/// memory was refused; nothing was added then.
pub fn push_journal_named(
    text: &mut Vec<u8>,
    name: &str,
    next: u64,
    room: u64,
) -> Result<(), AllocError>
    ensures { OnOk result (text.new.items ≡ text.old.items ++ named_line name.now next room) }
{
    let alloc = *text.allocator();
    let mut line = FeedLine::new(mem::replace(text, Vec::new(alloc)), Day::first());
    match push_journal_object(&mut line, name, next, room) {
        Ok(()) => line.end(text),
        Err(refused) => {
            line.drop_into(text);
            Err(refused)
        }
    }
}

/// Adds the same line, with the name of the journal whose board this is what is known of. `Err` only where memory was
/// refused; nothing was added then.
pub fn push_journal(
    text: &mut Vec<u8>,
    known: &Known,
    next: u64,
    room: u64,
) -> Result<(), AllocError>
    ensures { OnOk result ((J : History) → Knows J known.now
        → text.new.items ≡ text.old.items ++ journal_text next room J) }
{
    push_journal_named(text, known.name(), next, room)?;
    Ok(())
}
