//! The line of an entry.
ghost use Rattle.std.specs.Prelude.{◌≡◌, ◌++◌, ◌∷◌, ℕ, List, [], OnErr, OnOk, codes};
ghost use Rattle.std.specs.List.{flat_map};
ghost use Rattle.std.specs.Option.{option_copied};
ghost use Rattle.json.specs.Token.{key};
ghost use Rattle.bpf_helpers.specs.Promise.{Promise};
ghost use Rattle.acdm_step.specs.Commands.{History, is_tick};
ghost use Rattle.acdm_step.specs.Summaries.{flights};
ghost use Rattle.acdm_step.specs.History.{replay};
ghost use Rattle.acdm_feed.specs.Found.{found_tokens, other_from};
ghost use Rattle.acdm_feed.specs.Knowing.{Knows};
ghost use Rattle.acdm_feed.specs.Names.{list_member};
ghost use Rattle.acdm_feed.specs.Told.{answer_token, changed_tokens, entry_members, flight_tokens};
ghost use Rattle.acdm_feed.specs.Told.{other_tokens, told, told_members, told_tokens};

use crate::command::{push_command, push_outcome};
use crate::known::{Known, flight_changed};
use crate::line::FeedLine;
use crate::record::push_record;
use crate::tokens::{key, push_number, push_text, push_time};
use acdm_record::{Field, Record};
use acdm_step::{Command, Core, Entry};
use std::alloc::AllocError;
use std::mem;

// Adds a record that was found.
fn push_found(line: &mut FeedLine, found: Option<&Record>) -> Result<(), AllocError>
    ensures before { line.new.before ≡ line.old.before }
    ensures adds { OnOk result (line.new.tokens
        ≡ line.old.tokens ++ found_tokens (option_copied found.entry)) }
{
    match found {
        Some(record) => push_record(line, record),
        None => Ok(()),
    }
}

// Adds a record that was found, where its alerts are others than before.
fn push_other(
    line: &mut FeedLine,
    before: Option<u64>,
    found: Option<&Record>,
) -> Result<(), AllocError>
    ensures before { line.new.before ≡ line.old.before }
    ensures adds { OnOk result (line.new.tokens
        ≡ line.old.tokens ++ other_from before (option_copied found.entry)) }
{
    let Some(before) = before else {
        return Ok(());
    };
    let Some(record) = found else {
        return Ok(());
    };
    if before == record.get(Field::Alerts) {
        return Ok(());
    }
    push_record(line, record)
}

/// Adds the record of a flight, where it is on the board.
pub(crate) fn push_flight(line: &mut FeedLine, board: &Core, flight: u64) -> Result<(), AllocError>
    ensures before { line.new.before ≡ line.old.before }
    ensures adds { OnOk result ((sigs : List (ℕ × Promise)) (K : History)
        → board.now ≡ replay sigs K
        → line.new.tokens ≡ line.old.tokens ++ flight_tokens K flight) }
{
    push_found(line, board.record_of(flight))?;
    Ok(())
}

// Adds the record of a flight that was known, most likely at this place, where its alerts are others than they were.
fn push_changed_flight(
    line: &mut FeedLine,
    known: &Known,
    board: &Core,
    place: usize,
    flight: u64,
) -> Result<(), AllocError>
    ensures before { line.new.before ≡ line.old.before }
    ensures adds { OnOk result ((sigs : List (ℕ × Promise)) (J K : History)
        → board.now ≡ replay sigs K → Knows J known.now
        → line.new.tokens ≡ line.old.tokens ++ other_tokens J K flight) }
{
    push_other(line, known.word_at(place, flight), board.record_of(flight))?;
    Ok(())
}

// Adds the records of those flights whose alerts are others than they were.
fn push_ticked(line: &mut FeedLine, known: &Known, board: &Core) -> Result<(), AllocError>
    ensures before { line.new.before ≡ line.old.before }
    ensures adds { OnOk result ((sigs : List (ℕ × Promise)) (J K : History)
        → board.now ≡ replay sigs K → Knows J known.now
        → line.new.tokens ≡ line.old.tokens ++ flat_map (other_tokens J K) (flights J)) }
{
    let mut place = 0;
    let mut rest = known.flights.as_slice();
    while let Some((flight, more)) = rest.split_first() {
        push_changed_flight(line, known, board, place, *flight)?;
        place = place.saturating_add(1);
        rest = more;
    }
    Ok(())
}

fn is_tick(command: &Command) -> bool
    ensures { result ≡ is_tick command.now }
{
    matches!(command, Command::Tick)
}

// Adds the records that an entry changed.
fn push_records(
    line: &mut FeedLine,
    known: &Known,
    board: &Core,
    entry: &Entry,
) -> Result<(), AllocError>
    ensures before { line.new.before ≡ line.old.before }
    ensures adds { OnOk result ((sigs : List (ℕ × Promise)) (J : History)
        → board.now ≡ replay sigs (entry.now ∷ J) → Knows J known.now
        → line.new.tokens ≡ line.old.tokens ++ changed_tokens J entry.now) }
{
    if !entry.verdict.is_accepted() {
        return Ok(());
    }
    if is_tick(&entry.command) {
        push_ticked(line, known, board)?;
        return Ok(());
    }
    match flight_changed(&entry.command) {
        Some(flight) => {
            push_flight(line, board, flight)?;
            Ok(())
        }
        None => Ok(()),
    }
}

// Adds the list of the records that an entry changed.
fn push_changed(
    line: &mut FeedLine,
    known: &Known,
    board: &Core,
    entry: &Entry,
) -> Result<(), AllocError>
    ensures before { line.new.before ≡ line.old.before }
    ensures adds { OnOk result ((sigs : List (ℕ × Promise)) (J : History)
        → board.now ≡ replay sigs (entry.now ∷ J) → Knows J known.now
        → line.new.tokens
        ≡ line.old.tokens ++ list_member (codes "changed") (changed_tokens J entry.now)) }
{
    line.key(key!("changed"))?;
    line.begin_array()?;
    push_records(line, known, board, entry)?;
    line.end_array()?;
    Ok(())
}

// The number, the minute, the session and the role.
#[tactic(auto, unfolding(crate::specs::Told::entry_members))]
fn push_head(line: &mut FeedLine, entry: &Entry) -> Result<(), AllocError>
    ensures before { line.new.before ≡ line.old.before }
    ensures adds { OnOk result (line.new.tokens ≡ line.old.tokens ++ entry_members entry.now) }
{
    push_number(line, key!("entry"), entry.number)?;
    push_time(line, key!("minute"), entry.moment)?;
    push_number(line, key!("session"), u64::from(entry.session))?;
    push_text(line, key!("role"), entry.role.name())?;
    Ok(())
}

fn push_answers(line: &mut FeedLine, answers: &[u64]) -> Result<(), AllocError>
    ensures before { line.new.before ≡ line.old.before }
    ensures adds { OnOk result (line.new.tokens
        ≡ line.old.tokens ++ flat_map answer_token answers.now) }
{
    let mut rest = answers;
    while let Some((answer, more)) = rest.split_first() {
        line.u64(*answer)?;
        rest = more;
    }
    Ok(())
}

// Adds the list of the answers.
fn push_answer_list(line: &mut FeedLine, answers: &[u64]) -> Result<(), AllocError>
    ensures before { line.new.before ≡ line.old.before }
    ensures adds { OnOk result (line.new.tokens ≡ line.old.tokens
        ++ list_member (codes "answers") (flat_map answer_token answers.now)) }
{
    line.key(key!("answers"))?;
    line.begin_array()?;
    push_answers(line, answers)?;
    line.end_array()?;
    Ok(())
}

// The command, what came of it, and the answers of helpers that its programs used.
#[tactic(auto, unfolding(crate::specs::Told::told_members))]
fn push_told(line: &mut FeedLine, entry: &Entry) -> Result<(), AllocError>
    ensures before { line.new.before ≡ line.old.before }
    ensures adds { OnOk result (line.new.tokens ≡ line.old.tokens ++ told_members entry.now) }
{
    line.key(key!("command"))?;
    push_command(line, &entry.command)?;
    line.key(key!("outcome"))?;
    push_outcome(line, entry.verdict)?;
    push_answer_list(line, entry.answers.as_slice())?;
    Ok(())
}

// Adds all of it as one object.
fn push_object(
    line: &mut FeedLine,
    known: &Known,
    board: &Core,
    entry: &Entry,
) -> Result<(), AllocError>
    ensures before { line.new.before ≡ line.old.before }
    ensures adds { OnOk result ((sigs : List (ℕ × Promise)) (J : History)
        → board.now ≡ replay sigs (entry.now ∷ J) → Knows J known.now
        → line.new.tokens ≡ line.old.tokens ++ told_tokens J entry.now) }
{
    line.begin_object()?;
    push_head(line, entry)?;
    push_told(line, entry)?;
    push_changed(line, known, board, entry)?;
    line.end_object()?;
    Ok(())
}

/// Adds the line of an entry: one object of JSON, without space, and a line feed. The board is that
/// after the entry, and what is known is that of the board before it. `Err` only where memory was
/// refused; nothing was added then.
pub fn push_line(
    text: &mut Vec<u8>,
    known: &Known,
    board: &Core,
    entry: &Entry,
) -> Result<(), AllocError>
    ensures told { OnOk result ((sigs : List (ℕ × Promise)) (J : History)
        → board.now ≡ replay sigs (entry.now ∷ J) → Knows J known.now
        → text.new.items ≡ text.old.items ++ told J entry.now) }
    ensures refused { OnErr result (text.new.items ≡ text.old.items) }
{
    let alloc = *text.allocator();
    let mut line = FeedLine::new(mem::replace(text, Vec::new(alloc)), known.day);
    match push_object(&mut line, known, board, entry) {
        Ok(()) => line.end(text),
        Err(refused) => {
            line.drop_into(text);
            Err(refused)
        }
    }
}
