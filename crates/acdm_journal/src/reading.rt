//! The reading of a line.
ghost use Rattle.std.specs.Prelude.{◌≡◌, ◌≢◌, ◌≤◌, length, IfOk, OnOk, IsTrue, Err};
ghost use Rattle.acdm_step.specs.Facts.{has_its_plan, has_its_time};
ghost use Rattle.acdm_journal.specs.Memory.{bytes_need_memory, load_needs_memory};
ghost use Rattle.acdm_journal.specs.Memory.{command_needs_memory, asked_needs_memory};
ghost use Rattle.acdm_journal.specs.Memory.{answers_need_memory, stated_needs_memory};
ghost use Rattle.acdm_journal.specs.Memory.{line_needs_memory};
ghost use Rattle.acdm_journal.specs.Reading.{Gives, Reads, GivesLine, words_of, natural_of};
ghost use Rattle.acdm_journal.specs.Reading.{number_at, text_at};
ghost use Rattle.acdm_journal.specs.Reading.{role_at, kind_at};
ghost use Rattle.acdm_journal.specs.Reading.{milestone_at, bytes_at, plan_at, plan_for, least_time};
ghost use Rattle.acdm_journal.specs.Reading.{schedule_at, report_at, load_at, unload_at, show_at};
ghost use Rattle.acdm_journal.specs.Reading.{deicing_at, deice_at, length_at};
ghost use Rattle.acdm_journal.specs.Reading.{command_named, asked_at, answers_at, stated_at};
ghost use Rattle.acdm_journal.specs.Reading.{stated_of};
ghost use Rattle.acdm_journal.specs.declared.stated.Stated.{Stated};
ghost use Rattle.acdm_journal.specs.Text.{line_of};
ghost use Rattle.acdm_journal.specs.Ranges.{IsStated};

use crate::stated::{ReadError, Stated};
use crate::words::Words;
use acdm_milestones::{DeicingTime, Milestone, Role};
use acdm_record::Text;
use acdm_slots::{Kind, ProgramBytes};
use acdm_step::{
    Answers, Command, Deice, Durations, FlightNumber, FlightPlan, LoadRequest, MINUTES_OF_DAY,
    Report, Schedule, StatedCommand, Unload,
};
use bpf_regstate::Length;
use hex::FromHexError;
use std::alloc::Global;

/// How many bytes a line of the journal has at most (this project's profile).
pub const LONGEST_ENTRY: usize = 200_000;

// A number without leading zeros.
#[tactic(auto, unfolding(crate::specs::Reading::natural_of))]
fn natural_in(word: &[u8]) -> Option<u128>
    ensures { result ≡ natural_of word.now }
{
    if word.is_empty() || word.len() > 20 {
        return None;
    }
    if word[0] == b'0' && word.len() > 1 {
        return None;
    }
    let mut number = 0u128;
    for byte in word {
        if !byte.is_ascii_digit() {
            return None;
        }
        number = number * 10 + u128::from(*byte - b'0');
    }
    Some(number)
}

// A number within these bounds.
#[tactic(auto, unfolding(crate::specs::Reading::number_at))]
fn number_in(words: &mut Words<'_>, low: u64, high: u64) -> Result<u64, ReadError>
    ensures reads { Reads result words.new (number_at low high words.old) }
    ensures within { IfOk result (λ n. (low ≤ n) × (n ≤ high)) }
{
    let word = words.next()?;
    let Some(number) = natural_in(word) else {
        return Err(ReadError::Unreadable);
    };
    if u128::from(low) <= number && number <= u128::from(high) {
        Ok(number as u64)
    } else {
        Err(ReadError::Unreadable)
    }
}

// A text of 1 to N printable bytes.
#[tactic(auto, unfolding(crate::specs::Reading::text_at))]
fn text_in<const N: usize>(words: &mut Words<'_>) -> Result<Text<N>, ReadError>
    ensures { Reads result words.new (text_at N words.old) }
{
    let word = words.next()?;
    let Some(text) = Text::from_bytes(word) else {
        return Err(ReadError::Unreadable);
    };
    Ok(text)
}

#[tactic(auto, unfolding(crate::specs::Reading::role_at))]
fn role_in(words: &mut Words<'_>) -> Result<Role, ReadError>
    ensures { Reads result words.new (role_at words.old) }
{
    let word = words.next()?;
    let Some(role) = Role::from_name(word) else {
        return Err(ReadError::Unreadable);
    };
    Ok(role)
}

#[tactic(auto, unfolding(crate::specs::Reading::kind_at))]
fn kind_in(words: &mut Words<'_>) -> Result<Kind, ReadError>
    ensures { Reads result words.new (kind_at words.old) }
{
    let word = words.next()?;
    let Some(kind) = Kind::from_name(word) else {
        return Err(ReadError::Unreadable);
    };
    Ok(kind)
}

#[tactic(auto, unfolding(crate::specs::Reading::milestone_at))]
fn milestone_in(words: &mut Words<'_>) -> Result<Milestone, ReadError>
    ensures { Reads result words.new (milestone_at words.old) }
{
    let number = number_in(words, 1, 16)?;
    let Some(milestone) = Milestone::from_number(number) else {
        return Err(ReadError::Unreadable);
    };
    Ok(milestone)
}

// The bytes of hexadecimal text in lower case.
#[tactic(auto, unfolding(crate::specs::Reading::bytes_at, crate::specs::Memory::bytes_need_memory))]
fn bytes_in(alloc: Global, words: &mut Words<'_>) -> Result<ProgramBytes, ReadError>
    ensures { Gives (bytes_need_memory words.old) result words.new
        (bytes_at words.old) }
{
    let word = words.next()?;
    let bytes = match hex::decode(alloc, word) {
        Ok(bytes) => bytes,
        Err(FromHexError::OutOfMemory) => return Err(ReadError::Memory),
        Err(_) => return Err(ReadError::Unreadable),
    };
    let Ok(text) = hex::encode(alloc, bytes.as_slice()) else {
        return Err(ReadError::Memory);
    };
    if text.as_bytes() == word {
        Ok(ProgramBytes::from(bytes))
    } else {
        Err(ReadError::Unreadable)
    }
}

#[tactic(auto, unfolding(crate::specs::Reading::plan_at))]
fn plan_in(words: &mut Words<'_>) -> Result<FlightPlan, ReadError>
    ensures { Reads result words.new (plan_at words.old) }
{
    let callsign = text_in(words)?;
    let aircraft = text_in(words)?;
    let registration = text_in(words)?;
    let destination = text_in(words)?;
    Ok(FlightPlan {
        callsign,
        aircraft,
        registration,
        destination,
    })
}

// A plan comes with the first milestone alone.
fn plan_of(words: &mut Words<'_>, milestone: Milestone) -> Result<Option<FlightPlan>, ReadError>
    ensures reads { Reads result words.new (plan_for milestone words.old) }
    ensures with_first { IfOk result (λ p. IsTrue (has_its_plan milestone p)) }
{
    match milestone {
        Milestone::FlightPlanActivated => Ok(Some(plan_in(words)?)),
        _ => Ok(None),
    }
}

fn least_time_of(milestone: Milestone) -> u64
    ensures { result ≡ least_time milestone }
{
    match milestone {
        Milestone::TwoHoursBeforeEobt | Milestone::TobtUpdate => 0,
        _ => 1,
    }
}

#[tactic(auto, unfolding(crate::specs::Reading::schedule_at))]
fn schedule_in(words: &mut Words<'_>) -> Result<StatedCommand, ReadError>
    ensures { Reads result words.new (schedule_at words.old) }
{
    let flight = number_in(words, 1, u64::MAX)?;
    let plan = plan_in(words)?;
    let sobt = number_in(words, 1, 4_294_967_295)?;
    let mttt = number_in(words, 0, MINUTES_OF_DAY)?;
    let exit = number_in(words, 0, 255)?;
    let exot = number_in(words, 0, MINUTES_OF_DAY)?;
    let stand = number_in(words, 0, 65_535)?;
    Ok(StatedCommand::Plain(Command::Schedule(Schedule::new(
        flight,
        plan,
        sobt as u32,
        Durations {
            mttt: mttt as u16,
            exit: exit as u8,
            exot: exot as u16,
        },
        stand as u16,
    ))))
}

// The time of a report.
fn time_in(words: &mut Words<'_>, milestone: Milestone) -> Result<u32, ReadError>
    ensures reads { Reads result words.new (number_at (least_time milestone) 4294967295 words.old) }
    ensures timed { IfOk result (λ t. IsTrue (has_its_time milestone t)) }
{
    let time = number_in(words, least_time_of(milestone), 4_294_967_295)?;
    Ok(time as u32)
}

#[tactic(auto, unfolding(crate::specs::Reading::report_at))]
fn report_in(words: &mut Words<'_>) -> Result<StatedCommand, ReadError>
    ensures { Reads result words.new (report_at words.old) }
{
    let flight = number_in(words, 1, u64::MAX)?;
    let milestone = milestone_in(words)?;
    let time = time_in(words, milestone)?;
    let plan = plan_of(words, milestone)?;
    Ok(StatedCommand::Plain(Command::Report(Report::new(flight, milestone, time, plan))))
}

#[tactic(auto, unfolding(crate::specs::Reading::deicing_at))]
fn deicing_in(words: &mut Words<'_>) -> Result<DeicingTime, ReadError>
    ensures { Reads result words.new (deicing_at words.old) }
{
    let word = words.next()?;
    let Some(which) = DeicingTime::from_name(word) else {
        return Err(ReadError::Unreadable);
    };
    Ok(which)
}

#[tactic(auto, unfolding(crate::specs::Reading::deice_at))]
fn deice_in(words: &mut Words<'_>) -> Result<StatedCommand, ReadError>
    ensures { Reads result words.new (deice_at words.old) }
{
    let flight = number_in(words, 1, u64::MAX)?;
    let which = deicing_in(words)?;
    let time = number_in(words, 0, 4_294_967_295)?;
    Ok(StatedCommand::Plain(Command::Deice(Deice {
        flight: FlightNumber::new(flight),
        which,
        time: time as u32,
    })))
}

// The length of records beside which a program was checked, 128 bytes where nothing is told.
#[tactic(auto, unfolding(crate::specs::Reading::length_at))]
fn length_in(words: &mut Words<'_>) -> Result<Length, ReadError>
    ensures { Reads result words.new (length_at words.old) }
{
    if words.is_empty() {
        return Ok(Length::L128);
    }
    let word = words.next()?;
    if word == b"160".as_slice() {
        Ok(Length::L160)
    } else {
        Err(ReadError::Unreadable)
    }
}

#[tactic(auto, unfolding(crate::specs::Reading::load_at, crate::specs::Memory::load_needs_memory))]
fn load_in(alloc: Global, words: &mut Words<'_>) -> Result<StatedCommand, ReadError>
    ensures { Gives (load_needs_memory words.old) result words.new
        (load_at words.old) }
{
    let milestone = milestone_in(words)?;
    let kind = kind_in(words)?;
    let program = bytes_in(alloc, words)?;
    let record_length = length_in(words)?;
    Ok(StatedCommand::Load(LoadRequest {
        milestone,
        kind,
        program,
        record_length,
    }))
}

#[tactic(auto, unfolding(crate::specs::Reading::unload_at))]
fn unload_in(words: &mut Words<'_>) -> Result<StatedCommand, ReadError>
    ensures { Reads result words.new (unload_at words.old) }
{
    let milestone = milestone_in(words)?;
    let kind = kind_in(words)?;
    Ok(StatedCommand::Plain(Command::Unload(Unload { milestone, kind })))
}

#[tactic(auto, unfolding(crate::specs::Reading::show_at))]
fn show_in(words: &mut Words<'_>) -> Result<StatedCommand, ReadError>
    ensures { Reads result words.new (show_at words.old) }
{
    let flight = number_in(words, 1, u64::MAX)?;
    Ok(StatedCommand::Plain(Command::Show(FlightNumber::new(flight))))
}

// The command of this name.
#[tactic(auto, unfolding(crate::specs::Reading::command_named, crate::specs::Memory::command_needs_memory))]
fn command_of(alloc: Global, name: &[u8], words: &mut Words<'_>) -> Result<StatedCommand, ReadError>
    ensures { Gives (command_needs_memory name.now words.old) result words.new
        (command_named name.now words.old) }
{
    if name == b"schedule".as_slice() {
        schedule_in(words)
    } else if name == b"report".as_slice() {
        report_in(words)
    } else if name == b"load".as_slice() {
        load_in(alloc, words)
    } else if name == b"unload".as_slice() {
        unload_in(words)
    } else if name == b"tick".as_slice() {
        Ok(StatedCommand::Plain(Command::Tick))
    } else if name == b"show".as_slice() {
        show_in(words)
    } else if name == b"alerts".as_slice() {
        Ok(StatedCommand::Plain(Command::Alerts))
    } else if name == b"migrate".as_slice() {
        Ok(StatedCommand::Plain(Command::Migrate))
    } else if name == b"deice".as_slice() {
        deice_in(words)
    } else {
        Err(ReadError::Unreadable)
    }
}

#[tactic(auto, unfolding(crate::specs::Reading::asked_at, crate::specs::Memory::asked_needs_memory))]
fn asked_in(alloc: Global, words: &mut Words<'_>) -> Result<StatedCommand, ReadError>
    ensures { Gives (asked_needs_memory words.old) result words.new
        (asked_at words.old) }
{
    let name = words.next()?;
    command_of(alloc, name, words)
}

// How many answers there are, and then each.
#[tactic(auto, unfolding(crate::specs::Reading::answers_at, crate::specs::Memory::answers_need_memory))]
fn answers_in(alloc: Global, words: &mut Words<'_>) -> Result<Answers, ReadError>
    ensures { Gives (answers_need_memory words.old) result words.new
        (answers_at words.old) }
{
    let mut left = number_in(words, 0, u64::MAX)?;
    let mut given = Vec::new(alloc);
    while left > 0 {
        let answer = number_in(words, 0, u64::MAX)?;
        if given.push(answer).is_err() {
            return Err(ReadError::Memory);
        }
        left -= 1;
    }
    match Answers::new(alloc, given) {
        Ok(answers) => Ok(answers),
        Err(_) => Err(ReadError::Memory),
    }
}

#[tactic(auto, unfolding(crate::specs::Reading::stated_at, crate::specs::Memory::stated_needs_memory))]
fn stated_in(alloc: Global, words: &mut Words<'_>) -> Result<Stated, ReadError>
    ensures { Gives (stated_needs_memory words.old) result words.new
        (stated_at words.old) }
{
    let number = number_in(words, 0, u64::MAX)?;
    let session = number_in(words, 1, 64)?;
    let moment = number_in(words, 1, 4_294_967_295)?;
    let role = role_in(words)?;
    let outcome = number_in(words, 0, u64::MAX)?;
    let answers = answers_in(alloc, words)?;
    let asked = asked_in(alloc, words)?;
    Ok(Stated {
        number,
        session: session as u8,
        moment: moment as u32,
        role,
        outcome,
        answers,
        asked,
    })
}

// The reading of a line that is not too long.
#[tactic(auto, unfolding(crate::specs::Reading::stated_of))]
fn stated_alone(alloc: Global, line: &[u8]) -> Result<Stated, ReadError>
    ensures { GivesLine (stated_needs_memory (words_of line.now)) result (stated_of line.now) }
{
    let mut words = Words::of(line);
    let stated = stated_in(alloc, &mut words)?;
    if words.is_empty() {
        Ok(stated)
    } else {
        Err(ReadError::Unreadable)
    }
}

/// What a line states. The line stands without its line feed.
///
/// `Unreadable` where it has more than 200,000 bytes or is the line of nothing that may be stated:
/// numbers are decimal without leading zeros, words have single spaces between them, hexadecimal is
/// in lower case. `Memory` where there was no room for the answers or the bytes of the program in
/// it: only where the first answer is read, or the milestone and the kind of a load with an even
/// number of digits.
#[tactic(auto, unfolding(crate::specs::Memory::line_needs_memory))]
pub fn read_line(alloc: Global, line: &[u8]) -> Result<Stated, ReadError>
    ensures states { IfOk result (λ s. (line.now ≡ line_of s) × IsStated s) }
    ensures short { OnOk result (length line.now ≤ LONGEST_ENTRY) }
    ensures nothing { result ≡ Err ReadError.Unreadable → length line.now ≤ LONGEST_ENTRY →
        (s : Stated) → IsStated s → line.now ≢ line_of s }
    ensures memory { result ≡ Err ReadError.Memory → IsTrue (line_needs_memory line.now) }
{
    if line.len() > LONGEST_ENTRY {
        return Err(ReadError::Unreadable);
    }
    stated_alone(alloc, line)
}
