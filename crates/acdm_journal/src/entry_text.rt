//! The text of an entry, and its writing.
ghost use Rattle.std.specs.Prelude.{◌≡◌, ◌≤◌, ◌<◌, ◌^◌, ◌∷◌, ◌++◌, [], map, Err, OnOk, OnErr};
ghost use Rattle.std.specs.Fmt.{decimal};
ghost use Rattle.std.specs.List.{AllByRecursion};
ghost use Rattle.hex.specs.Hex.{encode_lower};
ghost use Rattle.bpf_decode.specs.Encoding.{IsProgram, encoding};
ghost use Rattle.acdm_milestones.specs.Tables.{number};
ghost use Rattle.acdm_journal.specs.Text.{outcome_code, plan_words};
ghost use Rattle.acdm_journal.specs.Text.{plan_words_of, schedule_words, report_words, load_words};
ghost use Rattle.acdm_journal.specs.Text.{deice_words, length_words};
ghost use Rattle.acdm_journal.specs.Text.{command_words, answer_words, head_words, time_words};
ghost use Rattle.acdm_journal.specs.Text.{asked_in, stated_in, entry_text};
ghost use Rattle.acdm_journal.specs.Ranges.{IsWord, IsByte, IsPlan, AreTimes, IsScheduleLine};
ghost use Rattle.acdm_journal.specs.Ranges.{IsReportLine, IsAsked, LoadsProgram, FitsTypes};
ghost use Rattle.acdm_journal.specs.Spaced.{spaced};
ghost use Rattle.acdm_lines.specs.Written.{TookPart};

use crate::appended::Appended;
use acdm_lines::{Sink, WriteError, write_whole};
use acdm_milestones::Milestone;
use acdm_step::{Command, Deice, Entry, FlightPlan, Load, Report, Schedule, Verdict};
use bpf_decode::{Op, Program, encode_op};
use bpf_regstate::Length;
use itoa::Buffer;
use std::alloc::{AllocError, Global};
use std::io::Write;
use std::mem;

pub(crate) fn code_of(verdict: Verdict) -> u64
    ensures { result ≡ outcome_code verdict }
{
    match verdict {
        Verdict::Accepted => 0,
        Verdict::Refused(refusal) => u64::from(refusal.code()),
    }
}

// Adds a space and a word.
fn push_word(text: &mut Appended, word: &[u8]) -> Result<(), AllocError>
    ensures before { text.new.before ≡ text.old.before }
    ensures adds { OnOk result (text.new.added ≡ text.old.added ++ 32 ∷ word.now) }
{
    text.push(b" ")?;
    text.push(word)
}

fn push_number(text: &mut Appended, number: u64) -> Result<(), AllocError>
    ensures before { text.new.before ≡ text.old.before }
    ensures adds { OnOk result (text.new.added ≡ text.old.added ++ 32 ∷ decimal number) }
{
    let mut digits = Buffer::new();
    push_word(text, digits.format(number).as_bytes())
}

fn push_milestone(text: &mut Appended, milestone: Milestone) -> Result<(), AllocError>
    ensures before { text.new.before ≡ text.old.before }
    ensures adds { OnOk result (text.new.added ≡ text.old.added ++ 32 ∷ decimal (number milestone)) }
{
    push_number(text, u64::from(milestone.number()))
}

fn push_plan(text: &mut Appended, plan: &FlightPlan) -> Result<(), AllocError>
    ensures before { text.new.before ≡ text.old.before }
    ensures adds { OnOk result (text.new.added ≡ text.old.added ++ spaced (plan_words plan.now)) }
    ensures ranges { OnOk result (IsPlan plan.now) }
{
    push_word(text, plan.callsign.as_bytes())?;
    push_word(text, plan.aircraft.as_bytes())?;
    push_word(text, plan.registration.as_bytes())?;
    push_word(text, plan.destination.as_bytes())?;
    Ok(())
}

fn push_schedule(text: &mut Appended, schedule: &Schedule) -> Result<(), AllocError>
    ensures before { text.new.before ≡ text.old.before }
    ensures adds { OnOk result (text.new.added
        ≡ text.old.added ++ spaced (schedule_words schedule.now)) }
    ensures ranges { OnOk result (IsScheduleLine schedule.now) }
{
    push_word(text, b"schedule")?;
    push_number(text, schedule.flight())?;
    push_plan(text, schedule.plan())?;
    push_times(text, schedule)?;
    Ok(())
}

// SOBT, MTTT, EXIT, EXOT and the stand.
fn push_times(text: &mut Appended, schedule: &Schedule) -> Result<(), AllocError>
    ensures before { text.new.before ≡ text.old.before }
    ensures adds { OnOk result (text.new.added
        ≡ text.old.added ++ spaced (time_words schedule.now)) }
    ensures ranges { OnOk result (AreTimes schedule.now) }
{
    push_number(text, u64::from(schedule.sobt()))?;
    push_number(text, u64::from(schedule.mttt()))?;
    push_number(text, u64::from(schedule.exit()))?;
    push_number(text, u64::from(schedule.exot()))?;
    push_number(text, u64::from(schedule.stand()))?;
    Ok(())
}

fn push_report(text: &mut Appended, report: &Report) -> Result<(), AllocError>
    ensures before { text.new.before ≡ text.old.before }
    ensures adds { OnOk result (text.new.added
        ≡ text.old.added ++ spaced (report_words report.now)) }
    ensures ranges { OnOk result (IsReportLine report.now) }
{
    push_word(text, b"report")?;
    push_number(text, report.flight())?;
    push_milestone(text, report.milestone())?;
    push_number(text, u64::from(report.time()))?;
    let Some(plan) = report.plan() else {
        return Ok(());
    };
    push_plan(text, plan)
}

// Adds the two digits of each byte.
fn push_digits(text: &mut Appended, bytes: &[u8]) -> Result<(), AllocError>
    ensures before { text.new.before ≡ text.old.before }
    ensures adds { OnOk result (text.new.added ≡ text.old.added ++ encode_lower bytes.now) }
    ensures ranges { AllByRecursion IsByte bytes.now }
{
    let mut rest = bytes;
    while let Some((byte, more)) = rest.split_first() {
        push_byte(text, *byte)?;
        rest = more;
    }
    Ok(())
}

// Adds the two digits of a byte.
fn push_byte(text: &mut Appended, byte: u8) -> Result<(), AllocError>
    ensures before { text.new.before ≡ text.old.before }
    ensures adds { OnOk result (text.new.added ≡ text.old.added ++ encode_lower (byte ∷ [])) }
{
    let mut digits = [0; 2];
    if hex::encode_to_slice([byte], &mut digits).is_err() {
        unreachable!();
    }
    text.push(&digits)
}

// Adds the digits of the bytes that encode these instructions.
fn push_ops(text: &mut Appended, ops: &[Op]) -> Result<(), AllocError>
    ensures before { text.new.before ≡ text.old.before }
    ensures adds { OnOk result (text.new.added ≡ text.old.added ++ encode_lower (encoding ops.now)) }
    ensures ranges { OnOk result (AllByRecursion IsByte (encoding ops.now)) }
{
    let mut rest = ops;
    while let Some((op, more)) = rest.split_first() {
        push_digits(text, encode_op(*op).as_slice())?;
        rest = more;
    }
    Ok(())
}

// Adds a space and the bytes of a program in hexadecimal.
fn push_program(text: &mut Appended, program: &Program) -> Result<(), AllocError>
    ensures before { text.new.before ≡ text.old.before }
    ensures adds { OnOk result (text.new.added
        ≡ text.old.added ++ 32 ∷ encode_lower (encoding program.now)) }
    ensures bytes { OnOk result (AllByRecursion IsByte (encoding program.now)) }
    ensures program { OnOk result (IsProgram program.now) }
{
    text.push(b" ")?;
    push_ops(text, program.ops())
}

fn push_load(text: &mut Appended, load: &Load) -> Result<(), AllocError>
    ensures before { text.new.before ≡ text.old.before }
    ensures adds { OnOk result (text.new.added ≡ text.old.added ++ spaced (
        load_words load.now.milestone load.now.kind (encoding load.now.program.ops)
        load.now.program.record_length)) }
    ensures bytes { OnOk result (AllByRecursion IsByte (encoding load.now.program.ops)) }
    ensures program { OnOk result (IsProgram load.now.program.ops) }
{
    push_word(text, b"load")?;
    push_milestone(text, load.milestone)?;
    push_word(text, load.kind.name().as_bytes())?;
    push_program(text, load.program.program())?;
    push_length(text, load.program.record_length())
}

// The length of records beside which a program was checked, where it is not that of layout 1.
fn push_length(text: &mut Appended, record_length: Length) -> Result<(), AllocError>
    ensures before { text.new.before ≡ text.old.before }
    ensures adds { OnOk result (text.new.added
        ≡ text.old.added ++ spaced (length_words record_length)) }
{
    match record_length {
        Length::L128 => Ok(()),
        Length::L160 => push_word(text, b"160"),
    }
}

fn push_deice(text: &mut Appended, deice: &Deice) -> Result<(), AllocError>
    ensures before { text.new.before ≡ text.old.before }
    ensures adds { OnOk result (text.new.added ≡ text.old.added ++ spaced (deice_words deice.now)) }
    ensures ranges { OnOk result ((1 ≤ deice.now.flight) × IsWord deice.now.flight
        × (deice.now.time < 2 ^ 32)) }
{
    push_word(text, b"deice")?;
    push_number(text, deice.flight.get())?;
    push_word(text, deice.which.name().as_bytes())?;
    push_number(text, u64::from(deice.time))
}

fn push_command(text: &mut Appended, command: &Command) -> Result<(), AllocError>
    ensures before { text.new.before ≡ text.old.before }
    ensures adds { OnOk result (text.new.added
        ≡ text.old.added ++ spaced (command_words command.now)) }
    ensures ranges { OnOk result (IsAsked (asked_in command.now)) }
    ensures program { OnOk result (LoadsProgram command.now) }
{
    match command {
        Command::Schedule(schedule) => push_schedule(text, schedule),
        Command::Report(report) => push_report(text, report),
        Command::Deice(deice) => push_deice(text, deice),
        Command::Load(load) => push_load(text, load),
        Command::Unload(unload) => {
            push_word(text, b"unload")?;
            push_milestone(text, unload.milestone)?;
            push_word(text, unload.kind.name().as_bytes())
        }
        Command::Tick => push_word(text, b"tick"),
        Command::Migrate => push_word(text, b"migrate"),
        Command::Show(flight) => {
            push_word(text, b"show")?;
            push_number(text, flight.get())
        }
        Command::Alerts => push_word(text, b"alerts"),
    }
}

// How many answers there are, and then each.
fn push_answers(text: &mut Appended, answers: &[u64]) -> Result<(), AllocError>
    ensures before { text.new.before ≡ text.old.before }
    ensures adds { OnOk result (text.new.added
        ≡ text.old.added ++ spaced (answer_words answers.now)) }
    ensures ranges { OnOk result (AllByRecursion IsWord answers.now) }
{
    push_number(text, answers.len() as u64)?;
    let mut rest = answers;
    while let Some((answer, more)) = rest.split_first() {
        push_number(text, *answer)?;
        rest = more;
    }
    Ok(())
}

// The session, the moment, the role and the outcome.
fn push_head(text: &mut Appended, entry: &Entry) -> Result<(), AllocError>
    ensures before { text.new.before ≡ text.old.before }
    ensures adds { OnOk result (text.new.added
        ≡ text.old.added ++ spaced (head_words (stated_in entry.now))) }
{
    push_number(text, u64::from(entry.session))?;
    push_number(text, u64::from(entry.moment))?;
    push_word(text, entry.role.name().as_bytes())?;
    push_number(text, code_of(entry.verdict))?;
    Ok(())
}

// Adds the text of an entry where nothing was added yet.
fn push_line(text: &mut Appended, entry: &Entry) -> Result<(), AllocError>
    requires none { text.old.added ≡ [] }
    ensures before { text.new.before ≡ text.old.before }
    ensures adds { OnOk result (text.new.added ≡ entry_text entry.now) }
    ensures types { OnOk result (FitsTypes entry.now) }
{
    let mut digits = Buffer::new();
    text.push(digits.format(entry.number).as_bytes())?;
    push_head(text, entry)?;
    push_answers(text, entry.answers.as_slice())?;
    push_command(text, &entry.command)?;
    text.push(b"\n")?;
    Ok(())
}

/// Adds the text of an entry: `N SESSION MINUTE ROLE OUT K A1 .. AK COMMAND` and a line feed, with
/// OUT 0 or the number of the refusal and K the count of the answers that its programs used (this
/// project's profile). It is written where the text has room, so no memory is asked for where that is
/// enough.
///
/// `Err` only where memory was refused; nothing has changed then.
pub fn push_entry(text: &mut Vec<u8>, entry: &Entry) -> Result<(), AllocError>
    ensures text { OnOk result (text.new.items ≡ text.old.items ++ entry_text entry.now) }
    // What was added has the parts that an entry can have.
    ensures types { OnOk result (FitsTypes entry.now) }
    ensures err { OnErr result (text.new.items ≡ text.old.items) }
{
    let alloc = *text.allocator();
    let mut line = Appended::new(mem::replace(text, Vec::new(alloc)));
    match push_line(&mut line, entry) {
        Ok(()) => {
            *text = line.whole();
            Ok(())
        }
        Err(refused) => {
            *text = line.before();
            Err(refused)
        }
    }
}

/// Writes the text of an entry. A write that a signal interrupts is made once more.
///
/// `Memory` where there was no room for the text, and then nothing was written; `Write` where the
/// writer failed, which may have taken a part of it.
pub fn write_entry<W: Write>(
    alloc: Global,
    entry: &Entry,
    writer: &mut Sink<W>,
) -> Result<(), WriteError>
    ensures written { OnOk result (writer.new.log ≡ writer.old.log ++ entry_text entry.now) }
    // What was written has the parts that an entry can have.
    ensures types { OnOk result (FitsTypes entry.now) }
    ensures memory { result ≡ Err WriteError.Memory → writer.new ≡ writer.old }
    ensures failed { result ≡ Err WriteError.Write
        → TookPart writer.old writer.new (entry_text entry.now) }
    ensures faults { writer.old.faults ≤ writer.new.faults }
{
    write_entry_by(&mut Vec::new(alloc), entry, writer)
}

/// Writes the text of an entry by way of a buffer, whatever that holds. Where the buffer has room for
/// it no memory is asked for: `MOST_KEPT` bytes are room for each line that an audit reads.
///
/// It answers what `write_entry` does.
pub fn write_entry_by<W: Write>(
    buffer: &mut Vec<u8>,
    entry: &Entry,
    writer: &mut Sink<W>,
) -> Result<(), WriteError>
    ensures written { OnOk result (writer.new.log ≡ writer.old.log ++ entry_text entry.now) }
    ensures types { OnOk result (FitsTypes entry.now) }
    ensures memory { result ≡ Err WriteError.Memory → writer.new ≡ writer.old }
    ensures failed { result ≡ Err WriteError.Write
        → TookPart writer.old writer.new (entry_text entry.now) }
    ensures faults { writer.old.faults ≤ writer.new.faults }
{
    buffer.clear();
    if push_entry(buffer, entry).is_err() {
        return Err(WriteError::Memory);
    }
    write_whole(writer, buffer.as_slice(), 1)
}
