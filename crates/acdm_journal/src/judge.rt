//! The judging of one line of a journal, after those before it.
ghost use Rattle.std.specs.Prelude.{◌≡◌, ℕ, List, length, IfOk, IfSome, OnOk, OnErr, IsTrue, Err};
ghost use Rattle.bpf_helpers.specs.Promise.{Promise};
ghost use Rattle.acdm_step.specs.Commands.{History};
ghost use Rattle.acdm_step.specs.History.{IsLegal, replay, needs_memory};
ghost use Rattle.acdm_step.specs.Prepared.{Fits, after_change};
ghost use Rattle.acdm_journal.specs.Audit.{Commands, GivesProgram};
ghost use Rattle.acdm_journal.specs.Audit.{Judges, PlansCommand, PlansLine};
ghost use Rattle.acdm_journal.specs.Audit.{clause_code};
ghost use Rattle.acdm_journal.specs.Memory.{JudgingNeedsMemory, is_load_line};

use crate::entry_text::code_of;
use crate::reading::read_line;
use crate::stated::ReadError;
use acdm_milestones::Role;
use acdm_step::{Command, Core, Entry, Load, LoadRequest, Plan, StatedCommand, plan_with};
use bpf_helpers::Sigs;
use bpf_verifier::{Checked, ProgramError, read_program};
use std::alloc::Global;
use thiserror::Error;

/// What an entry of a journal must fulfil, in the order of the tests (this project's profile).
#[derive(Clone, Copy, Debug, PartialEq, Eq, Error)]
pub enum Clause {
    /// 401: its line is that of an entry, and has at most 200,000 bytes.
    #[error("a line of no entry")]
    Unreadable,
    /// 402: its number is its place, from 0.
    #[error("another number")]
    Number,
    /// 403: the bytes of a program that it loads encode one that is accepted.
    #[error("a program that is not accepted")]
    Program,
    /// 404: the answers of helpers are those that its programs use, each promised, and none where
    /// it is refused.
    #[error("other answers of helpers")]
    Answers,
    /// 405: its outcome is that of the entries before it.
    #[error("another outcome")]
    Outcome,
}

impl Clause {
    /// The number of the clause.
    pub fn code(self) -> u16
        ensures { result ≡ clause_code self }
    {
        match self {
            Clause::Unreadable => 401,
            Clause::Number => 402,
            Clause::Program => 403,
            Clause::Answers => 404,
            Clause::Outcome => 405,
        }
    }
}

/// Why a line was not taken.
#[derive(Clone, Copy, Debug, PartialEq, Eq, Error)]
pub enum AuditError {
    /// There was no memory to judge it.
    #[error("no memory")]
    Memory,
    /// The first clause that its entry breaks.
    #[error("{0}")]
    Faulty(Clause),
}

// The program that the bytes of a load encode.
fn program_of(alloc: Global, load: &LoadRequest, sigs: &Sigs) -> Result<Checked, AuditError>
    ensures { GivesProgram sigs.now load.now.program load.now.record_length result }
{
    match read_program(alloc, load.program.as_slice(), sigs, load.record_length) {
        Ok(checked) => Ok(checked),
        Err(ProgramError::Memory) => Err(AuditError::Memory),
        Err(ProgramError::Refused { .. }) => Err(AuditError::Faulty(Clause::Program)),
    }
}

// The command that is asked for.
fn command_of(alloc: Global, asked: StatedCommand, sigs: &Sigs) -> Result<Command, AuditError>
    ensures gives { Commands sigs.now asked result }
    ensures memory { result ≡ Err AuditError.Memory → IsTrue (is_load_line asked) }
{
    match asked {
        StatedCommand::Plain(command) => Ok(command),
        StatedCommand::Load(load) => {
            let program = match program_of(alloc, &load, sigs) {
                Ok(program) => program,
                Err(error) => return Err(error),
            };
            Ok(Command::Load(Load {
                milestone: load.milestone,
                kind: load.kind,
                program,
            }))
        }
    }
}

// Plans a command with the answers of a list, and judges what would come of it.
fn judge_command(
    core: &Core,
    role: Role,
    moment: u32,
    command: &Command,
    answers: &[u64],
    outcome: u64,
) -> Result<Plan, AuditError>
    ensures judges { (sigs : List (ℕ × Promise)) (J : History) → IsLegal sigs J →
        core.now ≡ replay sigs J →
        PlansCommand sigs J role moment command.now answers.now outcome core.now result }
    ensures memory { result ≡ Err AuditError.Memory → (sigs : List (ℕ × Promise)) (J : History)
        → IsLegal sigs J → core.now ≡ replay sigs J
        → IsTrue (needs_memory sigs J role command.now) }
    ensures fits { IfOk result (λ p. Fits core.now p.change) }
    ensures sigs { IfOk result (λ p.
        (after_change core.now p.change).slots.sigs ≡ core.now.slots.sigs) }
{
    let Ok(plan) = plan_with(core, role, moment, command, answers) else {
        return Err(AuditError::Memory);
    };
    let Some(plan) = plan else {
        return Err(AuditError::Faulty(Clause::Answers));
    };
    if code_of(plan.outcome.verdict()) != outcome {
        return Err(AuditError::Faulty(Clause::Outcome));
    }
    Ok(plan)
}

/// The entry that a line of a journal tells of, and what it does to the board of the entries before
/// it.
#[derive(Drop)]
pub struct PlannedEntry {
    pub entry: Entry,
    pub plan: Plan,
}

/// Judges the next line of a journal, by the board of the entries before it, which stays as it is:
/// the entry that the line tells of, and what `Core::commit` has to do on that board. The line
/// stands without its line feed, and is number `number`, from 0; programs are checked against these
/// signatures.
///
/// `Faulty` with the first clause that the entry breaks, in the order of their numbers; the answers
/// are judged by the outcome that the entries before it give, whatever the line says of it.
/// `Memory` where there was no room, which is asked for to read the answers of a line or the
/// program of a load, and for the list of alerts or the migrate of an entry with the right number.
pub fn plan_line(
    alloc: Global,
    core: &Core,
    sigs: &Sigs,
    number: u64,
    line: &[u8],
) -> Result<PlannedEntry, AuditError>
    requires { core.now.slots.sigs ≡ sigs.now }
    ensures plans { (J : History) → IsLegal sigs.now J → length J ≡ number →
        core.now ≡ replay sigs.now J → PlansLine sigs.now J line.now core.now result }
    ensures memory { result ≡ Err AuditError.Memory → (J : History) → IsLegal sigs.now J
        → length J ≡ number → core.now ≡ replay sigs.now J → JudgingNeedsMemory J line.now }
    ensures fits { IfOk result (λ n. Fits core.now n.plan.change) }
    ensures sigs { IfOk result (λ n.
        (after_change core.now n.plan.change).slots.sigs ≡ core.now.slots.sigs) }
{
    let stated = match read_line(alloc, line) {
        Ok(stated) => stated,
        Err(ReadError::Memory) => return Err(AuditError::Memory),
        Err(ReadError::Unreadable) => return Err(AuditError::Faulty(Clause::Unreadable)),
    };
    if stated.number != number {
        return Err(AuditError::Faulty(Clause::Number));
    }
    let command = match command_of(alloc, stated.asked, sigs) {
        Ok(command) => command,
        Err(error) => return Err(error),
    };
    let judged = judge_command(
        core,
        stated.role,
        stated.moment,
        &command,
        stated.answers.as_slice(),
        stated.outcome,
    );
    let plan = match judged {
        Ok(plan) => plan,
        Err(error) => return Err(error),
    };
    let entry = Entry {
        number: stated.number,
        session: stated.session,
        role: stated.role,
        moment: stated.moment,
        command,
        verdict: plan.outcome.verdict(),
        answers: stated.answers,
    };
    Ok(PlannedEntry { entry, plan })
}

/// Judges the next line of a journal, as `plan_line` does, by the board of the entries before it,
/// which then is the board with its entry too. After an error the board is as it was.
pub fn judge_line(
    alloc: Global,
    core: &mut Core,
    sigs: &Sigs,
    number: u64,
    line: &[u8],
) -> Result<(), AuditError>
    requires { core.old.slots.sigs ≡ sigs.now }
    ensures judges { (J : History) → IsLegal sigs.now J → length J ≡ number →
        core.old ≡ replay sigs.now J → Judges sigs.now J line.now core.new result }
    ensures memory { result ≡ Err AuditError.Memory → (J : History) → IsLegal sigs.now J
        → length J ≡ number → core.old ≡ replay sigs.now J → JudgingNeedsMemory J line.now }
    ensures sigs { core.new.slots.sigs ≡ core.old.slots.sigs }
    ensures kept { OnErr result (core.new ≡ core.old) }
{
    let next = match plan_line(alloc, core, sigs, number, line) {
        Ok(next) => next,
        Err(error) => return Err(error),
    };
    core.commit(next.plan);
    Ok(())
}
