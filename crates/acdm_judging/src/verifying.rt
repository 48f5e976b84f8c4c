//! The command `verify`, over the reader and the writers that it is handed.
ghost use Rattle.std.specs.Prelude.{◌≡◌, ◌++◌, [], ◌∷◌, codes, length, IfOk, IfErr, OnOk};
ghost use Rattle.std.specs.Fmt.{decimal};
ghost use Rattle.acdm_failures.specs.Failures.{EndsBy};
ghost use Rattle.acdm_tables.specs.Helpers.{helpers_by};
ghost use Rattle.acdm_judging.specs.Verdicts.{IsVerdict, Judges, Verifies, slots_text, status_of};
ghost use Rattle.acdm_judging.specs.Verdicts.{verdict_text};
ghost use Rattle.acdm_failures.specs.declared.failure.Failure.TheVariants.{Memory};

use crate::bytes::{BytesError, MOST_BYTES, bytes_of};
use acdm_failures::{Failure, ended};
use acdm_lines::{Sink, Source};
use acdm_tables::{Tables, known_sigs};
use acdm_wire::write_out;
use bpf_decode::{Program, line};
use bpf_helpers::Sigs;
use bpf_regstate::Length;
use bpf_verifier::{Checked, ProgramError, read_program};
use std::alloc::Global;
use std::io::{self, Read, Write};

/// What is told of the bytes of a program.
#[derive(Drop)]
pub enum ProgramVerdict {
    /// They encode this program, which may run.
    Accepted(Checked),
    /// The number of their first fault, 301 to 315, and its slot, counted from 0.
    Refused { code: u16, slot: usize },
}

impl ProgramVerdict {
    /// The status of the command.
    fn status(&self) -> u8
        ensures { result ≡ status_of self.now }
    {
        match self {
            ProgramVerdict::Accepted(_) => 0,
            ProgramVerdict::Refused { .. } => 1,
        }
    }
}

/// Lists the program that a reader's bytes encode, one line for each slot, and then its slots, if
/// it may run with the known helpers by these tables beside records of this length; else tells its first fault.
///
/// The status is 0 for a program that is accepted and 1 for one that is refused, else 2, with a
/// line on the errors' writer.
pub fn verify_on<R: Read, W: Write, E: Write>(
    alloc: Global,
    tables: &Tables,
    length: Length,
    reader: &mut Source<R>,
    writer: &mut Sink<W>,
    errors: &mut Sink<E>,
) -> u8
    ensures { EndsBy (Verifies (helpers_by tables.now) length reader.old reader.new writer.old writer.new) result
        errors.old errors.new }
{
    ended(judge(alloc, tables, length, reader, writer), errors)
}

// Writes the verdict, and answers the status.
fn judge<R: Read, W: Write>(
    alloc: Global,
    tables: &Tables,
    length: Length,
    reader: &mut Source<R>,
    writer: &mut Sink<W>,
) -> Result<u8, Failure>
    ensures { Verifies (helpers_by tables.now) length reader.old reader.new writer.old writer.new result }
{
    let verdict = verdict_of(alloc, tables, length, reader)?;
    let text = text_of(alloc, &verdict)?;
    match write_out(writer, text.as_slice()) {
        Ok(()) => Ok(verdict.status()),
        Err(_) => Err(Failure::Write),
    }
}

// The verdict on the bytes that a reader gives.
fn verdict_of<R: Read>(
    alloc: Global,
    tables: &Tables,
    length: Length,
    reader: &mut Source<R>,
) -> Result<ProgramVerdict, Failure>
    ensures { Judges (helpers_by tables.now) length reader.old reader.new result }
{
    let bytes = match bytes_of(alloc, reader, MOST_BYTES) {
        Ok(bytes) => bytes,
        Err(BytesError::Read(_)) => return Err(Failure::Read),
        Err(BytesError::Memory) => return Err(Failure::Memory),
    };
    let sigs = known_sigs(alloc, tables)?;
    verdict_on(alloc, bytes.as_slice(), &sigs, length)
}

/// The verdict on these bytes under these signatures, beside records of this length. `Err` only
/// where there was no memory.
pub(crate) fn verdict_on(
    alloc: Global,
    bytes: &[u8],
    sigs: &Sigs,
    length: Length,
) -> Result<ProgramVerdict, Failure>
    ensures verdict { IfOk result (IsVerdict sigs.now length bytes.now) }
    ensures memory { IfErr result (λ failure. failure ≡ Memory) }
{
    match read_program(alloc, bytes, sigs, length) {
        Ok(checked) => Ok(ProgramVerdict::Accepted(checked)),
        Err(ProgramError::Refused { code, slot }) => Ok(ProgramVerdict::Refused { code, slot }),
        Err(ProgramError::Memory) => Err(Failure::Memory),
    }
}

// How a verdict is told.
fn text_of(alloc: Global, verdict: &ProgramVerdict) -> Result<Vec<u8>, Failure>
    ensures text { IfOk result (λ text. text.items ≡ verdict_text verdict.now) }
    ensures memory { IfErr result (λ failure. failure ≡ Memory) }
{
    let mut text = Vec::new(alloc);
    let written = match verdict {
        ProgramVerdict::Accepted(checked) => list(checked.program(), &mut text),
        ProgramVerdict::Refused { code, slot } => writeln!(text, "refused {code} {slot}"),
    };
    // A text in memory is written unless there is none.
    match written {
        Ok(()) => Ok(text),
        Err(_) => Err(Failure::Memory),
    }
}

// Adds the lines of a program that is accepted.
fn list(program: &Program, text: &mut Vec<u8>) -> io::Result<()>
    ensures { OnOk result (text.new.items ≡ text.old.items ++ (slots_text 0 program.now
        ++ codes "accepted " ++ decimal (length program.now) ++ 10 ∷ [])) }
{
    let slots = list_slots(program, text)?;
    writeln!(text, "accepted {slots}")
}

// Adds the line of each slot, and says how many there are.
fn list_slots(program: &Program, text: &mut Vec<u8>) -> io::Result<usize>
    ensures lines { OnOk result
        (text.new.items ≡ text.old.items ++ slots_text 0 program.now) }
    ensures count { IfOk result (λ slots. slots ≡ length program.now) }
{
    let slots = program.slot_count();
    let mut slot = 0;
    while slot < slots {
        line(program, slot, text)?;
        text.push(b'\n')?;
        slot += 1;
    }
    Ok(slots)
}
