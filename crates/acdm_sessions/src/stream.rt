//! From a reader to a writer.
ghost use Rattle.std.specs.Prelude.{◌≡◌, ◌-◌, ◌^◌, ◌<◌, true, length};
ghost use Rattle.acdm_sessions.specs.Announced.{TellsMade, numbers_to};
ghost use Rattle.acdm_sessions.specs.Run.{serving_desk};
ghost use Rattle.acdm_sessions.specs.Stream.{AnswersLine, AnswersLines, serving_by};

use crate::announcer::{Aloud, Announcer};
use crate::answerer::Answerer;
use crate::next::next_line;
use crate::reply::{let_go, write_reply};
use acdm_board::Desk;
use acdm_lines::{Ending, Lines, ReplyWriter, RunError, Sink, Source};
use acdm_wire::LONGEST_REQUEST;
use bpf_helpers::Helpers;
use std::alloc::Global;
use std::io::{Read, Write};

// One byte more than the longest line has, so that a longer one is told by what is kept of it.
pub(crate) const MOST_KEPT: usize = LONGEST_REQUEST + 1;

// A writer to which any reply may be written at once is told nothing.
struct Silent;

impl<W: Write> Announcer<W> for Silent {
    ghost use Rattle.std.specs.Prelude.{false};

    ghost tells = { λ _ _. Unit {0} };

    ghost is_told = { false };

    fn announce(_writer: &mut Sink<W>, _number: u64) {}
}

// Answers one line. The writer is not flushed.
fn serve_line<W: Write, A: Answerer, N: Announcer<W>>(
    alloc: Global,
    line: &[u8],
    writer: &mut Sink<W>,
    who: &mut A,
) -> Result<(), RunError>
    ensures line { AnswersLine A.may writer.old writer.new who.old who.new line.now result }
    ensures told { N.is_told ≡ true →
        TellsMade (A.made who.old) (A.made who.new) writer.old.told writer.new.told }
{
    let answer = who.answer(alloc, line);
    write_reply::<W, N>(writer, &answer)?;
    who.replied();
    Ok(())
}

/// Answers each line that is read, at once, until the input ends. Each reply is written and flushed
/// before more is read, and when all is answered. The errors are those of `run`.
pub(crate) fn serve_lines<R: Read, W: Write, A: Answerer, N: Announcer<W>>(
    alloc: Global,
    reader: &mut Source<R>,
    writer: &mut Sink<W>,
    who: &mut A,
) -> Result<(), RunError>
    requires reads { reader.old.faults < 2 ^ 64 - 1 }
    requires writes { writer.old.faults < 2 ^ 64 - 1 }
    ensures lines { AnswersLines (serving_by A.may) reader.old reader.new writer.old writer.new who.old who.new
        result }
    ensures told { N.is_told ≡ true →
        TellsMade (A.made who.old) (A.made who.new) writer.old.told writer.new.told }
{
    let Ok(mut lines) = Lines::<MOST_KEPT>::new(alloc) else {
        return Err(RunError::Memory);
    };
    while let Ending::LineFeed = next_line(&mut lines, reader, writer)? {
        serve_line::<W, A, N>(alloc, lines.line.as_slice(), writer, who)?;
    }
    if lines.line.as_slice().is_empty() {
        return Ok(());
    }
    serve_line::<W, A, N>(alloc, lines.line.as_slice(), writer, who)?;
    let_go(writer)?;
    Ok(())
}

/// Answers each line that is read, at once, until the input ends.
///
/// A line is `SESSION MINUTE ROLE JSON`: a session from 1 to 64, a minute since 1970-01-01T00:00Z
/// from 1 to 4,294,967,295, a role's name, and JSON (RFC 8259). Its reply is `ok N` or `no N CODE`
/// with the number of its entry, or `bad CODE` where it makes none (this project's profile), and
/// `bad CODE SLOT` where it loads a program that is not accepted under the desk's signatures. Lines
/// are cut at each line feed, and a last one may lack it. Each reply is written before the next line
/// is answered, and no byte of one waits for a flush when more is read, nor when the input has
/// ended. A line of more than 70,000 bytes takes no more memory than one of them.
///
/// `Read` where the reader failed, or where 2^40 reads did not reach its end; `Write` where the
/// writer failed; `Memory` where there was no room for the buffers and the passes that a run begins
/// with, and then nothing was read.
pub fn run<R: Read, W: Write, H: Helpers + Drop>(
    alloc: Global,
    reader: &mut Source<R>,
    writer: &mut Sink<W>,
    desk: &mut Desk<H>,
) -> Result<(), RunError>
    requires reads { reader.old.faults < 2 ^ 64 - 1 }
    requires writes { writer.old.faults < 2 ^ 64 - 1 }
    ensures { AnswersLines serving_desk reader.old reader.new writer.old writer.new desk.old desk.new
        result }
{
    match desk.keep_passes() {
        Ok(()) => serve_lines::<R, W, Desk<H>, Silent>(alloc, reader, writer, desk),
        Err(_) => Err(RunError::Memory),
    }
}

/// Answers each line as `run` does, on a writer that is told of which entry a reply tells before it takes the reply.
/// The errors are those of `run`.
pub fn run_announced<R: Read, W: ReplyWriter, H: Helpers + Drop>(
    alloc: Global,
    reader: &mut Source<R>,
    writer: &mut Sink<W>,
    desk: &mut Desk<H>,
) -> Result<(), RunError>
    requires reads { reader.old.faults < 2 ^ 64 - 1 }
    requires writes { writer.old.faults < 2 ^ 64 - 1 }
    ensures lines { AnswersLines serving_desk reader.old reader.new writer.old writer.new desk.old desk.new
        result }

    // The writer was told of each entry that was made, in order, before it took the reply.
    ensures told { TellsMade (numbers_to (length desk.old.history)) (numbers_to (length desk.new.history))
        writer.old.told writer.new.told }
{
    match desk.keep_passes() {
        Ok(()) => serve_lines::<R, W, Desk<H>, Aloud>(alloc, reader, writer, desk),
        Err(_) => Err(RunError::Memory),
    }
}
