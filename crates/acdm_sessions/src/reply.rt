//! The reply to a line, as it is written and let go.
ghost use Rattle.std.specs.Prelude.{◌≡◌, true, false, Err, IfErr, OnOk};
ghost use Rattle.acdm_lines.specs.Counted.{faults_after};
ghost use Rattle.acdm_wire.specs.Writes.{Writes};
ghost use Rattle.acdm_sessions.specs.Announced.{once_told};
ghost use Rattle.acdm_sessions.specs.declared.answer.Answer.TheVariants.{Entered};
ghost use Rattle.acdm_sessions.specs.Output.{reply_text};

use crate::announcer::Announcer;
use crate::answer::Answer;
use acdm_board::Reply;
use acdm_lines::{RunError, Sink};
use acdm_wire::{write_entered, write_rejected};
use std::io::Write;

/// Writes the reply, once the writer was told of which entry it tells, if of any. The writer is not flushed.
pub(crate) fn write_reply<W: Write, N: Announcer<W>>(
    writer: &mut Sink<W>,
    answer: &Answer,
) -> Result<(), RunError>
    ensures { Writes (once_told N.is_told writer.old answer.now) writer.new (reply_text answer.now) result }
{
    match answer {
        Answer::Entered(reply) => {
            N::announce(writer, reply.number);
            write_announced::<W, N>(writer, reply)
        }
        Answer::Rejected(bad) => write_rejected(writer, *bad),
    }
}

// Writes the reply that tells of an entry, which was announced.
fn write_announced<W: Write, N: Announcer<W>>(
    writer: &mut Sink<W>,
    reply: &Reply,
) -> Result<(), RunError>
    requires announced { N.tells writer.old.inner reply.now.number }
    ensures { Writes writer.old writer.new (reply_text (Entered reply.now)) result }
{
    write_entered(writer, reply.number, &reply.outcome)
}

/// Lets the replies go that wait for a flush. `Write` where the flush fails.
pub(crate) fn let_go<W: Write>(writer: &mut Sink<W>) -> Result<(), RunError>
    ensures log { writer.new.log ≡ writer.old.log }
    ensures first { writer.new.first ≡ writer.old.first }
    ensures told { writer.new.told ≡ writer.old.told }
    ensures gone { OnOk result (writer.new.waits ≡ false) }
    ensures well { OnOk result (writer.new.faults ≡ writer.old.faults) }
    ensures kind { IfErr result (λ e. e ≡ RunError.Write) }
    ensures fault { result ≡ Err RunError.Write →
        writer.new.faults ≡ faults_after true writer.old.faults }
{
    if !writer.waits() {
        return Ok(());
    }
    match writer.flush() {
        Ok(()) => Ok(()),
        Err(_) => Err(RunError::Write),
    }
}
