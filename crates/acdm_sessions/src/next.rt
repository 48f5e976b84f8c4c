//! The next line, before which replies are let go.
ghost use Rattle.std.specs.Prelude.{◌≡◌, ◌⊎◌, ◌<◌, ℕ, true, false, List, ◌∷◌, ◌++◌, Ok, Err};
ghost use Rattle.std.specs.Prelude.{OnOk};
ghost use Rattle.acdm_lines.specs.Counted.{faults_after};
ghost use Rattle.acdm_lines.specs.Lines.{IsLine, weight};
ghost use Rattle.acdm_lines.specs.NextLine.{Takes, TakesPart};
ghost use Rattle.acdm_sessions.specs.Stream.{kept};

use crate::reply::let_go;
use crate::stream::MOST_KEPT;
use acdm_lines::{Ending, Lines, RunError, Sink, Source};
use std::io::{Read, Write};

// Takes a line that is held whole. Says whether there was one.
fn take_whole(lines: &mut Lines<MOST_KEPT>) -> bool
    ensures taken { result ≡ true → (line : List ℕ) × IsLine line
        × (lines.old.window ≡ line ++ 10 ∷ lines.new.window) × (lines.new.line ≡ kept line) }
    ensures reads { lines.new.reads_left ≡ lines.old.reads_left }
    ensures same { result ≡ false → lines.new ≡ lines.old }
    ensures held { result ≡ false → IsLine lines.old.window }
{
    match lines.window.line_feed() {
        Some(end) => {
            lines.line.clear();
            lines.line.add(&lines.window.as_slice()[..end]);
            lines.window.consume(end + 1);
            true
        }
        None => false,
    }
}

// Reads on to the end of a line, which is waited for: so no byte of a reply may wait.
fn read_line<R: Read, W: Write>(
    lines: &mut Lines<MOST_KEPT>,
    reader: &mut Source<R>,
    _writer: &Sink<W>,
) -> Result<Ending, RunError>
    requires quiet { _writer.now.waits ≡ false }
    ensures takes { Takes MOST_KEPT reader.old reader.new lines.old lines.new result }
    ensures progress { result ≡ Ok Ending.LineFeed →
        weight lines.new.reads_left lines.new.window < weight lines.old.reads_left lines.old.window }
{
    lines.next(reader)
}

/// Takes the next line, and says what ended it. It reads only where no whole line is held, and
/// before it reads it lets the replies go that wait.
///
/// `Read` where no line could be read; `Write` where the replies could not be let go, and then
/// nothing was read or taken.
pub(crate) fn next_line<R: Read, W: Write>(
    lines: &mut Lines<MOST_KEPT>,
    reader: &mut Source<R>,
    writer: &mut Sink<W>,
) -> Result<Ending, RunError>
    ensures takes { OnOk result (Takes MOST_KEPT reader.old reader.new lines.old lines.new result) }
    ensures progress { result ≡ Ok Ending.LineFeed →
        weight lines.new.reads_left lines.new.window < weight lines.old.reads_left lines.old.window }

    // No byte of a reply waits where the reader was read.
    ensures quiet { (reader.new ≡ reader.old) ⊎ (writer.new.waits ≡ false) }
    ensures quiet_end { result ≡ Ok Ending.Input → writer.new.waits ≡ false }
    ensures quiet_fault { result ≡ Err RunError.Read → writer.new.waits ≡ false }
    ensures log { writer.new.log ≡ writer.old.log }
    ensures first { writer.new.first ≡ writer.old.first }
    ensures told { writer.new.told ≡ writer.old.told }
    ensures well { OnOk result (writer.new.faults ≡ writer.old.faults) }

    ensures read { result ≡ Err RunError.Read →
        TakesPart MOST_KEPT reader.old reader.new lines.old lines.new RunError.Read }
    ensures read_alone { result ≡ Err RunError.Read → writer.new.faults ≡ writer.old.faults }
    ensures write { result ≡ Err RunError.Write →
        writer.new.faults ≡ faults_after true writer.old.faults }
    ensures unread { result ≡ Err RunError.Write → reader.new ≡ reader.old }
    ensures untaken { result ≡ Err RunError.Write → lines.new ≡ lines.old }
    ensures held { result ≡ Err RunError.Write → IsLine lines.old.window }
    ensures no_memory { result ≡ Err RunError.Memory → ⊥ }
{
    if take_whole(lines) {
        return Ok(Ending::LineFeed);
    }
    let_go(writer)?;
    read_line(lines, reader, writer)
}
