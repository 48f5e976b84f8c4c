//! What is told of a journal while it is read.
ghost use Rattle.std.specs.Prelude.{◌≡◌, [], IfOk};
ghost use Rattle.acdm_step.specs.History.{replay};
ghost use Rattle.acdm_feed.specs.Knowing.{Knows};
ghost use Rattle.acdm_telling.specs.Told.{WritesMany};

use acdm_feed::{Known, push_line};
use acdm_journal::{JournalUse, PlannedEntry};
use acdm_lines::{RunError, Sink};
use acdm_step::Core;
use acdm_wire::write_out;
use bpf_helpers::Sigs;
use std::alloc::{AllocError, Global};
use std::io::Write;

/// How many bytes of lines are gathered until they are written.
const BUFFER: usize = 65_536;

/// Why no more of a journal is told.
#[derive(Clone, Copy)]
pub enum Stop {
    /// The writer failed.
    Write,
    /// There was no memory.
    Memory,
}

/// What stands after the entries of a journal that were told: the board, what is known of it, and the
/// lines that were not written yet.
#[derive(Drop)]
pub struct Judged {
    pub(crate) core: Core,
    pub(crate) known: Known,
    pub(crate) text: Vec<u8>,
}

impl Judged {
    /// That of no entry.
    pub fn new(alloc: Global, sigs: Sigs) -> Result<Judged, AllocError>
        ensures board { IfOk result (λ judged. judged.core ≡ replay sigs []) }
        ensures known { IfOk result (λ judged. Knows [] judged.known) }
        ensures text { IfOk result (λ judged. judged.text.items ≡ []) }
    {
        let core = Core::new(alloc, sigs)?;
        Ok(Judged {
            core,
            known: Known::new(alloc),
            text: Vec::new(alloc),
        })
    }
}

impl<W: Write> JournalUse<Sink<W>> for Judged {
    ghost use Rattle.acdm_telling.specs.Telling.{HasTold, StopsTelling};

    type Stop = Stop;

    ghost sigs = { λ judged _. judged.core.slots.sigs };

    ghost has = { λ first start judged writer J.
        HasTold first.core.slots.sigs J judged start writer };

    ghost stops = { λ first start _ writer _ stop.
        StopsTelling first.core.slots.sigs start writer stop };

    fn board<'a>(&'a self, _writer: &'a Sink<W>) -> &'a Core {
        &self.core
    }

    // Adds the line of the feed for the entry, and writes all that were gathered where they are many.
    fn take(&mut self, writer: &mut Sink<W>, _line: &[u8], next: PlannedEntry) -> Result<(), Stop> {
        let PlannedEntry { entry, plan } = next;
        self.core.commit(plan);
        let Ok(()) = push_line(&mut self.text, &self.known, &self.core, &entry) else {
            return Err(Stop::Memory);
        };
        let Ok(()) = self.known.follow(&self.core, &entry) else {
            return Err(Stop::Memory);
        };
        match write_many(writer, &mut self.text) {
            Ok(()) => Ok(()),
            Err(_) => Err(Stop::Write),
        }
    }
}

// Writes the lines that were gathered, where they are many.
fn write_many<W: Write>(writer: &mut Sink<W>, text: &mut Vec<u8>) -> Result<(), RunError>
    ensures { WritesMany writer.old writer.new text.old.items text.new.items result }
{
    if text.len() < BUFFER {
        return Ok(());
    }
    write_out(writer, text.as_slice())?;
    text.clear();
    Ok(())
}
