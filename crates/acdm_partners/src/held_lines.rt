//! Lines that wait to be written, of which so many bytes are held at most.
ghost use Rattle.std.specs.Prelude.{◌≡◌, ◌≤◌, [], IfOk, string_bytes, string_capacity};
ghost use Rattle.acdm_partners.specs.HeldLines.{HeldView, IsEmptyRoom, held_after, most_held};

use std::alloc::{AllocError, Global};
use std::marker::Model;
use std::mem;

/// How many bytes of lines are held at most.
pub(crate) const MOST_HELD: usize = 65_536;

/// Lines that wait, and how many were dropped for want of room since they were taken last. What it may hold
/// it has the memory for.
#[derive(Drop)]
pub(crate) struct HeldLines {
    text: String,
    dropped: u64,
    ghost room: { most_held ≤ string_capacity text },
}

impl Model for HeldLines {
    ghost use Rattle.std.specs.Prelude.{string_bytes};
    ghost use Rattle.acdm_partners.specs.HeldLines.{HeldView};

    ghost Value = { HeldView };

    ghost view = { λ h. record { text = string_bytes h.text; dropped = h.dropped } };
}

/// A text without bytes, with the room for all that is held.
#[derive(Drop)]
pub(crate) struct EmptyRoom {
    pub(crate) text: String,
    ghost room: { IsEmptyRoom text },
}

impl EmptyRoom {
    /// `Err` only where memory was refused.
    pub(crate) fn new(alloc: Global) -> Result<EmptyRoom, AllocError> {
        let text = String::with_capacity(alloc, MOST_HELD)?;
        Ok(EmptyRoom { text })
    }
}

impl HeldLines {
    /// No line. `Err` only where memory was refused.
    pub(crate) fn new(alloc: Global) -> Result<HeldLines, AllocError>
        ensures { IfOk result (λ h. h ≡ record { text = []; dropped = 0 }) }
    {
        let EmptyRoom { text } = EmptyRoom::new(alloc)?;
        Ok(HeldLines { text, dropped: 0 })
    }

    /// Holds a line, which ends with its line feed, or drops it where there is no room.
    pub(crate) fn add(&mut self, line: &str)
        ensures { self.new ≡ held_after self.old line.now }
    {
        if line.len() > MOST_HELD || self.text.len() > MOST_HELD - line.len() {
            self.dropped = self.dropped.saturating_add(1);
            return;
        }
        match self.text.push_str(line) {
            Ok(()) => {}
            Err(_) => unreachable!(),
        }
    }

    /// Takes what waits, for an empty text, and says how many lines were dropped behind it.
    pub(crate) fn take(&mut self, text: &mut String) -> u64
        requires room { IsEmptyRoom text.old }
        ensures text { string_bytes text.new ≡ self.old.text }
        ensures room { most_held ≤ string_capacity text.new }
        ensures dropped { result ≡ self.old.dropped }
        ensures empty { self.new ≡ record { text = []; dropped = 0 } }
    {
        mem::swap(&mut self.text, text);
        mem::replace(&mut self.dropped, 0)
    }
}
