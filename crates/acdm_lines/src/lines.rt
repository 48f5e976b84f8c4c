//! One line after another.
ghost use Rattle.std.specs.Prelude.{◌≡◌, ℕ, ◌<◌, ◌≤◌, true, false, List, [], ◌∷◌, ◌++◌, length, Some, IfOk};
ghost use Rattle.acdm_lines.specs.Lines.{IsLine, kept, most_held, weight};
ghost use Rattle.acdm_lines.specs.NextLine.{Advances, ReadsSoon, Takes, TakesWithin};

use crate::kept_line::KeptLine;
use crate::run_error::RunError;
use crate::source::Source;
use crate::window::Window;
use std::alloc::{AllocError, Global};
use std::io::Read;

// How many reads there are before an endless input counts as a fault.
const MOST_READS: u64 = 1 << 40;

/// What ended a line.
#[derive(Clone, Copy, Debug, PartialEq, Eq)]
pub enum Ending {
    LineFeed,
    Input,
}

/// What was read and not yet taken, and what is kept of the line that was taken last.
pub struct Lines<const MOST: usize> {
    pub window: Window,
    pub line: KeptLine<MOST>,
    pub reads_left: u64,
}

impl<const MOST: usize> Drop for Lines<MOST> {
    fn drop(self) {
        let Lines {
            window: _,
            line: _,
            reads_left: _,
        } = self;
    }
}

impl<const MOST: usize> Lines<MOST> {
    /// Nothing read, with room for a read and for a line.
    pub fn new(alloc: Global) -> Result<Lines<MOST>, AllocError>
        ensures window { IfOk result (λ l. l.window ≡ []) }
        ensures reads { IfOk result (λ l. l.reads_left ≡ 1099511627776) }
    {
        let window = Window::new(alloc)?;
        let line = KeptLine::new(alloc)?;
        Ok(Lines {
            window,
            line,
            reads_left: MOST_READS,
        })
    }

    /// Takes the bytes that are held, up to the first line feed. Says whether there was one.
    fn take_held(&mut self) -> bool
        ensures feed { result ≡ true → (part : List ℕ) × IsLine part
            × (self.old.window ≡ part ++ 10 ∷ self.new.window)
            × (self.new.line ≡ kept MOST (self.old.line ++ part)) }
        ensures all { result ≡ false → IsLine self.old.window × (self.new.window ≡ [])
            × (self.new.line ≡ kept MOST (self.old.line ++ self.old.window)) }
        ensures reads { self.new.reads_left ≡ self.old.reads_left }
        ensures fits { length self.old.window ≤ most_held }
    {
        match self.window.line_feed() {
            Some(end) => {
                self.line.add(&self.window.as_slice()[..end]);
                self.window.consume(end + 1);
                true
            }
            None => {
                self.line.add(self.window.as_slice());
                self.window.clear();
                false
            }
        }
    }

    // Whether a line is too long already, where that is asked for.
    fn is_long(&self, is_bounded: bool) -> bool
        ensures long { result ≡ true → (is_bounded ≡ true) × (length self.now.line ≡ MOST) }
        ensures short { result ≡ false → is_bounded ≡ true → length self.now.line < MOST }
    {
        is_bounded && self.line.is_full()
    }

    // Takes the next line, and says what ended it. Where that is asked for, none is taken that is too long:
    // so many bytes were read as are kept of one, and no line feed.
    fn advance<R: Read>(
        &mut self,
        reader: &mut Source<R>,
        is_bounded: bool,
    ) -> Result<Option<Ending>, RunError>
        ensures takes { Advances MOST is_bounded reader.old reader.new self.old self.new result }
        ensures progress { result ≡ Ok (Some Ending.LineFeed) → weight self.new.reads_left self.new.window
            < weight self.old.reads_left self.old.window }
        ensures soon { is_bounded ≡ true → ReadsSoon MOST reader.old reader.new self.old }
    {
        self.line.clear();
        while !self.take_held() {
            if self.is_long(is_bounded) {
                return Ok(None);
            }
            if self.reads_left == 0 {
                return Err(RunError::Read);
            }
            self.reads_left -= 1;
            self.window.fill(reader)?;
            if self.window.as_slice().is_empty() {
                return Ok(Some(Ending::Input));
            }
        }
        Ok(Some(Ending::LineFeed))
    }

    /// Takes the next line, and says what ended it. It reads only where no whole line is held.
    pub fn next<R: Read>(&mut self, reader: &mut Source<R>) -> Result<Ending, RunError>
        ensures takes { Takes MOST reader.old reader.new self.old self.new result }
        ensures progress { result ≡ Ok Ending.LineFeed → weight self.new.reads_left self.new.window
            < weight self.old.reads_left self.old.window }
    {
        match self.advance(reader, false) {
            Ok(Some(ending)) => Ok(ending),
            Ok(None) => unreachable!(),
            Err(error) => Err(error),
        }
    }

    /// Takes the next line as `next` does, and says whether a line feed ended it. Else the input has
    /// ended, or `MOST` bytes of a line were read, and no line feed among them: behind that many bytes
    /// it reads no more.
    pub fn next_within<R: Read>(&mut self, reader: &mut Source<R>) -> Result<bool, RunError>
        ensures takes { TakesWithin MOST reader.old reader.new self.old self.new result }
        ensures progress { result ≡ Ok true → weight self.new.reads_left self.new.window
            < weight self.old.reads_left self.old.window }
        ensures soon { ReadsSoon MOST reader.old reader.new self.old }
    {
        match self.advance(reader, true) {
            Ok(Some(Ending::LineFeed)) => Ok(true),
            Ok(_) => Ok(false),
            Err(error) => Err(error),
        }
    }
}
