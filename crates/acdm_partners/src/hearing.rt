//! The whole lines of connections, one after the other.
ghost use Rattle.std.specs.Prelude.{◌≡◌, ◌<◌, true, false, [], ◌∷◌, ◌++◌, IfOk, OnOk, OnErr};
ghost use Rattle.std.specs.Prelude.{is_some, vec_len, vec_capacity};
ghost use Rattle.acdm_partners.specs.Heard.{GoesOn, Leaves, TellsOn, heard, IsNothing};

use acdm_lines::{Ending, Lines, Source};
use std::alloc::{AllocError, Global};
use std::io::Read;
use std::marker::Model;
use std::snapshot::Snapshot;

/// The connection that is heard, if there is one, and its line that was taken last. Proofs know the
/// connections before.
#[derive(Drop)]
pub(crate) struct Hearing<R: Read + Drop, const MOST: usize> {
    current: Option<Source<R>>,
    lines: Lines<MOST>,
    past: Vec<Snapshot<Source<R>>>,
    ghost room: { is_some current ≡ true → vec_len past < vec_capacity past },
}

impl<R: Read + Drop, const MOST: usize> Model for Hearing<R, MOST> {
    ghost use Rattle.std.specs.Prelude.{map, ◌++◌, is_some};
    ghost use Rattle.acdm_partners.specs.Heard.{IsHeldOf, HearingView, text_of};

    ghost Value = { HearingView };

    ghost view = { λ h. record {
      texts = map (λ s. s.value.log) h.past.items ++ text_of h.current;
      is_open = is_some h.current;
      line = h.lines.line;
      held = h.lines.window;
    } };

    ghost invariant = { λ h. IsHeldOf h.current h.lines.window };
}

// Takes the next whole line of a connection. Says whether there was one; there is none any more then.
fn take_from<R: Read, const MOST: usize>(source: &mut Source<R>, lines: &mut Lines<MOST>) -> bool
    requires { Leaves source.old.log lines.old.window }
    ensures leaves { result ≡ true → Leaves source.new.log lines.new.window }
    ensures taken { result ≡ true → TellsOn MOST source.old.log lines.old.window source.new.log
        (lines.new.line ++ 10 ∷ []) lines.new.window }
    ensures over { result ≡ false → TellsOn MOST source.old.log lines.old.window source.new.log
        [] [] }
    ensures none { result ≡ false → lines.new.window ≡ [] }
{
    match lines.next(source) {
        Ok(Ending::LineFeed) => true,
        Ok(Ending::Input) => false,
        Err(_) => false,
    }
}

impl<R: Read + Drop, const MOST: usize> Hearing<R, MOST> {
    /// No connection yet. `Err` only where memory was refused.
    pub(crate) fn new(alloc: Global) -> Result<Hearing<R, MOST>, AllocError>
        ensures { IfOk result IsNothing }
    {
        let lines = Lines::new(alloc)?;
        Ok(Hearing {
            current: None,
            lines,
            past: Vec::new(alloc),
        })
    }

    /// What is kept of the line that was taken last.
    pub(crate) fn line(&self) -> &[u8]
        ensures { result.now ≡ self.now.line }
    {
        self.lines.line.as_slice()
    }

    /// Takes the next whole line of the connection that is heard. Says whether there was one. Where
    /// there is none any more no connection is heard then.
    pub(crate) fn take_line(&mut self) -> bool
        ensures taken { result ≡ true → GoesOn MOST (heard MOST self.old false 0)
            (heard MOST self.new true 0) [] }
        ensures over { result ≡ false → GoesOn MOST (heard MOST self.old false 0)
            (heard MOST self.new false 0) [] }
        ensures closed { result ≡ false → self.new.is_open ≡ false }
    {
        let Some(mut source) = self.current.take() else {
            return false;
        };
        if take_from(&mut source, &mut self.lines) {
            self.current = Some(source);
            return true;
        }
        self.past.push_reserved(Snapshot::of(&source));
        false
    }

    /// Begins with a connection. `Err` only where memory was refused.
    pub(crate) fn begin(&mut self, reader: R) -> Result<(), AllocError>
        requires closed { self.old.is_open ≡ false }
        ensures texts { OnOk result (self.new.texts ≡ self.old.texts ++ [] ∷ []) }
        ensures held { self.new.held ≡ self.old.held }
        ensures same { OnErr result (self.new.texts ≡ self.old.texts) }
    {
        self.past.reserve(1)?;
        self.current = Some(Source::new(reader));
        Ok(())
    }
}
