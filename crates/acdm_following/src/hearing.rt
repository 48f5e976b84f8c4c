//! The reading of a connection.
ghost use Rattle.std.specs.Prelude.{◌≡◌, ◌<◌, ◌-◌, ◌^◌, [], IfOk};
ghost use Rattle.acdm_following.specs.Hearing.{Hears};

use crate::first_board::Parting;
use crate::pending::Pending;
use acdm_failures::Failure;
use acdm_lines::{Source, Window};
use std::alloc::{AllocError, Global};
use std::io::Read;

/// What was read of a connection and is still to be taken, and the memory for one read.
#[derive(Drop)]
pub(crate) struct Gathering {
    window: Window,
    pub(crate) pending: Pending,
}

impl Gathering {
    /// Nothing was read yet. `Err` only where memory was refused.
    pub(crate) fn new(alloc: Global) -> Result<Gathering, AllocError>
        ensures { IfOk result (λ h. h.pending ≡ []) }
    {
        let window = Window::new(alloc)?;
        Ok(Gathering {
            window,
            pending: Pending::new(alloc),
        })
    }

    /// Reads once. Says whether anything came; else the connection has ended.
    ///
    /// `Read` where it failed, `Failed(Memory)` where there is no room for what came.
    pub(crate) fn hear<R: Read>(&mut self, source: &mut Source<R>) -> Result<bool, Parting>
        requires reads { source.old.faults < 2 ^ 64 - 1 }
        ensures hears { Hears source.old source.new self.old.pending self.new.pending result }
    {
        match self.window.fill(source) {
            Ok(()) => {}
            Err(_) => return Err(Parting::Read),
        }
        if self.window.as_slice().is_empty() {
            return Ok(false);
        }
        match self.pending.add(self.window.as_slice()) {
            Ok(()) => Ok(true),
            Err(_) => Err(Parting::Failed(Failure::Memory)),
        }
    }
}
