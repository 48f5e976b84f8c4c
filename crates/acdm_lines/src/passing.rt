//! Failures of a read or a write that pass by themselves.
ghost use Rattle.std.specs.Prelude.{◌↔◌, IsTrue};
ghost use Rattle.std.specs.IoError.{error_kind};
ghost use Rattle.acdm_lines.specs.Passing.{IsPassing};

use std::io::{self, ErrorKind};

/// Whether a call that failed so is made once more: nothing came in its time, or a signal came in between.
pub fn is_passing(error: &io::Error) -> bool
    ensures { IsTrue result ↔ IsPassing (error_kind error.now) }
{
    error.kind() == ErrorKind::WouldBlock || error.kind() == ErrorKind::Interrupted
}
