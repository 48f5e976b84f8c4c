//! A file whose bytes may be had on the disk.
ghost use Rattle.std.specs.Prelude.{◌≡◌, List, ℕ, Option, None, OnOk};
ghost use Rattle.std.specs.Io.KnownBytes.{Keeps};

use std::fs::File;
use std::io::{self, Write};

/// A writer whose bytes may be had on the disk. Clauses know what it holds, as of each writer of which that is
/// known, and what of that stands `on_disk`, whatever becomes of the machine.
pub trait Disk: Write {
    ghost on_disk: { Self → Option (List ℕ) };

    /// Returns once all that was written stands on the disk.
    fn sync(&mut self) -> io::Result<()>
        ensures bytes { Keeps (Self.contents self.old) (Self.contents self.new) }
        ensures synced { OnOk result (on_disk self.new ≡ Self.contents self.new) };
}

impl Disk for File {
    ghost on_disk = { λ _. None };

    fn sync(&mut self) -> io::Result<()> {
        self.sync_data()
    }
}
