//! The file in which a journal is kept, as a writer.
ghost use Rattle.std.specs.Prelude.{◌≡◌, true, OnOk};
ghost use Rattle.std.specs.Io.KnownBytes.{Keeps};

use crate::disk::Disk;
use crate::named::{Named, Paths, changed};
use std::fs::File;
use std::io::{self, ErrorKind, Write};

/// A file as a writer. Where it is synced, a flush returns once what was written stands on the disk. A flush
/// fails where the path of the file does not lead to it any more, or where the file has another length than it
/// had with all that was written: somebody has removed, renamed, replaced, cut or lengthened it. Why a write or a
/// flush failed first is known by its name.
pub struct Synced<Rt: Drop> {
    rt: Rt,
    file: File,
    named: Named,
    is_synced: bool,
}

impl<Rt: Drop> Drop for Synced<Rt> {
    fn drop(self) {
        let Synced {
            rt: _,
            file: _,
            named: _,
            is_synced: _,
        } = self;
    }
}

impl<Rt: Paths + Drop> Synced<Rt> {
    /// This file, which has this name, and whether a flush waits for the disk.
    pub fn new(rt: Rt, file: File, named: Named, is_synced: bool) -> Synced<Rt>
        ensures file { result.file ≡ file }
        ensures synced { result.is_synced ≡ is_synced }
    {
        Synced {
            rt,
            file,
            named,
            is_synced,
        }
    }
}

// Has what was written on the disk, where that is asked for.
fn settle<D: Disk>(file: &mut D, is_synced: bool) -> io::Result<()>
    ensures bytes { Keeps (D.contents file.old) (D.contents file.new) }
    ensures synced { OnOk result (is_synced ≡ true → D.on_disk file.new ≡ D.contents file.new) }
{
    if is_synced {
        return file.sync();
    }
    Ok(())
}

// Has what was written on the disk, where that is asked for, and looks whether the file is as it was written.
fn settle_as_written<Rt: Paths>(
    rt: &Rt,
    file: &mut File,
    named: &Named,
    is_synced: bool,
) -> io::Result<()> {
    settle(file, is_synced)?;
    if named.is_as_written(rt) {
        return Ok(());
    }
    Err(changed())
}

impl<Rt: Paths + Drop> Write for Synced<Rt> {
    fn write(&mut self, buf: &[u8]) -> io::Result<usize> {
        match self.file.write(buf) {
            Ok(count) => {
                self.named.add(count);
                Ok(count)
            }
            // (it is made once more)
            Err(error) if error.kind() == ErrorKind::Interrupted => Err(error),
            Err(error) => {
                self.named.fail(&error);
                Err(error)
            }
        }
    }

    fn flush(&mut self) -> io::Result<()> {
        let settled = settle_as_written(&self.rt, &mut self.file, &self.named, self.is_synced);
        if let Err(error) = settled {
            self.named.fail(&error);
        }
        settled
    }
}
