//! How a file takes the place of another.
ghost use Rattle.std.specs.Prelude.{List, Option};
ghost use Rattle.acdm_keeping.specs.Settled.{SettlesInOrder, Step, Steps};
ghost use Rattle.acdm_keeping.specs.Settled.{Contents, Name, Folder};

use std::io;

/// A file that was written beside another one. Clauses know the steps that were taken, where that is known.
pub(crate) trait Settling {
    ghost done: { Self → Option (List Step) };

    /// Has its bytes on the disk.
    fn sync_contents(&mut self) -> io::Result<()>
        ensures { Steps (done self.old) (done self.new) Contents result };

    /// Gives it the name of the other one.
    fn rename(&mut self) -> io::Result<()>
        ensures { Steps (done self.old) (done self.new) Name result };

    /// Has its name on the disk.
    fn sync_folder(&mut self) -> io::Result<()>
        ensures { Steps (done self.old) (done self.new) Folder result };
}

/// Puts a file in its place: it has no name there before its bytes stand on the disk.
pub(crate) fn settle<S: Settling>(file: &mut S) -> io::Result<()>
    ensures { SettlesInOrder (S.done file.old) (S.done file.new) result }
{
    match file.sync_contents() {
        Ok(()) => {}
        Err(error) => return Err(error),
    }
    match file.rename() {
        Ok(()) => {}
        Err(error) => return Err(error),
    }
    match file.sync_folder() {
        Ok(()) => Ok(()),
        Err(error) => Err(error),
    }
}
