//! The file in which a journal is kept.
ghost use Rattle.std.specs.Prelude.{◌≡◌};
ghost use Rattle.std.specs.IoError.{error_kind};

use crate::copying::copy_bytes;
use crate::replacement::{Replacement, is_special, leads_to, sync_folder};
use acdm_lines::{Sink, Source};
use std::alloc::Global;
use std::fs::{File, Files, OpenOptions, TryLockError};
use std::io::{self, ErrorKind, Seek, SeekFrom};
use std::os::unix::fs::{MetadataExt, fchown};

/// Opens the file in which a journal is kept, for reading and for writing at its end. It is made where
/// it is not there, and its name is on the disk then. As long as it is open, nobody else opens it so.
///
/// The system's error where it can't be opened; one of the kind `InvalidInput` where it is no plain file, which
/// is not waited for; one of the kind `WouldBlock` where somebody else has opened it so, or has just put another
/// in its place.
pub fn open<Rt: Files<File = File>>(rt: &Rt, path: &str) -> io::Result<File> {
    if is_special(rt, path) {
        return Err(no_file());
    }
    let mut options = OpenOptions::new();
    options.read(true).append(true).create(true);
    let file = options.open(rt, path)?;
    match file.try_lock() {
        Ok(()) => {}
        Err(TryLockError::WouldBlock) => return Err(in_use()),
        Err(TryLockError::Error(error)) => return Err(error),
    }
    let found = file.metadata()?;
    if !found.is_file() {
        return Err(no_file());
    }
    if !leads_to(rt, path, &found) {
        return Err(in_use());
    }
    sync_folder(rt, path)?;
    Ok(file)
}

// That a path is that of something else than a plain file.
fn no_file() -> io::Error
    ensures { error_kind result ≡ ErrorKind.InvalidInput }
{
    io::Error::new(ErrorKind::InvalidInput, "no plain file")
}

// That somebody else has the file.
fn in_use() -> io::Error
    ensures { error_kind result ≡ ErrorKind.WouldBlock }
{
    io::Error::new(ErrorKind::WouldBlock, "another board keeps a journal in it")
}

// Copies the first bytes of a file, so many, to the end of another.
fn copy_first(old: &File, new: &File, bytes: u64) -> io::Result<()> {
    let mut whole = old;
    whole.seek(SeekFrom::Start(0))?;
    copy_bytes(&mut Source::new(whole), &mut Sink::new(new), bytes)
}

// Makes a new file what an old one is up to so many bytes: who may read it, that nobody else opens it to
// keep a journal there, and its text.
fn fill(old: &File, new: &File, bytes: u64) -> io::Result<()> {
    let found = old.metadata()?;
    new.set_permissions(found.permissions())?;
    // Whose it is stays so where that may be said.
    let _ = fchown(new, Some(found.uid()), Some(found.gid()));
    if new.try_lock().is_err() {
        return Err(in_use());
    }
    copy_first(old, new, bytes)
}

/// Puts a new file in the place of the one of a path in which a journal is kept: it has the first bytes of
/// that, so many, and all of them are on the disk. What a failed write had left in the memory of the system
/// alone is written anew so. The system's error where that failed, one of the kind `OutOfMemory` where memory was
/// refused; the old file stays then.
pub fn renew<Rt: Files<File = File>>(
    rt: &Rt,
    alloc: Global,
    path: &str,
    old: &File,
    bytes: u64,
) -> io::Result<File> {
    let (new, replacement) = Replacement::create(rt, alloc, path, None)?;
    match put_anew(rt, old, &new, bytes, &replacement) {
        Ok(()) => Ok(new),
        Err(error) => {
            replacement.remove(rt);
            Err(error)
        }
    }
}

// Fills a new file with the first bytes of an old one, so many, and puts it in the place of that.
fn put_anew<Rt: Files<File = File>>(
    rt: &Rt,
    old: &File,
    new: &File,
    bytes: u64,
    replacement: &Replacement,
) -> io::Result<()> {
    fill(old, new, bytes)?;
    replacement.put_in_place(rt, new)
}
