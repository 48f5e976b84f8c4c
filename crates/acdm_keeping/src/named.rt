//! A file and the path that leads to it.
ghost use Rattle.std.specs.Prelude.{◌≡◌, ◌<◌, ◌≤◌, true, false, Some, IfOk, IfSome, IsSome, string_bytes};
ghost use Rattle.std.specs.Arc.{arc_value};

use crate::replacement::put_text;
use std::alloc::{AllocError, Global};
use std::fs::{self, File};
use std::io::{self, ErrorKind};
use std::os::unix::fs::MetadataExt;
use std::rt::HostRuntime;
use std::sync::Arc;
use std::sync::atomic::{AtomicI32, AtomicU64, Ordering};

// That no write has failed, and that one has by no error of the system's.
const NONE: i32 = 0;

const CHANGED: i32 = -1;

/// What the system knows a file by, on which device as which number, and how many bytes it has.
#[derive(Clone, Copy, Debug, PartialEq, Eq)]
pub struct Found {
    pub device: u64,
    pub inode: u64,
    pub bytes: u64,
}

/// What the system tells of files by their paths, and does with them, on whatever thread.
pub trait Paths {
    /// What is found of the file that a path leads to. `None` where it leads to none.
    fn file_at(&self, path: &str) -> Option<Found>;

    /// Puts a new file with this text in the place of the one of a path, as `put_text` does.
    fn put_text(&self, alloc: Global, path: &str, text: &[u8]) -> io::Result<()>;
}

impl Paths for HostRuntime {
    fn file_at(&self, path: &str) -> Option<Found> {
        let found = fs::metadata(self, path).ok()?;
        Some(Found {
            device: found.dev(),
            inode: found.ino(),
            bytes: found.len(),
        })
    }

    fn put_text(&self, alloc: Global, path: &str, text: &[u8]) -> io::Result<()> {
        put_text(self, alloc, path, text)
    }
}

// How many bytes a file has that was found, where it is the one of a number on a device.
fn bytes_of(found: Option<Found>, device: u64, inode: u64) -> Option<u64>
    ensures same { IfSome result (λ bytes. found ≡ Some (record {
      device = device;
      inode = inode;
      bytes = bytes;
    })) }
    ensures all { IfSome found (λ f. f.device ≡ device → f.inode ≡ inode → result ≡ Some f.bytes) }
{
    let found = found?;
    if found.device == device && found.inode == inode {
        return Some(found.bytes);
    }
    None
}

// Whether a file has just the bytes that were written to it.
fn has_just(bytes: Option<u64>, written: u64) -> bool
    ensures just { result ≡ true → bytes ≡ Some written }
    ensures other { result ≡ false → IfSome bytes (λ n. ¬ (n ≡ written)) }
{
    match bytes {
        Some(bytes) => bytes == written,
        None => false,
    }
}

// Whether a file has no fewer bytes than were written to it.
fn has_all(bytes: Option<u64>, written: u64) -> bool
    ensures there { result ≡ true → IsSome bytes }
    ensures all { result ≡ true → IfSome bytes (λ n. written ≤ n) }
    ensures fewer { result ≡ false → IfSome bytes (λ n. n < written) }
{
    match bytes {
        Some(bytes) => written <= bytes,
        None => false,
    }
}

/// That a path does not lead to a file any more, or that the file has other bytes than those that were written.
pub(crate) fn changed() -> io::Error {
    io::Error::new(
        ErrorKind::NotFound,
        "another file is there, or it has another length than was written",
    )
}

/// A file by its path and by what the system knows it by, with the bytes that were written to it, and why it
/// could not be written.
pub struct Named {
    path: String,
    device: u64,
    inode: u64,
    bytes: Arc<AtomicU64>,
    failed: Arc<AtomicI32>,
}

impl Drop for Named {
    fn drop(self) {
        let Named {
            path: _,
            device: _,
            inode: _,
            bytes: _,
            failed: _,
        } = self;
    }
}

impl Named {
    /// This file by this path. Fails where it can't be asked, or where memory was refused.
    pub fn new(alloc: Global, path: &str, file: &File) -> io::Result<Named>
        ensures { IfOk result (λ named. string_bytes named.path ≡ path.now) }
    {
        let found = file.metadata()?;
        Ok(Named {
            path: String::from_str(alloc, path)?,
            device: found.dev(),
            inode: found.ino(),
            bytes: Arc::new(alloc, AtomicU64::new(found.len()))?,
            failed: Arc::new(alloc, AtomicI32::new(NONE))?,
        })
    }

    /// The same once more, which knows of what is written by way of either. `Err` only where memory was refused.
    pub fn copy(&self, alloc: Global) -> Result<Named, AllocError>
        ensures path { IfOk result (λ named. string_bytes named.path ≡ string_bytes self.now.path) }
        ensures file { IfOk result (λ named. (named.device ≡ self.now.device)
            × (named.inode ≡ self.now.inode)) }
        ensures bytes { IfOk result (λ named. arc_value named.bytes ≡ arc_value self.now.bytes) }
    {
        Ok(Named {
            path: String::from_str(alloc, self.path.as_str())?,
            device: self.device,
            inode: self.inode,
            bytes: Arc::try_clone(&self.bytes)?,
            failed: Arc::try_clone(&self.failed)?,
        })
    }

    /// So many bytes more were written.
    pub(crate) fn add(&self, count: usize) {
        self.bytes.fetch_add(count as u64, Ordering::SeqCst);
    }

    /// The file could not be written: the first error is kept, for all who know the file by this name.
    pub fn fail(&self, error: &io::Error) {
        let code = match error.raw_os_error() {
            Some(code) => code,
            None => CHANGED,
        };
        let _ = self
            .failed
            .compare_exchange(NONE, code, Ordering::SeqCst, Ordering::SeqCst);
    }

    /// Why the file could not be written, where it could not: the first error.
    pub fn failure(&self) -> Option<io::Error> {
        match self.failed.load(Ordering::SeqCst) {
            NONE => None,
            CHANGED => Some(changed()),
            code => Some(io::Error::from_raw_os_error(code)),
        }
    }

    // How many bytes the file has. `None` where its path does not lead to it any more.
    fn len<Rt: Paths>(&self, rt: &Rt) -> Option<u64> {
        bytes_of(rt.file_at(self.path.as_str()), self.device, self.inode)
    }

    /// Whether its path leads to it, and it has just the bytes that were written.
    pub(crate) fn is_as_written<Rt: Paths>(&self, rt: &Rt) -> bool {
        has_just(self.len(rt), self.bytes.load(Ordering::SeqCst))
    }

    /// Whether its path leads to it, and it has no fewer bytes than were written by now. It may be asked while
    /// more are.
    pub fn stands<Rt: Paths>(&self, rt: &Rt) -> bool {
        let written = self.bytes.load(Ordering::SeqCst);
        has_all(self.len(rt), written)
    }
}
