//! A file that is written beside another one, whose place it takes once it is whole.
ghost use Rattle.std.specs.Prelude.{◌≡◌, None, IfOk, string_bytes};
ghost use Rattle.acdm_keeping.specs.Settled.{IsPartOf, part_name};

use crate::settling::{Settling, settle};
use std::alloc::{AllocError, Global};
use std::fs::{self, File, Files, Metadata, OpenFile, OpenOptions};
use std::io::{self, ErrorKind, Write};
use std::os::unix::fs::MetadataExt;
use std::path::Path;

/// How many names are tried for it.
const MOST_NAMES: u32 = 100;

/// A new file beside the one of a path, by a name that nothing else had.
#[derive(Drop)]
pub struct Replacement {
    part: String,
    whole: String,
}

// A file of the system that was written, and the names that it has and is to have.
#[derive(Drop)]
struct Written<'a, Rt: Files> {
    rt: &'a Rt,
    file: &'a Rt::File,
    names: &'a Replacement,
}

impl<Rt: Files> Settling for Written<'_, Rt> {
    ghost done = { λ _. None };

    fn sync_contents(&mut self) -> io::Result<()> {
        self.file.sync_all()
    }

    fn rename(&mut self) -> io::Result<()> {
        fs::rename(self.rt, self.names.part.as_str(), self.names.whole.as_str())
    }

    fn sync_folder(&mut self) -> io::Result<()> {
        sync_folder(self.rt, self.names.whole.as_str())
    }
}

/// Whether two files are one.
pub fn is_same(one: &Metadata, other: &Metadata) -> bool {
    one.dev() == other.dev() && one.ino() == other.ino()
}

/// Whether a path is that of something else than a file, or than nothing.
pub fn is_special<Rt: Files>(rt: &Rt, path: &str) -> bool {
    match fs::metadata(rt, path) {
        Ok(found) => !found.is_file(),
        Err(_) => false,
    }
}

/// Whether a path leads to this file.
pub fn leads_to<Rt: Files>(rt: &Rt, path: &str, file: &Metadata) -> bool {
    match fs::metadata(rt, path) {
        Ok(found) => is_same(&found, file),
        Err(_) => false,
    }
}

/// Has the folder of a file on the disk, with the file's name.
pub fn sync_folder<Rt: Files>(rt: &Rt, path: &str) -> io::Result<()> {
    let folder = match Path::new(path).parent() {
        Some(folder) if !folder.as_str().is_empty() => folder.as_str(),
        _ => ".",
    };
    fs::open(rt, folder)?.sync_all()
}

// The file that a path leads to, by links or not.
fn target_of<Rt: Files>(rt: &Rt, alloc: Global, path: &str) -> Result<String, AllocError> {
    match rt.canonicalize(alloc, path) {
        Ok(found) => String::from_str(alloc, found.as_str()),
        Err(_) => String::from_str(alloc, path),
    }
}

// The name that is tried first, or so many tries later.
fn part_of(alloc: Global, whole: &str, tries: u32) -> Result<String, AllocError>
    ensures { IfOk result (λ part. string_bytes part ≡ part_name whole.now tries) }
{
    let mut part = String::from_str(alloc, whole)?;
    part.push_str(".part")?;
    if tries == 0 {
        return Ok(part);
    }
    write!(part, "{tries}")?;
    Ok(part)
}

// Makes a new file by a name. `None` where there is one by that name already, by whatever kind.
fn create_new<Rt: Files>(rt: &Rt, name: &str) -> io::Result<Option<Rt::File>> {
    let mut options = OpenOptions::new();
    options.read(true).append(true).create_new(true);
    match options.open(rt, name) {
        Ok(file) => Ok(Some(file)),
        Err(error) if error.kind() == ErrorKind::AlreadyExists => Ok(None),
        Err(error) => Err(error),
    }
}

// Whether a path leads to a file that was just made, as where it had named it before it was there.
fn is_named_by<Rt: Files>(rt: &Rt, file: &Rt::File, other: Option<&str>) -> bool {
    let Some(other) = other else {
        return false;
    };
    match file.metadata() {
        Ok(made) => leads_to(rt, other, &made),
        Err(_) => true,
    }
}

impl Replacement {
    /// Makes a new file, for reading and for writing at its end, beside the one of a path, or of what its
    /// links lead to. Its name was not there before, and is none of the other path. The system's error where it
    /// can't be made, one of the kind `OutOfMemory` where memory was refused.
    pub fn create<Rt: Files>(
        rt: &Rt,
        alloc: Global,
        path: &str,
        other: Option<&str>,
    ) -> io::Result<(Rt::File, Replacement)>
        ensures { IfOk result (λ made. IsPartOf (string_bytes made.1.whole) (string_bytes made.1.part)) }
    {
        let whole = target_of(rt, alloc, path)?;
        for tries in 0..MOST_NAMES {
            let part = part_of(alloc, whole.as_str(), tries)?;
            if let Some(file) = create_new(rt, part.as_str())? {
                if !is_named_by(rt, &file, other) {
                    return Ok((file, Replacement { part, whole }));
                }
                let _ = fs::remove_file(rt, part.as_str());
            }
        }
        Err(io::Error::new(ErrorKind::AlreadyExists, "no name is free beside it"))
    }

    /// Puts the file in its place, once all of it is on the disk, and has its name there too.
    pub fn put_in_place<Rt: Files>(&self, rt: &Rt, file: &Rt::File) -> io::Result<()> {
        let mut written = Written {
            rt,
            file,
            names: self,
        };
        settle(&mut written)
    }

    /// Takes the file away, where it was not put in its place.
    pub fn remove<Rt: Files>(&self, rt: &Rt) {
        let _ = fs::remove_file(rt, self.part.as_str());
    }
}

// Writes a text to a file, and puts that in its place.
fn fill_with<Rt: Files<File = File>>(
    rt: &Rt,
    file: &File,
    replacement: &Replacement,
    text: &[u8],
) -> io::Result<()> {
    let mut writer = file;
    writer.write_all(text)?;
    replacement.put_in_place(rt, file)
}

/// Puts a new file with this text in the place of the one of a path, or where none is, once all of it is on the disk. The
/// system's error where that failed, one of the kind `OutOfMemory` where memory was refused; what was there stays then.
pub fn put_text<Rt: Files<File = File>>(
    rt: &Rt,
    alloc: Global,
    path: &str,
    text: &[u8],
) -> io::Result<()> {
    let (file, replacement) = Replacement::create(rt, alloc, path, None)?;
    let came = fill_with(rt, &file, &replacement, text);
    if came.is_err() {
        replacement.remove(rt);
    }
    came
}
