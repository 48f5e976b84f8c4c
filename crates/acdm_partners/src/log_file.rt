//! The end of a file, where the log of an operator is written.
use crate::line_queue::Target;
use crate::stamp::now_text;
use std::alloc::{AllocError, Global};
use std::fs::OpenOptions;
use std::io::{self, Write};
use std::rt::HostRuntime;
use std::time::Clock;

/// What appends to files by their paths, on whatever thread.
pub trait Appends {
    /// Writes bytes at the end of the file that a path leads to, which is made where there is none. The system's
    /// error where that failed; the file has none of them then, as far as it can be cut off again.
    fn append(&self, path: &str, bytes: &[u8]) -> io::Result<()>;
}

impl Appends for HostRuntime {
    fn append(&self, path: &str, bytes: &[u8]) -> io::Result<()> {
        let mut options = OpenOptions::new();
        options.append(true).create(true);
        let mut file = options.open(self, path)?;
        let before = file.metadata()?.len();
        match file.write_all(bytes) {
            Ok(()) => Ok(()),
            Err(error) => {
                let _ = file.set_len(before);
                Err(error)
            }
        }
    }
}

/// The end of the file of a path, which is looked for anew at each write: so the file may be moved away while it
/// grows.
#[derive(Drop)]
pub(crate) struct FileEnd {
    pub(crate) path: String,
}

impl FileEnd {
    // The line that tells how many were not written.
    fn lost_line<K: Clock>(rt: &K, alloc: Global, count: u64) -> Result<String, AllocError> {
        let moment = now_text(rt, alloc)?;
        let mut line = String::new(alloc);
        writeln!(
            line,
            "{{\"at\":\"{moment}\",\"event\":\"lost\",\"lines\":{count}}}"
        )?;
        Ok(line)
    }
}

impl<K: Appends + Clock> Target<K> for FileEnd {
    fn write(&self, rt: &K, text: &str) -> bool {
        rt.append(self.path.as_str(), text.as_bytes()).is_ok()
    }

    fn write_lost(&self, rt: &K, alloc: Global, count: u64) -> bool {
        match FileEnd::lost_line(rt, alloc, count) {
            Ok(line) => self.write(rt, line.as_str()),
            Err(_) => false,
        }
    }
}
