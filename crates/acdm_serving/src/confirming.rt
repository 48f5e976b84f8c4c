//! What a board that follows another one says there of what it keeps.
ghost use Rattle.std.specs.Prelude.{◌≡◌};

use acdm_failures::Failure;
use acdm_keeping::{EntryKeeper, Receipt};
use std::alloc::Global;
use std::io::{self, Write};
use std::net::TcpStream;
use std::sync::{Arc, Mutex, Wait};
use std::time::{Clock, SystemTime};

// The connection by which a board is followed, and what was said there last.
#[derive(Drop)]
struct SaidAt {
    stream: TcpStream,
    count: u64,
}

/// What is said of what this board keeps, at the connection by which it follows another one, and by which name.
#[derive(Drop)]
pub(crate) struct Confirming {
    alloc: Global,
    name: u64,
    said: Mutex<Option<SaidAt>>,
}

// The nanoseconds of the second, as a name that no other board is likely to have; 0 where the clock can't be read. Boards
// of one name are taken for one.
fn name_by<Rt: Clock>(rt: &Rt) -> u64 {
    let Ok(now) = SystemTime::now(rt) else {
        return 0;
    };
    match now.duration_since(SystemTime::UNIX_EPOCH) {
        Ok(since) => u64::from(since.subsec_nanos()),
        Err(_) => 0,
    }
}

impl Confirming {
    /// There is no connection yet.
    pub(crate) fn new<Rt: Clock>(rt: &Rt, alloc: Global) -> Confirming {
        Confirming {
            alloc,
            name: name_by(rt),
            said: Mutex::new(None),
        }
    }

    /// By which name this board follows.
    pub(crate) fn name(&self) -> u64 {
        self.name
    }

    /// The board is followed by this connection now, at which it was said that so many entries are kept, the first ones. The
    /// system's error where it can't be used twice.
    pub(crate) fn begin<Rt: Wait>(
        &self,
        rt: &Rt,
        stream: &TcpStream,
        count: u64,
    ) -> io::Result<()> {
        let stream = stream.try_clone()?;
        *self.said.lock(rt) = Some(SaidAt { stream, count });
        Ok(())
    }

    /// Says that so many entries are kept, where that was not said last: `kept N`. Where it can't be said, the connection
    /// ends by itself.
    pub(crate) fn say<Rt: Wait>(&self, rt: &Rt, count: u64) {
        let mut said = self.said.lock(rt);
        let Some(said) = &mut *said else {
            return;
        };
        if said.count == count {
            return;
        }
        said.count = count;
        let mut line = String::new(self.alloc);
        if writeln!(line, "kept {count}").is_ok() {
            let _ = said.stream.write_all(line.as_bytes());
        }
    }
}

/// A keeper of the entries of a board that follows another one, to which it says what it keeps.
#[derive(Drop)]
pub(crate) struct ConfirmingKeeper<'r, K: Drop, Rt> {
    pub(crate) rt: &'r Rt,
    pub(crate) keeper: K,
    pub(crate) confirming: Arc<Confirming>,
}

impl<K: EntryKeeper + Drop, Rt: Wait> EntryKeeper for ConfirmingKeeper<'_, K, Rt> {
    ghost keeps = { λ c. K.keeps c.keeper };

    ghost covers = { λ c n. K.covers c.keeper n };

    fn keep_to(&mut self, last: Option<u64>) -> Result<Option<Receipt>, Failure> {
        let kept = self.keeper.keep_to(last);
        if let Ok(Some(receipt)) = &kept {
            self.confirming.say(self.rt, receipt.count() as u64);
        }
        kept
    }
}
