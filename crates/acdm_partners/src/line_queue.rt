//! Lines that a thread of its own writes: where nobody reads them, or a disk is slow, nobody else waits.
ghost use Rattle.acdm_partners.specs.HeldLines.{IsEmptyRoom};

use crate::held_lines::{EmptyRoom, HeldLines};
use crate::log_file::{Appends, FileEnd};
use crate::times::PAUSE;
use std::alloc::{AllocError, Global};
use std::io::Eprint;
use std::sync::atomic::{AtomicBool, Ordering};
use std::sync::{Arc, Mutex, Wait};
use std::thread::{self, Threads};
use std::time::{Clock, Duration};

/// For how many pauses the lines that are left are waited for at the end: a second.
const LAST_PAUSES: u64 = 40;

/// Where lines are written.
pub(crate) trait Target<K> {
    /// Writes whole lines, and says whether all of them were written.
    fn write(&self, rt: &K, text: &str) -> bool;

    /// Writes that so many lines were not written, and says whether that was.
    fn write_lost(&self, rt: &K, alloc: Global, count: u64) -> bool;
}

/// Standard error. What can't be written there is nobody's loss.
#[derive(Clone, Copy)]
struct Errors;

impl<K: Eprint> Target<K> for Errors {
    fn write(&self, rt: &K, text: &str) -> bool {
        let _ = rt.eprint(text);
        true
    }

    fn write_lost(&self, rt: &K, alloc: Global, count: u64) -> bool {
        let mut line = String::new(alloc);
        if writeln!(line, ".. {count} lines not written").is_ok() {
            let _ = rt.eprint(line.as_str());
        }
        true
    }
}

// What the threads share.
#[derive(Drop)]
struct SharedQueue {
    held: Mutex<HeldLines>,
    is_over: AtomicBool,
    has_ended: AtomicBool,
    has_failed: AtomicBool,
}

/// What lines are handed to. Nobody waits for them to be written: 65,536 bytes of lines are held at most, and what
/// finds no room is dropped, counted, and told behind those that found some.
pub struct LineQueue {
    shared: Arc<SharedQueue>,
}

impl Drop for LineQueue {
    fn drop(self) {
        let LineQueue { shared: _ } = self;
    }
}

// How many lines a text has.
fn lines_of(text: &str) -> u64 {
    let mut count = 0u64;
    for byte in text.as_bytes() {
        if *byte == b'\n' {
            count = count.saturating_add(1);
        }
    }
    count
}

// Writes what waits, by way of an empty text, behind so many lines that were lost, and says how many are.
fn write_held<K: Wait, T: Target<K>>(
    rt: &K,
    alloc: Global,
    shared: &SharedQueue,
    target: &T,
    text: &mut String,
    lost: u64,
) -> u64
    requires { IsEmptyRoom text.old }
    ensures { IsEmptyRoom text.new }
{
    let mut left = lost.saturating_add(shared.held.lock(rt).take(text));
    let mut is_written = true;
    if !text.is_empty() {
        is_written = target.write(rt, text.as_str());
        shared.has_failed.store(!is_written, Ordering::SeqCst);
        if !is_written {
            left = left.saturating_add(lines_of(text.as_str()));
        }
    }
    text.clear();
    if left > 0 && target.write_lost(rt, alloc, left) {
        if is_written {
            shared.has_failed.store(false, Ordering::SeqCst);
        }
        return 0;
    }
    left
}

// Writes what comes, until no more does.
fn write_on<K: Wait + Clock, T: Target<K>>(
    rt: &K,
    alloc: Global,
    shared: &SharedQueue,
    target: &T,
    room: EmptyRoom,
) {
    let EmptyRoom { mut text } = room;
    let mut lost = 0;
    for _ in 0..u64::MAX {
        // What tells the end is read before the last look.
        let is_last = shared.is_over.load(Ordering::SeqCst);
        lost = write_held(rt, alloc, shared, target, &mut text, lost);
        if is_last {
            break;
        }
        thread::sleep(rt, Duration::from_millis(PAUSE));
    }
    shared.has_ended.store(true, Ordering::SeqCst);
}

impl LineQueue {
    /// Starts the thread that writes on standard error. `Err` where memory was refused, or no thread could be made.
    pub fn on_errors<Rt: Threads, K: Wait + Clock + Eprint + Drop + Send + 'static>(
        rt: &Rt,
        own: K,
        alloc: Global,
    ) -> Result<LineQueue, AllocError> {
        LineQueue::begin(rt, own, alloc, Errors)
    }

    /// Starts the thread that writes at the end of the file of a path, which is opened anew each time. `Err` where
    /// memory was refused, or no thread could be made.
    pub fn at_file<Rt: Threads, K: Wait + Clock + Appends + Drop + Send + 'static>(
        rt: &Rt,
        own: K,
        alloc: Global,
        path: String,
    ) -> Result<LineQueue, AllocError> {
        LineQueue::begin(rt, own, alloc, FileEnd { path })
    }

    fn begin<
        Rt: Threads,
        K: Wait + Clock + Drop + Send + 'static,
        T: Target<K> + Drop + Send + 'static,
    >(rt: &Rt, own: K, alloc: Global, target: T) -> Result<LineQueue, AllocError> {
        let room = EmptyRoom::new(alloc)?;
        let shared = SharedQueue {
            held: Mutex::new(HeldLines::new(alloc)?),
            is_over: AtomicBool::new(false),
            has_ended: AtomicBool::new(false),
            has_failed: AtomicBool::new(false),
        };
        let shared = Arc::new(alloc, shared)?;
        let same = Arc::try_clone(&shared)?;
        // Its thread is waited for by what it says, since a write may never return.
        match thread::spawn(rt, move || write_on(&own, alloc, &same, &target, room)) {
            Ok(_thread) => Ok(LineQueue { shared }),
            Err(_) => Err(AllocError),
        }
    }

    /// The same once more, for another thread. `Err` only where memory was refused.
    pub(crate) fn copy(&self) -> Result<LineQueue, AllocError> {
        Ok(LineQueue {
            shared: Arc::try_clone(&self.shared)?,
        })
    }

    /// Holds a line, which ends with its line feed, for the thread that writes.
    pub(crate) fn tell<Rt: Wait>(&self, rt: &Rt, line: &str) {
        self.shared.held.lock(rt).add(line);
    }

    /// Whether what was written last could not be.
    pub(crate) fn has_failed(&self) -> bool {
        self.shared.has_failed.load(Ordering::SeqCst)
    }

    /// Has what waits written, and waits for that, a second at most.
    pub(crate) fn end<Rt: Clock>(&self, rt: &Rt) {
        self.shared.is_over.store(true, Ordering::SeqCst);
        for _ in 0..LAST_PAUSES {
            if self.shared.has_ended.load(Ordering::SeqCst) {
                return;
            }
            thread::sleep(rt, Duration::from_millis(PAUSE));
        }
    }
}
