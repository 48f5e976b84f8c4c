//! The ticks that a board gives itself: the lines that its reader gives, and when they are due by a clock.
use acdm_serving::{Beat, Ticks, Timer};
use std::io::{self, Read};
use std::sync::atomic::{AtomicBool, AtomicU64, Ordering};
use std::sync::{Arc, Wait};
use std::time::{Clock, Duration};

/// So many ticks, and no more.
#[derive(Drop)]
struct Few {
    left: u64,
    count: u64,
    is_over: bool,
}

impl Few {
    fn new(left: u64) -> Few {
        Few {
            left,
            count: 0,
            is_over: false,
        }
    }
}

impl Beat for Few {
    ghost due = { λ f. f.count };

    ghost is_over = { λ f. f.is_over };

    fn next(&mut self) -> bool {
        if self.left == 0 || self.count == u64::MAX {
            self.is_over = true;
            return false;
        }
        self.left -= 1;
        self.count += 1;
        true
    }
}

// Three ticks are three lines of the command, however little is taken at once.
#[test]
fn ticks_are_lines_of_the_command(rt: HostRuntime) {
    let wanted = b"{\"cmd\":\"tick\"}\n{\"cmd\":\"tick\"}\n{\"cmd\":\"tick\"}\n";
    for room in [1usize, 2, 14, 15, 16, 64] {
        let mut reader = Ticks::new(Few::new(3));
        let mut text = Vec::new(rt.alloc());
        for _ in 0..100 {
            let mut piece = [0u8; 64];
            let count = reader
                .read(&mut piece[..room])
                .ok()
                .expect(&rt, "bytes of a tick");
            assert!(rt; count <= 15);
            if count == 0 {
                break;
            }
            text.extend_from_slice(&piece[..count])
                .expect(&rt, "room for a tick");
        }
        assert!(rt; text.as_slice() == wanted.as_slice());
        let mut none = [0u8; 0];
        assert!(rt; reader.read(&mut none).ok() == Some(0));
    }
}

/// A clock that is so many milliseconds later each time that it is read, and that has a word set at a reading.
#[derive(Drop)]
struct Hands<'r, Rt> {
    // (who may wait says a runtime alone)
    rt: &'r Rt,
    step: u64,
    read: AtomicU64,
    last: u64,
    closing: Arc<AtomicBool>,
}

impl<Rt: Wait> Wait for Hands<'_, Rt> {}

impl<Rt> Clock for Hands<'_, Rt> {
    fn monotonic(&self) -> io::Result<Duration> {
        let count = self.read.fetch_add(1, Ordering::SeqCst);
        if count >= self.last {
            self.closing.store(true, Ordering::SeqCst);
        }
        Ok(Duration::from_millis(count.saturating_mul(self.step)))
    }

    fn since_1970(&self) -> io::Result<Duration> {
        Ok(Duration::from_secs(0))
    }
}

// How many ticks come until a board closes, by a clock that is read so often and is later by so many milliseconds each time.
fn beats<Rt: AllocGlobal + Wait>(rt: &Rt, seconds: u32, step: u64, last: u64) -> Option<u64> {
    let closing = Arc::new(rt.alloc(), AtomicBool::new(false)).ok()?;
    let hands = Hands {
        rt,
        step,
        read: AtomicU64::new(0),
        last,
        closing: Arc::try_clone(&closing).ok()?,
    };
    let mut timer = Timer::new(&hands, seconds, closing);
    let mut count = 0u64;
    for _ in 0..1_000 {
        if !timer.next() {
            return Some(count);
        }
        count = count.saturating_add(1);
    }
    None
}

// A tick comes as a period has passed, and one alone where several have.
#[test]
fn ticks_are_due_each_period(rt: HostRuntime) {
    assert!(rt; beats(&rt, 1, 100, 100) == Some(10));
    assert!(rt; beats(&rt, 1, 100, 99) == Some(9));
    assert!(rt; beats(&rt, 10, 1_000, 100) == Some(10));
    assert!(rt; beats(&rt, 1, 2_500, 4) == Some(4));
    assert!(rt; beats(&rt, 86_400, 1_000, 200) == Some(0));
    assert!(rt; beats(&rt, 60, 60_000, 3) == Some(3));
}
