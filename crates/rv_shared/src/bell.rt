//! Where workers rest that found nothing to do.
use std::sync::Wait;
use std::sync::atomic::{AtomicU64, Ordering};
use std::time::Duration;

/// How long a worker rests where no bell rings, in milliseconds.
const REST: u64 = 1;

/// A count of rings, on which workers sleep. It decides when a worker looks again, and nothing else.
#[derive(Drop)]
pub(crate) struct Bell {
    rings: AtomicU64,
    resting: AtomicU64,
}

impl Bell {
    /// A bell that was never rung, on which nobody rests.
    pub(crate) fn new() -> Bell {
        Bell {
            rings: AtomicU64::new(0),
            resting: AtomicU64::new(0),
        }
    }

    /// How often it has rung. Who rests hands in what it heard, so that no ring between is missed.
    pub(crate) fn rings(&self) -> u64 {
        self.rings.load(Ordering::SeqCst)
    }

    /// Wakes all that rest. Where nobody does it costs two steps on words.
    pub(crate) fn ring(&self) {
        self.rings.fetch_add(1, Ordering::SeqCst);
        if self.resting.load(Ordering::SeqCst) > 0 {
            self.rings.wake_all();
        }
    }

    /// Rests until it rings once more than was heard, and a millisecond at most. It may return early.
    pub(crate) fn rest<R: Wait>(&self, rt: &R, heard: u64) {
        self.resting.fetch_add(1, Ordering::SeqCst);
        self.rings.park_timeout(
            rt,
            (heard & 0xffff_ffff) as u32,
            Duration::from_millis(REST),
        );
        self.resting.fetch_sub(1, Ordering::SeqCst);
    }
}
