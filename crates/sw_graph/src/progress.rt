//! How much of a long work is done.
use std::sync::atomic::{AtomicU64, Ordering};

/// One more than the greatest count that is told.
const COUNTS: u64 = 1 << 32;

/// How much of a long work is done, for whoever waits for it. It decides nothing.
#[derive(Drop)]
pub struct Progress {
    /// How many parts there are, times [`COUNTS`], and how many of them are done: both change at once.
    told: AtomicU64,
}

impl Progress {
    /// Nothing is told yet.
    pub fn new() -> Self {
        Progress {
            told: AtomicU64::new(0),
        }
    }

    /// Tells that so many of so many parts are done, each number below 2 to the power of 32.
    pub fn tell(&self, done: usize, all: usize) {
        let told = (all as u64 % COUNTS) * COUNTS + done as u64 % COUNTS;
        self.told.store(told, Ordering::SeqCst);
    }

    /// How many parts are done and how many there are, as was told last; none, if nothing was told.
    pub fn told(&self) -> Option<(u64, u64)> {
        let told = self.told.load(Ordering::SeqCst);
        match told / COUNTS {
            0 => None,
            all => Some((told % COUNTS, all)),
        }
    }
}
