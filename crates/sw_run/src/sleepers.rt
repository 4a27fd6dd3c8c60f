//! How workers with nothing to do sleep.

use std::sync::Wait;
use std::sync::atomic::{AtomicBool, AtomicU64, Ordering};
use std::time::Duration;

/// A worker with nothing to do sleeps so many milliseconds at first, and twice as long each time
/// that it then still has nothing to do.
pub(crate) const SHORTEST: u64 = 1;

/// It never sleeps longer than so many milliseconds.
const LONGEST: u64 = 64;

/// Where workers sleep and are woken.
///
/// A wake-up costs as much as a hundred steps, and the journal takes the steps of one worker at a
/// time. So a second worker is of use only while the first is held up by the gate, and it is called
/// when a worker is about to decide, as long as those called before found something to do.
///
/// No run hangs on a wake-up that is lost: whoever sleeps looks again after at most `LONGEST`
/// milliseconds, woken or not. And the last one is not lost, by which all learn that the run is over:
/// a worker reads `calls` first, then looks whether the run is over and for work, and sleeps only
/// while `calls` has the value that it read; and `over` is written before `calls`. So a worker that
/// has not seen `over` has read `calls` before it changed, and does not sleep on.
#[derive(Drop)]
pub(crate) struct Sleepers {
    calls: AtomicU64,
    asleep: AtomicU64,
    pays: AtomicBool,
    over: AtomicBool,
}

impl Sleepers {
    pub(crate) fn new() -> Sleepers {
        Sleepers {
            calls: AtomicU64::new(0),
            asleep: AtomicU64::new(0),
            pays: AtomicBool::new(true),
            over: AtomicBool::new(false),
        }
    }

    /// How often a worker was called. None where the run is over.
    pub(crate) fn calls(&self) -> Option<u64> {
        let calls = self.calls.load(Ordering::SeqCst);
        if self.over.load(Ordering::SeqCst) {
            return None;
        }
        Some(calls)
    }

    /// Calls a worker that sleeps, if the one that was called last has found something to do.
    pub(crate) fn call(&self) {
        if self.asleep.load(Ordering::SeqCst) != 0 && self.pays.swap(false, Ordering::SeqCst) {
            self.calls.fetch_add(1, Ordering::SeqCst);
            self.calls.wake_one();
        }
    }

    /// A worker that had slept has found something to do.
    pub(crate) fn tell_of_use(&self) {
        self.pays.store(true, Ordering::SeqCst);
    }

    /// Sleeps for so long, unless there were more calls than these. It returns how long to sleep
    /// the next time.
    pub(crate) fn sleep<R: Wait>(&self, rt: &R, calls: u64, millis: u64) -> u64 {
        self.asleep.fetch_add(1, Ordering::SeqCst);
        let seen = (calls & 0xffff_ffff) as u32;
        self.calls
            .park_timeout(rt, seen, Duration::from_millis(millis));
        self.asleep.fetch_sub(1, Ordering::SeqCst);
        millis.saturating_mul(2).min(LONGEST)
    }

    /// The run is over: all workers are woken.
    pub(crate) fn end(&self) {
        self.over.store(true, Ordering::SeqCst);
        self.calls.fetch_add(1, Ordering::SeqCst);
        self.calls.wake_all();
    }
}
