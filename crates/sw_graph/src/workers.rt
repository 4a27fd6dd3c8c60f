//! Who makes the calls.
use crate::progress::Progress;
use std::marker::{Copy, Sync};
use std::thread::Threads;

/// Who makes many calls of a kind. A crate that has such calls to make extends this trait by a method for them, and implements it for both
/// types below.
// No method here takes a closure: in a method of an impl, a thread may call no closure that the method was passed.
pub trait Workers {
    /// What the threads share beside what the calls read.
    type Shared: Sync;

    /// Takes note that so many of so many parts of a long work are done. It decides nothing.
    fn tell_progress(&self, done: usize, all: usize);
}

/// Makes the calls in as many threads as there are processors, which the handle starts.
#[derive(Drop)]
pub struct SideBySide<'a, R> {
    rt: &'a R,
    progress: &'a Progress,
}

impl<'a, R: Threads + Sync> SideBySide<'a, R> {
    /// Makes the calls in threads that the handle starts, and takes note there how much of them is done.
    pub fn new(rt: &'a R, progress: &'a Progress) -> Self {
        SideBySide { rt, progress }
    }

    /// The handle.
    pub fn handle(&self) -> &'a R {
        self.rt
    }
}

impl<R: Threads + Sync> Workers for SideBySide<'_, R> {
    type Shared = R;

    fn tell_progress(&self, done: usize, all: usize) {
        self.progress.tell(done, all);
    }
}

/// Makes each call in the caller's own thread. It needs nothing of the host.
#[derive(Clone, Copy)]
pub struct OneByOne;

impl Workers for OneByOne {
    type Shared = ();

    fn tell_progress(&self, _done: usize, _all: usize) {}
}
