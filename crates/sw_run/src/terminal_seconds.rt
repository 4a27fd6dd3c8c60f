//! What is shown while a long call goes on.

use std::sync::Wait;
use std::sync::atomic::{AtomicU64, Ordering};
use std::thread;
use std::thread::Threads;
use std::time::{Clock, Duration, Instant};
use sw_graph::Progress;

/// Before the work is over, and after it.
const GOES_ON: u64 = 0;

const OVER: u64 = 1;

/// Empties a terminal's line from the cursor on.
const TO_END_EMPTY: &str = "\x1b[K";

/// Shows so many seconds, and how much of the work is done where that was told. This is short, and the cursor goes back to its beginning:
/// the first line that the work writes to the same terminal covers it.
fn show_once<R: Eprint>(rt: &R, seconds: u64, progress: &Progress) {
    let _ = match progress.told() {
        Some((done, all)) => eprint!(rt; "{seconds} s, {done} of {all}{TO_END_EMPTY}\r"),
        None => eprint!(rt; "{seconds} s\r"),
    };
}

/// Shows every second for how long the work has gone on, until it is over, and takes that away again. Without a clock it shows nothing.
fn show<R: Wait + Clock + Eprint>(rt: &R, state: &AtomicU64, progress: &Progress) {
    let Ok(begun) = Instant::now(rt) else {
        return;
    };
    let mut shown = 0;
    for _ in rt.forever() {
        if state.load(Ordering::SeqCst) == OVER {
            break;
        }
        if let Ok(gone) = begun.elapsed(rt) {
            if gone.as_secs() > shown {
                shown = gone.as_secs();
                show_once(rt, shown, progress);
            }
        }
        state.park_timeout(rt, GOES_ON as u32, Duration::from_millis(100));
    }
    if shown != 0 {
        let _ = rt.eprint(TO_END_EMPTY);
    }
}

/// Does the work, and shows on standard error, which should be a terminal, every second how many it has gone on, and how much of it is done
/// where that was told. So a call of less than a second shows nothing; one for which no thread can be had shows nothing either.
pub fn with_progress<T, F: FnOnce() -> T, R: Threads + Wait + Clock + Eprint + Sync>(
    rt: &R,
    progress: &Progress,
    work: F,
) -> T
    requires { F.IsAlwaysCallable work }
    ensures { F.post work result }
{
    let state = AtomicU64::new(GOES_ON);
    let seen = &state;
    thread::scope(thread::scope_env(), rt, |scope| {
        let shower = scope.spawn(move || show(rt, seen, progress));
        let made = work();
        seen.store(OVER, Ordering::SeqCst);
        seen.wake_all();
        drop(shower);
        made
    })
}
