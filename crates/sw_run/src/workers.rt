//! The workers.
ghost use Rattle.std.specs.Prelude.{◌<◌};

use crate::gate::Gate;
use crate::locks::{Found, RunState};
use crate::run_identity::RunIdentity;
use crate::sleepers::SHORTEST;
use std::alloc::Global;
use std::sync::Wait;
use std::thread;
use std::thread::Threads;

/// A turn of each cell that may have a step, from that place on. It ends where the locks are held by
/// others.
fn round<W: RunIdentity, G: Gate>(
    alloc: Global,
    shared: &RunState<'_, '_, W>,
    gate: &G,
    from: usize,
) -> Found {
    let mut all = Found::Nothing;
    let cells = shared.slots.len();
    let mut place = from;
    for _ in 0..cells {
        match shared.turn(alloc, gate, place) {
            Found::Work => all = Found::Work,
            Found::Nothing => {}
            Found::Held => {
                if matches!(all, Found::Nothing) {
                    all = Found::Held;
                }
            }
            Found::Over => return Found::Over,
        }
        place = place.saturating_add(1);
        if place >= cells {
            place = 0;
        }
    }
    all
}

/// What threads are started for.
pub(crate) trait ThreadTask {
    /// What the worker of that number does.
    fn work(&self, worker: usize);

    /// There is no memory for one of the workers.
    fn refuse(&self);
}

/// The task of the threads of a run.
#[derive(Drop)]
pub(crate) struct RunTask<'s, 'j, 'a, W: RunIdentity, G: Gate, R: Wait> {
    pub(crate) rt: &'s R,
    pub(crate) alloc: Global,
    pub(crate) shared: &'s RunState<'j, 'a, W>,
    pub(crate) gate: &'s G,
}

impl<'s, 'j, 'a, W: RunIdentity, G: Gate, R: Wait> ThreadTask for RunTask<'s, 'j, 'a, W, G, R> {
    /// Goes on until the run is over. A worker with no cell has nothing to do.
    fn work(&self, worker: usize) {
        let shared = self.shared;
        if worker >= shared.slots.len() || shared.network.channels() == 0 {
            return;
        }
        let sleepers = &shared.sleepers;
        let mut millis = SHORTEST;
        for _ in self.rt.forever() {
            let Some(calls) = sleepers.calls() else {
                return;
            };
            match round(self.alloc, shared, self.gate, worker) {
                Found::Work => {
                    if millis != SHORTEST {
                        millis = SHORTEST;
                        sleepers.tell_of_use();
                    }
                }
                Found::Nothing => {
                    if !shared.raise_all() {
                        millis = sleepers.sleep(self.rt, calls, millis);
                    }
                }
                Found::Held => millis = sleepers.sleep(self.rt, calls, millis),
                Found::Over => sleepers.end(),
            }
        }
    }

    /// Ends the run.
    fn refuse(&self) {
        self.shared.journal.lock(self.rt).refuse();
        self.shared.sleepers.end();
    }
}

/// Starts the workers, and waits for them.
pub(crate) fn start_all<C: ThreadTask + Sync, R: Threads + Wait>(rt: &R, task: &C, workers: usize)
    requires { 0 < workers }
{
    thread::scope(thread::scope_env(), rt, |scope| {
        for worker in 0..workers {
            if scope.spawn(move || task.work(worker)).is_err() {
                task.refuse();
            }
        }
    });
}
