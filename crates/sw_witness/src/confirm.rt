//! Whether a schedule leads into a lock-up.
ghost use Rattle.std.specs.Prelude.{◌↔◌, IfOk, IsTrue};
ghost use Rattle.sw_witness.specs.Witnesses.{LeadsToLockUp, LocksUp};

use std::alloc::{AllocError, Global};
use sw_config::Network;
use sw_schedule::{ReplayEnd, Schedule, ScheduleFault, read_steps, replay};

/// Whether the steps of the schedule lead into a lock-up: they are replayed.
fn leads_to_lock_up(
    alloc: Global,
    network: &Network,
    schedule: &Schedule,
) -> Result<bool, AllocError>
    ensures { IfOk result (λ told. IsTrue told ↔ LeadsToLockUp network.now schedule.now) }
{
    let replayed = replay(alloc, network, schedule)?;
    match replayed.outcome {
        ReplayEnd::Made(_) => Ok(replayed.stuck),
        ReplayEnd::Refused(_, _) => Ok(false),
    }
}

/// Whether the text is a schedule that leads the network into a lock-up: it is read, and its steps are replayed.
///
/// # Errors
///
/// There is no memory for the schedule, the network or what its steps store.
pub fn locks_up(alloc: Global, network: &Network, text: &[u8]) -> Result<bool, AllocError>
    ensures { IfOk result (λ told. IsTrue told ↔ LocksUp network.now text.now) }
{
    match read_steps(alloc, network, text) {
        Ok(schedule) => leads_to_lock_up(alloc, network, &schedule),
        Err(ScheduleFault::Fault(_)) => Ok(false),
        Err(ScheduleFault::Memory) => Err(AllocError),
    }
}
