//! Runs of loads on their networks: in which order inputs are granted by one worker, and twelve workers that wait for one another. How
//! runs end by other numbers of workers is rows of `tests/run.rows`.
ghost use Rattle.sw_load.specs.Laws.{AreDeclared};

mod gated;
mod grants;

use crate::runs::gated::show_gated;
use crate::runs::grants::show_order;
use crate::together::Together;
use std::io;
use std::sync::Wait;
use std::thread::Threads;
use sw_config::Network;
use sw_load::{Load, enough_limit};
use sw_run::run;

/// Runs the load with a limit that is enough by one worker and so many others, and prints what came of it: the packets as they came out, or, where
/// there are others, how workers that wait for one another came to an end. This function alone owns an outcome.
pub(crate) fn show_run<R: Threads + Wait + Sync>(
    rt: &HostRuntime,
    threads: &R,
    network: &Network,
    load: &Load,
    others: u8,
) -> io::Result<()>
    requires { AreDeclared network.now load.now }
{
    let gate = Together::new(others == 0);
    let limit = enough_limit(network, load) as usize;
    let workers = 1 + others as usize;
    let outcome = run(threads, rt.alloc(), network, load, workers, limit, &gate)?;
    let shown = if others == 0 {
        show_order(rt, &outcome.came_out)
    } else {
        show_gated(rt, network, &outcome, &gate)
    };
    drop(outcome);
    shown
}
