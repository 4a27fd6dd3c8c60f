//! A run whose workers wait for one another.

use crate::together::Together;
use std::io;
use sw_config::Network;
use sw_output::all_node_lines;
use sw_run::{Outcome, Stop};

/// Prints whether a worker gave up, whether each cell was decided, how the run ended, and how many packets came out at each node.
pub(crate) fn show_gated(
    rt: &HostRuntime,
    network: &Network,
    outcome: &Outcome<'_>,
    gate: &Together,
) -> io::Result<()> {
    let (late, all) = (gate.is_late(), gate.have_all_come());
    let stop = match outcome.stop {
        Stop::Drained => "drained",
        Stop::Stuck => "stuck",
        Stop::Waiting => "waiting",
        Stop::JournalFull => "journal full",
        Stop::Memory => "out of memory",
    };
    println!(rt;
        "late {late}, all came {all}: {stop}, undelivered {}",
        outcome.undelivered
    )?;
    if outcome.came_out.len() != usize::from(network.nodes()) {
        return Ok(());
    }
    rt.print(all_node_lines(rt.alloc(), network, &outcome.came_out)?)
}
