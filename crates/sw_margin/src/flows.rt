//! Flows that are answered.
ghost use Rattle.std.specs.Prelude.{◌<◌, IfOk, length};
ghost use Rattle.sw_margin.specs.Bends.{AreAnswers, IsAnswer};
ghost use Rattle.sw_margin.specs.Waits.{AreDependencies};

use crate::bend::Bend;
use crate::chosen::is_answerable;
use crate::search::numbers_along;
use crate::trial::bend;
use crate::way::waits_where_answered;
use std::alloc::{AllocError, Global};
use sw_config::Network;
use sw_search::VerdictWorkers;

/// What is told of the flow of that number. `known` has numbers that rise along the rows, or is empty.
fn told_of<W: VerdictWorkers>(
    workers: &W,
    alloc: Global,
    network: &Network,
    rows: &[Vec<u16>],
    known: &[u16],
    flow: u16,
) -> Result<Bend, AllocError>
    requires rows { AreDependencies network.now rows.now }
    requires flow { flow < length network.now.flows }
    ensures { IfOk result (IsAnswer network.now flow) }
{
    let waits = waits_where_answered(alloc, network, network.flow(flow))?;
    bend(workers, alloc, network, rows, known, flow, &waits)
}

/// Of each flow without a reply that goes one way, with no group on it: whether the network stays free if the flow is answered, the
/// replies going back over the links of its way.
///
/// `rows` has for each channel those for which a packet on it may wait, as `sw_cycle::dependencies` gives them. The workers share
/// the work of each trial.
///
/// # Errors
///
/// There is no memory for a trial, or for what is told.
pub fn answers<W: VerdictWorkers>(
    workers: &W,
    alloc: Global,
    network: &Network,
    rows: &[Vec<u16>],
) -> Result<Vec<Bend>, AllocError>
    requires { AreDependencies network.now rows.now }
    ensures { IfOk result (λ v. AreAnswers network.now v.items) }
{
    // There are at most 2,048.
    let _channels = network.channels();
    let known = numbers_along(alloc, rows)?;
    let mut told = Vec::new(alloc);
    for flow in 0..network.declared_flows() {
        if !is_answerable(network, flow) {
            continue;
        }
        told.push(told_of(workers, alloc, network, rows, &known, flow)?)?;
    }
    Ok(told)
}
