//! Nodes that take nothing while they want to send.
ghost use Rattle.std.specs.Prelude.{◌≡◌, ◌<◌, ◌∷◌, [], IfOk, length};
ghost use Rattle.sw_flow.specs.Places.{ends_of};
ghost use Rattle.sw_margin.specs.Bends.{AreStalls, IsStall, stall};
ghost use Rattle.sw_margin.specs.Waits.{AreDependencies, IsWithin};

use crate::bend::Bend;
use crate::search::numbers_along;
use crate::trial::bend;
use std::alloc::{AllocError, Global};
use sw_config::Network;
use sw_search::VerdictWorkers;

/// What waits for what where the node takes nothing while it wants to send.
pub(crate) fn stall(network: &Network, node: u16) -> (u16, u16)
    requires { node < length network.now.nodes }
    ensures stall { stall network.now node ≡ result ∷ [] }
    ensures within { IsWithin (length (ends_of network.now)) result }
{
    let out = network.topology().out(node);
    (out.partner().number(), out.number())
}

/// What is told of the node of that number. `known` has numbers that rise along the rows, or is empty.
fn told_of<W: VerdictWorkers>(
    workers: &W,
    alloc: Global,
    network: &Network,
    rows: &[Vec<u16>],
    known: &[u16],
    node: u16,
) -> Result<Bend, AllocError>
    requires rows { AreDependencies network.now rows.now }
    requires node { node < length network.now.nodes }
    ensures { IfOk result (IsStall network.now node) }
{
    bend(
        workers,
        alloc,
        network,
        rows,
        known,
        node,
        &[stall(network, node)],
    )
}

/// Of each node where nothing that comes may have to wait for a reply: whether the network stays free if the node takes nothing while it
/// wants to send.
///
/// `rows` has for each channel those for which a packet on it may wait, as `sw_cycle::dependencies` gives them. The workers share
/// the work of each trial.
///
/// # Errors
///
/// There is no memory for a trial, or for what is told.
pub fn stalls<W: VerdictWorkers>(
    workers: &W,
    alloc: Global,
    network: &Network,
    rows: &[Vec<u16>],
) -> Result<Vec<Bend>, AllocError>
    requires { AreDependencies network.now rows.now }
    ensures { IfOk result (λ v. AreStalls network.now v.items) }
{
    // There are at most 2,048.
    let _channels = network.channels();
    let known = numbers_along(alloc, rows)?;
    let mut told = Vec::new(alloc);
    for node in 0..network.nodes() {
        if network.may_make_wait(node) {
            continue;
        }
        told.push(told_of(workers, alloc, network, rows, &known, node)?)?;
    }
    Ok(told)
}
