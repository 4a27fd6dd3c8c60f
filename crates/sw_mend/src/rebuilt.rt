//! The changed network, built anew.
ghost use Rattle.std.specs.Prelude.{◌≡◌, [], IfOk, OnOk};
ghost use Rattle.sw_config.specs.Entries.{empty};
ghost use Rattle.sw_mend.specs.Changes.{changed, changed_by_all};

use crate::change::Change;
use crate::flows::add_flows;
use crate::parts::{add_links, add_nodes, add_switches};
use std::alloc::{AllocError, Global};
use std::marker::Model;
use sw_config::{Network, NetworkBuilder};
use sw_topo::TopoError;

/// Adds the nodes, the switches and the links.
fn add_parts(
    alloc: Global,
    network: &Network,
    changes: &[Change],
    builder: &mut NetworkBuilder,
) -> Result<(), AllocError>
    requires { builder.old ≡ empty }
    ensures { OnOk result (builder.new ≡ record (changed_by_all network.now changes.now) { flows = [] }) }
{
    // Names the network, which is valid by its type.
    let _topology = network.topology();
    add_nodes(alloc, network, builder)?;
    add_switches(alloc, network, changes, builder)?;
    add_links(network, builder)
}

/// The network that the changes leave, without flows.
pub(crate) fn without_flows(
    alloc: Global,
    network: &Network,
    changes: &[Change],
) -> Result<Network, AllocError>
    ensures { IfOk result (λ n. n ≡ record (changed_by_all network.now changes.now) { flows = [] }) }
{
    // Names the network, which is valid by its type.
    let _topology = network.topology();
    let mut builder = NetworkBuilder::new(alloc);
    match add_parts(alloc, network, changes, &mut builder) {
        Ok(()) => match builder.wire(alloc) {
            Ok(network) => Ok(network),
            Err(TopoError::Fault(_)) => unreachable!(),
            Err(TopoError::Memory) => Err(AllocError),
        },
        Err(refused) => {
            builder.discard();
            Err(refused)
        }
    }
}

/// The network that the changes leave, one after the other: what is left after the first keeps its number for the next. The changed network
/// is built once.
///
/// # Errors
///
/// There is no memory for it.
pub fn network_with_all(
    alloc: Global,
    network: &Network,
    changes: &[Change],
) -> Result<Network, AllocError>
    ensures { IfOk result (λ n. n ≡ changed_by_all network.now changes.now) }
{
    let mut built = without_flows(alloc, network, changes)?;
    match add_flows(alloc, network, changes, &mut built) {
        Ok(()) => Ok(built),
        Err(refused) => {
            built.discard();
            Err(refused)
        }
    }
}

/// The network that the change leaves.
///
/// # Errors
///
/// There is no memory for it.
pub fn network_with(
    alloc: Global,
    network: &Network,
    change: &Change,
) -> Result<Network, AllocError>
    ensures { IfOk result (λ n. n ≡ changed network.now change.now) }
{
    network_with_all(alloc, network, &[*change])
}
