//! The network in which another number of the commands of one flow may be unanswered, built anew.
ghost use Rattle.std.specs.Prelude.{◌≡◌, [], IfOk, IfSome, OnOk};
ghost use Rattle.sw_config.specs.Valid.{IsOutstanding};
ghost use Rattle.sw_mend.specs.Changes.{by_number};
ghost use Rattle.sw_mend.specs.Outstanding.{flow_with, with_outstanding};

use crate::limiting::limited_flow;
use crate::rebuilt::without_flows;
use std::alloc::{AllocError, Global};
use std::marker::Model;
use sw_config::Network;

/// Adds the flows, of one of which so many commands may be unanswered.
fn add_flows_with(
    alloc: Global,
    network: &Network,
    changed: u16,
    most: Option<u16>,
    built: &mut Network,
) -> Result<(), AllocError>
    requires most { IfSome most IsOutstanding }
    requires nodes { built.old.nodes ≡ network.now.nodes }
    requires none { built.old.flows ≡ [] }
    ensures { OnOk result (built.new ≡ record built.old { flows = by_number (flow_with changed most) 0 network.now.flows }) }
{
    // Names the network, which is valid by its type.
    let _topology = network.topology();
    for number in 0..network.declared_flows() {
        let stays = number != changed;
        let kept = limited_flow(alloc, network.flow(number), stays, most)?;
        built.add_flow(alloc, kept)?;
    }
    Ok(())
}

/// The network in which so many commands of the declared flow of that number may be unanswered at once, or, for None, any number of them
/// as far as the flow itself goes: the limit of its node stays. A flow without a reply stays as it is.
///
/// # Errors
///
/// There is no memory for it.
pub fn network_with_outstanding(
    alloc: Global,
    network: &Network,
    flow: u16,
    most: Option<u16>,
) -> Result<Network, AllocError>
    requires { IfSome most IsOutstanding }
    ensures { IfOk result (λ n. n ≡ with_outstanding network.now flow most) }
{
    let mut built = without_flows(alloc, network, &[])?;
    match add_flows_with(alloc, network, flow, most, &mut built) {
        Ok(()) => Ok(built),
        Err(refused) => {
            built.discard();
            Err(refused)
        }
    }
}
