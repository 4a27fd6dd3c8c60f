//! The flows of a network in which a node is split.
ghost use Rattle.std.specs.Prelude.{◌≡◌, ◌<◌, ◌++◌, [], IfOk, OnOk, length, map};
ghost use Rattle.std.specs.Option.{option_map_or};
ghost use Rattle.sw_mend.specs.Changes.{made_at};
ghost use Rattle.sw_mend.specs.Splits.{flow_split, last_deleted, renamed, target_part};

use crate::change::TargetLink;
use crate::flows::{copied_by, copied_flow};
use std::alloc::{AllocError, Global};
use std::marker::Model;
use sw_config::{Flow, Network};
use sw_topo::Port;

/// The address by which a flow goes to its target's own node: the last byte that is deleted on its way names the port of the own link.
fn moved_address(alloc: Global, link: &TargetLink, flow: &Flow) -> Result<Vec<u8>, AllocError>
    ensures { IfOk result (λ v. v.items ≡ option_map_or (renamed link.now.beside link.now.port flow.now.address) (last_deleted flow.now) flow.now.address) }
{
    let mut address = Vec::from_slice(alloc, flow.address())?;
    let left = usize::from(flow.left());
    if left < address.len() {
        let place = address.len() - left - 1;
        if address[place] == link.beside.number() {
            address[place] = link.port.number();
        }
    }
    Ok(address)
}

/// The flow as it goes after the split.
fn split_flow(alloc: Global, node: u16, link: &TargetLink, flow: &Flow) -> Result<Flow, AllocError>
    ensures { IfOk result (λ f. f ≡ flow_split node link.now flow.now) }
{
    if flow.is_answered_at(link.node) {
        let address = moved_address(alloc, link, flow)?;
        copied_by(alloc, flow, node, address, false)
    } else {
        copied_flow(alloc, flow, false)
    }
}

/// Adds each flow as it goes after the split.
pub(crate) fn add_split_flows(
    alloc: Global,
    network: &Network,
    link: &TargetLink,
    built: &mut Network,
) -> Result<(), AllocError>
    requires node { link.now.node < length network.now.nodes }
    requires nodes { built.old.nodes ≡ network.now.nodes ++ made_at target_part network.now.nodes link.now.node }
    requires none { built.old.flows ≡ [] }
    ensures { OnOk result (built.new ≡ record built.old { flows = map (flow_split (length network.now.nodes) link.now) network.now.flows }) }
{
    // Names the network, which is valid by its type.
    let _topology = network.topology();
    let node = network.nodes();
    for number in 0..network.declared_flows() {
        let moved = split_flow(alloc, node, link, network.flow(number))?;
        built.add_flow(alloc, moved)?;
    }
    Ok(())
}
