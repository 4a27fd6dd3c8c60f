//! The network in which a node is split, built anew.
ghost use Rattle.std.specs.Prelude.{◌≡◌, ◌<◌, ◌++◌, [], false, codes, IfOk, OnOk, length, slice_get, option_map, Some, string_bytes};
ghost use Rattle.std.specs.List.{list_any};
ghost use Rattle.std.specs.Str.{bytes_eq};
ghost use Rattle.sw_config.specs.Entries.{empty, part_names};
ghost use Rattle.sw_mend.specs.Splits.{IsSplit, IsTargetLink, IsWired, split};

use crate::change::TargetLink;
use crate::moved::add_split_flows;
use crate::parts::{add_links, add_nodes, add_switches};
use std::alloc::{AllocError, Global};
use std::marker::Model;
use sw_config::{Network, NetworkBuilder};
use sw_topo::limits::MAX_NODES;
use sw_topo::{PlaceEnd, TopoError};

/// Has a node or a switch that name?
fn is_taken(network: &Network, name: &str) -> bool
    ensures { result ≡ list_any (bytes_eq name.now) (part_names network.now) }
{
    if network.node_named(name).is_some() {
        return true;
    }
    for switch in 0..network.switches() {
        if name == network.switch_name(switch) {
            return true;
        }
    }
    false
}

/// Adds the nodes, the switches and the links after the split.
fn add_split_parts(
    alloc: Global,
    network: &Network,
    link: &TargetLink,
    name: &str,
    builder: &mut NetworkBuilder,
) -> Result<(), AllocError>
    requires link { IsTargetLink network.now link.now }
    requires few { length network.now.nodes < MAX_NODES }
    requires name { option_map (λ e. e.name ++ codes "-target") (slice_get network.now.nodes link.now.node) ≡ Some name.now }
    requires new_name { list_any (bytes_eq name.now) (part_names network.now) ≡ false }
    requires before { builder.old ≡ empty }
    ensures { OnOk result (builder.new ≡ record (split network.now link.now) { flows = [] }) }
{
    // Names the network, which is valid by its type.
    let _topology = network.topology();
    add_nodes(alloc, network, builder)?;
    builder.add_node(alloc, name, network.target(link.node), None)?;
    add_switches(alloc, network, &[], builder)?;
    add_links(network, builder)?;
    // Reads the port, which is 0 to 31.
    let _port = link.port.number();
    let near = PlaceEnd::Node(network.nodes());
    let far = PlaceEnd::Switch(link.switch, link.port);
    builder.add_link(near, far, link.near, link.far)
}

/// The network after the split, without flows, if its wiring has no fault.
fn without_flows(
    alloc: Global,
    network: &Network,
    link: &TargetLink,
    name: &str,
) -> Result<Option<Network>, AllocError>
    requires link { IsTargetLink network.now link.now }
    requires few { length network.now.nodes < MAX_NODES }
    requires name { option_map (λ e. e.name ++ codes "-target") (slice_get network.now.nodes link.now.node) ≡ Some name.now }
    requires new_name { list_any (bytes_eq name.now) (part_names network.now) ≡ false }
    ensures { IfOk result (IsWired (record (split network.now link.now) { flows = [] })) }
{
    let mut builder = NetworkBuilder::new(alloc);
    match add_split_parts(alloc, network, link, name, &mut builder) {
        Ok(()) => match builder.wire(alloc) {
            Ok(network) => Ok(Some(network)),
            Err(TopoError::Fault(_)) => Ok(None),
            Err(TopoError::Memory) => Err(AllocError),
        },
        Err(refused) => {
            builder.discard();
            Err(refused)
        }
    }
}

/// The same with its flows.
fn with_flows(
    alloc: Global,
    network: &Network,
    link: &TargetLink,
    mut built: Network,
) -> Result<Option<Network>, AllocError>
    requires link { IsTargetLink network.now link.now }
    requires built { built ≡ record (split network.now link.now) { flows = [] } }
    ensures { IfOk result (λ n. n ≡ Some (split network.now link.now)) }
{
    match add_split_flows(alloc, network, link, &mut built) {
        Ok(()) => Ok(Some(built)),
        Err(refused) => {
            built.discard();
            Err(refused)
        }
    }
}

/// The network after the split, whose target's own node has that name, if its wiring has no fault.
fn split_by_name(
    alloc: Global,
    network: &Network,
    link: &TargetLink,
    name: &str,
) -> Result<Option<Network>, AllocError>
    requires link { IsTargetLink network.now link.now }
    requires few { length network.now.nodes < MAX_NODES }
    requires name { option_map (λ e. e.name ++ codes "-target") (slice_get network.now.nodes link.now.node) ≡ Some name.now }
    ensures { IfOk result (IsSplit network.now link.now) }
{
    if is_taken(network, name) {
        return Ok(None);
    }
    match without_flows(alloc, network, link, name)? {
        Some(built) => with_flows(alloc, network, link, built),
        None => Ok(None),
    }
}

/// The network after the split, if it is one: the name of the target's own node is not taken, and no limit is passed.
///
/// # Errors
///
/// There is no memory for it.
pub(crate) fn network_split(
    alloc: Global,
    network: &Network,
    link: &TargetLink,
) -> Result<Option<Network>, AllocError>
    requires { IsTargetLink network.now link.now }
    ensures { IfOk result (IsSplit network.now link.now) }
{
    if network.nodes() >= MAX_NODES {
        return Ok(None);
    }
    let node_name = network.node_name(link.node);
    let name = format!(in alloc; "{node_name}-target")?;
    split_by_name(alloc, network, link, name.as_str())
}
