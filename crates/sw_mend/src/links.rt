//! The links that targets of their own can have.
ghost use Rattle.std.specs.Prelude.{◌≡◌, ◌*◌, ◌<◌, ◌≤◌, IfSome, length};
ghost use Rattle.std.specs.Option.{option_to_list};
ghost use Rattle.sw_topo.specs.Checked.{IsIn};
ghost use Rattle.sw_config.specs.Entries.{link_ends};
ghost use Rattle.sw_mend.specs.Changes.{made_at};
ghost use Rattle.sw_mend.specs.Splits.{IsTargetLink, free_port_below, is_free_port, link_beside, own_links};

use crate::change::TargetLink;
use std::marker::Model;
use sw_config::Network;
use sw_topo::limits::PORTS;
use sw_topo::{Chan, PlaceEnd, Port, Topology};

/// Has the port no link, and is it none of the switch's own?
fn is_free_port(topology: &Topology, switch: u16, port: Port) -> bool
    requires { switch < topology.now.switches }
    ensures { result ≡ is_free_port topology.now.ends switch port }
{
    port.number() != 0 && !topology.out_of(switch, port).is_some()
}

/// The least port of the switch that has no link.
#[tactic(auto, using(sw_topo::proofs::Least::least_found), unfolding(crate::specs::Splits::free_port_below))]
fn free_port(topology: &Topology, switch: u16, bound: u8) -> Option<Port>
    requires switch { switch < topology.now.switches }
    requires bound { bound ≤ 32 }
    ensures { result ≡ free_port_below bound topology.now.ends switch }
{
    for number in 0..bound {
        let port = Port::new(number).unwrap();
        if is_free_port(topology, switch, port) {
            return Some(port);
        }
    }
    None
}

/// The link beside that of the node, whose channel out leads to such an end.
fn link_beside(network: &Network, node: u16, channel: Chan, end: PlaceEnd) -> Option<TargetLink>
    requires node { node < length network.now.nodes }
    requires channel { channel < 2 * length network.now.links }
    requires end { IsIn (length network.now.nodes) (length network.now.switches) end }
    ensures link { result ≡ link_beside network.now node channel end }
    ensures inside { IfSome result (IsTargetLink network.now) }
{
    match end {
        PlaceEnd::Node(_) => None,
        PlaceEnd::Switch(switch, beside) => {
            let port = free_port(network.topology(), switch, PORTS)?;
            Some(TargetLink {
                node,
                switch,
                beside,
                port,
                near: network.capacity(channel.partner()),
                far: network.capacity(channel),
            })
        }
    }
}

/// The link that the target of the node can have of its own, if it answers commands.
pub(crate) fn own_link_of(network: &Network, node: u16) -> Option<TargetLink>
    requires { node < length network.now.nodes }
    ensures link { option_to_list result ≡ made_at (own_links network.now) network.now.nodes node }
    ensures inside { IfSome result (IsTargetLink network.now) }
{
    if !network.is_target(node) {
        return None;
    }
    if !network.is_answering(node) {
        return None;
    }
    let topology = network.topology();
    let channel = topology.out(node);
    link_beside(network, node, channel, topology.end_of(channel))
}
