//! The lines of all nodes.
ghost use Rattle.std.specs.Prelude.{◌≡◌, ◌<◌, IfOk, length, map, string_bytes};
ghost use Rattle.sw_output.specs.PacketTexts.{by_node, node_line, packet_lines};

use crate::packet_lines::{add_node, add_packets};
use std::alloc::{AllocError, Global};
use sw_char::Packet;
use sw_config::Network;

/// A line for each node.
///
/// # Errors
///
/// There is no memory for the text.
pub fn all_node_lines(
    alloc: Global,
    network: &Network,
    all: &[Vec<Packet>],
) -> Result<String, AllocError>
    requires { length all.now ≡ length network.now.nodes }
    ensures { IfOk result (λ s. string_bytes s ≡ by_node node_line network.now (map (λ packets. packets.items) all.now)) }
{
    let mut text = String::new(alloc);
    for n in 0..network.nodes() {
        let name = network.node_name(n);
        add_node(name, &all[n as usize], &mut text)?;
    }
    Ok(text)
}

/// A line for each packet, node by node.
///
/// # Errors
///
/// There is no memory for the text.
pub fn all_packet_lines(
    alloc: Global,
    network: &Network,
    all: &[Vec<Packet>],
) -> Result<String, AllocError>
    requires { length all.now ≡ length network.now.nodes }
    ensures { IfOk result (λ s. string_bytes s ≡ by_node packet_lines network.now (map (λ packets. packets.items) all.now)) }
{
    let mut text = String::new(alloc);
    for n in 0..network.nodes() {
        let name = network.node_name(n);
        add_packets(alloc, name, &all[n as usize], &mut text)?;
    }
    Ok(text)
}
