//! The text of a drawing.
ghost use Rattle.std.specs.Prelude.{◌≡◌, IfOk, string_bytes};
ghost use Rattle.sw_explain.specs.Drawings.{drawn_over};
ghost use Rattle.sw_explain.specs.DrawTexts.{draw_text};

use crate::dot_channels::add_channel;
use crate::dot_parts::{add_node, add_switch};
use std::alloc::{AllocError, Global};
use sw_config::Network;
use sw_flow::Place;
use sw_topo::Chan;

/// The network in DOT, its nodes as boxes, with what is drawn over its parts: the places of a flow, a cycle of channels, and the channels'
/// numbers, each empty where it is not drawn. A line for each node, each switch and each channel.
pub(crate) fn draw_text(
    alloc: Global,
    network: &Network,
    places: &[Place],
    cycle: &[Chan],
    numbers: &[u16],
) -> Result<String, AllocError>
    ensures { IfOk result (λ text. string_bytes text ≡ draw_text network.now (drawn_over places.now cycle.now numbers.now)) }
{
    let mut text = String::from_str(alloc, "digraph network {\n  node [shape=\"box\"];\n")?;
    for node in 0..network.nodes() {
        add_node(network, node, &mut text)?;
    }
    for switch in 0..network.switches() {
        add_switch(alloc, network, switch, &mut text)?;
    }
    for number in 0..network.channels() {
        add_channel(network, places, cycle, numbers, number, &mut text)?;
    }
    text.push_str("}\n")?;
    Ok(text)
}
