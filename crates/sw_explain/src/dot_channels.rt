//! Channels in DOT.
ghost use Rattle.std.specs.Prelude.{◌≡◌, ◌<◌, ◌++◌, OnOk, length, string_bytes};
ghost use Rattle.sw_config.specs.Entries.{wiring_of};
ghost use Rattle.sw_explain.specs.Drawings.{drawn_over};
ghost use Rattle.sw_explain.specs.DrawTexts.{channel_statement, end_text};

use crate::dot_marks::{add_flow_mark, add_step_mark, end_marks};
use std::alloc::AllocError;
use std::fmt::Write;
use sw_config::Network;
use sw_flow::Place;
use sw_output::{node_name, switch_name};
use sw_topo::{Chan, PlaceEnd};

/// Adds the node, or the port's field of the switch, behind what stands before it.
fn add_end(
    before: &str,
    network: &Network,
    end: PlaceEnd,
    text: &mut String,
) -> Result<(), AllocError>
    ensures { OnOk result (string_bytes text.new ≡ string_bytes text.old ++ (before.now ++ end_text network.now end)) }
{
    match end {
        PlaceEnd::Node(node) => {
            let name = node_name(network, node);
            write!(text, "{before}\"{name}\"")
        }
        PlaceEnd::Switch(switch, port) => {
            let name = switch_name(network, switch);
            let port = port.number();
            write!(text, "{before}\"{name}\":{port}")
        }
    }
}

/// Adds an edge with what is told of the channel.
pub(crate) fn add_channel(
    network: &Network,
    places: &[Place],
    cycle: &[Chan],
    numbers: &[u16],
    number: u16,
    text: &mut String,
) -> Result<(), AllocError>
    requires { number < length (wiring_of network.now).ends }
    ensures { OnOk result (string_bytes text.new ≡ string_bytes text.old ++ channel_statement network.now (drawn_over places.now cycle.now numbers.now) number) }
{
    let channel = Chan::new(number);
    let topology = network.topology();
    add_end("  ", network, topology.start_of(channel), text)?;
    add_end(" -> ", network, topology.end_of(channel), text)?;
    let on_flow = add_flow_mark(places, channel, text)?;
    let marked = add_step_mark(cycle, channel, on_flow, text)?;
    end_marks(numbers, channel, marked, text)
}
