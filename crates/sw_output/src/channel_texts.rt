//! How channels are written.
ghost use Rattle.std.specs.Prelude.{◌≡◌, ◌<◌, length, IfOk, string_bytes};
ghost use Rattle.sw_topo.specs.Checked.{IsIn};
ghost use Rattle.sw_config.specs.Entries.{wiring_of};
ghost use Rattle.sw_output.specs.ChannelTexts.{channel_text, end_text};

use std::alloc::{AllocError, Global};
use sw_config::Network;
use sw_topo::{Chan, PlaceEnd};

/// An end of a link: the node's name, or the switch's name and the port.
///
/// # Errors
///
/// There is no memory for the text.
pub fn end_text(alloc: Global, network: &Network, end: PlaceEnd) -> Result<String, AllocError>
    requires { IsIn (length network.now.nodes) (length network.now.switches) end }
    ensures { IfOk result (λ s. string_bytes s ≡ end_text network.now end) }
{
    match end {
        PlaceEnd::Node(node) => String::from_str(alloc, network.node_name(node)),
        PlaceEnd::Switch(switch, port) => {
            let name = network.switch_name(switch);
            let port = port.number();
            format!(in alloc; "{name}:{port}")
        }
    }
}

/// The channel as `START>END`.
///
/// # Errors
///
/// There is no memory for the text.
pub fn channel_text(alloc: Global, network: &Network, channel: Chan) -> Result<String, AllocError>
    requires { channel < length (wiring_of network.now).ends }
    ensures { IfOk result (λ s. string_bytes s ≡ channel_text network.now channel) }
{
    let topology = network.topology();
    let start = end_text(alloc, network, topology.start_of(channel))?;
    let end = end_text(alloc, network, topology.end_of(channel))?;
    format!(in alloc; "{start}>{end}")
}
