//! How places of flows and their faults are written.
ghost use Rattle.std.specs.Prelude.{◌≡◌, ◌<◌, IfOk, length, string_bytes};
ghost use Rattle.sw_config.specs.Entries.{all_flows};
ghost use Rattle.sw_output.specs.FlowTexts.{flow_name, place_words, route_fault_text};

use std::alloc::{AllocError, Global};
use sw_config::Network;
use sw_cycle::{Place, RouteFault};

/// The flow's name, which is empty where there is no such flow.
pub fn flow_name(network: &Network, flow: u16) -> &str
    ensures { result.now ≡ flow_name network.now flow }
{
    if flow < network.flows() {
        network.flow(flow).name()
    } else {
        ""
    }
}

/// A flow and a place of it: the flow's name, the channel's number and how many address bytes are deleted there.
///
/// # Errors
///
/// There is no memory for the text.
pub fn place_words(
    alloc: Global,
    network: &Network,
    flow: u16,
    place: Place,
) -> Result<String, AllocError>
    ensures { IfOk result (λ s. string_bytes s ≡ place_words network.now flow place) }
{
    let name = flow_name(network, flow);
    let channel = place.channel.number();
    let deleted = place.deleted;
    format!(in alloc; "{name} {channel} {deleted}")
}

/// The fault's code and name.
pub fn route_fault_text(fault: RouteFault) -> &'static str
    ensures { result.now ≡ route_fault_text fault }
{
    match fault {
        RouteFault::AddressEnds => "M1 AddressEnds",
        RouteFault::NoRoute => "M2 NoRoute",
        RouteFault::WrongNode => "M3 WrongNode",
        RouteFault::WrongLeft => "M4 WrongLeft",
    }
}
