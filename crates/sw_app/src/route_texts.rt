//! The text of `route`.
ghost use Rattle.std.specs.Prelude.{◌≡◌, ◌++◌, ◌<◌, All, IfOk, length, string_bytes};
ghost use Rattle.sw_config.specs.Entries.{all_flows, wiring_of};
ghost use Rattle.sw_app.specs.RouteTexts.{outcome_line, place_line, route_text};

use std::alloc::{AllocError, Global};
use std::fmt::Write;
use sw_config::Network;
use sw_flow::{Place, RouteFault};
use sw_output::{channel_text, route_fault_text};

/// Adds the line of a place.
fn add_place(
    alloc: Global,
    network: &Network,
    place: Place,
    text: &mut String,
) -> Result<(), AllocError>
    requires { place.channel < length (wiring_of network.now).ends }
    ensures { IfOk result (λ _. string_bytes text.new ≡ string_bytes text.old ++ place_line network.now place) }
{
    let ends = channel_text(alloc, network, place.channel)?;
    let channel = place.channel.number();
    let deleted = place.deleted;
    write!(text, "place {channel} {deleted} {ends}\n")
}

/// Adds the last line: `routed`, or the place with a fault.
fn add_outcome(fault: Option<(Place, RouteFault)>, text: &mut String) -> Result<(), AllocError>
    ensures { IfOk result (λ _. string_bytes text.new ≡ string_bytes text.old ++ outcome_line fault) }
{
    let Some((place, fault)) = fault else {
        return text.push_str("routed\n");
    };
    let channel = place.channel.number();
    let deleted = place.deleted;
    let name = route_fault_text(fault);
    write!(text, "misrouted {channel} {deleted} {name}\n")
}

/// The flow's name, a line for each of its places, and the fault, if there is one.
pub(crate) fn route_text(
    alloc: Global,
    network: &Network,
    flow: u16,
    places: &[Place],
    fault: Option<(Place, RouteFault)>,
) -> Result<String, AllocError>
    requires within { flow < length (all_flows network.now) }
    requires places { All (λ p. p.channel < length (wiring_of network.now).ends) places.now }
    ensures { IfOk result (λ s. string_bytes s ≡ route_text network.now flow places.now fault) }
{
    let name = network.flow(flow).name();
    let mut text = format!(in alloc; "flow {name}\n")?;
    for place in places {
        add_place(alloc, network, *place, &mut text)?;
    }
    add_outcome(fault, &mut text)?;
    Ok(text)
}
