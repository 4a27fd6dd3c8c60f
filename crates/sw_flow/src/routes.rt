//! The places of flows.
ghost use Rattle.std.specs.Prelude.{◌≡◌, ◌<◌, ◌≤◌, ◌*◌, ◌/◌, ◌%◌, ℕ, All, map, length, IfOk};
ghost use Rattle.sw_config.specs.Entries.{all_flows};
ghost use Rattle.sw_flow.specs.Places.{IsPlacesOf};

use crate::place::Place;
use crate::steps::{FlowSteps, place_of};
use std::alloc::{AllocError, Global};
use sw_config::Network;
use sw_graph::reached;

/// The places of these numbers, where each channel has `width` places.
pub(crate) fn places_of(
    alloc: Global,
    numbers: &[usize],
    width: usize,
) -> Result<Vec<Place>, AllocError>
    requires positive { 0 < width }
    requires small { width ≤ 33 }
    requires below { All (λ n. n < 2048 * width) numbers.now }
    ensures { IfOk result (λ v. v.items ≡ map (λ n. record { channel = n / width; deleted = n % width }) numbers.now) }
{
    let mut places = Vec::with_capacity(alloc, numbers.len())?;
    for number in numbers {
        places.push(place_of(*number, width))?;
    }
    Ok(places)
}

/// The places of the flow of that number (ECSS-E-ST-50-12C, network layer: packet addressing), each once, in order: by channel, then
/// by the count of deleted address bytes.
///
/// # Errors
///
/// There is no memory for the places, or for what finds them.
pub fn places(alloc: Global, network: &Network, flow: u16) -> Result<Vec<Place>, AllocError>
    requires { flow < length (all_flows network.now) }
    ensures { IfOk result (λ v. IsPlacesOf network.now flow v.items) }
{
    let flow = network.flow(flow);
    let topology = network.topology();
    let width = flow.address().len() + 1;
    let bound = topology.channels() as usize * width;
    let start = topology.out(flow.from());
    let steps = FlowSteps { network, flow };
    let numbers = reached(alloc, &steps, bound, start.number() as usize * width)?;
    places_of(alloc, &numbers, width)
}
