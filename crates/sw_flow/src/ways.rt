//! Ways of flows to their places.
ghost use Rattle.std.specs.Prelude.{◌<◌, length, option_map, slice_get, IfOk, IfSome, Option};
ghost use Rattle.sw_config.specs.Entries.{all_flows};
ghost use Rattle.sw_flow.specs.Ways.{IsWayIfPlace};

use crate::place::Place;
use crate::routes::places_of;
use crate::steps::FlowSteps;
use std::alloc::{AllocError, Global};
use sw_config::Network;
use sw_graph::way;

/// Places from the start of the flow of that number to this place, by one step to each next one (ECSS-E-ST-50-12C, network layer: packet
/// addressing), with both; none where the place is not one of the flow's.
///
/// The time is linear in the number of channels times the length of the flow's address.
///
/// # Errors
///
/// There is no memory for the places, or for what finds them.
pub fn way_to(
    alloc: Global,
    network: &Network,
    flow: u16,
    place: Place,
) -> Result<Option<Vec<Place>>, AllocError>
    requires { flow < length (all_flows network.now) }
    ensures { IfOk result (λ found. IfSome (slice_get (all_flows network.now) flow) (λ f. IsWayIfPlace network.now f place (option_map (λ v. v.items) found))) }
{
    let flow = network.flow(flow);
    let topology = network.topology();
    let width = flow.address().len() + 1;
    let deleted = place.deleted as usize;
    if deleted >= width {
        return Ok(None);
    }
    let bound = topology.channels() as usize * width;
    let start = topology.out(flow.from());
    let goal = place.channel.number() as usize * width + deleted;
    let steps = FlowSteps { network, flow };
    match way(alloc, &steps, bound, start.number() as usize * width, goal)? {
        None => Ok(None),
        Some(numbers) => Ok(Some(places_of(alloc, &numbers, width)?)),
    }
}
