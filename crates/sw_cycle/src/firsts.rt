//! The first steps of flows from each channel of a round to the next one.
ghost use Rattle.std.specs.Prelude.{◌≡◌, ◌<◌, ◌≤◌, ℕ, All, Contains, IfOk, Some, [], length, slice_get, ◌↔◌};
ghost use Rattle.std.specs.List.{AllZip};
ghost use Rattle.sw_config.specs.Entries.{all_flows};
ghost use Rattle.sw_flow.specs.Places.{IsPlace, IsPlaceList, ends_of};
ghost use Rattle.sw_cycle.specs.Causes.{NoneGoesOn};
ghost use Rattle.sw_cycle.specs.Firsts.{AreFirst, AreNoted, IsNotedAt, NoneYet};
ghost use Rattle.sw_cycle.specs.Positions.{ArePositions};

use crate::flow_places::flow_and_places;
use crate::positions::positions_of;
use crate::steps::{PlaceStep, follower_between};
use std::alloc::{AllocError, Global};
use sw_config::{Flow, Network};
use sw_flow::Place;
use sw_topo::Chan;

/// Takes one more place of a flow into account at one position of the round.
fn note_at(
    network: &Network,
    number: u16,
    flow: &Flow,
    place: &Place,
    channels: &[Chan],
    position: usize,
    steps: &mut [Option<PlaceStep>],
)
    requires short { length flow.now.address ≤ 32 }
    requires inside { position < length channels.now }
    requires size { length steps.old ≡ length channels.now }
    ensures { IsNotedAt network.now number flow.now place.now channels.now position steps.old steps.new }
{
    let from = channels[position];
    let to = channels[(position + 1) % channels.len()];
    if steps[position].is_some() {
        return;
    }
    let Some(next) = follower_between(network, flow, *place, from, to) else {
        return;
    };
    steps[position] = Some(PlaceStep {
        flow: number,
        last: *place,
        next,
    });
}

/// Takes one more place of a flow into account, whose channel stands at these positions of the
/// round.
fn note_place(
    network: &Network,
    number: u16,
    flow: &Flow,
    place: &Place,
    channels: &[Chan],
    positions: &[usize],
    steps: &mut [Option<PlaceStep>],
)
    requires short { length flow.now.address ≤ 32 }
    requires numbered { slice_get (all_flows network.now) number ≡ Some flow.now }
    requires place { IsPlace network.now flow.now place.now.channel place.now.deleted }
    requires positions { (i : ℕ) → Contains positions.now i ↔ ((i < length channels.now) × (slice_get channels.now i ≡ Some place.now.channel)) }
    requires size { length steps.old ≡ length channels.now }
    ensures { AreNoted network.now number flow.now place.now channels.now steps.old steps.new }
{
    for position in positions {
        note_at(network, number, flow, place, channels, *position, steps);
    }
}

/// Takes the places of one more flow into account.
fn note_places(
    network: &Network,
    number: u16,
    flow: &Flow,
    places: &[Place],
    channels: &[Chan],
    positions: &[Vec<usize>],
    steps: &mut [Option<PlaceStep>],
)
    requires short { length flow.now.address ≤ 32 }
    requires numbered { slice_get (all_flows network.now) number ≡ Some flow.now }
    requires places { IsPlaceList network.now flow.now places.now }
    requires count { length positions.now ≡ length (ends_of network.now) }
    requires positions { ArePositions channels.now (length channels.now) positions.now }
    requires first { AreFirst network.now (NoneYet network.now number flow.now []) channels.now steps.old }
    ensures { AreFirst network.now (NoneYet network.now number flow.now places.now) channels.now steps.new }
{
    for place in places {
        let at = &positions[usize::from(place.channel.number())];
        note_place(network, number, flow, place, channels, at, steps);
    }
}

/// For each channel of the round and the next one a step of the first flow that goes on so, if one
/// does.
///
/// The time is linear in the channels, the round and the places of all flows.
pub(crate) fn first_steps(
    alloc: Global,
    network: &Network,
    places: &[Vec<Place>],
    channels: &[Chan],
) -> Result<Vec<Option<PlaceStep>>, AllocError>
    requires lists { AllZip (λ f ps. IsPlaceList network.now f ps.items) (all_flows network.now) places.now }
    requires inside { All (λ c. c < length (ends_of network.now)) channels.now }
    ensures { IfOk result (λ v. AreFirst network.now (NoneGoesOn network.now) channels.now v.items) }
{
    let mut steps = vec![in alloc; None; channels.len()]?;
    let positions = positions_of(alloc, usize::from(network.channels()), channels)?;
    for number in 0..network.flows() {
        let (flow, listed) = flow_and_places(network, places, number);
        note_places(
            network, number, flow, listed, channels, &positions, &mut steps,
        );
    }
    Ok(steps)
}
