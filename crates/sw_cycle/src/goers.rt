//! All flows that go on from each channel of a round to the next one.
ghost use Rattle.std.specs.Prelude.{◌≡◌, ◌+◌, ◌<◌, ◌≤◌, ◌↔◌, AllPairs, Contains, IfOk, IsTrue, OnOk, Some, length, nat_lt, slice_get};
ghost use Rattle.std.specs.List.{AllZip};
ghost use Rattle.sw_config.specs.Entries.{all_flows};
ghost use Rattle.sw_flow.specs.declared.place.Place.{Place};
ghost use Rattle.sw_flow.specs.Places.{IsBefore, IsPlaceList};
ghost use Rattle.sw_cycle.specs.Causes.{GoesOn};
ghost use Rattle.sw_cycle.specs.Goers.{AreBelow, AreFlows, AreMarked};

use crate::flow_places::flow_and_places;
use crate::marks::is_marked;
use crate::steps::follower_between;
use std::alloc::{AllocError, Global};
use sw_config::{Flow, Network};
use sw_flow::Place;
use sw_graph::{add_to_row, empty_rows};
use sw_topo::Chan;

/// The places on the channel and on those after it.
fn places_from(places: &[Place], channel: Chan) -> &[Place]
    requires { AllPairs IsBefore places.now }
    ensures order { AllPairs IsBefore result.now }
    ensures listed { (p : Place) → Contains result.now p ↔ (Contains places.now p × (channel ≤ p.channel)) }
{
    let first = places.partition_point(
        |place: &Place| -> bool
            ensures { result ≡ nat_lt place.now.channel channel }
        { place.channel.number() < channel.number() },
    );
    &places[first..]
}

/// Does the flow of that number, which has these places, on channels that are marked, go on from
/// the one channel to the other?
fn goes_on_from(
    network: &Network,
    number: u16,
    flow: &Flow,
    places: &[Place],
    marks: &[bool],
    from: Chan,
    to: Chan,
) -> bool
    requires short { length flow.now.address ≤ 32 }
    requires numbered { slice_get (all_flows network.now) number ≡ Some flow.now }
    requires places { IsPlaceList network.now flow.now places.now }
    requires marked { AreMarked places.now marks.now }
    ensures { IsTrue result ↔ GoesOn network.now number from to }
{
    if !is_marked(marks, from.number()) {
        return false;
    }
    for place in places_from(places, from) {
        if place.channel != from {
            return false;
        }
        if follower_between(network, flow, *place, from, to).is_some() {
            return true;
        }
    }
    false
}

/// Takes the flow of that number into account at each step of the round.
fn take_numbered(
    alloc: Global,
    network: &Network,
    places: &[Vec<Place>],
    number: u16,
    channels: &[Chan],
    flows: &mut [Vec<u16>],
) -> Result<(), AllocError>
    requires lists { AllZip (λ f ps. IsPlaceList network.now f ps.items) (all_flows network.now) places.now }
    requires inside { number < length (all_flows network.now) }
    requires below { AreBelow network.now channels.now number flows.old }
    ensures { OnOk result (AreBelow network.now channels.now (number + 1) flows.new) }
{
    let (flow, listed) = flow_and_places(network, places, number);
    let mut marks = vec![in alloc; false; usize::from(network.channels())]?;
    for place in listed {
        marks[usize::from(place.channel.number())] = true;
    }
    for step in 0..channels.len() {
        let to = channels[(step + 1) % channels.len()];
        let goes = goes_on_from(network, number, flow, listed, &marks, channels[step], to);
        add_to_row(flows, step, goes, number)?;
    }
    Ok(())
}

/// For each of the channels the numbers of all flows that go on from it to the next one, and from
/// the last to the first, in rising order. `places` has the places of each flow, by the flows'
/// numbers, as `all_places` gives them.
///
/// The places of each flow are gone through once, and then those that are on the first channel of a
/// step, for the steps for which there are some.
///
/// # Errors
///
/// There is no memory for the numbers, or for what finds them.
pub fn flows_of_steps(
    alloc: Global,
    network: &Network,
    places: &[Vec<Place>],
    channels: &[Chan],
) -> Result<Vec<Vec<u16>>, AllocError>
    requires { AllZip (λ f ps. IsPlaceList network.now f ps.items) (all_flows network.now) places.now }
    ensures { IfOk result (λ v. AreFlows network.now channels.now v.items) }
{
    let mut flows = empty_rows(alloc, channels.len())?;
    for number in 0..network.flows() {
        take_numbered(alloc, network, places, number, channels, &mut flows)?;
    }
    Ok(flows)
}
