//! Circles of flows.
ghost use Rattle.std.specs.Prelude.{◌≡◌, ◌++◌, ◌≤◌, ◌<◌, IfOk, IfSome, List, OnOk, ℕ, length, map, slice_get};
ghost use Rattle.sw_config.specs.Entries.{all_flows};
ghost use Rattle.sw_config.specs.Valid.{IsFlow};
ghost use Rattle.sw_flow.specs.Places.{IsPlaceList};
ghost use Rattle.sw_graph.specs.Components.{AreComponents};
ghost use Rattle.sw_graph.specs.Rows.{IsGraph, Leads};
ghost use Rattle.sw_circles.specs.Circles.{AreCircles, AreCirclesOf, arrives, channel_at, channels_at, is_end, with_deleted};

use crate::rows::{rows_of, with_deleted};
use std::alloc::{AllocError, Global};
use sw_config::PlaceEnd;
use sw_flow::{Chan, Flow, Network, Place};
use sw_graph::{Component, OneByOne, components};
use sw_margin::has_no_cycle_with;

/// The channel of the place of that number.
fn channel_at(places: &[Place], number: u16) -> Option<Chan>
    ensures { result ≡ channel_at places.now number }
{
    match places.get(usize::from(number)) {
        Some(place) => Some(place.channel),
        None => None,
    }
}

/// The channels of the places of these numbers.
fn channels_at(alloc: Global, places: &[Place], numbers: &[u16]) -> Result<Vec<Chan>, AllocError>
    ensures { IfOk result (λ v. v.items ≡ channels_at places.now numbers.now) }
{
    let mut channels = Vec::new(alloc);
    for number in numbers {
        if let Some(channel) = channel_at(places, *number) {
            channels.push(channel)?;
        }
    }
    Ok(channels)
}

/// The components of the relation, as `sw_graph::components` gives them, which takes longer: where the relation has no cycle, none are looked for.
fn components_of(alloc: Global, rows: &[Vec<u16>]) -> Result<Vec<Component>, AllocError>
    requires few { length rows.now ≤ 65535 }
    requires graph { IsGraph rows.now }
    ensures { IfOk result (λ v. AreComponents (Leads rows.now) v.items) }
{
    if has_no_cycle_with(&OneByOne, alloc, rows, &[], &[])? {
        return Ok(Vec::new(alloc));
    }
    components(alloc, rows)
}

/// Adds the circles of these places of the flow, all with as many address bytes deleted.
fn add_circles(
    alloc: Global,
    network: &Network,
    flow: &Flow,
    places: &[Place],
    circles: &mut Vec<Vec<Chan>>,
) -> Result<(), AllocError>
    requires address { length flow.now.address ≤ 32 }
    requires few { length places.now ≤ 65535 }
    requires list { (all : List Place) × (k : ℕ) × IsPlaceList network.now flow.now all × (places.now ≡ with_deleted k all) }
    ensures { OnOk result ((more : List (List ℕ)) × AreCirclesOf network.now flow.now places.now more × (map (λ c. c.items) circles.new.items ≡ map (λ c. c.items) circles.old.items ++ more)) }
{
    let rows = rows_of(alloc, network, flow, places)?;
    let found = components_of(alloc, &rows)?;
    for component in &found {
        circles.push(channels_at(alloc, places, &component.cycle)?)?;
    }
    Ok(())
}

/// The circles of a flow, each as its channels in order: packets go over them again and again, with no address byte deleted in between. Of the places
/// from each of which packets can come to each other the shortest circle is told. None where no packet can come back to a place.
///
/// `places` has the places of the flow, as `sw_flow::places` gives them.
///
/// # Errors
///
/// There is no memory for the circles, or for what finds them.
pub fn circles(
    alloc: Global,
    network: &Network,
    flow: &Flow,
    places: &[Place],
) -> Result<Vec<Vec<Chan>>, AllocError>
    requires flow { IsFlow network.now.nodes flow.now }
    requires list { IsPlaceList network.now flow.now places.now }
    ensures { IfOk result (λ v. AreCircles network.now flow.now (map (λ c. c.items) v.items)) }
{
    // There are at most 2,048.
    let _channels = network.channels();
    let mut circles = Vec::new(alloc);
    for deleted in 0..flow.address().len() as u8 {
        let alike = with_deleted(alloc, places, deleted)?;
        add_circles(alloc, network, flow, &alike, &mut circles)?;
    }
    Ok(circles)
}

/// Is one of the places on a channel that ends at the flow's end?
fn is_end(network: &Network, flow: &Flow, place: Place) -> bool
    ensures { result ≡ is_end network.now flow.now place }
{
    let topology = network.topology();
    if place.channel.number() >= topology.channels() {
        return false;
    }
    match topology.end_of(place.channel) {
        PlaceEnd::Node(node) => node == flow.to(),
        PlaceEnd::Switch(_, _) => false,
    }
}

/// Do packets of the flow come to the node where it ends? `places` has the places of the flow, as `sw_flow::places` gives them.
pub fn arrives(network: &Network, flow: &Flow, places: &[Place]) -> bool
    ensures { result ≡ arrives network.now flow.now places.now }
{
    for place in places {
        if is_end(network, flow, *place) {
            return true;
        }
    }
    false
}
