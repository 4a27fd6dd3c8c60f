//! The flows that are lost without a link.
ghost use Rattle.std.specs.Prelude.{◌≡◌, ◌<◌, ◌/◌, ◌==◌, ◌∷◌, [], IfOk, IfSome, OnOk, length};
ghost use Rattle.std.specs.List.{list_all};
ghost use Rattle.sw_config.specs.Valid.{IsFlow};
ghost use Rattle.sw_flow.specs.Places.{IsPlaceList};
ghost use Rattle.sw_search.specs.Lists.{AreListed};
ghost use Rattle.sw_margin.specs.Losses.{AreLosses};
ghost use Rattle.sw_margin.specs.Needs.{AreAdded, AreMarked, AreNeeded, link_after, only_link};

use std::alloc::{AllocError, Global};
use sw_config::{Flow, Network};
use sw_flow::{Followers, Place, followers_in};
use sw_graph::{add_to_row, empty_rows};

/// Are all these places on that link?
fn are_on_link(places: Followers<'_>, link: u16) -> bool
    ensures { result ≡ list_all (λ q. q.channel / 2 == link) places.entry }
{
    for place in places {
        if place.channel.number() / 2 != link {
            return false;
        }
    }
    true
}

/// The link of the first place, if the others are on it too.
fn link_of_all(first: &Place, rest: Followers<'_>) -> Option<u16>
    ensures { result ≡ only_link (first.now ∷ rest.entry) }
{
    let link = first.channel.number() / 2;
    if are_on_link(rest, link) {
        Some(link)
    } else {
        None
    }
}

/// The link on which all these places are, if there are some.
fn only_link(mut places: Followers<'_>) -> Option<u16>
    ensures { result ≡ only_link places.entry }
{
    match places.next() {
        Some(first) => link_of_all(&first, places),
        None => None,
    }
}

/// The link over which alone the flow goes on from that place.
fn link_after(network: &Network, flow: &Flow, place: &Place) -> Option<u16>
    requires { IsFlow network.now.nodes flow.now }
    ensures link { result ≡ link_after network.now flow.now place.now }
    ensures within { IfSome result (λ l. l < length network.now.links) }
{
    only_link(followers_in(network, flow, *place))
}

/// Marks the link that the flow needs at that place, if there is one.
fn mark_place(network: &Network, flow: &Flow, place: &Place, marks: &mut [bool])
    requires flow { IsFlow network.now.nodes flow.now }
    requires size { length marks.old ≡ length network.now.links }
    ensures { AreMarked network.now flow.now (place.now ∷ []) marks.old marks.new }
{
    if let Some(link) = link_after(network, flow, place) {
        marks[usize::from(link)] = true;
    }
}

/// Marks the links that the flow needs at these places.
fn mark_places(network: &Network, flow: &Flow, places: &[Place], marks: &mut [bool])
    requires flow { IsFlow network.now.nodes flow.now }
    requires size { length marks.old ≡ length network.now.links }
    ensures { AreMarked network.now flow.now places.now marks.old marks.new }
{
    for place in places {
        mark_place(network, flow, place, marks);
    }
}

/// A mark for each link that the flow needs.
fn needed_links(
    alloc: Global,
    network: &Network,
    flow: &Flow,
    places: &[Place],
) -> Result<Vec<bool>, AllocError>
    requires flow { IsFlow network.now.nodes flow.now }
    requires list { IsPlaceList network.now flow.now places.now }
    ensures { IfOk result (λ v. AreNeeded network.now flow.now v.items) }
{
    let mut marks = vec![in alloc; false; usize::from(network.links())]?;
    let start = network.topology().out(flow.from());
    marks[usize::from(start.number() / 2)] = true;
    mark_places(network, flow, places, &mut marks);
    Ok(marks)
}

/// Adds the flow to the rows of the links that are marked.
fn add_flow(marks: &[bool], flow: u16, losses: &mut [Vec<u16>]) -> Result<(), AllocError>
    requires { length losses.old ≡ length marks.now }
    ensures { OnOk result (AreAdded marks.now flow (length marks.now) losses.old losses.new) }
{
    for (link, needed) in marks.iter().enumerate() {
        add_to_row(losses, link, *needed, flow)?;
    }
    Ok(())
}

/// For each link the flows, declared and of replies, by number, that are lost without it: their packets begin on it, or can come to a
/// place from which they go on over it alone.
///
/// `places` has the places of each flow, reply flows too, as `sw_flow::all_places` gives them.
///
/// # Errors
///
/// There is no memory for what is told, or for what finds it.
pub fn losses(
    alloc: Global,
    network: &Network,
    places: &[Vec<Place>],
) -> Result<Vec<Vec<u16>>, AllocError>
    requires { AreListed network.now places.now }
    ensures { IfOk result (λ v. AreLosses network.now v.items) }
{
    let mut losses = empty_rows(alloc, usize::from(network.links()))?;
    for number in 0..network.flows() {
        let listed = &places[usize::from(number)];
        let marks = needed_links(alloc, network, network.flow(number), listed)?;
        add_flow(&marks, number, &mut losses)?;
    }
    Ok(losses)
}
