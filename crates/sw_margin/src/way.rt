//! Ways of flows, and what waits where they are answered.
ghost use Rattle.std.specs.Prelude.{◌≡◌, ◌<◌, ◌++◌, ◌∷◌, [], All, IfOk, length, slice_get};
ghost use Rattle.sw_topo.specs.Wiring.{partner};
ghost use Rattle.sw_config.specs.Valid.{IsFlow};
ghost use Rattle.sw_flow.specs.Followers.{followers_of};
ghost use Rattle.sw_flow.specs.Places.{ends_of};
ghost use Rattle.sw_margin.specs.Bends.{answered, answering, goes_on_to_one, goes_one_way, is_just_enough};
ghost use Rattle.sw_margin.specs.Waits.{IsWithin};

use crate::nodes::stall;
use std::alloc::{AllocError, Global};
use sw_config::{Flow, Network};
use sw_flow::{Place, flow_start, followers_in};

/// The first of the places that follow.
fn first_follower(network: &Network, flow: &Flow, place: &Place) -> Option<Place>
    requires { IsFlow network.now.nodes flow.now }
    ensures { result ≡ slice_get (followers_of network.now flow.now place.now.channel place.now.deleted) 0 }
{
    followers_in(network, flow, *place).next()
}

/// Does the flow go on from the place to one place at most?
fn goes_on_to_one(network: &Network, flow: &Flow, place: &Place) -> bool
    requires { IsFlow network.now.nodes flow.now }
    ensures { result ≡ goes_on_to_one network.now flow.now place.now }
{
    let mut followers = followers_in(network, flow, *place);
    let _first = followers.next();
    followers.next().is_none()
}

/// Does the flow go one way: from each place of its way to one place at most?
pub(crate) fn goes_one_way(network: &Network, flow: &Flow) -> bool
    requires { IsFlow network.now.nodes flow.now }
    ensures { result ≡ goes_one_way network.now flow.now }
{
    let mut place = flow_start(network, flow);
    for _ in 0..network.channels() {
        if !goes_on_to_one(network, flow, &place) {
            return false;
        }
        let Some(next) = first_follower(network, flow, &place) else {
            return true;
        };
        place = next;
    }
    goes_on_to_one(network, flow, &place)
}

/// Adds what waits between the places of the flow's way, and tells the last of these.
fn add_waits_back(
    network: &Network,
    flow: &Flow,
    waits: &mut Vec<(u16, u16)>,
) -> Result<Place, AllocError>
    requires { IsFlow network.now.nodes flow.now }
    ensures { IfOk result (λ last. waits.new.items ++ (last.channel, partner last.channel) ∷ [] ≡ waits.old.items ++ answering network.now flow.now) }
{
    let mut place = flow_start(network, flow);
    for _ in 0..network.channels() {
        let Some(next) = first_follower(network, flow, &place) else {
            return Ok(place);
        };
        // Between two places that follow one another: replies go back from the later one to the earlier one.
        waits.push((
            next.channel.partner().number(),
            place.channel.partner().number(),
        ))?;
        place = next;
    }
    Ok(place)
}

/// What waits for what where the flow is answered, the replies going back over the links of its way.
fn waits_of_answers(
    alloc: Global,
    network: &Network,
    flow: &Flow,
) -> Result<Vec<(u16, u16)>, AllocError>
    requires { IsFlow network.now.nodes flow.now }
    ensures waits { IfOk result (λ v. v.items ≡ answering network.now flow.now) }
    ensures within { IfOk result (λ v. All (IsWithin (length (ends_of network.now))) v.items) }
{
    let mut waits = Vec::new(alloc);
    let last = add_waits_back(network, flow, &mut waits)?;
    // Where the way ends: what comes there waits for the replies.
    waits.push((last.channel.number(), last.channel.partner().number()))?;
    Ok(waits)
}

/// May as many commands be unanswered at the node as replies may be owed?
fn is_just_enough(network: &Network, node: u16) -> bool
    requires { node < length network.now.nodes }
    ensures { result ≡ is_just_enough network.now node }
{
    let Some(limit) = network.limit_at(node) else {
        return false;
    };
    match network.target(node) {
        Some(target) => limit == u32::from(target.slots),
        None => limit == 1,
    }
}

/// What waits for what where the flow is answered, the replies going back over the links of its way, and ending where it starts.
pub(crate) fn waits_where_answered(
    alloc: Global,
    network: &Network,
    flow: &Flow,
) -> Result<Vec<(u16, u16)>, AllocError>
    requires { IsFlow network.now.nodes flow.now }
    ensures waits { IfOk result (λ v. v.items ≡ answered network.now flow.now) }
    ensures within { IfOk result (λ v. All (IsWithin (length (ends_of network.now))) v.items) }
{
    let mut waits = waits_of_answers(alloc, network, flow)?;
    if !is_just_enough(network, flow.from()) {
        return Ok(waits);
    }
    waits.push(stall(network, flow.from()))?;
    Ok(waits)
}
