//! Ways of flows to a channel.
ghost use Rattle.std.specs.Prelude.{◌<◌, ◌≤◌, length};
ghost use Rattle.sw_config.specs.Entries.{all_flows};

use std::alloc::{AllocError, Global};
use sw_config::{Flow, Network};
use sw_flow::{Place, followers_in, follows, way_to};
use sw_topo::Chan;
use sw_topo::limits::MAX_ADDRESS;

/// Does the flow go on from the one channel to the other, where so many address bytes are deleted on the one?
fn goes_on(network: &Network, flow: &Flow, from: Chan, deleted: u8, to: Chan) -> bool {
    for more in 0..2 {
        let place = Place {
            channel: from,
            deleted,
        };
        let next = Place {
            channel: to,
            deleted: deleted.saturating_add(more),
        };
        if follows(network, flow, place, next) {
            return true;
        }
    }
    false
}

/// Finds a way of the flow to the channel, from which it goes on to the next, if there is to be one; whether it has one.
pub(crate) fn way_onto(
    alloc: Global,
    network: &Network,
    flow: u16,
    channel: Chan,
    next: Option<Chan>,
    way: &mut Vec<Place>,
) -> Result<bool, AllocError>
    requires { flow < length (all_flows network.now) }
{
    for deleted in 0..MAX_ADDRESS + 1 {
        if let Some(to) = next {
            if !goes_on(network, network.flow(flow), channel, deleted, to) {
                continue;
            }
        }
        if let Some(found) = way_to(alloc, network, flow, Place { channel, deleted })? {
            *way = found;
            return Ok(true);
        }
    }
    Ok(false)
}

/// The place on the channel that follows the last of the way in the flow, if one does.
fn next_place(network: &Network, flow: &Flow, way: &[Place], channel: Chan) -> Option<Place>
    requires { length flow.now.address ≤ 32 }
{
    let Some(last) = way.last() else {
        return None;
    };
    for follower in followers_in(network, flow, *last) {
        if follower.channel == channel {
            return Some(follower);
        }
    }
    None
}

/// A way of the flow to the first of the channels, and from there over the others, one after another; no places where it has none.
pub(crate) fn way_along(
    alloc: Global,
    network: &Network,
    flow: u16,
    channels: &[Chan],
) -> Result<Vec<Place>, AllocError>
    requires { flow < length (all_flows network.now) }
{
    let mut way = Vec::new(alloc);
    let [first, second, ..] = channels else {
        return Ok(way);
    };
    if !way_onto(alloc, network, flow, *first, Some(*second), &mut way)? {
        return Ok(way);
    }
    let flow = network.flow(flow);
    for channel in &channels[1..] {
        match next_place(network, flow, &way, *channel) {
            Some(place) => way.push(place)?,
            None => return Ok(Vec::new(alloc)),
        }
    }
    Ok(way)
}
