//! Channels that wait for one another in a circle, one of many such circles.

use crate::awaited::Awaited;
use crate::leg::Leg;
use crate::random::Random;
use crate::ways::Ways;
use std::alloc::{AllocError, Global};
use sw_config::Network;
use sw_topo::Chan;

/// How many channels a walk goes over, at most.
const MOST_LEGS: u32 = 200;

/// May one more packet be begun that the leg wants, or, if it is of a reply, its command?
fn is_allowed(network: &Network, ways: &Ways, begun: &Awaited, leg: &Leg) -> bool {
    match leg.flow {
        Some(flow) => begun.allows(network, ways.command_flow(flow)),
        None => true,
    }
}

/// A leg from the channel on of another packet than the last, one that may be begun: each as likely as another.
fn leg_of_another(
    network: &Network,
    random: &mut Random,
    ways: &Ways,
    begun: &Awaited,
    from: Chan,
    last: Option<u16>,
) -> Option<Leg> {
    let mut chosen = None;
    let mut count = 0usize;
    for leg in ways.legs_from(from) {
        if leg.flow.is_some() && leg.flow == last || !is_allowed(network, ways, begun, leg) {
            continue;
        }
        count = count.saturating_add(1);
        if random.below(count) == 0 {
            chosen = Some(*leg);
        }
    }
    chosen
}

/// The leg of the flow from the channel on, if there is a flow, and it goes on from there.
fn leg_of_same(ways: &Ways, from: Chan, last: Option<u16>) -> Option<Leg> {
    for leg in ways.legs_from(from) {
        if leg.flow.is_some() && leg.flow == last {
            return Some(*leg);
        }
    }
    None
}

/// A leg from the channel on: where a flow goes on that held the channel before, as often as not one of that.
fn next_leg(
    network: &Network,
    random: &mut Random,
    ways: &Ways,
    begun: &Awaited,
    from: Chan,
    last: Option<u16>,
) -> Option<Leg> {
    let same = leg_of_same(ways, from, last);
    if same.is_some() && random.below(2) == 0 {
        return same;
    }
    let another = leg_of_another(network, random, ways, begun, from, last);
    if another.is_some() { another } else { same }
}

/// Walks from the channel on, until it comes to a channel a second time, and gives the legs from there on: a circle. None where the walk has
/// come to an end before.
fn walk(
    alloc: Global,
    network: &Network,
    random: &mut Random,
    ways: &Ways,
    start: Chan,
) -> Result<Option<Vec<Leg>>, AllocError> {
    let mut begun = Awaited::new(alloc);
    let mut legs: Vec<Leg> = Vec::new(alloc);
    let mut from = start;
    let mut last = None;
    for _ in 0..MOST_LEGS {
        if let Some(first) = legs.iter().position(|leg| leg.from == from) {
            return Ok(Some(legs[first..].to_vec(alloc)?));
        }
        let Some(leg) = next_leg(network, random, ways, &begun, from, last) else {
            return Ok(None);
        };
        if let Some(flow) = leg.flow {
            if last != leg.flow {
                begun.add(network, ways.command_flow(flow), None)?;
            }
        }
        legs.push(leg)?;
        last = leg.flow;
        from = leg.to;
    }
    Ok(None)
}

/// Is the leg of the same packet as the one before it?
fn is_of_same(before: &Leg, leg: &Leg) -> bool {
    leg.flow.is_some() && leg.flow == before.flow
}

/// The legs from another one on, with which a packet or a target begins; none where one packet has all.
fn from_a_first(alloc: Global, legs: &[Leg]) -> Result<Vec<Leg>, AllocError> {
    let mut turned = Vec::new(alloc);
    let Some(last) = legs.last() else {
        return Ok(turned);
    };
    let mut before = last;
    for (index, leg) in legs.iter().enumerate() {
        if !is_of_same(before, leg) {
            turned.extend_from_slice(&legs[index..])?;
            turned.extend_from_slice(&legs[..index])?;
            break;
        }
        before = leg;
    }
    Ok(turned)
}

/// Channels that wait for one another in a circle, found by a walk from the channel on; none where the walk finds none.
pub(crate) fn any_circle(
    alloc: Global,
    network: &Network,
    random: &mut Random,
    ways: &Ways,
    start: Chan,
) -> Result<Vec<Leg>, AllocError> {
    match walk(alloc, network, random, ways, start)? {
        Some(legs) => from_a_first(alloc, &legs),
        None => Ok(Vec::new(alloc)),
    }
}
