//! How long packets are that hold one channel and wait for another.

use std::alloc::{AllocError, Global};
use sw_config::{Flow, Network};
use sw_flow::Place;
use sw_machine::left_bytes;
use sw_schedule::{ASKED_BY_FCT, MAX_CARGO};
use sw_topo::Chan;

/// How many characters a reply has beside the data that were read, at least.
const AROUND_DATA: usize = 13;

/// How many characters the channel holds, in whole tokens of flow control (ECSS-E-ST-50-12C, data link layer: flow control).
pub(crate) fn room(network: &Network, channel: Chan) -> usize {
    if channel.number() >= network.channels() {
        return ASKED_BY_FCT as usize;
    }
    usize::from(network.capacity(channel) / ASKED_BY_FCT as u16) * ASKED_BY_FCT as usize
}

/// How many characters the channels of the places hold.
fn room_of_all(network: &Network, way: &[Place]) -> usize {
    let mut all = 0usize;
    for place in way {
        all = all.saturating_add(room(network, place.channel));
    }
    all
}

/// How much cargo fills all the way and more.
fn filling(network: &Network, way: &[Place]) -> usize {
    room_of_all(network, way).saturating_add(ASKED_BY_FCT as usize)
}

/// How much cargo fills all the way and more, as far as one packet can.
pub(crate) fn long_cargo(network: &Network, way: &[Place]) -> usize {
    filling(network, way).min(MAX_CARGO)
}

/// How many packets with so much cargo fill all the way and more.
pub(crate) fn long_packets(network: &Network, way: &[Place]) -> usize {
    filling(network, way).div_ceil(MAX_CARGO)
}

/// So many places at the end of the way, or all.
pub(crate) fn last_places(way: &[Place], count: usize) -> &[Place] {
    &way[way.len().saturating_sub(count)..]
}

/// How much cargo fills these places, the last of a way, just so, behind what is left at the first of that much address.
pub(crate) fn short_cargo(network: &Network, address: usize, places: &[Place]) -> usize {
    let Some(first) = places.first() else {
        return 1;
    };
    let left = address.saturating_sub(usize::from(first.deleted));
    let taken = left.saturating_add(1);
    room_of_all(network, places)
        .saturating_sub(taken)
        .clamp(1, MAX_CARGO)
}

/// How many characters a reply to a command of the flow has: with all data of the target, unless the command's bytes name another one.
fn reply_length(network: &Network, entry: &Flow) -> usize {
    if entry.to() >= network.nodes() {
        return AROUND_DATA;
    }
    let Some(target) = network.target(entry.to()) else {
        return AROUND_DATA;
    };
    match left_bytes(entry).first() {
        Some(logical) if *logical != target.logical => AROUND_DATA,
        _ => (target.size as usize).saturating_add(AROUND_DATA),
    }
}

/// By flow, how many characters packets can have that follow one another: of a limited flow one has all, and of replies too.
pub(crate) fn lengths(alloc: Global, network: &Network) -> Result<Vec<usize>, AllocError> {
    let mut lengths = Vec::new(alloc);
    for flow in 0..network.declared_flows() {
        lengths.push(if network.is_limited(flow) {
            MAX_CARGO
        } else {
            usize::MAX
        })?;
    }
    for flow in 0..network.declared_flows() {
        let entry = network.flow(flow);
        if entry.reply().is_some() {
            lengths.push(reply_length(network, entry))?;
        }
    }
    Ok(lengths)
}
