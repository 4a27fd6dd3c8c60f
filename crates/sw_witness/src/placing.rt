//! Packets that are to be placed so that they hold one channel and wait for another.
ghost use Rattle.std.specs.Prelude.{◌<◌, length};
ghost use Rattle.sw_config.specs.Entries.{all_flows};

use crate::load::Load;
use crate::notes::{Holder, note};
use crate::random::Random;
use crate::way::way_onto;
use crate::worm::{last_places, long_cargo, short_cargo};
use std::alloc::{AllocError, Global};
use std::mem;
use sw_config::Network;
use sw_flow::Place;
use sw_output::node_name;
use sw_search::Tangle;
use sw_topo::{Chan, PlaceEnd};

/// How many long packets follow one another, at most.
const MOST_PACKETS: u32 = 40;

/// How many commands follow one another, at most.
const MOST_COMMANDS: u32 = 300;

/// Packets of one flow that are to be sent one after another; none at first.
#[derive(Drop)]
pub(crate) struct Placing {
    /// What they carry.
    pub(crate) load: Load,
    /// The node where the flow starts.
    pub(crate) source: u16,
    /// The node where it ends.
    pub(crate) target: u16,
    /// How many follow one another, at most.
    pub(crate) most: u32,
    /// The way of the packets.
    pub(crate) there: Vec<Place>,
    /// The way of the replies to them; none where the target is not to take them.
    pub(crate) back: Vec<Place>,
}

/// Commands of the flow on its way to the channel, if it has replies, and ends at a target.
fn plan_commands(
    alloc: Global,
    network: &Network,
    flow: u16,
    channel: Chan,
    placing: &mut Placing,
) -> Result<(), AllocError>
    requires { flow < length (all_flows network.now) }
{
    if !way_onto(alloc, network, flow, channel, None, &mut placing.there)? {
        return Ok(());
    }
    let entry = network.flow(flow);
    if entry.reply().is_none() {
        return Ok(());
    }
    placing.load = Load {
        flow,
        is_command: true,
        length: 0,
    };
    placing.source = entry.from();
    placing.target = entry.to();
    placing.most = MOST_COMMANDS;
    Ok(())
}

/// Commands whose replies, a reply flow, are placed at the end of the way that was found for these.
fn plan_replies(
    alloc: Global,
    network: &Network,
    reply: u16,
    placing: &mut Placing,
) -> Result<(), AllocError> {
    mem::swap(&mut placing.there, &mut placing.back);
    let Some(first) = placing.back.first() else {
        return Ok(());
    };
    let channel = first.channel.partner();
    let mut number = network.declared_flows();
    for flow in 0..network.declared_flows() {
        if network.flow(flow).reply().is_some() {
            if number == reply {
                return plan_commands(alloc, network, flow, channel, placing);
            }
            number = number.saturating_add(1);
        }
    }
    Ok(())
}

/// Packets of the flow that hold the one channel and wait for the other. Those of a declared flow are long ones, the tail of the last of
/// which is held up at its source, or a short one, which fills the last channel of the way; their cargo is no command, or, where the flow's
/// commands are limited, one with zeros behind it.
fn plan_flow(
    alloc: Global,
    network: &Network,
    random: &mut Random,
    flow: u16,
    from: Chan,
    to: Chan,
    text: &mut String,
    placing: &mut Placing,
) -> Result<(), AllocError> {
    if flow >= network.flows() {
        return Ok(());
    }
    if !way_onto(alloc, network, flow, from, Some(to), &mut placing.there)? {
        return Ok(());
    }
    let entry = network.flow(flow);
    note(alloc, network, Holder::Flow, entry.name(), from, to, text)?;
    if flow >= network.declared_flows() {
        return plan_replies(alloc, network, flow, placing);
    }
    placing.source = entry.from();
    let length = if random.below(3) > 0 {
        placing.most = MOST_PACKETS;
        long_cargo(network, &placing.there)
    } else {
        placing.most = 1;
        let last = last_places(&placing.there, 1);
        short_cargo(network, entry.address().len(), last)
    };
    placing.load = Load {
        flow,
        is_command: network.is_limited(flow),
        length,
    };
    Ok(())
}

/// Commands that fill the one channel, if it ends at a node, whose replies leave on the other: of the first flow that the node
/// answers, from some number on.
fn plan_target(
    alloc: Global,
    network: &Network,
    random: &mut Random,
    from: Chan,
    to: Chan,
    text: &mut String,
    placing: &mut Placing,
) -> Result<(), AllocError> {
    if from.number() >= network.channels() {
        return Ok(());
    }
    let PlaceEnd::Node(node) = network.topology().end_of(from) else {
        return Ok(());
    };
    note(
        alloc,
        network,
        Holder::Target,
        node_name(network, node),
        from,
        to,
        text,
    )?;
    let flows = network.declared_flows();
    let mut number = random.number(flows);
    for _ in 0..flows {
        if number >= flows {
            number = 0;
        }
        if network.flow(number).is_answered_at(node) {
            return plan_commands(alloc, network, number, from, placing);
        }
        number = number.saturating_add(1);
    }
    Ok(())
}

/// What makes the channel of that number in the tangle's cycle wait for the next: packets of one of the flows, or commands where there
/// are none. A note of it goes to the text.
pub(crate) fn plan(
    alloc: Global,
    network: &Network,
    random: &mut Random,
    tangle: &Tangle,
    number: usize,
    text: &mut String,
    placing: &mut Placing,
) -> Result<(), AllocError> {
    let channels = tangle.cycle.channels.as_slice();
    let behind = number.saturating_add(1);
    let next = if behind < channels.len() { behind } else { 0 };
    let Some(flows) = tangle.flows.get(number) else {
        return Ok(());
    };
    let Some(from) = channels.get(number) else {
        return Ok(());
    };
    let Some(to) = channels.get(next) else {
        return Ok(());
    };
    match flows.get(random.below(flows.len())) {
        Some(flow) => plan_flow(alloc, network, random, *flow, *from, *to, text, placing),
        None => plan_target(alloc, network, random, *from, *to, text, placing),
    }
}
