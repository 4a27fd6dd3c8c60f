//! Which packets hold the channels of a whole cycle, one behind another.

use crate::awaited::Awaited;
use crate::leg::{Extent, Leg};
use crate::marks::{is_set, marks, put};
use crate::random::Random;
use crate::round::{Round, Stretch};
use crate::way::way_along;
use crate::ways::Ways;
use crate::worm::lengths;
use std::alloc::{AllocError, Global};
use sw_config::Network;
use sw_flow::Place;
use sw_search::Tangle;
use sw_topo::{Chan, PlaceEnd};

/// How many ways are looked at, at most, for a packet that is to hold channels.
const MOST_WAYS: u32 = 8;

/// Over how many channels, at most, a packet comes to those that it is to hold, if it is mostly a long one.
const NEAR: usize = 8;

/// A packet that is to hold channels of a cycle.
#[derive(Drop)]
struct Worm {
    flow: u16,
    way: Vec<Place>,
    // Over how many channels it comes that others are to hold.
    crossed: usize,
}

/// Legs that are found along a cycle, one packet after another.
#[derive(Drop)]
struct Covering<'a> {
    network: &'a Network,
    round: Round<'a>,
    ways: Ways,
    legs: Vec<Leg>,
    begun: Awaited,
    // By channel, whether it is of the cycle, or a packet holds it up to its source.
    held: Vec<bool>,
}

/// By channel, whether it is one of these.
fn marked(alloc: Global, network: &Network, channels: &[Chan]) -> Result<Vec<bool>, AllocError> {
    let mut held = marks(alloc, network.channels(), false)?;
    for channel in channels {
        put(&mut held, channel.number(), true);
    }
    Ok(held)
}

/// The node at the end of the channel, if there is one.
fn node_behind(network: &Network, channel: Chan) -> Option<u16> {
    if channel.number() >= network.channels() {
        return None;
    }
    match network.topology().end_of(channel) {
        PlaceEnd::Node(node) => Some(node),
        PlaceEnd::Switch(_, _) => None,
    }
}

impl Covering<'_> {
    /// May a packet of the flow make all steps of the stretch from that one on: one that was not taken, and may be begun?
    fn may_make(&self, flow: u16, step: usize, stretch: Stretch) -> bool {
        flow < self.network.flows()
            && self.ways.of(flow).is_empty()
            && (!stretch.is_entering || self.round.enters(flow, step))
            && self
                .begun
                .allows(self.network, self.ways.command_flow(flow))
            && self.round.makes_all(flow, step, stretch.end)
            && self.round.fits(flow, step, stretch.end)
    }

    /// The channels of the steps up to the end of the stretch, and the one behind these.
    fn channels(
        &self,
        alloc: Global,
        step: usize,
        stretch: Stretch,
    ) -> Result<Vec<Chan>, AllocError> {
        let mut channels = Vec::new(alloc);
        for place in step..stretch.end.saturating_add(1) {
            if let Some(channel) = self.round.channel(place) {
                channels.push(channel)?;
            }
        }
        Ok(channels)
    }

    /// How many of the places are on channels that are held.
    fn crossed(&self, way: &[Place]) -> usize {
        let mut count = 0usize;
        for place in way {
            if is_set(&self.held, place.channel.number()) {
                count = count.saturating_add(1);
            }
        }
        count
    }

    /// The packet of the flow that makes the steps of the channels, if it has such a way.
    fn worm(
        &self,
        alloc: Global,
        flow: u16,
        channels: &[Chan],
    ) -> Result<Option<Worm>, AllocError> {
        if flow >= self.network.flows() {
            return Ok(None);
        }
        let way = way_along(alloc, self.network, flow, channels)?;
        if way.len() < channels.len() {
            return Ok(None);
        }
        let crossed = self.crossed(&way[..way.len() - channels.len()]);
        Ok(Some(Worm { flow, way, crossed }))
    }

    /// A packet that makes the steps of the stretch from that one on: of the flows from a number on one that comes over no channel that is held, or
    /// else over as few as can be seen. None where there is none.
    fn any_worm(
        &self,
        alloc: Global,
        random: &mut Random,
        step: usize,
        stretch: Stretch,
    ) -> Result<Option<Worm>, AllocError> {
        let flows = self.round.flows(step);
        let channels = self.channels(alloc, step, stretch)?;
        let mut index = random.below(flows.len());
        let mut best: Option<Worm> = None;
        let mut left = MOST_WAYS;
        for _ in 0..flows.len() {
            if index >= flows.len() {
                index = 0;
            }
            if index < flows.len() && self.may_make(flows[index], step, stretch) {
                if let Some(worm) = self.worm(alloc, flows[index], &channels)? {
                    best = Some(less_crossed(best, worm));
                    left = left.saturating_sub(1);
                }
            }
            if left == 0 || is_free(&best) {
                break;
            }
            index = index.saturating_add(1);
        }
        Ok(best)
    }

    /// Adds the legs of the flow, or of a target, from the step on and before the end.
    fn add_legs(
        &mut self,
        flow: Option<u16>,
        extent: Extent,
        step: usize,
        end: usize,
    ) -> Result<(), AllocError> {
        for place in step..end {
            if let (Some(from), Some(to)) = (
                self.round.channel(place),
                self.round.channel(place.saturating_add(1)),
            ) {
                self.legs.push(Leg {
                    from,
                    to,
                    flow,
                    extent,
                })?;
            }
        }
        Ok(())
    }

    /// Is the packet, which is to make so many steps, a long one? It is none if it comes over a channel that is held, and mostly none if it comes
    /// over many others, since it takes many steps to fill these. A reply is as long as it is.
    fn is_long(&self, random: &mut Random, worm: &Worm, steps: usize) -> bool {
        let before = worm.way.len().saturating_sub(steps);
        let is_reply = worm.flow >= self.network.declared_flows();
        worm.crossed == 0 && (is_reply || before <= NEAR || random.below(4) == 0)
    }

    /// The packet is to make the steps from that one on and before the end.
    fn add(
        &mut self,
        random: &mut Random,
        worm: Worm,
        step: usize,
        end: usize,
    ) -> Result<(), AllocError> {
        let is_long = self.is_long(random, &worm, end.saturating_sub(step));
        let Worm { flow, way, .. } = worm;
        let extent = if is_long { Extent::Long } else { Extent::Short };
        if is_long {
            for place in &way {
                put(&mut self.held, place.channel.number(), true);
            }
        }
        let command = self.ways.command_flow(flow);
        self.begun.add(self.network, command, None)?;
        self.ways.set(flow, way);
        self.add_legs(Some(flow), extent, step, end)
    }

    /// Finds a packet, or a target, for all steps of the round, one stretch after another; whether there is one for each.
    fn find(&mut self, alloc: Global, random: &mut Random) -> Result<bool, AllocError> {
        let stretches = self.round.stretches(alloc, random)?;
        let mut step = 0usize;
        for _ in 0..self.round.count() {
            let Some(stretch) = stretches.from(step) else {
                break;
            };
            if self.round.flows(step).is_empty() {
                self.add_legs(None, Extent::Any, step, stretch.end)?;
            } else {
                match self.any_worm(alloc, random, step, stretch)? {
                    Some(worm) => self.add(random, worm, step, stretch.end)?,
                    None => return Ok(false),
                }
            }
            step = stretch.end;
        }
        Ok(true)
    }

    /// Finds ways of the flows of commands whose replies are on legs, and of all flows to the targets on these.
    fn find_other_ways(&mut self, alloc: Global, random: &mut Random) -> Result<(), AllocError> {
        let network = self.network;
        let mut is_wanted = marks(alloc, network.nodes(), false)?;
        for leg in &self.legs {
            match leg.flow {
                Some(flow) => {
                    let command = self.ways.command_flow(flow);
                    self.ways.find(alloc, network, random, command)?;
                }
                None => {
                    if let Some(node) = node_behind(network, leg.from) {
                        put(&mut is_wanted, node, true);
                    }
                }
            }
        }
        for flow in 0..network.declared_flows() {
            if is_set(&is_wanted, network.flow(flow).to()) {
                self.ways.find(alloc, network, random, flow)?;
            }
        }
        Ok(())
    }
}

/// The packet of the two that comes over fewer channels that are held.
fn less_crossed(best: Option<Worm>, worm: Worm) -> Worm {
    match best {
        Some(other) => {
            if other.crossed <= worm.crossed {
                other
            } else {
                worm
            }
        }
        None => worm,
    }
}

/// Is there a packet that comes over no channel that is held?
fn is_free(best: &Option<Worm>) -> bool {
    match best {
        Some(worm) => worm.crossed == 0,
        None => false,
    }
}

/// Legs all round the tangle's cycle, and ways of the flows that they want; none where no packet was found for some channel.
pub(crate) fn cover(
    alloc: Global,
    network: &Network,
    random: &mut Random,
    tangle: &Tangle,
) -> Result<Option<(Ways, Vec<Leg>)>, AllocError> {
    let lengths = lengths(alloc, network)?;
    let mut covering = Covering {
        network,
        round: Round::any(network, &lengths, random, tangle),
        ways: Ways::none(alloc, network)?,
        legs: Vec::new(alloc),
        begun: Awaited::new(alloc),
        held: marked(alloc, network, &tangle.cycle.channels)?,
    };
    if !covering.find(alloc, random)? {
        return Ok(None);
    }
    covering.find_other_ways(alloc, random)?;
    let Covering { ways, legs, .. } = covering;
    Ok(Some((ways, legs)))
}
