//! Ways that packets may take, one of each flow, and the channels that can wait for one another along them.
ghost use Rattle.std.specs.Prelude.{◌<◌, ◌≤◌, length};
ghost use Rattle.sw_config.specs.Entries.{all_flows};

use crate::leg::{Extent, Leg};
use crate::random::Random;
use std::alloc::{AllocError, Global};
use sw_config::{Flow, Network};
use sw_flow::{Place, flow_start, followers_in};
use sw_topo::Chan;

/// A way of each flow, and the channels that can wait for one another along these.
#[derive(Drop)]
pub(crate) struct Ways {
    // By flow, the places from its start to its end.
    places: Vec<Vec<Place>>,
    // By flow, the flow of the commands: of a reply flow that which it answers, of another itself.
    commands: Vec<u16>,
    // By channel, for which it can wait: those from which one can wait for one channel after another, without end.
    legs: Vec<Vec<Leg>>,
}

/// A place that follows that of the flow, if one does: each as likely as another.
fn any_follower(network: &Network, random: &mut Random, flow: &Flow, place: &Place) -> Option<Place>
    requires { length flow.now.address ≤ 32 }
{
    let mut chosen = None;
    let mut count = 0usize;
    for follower in followers_in(network, flow, *place) {
        count = count.saturating_add(1);
        if random.below(count) == 0 {
            chosen = Some(follower);
        }
    }
    chosen
}

/// A way of the flow from its start to its end.
fn any_way(
    alloc: Global,
    network: &Network,
    random: &mut Random,
    flow: u16,
) -> Result<Vec<Place>, AllocError>
    requires { flow < length (all_flows network.now) }
{
    let flow = network.flow(flow);
    let mut way = Vec::new(alloc);
    way.push(flow_start(network, flow))?;
    for _ in 0..network.channels() {
        let Some(place) = way.last() else {
            break;
        };
        let Some(follower) = any_follower(network, random, flow, place) else {
            break;
        };
        way.push(follower)?;
    }
    Ok(way)
}

/// A way of each flow, by its number.
fn any_ways(
    alloc: Global,
    network: &Network,
    random: &mut Random,
) -> Result<Vec<Vec<Place>>, AllocError> {
    let mut ways = Vec::new(alloc);
    for flow in 0..network.flows() {
        ways.push(any_way(alloc, network, random, flow)?)?;
    }
    Ok(ways)
}

/// By flow, the flow of the commands.
fn command_flows(alloc: Global, network: &Network) -> Result<Vec<u16>, AllocError> {
    let mut flows = Vec::new(alloc);
    for flow in 0..network.declared_flows() {
        flows.push(flow)?;
    }
    for flow in 0..network.declared_flows() {
        if network.flow(flow).reply().is_some() {
            flows.push(flow)?;
        }
    }
    Ok(flows)
}

/// Adds the leg to those of its first channel, if there is a row for it.
fn add_leg(rows: &mut [Vec<Leg>], leg: Leg) -> Result<(), AllocError> {
    let number = usize::from(leg.from.number());
    if number < rows.len() {
        rows[number].push(leg)?;
    }
    Ok(())
}

/// Adds the legs of the flow on its way.
fn add_legs_of(rows: &mut [Vec<Leg>], flow: u16, way: &[Place]) -> Result<(), AllocError> {
    let mut before: Option<Chan> = None;
    for place in way {
        let to = place.channel;
        if let Some(from) = before {
            let leg = Leg {
                from,
                to,
                flow: Some(flow),
                extent: Extent::Any,
            };
            add_leg(rows, leg)?;
        }
        before = Some(to);
    }
    Ok(())
}

/// Adds the legs at the targets that may take nothing until they have sent a reply.
fn add_legs_at_targets(network: &Network, rows: &mut [Vec<Leg>]) -> Result<(), AllocError> {
    for node in 0..network.nodes() {
        if network.may_make_wait(node) {
            let to = network.topology().out(node);
            let leg = Leg {
                from: to.partner(),
                to,
                flow: None,
                extent: Extent::Any,
            };
            add_leg(rows, leg)?;
        }
    }
    Ok(())
}

/// By channel, all legs from it on along the ways.
fn all_legs(
    alloc: Global,
    network: &Network,
    ways: &[Vec<Place>],
) -> Result<Vec<Vec<Leg>>, AllocError> {
    let mut rows = Vec::new(alloc);
    for _ in 0..network.channels() {
        rows.push(Vec::new(alloc))?;
    }
    for flow in 0..network.flows() {
        if let Some(way) = ways.get(usize::from(flow)) {
            add_legs_of(&mut rows, flow, way)?;
        }
    }
    add_legs_at_targets(network, &mut rows)?;
    Ok(rows)
}

/// Does the leg lead to a channel that has legs?
fn leads_on(leg: &Leg, lengths: &[usize]) -> bool {
    match lengths.get(usize::from(leg.to.number())) {
        Some(length) => *length > 0,
        None => false,
    }
}

/// Takes the legs away that lead to channels from which none leads on. Whether there were some.
fn take_last(alloc: Global, rows: &mut [Vec<Leg>]) -> Result<bool, AllocError> {
    let mut lengths = Vec::new(alloc);
    for row in rows.iter() {
        lengths.push(row.len())?;
    }
    let mut any = false;
    for row in rows.iter_mut() {
        let before = row.len();
        row.retain(|leg| leads_on(leg, &lengths));
        any = any || row.len() < before;
    }
    Ok(any)
}

/// Where on the way the channel is.
fn index_on(way: &[Place], channel: Chan) -> Option<usize> {
    way.iter().position(|place| place.channel == channel)
}

impl Ways {
    /// A way of each flow.
    pub(crate) fn new(
        alloc: Global,
        network: &Network,
        random: &mut Random,
    ) -> Result<Ways, AllocError> {
        let places = any_ways(alloc, network, random)?;
        let commands = command_flows(alloc, network)?;
        let mut legs = all_legs(alloc, network, &places)?;
        for _ in 0..network.channels() {
            if !take_last(alloc, &mut legs)? {
                break;
            }
        }
        Ok(Ways {
            places,
            commands,
            legs,
        })
    }

    /// No way of any flow.
    pub(crate) fn none(alloc: Global, network: &Network) -> Result<Ways, AllocError> {
        let mut places = Vec::new(alloc);
        for _ in 0..network.flows() {
            places.push(Vec::new(alloc))?;
        }
        Ok(Ways {
            places,
            commands: command_flows(alloc, network)?,
            legs: Vec::new(alloc),
        })
    }

    /// This is the way of the flow from now on.
    pub(crate) fn set(&mut self, flow: u16, way: Vec<Place>) {
        let number = usize::from(flow);
        if number < self.places.len() {
            self.places[number] = way;
        }
    }

    /// The flow gets any way, if it has none.
    pub(crate) fn find(
        &mut self,
        alloc: Global,
        network: &Network,
        random: &mut Random,
        flow: u16,
    ) -> Result<(), AllocError> {
        if flow < network.flows() && self.of(flow).is_empty() {
            let way = any_way(alloc, network, random, flow)?;
            self.set(flow, way);
        }
        Ok(())
    }

    /// The flow's way; no places where there is no such flow, or it has none.
    pub(crate) fn of(&self, flow: u16) -> &[Place] {
        match self.places.get(usize::from(flow)) {
            Some(way) => way.as_slice(),
            None => &[],
        }
    }

    /// The flow's way up to the channel.
    pub(crate) fn up_to(&self, flow: u16, channel: Chan) -> &[Place] {
        let way = self.of(flow);
        match index_on(way, channel) {
            Some(index) => &way[..index.saturating_add(1).min(way.len())],
            None => way,
        }
    }

    /// The flow of the commands, if the flow is one of replies; else itself.
    pub(crate) fn command_flow(&self, flow: u16) -> u16 {
        match self.commands.get(usize::from(flow)) {
            Some(command) => *command,
            None => flow,
        }
    }

    /// The legs from the channel on.
    pub(crate) fn legs_from(&self, channel: Chan) -> &[Leg] {
        match self.legs.get(usize::from(channel.number())) {
            Some(legs) => legs.as_slice(),
            None => &[],
        }
    }
}
