//! The check of a shown cycle.
ghost use Rattle.std.specs.Prelude.{◌<◌, ◌↔◌, IsTrue, length, map};
ghost use Rattle.sw_flow.specs.Ways.{GoesFromStart, GoesOver};
ghost use Rattle.sw_cycle.specs.Cycles.{cause_of, EndsOn, IsCause, IsFlowCause, IsShown, IsTargetCause};

use crate::cycle::{Cause, Cycle};
use sw_config::{Flow, Network};
use sw_flow::{Place, follows};
use sw_topo::Chan;

fn is_target_cause(network: &Network, node: u16, from: Chan, to: Chan) -> bool
    ensures { IsTrue result ↔ IsTargetCause network.now node from to }
{
    let topology = network.topology();
    if node >= topology.nodes() {
        return false;
    }
    topology.out(node) == to && to.partner() == from && network.may_make_wait(node)
}

/// Does the flow go from the place over these places, by one step to each?
fn goes_over(network: &Network, flow: &Flow, from: Place, places: &[Place]) -> bool
    ensures { IsTrue result ↔ GoesOver network.now flow.now from places.now }
{
    let mut last = from;
    for place in places {
        if !follows(network, flow, last, *place) {
            return false;
        }
        last = *place;
    }
    true
}

fn goes_from_start(network: &Network, flow: &Flow, places: &[Place]) -> bool
    requires { flow.now.from < length network.now.nodes }
    ensures { IsTrue result ↔ GoesFromStart network.now flow.now places.now }
{
    match places.split_first() {
        None => false,
        Some((first, rest)) => {
            if network.topology().out(flow.from()) != first.channel {
                return false;
            }
            first.deleted == 0 && goes_over(network, flow, *first, rest)
        }
    }
}

/// Are the last two places on these channels?
fn ends_on(places: &[Place], from: Chan, to: Chan) -> bool
    ensures { IsTrue result ↔ EndsOn places.now from to }
{
    let count = places.len();
    count >= 2 && places[count - 2].channel == from && places[count - 1].channel == to
}

fn is_flow_cause(network: &Network, flow: u16, places: &[Place], from: Chan, to: Chan) -> bool
    ensures { IsTrue result ↔ IsFlowCause network.now flow places.now from to }
{
    if flow >= network.flows() {
        return false;
    }
    ends_on(places, from, to) && goes_from_start(network, network.flow(flow), places)
}

fn is_cause(network: &Network, cause: &Cause, from: Chan, to: Chan) -> bool
    ensures { IsTrue result ↔ IsCause network.now (cause_of cause.now) from to }
{
    match cause {
        Cause::Target(node) => is_target_cause(network, *node, from, to),
        Cause::Flow(flow, places) => is_flow_cause(network, *flow, places, from, to),
    }
}

fn is_shown(network: &Network, channels: &[Chan], causes: &[Cause]) -> bool
    ensures { IsTrue result ↔ IsShown network.now (record { channels = channels.now; causes = map cause_of causes.now }) }
{
    let count = channels.len();
    if count == 0 || causes.len() != count {
        return false;
    }
    for place in 0..count {
        let next = channels[(place + 1) % count];
        if !is_cause(network, &causes[place], channels[place], next) {
            return false;
        }
    }
    true
}

/// Does the cycle have channels, and one cause for each that is true of it and the next (Dally and Seitz: channel dependency; targets
/// are this project's choice)? Whatever its numbers say: not where the network has no such channel, node or flow.
pub fn check_cycle(network: &Network, cycle: &Cycle) -> bool
    ensures { IsTrue result ↔ IsShown network.now cycle.now }
{
    is_shown(network, &cycle.channels, &cycle.causes)
}
