//! Link ends at which a step may have become possible.

use crate::marks::put;
use sw_config::Network;
use sw_machine::{Move, Step};
use sw_topo::{Chan, PlaceEnd, Port};

/// Marks the link end of the node, if there is such a node, and, if that is to be, the one across.
fn wake_node(network: &Network, awake: &mut [bool], node: u16, across: bool) {
    if node < network.nodes() {
        let out = network.topology().out(node);
        put(awake, out.number(), true);
        if across {
            put(awake, out.partner().number(), true);
        }
    }
}

/// Marks the link ends of the switch, if there is such a switch, and, if that is to be, those across.
fn wake_switch(network: &Network, awake: &mut [bool], switch: u16, across: bool) {
    if switch >= network.switches() {
        return;
    }
    for number in 0..32u8 {
        if let Some(port) = Port::new(number) {
            if let Some(out) = network.topology().out_of(switch, port) {
                put(awake, out.number(), true);
                if across {
                    put(awake, out.partner().number(), true);
                }
            }
        }
    }
}

/// Marks the link ends where the channel starts, and, if that is to be, those across.
fn wake_start(network: &Network, awake: &mut [bool], channel: Chan, across: bool) {
    if channel.number() >= network.channels() {
        return;
    }
    match network.topology().start_of(channel) {
        PlaceEnd::Node(node) => wake_node(network, awake, node, across),
        PlaceEnd::Switch(switch, _) => wake_switch(network, awake, switch, across),
    }
}

/// Marks the link ends at which a step may be possible that was not before this one.
pub(crate) fn wake_after(network: &Network, awake: &mut [bool], step: &Step) {
    match step {
        Step::Move(step) => match step {
            Move::Fct(channel) => {
                put(awake, channel.number(), true);
                put(awake, channel.partner().number(), true);
            }
            Move::FctIn(channel) => wake_start(network, awake, *channel, false),
            Move::Arrive(channel)
            | Move::Grant(_, channel)
            | Move::Drop(channel)
            | Move::Spill(channel) => wake_start(network, awake, channel.partner(), false),
            Move::Forward(channel) => wake_start(network, awake, channel.partner(), true),
            Move::Emit(node) | Move::Accept(node) | Move::Reply(node) => {
                wake_node(network, awake, *node, true);
            }
        },
        Step::Begin { flow, .. } => {
            if *flow < network.flows() {
                wake_node(network, awake, network.flow(*flow).from(), false);
            }
        }
    }
}
