//! Packets of all flows at once, with no plan.

use crate::load::Load;
use crate::random::Random;
use crate::scheduled_net::ScheduledNet;
use crate::ways::Ways;
use crate::worm::long_cargo;
use std::alloc::Global;
use sw_config::Network;

/// How many packets are begun, at most.
const MOST_BEGUN: u32 = 200;

/// How often all link ends may make a step while packets are begun, at most.
const MOST_SWEEPS: u32 = 2000;

/// What a packet of the flow carries: a command, or else zeros; as often as not more than its way can hold.
fn any_load(network: &Network, random: &mut Random, ways: &Ways, flow: u16) -> Load {
    let is_limited = flow < network.flows() && network.is_limited(flow);
    let is_command = is_limited || random.below(2) == 0;
    let length = if random.below(2) == 0 {
        long_cargo(network, ways.of(flow))
    } else if is_command {
        0
    } else {
        1
    };
    Load {
        flow,
        is_command,
        length,
    }
}

impl ScheduledNet<'_> {
    /// Begins packets of any flows, as far as initiators keep their limits, and lets the network go on meanwhile: replies leave only where
    /// nothing else can be done, so that targets owe as many as they may.
    pub(crate) fn wander(
        &mut self,
        alloc: Global,
        network: &Network,
        random: &mut Random,
        ways: &Ways,
    ) {
        let mut left = MOST_BEGUN;
        for _ in 0..MOST_SWEEPS {
            let flow = random.number(network.declared_flows());
            let load = any_load(network, random, ways, flow);
            let begun = left > 0 && self.begin(alloc, load).is_some();
            if begun {
                left -= 1;
            }
            if self.sweep(alloc, random, false) || begun {
                continue;
            }
            if !self.sweep(alloc, random, true) {
                break;
            }
        }
    }
}
