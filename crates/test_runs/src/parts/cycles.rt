//! Cycles, and what is none.

use std::alloc::Global;
use sw_config::Network;
use sw_cycle::{Cause, Cycle, check_cycle};
use sw_flow::Place;
use sw_topo::Chan;

/// Channels by number, and the causes: targets, and flow 0 by these places, if there are any.
pub(crate) struct Shown {
    channels: &'static [u16],
    targets: &'static [u16],
    way: &'static [(u16, u8)],
    is_cycle: bool,
}

/// Two targets with one link, and commands both ways, which are answered.
pub(crate) const DUEL: &[Shown] = &[
    // Targets that answer each other are a cycle.
    Shown {
        channels: &[0, 1],
        targets: &[1, 0],
        way: &[],
        is_cycle: true,
    },
    // Each target is at its channel.
    Shown {
        channels: &[0, 1],
        targets: &[0, 1],
        way: &[],
        is_cycle: false,
    },
    // A cycle needs channels.
    Shown {
        channels: &[],
        targets: &[],
        way: &[],
        is_cycle: false,
    },
    // It needs its last cause.
    Shown {
        channels: &[0],
        targets: &[1],
        way: &[],
        is_cycle: false,
    },
    // No target has a number too high.
    Shown {
        channels: &[0, 1],
        targets: &[1, 9],
        way: &[],
        is_cycle: false,
    },
];

/// A node at port 1 of a switch, whose ports 2 and 3 have one link, and a flow that goes over this link from port 2 twice.
pub(crate) const AGAIN: &[Shown] = &[
    // A flow may wait for itself.
    Shown {
        channels: &[2],
        targets: &[],
        way: &[(0, 0), (2, 1), (2, 2)],
        is_cycle: true,
    },
    // Places are given from the start of the flow.
    Shown {
        channels: &[2],
        targets: &[],
        way: &[(2, 1), (2, 2)],
        is_cycle: false,
    },
];

/// Whether there was room for the channels and the causes.
fn are_added(alloc: Global, cycle: &mut Cycle, shown: &Shown) -> bool {
    let mut added = true;
    for &number in shown.channels {
        added = added && cycle.channels.push(Chan::new(number)).is_ok();
    }
    for &target in shown.targets {
        added = added && cycle.causes.push(Cause::Target(target)).is_ok();
    }
    if !shown.way.is_empty() {
        let mut way = Vec::new(alloc);
        for &(number, deleted) in shown.way {
            let channel = Chan::new(number);
            added = added && way.push(Place { channel, deleted }).is_ok();
        }
        added = cycle.causes.push(Cause::Flow(0, way)).is_ok() && added;
    }
    added
}

/// Whether each is told to be a cycle of the network or to be none. This function alone owns a cycle.
pub(crate) fn are_told(alloc: Global, network: &Network, all: &[Shown]) -> bool {
    let mut is_so = true;
    for shown in all {
        let mut cycle = Cycle {
            channels: Vec::new(alloc),
            causes: Vec::new(alloc),
        };
        let added = are_added(alloc, &mut cycle, shown);
        is_so = is_so && added && check_cycle(network, &cycle) == shown.is_cycle;
    }
    is_so
}
