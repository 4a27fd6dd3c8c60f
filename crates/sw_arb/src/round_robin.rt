//! In turn.
ghost use Rattle.std.specs.Prelude.{◌≡◌, ◌≤◌};

use crate::arbiter::{Arbiter, FairArbiter};
use crate::count::{lowest, ports_below};
use sw_topo::{Port, PortSet};

/// Picks the first asking port after the last that was picked, in a circle, and at first the
/// lowest.
#[derive(Drop)]
pub struct RoundRobin {
    ports: PortSet,
    /// The circle begins here: one more than the last port that was picked.
    from: u8,
    ghost in_circle: { from ≤ 32 },
}

impl RoundRobin {
    /// An arbiter of those ports that picked none yet.
    pub fn new(ports: PortSet) -> RoundRobin
        ensures ports { result.ports ≡ ports }
        ensures from { result.from ≡ 0 }
    {
        RoundRobin { ports, from: 0 }
    }
}

impl Arbiter for RoundRobin {
    ghost use Rattle.sw_arb.specs.RoundRobin.{RoundRobinPicks, round_robin_picks_asking, round_robin_keeps_ports};

    ghost ports = { λ a. a.ports };

    ghost policy = { RoundRobinPicks };

    fn pick(&mut self, asking: PortSet) -> Port {
        let port = match asking.next_from(self.from) {
            Some(port) => port,
            None => lowest(asking),
        };
        self.from = port.number() + 1;
        port
    }

    ghost picks_asking = { round_robin_picks_asking };

    ghost keeps_ports = { round_robin_keeps_ports };
}

impl FairArbiter for RoundRobin {
    ghost use Rattle.sw_arb.specs.RoundRobin.{round_robin_ahead, round_robin_below, round_robin_falls};

    ghost ahead_of = { round_robin_ahead };

    fn ahead(&self, port: Port) -> u8 {
        let passed = ports_below(self.ports, self.from);
        let before = ports_below(self.ports, port.number());
        if port.number() < self.from {
            self.ports.len() as u8 - passed + before
        } else {
            before - passed
        }
    }

    ghost below = { round_robin_below };

    ghost falls = { round_robin_falls };
}
