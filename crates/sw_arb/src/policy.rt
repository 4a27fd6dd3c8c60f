//! One of the three kinds of arbitration.
ghost use Rattle.std.specs.Prelude.{◌≡◌};

use crate::arbiter::Arbiter;
use crate::arbitration::Arbitration;
use crate::fixed::Fixed;
use crate::least_recent::LeastRecent;
use crate::round_robin::RoundRobin;
use sw_topo::{Port, PortSet};

/// An arbiter of one of the three kinds.
#[derive(Drop)]
pub enum Policy {
    /// The lowest asking port.
    Fixed(Fixed),
    /// The first asking port after the last that was picked, in a circle.
    RoundRobin(RoundRobin),
    /// The asking port whose last pick is longest ago.
    LeastRecent(LeastRecent),
}

impl Policy {
    ghost use Rattle.sw_arb.specs.Chosen.{IsNewPolicy};

    /// An arbiter of that kind and those ports that picked none yet.
    pub fn new(arbitration: Arbitration, ports: PortSet) -> Policy
        ensures { IsNewPolicy arbitration ports result }
    {
        match arbitration {
            Arbitration::Fixed => Policy::Fixed(Fixed::new(ports)),
            Arbitration::RoundRobin => Policy::RoundRobin(RoundRobin::new(ports)),
            Arbitration::LeastRecent => Policy::LeastRecent(LeastRecent::new(ports)),
        }
    }
}

impl Arbiter for Policy {
    ghost use Rattle.sw_arb.specs.Chosen.{policy_ports, PolicyPicks, policy_picks_asking, policy_keeps_ports};

    ghost ports = { policy_ports };

    ghost policy = { PolicyPicks };

    fn pick(&mut self, asking: PortSet) -> Port {
        match self {
            Policy::Fixed(arbiter) => arbiter.pick(asking),
            Policy::RoundRobin(arbiter) => arbiter.pick(asking),
            Policy::LeastRecent(arbiter) => arbiter.pick(asking),
        }
    }

    ghost picks_asking = { policy_picks_asking };

    ghost keeps_ports = { policy_keeps_ports };
}
