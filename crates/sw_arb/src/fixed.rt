//! Fixed priorities.
ghost use Rattle.std.specs.Prelude.{◌≡◌};

use crate::arbiter::Arbiter;
use crate::count::lowest;
use sw_topo::{Port, PortSet};

/// Picks the lowest asking port.
#[derive(Drop)]
pub struct Fixed {
    ports: PortSet,
}

impl Fixed {
    /// An arbiter of those ports.
    pub fn new(ports: PortSet) -> Fixed
        ensures { result ≡ record { ports = ports } }
    {
        Fixed { ports }
    }
}

impl Arbiter for Fixed {
    ghost use Rattle.sw_arb.specs.Fixed.{FixedPicks, fixed_picks_asking, fixed_keeps_ports};

    ghost ports = { λ a. a.ports };

    ghost policy = { FixedPicks };

    fn pick(&mut self, asking: PortSet) -> Port {
        lowest(asking)
    }

    ghost picks_asking = { fixed_picks_asking };

    ghost keeps_ports = { fixed_keeps_ports };
}
