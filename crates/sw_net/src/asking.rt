//! To which inputs an output can be granted.

use crate::net::Net;
use sw_arb::Arbiter;
use sw_route::Routing;
use sw_topo::{LinkEnd, PlaceEnd, PortSet};

impl<'n, R: Routing, A: Arbiter> Net<'n, R, A> {
    ghost use Rattle.sw_net.specs.Asking.{AreAsking};

    /// The ports, 0 to 31, to whose inputs the output of the link end can be granted: those where a
    /// packet waits whose leading byte names the output, while that is free (ECSS-E-ST-50-12C,
    /// network layer: wormhole routing). There are none at a node.
    pub fn asks(&self, end: LinkEnd) -> PortSet
        ensures { AreAsking self.now end result }
    {
        let network = self.network();
        if end.number() >= network.channels() {
            return PortSet::EMPTY;
        }
        let PlaceEnd::Switch(w, out) = network.topology().start_of(end.sends()) else {
            return PortSet::EMPTY;
        };
        self.switch(w).asks(out)
    }
}
