//! How many characters are undelivered.
ghost use Rattle.std.specs.Prelude.{◌<◌, ◌*◌, length};

use crate::net::Net;
use sw_arb::Arbiter;
use sw_route::Routing;
use sw_topo::{Chan, PlaceEnd};

impl<'n, R: Routing, A: Arbiter> Net<'n, R, A> {
    ghost use Rattle.sw_net.specs.Delivery.{IsInChannel, IsUndelivered};

    /// How many are in the buffer where the channel ends, and on its wire.
    fn in_channel(&self, channel: Chan) -> u64
        requires { channel < 2 * length self.now.declared.links }
        ensures { IsInChannel self.now channel result }
    {
        let network = self.network();
        let on_wire = self.wires.len(channel) as u64;
        match network.topology().end_of(channel) {
            PlaceEnd::Node(n) => self.node(n).buffered() as u64 + on_wire,
            PlaceEnd::Switch(w, port) => self.switch(w).buffered(port) as u64 + on_wire,
        }
    }

    /// How many characters are undelivered: in buffers, on wires, still to send, and of replies
    /// that wait, their end markers counted.
    pub fn undelivered(&self) -> u64
        ensures { IsUndelivered self.now result }
    {
        let network = self.network();
        let mut in_channels: u64 = 0;
        for number in 0..network.channels() {
            in_channels += self.in_channel(Chan::new(number));
        }
        // What the nodes have still to send, their replies with it.
        let mut at_nodes: u64 = 0;
        for n in 0..network.nodes() {
            at_nodes += self.node(n).undelivered();
        }
        in_channels + at_nodes
    }
}
