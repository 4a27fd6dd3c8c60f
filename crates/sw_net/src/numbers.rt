//! What a link end counts.
ghost use Rattle.std.specs.Prelude.{◌≡◌, ◌<◌, ◌*◌, ◌-◌, length};

use crate::net::Net;
use sw_arb::Arbiter;
use sw_route::Routing;
use sw_topo::{LinkEnd, PlaceEnd};

/// The numbers of a link end, which decide what may be sent there and asked for
/// (ECSS-E-ST-50-12C, data link layer: flow control).
#[derive(Clone, Copy, PartialEq, Eq)]
pub struct Numbers {
    /// How many N-Chars may still be sent on the channel that starts there: 0 to 56.
    pub credit: u8,
    /// How many N-Chars were asked for on the channel that ends there, and did not arrive yet: 0
    /// to 56.
    pub outstanding: u8,
    /// How many N-Chars the receive buffer there has room for, beside those outstanding: 0 to
    /// 4,096.
    pub room: u16,
}

/// The numbers of a link end whose receive buffer has this capacity, and so many characters.
#[inline(always)]
fn numbers_of(capacity: u16, credit: u8, outstanding: u8, buffered: usize) -> Numbers
    ensures { result ≡ record { credit = credit; outstanding = outstanding; room = capacity - buffered - outstanding } }
{
    let free = usize::from(capacity).saturating_sub(buffered);
    Numbers {
        credit,
        outstanding,
        room: free.saturating_sub(usize::from(outstanding)) as u16,
    }
}

impl<'n, R: Routing, A: Arbiter> Net<'n, R, A> {
    ghost use Rattle.sw_net.specs.Numbers.{AreNumbers};

    /// The numbers of the link end.
    #[inline(always)]
    pub fn numbers(&self, end: LinkEnd) -> Numbers
        requires { end < 2 * length self.now.declared.links }
        ensures { AreNumbers self.now end result }
    {
        let network = self.network();
        let capacity = network.capacity(end.receives());
        match self.place_of(end) {
            PlaceEnd::Node(n) => {
                let node = self.node(n);
                numbers_of(capacity, node.credit(), node.outstanding(), node.buffered())
            }
            PlaceEnd::Switch(w, port) => {
                let switch = self.switch(w);
                numbers_of(
                    capacity,
                    switch.credit(port),
                    switch.outstanding(port),
                    switch.buffered(port),
                )
            }
        }
    }
}
