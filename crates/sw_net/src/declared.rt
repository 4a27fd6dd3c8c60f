//! What a new network is made of, as its file declares it.
ghost use Rattle.std.specs.Prelude.{◌+◌, ◌<◌, IfOk, OnOk, length, take};
ghost use Rattle.sw_flow.specs.Places.{ends_of};
ghost use Rattle.sw_net.specs.Switches.{switch_look};
ghost use Rattle.sw_net.specs.Net.{arbiters_of};
ghost use Rattle.sw_net.specs.New.{AreRoutes, IsNewNet};
ghost use Rattle.sw_net.specs.Outputs.{AreByOutput};
ghost use Rattle.sw_net.specs.Policies.{AreDeclaredPolicies, IsNewFor};

use crate::make::push_made;
use crate::net::Net;
use either::Either;
use std::alloc::{AllocError, Global};
use sw_arb::Policy;
use sw_config::Network;
use sw_route::{IntervalRoutes, Look, Routing, TableRoutes};
use sw_topo::{Chan, PlaceEnd};

/// A switch's routing table, as its network has it.
#[derive(Drop)]
pub struct SwitchRoutes<'n> {
    pub(crate) routing: &'n Either<TableRoutes, IntervalRoutes>,
}

impl<'n> Routing for SwitchRoutes<'n> {
    ghost use Rattle.sw_net.specs.Switches.{routing_path, routing_reserved, switch_look};

    ghost answer = { switch_look };

    fn look(&self, byte: u8) -> Look {
        self.routing.look(byte)
    }

    ghost path = { λ r byte small. routing_path r.routing.now byte small };

    ghost reserved = { λ r. routing_reserved r.routing.now };
}

/// The network in its empty state, with the routing tables and the kinds of arbitration that its
/// file declares.
///
/// # Errors
///
/// There is no memory for what the network keeps.
pub fn declared_net<'n>(
    alloc: Global,
    network: &'n Network,
) -> Result<Net<'n, SwitchRoutes<'n>, Policy>, AllocError>
    ensures new { IfOk result (IsNewNet network.entry.now) }
    ensures policies { IfOk result (λ net. AreDeclaredPolicies network.entry.now (arbiters_of net.switches)) }
{
    let mut routes = Vec::new(alloc);
    for w in 0..network.switches() {
        let routing = network.routing(w);
        push_made(&mut routes, Ok(SwitchRoutes { routing }))?;
    }
    let mut arbiters = Vec::new(alloc);
    for number in 0..network.channels() {
        match network.topology().start_of(Chan::new(number)) {
            PlaceEnd::Node(_) => continue,
            PlaceEnd::Switch(w, _) => {
                let linked = network.topology().linked(w);
                arbiters.push(Policy::new(network.arbitration(w), linked))?;
            }
        }
    }
    Net::new(alloc, network, routes, arbiters)
}
