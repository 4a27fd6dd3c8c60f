//! The places that follow a place.
ghost use Rattle.std.specs.Prelude.{◌≡◌, ◌<◌, ◌≤◌, ◌∷◌, [], MatchOption, Some, length};
ghost use Rattle.sw_config.specs.Ports.{ports_of};
ghost use Rattle.sw_config.specs.Wiring.{out};
ghost use Rattle.sw_flow.specs.Followers.{outputs_of, followers_of};
ghost use Rattle.sw_flow.specs.Places.{ends_of, flow_start};

use crate::place::Place;
use std::marker::Model;
use sw_config::{Chan, Flow, Network, PlaceEnd, PortSet, Ports, Topology};

/// The places that follow a place (ECSS-E-ST-50-12C, network layer: packet addressing) and are still to come, in the order of the
/// ports that lead to them.
#[derive(Drop)]
pub struct Followers<'a> {
    topology: &'a Topology,
    switch: u16,
    ports: Ports,
    deleted: u8,
}

impl<'a> Model for Followers<'a> {
    ghost use Rattle.std.specs.Prelude.{◌<◌, List, length};
    ghost use Rattle.sw_config.specs.Ports.{ports_of};
    ghost use Rattle.sw_config.specs.Wiring.{out};
    ghost use Rattle.sw_flow.specs.declared.place.Place.{Place};
    ghost use Rattle.sw_flow.specs.Followers.{outputs_of, places_on};

    ghost Value = { List Place };

    ghost view = { λ w. places_on w.deleted (outputs_of w.topology.now.ends w.switch w.ports) };

    ghost invariant = { λ w. 0 < length (ports_of w.ports) → w.switch < w.topology.now.switches };
}

/// The channel that starts at the first of the ports that has a link; these ports come no more.
#[inline(always)]
pub(crate) fn next_output(topology: &Topology, switch: u16, ports: &mut Ports) -> Option<Chan>
    requires { 0 < length (ports_of ports.old) → switch < topology.now.switches }
    ensures first { MatchOption result (outputs_of topology.now.ends switch ports.old ≡ []) (λ c. outputs_of topology.now.ends switch ports.old ≡ c ∷ outputs_of topology.now.ends switch ports.new) }
    ensures last { MatchOption result (ports_of ports.new ≡ []) (λ c. length (ports_of ports.new) < length (ports_of ports.old)) }
{
    while let Some(port) = ports.next() {
        if let Some(channel) = topology.out_of(switch, port) {
            return Some(channel);
        }
    }
    None
}

impl<'a> Iterator for Followers<'a> {
    ghost use Rattle.std.specs.Iterator.{YieldsFirst, item_count};

    type Item = Place;

    ghost next_gives = { YieldsFirst (λ s. s) };

    ghost remaining = { item_count (λ s. s) };

    #[inline(always)]
    fn next(&mut self) -> Option<Place> {
        let channel = next_output(self.topology, self.switch, &mut self.ports)?;
        Some(Place {
            channel,
            deleted: self.deleted,
        })
    }
}

/// No places.
#[inline(always)]
fn no_followers(topology: &Topology) -> Followers<'_>
    ensures { result ≡ [] }
{
    Followers {
        topology,
        switch: 0,
        ports: PortSet::EMPTY.ports(),
        deleted: 0,
    }
}

/// Where the flow's packets start: on the channel of the node that they come from, with no byte deleted.
pub fn flow_start(network: &Network, flow: &Flow) -> Place
    requires { flow.now.from < length network.now.nodes }
    ensures start { out (ends_of network.now) flow.now.from ≡ Some result.channel }
    ensures place { result ≡ flow_start network.now flow.now }
{
    Place {
        channel: network.topology().out(flow.from()),
        deleted: 0,
    }
}

/// The places that follow a place of the flow (ECSS-E-ST-50-12C, network layer: packet addressing), in the order of the ports that
/// lead to them; none where the network has no such channel.
#[tactic(auto, unfolding(crate::specs::Followers::followers_of))]
#[inline(always)]
pub fn followers_in<'a>(network: &'a Network, flow: &Flow, place: Place) -> Followers<'a>
    requires { length flow.now.address ≤ 32 }
    ensures { result ≡ followers_of network.now flow.now place.channel place.deleted }
{
    let topology = network.topology();
    if place.channel.number() >= topology.channels() {
        return no_followers(topology);
    }
    let PlaceEnd::Switch(switch, _) = topology.end_of(place.channel) else {
        return no_followers(topology);
    };
    let deleted = place.deleted;
    let Some(byte) = flow.address().get(deleted as usize) else {
        return no_followers(topology);
    };
    let look = network.look(switch, *byte);
    Followers {
        topology,
        switch,
        ports: look.ports.ports(),
        deleted: if look.delete { deleted + 1 } else { deleted },
    }
}
