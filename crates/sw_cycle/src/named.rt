//! The ports that leading bytes name, by the channels on which packets bring them.
ghost use Rattle.std.specs.Prelude.{◌≡◌, ◌↔◌, ◌<◌, All, IsTrue, None, length};
ghost use Rattle.sw_flow.specs.Faults.{fault_of};
ghost use Rattle.sw_flow.specs.Places.{ends_of};
ghost use Rattle.sw_cycle.specs.Named.{AreAdded, ports_named};

use sw_config::{Flow, Network};
use sw_flow::{Place, fault_in, has_output};
use sw_topo::{PlaceEnd, PortSet};

/// What packets of the flow name at the end of the place's channel: the ports, and whether nothing is
/// wrong with the place.
#[tactic(auto, unfolding(crate::specs::Named::ports_named))]
fn named_at(network: &Network, flow: &Flow, place: Place) -> (PortSet, bool)
    requires { place.channel < length (ends_of network.now) }
    ensures ports { result.0 ≡ ports_named network.now flow.now place.channel place.deleted }
    ensures sound { IsTrue result.1 ↔ (fault_of network.now flow.now place.channel place.deleted ≡ None) }
{
    match network.topology().end_of(place.channel) {
        PlaceEnd::Node(_) => (PortSet::EMPTY, fault_in(network, flow, place).is_none()),
        PlaceEnd::Switch(switch, _) => match flow.address().get(usize::from(place.deleted)) {
            Some(byte) => {
                let look = network.look(switch, *byte);
                (look.ports, has_output(network.topology(), switch, &look))
            }
            None => (PortSet::EMPTY, false),
        },
    }
}

/// Adds the ports that are named at the places to the sets of their channels, and says whether nothing
/// is wrong with any of the places.
pub(crate) fn add_places(
    network: &Network,
    flow: &Flow,
    places: &[Place],
    sets: &mut [PortSet],
) -> bool
    requires size { length sets.old ≡ length (ends_of network.now) }
    requires inside { All (λ p. p.channel < length sets.old) places.now }
    ensures added { AreAdded network.now flow.now places.now sets.old sets.new }
    ensures sound { IsTrue result ↔ All (λ p. fault_of network.now flow.now p.channel p.deleted ≡ None) places.now }
{
    let mut all = true;
    for place in places {
        let (ports, is_sound) = named_at(network, flow, *place);
        let channel = usize::from(place.channel.number());
        sets[channel] = sets[channel].union(ports);
        all = all & is_sound;
    }
    all
}

/// The ports that flows name, by channel, and whether the flows are well routed.
#[derive(Drop)]
pub struct Named {
    pub(crate) sets: Vec<PortSet>,
    pub(crate) is_routed: bool,
}
