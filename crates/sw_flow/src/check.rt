//! What is wrong with places.
ghost use Rattle.std.specs.Prelude.{◌≡◌, ◌<◌, length, slice_get, IfSome, Option};
ghost use Rattle.sw_config.specs.Entries.{all_flows};
ghost use Rattle.sw_flow.specs.Faults.{has_output, fault_of, first_fault_of};

use crate::fault::RouteFault;
use crate::place::Place;
use crate::walk::next_output;
use sw_config::{Flow, Look, Network, PlaceEnd, Topology};

/// Does a channel start at one of the ports that the look names at the switch?
pub fn has_output(topology: &Topology, switch: u16, look: &Look) -> bool
    requires { switch < topology.now.switches }
    ensures { result ≡ has_output topology.now.ends switch look.now }
{
    let mut ports = look.ports.ports();
    next_output(topology, switch, &mut ports).is_some()
}

/// What is wrong with a place of the flow; nothing where the network has no such channel.
pub fn fault_in(network: &Network, flow: &Flow, place: Place) -> Option<RouteFault>
    ensures { result ≡ fault_of network.now flow.now place.channel place.deleted }
{
    let topology = network.topology();
    if place.channel.number() >= topology.channels() {
        return None;
    }
    let deleted = place.deleted as usize;
    match topology.end_of(place.channel) {
        PlaceEnd::Node(node) => {
            if node != flow.to() {
                Some(RouteFault::WrongNode)
            } else if flow.address().len().saturating_sub(deleted) != flow.left() as usize {
                Some(RouteFault::WrongLeft)
            } else {
                None
            }
        }
        PlaceEnd::Switch(switch, _) => {
            let Some(byte) = flow.address().get(deleted) else {
                return Some(RouteFault::AddressEnds);
            };
            let look = network.look(switch, *byte);
            if has_output(topology, switch, &look) {
                None
            } else {
                Some(RouteFault::NoRoute)
            }
        }
    }
}

/// What is wrong with a place of the flow of that number; nothing where the network has no such channel.
pub fn fault_at(network: &Network, flow: u16, place: Place) -> Option<RouteFault>
    requires { flow < length (all_flows network.now) }
    ensures { IfSome (slice_get (all_flows network.now) flow) (λ f. result ≡ fault_of network.now f place.channel place.deleted) }
{
    fault_in(network, network.flow(flow), place)
}

/// The first of the places that is faulty, with its fault.
pub fn first_fault(network: &Network, flow: u16, places: &[Place]) -> Option<(Place, RouteFault)>
    requires { flow < length (all_flows network.now) }
    ensures { IfSome (slice_get (all_flows network.now) flow) (λ f. result ≡ first_fault_of network.now f places.now) }
{
    let entry = network.flow(flow);
    for place in places {
        if let Some(fault) = fault_in(network, entry, *place) {
            return Some((*place, fault));
        }
    }
    None
}
