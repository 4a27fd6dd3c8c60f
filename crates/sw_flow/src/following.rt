//! Whether a flow goes from one place to another.
ghost use Rattle.std.specs.Prelude.{◌≡◌, ◌<◌, ◌↔◌, IsTrue};
ghost use Rattle.sw_config.specs.Checked.{IsSound};
ghost use Rattle.sw_config.specs.Looks.{NamesOutput};
ghost use Rattle.sw_flow.specs.Places.{Follows};

use crate::place::Place;
use sw_config::{Chan, Flow, Look, Network, PlaceEnd, Topology, outputs_are_the_named_channels};

/// Is the channel one that the look names at the switch?
fn names_output(topology: &Topology, switch: u16, look: &Look, channel: Chan) -> bool
    requires { IsSound topology.now }
    ensures { IsTrue result ↔ NamesOutput topology.now.ends switch look.now channel }
{
    outputs_are_the_named_channels();
    if channel.number() >= topology.channels() {
        return false;
    }
    match topology.start_of(channel) {
        PlaceEnd::Node(_) => false,
        PlaceEnd::Switch(at, port) => at == switch && look.ports.contains(port),
    }
}

/// Does the flow go from the first place to the second by one step (ECSS-E-ST-50-12C, network layer: packet addressing)? Not where
/// there is no such place.
pub fn follows(network: &Network, flow: &Flow, from: Place, to: Place) -> bool
    ensures { IsTrue result ↔ Follows network.now flow.now from.channel from.deleted to.channel to.deleted }
{
    let topology = network.topology();
    if from.channel.number() >= topology.channels() {
        return false;
    }
    let PlaceEnd::Switch(switch, _) = topology.end_of(from.channel) else {
        return false;
    };
    let deleted = from.deleted as u16;
    let Some(byte) = flow.address().get(deleted as usize) else {
        return false;
    };
    let look = network.look(switch, *byte);
    let behind = if look.delete { deleted + 1 } else { deleted };
    to.deleted as u16 == behind && names_output(topology, switch, &look, to.channel)
}
