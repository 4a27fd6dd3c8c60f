//! A limit that no history of a load reaches.
ghost use Rattle.std.specs.Prelude.{◌≡◌};
ghost use Rattle.sw_load.specs.History.{packets_of};
ghost use Rattle.sw_load.specs.Limit.{enough_limit};
ghost use Rattle.sw_load.specs.Laws.{AreDeclared};
ghost use Rattle.sw_machine.specs.Model.{network_of};

use crate::load::Load;
use sw_config::Network;
use sw_machine::reply_length;

/// One more than the steps that the network can make which begins the load's packets, each once, if
/// it can't lock up: so many steps a history of the load never has.
pub fn enough_limit(network: &Network, load: &Load) -> u64
    requires { AreDeclared network.now load.now }
    ensures { result ≡ enough_limit (network_of network.now) (packets_of load.now) }
{
    let packets = u64::from(load.total());
    // How many characters the packets have, with their addresses and their end markers, and the longest replies to them.
    let mut characters = 0;
    for packet in load.packets() {
        let flow = network.flow(packet.flow());
        let cargo = packet.cargo();
        let sent = flow.address().len() + cargo.len() + 1;
        let length = sent as u64 + u64::from(reply_length(network, flow, cargo));
        characters += u64::from(packet.count()) * length;
    }
    let channels = u64::from(network.channels());
    packets + channels * (14 + 5 * characters) + 1
}
