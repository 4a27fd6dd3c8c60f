//! Which packets a flow declares.
ghost use Rattle.std.specs.Prelude.{◌≡◌, ◌↔◌, IsTrue, Some, slice_get};
ghost use Rattle.sw_flow.specs.Entries.{all_flows};
ghost use Rattle.sw_flow.specs.Valid.{IsFlow};
ghost use Rattle.sw_machine.specs.DeclaredPackets.{IsAnsweredRightly, IsCommandIfLimited, IsDeclaredPacket};

use crate::reply::{is_answered, is_right_way, left_bytes};
use std::marker::Model;
use sw_char::End;
use sw_flow::{Flow, Network};

/// A packet has at most this many bytes behind its address.
const MAX_CARGO: usize = 33_554_432;

fn is_answered_rightly(network: &Network, flow: &Flow, cargo: &[u8]) -> bool
    requires { IsFlow network.now.nodes flow.now }
    ensures { IsTrue result ↔ IsAnsweredRightly network.now.nodes flow.now cargo.now }
{
    !network.is_target(flow.to()) || is_right_way(left_bytes(flow), cargo, flow.reply())
}

fn is_command_if_limited(network: &Network, number: u16, flow: &Flow, cargo: &[u8]) -> bool
    requires number { slice_get (all_flows network.now) number ≡ Some flow.now }
    requires flow { IsFlow network.now.nodes flow.now }
    ensures { IsTrue result ↔ IsCommandIfLimited network.now.nodes flow.now cargo.now }
{
    !network.is_limited(number) || is_answered(flow, cargo)
}

/// Whether a packet with this cargo behind the flow's address is one that the flow declares: false
/// for a number that is no declared flow's, no cargo or more than 33,554,432 bytes, a packet whose
/// reply does not go where the flow says, and one without a reply in a flow whose commands are
/// limited. The end marker may be either.
pub fn in_flow(network: &Network, flow: u16, cargo: &[u8], _end: End) -> bool
    ensures { IsTrue result ↔ IsDeclaredPacket network.now flow cargo.now }
{
    if flow >= network.declared_flows() || cargo.is_empty() || cargo.len() > MAX_CARGO {
        return false;
    }
    let entry = network.flow(flow);
    is_answered_rightly(network, entry, cargo) && is_command_if_limited(network, flow, entry, cargo)
}
