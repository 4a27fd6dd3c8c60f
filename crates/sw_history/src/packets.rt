//! The packets of a load, by the node that sends them.
ghost use Rattle.std.specs.Prelude.{◌≡◌, ◌↔◌, ◌<◌, IfOk, IfSome, IsTrue, length, option_map, replicate, slice_index};
ghost use Rattle.sw_history.specs.Makes.{counted_with};
ghost use Rattle.sw_history.specs.Noted.{packet_after, within_limit};
ghost use Rattle.sw_load.specs.History.{packet_of};
ghost use Rattle.sw_load.specs.Laws.{AreDeclared};
ghost use Rattle.sw_net.specs.Unanswered.{nothing_counted};

use std::alloc::{AllocError, Global};
use sw_char::End;
use sw_config::Network;
use sw_load::{Load, LoadPacket, Senders};
use sw_net::Unanswered;

/// Whether the packet is of this flow, with this cargo and this end.
pub(crate) fn is_same(packet: &LoadPacket, flow: u16, cargo: &[u8], end: End) -> bool
    ensures { IsTrue result ↔ (packet_of packet.now ≡ record { flow = flow; cargo = cargo.now; end = end }) }
{
    packet.flow() == flow && packet.cargo() == cargo && packet.end() == end
}

/// How many packets each node has begun, of which there are none yet, what is unanswered at each, and
/// what each sends.
pub(crate) fn nothing_begun<'n>(
    alloc: Global,
    network: &'n Network,
    load: &'n Load,
) -> Result<(Vec<u32>, Unanswered, Senders<'n>), AllocError>
    requires { AreDeclared network.now load.now }
    ensures begun { IfOk result (λ made. made.0.items ≡ replicate (length network.now.nodes) 0) }
    ensures unanswered { IfOk result (λ made. made.1 ≡ nothing_counted (length network.now.nodes)) }
    ensures network { IfOk result (λ made. made.2.declared ≡ network.now) }
    ensures load { IfOk result (λ made. made.2.load ≡ load.now) }
{
    let nodes = network.nodes() as usize;
    let begun = vec![in alloc; 0u32; nodes]?;
    let unanswered = Unanswered::new(alloc, network)?;
    Ok((begun, unanswered, Senders::new(alloc, network, load)?))
}

/// Counts one more packet for the node that begins one, if any does.
pub(crate) fn count_begun(begun: &mut [u32], beginner: Option<u16>)
    requires within { IfSome beginner (λ n. n < length begun.old) }
    requires few { IfSome beginner (λ n. slice_index begun.old n < 65536) }
    ensures { begun.new ≡ counted_with begun.old beginner }
{
    if let Some(node) = beginner {
        begun[node as usize] += 1;
    }
}

/// The packet of the node that has so many of its packets before it, if its beginning is within the
/// limit on unanswered commands of the node where it ends.
pub(crate) fn within_limit<'n>(
    network: &Network,
    senders: &Senders<'n>,
    unanswered: &Unanswered,
    node: u16,
    before: u32,
) -> Option<&'n LoadPacket>
    requires network { senders.now.declared ≡ network.now }
    requires node { node < length network.now.nodes }
    ensures { option_map (λ p. packet_of p.now) result ≡ within_limit network.now unanswered.now (packet_after senders.now node before) }
{
    match senders.packet(node, before) {
        Some(packet) => {
            if unanswered.allows(network, packet.flow()) {
                Some(packet)
            } else {
                None
            }
        }
        None => None,
    }
}
