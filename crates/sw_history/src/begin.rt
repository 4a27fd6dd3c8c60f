//! The nodes begin their packets.
ghost use Rattle.std.specs.Prelude.{◌≡◌, ◌*◌, ◌<◌, IfNone, IfOk, IfSome, Ok, OnErr, OnOk, length, slice_index, true};
ghost use Rattle.sw_history.specs.Way.{BeginsOne, IsReady, NoneIsReady};
ghost use Rattle.sw_load.specs.Laws.{AreDeclared};
ghost use Rattle.sw_machine.specs.Steps.{Begin};
ghost use Rattle.sw_net.specs.Net.{NetAnswers};
ghost use Rattle.sw_net.specs.Possible.{Tells};
ghost use Rattle.sw_net.specs.Unanswered.{HasCounted};

use crate::packets::within_limit;
use crate::record::beginning;
use std::alloc::{AllocError, Global};
use sw_arb::Arbiter;
use sw_load::{LoadPacket, Senders};
use sw_net::{Net, NetFault, Unanswered};
use sw_route::Routing;

/// A node that can begin its next packet.
fn find_ready<R: Routing, A: Arbiter>(
    net: &Net<'_, R, A>,
    senders: &Senders<'_>,
    begun: &[u32],
    unanswered: &Unanswered,
) -> Option<u16>
    requires packets { AreDeclared net.now.declared senders.now.load }
    requires network { senders.now.declared ≡ net.now.declared }
    requires nodes { length begun.now ≡ length net.now.declared.nodes }
    ensures within { IfSome result (λ n. n < length begun.now) }
    ensures ready { IfSome result (λ n. IsReady senders.now.load net.now unanswered.now n (slice_index begun.now n) true) }
    ensures none { IfNone result (NoneIsReady senders.now.load net.now begun.now unanswered.now) }
{
    let network = net.network();
    for node in 0..network.nodes() {
        if !net.can_begin(node) {
            continue;
        }
        if within_limit(network, senders, unanswered, node, begun[node as usize]).is_some() {
            return Some(node);
        }
    }
    None
}

/// The node where the packet's flow starts begins it, which has to be possible, and it is counted. Where
/// there is no memory for it, nothing has changed.
fn begin_packet<R: Routing, A: Arbiter>(
    alloc: Global,
    net: &mut Net<'_, R, A>,
    unanswered: &mut Unanswered,
    packet: &LoadPacket,
) -> Result<(), AllocError>
    requires { Tells net.old (Begin packet.now.flow packet.now.cargo packet.now.marker) true }
    ensures network { net.new.declared ≡ net.old.declared }
    ensures made { OnOk result (NetAnswers net.old (Begin packet.now.flow packet.now.cargo packet.now.marker) (Ok tt) net.new) }
    ensures counted { OnOk result (HasCounted net.old unanswered.old (Begin packet.now.flow packet.now.cargo packet.now.marker) net.new unanswered.new) }
    ensures refused { OnErr result (net.new ≡ net.old) }
    ensures uncounted { OnErr result (unanswered.new ≡ unanswered.old) }
{
    let _network = net.network();
    let begin = beginning(alloc, packet)?;
    let made = unanswered.step(alloc, net, &begin);
    drop(begin);
    match made {
        Ok(()) => Ok(()),
        Err(fault) => match fault {
            NetFault::Memory => Err(AllocError),
            NetFault::NotEnabled => unreachable!(),
            NetFault::NotInFlow => unreachable!(),
        },
    }
}

/// A node that can begins its next packet, if there is one: then the answer is yes. Where there is no
/// memory for it, nothing has changed.
pub(crate) fn begin_one<R: Routing, A: Arbiter>(
    alloc: Global,
    net: &mut Net<'_, R, A>,
    senders: &Senders<'_>,
    begun: &mut [u32],
    unanswered: &mut Unanswered,
) -> Result<bool, AllocError>
    requires packets { AreDeclared net.old.declared senders.now.load }
    requires network { senders.now.declared ≡ net.old.declared }
    requires nodes { length begun.old ≡ length net.old.declared.nodes }
    ensures network { net.new.declared ≡ net.old.declared }
    ensures nodes { length begun.new ≡ length begun.old }
    ensures begins { IfOk result (λ made. BeginsOne senders.now.load net.old begun.old unanswered.old made net.new begun.new unanswered.new) }
    ensures refused { OnErr result (net.new ≡ net.old) }
    ensures uncounted { OnErr result ((begun.new ≡ begun.old) × (unanswered.new ≡ unanswered.old)) }
{
    let Some(node) = find_ready(net, senders, begun, unanswered) else {
        return Ok(false);
    };
    // Names the total, which bounds what a node begins.
    let _total = senders.load().total();
    match within_limit(
        net.network(),
        senders,
        unanswered,
        node,
        begun[node as usize],
    ) {
        Some(packet) => {
            begin_packet(alloc, net, unanswered, packet)?;
            begun[node as usize] += 1;
            Ok(true)
        }
        None => unreachable!(),
    }
}
