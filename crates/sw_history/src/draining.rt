//! A whole load, sent until nothing is left.
ghost use Rattle.std.specs.Prelude.{◌≡◌, ℕ, IfOk, List, OnErr, length, replicate};
ghost use Rattle.sw_history.specs.Drained.{IsDrained, IsUnderWay};
ghost use Rattle.sw_history.specs.Turns.{TurnsLead};
ghost use Rattle.sw_history.specs.Way.{CountsMove, MovesPicked};
ghost use Rattle.sw_machine.specs.Steps.{Step};
ghost use Rattle.sw_load.specs.Laws.{AreDeclared};
ghost use Rattle.sw_machine.specs.State.{empty};
ghost use Rattle.sw_machine.specs.Model.{network_of};
ghost use Rattle.sw_net.specs.Net.{IsNetState};
ghost use Rattle.sw_net.specs.Unanswered.{nothing_counted};

use crate::begin::begin_one;
use crate::moves::{count_enabled, move_one};
use crate::packets::nothing_begun;
use std::alloc::{AllocError, Global};
use sw_arb::Arbiter;
use sw_cert::Passed;
use sw_load::{Load, Senders, enough_limit};
use sw_net::{Net, Unanswered};
use sw_route::Routing;

/// One of the link ends that can step makes a step: that one which `pick` says, which is asked where
/// some can. The answer is no where none can.
fn move_picked<R: Routing, A: Arbiter, F: FnMut(usize) -> usize>(
    alloc: Global,
    net: &mut Net<'_, R, A>,
    pick: &mut F,
    unanswered: &mut Unanswered,
) -> Result<bool, AllocError>
    requires pick { (state : F) (count : _) → F.pre state count }
    ensures network { net.new.declared ≡ net.old.declared }
    ensures moves { IfOk result (λ made. (picked : MovesPicked F.step net.old pick.old made net.new pick.new) × CountsMove net.old unanswered.old picked.index made net.new unanswered.new picked.moved) }
    ensures refused { OnErr result (net.new ≡ net.old) }
{
    let count = count_enabled(net);
    let index = if count == 0 { 0 } else { pick(count) };
    move_one(alloc, net, index, unanswered)
}

/// Sends all packets, of which none is begun, turn by turn until nothing is undelivered.
fn send_all<'n, R: Routing, A: Arbiter, F: FnMut(usize) -> usize>(
    alloc: Global,
    net: &mut Net<'n, R, A>,
    passed: &Passed<'n>,
    senders: &Senders<'_>,
    begun: &mut [u32],
    unanswered: &mut Unanswered,
    pick: &mut F,
) -> Result<u64, AllocError>
    requires empty { IsNetState net.old (empty (network_of net.old.declared)) }
    requires passed { passed.now ≡ net.old.declared }
    requires packets { AreDeclared net.old.declared senders.now.load }
    requires network { senders.now.declared ≡ net.old.declared }
    requires begun { begun.old ≡ replicate (length net.old.declared.nodes) 0 }
    requires counts { unanswered.old ≡ nothing_counted (length net.old.declared.nodes) }
    requires pick { (state : F) (count : _) → F.pre state count }
    ensures network { net.new.declared ≡ net.old.declared }
    ensures drained { IfOk result (λ count. IsDrained senders.now.load net.new count) }
    ensures refused { OnErr result (IsUnderWay senders.now.load net.new) }
    ensures turns { (steps : List Step) × (last : F) × TurnsLead senders.now.load F.step net.old pick.old net.new steps last }
{
    passed.is_deadlock_free();
    // Names the total, which bounds the counts.
    let _total = senders.load().total();
    let mut moves: u64 = 0;
    for _ in 0..enough_limit(net.network(), senders.load()) {
        if begin_one(alloc, net, senders, begun, unanswered)? {
            continue;
        }
        if !move_picked(alloc, net, pick, unanswered)? {
            // Names the network's cells, which are sound by its type.
            let _network = net.network();
            return Ok(moves);
        }
        moves += 1;
    }
    unreachable!()
}

/// Sends the whole load through a network for which a certificate was accepted, from its empty state
/// until nothing is undelivered: each node begins its packets in their order, each as soon as it can
/// and the limit on unanswered commands lets it,
/// and else one of the link ends that can step makes a step. Which one `pick` says: it is passed how
/// many can step, and answers how many of these, in the order of their numbers, come before it; an
/// answer out of range counts as 0. Answers the number of steps other than beginnings: at most 14 for
/// each channel, and 5 for each channel and each character of the packets that were begun, replies
/// included; and so of the load's packets and of the longest replies to those that are answered.
///
/// # Errors
///
/// There is no memory for what a step stores. The network is then as before that step, after some
/// turns: in the state that a history of the load leads to.
pub fn drain<'n, R: Routing, A: Arbiter, F: FnMut(usize) -> usize>(
    alloc: Global,
    net: &mut Net<'n, R, A>,
    passed: &Passed<'n>,
    load: &Load,
    mut pick: F,
) -> Result<u64, AllocError>
    requires empty { IsNetState net.old (empty (network_of net.old.declared)) }
    requires passed { passed.now ≡ net.old.declared }
    requires packets { AreDeclared net.old.declared load.now }
    requires pick { (state : F) (count : _) → F.pre state count }
    ensures network { net.new.declared ≡ net.old.declared }
    ensures drained { IfOk result (λ count. IsDrained load.now net.new count) }
    ensures refused { OnErr result (IsUnderWay load.now net.new) }
    ensures turns { (steps : List Step) × (last : F) × TurnsLead load.now F.step net.old pick net.new steps last }
{
    let (mut begun, mut unanswered, senders) = nothing_begun(alloc, net.network(), load)?;
    let sent = send_all(
        alloc,
        net,
        passed,
        &senders,
        begun.as_mut_slice(),
        &mut unanswered,
        &mut pick,
    );
    drop(senders);
    sent
}
