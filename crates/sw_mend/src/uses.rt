//! What a cycle of dependencies uses of a network.
ghost use Rattle.std.specs.Prelude.{◌≡◌, ◌<◌, ◌==◌, ◌||◌, false, is_some, Contains, IfOk, IfSome, IsTrue, All, OnOk, Some, length, slice_get};
ghost use Rattle.std.specs.Option.{option_map_or};
ghost use Rattle.sw_config.specs.Entries.{all_flows, reply_flows};
ghost use Rattle.sw_search.specs.Cycles.{cause_of};
ghost use Rattle.sw_mend.specs.Spared.{AreAllAt, AreKept, IsAddedIfAt, IsByteUsed, IsCauseUsed, IsFlowUsed, IsReplyOf, IsTargetUsed, IsUnlimitedCommand, MarksStay, UsesGrow};

use std::alloc::{AllocError, Global};
use std::marker::Model;
use sw_config::{Flow, Network};
use sw_flow::Place;
use sw_search::{Cause, Cycle};
use sw_topo::PlaceEnd;

/// What the causes of a cycle use: where a change touches nothing of it, they stay. Flows are told by their numbers among the declared ones.
#[derive(Drop)]
pub(crate) struct Uses {
    /// The flows of commands that go on from a channel of the cycle to the next.
    pub(crate) flows: Vec<u16>,
    /// The flows that have to keep their replies: these go on so, or for the flow a target may make others wait.
    pub(crate) answered: Vec<u16>,
    /// Whether for a target these are all flows at its node, by whose limits it may make others wait.
    pub(crate) rests_on_limits: bool,
    /// For 256 times the number of a switch and a byte, whether one of the flows comes to the switch with that leading byte.
    pub(crate) bytes: Vec<bool>,
}

/// Adds the number, if it is not there.
fn add_number(number: u16, numbers: &mut Vec<u16>) -> Result<(), AllocError>
    ensures { OnOk result (AreKept numbers.old.items numbers.new.items × Contains numbers.new.items number) }
{
    for other in numbers.iter() {
        if *other == number {
            return Ok(());
        }
    }
    numbers.push(number)?;
    Ok(())
}

/// Does the flow end or start at the node?
fn is_at(flow: &Flow, node: u16) -> bool
    ensures { result ≡ (flow.now.to == node || flow.now.from == node) }
{
    flow.to() == node || flow.from() == node
}

/// Adds the declared flow of that number, if it ends or starts at the node.
fn add_if_at(
    network: &Network,
    node: u16,
    number: u16,
    numbers: &mut Vec<u16>,
) -> Result<(), AllocError>
    requires { number < length network.now.flows }
    ensures { OnOk result (AreKept numbers.old.items numbers.new.items × IsAddedIfAt network.now node number numbers.new.items) }
{
    if is_at(network.flow(number), node) {
        add_number(number, numbers)
    } else {
        Ok(())
    }
}

/// Adds the declared flows that end or start at the node.
fn add_flows_at(network: &Network, node: u16, numbers: &mut Vec<u16>) -> Result<(), AllocError>
    ensures { OnOk result (AreKept numbers.old.items numbers.new.items × AreAllAt network.now node numbers.new.items) }
{
    for number in 0..network.declared_flows() {
        add_if_at(network, node, number, numbers)?;
    }
    Ok(())
}

/// Is it a flow of commands to the node that is not limited?
fn is_unlimited_command(network: &Network, node: u16, number: u16) -> bool
    requires { number < length network.now.flows }
    ensures { IsTrue result → IsUnlimitedCommand network.now node number }
{
    let flow = network.flow(number);
    let is_limited = network.is_limited(number);
    flow.is_answered_at(node) && !is_limited
}

/// Has the network a declared flow of that name that is answered?
fn is_answered_in(network: &Network, name: &str) -> bool {
    match network.declared_flow_named(name) {
        Some(number) => network.flow(number).reply().is_some(),
        None => false,
    }
}

/// A flow of commands to the node that is not limited: the first of those that are answered in the changed network as well.
fn unlimited_command(network: &Network, changed: &Network, node: u16) -> Option<u16>
    ensures { IfSome result (IsUnlimitedCommand network.now node) }
{
    for number in 0..network.declared_flows() {
        if !is_unlimited_command(network, node, number) {
            continue;
        }
        if is_answered_in(changed, network.flow(number).name()) {
            return Some(number);
        }
    }
    None
}

/// Adds flows for which the target may make others wait: one that is not limited, if there is such a one, and else all that end or start at
/// the node.
fn add_target(
    network: &Network,
    changed: &Network,
    node: u16,
    uses: &mut Uses,
) -> Result<(), AllocError>
    ensures { OnOk result (UsesGrow uses.old uses.new × IsTargetUsed network.now node uses.new) }
{
    match unlimited_command(network, changed, node) {
        Some(number) => add_number(number, &mut uses.answered),
        None => {
            uses.rests_on_limits = true;
            add_flows_at(network, node, &mut uses.answered)
        }
    }
}

/// Has the declared flow of that number a reply?
fn is_answered(network: &Network, number: u16) -> bool
    requires { number < length network.now.flows }
    ensures { result ≡ option_map_or (λ f. is_some f.reply) (slice_get network.now.flows number) false }
{
    network.flow(number).reply().is_some()
}

/// The declared flow whose reply flow is that one of them.
fn answered_flow(network: &Network, reply: u16) -> u16
    requires { reply < length (reply_flows network.now.flows) }
    ensures { IsReplyOf network.now reply result }
{
    let mut replies = 0;
    for number in 0..network.declared_flows() {
        if !is_answered(network, number) {
            continue;
        }
        if replies == reply {
            return number;
        }
        replies += 1;
    }
    unreachable!()
}

/// Adds the flow of that number, a declared one or one of replies.
fn add_flow(network: &Network, number: u16, uses: &mut Uses) -> Result<(), AllocError>
    requires { number < length (all_flows network.now) }
    ensures { OnOk result (UsesGrow uses.old uses.new × IsFlowUsed network.now number uses.new) }
{
    let declared = network.declared_flows();
    if number < declared {
        add_number(number, &mut uses.flows)
    } else {
        let answered = answered_flow(network, number - declared);
        add_number(answered, &mut uses.answered)
    }
}

/// Marks the leading byte with which the flow comes to a switch by the place, if it does.
fn mark_byte(network: &Network, flow: &Flow, place: Place, bytes: &mut Vec<bool>)
    ensures stay { MarksStay bytes.old.items bytes.new.items }
    ensures used { IsByteUsed network.now flow.now bytes.new.items place }
{
    let topology = network.topology();
    if place.channel.number() >= topology.channels() {
        return;
    }
    let PlaceEnd::Switch(switch, _) = topology.end_of(place.channel) else {
        return;
    };
    let Some(byte) = flow.address().get(usize::from(place.deleted)) else {
        return;
    };
    let number = 256 * usize::from(switch) + usize::from(*byte);
    if number < bytes.len() {
        bytes[number] = true;
    }
}

/// Marks the leading bytes with which the flow comes to switches by these places.
fn mark_bytes(network: &Network, flow: &Flow, places: &[Place], bytes: &mut Vec<bool>)
    ensures stay { MarksStay bytes.old.items bytes.new.items }
    ensures used { All (IsByteUsed network.now flow.now bytes.new.items) places.now }
{
    for place in places {
        mark_byte(network, flow, *place, bytes);
    }
}

/// Adds what the cause uses. Of the flows for which a target may make others wait one is taken that the changed network has as well.
fn add_uses(
    network: &Network,
    changed: &Network,
    cause: &Cause,
    uses: &mut Uses,
) -> Result<(), AllocError>
    ensures { OnOk result (UsesGrow uses.old uses.new × IsCauseUsed network.now uses.new (cause_of cause.now)) }
{
    match cause {
        Cause::Target(node) => add_target(network, changed, *node, uses),
        Cause::Flow(number, places) => {
            if *number >= network.flows() {
                return Ok(());
            }
            mark_bytes(network, network.flow(*number), places, &mut uses.bytes);
            add_flow(network, *number, uses)
        }
    }
}

/// What the causes of the cycle use, so that changes which leave the cycle in the changed network touch as little of it as can be.
pub(crate) fn uses_of(
    alloc: Global,
    network: &Network,
    changed: &Network,
    cycle: &Cycle,
) -> Result<Uses, AllocError>
    ensures { IfOk result (λ uses. All (IsCauseUsed network.now uses) cycle.now.causes) }
{
    let bytes = vec![in alloc; false; 256 * usize::from(network.switches())]?;
    let mut uses = Uses {
        flows: Vec::new(alloc),
        answered: Vec::new(alloc),
        rests_on_limits: false,
        bytes,
    };
    for cause in cycle.causes.iter() {
        add_uses(network, changed, cause, &mut uses)?;
    }
    Ok(uses)
}
