//! The steps of a node. Each answers whether the step was possible; where it was not, nothing
//! changed.
ghost use Rattle.std.specs.Prelude.{◌≡◌, ◌<◌, IfNone, IfOk, IfSome, OnErr, length};
ghost use Rattle.sw_cell.specs.Makes.{HasNodeState, IsDeclaredAt, NodeDoes, NodeMakes};
ghost use Rattle.sw_cell.specs.Parts.{IsNodeFor};
ghost use Rattle.sw_cell.specs.Possible.{BeginTells, NodeEnabled, NodeHas, NodeTells, step_at_node};
ghost use Rattle.sw_machine.specs.DeclaredPackets.{IsDeclaredPacket};
ghost use Rattle.sw_machine.specs.Steps.{Accept, Arrive, Begin, Emit, Fct, FctIn, Reply};
ghost use Rattle.sw_machine.specs.Model.{network_of};
ghost use Rattle.sw_config.specs.Entries.{Declaration};
ghost use Rattle.sw_node.specs.Conditions.{CanAccept, CanBegin};

use std::alloc::{AllocError, Global};
use sw_char::End;
use sw_config::Network;
use sw_link::Wires;
use sw_machine::in_flow;
use sw_node::NodeCell;

/// The end of the channel that comes to node `n` sends an FCT (ECSS-E-ST-50-12C, data link layer: flow
/// control).
#[inline(always)]
pub fn fct(network: &Network, n: u16, node: &mut NodeCell, wires: &mut Wires) -> bool
    requires node { IsNodeFor network.now n node.old }
    requires reached { HasNodeState (network_of network.now) n node.old wires.old }
    ensures node { IsNodeFor network.now n node.new }
    ensures made { NodeMakes (network_of network.now) n node.old wires.old (Fct ((network_of network.now).into n)) result node.new wires.new }
{
    if !node.can_issue() {
        return false;
    }
    node.issue();
    wires.send_fct(network.topology().into(n));
    true
}

/// An FCT arrives where the channel starts that goes out from node `n` (ECSS-E-ST-50-12C, data link
/// layer: flow control).
#[inline(always)]
pub fn fct_in(network: &Network, n: u16, node: &mut NodeCell, wires: &mut Wires) -> bool
    requires node { IsNodeFor network.now n node.old }
    requires reached { HasNodeState (network_of network.now) n node.old wires.old }
    ensures node { IsNodeFor network.now n node.new }
    ensures made { NodeMakes (network_of network.now) n node.old wires.old (FctIn ((network_of network.now).out n)) result node.new wires.new }
{
    let out = network.topology().out(n);
    if wires.fcts(out) == 0 {
        return false;
    }
    wires.take_fct(out);
    node.fct_in();
    true
}

/// The first character on the wire of the channel that comes to node `n` arrives (ECSS-E-ST-50-12C,
/// data link layer: flow control).
#[inline(always)]
pub fn arrive(network: &Network, n: u16, node: &mut NodeCell, wires: &mut Wires) -> bool
    requires node { IsNodeFor network.now n node.old }
    requires reached { HasNodeState (network_of network.now) n node.old wires.old }
    ensures node { IsNodeFor network.now n node.new }
    ensures made { NodeMakes (network_of network.now) n node.old wires.old (Arrive ((network_of network.now).into n)) result node.new wires.new }
{
    let into = network.topology().into(n);
    let Some(character) = wires.first(into) else {
        return false;
    };
    let _ = wires.take(into);
    node.arrive(character);
    true
}

/// Node `n` puts a character on its wire (ECSS-E-ST-50-12C, data link layer: flow control).
#[inline(always)]
pub fn emit(network: &Network, n: u16, node: &mut NodeCell, wires: &mut Wires) -> bool
    requires node { IsNodeFor network.now n node.old }
    requires reached { HasNodeState (network_of network.now) n node.old wires.old }
    ensures node { IsNodeFor network.now n node.new }
    ensures made { NodeMakes (network_of network.now) n node.old wires.old (Emit n) result node.new wires.new }
{
    if !node.can_emit() {
        return false;
    }
    let character = node.emit();
    wires.put(network.topology().out(n), character);
    true
}

/// Node `n` takes a character.
///
/// # Errors
///
/// There is no memory for what is stored: only where the step is possible. The node is then as it
/// was.
#[inline(always)]
pub fn accept(alloc: Global, n: u16, node: &mut NodeCell) -> Result<bool, AllocError>
    ensures made { IfOk result (λ made. (d : Declaration) → IsNodeFor d n node.old → NodeDoes d n node.old (Accept n) made node.new) }
    ensures possible { OnErr result (CanAccept node.old) }
    ensures err { OnErr result (node.new ≡ node.old) }
{
    if !node.can_accept() {
        return Ok(false);
    }
    node.accept(alloc)?;
    Ok(true)
}

/// Node `n` begins to send the reply (ECSS-E-ST-50-52C, reply fields) that has waited longest.
#[inline(always)]
pub fn reply(n: u16, node: &mut NodeCell) -> bool
    ensures { (d : Declaration) → IsNodeFor d n node.old → NodeDoes d n node.old (Reply n) result node.new }
{
    if !node.can_reply() {
        return false;
    }
    node.reply();
    true
}

/// The node where the flow starts, if a packet with this cargo is one that the flow declares.
#[inline(never)]
#[tactic(auto, unfolding(sw_machine::specs::Model::network_of))]
pub fn begins_at(network: &Network, flow: u16, cargo: &[u8], end: End) -> Option<u16>
    ensures undeclared { IfNone result (¬ IsDeclaredPacket network.now flow cargo.now) }
    ensures declared { IfSome result (λ n. IsDeclaredAt network.now n flow cargo.now) }
    ensures within { IfSome result (λ n. n < length network.now.nodes) }
{
    if in_flow(network, flow, cargo, end) {
        Some(network.flow(flow).from())
    } else {
        None
    }
}

/// Node `n` begins to send a packet of a declared flow that starts there: the flow's address, the
/// cargo and the end marker (ECSS-E-ST-50-12C, network layer: packets).
///
/// # Errors
///
/// There is no memory for the packet: only where the step is possible. The node is then as it was.
pub fn begin(
    alloc: Global,
    network: &Network,
    n: u16,
    flow: u16,
    cargo: &[u8],
    end: End,
    node: &mut NodeCell,
) -> Result<bool, AllocError>
    requires node { IsNodeFor network.now n node.old }
    requires declared { IsDeclaredAt network.now n flow cargo.now }
    ensures made { IfOk result (λ made. NodeDoes network.now n node.old (Begin flow cargo.now end) made node.new) }
    ensures possible { OnErr result (CanBegin node.old) }
    ensures err { OnErr result (node.new ≡ node.old) }
{
    if !node.can_begin() {
        return Ok(false);
    }
    node.begin(alloc, network.flow(flow).address(), cargo, end)?;
    Ok(true)
}

/// Whether node `n` can begin a packet (ECSS-E-ST-50-12C, network layer: packets). This hangs on no
/// packet: it can begin each that a flow which starts there declares, or none.
pub fn can_begin(n: u16, node: &NodeCell) -> bool
    ensures { (d : Declaration) → IsNodeFor d n node.now → BeginTells d n node.now result }
{
    node.can_begin()
}

/// A step at a node, other than to begin a packet.
#[derive(Clone, Copy)]
pub enum NodeStep {
    /// The end of the channel that comes to the node sends an FCT.
    Fct,
    /// An FCT arrives where the channel starts that goes out from it.
    FctIn,
    /// The first character on the wire of the channel that comes to it arrives.
    Arrive,
    /// It puts a character on its wire.
    Emit,
    /// It takes a character.
    Accept,
    /// It begins to send the reply that has waited longest.
    Reply,
}

/// Whether that step of node `n` is possible.
pub fn is_possible(
    network: &Network,
    n: u16,
    step: NodeStep,
    node: &NodeCell,
    wires: &Wires,
) -> bool
    requires node { IsNodeFor network.now n node.now }
    requires reached { HasNodeState (network_of network.now) n node.now wires.now }
    ensures { NodeTells (network_of network.now) n node.now wires.now (step_at_node (network_of network.now) n step) result }
{
    match step {
        NodeStep::Fct => node.can_issue(),
        NodeStep::FctIn => wires.fcts(network.topology().out(n)) > 0,
        NodeStep::Arrive => wires.len(network.topology().into(n)) > 0,
        NodeStep::Emit => node.can_emit(),
        NodeStep::Accept => node.can_accept(),
        NodeStep::Reply => node.can_reply(),
    }
}

/// Whether some step of node `n` is possible, other than to begin a packet.
pub fn can_step(network: &Network, n: u16, node: &NodeCell, wires: &Wires) -> bool
    requires node { IsNodeFor network.now n node.now }
    requires reached { HasNodeState (network_of network.now) n node.now wires.now }
    ensures { NodeEnabled (network_of network.now) n node.now wires.now result }
{
    if node.enabled() {
        return true;
    }
    if wires.fcts(network.topology().out(n)) > 0 {
        return true;
    }
    wires.len(network.topology().into(n)) > 0
}

/// A step of node `n` that is possible, other than to begin a packet, if some is. Where several are,
/// any of them may be told.
#[inline(always)]
pub fn possible_step(network: &Network, n: u16, node: &NodeCell, wires: &Wires) -> Option<NodeStep>
    requires node { IsNodeFor network.now n node.now }
    requires reached { HasNodeState (network_of network.now) n node.now wires.now }
    ensures { NodeHas (network_of network.now) n node.now wires.now result }
{
    if is_possible(network, n, NodeStep::Fct, node, wires) {
        return Some(NodeStep::Fct);
    }
    if is_possible(network, n, NodeStep::FctIn, node, wires) {
        return Some(NodeStep::FctIn);
    }
    if is_possible(network, n, NodeStep::Arrive, node, wires) {
        return Some(NodeStep::Arrive);
    }
    if is_possible(network, n, NodeStep::Emit, node, wires) {
        return Some(NodeStep::Emit);
    }
    if is_possible(network, n, NodeStep::Accept, node, wires) {
        return Some(NodeStep::Accept);
    }
    if is_possible(network, n, NodeStep::Reply, node, wires) {
        return Some(NodeStep::Reply);
    }
    None
}
