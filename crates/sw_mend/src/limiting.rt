//! How few commands may be unanswered for a network to be free.
ghost use Rattle.std.specs.Prelude.{◌≡◌, ℕ, ◌↔◌, ◌<◌, ◌∷◌, ◌==◌, ◌||◌, [], All, IfOk, IfSome, IsTrue, OnOk, Some, None, false, if◌then◌else◌, length, not, map, option_and_then, option_map, slice_get};
ghost use Rattle.std.specs.Option.{option_map_or};
ghost use Rattle.sw_config.specs.Entries.{all_flows, empty};
ghost use Rattle.sw_config.specs.Limits.{all_limited_at, is_limited, limit_at, may_make_wait};
ghost use Rattle.sw_config.specs.Valid.{IsOutstanding, IsTarget};
ghost use Rattle.sw_search.specs.Laws.{RoutedAndFree};
ghost use Rattle.sw_mend.specs.Limitings.{AreSlots, FreesLimited, IsFirst, IsLimiting, IsSlots, flow_limited, has_unlimited, is_unlimited, limit_and_slots, limited_by, limited_to, slots_after, slots_wanted, target_with, with_slots};

use crate::parts::{add_links, add_switches};
use std::alloc::{AllocError, Global};
use std::marker::Model;
use sw_config::{Flow, Network, NetworkBuilder, Reply};
use sw_rmap::TargetConfig;
use sw_search::{VerdictWorkers, is_free};
use sw_topo::TopoError;

/// How many replies the target of a node may owe.
#[derive(Clone, Copy)]
pub struct TargetSlots {
    /// The node.
    pub node: u16,
    /// How many replies: 1 to 64.
    pub slots: u8,
}

/// How many commands may be unanswered, and how many replies may be owed. All else of a network stays.
#[derive(Drop)]
pub struct Limiting {
    /// How many commands of each flow that was not limited may be unanswered at once, 1 to 8; none where no such flow is.
    pub most: Option<u16>,
    /// Targets that have to be able to owe more replies than they do.
    pub slots: Vec<TargetSlots>,
}

impl Model for Limiting {
    ghost Value = { Rattle.sw_mend.specs.Limitings.Limiting };

    ghost view = { λ l. record { most = l.most; slots = l.slots.items } };
}

/// The greatest number of unanswered commands of a flow that is tried.
const MOST: u16 = 8;

/// How many replies a target may owe.
const MOST_SLOTS: u32 = 64;

/// Are the flow's packets commands that are answered, any number of which may be unanswered?
fn is_unlimited(network: &Network, flow: u16) -> bool
    requires { flow < length network.now.flows }
    ensures { result ≡ option_map_or (is_unlimited network.now.nodes) (slice_get network.now.flows flow) false }
{
    network.flow(flow).reply().is_some() && !network.is_limited(flow)
}

/// Is a flow such?
fn has_unlimited(network: &Network) -> bool
    ensures { result ≡ has_unlimited network.now }
{
    for flow in 0..network.declared_flows() {
        if is_unlimited(network, flow) {
            return true;
        }
    }
    false
}

/// Does the flow end elsewhere, or is it limited?
fn is_no_other(network: &Network, flow: u16, node: u16) -> bool
    requires { flow < length (all_flows network.now) }
    ensures { result ≡ option_map_or (λ f. not (f.to == node) || is_limited network.now.nodes f) (slice_get (all_flows network.now) flow) false }
{
    network.flow(flow).to() != node || network.is_limited(flow)
}

/// Is each flow that ends at the node limited?
fn all_limited_at(network: &Network, node: u16) -> bool
    ensures { result ≡ all_limited_at network.now node }
{
    for flow in 0..network.flows() {
        if !is_no_other(network, flow, node) {
            return false;
        }
    }
    true
}

/// How many replies the node would have to be able to owe to take always what comes, if it has a limit, and now may make others wait.
fn slots_at(network: &Network, node: u16) -> Option<u32>
    ensures { result ≡ option_and_then (λ limit. if may_make_wait network.now node then Some (slots_wanted network.now node limit) else None) (limit_at network.now node) }
{
    let limit = network.limit_at(node)?;
    if !network.may_make_wait(node) {
        return None;
    }
    if all_limited_at(network, node) {
        Some(limit)
    } else {
        Some(limit + 1)
    }
}

/// The slots with which each node that has a limit always takes what comes, of those that do not; none where one would need too many.
fn more_slots(alloc: Global, network: &Network) -> Result<Option<Vec<TargetSlots>>, AllocError>
    ensures { IfOk result (λ o. AreSlots network.now (option_map (λ v. v.items) o)) }
{
    let mut slots = Vec::new(alloc);
    for node in 0..network.nodes() {
        let Some(wanted) = slots_at(network, node) else {
            continue;
        };
        if wanted == 0 || wanted > MOST_SLOTS {
            return Ok(None);
        }
        let slots_wanted = wanted as u8;
        slots.push(TargetSlots {
            node,
            slots: slots_wanted,
        })?;
    }
    Ok(Some(slots))
}

/// The slots of that node, where these are for it, and else as many as before.
fn slots_by(more: &TargetSlots, node: u16, before: u8) -> u8
    ensures { result ≡ if node == more.now.node then more.now.slots else before }
{
    if node == more.node {
        more.slots
    } else {
        before
    }
}

/// How many replies the target of that node may owe: so many as are named for it, or as many as before.
fn slots_after(slots: &[TargetSlots], node: u16, before: u8) -> u8
    ensures { result ≡ slots_after slots.now node before }
{
    let mut count = before;
    for more in slots {
        count = slots_by(more, node, count);
    }
    count
}

/// What the target of that node answers by, with so many slots where they are named.
fn target_with(
    slots: &[TargetSlots],
    node: u16,
    target: Option<TargetConfig>,
) -> Option<TargetConfig>
    ensures { result ≡ target_with slots.now node target }
{
    let mut target = target?;
    target.slots = slots_after(slots, node, target.slots);
    Some(target)
}

/// Adds the nodes of the network, with so many slots where they are named.
fn add_nodes_with(
    alloc: Global,
    network: &Network,
    slots: &[TargetSlots],
    builder: &mut NetworkBuilder,
) -> Result<(), AllocError>
    requires slots { All IsSlots slots.now }
    requires none { builder.old ≡ empty }
    ensures { OnOk result (builder.new ≡ record empty { nodes = (with_slots network.now slots.now).nodes }) }
{
    // Names the network, which is valid by its type.
    let _topology = network.topology();
    for node in 0..network.nodes() {
        let name = network.node_name(node);
        let target = target_with(slots, node, network.target(node));
        builder.add_node(alloc, name, target, network.outstanding(node))?;
    }
    Ok(())
}

/// Adds the nodes, the switches and the links.
fn add_parts_with(
    alloc: Global,
    network: &Network,
    slots: &[TargetSlots],
    builder: &mut NetworkBuilder,
) -> Result<(), AllocError>
    requires slots { All IsSlots slots.now }
    requires none { builder.old ≡ empty }
    ensures { OnOk result (builder.new ≡ record (with_slots network.now slots.now) { flows = [] }) }
{
    // Names the network, which is valid by its type.
    let _topology = network.topology();
    add_nodes_with(alloc, network, slots, builder)?;
    add_switches(alloc, network, &[], builder)?;
    add_links(network, builder)
}

/// The network with so many slots where they are named, without flows.
fn with_slots(
    alloc: Global,
    network: &Network,
    slots: &[TargetSlots],
) -> Result<Network, AllocError>
    requires slots { All IsSlots slots.now }
    ensures { IfOk result (λ n. n ≡ record (with_slots network.now slots.now) { flows = [] }) }
{
    // Names the network, which is valid by its type.
    let _topology = network.topology();
    let mut builder = NetworkBuilder::new(alloc);
    match add_parts_with(alloc, network, slots, &mut builder) {
        Ok(()) => match builder.wire(alloc) {
            Ok(network) => Ok(network),
            Err(TopoError::Fault(_)) => unreachable!(),
            Err(TopoError::Memory) => Err(AllocError),
        },
        Err(refused) => {
            builder.discard();
            Err(refused)
        }
    }
}

/// Where the replies of a flow go, of which at most that many commands may be unanswered at once; a flow that is limited stays.
fn limited_reply(
    alloc: Global,
    reply: &Reply,
    is_limited: bool,
    most: Option<u16>,
) -> Result<Reply, AllocError>
    ensures { IfOk result (λ r. r ≡ if is_limited then reply.now else record reply.now { outstanding = most }) }
{
    let path = Vec::from_slice(alloc, reply.path())?;
    let outstanding = if is_limited {
        reply.outstanding()
    } else {
        most
    };
    Ok(Reply::new(path, reply.initiator(), outstanding))
}

/// The same, if its packets are commands that are answered.
fn limited_replies(
    alloc: Global,
    flow: &Flow,
    is_limited: bool,
    most: Option<u16>,
) -> Result<Option<Reply>, AllocError>
    ensures { IfOk result (λ o. o ≡ option_map (λ r. if is_limited then r else record r { outstanding = most }) flow.now.reply) }
{
    match flow.reply() {
        Some(reply) => Ok(Some(limited_reply(alloc, reply, is_limited, most)?)),
        None => Ok(None),
    }
}

/// The flow, of which at most that many commands may be unanswered at once; one that is limited stays.
pub(crate) fn limited_flow(
    alloc: Global,
    flow: &Flow,
    is_limited: bool,
    most: Option<u16>,
) -> Result<Flow, AllocError>
    ensures { IfOk result (λ f. f ≡ record flow.now { reply = option_map (λ r. if is_limited then r else record r { outstanding = most }) flow.now.reply }) }
{
    let name = String::from_str(alloc, flow.name())?;
    let address = Vec::from_slice(alloc, flow.address())?;
    let reply = limited_replies(alloc, flow, is_limited, most)?;
    Ok(Flow::new(name, flow.from(), flow.to(), address, flow.left(), reply))
}

/// Adds each flow so.
fn add_limited_flows(
    alloc: Global,
    network: &Network,
    most: Option<u16>,
    built: &mut Network,
) -> Result<(), AllocError>
    requires most { IfSome most IsOutstanding }
    requires none { built.old.flows ≡ [] }
    requires nodes { length built.old.nodes ≡ length network.now.nodes }
    requires targets { (n : ℕ) → IsTarget network.now.nodes n → IsTarget built.old.nodes n }
    ensures { OnOk result (built.new ≡ record built.old { flows = map (flow_limited network.now.nodes most) network.now.flows }) }
{
    // Names the network, which is valid by its type.
    let _topology = network.topology();
    for number in 0..network.declared_flows() {
        let is_limited = network.is_limited(number);
        let flow = limited_flow(alloc, network.flow(number), is_limited, most)?;
        built.add_flow(alloc, flow)?;
    }
    Ok(())
}

/// The network that the limit and the slots leave.
fn network_limited(
    alloc: Global,
    network: &Network,
    most: Option<u16>,
    slots: &[TargetSlots],
) -> Result<Network, AllocError>
    requires most { IfSome most IsOutstanding }
    requires slots { All IsSlots slots.now }
    ensures { IfOk result (λ n. n ≡ limited_by network.now (record { most = most; slots = slots.now })) }
{
    let mut built = with_slots(alloc, network, slots)?;
    match add_limited_flows(alloc, network, most, &mut built) {
        Ok(()) => Ok(built),
        Err(refused) => {
            built.discard();
            Err(refused)
        }
    }
}

/// Is the network free that the limit and the slots leave?
fn frees<W: VerdictWorkers>(
    workers: &W,
    alloc: Global,
    network: &Network,
    most: Option<u16>,
    slots: &[TargetSlots],
) -> Result<bool, AllocError>
    requires most { IfSome most IsOutstanding }
    requires slots { All IsSlots slots.now }
    ensures { IfOk result (λ freed. IsTrue freed ↔ RoutedAndFree (limited_by network.now (record { most = most; slots = slots.now }))) }
{
    let changed = network_limited(alloc, network, most, slots)?;
    let freed = is_free(workers, alloc, &changed);
    changed.discard();
    freed
}

/// The slots that the network would need with that limit; none where a target would need too many.
fn slots_with(
    alloc: Global,
    network: &Network,
    most: Option<u16>,
) -> Result<Option<Vec<TargetSlots>>, AllocError>
    requires most { IfSome most IsOutstanding }
    ensures { IfOk result (λ o. AreSlots (limited_to network.now most) (option_map (λ v. v.items) o)) }
{
    let limited = network_limited(alloc, network, most, &[])?;
    let slots = more_slots(alloc, &limited);
    limited.discard();
    slots
}

/// The limit with slots, if both free the network.
fn limit_and_slots<W: VerdictWorkers>(
    workers: &W,
    alloc: Global,
    network: &Network,
    most: Option<u16>,
) -> Result<Option<Limiting>, AllocError>
    requires most { IfSome most IsOutstanding }
    ensures { IfOk result (IsFirst (FreesLimited network.now) (limit_and_slots network.now most ∷ [])) }
{
    let Some(slots) = slots_with(alloc, network, most)? else {
        return Ok(None);
    };
    if frees(workers, alloc, network, most, &slots)? {
        Ok(Some(Limiting { most, slots }))
    } else {
        Ok(None)
    }
}

/// What limits on unanswered commands free the network: where any number of commands of some flow may be unanswered, the greatest number of
/// 1 to 8 that frees it as a limit on each such flow; else, or where none does, the limit 1 together with the slots with which each target that has a
/// limit always takes what comes, where no target needs more than 64; where each flow of commands is limited, such slots alone. None where that does not free it. The workers share the
/// work of each verdict.
///
/// # Errors
///
/// There is no memory for a changed network or its verdict.
pub fn find_limiting<W: VerdictWorkers>(
    workers: &W,
    alloc: Global,
    network: &Network,
) -> Result<Option<Limiting>, AllocError>
    ensures { IfOk result (IsLimiting network.now) }
{
    if !has_unlimited(network) {
        return limit_and_slots(workers, alloc, network, None);
    }
    for less in 0..MOST {
        let most = MOST - less;
        if frees(workers, alloc, network, Some(most), &[])? {
            let slots = Vec::new(alloc);
            return Ok(Some(Limiting {
                most: Some(most),
                slots,
            }));
        }
    }
    limit_and_slots(workers, alloc, network, Some(1))
}
