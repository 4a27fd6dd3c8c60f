//! The packet of a flow that brings its target a command.
ghost use Rattle.std.specs.Prelude.{◌≡◌, ◌≤◌, length};
ghost use Rattle.sw_config.specs.Limits.{is_limited};
ghost use Rattle.sw_config.specs.Valid.{IsFlow};
ghost use Rattle.sw_rmap.specs.Config.{IsTargetConfig};
ghost use Rattle.sw_text.specs.Gives.{Gives};
ghost use Rattle.sw_app_rmap.specs.FlowCommands.{path_back};
ghost use Rattle.sw_app_rmap.specs.Orders.{IsSmall, order_view};
ghost use Rattle.sw_app_rmap.specs.Packets.{begins_with, behind_left, cargo_of, cargo_to, cargo_where, is_in_window, packet_of};

use crate::fault::RmapFault;
use crate::flow_command::bytes_to;
use crate::order::{RmapOrder, order_of};
use crate::request::Request;
use std::alloc::Global;
use std::marker::Model;
use sw_config::{Flow, Network};
use sw_load::MAX_CARGO;
use sw_machine::left_bytes;
use sw_rmap::TargetConfig;
use sw_text::OrMemory;

/// A packet: the number of its flow, and its bytes behind the flow's address.
#[derive(Drop)]
pub(crate) struct FlowPacket {
    pub(crate) flow: u16,
    pub(crate) cargo: Vec<u8>,
}

impl Model for FlowPacket {
    ghost use Rattle.sw_app_rmap.specs.Packets as seen;

    ghost Value = { seen.FlowPacket };

    ghost view = { λ p. record { flow = p.flow; cargo = p.cargo.items } };
}

fn is_in_window(target: TargetConfig, order: &RmapOrder) -> bool
    requires target { IsTargetConfig target }
    requires small { IsSmall (order_view order.now) }
    ensures { result ≡ is_in_window target (order_view order.now) }
{
    target.start <= order.address
        && order.address + order.action.length() <= target.start + u64::from(target.size)
}

fn begins_with(left: &[u8], bytes: &[u8]) -> bool
    ensures { result ≡ begins_with left.now bytes.now }
{
    bytes.starts_with(left) && left.len() < bytes.len()
}

/// What follows the address bytes that are left.
fn behind_left(alloc: Global, left: &[u8], bytes: &[u8]) -> Result<Vec<u8>, OrMemory<RmapFault>>
    ensures { Gives (λ v. v.items) result (behind_left left.now bytes.now) }
{
    if !begins_with(left, bytes) {
        return Err(OrMemory::Fault(RmapFault::WrongLeft));
    }
    let cargo = &bytes[left.len()..];
    if cargo.len() > MAX_CARGO {
        return Err(OrMemory::Fault(RmapFault::TooLong));
    }
    Ok(Vec::from_slice(alloc, cargo)?)
}

fn cargo_to(
    alloc: Global,
    target: TargetConfig,
    flow: &Flow,
    order: &RmapOrder,
) -> Result<Vec<u8>, OrMemory<RmapFault>>
    requires target { IsTargetConfig target }
    requires path { length (path_back flow.now.reply) ≤ 12 }
    requires small { IsSmall (order_view order.now) }
    ensures { Gives (λ v. v.items) result (cargo_to target flow.now (order_view order.now)) }
{
    if order.action.wants_reply() && flow.reply().is_none() {
        return Err(OrMemory::Fault(RmapFault::NoReply));
    }
    if !is_in_window(target, order) {
        return Err(OrMemory::Fault(RmapFault::OutsideWindow));
    }
    let bytes = bytes_to(alloc, target, flow.reply(), order)?;
    behind_left(alloc, left_bytes(flow), &bytes)
}

/// The same where the flow is limited, or is not.
fn cargo_where(
    alloc: Global,
    limited: bool,
    target: TargetConfig,
    flow: &Flow,
    order: &RmapOrder,
) -> Result<Vec<u8>, OrMemory<RmapFault>>
    requires target { IsTargetConfig target }
    requires path { length (path_back flow.now.reply) ≤ 12 }
    requires small { IsSmall (order_view order.now) }
    ensures { Gives (λ v. v.items) result (cargo_where limited target flow.now (order_view order.now)) }
{
    if limited && !order.action.wants_reply() {
        return Err(OrMemory::Fault(RmapFault::NotAnswered));
    }
    cargo_to(alloc, target, flow, order)
}

#[tactic(auto, unfolding(crate::specs::Packets::cargo_of))]
fn cargo_of(
    alloc: Global,
    network: &Network,
    limited: bool,
    flow: &Flow,
    order: &RmapOrder,
) -> Result<Vec<u8>, OrMemory<RmapFault>>
    requires limited { limited ≡ is_limited network.now.nodes flow.now }
    requires flow { IsFlow network.now.nodes flow.now }
    requires small { IsSmall (order_view order.now) }
    ensures { Gives (λ v. v.items) result (cargo_of network.now.nodes flow.now (order_view order.now)) }
{
    match network.target(flow.to()) {
        Some(target) => cargo_where(alloc, limited, target, flow, order),
        None => Err(OrMemory::Fault(RmapFault::NoTarget)),
    }
}

/// The packet that is asked for.
///
/// # Errors
///
/// `Fault`: the first reason why there is none. `Memory`: there is no memory for it.
#[tactic(auto, unfolding(crate::specs::Packets::packet_of))]
pub(crate) fn packet_of(
    alloc: Global,
    network: &Network,
    request: &Request<'_>,
) -> Result<FlowPacket, OrMemory<RmapFault>>
    ensures { Gives (λ p. p) result (packet_of network.now request.now) }
{
    let Some(number) = network.declared_flow_named(request.flow) else {
        return Err(OrMemory::Fault(RmapFault::UnknownFlow));
    };
    let flow = network.flow(number);
    let order = order_of(alloc, request)?;
    let cargo = cargo_of(alloc, network, network.is_limited(number), flow, &order)?;
    Ok(FlowPacket {
        flow: number,
        cargo,
    })
}
