//! Entries of `flow`.
ghost use Rattle.std.specs.Prelude.{◌≡◌, ◌+◌, ◌≤◌, ◌<◌, false, length, vec_len, IfOk, IfSome, OnOk, Ok, Option, Result, Some};
ghost use Rattle.std.specs.List.{list_any};
ghost use Rattle.std.specs.Str.{bytes_eq};
ghost use Rattle.toml.specs.View.{table_view};
ghost use Rattle.sw_config.specs.Entries.{ReplyEntry, flow_names};
ghost use Rattle.sw_config.specs.Valid.{IsFlow, IsReply};
ghost use Rattle.sw_text.specs.declared.fault.TextFault.{TextFault};
ghost use Rattle.sw_text.specs.Gives.{Gives};
ghost use Rattle.sw_file.specs.Names.{place_at};
ghost use Rattle.sw_file.specs.FlowTables.{node_names, addressed, can_reply, replies_at, with_replies, flow_of, next_flow};

use crate::nodes::outstanding_or_none;
use std::alloc::Global;
use std::marker::Model;
use sw_config::{Flow, Network, Reply};
use sw_text::section_keys::{FLOW_KEYS, reply_keys};
use sw_text::{FileFault, Key, KeyFault, Section, TableEntry, TextFault, Version};
use sw_topo::limits::{FIRST_LOGICAL, LAST_LOGICAL, MAX_ADDRESS, MAX_FLOWS, MAX_REPLY_PATH};
use toml::Table;

#[tactic(auto, unfolding(crate::specs::Names::place_at))]
fn node_at(flow: &TableEntry, key: Key, network: &Network) -> Result<u16, FileFault>
    ensures gives { Gives (λ n. n) result (place_at flow.now.section key (node_names network.now.nodes) (table_view flow.now.table.now)) }
    ensures within { IfOk result (λ n. n < length network.now.nodes) }
{
    let name = flow.text(key)?;
    match network.node_named(name) {
        Some(node) => Ok(node),
        None => Err(flow.fault(KeyFault::UnknownName, key)),
    }
}

/// The address bytes of the flow, and how many of them are left at its end.
#[tactic(auto, unfolding(crate::specs::FlowTables::addressed, crate::specs::FlowTables::address_at))]
fn address_of(alloc: Global, index: usize, flow: &TableEntry) -> Result<(Vec<u8>, u8), FileFault>
    requires { flow.now.section ≡ Section.Flow index }
    ensures gives { Gives (λ a. (a.0.items, a.1)) result (addressed index (table_view flow.now.table.now)) }
    ensures few { IfOk result (λ a. vec_len a.0 ≤ 32) }
    ensures left { IfOk result (λ a. a.1 ≤ vec_len a.0) }
{
    let address = flow.numbers_or_none(alloc, Key::Address, 255)?;
    if address.len() > MAX_ADDRESS as usize {
        return Err(flow.fault(KeyFault::OutOfRange, Key::Address));
    }
    let left = flow.number_or(Key::Left, 0, address.len() as u64, 0)? as u8;
    Ok((address, left))
}

fn can_reply(network: &Network, to: u16, reply: &Reply) -> bool
    requires { to < length network.now.nodes }
    ensures { result ≡ can_reply network.now.nodes to (Some reply.now) }
{
    reply.path().len() <= MAX_REPLY_PATH
        && !matches!(reply.path(), [0, ..])
        && FIRST_LOGICAL as u8 <= reply.initiator()
        && reply.initiator() <= LAST_LOGICAL as u8
        && network.is_target(to)
}

/// Where the replies of the flow go, which come back from the node `to`.
#[tactic(auto, unfolding(crate::specs::FlowTables::replies_at, crate::specs::FlowTables::reply_or_none, crate::specs::FlowTables::reply_of))]
fn replies_at(
    alloc: Global,
    version: Version,
    index: usize,
    flow: &TableEntry,
    network: &Network,
    to: u16,
) -> Result<Option<Reply>, FileFault>
    requires section { flow.now.section ≡ Section.Flow index }
    requires within { to < length network.now.nodes }
    ensures gives { Gives (λ r. r) result (replies_at version index network.now.nodes to (table_view flow.now.table.now)) }
    ensures valid { IfOk result (λ r. IfSome r (IsReply network.now.nodes to)) }
{
    let Some(table) = flow.table_or_none(Key::Reply)? else {
        return Ok(None);
    };
    let entry = TableEntry {
        section: Section::Reply(index),
        table,
    };
    entry.only_known(alloc, reply_keys(version))?;
    let path = entry.numbers_or_none(alloc, Key::Path, 255)?;
    let initiator = entry.number(Key::Initiator, 0, 255)? as u8;
    let outstanding = outstanding_or_none(&entry)?;
    let reply = Reply::new(path, initiator, outstanding);
    if !can_reply(network, to, &reply) {
        return Err(FileFault::Fault(TextFault::ReplyShape(index)));
    }
    Ok(Some(reply))
}

/// The flow whose replies were read last.
fn with_replies(
    alloc: Global,
    name: &str,
    from: u16,
    to: u16,
    address: Vec<u8>,
    left: u8,
    replies: Result<Option<Reply>, FileFault>,
) -> Result<Flow, FileFault>
    ensures gives { (read : Result (Option ReplyEntry) TextFault) → Gives (λ r. r) replies read → Gives (λ f. f) result (with_replies name.now from to address.items left read) }
    ensures made { IfOk result (λ f. f ≡ record { name = name.now; from = from; to = to; address = address.items; left = left; reply = f.reply }) }
    ensures replies { IfOk result (λ f. replies ≡ Ok f.reply) }
{
    let reply = replies?;
    let name = String::from_str(alloc, name)?;
    Ok(Flow::new(name, from, to, address, left, reply))
}

#[tactic(auto, unfolding(crate::specs::FlowTables::flow_of, crate::specs::Names::new_name))]
fn flow_of(
    alloc: Global,
    version: Version,
    index: usize,
    flow: &TableEntry,
    network: &Network,
) -> Result<Flow, FileFault>
    requires { flow.now.section ≡ Section.Flow index }
    ensures gives { Gives (λ f. f) result (flow_of version index network.now.nodes (flow_names network.now.flows) (table_view flow.now.table.now)) }
    ensures fresh { IfOk result (λ f. list_any (bytes_eq f.name) (flow_names network.now.flows) ≡ false) }
    ensures valid { IfOk result (IsFlow network.now.nodes) }
{
    flow.only_known(alloc, FLOW_KEYS)?;
    let name = flow.name()?;
    if network.has_flow_name(name) {
        return Err(flow.fault(KeyFault::DuplicateName, Key::Name));
    }
    let from = node_at(flow, Key::From, network)?;
    let to = node_at(flow, Key::To, network)?;
    let (address, left) = address_of(alloc, index, flow)?;
    let replies = replies_at(alloc, version, index, flow, network, to);
    with_replies(alloc, name, from, to, address, left, replies)
}

/// Adds the flow that the table declares.
#[tactic(auto, unfolding(crate::specs::FlowTables::next_flow))]
pub(crate) fn add_flow(
    alloc: Global,
    version: Version,
    index: usize,
    table: &Table,
    network: &mut Network,
) -> Result<(), FileFault>
    requires { length network.old.flows < MAX_FLOWS }
    ensures gives { Gives (λ _. network.new) result (next_flow version index network.old (table_view table.now)) }
    ensures one_more { OnOk result (length network.new.flows ≡ length network.old.flows + 1) }
{
    let flow = TableEntry {
        section: Section::Flow(index),
        table,
    };
    let made = flow_of(alloc, version, index, &flow, network)?;
    network.add_flow(alloc, made)?;
    Ok(())
}
