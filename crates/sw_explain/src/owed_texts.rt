//! The text of what a target owes, and of the commands to it that may be unanswered.
ghost use Rattle.std.specs.Prelude.{◌≡◌, ◌<◌, ◌++◌, codes, length, IfOk, OnOk, string_bytes};
ghost use Rattle.sw_config.specs.Entries.{all_flows};
ghost use Rattle.sw_explain.specs.ExplainTexts.{allowed_text, is_number_told, joined, name_and_limit, owed_text, own_limit, replies_noun, replies_text, slots_at, told_commands};

use crate::step_texts::{add_more, flows_to_name};
use crate::words::ending;
use std::alloc::{AllocError, Global};
use std::fmt::Write;
use sw_config::Network;
use sw_output::flow_name;

/// How many replies the node may owe, 1 to 64: None where it is no target, or there is no such node.
pub fn slots_at(network: &Network, node: u16) -> Option<u8>
    ensures { result ≡ slots_at network.now node }
{
    if node >= network.nodes() {
        return None;
    }
    match network.target(node) {
        Some(target) => Some(target.slots),
        None => None,
    }
}

/// Is it a flow of commands to the node that is told of there: any, or where the node has no limit one that is not limited?
fn is_told(network: &Network, node: u16, flow: u16) -> bool
    requires { flow < length (all_flows network.now) }
    ensures { result ≡ is_number_told network.now node flow }
{
    let answered = network.flow(flow).is_answered_at(node);
    answered && (network.limit_at(node).is_some() || !network.is_limited(flow))
}

/// The flows of commands to the node that are told of there.
fn told_commands(alloc: Global, network: &Network, node: u16) -> Result<Vec<u16>, AllocError>
    ensures { IfOk result (λ v. v.items ≡ told_commands network.now node) }
{
    let mut flows = Vec::new(alloc);
    for flow in 0..network.flows() {
        if !is_told(network, node, flow) {
            continue;
        }
        flows.push(flow)?;
    }
    Ok(flows)
}

/// How many commands of the flow may be unanswered, if it has a limit of its own.
fn own_limit(network: &Network, flow: u16) -> Option<u16>
    ensures { result ≡ own_limit network.now flow }
{
    if flow >= network.flows() {
        return None;
    }
    match network.flow(flow).reply() {
        Some(reply) => reply.outstanding(),
        None => None,
    }
}

/// Adds a flow's name behind what stands before it, and its own limit.
fn add_name(network: &Network, before: &str, flow: u16, text: &mut String) -> Result<(), AllocError>
    ensures { OnOk result (string_bytes text.new ≡ string_bytes text.old ++ (before.now ++ name_and_limit network.now flow)) }
{
    let name = flow_name(network, flow);
    match own_limit(network, flow) {
        Some(limit) => write!(text, "{before}{name} {limit}"),
        None => write!(text, "{before}{name}"),
    }
}

/// Adds the names of flows and their own limits, with a comma between each two.
fn add_names(network: &Network, flows: &[u16], text: &mut String) -> Result<(), AllocError>
    ensures { OnOk result (string_bytes text.new ≡ string_bytes text.old ++ joined (name_and_limit network.now) (codes ", ") flows.now) }
{
    match flows {
        [] => Ok(()),
        [first, rest @ ..] => {
            add_name(network, "", *first, text)?;
            for flow in rest {
                add_name(network, ", ", *flow, text)?;
            }
            Ok(())
        }
    }
}

/// The noun of so many replies.
fn replies(count: u8) -> &'static str
    ensures { result.now ≡ replies_noun count }
{
    if count == 1 { "reply" } else { "replies" }
}

/// How many replies a target owes when it takes nothing, and how many commands may be unanswered there.
fn owed_words(alloc: Global, slots: u8, limit: Option<u32>) -> Result<String, AllocError>
    ensures { IfOk result (λ s. string_bytes s ≡ replies_text slots ++ (codes ": " ++ (allowed_text limit ++ codes " ("))) }
{
    let replies = replies(slots);
    match limit {
        Some(limit) => {
            let ending = ending(limit as usize);
            format!(in alloc; "{slots} {replies}: {limit} command{ending} may be unanswered (")
        }
        None => format!(in alloc; "{slots} {replies}: any number of commands may be unanswered ("),
    }
}

/// How many replies a target owes when it takes nothing, how many commands may be unanswered there, and the flows that say so; all of
/// them, or six and how many more there are.
pub(crate) fn owed_text(
    alloc: Global,
    network: &Network,
    all: bool,
    node: u16,
) -> Result<String, AllocError>
    ensures { IfOk result (λ s. string_bytes s ≡ owed_text network.now all node) }
{
    let flows = told_commands(alloc, network, node)?;
    let named = flows_to_name(&flows, all);
    let slots = slots_at(network, node).unwrap_or(1);
    let mut text = owed_words(alloc, slots, network.limit_at(node))?;
    add_names(network, named, &mut text)?;
    add_more(flows.len() - named.len(), ")", &mut text)?;
    Ok(text)
}
