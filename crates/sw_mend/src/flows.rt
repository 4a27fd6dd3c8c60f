//! The flows that changes leave.
ghost use Rattle.std.specs.Prelude.{◌≡◌, [], IfOk, None, OnOk, Some, if◌then◌else◌};
ghost use Rattle.std.specs.List.{list_any};
ghost use Rattle.sw_mend.specs.Changes.{by_number, flow_after_all, loses_flow, loses_reply};

use crate::change::Change;
use std::alloc::{AllocError, Global};
use std::marker::Model;
use sw_config::{Flow, Network, Reply};

/// Does the change take the flow away?
pub(crate) fn loses_flow(change: &Change, number: u16, flow: &Flow) -> bool
    ensures { result ≡ loses_flow change.now number flow.now }
{
    match change {
        Change::WithoutFlow(gone) => number == *gone,
        Change::WithoutFlowsOf(node) => flow.from() == *node || flow.to() == *node,
        _ => false,
    }
}

/// Does the change leave the flow without its reply?
pub(crate) fn loses_reply(change: &Change, number: u16, flow: &Flow) -> bool
    ensures { result ≡ loses_reply change.now number flow.now }
{
    match change {
        Change::WithoutReply(unanswered) => number == *unanswered,
        Change::WithoutReplies { from, to } => flow.from() == *from && flow.to() == *to,
        Change::WithoutAnswers(node) => flow.to() == *node,
        _ => false,
    }
}

/// Do the changes leave the flow without its reply, if none takes the flow away?
fn loses_reply_alone(changes: &[Change], number: u16, flow: &Flow) -> Option<bool>
    ensures { result ≡ if list_any (λ change. loses_flow change number flow.now) changes.now then None else Some (list_any (λ change. loses_reply change number flow.now) changes.now) }
{
    let mut is_unanswered = false;
    for change in changes {
        if loses_flow(change, number, flow) {
            return None;
        }
        is_unanswered |= loses_reply(change, number, flow);
    }
    Some(is_unanswered)
}

/// Where the replies of the flow go, unless they are taken away.
fn kept_reply(alloc: Global, flow: &Flow, is_unanswered: bool) -> Result<Option<Reply>, AllocError>
    ensures { IfOk result (λ r. r ≡ if is_unanswered then None else flow.now.reply) }
{
    if is_unanswered {
        return Ok(None);
    }
    match flow.reply() {
        Some(reply) => {
            let path = Vec::from_slice(alloc, reply.path())?;
            Ok(Some(Reply::new(path, reply.initiator(), reply.outstanding())))
        }
        None => Ok(None),
    }
}

/// A copy of the flow, to that node by that address, and without its reply where that is taken away.
pub(crate) fn copied_by(
    alloc: Global,
    flow: &Flow,
    node: u16,
    address: Vec<u8>,
    is_unanswered: bool,
) -> Result<Flow, AllocError>
    ensures { IfOk result (λ f. f ≡ record flow.now { to = node; address = address.items; reply = if is_unanswered then None else flow.now.reply }) }
{
    let name = String::from_str(alloc, flow.name())?;
    let reply = kept_reply(alloc, flow, is_unanswered)?;
    Ok(Flow::new(name, flow.from(), node, address, flow.left(), reply))
}

/// A copy of the flow, without its reply where that is taken away.
pub(crate) fn copied_flow(
    alloc: Global,
    flow: &Flow,
    is_unanswered: bool,
) -> Result<Flow, AllocError>
    ensures { IfOk result (λ f. f ≡ record flow.now { reply = if is_unanswered then None else flow.now.reply }) }
{
    let address = Vec::from_slice(alloc, flow.address())?;
    copied_by(alloc, flow, flow.to(), address, is_unanswered)
}

/// Adds what is left of each flow.
pub(crate) fn add_flows(
    alloc: Global,
    network: &Network,
    changes: &[Change],
    built: &mut Network,
) -> Result<(), AllocError>
    requires nodes { built.old.nodes ≡ network.now.nodes }
    requires none { built.old.flows ≡ [] }
    ensures { OnOk result (built.new ≡ record built.old { flows = by_number (flow_after_all changes.now) 0 network.now.flows }) }
{
    // Names the network, which is valid by its type.
    let _topology = network.topology();
    for number in 0..network.declared_flows() {
        let flow = network.flow(number);
        let Some(is_unanswered) = loses_reply_alone(changes, number, flow) else {
            continue;
        };
        let kept = copied_flow(alloc, flow, is_unanswered)?;
        built.add_flow(alloc, kept)?;
    }
    Ok(())
}
