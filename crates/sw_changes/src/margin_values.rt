//! How far the premises of a free network bend, as values.
ghost use Rattle.std.specs.Prelude.{◌≡◌, ◌<◌, ◌*◌, IfOk, length, map};
ghost use Rattle.serde_json.specs.View.{view};
ghost use Rattle.sw_config.specs.Entries.{wiring_of};
ghost use Rattle.sw_json.specs.Objects.{member_value};
ghost use Rattle.sw_json.specs.Simple.{count_or_null};
ghost use Rattle.sw_changes.specs.MarginValues.{answered_value, flow_limit_value, loss_value, loss_values, margins_value, stall_value};

use serde_json::Value;
use std::alloc::{AllocError, Global};
use sw_config::Network;
use sw_json::{Member, add_value, finish_text, flow_name_values, object_of, start_text};
use sw_margin::{Bend, FlowLimit, Margins};
use sw_output::{flow_name, node_name};
use sw_topo::Chan;

/// The flows that are lost without the link of that number.
fn loss_value(
    alloc: Global,
    network: &Network,
    link: usize,
    flows: &[u16],
) -> Result<Value, AllocError>
    requires { 2 * link < length (wiring_of network.now).ends }
    ensures { IfOk result (λ v. view v ≡ loss_value network.now link flows.now) }
{
    // There are at most 2,048.
    let _channels = network.channels();
    let channel = Chan::new((2 * link) as u16);
    let end = finish_text(alloc, network, channel)?;
    let start = start_text(alloc, network, channel)?;
    let names = flow_name_values(alloc, network, flows)?;
    let number = channel.number();
    let members = vec![in alloc;
        ("channel", Member::Number(u64::from(number))),
        ("end", Member::Value(Value::String(end))),
        ("flows", Member::Value(Value::Array(names))),
        ("start", Member::Value(Value::String(start))),
    ]?;
    object_of(alloc, members)
}

/// An object for each link.
fn loss_list(
    alloc: Global,
    network: &Network,
    losses: &[Vec<u16>],
) -> Result<Vec<Value>, AllocError>
    requires { length losses.now ≡ length network.now.links }
    ensures { IfOk result (λ v. map view v.items ≡ loss_values network.now 0 (map (λ flows. flows.items) losses.now)) }
{
    let _channels = network.channels();
    let mut values = Vec::new(alloc);
    for (link, flows) in losses.iter().enumerate() {
        add_value(loss_value(alloc, network, link, flows), &mut values)?;
    }
    Ok(values)
}

/// An object for each node at which no answered flow ends.
fn stall_list(alloc: Global, network: &Network, stalls: &[Bend]) -> Result<Vec<Value>, AllocError>
    ensures { IfOk result (λ v. map view v.items ≡ map (stall_value network.now) stalls.now) }
{
    let mut values = Vec::new(alloc);
    for bend in stalls {
        let free = bend.stays_free;
        let name = node_name(network, bend.number);
        let value = object_of(
            alloc,
            vec![in alloc; ("free", Member::Truth(free)), ("node", Member::Text(name))]?,
        );
        add_value(value, &mut values)?;
    }
    Ok(values)
}

/// An object for each flow without a reply.
fn answer_list(alloc: Global, network: &Network, answers: &[Bend]) -> Result<Vec<Value>, AllocError>
    ensures { IfOk result (λ v. map view v.items ≡ map (answered_value network.now) answers.now) }
{
    let mut values = Vec::new(alloc);
    for bend in answers {
        let free = bend.stays_free;
        let name = flow_name(network, bend.number);
        let value = object_of(
            alloc,
            vec![in alloc; ("flow", Member::Text(name)), ("free", Member::Truth(free))]?,
        );
        add_value(value, &mut values)?;
    }
    Ok(values)
}

/// How many commands may be unanswered: null where any number may.
fn most_value(most: Option<u16>) -> Member<'static>
    ensures { member_value result ≡ count_or_null most }
{
    match most {
        Some(most) => Member::Number(u64::from(most)),
        None => Member::Value(Value::Null),
    }
}

/// The greatest limit of a flow with which the network stays free.
fn limit_value(alloc: Global, network: &Network, limit: &FlowLimit) -> Result<Value, AllocError>
    ensures { IfOk result (λ v. view v ≡ flow_limit_value network.now limit.now) }
{
    let name = flow_name(network, limit.flow);
    let most = most_value(limit.most);
    let members = vec![in alloc; ("flow", Member::Text(name)), ("outstanding", most)]?;
    object_of(alloc, members)
}

/// An object for each flow with a limit of its own.
fn limit_list(
    alloc: Global,
    network: &Network,
    limits: &[FlowLimit],
) -> Result<Vec<Value>, AllocError>
    ensures { IfOk result (λ v. map view v.items ≡ map (flow_limit_value network.now) limits.now) }
{
    let mut values = Vec::new(alloc);
    for limit in limits {
        add_value(limit_value(alloc, network, limit), &mut values)?;
    }
    Ok(values)
}

/// The object that stands for what a free network stands.
pub(crate) fn margins_value(
    alloc: Global,
    network: &Network,
    told: &Margins,
) -> Result<Value, AllocError>
    requires { length told.now.losses.items ≡ length network.now.links }
    ensures { IfOk result (λ v. view v ≡ margins_value network.now told.now) }
{
    let answers = answer_list(alloc, network, &told.answers)?;
    let limits = limit_list(alloc, network, &told.limits)?;
    let losses = loss_list(alloc, network, &told.losses)?;
    let stalls = stall_list(alloc, network, &told.stalls)?;
    let members = vec![in alloc;
        ("answers", Member::Value(Value::Array(answers))),
        ("kind", Member::Text("margins")),
        ("limits", Member::Value(Value::Array(limits))),
        ("losses", Member::Value(Value::Array(losses))),
        ("stalls", Member::Value(Value::Array(stalls))),
    ]?;
    object_of(alloc, members)
}
