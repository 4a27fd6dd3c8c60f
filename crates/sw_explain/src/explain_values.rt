//! Why a network can lock up, as values.
ghost use Rattle.std.specs.Prelude.{◌≡◌, ◌<◌, All, IfOk, codes, length, map, string_bytes};
ghost use Rattle.serde_json.specs.View.{view};
ghost use Rattle.sw_explain.specs.ExplainTexts.{IsOfChannels};
ghost use Rattle.sw_config.specs.Entries.{wiring_of};
ghost use Rattle.sw_cycle.specs.Cycles.{cause_of};
ghost use Rattle.sw_json.specs.Answering.{IsCommandOutcome};
ghost use Rattle.sw_json.specs.FileValues.{kind_value};
ghost use Rattle.sw_json.specs.Objects.{member_value};
ghost use Rattle.sw_search.specs.Explanations.{GoesWrong, IsExplanation, IsTangled};
ghost use Rattle.sw_explain.specs.ExplainValues.{WithNotes, explain_results, limit_value, slots_value, step_value, step_values, tangle_value, tangles_value, target_value, wrong_value};

use crate::explain_value_laws::explanations_are_plain;
use crate::owed_texts::slots_at;
use serde_json::Value;
use std::alloc::{AllocError, Global};
use sw_config::Network;
use sw_cycle::Cause;
use sw_flow::{Place, RouteFault};
use sw_json::laws::kinds_are_plain;
use sw_json::{
    CommandOutcome, Member, add_value, finish_text, flow_name_values, kind_value,
    misrouted_fault_value, object_of, place_values, start_text, text_values,
};
use sw_linter::circling_texts;
use sw_output::{flow_name, node_name};
use sw_search::{Explanation, Tangle};
use sw_text::statuses::{BAD, GOOD};
use sw_topo::Chan;

/// What is wrong at the last of the places that a flow's packets go over, what there is to note, and the values of these places.
fn wrong_value(
    alloc: Global,
    network: &Network,
    lint: &[String],
    flow: u16,
    place: Place,
    fault: RouteFault,
    way: &[Place],
) -> Result<Value, AllocError>
    requires { GoesWrong network.now flow place fault way.now }
    ensures { IfOk result (λ v. view v ≡ wrong_value network.now (map string_bytes lint.now) flow place fault way.now) }
{
    let fault = misrouted_fault_value(alloc, place, fault)?;
    let lint = text_values(alloc, lint)?;
    let way = place_values(alloc, network, way)?;
    let name = flow_name(network, flow);
    let members = vec![in alloc;
        ("fault", Member::Value(fault)),
        ("flow", Member::Text(name)),
        ("kind", Member::Text("misrouted")),
        ("lint", Member::Value(Value::Array(lint))),
        ("way", Member::Value(Value::Array(way))),
    ]?;
    object_of(alloc, members)
}

/// The node whose target makes a channel wait for the next, or null where flows do.
fn target_value<'a>(network: &'a Network, cause: &Cause) -> Member<'a>
    ensures { member_value result ≡ target_value network.now (cause_of cause.now) }
{
    match cause {
        Cause::Target(node) => Member::Text(node_name(network, *node)),
        Cause::Flow(_, _) => Member::Value(Value::Null),
    }
}

/// How many commands may be unanswered at the target: null where any number may, and where flows make a channel wait.
fn limit_value(network: &Network, cause: &Cause) -> Member<'static>
    ensures { member_value result ≡ limit_value network.now (cause_of cause.now) }
{
    let Cause::Target(node) = cause else {
        return Member::Value(Value::Null);
    };
    match network.limit_at(*node) {
        Some(limit) => Member::Number(u64::from(limit)),
        None => Member::Value(Value::Null),
    }
}

/// How many replies the target may owe: null where flows make a channel wait.
fn slots_value(network: &Network, cause: &Cause) -> Member<'static>
    ensures { member_value result ≡ slots_value network.now (cause_of cause.now) }
{
    let Cause::Target(node) = cause else {
        return Member::Value(Value::Null);
    };
    match slots_at(network, *node) {
        Some(slots) => Member::Number(u64::from(slots)),
        None => Member::Value(Value::Null),
    }
}

/// A channel of a cycle, and what makes it wait for the next.
fn step_value(
    alloc: Global,
    network: &Network,
    channel: Chan,
    cause: &Cause,
    flows: &[u16],
) -> Result<Value, AllocError>
    requires { channel < length (wiring_of network.now).ends }
    ensures { IfOk result (λ v. view v ≡ step_value network.now channel (cause_of cause.now) flows.now) }
{
    let end = finish_text(alloc, network, channel)?;
    let start = start_text(alloc, network, channel)?;
    let names = flow_name_values(alloc, network, flows)?;
    let number = channel.number();
    let members = vec![in alloc;
        ("channel", Member::Number(u64::from(number))),
        ("end", Member::Value(Value::String(end))),
        ("flows", Member::Value(Value::Array(names))),
        ("limit", limit_value(network, cause)),
        ("slots", slots_value(network, cause)),
        ("start", Member::Value(Value::String(start))),
        ("target", target_value(network, cause)),
    ]?;
    object_of(alloc, members)
}

/// An object for each channel of a cycle.
fn step_values(
    alloc: Global,
    network: &Network,
    channels: &[Chan],
    causes: &[Cause],
    flows: &[Vec<u16>],
) -> Result<Vec<Value>, AllocError>
    requires within { All (λ c. c < length (wiring_of network.now).ends) channels.now }
    requires caused { length causes.now ≡ length channels.now }
    requires made { length flows.now ≡ length channels.now }
    ensures { IfOk result (λ v. map view v.items ≡ step_values network.now channels.now (map cause_of causes.now) (map (λ row. row.items) flows.now)) }
{
    let mut values = Vec::new(alloc);
    for (i, channel) in channels.iter().enumerate() {
        let value = step_value(alloc, network, *channel, &causes[i], &flows[i]);
        add_value(value, &mut values)?;
    }
    Ok(values)
}

/// A tangle, with its shortest cycle.
fn tangle_value(alloc: Global, network: &Network, tangle: &Tangle) -> Result<Value, AllocError>
    requires { IsOfChannels network.now tangle.now }
    ensures { IfOk result (λ v. view v ≡ tangle_value network.now tangle.now) }
{
    let steps = step_values(
        alloc,
        network,
        &tangle.cycle.channels,
        &tangle.cycle.causes,
        &tangle.flows,
    )?;
    let count = tangle.channels;
    let members = vec![in alloc;
        ("channels", Member::Number(count as u64)),
        ("cycle", Member::Value(Value::Array(steps))),
    ]?;
    object_of(alloc, members)
}

/// An object for each tangle.
fn tangle_values(
    alloc: Global,
    network: &Network,
    tangles: &[Tangle],
) -> Result<Vec<Value>, AllocError>
    requires { All (IsOfChannels network.now) tangles.now }
    ensures { IfOk result (λ v. map view v.items ≡ map (tangle_value network.now) tangles.now) }
{
    let mut values = Vec::new(alloc);
    for tangle in tangles {
        add_value(tangle_value(alloc, network, tangle), &mut values)?;
    }
    Ok(values)
}

/// Channels that can wait for one another in circles, and what there is to note.
fn tangles_value(
    alloc: Global,
    network: &Network,
    lint: &[String],
    tangles: &[Tangle],
) -> Result<Value, AllocError>
    requires { IsTangled network.now tangles.now }
    ensures { IfOk result (λ v. view v ≡ tangles_value network.now (map string_bytes lint.now) tangles.now) }
{
    // Names the network, which is valid by its type.
    let _topology = network.topology();
    let lint = text_values(alloc, lint)?;
    let values = tangle_values(alloc, network, tangles)?;
    let members = vec![in alloc;
        ("kind", Member::Text("cyclic")),
        ("lint", Member::Value(Value::Array(lint))),
        ("tangles", Member::Value(Value::Array(values))),
    ]?;
    object_of(alloc, members)
}

/// The result where a flow is not well routed.
fn wrong_outcome(
    alloc: Global,
    network: &Network,
    flow: u16,
    place: Place,
    fault: RouteFault,
    way: &[Place],
) -> Result<CommandOutcome, AllocError>
    requires { GoesWrong network.now flow place fault way.now }
    ensures { IfOk result (λ o. WithNotes network.now (λ lint. wrong_value network.now lint flow place fault way.now) 1 (view o.result) o.status) }
{
    explanations_are_plain();
    let lint = circling_texts(alloc, network)?;
    let result = wrong_value(alloc, network, &lint, flow, place, fault, way)?;
    Ok(CommandOutcome {
        result,
        status: BAD,
    })
}

/// The result where channels can wait for one another in circles.
fn tangles_outcome(
    alloc: Global,
    network: &Network,
    tangles: &[Tangle],
) -> Result<CommandOutcome, AllocError>
    requires { IsTangled network.now tangles.now }
    ensures { IfOk result (λ o. WithNotes network.now (λ lint. tangles_value network.now lint tangles.now) 1 (view o.result) o.status) }
{
    explanations_are_plain();
    let lint = circling_texts(alloc, network)?;
    let result = tangles_value(alloc, network, &lint, tangles)?;
    Ok(CommandOutcome {
        result,
        status: BAD,
    })
}

/// The result where the network never locks up.
fn free_outcome(alloc: Global) -> Result<CommandOutcome, AllocError>
    ensures { IfOk result (λ o. IsCommandOutcome (kind_value (codes "free")) 0 (view o.result) o.status) }
{
    kinds_are_plain();
    let result = kind_value(alloc, "free")?;
    Ok(CommandOutcome {
        result,
        status: GOOD,
    })
}

/// The result of `explain`, where it found this of a network.
pub(crate) fn explain_outcome(
    alloc: Global,
    network: &Network,
    explanation: &Explanation,
) -> Result<CommandOutcome, AllocError>
    requires { IsExplanation network.now explanation.now }
    ensures { IfOk result (λ o. explain_results network.now explanation.now (view o.result) o.status) }
{
    match explanation {
        Explanation::Misrouted {
            flow,
            place,
            fault,
            way,
        } => wrong_outcome(alloc, network, *flow, *place, *fault, way),
        Explanation::Cyclic(tangles) => tangles_outcome(alloc, network, tangles),
        Explanation::Free => free_outcome(alloc),
    }
}
