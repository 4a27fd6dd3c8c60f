//! What `route` finds, as a value of JSON.
ghost use Rattle.std.specs.Prelude.{◌≡◌, ◌<◌, ℕ, All, IfOk, List, Option, length, map};
ghost use Rattle.std.specs.Option.{option_to_list};
ghost use Rattle.serde_json.specs.Data.{string};
ghost use Rattle.serde_json.specs.View.{view};
ghost use Rattle.sw_app.specs.RouteAnswers.{IsFlowRoute, IsRouteOf};
ghost use Rattle.sw_config.specs.Entries.{all_flows, wiring_of};
ghost use Rattle.sw_json.specs.AnswerValues.{file_fault_value};
ghost use Rattle.sw_json.specs.Answering.{IsCommandOutcome};
ghost use Rattle.sw_json.specs.FaultValues.{unknown_flow_value};
ghost use Rattle.sw_linter.specs.CirclingTexts.{IsCirclingText};
ghost use Rattle.sw_json_verdicts.specs.RouteResults.{fault_or_null, flow_results, route_kind, route_results, told_route};

use crate::laws::routes_are_plain;
use std::alloc::{AllocError, Global};
use sw_app::{FlowRoute, RouteFinding, outcome_status};
use sw_config::Network;
use sw_flow::{Place, RouteFault};
use sw_json::laws::faults_are_plain;
use sw_json::{
    CommandOutcome, Member, Value, file_fault, misrouted_fault_value, object_of, place_values,
    text_values, unknown_flow_value,
};
use sw_linter::flow_circling_text;

/// A place with its fault, or null where there is none.
fn fault_or_null(alloc: Global, fault: Option<(Place, RouteFault)>) -> Result<Value, AllocError>
    ensures { IfOk result (λ v. view v ≡ fault_or_null fault) }
{
    match fault {
        None => Ok(Value::Null),
        Some((place, fault)) => misrouted_fault_value(alloc, place, fault),
    }
}

fn kind_of(fault: &Option<(Place, RouteFault)>) -> &'static str
    ensures { result.now ≡ route_kind fault.now }
{
    match fault {
        None => "routed",
        Some(_) => "misrouted",
    }
}

/// What there is to note of the flow: a text, or none.
fn note_values(alloc: Global, network: &Network, flow: u16) -> Result<Vec<Value>, AllocError>
    requires { flow < length (all_flows network.now) }
    ensures { IfOk result (λ v. (note : Option (List ℕ)) × IsCirclingText network.now flow note × (map view v.items ≡ map string (option_to_list note))) }
{
    match flow_circling_text(alloc, network, flow)? {
        Some(text) => text_values(alloc, &vec![in alloc; text]?),
        None => Ok(Vec::new(alloc)),
    }
}

/// The flow's name, what there is to note of it, its places, and the fault of one of them, if there is one.
fn told_route(
    alloc: Global,
    network: &Network,
    flow: u16,
    places: &[Place],
    fault: Option<(Place, RouteFault)>,
) -> Result<Value, AllocError>
    requires within { flow < length (all_flows network.now) }
    requires places { All (λ p. p.channel < length (wiring_of network.now).ends) places.now }
    ensures { IfOk result (λ v. (note : Option (List ℕ)) × IsCirclingText network.now flow note × (view v ≡ told_route network.now flow note places.now fault)) }
{
    let kind = kind_of(&fault);
    let name = network.flow(flow).name();
    let fault = fault_or_null(alloc, fault)?;
    let note = note_values(alloc, network, flow)?;
    let places = place_values(alloc, network, places)?;
    let members = vec![in alloc;
        ("fault", Member::Value(fault)),
        ("flow", Member::Text(name)),
        ("kind", Member::Text(kind)),
        ("lint", Member::Value(Value::Array(note))),
        ("places", Member::Value(Value::Array(places))),
    ]?;
    object_of(alloc, members)
}

/// The result for a flow.
fn flow_outcome(
    alloc: Global,
    network: &Network,
    route: &FlowRoute,
) -> Result<CommandOutcome, AllocError>
    requires { IsFlowRoute network.now route.now }
    ensures { IfOk result (λ o. flow_results network.now route.now (view o.result) o.status) }
{
    routes_are_plain();
    let status = outcome_status(&route.fault);
    let result = told_route(alloc, network, route.flow, &route.places, route.fault)?;
    Ok(CommandOutcome { result, status })
}

/// The result where no flow has the name.
fn unknown_outcome(alloc: Global, path: &str) -> Result<CommandOutcome, AllocError>
    ensures { IfOk result (λ o. IsCommandOutcome (file_fault_value path.now unknown_flow_value) 3 (view o.result) o.status) }
{
    faults_are_plain();
    let fault = unknown_flow_value(alloc);
    file_fault(alloc, path, fault)
}

/// The result of `route`, where it found this of the network of the file of that path.
///
/// # Errors
///
/// There is no memory for it.
pub(crate) fn route_outcome(
    alloc: Global,
    path: &str,
    network: &Network,
    found: &RouteFinding,
) -> Result<CommandOutcome, AllocError>
    requires { IsRouteOf network.now found.now }
    ensures { IfOk result (λ o. route_results path.now network.now found.now (view o.result) o.status) }
{
    match found {
        RouteFinding::UnknownFlow => unknown_outcome(alloc, path),
        RouteFinding::Found(route) => flow_outcome(alloc, network, route),
    }
}
