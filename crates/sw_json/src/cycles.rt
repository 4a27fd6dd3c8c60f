//! Cycles as values.
ghost use Rattle.std.specs.Prelude.{◌≡◌, ◌<◌, All, IfOk, length, map};
ghost use Rattle.std.specs.List.{zip};
ghost use Rattle.serde_json.specs.View.{view};
ghost use Rattle.sw_config.specs.Entries.{wiring_of};
ghost use Rattle.sw_search.specs.Cycles.{cause_of};
ghost use Rattle.sw_search.specs.Verdicts.{IsCyclic};
ghost use Rattle.sw_json.specs.VerdictValues.{cause_value, channel_value, cyclic_value};

use crate::lists::add_value;
use crate::objects::{Member, object_of};
use crate::places::channel_object;
use serde_json::Value;
use std::alloc::{AllocError, Global};
use sw_config::Network;
use sw_output::{flow_name, node_name};
use sw_search::{Cause, Cycle};
use sw_topo::Chan;

fn cause_value(alloc: Global, network: &Network, cause: &Cause) -> Result<Value, AllocError>
    ensures { IfOk result (λ v. view v ≡ cause_value network.now (cause_of cause.now)) }
{
    match cause {
        Cause::Target(node) => {
            let name = node_name(network, *node);
            object_of(alloc, vec![in alloc; ("target", Member::Text(name))]?)
        }
        Cause::Flow(flow, _) => {
            let name = flow_name(network, *flow);
            object_of(alloc, vec![in alloc; ("flow", Member::Text(name))]?)
        }
    }
}

/// A value for each channel, with its cause.
fn channel_values(
    alloc: Global,
    network: &Network,
    channels: &[Chan],
    causes: &[Cause],
) -> Result<Vec<Value>, AllocError>
    requires { All (λ c. c < length (wiring_of network.now).ends) channels.now }
    ensures { IfOk result (λ v. map view v.items ≡ map (channel_value network.now) (zip channels.now (map cause_of causes.now))) }
{
    let mut values = Vec::new(alloc);
    for (channel, cause) in channels.iter().zip(causes) {
        let by = Member::Value(cause_value(alloc, network, cause)?);
        let value = channel_object(alloc, network, *channel, "by", by);
        add_value(value, &mut values)?;
    }
    Ok(values)
}

/// The channels of a cyclic network's cycle, each with what makes it wait for the next.
pub(crate) fn cyclic_value(
    alloc: Global,
    network: &Network,
    cycle: &Cycle,
) -> Result<Value, AllocError>
    requires { IsCyclic network.now cycle.now }
    ensures { IfOk result (λ v. view v ≡ cyclic_value network.now cycle.now) }
{
    // Names the network, which is valid by its type: the channels of a shown cycle are its own.
    let _topology = network.topology();
    let channels = channel_values(alloc, network, &cycle.channels, &cycle.causes)?;
    let members = vec![in alloc;
        ("channels", Member::Value(Value::Array(channels))),
        ("kind", Member::Text("cyclic")),
    ]?;
    object_of(alloc, members)
}
