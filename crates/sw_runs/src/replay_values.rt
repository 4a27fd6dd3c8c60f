//! A replay as a value.
ghost use Rattle.std.specs.Prelude.{◌≡◌, IfOk, length};
ghost use Rattle.serde_json.specs.View.{view};
ghost use Rattle.sw_json.specs.Objects.{member_value};
ghost use Rattle.sw_json.specs.Simple.{text_or_null};
ghost use Rattle.sw_schedule.specs.Reports.{report_of};
ghost use Rattle.sw_runs.specs.ReplayValues.{replay_code, replay_kind, replay_step, replay_value};

use crate::came_out_values::node_values;
use serde_json::Value;
use std::alloc::{AllocError, Global};
use sw_config::Network;
use sw_json::{Member, object_of};
use sw_schedule::{ReplayEnd, Replayed, StepRefusal};

/// What the end tells: whether all steps were made; how many were, or the number of the one that was refused; and why that was, or null.
fn told_end(end: ReplayEnd) -> (&'static str, u32, Member<'static>)
    ensures kind { result.0.now ≡ replay_kind end }
    ensures step { result.1 ≡ replay_step end }
    ensures code { member_value result.2 ≡ text_or_null (replay_code end) }
{
    match end {
        ReplayEnd::Made(count) => ("replayed", count, Member::Value(Value::Null)),
        ReplayEnd::Refused(number, StepRefusal::NotEnabled) => {
            ("refused", number, Member::Text("N1"))
        }
        ReplayEnd::Refused(number, StepRefusal::NotInFlow) => {
            ("refused", number, Member::Text("N2"))
        }
        ReplayEnd::Refused(number, StepRefusal::OverLimit) => {
            ("refused", number, Member::Text("N4"))
        }
    }
}

/// The object that stands for a replay.
///
/// # Errors
///
/// There is no memory for the value.
pub(crate) fn replay_value(
    alloc: Global,
    network: &Network,
    replayed: &Replayed,
) -> Result<Value, AllocError>
    requires { length replayed.now.came_out.items ≡ length network.now.nodes }
    ensures { IfOk result (λ v. view v ≡ replay_value network.now (report_of replayed.now)) }
{
    let stuck = replayed.stuck;
    let undelivered = replayed.undelivered;
    let nodes = node_values(alloc, network, replayed.came_out.as_slice())?;
    let (kind, step, code) = told_end(replayed.outcome);
    let members = vec![in alloc;
        ("code", code),
        ("kind", Member::Text(kind)),
        ("nodes", Member::Value(Value::Array(nodes))),
        ("step", Member::Number(u64::from(step))),
        ("stuck", Member::Truth(stuck)),
        ("undelivered", Member::Number(undelivered)),
    ]?;
    object_of(alloc, members)
}
