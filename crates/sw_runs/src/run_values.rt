//! A run as a value.
ghost use Rattle.std.specs.Prelude.{◌≡◌, IfOk, length};
ghost use Rattle.serde_json.specs.View.{view};
ghost use Rattle.sw_runs.specs.RunValues.{run_value};

use crate::came_out_values::counted_node_values;
use crate::run_finding::RunReport;
use crate::run_texts::stop_word;
use serde_json::Value;
use std::alloc::{AllocError, Global};
use sw_config::Network;
use sw_json::{Member, object_of};

/// The object that stands for a run.
///
/// # Errors
///
/// There is no memory for the value.
pub(crate) fn run_value(
    alloc: Global,
    network: &Network,
    report: &RunReport,
) -> Result<Value, AllocError>
    requires { length report.now.came_out.items ≡ length network.now.nodes }
    ensures { IfOk result (λ v. view v ≡ run_value network.now report.now) }
{
    let kind = stop_word(report.stop);
    let undelivered = report.undelivered;
    let nodes = counted_node_values(alloc, network, report.came_out.as_slice())?;
    let members = vec![in alloc;
        ("kind", Member::Text(kind)),
        ("nodes", Member::Value(Value::Array(nodes))),
        ("undelivered", Member::Number(undelivered)),
    ]?;
    object_of(alloc, members)
}
