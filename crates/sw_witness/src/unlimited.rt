//! Whether a network limits how many commands may be unanswered.
ghost use Rattle.std.specs.Prelude.{◌≡◌, ◌↔◌, All, IsTrue, None, is_some};
ghost use Rattle.sw_config.specs.Limits.{HasNoLimits, flow_outstanding};

use std::marker::Model;
use sw_config::{Flow, Network};

/// Has the flow a limit of its own?
fn has_limit(flow: &Flow) -> bool
    ensures { result ≡ is_some (flow_outstanding flow.now) }
{
    match flow.reply() {
        Some(reply) => reply.outstanding().is_some(),
        None => false,
    }
}

/// Has no node a limit?
fn no_node_has_limit(network: &Network) -> bool
    ensures { IsTrue result ↔ All (λ e. e.outstanding ≡ None) network.now.nodes }
{
    for node in 0..network.nodes() {
        if network.outstanding(node).is_some() {
            return false;
        }
    }
    true
}

/// Has no flow a limit?
fn no_flow_has_limit(network: &Network) -> bool
    ensures { IsTrue result ↔ All (λ f. flow_outstanding f ≡ None) network.now.flows }
{
    for number in 0..network.declared_flows() {
        if has_limit(network.flow(number)) {
            return false;
        }
    }
    true
}

/// Is it so that no node and no flow has a limit on unanswered commands?
pub(crate) fn has_no_limits(network: &Network) -> bool
    ensures { IsTrue result ↔ HasNoLimits network.now }
{
    no_node_has_limit(network) && no_flow_has_limit(network)
}
