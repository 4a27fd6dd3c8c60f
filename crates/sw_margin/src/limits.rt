//! How many commands of a flow may be unanswered.
ghost use Rattle.std.specs.Prelude.{◌≡◌, ◌↔◌, IfOk, IfSome, IsTrue, None, Some};
ghost use Rattle.sw_config.specs.Valid.{IsOutstanding};
ghost use Rattle.sw_margin.specs.FlowLimits.{AreFlowLimits, IsFreeWith, IsGreatest, IsMost, own_limit};

use crate::bend::FlowLimit;
use crate::chosen::own_limit;
use std::alloc::{AllocError, Global};
use sw_config::Network;
use sw_mend::network_with_outstanding;
use sw_search::{VerdictWorkers, is_free};

/// Is the network free where so many commands of the flow may be unanswered, or any number of them?
fn is_free_with<W: VerdictWorkers>(
    workers: &W,
    alloc: Global,
    network: &Network,
    flow: u16,
    most: Option<u16>,
) -> Result<bool, AllocError>
    requires { IfSome most IsOutstanding }
    ensures { IfOk result (λ free. IsTrue free ↔ IsFreeWith network.now flow most) }
{
    let changed = network_with_outstanding(alloc, network, flow, most)?;
    let free = is_free(workers, alloc, &changed);
    changed.discard();
    free
}

/// The greatest number of unanswered commands of the flow, from its own limit on, with which the network is free: it is not with any.
fn greatest_limit<W: VerdictWorkers>(
    workers: &W,
    alloc: Global,
    network: &Network,
    flow: u16,
    own: u16,
) -> Result<u16, AllocError>
    requires own { own_limit network.now flow ≡ Some own }
    requires not_any { IsFreeWith network.now flow None → ⊥ }
    ensures { IfOk result (IsGreatest network.now flow) }
{
    for most in own..u16::MAX {
        if !is_free_with(workers, alloc, network, flow, Some(most + 1))? {
            return Ok(most);
        }
    }
    Ok(u16::MAX)
}

/// How many commands of the flow, which has that limit of its own, may be unanswered.
fn most_of<W: VerdictWorkers>(
    workers: &W,
    alloc: Global,
    network: &Network,
    flow: u16,
    own: u16,
) -> Result<Option<u16>, AllocError>
    requires { own_limit network.now flow ≡ Some own }
    ensures { IfOk result (IsMost network.now flow) }
{
    if is_free_with(workers, alloc, network, flow, None)? {
        return Ok(None);
    }
    Ok(Some(greatest_limit(workers, alloc, network, flow, own)?))
}

/// Of each declared flow that has a limit of its own on unanswered commands: how many may be unanswered for the network to be free. Any
/// number, where it is free with the flow's limit left out; else the greatest, with which and with each number from the flow's limit on to
/// it the network is free. Limits of nodes stay. The workers share the work of each verdict: one, and in a free network one more for each
/// number from the limit on to the greatest, which is below the slots of the flow's target or equal to them.
///
/// # Errors
///
/// There is no memory for a changed network, its verdict, or what is told.
pub fn flow_limits<W: VerdictWorkers>(
    workers: &W,
    alloc: Global,
    network: &Network,
) -> Result<Vec<FlowLimit>, AllocError>
    ensures { IfOk result (λ v. AreFlowLimits network.now v.items) }
{
    let mut told = Vec::new(alloc);
    for flow in 0..network.declared_flows() {
        let Some(own) = own_limit(network, flow) else {
            continue;
        };
        let most = most_of(workers, alloc, network, flow, own)?;
        told.push(FlowLimit { flow, most })?;
    }
    Ok(told)
}
