//! The first flow that is not well routed.
ghost use Rattle.std.specs.Prelude.{◌<◌, IfOk, IsTrue, length, MatchOption};
ghost use Rattle.sw_config.specs.Entries.{all_flows};
ghost use Rattle.sw_search.specs.Verdicts.{AllWellRouted, IsMisrouted};
ghost use Rattle.sw_search.specs.Lists.{AreFirstFaults, AreListed, IsFirstFault};

use crate::workers::VerdictWorkers;
use std::alloc::{AllocError, Global};
use sw_config::Network;
use sw_flow::{Place, RouteFault, first_fault};

/// The first of the flow's places that has a fault, with it. `places` are those of all flows, by their
/// numbers, as `sw_flow::all_places` gives them.
pub fn fault_of_flow(
    network: &Network,
    flow: u16,
    places: &[Vec<Place>],
) -> Option<(Place, RouteFault)>
    requires lists { AreListed network.now places.now }
    requires inside { flow < length (all_flows network.now) }
    ensures { IsFirstFault network.now flow result }
{
    first_fault(network, flow, &places[usize::from(flow)])
}

/// The first fault of the flow, if it has one.
fn fault_at(
    network: &Network,
    faults: &[Option<(Place, RouteFault)>],
    flow: u16,
) -> Option<(Place, RouteFault)>
    requires faults { AreFirstFaults network.now faults.now }
    requires inside { flow < length (all_flows network.now) }
    ensures { IsFirstFault network.now flow result }
{
    faults[usize::from(flow)]
}

/// The first flow that has a fault, with its first one.
fn first_faulty(
    network: &Network,
    faults: &[Option<(Place, RouteFault)>],
) -> Option<(u16, Place, RouteFault)>
    requires { AreFirstFaults network.now faults.now }
    ensures { MatchOption result (AllWellRouted network.now) (λ found. IsMisrouted network.now found.0 found.1 found.2) }
{
    for flow in 0..network.flows() {
        if let Some((place, fault)) = fault_at(network, faults, flow) {
            return Some((flow, place, fault));
        }
    }
    None
}

/// The first flow that is not well routed, with the first of its places that has a fault. It is looked for where it is not known that
/// each flow is well routed.
pub(crate) fn first_misrouted<W: VerdictWorkers>(
    workers: &W,
    alloc: Global,
    network: &Network,
    places: &[Vec<Place>],
    is_routed: bool,
) -> Result<Option<(u16, Place, RouteFault)>, AllocError>
    requires lists { AreListed network.now places.now }
    requires routed { IsTrue is_routed → AllWellRouted network.now }
    ensures { IfOk result (λ o. MatchOption o (AllWellRouted network.now) (λ found. IsMisrouted network.now found.0 found.1 found.2)) }
{
    if is_routed {
        return Ok(None);
    }
    let faults = workers.faults_of_flows(alloc, network, places)?;
    Ok(first_faulty(network, &faults))
}
