//! The first flow that is not well routed, with a way to where its packets go wrong.
ghost use Rattle.std.specs.Prelude.{IfOk, MatchOption};
ghost use Rattle.sw_search.specs.Lists.{AreListed};
ghost use Rattle.sw_search.specs.Verdicts.{AllWellRouted, IsMisrouted};
ghost use Rattle.sw_search.specs.Explanations.{IsExplanation};

use crate::explanation::Explanation;
use crate::misrouted::fault_of_flow;
use std::alloc::{AllocError, Global};
use sw_config::Network;
use sw_flow::{Place, RouteFault, way_to};

/// The first flow that is not well routed, with the first of its places that has a fault.
pub(crate) fn first_misrouted(
    network: &Network,
    places: &[Vec<Place>],
) -> Option<(u16, Place, RouteFault)>
    requires { AreListed network.now places.now }
    ensures { MatchOption result (AllWellRouted network.now) (λ found. IsMisrouted network.now found.0 found.1 found.2) }
{
    for flow in 0..network.flows() {
        if let Some((place, fault)) = fault_of_flow(network, flow, places) {
            return Some((flow, place, fault));
        }
    }
    None
}

/// What is told of a network where this flow is the first that is not well routed.
pub(crate) fn misrouted(
    alloc: Global,
    network: &Network,
    flow: u16,
    place: Place,
    fault: RouteFault,
) -> Result<Explanation, AllocError>
    requires { IsMisrouted network.now flow place fault }
    ensures { IfOk result (IsExplanation network.now) }
{
    let way = way_to(alloc, network, flow, place)?.unwrap();
    Ok(Explanation::Misrouted {
        flow,
        place,
        fault,
        way,
    })
}
