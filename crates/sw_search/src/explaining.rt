//! What is told of a network.
ghost use Rattle.std.specs.Prelude.{IfOk};
ghost use Rattle.sw_search.specs.Explanations.{IsExplanation};

use crate::explanation::Explanation;
use crate::misrouted_way::{first_misrouted, misrouted};
use crate::tangling::tangles;
use crate::workers::VerdictWorkers;
use std::alloc::{AllocError, Global};
use sw_config::Network;
use sw_flow::all_places;

/// Why a network can lock up, or that it can't: the first flow that is not well routed, with a way to
/// where its packets go wrong; else the tangles of its channels, each with a shortest cycle (Dally and
/// Seitz: channel dependency; targets are this project's choice); else that it is free. It is of the
/// kind of the verdict, and tells of the same flow and fault
/// (`explanation_laws::explanations_are_of_the_verdict`).
///
/// The workers share the work of finding the places and the dependencies.
///
/// # Errors
///
/// There is no memory for the places, the dependencies or what is told.
pub fn explain<W: VerdictWorkers>(
    workers: &W,
    alloc: Global,
    network: &Network,
) -> Result<Explanation, AllocError>
    ensures { IfOk result (IsExplanation network.now) }
{
    let places = all_places(workers, alloc, network)?;
    match first_misrouted(network, &places) {
        Some((flow, place, fault)) => misrouted(alloc, network, flow, place, fault),
        None => {
            let found = tangles(workers, alloc, network, &places)?;
            let count = found.len();
            if count == 0 {
                return Ok(Explanation::Free);
            }
            Ok(Explanation::Cyclic(found))
        }
    }
}
