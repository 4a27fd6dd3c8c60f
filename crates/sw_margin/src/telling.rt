//! How far the premises of a network bend.
ghost use Rattle.std.specs.Prelude.{IfOk};
ghost use Rattle.sw_search.specs.Lists.{AreListed};
ghost use Rattle.sw_margin.specs.Bends.{AreAnswers, AreStalls};
ghost use Rattle.sw_margin.specs.FlowLimits.{AreFlowLimits};
ghost use Rattle.sw_margin.specs.Losses.{AreLosses};
ghost use Rattle.sw_margin.specs.Waits.{AreDependencies};

use crate::bend::Margins;
use crate::flows::answers;
use crate::limits::flow_limits;
use crate::losing::losses;
use crate::nodes::stalls;
use std::alloc::{AllocError, Global};
use sw_config::Network;
use sw_flow::{Place, all_places};
use sw_search::{VerdictWorkers, dependencies};

/// How far the premises of the network bend, by the places of each flow, and for each channel those for which a packet on it may wait.
fn told_by_rows<W: VerdictWorkers>(
    workers: &W,
    alloc: Global,
    network: &Network,
    places: &[Vec<Place>],
    rows: &[Vec<u16>],
) -> Result<Margins, AllocError>
    requires places { AreListed network.now places.now }
    requires rows { AreDependencies network.now rows.now }
    ensures stalls { IfOk result (λ m. AreStalls network.now m.stalls.items) }
    ensures answers { IfOk result (λ m. AreAnswers network.now m.answers.items) }
    ensures limits { IfOk result (λ m. AreFlowLimits network.now m.limits.items) }
    ensures losses { IfOk result (λ m. AreLosses network.now m.losses.items) }
{
    let stalls = stalls(workers, alloc, network, rows)?;
    let answers = answers(workers, alloc, network, rows)?;
    let limits = flow_limits(workers, alloc, network)?;
    let losses = losses(alloc, network, places)?;
    Ok(Margins {
        stalls,
        answers,
        limits,
        losses,
    })
}

/// How far the premises of a network bend: of each node where nothing that comes may have to wait for a reply, whether the network stays
/// free if it takes nothing while it wants to send; of each flow without a reply that goes one way, whether it stays free if the flow is answered
/// along it; of each flow with a limit of its own, how many of its commands may be unanswered for the network to be free; and for each link
/// the flows that are lost without it. The workers share the work.
///
/// # Errors
///
/// There is no memory for the places, the dependencies, a trial or what is told.
pub fn margins<W: VerdictWorkers>(
    workers: &W,
    alloc: Global,
    network: &Network,
) -> Result<Margins, AllocError>
    ensures stalls { IfOk result (λ m. AreStalls network.now m.stalls.items) }
    ensures answers { IfOk result (λ m. AreAnswers network.now m.answers.items) }
    ensures limits { IfOk result (λ m. AreFlowLimits network.now m.limits.items) }
    ensures losses { IfOk result (λ m. AreLosses network.now m.losses.items) }
{
    let places = all_places(workers, alloc, network)?;
    let rows = dependencies(workers, alloc, network, &places)?;
    told_by_rows(workers, alloc, network, &places, &rows)
}
