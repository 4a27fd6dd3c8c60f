//! The cycle of a network whose dependencies have one.
ghost use Rattle.std.specs.Prelude.{◌≡◌, IfOk};
ghost use Rattle.sw_graph.specs.Cycles.{IsShownCycle};
ghost use Rattle.sw_search.specs.Lists.{AreListed};
ghost use Rattle.sw_search.specs.Verdicts.{AllWellRouted, IsCyclic, depends};

use std::alloc::{AllocError, Global};
use sw_config::Network;
use sw_cycle::{Cycle, causes};
use sw_flow::Place;
use sw_topo::Chan;

/// The channels of these numbers.
pub(crate) fn channels_of(alloc: Global, members: &[u16]) -> Result<Vec<Chan>, AllocError>
    ensures { IfOk result (λ v. v.items ≡ members.now) }
{
    let mut channels = Vec::with_capacity(alloc, members.len())?;
    for member in members {
        channels.push(Chan::new(*member))?;
    }
    Ok(channels)
}

/// The cycle of these channels, with its causes, in a network in which each flow is well routed.
pub(crate) fn cycle(
    alloc: Global,
    network: &Network,
    places: &[Vec<Place>],
    members: &[u16],
) -> Result<Cycle, AllocError>
    requires routed { AllWellRouted network.now }
    requires shown { IsShownCycle (depends network.now) members.now }
    requires lists { AreListed network.now places.now }
    ensures { IfOk result (IsCyclic network.now) }
{
    let channels = channels_of(alloc, members)?;
    let causes = causes(alloc, network, places, &channels)?;
    Ok(Cycle { channels, causes })
}
