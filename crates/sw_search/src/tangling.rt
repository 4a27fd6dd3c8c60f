//! The tangles of a network.
ghost use Rattle.std.specs.Prelude.{IfOk};
ghost use Rattle.sw_graph.specs.Components.{AreComponents, IsComponent};
ghost use Rattle.sw_search.specs.Lists.{AreListed};
ghost use Rattle.sw_search.specs.Verdicts.{depends};
ghost use Rattle.sw_search.specs.Tangles.{AreTangles, IsTangle};

use crate::cyclic::channels_of;
use crate::tangle::Tangle;
use crate::workers::VerdictWorkers;
use std::alloc::{AllocError, Global};
use sw_config::Network;
use sw_cycle::{Cycle, causes, dependencies, flows_of_steps};
use sw_flow::Place;
use sw_graph::{Component, components};

/// The tangle of a component of the dependencies.
fn tangle(
    alloc: Global,
    network: &Network,
    places: &[Vec<Place>],
    component: &Component,
) -> Result<Tangle, AllocError>
    requires lists { AreListed network.now places.now }
    requires component { IsComponent (depends network.now) component.now }
    ensures { IfOk result (IsTangle network.now component.now) }
{
    let channels = channels_of(alloc, &component.cycle)?;
    let causes = causes(alloc, network, places, &channels)?;
    let flows = flows_of_steps(alloc, network, places, &channels)?;
    Ok(Tangle {
        channels: component.members.len(),
        cycle: Cycle { channels, causes },
        flows,
    })
}

/// The tangles of the components of the dependencies.
fn tangles_of(
    alloc: Global,
    network: &Network,
    places: &[Vec<Place>],
    components: &[Component],
) -> Result<Vec<Tangle>, AllocError>
    requires lists { AreListed network.now places.now }
    requires components { AreComponents (depends network.now) components.now }
    ensures { IfOk result (λ v. AreTangles network.now v.items) }
{
    let mut tangles = Vec::new(alloc);
    for component in components {
        tangles.push(tangle(alloc, network, places, component)?)?;
    }
    Ok(tangles)
}

/// The tangles of the network's channels, in the order of the least channels in them, each with its
/// shortest cycle of dependencies (Dally and Seitz: channel dependency; targets are this project's
/// choice); none where no channels can wait for one another in a circle. Whether the flows are well
/// routed does not matter.
///
/// `places` has the places of each flow, reply flows too, as `sw_flow::all_places` gives them.
/// The workers share the work of finding the dependencies.
///
/// # Errors
///
/// There is no memory for the tangles, or for what finds them.
pub fn tangles<W: VerdictWorkers>(
    workers: &W,
    alloc: Global,
    network: &Network,
    places: &[Vec<Place>],
) -> Result<Vec<Tangle>, AllocError>
    requires { AreListed network.now places.now }
    ensures { IfOk result (λ v. AreTangles network.now v.items) }
{
    // There are at most 2,048.
    let _channels = network.channels();
    let rows = dependencies(workers, alloc, network, places)?;
    let found = components(alloc, &rows)?;
    tangles_of(alloc, network, places, &found)
}
