//! The causes that are chosen.
ghost use Rattle.std.specs.Prelude.{map, IfOk, MatchOption};
ghost use Rattle.std.specs.List.{AllZip};
ghost use Rattle.sw_config.specs.Entries.{all_flows};
ghost use Rattle.sw_flow.specs.Places.{IsPlaceList};
ghost use Rattle.sw_machine.specs.Places.{IsDependency};
ghost use Rattle.sw_machine.specs.Model.{network_of};
ghost use Rattle.sw_cycle.specs.Cycles.{cause_of};
ghost use Rattle.sw_cycle.specs.Causes.{AreChosen, IsChosenCause, IsRound, NoneGoesOn};
ghost use Rattle.sw_cycle.specs.Firsts.{IsFirstStep};

use crate::cycle::Cause;
use crate::firsts::first_steps;
use crate::steps::PlaceStep;
use std::alloc::{AllocError, Global};
use sw_config::Network;
use sw_flow::{Place, way_to};
use sw_topo::{Chan, PlaceEnd};

/// The cause that is chosen for the dependency of one channel on another, where this is a step of
/// the first flow that goes on so.
fn cause_for(
    alloc: Global,
    network: &Network,
    first: Option<PlaceStep>,
    from: Chan,
    to: Chan,
) -> Result<Cause, AllocError>
    requires first { MatchOption first (NoneGoesOn network.now from to) (IsFirstStep network.now from to) }
    requires dependency { IsDependency (network_of network.now) from to }
    ensures { IfOk result (λ cause. IsChosenCause network.now (cause_of cause) from to) }
{
    if let Some(step) = first {
        let mut places = way_to(alloc, network, step.flow, step.last)?.unwrap();
        places.push(step.next)?;
        return Ok(Cause::Flow(step.flow, places));
    }
    match network.topology().end_of(from) {
        PlaceEnd::Node(node) => Ok(Cause::Target(node)),
        PlaceEnd::Switch(..) => unreachable!(),
    }
}

/// The causes of a cycle of dependencies (Dally and Seitz: channel dependency; targets are this project's choice): for each of the
/// channels and the next one, for the last and the first, the first flow that goes on from the one to the other, and where no flow
/// does, the target between them. `places` has the places of each flow, by the flows' numbers, as `all_places` gives them.
///
/// The places of the flows are gone through once, and for each channel of the cycle one way of a
/// flow is looked for.
///
/// # Errors
///
/// There is no memory for the causes, or for what finds them.
pub fn causes(
    alloc: Global,
    network: &Network,
    places: &[Vec<Place>],
    channels: &[Chan],
) -> Result<Vec<Cause>, AllocError>
    requires lists { AllZip (λ f ps. IsPlaceList network.now f ps.items) (all_flows network.now) places.now }
    requires cycle { IsRound network.now channels.now }
    ensures { IfOk result (λ v. AreChosen network.now channels.now (map cause_of v.items)) }
{
    // Names the network, which is valid by its type.
    let _topology = network.topology();
    let steps = first_steps(alloc, network, places, channels)?;
    let mut causes = Vec::new(alloc);
    for place in 0..channels.len() {
        let to = channels[(place + 1) % channels.len()];
        let cause = cause_for(alloc, network, steps[place], channels[place], to)?;
        causes.push(cause)?;
    }
    Ok(causes)
}
