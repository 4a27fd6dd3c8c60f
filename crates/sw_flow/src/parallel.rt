//! The places of all flows, side by side or one by one.
ghost use Rattle.std.specs.Prelude.{◌≡◌, ◌+◌, ◌<◌, ◌/◌, length, IfOk};
ghost use Rattle.std.specs.List.{AllZip};
ghost use Rattle.std.specs.Thread.{IsSync};
ghost use Rattle.sw_config.specs.Entries.{all_flows};
ghost use Rattle.sw_flow.specs.Places.{IsPlaceList, IsPlacesOf, ends_of};

use crate::place::Place;
use crate::routes::places;
use std::alloc::{AllocError, Global};
use std::thread::Threads;
use sw_config::Network;
use sw_graph::{OneByOne, SideBySide, Workers, side_by_side};

/// A thread takes as long to start as some hundred places to find: it is worth it where so many may be found in it.
const PLACES_A_THREAD: usize = 4096;

/// The fewest flows that a thread is worth starting for: the fewer, the more channels a flow may have places on. At least 1.
pub fn flows_a_thread(network: &Network) -> usize
    ensures { result ≡ 4096 / (length (ends_of network.now) + 1) + 1 }
{
    PLACES_A_THREAD / (usize::from(network.channels()) + 1) + 1
}

/// Who finds the places of all flows.
pub trait PlaceWorkers: Workers {
    /// The places of each flow, reply flows too, by the flows' numbers.
    ///
    /// # Errors
    ///
    /// There is no memory for the places, or for what finds them.
    fn all_places(&self, alloc: Global, network: &Network) -> Result<Vec<Vec<Place>>, AllocError>
        requires { IsSync Self.Shared.row }
        ensures { IfOk result (λ v. AllZip (λ f places. IsPlaceList network.now f places.items) (all_flows network.now) v.items) };
}

impl<R: Threads + Sync> PlaceWorkers for SideBySide<'_, R> {
    fn all_places(&self, alloc: Global, network: &Network) -> Result<Vec<Vec<Place>>, AllocError> {
        side_by_side::map_all(
            self.handle(),
            alloc,
            network.flows(),
            flows_a_thread(network),
            |flow: u16| -> Result<Vec<Place>, AllocError>
                requires { flow < length (all_flows network.now) }
                ensures { IfOk result (λ v. IsPlacesOf network.entry.now flow v.items) }
            { places(alloc, network, flow) },
        )
    }
}

impl PlaceWorkers for OneByOne {
    fn all_places(&self, alloc: Global, network: &Network) -> Result<Vec<Vec<Place>>, AllocError> {
        let mut all = Vec::new(alloc);
        for number in 0..network.flows() {
            all.push(places(alloc, network, number)?)?;
        }
        Ok(all)
    }
}

/// The places of each flow, reply flows too, by the flows' numbers (ECSS-E-ST-50-12C, network layer: packet addressing).
///
/// # Errors
///
/// There is no memory for the places, or for what finds them.
pub fn all_places<W: PlaceWorkers>(
    workers: &W,
    alloc: Global,
    network: &Network,
) -> Result<Vec<Vec<Place>>, AllocError>
    ensures { IfOk result (λ v. AllZip (λ f places. IsPlaceList network.now f places.items) (all_flows network.now) v.items) }
{
    workers.all_places(alloc, network)
}
