//! What a verdict rests on, found side by side or one by one.
ghost use Rattle.std.specs.Prelude.{◌<◌, IfOk, length};
ghost use Rattle.std.specs.Thread.{IsSync};
ghost use Rattle.sw_config.specs.Entries.{all_flows};
ghost use Rattle.sw_search.specs.Lists.{AreFirstFaults, AreListed, IsFirstFault};

use crate::misrouted::fault_of_flow;
use std::alloc::{AllocError, Global};
use std::thread::Threads;
use sw_cert::{CheckWorkers, ReadWorkers, WriteWorkers};
use sw_config::Network;
use sw_cycle::PortWorkers;
use sw_flow::{Place, PlaceWorkers, RouteFault, flows_a_thread};
use sw_graph::{OneByOne, RoundWorkers, SideBySide, side_by_side};

/// Who finds what a verdict rests on, and reads and writes certificates.
pub trait VerdictWorkers: CheckWorkers
    + PlaceWorkers
    + PortWorkers
    + ReadWorkers
    + RoundWorkers
    + WriteWorkers {
    /// The first fault of each flow, by the flows' numbers.
    ///
    /// # Errors
    ///
    /// There is no memory for the list.
    fn faults_of_flows(
        &self,
        alloc: Global,
        network: &Network,
        places: &[Vec<Place>],
    ) -> Result<Vec<Option<(Place, RouteFault)>>, AllocError>
        requires shared { IsSync Self.Shared.row }
        requires lists { AreListed network.now places.now }
        ensures { IfOk result (λ v. AreFirstFaults network.now v.items) };
}

impl<R: Threads + Sync> VerdictWorkers for SideBySide<'_, R> {
    fn faults_of_flows(
        &self,
        alloc: Global,
        network: &Network,
        places: &[Vec<Place>],
    ) -> Result<Vec<Option<(Place, RouteFault)>>, AllocError> {
        side_by_side::map_all(
            self.handle(),
            alloc,
            network.flows(),
            flows_a_thread(network),
            |flow: u16| -> Result<Option<(Place, RouteFault)>, AllocError>
                requires lists { AreListed network.now places.now }
                requires inside { flow < length (all_flows network.now) }
                ensures { IfOk result (IsFirstFault network.entry.now flow) }
            { Ok(fault_of_flow(network, flow, places)) },
        )
    }
}

impl VerdictWorkers for OneByOne {
    fn faults_of_flows(
        &self,
        alloc: Global,
        network: &Network,
        places: &[Vec<Place>],
    ) -> Result<Vec<Option<(Place, RouteFault)>>, AllocError> {
        let mut faults = Vec::new(alloc);
        for number in 0..network.flows() {
            faults.push(fault_of_flow(network, number, places))?;
        }
        Ok(faults)
    }
}
