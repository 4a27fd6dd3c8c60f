//! The ports that all flows name, by chunks of flows, side by side or one by one.
ghost use Rattle.std.specs.Prelude.{◌≡◌, ◌↔◌, ◌+◌, ◌<◌, ◌≤◌, IfOk, IsTrue, length};
ghost use Rattle.std.specs.List.{AllZip, range_with_len};
ghost use Rattle.std.specs.Thread.{IsSync};
ghost use Rattle.sw_config.specs.Entries.{all_flows};
ghost use Rattle.sw_flow.specs.Places.{IsPlaceList};
ghost use Rattle.sw_cycle.specs.Named.{AreNamed, AreRouted};
ghost use Rattle.sw_cycle.specs.Chunks.{AreJoined, IsNamedChunk, chunk_start};

use crate::flow_places::flow_and_places;
use crate::named::{Named, add_places};
use std::alloc::{AllocError, Global};
use std::thread::Threads;
use sw_config::Network;
use sw_flow::Place;
use sw_graph::{OneByOne, SideBySide, Workers, side_by_side};
use sw_topo::PortSet;

/// The number of the first flow of a chunk, and behind the last chunk the number of flows.
fn chunk_start(flows: u16, chunk: u16) -> u16
    requires few { flows ≤ 8192 }
    requires chunk { chunk ≤ 64 }
    ensures { result ≡ chunk_start flows chunk }
{
    flows.min(chunk * (flows / 64 + 1))
}

/// The ports that the flows of a chunk name, by channel.
fn named_by_chunk(
    alloc: Global,
    network: &Network,
    places: &[Vec<Place>],
    chunk: u16,
) -> Result<Named, AllocError>
    requires lists { AllZip (λ f ps. IsPlaceList network.now f ps.items) (all_flows network.now) places.now }
    requires chunk { chunk < 64 }
    ensures { IfOk result (λ n. IsNamedChunk network.now chunk n) }
{
    let flows = network.flows();
    let low = chunk_start(flows, chunk);
    let high = chunk_start(flows, chunk + 1);
    let mut sets = vec![in alloc; PortSet::EMPTY; usize::from(network.channels())]?;
    let mut is_routed = true;
    for number in low..high {
        let (flow, listed) = flow_and_places(network, places, number);
        let is_sound = add_places(network, flow, listed, &mut sets);
        is_routed = is_routed & is_sound;
    }
    Ok(Named { sets, is_routed })
}

/// Adds the ports of each channel.
fn join(sets: &mut [PortSet], part: &[PortSet])
    requires { length part.now ≡ length sets.old }
    ensures { AreJoined part.now (length part.now) sets.old sets.new }
{
    for (channel, ports) in part.iter().enumerate() {
        sets[channel] = sets[channel].union(*ports);
    }
}

/// The ports that the flows of all chunks name, by channel.
pub(crate) fn joined(alloc: Global, network: &Network, parts: &[Named]) -> Result<Named, AllocError>
    requires { AllZip (λ chunk n. IsNamedChunk network.now chunk n) (range_with_len 0 64) parts.now }
    ensures named { IfOk result (λ n. AreNamed network.now 0 (length (all_flows network.now)) n.sets.items) }
    ensures routed { IfOk result (λ n. IsTrue n.is_routed ↔ AreRouted network.now 0 (length (all_flows network.now))) }
{
    let mut sets = vec![in alloc; PortSet::EMPTY; usize::from(network.channels())]?;
    let mut is_routed = true;
    for part in parts {
        join(&mut sets, &part.sets);
        is_routed = is_routed & part.is_routed;
    }
    Ok(Named { sets, is_routed })
}

/// Who finds the ports that flows name.
pub trait PortWorkers: Workers {
    /// The ports that the flows of each chunk name.
    ///
    /// # Errors
    ///
    /// There is no memory for the sets of ports.
    fn named_by_chunks(
        &self,
        alloc: Global,
        network: &Network,
        places: &[Vec<Place>],
    ) -> Result<Vec<Named>, AllocError>
        requires shared { IsSync Self.Shared.row }
        requires lists { AllZip (λ f ps. IsPlaceList network.now f ps.items) (all_flows network.now) places.now }
        ensures { IfOk result (λ v. AllZip (λ chunk n. IsNamedChunk network.now chunk n) (range_with_len 0 64) v.items) };
}

impl<R: Threads + Sync> PortWorkers for SideBySide<'_, R> {
    fn named_by_chunks(
        &self,
        alloc: Global,
        network: &Network,
        places: &[Vec<Place>],
    ) -> Result<Vec<Named>, AllocError> {
        side_by_side::map_all(
            self.handle(),
            alloc,
            64,
            1,
            |chunk: u16| -> Result<Named, AllocError>
                requires lists { AllZip (λ f ps. IsPlaceList network.now f ps.items) (all_flows network.now) places.now }
                requires chunk { chunk < 64 }
                ensures { IfOk result (λ n. IsNamedChunk network.entry.now chunk n) }
            { named_by_chunk(alloc, network, places, chunk) },
        )
    }
}

impl PortWorkers for OneByOne {
    fn named_by_chunks(
        &self,
        alloc: Global,
        network: &Network,
        places: &[Vec<Place>],
    ) -> Result<Vec<Named>, AllocError> {
        let mut parts = Vec::new(alloc);
        for chunk in 0..64 {
            parts.push(named_by_chunk(alloc, network, places, chunk)?)?;
        }
        Ok(parts)
    }
}
