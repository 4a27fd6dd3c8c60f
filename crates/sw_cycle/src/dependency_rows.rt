//! The dependencies between channels.
ghost use Rattle.std.specs.Prelude.{◌≡◌, ◌↔◌, ℕ, IfOk, IsTrue, length};
ghost use Rattle.std.specs.List.{AllZip};
ghost use Rattle.sw_config.specs.Entries.{all_flows};
ghost use Rattle.sw_flow.specs.Places.{IsPlaceList, ends_of};
ghost use Rattle.sw_machine.specs.Places.{IsDependency};
ghost use Rattle.sw_machine.specs.Model.{network_of};
ghost use Rattle.sw_graph.specs.Rows.{IsGraph, Leads};
ghost use Rattle.sw_cycle.specs.Named.{AreNamed, AreRouted};
ghost use Rattle.sw_cycle.specs.Rows.{AreOnce};

use crate::parallel::{PortWorkers, joined};
use crate::rows::row_of;
use std::alloc::{AllocError, Global};
use sw_config::Network;
use sw_flow::Place;
use sw_topo::{Chan, PortSet};

/// The rows of the dependencies, from the sets of ports that flows name, by channel.
fn rows_from(
    alloc: Global,
    network: &Network,
    sets: &[PortSet],
) -> Result<Vec<Vec<u16>>, AllocError>
    requires { AreNamed network.now 0 (length (all_flows network.now)) sets.now }
    ensures size { IfOk result (λ v. length v.items ≡ length (ends_of network.now)) }
    ensures exact { IfOk result (λ v. (c e : ℕ) → (Leads v.items c e ↔ IsDependency (network_of network.now) c e)) }
    ensures graph { IfOk result (λ v. IsGraph v.items) }
    ensures once { IfOk result (λ v. AreOnce v.items) }
{
    // Names the network, which is valid by its type.
    let _topology = network.topology();
    let marks = network.waiting_nodes(alloc)?;
    let mut rows = Vec::new(alloc);
    for channel in 0..network.channels() {
        let ports = sets[usize::from(channel)];
        rows.push(row_of(alloc, network.topology(), Chan::new(channel), ports, &marks)?)?;
    }
    Ok(rows)
}

/// What `dependencies` gives (Dally and Seitz: channel dependency; targets are this project's choice), and whether each flow is well
/// routed.
///
/// # Errors
///
/// There is no memory for the rows, or for what finds them.
pub fn routed_dependencies<W: PortWorkers>(
    workers: &W,
    alloc: Global,
    network: &Network,
    places: &[Vec<Place>],
) -> Result<(Vec<Vec<u16>>, bool), AllocError>
    requires lists { AllZip (λ f ps. IsPlaceList network.now f ps.items) (all_flows network.now) places.now }
    ensures size { IfOk result (λ r. length r.0.items ≡ length (ends_of network.now)) }
    ensures exact { IfOk result (λ r. (c e : ℕ) → (Leads r.0.items c e ↔ IsDependency (network_of network.now) c e)) }
    ensures graph { IfOk result (λ r. IsGraph r.0.items) }
    ensures once { IfOk result (λ r. AreOnce r.0.items) }
    ensures routed { IfOk result (λ r. IsTrue r.1 ↔ AreRouted network.now 0 (length (all_flows network.now))) }
{
    let named = joined(
        alloc,
        network,
        &workers.named_by_chunks(alloc, network, places)?,
    )?;
    match rows_from(alloc, network, &named.sets) {
        Ok(rows) => Ok((rows, named.is_routed)),
        Err(error) => Err(error),
    }
}

/// For each channel those on which a packet that is on it may wait, by their numbers: where a flow
/// goes on to (Dally and Seitz: channel dependency), and at a target that answers and does not always
/// take what comes, where its replies leave (this project's choice). A row has each of them once.
///
/// `places` has the places of each flow, reply flows too, as `sw_flow::all_places` gives them.
///
/// # Errors
///
/// There is no memory for the rows, or for what finds them.
pub fn dependencies<W: PortWorkers>(
    workers: &W,
    alloc: Global,
    network: &Network,
    places: &[Vec<Place>],
) -> Result<Vec<Vec<u16>>, AllocError>
    requires lists { AllZip (λ f ps. IsPlaceList network.now f ps.items) (all_flows network.now) places.now }
    ensures size { IfOk result (λ v. length v.items ≡ length (ends_of network.now)) }
    ensures exact { IfOk result (λ v. (c e : ℕ) → (Leads v.items c e ↔ IsDependency (network_of network.now) c e)) }
    ensures graph { IfOk result (λ v. IsGraph v.items) }
    ensures once { IfOk result (λ v. AreOnce v.items) }
{
    match routed_dependencies(workers, alloc, network, places) {
        Ok((rows, _)) => Ok(rows),
        Err(error) => Err(error),
    }
}
