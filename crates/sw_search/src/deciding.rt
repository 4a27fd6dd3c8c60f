//! The verdict on a network.
ghost use Rattle.std.specs.Prelude.{IfOk, IsTrue};
ghost use Rattle.sw_search.specs.Findings.{AreFindings};
ghost use Rattle.sw_search.specs.Laws.{IsChecked};
ghost use Rattle.sw_search.specs.Lists.{AreListed, AreRows};
ghost use Rattle.sw_search.specs.Verdicts.{AllWellRouted, IsVerdict};

use crate::counts::{dependencies_in, places_in};
use crate::cyclic::cycle;
use crate::free::free;
use crate::laws::{cyclic_is_shown, free_is_accepted};
use crate::misrouted::first_misrouted;
use crate::order::ordered;
use crate::verdict::{Findings, Verdict};
use crate::workers::VerdictWorkers;
use std::alloc::{AllocError, Global};
use sw_config::Network;
use sw_cycle::routed_dependencies;
use sw_flow::{Place, all_places};
use sw_graph::Order;

/// For each channel those on which it depends, each once; and whether each flow is well routed.
fn rows_of<W: VerdictWorkers>(
    workers: &W,
    alloc: Global,
    network: &Network,
    places: &[Vec<Place>],
) -> Result<(Vec<Vec<u16>>, bool), AllocError>
    requires { AreListed network.now places.now }
    ensures rows { IfOk result (λ r. AreRows network.now r.0.items) }
    ensures routed { IfOk result (λ r. IsTrue r.1 → AllWellRouted network.now) }
{
    routed_dependencies(workers, alloc, network, places)
}

/// The verdict, by the places of the flows and the rows of dependencies. Where it is not known that
/// each flow is well routed, the first that is not is looked for.
fn verdict_by<W: VerdictWorkers>(
    workers: &W,
    alloc: Global,
    network: &Network,
    places: Vec<Vec<Place>>,
    rows: &[Vec<u16>],
    is_routed: bool,
) -> Result<Verdict, AllocError>
    requires lists { AreListed network.now places.items }
    requires rows { AreRows network.now rows.now }
    requires routed { IsTrue is_routed → AllWellRouted network.now }
    ensures { IfOk result (IsVerdict network.now) }
{
    match first_misrouted(workers, alloc, network, &places, is_routed)? {
        Some((flow, place, fault)) => Ok(Verdict::Misrouted(flow, place, fault)),
        None => match ordered(workers, alloc, network, rows)? {
            Order::Levels(levels) => Ok(Verdict::Free(free(network, levels, places))),
            Order::Cycle(members) => {
                let cycle = cycle(alloc, network, &places, &members)?;
                Ok(Verdict::Cyclic(cycle))
            }
        },
    }
}

/// The verdict on a network, and how many places and dependencies it has (Dally and Seitz: channel dependency; targets are this
/// project's choice). The workers share the work.
///
/// # Errors
///
/// There is no memory for the places, the dependencies or the verdict.
pub fn survey<W: VerdictWorkers>(
    workers: &W,
    alloc: Global,
    network: &Network,
) -> Result<Findings, AllocError>
    ensures { IfOk result (AreFindings network.now) }
{
    let lists = all_places(workers, alloc, network)?;
    let (rows, is_routed) = rows_of(workers, alloc, network, &lists)?;
    let places = places_in(network, &lists);
    let dependencies = dependencies_in(network, &rows);
    let verdict = verdict_by(workers, alloc, network, lists, &rows, is_routed)?;
    Ok(Findings {
        verdict,
        places,
        dependencies,
    })
}

/// The verdict on a network: the first flow that is not well routed, and else a cycle of dependencies (Dally and Seitz: channel
/// dependency; targets are this project's choice), and else a certificate that the network never locks up. The workers share the
/// work.
///
/// # Errors
///
/// There is no memory for the places, the dependencies or the verdict.
pub fn decide<W: VerdictWorkers>(
    workers: &W,
    alloc: Global,
    network: &Network,
) -> Result<Verdict, AllocError>
    ensures verdict { IfOk result (IsVerdict network.now) }
    ensures checked { IfOk result (IsChecked network.now) }
{
    // Names the network, which is valid by its type.
    let _topology = network.topology();
    free_is_accepted();
    cyclic_is_shown();
    let findings = survey(workers, alloc, network)?;
    Ok(findings.verdict)
}
