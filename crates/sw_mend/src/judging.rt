//! Changed networks judged, and what is learned of those that are not free: what their cycles of dependencies use.
ghost use Rattle.std.specs.Prelude.{◌↔◌, IfOk, IsTrue, OnOk};
ghost use Rattle.sw_config.specs.Valid.{IsValid};
ghost use Rattle.sw_search.specs.Laws.{RoutedAndFree};
ghost use Rattle.sw_mend.specs.Changes.{changed};
ghost use Rattle.sw_mend.specs.Mends.{FreesBoth};
ghost use Rattle.sw_mend.specs.Spared.{AreOfCycles};
ghost use Rattle.sw_mend.specs.Splits.{IsTargetLink, split};

use crate::change::{Change, Pair, TargetLink};
use crate::rebuilt::{network_with, network_with_all};
use crate::sparing::{both_spare_one, spares_one, split_spares_one};
use crate::splitting::network_split;
use crate::uses::{Uses, uses_of};
use std::alloc::{AllocError, Global};
use std::marker::Model;
use sw_config::Network;
use sw_flow::all_places;
use sw_search::{Cause, Cycle, VerdictWorkers, check_cycle, is_free, tangles};

/// How often the flows of the last cycle are taken away for another one, which uses none of them.
const CYCLES_APART: usize = 2;

/// The number in the network of the flow that has that number in the changed network, if it has one there.
fn number_in(network: &Network, changed: &Network, number: u16) -> u16 {
    if number >= changed.flows() {
        return number;
    }
    let name = changed.flow(number).name();
    network.flow_named(name).unwrap_or(number)
}

/// The cause as it is told of the network.
fn cause_in(network: &Network, changed: &Network, cause: Cause) -> Cause {
    match cause {
        Cause::Target(node) => Cause::Target(node),
        Cause::Flow(number, places) => Cause::Flow(number_in(network, changed, number), places),
    }
}

/// The cycle as it is told of the network, whether or not it is one there.
fn cycle_in(
    alloc: Global,
    network: &Network,
    changed: &Network,
    cycle: Cycle,
) -> Result<Cycle, AllocError> {
    let Cycle { channels, causes } = cycle;
    let mut told = Vec::new(alloc);
    for cause in causes {
        told.push(cause_in(network, changed, cause))?;
    }
    Ok(Cycle {
        channels,
        causes: told,
    })
}

/// Adds what the cycle uses, if it is one of the network.
fn add_cycle(
    alloc: Global,
    network: &Network,
    changed: &Network,
    cycle: &Cycle,
    cycles: &mut Vec<Uses>,
) -> Result<(), AllocError>
    requires { AreOfCycles network.now cycles.old.items }
    ensures { OnOk result (AreOfCycles network.now cycles.new.items) }
{
    if !check_cycle(network, cycle) {
        return Ok(());
    }
    let uses = uses_of(alloc, network, changed, cycle)?;
    cycles.push(uses)?;
    Ok(())
}

/// Adds what the cycles of the changed network's tangles use, those that are cycles of the network.
fn learn<W: VerdictWorkers>(
    workers: &W,
    alloc: Global,
    network: &Network,
    changed: &Network,
    cycles: &mut Vec<Uses>,
) -> Result<(), AllocError>
    requires { AreOfCycles network.now cycles.old.items }
    ensures { OnOk result (AreOfCycles network.now cycles.new.items) }
{
    let places = all_places(workers, alloc, changed)?;
    for tangle in tangles(workers, alloc, changed, &places)? {
        let cycle = cycle_in(alloc, network, changed, tangle.cycle)?;
        add_cycle(alloc, network, changed, &cycle, cycles)?;
    }
    Ok(())
}

/// Adds the changes that take away the flows of these numbers.
fn add_away(numbers: &[u16], changes: &mut Vec<Change>) -> Result<(), AllocError> {
    for number in numbers {
        changes.push(Change::WithoutFlow(*number))?;
    }
    Ok(())
}

/// Adds what cycles use that are left where all flows of the last cycle are taken away as well.
fn learn_apart<W: VerdictWorkers>(
    workers: &W,
    alloc: Global,
    network: &Network,
    changes: &mut Vec<Change>,
    cycles: &mut Vec<Uses>,
) -> Result<(), AllocError>
    requires { AreOfCycles network.now cycles.old.items }
    ensures { OnOk result (AreOfCycles network.now cycles.new.items) }
{
    if let Some(uses) = cycles.last() {
        add_away(&uses.flows, changes)?;
        add_away(&uses.answered, changes)?;
    }
    let left = network_with_all(alloc, network, changes)?;
    let learned = learn(workers, alloc, network, &left, cycles);
    left.discard();
    learned
}

/// What cycles of the network use: those of its tangles, and some that have no flows in common with the last of these.
pub(crate) fn first_cycles<W: VerdictWorkers>(
    workers: &W,
    alloc: Global,
    network: &Network,
) -> Result<Vec<Uses>, AllocError>
    ensures { IfOk result (λ cycles. AreOfCycles network.now cycles.items) }
{
    let mut cycles = Vec::new(alloc);
    learn(workers, alloc, network, network, &mut cycles)?;
    let mut changes = Vec::new(alloc);
    for _ in 0..CYCLES_APART {
        learn_apart(workers, alloc, network, &mut changes, &mut cycles)?;
    }
    Ok(cycles)
}

/// Is the changed network free? Where it is not, it is learned what its cycles use.
fn judge<W: VerdictWorkers>(
    workers: &W,
    alloc: Global,
    network: &Network,
    changed: &Network,
    cycles: &mut Vec<Uses>,
) -> Result<bool, AllocError>
    requires { AreOfCycles network.now cycles.old.items }
    ensures decided { IfOk result (λ freed. IsTrue freed ↔ RoutedAndFree changed.now) }
    ensures known { OnOk result (AreOfCycles network.now cycles.new.items) }
{
    let freed = is_free(workers, alloc, changed)?;
    if freed {
        return Ok(freed);
    }
    learn(workers, alloc, network, changed, cycles)?;
    Ok(freed)
}

/// Is the changed network free? It is let go. Where it is not, it is learned what its cycles use.
fn is_left_free<W: VerdictWorkers>(
    workers: &W,
    alloc: Global,
    network: &Network,
    changed: Network,
    cycles: &mut Vec<Uses>,
) -> Result<bool, AllocError>
    requires { AreOfCycles network.now cycles.old.items }
    ensures valid { IsValid changed }
    ensures decided { IfOk result (λ freed. IsTrue freed ↔ RoutedAndFree changed) }
    ensures known { OnOk result (AreOfCycles network.now cycles.new.items) }
{
    // Names the network, which is valid by its type.
    let _topology = changed.topology();
    let answer = judge(workers, alloc, network, &changed, cycles);
    changed.discard();
    answer
}

/// Does the change free the network? It is made only where it touches something of each cycle that is known.
pub(crate) fn frees<W: VerdictWorkers>(
    workers: &W,
    alloc: Global,
    network: &Network,
    change: &Change,
    cycles: &mut Vec<Uses>,
) -> Result<bool, AllocError>
    requires { AreOfCycles network.now cycles.old.items }
    ensures decided { IfOk result (λ freed. IsTrue freed ↔ RoutedAndFree (changed network.now change.now)) }
    ensures known { OnOk result (AreOfCycles network.now cycles.new.items) }
{
    // Names the network, which is valid by its type.
    let _topology = network.topology();
    if spares_one(network, change, cycles) {
        return Ok(false);
    }
    let changed = network_with(alloc, network, change)?;
    is_left_free(workers, alloc, network, changed, cycles)
}

/// Do both changes free the network? They are made only where they touch something of each cycle that is known: of those of these numbers, and of
/// those that came to the known ones.
pub(crate) fn frees_both<W: VerdictWorkers>(
    workers: &W,
    alloc: Global,
    network: &Network,
    pair: &Pair,
    spared: &[usize],
    known: usize,
    cycles: &mut Vec<Uses>,
) -> Result<bool, AllocError>
    requires { AreOfCycles network.now cycles.old.items }
    ensures decided { IfOk result (λ freed. IsTrue freed ↔ FreesBoth network.now pair.now) }
    ensures known { OnOk result (AreOfCycles network.now cycles.new.items) }
{
    // Names the network, which is valid by its type.
    let _topology = network.topology();
    if both_spare_one(network, &pair.first, &pair.second, cycles, spared, known) {
        return Ok(false);
    }
    let changed = network_with_all(alloc, network, &[pair.first, pair.second])?;
    is_left_free(workers, alloc, network, changed, cycles)
}

/// Does the split free the network? It is made only where it touches something of each cycle that is known.
pub(crate) fn split_frees<W: VerdictWorkers>(
    workers: &W,
    alloc: Global,
    network: &Network,
    link: &TargetLink,
    cycles: &mut Vec<Uses>,
) -> Result<bool, AllocError>
    requires known { AreOfCycles network.now cycles.old.items }
    requires link { IsTargetLink network.now link.now }
    ensures decided { IfOk result (λ freed. IsTrue freed ↔ (IsValid (split network.now link.now) × RoutedAndFree (split network.now link.now))) }
    ensures known { OnOk result (AreOfCycles network.now cycles.new.items) }
{
    // Names the network, which is valid by its type.
    let _topology = network.topology();
    if split_spares_one(network, link.node, cycles) {
        return Ok(false);
    }
    match network_split(alloc, network, link)? {
        Some(changed) => is_left_free(workers, alloc, network, changed, cycles),
        None => Ok(false),
    }
}
