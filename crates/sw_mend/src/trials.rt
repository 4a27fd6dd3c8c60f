//! The single changes that free a network.
ghost use Rattle.std.specs.Prelude.{IfOk, OnOk, flat_map, map};
ghost use Rattle.sw_mend.specs.Kinds.{kind_away};
ghost use Rattle.sw_mend.specs.Mends.{AreAdded, AreMends, AreUnitMends, Frees};
ghost use Rattle.sw_mend.specs.Spared.{AreOfCycles};
ghost use Rattle.sw_mend.specs.Splits.{splits};
ghost use Rattle.sw_mend.specs.declared.change.Trial.TheVariants.{Without, Split};

use crate::change::Trial;
use crate::judging::{first_cycles, frees, split_frees};
use crate::links::own_link_of;
use crate::listing::{Kind, PARTS, UNITS, add_if, removals};
use crate::uses::Uses;
use std::alloc::{AllocError, Global};
use std::marker::Model;
use sw_config::Network;
use sw_search::VerdictWorkers;

/// Adds those of what is taken away of these kinds that free the network.
fn add_removals<W: VerdictWorkers>(
    workers: &W,
    alloc: Global,
    network: &Network,
    kinds: &[Kind],
    cycles: &mut Vec<Uses>,
    mends: &mut Vec<Trial>,
) -> Result<(), AllocError>
    requires { AreOfCycles network.now cycles.old.items }
    ensures known { OnOk result (AreOfCycles network.now cycles.new.items) }
    ensures told { OnOk result (AreAdded (Frees network.now) (map Without (flat_map (kind_away network.now) kinds.now)) mends.old.items mends.new.items) }
{
    let changes = removals(alloc, network, kinds)?;
    for (number, change) in changes.iter().enumerate() {
        workers.tell_progress(number, changes.len());
        let freed = frees(workers, alloc, network, change, cycles)?;
        add_if(freed, Trial::Without(*change), mends)?;
    }
    Ok(())
}

/// Adds those of the splits that free the network.
fn add_splits<W: VerdictWorkers>(
    workers: &W,
    alloc: Global,
    network: &Network,
    cycles: &mut Vec<Uses>,
    mends: &mut Vec<Trial>,
) -> Result<(), AllocError>
    requires { AreOfCycles network.now cycles.old.items }
    ensures { OnOk result (AreAdded (Frees network.now) (map Split (splits network.now)) mends.old.items mends.new.items) }
{
    for node in 0..network.nodes() {
        workers.tell_progress(usize::from(node), usize::from(network.nodes()));
        let Some(link) = own_link_of(network, node) else {
            continue;
        };
        let freed = split_frees(workers, alloc, network, &link, cycles)?;
        add_if(freed, Trial::Split(link), mends)?;
    }
    Ok(())
}

/// The single changes of parts that free the network, in the order in which they are tried: one reply away; the replies to the flows from one node
/// to another; one flow; the answers of one target; one port of one group of a routing table; one table entry; a node split, so that its target has a
/// link of its own. Those that touch nothing of a cycle that is known are passed over, and each other one is made and judged: none that is left out
/// frees the network. The workers share the work of each judgement.
///
/// # Errors
///
/// There is no memory for the changes, a changed network or its verdict.
pub fn mends<W: VerdictWorkers>(
    workers: &W,
    alloc: Global,
    network: &Network,
) -> Result<Vec<Trial>, AllocError>
    ensures { IfOk result (λ v. AreMends network.now v.items) }
{
    let mut cycles = first_cycles(workers, alloc, network)?;
    let mut mends = Vec::new(alloc);
    add_removals(workers, alloc, network, PARTS, &mut cycles, &mut mends)?;
    add_splits(workers, alloc, network, &mut cycles, &mut mends)?;
    Ok(mends)
}

/// The units without whose flows the network is free, as changes and in their order. Those that touch nothing of a cycle that is known are passed
/// over, and each other one is made and judged: none that is left out frees the network. The workers share the work of each judgement.
///
/// # Errors
///
/// There is no memory for the changes, a changed network or its verdict.
pub fn unit_mends<W: VerdictWorkers>(
    workers: &W,
    alloc: Global,
    network: &Network,
) -> Result<Vec<Trial>, AllocError>
    ensures { IfOk result (λ v. AreUnitMends network.now v.items) }
{
    let mut cycles = first_cycles(workers, alloc, network)?;
    let mut mends = Vec::new(alloc);
    add_removals(workers, alloc, network, UNITS, &mut cycles, &mut mends)?;
    Ok(mends)
}
