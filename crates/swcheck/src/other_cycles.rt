//! Further cycles of a network, each without a cause in common with those before. It decides nothing.
use crate::found_hints::shortest_of;
use std::alloc::{AllocError, Global};
use sw_config::Network;
use sw_mend::{Change, network_with_all};
use sw_output::channel_text;
use sw_search::{Cause, Explanation, Tangle, VerdictWorkers, explain};

/// The most further cycles that are looked for.
const MOST_CYCLES: usize = 7;

/// The network's flow of that name taken out, or its reply where the name is that of its replies.
fn without(network: &Network, name: &str) -> Option<Change> {
    match name.strip_suffix("+reply") {
        Some(flow) => Some(Change::WithoutReply(network.declared_flow_named(flow)?)),
        None => Some(Change::WithoutFlow(network.declared_flow_named(name)?)),
    }
}

/// Adds what takes all causes of the tangle's cycle out of the network: the tangle is one of the network's rest, whose flows have other numbers.
fn add_changes(
    network: &Network,
    rest: &Network,
    tangle: &Tangle,
    changes: &mut Vec<Change>,
) -> Result<(), AllocError> {
    for flows in &tangle.flows {
        for flow in flows {
            if *flow < rest.flows()
                && let Some(change) = without(network, rest.flow(*flow).name())
            {
                changes.push(change)?;
            }
        }
    }
    for cause in &tangle.cycle.causes {
        if let Cause::Target(node) = cause {
            changes.push(Change::WithoutAnswers(*node))?;
        }
    }
    Ok(())
}

/// Adds the line of a cycle.
fn add_line(
    alloc: Global,
    network: &Network,
    tangle: &Tangle,
    lines: &mut String,
) -> Result<(), AllocError> {
    let mut texts = Vec::new(alloc);
    for channel in &tangle.cycle.channels {
        if channel.number() < network.channels() {
            texts.push(channel_text(alloc, network, *channel)?)?;
        }
    }
    let channels = texts.join(alloc, ", ")?;
    write!(
        lines,
        "note: another cycle, with no cause in common with the others: {channels}\n"
    )
}

/// Adds the line of the shortest cycle of the network's rest, and what takes its causes out: whether there is one.
fn add_cycle<C: VerdictWorkers>(
    workers: &C,
    alloc: Global,
    network: &Network,
    rest: &Network,
    changes: &mut Vec<Change>,
    lines: &mut String,
) -> Result<bool, AllocError> {
    let Explanation::Cyclic(tangles) = explain(workers, alloc, rest)? else {
        return Ok(false);
    };
    let Some(tangle) = shortest_of(&tangles) else {
        return Ok(false);
    };
    add_line(alloc, network, tangle, lines)?;
    add_changes(network, rest, tangle, changes)?;
    Ok(true)
}

/// A line for each further cycle, at most seven: the shortest one that is left without all causes of the tangles' cycles and of those before it.
pub(crate) fn other_cycle_lines<C: VerdictWorkers>(
    workers: &C,
    alloc: Global,
    network: &Network,
    tangles: &[Tangle],
) -> Result<String, AllocError> {
    let mut lines = String::new(alloc);
    let mut changes = Vec::new(alloc);
    for tangle in tangles {
        add_changes(network, network, tangle, &mut changes)?;
    }
    for _ in 0..MOST_CYCLES {
        let rest = network_with_all(alloc, network, &changes)?;
        let found = add_cycle(workers, alloc, network, &rest, &mut changes, &mut lines);
        rest.discard();
        if !found? {
            break;
        }
    }
    Ok(lines)
}
