//! The lines of `mend`.
ghost use Rattle.std.specs.Prelude.{◌≡◌, ◌++◌, ◌∷◌, [], IfOk, OnOk, flat_map, string_bytes};
ghost use Rattle.sw_output.specs.Lines.{spaced};
ghost use Rattle.sw_changes.specs.MendTexts.{change_words, cures_status, cures_text, is_cured, less_of, limiting_lines, mend_line, mending_status, mending_text, pair_line, split_words, told_pairs, trial_words};

use crate::limiting_texts::limiting_words;
use crate::mending::{Cures, Mending};
use std::alloc::{AllocError, Global};
use std::fmt::Write;
use sw_config::Network;
use sw_mend::{Change, Limiting, Pair, TargetLink, Trial};
use sw_output::{entry_words, flow_name, misrouted_text, node_name, switch_name};
use sw_text::statuses::{BAD, GOOD};
use sw_topo::Port;

/// The words, and the name behind a space.
fn with_name(alloc: Global, words: &str, name: &str) -> Result<String, AllocError>
    ensures { IfOk result (λ s. string_bytes s ≡ spaced (words.now ∷ name.now ∷ [])) }
{
    format!(in alloc; "{words} {name}")
}

/// What is less of a table entry: that port, or all of it.
fn less_words(
    alloc: Global,
    network: &Network,
    switch: u16,
    entry: usize,
    port: Option<Port>,
) -> Result<String, AllocError>
    ensures { IfOk result (λ s. string_bytes s ≡ change_words network.now (less_of switch entry port)) }
{
    let words = entry_words(alloc, network, switch, entry)?;
    let name = switch_name(network, switch);
    match port {
        Some(port) => {
            let port = port.number();
            format!(in alloc; "without port {port} for {words} at {name}")
        }
        None => format!(in alloc; "without the entry for {words} at {name}"),
    }
}

/// What is taken away.
///
/// # Errors
///
/// There is no memory for the text.
pub fn change_words(alloc: Global, network: &Network, change: &Change) -> Result<String, AllocError>
    ensures { IfOk result (λ s. string_bytes s ≡ change_words network.now change.now) }
{
    match change {
        Change::WithoutReply(flow) => {
            with_name(alloc, "without the reply of", flow_name(network, *flow))
        }
        Change::WithoutReplies { from, to } => {
            let from = node_name(network, *from);
            let to = node_name(network, *to);
            format!(in alloc; "without the replies to the flows from {from} to {to}")
        }
        Change::WithoutFlow(flow) => {
            with_name(alloc, "without the flow", flow_name(network, *flow))
        }
        Change::WithoutAnswers(node) => {
            with_name(alloc, "without any reply of", node_name(network, *node))
        }
        Change::WithoutPort {
            switch,
            entry,
            port,
        } => less_words(alloc, network, *switch, *entry, Some(*port)),
        Change::WithoutEntry { switch, entry } => less_words(alloc, network, *switch, *entry, None),
        Change::WithoutFlowsOf(node) => {
            with_name(
                alloc,
                "without the flows from and to",
                node_name(network, *node),
            )
        }
    }
}

/// What the target of a node gets.
fn split_words(alloc: Global, network: &Network, link: &TargetLink) -> Result<String, AllocError>
    ensures { IfOk result (λ s. string_bytes s ≡ split_words network.now link.now) }
{
    let name = node_name(network, link.node);
    let port = link.port.number();
    let switch = switch_name(network, link.switch);
    format!(in alloc; "with a link of its own for the target of {name}, at port {port} of {switch}")
}

/// What is taken away, or what the target of a node gets.
///
/// # Errors
///
/// There is no memory for the text.
pub fn trial_words(alloc: Global, network: &Network, trial: &Trial) -> Result<String, AllocError>
    ensures { IfOk result (λ s. string_bytes s ≡ trial_words network.now trial.now) }
{
    match trial {
        Trial::Without(change) => change_words(alloc, network, change),
        Trial::Split(link) => split_words(alloc, network, link),
    }
}

/// Adds the line of the limit and the slots that free the network, if there are such.
fn add_limiting(
    alloc: Global,
    network: &Network,
    limiting: &Option<Limiting>,
    text: &mut String,
) -> Result<(), AllocError>
    ensures { OnOk result (string_bytes text.new ≡ string_bytes text.old ++ limiting_lines network.now limiting.now) }
{
    match limiting {
        Some(limiting) => {
            let words = limiting_words(alloc, network, limiting)?;
            write!(text, "free {words}\n")
        }
        None => Ok(()),
    }
}

/// Adds the lines of the changes that free the network.
fn add_mends(
    alloc: Global,
    network: &Network,
    changes: &[Trial],
    text: &mut String,
) -> Result<(), AllocError>
    ensures { OnOk result (string_bytes text.new ≡ string_bytes text.old ++ flat_map (mend_line network.now) changes.now) }
{
    for change in changes {
        let words = trial_words(alloc, network, change)?;
        write!(text, "free {words}\n")?;
    }
    Ok(())
}

/// Adds the lines of the pairs of changes that free it.
fn add_pairs(
    alloc: Global,
    network: &Network,
    pairs: &[Pair],
    text: &mut String,
) -> Result<(), AllocError>
    ensures { OnOk result (string_bytes text.new ≡ string_bytes text.old ++ flat_map (pair_line network.now) pairs.now) }
{
    for pair in pairs {
        let first = change_words(alloc, network, &pair.first)?;
        let second = change_words(alloc, network, &pair.second)?;
        write!(text, "free {first} and {second}\n")?;
    }
    Ok(())
}

/// The pairs that free the network; none where they were not looked for.
pub fn told_pairs(cures: &Cures) -> &[Pair]
    ensures { result.now ≡ told_pairs cures.now }
{
    match &cures.pairs {
        Some(pairs) => pairs,
        None => &[],
    }
}

/// Does a limit, some change or some pair free the network?
fn is_cured(cures: &Cures) -> bool
    ensures { result ≡ is_cured cures.now }
{
    cures.limiting.is_some()
        || !cures.changes.is_empty()
        || !told_pairs(cures).is_empty()
        || !cures.units.is_empty()
}

/// The lines of what frees the network, or that nothing does.
fn cures_text(alloc: Global, network: &Network, cures: &Cures) -> Result<String, AllocError>
    ensures { IfOk result (λ s. string_bytes s ≡ cures_text network.now cures.now) }
{
    if !is_cured(cures) {
        if cures.pairs.is_some() {
            return String::from_str(alloc, "no pair of changes frees it\n");
        }
        return String::from_str(alloc, "no single change frees it\n");
    }
    let mut text = String::new(alloc);
    add_limiting(alloc, network, &cures.limiting, &mut text)?;
    add_mends(alloc, network, &cures.changes, &mut text)?;
    add_pairs(alloc, network, told_pairs(cures), &mut text)?;
    add_mends(alloc, network, &cures.units, &mut text)?;
    Ok(text)
}

/// The lines of what is found of the network.
pub(crate) fn mending_text(
    alloc: Global,
    network: &Network,
    mending: &Mending,
) -> Result<String, AllocError>
    ensures { IfOk result (λ s. string_bytes s ≡ mending_text network.now mending.now) }
{
    match mending {
        Mending::Misrouted(flow, place, fault) => {
            misrouted_text(alloc, network, *flow, *place, *fault)
        }
        Mending::Free => String::from_str(alloc, "free already\n"),
        Mending::Cyclic(cures) => cures_text(alloc, network, cures),
    }
}

/// 0 where some change or some pair frees the network.
fn cures_status(cures: &Cures) -> u8
    ensures { result ≡ cures_status cures.now }
{
    if is_cured(cures) {
        return GOOD;
    }
    BAD
}

/// The status of what is found: 0 where the network is free, or some change or some pair of them frees it.
pub fn mending_status(mending: &Mending) -> u8
    ensures { result ≡ mending_status mending.now }
{
    match mending {
        Mending::Misrouted(_, _, _) => BAD,
        Mending::Free => GOOD,
        Mending::Cyclic(cures) => cures_status(cures),
    }
}
