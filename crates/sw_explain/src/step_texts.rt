//! The text of a step of a cycle.
ghost use Rattle.std.specs.Prelude.{◌≡◌, ◌<◌, ◌≤◌, ◌++◌, ℕ, Bool, IfOk, OnOk, codes, length, string_bytes};
ghost use Rattle.sw_config.specs.Entries.{wiring_of};
ghost use Rattle.sw_cycle.specs.Cycles.{cause_of};
ghost use Rattle.sw_output.specs.ChannelTexts.{channel_text};
ghost use Rattle.sw_explain.specs.ExplainTexts.{awaited, flows_text, joined_names, more_text, names_text, named, step_words};

use crate::owed_texts::owed_text;
use std::alloc::{AllocError, Global};
use std::fmt::Write;
use sw_config::Network;
use sw_cycle::Cause;
use sw_output::{channel_text, flow_name, node_name};
use sw_topo::Chan;

/// How many of the flows that make a step are named, unless all are.
const MOST_NAMED: usize = 6;

/// What stands before a name, the name, what stands before a channel, and what stands before that which is waited for: a flow's packet
/// holds the channel and waits for the next, or a target takes nothing from it while it owes replies.
pub(crate) fn step_parts<'a>(
    network: &'a Network,
    cause: &Cause,
) -> (&'static str, &'a str, &'static str, &'static str)
    ensures { (all : Bool) (c e : ℕ) → result.0.now ++ (result.1.now ++ (result.2.now ++ (channel_text network.now c ++ (result.3.now ++ awaited network.now all e (cause_of cause.now))))) ≡ step_words network.now all c e (cause_of cause.now) }
{
    match cause {
        Cause::Flow(flow, _) => (
            "a packet of ",
            flow_name(network, *flow),
            " holds ",
            " and waits for ",
        ),
        Cause::Target(node) => (
            "",
            node_name(network, *node),
            " takes nothing from ",
            " while it owes ",
        ),
    }
}

/// What is waited for: the next channel, or that a target owes less than so many replies.
pub(crate) fn wait_text(
    alloc: Global,
    network: &Network,
    all: bool,
    next: Chan,
    cause: &Cause,
) -> Result<String, AllocError>
    requires { next < length (wiring_of network.now).ends }
    ensures { IfOk result (λ s. string_bytes s ≡ awaited network.now all next (cause_of cause.now)) }
{
    match cause {
        Cause::Flow(_, _) => channel_text(alloc, network, next),
        Cause::Target(node) => owed_text(alloc, network, all, *node),
    }
}

/// The flows that are named.
pub(crate) fn flows_to_name(flows: &[u16], all: bool) -> &[u16]
    ensures is { result.now ≡ named all flows.now }
    ensures most { length result.now ≤ length flows.now }
{
    if all {
        return flows;
    }
    if flows.len() < MOST_NAMED {
        return flows;
    }
    &flows[..MOST_NAMED]
}

/// Adds the names of flows, with this between each two.
///
/// # Errors
///
/// There is no memory for a longer text.
pub fn add_names(
    network: &Network,
    between: &str,
    flows: &[u16],
    text: &mut String,
) -> Result<(), AllocError>
    ensures { OnOk result (string_bytes text.new ≡ string_bytes text.old ++ joined_names network.now between.now flows.now) }
{
    match flows {
        [] => Ok(()),
        [first, rest @ ..] => {
            text.push_str(flow_name(network, *first))?;
            for flow in rest {
                let name = flow_name(network, *flow);
                write!(text, "{between}{name}")?;
            }
            Ok(())
        }
    }
}

/// The names of flows, with a comma between each two.
///
/// # Errors
///
/// There is no memory for the text.
pub fn names_text(alloc: Global, network: &Network, flows: &[u16]) -> Result<String, AllocError>
    ensures { IfOk result (λ s. string_bytes s ≡ names_text network.now flows.now) }
{
    let mut text = String::new(alloc);
    add_names(network, ", ", flows, &mut text)?;
    Ok(text)
}

/// Adds all flows that make a step, where there are two or more, and ends the line.
pub(crate) fn end_step_line(
    network: &Network,
    flows: &[u16],
    all: bool,
    text: &mut String,
) -> Result<(), AllocError>
    ensures { OnOk result (string_bytes text.new ≡ string_bytes text.old ++ (flows_text network.now all flows.now ++ codes "\n")) }
{
    let count = flows.len();
    if count < 2 {
        return text.push_str("\n");
    }
    let named = flows_to_name(flows, all);
    text.push_str(" (flows ")?;
    add_names(network, ", ", named, text)?;
    add_more(count - named.len(), ")\n", text)
}

/// Adds how many more there are, if any, and what ends the list.
pub(crate) fn add_more(more: usize, end: &str, text: &mut String) -> Result<(), AllocError>
    ensures { OnOk result (string_bytes text.new ≡ string_bytes text.old ++ (more_text more ++ end.now)) }
{
    if more == 0 {
        return text.push_str(end);
    }
    write!(text, " and {more} more{end}")
}
