//! How a verdict is written.
ghost use Rattle.std.specs.Prelude.{◌≡◌, ◌<◌, ◌∷◌, ◌++◌, [], All, IfOk, length, string_bytes};
ghost use Rattle.sw_config.specs.Entries.{wiring_of};
ghost use Rattle.sw_cycle.specs.Cycles.{cause_of};
ghost use Rattle.sw_output.specs.ChannelTexts.{node_name, switch_name};
ghost use Rattle.sw_output.specs.Lines.{line, spaced};
ghost use Rattle.sw_output.specs.VerdictTexts.{cause_words, cycle_line, cycle_text, cyclic_words, free_words, height, misrouted_words};

use crate::channel_texts::channel_text;
use crate::flow_texts::{flow_name, place_words, route_fault_text};
use std::alloc::{AllocError, Global};
use std::fmt::Write;
use sw_config::Network;
use sw_cycle::{Cause, Cycle, Place, RouteFault};
use sw_topo::Chan;

/// The node's name, which is empty where there is no such node.
pub fn node_name(network: &Network, node: u16) -> &str
    ensures { result.now ≡ node_name network.now node }
{
    if node < network.nodes() {
        network.node_name(node)
    } else {
        ""
    }
}

/// The switch's name, which is empty where there is no such switch.
pub fn switch_name(network: &Network, switch: u16) -> &str
    ensures { result.now ≡ switch_name network.now switch }
{
    if switch < network.switches() {
        network.switch_name(switch)
    } else {
        ""
    }
}

/// What kind of cause it is, and the name of its node or flow.
fn cause_parts<'a>(network: &'a Network, cause: &Cause) -> (&'static str, &'a str)
    ensures { spaced (result.0.now ∷ result.1.now ∷ []) ≡ cause_words network.now (cause_of cause.now) }
{
    match cause {
        Cause::Target(node) => ("target", node_name(network, *node)),
        Cause::Flow(flow, _) => ("flow", flow_name(network, *flow)),
    }
}

/// Adds the line of a channel and its cause.
fn add_cycle_line(
    alloc: Global,
    network: &Network,
    channel: Chan,
    cause: &Cause,
    text: &mut String,
) -> Result<(), AllocError>
    requires { channel < length (wiring_of network.now).ends }
    ensures { IfOk result (λ _. string_bytes text.new ≡ string_bytes text.old ++ cycle_line network.now channel (cause_of cause.now)) }
{
    let (kind, name) = cause_parts(network, cause);
    let ends = channel_text(alloc, network, channel)?;
    let channel = channel.number();
    write!(text, "channel {channel} {ends} by {kind} {name}\n")
}

/// How many channels a cycle has.
///
/// # Errors
///
/// There is no memory for the text.
pub fn cyclic_words(alloc: Global, channels: &[Chan]) -> Result<String, AllocError>
    ensures { IfOk result (λ s. string_bytes s ≡ cyclic_words (length channels.now)) }
{
    let count = channels.len();
    format!(in alloc; "cyclic {count}")
}

/// How many channels a cycle has, and a line for each, with what makes it wait for the next.
///
/// # Errors
///
/// There is no memory for the text.
pub fn cycle_text(alloc: Global, network: &Network, cycle: &Cycle) -> Result<String, AllocError>
    requires { All (λ c. c < length (wiring_of network.now).ends) cycle.now.channels }
    ensures { IfOk result (λ s. string_bytes s ≡ cycle_text network.now cycle.now) }
{
    let count = cycle.channels.len();
    let mut text = format!(in alloc; "cyclic {count}\n")?;
    let causes = cycle.causes.as_slice();
    for (channel, cause) in cycle.channels.iter().zip(causes) {
        add_cycle_line(alloc, network, *channel, cause, &mut text)?;
    }
    Ok(text)
}

/// The flow, its place with a fault, and the fault.
///
/// # Errors
///
/// There is no memory for the text.
pub fn misrouted_words(
    alloc: Global,
    network: &Network,
    flow: u16,
    place: Place,
    fault: RouteFault,
) -> Result<String, AllocError>
    ensures { IfOk result (λ s. string_bytes s ≡ misrouted_words network.now flow place fault) }
{
    let place = place_words(alloc, network, flow, place)?;
    let fault = route_fault_text(fault);
    format!(in alloc; "misrouted {place} {fault}")
}

/// The line in which `misrouted_words` stands alone.
///
/// # Errors
///
/// There is no memory for the text.
pub fn misrouted_text(
    alloc: Global,
    network: &Network,
    flow: u16,
    place: Place,
    fault: RouteFault,
) -> Result<String, AllocError>
    ensures { IfOk result (λ s. string_bytes s ≡ line (misrouted_words network.now flow place fault ∷ [])) }
{
    let words = misrouted_words(alloc, network, flow, place, fault)?;
    format!(in alloc; "{words}\n")
}

/// The greatest of the numbers, 0 where there is none.
pub fn height(numbers: &[u16]) -> u16
    ensures { result ≡ height numbers.now }
{
    numbers.iter().copied().max().unwrap_or(0)
}

/// The greatest number of a certificate's channels.
///
/// # Errors
///
/// There is no memory for the text.
pub fn free_words(alloc: Global, numbers: &[u16]) -> Result<String, AllocError>
    ensures { IfOk result (λ s. string_bytes s ≡ free_words numbers.now) }
{
    let height = height(numbers);
    format!(in alloc; "free height {height}")
}
