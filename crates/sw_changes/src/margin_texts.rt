//! The lines of `margin`.
ghost use Rattle.std.specs.Prelude.{◌≡◌, ◌<◌, ◌*◌, ◌++◌, IfOk, OnOk, codes, length, string_bytes};
ghost use Rattle.sw_config.specs.Entries.{wiring_of};
ghost use Rattle.sw_changes.specs.MarginTexts.{flows_words, limit_line, loss_line, margin_text, stays_words};

use std::alloc::{AllocError, Global};
use std::fmt::Write;
use sw_config::Network;
use sw_explain::{add_names, ending};
use sw_margin::{FlowLimit, Margins};
use sw_output::{channel_text, flow_name, node_name};
use sw_topo::Chan;

/// Whether the network stays free, in the words that a line begins with.
fn stays_words(stays_free: bool) -> &'static str
    ensures { result.now ≡ stays_words stays_free }
{
    if stays_free { "free if" } else { "not free if" }
}

/// Adds the line of how many commands of a flow may be unanswered.
fn add_limit_line(network: &Network, limit: &FlowLimit, text: &mut String) -> Result<(), AllocError>
    ensures { OnOk result (string_bytes text.new ≡ string_bytes text.old ++ limit_line network.now limit.now) }
{
    let name = flow_name(network, limit.flow);
    match limit.most {
        Some(most) => {
            let ending = ending(most as usize);
            write!(
                text,
                "free with up to {most} unanswered command{ending} of {name}\n"
            )
        }
        None => write!(
            text,
            "free with any number of unanswered commands of {name}\n"
        ),
    }
}

/// Adds the names of flows, or that there is none, and ends the line.
fn add_flows(network: &Network, flows: &[u16], text: &mut String) -> Result<(), AllocError>
    ensures { OnOk result (string_bytes text.new ≡ string_bytes text.old ++ (flows_words network.now flows.now ++ codes "\n")) }
{
    if flows.is_empty() {
        return text.push_str("no flow\n");
    }
    add_names(network, " ", flows, text)?;
    text.push_str("\n")
}

/// Adds the line of the flows that are lost without the link of that number, which is told by its first channel.
fn add_loss_line(
    alloc: Global,
    network: &Network,
    link: usize,
    flows: &[u16],
    text: &mut String,
) -> Result<(), AllocError>
    requires { 2 * link < length (wiring_of network.now).ends }
    ensures { OnOk result (string_bytes text.new ≡ string_bytes text.old ++ loss_line network.now link flows.now) }
{
    // There are at most 2,048.
    let _channels = network.channels();
    let name = channel_text(alloc, network, Chan::new((2 * link) as u16))?;
    write!(text, "lost without the link {name}: ")?;
    add_flows(network, flows, text)
}

/// The lines of a free network: one for each node where nothing that comes may have to wait for a reply, for each flow without a reply, for
/// each flow with a limit of its own, and for each link.
pub(crate) fn margin_text(
    alloc: Global,
    network: &Network,
    told: &Margins,
) -> Result<String, AllocError>
    requires { length told.now.losses.items ≡ length network.now.links }
    ensures { IfOk result (λ s. string_bytes s ≡ margin_text network.now told.now) }
{
    let mut text = String::new(alloc);
    for stall in &told.stalls {
        let words = stays_words(stall.stays_free);
        let name = node_name(network, stall.number);
        write!(text, "{words} {name} stops taking while it wants to send\n")?;
    }
    for answer in &told.answers {
        let words = stays_words(answer.stays_free);
        let name = flow_name(network, answer.number);
        write!(text, "{words} {name} is answered along its own way\n")?;
    }
    for limit in &told.limits {
        add_limit_line(network, limit, &mut text)?;
    }
    // There are at most 2,048.
    let _channels = network.channels();
    for (link, flows) in told.losses.iter().enumerate() {
        add_loss_line(alloc, network, link, flows, &mut text)?;
    }
    Ok(text)
}
