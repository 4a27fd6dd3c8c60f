//! How a flow is told whose packets can come back to where they were, or of which none arrives.
ghost use Rattle.std.specs.Prelude.{◌≡◌, ◌++◌, ◌∷◌, ◌<◌, [], All, IfOk, List, OnOk, length, map, option_map, string_bytes};
ghost use Rattle.sw_output.specs.ChannelTexts.{channel_text};
ghost use Rattle.sw_config.specs.Entries.{all_flows};
ghost use Rattle.sw_flow.specs.Places.{ends_of};
ghost use Rattle.sw_circles.specs.Circlings.{AreCirclings, CirclingView};
ghost use Rattle.sw_linter.specs.CirclingTexts.{AreCirclingTexts, IsCirclingText, circling_head, circling_text, listed, over, over_words, reach_words};

use crate::texts::end_name;
use std::alloc::{AllocError, Global};
use sw_circles::{Circling, circling_flow, circling_flows};
use sw_config::Network;
use sw_output::{channel_text, flow_name};
use sw_topo::Chan;

/// Adds the channel behind these words.
fn add_channel(
    alloc: Global,
    network: &Network,
    before: &str,
    channel: Chan,
    text: &mut String,
) -> Result<(), AllocError>
    requires { channel < length (ends_of network.now) }
    ensures { IfOk result (λ _. string_bytes text.new ≡ string_bytes text.old ++ (before.now ++ channel_text network.now channel)) }
{
    let channel = channel_text(alloc, network, channel)?;
    write!(text, "{before}{channel}")
}

/// Adds the channels of a circle, the first behind these words.
fn add_circle(
    alloc: Global,
    network: &Network,
    before: &str,
    circle: &[Chan],
    text: &mut String,
) -> Result<(), AllocError>
    requires { All (λ channel. channel < length (ends_of network.now)) circle.now }
    ensures { IfOk result (λ _. string_bytes text.new ≡ string_bytes text.old ++ listed (channel_text network.now) before.now circle.now) }
{
    let [first, rest @ ..] = circle else {
        return Ok(());
    };
    add_channel(alloc, network, before, *first, text)?;
    for channel in rest {
        add_channel(alloc, network, ", ", *channel, text)?;
    }
    Ok(())
}

/// Adds the circles, the first behind these words.
fn add_circles(
    alloc: Global,
    network: &Network,
    before: &str,
    circles: &[Vec<Chan>],
    text: &mut String,
) -> Result<(), AllocError>
    requires { All (λ circle. All (λ channel. channel < length (ends_of network.now)) circle.items) circles.now }
    ensures { IfOk result (λ _. string_bytes text.new ≡ string_bytes text.old ++ over network.now before.now (map (λ circle. circle.items) circles.now)) }
{
    let [first, rest @ ..] = circles else {
        return Ok(());
    };
    add_circle(alloc, network, before, first, text)?;
    for circle in rest {
        add_circle(alloc, network, "; over ", circle, text)?;
    }
    Ok(())
}

fn reach_words(arrives: bool) -> &'static str
    ensures { result.now ≡ reach_words arrives }
{
    if arrives {
        "may never reach"
    } else {
        "never reach"
    }
}

fn over_words(arrives: bool) -> &'static str
    ensures { result.now ≡ over_words arrives }
{
    if arrives {
        ": they can circle over "
    } else {
        ": they circle over "
    }
}

/// What is told of the flow, without its circles.
fn circling_head(
    alloc: Global,
    network: &Network,
    flow: u16,
    arrives: bool,
) -> Result<String, AllocError>
    ensures { IfOk result (λ s. string_bytes s ≡ circling_head network.now flow arrives) }
{
    let name = flow_name(network, flow);
    let reach = reach_words(arrives);
    let end = end_name(network, flow);
    format!(in alloc; "packets of {name} {reach} {end}")
}

/// What is told of the flow, and of its circles.
fn circling_text(
    alloc: Global,
    network: &Network,
    circling: &Circling,
) -> Result<String, AllocError>
    requires { All (λ circle. All (λ channel. channel < length (ends_of network.now)) circle) circling.now.circles }
    ensures { IfOk result (λ s. string_bytes s ≡ circling_text network.now circling.now) }
{
    let over = over_words(circling.arrives);
    let mut text = circling_head(alloc, network, circling.flow, circling.arrives)?;
    add_circles(alloc, network, over, &circling.circles, &mut text)?;
    Ok(text)
}

/// Adds what is told of a flow.
fn add_circling(
    alloc: Global,
    network: &Network,
    circling: &Circling,
    texts: &mut Vec<String>,
) -> Result<(), AllocError>
    requires { All (λ circle. All (λ channel. channel < length (ends_of network.now)) circle) circling.now.circles }
    ensures { OnOk result (map string_bytes texts.new.items ≡ map string_bytes texts.old.items ++ circling_text network.now circling.now ∷ []) }
{
    texts.push(circling_text(alloc, network, circling)?)?;
    Ok(())
}

/// Adds what is told of each flow whose packets can come back to where they were, or of which none arrives.
pub(crate) fn add_circlings(
    alloc: Global,
    network: &Network,
    texts: &mut Vec<String>,
) -> Result<(), AllocError>
    ensures { OnOk result ((told : List CirclingView) × AreCirclings network.now told × (map string_bytes texts.new.items ≡ map string_bytes texts.old.items ++ map (circling_text network.now) told)) }
{
    let told = circling_flows(alloc, network)?;
    for circling in &told {
        add_circling(alloc, network, circling, texts)?;
    }
    Ok(())
}

/// What is told of each flow whose packets can come back to where they were, or of which none arrives: each in a line of its own without LF.
///
/// # Errors
///
/// There is no memory for the texts, or for what finds what they tell.
pub fn circling_texts(alloc: Global, network: &Network) -> Result<Vec<String>, AllocError>
    ensures { IfOk result (λ v. AreCirclingTexts network.now (map string_bytes v.items)) }
{
    let mut texts = Vec::new(alloc);
    add_circlings(alloc, network, &mut texts)?;
    Ok(texts)
}

/// The same of the flow of that number, if there is something to tell of it.
///
/// # Errors
///
/// There is no memory for the text, or for what finds what it tells.
pub fn flow_circling_text(
    alloc: Global,
    network: &Network,
    flow: u16,
) -> Result<Option<String>, AllocError>
    requires { flow < length (all_flows network.now) }
    ensures { IfOk result (λ o. IsCirclingText network.now flow (option_map string_bytes o)) }
{
    match circling_flow(alloc, network, flow)? {
        Some(circling) => Ok(Some(circling_text(alloc, network, &circling)?)),
        None => Ok(None),
    }
}
