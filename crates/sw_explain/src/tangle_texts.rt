//! The text of tangles.
ghost use Rattle.std.specs.Prelude.{◌≡◌, ◌<◌, ◌++◌, All, IfOk, OnOk, length, string_bytes};
ghost use Rattle.sw_config.specs.Entries.{wiring_of};
ghost use Rattle.sw_search.specs.Explanations.{IsTangled};
ghost use Rattle.sw_explain.specs.ExplainTexts.{counts_text, step_line, tangle_text, tangles_text, IsOfChannels};

use crate::step_texts::{end_step_line, step_parts, wait_text};
use crate::words::ending;
use std::alloc::{AllocError, Global};
use std::fmt::Write;
use sw_config::Network;
use sw_cycle::Cycle;
use sw_output::channel_text;
use sw_search::Tangle;

/// The end of the last line: what the tangles do not hang on, and what they may.
const UNCHANGED: &str =
    " channels; buffers and arbiters do not change this, limits on unanswered commands may\n";

/// Adds the line of that channel of the cycle: the step from it to the next one, by its cause, and the flows that make it.
fn add_step_line(
    alloc: Global,
    network: &Network,
    all: bool,
    cycle: &Cycle,
    flows: &[Vec<u16>],
    i: usize,
    text: &mut String,
) -> Result<(), AllocError>
    requires within { All (λ c. c < length (wiring_of network.now).ends) cycle.now.channels }
    requires caused { length cycle.now.causes ≡ length cycle.now.channels }
    requires made { length flows.now ≡ length cycle.now.channels }
    requires inside { i < length cycle.now.channels }
    ensures { OnOk result (string_bytes text.new ≡ string_bytes text.old ++ step_line network.now all cycle.now flows.now i) }
{
    let number = i + 1;
    let channels = cycle.channels.as_slice();
    let from = channel_text(alloc, network, channels[i])?;
    let next = channels[number % channels.len()];
    let cause = &cycle.causes[i];
    let awaited = wait_text(alloc, network, all, next, cause)?;
    let (before, name, held, wanted) = step_parts(network, cause);
    write!(
        text,
        "{number}. {before}{name}{held}{from}{wanted}{awaited}"
    )?;
    end_step_line(network, &flows[i], all, text)
}

/// Adds the shortest cycle of a tangle.
fn add_tangle(
    alloc: Global,
    network: &Network,
    all: bool,
    tangle: &Tangle,
    text: &mut String,
) -> Result<(), AllocError>
    requires { IsOfChannels network.now tangle.now }
    ensures { OnOk result (string_bytes text.new ≡ string_bytes text.old ++ tangle_text network.now all tangle.now) }
{
    let count = tangle.cycle.channels.len();
    let ending = ending(count);
    write!(text, "shortest cycle: {count} channel{ending}\n")?;
    for i in 0..count {
        add_step_line(alloc, network, all, &tangle.cycle, &tangle.flows, i, text)?;
    }
    Ok(())
}

/// Adds how many channels each tangle has, with a comma between each two.
fn add_counts(tangles: &[Tangle], text: &mut String) -> Result<(), AllocError>
    ensures { OnOk result (string_bytes text.new ≡ string_bytes text.old ++ counts_text tangles.now) }
{
    match tangles {
        [] => Ok(()),
        [first, rest @ ..] => {
            let count = first.channels;
            write!(text, "{count}")?;
            for tangle in rest {
                let count = tangle.channels;
                write!(text, ", {count}")?;
            }
            Ok(())
        }
    }
}

/// The shortest cycle of each tangle, and how many tangles there are.
pub(crate) fn tangles_text(
    alloc: Global,
    network: &Network,
    all: bool,
    tangles: &[Tangle],
) -> Result<String, AllocError>
    requires { IsTangled network.now tangles.now }
    ensures { IfOk result (λ s. string_bytes s ≡ tangles_text network.now all tangles.now) }
{
    // Names the network, which is valid by its type.
    let _topology = network.topology();
    let total = tangles.len();
    let ending = ending(total);
    let mut text = String::new(alloc);
    for tangle in tangles {
        add_tangle(alloc, network, all, tangle, &mut text)?;
    }
    write!(text, "{total} tangle{ending} of ")?;
    add_counts(tangles, &mut text)?;
    text.push_str(UNCHANGED)?;
    Ok(text)
}
