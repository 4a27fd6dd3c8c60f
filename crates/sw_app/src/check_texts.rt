//! The texts of `check`.
ghost use Rattle.std.specs.Prelude.{◌≡◌, ◌∷◌, [], IfOk, string_bytes};
ghost use Rattle.sw_output.specs.Lines.{line};
ghost use Rattle.sw_app.specs.CheckTexts.{grammar_line, grammar_words, not_rising_words, refusal_line, refusal_words};

use std::alloc::{AllocError, Global};
use sw_cert::Refusal;
use sw_config::Network;
use sw_flow::{Place, RouteFault};
use sw_output::{flow_name, place_words, route_fault_text};
use sw_topo::Chan;

/// What is told of a text that is no certificate: the first line that is wrong, counted from 1.
///
/// # Errors
///
/// There is no memory for the text.
pub fn grammar_words(alloc: Global, number: usize) -> Result<String, AllocError>
    ensures { IfOk result (λ s. string_bytes s ≡ grammar_words number) }
{
    format!(in alloc; "refused C1 Grammar {number}")
}

fn no_start_words(alloc: Global, network: &Network, flow: u16) -> Result<String, AllocError>
    ensures { IfOk result (λ s. string_bytes s ≡ refusal_words network.now (Refusal.NoStart flow)) }
{
    let name = flow_name(network, flow);
    format!(in alloc; "refused C3 NoStart {name}")
}

fn not_closed_words(
    alloc: Global,
    network: &Network,
    flow: u16,
    place: Place,
) -> Result<String, AllocError>
    ensures { IfOk result (λ s. string_bytes s ≡ refusal_words network.now (Refusal.NotClosed flow place)) }
{
    let place = place_words(alloc, network, flow, place)?;
    format!(in alloc; "refused C4 NotClosed {place}")
}

fn not_rising_words(alloc: Global, channel: Chan, next: Chan) -> Result<String, AllocError>
    ensures { IfOk result (λ s. string_bytes s ≡ not_rising_words channel next) }
{
    let channel = channel.number();
    let next = next.number();
    format!(in alloc; "refused C5 NotRising {channel} {next}")
}

fn faulty_words(
    alloc: Global,
    network: &Network,
    flow: u16,
    place: Place,
    fault: RouteFault,
) -> Result<String, AllocError>
    ensures { IfOk result (λ s. string_bytes s ≡ refusal_words network.now (Refusal.Faulty flow place fault)) }
{
    let place = place_words(alloc, network, flow, place)?;
    let fault = route_fault_text(fault);
    format!(in alloc; "refused C6 {fault} {place}")
}

/// What is told of a certificate that is refused for the network.
///
/// # Errors
///
/// There is no memory for the text.
pub fn refusal_words(
    alloc: Global,
    network: &Network,
    refusal: Refusal,
) -> Result<String, AllocError>
    ensures { IfOk result (λ s. string_bytes s ≡ refusal_words network.now refusal) }
{
    match refusal {
        Refusal::WrongCount => String::from_str(alloc, "refused C2 WrongCount"),
        Refusal::NoStart(flow) => no_start_words(alloc, network, flow),
        Refusal::NotClosed(flow, place) => not_closed_words(alloc, network, flow, place),
        Refusal::NotRising(channel, next) => not_rising_words(alloc, channel, next),
        Refusal::Faulty(flow, place, fault) => faulty_words(alloc, network, flow, place, fault),
    }
}

/// The words with the end of a line.
fn line_of(words: String) -> Result<String, AllocError>
    ensures { IfOk result (λ s. string_bytes s ≡ line (string_bytes words ∷ [])) }
{
    let mut text = words;
    text.push_str("\n")?;
    Ok(text)
}

/// The line of a text that is no certificate, by its first wrong line.
pub(crate) fn grammar_line(alloc: Global, number: usize) -> Result<String, AllocError>
    ensures { IfOk result (λ s. string_bytes s ≡ grammar_line number) }
{
    line_of(grammar_words(alloc, number)?)
}

/// The line of a certificate that is refused for the network.
pub(crate) fn refusal_line(
    alloc: Global,
    network: &Network,
    refusal: Refusal,
) -> Result<String, AllocError>
    ensures { IfOk result (λ s. string_bytes s ≡ refusal_line network.now refusal) }
{
    line_of(refusal_words(alloc, network, refusal)?)
}
