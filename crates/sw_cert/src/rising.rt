//! Whether the numbers of a certificate rise along the flows.
ghost use Rattle.std.specs.Prelude.{◌≡◌, ◌<◌, length, slice_index, Some, None, if◌then◌else◌};
ghost use Rattle.sw_config.specs.Entries.{all_flows};
ghost use Rattle.sw_config.specs.Valid.{IsFlow};
ghost use Rattle.sw_cert.specs.Least.{lesser};
ghost use Rattle.sw_cert.specs.Refusals.{is_not_above, not_rising_along, not_rising_from};
ghost use Rattle.sw_cert.specs.Numbered.{refusal_at};

use crate::Certificate;
use crate::refusal::Refusal;
use sw_config::{Flow, Network};
use sw_flow::{Place, followers_in};
use sw_topo::Chan;

/// The lesser of two numbers, of those that are there.
pub(crate) fn lesser(a: Option<u16>, b: Option<u16>) -> Option<u16>
    ensures { result ≡ lesser a b }
{
    match (a, b) {
        (None, other) => other,
        (Some(x), None) => Some(x),
        (Some(x), Some(y)) => Some(x.min(y)),
    }
}

/// The number that a certificate with these numbers gives the channel; 0 where it gives none.
pub fn number_of(numbers: &[u16], channel: Chan) -> u16
    ensures { result ≡ slice_index numbers.now channel }
{
    match numbers.get(channel.number() as usize) {
        Some(number) => *number,
        None => 0,
    }
}

/// Is the number of the next channel not above that of the first?
pub(crate) fn is_not_above(numbers: &[u16], channel: Chan, next: Chan) -> bool
    ensures { result ≡ is_not_above numbers.now channel next }
{
    number_of(numbers, next) <= number_of(numbers, channel)
}

/// The next channel, if its number is not above that of the first.
fn if_not_above(numbers: &[u16], channel: Chan, next: Chan) -> Option<u16>
    ensures { result ≡ (if is_not_above numbers.now channel next then Some next else None) }
{
    if is_not_above(numbers, channel, next) {
        Some(next.number())
    } else {
        None
    }
}

fn not_rising_from(
    network: &Network,
    numbers: &[u16],
    flow: &Flow,
    place: &Place,
) -> Option<Refusal>
    requires { IsFlow network.now.nodes flow.now }
    ensures { result ≡ not_rising_from network.now numbers.now flow.now place.now }
{
    let channel = place.channel;
    let mut found = None;
    for next in followers_in(network, flow, *place) {
        found = lesser(found, if_not_above(numbers, channel, next.channel));
    }
    match found {
        Some(next) => Some(Refusal::NotRising(channel, Chan::new(next))),
        None => None,
    }
}

/// The first refusal for numbers that do not rise along the flow of that number.
pub(crate) fn rising_refusal(
    network: &Network,
    certificate: &Certificate,
    number: u16,
) -> Option<Refusal>
    requires inside { number < length (all_flows network.now) }
    requires lists { length certificate.now.places ≡ length (all_flows network.now) }
    ensures { result ≡ refusal_at (not_rising_along network.now certificate.now.numbers) (all_flows network.now) certificate.now.places number }
{
    let flow = network.flow(number);
    let numbers = certificate.numbers();
    for place in certificate.places(number) {
        if let Some(refusal) = not_rising_from(network, numbers, flow, place) {
            return Some(refusal);
        }
    }
    None
}
