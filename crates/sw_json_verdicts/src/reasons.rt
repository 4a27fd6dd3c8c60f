//! Reasons to refuse a certificate, in their parts.
ghost use Rattle.std.specs.Prelude.{◌≡◌, option_map};
ghost use Rattle.sw_json_verdicts.specs.CheckResults.{bare_reason, grammar_reason, placed_reason, reason_of};
ghost use Rattle.sw_json_verdicts.specs.Reasons.{reason_parts_view};

use sw_cert::Refusal;
use sw_config::Network;
use sw_flow::Place;
use sw_json::route_fault_code;
use sw_output::flow_name;

/// A reason: its code, the wrong line, the flow, a channel of it and how many address bytes are deleted there, the channel that
/// depends on that one, and the code of the place's fault.
#[derive(Clone, Copy)]
pub(crate) struct ReasonParts<'a> {
    pub(crate) channel: Option<u64>,
    pub(crate) code: &'static str,
    pub(crate) deleted: Option<u64>,
    pub(crate) fault: Option<&'static str>,
    pub(crate) flow: Option<&'a str>,
    pub(crate) line: Option<u64>,
    pub(crate) next: Option<u64>,
}

/// A reason with its code alone.
fn bare_reason<'a>(code: &'static str) -> ReasonParts<'a>
    ensures { reason_parts_view result ≡ bare_reason code.now }
{
    ReasonParts {
        channel: None,
        code,
        deleted: None,
        fault: None,
        flow: None,
        line: None,
        next: None,
    }
}

/// The reason against a text that is no certificate, by its first wrong line.
pub(crate) fn grammar_parts<'a>(number: usize) -> ReasonParts<'a>
    ensures { reason_parts_view result ≡ grammar_reason number }
{
    ReasonParts {
        line: Some(number as u64),
        ..bare_reason("C1")
    }
}

/// A reason with this code at a place of a flow.
fn placed_reason<'a>(
    network: &'a Network,
    code: &'static str,
    flow: u16,
    place: Place,
    fault: Option<&'static str>,
) -> ReasonParts<'a>
    ensures { reason_parts_view result ≡ placed_reason network.entry.now code.now flow place (option_map (λ s. s.now) fault.entry) }
{
    ReasonParts {
        channel: Some(u64::from(place.channel.number())),
        deleted: Some(u64::from(place.deleted)),
        fault,
        flow: Some(flow_name(network, flow)),
        ..bare_reason(code)
    }
}

/// The parts of a reason to refuse a certificate for the network.
pub(crate) fn parts_of<'a>(network: &'a Network, refusal: &Refusal) -> ReasonParts<'a>
    ensures { reason_parts_view result ≡ reason_of network.entry.now refusal.now }
{
    match refusal {
        Refusal::WrongCount => bare_reason("C2"),
        Refusal::NoStart(flow) => ReasonParts {
            flow: Some(flow_name(network, *flow)),
            ..bare_reason("C3")
        },
        Refusal::NotClosed(flow, place) => placed_reason(network, "C4", *flow, *place, None),
        Refusal::NotRising(channel, next) => ReasonParts {
            channel: Some(u64::from(channel.number())),
            next: Some(u64::from(next.number())),
            ..bare_reason("C5")
        },
        Refusal::Faulty(flow, place, fault) => {
            placed_reason(network, "C6", *flow, *place, Some(route_fault_code(*fault)))
        }
    }
}
