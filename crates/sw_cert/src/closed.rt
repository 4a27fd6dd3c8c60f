//! Whether the listed places hold each flow's start and what follows them, without fault.
ghost use Rattle.std.specs.Prelude.{◌≡◌, ◌<◌, ◌&&◌, length};
ghost use Rattle.std.specs.List.{list_all};
ghost use Rattle.sw_config.specs.Entries.{all_flows};
ghost use Rattle.sw_config.specs.Valid.{IsFlow};
ghost use Rattle.sw_cert.specs.Grammar.{IsBlock};
ghost use Rattle.sw_cert.specs.Refusals.{is_listed, refusal_of_flow, refusal_of_place};
ghost use Rattle.sw_cert.specs.Numbered.{refusal_at};

use crate::Certificate;
use crate::listed::is_listed;
use crate::refusal::Refusal;
use sw_config::{Flow, Network};
use sw_flow::{Followers, Place, fault_in, flow_start, followers_in};

/// Are the first of the places that follow, and the rest of them, listed?
fn is_closed(listed: &[Place], next: &mut usize, first: &Place, rest: Followers<'_>) -> bool
    requires { IsBlock listed.now }
    ensures { result ≡ (is_listed listed.now first.now && list_all (is_listed listed.now) rest.entry) }
{
    if !is_listed(listed, next, first) {
        return false;
    }
    for place in rest {
        if !is_listed(listed, next, &place) {
            return false;
        }
    }
    true
}

fn refusal_of_place(
    network: &Network,
    number: u16,
    flow: &Flow,
    listed: &[Place],
    next: &mut usize,
    place: &Place,
) -> Option<Refusal>
    requires block { IsBlock listed.now }
    requires flow { IsFlow network.now.nodes flow.now }
    ensures { result ≡ refusal_of_place network.now number flow.now listed.now place.now }
{
    let mut followers = followers_in(network, flow, *place);
    match followers.next() {
        None => match fault_in(network, flow, *place) {
            Some(fault) => Some(Refusal::Faulty(number, *place, fault)),
            None => None,
        },
        Some(first) => {
            if is_closed(listed, next, &first, followers) {
                None
            } else {
                Some(Refusal::NotClosed(number, *place))
            }
        }
    }
}

/// The first refusal of the flow of that number, for its start, a faulty place, or a place that follows and is not listed.
pub(crate) fn closed_refusal(
    network: &Network,
    certificate: &Certificate,
    number: u16,
) -> Option<Refusal>
    requires inside { number < length (all_flows network.now) }
    requires lists { length certificate.now.places ≡ length (all_flows network.now) }
    ensures { result ≡ refusal_at (refusal_of_flow network.now) (all_flows network.now) certificate.now.places number }
{
    let flow = network.flow(number);
    let listed = certificate.places(number);
    if !is_listed(listed, &mut 0, &flow_start(network, flow)) {
        return Some(Refusal::NoStart(number));
    }
    let mut next = 0;
    for place in listed {
        if let Some(refusal) = refusal_of_place(network, number, flow, listed, &mut next, place) {
            return Some(refusal);
        }
    }
    None
}
