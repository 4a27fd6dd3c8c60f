//! Whether a certificate is one for as many channels and flows as the network has, with places that it can have.
ghost use Rattle.std.specs.Prelude.{◌≡◌};
ghost use Rattle.std.specs.List.{list_all};
ghost use Rattle.sw_cert.specs.Refusals.{is_in_range, is_of_the_network};

use crate::Certificate;
use sw_config::{Flow, Network};
use sw_flow::Place;

fn is_in_range(network: &Network, flow: &Flow, place: &Place) -> bool
    ensures { result ≡ is_in_range network.now flow.now place.now }
{
    place.channel.number() < network.channels() && place.deleted as usize <= flow.address().len()
}

fn are_all_in_range(network: &Network, flow: &Flow, listed: &[Place]) -> bool
    ensures { result ≡ list_all (is_in_range network.now flow.now) listed.now }
{
    for place in listed {
        if !is_in_range(network, flow, place) {
            return false;
        }
    }
    true
}

/// Has it as many numbers as the network has channels, and as many lists as flows, each of places that the network can have?
pub(crate) fn is_of_the_network(network: &Network, certificate: &Certificate) -> bool
    ensures { result ≡ is_of_the_network network.now certificate.now }
{
    let numbers = certificate.numbers().len();
    let channels = network.channels() as usize;
    if numbers != channels {
        return false;
    }
    let lists = certificate.flows();
    let flows = network.flows() as usize;
    if lists != flows {
        return false;
    }
    for number in 0..network.flows() {
        let entry = network.flow(number);
        let listed = certificate.places(number);
        if !are_all_in_range(network, entry, listed) {
            return false;
        }
    }
    true
}
