//! Logical addresses that are probably slips.
ghost use Rattle.std.specs.Prelude.{◌≡◌, ◌<◌, length};
ghost use Rattle.std.specs.Option.{option_to_list};
ghost use Rattle.sw_config.specs.Valid.{IsFlow};
ghost use Rattle.sw_linter.specs.Lints.{address_to, is_stranger, left_byte, other_initiator, two_initiators, wrong_initiator, wrong_target};
ghost use Rattle.sw_linter.specs.Marks.{address_lint};

use crate::lint::Lint;
use sw_config::{Flow, Network};

/// The initiator logical address of a node that has none of its own (ECSS-E-ST-50-52C, the fields of a command).
const NO_OWN_ADDRESS: u8 = 254;

/// What is looked for in the logical addresses of flows.
#[derive(Clone, Copy)]
pub(crate) enum AddressSlip {
    /// Packets come to a target with an address that isn't its own.
    Target,
    /// Replies go to an address that their node is not known to have.
    Initiator,
    /// Two flows between the same two nodes have two initiator addresses.
    Initiators,
}

/// The first of the address bytes that are left where packets of the flow end.
fn left_byte(flow: &Flow) -> Option<u8>
    ensures { result ≡ left_byte flow.now }
{
    let left = usize::from(flow.left());
    if left == 0 {
        return None;
    }
    let address = flow.address();
    match address.get(address.len().saturating_sub(left)) {
        Some(byte) => Some(*byte),
        None => None,
    }
}

/// The flow, if packets come to its target with another address than the target's.
fn wrong_target(network: &Network, number: u16, flow: &Flow) -> Option<Lint>
    requires { IsFlow network.now.nodes flow.now }
    ensures { result ≡ wrong_target network.now number flow.now }
{
    let address = left_byte(flow)?;
    let logical = network.target(flow.to())?.logical;
    if address == logical {
        return None;
    }
    Some(Lint::WrongTarget {
        flow: number,
        address,
        logical,
    })
}

/// The address with which packets of the flow come to the node, if they do.
fn address_to(flow: &Flow, node: u16) -> Option<u8>
    ensures { result ≡ address_to node flow.now }
{
    if flow.to() == node {
        left_byte(flow)
    } else {
        None
    }
}

/// Is the node known to have addresses, and not this one?
fn is_stranger(network: &Network, node: u16, address: u8) -> bool
    requires { node < length network.now.nodes }
    ensures { result ≡ is_stranger network.now node address }
{
    let mut is_known = false;
    if let Some(target) = network.target(node) {
        if target.logical == address {
            return false;
        }
        is_known = true;
    }
    for number in 0..network.declared_flows() {
        let _flows = network.flows();
        if let Some(own) = address_to(network.flow(number), node) {
            if own == address {
                return false;
            }
            is_known = true;
        }
    }
    is_known
}

/// The flow, if its replies go to an address that their node is not known to have.
fn wrong_initiator(network: &Network, number: u16, flow: &Flow) -> Option<Lint>
    requires { IsFlow network.now.nodes flow.now }
    ensures { result ≡ wrong_initiator network.now number flow.now }
{
    let initiator = flow.reply()?.initiator();
    if initiator == NO_OWN_ADDRESS || !is_stranger(network, flow.from(), initiator) {
        return None;
    }
    Some(Lint::WrongInitiator {
        flow: number,
        initiator,
    })
}

/// The initiator address of the flow, if it goes between the same two nodes as the other one, whose initiator address is another.
fn other_initiator(flow: &Flow, other: &Flow, initiator: u8) -> Option<u8>
    ensures { result ≡ other_initiator other.now initiator flow.now }
{
    let own = flow.reply()?.initiator();
    if flow.from() == other.from() && flow.to() == other.to() && own != initiator {
        Some(own)
    } else {
        None
    }
}

/// The flow, and the first one before it between the same two nodes that has another initiator address.
fn two_initiators(network: &Network, number: u16, flow: &Flow) -> Option<Lint>
    requires { number < length network.now.flows }
    ensures { result ≡ two_initiators network.now number flow.now }
{
    let initiator = flow.reply()?.initiator();
    for earlier in 0..number {
        let _flows = network.flows();
        if let Some(one) = other_initiator(network.flow(earlier), flow, initiator) {
            return Some(Lint::TwoInitiators {
                earlier,
                flow: number,
                one,
                other: initiator,
            });
        }
    }
    None
}

/// What is told of the flow of that number.
pub(crate) fn address_lint(network: &Network, slip: AddressSlip, number: u16) -> Option<Lint>
    requires { number < length network.now.flows }
    ensures { option_to_list result ≡ address_lint network.now slip number }
{
    let _flows = network.flows();
    let flow = network.flow(number);
    match slip {
        AddressSlip::Target => wrong_target(network, number, flow),
        AddressSlip::Initiator => wrong_initiator(network, number, flow),
        AddressSlip::Initiators => two_initiators(network, number, flow),
    }
}
