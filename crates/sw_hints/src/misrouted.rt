//! The way of a packet to where it goes wrong, and what to change there.
use crate::digits::Digits;
use crate::teller::{Teller, Text};
use std::alloc::AllocError;
use sw_config::Flow;
use sw_explain::fault_words;
use sw_flow::{Place, RouteFault, way_to};
use sw_output::{linked_ports, node_name, switch_name};
use sw_topo::PlaceEnd;

impl Teller<'_> {
    /// What happens at the place, and at which node or switch.
    pub(crate) fn fault_text(self, place: &Place, fault: RouteFault) -> Text {
        let name = match self.end(place.channel) {
            Some(PlaceEnd::Node(node)) => node_name(self.network, node),
            Some(PlaceEnd::Switch(switch, _)) => switch_name(self.network, switch),
            None => "",
        };
        format!(in self.alloc; "{name}: {}", fault_words(fault))
    }

    /// The switch that the node's link leads to, if it leads to one.
    fn switch_of(self, node: u16) -> Option<u16> {
        if node >= self.network.nodes() {
            return None;
        }
        match self.end(self.network.topology().out(node)) {
            Some(PlaceEnd::Switch(switch, _)) => Some(switch),
            _ => None,
        }
    }
}

/// The address bytes that a packet of the flow still has at the place.
fn left_at<'a>(flow: &'a Flow, place: &Place) -> &'a [u8] {
    let bytes = flow.address();
    &bytes[(place.deleted as usize).min(bytes.len())..]
}

/// A flow that is not well routed, and how its bytes are told.
#[derive(Clone, Copy)]
pub(crate) struct Misrouted<'a> {
    pub(crate) teller: Teller<'a>,
    pub(crate) digits: Digits,
    /// The flow, and its number.
    pub(crate) flow: &'a Flow,
    pub(crate) number: u16,
}

impl<'a> Misrouted<'a> {
    fn is_declared(self) -> bool {
        self.number < self.teller.network.declared_flows()
    }

    /// What the file calls the flow's address.
    fn address_name(self) -> &'static str {
        if self.is_declared() {
            "'address'"
        } else {
            "the reply's 'path'"
        }
    }

    /// A place on the way, with the address bytes that a packet still has there.
    fn way_line(self, number: usize, place: &Place) -> Text {
        let alloc = self.teller.alloc;
        let channel = self.teller.channel(Some(place.channel))?;
        let left = self.digits.bytes(alloc, left_at(self.flow, place))?;
        if left.is_empty() {
            return format!(in alloc; "  {number}. {channel}, no address byte left\n");
        }
        format!(in alloc; "  {number}. {channel}, address bytes left:{left}\n")
    }

    /// A line for each place that packets go over on their way to this one, which is the last; none
    /// where it is no place of the flow.
    pub(crate) fn way(self, place: &Place) -> Result<Vec<String>, AllocError> {
        let Teller { alloc, network } = self.teller;
        let mut lines = Vec::new(alloc);
        if self.number >= network.flows() {
            return Ok(lines);
        }
        let way = way_to(alloc, network, self.number, *place)?;
        for (before, place) in way.unwrap_or(Vec::new(alloc)).iter().enumerate() {
            lines.push(self.way_line(before + 1, place)?)?;
        }
        Ok(lines)
    }

    /// What to change of this byte, the first that is left at the place, for which a switch knows
    /// no way on.
    fn byte_change(self, place: &Place, byte: u8) -> Text {
        let alloc = self.teller.alloc;
        let (address, number) = (self.address_name(), (place.deleted as usize) + 1);
        let told = self.digits.byte(alloc, byte)?;
        match byte {
            255 => format!(in alloc;
                "change byte {number} of {address}, which is {told} and names no port"
            ),
            0..=31 => format!(in alloc; "change byte {number} of {address}, which is {told}"),
            _ => format!(in alloc;
                "a 'route' entry for address {told} has to name a port with a link"
            ),
        }
    }

    /// What to change where a switch knows no way on for the next byte, or where no byte is left,
    /// and where a packet can go on to from there.
    fn switch_change(self, place: &Place, switch: u16) -> Text {
        let Teller { alloc, network } = self.teller;
        if switch >= network.switches() {
            return self.teller.text("");
        }
        let change = match left_at(self.flow, place).first() {
            None => format!(in alloc; "add a byte to {}", self.address_name()),
            Some(byte) => self.byte_change(place, *byte),
        }?;
        let name = switch_name(network, switch);
        let ports = self.teller.numbers(&linked_ports(alloc, network, switch)?)?;
        format!(in alloc; "{change}; {name} has links at ports{ports}")
    }

    /// That the links of the node that is reached, and of the one that is to be, may be swapped,
    /// where both are at one switch.
    fn swapped_links(self, reached: u16) -> Text {
        let Teller { alloc, network } = self.teller;
        let ends = (
            self.teller.switch_of(reached),
            self.teller.switch_of(self.flow.to()),
        );
        match ends {
            (Some(switch), Some(other)) if switch == other => {
                let (name, end) = (
                    node_name(network, reached),
                    node_name(network, self.flow.to()),
                );
                let switch = switch_name(network, switch);
                format!(in alloc; "; maybe the links of {name} and {end} at {switch} are swapped")
            }
            _ => self.teller.text(""),
        }
    }

    /// The first declared flow from the same node that goes to this one.
    fn other_flow_to(self, node: u16) -> Option<&'a Flow> {
        for number in 0..self.teller.network.declared_flows() {
            if let Some(other) = self.teller.flow(number)
                && other.from() == self.flow.from()
                && other.to() == node
            {
                return Some(other);
            }
        }
        None
    }

    /// That the addresses of this flow and of another one may be swapped, where one goes to the
    /// node that is reached.
    fn swapped_addresses(self, reached: u16) -> Text {
        match self.other_flow_to(reached) {
            Some(other) if self.is_declared() => format!(in self.teller.alloc;
                "; maybe the addresses of the flows {} and {} are swapped",
                self.flow.name(),
                other.name()
            ),
            _ => self.teller.text(""),
        }
    }

    /// What to change where another node is reached.
    fn node_change(self, node: u16) -> Text {
        let Teller { alloc, network } = self.teller;
        let reached = node_name(network, node);
        let end = node_name(network, self.flow.to());
        let change = if self.is_declared() {
            format!(in alloc;
                "change 'address' so that it leads to {end}, or write to = \"{reached}\""
            )
        } else {
            format!(in alloc; "change the reply's 'path' so that it leads to {end}")
        }?;
        let links = self.swapped_links(node)?;
        let addresses = self.swapped_addresses(node)?;
        format!(in alloc; "{change}{links}{addresses}")
    }

    /// What to change where the node is reached with so many bytes left, and they are not as many
    /// as they have to be.
    fn left_change(self, left: usize) -> Text {
        let alloc = self.teller.alloc;
        if self.is_declared() {
            return format!(in alloc; "write left = {left}, or change 'address'");
        }
        format!(in alloc;
            "change the reply's 'path' so that only the initiator is left, not {left} bytes"
        )
    }

    /// What to change, where packets of the flow go wrong at this place.
    pub(crate) fn change(self, place: &Place, fault: RouteFault) -> Text {
        match (fault, self.teller.end(place.channel)) {
            (RouteFault::AddressEnds | RouteFault::NoRoute, Some(PlaceEnd::Switch(switch, _))) =>
                self.switch_change(place, switch),
            (RouteFault::WrongNode, Some(PlaceEnd::Node(node))) => self.node_change(node),
            (RouteFault::WrongLeft, _) => self.left_change(left_at(self.flow, place).len()),
            _ => self.teller.text(""),
        }
    }
}
