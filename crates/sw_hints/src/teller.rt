//! What is told of a network.
use std::alloc::{AllocError, Global};
use std::fmt::Write;
use sw_config::{Flow, Network};
use sw_faults::meant_help;
use sw_output::{channel_text, flow_name, node_name};
use sw_topo::{Chan, PlaceEnd};

/// A text, or that there is no memory for it.
pub(crate) type Text = Result<String, AllocError>;

/// Tells of a network. What it has no flow, no node or no channel for is an empty text.
#[derive(Clone, Copy)]
pub(crate) struct Teller<'a> {
    pub(crate) alloc: Global,
    pub(crate) network: &'a Network,
}

impl<'a> Teller<'a> {
    /// These words.
    pub(crate) fn text(self, words: &str) -> Text {
        String::from_str(self.alloc, words)
    }

    /// The numbers, each behind a space.
    pub(crate) fn numbers(self, numbers: &[u8]) -> Text {
        let mut text = String::new(self.alloc);
        for number in numbers {
            write!(text, " {number}")?;
        }
        Ok(text)
    }

    /// The flow of that number, if the network has one.
    pub(crate) fn flow(self, number: u16) -> Option<&'a Flow> {
        if number >= self.network.flows() {
            return None;
        }
        Some(self.network.flow(number))
    }

    /// Is there a flow of that number, and is it limited in its unanswered commands?
    pub(crate) fn is_limited(self, flow: u16) -> bool {
        flow < self.network.flows() && self.network.is_limited(flow)
    }

    /// The node or the port of a switch that the channel leads to, if the network has such a
    /// channel.
    pub(crate) fn end(self, channel: Chan) -> Option<PlaceEnd> {
        let topology = self.network.topology();
        if channel.number() >= topology.channels() {
            return None;
        }
        Some(topology.end_of(channel))
    }

    /// The channel as `START>END`.
    pub(crate) fn channel(self, channel: Option<Chan>) -> Text {
        match channel {
            Some(channel) if channel.number() < self.network.channels() => {
                channel_text(self.alloc, self.network, channel)
            }
            _ => self.text(""),
        }
    }

    /// Which node may be meant.
    pub(crate) fn meant_node(self, name: &str) -> Text {
        let mut names = Vec::new(self.alloc);
        for node in 0..self.network.nodes() {
            names.push(node_name(self.network, node))?;
        }
        meant_help(self.alloc, name, &names)
    }

    /// Which of so many flows, the first ones, may be meant.
    pub(crate) fn meant_flow(self, name: &str, flows: u16) -> Text {
        let mut names = Vec::new(self.alloc);
        for flow in 0..flows {
            names.push(flow_name(self.network, flow))?;
        }
        meant_help(self.alloc, name, &names)
    }
}
