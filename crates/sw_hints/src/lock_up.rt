//! The hint of a network that is locked up.
use crate::teller::{Teller, Text};
use std::alloc::{AllocError, Global};
use sw_char::NChar;
use sw_config::Network;
use sw_faults::Hint;
use sw_output::node_name;
use sw_schedule::{CellId, Input, NodePart, Part, PortPart, cells};
use sw_topo::{Chan, Port};

/// The most lines that are told.
const MOST_LINES: usize = 40;

impl Teller<'_> {
    /// The channel that starts at the port of the switch, if it has a link.
    fn channel_from(self, switch: u16, port: Port) -> Option<Chan> {
        if switch >= self.network.switches() {
            return None;
        }
        self.network.topology().out_of(switch, port)
    }

    /// The channel that ends there.
    fn input(self, switch: u16, port: Port) -> Text {
        match self.channel_from(switch, port) {
            Some(channel) => self.channel(Some(channel.partner())),
            None => self.text(""),
        }
    }

    /// The channels that a leading byte names at the switch, with "or" between each two.
    fn named_outputs(self, switch: u16, byte: u8) -> Text {
        let mut text = String::new(self.alloc);
        if switch >= self.network.switches() {
            return Ok(text);
        }
        for port in self.network.look(switch, byte).ports.ports() {
            let output = self.channel(self.channel_from(switch, port))?;
            if !text.is_empty() && !output.is_empty() {
                text.push_str(" or ")?;
            }
            text.push_str(output.as_str())?;
        }
        Ok(text)
    }

    /// The line of a node that is a target which takes nothing, if it is: it owes as many replies
    /// as it has slots.
    fn target_line(self, node: u16, part: &NodePart) -> Text {
        if node >= self.network.nodes() {
            return self.text("");
        }
        match self.network.target(node) {
            Some(target) if part.owed == target.slots => {
                let name = node_name(self.network, node);
                let owed = part.owed;
                let replies = if owed == 1 { "reply" } else { "replies" };
                format!(in self.alloc;
                    "  {name} owes {owed} {replies} and takes nothing until one has left\n"
                )
            }
            _ => self.text(""),
        }
    }

    /// The line of a node that has characters to send and no credit, if so.
    fn sender_line(self, node: u16, part: &NodePart) -> Text {
        if part.to_send.is_empty() || part.credit > 0 || node >= self.network.nodes() {
            return self.text("");
        }
        let name = node_name(self.network, node);
        let output = self.channel(Some(self.network.topology().out(node)))?;
        format!(in self.alloc; "  {name} sends a packet on {output}, which has no credit\n")
    }

    /// The line of an input of the switch, one of the ports with these parts, which holds an output
    /// or waits for some, if it does.
    fn input_line(self, switch: u16, parts: &[PortPart], part: &PortPart) -> Text {
        let input = self.input(switch, part.port)?;
        if let Input::Held(held) = part.input {
            let output = self.channel(self.channel_from(switch, held))?;
            let lacks = parts
                .iter()
                .any(|other| other.port == held && other.credit == 0);
            let words = if lacks { ", which has no credit" } else { "" };
            return format!(in self.alloc; "  a packet from {input} holds {output}{words}\n");
        }
        match (part.input, part.buffer.first()) {
            (Input::Idle, Some(NChar::Data(byte))) => {
                let outputs = self.named_outputs(switch, *byte)?;
                if outputs.is_empty() {
                    return Ok(outputs);
                }
                format!(in self.alloc; "  a packet from {input} waits for {outputs}\n")
            }
            _ => self.text(""),
        }
    }

    /// The lines of what holds the network up, and then of the nodes that can't send on.
    fn lines(self, parts: &[Part]) -> Result<Vec<String>, AllocError> {
        let cells = cells(self.alloc, self.network)?;
        let mut lines = Vec::new(self.alloc);
        for (cell, part) in cells.iter().zip(parts) {
            match (*cell, part) {
                (CellId::Node(node), Part::Node(part)) => lines.push(self.target_line(
                    node, part,
                )?)?,
                (CellId::Switch(switch), Part::Switch(parts)) => {
                    for part in parts {
                        lines.push(self.input_line(switch, parts, part)?)?;
                    }
                }
                _ => {}
            }
        }
        for (cell, part) in cells.iter().zip(parts) {
            if let (CellId::Node(node), Part::Node(part)) = (*cell, part) {
                lines.push(self.sender_line(node, part)?)?;
            }
        }
        lines.retain(|line| !line.is_empty());
        let more = lines.len().saturating_sub(MOST_LINES);
        if more > 0 {
            lines.truncate(MOST_LINES);
            lines.push(format!(in self.alloc; "  and {more} more\n")?)?;
        }
        Ok(lines)
    }
}

/// The hint of a network that is locked up, by its parts in the order of `sw_schedule::cells`:
/// which nodes and packets hold which channels, and for which they wait.
///
/// # Errors
///
/// There is no memory for the hint.
pub fn lock_up_hint(alloc: Global, network: &Network, parts: &[Part]) -> Result<Hint, AllocError> {
    let teller = Teller { alloc, network };
    let what = teller.text("the network is locked up")?;
    Ok(Hint {
        steps: teller.lines(parts)?,
        ..Hint::new(alloc, what)
    })
}
