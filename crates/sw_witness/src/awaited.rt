//! Commands of limited flows for whose replies their initiators wait.

use std::alloc::{AllocError, Global};
use sw_char::Packet;
use sw_config::Network;
use sw_rmap::{Instruction, PROTOCOL};

/// A command that was begun, and no reply to which was seen so far.
#[derive(Clone, Copy)]
struct Command {
    flow: u16,
    node: u16,
    // Its transaction identifier, if no other command has it.
    identifier: Option<u16>,
}

/// The commands of limited flows whose replies have not come out where they were begun, as far as was looked. An initiator keeps its limits so:
/// it begins no command of a flow before fewer of that flow, and of the node, wait for their replies than may be unanswered.
#[derive(Drop)]
pub(crate) struct Awaited {
    commands: Vec<Command>,
    begun: u16,
}

/// Is the count below the limit, if there is one?
fn is_below(count: usize, limit: Option<u16>) -> bool {
    match limit {
        Some(limit) => count < usize::from(limit),
        None => true,
    }
}

/// The transaction identifier of a packet that came out where the flow of its command begins, if it is a reply (ECSS-E-ST-50-52C, the
/// fields of a reply): behind the initiator's address.
fn transaction_of_reply(packet: &Packet) -> Option<u16> {
    let [_, protocol, instruction, _, _, high, low, ..] = packet.bytes.as_slice() else {
        return None;
    };
    if *protocol != PROTOCOL || Instruction::from_byte(*instruction).is_command() {
        return None;
    }
    Some(u16::from_be_bytes([*high, *low]))
}

impl Command {
    /// Is one of the packets the reply to it?
    fn is_replied_by(self, packets: &[Packet]) -> bool {
        self.identifier.is_some()
            && packets.iter().any(|packet: &Packet| -> bool {
                transaction_of_reply(packet) == self.identifier
            })
    }
}

impl Awaited {
    /// No commands.
    pub(crate) fn new(alloc: Global) -> Awaited {
        Awaited {
            commands: Vec::new(alloc),
            begun: 0,
        }
    }

    /// May one more packet of the flow be begun?
    pub(crate) fn allows(&self, network: &Network, flow: u16) -> bool {
        if flow >= network.flows() || !network.is_limited(flow) {
            return true;
        }
        let entry = network.flow(flow);
        let Some(reply) = entry.reply() else {
            return true;
        };
        let node = entry.from();
        if node >= network.nodes() {
            return true;
        }
        let mut of_flow = 0usize;
        let mut of_node = 0usize;
        for command in &self.commands {
            of_flow = of_flow.saturating_add(usize::from(command.flow == flow));
            of_node = of_node.saturating_add(usize::from(command.node == node));
        }
        is_below(of_flow, reply.outstanding()) && is_below(of_node, network.outstanding(node))
    }

    /// A transaction identifier that no command has so far; none where there is none.
    pub(crate) fn identifier(&self) -> Option<u16> {
        self.begun.checked_add(1)
    }

    /// Adds a packet of the flow, if that is limited, with the identifier, if that is in it.
    pub(crate) fn add(
        &mut self,
        network: &Network,
        flow: u16,
        identifier: Option<u16>,
    ) -> Result<(), AllocError> {
        if flow >= network.flows() || !network.is_limited(flow) {
            return Ok(());
        }
        self.begun = self.begun.saturating_add(1);
        let node = network.flow(flow).from();
        self.commands.push(Command {
            flow,
            node,
            identifier,
        })?;
        Ok(())
    }

    /// Takes away those of the node that are replied by the packets, which came out there.
    pub(crate) fn take_replied(&mut self, node: u16, packets: &[Packet]) {
        self.commands.retain(|command: &Command| -> bool {
            command.node != node || !command.is_replied_by(packets)
        });
    }
}
