//! The steps of a network.

use sw_char::End;
use sw_flow::Chan;

/// A step that begins no packet: what a node, a switch or a link does at once.
#[derive(Clone, Copy, PartialEq, Eq)]
pub enum Move {
    /// The end where the channel arrives sends an FCT, which asks for eight characters.
    Fct(Chan),
    /// An FCT for the channel arrives where the channel starts.
    FctIn(Chan),
    /// The first character on the channel's wire arrives.
    Arrive(Chan),
    /// The first channel, an output, is granted to the second, an input of the same switch.
    Grant(Chan, Chan),
    /// The switch drops what stands in front of this input, where it names no output.
    Drop(Chan),
    /// This input passes a character on to the output that it holds.
    Forward(Chan),
    /// This input loses a character of a packet that is discarded.
    Spill(Chan),
    /// The node of that number puts a character on its wire.
    Emit(u16),
    /// The node of that number takes a character.
    Accept(u16),
    /// The node of that number begins to send the reply that has waited longest.
    Reply(u16),
}

/// A step that a network may make.
#[derive(Drop)]
pub enum Step {
    /// A step that begins no packet.
    Move(Move),
    /// The node where the flow starts begins to send a packet of it.
    Begin {
        /// The flow's number.
        flow: u16,
        /// The bytes behind the flow's address.
        cargo: Vec<u8>,
        /// How the packet ends.
        end: End,
    },
}
