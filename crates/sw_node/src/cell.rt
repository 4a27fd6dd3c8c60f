//! What a node keeps.
ghost use Rattle.std.specs.Prelude.{◌≡◌, ◌<◌, ◌≤◌, ◌+◌, ℕ, IfOk, IsTrue, length, slice_get};
ghost use Rattle.sw_link.specs.Ends.{arrived, asked, granted};
ghost use Rattle.sw_node.specs.Changes.{with_credit, with_received};

use crate::reply::ReplyBytes;
use crate::sending::Sending;
use circular_buffer::HeapCircularBuffer;
use std::marker::Model;
use sw_char::{NChar, Packet};
use sw_link::{RxEnd, TxEnd};
use sw_rmap::Target;

/// A node with its link. What it sends and the replies that it owes lie in room that was made
/// before they are sent.
#[derive(Drop)]
pub struct NodeCell {
    pub(crate) target: Option<Target>,
    pub(crate) credit: TxEnd,
    pub(crate) received: RxEnd,
    pub(crate) sending: Sending,
    pub(crate) pending: HeapCircularBuffer<ReplyBytes>,
    pub(crate) owed: usize,
    pub(crate) packets: Vec<Packet>,
    pub(crate) bytes: Vec<u8>,
}

impl Model for NodeCell {
    ghost use Rattle.std.specs.Prelude.{◌≡◌};
    ghost use Rattle.sw_node.specs.Node.{IsNode, Node, node_of, slots};

    ghost Value = { Node };

    ghost view = { λ n. node_of n.target n.credit n.received n.sending n.pending.items n.owed n.packets.items n.bytes.items };

    ghost invariant = { λ n. IsNode (node_of n.target n.credit n.received n.sending n.pending.items n.owed n.packets.items n.bytes.items)
        × (n.pending.capacity ≡ slots (node_of n.target n.credit n.received n.sending n.pending.items n.owed n.packets.items n.bytes.items)) };
}

impl NodeCell {
    ghost use Rattle.sw_node.specs.Node.{IsNode};

    /// The credit of the channel that starts at the node: 0 to 56 (ECSS-E-ST-50-12C, data link
    /// layer: flow control).
    pub fn credit(&self) -> u8
        ensures { result ≡ self.now.credit }
    {
        self.credit.credit()
    }

    /// How many N-Chars its receiving end asked for that did not arrive yet: 0 to 56
    /// (ECSS-E-ST-50-12C, data link layer: flow control).
    pub fn outstanding(&self) -> u8
        ensures { result ≡ self.now.received.outstanding }
    {
        self.received.outstanding()
    }

    /// How many N-Chars are in its buffer.
    pub fn buffered(&self) -> usize
        ensures { result ≡ length self.now.received.buffer }
    {
        self.received.len()
    }

    /// How many replies it owes.
    pub fn owed(&self) -> usize
        ensures value { result ≡ self.now.owed }
        ensures sound { IsNode self.now }
    {
        self.owed
    }

    /// The packets that came out.
    pub fn packets(&self) -> &[Packet]
        ensures { result.now ≡ self.now.packets }
    {
        self.packets.as_slice()
    }

    /// An N-Char arrives at the node, which has to have some outstanding.
    pub fn arrive(&mut self, character: NChar)
        requires { 0 < self.old.received.outstanding }
        ensures { self.new ≡ with_received self.old (arrived character self.old.received) }
    {
        self.received.arrive(character);
    }

    /// An FCT for the channel that starts at the node is received (ECSS-E-ST-50-12C, data link
    /// layer: flow control). The credit has to be at most 48.
    pub fn fct_in(&mut self)
        requires { self.old.credit ≤ 48 }
        ensures { self.new ≡ with_credit self.old (granted self.old.credit) }
    {
        self.credit.fct_in();
    }
}
