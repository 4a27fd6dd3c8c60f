//! A single change of a network, and two of what can be taken away.

use sw_topo::Port;

/// One thing taken out of a network: all else stays as it is. Nodes, switches, flows and the entries of a routing table are told by
/// their numbers, counted from 0. A change of something that is not there changes nothing.
#[derive(Clone, Copy, PartialEq, Eq)]
pub enum Change {
    /// The flow has no reply.
    WithoutReply(u16),
    /// No flow from the one node to the other has a reply.
    WithoutReplies {
        from: u16,
        to: u16,
    },
    /// The flow is gone.
    WithoutFlow(u16),
    /// No flow to the node has a reply.
    WithoutAnswers(u16),
    /// The entry of the switch's routing table names that port no longer.
    WithoutPort {
        switch: u16,
        entry: usize,
        port: Port,
    },
    /// The entry of the switch's routing table is gone.
    WithoutEntry {
        switch: u16,
        entry: usize,
    },
    /// All flows from and to the node are gone.
    WithoutFlowsOf(u16),
}

/// Two changes of one network, both made: the first and then the second.
#[derive(Clone, Copy, PartialEq, Eq)]
pub struct Pair {
    /// What is changed first.
    pub first: Change,
    /// What is changed then, in the network as the first left it.
    pub second: Change,
}

/// A link of its own for the target of a node, which is so split into two: to a port of the switch at which the node's link is, with the
/// receive buffers of that link.
#[derive(Clone, Copy)]
pub struct TargetLink {
    /// The node.
    pub node: u16,
    /// The switch at which its link is.
    pub switch: u16,
    /// The port at which its link is.
    pub beside: Port,
    /// The port of the own link.
    pub port: Port,
    /// How many characters the receive buffer at the node holds.
    pub near: u16,
    /// How many the one at the switch holds.
    pub far: u16,
}

/// A single change that is tried.
#[derive(Clone, Copy)]
pub enum Trial {
    /// One thing is taken out.
    Without(Change),
    /// A node is split: its target gets a link of its own.
    Split(TargetLink),
}
