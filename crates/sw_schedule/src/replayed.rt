//! What a replay tells.

use sw_char::Packet;

/// Why a step is refused.
#[derive(Clone, Copy)]
pub enum StepRefusal {
    /// It is not possible in the state that the steps before it lead to.
    NotEnabled,
    /// It begins a packet that its flow does not declare.
    NotInFlow,
    /// It begins a command for a node at which as many are unanswered then as its limit allows.
    OverLimit,
}

/// How far the steps were made.
#[derive(Clone, Copy)]
pub enum ReplayEnd {
    /// All of them were made, so many.
    Made(u32),
    /// The step of this number, counted from 1, was refused; those before it were made.
    Refused(u32, StepRefusal),
}

/// What a replay tells of the state that it ends in.
#[derive(Drop)]
pub struct Replayed {
    /// How far the steps were made.
    pub outcome: ReplayEnd,
    /// How many characters are in a buffer, on a wire, still to send or of a reply that waits.
    pub undelivered: u64,
    /// Whether the network is locked up.
    pub stuck: bool,
    /// The packets that came out at each node, by its number, in their order.
    pub came_out: Vec<Vec<Packet>>,
}
