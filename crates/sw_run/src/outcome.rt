//! How a run ends.

use sw_char::Packet;
use sw_journal::Record;

/// Why a run ended.
#[derive(Clone, Copy, PartialEq, Eq)]
pub enum Stop {
    /// The whole load was begun, and nothing is undelivered.
    Drained,
    /// Something is undelivered, and no step may follow.
    Stuck,
    /// Nothing is undelivered, something of the load is not begun, and no step may follow: each packet
    /// that a node is to begin next is kept back by the limit on unanswered commands of the node where it
    /// ends.
    Waiting,
    /// The history is as long as it may be, and the run is not at its end.
    JournalFull,
    /// Memory was wanted, for a step or for a worker. Clauses say that the history is shorter than it
    /// may be and the run is at no other end, and not that memory was refused.
    Memory,
}

/// What a run did.
#[derive(Drop)]
pub struct Outcome<'a> {
    /// Why it ended.
    pub stop: Stop,
    /// The steps, in the order in which they were committed.
    pub history: Record<'a>,
    /// The packets that came out at each node, in their order.
    pub came_out: Vec<Vec<Packet>>,
    /// How many characters are undelivered.
    pub undelivered: u64,
}
