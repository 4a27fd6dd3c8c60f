//! A tangle of channels.

use sw_cycle::Cycle;

/// Channels each of which can wait, over one or more others, for each other and for itself, and no others that these can wait so for.
#[derive(Drop)]
pub struct Tangle {
    /// How many channels there are.
    pub channels: usize,
    /// A cycle of the fewest of them, with a cause for each dependency: that through the channel of least number, and from there each
    /// time on to the least number from which the rest leads back.
    pub cycle: Cycle,
    /// For each channel of the cycle the numbers of all flows that go on from it to the next, in rising order: none where a target
    /// makes the one wait for the other.
    pub flows: Vec<Vec<u16>>,
}
