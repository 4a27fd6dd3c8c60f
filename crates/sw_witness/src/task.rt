//! Something that is to be done so that channels wait for one another, and what has to be done before it.

use crate::load::Load;
use sw_flow::Place;

/// What is done.
#[derive(Clone, Copy, PartialEq, Eq)]
pub(crate) enum Action {
    /// The node begins a packet, which comes to the end of the way, and no further.
    Park,
    /// The node begins a command, which comes to the end of the way; its target takes it, but for its end.
    Send,
    /// The target takes the rest of the command.
    Take,
    /// The node begins the reply that has waited longest, which comes to the end of the way, and no further.
    Answer,
}

/// Something that is to be done.
#[derive(Drop)]
pub(crate) struct Task {
    /// What is done.
    pub(crate) action: Action,
    /// What the packet carries; of a reply what its command carried.
    pub(crate) load: Load,
    /// The node that sends.
    pub(crate) node: u16,
    /// The node where the flow ends.
    pub(crate) target: u16,
    /// The way of the packet, or of the reply.
    pub(crate) way: Vec<Place>,
    /// How many places of the way are free behind it.
    pub(crate) passed: usize,
    /// How many packets follow one another, at most, until one is held up at its source.
    pub(crate) most: usize,
    /// Is it a command the reply to which is to leave first?
    pub(crate) is_first: bool,
}

impl Task {
    /// The channels that are taken behind it.
    pub(crate) fn channels_held(&self) -> &[Place] {
        match self.way.get(self.passed..) {
            Some(held) => held,
            None => &[],
        }
    }

    /// Is at its target a command that was sent before it by one of these tasks, and taken by none?
    pub(crate) fn meets_another(&self, before: &[Task]) -> bool {
        let mut sent = 0usize;
        let mut taken = 0usize;
        for task in before {
            if task.target == self.target {
                match task.action {
                    Action::Send => sent = sent.saturating_add(1),
                    Action::Take => taken = taken.saturating_add(1),
                    Action::Park | Action::Answer => {}
                }
            }
        }
        sent > taken
    }

    /// Does the node begin a packet of its own?
    pub(crate) fn begins(&self) -> bool {
        match self.action {
            Action::Park | Action::Send => true,
            Action::Take | Action::Answer => false,
        }
    }
}
