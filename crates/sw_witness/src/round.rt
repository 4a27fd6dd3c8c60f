//! A cycle of channels from one of them on, and where along it one packet is to give way to the next.

use crate::random::Random;
use crate::worm::room;
use std::alloc::{AllocError, Global};
use sw_config::Network;
use sw_search::Tangle;
use sw_topo::Chan;

/// A tangle's cycle, gone round once from one of its channels on. Its steps, each from a channel to the next, are counted from there.
#[derive(Clone, Copy)]
pub(crate) struct Round<'a> {
    channels: &'a [Chan],
    // By place in the cycle, the flows that go on from there.
    flows: &'a [Vec<u16>],
    network: &'a Network,
    // By flow, how many characters packets can have that follow one another.
    lengths: &'a [usize],
    first: usize,
}

/// The last steps in a row that a flow makes, of those that were looked at.
#[derive(Clone, Copy)]
struct Run {
    // The first of them.
    start: usize,
    // The step behind the last.
    end: usize,
}

/// How far flows go on from a step, each without a gap: the step behind the last that one makes.
#[derive(Clone, Copy)]
struct Reach {
    // Of all flows that make the step.
    all: usize,
    // Of those that do not make the step before, so that their packets come from elsewhere.
    entering: usize,
}

/// The steps from one on that one packet makes, or a target.
#[derive(Clone, Copy)]
pub(crate) struct Stretch {
    /// The step behind them, with which another begins.
    pub(crate) end: usize,
    /// Whether the packet is to come from elsewhere, and not over the channel before.
    pub(crate) is_entering: bool,
    // How many packets from here on come over the channel before those that they hold.
    passing: usize,
}

/// The best stretch from each step on.
#[derive(Drop)]
pub(crate) struct Stretches {
    count: usize,
    // One of so many ends is taken at which a stretch may end as well as farther on.
    leap: usize,
    // That of the last step first.
    backwards: Vec<Stretch>,
}

impl<'a> Round<'a> {
    /// How many channels the cycle has.
    pub(crate) fn count(&self) -> usize {
        self.channels.len()
    }

    /// Where in the cycle the channel of the step is.
    fn index(&self, step: usize) -> usize {
        let count = self.count();
        if count == 0 {
            0
        } else {
            self.first.wrapping_add(step) % count
        }
    }

    /// The channel from which the step leads, if there is one.
    pub(crate) fn channel(&self, step: usize) -> Option<Chan> {
        match self.channels.get(self.index(step)) {
            Some(channel) => Some(*channel),
            None => None,
        }
    }

    /// The flows that make the step, in rising order; none where a target does.
    pub(crate) fn flows(&self, step: usize) -> &'a [u16] {
        match self.flows.get(self.index(step)) {
            Some(flows) => flows.as_slice(),
            None => &[],
        }
    }

    /// Does the flow make the step?
    fn makes(&self, flow: u16, step: usize) -> bool {
        self.flows(step).binary_search(&flow).is_ok()
    }

    /// Does the flow, which makes the step, not make the one before?
    pub(crate) fn enters(&self, flow: u16, step: usize) -> bool {
        let before = step.saturating_add(self.count()).saturating_sub(1);
        !self.makes(flow, before)
    }

    /// Does the flow make all steps from the first on and before the last?
    pub(crate) fn makes_all(&self, flow: u16, from: usize, end: usize) -> bool {
        for step in from..end {
            if !self.makes(flow, step) {
                return false;
            }
        }
        true
    }

    /// The last step, up to that end, before which a packet of the flow can hold the channels of all steps from that one on. At least one step
    /// stands before it.
    fn fitting_end(&self, flow: u16, step: usize, end: usize) -> usize {
        let length = match self.lengths.get(usize::from(flow)) {
            Some(length) => *length,
            None => 0,
        };
        if length == usize::MAX {
            return end;
        }
        let mut held = 0usize;
        for place in step..end {
            if let Some(channel) = self.channel(place) {
                held = held.saturating_add(room(self.network, channel));
            }
            if held > length && place > step {
                return place;
            }
        }
        end
    }

    /// Can a packet of the flow hold the channels of all steps from that one on and before the end?
    pub(crate) fn fits(&self, flow: u16, step: usize, end: usize) -> bool {
        self.fitting_end(flow, step, end) >= end
    }

    /// Is there a flow that makes the step and not the one before?
    fn has_entry(&self, step: usize) -> bool {
        for flow in self.flows(step) {
            if self.enters(*flow, step) {
                return true;
            }
        }
        false
    }

    /// The round from any channel on, of those that packets come to from elsewhere, if there are some.
    pub(crate) fn any(
        network: &'a Network,
        lengths: &'a [usize],
        random: &mut Random,
        tangle: &'a Tangle,
    ) -> Round<'a> {
        let channels = tangle.cycle.channels.as_slice();
        let flows = tangle.flows.as_slice();
        let count = channels.len();
        let mut round = Round {
            channels,
            flows,
            network,
            lengths,
            first: random.below(count),
        };
        for step in 0..count {
            if round.has_entry(step) {
                round.first = round.index(step);
                break;
            }
        }
        round
    }

    /// How far flows go on from the step, if others go so far, and this one makes all steps before the end.
    fn farther(&self, reach: Reach, flow: u16, step: usize, end: usize) -> Reach {
        if end <= reach.all && end <= reach.entering {
            return reach;
        }
        let end = self.fitting_end(flow, step, end);
        let entering = if end > reach.entering && self.enters(flow, step) {
            end
        } else {
            reach.entering
        };
        Reach {
            all: reach.all.max(end),
            entering,
        }
    }

    /// How far flows go on from the step, where the runs tell of the steps behind it; then they tell of this one too.
    fn reach(&self, runs: &mut [Run], step: usize) -> Reach {
        let behind = step.saturating_add(1);
        let mut reach = Reach {
            all: step,
            entering: step,
        };
        for flow in self.flows(step) {
            let number = usize::from(*flow);
            if number < runs.len() {
                let run = runs[number];
                let end = if run.start == behind { run.end } else { behind };
                runs[number] = Run { start: step, end };
                reach = self.farther(reach, *flow, step, end);
            }
        }
        reach
    }

    /// The best stretch from each step on.
    pub(crate) fn stretches(
        &self,
        alloc: Global,
        random: &mut Random,
    ) -> Result<Stretches, AllocError> {
        let count = self.count();
        let mut runs = Vec::new(alloc);
        let none = Run {
            start: usize::MAX,
            end: 0,
        };
        runs.resize(self.lengths.len(), none)?;
        let mut stretches = Stretches {
            count,
            leap: random.below(2).saturating_add(1),
            backwards: Vec::new(alloc),
        };
        for turn in 0..count {
            let step = count - 1 - turn;
            let reach = self.reach(&mut runs, step);
            let stretch = stretches.best(random, step, reach);
            stretches.backwards.push(stretch)?;
        }
        Ok(stretches)
    }
}

impl Stretches {
    /// That from the step on, if there is such a step.
    pub(crate) fn from(&self, step: usize) -> Option<Stretch> {
        if step >= self.count {
            return None;
        }
        match self.backwards.get(self.count - 1 - step) {
            Some(stretch) => Some(*stretch),
            None => None,
        }
    }

    /// How many packets from the step on come over the channel before those that they hold.
    fn passing(&self, step: usize) -> usize {
        match self.from(step) {
            Some(stretch) => stretch.passing,
            None => 0,
        }
    }

    /// The best stretch from the step on that ends no later than that: one behind which the fewest packets come over the channel before
    /// those that they hold, and of these the shortest, or, where there are none, now and then a longer one. None where it would end at once.
    fn best_up_to(
        &self,
        random: &mut Random,
        step: usize,
        limit: usize,
        is_entering: bool,
    ) -> Option<Stretch> {
        let mut best: Option<Stretch> = None;
        for end in step.saturating_add(1)..limit.saturating_add(1) {
            let passing = self.passing(end);
            let is_better = match best {
                Some(stretch) => passing == 0 || passing < stretch.passing,
                None => true,
            };
            if is_better {
                best = Some(Stretch {
                    end,
                    is_entering,
                    passing,
                });
            }
            if passing == 0 && random.below(self.leap) == 0 {
                break;
            }
        }
        best
    }

    /// The best stretch from the step on, from which flows reach so far: one of a packet that comes from elsewhere, unless fewer packets in
    /// all come over the channel before those that they hold where this one does. If no flow makes the step, a target does.
    fn best(&self, random: &mut Random, step: usize, reach: Reach) -> Stretch {
        let behind = step.saturating_add(1);
        let Some(any) = self.best_up_to(random, step, reach.all, false) else {
            return Stretch {
                end: behind,
                is_entering: true,
                passing: self.passing(behind),
            };
        };
        let passing = any.passing.saturating_add(1);
        match self.best_up_to(random, step, reach.entering, true) {
            Some(entering) if entering.passing <= passing => entering,
            _ => Stretch { passing, ..any },
        }
    }
}
