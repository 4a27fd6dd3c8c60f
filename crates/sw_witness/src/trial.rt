//! Tries: packets are placed so that channels wait for one another, and then the network goes on until nothing can.

use crate::circle::any_circle;
use crate::cover::cover;
use crate::leg::Leg;
use crate::load::Load;
use crate::notes::note_leg;
use crate::order::order;
use crate::placing::{Placing, plan};
use crate::plan::planned_tasks;
use crate::random::Random;
use crate::scheduled_net::ScheduledNet;
use crate::task::{Action, Task};
use crate::ways::Ways;
use std::alloc::{AllocError, Global};
use sw_config::Network;
use sw_machine::Move;
use sw_schedule::MAX_STEPS;
use sw_search::Tangle;

/// How often the channels of a way are gone over to place a packet, at most.
const MOST_ROUNDS: u32 = 20_000;

/// How many circles of channels a try looks at, at most, until there is one for which packets can be placed.
const MOST_CIRCLES: u32 = 100;

/// How many plans for a whole cycle a try looks at, at most, until there is one that can be carried out.
const MOST_COVERS: u32 = 10;

/// Which channels a try makes wait for one another.
#[derive(Clone, Copy)]
pub(crate) enum Along {
    /// Those of a tangle's shortest cycle, with any number of packets, each as it comes.
    Cycle,
    /// The same, with packets that are chosen and ordered so that each can be placed.
    WholeCycle,
    /// Those of any circle in a tangle, with no more commands than may be unanswered at once.
    AnyCircle,
    /// Any, as it happens: packets of all flows are begun, with no plan.
    NoCircle,
}

impl ScheduledNet<'_> {
    /// Sends the packets one after another, each as far as it comes along its way, and a reply to it from there along its own, until one
    /// is held up at its source.
    fn place_packets(&mut self, alloc: Global, placing: &Placing) {
        for _ in 0..placing.most {
            if self.begin(alloc, placing.load).is_none() {
                break;
            }
            for _ in 0..MOST_ROUNDS {
                self.moved = false;
                self.advance(alloc, placing.source, &placing.there);
                if !placing.back.is_empty() {
                    self.repeat(alloc, Move::Accept(placing.target), 64);
                    self.repeat(alloc, Move::Reply(placing.target), 1);
                    self.advance(alloc, placing.target, &placing.back);
                }
                if !self.moved {
                    break;
                }
            }
        }
    }

    /// Places what makes the channels of the tangle's cycle wait for one another, from one of them on.
    fn place_cycle(
        &mut self,
        alloc: Global,
        network: &Network,
        random: &mut Random,
        tangle: &Tangle,
    ) {
        let count = tangle.cycle.channels.len();
        let first = random.below(count);
        let backwards = random.below(2) == 0;
        for turn in 0..count {
            let step = if backwards { count - 1 - turn } else { turn };
            let number = first.wrapping_add(step) % count;
            let mut placing = Placing {
                load: Load {
                    flow: 0,
                    is_command: false,
                    length: 0,
                },
                source: 0,
                target: 0,
                most: 0,
                there: Vec::new(alloc),
                back: Vec::new(alloc),
            };
            match plan(
                alloc,
                network,
                random,
                tangle,
                number,
                &mut self.text,
                &mut placing,
            ) {
                Ok(()) => self.place_packets(alloc, &placing),
                Err(AllocError) => self.failed = true,
            }
        }
    }

    /// Brings the packet of the task, or its reply, to the end of its way, where the target takes so many characters at most.
    fn bring(&mut self, alloc: Global, task: &Task, most: u32) {
        let mut left = most;
        for _ in 0..MOST_ROUNDS {
            self.moved = false;
            self.advance(alloc, task.node, &task.way);
            let before = self.steps;
            self.repeat(alloc, Move::Accept(task.target), left);
            left = left.saturating_sub(self.steps.saturating_sub(before));
            if !self.moved {
                break;
            }
        }
    }

    /// Begins a packet of the task, if it can be, and brings it to the end of its way; the target takes all but its end there, if it is to. Whether
    /// it was begun.
    fn begin_and_bring(&mut self, alloc: Global, task: &Task, is_taken: bool) -> bool {
        let Some(count) = self.begin(alloc, task.load) else {
            return false;
        };
        let most = if is_taken { count } else { 0 };
        self.bring(alloc, task, most);
        true
    }

    /// Brings the packets of the task to the end of its way, one after another, until one is held up at its source.
    fn park(&mut self, alloc: Global, task: &Task) {
        for _ in 0..task.most {
            if !self.begin_and_bring(alloc, task, false) {
                break;
            }
        }
    }

    /// Does what is to be done after these tasks.
    fn carry_out(&mut self, alloc: Global, before: &[Task], task: &Task) {
        match task.action {
            Action::Park => self.park(alloc, task),
            Action::Send => {
                let _begun = self.begin_and_bring(alloc, task, !task.meets_another(before));
            }
            Action::Take => self.bring(alloc, task, MAX_STEPS),
            Action::Answer => {
                self.repeat(alloc, Move::Reply(task.node), 1);
                self.bring(alloc, task, 0);
            }
        }
    }

    /// Writes for each of the legs what is to hold a channel, and what it is to wait for.
    fn note_legs(
        &mut self,
        alloc: Global,
        network: &Network,
        legs: &[Leg],
    ) -> Result<(), AllocError> {
        for leg in legs {
            note_leg(alloc, network, leg, &mut self.text)?;
        }
        Ok(())
    }

    /// Places what makes the channels of the legs wait for one another, if it can be; whether it can.
    fn place_legs(
        &mut self,
        alloc: Global,
        network: &Network,
        random: &mut Random,
        ways: &Ways,
        legs: &[Leg],
    ) -> Result<bool, AllocError> {
        let Some(planned) = planned_tasks(alloc, network, random, ways, legs)? else {
            return Ok(false);
        };
        let Some(tasks) = order(alloc, network, random, planned)? else {
            return Ok(false);
        };
        self.note_legs(alloc, network, legs)?;
        for (index, task) in tasks.iter().enumerate() {
            self.carry_out(alloc, &tasks[..index], task);
        }
        Ok(true)
    }

    /// Places what makes the channels of the tangle's cycle wait for one another, all of them: each as it is known that it can be placed behind
    /// the others.
    fn place_whole(
        &mut self,
        alloc: Global,
        network: &Network,
        random: &mut Random,
        tangle: &Tangle,
    ) -> Result<(), AllocError> {
        for _ in 0..MOST_COVERS {
            if let Some((ways, legs)) = cover(alloc, network, random, tangle)? {
                if self.place_legs(alloc, network, random, &ways, &legs)? {
                    break;
                }
            }
        }
        Ok(())
    }

    /// Places what makes channels wait for one another in a circle, any one of those to which one comes from the tangle's cycle.
    fn place_circle(
        &mut self,
        alloc: Global,
        network: &Network,
        random: &mut Random,
        tangle: &Tangle,
    ) -> Result<(), AllocError> {
        let ways = Ways::new(alloc, network, random)?;
        let channels = tangle.cycle.channels.as_slice();
        for _ in 0..MOST_CIRCLES {
            let Some(start) = channels.get(random.below(channels.len())) else {
                break;
            };
            let legs = any_circle(alloc, network, random, &ways, *start)?;
            if self.place_legs(alloc, network, random, &ways, &legs)? {
                break;
            }
        }
        Ok(())
    }

    /// Places what makes channels of the tangle wait for one another.
    fn place(
        &mut self,
        alloc: Global,
        network: &Network,
        random: &mut Random,
        tangle: &Tangle,
        along: Along,
    ) {
        match along {
            Along::Cycle => self.place_cycle(alloc, network, random, tangle),
            Along::WholeCycle => {
                if self.place_whole(alloc, network, random, tangle).is_err() {
                    self.failed = true;
                }
            }
            Along::AnyCircle => {
                if self.place_circle(alloc, network, random, tangle).is_err() {
                    self.failed = true;
                }
            }
            Along::NoCircle => match Ways::new(alloc, network, random) {
                Ok(ways) => self.wander(alloc, network, random, &ways),
                Err(AllocError) => self.failed = true,
            },
        }
    }
}

/// One try: a schedule after which the network is locked up, if it came to that. It places what makes channels of the tangle wait for one
/// another, and lets the network go on until nothing can.
pub(crate) fn one_try(
    alloc: Global,
    network: &Network,
    tangle: &Tangle,
    random: &mut Random,
    along: Along,
) -> Result<Option<String>, AllocError> {
    let mut trial = ScheduledNet::new(alloc, network)?;
    trial.place(alloc, network, random, tangle, along);
    trial.run(alloc, random);
    trial.finish()
}
