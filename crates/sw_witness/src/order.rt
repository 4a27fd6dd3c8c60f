//! In which order things are done.

use crate::random::Random;
use crate::task::{Action, Task};
use std::alloc::{AllocError, Global};
use sw_config::Network;

/// What the tasks that are left make others wait for, counted.
#[derive(Drop)]
struct Left {
    // By channel, how many packets go over it.
    over: Vec<u32>,
    // By channel, the last task of which packets were counted: a way may go over a channel twice.
    counted: Vec<u32>,
    // By flow, how many commands are sent.
    sent: Vec<u32>,
    // By node, how many packets it begins.
    begun: Vec<u32>,
    // By node, how many commands it takes.
    taken: Vec<u32>,
    // By node, to how many commands that are sent to it the reply is to leave first.
    first: Vec<u32>,
    // How often tasks were counted.
    turn: u32,
}

/// The count of that number.
fn count_of(counts: &[u32], number: u16) -> u32 {
    match counts.get(usize::from(number)) {
        Some(count) => *count,
        None => 0,
    }
}

/// Counts one more of that number, or one less, if it is to be counted at all.
fn change(counts: &mut [u32], number: u16, is_more: bool, is_counted: bool) {
    let number = usize::from(number);
    if is_counted && number < counts.len() {
        let count = counts[number];
        counts[number] = if is_more {
            count.saturating_add(1)
        } else {
            count.saturating_sub(1)
        };
    }
}

/// So many counts.
fn zeros(alloc: Global, length: u16) -> Result<Vec<u32>, AllocError> {
    let mut counts = Vec::new(alloc);
    counts.resize(usize::from(length), 0u32)?;
    Ok(counts)
}

impl Left {
    /// What makes others wait where no tasks are left.
    fn new(alloc: Global, network: &Network) -> Result<Left, AllocError> {
        Ok(Left {
            over: zeros(alloc, network.channels())?,
            counted: zeros(alloc, network.channels())?,
            sent: zeros(alloc, network.flows())?,
            begun: zeros(alloc, network.nodes())?,
            taken: zeros(alloc, network.nodes())?,
            first: zeros(alloc, network.nodes())?,
            turn: 0,
        })
    }

    /// Counts the channels of the task once more, or once less, if packets go over them.
    fn change_channels(&mut self, task: &Task, is_more: bool) {
        if task.action == Action::Take {
            return;
        }
        self.turn = self.turn.saturating_add(1);
        for place in &task.way {
            let channel = place.channel.number();
            if count_of(&self.counted, channel) != self.turn {
                change(&mut self.over, channel, is_more, true);
                let number = usize::from(channel);
                if number < self.counted.len() {
                    self.counted[number] = self.turn;
                }
            }
        }
    }

    /// Counts the task once more, or once less.
    fn change(&mut self, task: &Task, is_more: bool) {
        self.change_channels(task, is_more);
        let is_sent = task.action == Action::Send;
        let is_taken = task.action == Action::Take;
        change(&mut self.sent, task.load.flow, is_more, is_sent);
        change(&mut self.begun, task.node, is_more, task.begins());
        change(&mut self.taken, task.target, is_more, is_taken);
        change(&mut self.first, task.target, is_more, task.is_first);
    }

    /// Is one of the others to go over a channel that the task, which is left, holds?
    fn goes_over_held(&self, task: &Task) -> bool {
        let own = u32::from(task.action != Action::Take);
        task.channels_held()
            .iter()
            .any(|place| count_of(&self.over, place.channel.number()) > own)
    }

    /// Does the task, which is left, wait for one of the others? A command is sent after those to which the reply leaves first. By the end of a
    /// command, which is taken after it was sent, a target comes to owe a reply, and begins no packets then. A reply leaves after all commands to
    /// its target were taken.
    fn makes_wait(&self, task: &Task) -> bool {
        let waits = match task.action {
            Action::Park => false,
            Action::Send => count_of(&self.first, task.target) > u32::from(task.is_first),
            Action::Take => {
                count_of(&self.sent, task.load.flow) > 0 || count_of(&self.begun, task.target) > 0
            }
            Action::Answer => count_of(&self.taken, task.node) > 0,
        };
        waits || self.goes_over_held(task)
    }
}

/// The place of a task that waits for none of the others, if there is one: one by which a target takes a command, or else each as likely
/// as another.
fn any_ready(random: &mut Random, tasks: &[Task], left: &Left) -> Option<usize> {
    let mut chosen = None;
    let mut count = 0usize;
    for (index, task) in tasks.iter().enumerate() {
        let waits = left.makes_wait(task);
        if !waits && task.action == Action::Take {
            return Some(index);
        }
        if !waits {
            count = count.saturating_add(1);
            if random.below(count) == 0 {
                chosen = Some(index);
            }
        }
    }
    chosen
}

/// The tasks in an order in which they can be done; none where there is no such order.
pub(crate) fn order(
    alloc: Global,
    network: &Network,
    random: &mut Random,
    tasks: Vec<Task>,
) -> Result<Option<Vec<Task>>, AllocError> {
    let mut left = Left::new(alloc, network)?;
    for task in &tasks {
        left.change(task, true);
    }
    let mut waiting = tasks;
    let mut ordered = Vec::new(alloc);
    for _ in 0..waiting.len() {
        match any_ready(random, &waiting, &left) {
            Some(index) if index < waiting.len() => {
                let task = waiting.remove(index);
                left.change(&task, false);
                ordered.push(task)?;
            }
            _ => return Ok(None),
        }
    }
    Ok(Some(ordered))
}
