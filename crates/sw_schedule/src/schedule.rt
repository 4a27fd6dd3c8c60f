//! Schedules, and their text.
ghost use Rattle.std.specs.Prelude.{◌≡◌, ◌≤◌, length};
ghost use Rattle.sw_text.specs.Gives.{Gives};
ghost use Rattle.sw_schedule.specs.Schedule.{steps_of, steps_of_text, with_line};

use crate::line::{entry_of, is_skipped};
use crate::schedule_entry::ScheduleEntry;
use std::alloc::Global;
use std::marker::Model;
use sw_config::Network;
use sw_text::{OrMemory, cut};

/// A schedule has at most this many steps in all.
pub const MAX_STEPS: u32 = 1_000_000;

/// The number of the first line of a schedule that is wrong, counted from 1, or want of memory.
pub type ScheduleFault = OrMemory<u64>;

/// Steps to be made, in order; at most 1,000,000.
///
/// A clause sees the whole list of steps. It is kept as the lines wrote it, each step once with how many times it is made, and
/// cargo of one repeated byte as that byte and a count: so a schedule takes no more memory than a few times its text, where the
/// steps with their cargo written out could take gigabytes.
#[derive(Drop)]
pub struct Schedule {
    entries: Vec<ScheduleEntry>,
    total: u32,
}

impl Model for Schedule {
    ghost use Rattle.std.specs.Prelude.{List};
    ghost use Rattle.sw_machine.specs.Steps.{Step};
    ghost use Rattle.sw_schedule.specs.Schedule.{IsTotal, steps_of};

    ghost Value = { List Step };

    ghost view = { λ s. steps_of s.entries.items };

    ghost invariant = { λ s. IsTotal s.entries.items s.total };
}

impl Schedule {
    ghost use Rattle.sw_schedule.specs.Lines.{Repeated};

    /// The steps, in order, each with how many times it is made before the next.
    pub fn entries(&self) -> &[ScheduleEntry]
        ensures { steps_of result.now ≡ self.now }
    {
        &self.entries
    }

    /// How many steps there are in all.
    pub fn total(&self) -> u32
        ensures count { result ≡ length self.now }
        ensures few { result ≤ MAX_STEPS }
    {
        self.total
    }
}

/// Adds the steps of line `number`.
#[tactic(auto, unfolding(crate::specs::Lines::steps_of_line))]
fn add_line(
    alloc: Global,
    network: &Network,
    line: &[u8],
    number: u64,
    schedule: &mut Schedule,
) -> Result<(), ScheduleFault>
    ensures { Gives (λ _. schedule.new) result (with_line network.now number schedule.old line.now) }
{
    // Tells that there are not too many steps before.
    let total = schedule.total();
    if is_skipped(line) {
        return Ok(());
    }
    let Some(entry) = entry_of(alloc, network, line)? else {
        return Err(ScheduleFault::Fault(number));
    };
    let count = entry.count();
    if count > MAX_STEPS - total {
        return Err(ScheduleFault::Fault(number));
    }
    schedule.entries.push(entry)?;
    schedule.total += count;
    Ok(())
}

/// Reads the text of a schedule: the steps that it lists for the network.
///
/// # Errors
///
/// A line is wrong: the number of the first such line, counted from 1. Or there is no memory for the steps.
#[tactic(auto, unfolding(crate::specs::Schedule::steps_of_text))]
pub fn read_steps(alloc: Global, network: &Network, text: &[u8]) -> Result<Schedule, ScheduleFault>
    ensures { Gives (λ steps. steps) result (steps_of_text network.now text.now) }
{
    let mut schedule = Schedule {
        entries: Vec::new(alloc),
        total: 0,
    };
    let mut rest = text;
    let mut number: u64 = 1;
    while let Some((line, more)) = cut(rest, b'\n') {
        add_line(alloc, network, line, number, &mut schedule)?;
        rest = more;
        number += 1;
    }
    add_line(alloc, network, rest, number, &mut schedule)?;
    Ok(schedule)
}
