//! Steps that are made one after another, up to the first that is refused.
ghost use Rattle.std.specs.Prelude.{◌≡◌, ◌≤◌, IfOk, length, replicate};
ghost use Rattle.sw_net.specs.New.{IsNewNet};
ghost use Rattle.sw_schedule.specs.Nets.{EndsFromEmpty, IsWithin, NetEnds};
ghost use Rattle.sw_schedule.specs.Schedule.{steps_of};
ghost use Rattle.sw_machine.specs.StepValues.{machine_step};

use crate::limited_step::make_step;
use crate::replayed::ReplayEnd;
use crate::schedule_entry::ScheduleEntry;
use std::alloc::{AllocError, Global};
use sw_arb::Policy;
use sw_machine::Step;
use sw_net::{Net, SwitchRoutes, Unanswered};

/// Makes the step so many times, up to the first time that it is refused.
fn make_times(
    alloc: Global,
    net: &mut Net<'_, SwitchRoutes<'_>, Policy>,
    unanswered: &mut Unanswered,
    step: &Step,
    count: u32,
) -> Result<ReplayEnd, AllocError>
    ensures network { net.new.declared ≡ net.old.declared }
    ensures ends { IfOk result (λ o. NetEnds net.old unanswered.old (replicate count (machine_step step.now)) o net.new unanswered.new) }
    ensures within { IfOk result (IsWithin count) }
{
    for made in 0..count {
        match make_step(alloc, net, unanswered, step)? {
            Some(refusal) => return Ok(ReplayEnd::Refused(made + 1, refusal)),
            None => {}
        }
    }
    Ok(ReplayEnd::Made(count))
}

/// Makes the steps of an entry, up to the first that is refused.
fn make_entry(
    alloc: Global,
    net: &mut Net<'_, SwitchRoutes<'_>, Policy>,
    unanswered: &mut Unanswered,
    entry: &ScheduleEntry,
) -> Result<ReplayEnd, AllocError>
    ensures network { net.new.declared ≡ net.old.declared }
    ensures ends { IfOk result (λ o. NetEnds net.old unanswered.old (replicate entry.now.count entry.now.step) o net.new unanswered.new) }
    ensures within { IfOk result (IsWithin entry.now.count) }
{
    let step = entry.step(alloc)?;
    make_times(alloc, net, unanswered, &step, entry.count())
}

/// Makes the steps of entries, up to the first that is refused.
fn make_all(
    alloc: Global,
    net: &mut Net<'_, SwitchRoutes<'_>, Policy>,
    unanswered: &mut Unanswered,
    entries: &[ScheduleEntry],
) -> Result<ReplayEnd, AllocError>
    requires { length (steps_of entries.now) ≤ 1000000 }
    ensures network { net.new.declared ≡ net.old.declared }
    ensures ends { IfOk result (λ o. NetEnds net.old unanswered.old (steps_of entries.now) o net.new unanswered.new) }
{
    let mut before: u32 = 0;
    for entry in entries {
        match make_entry(alloc, net, unanswered, entry)? {
            ReplayEnd::Made(count) => before += count,
            ReplayEnd::Refused(number, refusal) => {
                return Ok(ReplayEnd::Refused(before + number, refusal));
            }
        }
    }
    Ok(ReplayEnd::Made(before))
}

/// Makes the steps of entries on a network that is still empty, up to the first that is refused.
pub(crate) fn make_from_empty(
    alloc: Global,
    net: &mut Net<'_, SwitchRoutes<'_>, Policy>,
    entries: &[ScheduleEntry],
) -> Result<ReplayEnd, AllocError>
    requires empty { IsNewNet net.old.declared net.old }
    requires few { length (steps_of entries.now) ≤ 1000000 }
    ensures network { net.new.declared ≡ net.old.declared }
    ensures ends { IfOk result (λ o. EndsFromEmpty net.old.declared (steps_of entries.now) o net.new) }
{
    let mut unanswered = Unanswered::new(alloc, net.network())?;
    make_all(alloc, net, &mut unanswered, entries)
}
