//! A step that is made where the machine can make it, and where it keeps the limits on unanswered commands.
ghost use Rattle.std.specs.Prelude.{◌≡◌, IfOk, Some};
ghost use Rattle.sw_machine.specs.StepValues.{machine_step};
ghost use Rattle.sw_schedule.specs.Nets.{NetMakesOr, TellsOverLimit, TellsWhy};

use crate::replayed::StepRefusal;
use std::alloc::{AllocError, Global};
use std::marker::Model;
use sw_arb::Policy;
use sw_machine::Step;
use sw_net::{Net, NetFault, SwitchRoutes, Unanswered};

/// Is the step possible, but for a limit on unanswered commands that it would break?
fn is_over_limit(
    net: &Net<'_, SwitchRoutes<'_>, Policy>,
    unanswered: &Unanswered,
    step: &Step,
) -> bool
    ensures { TellsOverLimit net.now unanswered.now (machine_step step.now) result }
{
    match step {
        Step::Begin { flow, .. } => {
            if unanswered.allows(net.network(), *flow) {
                return false;
            }
            net.is_possible(step)
        }
        _ => false,
    }
}

/// Why the step is refused, if the network's answer is that.
fn refusal_of(made: Result<(), NetFault>) -> Result<Option<StepRefusal>, AllocError>
    ensures { IfOk result (TellsWhy made) }
{
    match made {
        Ok(()) => Ok(None),
        Err(NetFault::NotEnabled) => Ok(Some(StepRefusal::NotEnabled)),
        Err(NetFault::NotInFlow) => Ok(Some(StepRefusal::NotInFlow)),
        Err(NetFault::Memory) => Err(AllocError),
    }
}

/// Makes the step, if the machine can and it keeps the limits on unanswered commands, which are counted. Some: why it is refused; then
/// nothing has changed. No arbiter is asked.
///
/// # Errors
///
/// There is no memory for what the step stores. Then nothing has changed.
pub fn make_step(
    alloc: Global,
    net: &mut Net<'_, SwitchRoutes<'_>, Policy>,
    unanswered: &mut Unanswered,
    step: &Step,
) -> Result<Option<StepRefusal>, AllocError>
    ensures network { net.new.declared ≡ net.old.declared }
    ensures makes { IfOk result (λ refusal. NetMakesOr net.old unanswered.old (machine_step step.now) refusal net.new unanswered.new) }
{
    if is_over_limit(net, unanswered, step) {
        return Ok(Some(StepRefusal::OverLimit));
    }
    refusal_of(unanswered.step(alloc, net, step))
}
