//! A step of the network, for its history.
ghost use Rattle.std.specs.Prelude.{◌≡◌, OnErr, OnOk};
ghost use Rattle.sw_history.specs.Makes.{Makes};
ghost use Rattle.sw_machine.specs.StepValues.{machine_step};
ghost use Rattle.sw_net.specs.Unanswered.{HasCounted};

use crate::fault::StepFault;
use std::alloc::Global;
use std::marker::Model;
use sw_arb::Arbiter;
use sw_machine::Step;
use sw_net::{Net, NetFault, Unanswered};
use sw_route::Routing;

/// Makes the step, if the network can, and counts what it changes of what is unanswered.
#[inline(always)]
pub(crate) fn make<R: Routing, A: Arbiter>(
    alloc: Global,
    net: &mut Net<'_, R, A>,
    unanswered: &mut Unanswered,
    step: &Step,
) -> Result<(), StepFault>
    ensures network { net.new.declared ≡ net.old.declared }
    ensures answers { Makes net.old (machine_step step.now) result net.new }
    ensures refused { OnErr result (net.new ≡ net.old) }
    ensures counted { OnOk result (HasCounted net.old unanswered.old (machine_step step.now) net.new unanswered.new) }
    ensures uncounted { OnErr result (unanswered.new ≡ unanswered.old) }
{
    match unanswered.step(alloc, net, step) {
        Ok(()) => Ok(()),
        Err(NetFault::NotInFlow) => Err(StepFault::NotEnabled),
        Err(NetFault::NotEnabled) => Err(StepFault::NotEnabled),
        Err(NetFault::Memory) => Err(StepFault::Memory),
    }
}
