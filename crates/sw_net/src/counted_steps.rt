//! Steps that are made and counted, as far as they change what is unanswered.
ghost use Rattle.std.specs.Prelude.{◌≡◌, ◌<◌, ◌*◌, OnErr, OnOk, length};
ghost use Rattle.sw_machine.specs.State.{State};
ghost use Rattle.sw_machine.specs.StepValues.{machine_step};
ghost use Rattle.sw_net.specs.Making.{MovesAt};
ghost use Rattle.sw_net.specs.Net.{IsNetState, NetAnswers, arbiters_of};
ghost use Rattle.sw_net.specs.Unanswered.{HasCounted, HasCountedMove, OwedAt, counted_after, owed_by, owed_with_limit};

use crate::net::Net;
use crate::unanswered::Unanswered;
use std::alloc::{AllocError, Global};
use std::marker::Model;
use sw_arb::Arbiter;
use sw_cell::NetFault;
use sw_machine::{Move, Step};
use sw_route::Routing;
use sw_topo::{LinkEnd, PlaceEnd};

/// How many replies the node owes, if it has a limit; else 0.
#[inline(always)]
fn owed_with_limit<R: Routing, A: Arbiter>(net: &Net<'_, R, A>, node: u16) -> usize
    ensures { (s : State) → IsNetState net.now s → result ≡ owed_with_limit net.now.declared s node }
{
    match net.network().limit_at(node) {
        Some(_) => net.owed(node),
        None => 0,
    }
}

/// The same of the node that puts a character on its wire by the step; 0 of any other step.
#[inline(always)]
fn owed_by<R: Routing, A: Arbiter>(net: &Net<'_, R, A>, step: &Step) -> usize
    ensures { (s : State) → IsNetState net.now s → result ≡ owed_by net.now.declared s (machine_step step.now) }
{
    match step {
        Step::Move(Move::Emit(node)) => owed_with_limit(net, *node),
        _ => 0,
    }
}

/// The same of the node where the link end stands; 0 at a switch.
#[inline(always)]
fn owed_at<R: Routing, A: Arbiter>(net: &Net<'_, R, A>, end: LinkEnd) -> usize
    requires { end < 2 * length net.now.declared.links }
    ensures { OwedAt net.now end result }
{
    match net.place_of(end) {
        PlaceEnd::Node(node) => owed_with_limit(net, node),
        PlaceEnd::Switch(_, _) => 0,
    }
}

impl Unanswered {
    /// Counts the step, which was made; the node that puts a character on its wire by it owed so many replies before, if it has a limit.
    #[inline(always)]
    fn count<R: Routing, A: Arbiter>(&mut self, net: &Net<'_, R, A>, step: &Step, before: usize)
        ensures { (t : State) → IsNetState net.now t → self.new ≡ counted_after net.now.declared self.old (machine_step step.now) before t }
    {
        match step {
            Step::Begin { flow, .. } => self.begin(net.network(), *flow),
            Step::Move(Move::Emit(node)) => {
                if owed_with_limit(net, *node) < before {
                    self.settle(*node);
                }
            }
            _ => {}
        }
    }

    /// Makes the step, if the machine can, and counts it. No arbiter is asked.
    ///
    /// # Errors
    ///
    /// The step begins a packet that the network's flows don't declare, or is not possible, or there is no memory for what it stores.
    /// Then nothing has changed.
    #[inline(always)]
    pub fn step<R: Routing, A: Arbiter>(
        &mut self,
        alloc: Global,
        net: &mut Net<'_, R, A>,
        step: &Step,
    ) -> Result<(), NetFault>
        ensures network { net.new.declared ≡ net.old.declared }
        ensures answers { NetAnswers net.old (machine_step step.now) result net.new }
        ensures arbiters { arbiters_of net.new.switches ≡ arbiters_of net.old.switches }
        ensures refused { OnErr result (net.new ≡ net.old) }
        ensures counted { OnOk result (HasCounted net.old self.old (machine_step step.now) net.new self.new) }
        ensures uncounted { OnErr result (self.new ≡ self.old) }
    {
        let before = owed_by(net, step);
        match net.step(alloc, step) {
            Ok(()) => {
                self.count(net, step, before);
                Ok(())
            }
            Err(fault) => Err(fault),
        }
    }

    /// Makes a step that belongs to the link end, if one is possible other than to begin a packet, counts it, and tells which it is:
    /// that which `Net::step_of` makes.
    ///
    /// # Errors
    ///
    /// There is no memory for what the step stores: then nothing has changed.
    pub fn step_of<R: Routing, A: Arbiter>(
        &mut self,
        alloc: Global,
        net: &mut Net<'_, R, A>,
        end: LinkEnd,
    ) -> Result<Option<Step>, AllocError>
        requires { end < 2 * length net.old.declared.links }
        ensures network { net.new.declared ≡ net.old.declared }
        ensures moves { MovesAt R.answer A.policy net.old end result net.new }
        ensures counted { HasCountedMove net.old self.old result net.new self.new }
    {
        let before = owed_at(net, end);
        match net.step_of(alloc, end) {
            Ok(Some(step)) => {
                self.count(net, &step, before);
                Ok(Some(step))
            }
            Ok(None) => Ok(None),
            Err(refused) => Err(refused),
        }
    }
}
