//! What can be asked of a history.
ghost use Rattle.std.specs.Prelude.{◌≡◌, ◌↔◌, ◌<◌, ◌*◌, IfOk, IsTrue, length, map};
ghost use Rattle.sw_load.specs.History.{IsWhole, packets_of};
ghost use Rattle.sw_machine.specs.State.{State};
ghost use Rattle.sw_machine.specs.Model.{network_of};
ghost use Rattle.sw_net.specs.Net.{IsNetState};
ghost use Rattle.sw_machine.specs.StepValues.{machine_step};

use crate::history::History;
use crate::record::{Record, steps_of};
use std::alloc::{AllocError, Global};
use sw_arb::Arbiter;
use sw_config::Network;
use sw_load::Load;
use sw_machine::Step;
use sw_net::Net;
use sw_route::Routing;
use sw_topo::{LinkEnd, PortSet};

impl<'n, R: Routing, A: Arbiter> History<'n, R, A> {
    ghost use Rattle.sw_history.specs.Asking.{AreAsking};
    ghost use Rattle.sw_history.specs.History.{IsNext, IsSoundHistory, LeadsTo};
    ghost use Rattle.sw_history.specs.Next.{IsIdle};

    /// The network that makes the steps.
    pub fn network(&self) -> &'n Network
        ensures network { result.now ≡ self.now.declared }
        ensures sound { IsSoundHistory self.now }
    {
        self.net.network()
    }

    /// The load whose packets are begun.
    pub fn load(&self) -> &'n Load
        ensures { result.now ≡ self.now.load }
    {
        self.senders.load()
    }

    /// The steps, in their order.
    ///
    /// # Errors
    ///
    /// There is no memory for the steps.
    pub fn steps(&self, alloc: Global) -> Result<Vec<Step>, AllocError>
        ensures { IfOk result (λ all. map machine_step all.items ≡ self.now.steps) }
    {
        steps_of(alloc, &self.senders, &self.notes)
    }

    /// The network in the state after the steps.
    pub fn net(&self) -> &Net<'n, R, A>
        ensures declared { result.now.declared ≡ self.now.declared }
        ensures state { (s : State) → LeadsTo self.now s → IsNetState result.now s }
    {
        &self.net
    }

    /// The ports, 0 to 31, to whose inputs the output of the link end can be granted by the next
    /// step: those where a packet waits whose leading byte names the output, while that is free
    /// (ECSS-E-ST-50-12C, network layer: wormhole routing). There are none at a node.
    pub fn asks(&self, end: LinkEnd) -> PortSet
        ensures { AreAsking self.now.declared (packets_of self.now.load) self.now.steps end result }
    {
        self.net.asks(end)
    }

    /// Whether the whole load is begun: each node has begun all its packets.
    pub fn is_whole(&self) -> bool
        ensures { IsTrue result ↔ IsWhole (network_of self.now.declared) (packets_of self.now.load) self.now.steps }
    {
        for node in 0..self.net.network().nodes() {
            if self.next(node).is_some() {
                return false;
            }
        }
        true
    }

    /// Whether the step may be the next.
    pub fn may_follow(&self, step: &Step) -> bool
        ensures { IsTrue result ↔ IsNext self.now (machine_step step.now) }
    {
        match self.beginner(step) {
            Ok(_) => self.net.is_possible(step),
            Err(_) => false,
        }
    }

    /// Whether no step may be the next that belongs to the link end.
    pub fn is_idle(&self, end: LinkEnd) -> bool
        requires { end < 2 * length self.now.declared.links }
        ensures { IsTrue result ↔ IsIdle (network_of self.now.declared) (packets_of self.now.load) self.now.steps end }
    {
        if self.net.can_step(end) {
            return false;
        }
        self.may_begin_at(end).is_none()
    }
}

impl<'n, R: Routing + Drop, A: Arbiter + Drop> History<'n, R, A> {
    ghost use Rattle.std.specs.Prelude.{◌≡◌};

    /// The steps, and nothing else.
    pub fn into_steps(self) -> Record<'n>
        ensures { result ≡ self.entry.steps }
    {
        let History {
            net,
            senders,
            notes,
            begun: _,
            unanswered: _,
        } = self;
        net.discard();
        Record { senders, notes }
    }
}
