//! A step of a link end.
ghost use Rattle.std.specs.Prelude.{◌≡◌, ◌<◌, ◌*◌, Ok, Some, false, length, slice_get};
ghost use Rattle.sw_cell.specs.Possible.{step_at_node, step_at_port};
ghost use Rattle.sw_cell.specs.declared.switch.PortStep.{PortStep};
ghost use Rattle.sw_flow.specs.Places.{ends_of};
ghost use Rattle.sw_machine.specs.Network.{AtSwitch};
ghost use Rattle.sw_machine.specs.Model.{network_of};
ghost use Rattle.sw_machine.specs.StepValues.{machine_move, machine_step};
ghost use Rattle.sw_topo.specs.Checked.{IsIn};

use crate::net::Net;
use std::alloc::{AllocError, Global};
use sw_arb::Arbiter;
use sw_cell::node::NodeStep;
use sw_cell::switch::PortStep;
use sw_cell::{NetFault, node, switch};
use sw_config::Network;
use sw_machine::{Move, Step};
use sw_route::Routing;
use sw_topo::{LinkEnd, PlaceEnd};

/// The step at node `n`.
#[tactic(auto, unfolding(sw_machine::specs::Model::network_of))]
fn node_step(network: &Network, n: u16, step: NodeStep) -> Move
    requires { n < length network.now.nodes }
    ensures { machine_move result ≡ step_at_node (network_of network.now) n step }
{
    match step {
        NodeStep::Fct => Move::Fct(network.topology().into(n)),
        NodeStep::FctIn => Move::FctIn(network.topology().out(n)),
        NodeStep::Arrive => Move::Arrive(network.topology().into(n)),
        NodeStep::Emit => Move::Emit(n),
        NodeStep::Accept => Move::Accept(n),
        NodeStep::Reply => Move::Reply(n),
    }
}

/// The step at the link end of a port.
fn port_step(end: LinkEnd, step: PortStep) -> Move
    ensures { machine_move result ≡ step_at_port end step }
{
    match step {
        PortStep::Fct => Move::Fct(end.receives()),
        PortStep::FctIn => Move::FctIn(end.sends()),
        PortStep::Arrive => Move::Arrive(end.receives()),
        PortStep::DropFront => Move::Drop(end.receives()),
        PortStep::Forward => Move::Forward(end.receives()),
        PortStep::Spill => Move::Spill(end.receives()),
    }
}

impl<'n, R: Routing, A: Arbiter> Net<'n, R, A> {
    ghost use Rattle.sw_net.specs.Making.{MovesAt, TellsReady};
    ghost use Rattle.sw_net.specs.Possible.{Tells};

    /// A step of the link end, which stands at `place`, that is possible, other than to begin a packet
    /// or to grant its output. None where it has none.
    #[inline(always)]
    pub(crate) fn first_ready(&self, end: LinkEnd, place: PlaceEnd) -> Option<Step>
        requires starts { slice_get (ends_of self.now.declared) end ≡ Some place }
        requires inside { IsIn (length self.now.declared.nodes) (length self.now.declared.switches) place }
        requires within { end < (network_of self.now.declared).channels }
        ensures { TellsReady self.now end result place }
    {
        let network = self.network();
        match place {
            PlaceEnd::Node(n) => {
                match node::possible_step(network, n, self.node(n), &self.wires) {
                    Some(first) => Some(Step::Move(node_step(network, n, first))),
                    None => None,
                }
            }
            PlaceEnd::Switch(w, _) => {
                match switch::possible_step(network, w, end, self.switch(w), &self.wires) {
                    Some(first) => Some(Step::Move(port_step(end, first))),
                    None => None,
                }
            }
        }
    }

    /// Grants the output of the link end, which stands at switch `w` and can make no other step, to
    /// the input that its arbiter picks.
    fn arbitrate(&mut self, w: u16, end: LinkEnd) -> Option<Step>
        requires switch { w < length self.old.declared.switches }
        requires at { (network_of self.old.declared).start_of end ≡ AtSwitch w }
        requires no_other { (step : PortStep) → Tells self.old (step_at_port end step) false }
        ensures network { self.new.declared ≡ self.old.declared }
        ensures moves { MovesAt R.answer A.policy self.old end (Ok result) self.new }
    {
        let cell = &mut self.switches[w as usize];
        let channel = switch::arbitrate(self.network, w, end.sends(), cell)?;
        Some(Step::Move(Move::Grant(end.sends(), channel)))
    }

    /// Makes a step that belongs to the link end, if one is possible other than to begin a packet,
    /// and tells which. A grant of its output comes after its other steps, and goes to the input
    /// that the output's arbiter picks among those that ask (ECSS-E-ST-50-12C, network layer:
    /// arbitration). No other arbiter changes.
    ///
    /// # Errors
    ///
    /// There is no memory for what the step stores: then nothing has changed.
    pub fn step_of(&mut self, alloc: Global, end: LinkEnd) -> Result<Option<Step>, AllocError>
        requires { end < 2 * length self.old.declared.links }
        ensures network { self.new.declared ≡ self.old.declared }
        ensures moves { MovesAt R.answer A.policy self.old end result self.new }
    {
        let place = self.place_of(end);
        match self.first_ready(end, place) {
            Some(step) => match self.step(alloc, &step) {
                Ok(()) => Ok(Some(step)),
                Err(fault) => match fault {
                    NetFault::Memory => Err(AllocError),
                    NetFault::NotEnabled => unreachable!(),
                    NetFault::NotInFlow => unreachable!(),
                },
            },
            None => match &place {
                PlaceEnd::Node(_) => Ok(None),
                PlaceEnd::Switch(w, _) => Ok(self.arbitrate(*w, end)),
            },
        }
    }
}
