//! The machine's steps.
ghost use Rattle.std.specs.Prelude.{◌≡◌, OnErr};
ghost use Rattle.sw_cell.specs.Answers.{Answers};
ghost use Rattle.sw_cell.specs.Makes.{HasNodeState};
ghost use Rattle.sw_cell.specs.Parts.{IsNodeFor, IsNodeState};
ghost use Rattle.sw_cell.specs.Places.{IsAt};
ghost use Rattle.sw_cell.specs.declared.cell.CellId.{CellId};
ghost use Rattle.sw_machine.specs.Model.{network_of};
ghost use Rattle.sw_machine.specs.StepValues.{machine_step};

use crate::net::Net;
use std::alloc::Global;
use sw_arb::Arbiter;
use sw_cell::{CellId, NetFault, cell_of, made_or_not, step_node, step_switch};
use sw_config::Network;
use sw_link::Wires;
use sw_machine::Step;
use sw_node::NodeCell;
use sw_route::Routing;

/// Makes a step of node `n`, which has this cell.
#[inline(always)]
fn make_at_node(
    alloc: Global,
    network: &Network,
    n: u16,
    cell: &mut NodeCell,
    wires: &mut Wires,
    step: &Step,
) -> Result<(), NetFault>
    requires cell { IsNodeFor network.now n cell.old }
    requires reached { HasNodeState (network_of network.now) n cell.old wires.old }
    requires at { IsAt network.now (machine_step step.now) (CellId.Node n) }
    ensures cell { IsNodeFor network.now n cell.new }
    ensures answers { Answers (network_of network.now) (IsNodeState (network_of network.now) n cell.old wires.old) (machine_step step.now) result (IsNodeState (network_of network.now) n cell.new wires.new) }
    ensures refused_cell { OnErr result (cell.new ≡ cell.old) }
    ensures refused_wires { OnErr result (wires.new ≡ wires.old) }
{
    made_or_not(step_node(alloc, network, n, cell, wires, step)?)
}

impl<'n, R: Routing, A: Arbiter> Net<'n, R, A> {
    ghost use Rattle.sw_net.specs.Net.{NetAnswers, arbiters_of};

    /// Makes the step, if the machine can. No arbiter is asked.
    ///
    /// # Errors
    ///
    /// The step begins a packet that the network's flows don't declare, or is not possible, or
    /// there is no memory for what it stores, which only a step that begins a packet or takes a
    /// character at a node may want. Then nothing has changed.
    #[inline(always)]
    pub fn step(&mut self, alloc: Global, step: &Step) -> Result<(), NetFault>
        ensures network { self.new.declared ≡ self.old.declared }
        ensures answers { NetAnswers self.old (machine_step step.now) result self.new }
        ensures arbiters { arbiters_of self.new.switches ≡ arbiters_of self.old.switches }
        ensures refused { OnErr result (self.new ≡ self.old) }
    {
        match cell_of(self.network, step) {
            Ok(CellId::Node(n)) => {
                let cell = &mut self.nodes[n as usize];
                make_at_node(alloc, self.network, n, cell, &mut self.wires, step)
            }
            Ok(CellId::Switch(w)) => {
                let cell = &mut self.switches[w as usize];
                made_or_not(step_switch(self.network, w, cell, &mut self.wires, step))
            }
            Err(fault) => Err(fault),
        }
    }
}
