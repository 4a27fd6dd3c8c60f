//! The steps of a node.
ghost use Rattle.std.specs.Prelude.{◌≡◌, IfOk, OnErr};
ghost use Rattle.sw_cell.specs.Answers.{Stores};
ghost use Rattle.sw_cell.specs.Places.{HasNamed};
ghost use Rattle.sw_cell.specs.Makes.{HasNodeState, NodeMakes};
ghost use Rattle.sw_cell.specs.Parts.{IsNodeFor, IsNodeState};
ghost use Rattle.sw_machine.specs.Network.{AtNode};
ghost use Rattle.sw_machine.specs.Parts.{cell_of};
ghost use Rattle.sw_machine.specs.State.{State};
ghost use Rattle.sw_machine.specs.Steps.{IsPossible};
ghost use Rattle.sw_machine.specs.Model.{network_of};
ghost use Rattle.sw_machine.specs.StepValues.{machine_step};

use crate::node;
use std::alloc::{AllocError, Global};
use sw_config::Network;
use sw_link::Wires;
use sw_machine::{Move, Step};
use sw_node::NodeCell;

/// Makes the step, which has to be one at node `n`, if it is possible.
///
/// # Errors
///
/// There is no memory for what the step stores: only where the step is possible. Then nothing has
/// changed.
#[inline(always)]
pub fn step_node(
    alloc: Global,
    network: &Network,
    n: u16,
    cell: &mut NodeCell,
    wires: &mut Wires,
    step: &Step,
) -> Result<bool, AllocError>
    requires cell { IsNodeFor network.now n cell.old }
    requires reached { HasNodeState (network_of network.now) n cell.old wires.old }
    requires named { HasNamed (network_of network.now) (machine_step step.now) }
    requires at { cell_of (network_of network.now) (machine_step step.now) ≡ AtNode n }
    ensures cell { IsNodeFor network.now n cell.new }
    ensures made { IfOk result (λ made. NodeMakes (network_of network.now) n cell.old wires.old (machine_step step.now) made cell.new wires.new) }
    ensures stores { OnErr result (Stores (machine_step step.now)) }
    ensures possible { OnErr result ((s : State) → IsNodeState (network_of network.now) n cell.old wires.old s → IsPossible (network_of network.now) s (machine_step step.now)) }
    ensures refused_cell { OnErr result (cell.new ≡ cell.old) }
    ensures refused_wires { OnErr result (wires.new ≡ wires.old) }
{
    match step {
        Step::Move(step) => match step {
            Move::Fct(_) => Ok(node::fct(network, n, cell, wires)),
            Move::FctIn(_) => Ok(node::fct_in(network, n, cell, wires)),
            Move::Arrive(_) => Ok(node::arrive(network, n, cell, wires)),
            Move::Emit(_) => Ok(node::emit(network, n, cell, wires)),
            Move::Accept(_) => node::accept(alloc, n, cell),
            Move::Reply(_) => Ok(node::reply(n, cell)),
            _ => Ok(false),
        },
        Step::Begin { flow, cargo, end } => {
            node::begin(alloc, network, n, *flow, cargo, *end, cell)
        }
    }
}
