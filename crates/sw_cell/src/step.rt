//! Any step at any cell.
ghost use Rattle.std.specs.Prelude.{◌≡◌, OnErr};
ghost use Rattle.sw_cell.specs.Answers.{AnswersAt, done};
ghost use Rattle.sw_cell.specs.CellParts.{HasCellState, IsCellFor, IsCellState, arbiters_of};
ghost use Rattle.sw_machine.specs.Model.{network_of};
ghost use Rattle.sw_machine.specs.StepValues.{machine_step};

use crate::cell::{CellId, CellState};
use crate::fault::NetFault;
use crate::node_steps::step_node;
use crate::place::cell_of;
use crate::switch_steps::step_switch;
use std::alloc::Global;
use sw_arb::Arbiter;
use sw_config::Network;
use sw_link::Wires;
use sw_machine::Step;
use sw_route::Routing;

/// The answer where a step was made, or was not possible.
///
/// # Errors
///
/// `NotEnabled`: the step was not possible. No other error comes.
pub fn made_or_not(made: bool) -> Result<(), NetFault>
    ensures { result ≡ done made }
{
    if made {
        Ok(())
    } else {
        Err(NetFault::NotEnabled)
    }
}

/// Makes the step on the cell and what lies between the cells.
///
/// # Errors
///
/// `NotInFlow`: the step begins a packet that no flow declares. `NotEnabled`: it begins none such,
/// and is a step of another cell or is not possible. `Memory`: it is one of this cell and possible,
/// and there is no memory for what it stores. After a refusal nothing has changed.
///
/// A grant asks no arbiter: the step names the input.
pub fn step_cell<R: Routing, A: Arbiter>(
    alloc: Global,
    network: &Network,
    at: CellId,
    cell: &mut CellState<R, A>,
    wires: &mut Wires,
    step: &Step,
) -> Result<(), NetFault>
    requires cell { IsCellFor R.answer A.ports network.now at cell.old }
    requires reached { HasCellState network.now at cell.old wires.old }
    ensures cell { IsCellFor R.answer A.ports network.now at cell.new }
    ensures arbiters { arbiters_of cell.new ≡ arbiters_of cell.old }
    ensures answers { AnswersAt (network_of network.now) at (IsCellState network.now at cell.old wires.old) (machine_step step.now) result (IsCellState network.now at cell.new wires.new) }
    ensures refused_cell { OnErr result (cell.new ≡ cell.old) }
    ensures refused_wires { OnErr result (wires.new ≡ wires.old) }
{
    if !cell_of(network, step)?.is(at) {
        return Err(NetFault::NotEnabled);
    }
    match at {
        CellId::Node(n) => match cell {
            CellState::Node(node) => made_or_not(step_node(alloc, network, n, node, wires, step)?),
            CellState::Switch(_) => unreachable!(),
        },
        CellId::Switch(w) => match cell {
            CellState::Node(_) => unreachable!(),
            CellState::Switch(switch) => made_or_not(step_switch(network, w, switch, wires, step)),
        },
    }
}
