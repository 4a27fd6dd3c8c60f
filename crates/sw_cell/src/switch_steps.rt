//! The steps of a switch.
ghost use Rattle.std.specs.Prelude.{◌≡◌};
ghost use Rattle.sw_cell.specs.SwitchParts.{HasSwitchState, IsSwitchFor, SwitchMakes};
ghost use Rattle.sw_machine.specs.Network.{AtSwitch};
ghost use Rattle.sw_machine.specs.Parts.{cell_of};
ghost use Rattle.sw_machine.specs.Model.{network_of};
ghost use Rattle.sw_machine.specs.StepValues.{machine_step};

use crate::switch;
use sw_arb::Arbiter;
use sw_config::Network;
use sw_link::Wires;
use sw_machine::{Move, Step};
use sw_route::Routing;
use sw_switch::SwitchCell;

/// Makes the step, which has to be one at switch `w`, if it is possible. A grant asks no arbiter.
#[inline(always)]
pub fn step_switch<R: Routing, A: Arbiter>(
    network: &Network,
    w: u16,
    cell: &mut SwitchCell<R, A>,
    wires: &mut Wires,
    step: &Step,
) -> bool
    requires cell { IsSwitchFor R.answer A.ports network.now w cell.old }
    requires reached { HasSwitchState network.now w cell.old wires.old }
    requires at { cell_of (network_of network.now) (machine_step step.now) ≡ AtSwitch w }
    ensures cell { IsSwitchFor R.answer A.ports network.now w cell.new }
    ensures arbiters { cell.new.arbiters ≡ cell.old.arbiters }
    ensures made { SwitchMakes network.now w cell.old wires.old (machine_step step.now) result cell.new wires.new }
{
    match step {
        Step::Move(step) => match step {
            Move::Fct(channel) => switch::fct(network, w, *channel, cell, wires),
            Move::FctIn(channel) => switch::fct_in(network, w, *channel, cell, wires),
            Move::Arrive(channel) => switch::arrive(network, w, *channel, cell, wires),
            Move::Grant(output, channel) => switch::grant(network, w, *output, *channel, cell),
            Move::Drop(channel) => switch::drop_front(network, w, *channel, cell),
            Move::Forward(channel) => switch::forward(network, w, *channel, cell, wires),
            Move::Spill(channel) => switch::spill(network, w, *channel, cell),
            _ => false,
        },
        Step::Begin { .. } => false,
    }
}
