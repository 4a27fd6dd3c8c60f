//! Where a step is done.
ghost use Rattle.sw_cell.specs.Places.{IsDoneAt};
ghost use Rattle.sw_machine.specs.StepValues.{machine_step};

use crate::cell::CellId;
use crate::fault::NetFault;
use crate::node::begins_at;
use sw_config::Network;
use sw_machine::{Move, Step};
use sw_topo::PlaceEnd;

/// The cell at which the step is done.
///
/// # Errors
///
/// `NotInFlow`: the step begins a packet that no flow declares. `NotEnabled`: it begins none such,
/// and is never possible, since the network has not what it names. `Memory` does not come.
#[inline(always)]
#[tactic(auto, unfolding(sw_machine::specs::Model::network_of))]
pub fn cell_of(network: &Network, step: &Step) -> Result<CellId, NetFault>
    ensures { IsDoneAt network.now (machine_step step.now) result }
{
    match step {
        Step::Begin { flow, cargo, end } => {
            match begins_at(network, *flow, cargo, *end) {
                Some(n) => Ok(CellId::Node(n)),
                None => Err(NetFault::NotInFlow),
            }
        }
        Step::Move(step) => match step {
            Move::FctIn(channel) => {
                if channel.number() >= network.channels() {
                    return Err(NetFault::NotEnabled);
                }
                match network.topology().start_of(*channel) {
                    PlaceEnd::Node(n) => Ok(CellId::Node(n)),
                    PlaceEnd::Switch(w, _) => Ok(CellId::Switch(w)),
                }
            }
            Move::Fct(channel)
            | Move::Arrive(channel)
            | Move::Grant(_, channel)
            | Move::Drop(channel)
            | Move::Forward(channel)
            | Move::Spill(channel) => {
                if channel.number() >= network.channels() {
                    return Err(NetFault::NotEnabled);
                }
                match network.topology().end_of(*channel) {
                    PlaceEnd::Node(n) => Ok(CellId::Node(n)),
                    PlaceEnd::Switch(w, _) => Ok(CellId::Switch(w)),
                }
            }
            Move::Emit(node) | Move::Accept(node) | Move::Reply(node) => {
                if *node < network.nodes() {
                    Ok(CellId::Node(*node))
                } else {
                    Err(NetFault::NotEnabled)
                }
            }
        },
    }
}
