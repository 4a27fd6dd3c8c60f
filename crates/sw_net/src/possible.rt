//! Which steps are possible.
ghost use Rattle.std.specs.Prelude.{◌≡◌, ◌<◌, length};
ghost use Rattle.sw_cell.specs.Places.{IsAt};
ghost use Rattle.sw_cell.specs.declared.cell.CellId.{CellId};
ghost use Rattle.sw_machine.specs.Model.{network_of};
ghost use Rattle.sw_machine.specs.StepValues.{machine_move, machine_step};
ghost use Rattle.sw_net.specs.Possible.{granted_by, kind_at_node, kind_at_port};

use crate::changed_ends::receiver;
use crate::net::Net;
use sw_arb::Arbiter;
use sw_cell::node::NodeStep;
use sw_cell::switch::PortStep;
use sw_cell::{CellId, cell_of, node, switch};
use sw_machine::{Move, Step};
use sw_route::Routing;
use sw_topo::{Chan, LinkEnd};

/// Which step of a node it is, at whichever node. None where it is never done at a node.
fn node_kind(step: Move) -> Option<NodeStep>
    ensures { result ≡ kind_at_node (machine_move step) }
{
    match step {
        Move::Fct(_) => Some(NodeStep::Fct),
        Move::FctIn(_) => Some(NodeStep::FctIn),
        Move::Arrive(_) => Some(NodeStep::Arrive),
        Move::Emit(_) => Some(NodeStep::Emit),
        Move::Accept(_) => Some(NodeStep::Accept),
        Move::Reply(_) => Some(NodeStep::Reply),
        Move::Grant(_, _) | Move::Drop(_) | Move::Forward(_) | Move::Spill(_) => None,
    }
}

/// Which step of a port it is, and of which link end. None where it is a grant, or is never done at
/// a switch.
fn port_kind(step: Move) -> Option<(LinkEnd, PortStep)>
    ensures { result ≡ kind_at_port (machine_move step) }
{
    match step {
        Move::Fct(channel) => Some((receiver(channel), PortStep::Fct)),
        Move::FctIn(channel) => Some((LinkEnd::new(channel.number()), PortStep::FctIn)),
        Move::Arrive(channel) => Some((receiver(channel), PortStep::Arrive)),
        Move::Drop(channel) => Some((receiver(channel), PortStep::DropFront)),
        Move::Forward(channel) => Some((receiver(channel), PortStep::Forward)),
        Move::Spill(channel) => Some((receiver(channel), PortStep::Spill)),
        Move::Grant(_, _) | Move::Emit(_) | Move::Accept(_) | Move::Reply(_) => None,
    }
}

/// The output that the step grants, and the channel whose input gets it. None where it is no grant.
fn grant_of(step: Move) -> Option<(Chan, Chan)>
    ensures { result ≡ granted_by (machine_move step) }
{
    match step {
        Move::Grant(output, channel) => Some((output, channel)),
        _ => None,
    }
}

impl<'n, R: Routing, A: Arbiter> Net<'n, R, A> {
    ghost use Rattle.sw_net.specs.Possible.{TellsBeginning, Tells};

    /// Whether the node can begin a packet (ECSS-E-ST-50-12C, network layer: packets). This hangs on
    /// no packet: it can begin each that a flow which starts there declares, or none.
    pub fn can_begin(&self, node: u16) -> bool
        requires { node < length self.now.declared.nodes }
        ensures { TellsBeginning self.now node result }
    {
        let _network = self.network();
        node::can_begin(node, self.node(node))
    }

    /// Whether the step is possible. A step of a cell, a channel or a flow that the network has not
    /// is not, nor is the beginning of a packet that no flow declares.
    pub fn is_possible(&self, step: &Step) -> bool
        ensures { Tells self.now (machine_step step.now) result }
    {
        let network = self.network();
        match cell_of(network, step) {
            Ok(CellId::Node(n)) => match step {
                Step::Move(step) => match node_kind(*step) {
                    Some(kind) => node::is_possible(network, n, kind, self.node(n), &self.wires),
                    None => false,
                },
                Step::Begin { .. } => self.can_begin(n),
            },
            Ok(CellId::Switch(w)) => {
                let Step::Move(step) = step else {
                    return false;
                };
                let cell = self.switch(w);
                match port_kind(*step) {
                    Some(asked) => switch::is_possible(
                        network,
                        w,
                        asked.0,
                        asked.1,
                        cell,
                        &self.wires,
                    ),
                    None => match grant_of(*step) {
                        Some(grant) => switch::can_grant(network, w, grant.0, grant.1, cell),
                        None => false,
                    },
                }
            }
            Err(_) => false,
        }
    }
}
