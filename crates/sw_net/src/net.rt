//! A network's cells, and what lies between them.

use std::marker::Model;
use sw_arb::Arbiter;
use sw_config::Network;
use sw_link::Wires;
use sw_node::NodeCell;
use sw_route::Routing;
use sw_switch::SwitchCell;

/// A network in one of its machine's reached states: a cell for each node and each switch, and the
/// wires and FCTs under way between them.
#[derive(Drop)]
pub struct Net<'n, R: Routing, A: Arbiter> {
    pub(crate) network: &'n Network,
    pub(crate) nodes: Vec<NodeCell>,
    pub(crate) switches: Vec<SwitchCell<R, A>>,
    pub(crate) wires: Wires,
}

impl<'n, R: Routing, A: Arbiter> Model for Net<'n, R, A> {
    ghost use Rattle.sw_net.specs.Net.{IsNet, NetView, net_of};

    ghost Value = { NetView R A };

    ghost view = { λ n. net_of n.network.now n.nodes.items n.switches.items n.wires };

    ghost invariant = { λ n. IsNet R.answer A.ports (net_of n.network.now n.nodes.items n.switches.items n.wires) };
}

impl<'n, R: Routing + Drop, A: Arbiter + Drop> Net<'n, R, A> {
    /// Lets the cells go. `drop` does the same, and has the crate that calls it prove the drop of each part once more.
    pub fn discard(self) {}
}
