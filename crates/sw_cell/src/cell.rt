//! The cells of a network.
ghost use Rattle.std.specs.Prelude.{◌≡◌, ◌↔◌, IsTrue};

use sw_arb::Arbiter;
use sw_node::NodeCell;
use sw_route::Routing;
use sw_switch::SwitchCell;

/// Which cell of a network: the node, or the switch, of that number.
#[derive(Clone, Copy, PartialEq, Eq)]
pub enum CellId {
    /// A node.
    Node(u16),
    /// A routing switch.
    Switch(u16),
}

impl CellId {
    ghost use Rattle.sw_cell.specs.Places.{machine_cell};

    /// Is it that cell?
    pub fn is(self, other: CellId) -> bool
        ensures { IsTrue result ↔ (machine_cell self ≡ machine_cell other) }
    {
        match self {
            CellId::Node(n) => match other {
                CellId::Node(m) => n == m,
                CellId::Switch(_) => false,
            },
            CellId::Switch(w) => match other {
                CellId::Node(_) => false,
                CellId::Switch(v) => w == v,
            },
        }
    }
}

/// What a network keeps of a node, or of a routing switch.
#[derive(Drop)]
pub enum CellState<R: Routing, A: Arbiter> {
    /// A node, with its link.
    Node(NodeCell),
    /// A routing switch, with its ports.
    Switch(SwitchCell<R, A>),
}
