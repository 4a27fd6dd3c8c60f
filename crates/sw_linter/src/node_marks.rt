//! What is noted of nodes.
ghost use Rattle.std.specs.Prelude.{◌≡◌, IfOk};

use crate::lint::Lint;
use crate::tables::{is_marked, mark};
use std::alloc::{AllocError, Global};
use std::marker::Model;
use sw_config::{Flow, Network};

/// For each node whether a declared flow is from it, and whether one is to it.
#[derive(Drop)]
pub(crate) struct NodeMarks {
    from: Vec<bool>,
    to: Vec<bool>,
}

impl Model for NodeMarks {
    ghost use Rattle.sw_linter.specs.Marks.{NodeLists};

    ghost Value = { NodeLists };

    ghost view = { λ m. record { from = m.from.items; to = m.to.items } };
}

impl NodeMarks {
    ghost use Rattle.std.specs.Prelude.{◌<◌, fold, length};
    ghost use Rattle.std.specs.Option.{option_to_list};
    ghost use Rattle.sw_linter.specs.Marks.{nodes_of, unused_node_by, unused_target_by, with_flow};

    fn note(&mut self, flow: &Flow)
        ensures { self.new ≡ with_flow self.old flow.now }
    {
        mark(&mut self.from, Some(usize::from(flow.from())));
        mark(&mut self.to, Some(usize::from(flow.to())));
    }

    fn note_all(&mut self, network: &Network)
        ensures { self.new ≡ fold with_flow self.old network.now.flows }
    {
        for number in 0..network.declared_flows() {
            let _flows = network.flows();
            self.note(network.flow(number));
        }
    }

    /// What is noted of the nodes of the network.
    pub(crate) fn of_network(alloc: Global, network: &Network) -> Result<NodeMarks, AllocError>
        ensures { IfOk result (λ m. m ≡ nodes_of network.now) }
    {
        let nodes = usize::from(network.nodes());
        let from = vec![in alloc; false; nodes]?;
        let to = vec![in alloc; false; nodes]?;
        let mut marks = NodeMarks { from, to };
        marks.note_all(network);
        Ok(marks)
    }

    /// The node, if no flow is from or to it.
    pub(crate) fn unused_node(&self, node: u16) -> Option<Lint>
        ensures { option_to_list result ≡ unused_node_by self.now node }
    {
        let at = usize::from(node);
        if is_marked(&self.from, at) || is_marked(&self.to, at) {
            None
        } else {
            Some(Lint::UnusedNode(node))
        }
    }

    /// The node, if it is a target to which no flow goes, and a flow is from it.
    pub(crate) fn unused_target(&self, network: &Network, node: u16) -> Option<Lint>
        requires { node < length network.now.nodes }
        ensures { option_to_list result ≡ unused_target_by network.now self.now node }
    {
        let at = usize::from(node);
        if network.is_target(node) && is_marked(&self.from, at) && !is_marked(&self.to, at) {
            Some(Lint::UnusedTarget(node))
        } else {
            None
        }
    }
}
