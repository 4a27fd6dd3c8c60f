//! A network that is being put together.
ghost use Rattle.std.specs.Prelude.{◌≡◌, ◌+◌, ◌<◌, ◌≤◌, ◌++◌, ◌∷◌, [], Err, Ok, false, length, position, IfErr, IfOk, IfSome, OnOk, OnErr};
ghost use Rattle.std.specs.List.{list_any};
ghost use Rattle.std.specs.Str.{bytes_eq};
ghost use Rattle.sw_route.specs.Checked.{IsIn, Finishes, checked};
ghost use Rattle.sw_rmap.specs.Config.{IsTargetConfig};
ghost use Rattle.sw_config.specs.LimitRows.{no_limits};

use crate::entries::{Link, Node, Switch};
use crate::flow_table::FlowTable;
use crate::limit_table::LimitTable;
use crate::names::NameTable;
use crate::network::Network;
use std::alloc::{AllocError, Global};
use std::marker::Model;
use sw_arb::Arbitration;
use sw_rmap::TargetConfig;
use sw_route::{Builder, MAX_NODES, MAX_SWITCHES, PlaceEnd, TableRoutes, TopoError, Topology};

/// The nodes, switches and links of a network so far: nodes come first, then switches.
///
/// Nodes and switches share one set of names.
#[derive(Drop)]
pub struct NetworkBuilder {
    wiring: Builder,
    names: NameTable,
    nodes: Vec<Node>,
    switches: Vec<Switch>,
    links: Vec<Link>,
}

impl Model for NetworkBuilder {
    ghost use Rattle.std.specs.Prelude.{[]};
    ghost use Rattle.sw_config.specs.Entries.{Declaration};
    ghost use Rattle.sw_config.specs.Building.{IsBuilder};

    ghost Value = { Declaration };

    ghost view = { λ b. record { nodes = b.nodes.items; switches = b.switches.items; links = b.links.items; flows = [] } };

    ghost invariant = { λ b. IsBuilder b.wiring b.names (record { nodes = b.nodes.items; switches = b.switches.items; links = b.links.items; flows = [] }) };
}

impl NetworkBuilder {
    ghost use Rattle.sw_config.specs.Entries.{empty, part_names};
    ghost use Rattle.sw_config.specs.Building.{Wires};
    ghost use Rattle.sw_config.specs.Valid.{IsOutstanding};

    /// Nothing.
    pub fn new(alloc: Global) -> NetworkBuilder
        ensures { result ≡ empty }
    {
        NetworkBuilder {
            wiring: Builder::new(alloc),
            names: NameTable::new(alloc),
            nodes: Vec::new(alloc),
            switches: Vec::new(alloc),
            links: Vec::new(alloc),
        }
    }

    /// Lets go of what was added, as [`Network::discard`] does.
    pub fn discard(self) {
        self.names.discard();
    }

    /// How many nodes there are.
    pub fn node_count(&self) -> u16
        ensures count { result ≡ length self.now.nodes }
        ensures few { result ≤ MAX_NODES }
    {
        self.nodes.len() as u16
    }

    /// How many switches there are.
    pub fn switch_count(&self) -> u16
        ensures count { result ≡ length self.now.switches }
        ensures few { result ≤ MAX_SWITCHES }
    {
        self.switches.len() as u16
    }

    /// Has a node or a switch that name?
    pub fn has_name(&self, name: &str) -> bool
        ensures { result ≡ list_any (bytes_eq name.now) (part_names self.now) }
    {
        self.part_named(name).is_some()
    }

    /// The number of the node or switch of that name: nodes count from 0, and switches count on from the nodes.
    pub fn part_named(&self, name: &str) -> Option<usize>
        ensures part { result ≡ position (bytes_eq name.now) (part_names self.now) }
        ensures within { IfSome result (λ i. i < length self.now.nodes + length self.now.switches) }
    {
        self.names.index_of(name)
    }

    /// Adds a node of a new name, which is an RMAP target if `target` says how it answers. At most `outstanding` of its commands may be
    /// unanswered at once, 1 to 65,535, or any number.
    ///
    /// # Errors
    ///
    /// There is no memory for it: then the builder is as it was.
    pub fn add_node(
        &mut self,
        alloc: Global,
        name: &str,
        target: Option<TargetConfig>,
        outstanding: Option<u16>,
    ) -> Result<(), AllocError>
        requires few { length self.old.nodes < MAX_NODES }
        requires nodes_first { self.old.switches ≡ [] }
        requires new_name { list_any (bytes_eq name.now) (part_names self.old) ≡ false }
        requires target { IfSome target IsTargetConfig }
        requires outstanding { IfSome outstanding IsOutstanding }
        ensures ok { OnOk result (self.new ≡ record self.old { nodes = self.old.nodes ++ record { name = name.now; target = target; outstanding = outstanding } ∷ [] }) }
        ensures err { OnErr result (self.new ≡ self.old) }
    {
        let node = Node {
            name: String::from_str(alloc, name)?,
            target,
            outstanding,
        };
        let key = String::from_str(alloc, name);
        self.names.add(key, node, &mut self.nodes)?;
        self.wiring.node();
        Ok(())
    }

    /// Adds a routing switch of a new name.
    ///
    /// # Errors
    ///
    /// There is no memory for it: then the builder is as it was, and the table is gone.
    pub fn add_switch(
        &mut self,
        alloc: Global,
        name: &str,
        arbitration: Arbitration,
        table: TableRoutes,
    ) -> Result<(), AllocError>
        requires few { length self.old.switches < MAX_SWITCHES }
        requires new_name { list_any (bytes_eq name.now) (part_names self.old) ≡ false }
        ensures ok { OnOk result (self.new ≡ record self.old { switches = self.old.switches ++ record { name = name.now; arbitration = arbitration; routes = table } ∷ [] }) }
        ensures err { OnErr result (self.new ≡ self.old) }
    {
        let entry = Switch::new(alloc, name, arbitration, table)?;
        let key = String::from_str(alloc, name);
        self.names.add(key, entry, &mut self.switches)?;
        self.wiring.switch();
        Ok(())
    }

    /// Adds a link between its end `a` and its end `b`. The receive buffer at each end holds 8 to 4,096 characters.
    ///
    /// # Errors
    ///
    /// There is no memory for it: then the builder is as it was.
    pub fn add_link(
        &mut self,
        a: PlaceEnd,
        b: PlaceEnd,
        buffer_a: u16,
        buffer_b: u16,
    ) -> Result<(), AllocError>
        requires a_inside { IsIn (length self.old.nodes) (length self.old.switches) a }
        requires b_inside { IsIn (length self.old.nodes) (length self.old.switches) b }
        requires low_a { 8 ≤ buffer_a }
        requires high_a { buffer_a ≤ 4096 }
        requires low_b { 8 ≤ buffer_b }
        requires high_b { buffer_b ≤ 4096 }
        ensures ok { OnOk result (self.new ≡ record self.old { links = self.old.links ++ record { a = a; b = b; buffer_a = buffer_a; buffer_b = buffer_b } ∷ [] }) }
        ensures err { OnErr result (self.new ≡ self.old) }
    {
        self.links.reserve(1)?;
        let link = Link {
            a,
            b,
            buffer_a,
            buffer_b,
        };
        self.wiring.link(link.a, link.b)?;
        self.links.push_reserved(link);
        Ok(())
    }

    /// The network, still without flows. The builder is given up either way.
    ///
    /// # Errors
    ///
    /// The first fault of the wiring, or there is no memory for the network.
    pub fn wire(self, alloc: Global) -> Result<Network, TopoError>
        ensures { Wires result self }
    {
        let NetworkBuilder {
            wiring,
            names,
            nodes,
            switches,
            links,
        } = self;
        match join(wiring, alloc, nodes.len()) {
            Ok((topology, limits)) => Ok(Network {
                topology,
                names,
                nodes,
                switches,
                links,
                flows: FlowTable::new(alloc),
                replies: FlowTable::new(alloc),
                limits,
            }),
            Err(refused) => {
                names.discard();
                Err(refused)
            }
        }
    }
}

/// How the parts are joined, and the limits of so many nodes before any flow.
fn join(wiring: Builder, alloc: Global, nodes: usize) -> Result<(Topology, LimitTable), TopoError>
    ensures topology { IfOk result (λ made. checked wiring ≡ Ok made.0) }
    ensures limits { IfOk result (λ made. made.1 ≡ no_limits nodes) }
    ensures refused { IfErr result (λ refused. Finishes (Err refused) wiring) }
{
    let topology = wiring.finish(alloc)?;
    let limits = LimitTable::new(alloc, nodes)?;
    Ok((topology, limits))
}
