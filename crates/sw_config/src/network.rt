//! A network, valid by its type.
ghost use Rattle.std.specs.Prelude.{◌≡◌, ◌+◌, ◌*◌, ◌<◌, ◌≤◌, ◌++◌, ◌∷◌, [], Some, false, length, map, position, slice_get, option_map, is_some, IfOk, IfSome, OnOk, OnErr};
ghost use Rattle.std.specs.List.{list_any};
ghost use Rattle.std.specs.Str.{bytes_eq};
ghost use Rattle.sw_rmap.specs.Config.{IsTargetConfig};

use crate::entries::{Link, Node, Switch};
use crate::flow::Flow;
use crate::flow_table::FlowTable;
use crate::limit_table::LimitTable;
use crate::names::NameTable;
use either::Either;
use std::alloc::{AllocError, Global};
use std::marker::Model;
use sw_arb::Arbitration;
use sw_rmap::TargetConfig;
use sw_route::{
    Chan, IntervalRoutes, Look, MAX_FLOWS, MAX_LINKS, MAX_NODES, MAX_SWITCHES, Route, Routing,
    TableRoutes, Topology,
};

/// A network: nodes and switches rightly joined by links, and the flows of packets between its nodes.
///
/// Nodes, switches, links and flows are numbered from 0, in the order in which they were added. After the declared flows come
/// their reply flows, in the order of their flows.
#[derive(Drop)]
pub struct Network {
    pub(crate) topology: Topology,
    pub(crate) names: NameTable,
    pub(crate) nodes: Vec<Node>,
    pub(crate) switches: Vec<Switch>,
    pub(crate) links: Vec<Link>,
    pub(crate) flows: FlowTable,
    pub(crate) replies: FlowTable,
    pub(crate) limits: LimitTable,
}

impl Model for Network {
    ghost use Rattle.sw_config.specs.Entries.{Declaration};
    ghost use Rattle.sw_config.specs.Building.{IsNetwork};

    ghost Value = { Declaration };

    ghost view = { λ n. record { nodes = n.nodes.items; switches = n.switches.items; links = n.links.items; flows = n.flows } };

    ghost invariant = { λ n. IsNetwork n.topology n.names n.replies n.limits (record { nodes = n.nodes.items; switches = n.switches.items; links = n.links.items; flows = n.flows }) };
}

impl Network {
    ghost use Rattle.sw_route.specs.Looks.{IsTable};
    ghost use Rattle.sw_config.specs.Entries.{target_of, routes_of, look_at, wiring_of, capacities, all_flows, flow_names, is_answering, answering_marks};
    ghost use Rattle.sw_config.specs.Limits.{outstanding_of};
    ghost use Rattle.sw_config.specs.Valid.{IsValid, IsFlow, IsOutstanding};
    ghost use Rattle.sw_config.specs.Routings.{AnswersAs};
    /// Adds a declared flow of a new name, and its reply flow if it has replies.
    ///
    /// # Errors
    ///
    /// There is no memory for them: then the network is as it was, and the flow is gone.
    pub fn add_flow(&mut self, alloc: Global, flow: Flow) -> Result<(), AllocError>
        requires few { length self.old.flows < MAX_FLOWS }
        requires new_name { list_any (bytes_eq flow.name) (flow_names self.old.flows) ≡ false }
        requires flow { IsFlow self.old.nodes flow }
        ensures ok { OnOk result (self.new ≡ record self.old { flows = self.old.flows ++ flow ∷ [] }) }
        ensures err { OnErr result (self.new ≡ self.old) }
    {
        let own = self.outstanding(flow.from());
        let replies_before = self.replies.len();
        self.replies.add_reply(alloc, &flow)?;
        if let Err(refused) = self.flows.add_limited(alloc, flow, own, &mut self.limits) {
            self.replies.truncate(replies_before);
            return Err(refused);
        }
        Ok(())
    }

    /// Lets the network go. `drop` does the same, and has the crate that calls it prove the drop of each part once more.
    pub fn discard(self) {
        self.names.discard();
        self.flows.discard();
        self.replies.discard();
    }

    /// Lets go of the network that there may be, as [`Network::discard`] does.
    pub fn discard_any(network: Option<Network>) {
        if let Some(network) = network {
            network.discard();
        }
    }

    /// How its parts are joined.
    pub fn topology(&self) -> &Topology
        ensures wiring { result.now ≡ wiring_of self.now }
        ensures valid { IsValid self.now }
    {
        &self.topology
    }

    /// How many nodes there are.
    pub fn nodes(&self) -> u16
        ensures count { result ≡ length self.now.nodes }
        ensures few { result ≤ MAX_NODES }
    {
        self.topology.nodes()
    }

    /// How many switches there are.
    pub fn switches(&self) -> u16
        ensures count { result ≡ length self.now.switches }
        ensures few { result ≤ MAX_SWITCHES }
    {
        self.topology.switches()
    }

    /// How many links there are.
    pub fn links(&self) -> u16
        ensures count { result ≡ length self.now.links }
        ensures few { result ≤ MAX_LINKS }
    {
        self.topology.links()
    }

    /// How many channels there are: two a link.
    pub fn channels(&self) -> u16
        ensures count { result ≡ 2 * length self.now.links }
        ensures ends { result ≡ length (wiring_of self.now).ends }
        ensures few { result ≤ 2048 }
    {
        self.topology.channels()
    }

    /// How many characters the receive buffer where the channel ends holds: 8 to 4,096.
    pub fn capacity(&self, channel: Chan) -> u16
        requires { channel < 2 * length self.now.links }
        ensures capacity { slice_get (capacities self.now.links) channel ≡ Some result }
        ensures low { 8 ≤ result }
        ensures high { result ≤ 4096 }
    {
        let link = &self.links[channel.number() as usize / 2];
        if channel.number() % 2 == 0 {
            link.buffer_b
        } else {
            link.buffer_a
        }
    }

    /// The node's name.
    pub fn node_name(&self, node: u16) -> &str
        requires { node < length self.now.nodes }
        ensures { option_map (λ e. e.name) (slice_get self.now.nodes node) ≡ Some result.now }
    {
        let node = &self.nodes[node as usize];
        node.name.as_str()
    }

    /// The switch's name.
    pub fn switch_name(&self, switch: u16) -> &str
        requires { switch < length self.now.switches }
        ensures { option_map (λ e. e.name) (slice_get self.now.switches switch) ≡ Some result.now }
    {
        let switch = &self.switches[switch as usize];
        switch.name.as_str()
    }

    /// The node of that name.
    pub fn node_named(&self, name: &str) -> Option<u16>
        ensures node { result ≡ position (bytes_eq name.now) (map (λ e. e.name) self.now.nodes) }
        ensures within { IfSome result (λ n. n < length self.now.nodes) }
    {
        let Some(place) = self.names.index_of(name) else {
            return None;
        };
        if place < self.nodes.len() {
            Some(place as u16)
        } else {
            None
        }
    }

    /// What the node answers by, if it is an RMAP target.
    pub fn target(&self, node: u16) -> Option<TargetConfig>
        requires { node < length self.now.nodes }
        ensures target { result ≡ target_of self.now.nodes node }
        ensures valid { IfSome result IsTargetConfig }
    {
        let node = &self.nodes[node as usize];
        node.target
    }

    /// How many of the node's commands may be unanswered at once, if that is limited: 1 to 65,535.
    pub fn outstanding(&self, node: u16) -> Option<u16>
        requires { node < length self.now.nodes }
        ensures outstanding { result ≡ outstanding_of self.now.nodes node }
        ensures valid { IfSome result IsOutstanding }
    {
        let node = &self.nodes[node as usize];
        node.outstanding
    }

    /// Is the node an RMAP target?
    pub fn is_target(&self, node: u16) -> bool
        requires { node < length self.now.nodes }
        ensures { result ≡ is_some (target_of self.now.nodes node) }
    {
        self.target(node).is_some()
    }

    /// How the switch chooses among inputs that ask for one output (ECSS-E-ST-50-12C, network layer: arbitration).
    pub fn arbitration(&self, switch: u16) -> Arbitration
        requires { switch < length self.now.switches }
        ensures { option_map (λ e. e.arbitration) (slice_get self.now.switches switch) ≡ Some result }
    {
        let switch = &self.switches[switch as usize];
        switch.arbitration
    }

    /// The switch's routing table.
    pub fn routes(&self, switch: u16) -> &[Route]
        requires { switch < length self.now.switches }
        ensures routes { result.now ≡ routes_of self.now.switches switch }
        ensures table { IsTable result.now }
    {
        let switch = &self.switches[switch as usize];
        &switch.routes
    }

    /// What the leading byte of a packet names at the switch (ECSS-E-ST-50-12C, network layer: packet addressing).
    pub fn look(&self, switch: u16, byte: u8) -> Look
        requires { switch < length self.now.switches }
        ensures { result ≡ look_at self.now.switches switch byte }
    {
        let switch = &self.switches[switch as usize];
        switch.routing.look(byte)
    }

    /// The switch's routing table, by its entries where they are few, and by intervals of addresses where they are many.
    pub fn routing(&self, switch: u16) -> &Either<TableRoutes, IntervalRoutes>
        requires { switch < length self.now.switches }
        ensures { AnswersAs (routes_of self.now.switches switch) result.now }
    {
        let switch = &self.switches[switch as usize];
        &switch.routing
    }

    /// How many flows there are, reply flows too.
    pub fn flows(&self) -> u16
        ensures count { result ≡ length (all_flows self.now) }
        ensures few { result ≤ 8192 }
        ensures valid { IsValid self.now }
    {
        (self.flows.len() + self.replies.len()) as u16
    }

    /// How many flows are declared.
    pub fn declared_flows(&self) -> u16
        ensures count { result ≡ length self.now.flows }
        ensures few { result ≤ MAX_FLOWS }
    {
        self.flows.len() as u16
    }

    /// Has a declared flow that name?
    pub fn has_flow_name(&self, name: &str) -> bool
        ensures { result ≡ list_any (bytes_eq name.now) (flow_names self.now.flows) }
    {
        self.declared_flow_named(name).is_some()
    }

    /// The flow of that number.
    pub fn flow(&self, number: u16) -> &Flow
        requires { number < length (all_flows self.now) }
        ensures flow { slice_get (all_flows self.now) number ≡ Some result.now }
        ensures valid { IsFlow self.now.nodes result.now }
    {
        let declared = self.flows.len();
        let number = number as usize;
        if number < declared {
            self.flows.get(number)
        } else {
            self.replies.get(number - declared)
        }
    }

    /// Does the node answer commands: does a flow with replies go there?
    pub fn is_answering(&self, node: u16) -> bool
        ensures { result ≡ is_answering self.now node }
    {
        for number in 0..self.declared_flows() {
            if self.flow(number).is_answered_at(node) {
                return true;
            }
        }
        false
    }

    /// For each node, in order, whether it answers commands.
    ///
    /// # Errors
    ///
    /// There is no memory for the marks.
    pub fn answering_nodes(&self, alloc: Global) -> Result<Vec<bool>, AllocError>
        ensures { IfOk result (λ v. v.items ≡ answering_marks self.now) }
    {
        let mut marks = vec![in alloc; false; usize::from(self.nodes())]?;
        for number in 0..self.declared_flows() {
            let flow = self.flow(number);
            if flow.reply().is_some() {
                marks[usize::from(flow.to())] = true;
            }
        }
        Ok(marks)
    }

    /// The number of the declared flow of that name.
    pub fn declared_flow_named(&self, name: &str) -> Option<u16>
        ensures number { result ≡ position (bytes_eq name.now) (flow_names self.now.flows) }
        ensures within { IfSome result (λ i. i < length self.now.flows) }
    {
        match self.flows.number_of(name) {
            Some(number) => Some(number as u16),
            None => None,
        }
    }

    /// The number of the flow of that name; a reply flow's name ends in `+reply`.
    pub fn flow_named(&self, name: &str) -> Option<u16>
        ensures number { result ≡ position (bytes_eq name.now) (flow_names (all_flows self.now)) }
        ensures within { IfSome result (λ i. i < length (all_flows self.now)) }
    {
        if let Some(number) = self.flows.number_of(name) {
            return Some(number as u16);
        }
        let Some(number) = self.replies.number_of(name) else {
            return None;
        };
        Some((self.flows.len() + number) as u16)
    }
}
