//! What a cell has of a network's state.
ghost use Rattle.std.specs.Prelude.{◌≡◌, ◌++◌, IfOk};
ghost use Rattle.sw_cell.specs.Places.{IsIn};
ghost use Rattle.sw_machine.specs.State.{State};
ghost use Rattle.sw_net.specs.Kept.{kept_at_port, kept_by_node};
ghost use Rattle.sw_net.specs.KeptParts.{IsKept};
ghost use Rattle.sw_net.specs.declared.part.Part.TheVariants.{Node};

use crate::make::push_made;
use crate::net::Net;
use std::alloc::{AllocError, Global};
use std::marker::Model;
use sw_arb::Arbiter;
use sw_cell::CellId;
use sw_char::NChar;
use sw_node::{NodeCell, PendingReply};
use sw_route::Routing;
use sw_switch::{Input, SwitchCell};
use sw_topo::Port;

/// What a node has of a network's state.
#[derive(Debug, Drop)]
pub struct NodePart {
    /// The characters that it has still to send of the packet under way, the next first.
    pub to_send: Vec<NChar>,
    /// The replies that wait to be sent, the oldest first: 0 to 8.
    pub pending: Vec<PendingReply>,
    /// How many replies it owes, those that wait included: 0 to 8.
    pub owed: u8,
    /// All characters that it took, the oldest first.
    pub taken: Vec<NChar>,
    /// What its memory holds, from its start on; nothing where it is no RMAP target.
    pub memory: Vec<u8>,
    /// How many N-Chars may still be sent on the channel that starts there: 0 to 56
    /// (ECSS-E-ST-50-12C, data link layer: flow control).
    pub credit: u8,
    /// The N-Chars in its receive buffer, the oldest first: 0 to 4,096.
    pub buffer: Vec<NChar>,
    /// How many N-Chars were asked for on the channel that ends there, and did not arrive yet: 0
    /// to 56.
    pub outstanding: u8,
}

impl Model for NodePart {
    ghost use Rattle.sw_net.specs.Kept.{NodeView};

    ghost Value = { NodeView };

    ghost view = { λ p. record {
      to_send = p.to_send.items;
      pending = p.pending.items;
      owed = p.owed;
      taken = p.taken.items;
      memory = p.memory.items;
      credit = p.credit;
      buffer = p.buffer.items;
      outstanding = p.outstanding;
    } };
}

/// What a switch has of a network's state at a port with a link.
#[derive(Debug, Drop)]
pub struct PortPart {
    /// The port.
    pub port: Port,
    /// What its input does (ECSS-E-ST-50-12C, network layer: wormhole routing).
    pub input: Input,
    /// How many N-Chars may still be sent on the channel that starts there: 0 to 56
    /// (ECSS-E-ST-50-12C, data link layer: flow control).
    pub credit: u8,
    /// The N-Chars in its receive buffer, the oldest first: 0 to 4,096.
    pub buffer: Vec<NChar>,
    /// How many N-Chars were asked for on the channel that ends there, and did not arrive yet: 0
    /// to 56.
    pub outstanding: u8,
}

impl Model for PortPart {
    ghost use Rattle.sw_net.specs.Kept.{PortView};

    ghost Value = { PortView };

    ghost view = { λ p. record {
      port = p.port;
      input = p.input;
      credit = p.credit;
      buffer = p.buffer.items;
      outstanding = p.outstanding;
    } };
}

/// What a cell has of a network's state.
#[derive(Debug, Drop)]
pub enum Part {
    /// What a node has.
    Node(NodePart),
    /// What a switch has at its ports with a link, in rising order of the ports.
    Switch(Vec<PortPart>),
}

/// A copy of both slices, the first before the second.
fn join(alloc: Global, first: &[NChar], second: &[NChar]) -> Result<Vec<NChar>, AllocError>
    ensures { IfOk result (λ all. all.items ≡ first.now ++ second.now) }
{
    [first, second].concat(alloc)
}

/// What the node keeps.
fn node_part(alloc: Global, node: &NodeCell) -> Result<Part, AllocError>
    ensures { IfOk result (λ part. part ≡ Node (kept_by_node node.now)) }
{
    let (first, second) = node.buffer();
    Ok(Part::Node(NodePart {
        to_send: node.to_send(alloc)?,
        pending: node.pending(alloc)?,
        owed: node.owed() as u8,
        taken: node.taken(alloc)?,
        memory: node.memory(alloc)?,
        credit: node.credit(),
        buffer: join(alloc, first, second)?,
        outstanding: node.outstanding(),
    }))
}

/// What the switch keeps at the port.
fn port_part<R: Routing, A: Arbiter>(
    alloc: Global,
    switch: &SwitchCell<R, A>,
    port: Port,
) -> Result<PortPart, AllocError>
    ensures { IfOk result (λ part. part ≡ kept_at_port switch.now port) }
{
    let (first, second) = switch.buffer(port);
    Ok(PortPart {
        port,
        input: switch.input(port),
        credit: switch.credit(port),
        buffer: join(alloc, first, second)?,
        outstanding: switch.outstanding(port),
    })
}

/// What the switch keeps at its ports with a link.
fn switch_part<R: Routing, A: Arbiter>(
    alloc: Global,
    switch: &SwitchCell<R, A>,
) -> Result<Part, AllocError>
    ensures { IfOk result (IsKept switch.now) }
{
    let mut parts = Vec::new(alloc);
    for port in switch.linked().ports() {
        push_made(&mut parts, port_part(alloc, switch, port))?;
    }
    Ok(Part::Switch(parts))
}

impl<'n, R: Routing, A: Arbiter> Net<'n, R, A> {
    ghost use Rattle.sw_net.specs.Net.{IsNetState};
    ghost use Rattle.sw_net.specs.Parts.{IsPartOf};

    /// What the cell, which is one of the network's, has of the network's state.
    ///
    /// # Errors
    ///
    /// There is no memory for the part.
    pub fn part(&self, alloc: Global, cell: CellId) -> Result<Part, AllocError>
        requires { IsIn self.now.declared cell }
        ensures { IfOk result (λ part. (s : State) → IsNetState self.now s → IsPartOf self.now.declared s cell part) }
    {
        let _network = self.network();
        match cell {
            CellId::Node(n) => node_part(alloc, self.node(n)),
            CellId::Switch(w) => switch_part(alloc, self.switch(w)),
        }
    }
}
