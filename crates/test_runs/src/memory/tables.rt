//! Routing tables and wirings.
ghost use Rattle.std.specs.Prelude.{◌≡◌, ◌<◌, ◌≤◌};

use std::alloc::{AllocError, Global};
use sw_route::{IntervalRoutes, Routing, TableRoutes};
use sw_topo::{Builder, PlaceEnd, Port, PortSet, TopoError};

/// Whether the entry was added, of one address or of more, at once or again after a refusal that changed nothing.
fn is_added(table: &mut TableRoutes, first: u8, last: u8) -> bool
    requires low { 32 ≤ first }
    requires rising { first ≤ last }
    requires high { last ≤ 254 }
{
    let before = table.len();
    for _ in 0..2u8 {
        let added = if first < last {
            table.add_range(first, last, PortSet::EMPTY, false)
        } else {
            table.add(first, PortSet::EMPTY, true)
        };
        if added.is_ok() {
            return true;
        }
        if table.len() != before {
            return false;
        }
    }
    false
}

/// How many entries a table has, if each was added and its intervals answer so; else 0.
///
/// # Errors
///
/// There is no memory for the intervals.
pub fn entries(alloc: Global) -> Result<usize, AllocError> {
    let mut table = TableRoutes::new(alloc);
    let mut all = true;
    for i in 0..20u8 {
        all = all
            && is_added(&mut table, 32 + 4 * i, 34 + 4 * i)
            && is_added(&mut table, 35 + 4 * i, 35 + 4 * i);
    }
    let intervals = IntervalRoutes::from_table(alloc, &table)?;
    if all && intervals.look(35).delete {
        Ok(table.len())
    } else {
        Ok(0)
    }
}

/// Adds the link, at once or again.
fn link(builder: &mut Builder, node: u16, switch: u16, port: u8) -> Result<(), AllocError>
    requires node { node < builder.old.nodes }
    requires switch { switch < builder.old.switches }
    requires port { port < 32 }
    ensures nodes { builder.new.nodes ≡ builder.old.nodes }
    ensures switches { builder.new.switches ≡ builder.old.switches }
{
    let port = Port::new(port).unwrap();
    let (a, b) = (PlaceEnd::Node(node), PlaceEnd::Switch(switch, port));
    match builder.link(a, b) {
        Ok(()) => Ok(()),
        Err(_) => Ok(builder.link(a, b)?),
    }
}

/// How many channels a star has. 0 where a link was not added, or twice: then a node has other than one.
///
/// # Errors
///
/// There is no memory for the topology.
pub fn channels(alloc: Global) -> Result<u16, AllocError> {
    let mut builder = Builder::new(alloc);
    let nodes = [builder.node(), builder.node(), builder.node()];
    let switch = builder.switch();
    let linked = link(&mut builder, nodes[0], switch, 1)
        .and(link(&mut builder, nodes[1], switch, 2))
        .and(link(&mut builder, nodes[2], switch, 3));
    match builder.finish(alloc) {
        Ok(topology) if linked.is_ok() => Ok(topology.channels()),
        Ok(_) => Ok(0),
        Err(TopoError::Memory) => Err(AllocError),
        Err(TopoError::Fault(_)) => Ok(0),
    }
}
