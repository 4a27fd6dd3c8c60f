//! A new network.
ghost use Rattle.std.specs.Prelude.{◌≡◌, ◌<◌, ◌+◌, ℕ, All, List, Option, IfOk, OnOk, Some, drop, length, slice_get};
ghost use Rattle.std.specs.Global.{Vec};
ghost use Rattle.sw_flow.specs.Places.{ends_of};
ghost use Rattle.sw_link.specs.Ends.{IsCapacity};
ghost use Rattle.sw_net.specs.Net.{arbiters_of};
ghost use Rattle.sw_net.specs.New.{AreArbiters, ArePlaced, AreRoutes, IsNewNet, IsNewNode, IsNewSwitch, IsOneMore, IsRow, port_capacity, rows_of};
ghost use Rattle.sw_net.specs.Outputs.{AreByOutput, StandsAt};
ghost use Rattle.sw_node.specs.Node.{Node};
ghost use Rattle.sw_switch.specs.Cell.{Cell};

use crate::net::Net;
use std::alloc::{AllocError, Global};
use sw_arb::Arbiter;
use sw_config::Network;
use sw_link::Wires;
use sw_node::NodeCell;
use sw_route::Routing;
use sw_switch::SwitchCell;
use sw_topo::limits::PORTS;
use sw_topo::{Chan, PlaceEnd, Port};

/// A port of a switch with no link has this capacity, which is not used.
const NO_LINK: usize = 8;

/// Puts an element that was made at the end.
pub(crate) fn push_made<T: Drop>(
    all: &mut Vec<T>,
    made: Result<T, AllocError>,
) -> Result<(), AllocError>
    ensures { OnOk result (IsOneMore all.old.items made all.new.items) }
{
    all.push(made?)?;
    Ok(())
}

/// What the channel that comes to the port can hold.
fn capacity(network: &Network, w: u16, port: Port) -> usize
    requires { w < length network.now.switches }
    ensures value { result ≡ port_capacity network.now w port }
    ensures capacity { IsCapacity result }
{
    match network.topology().out_of(w, port) {
        Some(out) => network.capacity(out.partner()) as usize,
        None => NO_LINK,
    }
}

/// The same by port.
fn capacities(alloc: Global, network: &Network, w: u16) -> Result<Vec<usize>, AllocError>
    requires { w < length network.now.switches }
    ensures whole { IfOk result (λ v. length v.items ≡ 32) }
    ensures capacities { IfOk result (λ v. All IsCapacity v.items) }
    ensures each { IfOk result (λ v. (port capacity : ℕ) → slice_get v.items port ≡ Some capacity → capacity ≡ port_capacity network.now w port) }
{
    let mut all = Vec::new(alloc);
    for number in 0..PORTS {
        let port = Port::new(number).unwrap();
        all.push(capacity(network, w, port))?;
    }
    Ok(all)
}

fn new_nodes(alloc: Global, network: &Network) -> Result<Vec<NodeCell>, AllocError>
    ensures all { IfOk result (λ v. length v.items ≡ length network.now.nodes) }
    ensures each { IfOk result (λ v. (n : ℕ) (node : Node) → slice_get v.items n ≡ Some node → IsNewNode network.now n node) }
{
    let mut nodes = Vec::new(alloc);
    for n in 0..network.nodes() {
        let into = network.topology().into(n);
        let capacity = network.capacity(into) as usize;
        push_made(
            &mut nodes,
            NodeCell::new(alloc, network.target(n), capacity),
        )?;
    }
    Ok(nodes)
}

/// Room for an arbiter at each port.
fn empty_row<A: Arbiter + Drop>(alloc: Global) -> Result<Vec<Option<A>>, AllocError>
    ensures { IfOk result (λ row. length row.items ≡ 32) }
{
    let mut row = Vec::new(alloc);
    for port in 0..PORTS {
        push_made(&mut row, Ok(None))?;
    }
    Ok(row)
}

fn empty_rows<A: Arbiter + Drop>(
    alloc: Global,
    network: &Network,
) -> Result<Vec<Vec<Option<A>>>, AllocError>
    ensures all { IfOk result (λ rows. length rows.items ≡ length network.now.switches) }
    ensures each { IfOk result (λ rows. (w : ℕ) (row : Vec (Option A)) → slice_get rows.items w ≡ Some row → IsRow A.ports network.now 0 w row.items) }
{
    let mut rows = Vec::new(alloc);
    for w in 0..network.switches() {
        push_made(&mut rows, empty_row(alloc))?;
    }
    Ok(rows)
}

/// The arbiters by switch and port.
fn place_arbiters<A: Arbiter + Drop>(
    alloc: Global,
    network: &Network,
    arbiters: Vec<A>,
) -> Result<Vec<Vec<Option<A>>>, AllocError>
    requires { AreArbiters A.ports network.now (ends_of network.now) arbiters.items }
    ensures all { IfOk result (λ rows. length rows.items ≡ length network.now.switches) }
    ensures each { IfOk result (λ rows. (w : ℕ) (row : Vec (Option A)) → slice_get rows.items w ≡ Some row → IsRow A.ports network.now (length (ends_of network.now)) w row.items) }
    ensures stand { IfOk result (λ rows. AreByOutput (StandsAt (rows_of rows.items)) (ends_of network.now) arbiters.items) }
{
    let mut rows = empty_rows(alloc, network)?;
    let mut rest = arbiters.into_iter();
    for number in 0..network.channels() {
        match network.topology().start_of(Chan::new(number)) {
            PlaceEnd::Node(_) => continue,
            PlaceEnd::Switch(w, port) => {
                let row = &mut rows[w as usize];
                row[port.number() as usize] = rest.next();
            }
        }
    }
    Ok(rows)
}

/// A switch for each routing and row of arbiters, in their order.
fn new_switches<R: Routing + Drop, A: Arbiter + Drop>(
    alloc: Global,
    network: &Network,
    routes: Vec<R>,
    rows: Vec<Vec<Option<A>>>,
) -> Result<Vec<SwitchCell<R, A>>, AllocError>
    requires routes { AreRoutes R.answer network.now routes.items }
    requires all { length rows.items ≡ length network.now.switches }
    requires each { (w : ℕ) (row : Vec (Option A)) → slice_get rows.items w ≡ Some row → IsRow A.ports network.now (length (ends_of network.now)) w row.items }
    ensures all { IfOk result (λ v. length v.items ≡ length network.now.switches) }
    ensures each { IfOk result (λ v. (w : ℕ) (cell : Cell R A) → slice_get v.items w ≡ Some cell → IsNewSwitch R.answer A.ports network.now w cell) }
    ensures rows { IfOk result (λ v. arbiters_of v.items ≡ rows_of rows.items) }
{
    let mut switches = Vec::new(alloc);
    let mut tables = routes.into_iter();
    let mut arbiters = rows.into_iter();
    for w in 0..network.switches() {
        let capacities = capacities(alloc, network, w)?;
        let table = tables.next().unwrap();
        let row = arbiters.next().unwrap();
        let linked = network.topology().linked(w);
        let switch = SwitchCell::new(alloc, table, linked, &capacities, row);
        push_made(&mut switches, switch)?;
    }
    Ok(switches)
}

impl<'n, R: Routing + Drop, A: Arbiter + Drop> Net<'n, R, A> {
    /// The network in its empty state: no credit, no character, no output held. There is one
    /// routing for each switch, and one arbiter for each channel that starts at a switch, in their
    /// order: that of the output there. All that it keeps of its wires, buffers and memories is made
    /// here.
    ///
    /// # Errors
    ///
    /// There is no memory for what the network keeps: then the routings and the arbiters are gone.
    pub fn new(
        alloc: Global,
        network: &'n Network,
        routes: Vec<R>,
        arbiters: Vec<A>,
    ) -> Result<Net<'n, R, A>, AllocError>
        requires routes { AreRoutes R.answer network.now routes.items }
        requires arbiters { AreArbiters A.ports network.now (ends_of network.now) arbiters.items }
        ensures new { IfOk result (IsNewNet network.entry.now) }
        ensures arbiters { IfOk result (λ net. AreByOutput (StandsAt (arbiters_of net.switches)) (ends_of network.entry.now) arbiters.items) }
    {
        let rows = place_arbiters(alloc, network, arbiters)?;
        let switches = new_switches(alloc, network, routes, rows)?;
        let nodes = new_nodes(alloc, network)?;
        let wires = Wires::new(alloc, network.topology().channels() as usize)?;
        Ok(Net {
            network,
            nodes,
            switches,
            wires,
        })
    }
}
