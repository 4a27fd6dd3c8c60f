//! A switch with two inputs that ask for one output.
ghost use Rattle.std.specs.Prelude.{◌≡◌, IfOk, vec_len};
ghost use Rattle.sw_switch.specs.Cell.{HaveArbiters};

use crate::parts::sets::port;
use std::alloc::{AllocError, Global};
use sw_arb::RoundRobin;
use sw_char::NChar;
use sw_route::TableRoutes;
use sw_switch::SwitchCell;
use sw_topo::{Port, PortSet};

type Cell = SwitchCell<TableRoutes, RoundRobin>;

fn arbiters(alloc: Global, ports: PortSet) -> Result<Vec<Option<RoundRobin>>, AllocError>
    ensures { IfOk result (λ v. (vec_len v ≡ 32) × HaveArbiters (λ arbiter. arbiter.ports) ports v.items) }
{
    let mut all = Vec::new(alloc);
    for _ in 0..32usize {
        all.push(Some(RoundRobin::new(ports)))?;
    }
    Ok(all)
}

/// The port's end asks for eight N-Chars, and those arrive.
fn receive(cell: &mut Cell, input: Port, characters: &[NChar]) -> bool {
    if !cell.can_issue(input) {
        return false;
    }
    cell.issue(input);
    for character in characters {
        if cell.outstanding(input) == 0 {
            return false;
        }
        cell.arrive(input, *character);
    }
    true
}

/// The character at the input's front goes to that output.
fn forwards(cell: &mut Cell, input: Port, output: Port, character: NChar) -> bool {
    cell.can_forward(input)
        && cell.front(input) == Some(character)
        && cell.forward(input) == (output, character)
}

/// Port 2 has credit, and a packet to port 2 begins at each of the two. The output stays with that of port 1 until its end.
fn stays_with_a_packet(cell: &mut Cell, one: Port, two: Port) -> bool {
    if cell.credit(two) != 0 {
        return false;
    }
    cell.fct_in(two);
    if !receive(cell, one, &[NChar::Data(2), NChar::Data(0xaa)])
        || !receive(cell, two, &[NChar::Data(2), NChar::Data(0xbb)])
        || cell.asks(two) != PortSet::single(one).with(two)
        || cell.grant(two) != Some(one)
        || !forwards(cell, one, two, NChar::Data(0xaa))
        || cell.front(one) != None
        || cell.grant(two) != None
        || cell.outstanding(one) == 0
    {
        return false;
    }
    cell.arrive(one, NChar::Eop);
    forwards(cell, one, two, NChar::Eop) && cell.grant(two) == Some(two)
}

/// A switch whose ports 1 and 2 have links: the output stays with a packet until its end.
pub(crate) fn stay(alloc: Global) -> bool {
    let one = port(1);
    let two = port(2);
    let linked = PortSet::single(one).with(two);
    let Ok(arbiters) = arbiters(alloc, linked) else {
        return false;
    };
    match SwitchCell::new(alloc, TableRoutes::new(alloc), linked, &[64; 32], arbiters) {
        Ok(mut cell) => stays_with_a_packet(&mut cell, one, two),
        Err(_) => false,
    }
}
