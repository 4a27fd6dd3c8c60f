//! Routing tables, intervals of addresses, and outputs.
use crate::parts::sets::{port, ports};
use either::Either;
use std::alloc::Global;
use sw_route::{IntervalRoutes, Look, RouteError, Routing, TableRoutes, outputs};
use sw_topo::{Builder, PlaceEnd};

/// A byte, the ports that it names, and whether it is deleted.
type Answer<'a> = (u8, &'a [u8], bool);

fn names<R: Routing>(routing: &R, answers: &[Answer<'_>]) -> bool {
    for (byte, numbers, delete) in answers {
        let wanted = Look {
            ports: ports(numbers),
            delete: *delete,
        };
        if routing.look(*byte) != wanted {
            return false;
        }
    }
    true
}

const NAMED: &[Answer<'static>] = &[
    (31, &[31], true),
    (33, &[2], false),
    (254, &[3], true),
    (255, &[], false),
];

const DECLARED: &[Answer<'static>] = &[(40, &[3], true), (7, &[7], true)];

type Side = Either<TableRoutes, IntervalRoutes>;

/// A table and its intervals answer alike. Odd logical addresses go to port 2, even ones to port 3, where they are deleted.
pub(crate) fn agree(alloc: Global) -> bool {
    let mut table = TableRoutes::new(alloc);
    let mut is_so = true;
    for address in 32..255 {
        let is_odd = address % 2 == 1;
        let port = if is_odd { 2 } else { 3 };
        is_so = is_so && table.add(address, ports(&[port]), !is_odd).is_ok();
    }
    let Ok(intervals) = IntervalRoutes::from_table(alloc, &table) else {
        return false;
    };
    for byte in 0..=255 {
        is_so = is_so && intervals.look(byte) == table.look(byte);
    }
    is_so = is_so && table.len() == 223 && names(&intervals, NAMED);
    let (left, right): (Side, Side) = (Either::Left(table), Either::Right(intervals));
    is_so && names(&left, DECLARED) && names(&right, DECLARED)
}

/// Ranges that have an address from 40 to 60.
const TAKEN: &[(u8, u8)] = &[(60, 70), (32, 40), (50, 50), (32, 254)];

/// Of the ports that are named, the one with a link: that of a switch with a node at port 2.
fn leaves_linked(alloc: Global) -> bool {
    let mut builder = Builder::new(alloc);
    let switch = builder.switch();
    let node = builder.node();
    let end = PlaceEnd::Switch(switch, port(2));
    let is_linked = builder.link(PlaceEnd::Node(node), end).is_ok();
    let look = Look {
        ports: ports(&[2, 7]),
        delete: false,
    };
    match builder.finish(alloc) {
        Ok(topology) => {
            is_linked && topology.switches() == 1 && outputs(&topology, 0, look) == ports(&[2])
        }
        Err(_) => false,
    }
}

/// Addresses have one entry, and outputs a link.
pub(crate) fn lead(alloc: Global) -> bool {
    let one = ports(&[1]);
    let mut table = TableRoutes::new(alloc);
    let mut is_so = table.add_range(40, 60, ports(&[2, 7, 2]), false).is_ok();
    for &(first, last) in TAKEN {
        let again = table.add_range(first, last, one, true);
        is_so = is_so && matches!(again, Err(RouteError::Duplicate));
    }
    is_so
        && table.add(61, one, true).is_ok()
        && table.len() == 2
        && names(&table, &[(60, &[7, 2], false)])
        && leaves_linked(alloc)
}
