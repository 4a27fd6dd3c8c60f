//! The routing tables that changes leave.
ghost use Rattle.std.specs.Prelude.{◌≡◌, ◌++◌, [], false, IfOk, None, OnOk, Some, if◌then◌else◌};
ghost use Rattle.std.specs.List.{list_any};
ghost use Rattle.sw_route.specs.Looks.{IsRoute, IsTable, overlaps};
ghost use Rattle.sw_mend.specs.Changes.{by_number, loses_entry, ports_after, route_after_all};

use crate::change::Change;
use std::alloc::{AllocError, Global};
use std::marker::Model;
use sw_route::{Route, RouteError, TableRoutes};
use sw_topo::{Port, PortSet};

/// The ports that the change leaves to the entry of the switch's table, unless it takes the entry out.
fn ports_left(change: &Change, switch: u16, entry: usize, set: PortSet) -> Option<PortSet>
    ensures { result ≡ if loses_entry change.now switch entry then None else Some (ports_after change.now switch entry set) }
{
    match change {
        Change::WithoutEntry {
            switch: at,
            entry: gone,
        } => {
            if switch == *at && entry == *gone {
                None
            } else {
                Some(set)
            }
        }
        Change::WithoutPort {
            switch: at,
            entry: group,
            port,
        } => {
            if switch == *at && entry == *group {
                Some(set.without(*port))
            } else {
                Some(set)
            }
        }
        _ => Some(set),
    }
}

/// Adds what the changes, one after the other, leave of the entry of the switch's table.
fn add_route(
    table: &mut TableRoutes,
    changes: &[Change],
    switch: u16,
    entry: usize,
    route: &Route,
) -> Result<(), AllocError>
    requires route { IsRoute route.now }
    requires apart { list_any (overlaps route.now) table.old ≡ false }
    ensures { OnOk result (table.new ≡ table.old ++ route_after_all changes.now switch entry route.now) }
{
    let mut ports = route.ports;
    for change in changes {
        let Some(left) = ports_left(change, switch, entry, ports) else {
            return Ok(());
        };
        ports = left;
    }
    match table.add_range(route.first, route.last, ports, route.delete) {
        Ok(()) => Ok(()),
        Err(RouteError::Duplicate) => unreachable!(),
        Err(RouteError::Memory) => Err(AllocError),
    }
}

/// What is left of the table of the switch of that number.
pub(crate) fn table_after(
    alloc: Global,
    changes: &[Change],
    switch: u16,
    routes: &[Route],
) -> Result<TableRoutes, AllocError>
    requires { IsTable routes.now }
    ensures { IfOk result (λ t. t ≡ by_number (route_after_all changes.now switch) 0 routes.now) }
{
    let mut table = TableRoutes::new(alloc);
    for (entry, route) in routes.iter().enumerate() {
        add_route(&mut table, changes, switch, entry, route)?;
    }
    Ok(table)
}
