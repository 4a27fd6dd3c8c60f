//! Entries of `switch`.
ghost use Rattle.std.specs.Prelude.{◌≡◌, ◌+◌, ◌<◌, length, IfOk, OnOk};
ghost use Rattle.toml.specs.View.{table_view};
ghost use Rattle.sw_route.specs.Looks.{IsRoute};
ghost use Rattle.sw_text.specs.Gives.{Gives};
ghost use Rattle.sw_file.specs.Switches.{arbitration_named, arbitration_at, ports_at, route_of, next_route, routes_at, next_switch};

use crate::nodes::new_part_name;
use std::alloc::Global;
use std::marker::Model;
use sw_arb::Arbitration;
use sw_config::NetworkBuilder;
use sw_route::{Route, RouteError, TableRoutes};
use sw_text::section_keys::{SWITCH_KEYS, route_keys};
use sw_text::{FileFault, Key, KeyFault, Section, TableEntry, TextFault, Version};
use sw_topo::limits::{FIRST_LOGICAL, LAST_LOGICAL, MAX_PORT, MAX_SWITCHES, PORTS};
use sw_topo::{Port, PortSet};
use toml::Table;

/// The arbitration of that name.
fn arbitration_named(name: &str) -> Option<Arbitration>
    ensures { result ≡ arbitration_named name.now }
{
    match name {
        "fixed" => Some(Arbitration::Fixed),
        "round-robin" => Some(Arbitration::RoundRobin),
        "least-recent" => Some(Arbitration::LeastRecent),
        _ => None,
    }
}

#[tactic(auto, unfolding(crate::specs::Switches::arbitration_at))]
fn arbitration_at(index: usize, switch: &TableEntry) -> Result<Arbitration, FileFault>
    requires { switch.now.section ≡ Section.Switch index }
    ensures { Gives (λ a. a) result (arbitration_at index (table_view switch.now.table.now)) }
{
    let Some(name) = switch.text_or_none(Key::Arbiter)? else {
        return Ok(Arbitration::RoundRobin);
    };
    match arbitration_named(name) {
        Some(arbitration) => Ok(arbitration),
        None => Err(switch.fault(KeyFault::OutOfRange, Key::Arbiter)),
    }
}

#[tactic(auto, unfolding(crate::specs::Switches::ports_at))]
fn ports_at(alloc: Global, route: &TableEntry) -> Result<PortSet, FileFault>
    ensures { Gives (λ s. s) result (ports_at route.now.section (table_view route.now.table.now)) }
{
    let numbers = route.numbers(alloc, Key::Ports, MAX_PORT as u8)?;
    if numbers.is_empty() || numbers.len() > PORTS as usize {
        return Err(route.fault(KeyFault::OutOfRange, Key::Ports));
    }
    let mut ports = PortSet::EMPTY;
    for number in &numbers {
        let port = Port::new(*number).unwrap();
        ports = ports.with(port);
    }
    Ok(ports)
}

#[tactic(auto, unfolding(crate::specs::Switches::route_of))]
fn route_of(alloc: Global, version: Version, route: &TableEntry) -> Result<Route, FileFault>
    ensures gives { Gives (λ r. r) result (route_of version route.now.section (table_view route.now.table.now)) }
    ensures valid { IfOk result IsRoute }
{
    route.only_known(alloc, route_keys(version))?;
    let first = route.number(Key::Address, FIRST_LOGICAL, LAST_LOGICAL)?;
    let last = route.number_or(Key::Last, first, LAST_LOGICAL, first)?;
    let ports = ports_at(alloc, route)?;
    let delete = route.flag_or_false(Key::Delete)?;
    Ok(Route {
        first: first as u8,
        last: last as u8,
        ports,
        delete,
    })
}

#[tactic(auto, unfolding(crate::specs::Switches::next_route))]
fn add_route(
    alloc: Global,
    version: Version,
    switch: usize,
    index: usize,
    table: &Table,
    routes: &mut TableRoutes,
) -> Result<(), FileFault>
    ensures { Gives (λ _. routes.new) result (next_route version switch index routes.old (table_view table.now)) }
{
    let entry = TableEntry {
        section: Section::Route(switch, index),
        table,
    };
    let route = route_of(alloc, version, &entry)?;
    match routes.add_range(route.first, route.last, route.ports, route.delete) {
        Ok(()) => Ok(()),
        Err(RouteError::Duplicate) => {
            Err(FileFault::Fault(TextFault::DuplicateRoute(switch, index)))
        }
        Err(RouteError::Memory) => Err(FileFault::Memory),
    }
}

#[tactic(auto, unfolding(crate::specs::Switches::routes_at))]
fn routes_at(
    alloc: Global,
    version: Version,
    index: usize,
    switch: &TableEntry,
) -> Result<TableRoutes, FileFault>
    requires { switch.now.section ≡ Section.Switch index }
    ensures { Gives (λ t. t) result (routes_at version index (table_view switch.now.table.now)) }
{
    let tables = switch.tables_or_none(alloc, Key::Route)?;
    let mut routes = TableRoutes::new(alloc);
    for (i, table) in tables.iter().enumerate() {
        add_route(alloc, version, index, i, table, &mut routes)?;
    }
    Ok(routes)
}

/// Adds the switch that the table declares.
#[tactic(auto, unfolding(crate::specs::Switches::switch_of, crate::specs::Switches::next_switch))]
pub(crate) fn add_switch(
    alloc: Global,
    version: Version,
    index: usize,
    table: &Table,
    builder: &mut NetworkBuilder,
) -> Result<(), FileFault>
    requires { length builder.old.switches < MAX_SWITCHES }
    ensures gives { Gives (λ _. builder.new) result (next_switch version index builder.old (table_view table.now)) }
    ensures one_more { OnOk result (length builder.new.switches ≡ length builder.old.switches + 1) }
{
    let switch = TableEntry {
        section: Section::Switch(index),
        table,
    };
    switch.only_known(alloc, SWITCH_KEYS)?;
    let name = new_part_name(&switch, builder)?;
    let arbitration = arbitration_at(index, &switch)?;
    let routes = routes_at(alloc, version, index, &switch)?;
    builder.add_switch(alloc, name, arbitration, routes)?;
    Ok(())
}
