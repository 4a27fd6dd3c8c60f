//! What in the entries of routing tables is probably a slip.
ghost use Rattle.std.specs.Prelude.{◌≡◌, ◌<◌, ◌++◌, OnOk, Some, filter, length, option_map};
ghost use Rattle.std.specs.Option.{option_to_list};
ghost use Rattle.sw_topo.specs.Ports.{ports_of};
ghost use Rattle.sw_linter.specs.Lints.{linked, made_of, one_linked_port};
ghost use Rattle.sw_linter.specs.Marks.{entry_lint_by, first_back_by};

use crate::lint::{Lint, add};
use crate::marks::Marks;
use std::alloc::AllocError;
use sw_config::Network;
use sw_route::Route;
use sw_topo::PortSet;

/// What is looked for in the entries of routing tables.
#[derive(Clone, Copy)]
pub(crate) enum EntrySlip {
    /// A flow goes over the switch, but no packet comes that the entry is for.
    Unused,
    /// The entry names several ports, of which one alone has a link.
    OneLinked,
    /// The entry leads packets back by the way that they come.
    Back,
}

/// The ports of the entry that have a link.
fn linked_ports(network: &Network, switch: u16, route: &Route) -> PortSet
    requires { switch < length network.now.switches }
    ensures { ports_of result ≡ linked network.now switch route.now }
{
    route.ports.meet(network.topology().linked(switch))
}

/// The entry, if it names several ports of which one alone has a link.
fn one_linked_port(network: &Network, switch: u16, entry: usize, route: &Route) -> Option<Lint>
    requires { switch < length network.now.switches }
    ensures { option_to_list result ≡ one_linked_port network.now switch entry route.now }
{
    if route.ports.len() <= 1 {
        return None;
    }
    let mut ports = linked_ports(network, switch, route).ports();
    let port = ports.next()?;
    match ports.next() {
        Some(_) => None,
        None => Some(Lint::OneLinkedPort {
            switch,
            entry,
            port,
        }),
    }
}

/// The first port of the entry by which packets come that it is for, and the first flow of those to the least address of the entry.
fn first_back(
    network: &Network,
    marks: &Marks,
    switch: u16,
    entry: usize,
    route: &Route,
) -> Option<Lint>
    requires { switch < length network.now.switches }
    ensures { result ≡ first_back_by network.now marks.now switch entry route.now }
{
    for port in route.ports.ports() {
        let Some(out) = network.topology().out_of(switch, port) else {
            continue;
        };
        if let Some(flow) = marks.first_led(route, out.partner()) {
            return Some(Lint::LeadsBack {
                switch,
                entry,
                port,
                flow,
            });
        }
    }
    None
}

/// The entry, if it is what is looked for.
fn entry_lint(
    network: &Network,
    marks: &Marks,
    slip: EntrySlip,
    switch: u16,
    entry: usize,
    route: &Route,
) -> Option<Lint>
    requires { switch < length network.now.switches }
    ensures { option_to_list result ≡ entry_lint_by network.now marks.now slip switch entry route.now }
{
    match slip {
        EntrySlip::Unused => {
            if marks.is_used(switch) && !marks.is_met(switch, route) {
                Some(Lint::UnusedEntry { switch, entry })
            } else {
                None
            }
        }
        EntrySlip::OneLinked => one_linked_port(network, switch, entry, route),
        EntrySlip::Back => {
            if linked_ports(network, switch, route).len() > 1 {
                first_back(network, marks, switch, entry, route)
            } else {
                None
            }
        }
    }
}

/// Those of the switch's table, of which these are the entries.
pub(crate) fn add_entries_of(
    network: &Network,
    marks: &Marks,
    slip: EntrySlip,
    switch: u16,
    routes: &[Route],
    lints: &mut Vec<Lint>,
) -> Result<(), AllocError>
    requires { switch < length network.now.switches }
    ensures { OnOk result (lints.new.items ≡ lints.old.items ++ made_of (entry_lint_by network.now marks.now slip switch) routes.now) }
{
    for (entry, route) in routes.iter().enumerate() {
        add(
            entry_lint(network, marks, slip, switch, entry, route),
            lints,
        )?;
    }
    Ok(())
}
