//! What is told of one kind of slip after the other.
ghost use Rattle.std.specs.Prelude.{◌≡◌, ◌<◌, ◌++◌, OnOk};
ghost use Rattle.sw_linter.specs.Marks.{count_of, slip_at, slip_lints};

use crate::addresses::{AddressSlip, address_lint};
use crate::entries::{EntrySlip, add_entries_of};
use crate::lint::{Lint, add};
use crate::marks::Marks;
use crate::node_marks::NodeMarks;
use std::alloc::AllocError;
use sw_config::Network;

/// What is looked for.
#[derive(Clone, Copy)]
pub(crate) enum Slip {
    /// A node that no flow is from or to.
    Node,
    /// A switch that no flow goes over.
    Switch,
    /// A target to which no flow goes, but from which one goes.
    Target,
    /// An entry of a routing table.
    Entry(EntrySlip),
    /// A link with targets on both sides, one of which may make commands wait.
    Link,
    /// A logical address of a flow.
    Address(AddressSlip),
}

/// What is told of the node, the switch, the link or the declared flow of that number.
fn add_at(
    network: &Network,
    nodes: &NodeMarks,
    marks: &Marks,
    slip: Slip,
    number: u16,
    lints: &mut Vec<Lint>,
) -> Result<(), AllocError>
    requires { number < count_of network.now slip }
    ensures { OnOk result (lints.new.items ≡ lints.old.items ++ slip_at network.now nodes.now marks.now slip number) }
{
    match slip {
        Slip::Node => add(nodes.unused_node(number), lints),
        Slip::Switch if marks.is_used(number) => Ok(()),
        Slip::Switch => add(Some(Lint::UnusedSwitch(number)), lints),
        Slip::Target => add(nodes.unused_target(network, number), lints),
        Slip::Entry(entry) => {
            let routes = network.routes(number);
            add_entries_of(network, marks, entry, number, routes, lints)
        }
        Slip::Link => add(marks.opposed_flows(number), lints),
        Slip::Address(address) => add(address_lint(network, address, number), lints),
    }
}

/// How many nodes, switches, links or declared flows there are to look at.
fn count_of(network: &Network, slip: Slip) -> u16
    ensures { result ≡ count_of network.now slip }
{
    match slip {
        Slip::Node | Slip::Target => network.nodes(),
        Slip::Switch | Slip::Entry(_) => network.switches(),
        Slip::Link => network.links(),
        Slip::Address(_) => network.declared_flows(),
    }
}

/// What is told of slips of that kind.
pub(crate) fn add_slips(
    network: &Network,
    nodes: &NodeMarks,
    marks: &Marks,
    slip: &Slip,
    lints: &mut Vec<Lint>,
) -> Result<(), AllocError>
    ensures { OnOk result (lints.new.items ≡ lints.old.items ++ slip_lints network.now nodes.now marks.now slip.now) }
{
    for number in 0..count_of(network, *slip) {
        add_at(network, nodes, marks, *slip, number, lints)?;
    }
    Ok(())
}
