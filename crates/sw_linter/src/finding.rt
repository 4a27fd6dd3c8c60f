//! All that is told of a network.
ghost use Rattle.std.specs.Prelude.{◌≡◌, ◌++◌, IfOk};
ghost use Rattle.sw_linter.specs.Lints.{AreLints, addressed};
ghost use Rattle.sw_linter.specs.Marks.{doubtful_by, nodes_of, unused_by};

use crate::addresses::AddressSlip;
use crate::entries::EntrySlip;
use crate::lint::Lint;
use crate::marks::Marks;
use crate::node_marks::NodeMarks;
use crate::slips::{Slip, add_slips};
use std::alloc::{AllocError, Global};
use sw_config::Network;

/// What is looked for, in the order in which it is told.
const SLIPS: &[Slip] = &[
    Slip::Node,
    Slip::Switch,
    Slip::Target,
    Slip::Entry(EntrySlip::Unused),
    Slip::Entry(EntrySlip::OneLinked),
    Slip::Entry(EntrySlip::Back),
    Slip::Link,
    Slip::Address(AddressSlip::Target),
    Slip::Address(AddressSlip::Initiator),
    Slip::Address(AddressSlip::Initiators),
];

/// What is told by what is noted of the places of flows, one kind of slip after the other.
fn found_by(alloc: Global, network: &Network, marks: &Marks) -> Result<Vec<Lint>, AllocError>
    ensures { IfOk result (λ v. v.items ≡ (unused_by network.now (nodes_of network.now) marks.now ++ doubtful_by network.now marks.now) ++ addressed network.now) }
{
    let nodes = NodeMarks::of_network(alloc, network)?;
    let mut lints = Vec::new(alloc);
    for slip in SLIPS {
        add_slips(network, &nodes, marks, slip, &mut lints)?;
    }
    Ok(lints)
}

/// What in the network is probably a slip, in this order: that it has no flows, and then that alone; nodes, switches, targets and table
/// entries that no flow uses; groups of which one port alone has a link; groups that lead packets back; links over which commands go both
/// ways, to two targets one of which does not always take what comes; flows to a target with another logical address than its own, replies to
/// an address that their node is not known to have, and flows between two nodes with two initiator addresses.
///
/// The places of each flow are gone through once.
///
/// # Errors
///
/// There is no memory for it, or for what finds it.
pub fn lints(alloc: Global, network: &Network) -> Result<Vec<Lint>, AllocError>
    ensures { IfOk result (λ v. AreLints network.now v.items) }
{
    let _valid = network.flows();
    if network.declared_flows() == 0 {
        return Ok(vec![in alloc; Lint::NoFlows]?);
    }
    let marks = Marks::of_network(alloc, network)?;
    let lints = found_by(alloc, network, &marks);
    drop(marks);
    lints
}
