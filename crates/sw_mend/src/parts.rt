//! The nodes, switches and links of a changed network.
ghost use Rattle.std.specs.Prelude.{◌≡◌, ◌≢◌, ◌≤◌, [], AllPairs, OnOk, length};
ghost use Rattle.sw_config.specs.Entries.{empty, part_names};
ghost use Rattle.sw_mend.specs.Changes.{by_number, switch_after_all};

use crate::change::Change;
use crate::tables::table_after;
use std::alloc::{AllocError, Global};
use std::marker::Model;
use sw_config::{Network, NetworkBuilder};
use sw_topo::Chan;

/// Adds the nodes of the network.
pub(crate) fn add_nodes(
    alloc: Global,
    network: &Network,
    builder: &mut NetworkBuilder,
) -> Result<(), AllocError>
    requires { builder.old ≡ empty }
    ensures { OnOk result (builder.new ≡ record empty { nodes = network.now.nodes }) }
{
    // Names the network, which is valid by its type.
    let _topology = network.topology();
    for node in 0..network.nodes() {
        let name = network.node_name(node);
        builder.add_node(alloc, name, network.target(node), network.outstanding(node))?;
    }
    Ok(())
}

/// Adds the switches of the network, each with what is left of its table, to nodes that have none of their names.
pub(crate) fn add_switches(
    alloc: Global,
    network: &Network,
    changes: &[Change],
    builder: &mut NetworkBuilder,
) -> Result<(), AllocError>
    requires named { AllPairs (λ x y. x ≢ y) (part_names (record network.now { nodes = builder.old.nodes })) }
    requires none { builder.old ≡ record empty { nodes = builder.old.nodes } }
    ensures { OnOk result (builder.new ≡ record empty { nodes = builder.old.nodes; switches = by_number (switch_after_all changes.now) 0 network.now.switches }) }
{
    for switch in 0..network.switches() {
        let table = table_after(alloc, changes, switch, network.routes(switch))?;
        let name = network.switch_name(switch);
        builder.add_switch(alloc, name, network.arbitration(switch), table)?;
    }
    Ok(())
}

/// Adds the links of the network, to as many nodes or more.
pub(crate) fn add_links(network: &Network, builder: &mut NetworkBuilder) -> Result<(), AllocError>
    requires nodes { length network.now.nodes ≤ length builder.old.nodes }
    requires switches { length builder.old.switches ≡ length network.now.switches }
    requires none { builder.old.links ≡ [] }
    ensures { OnOk result (builder.new ≡ record builder.old { links = network.now.links }) }
{
    let topology = network.topology();
    for link in 0..network.links() {
        let there = Chan::new(2 * link);
        let back = Chan::new(2 * link + 1);
        let a = topology.start_of(there);
        let b = topology.start_of(back);
        builder.add_link(a, b, network.capacity(back), network.capacity(there))?;
    }
    Ok(())
}
