//! Nodes and switches in DOT.
ghost use Rattle.std.specs.Prelude.{◌≡◌, ◌<◌, ◌++◌, OnOk, length, string_bytes};
ghost use Rattle.sw_explain.specs.DrawTexts.{node_statement, switch_statement};

use std::alloc::{AllocError, Global};
use std::fmt::Write;
use sw_config::Network;
use sw_output::{linked_ports, node_name, switch_name};

/// Adds a box, with two lines round it for a target.
pub(crate) fn add_node(network: &Network, node: u16, text: &mut String) -> Result<(), AllocError>
    requires { node < length network.now.nodes }
    ensures { OnOk result (string_bytes text.new ≡ string_bytes text.old ++ node_statement network.now node) }
{
    let name = node_name(network, node);
    if network.is_target(node) {
        return write!(text, "  \"{name}\" [peripheries=\"2\"];\n");
    }
    write!(text, "  \"{name}\";\n")
}

/// Adds a record of the switch's name and its ports that have a link, each a field with its own name.
pub(crate) fn add_switch(
    alloc: Global,
    network: &Network,
    switch: u16,
    text: &mut String,
) -> Result<(), AllocError>
    requires { switch < length network.now.switches }
    ensures { OnOk result (string_bytes text.new ≡ string_bytes text.old ++ switch_statement network.now switch) }
{
    let name = switch_name(network, switch);
    write!(text, "  \"{name}\" [shape=\"record\", label=\"{name}")?;
    let ports = linked_ports(alloc, network, switch)?;
    for port in ports.iter() {
        write!(text, "|<{port}>{port}")?;
    }
    text.push_str("\"];\n")
}
