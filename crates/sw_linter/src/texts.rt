//! How it is told.
ghost use Rattle.std.specs.Prelude.{◌≡◌, ◌∷◌, [], ◌++◌, ◌*◌, IfOk, OnOk, map, string_bytes};
ghost use Rattle.sw_output.specs.ChannelTexts.{channel_text};
ghost use Rattle.sw_output.specs.Lines.{spaced};
ghost use Rattle.sw_linter.specs.EndNames.{end_name, start_name};
ghost use Rattle.sw_linter.specs.LintTexts.{AreLintTexts, entry_at_words, lint_text};

use crate::circling_words::add_circlings;
use crate::finding::lints;
use crate::lint::Lint;
use std::alloc::{AllocError, Global};
use sw_config::Network;
use sw_output::{channel_text, entry_words, flow_name, node_name, switch_name};
use sw_topo::{Chan, Port};

/// What is told of an entry of the switch's table, its addresses, and the switch.
fn of_entry(
    alloc: Global,
    told: &str,
    network: &Network,
    switch: u16,
    entry: usize,
) -> Result<String, AllocError>
    ensures { IfOk result (λ s. string_bytes s ≡ spaced (told.now ∷ entry_at_words network.now switch entry ∷ [])) }
{
    let words = entry_words(alloc, network, switch, entry)?;
    let name = switch_name(network, switch);
    format!(in alloc; "{told} {words} at {name}")
}

/// The node to which the flow goes.
pub(crate) fn end_name(network: &Network, flow: u16) -> &str
    ensures { result.now ≡ end_name network.now flow }
{
    if flow < network.flows() {
        node_name(network, network.flow(flow).to())
    } else {
        ""
    }
}

/// The node from which the flow goes.
fn start_name(network: &Network, flow: u16) -> &str
    ensures { result.now ≡ start_name network.now flow }
{
    if flow < network.flows() {
        node_name(network, network.flow(flow).from())
    } else {
        ""
    }
}

/// What is told of a node or a switch, and its name.
fn with_name(alloc: Global, told: &str, name: &str) -> Result<String, AllocError>
    ensures { IfOk result (λ s. string_bytes s ≡ spaced (told.now ∷ name.now ∷ [])) }
{
    [told, name].join(alloc, " ")
}

fn one_linked_port(
    alloc: Global,
    network: &Network,
    switch: u16,
    entry: usize,
    port: Port,
) -> Result<String, AllocError>
    ensures { IfOk result (λ s. string_bytes s ≡ lint_text network.now (Lint.OneLinkedPort switch entry port)) }
{
    let group = of_entry(alloc, "of the group for", network, switch, entry)?;
    let port = port.number();
    format!(in alloc; "{group} one port alone has a link: {port}")
}

fn leads_back(
    alloc: Global,
    network: &Network,
    switch: u16,
    entry: usize,
    port: Port,
    flow: u16,
) -> Result<String, AllocError>
    ensures { IfOk result (λ s. string_bytes s ≡ lint_text network.now (Lint.LeadsBack switch entry port flow)) }
{
    let group = of_entry(alloc, "the group for", network, switch, entry)?;
    let name = flow_name(network, flow);
    let port = port.number();
    format!(in alloc; "{group} may lead packets of {name} back over port {port} by which they come")
}

/// The link, from its end a to its end b.
fn link_text(alloc: Global, network: &Network, link: u16) -> Result<String, AllocError>
    ensures { IfOk result (λ s. string_bytes s ≡ channel_text network.now (2 * link)) }
{
    if link >= network.links() {
        return String::from_str(alloc, ">");
    }
    channel_text(alloc, network, Chan::new(2 * link))
}

fn opposed_text(
    alloc: Global,
    network: &Network,
    link: u16,
    onward: u16,
    back: u16,
) -> Result<String, AllocError>
    ensures { IfOk result (λ s. string_bytes s ≡ lint_text network.now (Lint.Opposed link onward back)) }
{
    let channel = link_text(alloc, network, link)?;
    let one = flow_name(network, onward);
    let one_end = end_name(network, onward);
    let other = flow_name(network, back);
    let other_end = end_name(network, back);
    format!(in alloc;
        "commands of {one} to {one_end} go over {channel} and of {other} to {other_end} the other way: while both targets answer, each can wait for the other"
    )
}

fn wrong_target(
    alloc: Global,
    network: &Network,
    flow: u16,
    address: u8,
    logical: u8,
) -> Result<String, AllocError>
    ensures { IfOk result (λ s. string_bytes s ≡ lint_text network.now (Lint.WrongTarget flow address logical)) }
{
    let name = flow_name(network, flow);
    let end = end_name(network, flow);
    format!(in alloc;
        "packets of {name} come to {end} with logical address {address} in place of {logical}"
    )
}

fn wrong_initiator(
    alloc: Global,
    network: &Network,
    flow: u16,
    initiator: u8,
) -> Result<String, AllocError>
    ensures { IfOk result (λ s. string_bytes s ≡ lint_text network.now (Lint.WrongInitiator flow initiator)) }
{
    let name = flow_name(network, flow);
    let start = start_name(network, flow);
    format!(in alloc;
        "the initiator logical address {initiator} of {name} is no known address of {start}"
    )
}

fn two_initiators(
    alloc: Global,
    network: &Network,
    flows: (u16, u16),
    initiators: (u8, u8),
) -> Result<String, AllocError>
    ensures { IfOk result (λ s. string_bytes s ≡ lint_text network.now (Lint.TwoInitiators flows.0 flows.1 initiators.0 initiators.1)) }
{
    let earlier = flow_name(network, flows.0);
    let name = flow_name(network, flows.1);
    let start = start_name(network, flows.1);
    let end = end_name(network, flows.1);
    let one = format!(in alloc; "{}", initiators.0)?;
    let other = format!(in alloc; "{}", initiators.1)?;
    [
        earlier,
        "and",
        name,
        "go from",
        start,
        "to",
        end,
        "with different initiator logical addresses:",
        one.as_str(),
        "and",
        other.as_str(),
    ]
    .join(alloc, " ")
}

/// The text of what is told.
pub(crate) fn lint_text(alloc: Global, network: &Network, lint: &Lint) -> Result<String, AllocError>
    ensures { IfOk result (λ s. string_bytes s ≡ lint_text network.now lint.now) }
{
    match lint {
        Lint::NoFlows => String::from_str(alloc, "the network has no flows"),
        Lint::UnusedNode(node) => with_name(
            alloc,
            "no flow is from or to the node",
            node_name(network, *node),
        ),
        Lint::UnusedSwitch(switch) => with_name(
            alloc,
            "no flow goes over the switch",
            switch_name(network, *switch),
        ),
        Lint::UnusedTarget(node) => with_name(
            alloc,
            "no flow goes to the target",
            node_name(network, *node),
        ),
        Lint::UnusedEntry { switch, entry } => of_entry(
            alloc,
            "no flow uses the entry for",
            network,
            *switch,
            *entry,
        ),
        Lint::OneLinkedPort {
            switch,
            entry,
            port,
        } => one_linked_port(alloc, network, *switch, *entry, *port),
        Lint::LeadsBack {
            switch,
            entry,
            port,
            flow,
        } => leads_back(alloc, network, *switch, *entry, *port, *flow),
        Lint::Opposed { link, onward, back } => opposed_text(alloc, network, *link, *onward, *back),
        Lint::WrongTarget {
            flow,
            address,
            logical,
        } => wrong_target(alloc, network, *flow, *address, *logical),
        Lint::WrongInitiator { flow, initiator } => wrong_initiator(
            alloc, network, *flow, *initiator,
        ),
        Lint::TwoInitiators {
            earlier,
            flow,
            one,
            other,
        } => two_initiators(alloc, network, (*earlier, *flow), (*one, *other)),
    }
}

/// Adds the text of what is told.
fn add_text(
    alloc: Global,
    network: &Network,
    lint: &Lint,
    texts: &mut Vec<String>,
) -> Result<(), AllocError>
    ensures { OnOk result (map string_bytes texts.new.items ≡ map string_bytes texts.old.items ++ lint_text network.now lint.now ∷ []) }
{
    texts.push(lint_text(alloc, network, lint)?)?;
    Ok(())
}

/// What in the network is probably a slip, each in a line of its own without LF: flows whose packets can come back to where they were or of
/// which none arrives, and then what `lints` tells, in its order.
///
/// # Errors
///
/// There is no memory for the texts, or for what finds what they tell.
pub fn lint_texts(alloc: Global, network: &Network) -> Result<Vec<String>, AllocError>
    ensures { IfOk result (λ v. AreLintTexts network.now (map string_bytes v.items)) }
{
    let mut texts = Vec::new(alloc);
    add_circlings(alloc, network, &mut texts)?;
    let told = lints(alloc, network)?;
    for lint in &told {
        add_text(alloc, network, lint, &mut texts)?;
    }
    Ok(texts)
}
