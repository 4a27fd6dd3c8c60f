//! The network that a text declares.
ghost use Rattle.std.specs.Prelude.{◌≡◌, ◌≤◌, ◌<◌, ◌+◌, ℕ, [], vec_len, map, IfOk, OnOk};
ghost use Rattle.toml.specs.View.{table_view};
ghost use Rattle.sw_config.specs.Entries.{empty};
ghost use Rattle.sw_text.specs.Gives.{Gives};
ghost use Rattle.sw_file.specs.Network.{version_numbered, version_of, entries, with_parts, with_flows, network_of, network_text};
ghost use Rattle.sw_file.specs.Lists.{list_key, most_parts, next_part, with_list, HasParts};

use crate::flows::add_flow;
use crate::links::add_link;
use crate::nodes::add_node;
use crate::switches::add_switch;
use std::alloc::Global;
use std::marker::Model;
use sw_config::{Network, NetworkBuilder};
use sw_text::section_keys::DOCUMENT_KEYS;
use sw_text::{FileFault, Key, KeyFault, Section, TableEntry, TextFault, Version, read_document};
use sw_topo::limits::{MAX_FLOWS, MAX_LINKS, MAX_NODES, MAX_SWITCHES};
use sw_topo::{Limit, TopoError, TopoFault};
use toml::Table;

/// The tables of one of the document's lists, if there are not too many of them.
fn entries<'a>(
    alloc: Global,
    document: &TableEntry<'a>,
    key: Key,
    most: u16,
    over: TextFault,
) -> Result<Vec<&'a Table>, FileFault>
    requires { document.now.section ≡ Section.Document }
    ensures gives { Gives (λ v. map (λ t. table_view t.now) v.items) result (entries key most over (table_view document.now.table.now)) }
    ensures few { IfOk result (λ v. vec_len v ≤ most) }
{
    let tables = document.tables_or_none(alloc, key)?;
    if tables.len() > most as usize {
        return Err(FileFault::Fault(over));
    }
    Ok(tables)
}

/// The key of the document's list that the limit is for, and how many entries the list may have.
fn key_and_most(limit: Limit) -> (Key, u16)
    ensures key { result.0 ≡ list_key limit }
    ensures most { result.1 ≡ most_parts limit }
{
    match limit {
        Limit::Nodes => (Key::Node, MAX_NODES),
        Limit::Switches => (Key::Switch, MAX_SWITCHES),
        Limit::Links => (Key::Link, MAX_LINKS),
    }
}

/// Adds the part that the table declares, an entry of the list that the limit is for.
fn add_part(
    alloc: Global,
    version: Version,
    limit: Limit,
    index: usize,
    table: &Table,
    builder: &mut NetworkBuilder,
) -> Result<(), FileFault>
    requires few { index < most_parts limit }
    requires parts { HasParts limit index builder.old }
    ensures gives { Gives (λ _. builder.new) result (next_part limit version index builder.old (table_view table.now)) }
    ensures one_more { OnOk result (HasParts limit (index + 1) builder.new) }
{
    match limit {
        Limit::Nodes => add_node(alloc, version, index, table, builder),
        Limit::Switches => add_switch(alloc, version, index, table, builder),
        Limit::Links => add_link(alloc, version, index, table, builder),
    }
}

/// Reads the document's list that the limit is for.
fn read_list(
    alloc: Global,
    version: Version,
    document: &TableEntry,
    limit: Limit,
    builder: &mut NetworkBuilder,
) -> Result<(), FileFault>
    requires document { document.now.section ≡ Section.Document }
    requires none { HasParts limit 0 builder.old }
    ensures gives { Gives (λ _. builder.new) result (with_list limit version builder.old (table_view document.now.table.now)) }
    ensures parts { OnOk result ((n : ℕ) × HasParts limit n builder.new) }
{
    let (key, most) = key_and_most(limit);
    let over = TextFault::Topology(TopoFault::TooMany(limit));
    let tables = entries(alloc, document, key, most, over)?;
    for (i, table) in tables.iter().enumerate() {
        add_part(alloc, version, limit, i, table, builder)?;
    }
    Ok(())
}

#[tactic(auto, unfolding(crate::specs::Network::with_parts, crate::specs::Network::with_nodes, crate::specs::Network::with_switches, crate::specs::Network::with_links))]
fn read_parts(
    alloc: Global,
    version: Version,
    document: &TableEntry,
    builder: &mut NetworkBuilder,
) -> Result<(), FileFault>
    requires document { document.now.section ≡ Section.Document }
    requires none { builder.old.nodes ≡ [] }
    requires nodes_first { builder.old.switches ≡ [] }
    ensures { Gives (λ _. builder.new) result (with_parts version builder.old (table_view document.now.table.now)) }
{
    read_list(alloc, version, document, Limit::Nodes, builder)?;
    read_list(alloc, version, document, Limit::Switches, builder)?;
    read_list(alloc, version, document, Limit::Links, builder)
}

/// The nodes, the switches and the links, not yet looked at together.
fn parts(
    alloc: Global,
    version: Version,
    document: &TableEntry,
) -> Result<NetworkBuilder, FileFault>
    requires { document.now.section ≡ Section.Document }
    ensures { Gives (λ b. b) result (with_parts version empty (table_view document.now.table.now)) }
{
    let mut builder = NetworkBuilder::new(alloc);
    match read_parts(alloc, version, document, &mut builder) {
        Ok(()) => Ok(builder),
        Err(fault) => {
            builder.discard();
            Err(fault)
        }
    }
}

#[tactic(auto, unfolding(crate::specs::Network::with_flows))]
fn read_flows(
    alloc: Global,
    version: Version,
    document: &TableEntry,
    network: &mut Network,
) -> Result<(), FileFault>
    requires document { document.now.section ≡ Section.Document }
    requires none { network.old.flows ≡ [] }
    ensures { Gives (λ _. network.new) result (with_flows version network.old (table_view document.now.table.now)) }
{
    let over = TextFault::Key(KeyFault::OutOfRange, Section::Document, Key::Flow);
    let tables = entries(alloc, document, Key::Flow, MAX_FLOWS, over)?;
    for (i, table) in tables.iter().enumerate() {
        add_flow(alloc, version, i, table, network)?;
    }
    Ok(())
}

fn with_flows(
    alloc: Global,
    version: Version,
    document: &TableEntry,
    network: Network,
) -> Result<Network, FileFault>
    requires document { document.now.section ≡ Section.Document }
    requires none { network.flows ≡ [] }
    ensures { Gives (λ n. n) result (with_flows version network (table_view document.now.table.now)) }
{
    let mut network = network;
    match read_flows(alloc, version, document, &mut network) {
        Ok(()) => Ok(network),
        Err(fault) => {
            network.discard();
            Err(fault)
        }
    }
}

/// The version of that number, 1 to 3.
fn version_numbered(number: u64) -> Version
    ensures { result ≡ version_numbered number }
{
    match number {
        1 => Version::One,
        2 => Version::Two,
        _ => Version::Three,
    }
}

/// The version of the file whose document has this table.
///
/// # Errors
///
/// `Text`: the document has a key that it may not have, or its version is none of 1 to 3. `Memory`: there is no memory for a name.
#[tactic(auto, unfolding(crate::specs::Network::version_of))]
pub fn declared_version(alloc: Global, table: &Table) -> Result<Version, FileFault>
    ensures { Gives (λ v. v) result (version_of (table_view table.now)) }
{
    let document = TableEntry {
        section: Section::Document,
        table,
    };
    document.only_known(alloc, DOCUMENT_KEYS)?;
    let number = document.number(Key::Version, 1, 3)?;
    Ok(version_numbered(number))
}

/// The network that the table of a document declares.
///
/// # Errors
///
/// `Text`: the first fault that is met in it. `Memory`: there is no memory for what is read; this tells nothing of the table.
#[tactic(auto, unfolding(crate::specs::Network::network_of))]
pub fn declared_network(alloc: Global, table: &Table) -> Result<Network, FileFault>
    ensures { Gives (λ n. n) result (network_of (table_view table.now)) }
{
    let document = TableEntry {
        section: Section::Document,
        table,
    };
    let version = declared_version(alloc, table)?;
    let builder = parts(alloc, version, &document)?;
    match builder.wire(alloc) {
        Ok(network) => with_flows(alloc, version, &document, network),
        Err(TopoError::Fault(fault)) => Err(FileFault::Fault(TextFault::Topology(fault))),
        Err(TopoError::Memory) => Err(FileFault::Memory),
    }
}

/// Reads a network file of version 1 to 3: the network that it declares.
///
/// # Errors
///
/// `Text`: the first fault of the text. `Memory`: there is no memory for what is read; this tells nothing of the text.
pub fn read_network(alloc: Global, bytes: &[u8]) -> Result<Network, FileFault>
    ensures { Gives (λ n. n) result (network_text bytes.now) }
{
    let table = read_document(alloc, bytes)?;
    declared_network(alloc, &table)
}
