//! Entries of `link`.
ghost use Rattle.std.specs.Prelude.{◌≡◌, length, IfOk};
ghost use Rattle.toml.specs.View.{table_view};
ghost use Rattle.sw_topo.specs.Checked.{IsIn};
ghost use Rattle.sw_config.specs.Entries.{part_names};
ghost use Rattle.sw_text.specs.Gives.{Gives};
ghost use Rattle.sw_file.specs.Links.{end_at, next_link};

use std::alloc::Global;
use std::marker::Model;
use sw_config::NetworkBuilder;
use sw_text::section_keys::link_keys;
use sw_text::{FileFault, Key, KeyFault, Section, TableEntry, Version};
use sw_topo::limits::{MAX_BUFFER, MAX_PORT, MIN_BUFFER};
use sw_topo::{PlaceEnd, Port};
use toml::Table;

#[tactic(auto, unfolding(crate::specs::Links::end_at, crate::specs::Names::place_at))]
fn link_end(
    alloc: Global,
    link: &TableEntry,
    key: Key,
    port_key: Key,
    builder: &NetworkBuilder,
) -> Result<PlaceEnd, FileFault>
    ensures gives { Gives (λ e. e) result (end_at link.now.section key port_key (length builder.now.nodes) (part_names builder.now) (table_view link.now.table.now)) }
    ensures inside { IfOk result (IsIn (length builder.now.nodes) (length builder.now.switches)) }
{
    let name = link.text(key)?;
    let Some(part) = builder.part_named(name) else {
        return Err(link.fault(KeyFault::UnknownName, key));
    };
    let nodes = builder.node_count() as usize;
    if part < nodes {
        link.refuse_known(alloc, port_key)?;
        return Ok(PlaceEnd::Node(part as u16));
    }
    prove!(part < nodes + builder.switch_count() as usize);
    let number = link.number(port_key, 0, MAX_PORT)?;
    let port = Port::new(number as u8).unwrap();
    Ok(PlaceEnd::Switch((part - nodes) as u16, port))
}

/// Adds the link that the table declares.
#[tactic(auto, unfolding(crate::specs::Links::link_of, crate::specs::Links::next_link))]
pub(crate) fn add_link(
    alloc: Global,
    version: Version,
    index: usize,
    table: &Table,
    builder: &mut NetworkBuilder,
) -> Result<(), FileFault>
    ensures { Gives (λ _. builder.new) result (next_link version index builder.old (table_view table.now)) }
{
    let link = TableEntry {
        section: Section::Link(index),
        table,
    };
    link.only_known(alloc, link_keys(version))?;
    let a = link_end(alloc, &link, Key::A, Key::APort, builder)?;
    let b = link_end(alloc, &link, Key::B, Key::BPort, builder)?;
    let buffer = link.number_or(Key::Buffer, MIN_BUFFER, MAX_BUFFER, 64)?;
    let buffer_a = link.number_or(Key::BufferA, MIN_BUFFER, MAX_BUFFER, buffer)?;
    let buffer_b = link.number_or(Key::BufferB, MIN_BUFFER, MAX_BUFFER, buffer)?;
    builder.add_link(a, b, buffer_a as u16, buffer_b as u16)?;
    Ok(())
}
