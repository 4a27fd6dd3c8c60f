//! Entries of `node`.
ghost use Rattle.std.specs.Prelude.{◌≡◌, ◌+◌, ◌<◌, [], false, length, IfOk, IfSome, OnOk};
ghost use Rattle.std.specs.List.{list_any};
ghost use Rattle.std.specs.Str.{bytes_eq};
ghost use Rattle.toml.specs.View.{table_view};
ghost use Rattle.sw_rmap.specs.Config.{IsTargetConfig};
ghost use Rattle.sw_config.specs.Entries.{part_names};
ghost use Rattle.sw_config.specs.Valid.{IsOutstanding};
ghost use Rattle.sw_text.specs.declared.keys.Key.TheVariants.{Outstanding};
ghost use Rattle.sw_text.specs.Gives.{Gives};
ghost use Rattle.sw_text.specs.Table.{number_or_none};
ghost use Rattle.sw_file.specs.Names.{new_name};
ghost use Rattle.sw_file.specs.Nodes.{target_or_none, next_node};

use crate::keys::most_slots;
use std::alloc::Global;
use std::marker::Model;
use sw_config::NetworkBuilder;
use sw_rmap::TargetConfig;
use sw_text::section_keys::{node_keys, target_keys};
use sw_text::{FileFault, Key, KeyFault, Section, TableEntry, Version};
use sw_topo::limits::{FIRST_LOGICAL, LAST_LOGICAL, MAX_NODES, MEMORY_END};
use toml::Table;

/// How the node answers as a target, if it is one.
#[tactic(auto, unfolding(crate::specs::Nodes::target_or_none, crate::specs::Nodes::config_of, crate::specs::Nodes::size_at))]
fn target_or_none(
    alloc: Global,
    version: Version,
    index: usize,
    node: &TableEntry,
) -> Result<Option<TargetConfig>, FileFault>
    requires { node.now.section ≡ Section.Node index }
    ensures gives { Gives (λ t. t) result (target_or_none version index (table_view node.now.table.now)) }
    ensures valid { IfOk result (λ t. IfSome t IsTargetConfig) }
{
    let Some(table) = node.table_or_none(Key::Target)? else {
        return Ok(None);
    };
    let target = TableEntry {
        section: Section::Target(index),
        table,
    };
    target.only_known(alloc, target_keys(version))?;
    let logical = target.number(Key::Logical, FIRST_LOGICAL, LAST_LOGICAL)? as u8;
    let key = target.number_or(Key::TargetKey, 0, 255, 0)? as u8;
    let start = target.number_or(Key::Start, 0, MEMORY_END - 1, 0)?;
    let size = target.number(Key::Size, 1, 65536)?;
    if start + size > MEMORY_END {
        return Err(target.fault(KeyFault::OutOfRange, Key::Size));
    }
    let slots = target.number_or(Key::Slots, 1, most_slots(version), 1)? as u8;
    Ok(Some(TargetConfig {
        logical,
        key,
        start,
        size: size as u32,
        slots,
    }))
}

/// How many commands of the entry may be unanswered at once, if that is limited.
pub(crate) fn outstanding_or_none(entry: &TableEntry) -> Result<Option<u16>, FileFault>
    ensures gives { Gives (λ n. n) result (number_or_none entry.now.section Outstanding 1 65535 (table_view entry.now.table.now)) }
    ensures valid { IfOk result (λ o. IfSome o IsOutstanding) }
{
    match entry.number_or_none(Key::Outstanding, 1, u16::MAX as u64)? {
        Some(number) => Ok(Some(number as u16)),
        None => Ok(None),
    }
}

/// The name of a node or switch, which none before it has.
#[tactic(auto, unfolding(crate::specs::Names::new_name))]
pub(crate) fn new_part_name<'a>(
    entry: &TableEntry<'a>,
    builder: &NetworkBuilder,
) -> Result<&'a str, FileFault>
    ensures gives { Gives (λ s. s.now) result (new_name entry.now.section (part_names builder.now) (table_view entry.now.table.now)) }
    ensures fresh { IfOk result (λ s. list_any (bytes_eq s.now) (part_names builder.now) ≡ false) }
{
    let name = entry.name()?;
    if builder.has_name(name) {
        return Err(entry.fault(KeyFault::DuplicateName, Key::Name));
    }
    Ok(name)
}

/// Adds the node that the table declares.
#[tactic(auto, unfolding(crate::specs::Nodes::node_of, crate::specs::Nodes::next_node))]
pub(crate) fn add_node(
    alloc: Global,
    version: Version,
    index: usize,
    table: &Table,
    builder: &mut NetworkBuilder,
) -> Result<(), FileFault>
    requires few { length builder.old.nodes < MAX_NODES }
    requires nodes_first { builder.old.switches ≡ [] }
    ensures gives { Gives (λ _. builder.new) result (next_node version index builder.old (table_view table.now)) }
    ensures one_more { OnOk result (length builder.new.nodes ≡ length builder.old.nodes + 1) }
    ensures switches { OnOk result (builder.new.switches ≡ builder.old.switches) }
{
    let node = TableEntry {
        section: Section::Node(index),
        table,
    };
    node.only_known(alloc, node_keys(version))?;
    let name = new_part_name(&node, builder)?;
    let target = target_or_none(alloc, version, index, &node)?;
    let outstanding = outstanding_or_none(&node)?;
    builder.add_node(alloc, name, target, outstanding)?;
    Ok(())
}
