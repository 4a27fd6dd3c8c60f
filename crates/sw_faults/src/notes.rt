//! What there is to note of a fault.
ghost use Rattle.std.specs.Prelude.{◌≡◌, ◌++◌, IfOk, option_map, option_to_list};
ghost use Rattle.toml.specs.View.{table_view};
ghost use Rattle.sw_faults.specs.Notes.{entry_in, first_at, holder, link_notes, name_note, node_notes, notes_of, port_note, range_of, route_note};
ghost use Rattle.sw_faults.specs.ReplyNotes.{named};

use crate::entries::{number_in, range_in, text_in, text_of};
use crate::finding::{first_index, indices_of};
use crate::lookup::table_of;
use crate::note::{Note, add_note};
use crate::passing::Test;
use crate::reply_notes::add_reply;
use std::alloc::{AllocError, Global};
use sw_text::{Key, KeyFault, Section, TextFault};
use sw_topo::TopoFault;
use sw_topo::limits::MAX_PORT;
use toml::Table;

/// The most links of a node that are noted.
const MOST_LINKS: usize = 8;

/// The first node, switch or flow of the name, as an entry.
fn entry_named(
    alloc: Global,
    document: &Table,
    list: Key,
    name: &str,
) -> Result<Option<Section>, AllocError>
    ensures { IfOk result (λ o. o ≡ option_map (entry_in list) (named list name.now (table_view document.now))) }
{
    let Some(number) = first_index(alloc, document, list, &Test::Named(name))? else {
        return Ok(None);
    };
    match list {
        Key::Switch => Ok(Some(Section::Switch(number))),
        Key::Flow => Ok(Some(Section::Flow(number))),
        _ => Ok(Some(Section::Node(number))),
    }
}

/// The entry that has a name of this entry's set already.
fn holder(
    alloc: Global,
    document: &Table,
    section: Section,
    name: &str,
) -> Result<Option<Section>, AllocError>
    ensures { IfOk result (λ o. o ≡ holder section name.now (table_view document.now)) }
{
    match section {
        Section::Node(_) => entry_named(alloc, document, Key::Node, name),
        Section::Switch(_) => match entry_named(alloc, document, Key::Node, name)? {
            Some(node) => Ok(Some(node)),
            None => entry_named(alloc, document, Key::Switch, name),
        },
        Section::Flow(_) => entry_named(alloc, document, Key::Flow, name),
        _ => Ok(None),
    }
}

/// Adds which entry has the name of this one already.
fn add_holder(
    alloc: Global,
    document: &Table,
    section: Section,
    notes: &mut Vec<Note>,
) -> Result<(), AllocError>
    ensures { IfOk result (λ _. notes.new.items ≡ notes.old.items ++ option_to_list (name_note section (table_view document.now))) }
{
    let Some(name) = text_of(document, section, Key::Name) else {
        return Ok(());
    };
    match holder(alloc, document, section, name)? {
        Some(entry) => add_note(Note::HasName(entry), notes),
        None => Ok(()),
    }
}

/// The first link that has the port of this end of a link.
fn first_at(
    alloc: Global,
    document: &Table,
    link: usize,
    key: Key,
    port_key: Key,
) -> Result<Option<usize>, AllocError>
    ensures { IfOk result (λ o. o ≡ first_at key port_key link (table_view document.now)) }
{
    let Some(table) = table_of(document, Section::Link(link)) else {
        return Ok(None);
    };
    let Some(name) = text_in(table, key) else {
        return Ok(None);
    };
    match number_in(table, port_key, 0, MAX_PORT) {
        Some(port) => first_index(alloc, document, Key::Link, &Test::HasPort(name, port)),
        None => Ok(None),
    }
}

/// Adds which link has the port of an end of this one already.
fn add_port(
    alloc: Global,
    document: &Table,
    link: usize,
    notes: &mut Vec<Note>,
) -> Result<(), AllocError>
    ensures { IfOk result (λ _. notes.new.items ≡ notes.old.items ++ option_to_list (port_note link (table_view document.now))) }
{
    match first_at(alloc, document, link, Key::A, Key::APort)? {
        Some(other) if other < link => return add_note(Note::HasPort(other, Key::A), notes),
        _ => {}
    }
    match first_at(alloc, document, link, Key::B, Key::BPort)? {
        Some(other) => add_note(Note::HasPort(other, Key::B), notes),
        None => Ok(()),
    }
}

/// The first and the last address of an entry of a routing table.
fn range_of(document: &Table, switch: usize, route: usize) -> Option<(u64, u64)>
    ensures { result ≡ range_of switch route (table_view document.now) }
{
    match table_of(document, Section::Route(switch, route)) {
        Some(table) => range_in(table),
        None => None,
    }
}

/// Adds which entry is for an address of this one already, and which addresses it is for.
fn add_route(
    alloc: Global,
    document: &Table,
    switch: usize,
    route: usize,
    notes: &mut Vec<Note>,
) -> Result<(), AllocError>
    ensures { IfOk result (λ _. notes.new.items ≡ notes.old.items ++ option_to_list (route_note switch route (table_view document.now))) }
{
    let Some((first, last)) = range_of(document, switch, route) else {
        return Ok(());
    };
    let Some(table) = table_of(document, Section::Switch(switch)) else {
        return Ok(());
    };
    let overlaps = Test::Overlaps(first, last);
    let Some(other) = first_index(alloc, table, Key::Route, &overlaps)? else {
        return Ok(());
    };
    match range_of(document, switch, other) {
        Some((first, last)) => add_note(Note::IsFor(switch, other, first, last), notes),
        None => Ok(()),
    }
}

/// Adds the links that are at a node, or that there is none.
fn add_links(links: &[usize], notes: &mut Vec<Note>) -> Result<(), AllocError>
    ensures { IfOk result (λ _. notes.new.items ≡ notes.old.items ++ link_notes links.now) }
{
    if links.is_empty() {
        return add_note(Note::Unlinked, notes);
    }
    let most = &links[..MOST_LINKS.min(links.len())];
    for link in most {
        add_note(Note::LinkHere(*link), notes)?;
    }
    Ok(())
}

/// Adds the links that are at the node of this number.
fn add_node(
    alloc: Global,
    document: &Table,
    node: usize,
    notes: &mut Vec<Note>,
) -> Result<(), AllocError>
    ensures { IfOk result (λ _. notes.new.items ≡ notes.old.items ++ node_notes node (table_view document.now)) }
{
    match text_of(document, Section::Node(node), Key::Name) {
        Some(name) => {
            let links = indices_of(alloc, document, Key::Link, &Test::IsAt(name))?;
            add_links(&links, notes)
        }
        None => Ok(()),
    }
}

/// Adds what there is to note of a fault.
fn add_notes(
    alloc: Global,
    document: &Table,
    fault: &TextFault,
    notes: &mut Vec<Note>,
) -> Result<(), AllocError>
    ensures { IfOk result (λ _. notes.new.items ≡ notes.old.items ++ notes_of fault.now (table_view document.now)) }
{
    match fault {
        TextFault::Key(KeyFault::DuplicateName, section, _) => {
            add_holder(alloc, document, *section, notes)
        }
        TextFault::Topology(TopoFault::PortTaken(link)) => {
            add_port(alloc, document, *link as usize, notes)
        }
        TextFault::Topology(TopoFault::NodeLinks(node)) => {
            add_node(alloc, document, *node as usize, notes)
        }
        TextFault::DuplicateRoute(switch, route) => {
            add_route(alloc, document, *switch, *route, notes)
        }
        TextFault::ReplyShape(flow) => add_reply(alloc, document, *flow, notes),
        _ => Ok(()),
    }
}

/// What there is to note of a fault of the text of this document: the entries that it has to do with besides its own, or the conditions
/// that failed.
///
/// # Errors
///
/// There is no memory for the list.
pub(crate) fn notes_of(
    alloc: Global,
    document: &Table,
    fault: &TextFault,
) -> Result<Vec<Note>, AllocError>
    ensures { IfOk result (λ v. v.items ≡ notes_of fault.now (table_view document.now)) }
{
    let mut notes = Vec::new(alloc);
    add_notes(alloc, document, fault, &mut notes)?;
    Ok(notes)
}
