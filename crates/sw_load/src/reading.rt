//! The load that a text lists.
ghost use Rattle.std.specs.Prelude.{◌≡◌, ◌+◌, ◌≤◌, IfOk};
ghost use Rattle.toml.specs.View.{table_view};
ghost use Rattle.sw_text.specs.Gives.{Gives};
ghost use Rattle.sw_load.specs.Load.{flow_at, cargo_at, marker_at, count_at, next_packet, load_of, load_text};

use crate::cargo::bytes_of;
use crate::load::{Load, MAX_PACKETS};
use std::alloc::Global;
use std::marker::Model;
use sw_char::End;
use sw_config::Network;
use sw_machine::in_flow;
use sw_text::section_keys::PACKET_KEYS;
use sw_text::{FileFault, Key, KeyFault, Section, TableEntry, TextFault, read_document};
use toml::Table;

/// A load has at most this many entries.
const MAX_ENTRIES: usize = 4096;

const DOCUMENT_KEYS: &[Key] = &[Key::Packet];

#[tactic(auto, unfolding(crate::specs::Load::flow_at))]
fn flow_at(index: usize, packet: &TableEntry, network: &Network) -> Result<u16, FileFault>
    requires { packet.now.section ≡ Section.Packet index }
    ensures { Gives (λ n. n) result (flow_at index network.now.flows (table_view packet.now.table.now)) }
{
    let name = packet.text(Key::Flow)?;
    match network.declared_flow_named(name) {
        Some(flow) => Ok(flow),
        None => Err(packet.fault(KeyFault::UnknownName, Key::Flow)),
    }
}

/// The bytes that the packet's cargo text spells, in which spaces count for nothing.
#[tactic(auto, unfolding(crate::specs::Load::cargo_at, crate::specs::Cargo::cargo_of))]
fn cargo_at(alloc: Global, index: usize, packet: &TableEntry) -> Result<Vec<u8>, FileFault>
    requires { packet.now.section ≡ Section.Packet index }
    ensures { Gives (λ v. v.items) result (cargo_at index (table_view packet.now.table.now)) }
{
    let text = packet.text(Key::Cargo)?;
    let mut bare = Vec::new(alloc);
    let spelled = text.as_bytes();
    for c in spelled {
        if *c == b' ' {
            continue;
        }
        bare.push(*c)?;
    }
    match bytes_of(alloc, &bare)? {
        Some(bytes) => Ok(bytes),
        None => Err(packet.fault(KeyFault::OutOfRange, Key::Cargo)),
    }
}

#[tactic(auto, unfolding(crate::specs::Load::marker_at))]
fn marker_at(index: usize, packet: &TableEntry) -> Result<End, FileFault>
    requires { packet.now.section ≡ Section.Packet index }
    ensures { Gives (λ e. e) result (marker_at index (table_view packet.now.table.now)) }
{
    let Some(text) = packet.text_or_none(Key::End)? else {
        return Ok(End::Eop);
    };
    match text {
        "EOP" => Ok(End::Eop),
        "EEP" => Ok(End::Eep),
        _ => Err(packet.fault(KeyFault::OutOfRange, Key::End)),
    }
}

#[tactic(auto, unfolding(crate::specs::Load::count_at))]
fn count_at(index: usize, packet: &TableEntry, before: u32) -> Result<u16, FileFault>
    requires section { packet.now.section ≡ Section.Packet index }
    requires few { before ≤ MAX_PACKETS }
    ensures gives { Gives (λ n. n) result (count_at index before (table_view packet.now.table.now)) }
    ensures within { IfOk result (λ n. before + n ≤ MAX_PACKETS) }
{
    let count = packet.number_or(Key::Count, 1, 1000, 1)? as u16;
    if before + u32::from(count) > MAX_PACKETS {
        return Err(packet.fault(KeyFault::OutOfRange, Key::Count));
    }
    Ok(count)
}

/// Adds the packets that the table lists.
#[tactic(auto, using(sw_machine::proofs::Declared::same_test), unfolding(crate::specs::Load::packet_of, crate::specs::Load::next_packet))]
fn add_packet(
    alloc: Global,
    index: usize,
    table: &Table,
    network: &Network,
    load: &mut Load,
) -> Result<(), FileFault>
    ensures { Gives (λ _. load.new) result (next_packet network.now index load.old (table_view table.now)) }
{
    let packet = TableEntry {
        section: Section::Packet(index),
        table,
    };
    packet.only_known(alloc, PACKET_KEYS)?;
    let flow = flow_at(index, &packet, network)?;
    let cargo = cargo_at(alloc, index, &packet)?;
    let end = marker_at(index, &packet)?;
    let count = count_at(index, &packet, load.total())?;
    if !in_flow(network, flow, &cargo, end) {
        return Err(FileFault::Fault(TextFault::NotInFlow(index)));
    }
    load.add(flow, cargo, end, count)?;
    Ok(())
}

#[tactic(auto, unfolding(crate::specs::Load::load_of))]
fn load_of(alloc: Global, network: &Network, document: &TableEntry) -> Result<Load, FileFault>
    requires { document.now.section ≡ Section.Document }
    ensures { Gives (λ l. l) result (load_of network.now (table_view document.now.table.now)) }
{
    document.only_known(alloc, DOCUMENT_KEYS)?;
    let tables = document.tables_or_none(alloc, Key::Packet)?;
    if tables.len() > MAX_ENTRIES {
        return Err(document.fault(KeyFault::OutOfRange, Key::Packet));
    }
    let mut load = Load::new(alloc);
    for (i, table) in tables.iter().enumerate() {
        add_packet(alloc, i, table, network, &mut load)?;
    }
    Ok(load)
}

/// Reads a load file: the packets that it lists for the network's declared flows.
///
/// # Errors
///
/// `Text`: the first fault of the text. `Memory`: there is no memory for what is read; this tells nothing of the text.
pub fn read_load(alloc: Global, network: &Network, bytes: &[u8]) -> Result<Load, FileFault>
    ensures { Gives (λ l. l) result (load_text network.now bytes.now) }
{
    let table = read_document(alloc, bytes)?;
    let document = TableEntry {
        section: Section::Document,
        table: &table,
    };
    load_of(alloc, network, &document)
}
