//! The text of an entry of a load.
ghost use Rattle.std.specs.Prelude.{◌≡◌, ◌≤◌, IfOk, Some, length, position, string_bytes};
ghost use Rattle.std.specs.Str.{bytes_eq};
ghost use Rattle.toml.specs.Data.{array, item, member, no_items, no_members, table};
ghost use Rattle.toml.specs.View.{table_view, view};
ghost use Rattle.sw_text.specs.Keys.{key_text};
ghost use Rattle.sw_config.specs.Entries.{flow_names};
ghost use Rattle.sw_machine.specs.DeclaredPackets.{IsDeclaredPacket};
ghost use Rattle.sw_app_rmap.specs.RmapAnswers.{IsLoadText};
ghost use Rattle.sw_app_rmap.specs.EntryTexts.{entry_table, load_table};

use hex::encode_upper;
use std::alloc::{AllocError, Global};
use std::marker::Model;
use sw_config::Network;
use sw_load::laws::cargo_is_read;
use sw_text::Key;
use toml::{Table, Value};

/// The table of one key.
fn one_member(alloc: Global, key: Key, value: Value) -> Result<Table, AllocError>
    ensures { IfOk result (λ t. table_view t ≡ member (key_text key) (view value) no_members) }
{
    let name = String::from_str(alloc, key.text())?;
    let mut table = Table::new(alloc);
    table.insert(name, value)?;
    Ok(table)
}

/// The flow's name and the cargo.
fn entry_table(alloc: Global, name: &str, cargo: &[u8]) -> Result<Table, AllocError>
    ensures { IfOk result (λ t. table_view t ≡ entry_table name.now cargo.now) }
{
    let pairs = encode_upper(alloc, cargo)?;
    let key = String::from_str(alloc, Key::Flow.text())?;
    let value = String::from_str(alloc, name)?;
    let mut table = one_member(alloc, Key::Cargo, Value::String(pairs))?;
    table.insert(key, Value::String(value))?;
    Ok(table)
}

/// The table as the one element of an array.
fn one_item(alloc: Global, only: Table) -> Result<Value, AllocError>
    ensures { IfOk result (λ v. view v ≡ array (item (table (table_view only)) no_items)) }
{
    let mut items = Vec::new(alloc);
    items.push(Value::Table(only))?;
    Ok(Value::Array(items))
}

fn load_table(alloc: Global, name: &str, cargo: &[u8]) -> Result<Table, AllocError>
    ensures { IfOk result (λ t. table_view t ≡ load_table name.now cargo.now) }
{
    let entry = entry_table(alloc, name, cargo)?;
    one_member(alloc, Key::Packet, one_item(alloc, entry)?)
}

/// The text of a load of one packet of the flow of that name and number.
///
/// # Errors
///
/// There is no memory for the text.
pub(crate) fn entry_text(
    alloc: Global,
    network: &Network,
    name: &str,
    flow: u16,
    cargo: &[u8],
) -> Result<String, AllocError>
    requires named { position (bytes_eq name.now) (flow_names network.now.flows) ≡ Some flow }
    requires declared { IsDeclaredPacket network.now flow cargo.now }
    requires few { length cargo.now ≤ 4096 }
    ensures { IfOk result (λ s. IsLoadText network.now name.now (record { flow = flow; cargo = cargo.now }) (string_bytes s)) }
{
    // Names what holds of a cargo's text.
    cargo_is_read();
    let table = load_table(alloc, name, cargo)?;
    match toml::table_to_string(alloc, &table) {
        Ok(text) => Ok(text),
        Err(_) => Err(AllocError),
    }
}
