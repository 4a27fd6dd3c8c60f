//! Why the replies of a flow can't come back.
ghost use Rattle.std.specs.Prelude.{◌≡◌, ◌++◌, IfOk, option_map};
ghost use Rattle.toml.specs.View.{table_view};
ghost use Rattle.sw_text.specs.declared.keys.Key.TheVariants.{Path};
ghost use Rattle.sw_faults.specs.Entries.{bytes_in};
ghost use Rattle.sw_faults.specs.ReplyNotes.{path_notes, reply_notes, table_notes};

use crate::entries::{number_in, text_of};
use crate::finding::first_index;
use crate::lookup::table_of;
use crate::note::{Note, add_note};
use crate::passing::Test;
use crate::unread::text_fault;
use std::alloc::{AllocError, Global};
use sw_text::{Key, Section, TableEntry};
use sw_topo::limits::{FIRST_LOGICAL, LAST_LOGICAL, MAX_REPLY_PATH};
use toml::Table;

/// Adds what is wrong with the path in the table of the replies.
fn add_path(alloc: Global, reply: &Table, notes: &mut Vec<Note>) -> Result<(), AllocError>
    ensures { IfOk result (λ _. notes.new.items ≡ notes.old.items ++ path_notes (bytes_in Path (table_view reply.now))) }
{
    let entry = TableEntry {
        section: Section::Document,
        table: reply,
    };
    let path = match entry.numbers_or_none(alloc, Key::Path, 255) {
        Ok(path) => path,
        Err(fault) => return text_fault(fault),
    };
    if path.len() > MAX_REPLY_PATH {
        add_note(Note::LongPath(path.len()), notes)?;
    }
    match path.as_slice() {
        [0, ..] => add_note(Note::LeadingZero, notes),
        _ => Ok(()),
    }
}

/// Adds what is wrong in the table of the replies, where there is one.
fn add_shape(alloc: Global, reply: Option<&Table>, notes: &mut Vec<Note>) -> Result<(), AllocError>
    ensures { IfOk result (λ _. notes.new.items ≡ notes.old.items ++ table_notes (option_map (λ t. table_view t.now) reply.entry)) }
{
    let Some(reply) = reply else {
        return Ok(());
    };
    add_path(alloc, reply, notes)?;
    match number_in(reply, Key::Initiator, 0, 255) {
        Some(initiator) if initiator < FIRST_LOGICAL || initiator > LAST_LOGICAL => {
            add_note(Note::NoInitiator(initiator), notes)
        }
        _ => Ok(()),
    }
}

/// Adds each condition that failed.
///
/// # Errors
///
/// There is no memory for the list.
pub(crate) fn add_reply(
    alloc: Global,
    document: &Table,
    flow: usize,
    notes: &mut Vec<Note>,
) -> Result<(), AllocError>
    ensures { IfOk result (λ _. notes.new.items ≡ notes.old.items ++ reply_notes flow (table_view document.now)) }
{
    add_shape(alloc, table_of(document, Section::Reply(flow)), notes)?;
    let Some(name) = text_of(document, Section::Flow(flow), Key::To) else {
        return Ok(());
    };
    let Some(node) = first_index(alloc, document, Key::Node, &Test::Named(name))? else {
        return Ok(());
    };
    match table_of(document, Section::Target(node)) {
        Some(_) => Ok(()),
        None => add_note(Note::NoTarget(node), notes),
    }
}
