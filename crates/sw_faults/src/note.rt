//! What there is to note of a fault.
ghost use Rattle.std.specs.Prelude.{◌≡◌, ◌++◌, ◌∷◌, [], IfOk};

use std::alloc::AllocError;
use sw_text::{Key, Section};

/// What there is to note of a fault: another entry of the file, or a condition that failed.
#[derive(Clone, Copy)]
pub(crate) enum Note {
    /// This entry has the name.
    HasName(Section),
    /// No link is at the node.
    Unlinked,
    /// The link of this number is at the node.
    LinkHere(usize),
    /// The link of this number has the port of the link's end at this key.
    HasPort(usize, Key),
    /// Of this switch, this entry is for the addresses from the first to the last.
    IsFor(usize, usize, u64, u64),
    /// The path of the replies has so many numbers.
    LongPath(usize),
    /// The path of the replies begins with 0.
    LeadingZero,
    /// This is no logical address of an initiator.
    NoInitiator(u64),
    /// The node that the flow goes to is no target.
    NoTarget(usize),
}

/// Adds a note.
///
/// # Errors
///
/// There is no memory for a longer list.
pub(crate) fn add_note(note: Note, notes: &mut Vec<Note>) -> Result<(), AllocError>
    ensures { IfOk result (λ _. notes.new.items ≡ notes.old.items ++ note ∷ []) }
{
    notes.push(note)?;
    Ok(())
}
