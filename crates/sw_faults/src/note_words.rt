//! What else has to do with a fault, in words.
use crate::line_column::{Position, position_at};
use crate::made::Made;
use crate::note::Note;
use crate::offset::offset_of;
use crate::sought::Sought;
use std::alloc::Global;
use sw_text::Section;

/// The entry that a note is of, and what is noted.
fn entry_and_words(alloc: Global, note: Note) -> (Option<Section>, Made<String>) {
    let text = |words: &str| String::from_str(alloc, words);
    match note {
        Note::HasName(entry) => (Some(entry), text("already has this name")),
        Note::Unlinked => (None, text("this node has no link")),
        Note::LinkHere(link) => (Some(Section::Link(link)), text("is at this node")),
        Note::HasPort(link, end) => (
            Some(Section::Link(link)),
            format!(in alloc; "already has the port of '{}'", end.text()),
        ),
        Note::IsFor(switch, route, first, last) => (
            Some(Section::Route(switch, route)),
            format!(in alloc; "is for the addresses from {first} to {last}"),
        ),
        Note::LongPath(count) => (None, format!(in alloc; "the path has {count} numbers")),
        Note::LeadingZero => (None, text("the path begins with 0")),
        Note::NoInitiator(initiator) => (
            None,
            format!(in alloc; "the initiator is {initiator}, which is not a logical address"),
        ),
        Note::NoTarget(node) => (
            Some(Section::Node(node)),
            text("is where the flow ends, but has no 'target'"),
        ),
    }
}

/// A note in words: the entry, with the line and column where it stands, if that is found, and what
/// is noted.
pub(crate) fn note_text(alloc: Global, text: &[u8], note: Note) -> Made<String> {
    let (entry, words) = entry_and_words(alloc, note);
    let words = words?;
    let Some(section) = entry else {
        return Ok(words);
    };
    let entry = section.text(alloc)?;
    let Some(at) = offset_of(alloc, text, Sought { section, key: None })? else {
        return format!(in alloc; "{entry} {words}");
    };
    let Position { line, column } = position_at(text, at);
    format!(in alloc; "{entry} at {line}:{column} {words}")
}
