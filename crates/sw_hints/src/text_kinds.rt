//! Texts that were given in the place of others.
use crate::step_words::begins_step;
use crate::teller::Text;
use std::alloc::{AllocError, Global};
use sw_faults::{Hint, text_fault};
use sw_text::{Key, Section, TextFault, read_document};
use toml::Table;

/// What a text is, or is to be.
#[derive(Clone, Copy, PartialEq, Eq)]
pub(crate) enum TextKind {
    Network,
    Certificate,
    Load,
    Schedule,
}

impl TextKind {
    /// What it is called, and where it stands among the words of a call.
    fn name_and_place(self) -> (&'static str, &'static str) {
        match self {
            TextKind::Network => ("network file", "first"),
            TextKind::Certificate => ("certificate", "second"),
            TextKind::Load => ("load", "second"),
            TextKind::Schedule => ("schedule", "second"),
        }
    }

    /// The words of a call that reads it.
    fn call(self) -> &'static str {
        match self {
            TextKind::Network => "swcheck decide FILE",
            TextKind::Certificate => "swcheck check FILE CERTIFICATE",
            TextKind::Load => "swcheck run FILE LOAD",
            TextKind::Schedule => "swcheck replay FILE SCHEDULE",
        }
    }

    /// That a text which was to be of this kind is of the other, and which call reads it.
    fn note_on(self, alloc: Global, given: TextKind) -> Text {
        let (name, place) = given.name_and_place();
        let call = match given {
            TextKind::Network => self.call(),
            given => given.call(),
        };
        format!(in alloc; "this is a {name}: it comes {place} in {call}")
    }
}

/// What a text is, if the words that it begins with tell.
fn kind_by_words(text: &[u8]) -> Option<TextKind> {
    if text.starts_with(b"swcert ") {
        return Some(TextKind::Certificate);
    }
    let first = text
        .split(|byte| *byte == b'\n')
        .find(|line| !line.is_empty() && !line.starts_with(b"#"))?;
    begins_step(first).then_some(TextKind::Schedule)
}

/// What a document is, if its keys tell.
pub(crate) fn kind_of_document(document: &Table) -> Option<TextKind> {
    let has = |key: Key| document.get(key.text()).is_some();
    if has(Key::Version) || has(Key::Node) || has(Key::Link) {
        Some(TextKind::Network)
    } else if has(Key::Packet) {
        Some(TextKind::Load)
    } else {
        None
    }
}

/// What a text is, if that is seen.
fn kind_of(alloc: Global, text: &[u8]) -> Result<Option<TextKind>, AllocError> {
    if let Some(kind) = kind_by_words(text) {
        return Ok(Some(kind));
    }
    match read_document(alloc, text) {
        Ok(document) => Ok(kind_of_document(&document)),
        Err(refused) => {
            text_fault(refused)?;
            Ok(None)
        }
    }
}

/// Notes that a text was given in the place of another, if it is of another kind than it was to be.
pub(crate) fn note_kind(
    alloc: Global,
    wanted: TextKind,
    text: &[u8],
    hint: &mut Hint,
) -> Result<(), AllocError> {
    if let Some(given) = kind_of(alloc, text)?
        && given != wanted
    {
        hint.notes.push(wanted.note_on(alloc, given)?)?;
    }
    Ok(())
}

/// Is the fault one of those that a text of another kind has?
pub(crate) fn is_of_other_kinds(fault: &TextFault) -> bool {
    matches!(
        fault,
        TextFault::Syntax | TextFault::UnknownKey(Section::Document, _)
    )
}

/// Notes that a text with this fault, which was to be a network file, is a file of another kind, if
/// it is.
///
/// # Errors
///
/// There is no memory for the note, or to read the text once more.
pub fn note_other_kind(
    alloc: Global,
    text: &[u8],
    fault: &TextFault,
    hint: &mut Hint,
) -> Result<(), AllocError> {
    if !is_of_other_kinds(fault) {
        return Ok(());
    }
    note_kind(alloc, TextKind::Network, text, hint)
}
