//! The hint of a fault of a network file or a load file.
ghost use Rattle.std.specs.Prelude.{◌≤◌, IfOk, length};
ghost use Rattle.sw_faults.specs.FaultHints.{IsAtFault};

use crate::escaped::show;
use crate::fault_offsets::fault_offset;
use crate::hint::Hint;
use crate::key_words::words_version;
use crate::line_column::position_at;
use crate::made::Made;
use crate::note_words::note_text;
use crate::notes::notes_of;
use crate::syntax::{syntax_error, syntax_help};
use crate::unread::text_fault;
use crate::words::{expected_text, help_text, what_text};
use std::alloc::{AllocError, Global};
use sw_text::{TextFault, Version, read_document};
use toml::Table;

/// The most bytes of a text's line that are shown.
const MOST_FOUND: usize = 72;

/// Where the first line of a text ends.
fn line_end(text: &[u8]) -> usize
    ensures { result ≤ length text.now }
{
    for (end, byte) in text.iter().enumerate() {
        if *byte == b'\n' {
            return end;
        }
    }
    text.len()
}

/// What stands at an offset of a text: the rest of its line, at most 72 bytes, as a terminal shows
/// them.
///
/// # Errors
///
/// There is no memory for the text.
pub fn found_at(alloc: Global, text: &[u8], at: usize) -> Result<String, AllocError>
    requires { at ≤ length text.now }
{
    let rest = &text[at..];
    let line = &rest[..line_end(rest)];
    show(alloc, &line[..MOST_FOUND.min(line.len())])
}

/// Says where a fault of a text stands, what stands there, and what is wrong with it.
///
/// # Errors
///
/// There is no memory for the hint, or to find the place.
pub fn hint_at_fault(alloc: Global, text: &[u8], fault: &TextFault) -> Result<Hint, AllocError>
    ensures { IfOk result (λ h. IsAtFault text.now fault.now h.line h.column) }
{
    let place = fault_offset(alloc, text, fault)?;
    let error = syntax_error(alloc, text, fault)?;
    let help = match &error {
        Some(error) => syntax_help(alloc, text, error)?,
        None => String::new(alloc),
    };
    let mut hint = Hint::new(alloc, what_text(alloc, fault, &error)?);
    hint.help = help;
    let Some(at) = place else {
        return Ok(hint);
    };
    let position = position_at(text, at);
    Ok(Hint {
        line: Some(position.line),
        column: Some(position.column),
        found: found_at(alloc, text, at)?,
        ..hint
    })
}

/// What else has to do with the fault.
fn note_texts(
    alloc: Global,
    text: &[u8],
    document: &Table,
    fault: &TextFault,
) -> Made<Vec<String>> {
    let mut texts = Vec::new(alloc);
    for note in &notes_of(alloc, document, fault)? {
        texts.push(note_text(alloc, text, *note)?)?;
    }
    Ok(texts)
}

/// The hint of a fault of a network file: where it stands, what stands there, what would be right,
/// what to do, and which other entries have to do with it.
///
/// # Errors
///
/// There is no memory for the hint, or to read the text once more.
pub fn fault_hint(alloc: Global, text: &[u8], fault: &TextFault) -> Result<Hint, AllocError>
    ensures { IfOk result (λ h. IsAtFault text.now fault.now h.line h.column) }
{
    let mut hint = hint_at_fault(alloc, text, fault)?;
    match read_document(alloc, text) {
        Ok(document) => {
            let version = words_version(alloc, &document)?;
            hint.expected = expected_text(alloc, version, fault)?;
            hint.help = help_text(alloc, &document, fault)?;
            hint.notes = note_texts(alloc, text, &document, fault)?;
        }
        Err(refused) => {
            text_fault(refused)?;
            hint.expected = expected_text(alloc, Version::Two, fault)?;
        }
    }
    Ok(hint)
}
