//! Where a table or a key stands.
ghost use Rattle.std.specs.Prelude.{◌≡◌, ◌≤◌, IfOk, IfSome, IsTrue, length, option_map, take};
ghost use Rattle.toml.specs.View.{table_view};
ghost use Rattle.sw_faults.specs.Places.{Holds, IsPiece, IsPlace, Reads, has};

use crate::frame::Frame;
use crate::lookup::{table_of, value_of};
use crate::scan::{Proposal, propose};
use crate::sought::Sought;
use crate::unread::text_fault;
use std::alloc::{AllocError, Global};
use sw_text::read_document;
use toml::Table;
use toml_parser::ParseError;

fn has(document: &Table, sought: &Sought<'_>) -> bool
    ensures { result ≡ has sought.now.section (option_map (λ s. s.now) sought.now.key) (table_view document.now) }
{
    match sought.key {
        None => table_of(document, sought.section).is_some(),
        Some(key) => value_of(document, sought.section, key).is_some(),
    }
}

/// Whether the bytes are a document that has what is sought, or has not.
fn reads(alloc: Global, bytes: &[u8], sought: &Sought<'_>, held: bool) -> Result<bool, AllocError>
    ensures { IfOk result (λ b. IsTrue b → Reads held sought.now.section (option_map (λ s. s.now) sought.now.key) bytes.now) }
{
    match read_document(alloc, bytes) {
        Ok(document) => Ok(has(&document, sought) == held),
        Err(fault) => {
            text_fault(fault)?;
            Ok(false)
        }
    }
}

/// Whether the text up to an offset, where these brackets are open, is a document that has what is sought, or has not.
fn holds(
    alloc: Global,
    text: &[u8],
    offset: usize,
    open: &[Frame],
    sought: &Sought<'_>,
    held: bool,
) -> Result<bool, AllocError>
    requires { offset ≤ length text.now }
    ensures { IfOk result (λ b. IsTrue b → Holds held sought.now.section (option_map (λ s. s.now) sought.now.key) (take offset text.now)) }
{
    let mut closed = text[..offset].to_vec(alloc)?;
    for frame in open.iter().rev() {
        closed.push(frame.closing_byte())?;
    }
    reads(alloc, &closed, sought, held)
}

/// Whether the bytes are an opening brace or statements.
fn is_piece(alloc: Global, bytes: &[u8]) -> Result<bool, AllocError>
    ensures { IfOk result (λ b. IsTrue b → IsPiece bytes.now) }
{
    if let [b'{'] = bytes {
        return Ok(true);
    }
    match read_document(alloc, bytes) {
        Ok(_) => Ok(true),
        Err(fault) => {
            text_fault(fault)?;
            Ok(false)
        }
    }
}

/// Where the piece that was proposed begins, behind which these brackets are open, if it brings what is sought.
fn offset_by(
    alloc: Global,
    text: &[u8],
    sought: &Sought<'_>,
    piece: Proposal,
    frames: &[Frame],
) -> Result<Option<usize>, AllocError>
    ensures { IfOk result (λ o. IfSome o (IsPlace text.now sought.now.section (option_map (λ s. s.now) sought.now.key))) }
{
    let Proposal { from, to, open } = piece;
    if from >= to || to > text.len() {
        return Ok(None);
    }
    let before = &frames[..open.min(frames.len())];
    if holds(alloc, text, from, before, sought, false)?
        && holds(alloc, text, to, frames, sought, true)?
        && is_piece(alloc, &text[..to][from..])?
    {
        return Ok(Some(from));
    }
    Ok(None)
}

/// Where what is sought begins in the text of a document, if that is found.
///
/// # Errors
///
/// There is no memory for the documents that parts of the text are.
pub(crate) fn offset_of(
    alloc: Global,
    text: &[u8],
    sought: Sought<'_>,
) -> Result<Option<usize>, AllocError>
    ensures place { IfOk result (λ o. IfSome o (IsPlace text.now sought.entry.section (option_map (λ s. s.now) sought.entry.key))) }
    ensures within { IfOk result (λ o. IfSome o (λ at. at ≤ length text.now)) }
{
    let Ok(words) = std::str::from_utf8(text) else {
        return Ok(None);
    };
    match propose(alloc, words, sought) {
        Ok(Some((piece, frames))) => offset_by(alloc, text, &sought, piece, &frames),
        Ok(None) | Err(ParseError::At(_, _, _)) => Ok(None),
        Err(ParseError::OutOfMemory) => Err(AllocError),
    }
}
