//! The hint of a line of a certificate's text that is not as the grammar asks.
use crate::text_kinds::{TextKind, note_kind};
use crate::text_lines::{line_hint, nth_line};
use std::alloc::{AllocError, Global};
use sw_cert::{MAX_ADDRESS, MAX_NUMBER};
use sw_faults::Hint;
use sw_text::{cut, number};

/// What may stand behind this line.
fn expected_after(before: &[u8]) -> &'static str {
    if before.is_empty() {
        "swcert 1"
    } else if before.starts_with(b"swcert") {
        "'channels N', with N from 0 to 2048"
    } else if before.starts_with(b"channels") || before.starts_with(b"number") {
        "for each channel 'number V', with V from 0 to 65535, and then 'flows M', with M from 0 to 8192"
    } else if before.starts_with(b"end") {
        "nothing after the line 'end'"
    } else {
        "for each flow 'flow P', with P from 0 to 67584, and P lines 'place C K', C from 0 to 65535 and K from 0 to 32, rising by C and then by K; then 'end'"
    }
}

/// The channel of a line of a place, and how many address bytes are deleted there.
fn place_in(line: &[u8]) -> Option<(u32, u32)> {
    let (channel, deleted) = cut(line.strip_prefix(b"place ")?, b' ')?;
    Some((
        number(channel, MAX_NUMBER)?,
        number(deleted, u32::from(MAX_ADDRESS))?,
    ))
}

/// How many of the lines before this one begin a flow.
fn flows_before(text: &[u8], line: usize) -> usize {
    text.split(|byte| *byte == b'\n')
        .take(line.saturating_sub(1))
        .filter(|words| words.starts_with(b"flow "))
        .count()
}

/// The hint of the line of a certificate's text, counted from 1, that is not as the grammar asks:
/// what would be right, whether it is a place that does not rise above the one before it, and
/// whether the text is none of a certificate.
///
/// # Errors
///
/// There is no memory for the hint.
pub fn certificate_line_hint(alloc: Global, text: &[u8], line: usize) -> Result<Hint, AllocError> {
    let what = format!(in alloc;
        "refused C1 Grammar {line}: the line does not follow the grammar"
    )?;
    let (words, before) = (nth_line(text, line), nth_line(text, line.saturating_sub(1)));
    let expected = String::from_str(alloc, expected_after(before));
    let mut hint = line_hint(alloc, line, words, words, what, expected)?;
    if let (Some(last), Some(place)) = (place_in(before), place_in(words))
        && last >= place
    {
        let flow = flows_before(text, line).saturating_sub(1);
        let ((channel, deleted), (last_channel, last_deleted)) = (place, last);
        hint.notes.push(format!(in alloc;
            "place {channel} {deleted} of flow {flow} comes after place {last_channel} {last_deleted}"
        )?)?;
    }
    note_kind(alloc, TextKind::Certificate, text, &mut hint)?;
    Ok(hint)
}
