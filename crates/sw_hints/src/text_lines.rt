//! The lines of a text.
use crate::teller::Text;
use std::alloc::{AllocError, Global};
use sw_faults::{Hint, found_at};

/// The line of this number, counted from 1; nothing where there is none.
pub(crate) fn nth_line(text: &[u8], number: usize) -> &[u8] {
    let Some(before) = number.checked_sub(1) else {
        return &[];
    };
    text.split(|byte| *byte == b'\n').nth(before).unwrap_or(&[])
}

/// The hint of the line of this number that is wrong from this rest of it on: where that begins,
/// what is wrong, what stands there, and what would be right.
pub(crate) fn line_hint(
    alloc: Global,
    number: usize,
    line: &[u8],
    rest: &[u8],
    what: String,
    expected: Text,
) -> Result<Hint, AllocError> {
    Ok(Hint {
        line: Some(number),
        column: Some(line.len().saturating_sub(rest.len()) + 1),
        found: found_at(alloc, rest, 0)?,
        expected: expected?,
        ..Hint::new(alloc, what)
    })
}
