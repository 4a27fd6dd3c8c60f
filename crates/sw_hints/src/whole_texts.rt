//! Hints on whole texts: that one is too long, or need not be changed.
use std::alloc::{AllocError, Global};
use sw_faults::Hint;
use sw_text::MAX_TEXT;

/// The hint of a text that is too long.
///
/// # Errors
///
/// There is no memory for the hint.
pub fn long_text_hint(alloc: Global) -> Result<Hint, AllocError> {
    let what = String::from_str(alloc, "fault A1 TooLong: the text is too long")?;
    Ok(Hint {
        expected: format!(in alloc; "at most {MAX_TEXT} bytes")?,
        ..Hint::new(alloc, what)
    })
}

/// The hint of a text that `migrate` does not take, and that has no fault.
///
/// # Errors
///
/// There is no memory for the hint.
pub fn unmigrated_hint(alloc: Global) -> Result<Hint, AllocError> {
    let text = |words: &str| String::from_str(alloc, words);
    let what = text("this file can't be migrated")?;
    Ok(Hint {
        expected: format!(in alloc; "a network file of version 1, of at most {MAX_TEXT} bytes")?,
        help: text("a file of version 2 or 3 needs no change")?,
        ..Hint::new(alloc, what)
    })
}
