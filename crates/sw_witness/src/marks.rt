//! Marks by number, as of channels or nodes.

use std::alloc::{AllocError, Global};

/// So many marks, all set or all unset.
pub(crate) fn marks(alloc: Global, count: u16, is_set: bool) -> Result<Vec<bool>, AllocError> {
    let mut marks = Vec::new(alloc);
    marks.resize(usize::from(count), is_set)?;
    Ok(marks)
}

/// Sets or unsets the mark of that number, if there is one.
pub(crate) fn put(marks: &mut [bool], number: u16, is_set: bool) {
    let number = usize::from(number);
    if number < marks.len() {
        marks[number] = is_set;
    }
}

/// Is the mark of that number set?
pub(crate) fn is_set(marks: &[bool], number: u16) -> bool {
    match marks.get(usize::from(number)) {
        Some(mark) => *mark,
        None => false,
    }
}
