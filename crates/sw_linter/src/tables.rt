//! Tables of marks and of what is noted first.
ghost use Rattle.std.specs.Prelude.{◌≡◌, ◌<◌, ◌+◌, ◌^◌, ℕ, false, None, Option, option_map};
ghost use Rattle.std.specs.List.{list_any, range_with_len};
ghost use Rattle.sw_linter.specs.Lints.{first_made};
ghost use Rattle.sw_linter.specs.Marks.{marked, note_at, noted};
ghost use Rattle.sw_graph.specs.Rounds.{is_marked};

use crate::asking::Asking;
use std::alloc::{AllocError, Global};

/// Is the mark of that number set?
pub(crate) fn is_marked(marks: &[bool], at: usize) -> bool
    ensures { result ≡ is_marked marks.now at }
{
    match marks.get(at) {
        Some(mark) => *mark,
        None => false,
    }
}

/// Sets the mark of that number, if there is one.
pub(crate) fn mark(marks: &mut Vec<bool>, key: Option<usize>)
    ensures { marks.new.items ≡ marked key marks.old.items }
{
    if let Some(at) = key {
        if at < marks.len() {
            marks[at] = true;
        }
    }
}

/// Is one of `count` marks set, from that number on?
pub(crate) fn is_any_marked(marks: &[bool], from: usize, count: usize) -> bool
    requires from { from < 2 ^ 32 }
    requires count { count < 2 ^ 32 }
    ensures { result ≡ list_any (is_marked marks.now) (range_with_len from count) }
{
    for step in 0..count {
        if is_marked(marks, from + step) {
            return true;
        }
    }
    false
}

/// What is noted at that number.
pub(crate) fn note_at<T: Copy>(notes: &[Option<T>], at: usize) -> Option<T>
    ensures { result ≡ note_at notes.now at }
{
    match notes.get(at) {
        Some(note) => *note,
        None => None,
    }
}

/// Notes it at that number, where nothing is noted.
pub(crate) fn note<T: Copy>(notes: &mut Vec<Option<T>>, key: Option<usize>, value: T)
    ensures { notes.new.items ≡ noted key value notes.old.items }
{
    let Some(at) = key else {
        return;
    };
    if let Some(None) = notes.get(at) {
        notes[at] = Some(value);
    }
}

/// What is noted first of `count` numbers, from that number on.
pub(crate) fn first_noted(notes: &[Option<u16>], from: usize, count: usize) -> Option<u16>
    requires from { from < 2 ^ 32 }
    requires count { count < 2 ^ 32 }
    ensures { result ≡ first_made (note_at notes.now) (range_with_len from count) }
{
    for step in 0..count {
        if let Some(found) = note_at(notes, from + step) {
            return Some(found);
        }
    }
    None
}
