//! What is kept of a file until all are judged.
ghost use Rattle.std.specs.Prelude.{◌≡◌, IfOk, None, codes, false};
ghost use Rattle.serde_json.specs.View.{view};
ghost use Rattle.sw_json.specs.FileValues.{bare_entry, kind_value};

use std::alloc::{AllocError, Global};
use sw_json::{Value, bare_entry, kind_value};
use sw_text::statuses::NO_ROOM;

/// A file of a call: its number, from 1, and its path.
#[derive(Clone, Copy)]
pub(crate) struct NumberedFile<'a> {
    pub(crate) number: usize,
    pub(crate) path: &'a str,
}

/// What is kept of a file until all are judged.
#[derive(Drop)]
pub(crate) struct Judged {
    pub(crate) status: u8,
    /// The verdict in a word.
    pub(crate) word: &'static str,
    /// The object of the file, where objects are wanted; `None`: there was no memory for it, or for the verdict.
    pub(crate) entry: Option<Value>,
    /// Whether the file is a network without flows.
    pub(crate) flowless: bool,
}

/// That memory was wanted.
pub(crate) fn memory_judged() -> Judged
    ensures status { result.status ≡ 5 }
    ensures word { result.word.now ≡ codes "memory" }
    ensures entry { result.entry ≡ None }
    ensures flowless { result.flowless ≡ false }
{
    Judged {
        status: NO_ROOM,
        word: "memory",
        entry: None,
        flowless: false,
    }
}

/// The object of a file for which this kind stands in the place of a verdict.
///
/// # Errors
///
/// There is no memory for it.
pub(crate) fn kind_entry(
    alloc: Global,
    path: &str,
    status: u8,
    kind: &str,
) -> Result<Value, AllocError>
    ensures { IfOk result (λ v. view v ≡ bare_entry path.now status (kind_value kind.now)) }
{
    bare_entry(alloc, path, status, kind_value(alloc, kind)?)
}
