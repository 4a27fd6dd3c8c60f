//! How a call ended, and what is said of that on standard error. It decides nothing.
use crate::notes::notes_on;
use std::alloc::{AllocError, Global};
use sw_app::FaultyText;
use sw_calls::{Hints, Notes, Telling};
use sw_config::Network;
use sw_engine::{CommandEnd, NetworkFile, second_bytes};
use sw_faults::{Hint, fault_hint};
use sw_hints::{further_faults, long_text_hint, note_other_kind};
use sw_text::statuses::{BAD, GOOD, NO_ROOM};
use sw_text::{Ended, InputText, TextFault};

/// How a call ended, and what is said of that on standard error, if anything is.
#[derive(Drop)]
pub(crate) struct CallEnd {
    pub(crate) ended: Ended,
    /// What to do about it.
    pub(crate) hint: Option<String>,
    /// What in the network is probably a slip, although it is valid.
    pub(crate) notes: Option<String>,
}

impl CallEnd {
    /// The end of a call of which nothing is said.
    pub(crate) fn from_ended(ended: Ended) -> CallEnd {
        CallEnd {
            ended,
            hint: None,
            notes: None,
        }
    }

    /// The same end, with these notes.
    pub(crate) fn with_notes(self, notes: Option<String>) -> CallEnd {
        CallEnd {
            ended: self.ended,
            hint: self.hint,
            notes,
        }
    }

    /// The end of a call, and a hint, if there was memory for it and there is one.
    fn with_hint(ended: Ended, hint: Result<Option<String>, AllocError>) -> CallEnd {
        CallEnd {
            ended,
            hint: hint.unwrap_or(None),
            notes: None,
        }
    }
}

/// The status of a call that ended so, if a hint may be told of it: none where the call told that there was not enough memory.
fn hinted_status(telling: Telling, ended: Ended) -> Option<u8> {
    match (telling.hints, ended) {
        (Hints::Auto, Ended::Status(NO_ROOM)) => None,
        (Hints::Auto, Ended::Status(status)) => Some(status),
        _ => None,
    }
}

/// Are notes told of a call that ended so?
pub(crate) fn is_noted(telling: Telling, ended: Ended) -> bool {
    match (telling.notes, hinted_status(telling, ended)) {
        (Notes::Never, _) => false,
        (_, status) => matches!(status, Some(GOOD | BAD)),
    }
}

/// Adds the hints of the faults of a text behind its first one.
fn add_further_hints(
    alloc: Global,
    name: &str,
    text: &[u8],
    first: &TextFault,
    told: &mut String,
) -> Result<(), AllocError> {
    for fault in &further_faults(alloc, text, first)? {
        let hint = fault_hint(alloc, text, fault)?.text(alloc, name)?;
        told.push_str(hint.as_str())?;
    }
    Ok(())
}

/// The hint of a text that has this fault, and those of the faults behind it where all are wanted.
fn faulty_hint(
    alloc: Global,
    telling: Telling,
    name: &str,
    text: &[u8],
    fault: &TextFault,
) -> Result<Option<String>, AllocError> {
    let mut hint = fault_hint(alloc, text, fault)?;
    note_other_kind(alloc, text, fault, &mut hint)?;
    let mut told = hint.text(alloc, name)?;
    if telling.all_faults {
        add_further_hints(alloc, name, text, fault, &mut told)?;
    }
    Ok(Some(told))
}

/// The hint of a text that is too long.
fn long_hint(alloc: Global, name: &str) -> Result<Option<String>, AllocError> {
    hint_text(alloc, name, long_text_hint(alloc))
}

/// The end of a call with a text of a file of this name, which may be faulty, and with a hint of its fault.
pub(crate) fn faulty_end(
    alloc: Global,
    telling: Telling,
    name: &str,
    ended: Ended,
    faulty: &Option<FaultyText>,
) -> CallEnd {
    let hint = match (hinted_status(telling, ended), faulty) {
        (Some(_status), Some(read)) => faulty_hint(alloc, telling, name, &read.text, &read.fault),
        _ => Ok(None),
    };
    CallEnd::with_hint(ended, hint)
}

/// The hint of the file's fault, or else of what was found.
fn hint_of<X, H: Fn(&Network, &[u8], Option<&[u8]>, &X) -> Result<Option<String>, AllocError>>(
    alloc: Global,
    telling: Telling,
    name: &str,
    end: &CommandEnd<X>,
    found_hint: &H,
) -> Result<Option<String>, AllocError>
    requires { H.IsAlwaysCallable found_hint.now }
{
    match (&end.file, &end.found) {
        (NetworkFile::Faulty { text, fault }, _) => faulty_hint(alloc, telling, name, text, fault),
        (NetworkFile::TooLong, _) => long_hint(alloc, name),
        (NetworkFile::Network { text, network }, Some(Ok(found))) => {
            found_hint(network, text, second_bytes(&end.second), found)
        }
        _ => Ok(None),
    }
}

/// The end of a command with the network file of this name, with a hint of the file's fault, or else with the one of what was found.
pub(crate) fn call_end<
    X: Drop,
    H: Fn(&Network, &[u8], Option<&[u8]>, &X) -> Result<Option<String>, AllocError>,
>(alloc: Global, telling: Telling, name: &str, end: CommandEnd<X>, found_hint: H) -> CallEnd
    requires { H.IsAlwaysCallable found_hint }
{
    let hint = match hinted_status(telling, end.ended) {
        Some(_status) => hint_of(alloc, telling, name, &end, &found_hint),
        None => Ok(None),
    };
    CallEnd::with_hint(end.into_ended(), hint)
}

/// The same of a command with a second file, by the names of both: with a hint where the second one is too long.
pub(crate) fn second_end<
    X: Drop,
    H: Fn(&Network, &[u8], Option<&[u8]>, &X) -> Result<Option<String>, AllocError>,
>(
    alloc: Global,
    telling: Telling,
    names: (&str, &str),
    end: CommandEnd<X>,
    found_hint: H,
) -> CallEnd
    requires { H.IsAlwaysCallable found_hint }
{
    if let (NetworkFile::Network { .. }, Some(InputText::TooLong)) = (&end.file, &end.second) {
        let hint = long_hint(alloc, names.1);
        return hinted_end(telling, end.into_ended(), hint);
    }
    call_end(alloc, telling, names.0, end, found_hint)
}

/// The end of a call, with this hint if hints may be told of it.
pub(crate) fn hinted_end(
    telling: Telling,
    ended: Ended,
    hint: Result<Option<String>, AllocError>,
) -> CallEnd {
    match hinted_status(telling, ended) {
        Some(_status) => CallEnd::with_hint(ended, hint),
        None => CallEnd::from_ended(ended),
    }
}

/// The text of a hint on what goes by this name.
pub(crate) fn hint_text(
    alloc: Global,
    name: &str,
    hint: Result<Hint, AllocError>,
) -> Result<Option<String>, AllocError> {
    Ok(Some(hint?.text(alloc, name)?))
}

/// The same, with notes on the network, where it is one, free or not.
pub(crate) fn noted_end<
    X: Drop,
    H: Fn(&Network, &[u8], Option<&[u8]>, &X) -> Result<Option<String>, AllocError>,
>(alloc: Global, telling: Telling, name: &str, end: CommandEnd<X>, found_hint: H) -> CallEnd
    requires { H.IsAlwaysCallable found_hint }
{
    let notes = if is_noted(telling, end.ended) {
        notes_on(alloc, telling.notes, &end.file)
    } else {
        None
    };
    call_end(alloc, telling, name, end, found_hint).with_notes(notes)
}
