//! The end of a call of which a folder tells more. It decides nothing.
use crate::call_end::{CallEnd, hint_text, hinted_end};
use crate::unread::folder_fault;
use std::alloc::{AllocError, Global};
use std::rt::Files;
use sw_calls::Telling;
use sw_faults::Hint;
use sw_text::Ended;

/// The hint of a folder that takes no certificates, for this reason.
fn folder_hint(alloc: Global, reason: &str) -> Result<Hint, AllocError> {
    let what = format!(in alloc; "{reason}; no certificate is written")?;
    Ok(Hint::new(alloc, what))
}

/// The end of an audit that may keep certificates in this folder.
pub(crate) fn audit_end<R: Files>(
    rt: &R,
    alloc: Global,
    telling: Telling,
    folder: Option<&str>,
    ended: Ended,
) -> CallEnd {
    let Some(path) = folder else {
        return CallEnd::from_ended(ended);
    };
    match folder_fault(rt, path) {
        Some(reason) => {
            let hint = folder_hint(alloc, reason);
            hinted_end(telling, ended, hint_text(alloc, path, hint))
        }
        None => CallEnd::from_ended(ended),
    }
}
