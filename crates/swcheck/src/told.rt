//! What is told besides what an engine writes.

/// Tells that a schedule is too long.
pub(crate) fn tell_long(rt: &impl Eprint) {
    let _ = eprint!(rt; "swcheck: schedule too long\n");
}

/// Tells a text, if there is one.
pub(crate) fn tell_text(rt: &impl Eprint, text: Option<&str>) {
    if let Some(text) = text {
        let _ = eprint!(rt; "{text}");
    }
}
