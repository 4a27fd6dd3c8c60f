//! The forms of answers that are objects of JSON, by the paths of the files.
use sw_args::{TOOLCHAIN, VERSION};
use sw_json::ObjectForm;
use sw_json_verdicts::Release;

/// This release of the program, and the toolchain that it is made with.
pub(crate) const RELEASE: Release<'static> = Release {
    version: VERSION,
    toolchain: TOOLCHAIN,
};

/// Of a command of one file.
pub(crate) fn object<V>(values: V, path: &str) -> ObjectForm<'_, V> {
    ObjectForm {
        values,
        path,
        second: None,
        release: RELEASE,
    }
}

/// Of a command of two files.
pub(crate) fn objects<'a, V>(values: V, path: &'a str, second: &'a str) -> ObjectForm<'a, V> {
    ObjectForm {
        values,
        path,
        second: Some(second),
        release: RELEASE,
    }
}
