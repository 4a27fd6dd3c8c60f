//! Files that are read.
use sw_engine::FileSystem;

/// Both files, if both can be opened.
pub(crate) fn open_both<F: FileSystem>(
    files: &F,
    first: &str,
    second: &str,
) -> Option<(F::Reader, F::Reader)> {
    let first = files.open(first)?;
    match files.open(second) {
        Some(second) => Some((first, second)),
        None => None,
    }
}
