//! The files of an audit in a file system.
ghost use Rattle.std.specs.Prelude.{◌≡◌, true};
ghost use Rattle.sw_json_verdicts.specs.Stores.{gives_of_paths, keeps_in};

use crate::stores::{AuditInput, Storage};
use std::alloc::Global;
use sw_engine::{FileSystem, keep_text, read_path};
use sw_text::{InputError, InputText};

/// The files of a file system, and a folder for certificates.
#[derive(Clone, Copy)]
pub struct Disk<'a, F> {
    /// What opens the files.
    pub files: &'a F,
    /// Where certificates are kept.
    pub folder: &'a str,
}

impl<F: FileSystem> Storage for Disk<'_, F> {
    ghost gives = { λ disk. gives_of_paths (F.gives disk.files.now) };

    ghost keeps = { λ disk. keeps_in (F.keeps disk.files.now) disk.folder.now };

    fn read(&self, alloc: Global, path: &str) -> AuditInput {
        match read_path(alloc, self.files, path) {
            Ok(InputText::Whole(text)) => AuditInput::Whole(text),
            Ok(InputText::TooLong) => AuditInput::TooLong,
            Err(InputError::Failed) => AuditInput::Unread,
            Err(InputError::Memory) => AuditInput::NoMemory,
        }
    }

    fn keep(&self, alloc: Global, name: &str, certificate: &[u8]) -> bool {
        let folder = self.folder;
        match format!(in alloc; "{folder}/{name}") {
            Ok(path) => keep_text(self.files, path.as_str(), certificate),
            Err(_) => false,
        }
    }
}
