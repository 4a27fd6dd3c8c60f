//! The files of the system. That its `open` and `create` do what the clauses of [`FileSystem`] say is trusted: this is all of it.
ghost use Rattle.sw_engine.specs.SystemFiles.{SystemGives, SystemKeeps};

use crate::file_system::FileSystem;
use std::fs;
use std::rt::Files;

/// The files of the system.
#[derive(Clone, Copy)]
pub struct SystemFiles<'a, R> {
    /// What reaches the system.
    pub host: &'a R,
}

impl<R: Files> FileSystem for SystemFiles<'_, R> {
    type Reader = R::File;

    type Writer = R::File;

    ghost gives = { λ _. SystemGives };

    ghost keeps = { λ _. SystemKeeps };

    fn open(&self, path: &str) -> Option<R::File> {
        fs::open(self.host, path).ok()
    }

    fn create(&self, path: &str) -> Option<R::File> {
        fs::create(self.host, path).ok()
    }
}
