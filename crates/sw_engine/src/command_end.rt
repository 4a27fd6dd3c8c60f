//! How a command ended, with what it read and found.
ghost use Rattle.std.specs.Prelude.{◌≡◌, None};

use crate::network_file::NetworkFile;
use std::alloc::AllocError;
use sw_text::{Ended, InputText};

/// How a command ended that read a network file, alone or with a second file, and what it read and found.
#[derive(Drop)]
pub struct CommandEnd<X> {
    /// How it ended.
    pub ended: Ended,
    /// What was read of the network file.
    pub file: NetworkFile,
    /// What was read of the second file, if there is one.
    pub second: Option<InputText>,
    /// What was found of the network, if the file declares one, and if there was memory for it.
    pub found: Option<Result<X, AllocError>>,
}

impl<X: Drop> CommandEnd<X> {
    /// The end of a command of which a file can't be opened.
    pub fn of_unread() -> CommandEnd<X>
        ensures ended { result.ended ≡ Ended.ReadFailed }
        ensures file { result.file ≡ NetworkFile.Unread }
        ensures second { result.second ≡ None }
        ensures found { result.found ≡ None }
    {
        CommandEnd {
            ended: Ended::ReadFailed,
            file: NetworkFile::Unread,
            second: None,
            found: None,
        }
    }

    /// How it ended, alone.
    pub fn into_ended(self) -> Ended
        ensures { result ≡ self.ended }
    {
        self.file.discard();
        self.ended
    }
}
