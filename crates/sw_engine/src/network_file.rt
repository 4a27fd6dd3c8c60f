//! Network files, alone or with a second file, as far as they could be read.
ghost use Rattle.std.specs.Prelude.{◌≡◌, option_map};
ghost use Rattle.sw_text.specs.Ends.{AreReadInOrder};
ghost use Rattle.sw_text.specs.Inputs.{given};
ghost use Rattle.sw_engine.specs.Files.{AreFilesRead, IsFileOf, IsFileRead, network_of, second_given};

use std::alloc::Global;
use std::io::Read;
use sw_file::{FileFault, Network, read_network};
use sw_text::{InputError, InputText, TextFault, read_one, read_two};

/// A network file, as far as it could be read.
#[derive(Drop)]
pub enum NetworkFile {
    /// A text that declares this network.
    Network {
        /// All bytes of the file.
        text: Vec<u8>,
        /// What they declare.
        network: Network,
    },
    /// A text that has a fault.
    Faulty {
        /// All bytes of the file.
        text: Vec<u8>,
        /// The first fault.
        fault: TextFault,
    },
    /// A text that is too long.
    TooLong,
    /// A read failed. No contract of std's readers says when one does, so this is tested.
    Unread,
    /// There is no memory for the text or for the network. This tells nothing of the text.
    NoMemory,
}

impl NetworkFile {
    /// The network, if the file declares one.
    pub fn network(&self) -> Option<&Network>
        ensures { option_map (λ n. n.now) result ≡ network_of self.now }
    {
        match self {
            NetworkFile::Network { network, .. } => Some(network),
            _ => None,
        }
    }

    /// Lets the file go, with its network as [`Network::discard`] does.
    pub fn discard(self) {
        if let NetworkFile::Network { network, .. } = self {
            network.discard();
        }
    }
}

/// What a text is as a network file.
pub fn network_file_of(alloc: Global, text: InputText) -> NetworkFile
    ensures { IsFileOf (given text) result }
{
    let InputText::Whole(text) = text else {
        return NetworkFile::TooLong;
    };
    match read_network(alloc, &text) {
        Ok(network) => NetworkFile::Network { text, network },
        Err(FileFault::Fault(fault)) => NetworkFile::Faulty { text, fault },
        Err(FileFault::Memory) => NetworkFile::NoMemory,
    }
}

/// Reads a network file whole.
pub fn read_network_file<R: Read>(alloc: Global, reader: &mut R) -> NetworkFile
    ensures { IsFileRead (R.remaining reader.old) (R.remaining reader.new) result }
{
    match read_one(alloc, reader) {
        Ok(text) => network_file_of(alloc, text),
        Err(InputError::Failed) => NetworkFile::Unread,
        Err(InputError::Memory) => NetworkFile::NoMemory,
    }
}

/// The bytes of a second file, if it was read and they are not too many.
pub fn second_bytes(second: &Option<InputText>) -> Option<&[u8]>
    ensures { option_map (λ s. s.now) result ≡ second_given second.now }
{
    match second {
        Some(InputText::Whole(text)) => Some(text),
        _ => None,
    }
}

/// Reads a network file and a second file whole, the network file first, and both before it looks
/// at either. There is no second file where one of the two was not read.
pub fn read_two_files<R: Read, S: Read>(
    alloc: Global,
    reader: &mut R,
    second: &mut S,
) -> (NetworkFile, Option<InputText>)
    ensures files { AreFilesRead (R.remaining reader.old) (R.remaining reader.new) (S.remaining second.old) (S.remaining second.new) result.0 result.1 }
    ensures order { AreReadInOrder (R.remaining reader.old) (R.remaining reader.new) (S.remaining second.old) (S.remaining second.new) }
{
    match read_two(alloc, reader, second) {
        Ok((text, other)) => (network_file_of(alloc, text), Some(other)),
        Err(InputError::Failed) => (NetworkFile::Unread, None),
        Err(InputError::Memory) => (NetworkFile::NoMemory, None),
    }
}
