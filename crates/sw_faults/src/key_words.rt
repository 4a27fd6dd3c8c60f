//! What may stand at the keys of a network file or a load file.
use crate::made::Made;
use crate::unread::text_fault;
use std::alloc::Global;
use sw_file::declared_version;
use sw_text::{Key, Section, Version};
use toml::Table;

/// By the words of which version a fault of the document is told: of its own, and of version 2
/// where it says none.
pub(crate) fn words_version(alloc: Global, document: &Table) -> Made<Version> {
    match declared_version(alloc, document) {
        Ok(version) => Ok(version),
        Err(refused) => {
            text_fault(refused)?;
            Ok(Version::Two)
        }
    }
}

/// The keys as a file writes them.
pub(crate) fn key_texts(alloc: Global, keys: &[Key]) -> Made<Vec<&'static str>> {
    keys.iter().map(|key| key.text()).collect(alloc)
}

/// What may stand at a key of a table, by the words of this version.
pub(crate) fn value_words(version: Version, section: Section, key: Key) -> &'static str {
    match key {
        Key::Version => "1, 2 or 3",
        Key::Node | Key::Link => "a list of at most 1024 tables",
        Key::Switch => "a list of at most 512 tables",
        Key::Flow => match section {
            Section::Document => "a list of at most 4096 tables",
            _ => "the name of a flow",
        },
        Key::Name => "a text of 1 to 32 letters, digits, '_', '-' and '.'",
        Key::Target | Key::Reply => "a table",
        Key::Logical | Key::Initiator => "a number from 32 to 254",
        Key::TargetKey => "a number from 0 to 255",
        Key::Start => "a number from 0 to 1099511627775",
        Key::Size => "a number from 1 to 65536, and 'start' + 'size' at most 1099511627776",
        Key::Slots => match version {
            Version::Three => "a number from 1 to 64",
            _ => "a number from 1 to 8",
        },
        Key::Arbiter => "\"fixed\", \"round-robin\" or \"least-recent\"",
        Key::Route => "a list of tables",
        Key::Address => match section {
            Section::Route(_, _) => "a number from 32 to 254",
            _ => "a list of at most 32 numbers from 0 to 255",
        },
        Key::Last => "a number from the value of 'address' to 254",
        Key::Ports => "a list of 1 to 32 numbers from 0 to 31",
        Key::Delete => "true or false",
        Key::A | Key::B => "the name of a node or a switch",
        Key::APort | Key::BPort => "a number from 0 to 31",
        Key::Buffer | Key::BufferA | Key::BufferB => "a number from 8 to 4096",
        Key::From | Key::To => "the name of a node",
        Key::Left => "a number from 0 to the length of 'address'",
        Key::Path => "a list of at most 12 numbers from 0 to 255, the first not 0",
        Key::Outstanding => "a number from 1 to 65535",
        Key::Packet => "a list of at most 4096 tables",
        Key::Cargo => {
            "1 to 4096 bytes: pairs of hexadecimal digits, or one pair, '*' and a number from 1 to 4096"
        }
        Key::End => "\"EOP\" or \"EEP\"",
        Key::Count => "a number from 1 to 1000, and at most 65536 packets in all",
    }
}
