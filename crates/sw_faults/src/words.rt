//! What is wrong, what would be right, and what to do, in words.
use crate::entries::text_of;
use crate::key_words::{key_texts, value_words, words_version};
use crate::made::Made;
use crate::names::{add_names, names_of};
use crate::nearest::meant_help;
use crate::syntax::missed_text;
use std::alloc::{AllocError, Global};
use sw_text::{Key, KeyFault, Section, TextFault, Version, fault_text, is_known};
use sw_topo::{Limit, TopoFault};
use toml::Table;
use toml::de::Error;

/// What is said of a fault, as far as that hangs on nothing else in the text.
#[derive(Clone, Copy)]
struct Words {
    wrong: &'static str,
    right: &'static str,
    help: &'static str,
}

fn words_of(fault: &TextFault) -> Words {
    let (wrong, right, help) = match fault {
        TextFault::Syntax => ("the text is not TOML", "a TOML 1.1 text", ""),
        TextFault::UnknownKey(_, _) => ("this table can't have this key", "", ""),
        TextFault::Key(KeyFault::MissingKey, Section::Document, Key::Version) => (
            "a key is missing here",
            "",
            "a network file begins with a line version = 3 (or 2, or 1), above the first header",
        ),
        TextFault::Key(KeyFault::MissingKey, _, _) => (
            "a key is missing here",
            "",
            "a key belongs to the last header or brace above it",
        ),
        TextFault::Key(KeyFault::WrongType, _, _) => (
            "the value has the wrong type",
            "",
            "write a text in quotes, a number or true or false without quotes, a list in [ ], a table in { }",
        ),
        TextFault::Key(KeyFault::OutOfRange, _, _) => ("the value is not allowed", "", ""),
        TextFault::Key(KeyFault::DuplicateName, section, _) => (
            "the name is taken",
            match section {
                Section::Flow(_) => "a name that no other flow has",
                _ => "a name that no other node or switch has",
            },
            "nodes and switches share one set of names; flows have their own",
        ),
        TextFault::Key(KeyFault::UnknownName, _, _) => ("there is no such name", "", ""),
        TextFault::Topology(TopoFault::TooMany(limit)) => (
            "the list is too long",
            match limit {
                Limit::Nodes => "at most 1024 nodes",
                Limit::Switches => "at most 512 switches",
                Limit::Links => "at most 1024 links",
            },
            "split the network where no flow crosses the cut",
        ),
        TextFault::Topology(TopoFault::PortTaken(_)) => (
            "an end of the link is at a port that already has a link",
            "at most one link at each port of a switch",
            "each end of a link needs a port of its own",
        ),
        TextFault::Topology(TopoFault::NodeLinks(_)) => (
            "the node has no link, or more than one",
            "exactly one link for each node",
            "for several links, use several nodes, or put a switch in front of the node",
        ),
        TextFault::Topology(TopoFault::PortUnlinked(_)) => (
            "the switch has no link",
            "at least one link at each switch",
            "give the switch a link, or leave it out",
        ),
        TextFault::DuplicateRoute(_, _) => (
            "an earlier entry is for one of the same addresses",
            "at most one entry for each address of a switch",
            "list several ports for one address in the 'ports' of one entry",
        ),
        TextFault::ReplyShape(_) => (
            "the replies can't come back",
            "a 'path' of at most 12 numbers, the first not 0; an 'initiator' from 32 to 254; a 'to' that is a node with a target",
            "a reply begins with its path and then the initiator, and comes from a target",
        ),
        TextFault::NotInFlow(_) => (
            "the flow doesn't declare this packet",
            "a packet that the target would not answer, or a command whose reply goes where the flow's 'reply' says",
            "give the flow a 'reply' that matches the command's reply address and initiator, or change the command",
        ),
    };
    Words { wrong, right, help }
}

/// The fault as it is printed, and in words; of a text that is no TOML also what TOML misses.
pub(crate) fn what_text(alloc: Global, fault: &TextFault, error: &Option<Error>) -> Made<String> {
    let text = fault_text(alloc, fault)?;
    let wrong = words_of(fault).wrong;
    match error {
        Some(error) => {
            let missed = missed_text(alloc, error)?;
            format!(in alloc; "{text}: {wrong}: {missed}")
        }
        None => format!(in alloc; "{text}: {wrong}"),
    }
}

/// What would be right, by the words of this version.
///
/// # Errors
///
/// There is no memory for the text.
pub fn expected_text(
    alloc: Global,
    version: Version,
    fault: &TextFault,
) -> Result<String, AllocError> {
    match fault {
        TextFault::UnknownKey(section, _) => {
            let keys = key_texts(alloc, section.keys(version))?;
            format!(in alloc; "one of {}", keys.join(alloc, ", ")?)
        }
        TextFault::Key(KeyFault::DuplicateName, _, _) => {
            String::from_str(alloc, words_of(fault).right)
        }
        TextFault::Key(KeyFault::MissingKey, section, key) => {
            let words = value_words(version, *section, *key);
            format!(in alloc; "{} = {words}", key.text())
        }
        TextFault::Key(_, section, key) => {
            String::from_str(alloc, value_words(version, *section, *key))
        }
        fault => String::from_str(alloc, words_of(fault).right),
    }
}

/// Has the table this key from this version on, and not in the one before it?
fn is_new_key(before: Version, version: Version, section: Section, name: &str) -> bool {
    is_known(section.keys(version), name) && !is_known(section.keys(before), name)
}

/// What to do about a key that a table may not have.
fn key_help(alloc: Global, version: Version, section: Section, name: &str) -> Made<String> {
    // A key of version 2 may be meant in a file of version 1 too.
    let keys = section.keys(match version {
        Version::One => Version::Two,
        version => version,
    });
    let outer = match section {
        Section::Packet(_) => &[Key::Packet],
        _ => Section::Document.keys(version),
    };
    let words = if is_new_key(Version::One, Version::Two, section, name) {
        "this key exists from version 2 on: write version = 2"
    } else if is_new_key(Version::Two, Version::Three, section, name) {
        "this key exists from version 3 on: write version = 3"
    } else if is_known(keys, name) {
        "a node has no ports: this key goes only with the name of a switch"
    } else if is_known(outer, name) {
        "a key below a header such as [[switch]] belongs to that table: write it above the first header"
    } else {
        return meant_help(alloc, name, &key_texts(alloc, keys)?);
    };
    String::from_str(alloc, words)
}

/// What to do about the name at this key, which no node has, and where the key is an end of a link
/// no switch either.
fn name_help(alloc: Global, document: &Table, section: Section, key: Key) -> Made<String> {
    let Some(name) = text_of(document, section, key) else {
        return Ok(String::new(alloc));
    };
    let mut names = names_of(alloc, document, Key::Node)?;
    match key {
        Key::A | Key::B => add_names(alloc, document, Key::Switch, &mut names)?,
        Key::From | Key::To => {
            if names_of(alloc, document, Key::Switch)?.contains(&name) {
                return format!(in alloc; "'{name}' is a switch: flows go from a node to a node");
            }
        }
        _ => return Ok(String::new(alloc)),
    }
    meant_help(alloc, name, &names)
}

/// What to do about a fault of the text of this document; nothing where there is no more to say.
///
/// # Errors
///
/// There is no memory for the text.
pub fn help_text(alloc: Global, document: &Table, fault: &TextFault) -> Result<String, AllocError> {
    match fault {
        TextFault::UnknownKey(section, name) => {
            let version = words_version(alloc, document)?;
            key_help(alloc, version, *section, name.as_str())
        }
        TextFault::Key(KeyFault::UnknownName, section, key) => {
            name_help(alloc, document, *section, *key)
        }
        fault => String::from_str(alloc, words_of(fault).help),
    }
}
