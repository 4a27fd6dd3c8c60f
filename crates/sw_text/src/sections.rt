//! The sections of the files: where each stands, how it is called, and which keys it has. A new
//! section is named here, and in its enum.
ghost use Rattle.std.specs.Prelude.{◌≡◌, IfOk, IfSome, string_bytes};
ghost use Rattle.sw_text.specs.SectionKeys.{section_keys};
ghost use Rattle.sw_text.specs.Sections.{StandsIn, entry, part, part_text, section_text, standing};

use crate::keys::{Key, Section, Version};
use crate::section_keys::{
    DOCUMENT_KEYS, FLOW_KEYS, PACKET_KEYS, SWITCH_KEYS, link_keys, node_keys, reply_keys,
    route_keys, target_keys,
};
use std::alloc::{AllocError, Global};

/// Where the table of a section stands in a file.
#[derive(Clone, Copy)]
pub struct Standing {
    /// In which other section.
    pub within: Section,
    /// At which key of that.
    pub key: Key,
    /// Of an entry of a list: which it is.
    pub number: Option<usize>,
}

impl Standing {
    /// Its key, and its number, if it has one.
    fn text(self, alloc: Global) -> Result<String, AllocError>
        ensures { IfOk result (λ s. string_bytes s ≡ part_text self) }
    {
        let key = self.key.text();
        match self.number {
            Some(number) => format!(in alloc; "{key} {number}"),
            None => String::from_str(alloc, key),
        }
    }
}

/// The entry of that number of a list.
fn entry(within: Section, key: Key, number: usize) -> Option<Standing>
    ensures { result ≡ entry within key number }
{
    Some(Standing {
        within,
        key,
        number: Some(number),
    })
}

/// The table at a key.
fn part(within: Section, key: Key) -> Option<Standing>
    ensures { result ≡ part within key }
{
    Some(Standing {
        within,
        key,
        number: None,
    })
}

impl Section {
    /// Where its table stands. The document stands in no other.
    pub fn standing(self) -> Option<Standing>
        ensures { result ≡ standing self }
    {
        match self {
            Section::Document => None,
            Section::Node(i) => entry(Section::Document, Key::Node, i),
            Section::Target(i) => part(Section::Node(i), Key::Target),
            Section::Switch(i) => entry(Section::Document, Key::Switch, i),
            Section::Route(i, j) => entry(Section::Switch(i), Key::Route, j),
            Section::Link(i) => entry(Section::Document, Key::Link, i),
            Section::Flow(i) => entry(Section::Document, Key::Flow, i),
            Section::Reply(i) => part(Section::Flow(i), Key::Reply),
            Section::Packet(i) => entry(Section::Document, Key::Packet, i),
        }
    }

    /// The section whose table stands at this key of its own, with this number if that is a list.
    pub fn inner(self, key: &str, number: usize) -> Option<Section>
        ensures { IfSome result (StandsIn self key.now number) }
    {
        match (self, key) {
            (Section::Document, "node") => Some(Section::Node(number)),
            (Section::Document, "switch") => Some(Section::Switch(number)),
            (Section::Document, "link") => Some(Section::Link(number)),
            (Section::Document, "flow") => Some(Section::Flow(number)),
            (Section::Document, "packet") => Some(Section::Packet(number)),
            (Section::Node(i), "target") => Some(Section::Target(i)),
            (Section::Switch(i), "route") => Some(Section::Route(i, number)),
            (Section::Flow(i), "reply") => Some(Section::Reply(i)),
            _ => None,
        }
    }

    /// The keys that its table may have in this version.
    pub fn keys(self, version: Version) -> &'static [Key]
        ensures { result.now ≡ section_keys version self }
    {
        match self {
            Section::Document => DOCUMENT_KEYS,
            Section::Node(_) => node_keys(version),
            Section::Target(_) => target_keys(version),
            Section::Switch(_) => SWITCH_KEYS,
            Section::Route(_, _) => route_keys(version),
            Section::Link(_) => link_keys(version),
            Section::Flow(_) => FLOW_KEYS,
            Section::Reply(_) => reply_keys(version),
            Section::Packet(_) => PACKET_KEYS,
        }
    }

    /// How it is called: by the keys and numbers that lead to it.
    ///
    /// # Errors
    ///
    /// There is no memory for the text.
    pub fn text(self, alloc: Global) -> Result<String, AllocError>
        ensures { IfOk result (λ s. string_bytes s ≡ section_text self) }
    {
        let Some(standing) = self.standing() else {
            return String::from_str(alloc, "document");
        };
        let own = standing.text(alloc)?;
        match standing.within.standing() {
            Some(outer) => {
                let outer = outer.text(alloc)?;
                format!(in alloc; "{outer} {own}")
            }
            None => Ok(own),
        }
    }
}
