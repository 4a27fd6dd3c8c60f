//! Where the faulted table or key stands.
ghost use Rattle.std.specs.Prelude.{◌≡◌, ◌≤◌, IfOk, IfSome, length, option_map};
ghost use Rattle.sw_faults.specs.FaultPlaces.{IsFaultPlace, long_list, sought_of, sought_view, table_to_show};

use crate::offset::offset_of;
use crate::sought::Sought;
use std::alloc::{AllocError, Global};
use sw_text::{Key, KeyFault, Section, TextFault};
use sw_topo::{Limit, TopoFault};

/// What to show of a table: an entry itself, or the key of a table in an entry.
fn table_to_show(section: Section) -> Option<Sought<'static>>
    ensures { option_map sought_view result ≡ table_to_show section }
{
    let Some(standing) = section.standing() else {
        return None;
    };
    match standing.number {
        Some(_) => Some(Sought { section, key: None }),
        None => Some(Sought {
            section: standing.within,
            key: Some(standing.key.text()),
        }),
    }
}

/// The list that is too long.
fn long_list(limit: Limit) -> Key
    ensures { result ≡ long_list limit }
{
    match limit {
        Limit::Nodes => Key::Node,
        Limit::Switches => Key::Switch,
        Limit::Links => Key::Link,
    }
}

/// The table or the key that has the fault.
fn sought_of(fault: &TextFault) -> Option<Sought<'_>>
    ensures { option_map sought_view result ≡ sought_of fault.now }
{
    match fault {
        TextFault::Syntax => None,
        TextFault::UnknownKey(section, name) => Some(Sought {
            section: *section,
            key: Some(name.as_str()),
        }),
        TextFault::Key(KeyFault::MissingKey, section, _) => table_to_show(*section),
        TextFault::Key(_, section, key) => Some(Sought {
            section: *section,
            key: Some(key.text()),
        }),
        TextFault::Topology(fault) => match fault {
            TopoFault::TooMany(limit) => Some(Sought {
                section: Section::Document,
                key: Some(long_list(*limit).text()),
            }),
            TopoFault::PortTaken(link) => table_to_show(Section::Link(*link as usize)),
            TopoFault::NodeLinks(node) => table_to_show(Section::Node(*node as usize)),
            TopoFault::PortUnlinked(switch) => table_to_show(Section::Switch(*switch as usize)),
        },
        TextFault::DuplicateRoute(switch, route) => table_to_show(Section::Route(*switch, *route)),
        TextFault::ReplyShape(flow) => table_to_show(Section::Reply(*flow)),
        TextFault::NotInFlow(packet) => table_to_show(Section::Packet(*packet)),
    }
}

/// Where the fault of a text stands, if that is found.
///
/// # Errors
///
/// There is no memory for the search.
pub fn fault_offset(
    alloc: Global,
    text: &[u8],
    fault: &TextFault,
) -> Result<Option<usize>, AllocError>
    ensures place { IfOk result (λ o. IsFaultPlace text.now fault.now o) }
    ensures within { IfOk result (λ o. IfSome o (λ at. at ≤ length text.now)) }
{
    match fault {
        TextFault::Syntax => match toml::table_from_slice(alloc, text) {
            Ok(_) => Ok(None),
            Err(error) => match error.span() {
                Some(span) => Ok(Some(span.start)),
                None => Err(AllocError),
            },
        },
        fault => match sought_of(fault) {
            Some(sought) => offset_of(alloc, text, sought),
            None => Ok(None),
        },
    }
}
