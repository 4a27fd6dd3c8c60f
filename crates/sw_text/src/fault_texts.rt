//! How a fault is printed.
ghost use Rattle.std.specs.Prelude.{◌≡◌, ◌∷◌, [], IfOk, codes, string_bytes};
ghost use Rattle.std.specs.Fmt.{decimal};
ghost use Rattle.sw_text.specs.FaultTexts.{fault_text, key_fault_text, limit_text, topology_fault_text, where_text};
ghost use Rattle.sw_text.specs.Lines.{spaced};

use crate::{KeyFault, Section, TextFault};
use std::alloc::{AllocError, Global};
use sw_topo::{Limit, TopoFault};

/// A number behind what it counts.
fn with_number(alloc: Global, words: &str, number: usize) -> Result<String, AllocError>
    ensures { IfOk result (λ s. string_bytes s ≡ spaced (words.now ∷ decimal number ∷ [])) }
{
    format!(in alloc; "{words} {number}")
}

/// Where a key stands.
///
/// # Errors
///
/// There is no memory for the text.
pub fn where_text(alloc: Global, section: Section, key: &str) -> Result<String, AllocError>
    ensures { IfOk result (λ s. string_bytes s ≡ where_text section key.now) }
{
    let section = section.text(alloc)?;
    format!(in alloc; "{section} {key}")
}

fn key_fault_text(fault: KeyFault) -> &'static str
    ensures { result.now ≡ key_fault_text fault }
{
    match fault {
        KeyFault::MissingKey => "F3 MissingKey",
        KeyFault::WrongType => "F4 WrongType",
        KeyFault::OutOfRange => "F5 OutOfRange",
        KeyFault::DuplicateName => "F6 DuplicateName",
        KeyFault::UnknownName => "F7 UnknownName",
    }
}

fn limit_text(limit: Limit) -> &'static str
    ensures { result.now ≡ limit_text limit }
{
    match limit {
        Limit::Nodes => "node",
        Limit::Switches => "switch",
        Limit::Links => "link",
    }
}

/// A fault at a key, by its code and name.
fn fault_at(alloc: Global, name: &str, section: Section, key: &str) -> Result<String, AllocError>
    ensures { IfOk result (λ s. string_bytes s ≡ spaced (codes "fault" ∷ name.now ∷ where_text section key.now ∷ [])) }
{
    let place = where_text(alloc, section, key)?;
    format!(in alloc; "fault {name} {place}")
}

fn topology_fault_text(alloc: Global, fault: TopoFault) -> Result<String, AllocError>
    ensures { IfOk result (λ s. string_bytes s ≡ spaced (codes "fault F8" ∷ topology_fault_text fault ∷ [])) }
{
    match fault {
        TopoFault::TooMany(limit) => {
            let limit = limit_text(limit);
            format!(in alloc; "fault F8 E4 TooMany {limit}")
        }
        TopoFault::PortTaken(link) => {
            with_number(alloc, "fault F8 E1 PortTaken link", link as usize)
        }
        TopoFault::NodeLinks(node) => {
            with_number(alloc, "fault F8 E2 NodeLinks node", node as usize)
        }
        TopoFault::PortUnlinked(switch) => {
            with_number(alloc, "fault F8 E3 PortUnlinked switch", switch as usize)
        }
    }
}

/// What is printed of a text's fault, without the LF.
///
/// # Errors
///
/// There is no memory for the text.
pub fn fault_text(alloc: Global, fault: &TextFault) -> Result<String, AllocError>
    ensures { IfOk result (λ s. string_bytes s ≡ fault_text fault.now) }
{
    match fault {
        TextFault::Syntax => String::from_str(alloc, "fault F1 Syntax"),
        TextFault::UnknownKey(section, key) => {
            fault_at(alloc, "F2 UnknownKey", *section, key.as_str())
        }
        TextFault::Key(fault, section, key) => {
            fault_at(alloc, key_fault_text(*fault), *section, key.text())
        }
        TextFault::Topology(fault) => topology_fault_text(alloc, *fault),
        TextFault::DuplicateRoute(switch, route) => {
            format!(in alloc; "fault F9 DuplicateRoute switch {switch} route {route}")
        }
        TextFault::ReplyShape(flow) => with_number(alloc, "fault F10 ReplyShape flow", *flow),
        TextFault::NotInFlow(packet) => with_number(alloc, "fault F11 NotInFlow packet", *packet),
    }
}
