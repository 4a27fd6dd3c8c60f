//! The hint of a load's fault.
use crate::teller::{Teller, Text};
use crate::text_kinds::{TextKind, is_of_other_kinds, kind_of_document, note_kind};
use std::alloc::{AllocError, Global};
use sw_config::Network;
use sw_faults::{Hint, expected_text, help_text, hint_at_fault, meant_help, text_fault, text_of};
use sw_text::{Key, KeyFault, Section, TextFault, Version, is_known, read_document};
use toml::Table;

impl Teller<'_> {
    /// What to do about a packet that names no declared flow.
    fn flow_help(self, load: &Table, packet: Section) -> Text {
        match text_of(load, packet, Key::Flow) {
            Some(name) => self.meant_flow(name, self.network.declared_flows()),
            None => self.text(""),
        }
    }

    /// What to do about a key that the document may not have; nothing where it is no load.
    fn key_help(self, load: &Table, name: &str) -> Text {
        if kind_of_document(load).is_some_and(|kind| kind != TextKind::Load) {
            return self.text("");
        }
        if is_known(Section::Packet(0).keys(Version::Two), name) {
            return self.text("the keys of a packet go below a header [[packet]]");
        }
        meant_help(self.alloc, name, &["packet"])
    }

    /// Which condition failed of a packet that the flow does not declare.
    fn failed_words(self, flow: u16) -> &'static str {
        if self.is_limited(flow) {
            return "the flow's unanswered commands are limited: each of its packets must be such a command";
        }
        match self.flow(flow) {
            Some(flow) if flow.reply().is_some() => {
                "its target answers this command, but the reply does not go where the flow's 'reply' says"
            }
            _ => "its target answers this command, but the flow has no 'reply'",
        }
    }

    /// The flow of the packet that is not declared, if the fault is that.
    fn undeclared_flow(self, load: &Table, fault: &TextFault) -> Option<u16> {
        let TextFault::NotInFlow(packet) = fault else {
            return None;
        };
        let name = text_of(load, Section::Packet(*packet), Key::Flow)?;
        self.network.declared_flow_named(name)
    }

    /// Says what would be right, what to do, and why a packet is not declared.
    fn fill(self, load: &Table, fault: &TextFault, hint: &mut Hint) -> Result<(), AllocError> {
        if let Some(flow) = self.undeclared_flow(load, fault) {
            hint.notes.push(self.text(self.failed_words(flow))?)?;
            if self.is_limited(flow) {
                hint.expected = self.text(
                    "an RMAP command that the target answers, and whose reply goes where the flow's 'reply' says",
                )?;
                hint.help = self.text("swcheck rmap prints such a command")?;
                return Ok(());
            }
        }
        hint.expected = match fault {
            TextFault::UnknownKey(Section::Document, _) => self.text("packet, a list of tables"),
            fault => expected_text(self.alloc, Version::Two, fault),
        }?;
        hint.help = match fault {
            TextFault::UnknownKey(Section::Document, name) => self.key_help(load, name.as_str()),
            TextFault::Key(KeyFault::UnknownName, section, _) => self.flow_help(load, *section),
            fault => help_text(self.alloc, load, fault),
        }?;
        Ok(())
    }
}

/// The hint of a fault of a load file for this network.
///
/// # Errors
///
/// There is no memory for the hint, or to read the text once more.
pub fn load_hint(
    alloc: Global,
    network: &Network,
    text: &[u8],
    fault: &TextFault,
) -> Result<Hint, AllocError> {
    let mut hint = hint_at_fault(alloc, text, fault)?;
    match read_document(alloc, text) {
        Ok(load) => Teller { alloc, network }.fill(&load, fault, &mut hint)?,
        Err(refused) => {
            text_fault(refused)?;
            hint.expected = expected_text(alloc, Version::Two, fault)?;
        }
    }
    if is_of_other_kinds(fault) {
        note_kind(alloc, TextKind::Load, text, &mut hint)?;
    }
    Ok(hint)
}
