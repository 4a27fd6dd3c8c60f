//! What `rmap` finds, and its engine.
ghost use Rattle.std.specs.Prelude.{◌≡◌, IfOk, string_bytes, None};
ghost use Rattle.sw_app_rmap.specs.RmapAnswers.{IsRmapFinding, rmap_lines, rmap_status};
ghost use Rattle.sw_app_rmap.specs.EntryTexts.{fault_line};
ghost use Rattle.sw_engine.specs.Engines.{AnswersInForm, EndsByOne};
ghost use Rattle.sw_engine.specs.Files.{IsFileRead, network_of};
ghost use Rattle.sw_engine.specs.Tellings.{AnswersToFile, HoldsOfFound, IsFileTold};

use crate::entry_texts::entry_text;
use crate::fault::{RmapFault, fault_words};
use crate::packet::packet_of;
use crate::request::Request;
use std::alloc::{AllocError, Global};
use std::io::{Read, Write};
use sw_config::Network;
use sw_engine::{AsLines, CommandEnd, Finding, Form, read_network_file, tell_found};
use sw_text::OrMemory;
use sw_text::statuses::{FAULTY, GOOD};

/// What `rmap` finds of a network.
#[derive(Drop)]
pub enum RmapFinding {
    /// The entry of a load whose packet brings the command, as text.
    Entry(String),
    /// Why there is no such packet.
    Fault(RmapFault),
}

impl Finding for RmapFinding {
    ghost is_of = { λ _ _. Unit {0} };

    ghost status_of = { rmap_status };

    fn status(&self) -> u8 {
        match self {
            RmapFinding::Entry(_) => GOOD,
            RmapFinding::Fault(_) => FAULTY,
        }
    }
}

impl AsLines for RmapFinding {
    ghost lines_of = { λ _ found. rmap_lines found };

    fn lines(&self, alloc: Global, _network: &Network) -> Result<Vec<u8>, AllocError> {
        match self {
            RmapFinding::Entry(text) => text.as_bytes().to_vec(alloc),
            RmapFinding::Fault(fault) => Ok(fault_text(alloc, *fault)?.into_bytes()),
        }
    }
}

fn fault_text(alloc: Global, fault: RmapFault) -> Result<String, AllocError>
    ensures { IfOk result (λ s. string_bytes s ≡ fault_line fault) }
{
    let words = fault_words(fault);
    format!(in alloc; "fault {words}\n")
}

/// What is found of a network.
fn find(alloc: Global, network: &Network, request: &Request<'_>) -> Result<RmapFinding, AllocError>
    ensures { IfOk result (IsRmapFinding request.now network.now) }
{
    // Names the network, which is valid by its type.
    let _flows = network.flows();
    match packet_of(alloc, network, request) {
        Ok(packet) => {
            let text = entry_text(alloc, network, request.flow, packet.flow, &packet.cargo)?;
            Ok(RmapFinding::Entry(text))
        }
        Err(OrMemory::Fault(fault)) => Ok(RmapFinding::Fault(fault)),
        Err(OrMemory::Memory) => Err(AllocError),
    }
}

/// The entry of a load whose packet brings the target of a flow the command that is asked for (ECSS-E-ST-50-52C, the fields of write and read
/// commands), in this form: 0 where there is such a packet, and 3 with the first fault where there is none.
pub fn rmap<R: Read, F: Form<RmapFinding>, W: Write>(
    alloc: Global,
    reader: &mut R,
    request: &Request<'_>,
    form: &F,
    writer: &mut W,
) -> CommandEnd<RmapFinding>
    ensures ended { EndsByOne F.memory (AnswersInForm (IsRmapFinding request.now) (F.tells form.now None) (F.faulty form.now None) (F.long form.now None)) (R.remaining reader.old) (R.remaining reader.new) (W.contents writer.old) (W.contents writer.new) result.ended }
    ensures read { IsFileRead (R.remaining reader.old) (R.remaining reader.new) result.file }
    ensures found { HoldsOfFound (IsRmapFinding request.now) (network_of result.file) result.found }
    ensures told { IsFileTold F.memory (AnswersToFile (F.tells form.now None) (F.faulty form.now None) (F.long form.now None) result.file result.found) result.file (W.contents writer.old) (W.contents writer.new) result.ended }
{
    let file = read_network_file(alloc, reader);
    let found = match file.network() {
        Some(network) => Some(find(alloc, network, request)),
        None => None,
    };
    tell_found(alloc, file, None, found, form, writer)
}
