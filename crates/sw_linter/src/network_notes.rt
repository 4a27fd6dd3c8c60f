//! Notes on a network for a person.
ghost use Rattle.std.specs.Prelude.{◌≡◌, ◌∷◌, [], ◌++◌, IfOk, List, OnOk, map, string_bytes};
ghost use Rattle.sw_circles.specs.Circlings.{AreCirclings, CirclingView};
ghost use Rattle.sw_linter.specs.declared.network_notes.NoteKind.TheVariants.{Circling};
ghost use Rattle.sw_linter.specs.Notes.{AreNotes, circling_note, cure_words, kind_of, lint_note, note_text, note_view};

use crate::circling_words::circling_texts;
use crate::finding::lints;
use crate::lint::Lint;
use crate::texts::lint_text;
use std::alloc::{AllocError, Global};
use std::marker::Model;
use sw_config::Network;

/// What a note tells of.
#[derive(Clone, Copy, PartialEq)]
pub enum NoteKind {
    /// A flow whose packets can come back to where they were, or of which none arrives.
    Circling,
    /// A network without flows.
    NoFlows,
    /// A node that no flow is from or to.
    UnusedNode,
    /// A switch that no flow goes over.
    UnusedSwitch,
    /// A target to which no flow goes.
    UnusedTarget,
    /// An entry of a routing table that no packet needs.
    UnusedEntry,
    /// A group of which one port alone has a link.
    OneLinkedPort,
    /// A group that may lead packets back.
    LeadsBack,
    /// Two targets on both sides of a link, which may wait for each other.
    Opposed,
    /// A flow to a target with another logical address.
    WrongTarget,
    /// Replies to an address that their node is not known to have.
    WrongInitiator,
    /// Two initiator addresses between two nodes.
    TwoInitiators,
}

/// A note: what is probably a slip, although the network is valid.
#[derive(Drop)]
pub struct Note {
    /// What it tells of.
    pub kind: NoteKind,
    /// A line without LF.
    pub text: String,
}

impl Model for Note {
    ghost use Rattle.std.specs.Prelude.{string_bytes};
    ghost use Rattle.sw_linter.specs.Notes.{NoteView, note_view};

    ghost Value = { NoteView };

    ghost view = { λ n. note_view n.kind (string_bytes n.text) };
}

/// What the note on it tells of.
fn kind_of(lint: &Lint) -> NoteKind
    ensures { result ≡ kind_of lint.now }
{
    match lint {
        Lint::NoFlows => NoteKind::NoFlows,
        Lint::UnusedNode(_) => NoteKind::UnusedNode,
        Lint::UnusedSwitch(_) => NoteKind::UnusedSwitch,
        Lint::UnusedTarget(_) => NoteKind::UnusedTarget,
        Lint::UnusedEntry { .. } => NoteKind::UnusedEntry,
        Lint::OneLinkedPort { .. } => NoteKind::OneLinkedPort,
        Lint::LeadsBack { .. } => NoteKind::LeadsBack,
        Lint::Opposed { .. } => NoteKind::Opposed,
        Lint::WrongTarget { .. } => NoteKind::WrongTarget,
        Lint::WrongInitiator { .. } => NoteKind::WrongInitiator,
        Lint::TwoInitiators { .. } => NoteKind::TwoInitiators,
    }
}

/// What can prevent it, or what tells more.
fn cure_words(lint: &Lint) -> &'static str
    ensures { result.now ≡ cure_words lint.now }
{
    match lint {
        Lint::Opposed { .. } => {
            "; limits on unanswered commands ('outstanding', from version 3 on) can prevent that"
        }
        Lint::WrongInitiator { .. } => "; its 'target' and the flows to it tell which it has",
        _ => "",
    }
}

/// As a note on standard error.
fn note_text(alloc: Global, network: &Network, lint: &Lint) -> Result<String, AllocError>
    ensures { IfOk result (λ s. string_bytes s ≡ note_text network.now lint.now) }
{
    let mut text = lint_text(alloc, network, lint)?;
    text.push_str(cure_words(lint))?;
    Ok(text)
}

/// Adds the note on what is told.
fn add_note(
    alloc: Global,
    network: &Network,
    lint: &Lint,
    notes: &mut Vec<Note>,
) -> Result<(), AllocError>
    ensures { OnOk result (notes.new.items ≡ notes.old.items ++ lint_note network.now lint.now ∷ []) }
{
    let kind = kind_of(lint);
    let text = note_text(alloc, network, lint)?;
    notes.push(Note { kind, text })?;
    Ok(())
}

/// Adds the note with this text on a flow whose packets can come back to where they were, or of which none arrives.
fn add_circling_note(alloc: Global, text: &str, notes: &mut Vec<Note>) -> Result<(), AllocError>
    ensures { OnOk result (notes.new.items ≡ notes.old.items ++ note_view Circling text.now ∷ []) }
{
    let text = String::from_str(alloc, text)?;
    notes.push(Note {
        kind: NoteKind::Circling,
        text,
    })?;
    Ok(())
}

/// The notes on each flow whose packets can come back to where they were, or of which none arrives.
///
/// # Errors
///
/// There is no memory for the notes, or for what finds what they tell.
pub fn circling_notes(alloc: Global, network: &Network) -> Result<Vec<Note>, AllocError>
    ensures { IfOk result (λ v. (told : List CirclingView) × AreCirclings network.now told × (v.items ≡ map (circling_note network.now) told)) }
{
    let texts = circling_texts(alloc, network)?;
    let mut notes = Vec::new(alloc);
    for text in &texts {
        add_circling_note(alloc, text.as_str(), &mut notes)?;
    }
    Ok(notes)
}

/// All notes on a network, those of a kind after one another: on flows whose packets can come back to where they were or of which none arrives,
/// and then on what `lints` tells, in its order. Behind some texts stands what can prevent what they tell.
///
/// # Errors
///
/// There is no memory for the notes, or for what finds what they tell.
pub fn notes(alloc: Global, network: &Network) -> Result<Vec<Note>, AllocError>
    ensures { IfOk result (λ v. AreNotes network.now v.items) }
{
    let mut notes = circling_notes(alloc, network)?;
    let told = lints(alloc, network)?;
    for lint in &told {
        add_note(alloc, network, lint, &mut notes)?;
    }
    Ok(notes)
}
