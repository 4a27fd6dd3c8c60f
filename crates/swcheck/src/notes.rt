//! Notes on a network, which is probably not what was meant although it is valid.
use crate::other_cycles::other_cycle_lines;
use std::alloc::{AllocError, Global};
use sw_calls::{Hints, Notes, Telling};
use sw_config::Network;
use sw_engine::{CommandEnd, NetworkFile};
use sw_explain::ExplainFinding;
use sw_faults::show;
use sw_linter::{Note, NoteKind, circling_notes, flow_circling_text, notes};
use sw_search::{Explanation, VerdictWorkers};

/// The longest texts, in bytes, whose network is noted on: what is noted of a longer one would take as long as the call itself.
pub(crate) const MOST_NOTED: usize = 262_144;

/// How many notes of a kind are told where few are wanted.
const FEW: usize = 3;

/// How many notes of a kind are told.
fn most_of(wanted: Notes) -> usize {
    match wanted {
        Notes::Never => 0,
        Notes::Few => FEW,
        Notes::All => usize::MAX,
    }
}

/// Adds how many notes of a kind are not told, if there are some.
fn add_untold(untold: usize, lines: &mut String) -> Result<(), AllocError> {
    match untold {
        0 => Ok(()),
        count => write!(lines, "note: and {count} more; --notes all shows them\n"),
    }
}

/// A line for each note, but for at most so many of a kind: notes of a kind follow each other.
fn note_lines(alloc: Global, wanted: Notes, notes: &[Note]) -> Result<String, AllocError> {
    let mut lines = String::new(alloc);
    let mut kind = None;
    let mut left = 0;
    let mut untold = 0usize;
    for note in notes {
        if kind != Some(note.kind) {
            add_untold(untold, &mut lines)?;
            kind = Some(note.kind);
            left = most_of(wanted);
            untold = 0;
        }
        if left == 0 {
            untold = untold.saturating_add(1);
        } else {
            left -= 1;
            let text = note.text.as_str();
            write!(lines, "note: {text}\n")?;
        }
    }
    add_untold(untold, &mut lines)?;
    Ok(lines)
}

/// A line for each note on the network.
fn network_lines(alloc: Global, wanted: Notes, network: &Network) -> Result<String, AllocError> {
    note_lines(alloc, wanted, &notes(alloc, network)?)
}

/// A line for each flow whose packets can come back to where they were, or of which none arrives.
fn circling_lines(alloc: Global, wanted: Notes, network: &Network) -> Result<String, AllocError> {
    note_lines(alloc, wanted, &circling_notes(alloc, network)?)
}

/// The same of the flow of this name.
fn flow_line(alloc: Global, network: &Network, flow: &str) -> Result<String, AllocError> {
    let Some(number) = network.flow_named(flow) else {
        return Ok(String::new(alloc));
    };
    match flow_circling_text(alloc, network, number)? {
        Some(text) => format!(in alloc; "note: {text}\n"),
        None => Ok(String::new(alloc)),
    }
}

/// The notes on the network of a file whose text is not too long for that. Nothing where there is no memory for them.
pub(crate) fn notes_on(alloc: Global, wanted: Notes, file: &NetworkFile) -> Option<String> {
    match file {
        NetworkFile::Network { text, network } if text.len() <= MOST_NOTED => {
            network_lines(alloc, wanted, network).ok()
        }
        _ => None,
    }
}

/// Adds a line for each further cycle of a network with these tangles.
fn explained_lines<C: VerdictWorkers>(
    workers: &C,
    alloc: Global,
    wanted: Notes,
    network: &Network,
    explanation: &Explanation,
) -> Result<String, AllocError> {
    let mut lines = circling_lines(alloc, wanted, network)?;
    if let Explanation::Cyclic(tangles) = explanation {
        lines.push_str(other_cycle_lines(workers, alloc, network, tangles)?.as_str())?;
    }
    Ok(lines)
}

/// The notes behind what `explain` tells of a file whose text is not too long for that: on flows whose packets can come back to where they were, or
/// of which none arrives, and on further cycles.
pub(crate) fn explained_notes_on<C: VerdictWorkers>(
    workers: &C,
    alloc: Global,
    wanted: Notes,
    end: &CommandEnd<ExplainFinding>,
) -> Option<String> {
    match (&end.file, &end.found) {
        (NetworkFile::Network { text, network }, Some(Ok(found))) if text.len() <= MOST_NOTED => {
            explained_lines(workers, alloc, wanted, network, &found.explanation).ok()
        }
        _ => None,
    }
}

/// The note on the flow of this name, if its packets can come back to where they were or none of them arrives.
pub(crate) fn flow_note_on(alloc: Global, file: &NetworkFile, flow: &str) -> Option<String> {
    match file {
        NetworkFile::Network { network, .. } => flow_line(alloc, network, flow).ok(),
        _ => None,
    }
}

/// The note on each of these files, by their numbers from 1, which are networks without flows.
fn flowless_notes(
    alloc: Global,
    paths: &[&str],
    numbers: &[usize],
) -> Result<Vec<Note>, AllocError> {
    let mut notes = Vec::new(alloc);
    for number in numbers {
        if let Some(path) = paths.get(number.wrapping_sub(1)) {
            let path = show(alloc, path.as_bytes())?;
            notes.push(Note {
                kind: NoteKind::NoFlows,
                text: format!(in alloc; "{path}: the network has no flows")?,
            })?;
        }
    }
    Ok(notes)
}

/// A line for each of them.
fn flowless_lines(
    alloc: Global,
    wanted: Notes,
    paths: &[&str],
    numbers: &[usize],
) -> Result<String, AllocError> {
    note_lines(alloc, wanted, &flowless_notes(alloc, paths, numbers)?)
}

/// The notes on the files of an audit that are networks without flows, by their numbers, from 1. Nothing where there is no memory for them.
pub(crate) fn flowless_notes_on(
    alloc: Global,
    telling: Telling,
    paths: &[&str],
    numbers: &[usize],
) -> Option<String> {
    match (telling.hints, telling.notes) {
        (Hints::Never, _) | (_, Notes::Never) => None,
        (_, wanted) => flowless_lines(alloc, wanted, paths, numbers).ok(),
    }
}
