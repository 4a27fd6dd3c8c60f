//! The hint of a line of a schedule's text that is no step.
use crate::step_words::{VERBS, Wanted, Wrong, first_name};
use crate::teller::{Teller, Text};
use crate::text_kinds::{TextKind, note_kind};
use crate::text_lines::{line_hint, nth_line};
use std::alloc::{AllocError, Global};
use sw_config::Network;
use sw_faults::{Hint, meant_help};

/// What is wrong with a word.
fn wrong_words(wanted: Wanted) -> &'static str {
    match wanted {
        Wanted::Verb => "no step begins like this",
        Wanted::Channel => "this is not a channel of the network",
        Wanted::Node => "this is not a node",
        Wanted::Flow => "this is not a declared flow",
        Wanted::End => "this is not an end marker",
        Wanted::Cargo => "this is not cargo",
        Wanted::Nothing => "this is one word too many",
    }
}

impl Teller<'_> {
    /// What would be right; no more steps, where no other word is wanted.
    fn right_words(self, wanted: Option<Wanted>) -> Text {
        let Some(wanted) = wanted else {
            return self.text("at most 1000000 steps in all");
        };
        match wanted {
            Wanted::Verb => format!(in self.alloc;
                "one of {}, alone or after a count from 1 to 100000",
                VERBS.join(self.alloc, ", ")?
            ),
            Wanted::Channel => format!(in self.alloc;
                "the number of a channel, below {}",
                self.network.channels()
            ),
            Wanted::Node => self.text("the name of a node"),
            Wanted::Flow => self.text("the name of a declared flow"),
            Wanted::End => self.text("EOP or EEP"),
            Wanted::Cargo => self.text(
                "1 to 4096 bytes: pairs of hexadecimal digits, or one pair, '*' and a number from 1 to 4096, without spaces",
            ),
            Wanted::Nothing => self.text(
                "the end of the line; there is one space between two words",
            ),
        }
    }

    /// What to do about the word that a rest of a line begins with.
    fn word_help(self, wanted: Option<Wanted>, rest: &[u8]) -> Text {
        match (wanted, first_name(rest)) {
            (Some(Wanted::Verb), Some(name)) => meant_help(self.alloc, name, VERBS),
            (Some(Wanted::Node), Some(name)) => self.meant_node(name),
            (Some(Wanted::Flow), Some(name)) => self.meant_flow(
                name,
                self.network.declared_flows(),
            ),
            _ => self.text(""),
        }
    }
}

/// The hint of the line of a schedule's text, counted from 1, that is no step of this network, or
/// with which there are too many steps.
///
/// # Errors
///
/// There is no memory for the hint.
pub fn schedule_line_hint(
    alloc: Global,
    network: &Network,
    text: &[u8],
    line: u64,
) -> Result<Hint, AllocError> {
    let teller = Teller { alloc, network };
    let words = nth_line(text, line as usize);
    let (what, rest, wanted) = match teller.wrong_in(words)? {
        Some(
            Wrong {
                rest: Some(rest),
                wanted,
            },
        ) => (wrong_words(wanted), rest, Some(wanted)),
        Some(Wrong { rest: None, wanted }) => ("a word is missing", [].as_slice(), Some(wanted)),
        None => ("with this line there are too many steps", words, None),
    };
    let what = format!(in alloc; "fault S1 BadLine {line}: {what}")?;
    let expected = teller.right_words(wanted);
    let mut hint = line_hint(alloc, line as usize, words, rest, what, expected)?;
    hint.help = teller.word_help(wanted, rest)?;
    note_kind(alloc, TextKind::Schedule, text, &mut hint)?;
    Ok(hint)
}
