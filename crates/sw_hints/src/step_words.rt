//! What the words of a schedule's line have to be.
use crate::teller::Teller;
use std::alloc::AllocError;
use std::str;
use sw_load::{count_of, hex_pair, pairs_of};
use sw_schedule::{MAX_COUNT, MAX_NUMBER};
use sw_text::{cut, number};

/// The words that steps begin with.
pub(crate) const VERBS: &[&str] = &[
    "fct", "fctin", "arrive", "grant", "drop", "spill", "forward", "begin", "emit", "accept",
    "reply",
];

/// What a word of a line has to be.
#[derive(Clone, Copy)]
pub(crate) enum Wanted {
    Verb,
    Channel,
    Node,
    Flow,
    End,
    Cargo,
    /// The line ends here.
    Nothing,
}

/// What is wrong in a line: the rest of it from the first wrong word on, none where a word lacks,
/// and what has to stand there.
#[derive(Clone, Copy)]
pub(crate) struct Wrong<'a> {
    pub(crate) rest: Option<&'a [u8]>,
    pub(crate) wanted: Wanted,
}

/// The first word of a line, and what stands behind it.
fn first_word(line: &[u8]) -> (&[u8], Option<&[u8]>) {
    match cut(line, b' ') {
        Some((word, rest)) => (word, Some(rest)),
        None => (line, None),
    }
}

/// The first word of a line, if it is UTF-8.
pub(crate) fn first_name(line: &[u8]) -> Option<&str> {
    str::from_utf8(first_word(line).0).ok()
}

/// Does a line begin as a step does, with its verb or with a count before it?
pub(crate) fn begins_step(line: &[u8]) -> bool {
    let (word, behind) = first_word(line);
    let (verb, behind) = match number(word, MAX_COUNT) {
        Some(_) => first_word(behind.unwrap_or(&[])),
        None => (word, behind),
    };
    // (a key of a table, as `reply =`, may be a verb too)
    let is_key = behind.is_some_and(|rest| rest.trim_ascii_start().starts_with(b"="));
    !is_key && str::from_utf8(verb).ok().and_then(wanted_behind).is_some()
}

/// What the words behind the first of a step have to be.
fn wanted_behind(verb: &str) -> Option<&'static [Wanted]> {
    match verb {
        "fct" | "fctin" | "arrive" | "drop" | "forward" | "spill" => Some(&[Wanted::Channel]),
        "grant" => Some(&[Wanted::Channel, Wanted::Channel]),
        "begin" => Some(&[Wanted::Flow, Wanted::End, Wanted::Cargo]),
        "emit" | "accept" | "reply" => Some(&[Wanted::Node]),
        _ => None,
    }
}

impl Teller<'_> {
    /// Is a word, behind the first one of a step, as it has to be?
    fn is_right(self, wanted: Wanted, word: &[u8]) -> Result<bool, AllocError> {
        let network = self.network;
        Ok(match (wanted, first_name(word)) {
            (Wanted::Channel, _) => {
                number(word, MAX_NUMBER).is_some_and(|it| it < u32::from(network.channels()))
            }
            (Wanted::Node, Some(name)) => network.node_named(name).is_some(),
            (Wanted::Flow, Some(name)) => network.declared_flow_named(name).is_some(),
            (Wanted::End, Some(name)) => name == "EOP" || name == "EEP",
            (Wanted::Cargo, _) => match word {
                [high, low, b'*', times @ ..] => {
                    hex_pair(*high, *low).is_some() && count_of(times).is_some()
                }
                word => pairs_of(self.alloc, word)?.is_some(),
            },
            _ => false,
        })
    }

    /// What is wrong in a line; none where nothing is.
    pub(crate) fn wrong_in<'l>(self, line: &'l [u8]) -> Result<Option<Wrong<'l>>, AllocError> {
        let (word, behind) = first_word(line);
        let rest = match number(word, MAX_COUNT) {
            None | Some(0) => Some(line),
            Some(_) => behind,
        };
        let (verb, mut behind) = first_word(rest.unwrap_or(&[]));
        let Some(words) = str::from_utf8(verb).ok().and_then(wanted_behind) else {
            let wanted = Wanted::Verb;
            return Ok(Some(Wrong { rest, wanted }));
        };
        for wanted in words {
            let rest = behind;
            let (word, after) = first_word(rest.unwrap_or(&[]));
            if rest.is_none() || !self.is_right(*wanted, word)? {
                return Ok(Some(Wrong {
                    rest,
                    wanted: *wanted,
                }));
            }
            behind = after;
        }
        let wanted = Wanted::Nothing;
        Ok(
            behind.is_some().then_some(Wrong {
                rest: behind,
                wanted,
            }),
        )
    }
}
