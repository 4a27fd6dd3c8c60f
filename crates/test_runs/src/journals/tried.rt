//! Steps that are tried one by one at the cells of a journal.

use crate::journals::pair::Pair;
use crate::journals::two_threads::{READ_AND_SEND, SEND_AND_TAKE, TwoThreads, show_two_threads};
use crate::moves::{Move, show_made};
use crate::numbers::show_numbers;
use std::io;
use std::sync::{Mutex, Wait};
use std::thread::Threads;
use sw_char::End;

/// What is done at one of two nodes, which is told by its number, or at both.
#[derive(Clone, Copy)]
pub(crate) enum JournalTrial {
    /// Its link end's numbers are told.
    Numbers(u16),
    /// Whether that is idle, and its mark.
    Idle(u16),
    /// What it has is told.
    Tell(u16),
    /// A step is tried there.
    Make(u16, Move<'static>),
    /// Two threads make steps.
    ByTwo(&'static TwoThreads),
}

/// The second node sends FCTs until it can send none, the first takes one, and begins its packet.
pub(crate) const BOTH: &[JournalTrial] = &[
    JournalTrial::Numbers(0),
    JournalTrial::Idle(0),
    JournalTrial::Numbers(1),
    JournalTrial::Idle(1),
    JournalTrial::Make(1, Move::Fct(0)),
    JournalTrial::Make(1, Move::Fct(0)),
    JournalTrial::Make(1, Move::Fct(0)),
    JournalTrial::Make(1, Move::Fct(0)),
    JournalTrial::Make(1, Move::Fct(0)),
    JournalTrial::Make(1, Move::Fct(0)),
    JournalTrial::Make(1, Move::Fct(0)),
    JournalTrial::Make(1, Move::Fct(0)),
    JournalTrial::Numbers(1),
    JournalTrial::Idle(1),
    JournalTrial::Tell(1),
    JournalTrial::Make(0, Move::FctIn(0)),
    JournalTrial::Numbers(0),
    JournalTrial::Idle(0),
    JournalTrial::Make(0, Move::Begin(0, &[0xAA], End::Eop)),
    JournalTrial::Make(0, Move::Begin(0, &[0xAA], End::Eop)),
    JournalTrial::Tell(0),
];

/// Three steps of the second node.
pub(crate) const THREE: &[JournalTrial] = &[
    JournalTrial::Make(1, Move::Fct(0)),
    JournalTrial::Make(1, Move::Fct(0)),
    JournalTrial::Make(1, Move::Accept(1)),
];

/// Two threads make steps. The numbers of both are told before and after.
pub(crate) const TAKEN: &[JournalTrial] = &[
    JournalTrial::Numbers(0),
    JournalTrial::Numbers(1),
    JournalTrial::ByTwo(&SEND_AND_TAKE),
    JournalTrial::Numbers(0),
    JournalTrial::Numbers(1),
];

/// The same, where one reads its numbers before the other sends.
pub(crate) const BETWEEN: &[JournalTrial] = &[
    JournalTrial::Numbers(0),
    JournalTrial::Numbers(1),
    JournalTrial::ByTwo(&READ_AND_SEND),
    JournalTrial::Numbers(0),
    JournalTrial::Numbers(1),
];

/// Prints the numbers of the node's link end.
fn show_end(rt: &HostRuntime, pair: &Pair<'_>, node: u16) -> io::Result<()> {
    print!(rt; "link end {node}").and(show_numbers(rt, pair.numbers(node)))
}

/// Prints what comes of each.
pub(crate) fn show_tried<R: Threads + Wait + Sync>(
    rt: &HostRuntime,
    threads: &R,
    pair: &mut Mutex<Pair<'_>>,
    trials: &[JournalTrial],
) -> io::Result<()> {
    let mut shown = Ok(());
    for &trial in trials {
        shown = shown.and(match trial {
            JournalTrial::Numbers(node) => show_end(rt, pair.get_mut(), node),
            JournalTrial::Idle(node) => pair.get_mut().tell_idle(rt, node),
            JournalTrial::Tell(node) => pair.get_mut().tell(rt, node),
            JournalTrial::Make(node, tried) => {
                show_made(rt, "", pair.get_mut().make(rt.alloc(), node, tried))
            }
            JournalTrial::ByTwo(work) => show_two_threads(rt, threads, pair, work),
        });
    }
    shown
}
