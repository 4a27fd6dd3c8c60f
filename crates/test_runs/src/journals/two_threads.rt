//! Two threads over one journal, each at a cell of its own.

use crate::journals::pair::Pair;
use crate::moves::Move;
use crate::numbers::show_numbers;
use std::alloc::Global;
use std::sync::atomic::{AtomicU64, Ordering};
use std::sync::{Mutex, MutexGuard, Wait};
use std::thread::Threads;
use std::{io, thread};
use sw_net::Numbers;

/// So often a thread looks before it gives up.
const LOOKS: usize = 10_000_000;

/// What one thread does at the cell of a node: it reads its numbers, ends a turn, waits until another is over, tries a step, and ends one
/// more turn. Turn 0 is over from the beginning.
struct Deed {
    node: u16,
    ends: u64,
    waits: u64,
    /// It takes an FCT that came on the channel of this number, or else sends one on it.
    takes: bool,
    channel: u16,
    /// So often the step is tried.
    tries: usize,
    /// So often it is made.
    wanted: usize,
    then_ends: u64,
}

/// What two threads do at the cells of two nodes.
pub(crate) struct TwoThreads {
    one: Deed,
    other: Deed,
    /// Whether the numbers that the first of them read are told.
    tells: bool,
}

/// One sends FCTs at the second node, and the other takes one at the first.
pub(crate) const SEND_AND_TAKE: TwoThreads = TwoThreads {
    one: Deed {
        node: 1,
        ends: 0,
        waits: 0,
        takes: false,
        channel: 0,
        tries: 8,
        wanted: 8,
        then_ends: 0,
    },
    other: Deed {
        node: 0,
        ends: 0,
        waits: 0,
        takes: true,
        channel: 0,
        tries: LOOKS,
        wanted: 1,
        then_ends: 0,
    },
    tells: false,
};

/// One reads the numbers of the second node in the first turn, and sends an FCT there after the second, in which the other sends one at the
/// first node.
pub(crate) const READ_AND_SEND: TwoThreads = TwoThreads {
    one: Deed {
        node: 1,
        ends: 1,
        waits: 2,
        takes: false,
        channel: 0,
        tries: 1,
        wanted: 1,
        then_ends: 2,
    },
    other: Deed {
        node: 0,
        ends: 0,
        waits: 1,
        takes: false,
        channel: 1,
        tries: 1,
        wanted: 1,
        then_ends: 2,
    },
    tells: true,
};

/// What a thread reports: the numbers that it read, and how often it made its step.
#[derive(Clone, Copy)]
struct ThreadReport {
    numbers: Option<Numbers>,
    made: usize,
}

/// The cells of both nodes. What works with them names no journal, and is cheaper to prove.
trait Cells {
    /// The numbers of the node's link end.
    fn numbers(&self, node: u16) -> Option<Numbers>;

    /// Makes the step at that node, if it may follow. Is it made?
    fn makes(&self, node: u16, tried: Move<'_>) -> bool;
}

/// The cells of a journal that two threads share.
#[derive(Drop)]
struct LockedCells<'s, 'n, R: Wait> {
    rt: &'s R,
    alloc: Global,
    pair: &'s Mutex<Pair<'n>>,
}

impl<'s, 'n, R: Wait> Cells for LockedCells<'s, 'n, R> {
    fn numbers(&self, node: u16) -> Option<Numbers> {
        let pair = self.pair.lock(self.rt);
        let numbers = pair.numbers(node);
        MutexGuard::unlock(pair);
        numbers
    }

    fn makes(&self, node: u16, tried: Move<'_>) -> bool {
        let mut pair = self.pair.lock(self.rt);
        let is_made = pair.make(self.alloc, node, tried).is_ok();
        MutexGuard::unlock(pair);
        is_made
    }
}

/// Waits until so many turns are over. Are they?
fn waits_for(turns: &AtomicU64, count: u64) -> bool {
    for _ in 0..LOOKS {
        if turns.load(Ordering::SeqCst) >= count {
            return true;
        }
        thread::yield_now();
    }
    false
}

/// Does it, and counts how often the step is made. So many turns are over then as it ends, if no more are.
fn done_of<C: Cells>(cells: &C, turns: &AtomicU64, deed: &Deed) -> ThreadReport {
    let tried = if deed.takes {
        Move::FctIn(deed.channel)
    } else {
        Move::Fct(deed.channel)
    };
    let numbers = cells.numbers(deed.node);
    turns.fetch_max(deed.ends, Ordering::SeqCst);
    let mut made: usize = 0;
    if waits_for(turns, deed.waits) {
        for _ in 0..deed.tries {
            if cells.makes(deed.node, tried) {
                made = made.saturating_add(1);
            }
            if made == deed.wanted {
                break;
            }
            thread::yield_now();
        }
    }
    turns.fetch_max(deed.then_ends, Ordering::SeqCst);
    ThreadReport { numbers, made }
}

/// Prints what the two threads tell.
fn show_threads<C: Cells + Sync, R: Threads>(
    rt: &HostRuntime,
    threads: &R,
    cells: &C,
    work: &TwoThreads,
) -> io::Result<()> {
    let turns = AtomicU64::new(0);
    let (first, second) = thread::join(
        threads,
        || done_of(cells, &turns, &work.one),
        || done_of(cells, &turns, &work.other),
    );
    let (sent, other) = (first.made, second.made == 1);
    if !work.tells {
        return println!(rt; "sent {sent}, one taken {other}");
    }
    let one = sent == 1;
    rt.print("link end 1")
        .and(show_numbers(rt, first.numbers))
        .and(println!(rt; "another sent one {other}, then one sent {one}"))
}

/// Prints what two threads tell that make steps at the pair's cells.
pub(crate) fn show_two_threads<R: Threads + Wait + Sync>(
    rt: &HostRuntime,
    threads: &R,
    pair: &Mutex<Pair<'_>>,
    work: &TwoThreads,
) -> io::Result<()> {
    let cells = LockedCells {
        rt: threads,
        alloc: rt.alloc(),
        pair,
    };
    show_threads(rt, threads, &cells, work)
}
