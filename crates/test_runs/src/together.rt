//! The gate.

use std::sync::atomic::{AtomicBool, AtomicU64, Ordering};
use std::thread;
use sw_cell::CellId;
use sw_run::Gate;

/// So often a worker looks before it gives up.
const LOOKS: usize = 10_000_000;

/// The bits of all cells.
const ALL: u64 = 0b11_1111;

/// What a worker waits for.
#[derive(Clone, Copy)]
enum Awaited {
    /// A decision on each cell.
    All,
    /// That, and a step of switch 1.
    Step,
    /// One more decision on switch 1.
    Again,
}

/// Lets the first decision on each cell wait until there is one on each of the six cells: so each
/// cell is decided under a lock of its own, by a thread of its own. That on switch 0 then waits
/// for a step of switch 1; and who tells of the first step of switch 1 waits until that cell is
/// decided once more, which takes another thread and a cell whose lock is free. It is for networks
/// of three nodes and three switches.
#[derive(Drop)]
pub struct Together {
    decided: AtomicU64,
    stepped: AtomicBool,
    decided_again: AtomicBool,
    late: AtomicBool,
}

impl Together {
    /// A gate at which no cell was decided yet. At one that is open no worker waits, as if one had given up.
    pub fn new(is_open: bool) -> Together {
        Together {
            decided: AtomicU64::new(0),
            stepped: AtomicBool::new(false),
            decided_again: AtomicBool::new(false),
            late: AtomicBool::new(is_open),
        }
    }

    /// Whether a worker gave up.
    pub fn is_late(&self) -> bool {
        self.late.load(Ordering::SeqCst)
    }

    /// Whether each of the cells was decided.
    pub fn have_all_come(&self) -> bool {
        self.decided.load(Ordering::SeqCst) == ALL
    }

    /// Waits until that has come. Once one worker gave up none waits.
    fn wait(&self, awaited: Awaited) {
        for _ in 0..LOOKS {
            let has_come = match awaited {
                Awaited::All => self.have_all_come(),
                Awaited::Step => self.have_all_come() && self.stepped.load(Ordering::SeqCst),
                Awaited::Again => self.decided_again.load(Ordering::SeqCst),
            };
            if has_come || self.is_late() {
                return;
            }
            thread::yield_now();
        }
        self.late.store(true, Ordering::SeqCst);
    }
}

impl Gate for Together {
    fn decides(&self, cell: CellId) {
        if cell == CellId::Switch(1) && self.stepped.load(Ordering::SeqCst) {
            self.decided_again.store(true, Ordering::SeqCst);
        }
        let bit = match cell {
            CellId::Node(0) => 1,
            CellId::Node(1) => 2,
            CellId::Node(_) => 4,
            CellId::Switch(0) => 8,
            CellId::Switch(1) => 16,
            CellId::Switch(_) => 32,
        };
        if self.decided.fetch_or(bit, Ordering::SeqCst) & bit == 0 {
            let awaited = if cell == CellId::Switch(0) {
                Awaited::Step
            } else {
                Awaited::All
            };
            self.wait(awaited);
        }
    }

    fn commits(&self, cell: CellId) {
        if cell == CellId::Switch(1) && !self.stepped.swap(true, Ordering::SeqCst) {
            self.wait(Awaited::Again);
        }
    }
}
