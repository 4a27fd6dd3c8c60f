//! What the workers of a run share.
ghost use Rattle.std.specs.Prelude.{◌≡◌, ◌*◌, ◌+◌, ◌<◌, All, IfOk, IfSome, OnOk, length, slice_get};
ghost use Rattle.sw_config.specs.Entries.{wiring_of};
ghost use Rattle.sw_run.specs.Cells.{IsCellOf};
ghost use Rattle.sw_run.specs.Wanted.{cell_place};

use crate::gate::Gate;
use crate::run_cell::{RunCell, first_wanted};
use crate::run_identity::RunIdentity;
use crate::run_journal::RunJournal;
use crate::sleepers::Sleepers;
use crate::turn::Turn;
use std::alloc::{AllocError, Global};
use std::sync::Mutex;
use std::sync::atomic::{AtomicBool, AtomicU64, Ordering};
use sw_cell::CellId;
use sw_config::Network;
use sw_journal::Cell;
use sw_topo::{LinkEnd, PlaceEnd};

/// In one turn, so many steps are made at each link end before the next has its own; a cell that
/// has made as many in all is done, and has its next turn after the other cells.
const MOST_STEPS: usize = 256;

/// A cell, and whether it may have a step.
///
/// The flag is raised where a step at another cell sent something over a link to this one, where a
/// reply was sent whole that lets a node begin a packet, and where a turn of the cell ended before it
/// was idle. It is lowered by the worker that has the
/// cell's lock and the journal's, before it makes all steps that the cell has: what was sent until
/// then is among what it finds.
#[derive(Drop)]
pub(crate) struct Slot<W: RunIdentity> {
    cell: Mutex<RunCell<W>>,
    ready: AtomicBool,
}

impl<W: RunIdentity> Slot<W> {
    /// Raises the flag. Where it stands raised it is not written: others read it all the time.
    fn raise(&self) {
        if !self.ready.load(Ordering::SeqCst) {
            self.ready.store(true, Ordering::SeqCst);
        }
    }
}

/// What came of a turn, or of turns of several cells.
#[derive(Clone, Copy)]
pub(crate) enum Found {
    /// A cell had its turn.
    Work,
    /// No cell has a step, as far as the flags tell.
    Nothing,
    /// A cell may have a step, but other workers hold the locks.
    Held,
    /// The run is over.
    Over,
}

/// How many steps were made, and how it ended.
#[derive(Clone, Copy)]
struct Made {
    steps: usize,
    end: AfterTurn,
}

/// How a turn ended.
#[derive(Clone, Copy)]
enum AfterTurn {
    /// No step is left.
    Idle,
    /// Steps may be left.
    More,
    /// The run is over.
    Over,
}

/// The cells and the journal of one run, each under a lock of its own, and which cells may have a
/// step.
///
/// When no flag is raised and no worker has a turn, all are raised once more: then each link end is
/// marked in the journal, and where all are marked at one length the run is over. So a flag that is
/// wrong costs time, and never ends a run: and since each such round makes a step or ends the run, it
/// does not hang one either.
#[derive(Drop)]
pub(crate) struct RunState<'j, 'a, W: RunIdentity> {
    pub(crate) network: &'a Network,
    pub(crate) slots: Vec<Slot<W>>,
    pub(crate) journal: Mutex<&'j mut RunJournal<'a, W>>,
    /// How many workers have a turn.
    pub(crate) turns: AtomicU64,
    /// Where workers sleep and are woken.
    pub(crate) sleepers: Sleepers,
}

/// The place of the cell at which the link end stands: the nodes come first.
fn cell_index(network: &Network, end: LinkEnd) -> usize
    requires { end < 2 * length network.now.links }
    ensures { IfSome (slice_get (wiring_of network.now).ends end) (λ place. result ≡ cell_place (length network.now.nodes) place) }
{
    // Names how many link ends there are.
    let _ = network.channels();
    match network.topology().start_of(end.sends()) {
        PlaceEnd::Node(node) => node as usize,
        PlaceEnd::Switch(switch, _) => network.nodes() as usize + switch as usize,
    }
}

/// Adds the cell, behind a lock of its own.
fn add_slot<W: RunIdentity>(
    alloc: Global,
    network: &Network,
    cell: Cell,
    all: &mut Vec<Slot<W>>,
) -> Result<(), AllocError>
    requires network { network.now ≡ W.declared }
    requires cell { IsCellOf W.declared W.name cell }
    ensures { OnOk result (length all.new.items ≡ length all.old.items + 1) }
{
    let cell = RunCell::new(alloc, network, cell)?;
    all.push(Slot {
        cell: Mutex::new(cell),
        ready: AtomicBool::new(true),
    })?;
    Ok(())
}

/// Each cell behind a lock of its own.
pub(crate) fn lock_each<W: RunIdentity>(
    alloc: Global,
    network: &Network,
    cells: Vec<Cell>,
) -> Result<Vec<Slot<W>>, AllocError>
    requires network { network.now ≡ W.declared }
    requires cells { All (IsCellOf W.declared W.name) cells.items }
    ensures { IfOk result (λ all. length all.items ≡ length cells.items) }
{
    let mut all = Vec::new(alloc);
    for cell in cells {
        add_slot(alloc, network, cell, &mut all)?;
    }
    Ok(all)
}

impl<'j, 'a, W: RunIdentity> RunState<'j, 'a, W> {
    /// Adds what a link end did to what was made, and says whether it was a step. Where something was
    /// sent over a link, the cell at its other end may have a step.
    fn note(&self, turn: Turn, made: &mut Made) -> bool {
        match turn {
            Turn::Moved => {}
            Turn::Sent(at) => {
                let other = LinkEnd::new(at.receives().number());
                if other.number() < self.network.channels() {
                    if let Some(slot) = self.slots.get(cell_index(self.network, other)) {
                        slot.raise();
                    }
                }
            }
            Turn::Idle => return false,
            Turn::Over => {
                made.end = AfterTurn::Over;
                return false;
            }
        }
        made.steps = made.steps.saturating_add(1);
        true
    }

    /// Steps of each link end of the cell in turn, of each until it has none or has made many.
    fn serve_ends(
        &self,
        alloc: Global,
        journal: &mut RunJournal<'a, W>,
        locked: &mut RunCell<W>,
        made: &mut Made,
    ) {
        let before = made.steps;
        for place in 0..locked.cell.ends().len() {
            for _ in 0..MOST_STEPS {
                if !self.note(journal.advance(alloc, locked, place), made) {
                    break;
                }
            }
            if matches!(made.end, AfterTurn::Over) {
                return;
            }
        }
        if made.steps == before {
            made.end = AfterTurn::Idle;
        }
    }

    /// Each node may have a step.
    fn raise_nodes(&self) {
        for slot in self.slots.iter().take(self.network.nodes() as usize) {
            slot.raise();
        }
    }

    /// The step that was chosen, and then steps of the cell until it has none, or has made many.
    fn serve(
        &self,
        alloc: Global,
        journal: &mut RunJournal<'a, W>,
        locked: &mut RunCell<W>,
        first: Option<LinkEnd>,
    ) -> Made {
        let mut made = Made {
            steps: 0,
            end: AfterTurn::More,
        };
        let _stepped = self.note(journal.begin(alloc, locked, first), &mut made);
        for _ in 0..MOST_STEPS {
            if !matches!(made.end, AfterTurn::More) || made.steps >= MOST_STEPS {
                break;
            }
            self.serve_ends(alloc, journal, locked, &mut made);
        }
        if journal.has_settled() {
            self.raise_nodes();
        }
        made
    }

    /// What the cell does next is chosen under its own lock, before the journal's is taken. None where
    /// another worker has the journal.
    fn decide<G: Gate>(
        &self,
        alloc: Global,
        gate: &G,
        slot: &Slot<W>,
        locked: &mut RunCell<W>,
    ) -> Option<Made> {
        gate.decides(locked.cell.id());
        let first = first_wanted(&locked.cell);
        let Some(mut journal) = self.journal.try_lock() else {
            return None;
        };
        slot.ready.store(false, Ordering::SeqCst);
        let made = self.serve(alloc, &mut journal, locked, first);
        if matches!(made.end, AfterTurn::More) {
            slot.raise();
        }
        Some(made)
    }

    /// A turn of the cell at that place: the gate is told of the steps when both locks are free.
    pub(crate) fn turn<G: Gate>(&self, alloc: Global, gate: &G, place: usize) -> Found {
        let Some(slot) = self.slots.get(place) else {
            return Found::Nothing;
        };
        if !slot.ready.load(Ordering::SeqCst) {
            return Found::Nothing;
        }
        let Some(mut locked) = slot.cell.try_lock() else {
            return Found::Held;
        };
        let cell = locked.cell.id();
        self.turns.fetch_add(1, Ordering::SeqCst);
        self.sleepers.call();
        let made = self.decide(alloc, gate, slot, &mut locked);
        drop(locked);
        self.turns.fetch_sub(1, Ordering::SeqCst);
        let Some(made) = made else {
            return Found::Held;
        };
        for _ in 0..made.steps {
            gate.commits(cell);
        }
        match made.end {
            AfterTurn::Over => Found::Over,
            _ => Found::Work,
        }
    }

    /// Where no worker has a turn, each cell is to have one more. Says whether it is so.
    pub(crate) fn raise_all(&self) -> bool {
        if self.turns.load(Ordering::SeqCst) != 0 {
            return false;
        }
        for slot in &self.slots {
            slot.raise();
        }
        true
    }
}
