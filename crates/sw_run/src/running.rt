//! The run of a load.
ghost use Rattle.std.specs.Prelude.{◌≡◌, ◌<◌, All, IfOk};
ghost use Rattle.sw_load.specs.Laws.{AreDeclared};
ghost use Rattle.sw_run.specs.Cells.{IsCellOf};
ghost use Rattle.sw_run.specs.Notes.{AreTrueNotes};
ghost use Rattle.sw_run.specs.Outcomes.{IsOutcome};

use crate::gate::Gate;
use crate::locks::{RunState, Slot, lock_each};
use crate::notes::Notes;
use crate::outcome::Outcome;
use crate::run_identity::RunIdentity;
use crate::run_journal::RunJournal;
use crate::sleepers::Sleepers;
use crate::workers::{RunTask, start_all};
use std::alloc::{AllocError, Global};
use std::marker::Brand;
use std::sync::atomic::AtomicU64;
use std::sync::{Mutex, Wait};
use std::thread::Threads;
use sw_config::Network;
use sw_journal::{Cell, Journal};
use sw_load::Load;

/// The workers work on the cells and the journal of one run, until it is over.
fn work_all<'a, W: RunIdentity + Send + Sync, G: Gate + Sync, R: Threads + Wait + Sync>(
    rt: &R,
    alloc: Global,
    network: &'a Network,
    journal: &mut RunJournal<'a, W>,
    slots: Vec<Slot<W>>,
    workers: usize,
    gate: &G,
)
    requires { 0 < workers }
{
    let shared = RunState {
        network,
        slots,
        journal: Mutex::new(journal),
        turns: AtomicU64::new(0),
        sleepers: Sleepers::new(),
    };
    let task = RunTask {
        rt,
        alloc,
        shared: &shared,
        gate,
    };
    start_all(rt, &task, workers);
}

/// Runs the workers on the cells and the journal of one run.
fn run_named<'a, W: RunIdentity + Send + Sync, G: Gate + Sync, R: Threads + Wait + Sync>(
    rt: &R,
    alloc: Global,
    network: &'a Network,
    journal: Journal<'a>,
    notes: Notes,
    cells: Vec<Cell>,
    workers: usize,
    limit: usize,
    gate: &G,
) -> Result<Outcome<'a>, AllocError>
    requires network { network.now ≡ W.declared }
    requires identity { (journal.name ≡ W.name) × (journal.declared ≡ W.declared) × (journal.load ≡ W.load) × (journal.limit ≡ W.limit) }
    requires cells { All (IsCellOf W.declared W.name) cells.items }
    requires limit { limit ≡ W.limit }
    requires notes { AreTrueNotes journal notes }
    requires some { 0 < workers }
    ensures { IfOk result (IsOutcome W.declared W.load W.limit) }
{
    match lock_each::<W>(alloc, network, cells) {
        Ok(slots) => {
            let mut journal = RunJournal::<'a, W>::new(network, journal, limit, notes);
            work_all(rt, alloc, network, &mut journal, slots, workers, gate);
            journal.outcome(alloc)
        }
        Err(error) => {
            journal.discard();
            Err(error)
        }
    }
}

/// Sends the packets of the load over the network, by so many threads, until nothing can go on or
/// there are so many steps as there may be.
///
/// # Errors
///
/// There is no memory for what the run begins with, or for its outcome.
pub fn run<'a, G: Gate + Sync, R: Threads + Wait + Sync>(
    rt: &R,
    alloc: Global,
    network: &'a Network,
    load: &'a Load,
    workers: usize,
    limit: usize,
    gate: &G,
) -> Result<Outcome<'a>, AllocError>
    requires packets { AreDeclared network.now load.now }
    requires some { 0 < workers }
    ensures { IfOk result (IsOutcome network.now load.now limit) }
{
    let notes = Notes::new(alloc, network.channels())?;
    let (journal, cells) = Journal::new(alloc, network, load, limit)?;
    run_named::<Brand, G, R>(
        rt, alloc, network, journal, notes, cells, workers, limit, gate,
    )
}
