//! The journal under its lock.
ghost use Rattle.std.specs.Prelude.{◌≡◌, ◌⊎◌, ◌*◌, ◌<◌, IfNone, IfOk, IfSome, IsSome, None, Some, length, map, option_map, slice_get, []};
ghost use Rattle.sw_journal.specs.Cells.{end_numbers};
ghost use Rattle.sw_machine.specs.StepValues.{machine_step};
ghost use Rattle.sw_run.specs.Ends.{AreOutBy, EndsBy};
ghost use Rattle.sw_run.specs.Grants.{AdvancesAt, Begins, Takes};
ghost use Rattle.sw_run.specs.Notes.{AreTrueNotes, IsAwake, IsMarkedAt};
ghost use Rattle.sw_run.specs.Outcomes.{IsOutcome};
ghost use Rattle.sw_run.specs.declared.outcome.Stop.TheVariants.{Memory};

use crate::notes::Notes;
use crate::outcome::{Outcome, Stop};
use crate::run_cell::RunCell;
use crate::run_identity::RunIdentity;
use crate::turn::Turn;
use std::alloc::{AllocError, Global};
use std::marker::PhantomData;
use sw_char::Packet;
use sw_config::Network;
use sw_journal::{Cell, Journal};
use sw_machine::{Move, Step};
use sw_topo::LinkEnd;

/// The journal of one run, and what is noted beside it. It is let go by `outcome` alone.
pub(crate) struct RunJournal<'a, W: RunIdentity> {
    pub(crate) network: &'a Network,
    pub(crate) journal: Journal<'a>,
    pub(crate) limit: usize,
    pub(crate) notes: Notes,
    of: PhantomData<W>,
    ghost network_is: { network.now ≡ W.declared },
    ghost identity_is: { (journal.name ≡ W.name) × (journal.declared ≡ W.declared) × (journal.load ≡ W.load) × (journal.limit ≡ W.limit) },
    ghost limit_is: { limit ≡ W.limit },
    ghost notes_are: { AreTrueNotes journal notes },
}

impl<'a, W: RunIdentity> RunJournal<'a, W> {
    /// The journal of a run that begins.
    pub(crate) fn new(
        network: &'a Network,
        journal: Journal<'a>,
        limit: usize,
        notes: Notes,
    ) -> RunJournal<'a, W>
        requires network { network.now ≡ W.declared }
        requires identity { (journal.name ≡ W.name) × (journal.declared ≡ W.declared) × (journal.load ≡ W.load) × (journal.limit ≡ W.limit) }
        requires limit { limit ≡ W.limit }
        requires notes { AreTrueNotes journal notes }
    {
        RunJournal {
            network,
            journal,
            limit,
            notes,
            of: PhantomData,
        }
    }

    /// Ends the run for want of memory.
    pub(crate) fn refuse(&mut self) {
        let _over = self.notes.end(Stop::Memory);
    }

    /// Whether a reply was sent whole since this was asked last, at a node where only so many commands may
    /// be unanswered: then nodes may begin packets that they could not.
    pub(crate) fn has_settled(&mut self) -> bool {
        self.notes.has_settled()
    }

    /// Makes the step of this link end at the cell, if it may be the next.
    #[inline(always)]
    pub(crate) fn commit(
        &mut self,
        alloc: Global,
        locked: &mut RunCell<W>,
        end: LinkEnd,
        step: Step,
    ) -> Turn
        ensures takes { Takes self.old.journal locked.old.cell.id (machine_step step) result self.new.journal }
        ensures cell { locked.new.cell.id ≡ locked.old.cell.id }
        ensures arbiters { locked.new.arbiters.items ≡ locked.old.arbiters.items }
    {
        // Names the marks, none of which is at a length that is still to come.
        let _count = self.journal.len();
        let sent = self.notes.sent_over(end, &step);
        let owing = owed_before(self.network, &self.journal, &step);
        let made = self.journal.commit(alloc, &mut locked.cell, step);
        self.notes.settles(owes_less(&self.journal, owing));
        self.notes.after(made, sent)
    }

    /// Makes a step of the link end at that place of the cell's list, or marks it as idle, unless the
    /// run is over or it has its mark. A grant goes to the input that the output's arbiter picks.
    pub(crate) fn advance(&mut self, alloc: Global, locked: &mut RunCell<W>, place: usize) -> Turn
        ensures { AdvancesAt self.old.journal locked.old.arbiters.items locked.old.cell.ends place result self.new.journal locked.new.arbiters.items }
    {
        if self.notes.stop.is_some() {
            return Turn::Over;
        }
        let ends = self.network.channels();
        let Some(end) = awake_at(&self.journal, ends, &locked.cell, place) else {
            return Turn::Idle;
        };
        match self.journal.choose_or_mark(alloc, end, &locked.cell) {
            Ok(Some(step)) => match step {
                Step::Move(Move::Grant(_, _)) => self.grant(alloc, locked, end),
                step => self.commit(alloc, locked, end, step),
            },
            Ok(None) => {
                // Names the marks, one for each link end, which are true.
                let _count = self.journal.len();
                self.notes.rest()
            }
            Err(_) => self.notes.end(Stop::Memory),
        }
    }

    /// The link end that was chosen before the journal was locked sends an FCT, if that may be the
    /// next step.
    pub(crate) fn begin(
        &mut self,
        alloc: Global,
        locked: &mut RunCell<W>,
        first: Option<LinkEnd>,
    ) -> Turn
        ensures fct { Begins self.old.journal locked.old.cell.id first result self.new.journal }
        ensures arbiters { locked.new.arbiters.items ≡ locked.old.arbiters.items }
    {
        if self.notes.stop.is_some() {
            return Turn::Over;
        }
        match first {
            Some(end) => self.commit(alloc, locked, end, Step::Move(Move::Fct(end.receives()))),
            None => Turn::Idle,
        }
    }

    /// Why the run ended, by what the journal tells of the state in which it did. Want of memory is told
    /// only where it was noted, or nothing was.
    fn why(&self) -> Stop
        ensures ends { EndsBy self.now.journal result }
        ensures memory { result ≡ Memory → (self.now.notes.stop ≡ None) ⊎ (self.now.notes.stop ≡ Some Memory) }
    {
        if self.journal.is_drained() {
            Stop::Drained
        } else if self.journal.is_stuck() {
            Stop::Stuck
        } else if self.journal.is_waiting() {
            Stop::Waiting
        } else if self.journal.len() == self.limit {
            Stop::JournalFull
        } else {
            Stop::Memory
        }
    }

    /// The outcome, at the end.
    pub(crate) fn outcome(self, alloc: Global) -> Result<Outcome<'a>, AllocError>
        ensures { IfOk result (IsOutcome W.declared W.load W.limit) }
    {
        let stop = self.why();
        let RunJournal {
            network,
            journal,
            limit: _,
            notes: _,
            of: _,
        } = self;
        match all_came_out(alloc, &journal, network.nodes()) {
            Ok(came_out) => {
                let undelivered = journal.undelivered();
                let history = journal.into_history();
                Ok(Outcome {
                    stop,
                    history,
                    came_out,
                    undelivered,
                })
            }
            Err(error) => {
                journal.discard();
                Err(error)
            }
        }
    }
}

/// The node that emits by the step, and how many replies it owes, if only so many commands may be
/// unanswered there.
#[inline(always)]
fn owed_before(network: &Network, journal: &Journal<'_>, step: &Step) -> Option<(u16, usize)> {
    let Step::Move(Move::Emit(node)) = step else {
        return None;
    };
    match network.limit_at(*node) {
        Some(_) => Some((*node, journal.owed(*node))),
        None => None,
    }
}

/// Whether the node owes fewer replies than that.
#[inline(always)]
fn owes_less(journal: &Journal<'_>, owing: Option<(u16, usize)>) -> bool {
    match owing {
        Some((node, owed)) => journal.owed(node) < owed,
        None => false,
    }
}

/// The link end at that place of the cell's list, if it has no mark at the present length. There are
/// so many link ends.
fn awake_at(journal: &Journal<'_>, ends: u16, cell: &Cell, place: usize) -> Option<LinkEnd>
    requires { ends ≡ 2 * length journal.now.declared.links }
    ensures at { IfSome result (λ end. option_map (λ p. p.0) (slice_get cell.now.ends place) ≡ Some end) }
    ensures within { IfSome result (λ end. end < 2 * length journal.now.declared.links) }
    ensures listed { IfSome result (λ end. IsSome (end_numbers cell.now.ends end)) }
    ensures awake { IfSome result (IsAwake journal.now) }
    ensures none { IfNone result (IsMarkedAt journal.now cell.now.ends place) }
{
    let Some(at) = cell.ends().get(place) else {
        return None;
    };
    let end = at.0;
    let count = journal.len() as u64;
    if end.number() >= ends {
        return None;
    }
    if journal.mark(end) == Some(count) {
        return None;
    }
    Some(end)
}

/// Adds the packets that came out at each node.
fn add_came_out(
    alloc: Global,
    journal: &Journal<'_>,
    nodes: u16,
    all: &mut Vec<Vec<Packet>>,
) -> Result<(), AllocError>
    requires nodes { nodes ≡ length journal.now.declared.nodes }
    requires none { all.old.items ≡ [] }
    ensures { IfOk result (λ _. AreOutBy journal.now nodes (map (λ packets. packets.items) all.new.items)) }
{
    for node in 0..nodes {
        all.push(journal.came_out(alloc, node)?)?;
    }
    Ok(())
}

/// The packets that came out at each node.
fn all_came_out(
    alloc: Global,
    journal: &Journal<'_>,
    nodes: u16,
) -> Result<Vec<Vec<Packet>>, AllocError>
    requires { nodes ≡ length journal.now.declared.nodes }
    ensures { IfOk result (λ all. AreOutBy journal.now nodes (map (λ packets. packets.items) all.items)) }
{
    let mut all = Vec::with_capacity(alloc, nodes as usize)?;
    match add_came_out(alloc, journal, nodes, &mut all) {
        Ok(()) => Ok(all),
        Err(error) => Err(error),
    }
}
