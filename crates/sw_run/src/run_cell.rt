//! A cell under its lock.
ghost use Rattle.std.specs.Prelude.{◌≡◌, IfOk};
ghost use Rattle.sw_cell.specs.Places.{IsIn};
ghost use Rattle.sw_journal.specs.Cells.{end_numbers};
ghost use Rattle.sw_run.specs.Arbiters.{HasArbiters, HasNewArbiters};
ghost use Rattle.sw_run.specs.Wanted.{TellsWhatMayFollow, wants_by, wants_fct};

use crate::arbiters::new_arbiters;
use crate::run_identity::RunIdentity;
use std::alloc::{AllocError, Global};
use std::marker::PhantomData;
use sw_arb::Policy;
use sw_config::Network;
use sw_journal::{Cell, Numbers};
use sw_link::flow_control::{ASKED_BY_FCT, MAX_BEFORE_FCT};
use sw_topo::LinkEnd;

/// A cell of one run, and if it is a switch, the arbiters of its outputs.
#[derive(Drop)]
pub(crate) struct RunCell<W: RunIdentity> {
    pub(crate) cell: Cell,
    /// By port, with the linked ports of the switch; that of an output without a link is never asked.
    pub(crate) arbiters: Vec<Policy>,
    of: PhantomData<W>,
    ghost name_is: { cell.name ≡ W.name },
    ghost has_arbiters: { HasArbiters W.declared cell.id arbiters.items },
}

/// Whether a link end with these numbers is to send an FCT: there is room for what it asks for.
fn wants_fct(numbers: Numbers) -> bool
    ensures { result ≡ wants_fct numbers }
{
    numbers.room >= ASKED_BY_FCT as u16 && numbers.outstanding <= MAX_BEFORE_FCT
}

/// Whether the link end is to send an FCT: the cell's own numbers tell, and they tell what a commit
/// of it answers (`sw_journal::laws::fct_by_numbers`).
fn wants(cell: &Cell, end: LinkEnd) -> bool
    ensures exact { result ≡ wants_by (end_numbers cell.now.ends end) }
    ensures may_follow { TellsWhatMayFollow cell.now end result }
{
    match cell.numbers(end) {
        Some(numbers) => wants_fct(numbers),
        None => false,
    }
}

/// The first link end of the cell that is to send an FCT.
pub(crate) fn first_wanted(cell: &Cell) -> Option<LinkEnd> {
    for (end, numbers) in cell.ends() {
        if wants_fct(*numbers) && wants(cell, *end) {
            return Some(*end);
        }
    }
    None
}

impl<W: RunIdentity> RunCell<W> {
    /// The cell, with arbiters as the network declares, none of which has picked yet.
    #[tactic(auto, using(crate::proofs::Policies::has_new))]
    pub(crate) fn new(
        alloc: Global,
        network: &Network,
        cell: Cell,
    ) -> Result<RunCell<W>, AllocError>
        requires network { network.now ≡ W.declared }
        requires name { cell.name ≡ W.name }
        requires inside { IsIn W.declared cell.id }
        ensures cell { IfOk result (λ l. l.cell ≡ cell) }
        ensures arbiters { IfOk result (λ l. HasNewArbiters W.declared l.cell.id l.arbiters.items) }
    {
        let arbiters = new_arbiters(alloc, network, cell.id())?;
        Ok(RunCell {
            cell,
            arbiters,
            of: PhantomData,
        })
    }
}
