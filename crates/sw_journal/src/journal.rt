//! The journal.
ghost use Rattle.std.specs.Prelude.{◌≡◌, ◌≤◌, length};
ghost use Rattle.sw_journal.specs.Adding.{AddsAt, HasRoom, IsAtCell};
ghost use Rattle.sw_machine.specs.StepValues.{machine_step};

use crate::cell::Cell;
use crate::cell_table::{CellSeat, CellTable};
use crate::fault::JournalFault;
use crate::opening::{Opening, opening_of};
use crate::renewal::{changed_ends, renew_after};
use crate::seats::{meet, part};
use std::alloc::{AllocError, Global};
use std::marker::Model;
use sw_arb::Policy;
use sw_cell::{CellId, cell_of};
use sw_config::Network;
use sw_history::{History, StepFault};
use sw_load::Load;
use sw_machine::Step;
use sw_net::{SwitchRoutes, declared_net};

/// The history of a run, which has a limit, and after how many steps each link end was found idle
/// last.
#[derive(Drop)]
pub struct Journal<'n> {
    pub(crate) history: History<'n, SwitchRoutes<'n>, Policy>,
    pub(crate) limit: usize,
    pub(crate) marks: Vec<Option<u64>>,
    pub(crate) table: CellTable,
    pub(crate) seat: CellSeat,
    /// By link end, at which place of its cell's list it stands: where it is looked for first.
    pub(crate) places: Vec<u16>,
}

impl<'n> Model for Journal<'n> {
    ghost use Rattle.std.specs.Prelude.{◌≡◌, ◌<◌};
    ghost use Rattle.sw_journal.specs.Record.{JournalView, IsKept};

    ghost Value = { JournalView };

    ghost view = { λ j. record {
      name = j.table.shared.table_id;
      declared = j.history.declared;
      load = j.history.load;
      limit = j.limit;
      history = j.history.steps;
      marks = j.marks.items;
    } };

    ghost invariant = { λ j. IsKept (record {
      name = j.table.shared.table_id;
      declared = j.history.declared;
      load = j.history.load;
      limit = j.limit;
      history = j.history.steps;
      marks = j.marks.items;
    }) j.seat.me
        × (j.seat.table_id ≡ j.table.shared.table_id)
        × (0 < j.table.shared.table_id.words) };
}

impl<'n> Journal<'n> {
    ghost use Rattle.std.specs.Prelude.{IfOk};
    ghost use Rattle.sw_journal.specs.Record.{Commits, IsTrueView, IsNew, IsNowCell, new_cells};
    ghost use Rattle.sw_load.specs.Laws.{AreDeclared};
    ghost use Rattle.sw_machine.specs.StepValues.{machine_step};

    /// A journal of no steps and no marks, and a cell for each node and each switch of the network,
    /// in their order, in the empty state.
    ///
    /// # Errors
    ///
    /// There is no memory for the journal or its cells.
    pub fn new(
        alloc: Global,
        network: &'n Network,
        load: &'n Load,
        limit: usize,
    ) -> Result<(Journal<'n>, Vec<Cell>), AllocError>
        requires { AreDeclared network.now load.now }
        ensures journal { IfOk result (λ r. IsNew network.now load.now limit r.0) }
        ensures cells { IfOk result (λ r. r.1.items ≡ new_cells network.now r.0.name) }
    {
        let history = History::new(alloc, declared_net(alloc, network)?, load)?;
        match opening_of(alloc, history.net()) {
            Ok(
                Opening {
                    marks,
                    places,
                    table,
                    seat,
                    cells,
                },
            ) => {
                let journal = Journal {
                    history,
                    limit,
                    marks,
                    table,
                    seat,
                    places,
                };
                Ok((journal, cells))
            }
            Err(refused) => {
                // Its network is let go there, and not once more here.
                drop(history.into_steps());
                Err(refused)
            }
        }
    }

    /// How many steps there are.
    pub fn len(&self) -> usize
        ensures len { result ≡ length self.now.history }
        ensures true_view { IsTrueView self.now }
    {
        self.history.len()
    }

    /// Makes the step at the cell and adds it to the history, if it is one of the cell's and may be
    /// the next. The cell then has its new numbers.
    ///
    /// # Errors
    ///
    /// `NotEnabled`: the step is not one of the cell's or may not be the next. `Full`: it is and
    /// may, but the history has as many steps as it may have. `Memory`: it is and may, and the
    /// history has fewer, but there is no memory for the step or for what it stores. A refusal
    /// changes nothing, and the step is gone.
    #[inline(never)]
    pub fn commit(&mut self, alloc: Global, cell: &mut Cell, step: Step) -> Result<(), JournalFault>
        requires { cell.old.name ≡ self.old.name }
        ensures commits { Commits self.old cell.old (machine_step step) result self.new cell.new }
        ensures numbers { IsNowCell self.old cell.old }
    {
        let Journal {
            history,
            limit,
            marks: _,
            table,
            seat,
            places,
        } = self;
        meet(table, seat, &mut cell.seat);
        let these = changed_ends(history, &step);
        if let Err(fault) = add_at(alloc, history, cell.id, *limit, step) {
            cell.seat = part(table, seat);
            return Err(fault);
        }
        renew_after(history, table, seat, &mut cell.ends, &these, places);
        cell.seat = part(table, seat);
        Ok(())
    }
}

/// Whether the step is done at that cell.
#[inline(always)]
fn is_at(network: &Network, at: CellId, step: &Step) -> bool
    ensures { IsAtCell network.now at (machine_step step.now) result }
{
    match cell_of(network, step) {
        Ok(own) => own.is(at),
        Err(_) => false,
    }
}

/// Whether the step is one of the cell's and there is room for it below the limit. Where there is
/// none, whether it may be the next.
#[inline(always)]
fn make_room(
    history: &mut History<'_, SwitchRoutes<'_>, Policy>,
    at: CellId,
    limit: usize,
    step: &Step,
) -> Result<(), JournalFault>
    requires { length history.old.steps ≤ limit }
    ensures { HasRoom history.old at limit (machine_step step.now) result history.new }
{
    if !is_at(history.network(), at, step) {
        return Err(JournalFault::NotEnabled);
    }
    let full = if history.len() == limit {
        JournalFault::Full
    } else if history.reserve().is_err() {
        JournalFault::Memory
    } else {
        return Ok(());
    };
    if history.may_follow(step) {
        Err(full)
    } else {
        Err(JournalFault::NotEnabled)
    }
}

/// Adds the step, if it is one of the cell's, may be the next, and there is room below the limit.
#[inline(always)]
fn add_at(
    alloc: Global,
    history: &mut History<'_, SwitchRoutes<'_>, Policy>,
    at: CellId,
    limit: usize,
    step: Step,
) -> Result<(), JournalFault>
    requires { length history.old.steps ≤ limit }
    ensures adds { AddsAt history.old at limit (machine_step step) result history.new }
{
    if let Err(fault) = make_room(history, at, limit, &step) {
        return Err(fault);
    }
    match history.add(alloc, step) {
        Ok(()) => Ok(()),
        Err(StepFault::NotEnabled) => Err(JournalFault::NotEnabled),
        Err(StepFault::Memory) => Err(JournalFault::Memory),
    }
}
