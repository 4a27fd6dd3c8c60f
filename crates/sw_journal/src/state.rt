//! What a cell has of the state after a journal's history.
ghost use Rattle.std.specs.Prelude.{IfOk};
ghost use Rattle.sw_cell.specs.Places.{IsIn};
ghost use Rattle.sw_journal.specs.Record.{LeadsTo};
ghost use Rattle.sw_machine.specs.State.{State};
ghost use Rattle.sw_net.specs.Parts.{IsPartOf};

use crate::journal::Journal;
use std::alloc::{AllocError, Global};
use sw_cell::CellId;
use sw_net::Part;

impl<'n> Journal<'n> {
    /// What the cell, which is one of the network's, has of the state after the history: of a node
    /// its characters, replies, memory and link, of a switch each port with a link, in rising order.
    ///
    /// # Errors
    ///
    /// There is no memory for the part.
    pub fn state_of(&self, alloc: Global, cell: CellId) -> Result<Part, AllocError>
        requires { IsIn self.now.declared cell }
        ensures { IfOk result (λ part. (s : State) → LeadsTo self.now s → IsPartOf self.now.declared s cell part) }
    {
        self.history.net().part(alloc, cell)
    }
}
