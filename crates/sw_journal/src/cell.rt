//! A cell of a run.
ghost use Rattle.std.specs.Prelude.{◌≡◌};

use crate::cell_table::CellSeat;
use std::marker::Model;
use sw_cell::CellId;
use sw_net::Numbers;
use sw_topo::LinkEnd;

/// A node or a switch of a network, with the numbers of its link ends in the state after a journal's
/// history.
#[derive(Drop)]
pub struct Cell {
    pub(crate) id: CellId,
    pub(crate) number: u64,
    pub(crate) ends: Vec<(LinkEnd, Numbers)>,
    pub(crate) seat: CellSeat,
}

impl Model for Cell {
    ghost use Rattle.std.specs.Prelude.{◌≡◌, []};
    ghost use Rattle.sw_journal.specs.Record.{CellView};
    ghost use Rattle.sw_journal.specs.Views.{holder};

    ghost Value = { CellView };

    ghost view = { λ c. record { name = c.seat.table_id; id = c.id; ends = c.ends.items } };

    ghost invariant = { λ c. c.seat.me ≡ (holder c.number (record { id = c.id; ends = c.ends.items }), []) };
}

impl Cell {
    ghost use Rattle.sw_journal.specs.Cells.{end_numbers};

    /// Which cell it is.
    pub fn id(&self) -> CellId
        ensures { result ≡ self.now.id }
    {
        self.id
    }

    /// Its link ends, each with its numbers.
    pub fn ends(&self) -> &[(LinkEnd, Numbers)]
        ensures { result.now ≡ self.now.ends }
    {
        self.ends.as_slice()
    }

    /// The numbers of the link end. None where it is not one of this cell's.
    pub fn numbers(&self, end: LinkEnd) -> Option<Numbers>
        ensures { result ≡ end_numbers self.now.ends end }
    {
        for (own, numbers) in self.ends() {
            if own.number() == end.number() {
                return Some(*numbers);
            }
        }
        None
    }
}
