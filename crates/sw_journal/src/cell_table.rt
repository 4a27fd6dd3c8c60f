//! The rule of the table.

use atomic_table::{Join, Play, Seat, Split, Table, TableRule};
use std::alloc::Global;
use std::collections::LinkedList;
use sw_cell::CellId;
use sw_net::Numbers;
use sw_topo::LinkEnd;

/// What is known of a cell: which it is, and its link ends, each with its numbers. No value of it is
/// made.
pub struct Known {
    /// Which node or switch it is.
    pub id: CellId,
    /// Its link ends, each with its numbers of flow control.
    pub ends: LinkedList<(LinkEnd, Numbers)>,
}

/// What a seat knows. No value of it is made.
pub struct View {
    /// Whether the seat is the journal's.
    pub keeps: bool,
    /// What the journal's seat knows of each cell; empty at other seats.
    pub all: LinkedList<Known>,
    /// Whether the seat stands for a cell.
    pub claims: bool,
    /// The number of that cell in the journal's list; else 0.
    pub cell: u64,
    /// What the seat knows of it.
    pub known: Known,
}

/// What a step tells: which cell is new; a link end that it has, with its numbers; or the numbers that
/// stand for the link end at a place of its list from now on.
#[derive(Drop)]
pub enum SeatChange {
    /// A new cell.
    Cell(CellId),
    /// A link end of the new cell, behind those that it has.
    End(LinkEnd, Numbers),
    /// The numbers of the link end at that place of the list, counted from 0.
    Numbers(usize, Numbers),
}

/// What holds of all seats at once: one at most is the journal's, one at most stands for each cell, and
/// what it knows is what the journal's knows of that cell.
pub struct CellRule;

impl TableRule<SeatChange, View, ()> for CellRule {
    ghost use Rattle.std.specs.Prelude.{[]};
    ghost use Rattle.sw_journal.specs.Views.{knower, Kept};

    ghost holds = { λ _ s. Kept s.views };

    ghost first = { λ _. knower [] };
}

/// A load: the journal's seat learns that what it knows of the cell is what the journal knows.
pub struct Compare;

impl Play<SeatChange, View> for Compare {
    ghost use Rattle.sw_journal.specs.Views.{Checked};

    ghost then = { Checked };
}

/// A step: a link end of the cell has other numbers from now on.
pub struct SetNumbers;

impl Play<SeatChange, View> for SetNumbers {
    ghost use Rattle.sw_journal.specs.Views.{Changed};

    ghost then = { Changed };
}

/// A step: the cell has one more link end.
pub struct AddLinkEnd;

impl Play<SeatChange, View> for AddLinkEnd {
    ghost use Rattle.sw_journal.specs.Views.{Pushed};

    ghost then = { Pushed };
}

/// A step: there is a new cell.
pub struct OpenCell;

impl Play<SeatChange, View> for OpenCell {
    ghost use Rattle.sw_journal.specs.Views.{Opened};

    ghost then = { Opened };
}

/// Hands on what a seat stands for.
pub struct HandOver;

impl Split<View> for HandOver {
    ghost use Rattle.sw_journal.specs.Views.{held_of, kept_of};

    ghost left = { kept_of };

    ghost right = { held_of };
}

impl Join<View> for HandOver {
    ghost use Rattle.sw_journal.specs.Views.{nobody, shown};

    ghost both = { shown };

    ghost spent = { nobody };
}

/// The table of a journal and its cells.
pub type CellTable = Table<SeatChange, View, (), CellRule, Global>;

/// A seat of the journal or of a cell.
pub type CellSeat = Seat<SeatChange, View>;
