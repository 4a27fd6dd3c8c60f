//! What is done with the seats of the table.
ghost use Rattle.std.specs.Prelude.{◌≡◌, ◌<◌, [], IfOk, Some, slice_get, true};
ghost use Rattle.sw_journal.specs.Views.{changed, grown, held_of, kept_of, knower, shown};

use crate::cell_table::{
    AddLinkEnd, CellSeat, CellTable, Compare, HandOver, OpenCell, SeatChange, SetNumbers,
};
use std::alloc::{AllocError, Global};
use sw_cell::CellId;
use sw_net::Numbers;
use sw_topo::LinkEnd;

/// A table, and the journal's seat, which knows of no cell.
///
/// # Errors
///
/// There is no memory for the table.
pub fn begin(alloc: Global) -> Result<(CellTable, CellSeat), AllocError>
    ensures table { IfOk result (λ r. 0 < r.0.shared.table_id.words) }
    ensures name { IfOk result (λ r. r.1.table_id ≡ r.0.shared.table_id) }
    ensures seat { IfOk result (λ r. r.1.me ≡ (knower [], [])) }
{
    CellTable::of_words(alloc, &[0], &())
}

/// A new cell with these link ends, for which the journal's seat stands from now on.
pub fn grow(table: &CellTable, seat: &mut CellSeat, id: CellId, ends: &[(LinkEnd, Numbers)])
    requires table { 0 < table.now.shared.table_id.words }
    requires seat { (seat.old.table_id ≡ table.now.shared.table_id) × (seat.old.me.0.keeps ≡ true) }
    ensures { (seat.new.table_id ≡ seat.old.table_id) × (seat.new.me ≡ (grown seat.old.me.0 (record { id = id; ends = ends.now }), seat.old.me.1)) }
{
    let shared = &table.shared;
    shared.compare_exchange_with::<OpenCell>(seat, 0, 0, 0, &SeatChange::Cell(id));
    for (end, numbers) in ends {
        let change = SeatChange::End(*end, *numbers);
        shared.compare_exchange_with::<AddLinkEnd>(seat, 0, 0, 0, &change);
    }
}

/// Two seats meet: the journal's learns that what the cell's knows is its own for the cell, and
/// stands for the cell too.
pub fn meet(table: &CellTable, seat: &mut CellSeat, theirs: &mut CellSeat)
    requires table { 0 < table.now.shared.table_id.words }
    requires seat { (seat.old.table_id ≡ table.now.shared.table_id) × (seat.old.me.0.keeps ≡ true) }
    requires theirs { theirs.old.table_id ≡ table.now.shared.table_id }
    ensures table { (seat.new.table_id ≡ seat.old.table_id) × (theirs.new.table_id ≡ theirs.old.table_id) }
    ensures seat { seat.new.me ≡ (shown seat.old.me.0 theirs.old.me.0, seat.old.me.1) }
    ensures same { theirs.old.me.0.claims ≡ true → slice_get seat.old.me.0.all theirs.old.me.0.cell ≡ Some theirs.old.me.0.known }
{
    let shared = &table.shared;
    let note = shared.split_seat::<HandOver>(theirs);
    shared.join_seat::<HandOver>(seat, note);
    shared.load::<Compare>(seat, 0);
}

/// The link end at this place of the list of the cell that the journal's seat stands for has these
/// numbers from now on.
pub fn tell(table: &CellTable, seat: &mut CellSeat, at: usize, numbers: Numbers)
    requires table { 0 < table.now.shared.table_id.words }
    requires seat { (seat.old.table_id ≡ table.now.shared.table_id) × (seat.old.me.0.keeps ≡ true) × (seat.old.me.0.claims ≡ true) }
    ensures { (seat.new.table_id ≡ seat.old.table_id) × (seat.new.me ≡ (changed seat.old.me.0 at numbers, seat.old.me.1)) }
{
    table
        .shared
        .compare_exchange_with::<SetNumbers>(seat, 0, 0, 0, &SeatChange::Numbers(at, numbers));
}

/// A seat for what the journal's seat stands for.
pub fn part(table: &CellTable, seat: &mut CellSeat) -> CellSeat
    requires table { 0 < table.now.shared.table_id.words }
    requires seat { seat.old.table_id ≡ table.now.shared.table_id }
    ensures seat { (seat.new.table_id ≡ seat.old.table_id) × (seat.new.me ≡ (kept_of seat.old.me.0, seat.old.me.1)) }
    ensures new { (result.table_id ≡ seat.old.table_id) × (result.me ≡ (held_of seat.old.me.0, [])) }
{
    table.shared.split_seat::<HandOver>(seat)
}
