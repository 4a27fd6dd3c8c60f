//! A new journal, and its cells.
ghost use Rattle.std.specs.Prelude.{◌≡◌, ◌++◌, ◌<◌, ◌≤◌, ◌*◌, [], ◌∷◌, IfOk, None, OnOk, List, length, replicate};
ghost use Rattle.sw_cell.specs.Places.{machine_cell};
ghost use Rattle.sw_cell.specs.declared.cell.CellId.{CellId};
ghost use Rattle.sw_config.specs.Valid.{IsValid};
ghost use Rattle.sw_journal.specs.Cells.{all_known, cells_of, numbered, same_cell};
ghost use Rattle.sw_journal.specs.Opening.{AreOpened};
ghost use Rattle.sw_journal.specs.Record.{new_cells};
ghost use Rattle.sw_machine.specs.State.{empty};
ghost use Rattle.sw_machine.specs.Model.{network_of};
ghost use Rattle.sw_net.specs.Net.{IsNetState};
ghost use Rattle.sw_journal.specs.Views.{knower};

use crate::cell::Cell;
use crate::cell_table::{CellSeat, CellTable};
use crate::seats::{begin, grow, part};
use std::alloc::{AllocError, Global};
use sw_arb::Policy;
use sw_cell::CellId;
use sw_config::Network;
use sw_net::{Net, Numbers, SwitchRoutes};
use sw_topo::{LinkEnd, PlaceEnd};

/// Whether the link end stands at that cell.
fn stands_at(network: &Network, end: LinkEnd, id: CellId) -> bool
    requires { end < 2 * length network.now.links }
    ensures { result ≡ same_cell ((network_of network.now).start_of end) (machine_cell id) }
{
    match network.topology().start_of(end.sends()) {
        PlaceEnd::Node(n) => id.is(CellId::Node(n)),
        PlaceEnd::Switch(w, _) => id.is(CellId::Switch(w)),
    }
}

/// The link ends of the cell, each with its numbers.
fn ends_of(
    alloc: Global,
    net: &Net<'_, SwitchRoutes<'_>, Policy>,
    id: CellId,
) -> Result<Vec<(LinkEnd, Numbers)>, AllocError>
    requires { IsNetState net.now (empty (network_of net.now.declared)) }
    ensures { IfOk result (λ v. v.items ≡ numbered (network_of net.now.declared) (empty (network_of net.now.declared)) id) }
{
    let mut ends = Vec::new(alloc);
    for number in 0..net.network().channels() {
        let end = LinkEnd::new(number);
        if !stands_at(net.network(), end, id) {
            continue;
        }
        ends.push((end, net.numbers(end)))?;
    }
    Ok(ends)
}

/// One more cell.
fn open(
    alloc: Global,
    net: &Net<'_, SwitchRoutes<'_>, Policy>,
    table: &CellTable,
    seat: &mut CellSeat,
    cells: &mut Vec<Cell>,
    id: CellId,
) -> Result<(), AllocError>
    requires state { IsNetState net.now (empty (network_of net.now.declared)) }
    requires table { 0 < table.now.shared.table_id.words }
    requires seat { seat.old.table_id ≡ table.now.shared.table_id }
    requires opened { (ids : List CellId) × AreOpened net.now.declared table.now.shared.table_id ids cells.old.items seat.old.me }
    ensures seat { seat.new.table_id ≡ seat.old.table_id }
    ensures opened { OnOk result ((ids : List CellId) → AreOpened net.now.declared table.now.shared.table_id ids cells.old.items seat.old.me → AreOpened net.now.declared table.now.shared.table_id (ids ++ id ∷ []) cells.new.items seat.new.me) }
{
    let ends = ends_of(alloc, net, id)?;
    grow(table, seat, id, &ends);
    let number = cells.len() as u64;
    let cell = Cell {
        id,
        number,
        ends,
        seat: part(table, seat),
    };
    cells.push(cell)?;
    Ok(())
}

/// The cells of all nodes, and behind these of all switches.
fn open_all(
    alloc: Global,
    net: &Net<'_, SwitchRoutes<'_>, Policy>,
    table: &CellTable,
    seat: &mut CellSeat,
    cells: &mut Vec<Cell>,
) -> Result<(), AllocError>
    requires state { IsNetState net.now (empty (network_of net.now.declared)) }
    requires table { 0 < table.now.shared.table_id.words }
    requires seat { seat.old.table_id ≡ table.now.shared.table_id }
    requires opened { AreOpened net.now.declared table.now.shared.table_id [] cells.old.items seat.old.me }
    ensures seat { seat.new.table_id ≡ seat.old.table_id }
    ensures opened { OnOk result (AreOpened net.now.declared table.now.shared.table_id (cells_of net.now.declared) cells.new.items seat.new.me) }
{
    for n in 0..net.network().nodes() {
        open(alloc, net, table, seat, cells, CellId::Node(n))?;
    }
    for w in 0..net.network().switches() {
        open(alloc, net, table, seat, cells, CellId::Switch(w))?;
    }
    Ok(())
}

/// The link ends of each cell stand at these places of its list.
fn set_places(places: &mut [u16], cells: &[Cell]) {
    for cell in cells {
        let mut place = 0u16;
        for (end, _) in cell.ends() {
            if let Some(at) = places.get_mut(end.number() as usize) {
                *at = place;
            }
            place = place.saturating_add(1);
        }
    }
}

/// What a new journal begins with beside its history, and its cells.
pub(crate) struct Opening {
    pub(crate) marks: Vec<Option<u64>>,
    pub(crate) places: Vec<u16>,
    pub(crate) table: CellTable,
    pub(crate) seat: CellSeat,
    pub(crate) cells: Vec<Cell>,
}

/// What they are for a network in its empty state.
pub(crate) fn opening_of(
    alloc: Global,
    net: &Net<'_, SwitchRoutes<'_>, Policy>,
) -> Result<Opening, AllocError>
    requires { IsNetState net.now (empty (network_of net.now.declared)) }
    ensures valid { IfOk result (λ _. IsValid net.now.declared) }
    ensures marks { IfOk result (λ o. o.marks.items ≡ replicate (2 * length net.now.declared.links) None) }
    ensures table { IfOk result (λ o. 0 < o.table.shared.table_id.words) }
    ensures seat { IfOk result (λ o. o.seat.table_id ≡ o.table.shared.table_id) }
    ensures known { IfOk result (λ o. o.seat.me ≡ (knower (all_known net.now.declared (empty (network_of net.now.declared))), [])) }
    ensures cells { IfOk result (λ o. o.cells.items ≡ new_cells net.now.declared o.table.shared.table_id) }
{
    let channels = net.network().channels() as usize;
    let marks = vec![in alloc; None; channels]?;
    let mut places = vec![in alloc; 0u16; channels]?;
    let (table, mut seat) = begin(alloc)?;
    let mut cells = Vec::new(alloc);
    open_all(alloc, net, &table, &mut seat, &mut cells)?;
    set_places(&mut places, &cells);
    Ok(Opening {
        marks,
        places,
        table,
        seat,
        cells,
    })
}
