//! The numbers of a cell after a step.
ghost use Rattle.std.specs.Prelude.{◌≡◌, ◌*◌, ◌<◌, All, IfSome, None, Some, length, map, option_map, slice_get, true};
ghost use Rattle.sw_journal.specs.Renewal.{AreOnce, AreRenewed, AreRenewedAfter, ChangesOnlyThen, IsRenewed};
ghost use Rattle.sw_journal.specs.Views.{with_known};
ghost use Rattle.sw_machine.specs.StepValues.{machine_step};

use crate::cell_table::{CellSeat, CellTable};
use crate::seats::tell;
use sw_arb::Policy;
use sw_history::History;
use sw_machine::Step;
use sw_net::{Net, Numbers, SwitchRoutes};
use sw_topo::LinkEnd;

/// The link ends whose numbers the step changes, if it may follow.
#[inline(always)]
pub(crate) fn changed_ends(
    history: &History<'_, SwitchRoutes<'_>, Policy>,
    step: &Step,
) -> (Option<LinkEnd>, Option<LinkEnd>)
    ensures { ChangesOnlyThen history.now (machine_step step.now) result }
{
    history.net().changed_ends(step)
}

/// The link end at this place, if it is that one, has its numbers in the net from now on. The table
/// is told where they are new.
#[inline(always)]
fn renew_one(
    net: &Net<'_, SwitchRoutes<'_>, Policy>,
    table: &CellTable,
    seat: &mut CellSeat,
    ends: &mut Vec<(LinkEnd, Numbers)>,
    own: LinkEnd,
    place: usize,
)
    requires table { 0 < table.now.shared.table_id.words }
    requires seat { (seat.old.table_id ≡ table.now.shared.table_id) × (seat.old.me.0.keeps ≡ true) × (seat.old.me.0.claims ≡ true) }
    requires known { seat.old.me.0.known.ends ≡ ends.old.items }
    requires same { slice_get seat.old.me.0.all seat.old.me.0.cell ≡ Some seat.old.me.0.known }
    requires within { All (λ p. p.0 < 2 * length net.now.declared.links) ends.old.items }
    requires place { place < length ends.old.items }
    ensures numbers { IsRenewed net.now (Some own, None) place ends.old.items ends.new.items }
    ensures names { map (λ p. p.0) ends.new.items ≡ map (λ p. p.0) ends.old.items }
    ensures table { seat.new.table_id ≡ seat.old.table_id }
    ensures seat { seat.new.me ≡ (with_known seat.old.me.0 (record { id = seat.old.me.0.known.id; ends = ends.new.items }), seat.old.me.1) }
{
    let (end, known) = ends[place];
    if end.number() != own.number() {
        return;
    }
    let numbers = net.numbers(end);
    if numbers == known {
        return;
    }
    ends[place] = (end, numbers);
    tell(table, seat, place, numbers);
}

/// That link end has its numbers in the net from now on, wherever it stands, and the table is told.
fn renew(
    net: &Net<'_, SwitchRoutes<'_>, Policy>,
    table: &CellTable,
    seat: &mut CellSeat,
    ends: &mut Vec<(LinkEnd, Numbers)>,
    own: LinkEnd,
)
    requires table { 0 < table.now.shared.table_id.words }
    requires seat { (seat.old.table_id ≡ table.now.shared.table_id) × (seat.old.me.0.keeps ≡ true) × (seat.old.me.0.claims ≡ true) }
    requires known { seat.old.me.0.known.ends ≡ ends.old.items }
    requires same { slice_get seat.old.me.0.all seat.old.me.0.cell ≡ Some seat.old.me.0.known }
    requires within { All (λ p. p.0 < 2 * length net.now.declared.links) ends.old.items }
    ensures numbers { AreRenewed net.now (Some own, None) ends.old.items ends.new.items }
    ensures names { map (λ p. p.0) ends.new.items ≡ map (λ p. p.0) ends.old.items }
    ensures table { seat.new.table_id ≡ seat.old.table_id }
    ensures seat { seat.new.me ≡ (with_known seat.old.me.0 (record { id = seat.old.me.0.known.id; ends = ends.new.items }), seat.old.me.1) }
{
    for place in 0..ends.len() {
        renew_one(net, table, seat, ends, own, place);
    }
}

/// The place of the link end in the list, if it stands where it is looked for.
fn seen_at(ends: &[(LinkEnd, Numbers)], end: LinkEnd, places: &[u16]) -> Option<usize>
    ensures { IfSome result (λ k. option_map (λ p. p.0) (slice_get ends.now k) ≡ Some end) }
{
    let Some(place) = places.get(end.number() as usize) else {
        return None;
    };
    let place = usize::from(*place);
    let Some(seen) = ends.get(place) else {
        return None;
    };
    if seen.0.number() == end.number() {
        Some(place)
    } else {
        None
    }
}

/// The link end, if there is one, has its numbers in the net from now on, and the table is told. It
/// is looked for at its place first, and where it does not stand there, at each.
#[inline(always)]
fn renew_end(
    net: &Net<'_, SwitchRoutes<'_>, Policy>,
    table: &CellTable,
    seat: &mut CellSeat,
    ends: &mut Vec<(LinkEnd, Numbers)>,
    own: Option<LinkEnd>,
    places: &[u16],
)
    requires table { 0 < table.now.shared.table_id.words }
    requires seat { (seat.old.table_id ≡ table.now.shared.table_id) × (seat.old.me.0.keeps ≡ true) × (seat.old.me.0.claims ≡ true) }
    requires known { seat.old.me.0.known.ends ≡ ends.old.items }
    requires same { slice_get seat.old.me.0.all seat.old.me.0.cell ≡ Some seat.old.me.0.known }
    requires within { All (λ p. p.0 < 2 * length net.now.declared.links) ends.old.items }
    requires once { AreOnce (map (λ p. p.0) ends.old.items) }
    ensures numbers { AreRenewed net.now (own, None) ends.old.items ends.new.items }
    ensures names { map (λ p. p.0) ends.new.items ≡ map (λ p. p.0) ends.old.items }
    ensures table { seat.new.table_id ≡ seat.old.table_id }
    ensures seat { seat.new.me ≡ (with_known seat.old.me.0 (record { id = seat.old.me.0.known.id; ends = ends.new.items }), seat.old.me.1) }
{
    let Some(end) = own else {
        return;
    };
    if let Some(place) = seen_at(ends, end, places) {
        renew_one(net, table, seat, ends, end, place);
        return;
    }
    renew(net, table, seat, ends, end);
}

/// Each of the two has its numbers in the state after the history from now on, and the table is told.
#[inline(always)]
pub(crate) fn renew_after(
    history: &History<'_, SwitchRoutes<'_>, Policy>,
    table: &CellTable,
    seat: &mut CellSeat,
    ends: &mut Vec<(LinkEnd, Numbers)>,
    these: &(Option<LinkEnd>, Option<LinkEnd>),
    places: &[u16],
)
    requires table { 0 < table.now.shared.table_id.words }
    requires seat { (seat.old.table_id ≡ table.now.shared.table_id) × (seat.old.me.0.keeps ≡ true) × (seat.old.me.0.claims ≡ true) }
    requires known { seat.old.me.0.known.ends ≡ ends.old.items }
    requires same { slice_get seat.old.me.0.all seat.old.me.0.cell ≡ Some seat.old.me.0.known }
    requires within { All (λ p. p.0 < 2 * length history.now.declared.links) ends.old.items }
    requires once { AreOnce (map (λ p. p.0) ends.old.items) }
    ensures numbers { AreRenewedAfter history.now these.now ends.old.items ends.new.items }
    ensures table { seat.new.table_id ≡ seat.old.table_id }
    ensures seat { seat.new.me ≡ (with_known seat.old.me.0 (record { id = seat.old.me.0.known.id; ends = ends.new.items }), seat.old.me.1) }
{
    let after = history.net();
    renew_end(after, table, seat, ends, these.0, places);
    renew_end(after, table, seat, ends, these.1, places);
}
