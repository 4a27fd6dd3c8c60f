//! A routing table as intervals of logical addresses with one answer each.
ghost use Rattle.std.specs.Prelude.{◌≡◌, ℕ, ◌<◌, ◌≤◌, nat_le, nat_lt, find, slice_get, IfOk};
ghost use Rattle.sw_route.specs.Looks.{no_look, look_of};
ghost use Rattle.sw_route.specs.Intervals.{intervals_look, interval_or, IsIntervals};

use crate::look::Look;
use crate::routing::Routing;
use crate::table::TableRoutes;
use std::alloc::{AllocError, Global};
use std::marker::Model;
use sw_topo::Port;

/// The logical addresses up to `last` that no interval before it has, and what they name.
#[derive(Clone, Copy, PartialEq, Eq)]
pub struct Interval {
    /// 32 to 254 in the intervals of a table.
    pub last: u8,
    /// What each of them names.
    pub look: Look,
}

/// A routing table as rising intervals of logical addresses with one answer each. It is searched by halving, so an answer takes
/// no more steps where there are many entries.
#[derive(Drop)]
pub struct IntervalRoutes {
    intervals: Vec<Interval>,
}

impl Model for IntervalRoutes {
    ghost use Rattle.std.specs.Prelude.{List};
    ghost use Rattle.sw_route.specs.declared.intervals.Interval.{Interval};
    ghost use Rattle.sw_route.specs.Intervals.{IsIntervals};

    ghost Value = { List Interval };

    ghost view = { λ t. t.intervals.items };

    ghost invariant = { λ t. IsIntervals t.intervals.items };
}

// Where the first interval that does not end before the address stands.
fn place_of(intervals: &[Interval], address: u8) -> usize
    requires { IsIntervals intervals.now }
    ensures { slice_get intervals.now result ≡ find (λ i. nat_le address i.last) intervals.now }
{
    intervals.partition_point(
        |i: &Interval| -> bool
            ensures { result ≡ nat_lt i.now.last address }
        { i.last < address },
    )
}

fn interval_look(intervals: &[Interval], address: u8) -> Look
    requires { IsIntervals intervals.now }
    ensures { result ≡ interval_or no_look intervals.now address }
{
    match intervals.get(place_of(intervals, address)) {
        Some(interval) => interval.look,
        None => Look::none(),
    }
}

impl IntervalRoutes {
    /// The intervals of a table: no two neighbours have one look. They answer every byte as the table.
    ///
    /// # Errors
    ///
    /// There is no memory for the intervals.
    pub fn from_table(alloc: Global, table: &TableRoutes) -> Result<IntervalRoutes, AllocError>
        ensures intervals { IfOk result IsIntervals }
        ensures same { IfOk result (λ t. (byte : ℕ) → intervals_look t byte ≡ look_of table.now byte) }
    {
        let mut intervals = Vec::new(alloc);
        let (mut look, mut place) = table.look_near(32, 0);
        for address in 33..255 {
            let (next, near) = table.look_near(address, place);
            place = near;
            if next != look {
                intervals.push(Interval {
                    last: address - 1,
                    look,
                })?;
                look = next;
            }
        }
        intervals.push(Interval { last: 254, look })?;
        Ok(IntervalRoutes { intervals })
    }
}

impl Routing for IntervalRoutes {
    ghost use Rattle.std.specs.Prelude.{refl};
    ghost use Rattle.sw_route.specs.Intervals.{intervals_look};
    ghost use Rattle.sw_route.specs.Laws.{intervals_path};

    ghost answer = { intervals_look };

    fn look(&self, byte: u8) -> Look {
        match Port::new(byte) {
            Some(port) => Look::path(port),
            None if byte == 255 => Look::none(),
            None => interval_look(&self.intervals, byte),
        }
    }

    ghost path = { λ t byte low. intervals_path t byte low };

    ghost reserved = { λ t. refl };
}
