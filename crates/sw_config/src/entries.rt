//! The entries of a network's nodes, switches and links.
ghost use Rattle.std.specs.Prelude.{◌≡◌, IfOk};

use either::Either;
use std::alloc::{AllocError, Global};
use std::marker::Model;
use sw_arb::Arbitration;
use sw_rmap::TargetConfig;
use sw_route::{IntervalRoutes, PlaceEnd, Route, TableRoutes};

/// A node.
#[derive(Drop)]
pub(crate) struct Node {
    pub(crate) name: String,
    pub(crate) target: Option<TargetConfig>,
    pub(crate) outstanding: Option<u16>,
}

impl Model for Node {
    ghost use Rattle.std.specs.Prelude.{string_bytes};
    ghost use Rattle.sw_config.specs.Entries.{NodeEntry};

    ghost Value = { NodeEntry };

    ghost view = { λ n. record { name = string_bytes n.name; target = n.target; outstanding = n.outstanding } };
}

/// A link.
#[derive(Clone, Copy)]
pub(crate) struct Link {
    pub(crate) a: PlaceEnd,
    pub(crate) b: PlaceEnd,
    pub(crate) buffer_a: u16,
    pub(crate) buffer_b: u16,
}

impl Model for Link {
    ghost use Rattle.sw_config.specs.Entries.{LinkEntry};

    ghost Value = { LinkEntry };

    ghost view = { λ l. record { a = l.a; b = l.b; buffer_a = l.buffer_a; buffer_b = l.buffer_b } };

    ghost inverse = { λ e. record { a = e.a; b = e.b; buffer_a = e.buffer_a; buffer_b = e.buffer_b } };
}

/// The greatest number of entries at which a routing table is searched from its first entry on.
const MAX_LISTED: usize = 16;

/// A routing switch.
#[derive(Drop)]
pub(crate) struct Switch {
    pub(crate) name: String,
    pub(crate) arbitration: Arbitration,
    pub(crate) routes: Vec<Route>,
    pub(crate) routing: Either<TableRoutes, IntervalRoutes>,
}

impl Model for Switch {
    ghost use Rattle.std.specs.Prelude.{string_bytes};
    ghost use Rattle.sw_config.specs.Entries.{SwitchEntry};
    ghost use Rattle.sw_config.specs.Routings.{IsRouting};

    ghost Value = { SwitchEntry };

    ghost view = { λ s. record { name = string_bytes s.name; arbitration = s.arbitration; routes = s.routes.items } };

    ghost invariant = { λ s. IsRouting s.routes.items s.routing };
}

impl Switch {
    ghost use Rattle.sw_config.specs.Valid.{IsSwitch};

    /// A switch whose table is searched by intervals if it is long.
    pub(crate) fn new(
        alloc: Global,
        name: &str,
        arbitration: Arbitration,
        table: TableRoutes,
    ) -> Result<Switch, AllocError>
        ensures entry { IfOk result (λ s. s ≡ record { name = name.now; arbitration = arbitration; routes = table }) }
        ensures valid { IfOk result IsSwitch }
    {
        let name = String::from_str(alloc, name)?;
        let routes = Vec::from_slice(alloc, table.routes())?;
        let routing = if routes.len() <= MAX_LISTED {
            Either::Left(table)
        } else {
            Either::Right(IntervalRoutes::from_table(alloc, &table)?)
        };
        Ok(Switch {
            name,
            arbitration,
            routes,
            routing,
        })
    }
}
