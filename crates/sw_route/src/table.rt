//! A routing table as the list of its entries.
ghost use Rattle.std.specs.Prelude.{◌≡◌, ◌≤◌, ◌↔◌, ◌++◌, ◌∷◌, [], length, find, All, IfSome, IsTrue, OnOk, OnErr};
ghost use Rattle.std.specs.List.{list_any};
ghost use Rattle.sw_route.specs.Looks.{IsTable, covers, entry, look_of, overlaps, route_look};
ghost use Rattle.sw_route.specs.declared.table.RouteError.TheVariants.{Memory};

use crate::look::{Look, Route};
use crate::routing::Routing;
use std::alloc::{AllocFailed, Global};
use std::marker::Model;
use sw_topo::{Port, PortSet};
use thiserror::Error;

/// Why an entry is not added.
#[derive(Debug, Drop, Error)]
pub enum RouteError {
    /// The table has an entry for one of the addresses.
    #[error("the table has an entry for one of the addresses")]
    Duplicate,
    /// There is no memory for it.
    #[error("out of memory")]
    Memory,
}

impl<T: Drop> From<AllocFailed<T>> for RouteError {
    ghost from_gives = { λ _ e. e ≡ Memory };

    fn from(_error: AllocFailed<T>) -> RouteError {
        RouteError::Memory
    }
}

/// A routing table: its entries, in the order in which they were added.
#[derive(Drop)]
pub struct TableRoutes {
    routes: Vec<Route>,
    // No entry is for a higher address: so a table that rises is added to without a search.
    highest: u8,
}

impl Model for TableRoutes {
    ghost use Rattle.std.specs.Prelude.{◌≤◌, All, List};
    ghost use Rattle.sw_route.specs.declared.look.Route.{Route};
    ghost use Rattle.sw_route.specs.Looks.{IsTable};

    ghost Value = { List Route };

    ghost view = { λ t. t.routes.items };

    ghost invariant = { λ t. IsTable t.routes.items × All (λ r. r.last ≤ t.highest) t.routes.items };
}

/// Is one of the entries, none of which is for an address above `highest`, for an address of this one?
fn has_overlap(routes: &[Route], highest: u8, route: &Route) -> bool
    requires { All (λ r. r.last ≤ highest) routes.now }
    ensures { result ≡ list_any (overlaps route.now) routes.now }
{
    if route.first > highest {
        return false;
    }
    for other in routes {
        if route.overlaps(other) {
            return true;
        }
    }
    false
}

/// The entry at this place, if it is for the address: no other of the table is.
fn entry_at(routes: &[Route], place: usize, address: u8) -> Option<&Route>
    requires { IsTable routes.now }
    ensures { IfSome result (λ r. look_of routes.now address ≡ record { ports = r.now.ports; delete = r.now.delete }) }
{
    match routes.get(place) {
        Some(route) if route.covers(address) => Some(route),
        _ => None,
    }
}

/// What the first entry for the address names.
fn entry_look(routes: &[Route], address: u8) -> Look
    ensures { result ≡ route_look (find (covers address) routes.now) }
{
    for route in routes {
        if route.covers(address) {
            return route.look();
        }
    }
    Look::none()
}

impl TableRoutes {
    ghost use Rattle.sw_route.specs.Looks.{IsTable};

    /// A table with no entry: each logical address names no port.
    pub fn new(alloc: Global) -> TableRoutes
        ensures { result ≡ [] }
    {
        TableRoutes {
            routes: Vec::new(alloc),
            highest: 0,
        }
    }

    /// How many entries it has.
    pub fn len(&self) -> usize
        ensures { result ≡ length self.now }
    {
        self.routes.len()
    }

    /// Has it no entry?
    pub fn is_empty(&self) -> bool
        ensures { IsTrue result ↔ (self.now ≡ []) }
    {
        self.routes.is_empty()
    }

    /// The entries, in the order in which they were added.
    pub fn routes(&self) -> &[Route]
        ensures routes { result.now ≡ self.now }
        ensures sound { IsTable self.now }
    {
        &self.routes
    }

    /// Adds an entry for one logical address.
    ///
    /// # Errors
    ///
    /// The table has an entry for the address already, or there is no memory for this one: then the table is as it was.
    pub fn add(&mut self, address: u8, ports: PortSet, delete: bool) -> Result<(), RouteError>
        requires low { 32 ≤ address }
        requires high { address ≤ 254 }
        ensures ok { OnOk result (self.new ≡ self.old ++ entry address address ports delete ∷ []) }
        ensures duplicate { (result ≡ Err RouteError.Duplicate) ↔ IsTrue (list_any (covers address) self.old) }
        ensures err { OnErr result (self.new ≡ self.old) }
    {
        self.add_range(address, address, ports, delete)
    }

    /// Adds an entry for the logical addresses from `first` to `last`.
    ///
    /// # Errors
    ///
    /// The table has an entry for one of the addresses already, or there is no memory for this one: then the table is as it was.
    pub fn add_range(
        &mut self,
        first: u8,
        last: u8,
        ports: PortSet,
        delete: bool,
    ) -> Result<(), RouteError>
        requires low { 32 ≤ first }
        requires rising { first ≤ last }
        requires high { last ≤ 254 }
        ensures ok { OnOk result (self.new ≡ self.old ++ entry first last ports delete ∷ []) }
        ensures duplicate { (result ≡ Err RouteError.Duplicate) ↔ IsTrue (list_any (overlaps (entry first last ports delete)) self.old) }
        ensures err { OnErr result (self.new ≡ self.old) }
    {
        let route = Route {
            first,
            last,
            ports,
            delete,
        };
        if has_overlap(&self.routes, self.highest, &route) {
            return Err(RouteError::Duplicate);
        }
        self.routes.push(route)?;
        self.highest = self.highest.max(last);
        Ok(())
    }

    /// What the address names, and where to look at first for the next one. The entry at `near` is looked at before the others, and
    /// then the one behind it: addresses in rising order are found without a search in a table that rises.
    pub(crate) fn look_near(&self, address: u8, near: usize) -> (Look, usize)
        ensures { result.0 ≡ look_of self.now address }
    {
        if let Some(route) = entry_at(&self.routes, near, address) {
            return (route.look(), near);
        }
        let next = near.saturating_add(1);
        match entry_at(&self.routes, next, address) {
            Some(route) => (route.look(), next),
            None => (self.look(address), near),
        }
    }
}

impl Routing for TableRoutes {
    ghost use Rattle.std.specs.Prelude.{refl};
    ghost use Rattle.sw_route.specs.Looks.{look_of};
    ghost use Rattle.sw_route.specs.Laws.{table_path};

    ghost answer = { look_of };

    fn look(&self, byte: u8) -> Look {
        match Port::new(byte) {
            Some(port) => Look::path(port),
            None if byte == 255 => Look::none(),
            None => entry_look(&self.routes, byte),
        }
    }

    ghost path = { λ t byte low. table_path t byte low };

    ghost reserved = { λ t. refl };
}
